//! Tests of the heads of `.npy` files, by the public functions of `nd_npy_text`.

// A caller that reads a head.
pub mod axis_count_of_header;
mod errors;
mod header_checks;
mod heads;
mod refusals;
