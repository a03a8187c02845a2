//! Callers that read and write `.npy` files, and tests by the public functions: of the heads of numpy's files, of arrays in such
//! files, of steps on them, and of the program. Each module is named after what it tests, or after what several of the test
//! modules use.

mod errors;
mod floats;
pub mod header;
mod integers;
mod layouts;
mod numpy_file_checks;
mod program;
mod raw_items;
mod readers_and_writers;
mod refusals;
mod shapes;
mod steps;
mod streams;
mod text_checks;
pub mod transposed_npy_files;
