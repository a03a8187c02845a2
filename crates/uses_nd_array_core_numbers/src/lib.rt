//! Functions that call `nd_array_core` with arrays of numbers: sums, maxima and counts in coordinates, arrays made by
//! the index, reshapes to two axes, and an error type of the caller. Each is proved from the contracts of the functions
//! that it calls.
#![tactic(auto)]

pub mod broadcast_columns;
pub mod by_fold;
pub mod exchanged_halves;
pub mod indexed_map_inplace;
pub mod joined_axes;
pub mod mapped_pixels;
pub mod outer_products_and_triangles;
pub mod products_windows_and_counts;
pub mod zip_map_with_two;
