//! Products of vectors and matrices, proved from the public contracts of nd_shape_and_slice and nd_array_core alone.
#![tactic(auto)]

mod elements_as_slice;
pub mod laws;
mod matrix_product;
mod sums_of_products;
mod vector_products;

pub use matrix_product::matrix_dot;
pub use vector_products::{dot, matrix_dot_vector};
