//! The type of arrays, its constructors, and calls that read and write elements.

pub mod aliases;
pub mod arr_and_aview;
pub mod array;
pub mod array_error;
pub mod clone;
pub mod constructors;
pub mod from;
pub mod from_shape;
pub mod from_shape_fn;
pub mod indexing;
pub mod indexing_mut;
pub mod lengths;
pub mod raw_vec;
pub mod square_matrices;
