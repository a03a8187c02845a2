//! Calls that ask how the elements lie, return them as slices, or give them another shape, with a copy only where it is
//! needed.

pub mod as_standard_layout;
pub mod copies_in_an_order;
pub mod either_array;
pub mod elements_as_slice;
pub mod elements_as_slice_mut;
pub mod flatten;
pub mod into_shape;
pub mod into_shape_clone;
pub mod layout_questions;
pub mod serving_strides;
pub mod to_shape;
