//! The vectors that new arrays are made of.

pub mod from_elem;
pub mod from_shape_fn;
