//! Owned arrays that grow.

mod append;
mod append_each;
mod append_to_vec;
pub mod joined_shape;
mod push;
mod relayout;
mod reserve;
