//! The text of an array, as ndarray writes it.

mod debug;
mod display;
mod element;
mod entries;
mod separators;
mod write_array;
