//! Arrays in numpy's `.npy` files: the array that the bytes of a file mean, and the bytes of the file of an array; both from
//! bytes in memory and through streams.
#![tactic(auto)]

// The types of elements.
mod floats;
mod item;
mod raw_items;
mod signed_integers;
mod truth_values;
mod unsigned_integers;

// Reading and writing.
mod elements_piece_by_piece;
mod errors;
mod item_values;
pub mod laws;
pub mod reader;
pub mod streams;
pub mod writer;

pub use errors::{ReadNpyError, ReadNpyFromError, WriteNpyError};
pub use item::{NpyItem, NpyNumber};
pub use nd_text::Watched;
