//! The head of a `.npy` file, in which numpy says of which type and in which order the elements are and how many there
//! are along each axis. This crate has no arrays.
#![tactic(auto)]

// What a head says, and why none can be read.
mod errors;
mod header;
mod item_type;

// Reading.
mod dict;
mod header_opening;
mod header_tokens;
mod item_words;
mod length_list;
pub mod reader;
mod shape_lengths;

// Writing.
pub mod laws;
pub mod writer;

pub use errors::{HeaderError, HeaderFlaw};
pub use header::{Header, Version};
pub use item_type::{ByteOrder, ItemType, Kind};
