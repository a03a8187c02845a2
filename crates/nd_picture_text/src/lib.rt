//! The text of pictures: images in the formats of Netpbm, bitmaps, grey and coloured, in digits and in bytes (P1
//! to P6), and the steps that change them. This crate knows nothing of arrays.
#![tactic(auto)]

mod errors;
mod header;
pub mod header_from_stream;
mod image_formats;
pub mod laws;
mod numbers_in_image_text;
mod packed_bitmaps;
mod plain_rows_from_stream;
pub mod quoted_steps;
mod raster_samples;
pub mod reader;
pub mod rows_from_stream;
mod step;
pub mod step_words;
pub mod writer;

pub use errors::{ImageError, ImageFlaw, StepFlaw, WordsError};
pub use image_formats::{Header, Image, Kind};
pub use rows_from_stream::RowsError;
pub use step::Step;
