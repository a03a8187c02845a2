//! Pictures in the formats of Netpbm that are cropped, turned and changed sample by sample: as a library, and as a
//! whole program that runs over any streams.
#![tactic(auto)]

// The steps that change a picture.
mod blur;
mod border;
mod gray;
pub mod image_steps_applied;
mod shrink;
mod steps_changing_samples;
mod steps_moving_pixels;
mod steps_on_row_strips;

// An image's samples as an array, and an array as an image.
pub mod images_as_arrays;

// The program.
mod image_row_by_row;
pub mod program;
mod read_change_and_write;
pub mod usage_and_argument_errors;

pub use image_steps_applied::PictureStepsError;
pub use nd_text::{Flushes, Watched};
pub use read_change_and_write::Fault;
pub use usage_and_argument_errors::ArgumentsError;
