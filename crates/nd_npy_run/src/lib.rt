//! The program that takes the array of a `.npy` file through steps, as a function over any streams.
#![tactic(auto)]

mod arrays_reduced_along_axis;
mod conversions;
mod fault_messages;
mod item_numbers;
mod output_or_fault;
mod printed_arrays;
pub mod program;
mod reduction;
pub mod steps;
pub mod usage_and_argument_errors;
pub mod wanted_outputs;

pub use nd_text::{Flushes, Watched};
pub use output_or_fault::Fault;
pub use reduction::{Reduction, ReductionError};
pub use usage_and_argument_errors::ArgumentsError;
pub use wanted_outputs::Wanted;
