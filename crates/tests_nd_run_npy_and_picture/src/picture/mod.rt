//! A caller of the steps of `nd_picture`, and tests of its `drive` by its public call. Each module is named after what it tests,
//! or after what several of the modules use.

mod bad_input;
pub mod crop_and_rotate;
mod failing_streams;
mod formats;
mod image_operations;
mod output_checks;
mod row_by_row_output;
mod usage_and_error_texts;
