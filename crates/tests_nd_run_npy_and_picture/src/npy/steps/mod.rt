//! Tests of steps that are read from words and taken. The arrays after the steps are those of numpy.

mod raw_items;
mod refusals;
mod sliced_and_transposed_arrays;
mod step_checks;
