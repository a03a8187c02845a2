//! Tests of the program for `.npy` files, as a function over streams. The files are those of numpy.

mod failing_streams;
mod output_checks;
mod reductions;
mod refusals;
mod transformed_files_and_texts;
