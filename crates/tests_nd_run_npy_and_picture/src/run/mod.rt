//! Tests of `run` and `drive` of `nd_run` by their public calls. Each module is named after what it tests, or after what several of the modules use.

mod assign_fill_and_split;
mod bad_lines;
mod commands_in_three_layouts;
mod damaged_scripts;
mod failing_streams;
mod growing_arrays;
mod output_checks;
mod queries_select_and_reshape;
mod slices_axes_and_broadcasts;
