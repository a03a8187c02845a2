//! Calls that show the same elements under another layout, without a copy: slices, axes, rows and columns, parts,
//! broadcasts, and views to be written.

pub mod axes;
pub mod broadcast;
pub mod diagonals;
pub mod dimension_types;
pub mod rows_and_columns;
pub mod several_slices;
pub mod slices;
pub mod splits;
pub mod views;
