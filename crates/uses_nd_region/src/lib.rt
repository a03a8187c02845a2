//! Functions that call `nd_region`. The contract of each states exactly what its slice holds afterwards.
#![tactic(auto)]

pub mod even_and_odd_places;
pub mod one_column;
pub mod part_by_value;
pub mod swapped_elements;
#[cfg(test)]
mod tests;
pub mod two_columns;
pub mod whole_slice;
