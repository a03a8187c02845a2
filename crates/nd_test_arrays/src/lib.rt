//! What tests of arrays share: making arrays of given elements and comparing them, writing out slices, and numbers
//! whose clones are refused.
#![tactic(auto)]

mod array_and_slice_makers;
mod array_comparisons;
mod clone_refusing_numbers;
mod tables_and_lists;

pub use array_and_slice_makers::{NumberedElement, array_of, numbers, part};
pub use array_comparisons::{lists, made, shows, stores};
pub use clone_refusing_numbers::{Refusing, Tally};
pub use tables_and_lists::{
    any_axes, consecutive, counted_list, counted_table, goes_by, is_counted, is_list, is_list_seen,
    is_table, is_table_seen, list, list_by, list_stores, table, table_by, table_stores,
};
