//! Callers of `nd_iter`, proved callers of the products of `nd_linalg`, and tests of these two, of `nd_stacking` and of
//! `nd_numeric` by their public calls.
#![tactic(auto)]

#[cfg(test)]
mod chunks;
#[cfg(test)]
mod concatenate_and_stack;
#[cfg(test)]
mod concatenate_in_any_layout;
#[cfg(test)]
pub mod counts_sums_and_maxima;
#[cfg(test)]
mod images;
#[cfg(test)]
mod lanes;
#[cfg(test)]
mod methods_and_clones;
#[cfg(test)]
mod numeric;
#[cfg(test)]
mod products;
#[cfg(test)]
mod rows_and_elements;
#[cfg(test)]
mod small_tables_as_digits;
#[cfg(test)]
pub mod squared_matrix_and_length;
#[cfg(test)]
mod sums_and_maxima_tests;
#[cfg(test)]
mod windows_and_indexed_iter;
