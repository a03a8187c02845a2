//! Tests of `nd_shape_and_slice` by its public calls: tables of small cases, and numbers at the limits of their types.
#![tactic(auto)]

#[cfg(test)]
mod checked_sizes_and_permutations;
#[cfg(test)]
mod dimensions;
#[cfg(test)]
mod errors;
#[cfg(test)]
mod meeting_slices;
#[cfg(test)]
mod ranges;
#[cfg(test)]
mod shape_builders;
#[cfg(test)]
mod slice_lists;
#[cfg(test)]
mod slices;
