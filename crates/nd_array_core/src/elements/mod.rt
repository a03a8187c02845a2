//! Calls over all elements.

mod assign;
pub(crate) mod dimensionless_views;
pub mod eq;
pub mod fill;
mod fold;
mod for_each;
pub mod hash;
mod indexed_map_inplace;
mod into_scalar;
mod map;
mod map_inplace;
mod map_mut;
mod mapv;
mod mapv_inplace;
mod move_into;
pub(crate) mod paired_runs;
pub mod to_owned;
pub mod to_vec;
mod zip_fold;
mod zip_for_each;
mod zip_map;
mod zip_map_with_two;
mod zip_mut_with;
