//! Loops over all elements of a storage that a layout names, lane by lane.

pub mod assign;
pub mod eq;
pub mod fill;
pub mod fold;
pub mod for_each;
pub mod hash;
pub mod map;
pub mod map_inplace;
pub mod map_mut;
pub mod mapv;
pub mod mapv_inplace;
pub mod move_into;
pub mod to_vec;
mod to_vec_by_parts_of_rows;
pub mod to_vec_in_halves;
pub mod zip_fold;
pub mod zip_for_each;
pub mod zip_map;
pub mod zip_mut_with;
