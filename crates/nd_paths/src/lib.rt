//! Calls that run a task on the part of an array to which a path of layout calls leads, or on the two parts of an axis.
//! Their contracts speak of shapes and elements alone.
#![tactic(auto)]

mod tasks_on_array_parts;

pub use tasks_on_array_parts::{
    ArrayPath, ArrayTask, PairOfArraysTask, with_halves_mut, with_path_mut,
};
