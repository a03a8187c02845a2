//! Arrays joined along an axis: `concatenate` joins them along an axis that they have, and `stack` along a new one.
//!
//! Both are proved from the public contracts of nd_shape_and_slice and nd_array_core alone.
#![tactic(auto)]

mod concatenate_by_runs;
mod concatenated_arrays;
mod joined_shapes;
mod stacked_arrays;

pub use concatenated_arrays::concatenate;
pub use stacked_arrays::stack;
