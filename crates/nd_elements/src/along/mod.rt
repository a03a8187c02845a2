//! The lanes of an axis.

pub mod accumulate_axis;
mod accumulate_contiguous;
mod accumulate_lanes_together;
pub mod axis_lanes;
pub mod fold_axis;
mod fold_lanes_together;
pub mod lane_mut;
pub mod lane_starts;
pub mod lanes_from_layout;
pub mod map_axis_mut;
pub mod remove_index;
