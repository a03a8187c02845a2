//! Calls along one axis.

mod accumulate_axis;
mod fold_axis;
mod lane_at;
mod lane_of_row_major_rank;
pub mod lane_view;
mod map_axis;
mod map_axis_mut;
mod remove_index;
mod select;
mod sub_lanes;
