//! Layouts of n-dimensional arrays. A layout is an offset, the lengths of the axes and their strides. This crate
//! computes what slices, permutations of axes and similar steps make of a layout, how far apart elements lie, whether
//! two indexes can share a place, and which strides serve another shape. It knows no storage and no element.
#![tactic(auto)]

mod growing;
mod layout;
mod order;
mod reshape;
mod spans_and_overlaps;
mod walk;

pub use layout::Layout;
pub use layout::given_strides::{
    offset_in_slice, offset_in_vec, reach_below, size_in_slice, size_in_vec, strides_in,
};
pub use layout::invert_split_and_permute_axes::stride_at;
pub use layout::merge_axes::furthest_axis;
pub use order::append_order::in_tail_order;
pub use order::halves_in_row_major_order::MOST_ROWS;
pub use order::halves_of_two_layouts::{HalvedLayouts, halved_alike};
pub use order::loop_order_of_two_layouts::{columns_as_rows, is_worth_turning, turned_alike};
pub use reshape::axes_from_fastest::slow_axis_at;
pub use reshape::standard_layouts_and_runs::{is_run, is_standard};
pub use reshape::strides_that_serve::reshape_strides;
pub use spans_and_overlaps::{separated, span};
pub use walk::lane::Lane;
pub use walk::lanes::Lanes;
pub use walk::layout_as_lanes::Places;
pub use walk::places_in_turn::PlacesInTurn;
pub use walk::walk_over_indexes::Walk;
