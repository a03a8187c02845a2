//! Layouts of the same places whose indexes come in another order, or that are cut in halves, so that a loop over them
//! goes along memory.

pub(crate) mod append_order;
pub(crate) mod axes_sorted_by_stride;
pub(crate) mod halves_in_row_major_order;
pub(crate) mod halves_of_two_layouts;
pub(crate) mod joined_axes;
pub(crate) mod loop_order_of_two_layouts;
pub(crate) mod run_as_axis;
