//! Strides that serve another shape, standard layouts, and layouts of consecutive places.

pub(crate) mod axes_from_fastest;
pub(crate) mod standard_layouts_and_runs;
pub(crate) mod strides_that_serve;
