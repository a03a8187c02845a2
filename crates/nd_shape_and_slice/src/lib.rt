//! Shapes, indexes and slices of n-dimensional arrays as lists of numbers. This crate knows no storage.
#![tactic(auto)]

mod axes_added_and_removed;
mod axis_descriptions;
mod axis_numbers_and_permutations;
mod checked_size;
mod dimension;
mod dynamic_dimension;
mod elements_in_common;
mod errors;
mod fixed_dimensions;
mod index_and_shape_conversions;
mod index_of_row_major_rank;
mod shape_builder;
mod short_array_access;
mod slice;
mod slice_info;
mod slices_from_ranges;
mod strides;

pub use axes_added_and_removed::{InsertAxis, RemoveAxis};
pub use axis_descriptions::{Axes, AxisDescription};
pub use axis_numbers_and_permutations::{Axis, axes_fit};
pub use checked_size::{is_empty_shape, size_of_shape_checked};
pub use dimension::{
    AxisCount, Dimension, FromDimension, IntoPattern, Ix, Ixs, MAX_AXES, StrideList,
};
pub use dynamic_dimension::{DynStrides, IxDyn};
pub use elements_in_common::slices_intersect;
pub use errors::{ErrorKind, NoMemory, ShapeError};
pub use fixed_dimensions::{Dim, Ix0, Ix1, Ix2, Ix3, Ix4, Ix5, Ix6};
pub use index_and_shape_conversions::{Coordinates, IntoDimension, NdIndex};
pub use index_of_row_major_rank::index_of_rank;
pub use shape_builder::{IntoStrideShape, Order, Shape, ShapeArg, ShapeBuilder, StrideShape};
pub use slice::{Slice, SlicedAxis, slice_fits};
pub use slice_info::{
    SliceArg, SliceInfo, SliceInfoElem, axes_kept, axes_read, axis_after, coordinate_on_axis,
    slices_fit,
};
pub use strides::{default_strides, fortran_strides, strides_from};
