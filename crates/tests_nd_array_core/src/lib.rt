//! Tests of `nd_array_core` by its public calls: making, indexing, slicing, reshaping and printing arrays, and views that are
//! lent. Each module is named after what it tests, or after what several of the test modules use.
#![tactic(auto)]

#[cfg(test)]
mod arrays_by_strides;
#[cfg(test)]
mod arrays_from_functions;
#[cfg(test)]
mod axes_iterator;
#[cfg(test)]
mod axis_calls_and_diagonals;
#[cfg(test)]
mod callbacks_on_mutable_views;
#[cfg(test)]
mod constructors;
#[cfg(test)]
mod indexes;
#[cfg(test)]
mod literals;
#[cfg(test)]
mod longest_broadcast;
#[cfg(test)]
mod new_arrays;
#[cfg(test)]
mod printing;
#[cfg(test)]
mod refused_reshapes;
#[cfg(test)]
mod reshapes_and_merged_axes;
#[cfg(test)]
mod rows_columns_and_to_slice;
#[cfg(test)]
mod several_slices;
#[cfg(test)]
mod slices;
#[cfg(test)]
mod slices_as_scoped_views;
#[cfg(test)]
mod standard_layouts;
#[cfg(test)]
mod to_shape_and_flatten;
