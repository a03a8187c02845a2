//! Tests of `nd_array_core` by its public calls: elements that are written, copied and compared, calls over all elements of
//! one array or of several, calls along an axis, and arrays that grow. Each module is named after what it tests, or after
//! what several of the test modules use.
#![tactic(auto)]

#[cfg(test)]
mod append_and_reserve_checks;
#[cfg(test)]
mod appends;
#[cfg(test)]
mod arrays_by_memory_order;
#[cfg(test)]
mod as_slice_mut;
#[cfg(test)]
mod broadcast_appends;
#[cfg(test)]
mod clones_and_conversions;
#[cfg(test)]
mod elements_by_index;
#[cfg(test)]
mod equality_and_hash;
#[cfg(test)]
mod fill;
#[cfg(test)]
mod indexed_map_inplace;
#[cfg(test)]
mod into_owned;
#[cfg(test)]
mod lanes_of_axis;
#[cfg(test)]
mod map_and_mapv;
#[cfg(test)]
mod map_inplace_and_assign;
#[cfg(test)]
mod mixed_memory_orders;
#[cfg(test)]
mod move_into;
#[cfg(test)]
mod mutable_views;
#[cfg(test)]
mod parts_of_arrays;
#[cfg(test)]
mod push_and_append_each;
#[cfg(test)]
mod reserved_capacity;
#[cfg(test)]
mod select_and_remove;
#[cfg(test)]
mod totals_by_closure;
#[cfg(test)]
mod views_of_slices;
#[cfg(test)]
mod zip_map_and_assign;
#[cfg(test)]
mod zip_several_arrays;
