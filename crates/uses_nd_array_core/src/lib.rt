//! Functions that call `nd_array_core` as a user's program would. Each is proved from the contracts of the functions
//! that it calls, and from nothing else.
#![tactic(auto)]

ghost use Rattle.std.specs.Prelude.{◌≡◌, vec_len, IsSome, IfSome, IfOk, IfErr, Some, None};
ghost use Rattle.nd_array_core.specs.Prelude.{shape_of, table_of_list, transposed, ShowsTable, axis_part, ShowsPart};
ghost use Rattle.uses_nd_array_core.specs.FittingAndFilledSlices.{FitsAxis};
ghost use Rattle.uses_nd_array_core.specs.TablesBuiltGrownAndReshaped.{cells_refusal};

pub mod additions_and_assigns;
pub mod appends_within_capacity;
pub mod array_texts;
pub mod arrays_of_views;
pub mod assigned_parts;
mod border;
mod broadcasts;
mod calls_along_axis;
mod constructors;
mod copied_views;
mod elements_as_slice;
pub mod elements_as_slice_mut;
mod every_second_column;
mod fill_through_view_mut;
mod filled_blocks;
pub mod flatten_and_to_shape;
mod fold_and_map_inplace;
pub mod growing_tables;
mod image_equality;
mod image_parts_as_views;
pub mod into_shape_with_order;
pub mod literals;
pub mod mapped_elements;
mod matrices_of_rows;
mod move_into;
mod parts_written;
mod pixel_loops;
pub mod pixel_value_counts;
pub mod products_and_blurs;
pub mod reported_errors;
pub mod reserved_capacity;
pub mod slice_if_contiguous;
mod slices_filled_through_view;
mod split_parts;
pub mod tables_of_rows;
mod transposed_row_and_fill;
pub mod tuple_indexes;
mod two_disjoint_views;
mod two_slices_filled;
mod views_under_strides;
mod writes_through_references;

pub use border::{draw_border, fill_column, fill_row};
pub use broadcasts::table_of;
pub use calls_along_axis::{
    row_sums_twice, rows_chosen, running_sums, sums_along, sums_of_lanes, take_row_out,
};
pub use constructors::{identity, numbered_table, zero_grid};
pub use copied_views::{crop_transposed, cropped_and_mirrored, flipped_copy, transposed_copy};
pub use elements_as_slice::{row_major_slice, run_or};
pub use every_second_column::paint_every_second_column;
pub use fill_through_view_mut::fill_view;
pub use filled_blocks::{fill_diagonal_blocks, fill_rectangle};
pub use fold_and_map_inplace::{double_all, wrapping_sum};
pub use image_equality::is_transpose;
pub use image_parts_as_views::{
    channel, corner, crop, diagonal_seen, in_row, neighbourhood, part_of_transposed_row,
    second_column, turn_half,
};
pub use matrices_of_rows::push_rows_reversed;
pub use move_into::move_transposed;
use nd_array_core::prelude::*;
use nd_array_core::slice_fits;
pub use parts_written::{fill_diagonal, fill_line_at, fill_named, swap_in_row, write_in_part};
pub use pixel_loops::{checkerboard, row_sum, swap_rows};
pub use slices_filled_through_view::{fill_front, fill_seen};
pub use split_parts::fill_halves;
pub use transposed_row_and_fill::{fill_then_get, transposed_row};
pub use two_disjoint_views::{fill_halves_of_part, fill_two_parts};
pub use two_slices_filled::{fill_slices, interleave_rows, try_fill_slices};
pub use views_under_strides::{row_repeated, turned_at_the_least_stride};
pub use writes_through_references::{put, put_pixel, try_put, try_put_first};

/// Returns the part of the array that `slice` names along `axis`, or `None` if there is no such axis or the slice
/// doesn't fit its length.
#[tactic(auto, using(nd_array_core::proofs::AxesOfDimensionTypes::known_axes))]
pub fn try_slice_axis<'a, S: Data, D: Dimension>(
    array: &'a ArrayBase<S, D>,
    axis: Axis,
    slice: Slice,
) -> Option<ArrayView<'a, S::Elem, D>>
    ensures some { FitsAxis (shape_of array.now) axis.0 slice → IsSome result }
    ensures part { IfSome result (λ part. ShowsPart array.now (axis_part array.now axis.0 slice) part) }
{
    if axis.index() < array.ndim() && slice_fits(array.len_of(axis), slice) {
        Some(array.slice_axis(axis, slice))
    } else {
        None
    }
}

/// Makes a table of `rows` rows and `columns` columns from `cells`, which are given row by row, and returns it
/// transposed. Fails as `from_shape_vec` fails on such a table.
#[tactic(auto, using(nd_array_core::proofs::AxesOfDimensionTypes::known_axes))]
pub fn turned_table<A: Drop>(
    rows: usize,
    columns: usize,
    cells: Vec<A>,
) -> Result<Array<A, Ix2>, ShapeError>
    ensures refused { IfErr result (λ e. cells_refusal rows columns (vec_len cells) ≡ Some e) }
    ensures accepted { IfOk result (λ _. cells_refusal rows columns (vec_len cells) ≡ None) }
    ensures table { IfOk result (λ table. ShowsTable table (transposed (table_of_list rows columns cells.items))) }
{
    let by_rows = Array::from_shape_vec((rows, columns), cells)?;
    Ok(by_rows.permuted_axes((1, 0)))
}
