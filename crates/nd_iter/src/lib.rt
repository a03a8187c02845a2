//! Iterators over arrays, proved from the public contracts of nd_shape_and_slice and nd_array_core alone.
#![tactic(auto)]

mod chunks_along_axis;
pub mod elements;
pub mod elements_left;
pub mod elements_left_by_rows;
pub mod indexed_elements;
pub mod iter_extension_traits;
mod iter_windows_and_chunks;
mod lanes_of_axis;
mod outer_axis;
mod row_major_rank;
mod views_along_axis;
pub mod windows_and_blocks;

pub use chunks_along_axis::{AxisChunksIter, axis_chunks_iter};
pub use indexed_elements::{IndexedIter, indexed_iter};
pub use iter_extension_traits::{AxisIterExt, IndexedIterExt, IterExt};
pub use iter_windows_and_chunks::{exact_chunks, iter, windows, windows_with_stride};
pub use lanes_of_axis::{LanesIter, lanes};
pub use outer_axis::outer_iter;
pub use views_along_axis::{AxisIter, axis_iter, rows};
