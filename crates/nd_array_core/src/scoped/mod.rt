//! Calls that lend mutable views to a task while they run: of the whole array, of a part, and of two parts at once.

mod assign_slice;
mod fill_slice;
mod map_slice;
mod with_multi_slice_mut;
mod with_slice_mut;
pub mod with_split_at;
mod with_view_from_shape;
mod with_view_mut;

pub use assign_slice::Assign;
pub use fill_slice::Fill;
pub use map_slice::Change;
pub use with_split_at::PairTask;
pub use with_view_from_shape::with_view_of;
pub use with_view_mut::{LentView, ViewTask};
