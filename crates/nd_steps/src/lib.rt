//! The steps and acts of `nd_read`, carried out on one array: along a path, at its end, or on the two parts of a split;
//! and the reservation of capacity. The public clauses speak of shapes and elements alone; only private clauses say
//! where elements lie.
#![tactic(auto)]

pub mod checked_view_calls;
mod fill_assign_set_and_swap;
pub mod laws;
mod refusal_causes;
mod reserve;

pub use fill_assign_set_and_swap::{act_along, act_on_parts};
pub use refusal_causes::Cause;
pub use reserve::make_room;
