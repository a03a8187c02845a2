//! A mutable borrow of a slice's elements as a map from places to elements, which can be divided by places.
#![tactic(auto)]

mod borrow_lent_to_closure;
mod divided_mutable_borrow;
mod shared_borrow;

pub use borrow_lent_to_closure::with_region;
pub use divided_mutable_borrow::Region;
pub use shared_borrow::SharedRegion;
