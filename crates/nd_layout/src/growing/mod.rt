//! Layouts that grow along an axis.

pub(crate) mod growable_layout;
pub(crate) mod grown_layout;
pub(crate) mod memory_order_for_growth;
