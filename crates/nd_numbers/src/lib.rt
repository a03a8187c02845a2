//! Numbers with arithmetic for all values, and operations on two numbers. This crate knows nothing of arrays.
#![tactic(auto)]

mod arithmetic;
mod binary_operation_types;
mod floats;
mod ordered;
mod signed_integers;
mod unsigned_integers;

pub use arithmetic::Arithmetic;
pub use binary_operation_types::{Minus, Operation, Over, Plus, PlusMultiple, Times};
pub use ordered::Ordered;
