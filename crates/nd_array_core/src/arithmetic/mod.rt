//! Operators on arrays of numbers: of two arrays, of which the right one is broadcast, and of an array and a number.
//!
//! - `operations`: functions that apply an operation to each element, which all operators call
//! - `addition`, `subtraction`, `multiplication`, `division`: the operators of two operands
//! - `negation`: the operator that changes the sign of each element

mod addition;
mod division;
mod multiplication;
mod negation;
mod operations;
mod subtraction;

pub use operations::{combine_with, combine_with_scalar, combined, combined_with_scalar, negate};
