//! Sums, products, means, and least and greatest elements of arrays of numbers, and arithmetic on arrays, proved from
//! the public contracts of nd_array_core and nd_iter alone.
#![tactic(auto)]

mod arithmetic;
mod arithmetic_with_a_number;
mod checked_sums;
mod coordinates_of_least_and_greatest;
mod divisors;
mod float_square_roots;
mod folds_in_order;
mod index_of_least_and_greatest;
mod integers_as_i128;
mod lanes_folded_together;
pub mod laws;
mod least_and_greatest;
mod least_and_greatest_of_lanes;
mod outer_product_and_trace;
mod running_sums;
mod sums_of_all_elements;
mod sums_of_lanes;
mod types_identical_when_equal;
mod types_with_reorderable_sums;
mod variances;

pub use arithmetic::{add, div, mul, scaled_add, sub};
pub use arithmetic_with_a_number::{add_scalar, div_scalar, mul_scalar, sub_scalar};
pub use checked_sums::checked_sum;
pub use coordinates_of_least_and_greatest::{argmax_axis, argmin_axis};
pub use divisors::are_divisors;
pub use float_square_roots::Real;
pub use folds_in_order::fold_in_order;
pub use index_of_least_and_greatest::{argmax, argmin};
pub use integers_as_i128::Whole;
pub use least_and_greatest::{max, min};
pub use least_and_greatest_of_lanes::{max_axis, min_axis};
pub use nd_array_core::arithmetic::negate;
pub use outer_product_and_trace::{outer, trace};
pub use running_sums::cumsum;
pub use sums_of_all_elements::{mean, product, sum};
pub use sums_of_lanes::{mean_axis, product_axis, sum_axis};
pub use types_identical_when_equal::Distinct;
pub use types_with_reorderable_sums::Reorderable;
pub use variances::{std, std_axis, var, var_axis};
