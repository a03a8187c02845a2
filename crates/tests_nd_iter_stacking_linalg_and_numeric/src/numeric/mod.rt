//! Tests of `nd_numeric` and of the operators of arrays, by their public calls.

mod arithmetic;
mod arithmetic_with_a_number;
mod checked_sums;
mod division_and_zero_divisors;
mod floats_and_integer_types;
mod lanes_folded_together;
mod least_and_greatest;
mod normalise_diffuse_and_cluster;
mod operators;
mod sums_products_and_means;
mod tables_in_three_layouts;
mod tables_with_a_row;
mod totals;
mod variances;
