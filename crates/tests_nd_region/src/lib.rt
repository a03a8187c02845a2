//! Tests of `nd_region` by its public calls: small slices and rows that are written and read through regions.
#![tactic(auto)]

#[cfg(test)]
mod element_sizes_and_drops;
#[cfg(test)]
mod reads;
#[cfg(test)]
mod splits;
#[cfg(test)]
mod writes;
