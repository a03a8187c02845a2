//! Tests of `nd_layout` by its public calls: calls on small layouts, and the search for strides on every small layout.
#![tactic(auto)]

#[cfg(test)]
mod all_small_reshapes;
#[cfg(test)]
mod reshapes;
#[cfg(test)]
mod spans_and_runs;
#[cfg(test)]
mod traversals_and_lanes;
