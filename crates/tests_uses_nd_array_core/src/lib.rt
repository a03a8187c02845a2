//! Tests of the callers of `uses_nd_array_core` and `uses_nd_array_core_numbers`, on small arrays.
#![tactic(auto)]

#[cfg(test)]
mod copied_images;
#[cfg(test)]
mod filled_slices_and_views;
#[cfg(test)]
mod flipped_and_thresholded_images;
#[cfg(test)]
mod growing_tables;
#[cfg(test)]
mod painted_images;
#[cfg(test)]
mod products_and_blurs;
#[cfg(test)]
mod sums_and_counts;
#[cfg(test)]
mod tables_made_and_compared;
#[cfg(test)]
mod views_of_images;
