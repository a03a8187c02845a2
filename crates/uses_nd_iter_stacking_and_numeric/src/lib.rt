//! Functions that call `nd_iter`, `nd_stacking`, `nd_numeric` and the operators of arrays. Each is proved from the
//! contracts of the functions that it calls; some of them need a few lines of proof.
#![tactic(auto)]

pub mod array_operators;
pub mod arrays_with_one_number;
pub mod checked_quotients;
pub mod checked_sums;
pub mod distances_and_window_means;
pub mod heat_diffusion;
pub mod joined_images;
pub mod nearest_centres;
pub mod outer_products;
pub mod stacked_planes;
pub mod standardised_columns;
pub mod sums_and_maxima_by_iterators;
pub mod sums_of_columns;
pub mod sums_squares_and_scaled_add;
