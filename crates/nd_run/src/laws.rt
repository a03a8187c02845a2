//! Laws of steps and of paths, for any shape and elements, and laws of texts. Nothing here runs: the law is what each
//! function's `ensures` clause says.

pub use nd_read::laws::{line_means_one_call, lines_join_again, lines_mean_one_script};
pub use nd_steps::laws::{paths_lead_along, steps_lead_inside};
