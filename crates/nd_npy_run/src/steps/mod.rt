//! Steps that a program reads from the words of its arguments, and the array after them, for elements of any type. The
//! words are those of the steps in a script, and two more: `select` and `reshape`.

mod errors;
pub mod laws;
mod number_lists;
mod step;
mod step_words;
mod steps_on_arrays;
mod steps_on_views;

pub use errors::{NpyStepsError, Refusal, StepCause, WordsError, cause_told};
pub use step::NpyStep;
pub use step_words::{read_steps, step_needs};
pub use steps_on_arrays::{copying_steps, take_steps};
pub use steps_on_views::{after_steps, follow_steps};
