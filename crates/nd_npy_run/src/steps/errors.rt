//! Why words are no steps, and why steps can't be taken.

ghost use Rattle.std.specs.Prelude.{◌≡◌, Some};
ghost use Rattle.nd_npy_run.specs.StepErrorTexts.{cause_text, step_cause_text, step_refusal_text, npy_words_error_text, steps_error_text};

use crate::steps::step_words::step_needs;
use nd_steps::Cause;
use std::error::Error;
use std::fmt;

/// Why words are no list of steps.
#[derive(Clone, Copy, Debug)]
pub enum WordsError<'a> {
    /// One of the steps can't be read.
    BadStep {
        /// The number of the first step that can't be read, counted from 1.
        number: usize,
        /// The word at which that step should begin.
        word: &'a [u8],
    },
    /// Memory was refused.
    Memory,
}

/// Writes the number of the step and what has to stand there, for example `step 2: invert takes an axis`, or `out of
/// memory`.
impl<'a> fmt::Display for WordsError<'a> {
    ghost output = { λ error. Some (npy_words_error_text error) };

    fn fmt<W: fmt::Write>(&self, f: &mut fmt::Formatter<W>) -> fmt::Result {
        match self {
            WordsError::BadStep { number, word } => write!(
                f,
                "step {number}: {}",
                step_needs(*word)
            ),
            WordsError::Memory => f.write_str("out of memory"),
        }
    }
}

impl<'a> Error for WordsError<'a> {}

/// Why a step of a list is refused.
#[derive(Clone, Copy, Debug, PartialEq, Eq)]
pub enum StepCause {
    /// The cause is one for which steps of a script are refused, too.
    Layout(Cause),
    /// The new lengths make more elements than the array has, or fewer.
    Count,
}

/// Returns a sentence that says why a step is refused.
pub fn cause_told(cause: StepCause) -> &'static str
    ensures { result.now ≡ step_cause_text cause }
{
    match cause {
        StepCause::Layout(cause) => layout_cause_told(cause),
        StepCause::Count => "the lengths don't make as many elements as there are",
    }
}

/// Returns a sentence that tells a cause for which steps of a script are refused, too.
fn layout_cause_told(cause: Cause) -> &'static str
    ensures { result.now ≡ cause_text cause }
{
    match cause {
        Cause::Axis => "the array has no such axis",
        Cause::Index => "the axis has no such index",
        Cause::Slice => "the slice doesn't fit its axis",
        Cause::Permutation => "the list must name each axis once",
        Cause::Shape => "the list must have a slice or an index for each axis",
        Cause::Overflow => "the array would be too large",
        Cause::TooManyAxes => "the array would have more than 32 axes",
        Cause::Broadcast => "there is no broadcast to these lengths",
    }
}

/// The first step of a list that is refused, and why.
#[derive(Clone, Copy, Debug, PartialEq, Eq)]
pub struct Refusal {
    /// The number of the step, counted from 1.
    pub number: usize,
    /// Why it is refused.
    pub cause: StepCause,
}

/// Writes the number of the step and why it is refused, for example `step 2: the array has no such axis`.
impl fmt::Display for Refusal {
    ghost output = { λ refusal. Some (step_refusal_text refusal) };

    fn fmt<W: fmt::Write>(&self, f: &mut fmt::Formatter<W>) -> fmt::Result {
        write!(f, "step {}: {}", self.number, cause_told(self.cause))
    }
}

impl Error for Refusal {}

/// Why there is no array after the steps of a list.
#[derive(Clone, Copy, Debug, PartialEq, Eq)]
pub enum NpyStepsError {
    /// A step is refused.
    Refused(Refusal),
    /// Memory was refused.
    Memory,
}

/// Writes the number of the step and why it is refused, or `out of memory`.
impl fmt::Display for NpyStepsError {
    ghost output = { λ error. Some (steps_error_text error) };

    fn fmt<W: fmt::Write>(&self, f: &mut fmt::Formatter<W>) -> fmt::Result {
        match self {
            NpyStepsError::Refused(refusal) => write!(f, "{refusal}"),
            NpyStepsError::Memory => f.write_str("out of memory"),
        }
    }
}

impl Error for NpyStepsError {}
