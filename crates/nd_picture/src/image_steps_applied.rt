//! Applying a list of steps to a picture.
#![tactic(auto, using(nd_array_core::proofs::AxesOfDimensionTypes::known_axes))]

ghost use Rattle.std.specs.Prelude.{◌≡◌, ◌<◌, ◌≤◌, ◌+◌, ◌^◌, length, slice_index, IfOk, OnErr, Err, IsTrue, Some};
ghost use Rattle.nd_array_core.specs.ArrayMeaning.{meaning_of, shape_of};
ghost use Rattle.nd_picture.specs.ErrorTexts.{refusal_text, step_error_text};
ghost use Rattle.nd_picture.specs.PictureChanges.{ShowsAfter};
ghost use Rattle.nd_picture.specs.StepListResults.{lie_within, is_within_limit, is_factor, fits, picture_after, kind_after, kind_after_each, header_after, after_each, makes_samples, GivesAfter, LacksForSamples, StillFits};
ghost use Rattle.nd_picture.specs.declared.image_steps_applied.PictureStepsError.TheVariants.{Memory};

use crate::blur::blur;
use crate::border::border;
use crate::gray::gray;
use crate::shrink::shrink;
use crate::steps_changing_samples::{invert, threshold};
use crate::steps_moving_pixels::{
    crop, flip, flop, scale_down, transpose, turn_back, turn_half, turn_quarter,
};
use nd_array_core::Array3;
use nd_picture_text::{Header, Kind, Step};
use nd_shape_and_slice::NoMemory;
use std::alloc::Global;
use std::error::Error;
use std::fmt;

/// Why the steps of a list were not all applied.
#[derive(Clone, Copy, Debug, PartialEq, Eq)]
pub enum PictureStepsError {
    /// A step can't be applied to the picture that it meets.
    Refused {
        /// The number of the first step that can't be applied, counted from 1.
        number: usize,
        /// That step.
        step: Step,
    },
    /// Memory was refused.
    Memory,
}

/// Returns a sentence that says what a step needs, for a step that can't be applied.
pub fn refusal(step: Step) -> &'static str
    ensures { result.now ≡ refusal_text step }
{
    match step {
        Step::Crop { .. } => "the part must lie in the picture, and have a row and a column",
        Step::Border { .. } => {
            "the samples must be at most the maxval, and the image at most 1000000000 high and wide"
        }
        _ => "the factor must be at least 1 and below 2^63",
    }
}

/// Writes the number of the step and what it needs, for example `step 2: the factor must be at least 1 and below 2^63`, or
/// `out of memory`.
impl fmt::Display for PictureStepsError {
    ghost output = { λ error. Some (step_error_text error) };

    fn fmt<W: fmt::Write>(&self, f: &mut fmt::Formatter<W>) -> fmt::Result {
        match self {
            PictureStepsError::Refused { number, step } => {
                write!(f, "step {number}: {}", refusal(*step))
            }
            PictureStepsError::Memory => write!(f, "out of memory"),
        }
    }
}

impl Error for PictureStepsError {}

/// Returns whether `count` rows (or columns) from `first` on are at least one and lie within the `all` that a picture
/// has.
#[tactic(auto, using(std::proofs::lemmas::Bool::Decides::nat_tests))]
fn lie_within(first: usize, count: usize, all: usize) -> bool
    ensures { result ≡ lie_within first count all }
{
    0 < count && count <= all && first <= all - count
}

/// The greatest number of rows and of columns that an image can have.
const SIDE_LIMIT: usize = 1_000_000_000;

/// Returns whether `all` rows (or columns), with `border` more before and after them, are at most as many as an image can
/// have.
#[tactic(auto, using(std::proofs::lemmas::Bool::Decides::nat_tests))]
fn is_within_limit(border: usize, all: usize) -> bool
    ensures { result ≡ is_within_limit border all }
{
    all <= SIDE_LIMIT && border <= (SIDE_LIMIT - all) / 2
}

/// The smallest number that is too great for a factor.
const FACTOR_LIMIT: usize = 1 << 63;

/// Returns whether `factor` is at least 1 and below 2^63.
fn is_factor(factor: usize) -> bool
    ensures { result ≡ is_factor factor }
{
    0 < factor && factor < FACTOR_LIMIT
}

/// Returns whether `step` can be applied to a picture with `rows` rows and `columns` columns, which has no sample above
/// `maxval`.
pub(crate) fn fits_sides(maxval: u16, step: Step, rows: usize, columns: usize) -> bool
    ensures { result ≡ fits maxval step rows columns }
{
    match step {
        Step::Crop {
            top,
            left,
            height,
            width,
        } => { lie_within(top, height, rows) && lie_within(left, width, columns) }
        Step::ScaleDown(factor) => is_factor(factor),
        Step::Border { width, value } => {
            value <= maxval as usize
                && (is_within_limit(width, rows) && is_within_limit(width, columns))
        }
        Step::Shrink(factor) => is_factor(factor),
        _ => true,
    }
}

/// Returns whether `step` can be applied to `picture`, which has no sample above `maxval`.
pub fn fits(maxval: u16, step: Step, picture: &Array3<u16>) -> bool
    ensures { result ≡ fits maxval step (slice_index (shape_of picture.now) 0) (slice_index (shape_of picture.now) 1) }
{
    let (rows, columns, _channels) = picture.dim();
    fits_sides(maxval, step, rows, columns)
}

/// Returns the picture after `step`, which must be one that can be applied to it (see `fits`). Fails with `NoMemory` if
/// memory is refused, which can only happen with a step that makes new samples (`blur`, `gray`, `border` and `shrink`).
pub fn take_step(
    alloc: Global,
    maxval: u16,
    step: Step,
    picture: Array3<u16>,
) -> Result<Array3<u16>, NoMemory>
    requires { IsTrue (fits maxval step (slice_index (shape_of picture) 0) (slice_index (shape_of picture) 1)) }
    ensures after { IfOk result (λ a. ShowsAfter (picture_after maxval step) (meaning_of picture) (meaning_of a)) }
    ensures memory { OnErr result (IsTrue (makes_samples step)) }
{
    match step {
        Step::Crop {
            top,
            left,
            height,
            width,
        } => Ok(crop(picture, top, left, height, width)),
        Step::Flip => Ok(flip(picture)),
        Step::Flop => Ok(flop(picture)),
        Step::RotateQuarter => Ok(turn_quarter(picture)),
        Step::RotateHalf => Ok(turn_half(picture)),
        Step::RotateBack => Ok(turn_back(picture)),
        Step::Transpose => Ok(transpose(picture)),
        Step::ScaleDown(factor) => Ok(scale_down(picture, factor)),
        Step::Threshold(limit) => Ok(threshold(picture, maxval, limit)),
        Step::Invert => Ok(invert(picture, maxval)),
        Step::Blur => blur(alloc, &picture),
        Step::Gray => gray(alloc, maxval, picture),
        Step::Border { width, value } => border(alloc, &picture, width, value as u16),
        Step::Shrink(factor) => shrink(alloc, &picture, factor),
        Step::Plain => Ok(picture),
        Step::Raw => Ok(picture),
    }
}

/// Returns the picture after all steps, in order. Fails with `Refused`, which tells the first step that can't be
/// applied, or with `Memory` if memory is refused for a step that makes new samples. The steps before it can then all be
/// applied. The format of an image after the steps is that of `header_after`. Where no sample is above `maxval` before
/// the steps, none is after them.
pub fn take_steps(
    alloc: Global,
    maxval: u16,
    steps: &[Step],
    picture: Array3<u16>,
) -> Result<Array3<u16>, PictureStepsError>
    ensures ends { GivesAfter (λ a. meaning_of a) maxval steps.now (meaning_of picture) result }
    ensures after { IfOk result (λ a. ShowsAfter (after_each maxval steps.now) (meaning_of picture) (meaning_of a)) }
    ensures memory { result ≡ Err Memory → LacksForSamples maxval steps.now (meaning_of picture) }
    ensures fits { IfOk result (λ a. StillFits maxval steps.now (meaning_of picture) (meaning_of a)) }
{
    let mut picture = picture;
    for nth in 0..steps.len() {
        let step = steps[nth];
        if !fits(maxval, step, &picture) {
            return Err(PictureStepsError::Refused {
                number: nth + 1,
                step,
            });
        }
        match take_step(alloc, maxval, step, picture) {
            Ok(next) => picture = next,
            Err(_) => return Err(PictureStepsError::Memory),
        }
    }
    Ok(picture)
}

/// Returns the format of an image after `step`, where it was `kind` before.
fn kind_after(step: Step, kind: Kind) -> Kind
    ensures { result ≡ kind_after step kind }
{
    match step {
        Step::Gray => kind.gray(),
        Step::Plain => kind.plain(),
        Step::Raw => kind.raw(),
        _ => kind,
    }
}

/// Returns the format of an image after all steps, in order, where it was `kind` before.
fn kind_after_each(steps: &[Step], kind: Kind) -> Kind
    ensures { result ≡ kind_after_each steps.now kind }
{
    let mut last = kind;
    for nth in 0..steps.len() {
        last = kind_after(steps[nth], last);
    }
    last
}

/// Returns `header` with the format that an image has after all steps. Its width and height stay those before the steps;
/// `image_of` takes them from the picture.
pub fn header_after(steps: &[Step], header: Header) -> Header
    ensures { result ≡ header_after steps.now header }
{
    Header {
        kind: kind_after_each(steps, header.kind),
        ..header
    }
}
