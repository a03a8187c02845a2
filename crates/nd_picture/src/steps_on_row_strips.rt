//! Steps that make each row of a picture from one row of it, taken on a strip: some rows of the picture, one after the
//! other.
#![tactic(auto, using(nd_array_core::proofs::AxesOfDimensionTypes::known_axes))]

ghost use Rattle.std.specs.Prelude.{◌≡◌, true, IfOk, IfSome, slice_index};
ghost use Rattle.nd_array_core.specs.ArrayMeaning.{shape_of};
ghost use Rattle.nd_picture_text.specs.declared.step.Step.TheVariants.{Crop, ScaleDown};
ghost use Rattle.nd_picture.specs.RowwiseSteps.{is_by_rows, are_by_rows, rows_made, columns_made, HasFactor, TakesAll};
ghost use Rattle.nd_picture.specs.RowStrips.{MeetsStep, IsStripAfter, MeetsSteps, IsStripAfterAll};

use crate::gray::gray;
use crate::image_steps_applied::fits_sides;
use crate::steps_changing_samples::{invert, threshold};
use crate::steps_moving_pixels::{crop, flop, rows_from, scale_down};
use nd_array_core::Array3;
use nd_picture_text::Step;
use nd_shape_and_slice::NoMemory;
use std::alloc::Global;

/// Some rows of a picture, one after the other.
#[derive(Drop)]
pub(crate) struct Strip {
    /// The number of the first of these rows.
    pub(crate) first: usize,
    /// These rows.
    pub(crate) rows: Array3<u16>,
}

/// Returns whether `step` makes each row of a picture from one row of it, and leaves the rows in order.
fn is_by_rows(step: Step) -> bool
    ensures { result ≡ is_by_rows step }
{
    match step {
        Step::Crop { .. } => true,
        Step::Flop => true,
        Step::ScaleDown(_) => true,
        Step::Threshold(_) => true,
        Step::Invert => true,
        Step::Gray => true,
        Step::Plain => true,
        Step::Raw => true,
        _ => false,
    }
}

/// Returns whether each of the steps makes each row of a picture from one row of it, and leaves the rows in order.
pub(crate) fn are_by_rows(steps: &[Step]) -> bool
    ensures { result ≡ are_by_rows steps.now }
{
    for nth in 0..steps.len() {
        if !is_by_rows(steps[nth]) {
            return false;
        }
    }
    true
}

/// Returns how many rows `step` makes of the first `count` rows of a picture.
fn rows_made(step: Step, count: usize) -> usize
    requires { HasFactor step }
    ensures { result ≡ rows_made step count }
{
    match step {
        Step::Crop { top, height, .. } => count.saturating_sub(top).min(height),
        Step::ScaleDown(factor) => count.div_ceil(factor),
        _ => count,
    }
}

/// Returns how many columns `step` makes of `count` columns of a picture.
fn columns_made(step: Step, count: usize) -> usize
    requires { HasFactor step }
    ensures { result ≡ columns_made step count }
{
    match step {
        Step::Crop { width, .. } => width,
        Step::ScaleDown(factor) => count.div_ceil(factor),
        _ => count,
    }
}

/// Returns the numbers of rows and columns that a picture with `rows` rows and `columns` columns has after all steps, or
/// `None` if a step can't be taken.
pub(crate) fn sides_after(
    maxval: u16,
    steps: &[Step],
    rows: usize,
    columns: usize,
) -> Option<(usize, usize)>
    requires { are_by_rows steps.now ≡ true }
    ensures { IfSome result (λ sides. TakesAll maxval steps.now rows columns sides) }
{
    let mut height = rows;
    let mut width = columns;
    for nth in 0..steps.len() {
        let step = steps[nth];
        if !fits_sides(maxval, step, height, width) {
            return None;
        }
        height = rows_made(step, height);
        width = columns_made(step, width);
    }
    Some((height, width))
}

/// Returns the number of rows of a picture that are in `rows`.
pub(crate) fn row_count(rows: &Array3<u16>) -> usize
    ensures { result ≡ slice_index (shape_of rows.now) 0 }
{
    let (count, _columns, _channels) = rows.dim();
    count
}

/// Returns the rows of the strip that are in the part of `height` rows from the row `top` on, and of these `width` columns
/// from the column `left` on, as a strip of that part.
fn crop_strip(strip: Strip, top: usize, left: usize, height: usize, width: usize) -> Strip
    requires { MeetsStep 0 (Crop top left height width) strip }
    ensures { IsStripAfter 0 (Crop top left height width) strip result }
{
    let Strip { first, rows } = strip;
    let count = row_count(&rows);
    let from = first.saturating_sub(top).min(height);
    let to = (first + count).saturating_sub(top).min(height);
    let skipped = (top + from).saturating_sub(first).min(count);
    Strip {
        first: from,
        rows: crop(rows, skipped, left, to - from, width),
    }
}

/// Returns every `factor`-th row of the picture that is in the strip, and of these every `factor`-th column, as a strip of
/// the picture that these make.
fn scale_strip(strip: Strip, factor: usize) -> Strip
    requires { MeetsStep 0 (ScaleDown factor) strip }
    ensures { IsStripAfter 0 (ScaleDown factor) strip result }
{
    let Strip { first, rows } = strip;
    let count = row_count(&rows);
    let from = first.div_ceil(factor);
    let skipped = (from * factor).saturating_sub(first).min(count);
    Strip {
        first: from,
        rows: scale_down(rows_from(rows, skipped, count - skipped), factor),
    }
}

/// Returns the rows that `step` makes of those of a strip, which is one of a picture on which the step can be taken. Fails
/// with `NoMemory` if memory is refused.
fn strip_after(alloc: Global, maxval: u16, step: Step, strip: Strip) -> Result<Strip, NoMemory>
    requires { MeetsStep maxval step strip }
    ensures { IfOk result (λ t. IsStripAfter maxval step strip t) }
{
    let first = strip.first;
    match step {
        Step::Crop {
            top,
            left,
            height,
            width,
        } => Ok(crop_strip(strip, top, left, height, width)),
        Step::ScaleDown(factor) => Ok(scale_strip(strip, factor)),
        Step::Flop => Ok(Strip {
            first,
            rows: flop(strip.rows),
        }),
        Step::Threshold(limit) => Ok(Strip {
            first,
            rows: threshold(strip.rows, maxval, limit),
        }),
        Step::Invert => Ok(Strip {
            first,
            rows: invert(strip.rows, maxval),
        }),
        Step::Gray => {
            let rows = gray(alloc, maxval, strip.rows)?;
            Ok(Strip { first, rows })
        }
        Step::Plain => Ok(strip),
        Step::Raw => Ok(strip),
        _ => unreachable!(),
    }
}

/// Returns the rows that all steps make of those of a strip, which is one of a picture on which the steps can be taken.
/// Fails with `NoMemory` if memory is refused.
pub(crate) fn strip_after_each(
    alloc: Global,
    maxval: u16,
    steps: &[Step],
    strip: Strip,
) -> Result<Strip, NoMemory>
    requires { MeetsSteps maxval steps.now strip }
    ensures { IfOk result (λ t. IsStripAfterAll maxval steps.now strip t) }
{
    let mut strip = strip;
    for nth in 0..steps.len() {
        match strip_after(alloc, maxval, steps[nth], strip) {
            Ok(next) => strip = next,
            Err(error) => return Err(error),
        }
    }
    Ok(strip)
}
