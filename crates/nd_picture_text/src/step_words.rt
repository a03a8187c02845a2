//! Reading steps from the words of a line.

ghost use Rattle.std.specs.Prelude.{◌≡◌, [], ◌∷◌, ◌++◌, OnOk, IfErr};
ghost use Rattle.std.specs.Option.{option_map};
ghost use Rattle.std.specs.Result.{result_map_both};
ghost use Rattle.nd_text.specs.LinesAndWords.{words_of};
ghost use Rattle.nd_picture_text.specs.StepGrammar.{name_of, resizing_name_of, sample_name_of, format_name_of, crop_of, turn_by, rotate_of, border_of, step_named, step_of, flaw_named, flaw_of, GivesSteps};
ghost use Rattle.nd_picture_text.specs.declared.errors.WordsError.TheVariants.{Memory};

use crate::errors::{StepFlaw, WordsError};
use crate::step::Step;
use nd_text::lines_and_words::{is_wordless, split_word};
use nd_text::number_reading::split_number;
use std::alloc::Global;

/// The step that a word names, without the numbers that follow it.
#[derive(Clone, Copy)]
pub(crate) enum StepName {
    Crop,
    Flip,
    Flop,
    Rotate,
    Transpose,
    ScaleDown,
    Threshold,
    Invert,
    Blur,
    Gray,
    Border,
    Shrink,
    Plain,
    Raw,
    /// The word names no step.
    Other,
}

const CROP: &[u8] = b"crop";

const FLIP: &[u8] = b"flip";

const FLOP: &[u8] = b"flop";

const ROTATE: &[u8] = b"rotate";

const TRANSPOSE: &[u8] = b"transpose";

const SCALE_DOWN: &[u8] = b"scale-down";

const THRESHOLD: &[u8] = b"threshold";

const INVERT: &[u8] = b"invert";

const BLUR: &[u8] = b"blur";

const GRAY: &[u8] = b"gray";

const BORDER: &[u8] = b"border";

const SHRINK: &[u8] = b"shrink";

const PLAIN: &[u8] = b"plain";

const RAW: &[u8] = b"raw";

/// Returns the step that `word` names.
#[tactic(auto, unfolding(crate::specs::StepGrammar::name_of))]
pub(crate) fn name_of(word: &[u8]) -> StepName
    ensures { result ≡ name_of word.now }
{
    if word == CROP {
        StepName::Crop
    } else if word == FLIP {
        StepName::Flip
    } else if word == FLOP {
        StepName::Flop
    } else if word == ROTATE {
        StepName::Rotate
    } else if word == TRANSPOSE {
        StepName::Transpose
    } else {
        resizing_name_of(word)
    }
}

/// Returns the step that `word` names, if it names none that only moves samples.
#[tactic(auto, unfolding(crate::specs::StepGrammar::resizing_name_of))]
fn resizing_name_of(word: &[u8]) -> StepName
    ensures { result ≡ resizing_name_of word.now }
{
    if word == SCALE_DOWN {
        StepName::ScaleDown
    } else if word == BORDER {
        StepName::Border
    } else if word == SHRINK {
        StepName::Shrink
    } else {
        sample_name_of(word)
    }
}

/// Returns the step that `word` names, if it names none that keeps samples or joins them.
#[tactic(auto, unfolding(crate::specs::StepGrammar::sample_name_of))]
fn sample_name_of(word: &[u8]) -> StepName
    ensures { result ≡ sample_name_of word.now }
{
    if word == THRESHOLD {
        StepName::Threshold
    } else if word == INVERT {
        StepName::Invert
    } else if word == BLUR {
        StepName::Blur
    } else if word == GRAY {
        StepName::Gray
    } else {
        format_name_of(word)
    }
}

/// Returns the step that `word` names, if it names one that sets how samples are written.
#[tactic(auto, unfolding(crate::specs::StepGrammar::format_name_of))]
fn format_name_of(word: &[u8]) -> StepName
    ensures { result ≡ format_name_of word.now }
{
    if word == PLAIN {
        StepName::Plain
    } else if word == RAW {
        StepName::Raw
    } else {
        StepName::Other
    }
}

/// Reads the four numbers of a crop from the front of `line`. Returns the crop and the rest of the line, or `None` if
/// the numbers don't stand there.
fn split_crop(line: &[u8]) -> Option<(Step, &[u8])>
    ensures { option_map (λ x. (x.0, words_of x.1.now)) result ≡ crop_of (words_of line.now) }
{
    let (top, line) = split_number(line)?;
    let (left, line) = split_number(line)?;
    let (height, line) = split_number(line)?;
    let (width, line) = split_number(line)?;
    let step = Step::Crop {
        top,
        left,
        height,
        width,
    };
    Some((step, line))
}

/// Returns the step that turns a picture clockwise by `degrees`, or `None` if that isn't 90, 180 or 270.
fn turn_by(degrees: usize) -> Option<Step>
    ensures { result ≡ turn_by degrees }
{
    match degrees {
        90 => Some(Step::RotateQuarter),
        180 => Some(Step::RotateHalf),
        270 => Some(Step::RotateBack),
        _ => None,
    }
}

/// Reads the angle of a turn from the front of `line`. Returns the turn and the rest of the line, or `None` if no angle
/// of a turn stands there.
fn split_rotate(line: &[u8]) -> Option<(Step, &[u8])>
    ensures { option_map (λ x. (x.0, words_of x.1.now)) result ≡ rotate_of (words_of line.now) }
{
    let (degrees, line) = split_number(line)?;
    Some((turn_by(degrees)?, line))
}

/// Reads the two numbers of a border from the front of `line`. Returns the border and the rest of the line, or `None` if
/// the numbers don't stand there.
fn split_border(line: &[u8]) -> Option<(Step, &[u8])>
    ensures { option_map (λ x. (x.0, words_of x.1.now)) result ≡ border_of (words_of line.now) }
{
    let (width, line) = split_number(line)?;
    let (value, line) = split_number(line)?;
    Some((Step::Border { width, value }, line))
}

/// Reads the numbers of the step `name` from the front of `line`. Returns the step and the rest of the line, or `None`
/// if it can't be read.
fn split_named(name: StepName, line: &[u8]) -> Option<(Step, &[u8])>
    ensures { option_map (λ x. (x.0, words_of x.1.now)) result ≡ step_named name (words_of line.now) }
{
    match name {
        StepName::Crop => split_crop(line),
        StepName::Flip => Some((Step::Flip, line)),
        StepName::Flop => Some((Step::Flop, line)),
        StepName::Rotate => split_rotate(line),
        StepName::Transpose => Some((Step::Transpose, line)),
        StepName::ScaleDown => {
            let (factor, line) = split_number(line)?;
            Some((Step::ScaleDown(factor), line))
        }
        StepName::Threshold => {
            let (limit, line) = split_number(line)?;
            Some((Step::Threshold(limit), line))
        }
        StepName::Invert => Some((Step::Invert, line)),
        StepName::Blur => Some((Step::Blur, line)),
        StepName::Gray => Some((Step::Gray, line)),
        StepName::Border => split_border(line),
        StepName::Shrink => {
            let (side, line) = split_number(line)?;
            Some((Step::Shrink(side), line))
        }
        StepName::Plain => Some((Step::Plain, line)),
        StepName::Raw => Some((Step::Raw, line)),
        StepName::Other => None,
    }
}

/// Reads a step from the front of `line`. Returns the step and the rest of the line, or `None` if it can't be read.
pub(crate) fn split_step(line: &[u8]) -> Option<(Step, &[u8])>
    ensures { option_map (λ x. (x.0, words_of x.1.now)) result ≡ step_of (words_of line.now) }
{
    let (word, rest) = split_word(line)?;
    split_named(name_of(word), rest)
}

/// Returns what is wrong with a step of this name if it can't be read.
fn flaw_named(name: StepName) -> StepFlaw
    ensures { result ≡ flaw_named name }
{
    match name {
        StepName::Crop => StepFlaw::Crop,
        StepName::Rotate => StepFlaw::Angle,
        StepName::ScaleDown => StepFlaw::Factor,
        StepName::Threshold => StepFlaw::Limit,
        StepName::Border => StepFlaw::Border,
        StepName::Shrink => StepFlaw::Block,
        _ => StepFlaw::NoSuchStep,
    }
}

/// Returns what is wrong with the first step of `line` if it can't be read.
fn flaw_of(line: &[u8]) -> StepFlaw
    ensures { result ≡ flaw_of (words_of line.now) }
{
    match split_word(line) {
        Some((word, _rest)) => flaw_named(name_of(word)),
        None => StepFlaw::NoSuchStep,
    }
}

/// Appends `step` to `steps`.
fn keep(steps: &mut Vec<Step>, step: Step) -> Result<(), WordsError>
    ensures kept { OnOk result (steps.new.items ≡ steps.old.items ++ step ∷ []) }
    ensures memory { IfErr result (λ e. e ≡ Memory) }
{
    match steps.push(step) {
        Ok(()) => Ok(()),
        Err(_) => Err(WordsError::Memory),
    }
}

/// Returns the steps that the words of `line` write. Fails with `BadStep`, which tells the first step that can't be
/// read and what is wrong with it, or with `Memory` if memory is refused.
#[tactic(auto, using(crate::proofs::StepLists::writes_more, crate::proofs::StepLists::fewer_words))]
pub fn read_steps(alloc: Global, line: &[u8]) -> Result<Vec<Step>, WordsError>
    ensures { GivesSteps (words_of line.now) (result_map_both (λ v. v.items) (λ e. e) result) }
{
    let mut steps = Vec::new(alloc);
    let mut rest = line;
    while !is_wordless(rest) {
        match split_step(rest) {
            Some((step, after)) => {
                keep(&mut steps, step)?;
                rest = after;
            }
            None => {
                return Err(WordsError::BadStep {
                    number: steps.len() + 1,
                    flaw: flaw_of(rest),
                });
            }
        }
    }
    Ok(steps)
}
