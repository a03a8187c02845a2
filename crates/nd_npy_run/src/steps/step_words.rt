//! Reading steps from the words of a line.

ghost use Rattle.std.specs.Prelude.{◌≡◌, map};
ghost use Rattle.std.specs.Result.{result_map_both};
ghost use Rattle.nd_text.specs.KeywordSpelling.{keyword_of};
ghost use Rattle.nd_text.specs.LinesAndWords.{words_of};
ghost use Rattle.nd_text.specs.DecimalNumerals.{nat_of};
ghost use Rattle.nd_text.specs.declared.script_keywords.Keyword.TheVariants.{Select};
ghost use Rattle.nd_read.specs.LineReaders.{Gives, first_as, both_at, list_at};
ghost use Rattle.nd_npy_run.specs.ViewSelectAndReshapeSteps.{asked_npy_step};
ghost use Rattle.nd_npy_run.specs.StepErrorTexts.{step_needs_text};
ghost use Rattle.nd_npy_run.specs.StepListWords.{GivesNpyStep, GivesNpySteps, npy_step_may_lack_by};

use crate::steps::errors::WordsError;
use crate::steps::number_lists::split_list;
use crate::steps::step::NpyStep;
use nd_read::{LineFault, split_step};
use nd_text::Keyword;
use nd_text::lines_and_words::split_word;
use nd_text::number_reading::split_number;
use std::alloc::Global;

/// Returns a sentence that says what has to follow `word` in a step, or that no step begins with it.
pub fn step_needs(word: &[u8]) -> &'static str
    ensures { result.now ≡ step_needs_text (keyword_of word.now) }
{
    match Keyword::of(word) {
        Keyword::Cut => "cut takes an axis, a start, an end or _, and a step",
        Keyword::Slice => "slice takes a count, and as many of s START END STEP, i INDEX and n",
        Keyword::Collapse => "collapse takes an axis and an index",
        Keyword::Index => "index takes an axis and an index",
        Keyword::Permute => "permute takes a count, and as many axes",
        Keyword::SwapAxes => "swapaxes takes two axes",
        Keyword::Invert => "invert takes an axis",
        Keyword::Insert => "insert takes an axis",
        Keyword::Remove => "remove takes an axis",
        Keyword::Broadcast => "broadcast takes a count, and as many lengths",
        Keyword::Select => "select takes an axis, a count, and as many indexes",
        Keyword::Reshape => "reshape takes a count, and as many lengths",
        _ => "no such step; --help lists the steps",
    }
}

/// Reads an axis and a list of its coordinates from the front of a line, and returns both and the rest of the line.
#[tactic(auto, unfolding(nd_read::specs::LineReaders::both_at))]
fn split_choice(alloc: Global, line: &[u8]) -> Result<((usize, Vec<usize>), &[u8]), LineFault>
    ensures { Gives (npy_step_may_lack_by Select (words_of line.now)) (λ x. ((x.0.0, x.0.1.items), words_of x.1.now)) result (both_at (first_as nat_of) list_at (words_of line.now)) }
{
    match split_number(line) {
        Some((axis, rest)) => match split_list(alloc, rest) {
            Ok((indexes, rest)) => Ok(((axis, indexes), rest)),
            Err(fault) => Err(fault),
        },
        None => Err(LineFault::Bad),
    }
}

/// Reads a step from the front of a line, and returns the step and the rest of the line.
fn split_npy_step(alloc: Global, line: &[u8]) -> Result<(NpyStep, &[u8]), LineFault>
    ensures { GivesNpyStep (λ x. (asked_npy_step x.0, words_of x.1.now)) (words_of line.now) result }
{
    match split_word(line) {
        Some((word, rest)) => match Keyword::of(word) {
            Keyword::Select => match split_choice(alloc, rest) {
                Ok((choice, rest)) => Ok((NpyStep::Select(choice.0, choice.1), rest)),
                Err(fault) => Err(fault),
            },
            Keyword::Reshape => match split_list(alloc, rest) {
                Ok((lengths, rest)) => Ok((NpyStep::Reshape(lengths), rest)),
                Err(fault) => Err(fault),
            },
            _ => match split_step(alloc, line) {
                Ok((step, rest)) => Ok((NpyStep::View(step), rest)),
                Err(fault) => Err(fault),
            },
        },
        None => Err(LineFault::Bad),
    }
}

/// Returns the steps that the words of `line` write, one after another.
///
/// # Errors
///
/// Fails with `BadStep`, which tells the first step that can't be read, or with `Memory` if memory for the steps before
/// that one, or for itself, is refused.
#[tactic(auto, using(crate::proofs::StepLists::none_before, crate::proofs::StepLists::more_before, crate::proofs::StepLists::begins_one, crate::proofs::StepLists::all_before))]
pub fn read_steps(alloc: Global, line: &[u8]) -> Result<Vec<NpyStep>, WordsError<'_>>
    ensures { GivesNpySteps (words_of line.now) (result_map_both (λ v. map asked_npy_step v.items) (λ e. e) result) }
{
    let mut steps = Vec::new(alloc);
    let mut rest = line;
    while let Some((word, _)) = split_word(rest) {
        match split_npy_step(alloc, rest) {
            Ok((step, after)) => match steps.push(step) {
                Ok(()) => rest = after,
                Err(_) => return Err(WordsError::Memory),
            },
            Err(LineFault::Bad) => {
                return Err(WordsError::BadStep {
                    number: steps.len() + 1,
                    word,
                });
            }
            Err(LineFault::Memory) => return Err(WordsError::Memory),
        }
    }
    Ok(steps)
}
