//! Quoting one step of a line in a message that tells what is wrong with it.

ghost use Rattle.std.specs.Prelude.{◌≡◌};
ghost use Rattle.nd_text.specs.BufferedPrinting.{Puts};
ghost use Rattle.nd_text.specs.LinesAndWords.{words_of};
ghost use Rattle.nd_picture_text.specs.QuotedSteps.{after_steps, number_count, spaced, first_step_text, step_text};

use crate::step_words::{StepName, name_of, split_step};
use nd_text::buffered_printing::put;
use nd_text::lines_and_words::split_word;
use nd_text::{Page, Watched};
use std::io::Write;

/// Returns what follows the first `count` steps of the line. If one of them can't be read, returns the rest of the line
/// from that step on.
#[tactic(auto, using(crate::proofs::StepQuotes::after_more, crate::proofs::StepQuotes::after_end))]
fn after_steps(line: &[u8], count: usize) -> &[u8]
    ensures { words_of result.now ≡ after_steps count (words_of line.now) }
{
    let mut rest = line;
    let mut left = count;
    while left > 0 {
        match split_step(rest) {
            Some((_step, after)) => rest = after,
            None => return rest,
        }
        left -= 1;
    }
    rest
}

/// Returns the number of numbers that stand after the step's name.
fn number_count(name: StepName) -> usize
    ensures { result ≡ number_count name }
{
    match name {
        StepName::Crop => 4,
        StepName::Rotate => 1,
        StepName::ScaleDown => 1,
        StepName::Threshold => 1,
        StepName::Border => 2,
        StepName::Shrink => 1,
        _ => 0,
    }
}

/// Writes the first `count` words of the line, or all if it has fewer, with a space before each. They are buffered in
/// `page`.
fn put_spaced<W: Write>(output: &mut Watched<W>, page: &mut Page, count: usize, line: &[u8])
    ensures { Puts W.contents output.old page.old output.new page.new (spaced count (words_of line.now)) }
{
    if count == 0 {
        return;
    }
    if let Some((word, rest)) = split_word(line) {
        put(output, page, b" ");
        put(output, page, word);
        put_spaced(output, page, count - 1, rest);
    }
}

/// Writes the name and the numbers of the first step of the line, or as many of these words as there are. They are
/// buffered in `page`.
fn put_first_step<W: Write>(output: &mut Watched<W>, page: &mut Page, line: &[u8])
    ensures { Puts W.contents output.old page.old output.new page.new (first_step_text (words_of line.now)) }
{
    if let Some((word, rest)) = split_word(line) {
        put(output, page, word);
        put_spaced(output, page, number_count(name_of(word)), rest);
    }
}

/// Writes the words of the step with the number `number`, counted from 1, in the line. They are buffered in `page`.
pub fn put_step<W: Write>(output: &mut Watched<W>, page: &mut Page, line: &[u8], number: usize)
    ensures { Puts W.contents output.old page.old output.new page.new (step_text number (words_of line.now)) }
{
    put_first_step(output, page, after_steps(line, number.saturating_sub(1)));
}
