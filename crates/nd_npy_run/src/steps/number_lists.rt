//! Reading lists of numbers from the front of a line.

ghost use Rattle.std.specs.Prelude.{◌≡◌};
ghost use Rattle.nd_text.specs.DecimalNumerals.{nat_of};
ghost use Rattle.nd_text.specs.LinesAndWords.{words_of};
ghost use Rattle.nd_read.specs.LineReaders.{Gives, first_as, list_at, list_may_lack, many_at, many_may_lack};

use nd_read::LineFault;
use nd_text::lines_and_words::has_words;
use nd_text::number_reading::split_number;
use std::alloc::Global;

/// Reads `count` numbers from the front of a line, and returns them and the rest of the line. Fails with
/// `LineFault::Bad`, and takes no memory, if the line has fewer than `count` words.
fn split_numbers(alloc: Global, line: &[u8], count: usize) -> Result<(Vec<usize>, &[u8]), LineFault>
    ensures { Gives (many_may_lack count (words_of line.now)) (λ x. (x.0.items, words_of x.1.now)) result (many_at (first_as nat_of) count (words_of line.now)) }
{
    if !has_words(line, count) {
        return Err(LineFault::Bad);
    }
    let mut numbers = Vec::with_capacity(alloc, count)?;
    let mut rest = line;
    for _ in 0..count {
        match split_number(rest) {
            Some((number, after)) => {
                numbers.push_reserved(number);
                rest = after;
            }
            None => return Err(LineFault::Bad),
        }
    }
    Ok((numbers, rest))
}

/// Reads a count and as many numbers from the front of a line, and returns the numbers and the rest of the line.
pub(crate) fn split_list(alloc: Global, line: &[u8]) -> Result<(Vec<usize>, &[u8]), LineFault>
    ensures { Gives (list_may_lack (words_of line.now)) (λ x. (x.0.items, words_of x.1.now)) result (list_at (words_of line.now)) }
{
    match split_number(line) {
        Some((count, rest)) => split_numbers(alloc, rest, count),
        None => Err(LineFault::Bad),
    }
}
