//! Reading numbers from words and from the front of a line.

ghost use Rattle.std.specs.Prelude.{◌≡◌, ◌<◌, ◌-◌, ◌↔◌, IsTrue, ℕ, List, Option};
ghost use Rattle.std.specs.Char.{is_ascii_digit};
ghost use Rattle.std.specs.Option.{option_map};
ghost use Rattle.nd_text.specs.DecimalNumerals.{with_digit, with_digits, first_digits, signed_of, signed_first, nat_of, int_of, has_minus, without_minus};
ghost use Rattle.nd_text.specs.LinesAndWords.{words_of, first_as};

use crate::lines_and_words::{is_blank, trim_start};

/// Returns `number` with the digit `byte` appended, or None if `byte` is no digit or the result doesn't fit into a
/// `usize`.
fn with_digit(number: usize, byte: u8) -> Option<usize>
    ensures { result ≡ with_digit number byte }
{
    if !byte.is_ascii_digit() {
        return None;
    }
    number.checked_mul(10)?.checked_add((byte - b'0') as usize)
}

/// Returns the number that the decimal digits of `word` write, or None if the word is empty, has another byte, or
/// writes no `usize`. It goes over the bytes once.
pub fn of_digits(word: &[u8]) -> Option<usize>
    ensures { result ≡ nat_of word.now }
{
    if word.is_empty() {
        return None;
    }
    let mut number = 0;
    for byte in word {
        number = with_digit(number, *byte)?;
    }
    Some(number)
}

/// Returns `number`, negated if `minus` is true, or None if it doesn't fit into an `i64`.
fn signed(minus: bool, number: usize) -> Option<i64>
    ensures { result ≡ signed_of minus number }
{
    if number < GREATEST {
        let number = number as i64;
        return Some(if minus { -number } else { number });
    }
    if minus && number == GREATEST {
        return Some(i64::MIN);
    }
    None
}

/// One more than the greatest `i64`.
const GREATEST: usize = 1 << 63;

/// Returns whether `word` begins with a minus sign, and the bytes after that sign.
fn split_sign(word: &[u8]) -> (bool, &[u8])
    ensures minus { result.0 ≡ has_minus word.now }
    ensures digits { result.1.now ≡ without_minus word.now }
{
    match word {
        [b'-', digits @ ..] => (true, digits),
        _ => (false, word),
    }
}

/// Returns the signed number that a word writes, or None if it writes no `i64`.
#[tactic(auto, using(crate::proofs::DigitsRead::int_after))]
pub fn int_of_word(word: &[u8]) -> Option<i64>
    ensures { result ≡ int_of word.now }
{
    let (minus, digits) = split_sign(word);
    signed(minus, of_digits(digits)?)
}

/// Returns the value of a digit, and for any other byte a number above 9, so that one subtraction serves the test and
/// the value.
fn digit_value(byte: u8) -> usize
    ensures digit { IsTrue (is_ascii_digit byte) ↔ (result < 10) }
    ensures value { result < 10 → result ≡ byte - 48 }
{
    (byte as usize).wrapping_sub(48)
}

/// The number of digits that always fit into a `usize` after a first digit.
const DIGITS_THAT_FIT: usize = 18;

/// Appends the digits at the front of `line` to the digit `first`, at most `DIGITS_THAT_FIT` of them, and returns the number and
/// the bytes after these digits.
fn with_fitting_digits(first: usize, line: &[u8]) -> (usize, &[u8])
    requires { first < 10 }
    ensures { with_digits result.0 result.1.now ≡ with_digits first line.now }
{
    let end = line.len().min(DIGITS_THAT_FIT);
    let mut number = first;
    for nth in 0..end {
        let digit = digit_value(line[nth]);
        if digit > 9 {
            return (number, &line[nth..]);
        }
        number = number * 10 + digit;
    }
    (number, &line[end..])
}

/// Appends the digits up to the first blank of `line` to `number`, and returns the result and the bytes after that
/// blank. The result is None if another byte stands there, or the number doesn't fit. It tests after each digit whether
/// the number fits; few numbers are so long, so this function is not inlined.
#[inline(never)]
fn with_tested_digits(number: usize, line: &[u8]) -> Option<(usize, &[u8])>
    ensures { option_map (λ x. (x.0, words_of x.1.now)) result ≡ with_digits number line.now }
{
    let mut number = number;
    let mut rest = line;
    while let [byte, after @ ..] = rest {
        if is_blank(*byte) {
            return Some((number, after));
        }
        number = with_digit(number, *byte)?;
        rest = after;
    }
    Some((number, rest))
}

/// Appends the digits up to the first blank of `line` to the digit `first`, and returns the number and the bytes after
/// that blank. The result is None if another byte stands there, or the number doesn't fit.
fn with_digits(first: usize, line: &[u8]) -> Option<(usize, &[u8])>
    requires { first < 10 }
    ensures { option_map (λ x. (x.0, words_of x.1.now)) result ≡ with_digits first line.now }
{
    let (number, rest) = with_fitting_digits(first, line);
    match rest {
        [] => Some((number, rest)),
        [byte, after @ ..] if is_blank(*byte) => Some((number, after)),
        _ => with_tested_digits(number, rest),
    }
}

/// Returns the number that the bytes up to the first blank of `line` write, and the bytes after that blank. The result
/// is None if these bytes write no `usize`.
fn split_digits(line: &[u8]) -> Option<(usize, &[u8])>
    ensures { option_map (λ x. (x.0, words_of x.1.now)) result ≡ first_digits line.now }
{
    match line {
        [first, after @ ..] if digit_value(*first) < 10 => with_digits(digit_value(*first), after),
        _ => None,
    }
}

/// Returns the number that the first word of a line writes, and what follows that word, in one pass. The result is None
/// where the line has no word, or the first writes no `usize`.
pub fn split_number(line: &[u8]) -> Option<(usize, &[u8])>
    ensures { option_map (λ x. (x.0, words_of x.1.now)) result ≡ first_as nat_of (words_of line.now) }
{
    split_digits(trim_start(line))
}

/// Returns the number that the bytes up to the first blank of `digits` write, negated if `minus` is true, and the bytes
/// after that blank. The result is None if the bytes write no number or it doesn't fit into an `i64`.
fn split_signed(minus: bool, digits: &[u8]) -> Option<(i64, &[u8])>
    ensures { option_map (λ x. (x.0, words_of x.1.now)) result ≡ signed_first minus (first_digits digits.now) }
{
    let (number, rest) = split_digits(digits)?;
    Some((signed(minus, number)?, rest))
}

/// Returns the signed number that the first word of a line writes, and what follows that word, in one pass. The result
/// is None where the line has no word, or the first writes no `i64`.
pub fn split_int(line: &[u8]) -> Option<(i64, &[u8])>
    ensures { option_map (λ x. (x.0, words_of x.1.now)) result ≡ first_as int_of (words_of line.now) }
{
    let (minus, digits) = split_sign(trim_start(line));
    split_signed(minus, digits)
}
