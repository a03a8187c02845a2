//! Reading the tokens of a head from the front of the bytes. An error is how many bytes are left at the place that
//! can't be read, and what is wrong there.

ghost use Rattle.std.specs.Prelude.{◌≡◌, ◌+◌, ◌-◌, ◌*◌, ◌<◌, ◌^◌, SomeIff, IsTrue};
ghost use Rattle.std.specs.Result.{result_map_both};
ghost use Rattle.nd_npy_text.specs.HeaderTokens.{after_spaces, after_text, after_mark, npy_takes_digit, npy_digits_after, npy_number_here, truth_here};

use crate::errors::HeaderFlaw;

/// Returns what follows the spaces at the front.
pub(crate) fn after_spaces(text: &[u8]) -> &[u8]
    ensures { result.now ≡ after_spaces text.now }
{
    let mut rest = text;
    while let [byte, after @ ..] = rest {
        if *byte != b' ' {
            return rest;
        }
        rest = after;
    }
    rest
}

/// Returns what follows `literal` at the front of `text`, or `flaw` at the first byte that differs from it, or at the
/// end if `text` ends before the literal does.
pub(crate) fn after_text<'a>(
    flaw: HeaderFlaw,
    literal: &[u8],
    text: &'a [u8],
) -> Result<&'a [u8], (usize, HeaderFlaw)>
    ensures { result_map_both (λ x. x.now) (λ stop. stop) result ≡ after_text flaw literal.now text.now }
{
    let mut wanted = literal;
    let mut rest = text;
    while let [byte, others @ ..] = wanted {
        match rest {
            [first, after @ ..] if *first == *byte => {
                wanted = others;
                rest = after;
            }
            _ => return Err((rest.len(), flaw)),
        }
    }
    Ok(rest)
}

/// Returns what follows the byte `mark` at the front of `text`, where spaces may stand before it.
#[tactic(auto, unfolding(crate::specs::HeaderTokens::after_mark))]
pub(crate) fn after_mark(
    flaw: HeaderFlaw,
    mark: u8,
    text: &[u8],
) -> Result<&[u8], (usize, HeaderFlaw)>
    ensures { result_map_both (λ x. x.now) (λ stop. stop) result ≡ after_mark flaw mark text.now }
{
    let literal = [mark];
    after_text(flaw, &literal, after_spaces(text))
}

/// Returns `number` followed by the digit `byte`, if that byte is a digit and the result is at most `isize::MAX`.
fn with_digit(number: usize, byte: u8) -> Option<usize>
    ensures { SomeIff result (IsTrue (npy_takes_digit number byte)) (number * 10 + (byte - 48)) }
{
    if !byte.is_ascii_digit() {
        return None;
    }
    let more = number as u128 * 10 + (byte - b'0') as u128;
    if more > LIMIT {
        return None;
    }
    Some(more as usize)
}

/// The largest number that is read: `isize::MAX`.
const LIMIT: u128 = isize::MAX as u128;

/// Returns the number that is written as the digits of `first` and then those at the front of `text`, and what follows
/// the last digit. Fails with `flaw` at the digit that makes the number pass `isize::MAX`.
fn digits_after(
    flaw: HeaderFlaw,
    first: usize,
    text: &[u8],
) -> Result<(usize, &[u8]), (usize, HeaderFlaw)>
    ensures { result_map_both (λ x. (x.0, x.1.now)) (λ stop. stop) result ≡ npy_digits_after flaw first text.now }
{
    let mut number = first;
    let mut rest = text;
    while let [byte, after @ ..] = rest {
        if !byte.is_ascii_digit() {
            return Ok((number, rest));
        }
        match with_digit(number, *byte) {
            Some(more) => number = more,
            None => return Err((rest.len(), flaw)),
        }
        rest = after;
    }
    Ok((number, rest))
}

/// Returns the number at the front of `text`, of at least one digit and at most `isize::MAX`, and what follows it.
pub(crate) fn number_here(
    flaw: HeaderFlaw,
    text: &[u8],
) -> Result<(usize, &[u8]), (usize, HeaderFlaw)>
    ensures { result_map_both (λ x. (x.0, x.1.now)) (λ stop. stop) result ≡ npy_number_here flaw text.now }
{
    match text {
        [byte, after @ ..] if byte.is_ascii_digit() => {
            digits_after(flaw, (*byte - b'0') as usize, after)
        }
        _ => Err((text.len(), flaw)),
    }
}

/// Returns whether `True` or `False` stands at the front of `text`, and what follows it.
#[tactic(auto, unfolding(crate::specs::HeaderTokens::truth_here))]
pub(crate) fn truth_here(text: &[u8]) -> Result<(bool, &[u8]), (usize, HeaderFlaw)>
    ensures { result_map_both (λ x. (x.0, x.1.now)) (λ stop. stop) result ≡ truth_here text.now }
{
    match text {
        [b'F', ..] => match after_text(HeaderFlaw::Truth, b"False", text) {
            Ok(rest) => Ok((false, rest)),
            Err(stop) => Err(stop),
        },
        _ => match after_text(HeaderFlaw::Truth, b"True", text) {
            Ok(rest) => Ok((true, rest)),
            Err(stop) => Err(stop),
        },
    }
}
