//! Reading the lengths of a shape.

ghost use Rattle.std.specs.Prelude.{◌≡◌, ◌+◌, ◌<◌, ◌≤◌, true, [], ◌∷◌, ◌++◌, length, IfOk};
ghost use Rattle.std.specs.Result.{result_map_both};
ghost use Rattle.nd_npy_text.specs.HeaderReading.{closes, after_length, length_in, lengths_in, one_too_many, shape_here};
ghost use Rattle.nd_npy_text.specs.DictEntries.{listed};

use crate::errors::HeaderFlaw;
use crate::header_tokens::{after_mark, after_spaces, number_here};
use crate::length_list::{Lengths, MAX_AXES};

impl Lengths {
    /// Returns an empty list of lengths.
    fn none() -> Lengths
        ensures none { listed result ≡ [] }
        ensures count { result.count ≡ 0 }
    {
        Lengths {
            lengths: [0; MAX_AXES],
            count: 0,
        }
    }

    /// Returns the lengths as a slice.
    pub(crate) fn as_slice(&self) -> &[usize]
        ensures { result.now ≡ listed self.now }
    {
        &self.lengths[..self.count]
    }

    /// Appends a length to the others, which must be fewer than 32.
    fn add(&mut self, length: usize)
        requires { self.old.count < 32 }
        ensures listed { listed self.new ≡ listed self.old ++ length ∷ [] }
        ensures count { self.new.count ≡ self.old.count + 1 }
    {
        let end = self.count + 1;
        let one = [length];
        self.lengths[self.count..end].copy_from_slice(&one);
        self.count = end;
    }
}

/// Returns whether `)`, the end of the shape, stands at the front of `text`, where spaces may stand before it.
fn closes(text: &[u8]) -> bool
    ensures { result ≡ closes text.now }
{
    match after_spaces(text) {
        [b')', ..] => true,
        _ => false,
    }
}

/// Returns what follows the comma after a length. After a length that isn't the first, the `)` of the shape may stand
/// in place of the comma; it is then still part of what follows.
fn after_length(first: bool, text: &[u8]) -> Result<&[u8], (usize, HeaderFlaw)>
    ensures { result_map_both (λ x. x.now) (λ stop. stop) result ≡ after_length first text.now }
{
    match text {
        [b',', after @ ..] => Ok(after),
        [b')', ..] if !first => Ok(text),
        _ => Err((text.len(), HeaderFlaw::AfterLength)),
    }
}

/// Returns the length at the front of `text`, and what follows its comma; `first` says whether it is the first of the
/// shape.
#[tactic(auto, unfolding(crate::specs::HeaderReading::length_in))]
fn length_in(first: bool, text: &[u8]) -> Result<(usize, &[u8]), (usize, HeaderFlaw)>
    ensures { result_map_both (λ x. (x.0, x.1.now)) (λ stop. stop) result ≡ length_in first text.now }
{
    match number_here(HeaderFlaw::Length, after_spaces(text)) {
        Ok((length, rest)) => match after_length(first, after_spaces(rest)) {
            Ok(rest) => Ok((length, rest)),
            Err(stop) => Err(stop),
        },
        Err(stop) => Err(stop),
    }
}

/// Returns the error of a shape that doesn't end after 32 lengths: `TooManyAxes` if another length stands at the front
/// of `text`, or else the error of reading a length.
#[tactic(auto, unfolding(crate::specs::HeaderReading::one_too_many))]
fn one_too_many(text: &[u8]) -> (usize, HeaderFlaw)
    ensures { one_too_many text.now ≡ Err result }
{
    let text = after_spaces(text);
    match number_here(HeaderFlaw::Length, text) {
        Ok(_) => (text.len(), HeaderFlaw::TooManyAxes),
        Err(stop) => stop,
    }
}

/// Returns the lengths up to the end of the shape, and what follows this end.
fn lengths_in(text: &[u8]) -> Result<(Lengths, &[u8]), (usize, HeaderFlaw)>
    ensures value { result_map_both (λ x. (listed x.0, x.1.now)) (λ stop. stop) result ≡ lengths_in true 32 text.now }
    ensures axes { IfOk result (λ x. length (listed x.0) ≤ 32) }
{
    let mut shape = Lengths::none();
    let mut rest = text;
    let mut first = true;
    let mut left = MAX_AXES;
    while !closes(rest) {
        if left == 0 {
            return Err(one_too_many(rest));
        }
        match length_in(first, rest) {
            Ok((length, after)) => {
                shape.add(length);
                rest = after;
            }
            Err(stop) => return Err(stop),
        }
        first = false;
        left -= 1;
    }
    match after_mark(HeaderFlaw::AfterLength, b')', rest) {
        Ok(after) => Ok((shape, after)),
        Err(stop) => Err(stop),
    }
}

/// Returns the shape in parentheses at the front of `text`, and what follows it.
#[tactic(auto, unfolding(crate::specs::HeaderReading::shape_here))]
pub(crate) fn shape_here(text: &[u8]) -> Result<(Lengths, &[u8]), (usize, HeaderFlaw)>
    ensures value { result_map_both (λ x. (listed x.0, x.1.now)) (λ stop. stop) result ≡ shape_here text.now }
    ensures axes { IfOk result (λ x. length (listed x.0) ≤ 32) }
{
    match after_mark(HeaderFlaw::Shape, b'(', text) {
        Ok(text) => lengths_in(text),
        Err(stop) => Err(stop),
    }
}
