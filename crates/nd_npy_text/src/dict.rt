//! Reading the dict of a head: the item type, the order and the shape, whose keys may stand in any order.

ghost use Rattle.std.specs.Prelude.{◌≡◌, ◌≤◌, length, IsTrue, IfOk};
ghost use Rattle.std.specs.Result.{result_map_both};
ghost use Rattle.nd_npy_text.specs.ItemTypes.{has_its_order};
ghost use Rattle.nd_npy_text.specs.HeaderReading.{key_end, key_until, key_in, no_parts, value_in, entry_in, next_entry, entries_in, description_of_found, without_comma, line_end, dict_end, dict_in};
ghost use Rattle.nd_npy_text.specs.DictEntries.{listed, entry_parts, dict_of, AreSound};
ghost use Rattle.nd_npy_text.specs.declared.dict.Key.TheVariants.{Descr, FortranOrder, Shape};

use crate::errors::HeaderFlaw;
use crate::header_tokens::{after_mark, after_spaces, after_text, truth_here};
use crate::item_type::ItemType;
use crate::item_words::item_type_here;
use crate::length_list::Lengths;
use crate::shape_lengths::shape_here;

/// A key of the dict.
#[derive(Clone, Copy)]
enum Key {
    /// `descr`, the item type.
    Descr,
    /// `fortran_order`, whether the first axis runs fastest.
    FortranOrder,
    /// `shape`, the lengths.
    Shape,
}

/// The values of a dict that were read so far; a key that wasn't read yet has `None`.
#[derive(Clone, Copy)]
struct Found {
    item_type: Option<ItemType>,
    fortran_order: Option<bool>,
    shape: Option<Lengths>,
}

/// What a dict says.
#[derive(Clone, Copy)]
pub(crate) struct Dict {
    pub(crate) item_type: ItemType,
    pub(crate) fortran_order: bool,
    pub(crate) shape: Lengths,
}

/// Returns `key` and what follows the colon after it, where `name` and then `quote` must stand at the front of `text`.
#[tactic(auto, unfolding(crate::specs::HeaderReading::key_end))]
fn key_end<'a>(
    key: Key,
    name: &[u8],
    quote: u8,
    text: &'a [u8],
) -> Result<(Key, &'a [u8]), (usize, HeaderFlaw)>
    ensures { result_map_both (λ x. (x.0, x.1.now)) (λ stop. stop) result ≡ key_end key name.now quote text.now }
{
    match after_text(HeaderFlaw::Key, name, text) {
        Ok(rest) => match after_text(HeaderFlaw::Key, &[quote], rest) {
            Ok(rest) => match after_mark(HeaderFlaw::Key, b':', rest) {
                Ok(rest) => Ok((key, rest)),
                Err(stop) => Err(stop),
            },
            Err(stop) => Err(stop),
        },
        Err(stop) => Err(stop),
    }
}

/// Returns the key whose name stands at the front of `text`, with `quote` after it, and what follows the colon after
/// that.
fn key_until(quote: u8, text: &[u8]) -> Result<(Key, &[u8]), (usize, HeaderFlaw)>
    ensures { result_map_both (λ x. (x.0, x.1.now)) (λ stop. stop) result ≡ key_until quote text.now }
{
    match text {
        [b'd', ..] => key_end(Key::Descr, b"descr", quote, text),
        [b'f', ..] => key_end(Key::FortranOrder, b"fortran_order", quote, text),
        [b's', ..] => key_end(Key::Shape, b"shape", quote, text),
        _ => Err((text.len(), HeaderFlaw::Key)),
    }
}

/// Returns the key in quotes at the front of `text`, and what follows the colon after it.
#[tactic(auto, unfolding(crate::specs::HeaderReading::key_in))]
fn key_in(text: &[u8]) -> Result<(Key, &[u8]), (usize, HeaderFlaw)>
    ensures { result_map_both (λ x. (x.0, x.1.now)) (λ stop. stop) result ≡ key_in text.now }
{
    let text = after_spaces(text);
    match text {
        [byte, after @ ..] if *byte == b'\'' || *byte == b'"' => key_until(*byte, after),
        _ => Err((text.len(), HeaderFlaw::Key)),
    }
}

/// Returns `found` with the item type at the front of `text`, and what follows the item type. Fails with `KeyAgain` if
/// there is an item type already; `left` is how many bytes are left where the key begins.
#[tactic(auto, unfolding(crate::specs::HeaderReading::value_in))]
fn item_type_value(
    found: Found,
    left: usize,
    text: &[u8],
) -> Result<(Found, &[u8]), (usize, HeaderFlaw)>
    requires { AreSound (entry_parts found) }
    ensures value { result_map_both (λ x. (entry_parts x.0, x.1.now)) (λ stop. stop) result ≡ value_in Descr (entry_parts found) left text.now }
    ensures sound { IfOk result (λ x. AreSound (entry_parts x.0)) }
{
    if found.item_type.is_some() {
        return Err((left, HeaderFlaw::KeyAgain));
    }
    match item_type_here(after_spaces(text)) {
        Ok((item_type, rest)) => Ok((
            Found {
                item_type: Some(item_type),
                fortran_order: found.fortran_order,
                shape: found.shape,
            },
            rest,
        )),
        Err(stop) => Err(stop),
    }
}

/// Returns `found` with the order at the front of `text`, and what follows the order. Fails with `KeyAgain` if there is
/// an order already; `left` is how many bytes are left where the key begins.
#[tactic(auto, unfolding(crate::specs::HeaderReading::value_in))]
fn order_value(
    found: Found,
    left: usize,
    text: &[u8],
) -> Result<(Found, &[u8]), (usize, HeaderFlaw)>
    requires { AreSound (entry_parts found) }
    ensures value { result_map_both (λ x. (entry_parts x.0, x.1.now)) (λ stop. stop) result ≡ value_in FortranOrder (entry_parts found) left text.now }
    ensures sound { IfOk result (λ x. AreSound (entry_parts x.0)) }
{
    if found.fortran_order.is_some() {
        return Err((left, HeaderFlaw::KeyAgain));
    }
    match truth_here(after_spaces(text)) {
        Ok((fortran_order, rest)) => Ok((
            Found {
                item_type: found.item_type,
                fortran_order: Some(fortran_order),
                shape: found.shape,
            },
            rest,
        )),
        Err(stop) => Err(stop),
    }
}

/// Returns `found` with the shape at the front of `text`, and what follows the shape. Fails with `KeyAgain` if there is
/// a shape already; `left` is how many bytes are left where the key begins.
#[tactic(auto, unfolding(crate::specs::HeaderReading::value_in))]
fn shape_value(
    found: Found,
    left: usize,
    text: &[u8],
) -> Result<(Found, &[u8]), (usize, HeaderFlaw)>
    requires { AreSound (entry_parts found) }
    ensures value { result_map_both (λ x. (entry_parts x.0, x.1.now)) (λ stop. stop) result ≡ value_in Shape (entry_parts found) left text.now }
    ensures sound { IfOk result (λ x. AreSound (entry_parts x.0)) }
{
    if found.shape.is_some() {
        return Err((left, HeaderFlaw::KeyAgain));
    }
    match shape_here(text) {
        Ok((shape, rest)) => Ok((
            Found {
                item_type: found.item_type,
                fortran_order: found.fortran_order,
                shape: Some(shape),
            },
            rest,
        )),
        Err(stop) => Err(stop),
    }
}

/// Returns `found` with the value of `key` at the front of `text`, and what follows the value. Fails with `KeyAgain` if
/// the key already has a value; `left` is how many bytes are left where the key begins.
fn value_in(
    key: Key,
    found: Found,
    left: usize,
    text: &[u8],
) -> Result<(Found, &[u8]), (usize, HeaderFlaw)>
    requires { AreSound (entry_parts found) }
    ensures value { result_map_both (λ x. (entry_parts x.0, x.1.now)) (λ stop. stop) result ≡ value_in key (entry_parts found) left text.now }
    ensures sound { IfOk result (λ x. AreSound (entry_parts x.0)) }
{
    match key {
        Key::Descr => item_type_value(found, left, text),
        Key::FortranOrder => order_value(found, left, text),
        Key::Shape => shape_value(found, left, text),
    }
}

/// Returns `found` with the entry at the front of `text`, which is a key and its value, and what follows the entry.
#[tactic(auto, unfolding(crate::specs::HeaderReading::entry_in))]
fn entry_in(found: Found, text: &[u8]) -> Result<(Found, &[u8]), (usize, HeaderFlaw)>
    requires { AreSound (entry_parts found) }
    ensures value { result_map_both (λ x. (entry_parts x.0, x.1.now)) (λ stop. stop) result ≡ entry_in (entry_parts found) text.now }
    ensures sound { IfOk result (λ x. AreSound (entry_parts x.0)) }
{
    match key_in(text) {
        Ok((key, rest)) => value_in(key, found, after_spaces(text).len(), rest),
        Err(stop) => Err(stop),
    }
}

/// Returns `found` with the entry after the comma at the front of `text`, and what follows the entry.
#[tactic(auto, unfolding(crate::specs::HeaderReading::next_entry))]
fn next_entry(found: Found, text: &[u8]) -> Result<(Found, &[u8]), (usize, HeaderFlaw)>
    requires { AreSound (entry_parts found) }
    ensures value { result_map_both (λ x. (entry_parts x.0, x.1.now)) (λ stop. stop) result ≡ next_entry (entry_parts found) text.now }
    ensures sound { IfOk result (λ x. AreSound (entry_parts x.0)) }
{
    match after_mark(HeaderFlaw::Comma, b',', text) {
        Ok(rest) => entry_in(found, rest),
        Err(stop) => Err(stop),
    }
}

/// Returns a `Found` in which no key has a value.
fn nothing_found() -> Found
    ensures none { entry_parts result ≡ no_parts }
    ensures sound { AreSound (entry_parts result) }
{
    Found {
        item_type: None,
        fortran_order: None,
        shape: None,
    }
}

/// Returns the values of the three entries at the front of `text`, and what follows them.
#[tactic(auto, unfolding(crate::specs::HeaderReading::entries_in))]
fn entries_in(text: &[u8]) -> Result<(Found, &[u8]), (usize, HeaderFlaw)>
    ensures value { result_map_both (λ x. (entry_parts x.0, x.1.now)) (λ stop. stop) result ≡ entries_in text.now }
    ensures sound { IfOk result (λ x. AreSound (entry_parts x.0)) }
{
    match entry_in(nothing_found(), text) {
        Ok((found, text)) => match next_entry(found, text) {
            Ok((found, text)) => next_entry(found, text),
            Err(stop) => Err(stop),
        },
        Err(stop) => Err(stop),
    }
}

/// Returns the dict whose values were found. Fails if one is missing, which doesn't happen after three entries.
fn joined(found: Found) -> Result<Dict, (usize, HeaderFlaw)>
    requires { AreSound (entry_parts found) }
    ensures value { result_map_both dict_of (λ stop. stop) result ≡ description_of_found (entry_parts found) }
    ensures order { IfOk result (λ dict. IsTrue (has_its_order dict.item_type)) }
    ensures axes { IfOk result (λ dict. length (listed dict.shape) ≤ 32) }
{
    match found.item_type {
        Some(item_type) => match found.fortran_order {
            Some(fortran_order) => match found.shape {
                Some(shape) => Ok(Dict {
                    item_type,
                    fortran_order,
                    shape,
                }),
                None => Err((0, HeaderFlaw::Key)),
            },
            None => Err((0, HeaderFlaw::Key)),
        },
        None => Err((0, HeaderFlaw::Key)),
    }
}

/// Returns what follows the comma at the front of `text`, or all of `text` if there is none.
fn without_comma(text: &[u8]) -> &[u8]
    ensures { result.now ≡ without_comma text.now }
{
    match text {
        [b',', after @ ..] => after,
        _ => text,
    }
}

/// Returns no bytes if `text` is exactly one line feed, or else fails with `Padding`.
fn line_end(text: &[u8]) -> Result<&[u8], (usize, HeaderFlaw)>
    ensures { result_map_both (λ x. x.now) (λ stop. stop) result ≡ line_end text.now }
{
    match text {
        [b'\n'] => Ok(&[]),
        _ => Err((text.len(), HeaderFlaw::Padding)),
    }
}

/// Returns no bytes if `text` is the end of a dict and of its head: a comma or none, `}`, spaces and one line feed.
#[tactic(auto, unfolding(crate::specs::HeaderReading::dict_end))]
fn ending(text: &[u8]) -> Result<&[u8], (usize, HeaderFlaw)>
    ensures { result_map_both (λ x. x.now) (λ stop. stop) result ≡ dict_end text.now }
{
    match after_mark(HeaderFlaw::Ending, b'}', without_comma(after_spaces(text))) {
        Ok(rest) => line_end(after_spaces(rest)),
        Err(stop) => Err(stop),
    }
}

/// Returns what a dict says.
#[tactic(auto, unfolding(crate::specs::HeaderReading::dict_in))]
pub(crate) fn dict_in(text: &[u8]) -> Result<Dict, (usize, HeaderFlaw)>
    ensures value { result_map_both dict_of (λ stop. stop) result ≡ dict_in text.now }
    ensures order { IfOk result (λ dict. IsTrue (has_its_order dict.item_type)) }
    ensures axes { IfOk result (λ dict. length (listed dict.shape) ≤ 32) }
{
    match after_mark(HeaderFlaw::Beginning, b'{', text) {
        Ok(text) => match entries_in(text) {
            Ok((found, text)) => match ending(text) {
                Ok(_) => joined(found),
                Err(stop) => Err(stop),
            },
            Err(stop) => Err(stop),
        },
        Err(stop) => Err(stop),
    }
}
