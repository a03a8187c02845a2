//! What the program writes of the array after the steps.

ghost use Rattle.std.specs.Prelude.{◌≡◌, ◌≤◌, ◌++◌, codes, false, drop, length, Some};
ghost use Rattle.nd_text.specs.LinesAndWords.{words_of};
ghost use Rattle.nd_array_core.specs.ArrayMeaning.{meaning_of};
ghost use Rattle.nd_npy_text.specs.HeaderDescription.{described};
ghost use Rattle.nd_npy_text.specs.ItemTypes.{kind_size};
ghost use Rattle.nd_npy_text.specs.HeaderWriting.{padded, roomy_text, tuple_text};
ghost use Rattle.nd_npy_run.specs.FilesAfterSteps.{file_text};
ghost use Rattle.nd_npy_run.specs.OutputAndStatus.{bytes_made, ComesOfArray, ComesOfText};
ghost use Rattle.nd_npy_run.specs.UsageAndArguments.{asked_of, wanted_by, wanted_named, step_words};

use crate::arrays_reduced_along_axis::reduced_bytes;
use crate::item_numbers::Items;
use crate::output_or_fault::Fault;
use crate::printed_arrays::printed_bytes;
use crate::reduction::{Reduction, reduction_named};
use nd_array_core::Dimension;
use nd_npy::writer::npy_bytes_as;
use nd_npy_text::ItemType;
use nd_npy_text::writer::{header_bytes, put_shape};
use nd_text::lines_and_words::split_word;
use nd_text::number_reading::split_number;
use std::alloc::Global;

/// What is wanted of the array after the steps.
#[derive(Clone, Copy, Debug, PartialEq, Eq)]
pub enum Wanted {
    /// The file of the array.
    File,
    /// A line that describes the array: the dict in the head of its file.
    Description,
    /// A line with the array's shape, as numpy writes it.
    Shape,
    /// The text of the array, as `{}` writes it.
    Text,
    /// The file of the array that has, for each lane along an axis, what is made of its elements.
    Reduced {
        /// What is made of them.
        reduction: Reduction,
        /// The number of the axis, counted from 0.
        axis: usize,
    },
}

const DESCRIBE: &[u8] = b"describe";

const SHAPE: &[u8] = b"shape";

const PRINT: &[u8] = b"print";

/// Returns what the word asks for: a description if it is `describe`, a shape if it is `shape`, a text if it is
/// `print`, and nothing if it is another word.
fn wanted_named(word: &[u8]) -> Option<Wanted>
    ensures { result ≡ wanted_named word.now }
{
    if word == DESCRIBE {
        return Some(Wanted::Description);
    }
    if word == SHAPE {
        return Some(Wanted::Shape);
    }
    if word == PRINT {
        return Some(Wanted::Text);
    }
    None
}

/// Returns what a line asks for whose first word may name a reduction, and the part of the line that has the steps. `rest`
/// is what follows the first word.
fn reduction_in<'a>(
    line: &'a [u8],
    reduction: Option<Reduction>,
    rest: &'a [u8],
) -> (Wanted, &'a [u8])
    ensures wanted { result.0 ≡ (asked_of (words_of line.now) reduction (words_of rest.now)).0 }
    ensures steps { words_of result.1.now ≡ (asked_of (words_of line.now) reduction (words_of rest.now)).1 }
{
    match reduction {
        Some(reduction) => match split_number(rest) {
            Some((axis, steps)) => (Wanted::Reduced { reduction, axis }, steps),
            None => (Wanted::File, line),
        },
        None => (Wanted::File, line),
    }
}

/// Returns what the first words of a line ask for, and the part of the line that has the steps. The first word can be
/// `describe`, `shape` or `print`, or `sum`, `mean`, `min` or `max` with an axis after it; the steps are what follows.
/// Otherwise the file is asked for, and the line has the steps.
pub fn wanted_in(line: &[u8]) -> (Wanted, &[u8])
    ensures wanted { result.0 ≡ wanted_by (words_of line.now) }
    ensures steps { words_of result.1.now ≡ step_words (words_of line.now) }
{
    match split_word(line) {
        Some((word, rest)) => match wanted_named(word) {
            Some(wanted) => (wanted, rest),
            None => reduction_in(line, reduction_named(word), rest),
        },
        None => (Wanted::File, line),
    }
}

/// How many bytes of a file stand in front of its dict.
const FRONT_LEN: usize = 10;

/// Returns what stands in a head behind those bytes.
fn after_front(head: &[u8]) -> &[u8]
    requires { 10 ≤ length head.now }
    ensures { result.now ≡ drop 10 head.now }
{
    &head[FRONT_LEN..]
}

/// Returns the dict in the head of the file of an array with this type of items and this shape, with the spaces and the
/// line feed that end the head. Fails with `Memory` if memory is refused.
#[tactic(auto, using(crate::proofs::DictOfHeader::head_long))]
fn description_bytes(
    alloc: Global,
    item_type: ItemType,
    shape: &[usize],
) -> Result<Vec<u8>, Fault<'static>>
    requires { length shape.now ≤ 32 }
    ensures { ComesOfText (Some (padded (roomy_text (described item_type false shape.now)))) (bytes_made result) }
{
    let head = match header_bytes(alloc, item_type, false, shape) {
        Ok(head) => head,
        Err(_) => return Err(Fault::Memory),
    };
    let mut text = Vec::new(alloc);
    match text.extend_from_slice(after_front(head.as_slice())) {
        Ok(()) => Ok(text),
        Err(_) => Err(Fault::Memory),
    }
}

/// Returns the line that tells a shape, as numpy writes it. Fails with `Memory` if memory is refused.
fn shape_bytes(alloc: Global, shape: &[usize]) -> Result<Vec<u8>, Fault<'static>>
    ensures { ComesOfText (Some (tuple_text shape.now ++ codes "\n")) (bytes_made result) }
{
    let mut bytes = Vec::new(alloc);
    if put_shape(&mut bytes, shape).is_err() || bytes.extend_from_slice(b"\n").is_err() {
        return Err(Fault::Memory);
    }
    Ok(bytes)
}

/// Returns the file of an array of items, or fails with `Memory` if memory is refused.
fn file_bytes<const N: usize>(
    alloc: Global,
    item_type: ItemType,
    array: &Items<'_, N>,
) -> Result<Vec<u8>, Fault<'static>>
    requires { kind_size item_type.kind ≡ N }
    ensures { ComesOfText (Some (file_text item_type (meaning_of array.now))) (bytes_made result) }
{
    match npy_bytes_as(alloc, item_type, array) {
        Ok(file) => Ok(file),
        Err(_) => Err(Fault::Memory),
    }
}

/// Returns what is wanted of an array whose items have the type `item_type`. Fails with `NoText` if that is its text, and
/// the items have none; with `NotReduced` if it is to be reduced, and can't be; and with `Memory` if memory is refused.
pub(crate) fn wanted_bytes<const N: usize>(
    alloc: Global,
    wanted: Wanted,
    item_type: ItemType,
    array: &Items<'_, N>,
) -> Result<Vec<u8>, Fault<'static>>
    requires { kind_size item_type.kind ≡ N }
    ensures { ComesOfArray wanted item_type (meaning_of array.now) (bytes_made result) }
{
    match wanted {
        Wanted::File => file_bytes(alloc, item_type, array),
        Wanted::Description => description_bytes(alloc, item_type, array.raw_dim().slice()),
        Wanted::Shape => shape_bytes(alloc, array.raw_dim().slice()),
        Wanted::Text => printed_bytes(alloc, item_type, array),
        Wanted::Reduced { reduction, axis } => {
            reduced_bytes(alloc, reduction, axis, item_type, array)
        }
    }
}
