//! What the program writes for a line of steps and the bytes of the input: a file, or the reason why there is none.

ghost use Rattle.std.specs.Prelude.{◌≡◌, ◌≤◌, drop, length, map, IsTrue};
ghost use Rattle.std.specs.Result.{result_map_both};
ghost use Rattle.nd_text.specs.LinesAndWords.{words_of};
ghost use Rattle.nd_text.specs.WatchedReadersAndWriters.{watched_retried};
ghost use Rattle.nd_array_core.specs.ArrayMeaning.{meaning_of};
ghost use Rattle.nd_npy_text.specs.ItemTypes.{kind_size};
ghost use Rattle.nd_npy_run.specs.ViewSelectAndReshapeSteps.{asked_npy_step, are_viewed};
ghost use Rattle.nd_npy_run.specs.FilesAfterSteps.{HasItems, ReadsItems};
ghost use Rattle.nd_npy_run.specs.StepListResults.{rest_of_steps};
ghost use Rattle.nd_npy_run.specs.OutputAndStatus.{bytes_made, ComesOfRest, ComesOfReader, ComesOfSteps, AreNoNpySteps, IsInputReadFor};

use crate::reduction::ReductionError;
use crate::steps::{
    NpyStep, NpyStepsError, Refusal, WordsError, copying_steps, follow_steps, read_steps,
    take_steps,
};
use crate::wanted_outputs::{Wanted, wanted_bytes};
use nd_array_core::{ArrayD, ArrayViewD};
use nd_npy::ReadNpyError;
use nd_npy::reader::{read_npy, view_npy};
use nd_npy_text::reader::read_header;
use nd_npy_text::{HeaderError, ItemType, Kind};
use nd_text::Watched;
use nd_text::read_input::{InputError, read_input};
use std::alloc::Global;
use std::io::Read;

/// Why no file is written.
#[derive(Clone, Copy, Debug)]
pub enum Fault<'a> {
    /// A step can't be read.
    BadStep {
        /// The number of the first step that can't be read, counted from 1.
        number: usize,
        /// The word at which that step should begin.
        word: &'a [u8],
    },
    /// The head of the file can't be read, for this cause, which is never `Memory`.
    BadHead(HeaderError),
    /// The bytes behind the head aren't as many as the elements take.
    WrongSize {
        /// How many bytes the elements take.
        expected: usize,
        /// How many bytes follow the head.
        found: usize,
    },
    /// A step is refused on the array that it meets.
    Refused(Refusal),
    /// The array is to be printed, but elements of this kind have no text.
    NoText(Kind),
    /// The array is to be reduced along an axis, and can't be.
    NotReduced(ReductionError),
    /// Memory was refused.
    Memory,
    /// A read of the input failed.
    ReadFailed,
}

/// Returns a view of the array of a file whose items have the type `item_type` and take `N` bytes each, as its head says.
/// The items stay where they lie in `bytes`.
fn items_in<'a, const N: usize>(
    alloc: Global,
    item_type: ItemType,
    bytes: &'a [u8],
) -> Result<ArrayViewD<'a, [u8; N]>, Fault<'static>>
    requires { HasItems bytes.now item_type N }
    ensures { ReadsItems bytes.now item_type (result_map_both meaning_of (λ e. e) result) }
{
    match view_npy(alloc, bytes) {
        Ok(view) => Ok(view),
        Err(ReadNpyError::WrongSize { expected, found }) => {
            Err(Fault::WrongSize { expected, found })
        }
        // The head says that the items are of this size, so nothing else than memory is lacking.
        Err(_) => Err(Fault::Memory),
    }
}

/// Returns the array of a file whose items have the type `item_type` and take `N` bytes each, as its head says.
fn array_in<const N: usize>(
    alloc: Global,
    item_type: ItemType,
    bytes: &[u8],
) -> Result<ArrayD<[u8; N]>, Fault<'static>>
    requires { HasItems bytes.now item_type N }
    ensures { ReadsItems bytes.now item_type (result_map_both meaning_of (λ e. e) result) }
{
    match read_npy(alloc, bytes) {
        Ok(array) => Ok(array),
        Err(ReadNpyError::WrongSize { expected, found }) => {
            Err(Fault::WrongSize { expected, found })
        }
        // The head says that the items are of this size, so nothing else than memory is lacking.
        Err(_) => Err(Fault::Memory),
    }
}

/// Returns what is wanted of the array that a view shows, after the steps that follow the first `done` ones. They must
/// all lead to views.
fn wanted_after<const N: usize>(
    alloc: Global,
    wanted: Wanted,
    item_type: ItemType,
    view: ArrayViewD<'_, [u8; N]>,
    steps: &[NpyStep],
    done: usize,
) -> Result<Vec<u8>, Fault<'static>>
    requires size { kind_size item_type.kind ≡ N }
    requires few { done ≤ length steps.now }
    requires views { IsTrue (are_viewed (drop done (map asked_npy_step steps.now))) }
    ensures { ComesOfRest wanted item_type (rest_of_steps done (map asked_npy_step steps.now) (meaning_of view.entry)) (bytes_made result) }
{
    let mut view = view;
    match follow_steps(&mut view, steps, done) {
        Ok(()) => wanted_bytes(alloc, wanted, item_type, &view),
        Err(refusal) => Err(Fault::Refused(refusal)),
    }
}

/// Returns what is wanted of the array after the steps, none of which copies elements. All of them are taken on a view of
/// the items where they lie in `bytes`.
fn turned_by_views<const N: usize>(
    alloc: Global,
    wanted: Wanted,
    item_type: ItemType,
    steps: &[NpyStep],
    bytes: &[u8],
) -> Result<Vec<u8>, Fault<'static>>
    requires items { HasItems bytes.now item_type N }
    requires views { IsTrue (are_viewed (map asked_npy_step steps.now)) }
    ensures { ComesOfSteps wanted (map asked_npy_step steps.now) bytes.now (bytes_made result) }
{
    match items_in::<N>(alloc, item_type, bytes) {
        Ok(view) => wanted_after(alloc, wanted, item_type, view, steps, 0),
        Err(fault) => Err(fault),
    }
}

/// Returns what is wanted of the array after the steps, some of which may copy elements.
fn turned_by_copies<const N: usize>(
    alloc: Global,
    wanted: Wanted,
    item_type: ItemType,
    steps: &[NpyStep],
    bytes: &[u8],
) -> Result<Vec<u8>, Fault<'static>>
    requires { HasItems bytes.now item_type N }
    ensures { ComesOfSteps wanted (map asked_npy_step steps.now) bytes.now (bytes_made result) }
{
    let array = match array_in::<N>(alloc, item_type, bytes) {
        Ok(array) => array,
        Err(fault) => return Err(fault),
    };
    let done = copying_steps(steps);
    match take_steps(alloc, array, steps, done) {
        Ok(array) => wanted_after(alloc, wanted, item_type, array.view(), steps, done),
        Err(NpyStepsError::Refused(refusal)) => Err(Fault::Refused(refusal)),
        Err(NpyStepsError::Memory) => Err(Fault::Memory),
    }
}

/// Returns what is wanted of the array after the steps, where the items of the file `bytes` have the type `item_type` and
/// take `N` bytes each, as its head says.
fn turned_as<const N: usize>(
    alloc: Global,
    wanted: Wanted,
    item_type: ItemType,
    steps: &[NpyStep],
    bytes: &[u8],
) -> Result<Vec<u8>, Fault<'static>>
    requires { HasItems bytes.now item_type N }
    ensures { ComesOfSteps wanted (map asked_npy_step steps.now) bytes.now (bytes_made result) }
{
    if copying_steps(steps) == 0 {
        return turned_by_views::<N>(alloc, wanted, item_type, steps, bytes);
    }
    turned_by_copies::<N>(alloc, wanted, item_type, steps, bytes)
}

/// Returns what is wanted of the array after the steps.
fn turned(
    alloc: Global,
    wanted: Wanted,
    steps: &[NpyStep],
    bytes: &[u8],
) -> Result<Vec<u8>, Fault<'static>>
    ensures { ComesOfSteps wanted (map asked_npy_step steps.now) bytes.now (bytes_made result) }
{
    let item_type = match read_header(alloc, bytes) {
        Ok((header, _start)) => header.item_type,
        Err(HeaderError::Memory) => return Err(Fault::Memory),
        Err(error) => return Err(Fault::BadHead(error)),
    };
    match item_type.size() {
        1 => turned_as::<1>(alloc, wanted, item_type, steps, bytes),
        2 => turned_as::<2>(alloc, wanted, item_type, steps, bytes),
        4 => turned_as::<4>(alloc, wanted, item_type, steps, bytes),
        8 => turned_as::<8>(alloc, wanted, item_type, steps, bytes),
        _ => turned_as::<16>(alloc, wanted, item_type, steps, bytes),
    }
}

/// Reads the steps from the words of `line` and a file from the whole input, and returns what is wanted of the array
/// after the steps. If the words are no steps, no byte of the input is read.
#[tactic(auto, using(crate::proofs::OutputOfSteps::comes_read, crate::proofs::OutputOfSteps::comes_short, crate::proofs::OutputOfSteps::comes_turned, crate::proofs::OutputOfSteps::reads_turned))]
pub(crate) fn produce<'a, R: Read>(
    alloc: Global,
    wanted: Wanted,
    line: &'a [u8],
    input: &mut Watched<R>,
) -> Result<Vec<u8>, Fault<'a>>
    ensures made { ComesOfReader R.remaining wanted (words_of line.now) input.old (bytes_made result) }
    ensures reads { IsInputReadFor input.old input.new result }
    ensures unread { AreNoNpySteps (words_of line.now) → input.new ≡ input.old }
    ensures stops { watched_retried input.new ≡ watched_retried input.old }
{
    let steps = match read_steps(alloc, line) {
        Ok(steps) => steps,
        Err(WordsError::BadStep { number, word }) => return Err(Fault::BadStep { number, word }),
        Err(WordsError::Memory) => return Err(Fault::Memory),
    };
    let bytes = match read_input(alloc, input) {
        Ok(bytes) => bytes,
        Err(InputError::Failed) => return Err(Fault::ReadFailed),
        Err(InputError::Memory) => return Err(Fault::Memory),
    };
    match turned(alloc, wanted, &steps, &bytes) {
        Ok(file) => Ok(file),
        Err(fault) => Err(fault),
    }
}
