//! Making arrays, reading steps, taking them on an array, and telling the errors.

ghost use Rattle.nd_array_core.specs.Prelude.{EachCloneIsEqual};

use crate::npy::numpy_file_checks::shows;
use crate::npy::text_checks::has_text;
use nd_array_core::{Array, ArrayD};
use nd_npy::NpyItem;
use nd_npy_run::steps::{NpyStepsError, WordsError, after_steps, read_steps};
use nd_shape_and_slice::IxDyn;
use std::alloc::Global;

/// Returns the array of this shape with these elements in row-major order, or nothing if they are more or fewer than the
/// shape has, if there are more than 32 axes, or if memory is refused.
fn array_of<A: NpyItem>(alloc: Global, shape: &[usize], elements: &[A]) -> Option<ArrayD<A>> {
    if shape.len() > 32 {
        return None;
    }
    let Ok(items) = Vec::from_slice(alloc, elements) else {
        return None;
    };
    match Array::from_shape_vec(IxDyn::new(shape), items) {
        Ok(array) => Some(array),
        Err(_) => None,
    }
}

/// A shape, and the elements of an array of this shape in row-major order.
pub(crate) type Elements<'a, A> = (&'a [usize], &'a [A]);

/// The shape [2, 3, 4] and the numbers 1 to 24.
pub(crate) const NUMBERED: Elements<'static, u16> = (
    &[2, 3, 4],
    &[
        1, 2, 3, 4, 5, 6, 7, 8, 9, 10, 11, 12, 13, 14, 15, 16, 17, 18, 19, 20, 21, 22, 23, 24,
    ],
);

/// Returns what the steps that `line` writes make of the array of these elements, or the error of a step that is refused;
/// or nothing if there is no such array, or if `line` writes no steps.
fn after<A: NpyItem>(
    alloc: Global,
    elements: Elements<'_, A>,
    line: &[u8],
) -> Option<Result<ArrayD<A>, NpyStepsError>>
    requires { EachCloneIsEqual A.is_clone }
{
    let array = array_of(alloc, elements.0, elements.1)?;
    match read_steps(alloc, line) {
        Ok(steps) => Some(after_steps(alloc, array, &steps)),
        Err(_) => None,
    }
}

/// The words of steps, the shape of the array after them, and its elements in row-major order.
pub(crate) type Row<'a, A> = (&'a [u8], &'a [usize], &'a [A]);

/// Returns whether the array of these elements is the array of the row after the row's steps.
pub(crate) fn becomes<A: NpyItem + PartialEq>(
    alloc: Global,
    elements: Elements<'_, A>,
    row: Row<'_, A>,
) -> bool
    requires { EachCloneIsEqual A.is_clone }
{
    match after(alloc, elements, row.0) {
        Some(Ok(array)) => shows(alloc, &array, row.1, row.2),
        _ => false,
    }
}

/// Returns whether the array of these elements is the array of each row after the row's steps.
pub(crate) fn become_arrays<A: NpyItem + PartialEq>(
    alloc: Global,
    elements: Elements<'_, A>,
    table: &[Row<'_, A>],
) -> bool
    requires { EachCloneIsEqual A.is_clone }
{
    for row in table {
        if !becomes(alloc, elements, *row) {
            return false;
        }
    }
    true
}

/// Returns whether a step that `line` writes is refused on the array of these elements, and the error's text is `text`.
fn refuses<A: NpyItem>(alloc: Global, elements: Elements<'_, A>, line: &[u8], text: &str) -> bool
    requires { EachCloneIsEqual A.is_clone }
{
    match after(alloc, elements, line) {
        Some(Err(error)) => has_text(alloc, &error, text),
        _ => false,
    }
}

/// Returns whether a step of each row's words is refused on the array of these elements, and the error's text is the row's.
pub(crate) fn refuse<A: NpyItem>(
    alloc: Global,
    elements: Elements<'_, A>,
    table: &[(&[u8], &str)],
) -> bool
    requires { EachCloneIsEqual A.is_clone }
{
    for (line, text) in table {
        if !refuses(alloc, elements, line, text) {
            return false;
        }
    }
    true
}

/// Returns whether the words can't be read as steps from `word` on, and the error's text is `text`.
fn is_bad(alloc: Global, line: &[u8], word: &[u8], text: &str) -> bool {
    match read_steps(alloc, line) {
        Ok(_) => false,
        Err(error) => {
            let is_named = match error {
                WordsError::BadStep {
                    number: _,
                    word: named,
                } => named == word,
                WordsError::Memory => false,
            };
            is_named && has_text(alloc, &error, text)
        }
    }
}

/// Returns whether each row's words can't be read as steps from the row's word on, and the error's text is the row's.
pub(crate) fn are_bad(alloc: Global, table: &[(&[u8], &[u8], &str)]) -> bool {
    for (line, word, text) in table {
        if !is_bad(alloc, line, word, text) {
            return false;
        }
    }
    true
}
