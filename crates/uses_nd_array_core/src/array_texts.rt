//! The text that `{}` writes for arrays, stated by its definition and by an example.
#![tactic(auto)]

ghost use Rattle.std.specs.Prelude.{◌≡◌, ◌∷◌, ◌+◌, ◌*◌, ◌<◌, [], IfOk, OnOk, false, codes, string_bytes};
ghost use Rattle.nd_array_core.specs.Prelude.{meaning_of, shape_of, HasCells};
ghost use Rattle.nd_array_core.specs.printing.ArrayTexts.{array_text};
ghost use Rattle.uses_nd_array_core.specs.ArrayTextsAndErrorMessages.{IsText, AppendsArray};

use nd_array_core::{ArrayBase, Data, Dimension, Ix2};
use std::alloc::{AllocError, Global};
use std::fmt::Display;

/// Returns the text that `{}` writes for an array. The contract of the elements' `Display` must say what their text is.
pub fn printed<A: Display, S: Data<Elem = A>, D: Dimension>(
    alloc: Global,
    array: &ArrayBase<S, D>,
) -> Result<String, AllocError>
    ensures { IfOk result (λ text. IsText (array_text A.output false (meaning_of array.now)) (string_bytes text)) }
{
    format!(in alloc; "{array}")
}

/// Appends the text of `array` to `text`.
pub fn print_after<A: Display, S: Data<Elem = A>, D: Dimension>(
    text: &mut String,
    array: &ArrayBase<S, D>,
) -> Result<(), AllocError>
    ensures { OnOk result (AppendsArray A.output (string_bytes text.old) (string_bytes text.new) array.now) }
{
    write!(text, "{array}")
}

/// Returns the text of a table of two rows and three columns whose numbers are 1 to 6, row by row.
#[tactic(auto, using(crate::proofs::TableTexts::two_by_three))]
pub fn six_printed<S: Data<Elem = u64>>(
    alloc: Global,
    table: &ArrayBase<S, Ix2>,
) -> Result<String, AllocError>
    requires shape { shape_of table.now ≡ 2 ∷ 3 ∷ [] }
    requires cells { HasCells table.now 2 3 (λ row column. row * 3 + column + 1) }
    ensures { IfOk result (λ text. string_bytes text ≡ codes "[[1, 2, 3],\n [4, 5, 6]]") }
{
    format!(in alloc; "{table}")
}
