//! `{}` of an array.
#![tactic(auto)]

use crate::base::array::ArrayBase;
use crate::printing::element::AsDisplayed;
use crate::printing::write_array::write_array;
use nd_elements::storage::Data;
use nd_shape_and_slice::Dimension;
use std::fmt;
use std::fmt::Display;

/// Writes the entries of each axis in brackets, each element as `{}` writes it under the options of the array's hole.
/// Entries of the last axis stand in one line; others stand in lines of their own, indented by the open brackets, with
/// an empty line between blocks of two axes, and one more for each further axis. An array without elements is a pair of
/// brackets for each axis. Of 500 elements and more, each of the last two axes with more than 11 entries shows the
/// first and the last five, and another axis with more than six the first and the last three; under `#` all entries are
/// shown. This is ndarray's `Display`.
impl<S: Data, D: Dimension> Display for ArrayBase<S, D>
where
    S::Elem: Display,
{
    ghost use Rattle.std.specs.Prelude.{false};
    ghost use Rattle.std.specs.Fmt.{spec_alternate};
    ghost use Rattle.nd_array_core.specs.ArrayMeaning.{meaning_of};
    ghost use Rattle.nd_array_core.specs.printing.ArrayTexts.{array_text};

    ghost output = { λ array. array_text S.Elem.output false (meaning_of array) };

    ghost styled_output = { λ array style. array_text (λ x. S.Elem.styled_output x style) (spec_alternate style) (meaning_of array) };

    fn fmt<W: fmt::Write>(&self, f: &mut fmt::Formatter<W>) -> fmt::Result {
        write_array::<AsDisplayed, S, D, W>(f, self)
    }
}
