//! Equality of arrays.
#![tactic(auto, unfolding(crate::specs::ArrayMeaning::meaning_of, crate::specs::ArrayMeaning::memory_layout_of))]

ghost use Rattle.std.specs.Prelude.{◌↔◌, ◌≡◌, ◌<◌, true, IsTrue};
ghost use Rattle.std.specs.Cmp.Lexicographic.{pointwise};
ghost use Rattle.nd_array_core.specs.EqualityAndHashing.{equal_meanings, EqualEverywhere, meanings_per, meanings_equiv};
ghost use Rattle.nd_elements.specs.ShapeAndElements.{row_major_elements};
ghost use Rattle.nd_array_core.specs.ArrayMeaning.{meaning_of, shape_of};
ghost use Rattle.std.specs.Cmp.{on_per, on_equiv};

use crate::base::array::ArrayBase;
use nd_elements::elements::eq::{equal_slice, layouts_equal};
use nd_elements::storage::Data;
use nd_shape_and_slice::Dimension;

/// Returns whether the elements of `a` and `b` at each index are equal. Both must have the same shape.
fn elements_equal<S: Data, D: Dimension>(a: &ArrayBase<S, D>, b: &ArrayBase<S, D>) -> bool
where
    S::Elem: PartialEq,
    requires { shape_of b.now ≡ shape_of a.now }
    ensures { result ≡ pointwise S.Elem.eq (row_major_elements (meaning_of a.now)) (row_major_elements (meaning_of b.now)) }
{
    match (a.as_slice(), b.as_slice()) {
        (Some(xs), Some(ys)) => equal_slice(xs, ys),
        _ => layouts_equal(&a.storage, &a.layout, &b.storage, &b.layout),
    }
}

/// Returns whether `a` and `b` have the same shape and equal elements at each index.
fn arrays_equal<S: Data, D: Dimension>(a: &ArrayBase<S, D>, b: &ArrayBase<S, D>) -> bool
where
    S::Elem: PartialEq,
    ensures { result ≡ equal_meanings S.Elem.eq (meaning_of a.now) (meaning_of b.now) }
{
    a.shape() == b.shape() && elements_equal(a, b)
}

impl<S: Data, D: Dimension> PartialEq for ArrayBase<S, D>
where
    S::Elem: PartialEq,
{
    ghost eq = { λ a b. equal_meanings S.Elem.eq (meaning_of a) (meaning_of b) };

    ghost laws = { on_per meaning_of (meanings_per S.Elem.PartialEq.laws) };

    /// Returns whether the shapes are the same and the elements at each index are equal.
    fn eq(&self, other: &Self) -> bool
        ensures value { result ≡ equal_meanings S.Elem.eq (meaning_of self.now) (meaning_of other.now) }
        ensures everywhere { IsTrue result ↔ EqualEverywhere S.Elem.eq (meaning_of self.now) (meaning_of other.now) }
    {
        arrays_equal(self, other)
    }
}

impl<S: Data, D: Dimension> Eq for ArrayBase<S, D>
where
    S::Elem: Eq,
{
    ghost laws = { on_equiv meaning_of (meanings_equiv S.Elem.Eq.laws) };
}
