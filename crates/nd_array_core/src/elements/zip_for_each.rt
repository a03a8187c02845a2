//! A call that shows the pairs of elements of two arrays to a closure.
#![tactic(auto, unfolding(crate::specs::ArrayMeaning::meaning_of, crate::specs::ArrayMeaning::memory_layout_of))]

ghost use Rattle.std.specs.Prelude.{◌≡◌, IsTrue};
ghost use Rattle.nd_shape_and_slice.specs.Broadcast.{broadcasts};
ghost use Rattle.nd_array_core.specs.ArrayMeaning.{shape_of, meaning_of, element_at, layout_strides};
ghost use Rattle.nd_array_core.specs.reshape.ElementsAsSlice.{IsRunArray};
ghost use Rattle.nd_array_core.specs.elements.PairMapsAndFolds.{AskableOfBoth, AskableOfPairs, VisitsBoth, VisitsPairs};

use crate::base::array::ArrayBase;
use crate::elements::paired_runs::are_runs_alike;
use crate::elements::to_owned::run_elements;
use crate::layout::broadcast::broadcast_to_match;
use nd_elements::elements::zip_for_each::{show_pairs, show_pairs_slice};
use nd_elements::storage::Data;
use nd_shape_and_slice::Dimension;

/// Calls `f` with the elements of `array` and `other` at each index, in row-major order. Both must have the same shape.
fn show_in_order<S: Data, Z: Data, D: Dimension, F: FnMut(&S::Elem, &Z::Elem)>(
    array: &ArrayBase<S, D>,
    other: &ArrayBase<Z, D>,
    f: F,
)
    requires alike { shape_of other.now ≡ shape_of array.now }
    requires callable { AskableOfPairs F.FnMut (meaning_of array.now) (element_at other.now) f }
    ensures visits { VisitsPairs F.FnMut (meaning_of array.now) (element_at other.now) f }
{
    let ours = array.layout.places();
    let theirs = other.layout.places();
    show_pairs(&array.storage, ours, &other.storage, theirs, f);
}

/// Calls `f` with the elements of `array` and `other` at each index, in the order of their places. Both must have the
/// same shape and the same strides, and the places of the elements must be consecutive numbers, each once.
fn show_runs<S: Data, Z: Data, D: Dimension, F: FnMut(&S::Elem, &Z::Elem)>(
    array: &ArrayBase<S, D>,
    other: &ArrayBase<Z, D>,
    f: F,
)
    requires alike { shape_of other.now ≡ shape_of array.now }
    requires strides { layout_strides other.now ≡ layout_strides array.now }
    requires run { IsRunArray array.now }
    requires callable { AskableOfPairs F.FnMut (meaning_of array.now) (element_at other.now) f }
    ensures visits { VisitsPairs F.FnMut (meaning_of array.now) (element_at other.now) f }
{
    show_pairs_slice(run_elements(array), run_elements(other), f);
}

/// Calls `f` with the elements of `array` and `other` at each index. Both must have the same shape.
fn show_alike<S: Data, Z: Data, D: Dimension, F: FnMut(&S::Elem, &Z::Elem)>(
    array: &ArrayBase<S, D>,
    other: &ArrayBase<Z, D>,
    f: F,
)
    requires alike { shape_of other.now ≡ shape_of array.now }
    requires callable { AskableOfPairs F.FnMut (meaning_of array.now) (element_at other.now) f }
    ensures visits { VisitsPairs F.FnMut (meaning_of array.now) (element_at other.now) f }
{
    if are_runs_alike(array, other) {
        show_runs(array, other, f)
    } else {
        show_in_order(array, other, f)
    }
}

impl<S: Data, D: Dimension> ArrayBase<S, D> {
    /// Calls the function with each element and with the element of the other array at the same index, once each, in an
    /// unspecified order. The other array is broadcast to this array's shape, which must be possible. The function's
    /// own condition must hold at each of these calls. ndarray has `Zip::from(&a).and(&b).for_each(f)`.
    pub fn zip_for_each<B, Z: Data<Elem = B>, E: Dimension, F: FnMut(&S::Elem, &B)>(
        &self,
        other: &ArrayBase<Z, E>,
        f: F,
    )
        requires broadcasts { IsTrue (broadcasts (shape_of other.now) (shape_of self.now)) }
        requires callable { AskableOfBoth F.FnMut self.now other.now f }
        ensures visits { VisitsBoth F.FnMut self.now other.now f }
    {
        show_alike(self, &broadcast_to_match(self, other), f)
    }
}
