//! A fold over the pairs of elements of two arrays.
#![tactic(auto, unfolding(crate::specs::ArrayMeaning::meaning_of, crate::specs::ArrayMeaning::memory_layout_of))]

ghost use Rattle.std.specs.Prelude.{◌≡◌, ◌<◌, IsTrue};
ghost use Rattle.nd_shape_and_slice.specs.Broadcast.{broadcasts};
ghost use Rattle.nd_array_core.specs.ArrayMeaning.{shape_of, meaning_of, element_at};
ghost use Rattle.nd_array_core.specs.elements.PairMapsAndFolds.{FoldableOverBoth, FoldablePairs, FoldsBoth, FoldsBothAlike, FoldsPairsInOrder};

use crate::base::array::ArrayBase;
use crate::layout::broadcast::broadcast_to_match;
use nd_elements::elements::zip_fold::fold_pairs;
use nd_elements::storage::Data;
use nd_shape_and_slice::Dimension;

/// Folds the pairs of elements of `array` and `other` at each index into a total, in row-major order. Both must have
/// the same shape.
fn fold_alike<S: Data, Z: Data, D: Dimension, T, F: FnMut(T, &S::Elem, &Z::Elem) -> T>(
    array: &ArrayBase<S, D>,
    other: &ArrayBase<Z, D>,
    init: T,
    f: F,
) -> T
    requires alike { shape_of other.now ≡ shape_of array.now }
    requires callable { FoldablePairs F.FnMut (meaning_of array.now) (element_at other.now) f init }
    ensures visits { FoldsPairsInOrder F.FnMut (meaning_of array.now) (element_at other.now) f init result }
{
    let ours = array.layout.places();
    let theirs = other.layout.places();
    let (_f, total) = fold_pairs(&array.storage, ours, &other.storage, theirs, init, f);
    total
}

impl<S: Data, D: Dimension> ArrayBase<S, D> {
    /// Folds the pairs of two arrays' elements into a total, in row-major order: the function is called with the total
    /// so far, the element of this array and the element of the other array at the same index. The other array is
    /// broadcast to this array's shape, which must be possible. The function's own condition must hold at each of these
    /// calls. ndarray has `Zip::from(&a).and(&b).fold(init, f)`, which leaves the order unspecified.
    pub fn zip_fold<B, Z: Data<Elem = B>, E: Dimension, T, F: FnMut(T, &S::Elem, &B) -> T>(
        &self,
        other: &ArrayBase<Z, E>,
        init: T,
        f: F,
    ) -> T
        requires broadcasts { IsTrue (broadcasts (shape_of other.now) (shape_of self.now)) }
        requires callable { FoldableOverBoth F.FnMut self.now other.now f init }
        ensures visits { FoldsBoth F.FnMut self.now other.now f init result }
        ensures settled { FoldsBothAlike F.FnMut self.now other.now f init result }
    {
        fold_alike(self, &broadcast_to_match(self, other), init, f)
    }
}
