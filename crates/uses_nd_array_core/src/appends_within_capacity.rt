//! Appends to arrays whose storage already has enough capacity.
#![tactic(auto, using(nd_array_core::proofs::AxesOfDimensionTypes::known_axes))]

ghost use Rattle.std.specs.Prelude.{◌≡◌, ◌<◌, OnOk, length, slice_index};
ghost use Rattle.nd_array_core.specs.Prelude.{meaning_of, shape_of, element_at, concatenated, concatenated_shape, HasCheckedSize, ClonesOfAllAreEqual, FitsAfter, GoesOn, IsReadyAlong, IsReadyFor, meanings_of, lengths_along, joined_in_turn, ClonesOfEachAreEqual, FitInTurn};
ghost use Rattle.nd_array_core.specs.growth.AppendEach.{JoinsAll};
ghost use Rattle.uses_nd_array_core.specs.ClonesNeverRefused.{AreAllCloned, AreAlwaysCloned};

use nd_array_core::prelude::*;

/// Appends `more` to `array` along `axis`. The array must be laid out so that it can grow along that axis, and must
/// have enough capacity. The append can't fail, because no memory is needed and no clone may be refused.
pub fn append_in_room<A: Clone + Drop, D: Dimension>(
    array: &mut Array<A, D>,
    axis: Axis,
    more: ArrayView<'_, A, D>,
)
    requires axis { axis.0 < length (shape_of array.old) }
    requires ready { IsReadyFor axis.0 (slice_index (shape_of more) axis.0) array.old }
    requires fits { FitsAfter (shape_of array.old) (shape_of more) axis.0 }
    requires checked { HasCheckedSize (concatenated_shape (shape_of array.old) (shape_of more) axis.0) }
    requires clones { ClonesOfAllAreEqual A.is_clone (element_at more) }
    requires cloned { AreAlwaysCloned A.is_infallible (element_at more) }
    ensures joined { meaning_of array.new ≡ concatenated axis.0 (meaning_of array.old) (meaning_of more.entry) }
    ensures goes_on { GoesOn axis.0 array.old array.new }
{
    match array.append(axis, more) {
        Ok(()) => {}
        Err(_) => unreachable!(),
    }
}

/// Appends `arrays` in their order to `array` along `axis`. The array must be laid out so that it can grow along that
/// axis, and must have enough capacity for all of them. The appends can't fail, because no memory is needed and no
/// clone may be refused.
pub fn append_each_in_room<A: Clone + Drop, D: Dimension>(
    array: &mut Array<A, D>,
    axis: Axis,
    arrays: &[ArrayView<'_, A, D>],
)
    requires axis { axis.0 < length (shape_of array.old) }
    requires ready { IsReadyFor axis.0 (lengths_along axis.0 (meanings_of arrays.now)) array.old }
    requires fits { FitInTurn axis.0 (shape_of array.old) (meanings_of arrays.now) }
    requires clones { ClonesOfEachAreEqual A.is_clone (meanings_of arrays.now) }
    requires cloned { AreAllCloned A.is_infallible (meanings_of arrays.now) }
    ensures joined { meaning_of array.new ≡ joined_in_turn axis.0 (meaning_of array.old) (meanings_of arrays.now) }
    ensures goes_on { GoesOn axis.0 array.old array.new }
{
    match array.append_each(axis, arrays) {
        Ok(()) => {}
        Err(_) => unreachable!(),
    }
}

/// Reserves capacity for `lengths` further coordinates of `axis`, and then appends `arrays` in their order. `lengths`
/// must be the sum of the lengths of `arrays` along `axis`. Fails only if the capacity can't be reserved.
pub fn reserve_and_append_each<A: Clone + Drop, D: Dimension>(
    array: &mut Array<A, D>,
    axis: Axis,
    arrays: &[ArrayView<'_, A, D>],
    lengths: usize,
) -> Result<(), ArrayError>
    requires axis { axis.0 < length (shape_of array.old) }
    requires ready { IsReadyAlong axis.0 array.old }
    requires lengths { lengths ≡ lengths_along axis.0 (meanings_of arrays.now) }
    requires fits { FitInTurn axis.0 (shape_of array.old) (meanings_of arrays.now) }
    requires clones { ClonesOfEachAreEqual A.is_clone (meanings_of arrays.now) }
    requires cloned { AreAllCloned A.is_infallible (meanings_of arrays.now) }
    ensures joined { OnOk result (JoinsAll axis.0 array.old (meanings_of arrays.now) array.new) }
{
    array.reserve(axis, lengths)?;
    append_each_in_room(array, axis, arrays);
    Ok(())
}
