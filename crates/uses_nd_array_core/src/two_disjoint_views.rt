//! Writes several parts of an array in one function, through mutable views rather than scoped calls. The contracts say
//! that the shape, the strides and the places stay, and that each element outside the views stays as it was.
#![tactic(auto, using(nd_array_core::proofs::AxesOfDimensionTypes::known_axes))]

ghost use Rattle.std.specs.Prelude.{◌≡◌, ℕ, List, IsTrue};
ghost use Rattle.nd_array_core.specs.Prelude.{shape_of, place_at, layout_strides, fits_shape, sliced_part, TwoFit, IsRefilled, KeepsBut, KeepsButSlices, EachCloneIsEqual};

use crate::parts_written::fill_lent;
use nd_array_core::prelude::*;

/// Fills the first of two mutable views with the first value, and the second with the second value.
fn fill_each<A: Clone + Drop, D: Dimension, E: Dimension>(
    parts: (ArrayViewMut<'_, A, D>, ArrayViewMut<'_, A, E>),
    values: (A, A),
) -> Result<(), NoMemory>
    requires clones { EachCloneIsEqual A.is_clone }
{
    let (one, two) = parts;
    fill_lent(one, values.0)?;
    fill_lent(two, values.1)
}

/// Fills the part that the first list of slices names with `first`, and the part that the second list names with
/// `second`. The parts must not overlap.
pub fn fill_two_parts<S: DataMut, D: Dimension, I: SliceArg<D>, J: SliceArg<D>>(
    array: &mut ArrayBase<S, D>,
    lists: (I, J),
    first: S::Elem,
    second: S::Elem,
) -> Result<(), NoMemory>
where
    S::Elem: Clone + Drop,
    requires fit { TwoFit (shape_of array.old) (I.elements_of lists.0) (J.elements_of lists.1) }
    requires clones { EachCloneIsEqual S.Elem.is_clone }
    ensures shape { shape_of array.new ≡ shape_of array.old }
    ensures strides { layout_strides array.new ≡ layout_strides array.old }
    ensures places { (i : List ℕ) → place_at array.new i ≡ place_at array.old i }
    ensures refilled { IsRefilled S.frame array.old array.new }
    ensures kept { KeepsButSlices array.old array.new (I.elements_of lists.0) (J.elements_of lists.1) }
{
    fill_each(array.multi_slice_mut(lists), (first, second))
}

/// Splits a mutable view in the middle of its first axis, and fills the lower half with the first value and the upper
/// half with the second value. If the view has no axis, nothing changes.
fn fill_split<A: Clone + Drop, D: Dimension>(
    view: ArrayViewMut<'_, A, D>,
    values: (A, A),
) -> Result<(), NoMemory>
    requires clones { EachCloneIsEqual A.is_clone }
{
    if view.ndim() > 0 {
        let middle = view.len_of(Axis(0)) / 2;
        fill_each(view.split_at(Axis(0), middle), values)?;
    }
    Ok(())
}

/// Splits the part that a list of slices names in the middle of its first axis, and fills the lower half with `below`
/// and the upper half with `from`. If the part has no axis, nothing changes.
pub fn fill_halves_of_part<S: DataMut, D: Dimension, I: SliceArg<D>>(
    array: &mut ArrayBase<S, D>,
    info: I,
    below: S::Elem,
    from: S::Elem,
) -> Result<(), NoMemory>
where
    S::Elem: Clone + Drop,
    requires fits { IsTrue (fits_shape (shape_of array.old) (I.elements_of info)) }
    requires clones { EachCloneIsEqual S.Elem.is_clone }
    ensures shape { shape_of array.new ≡ shape_of array.old }
    ensures kept { KeepsBut array.old array.new (sliced_part array.old (I.elements_of info)) }
{
    fill_split(array.slice_mut(info), (below, from))
}
