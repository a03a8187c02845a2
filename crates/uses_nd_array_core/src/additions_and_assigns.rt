//! Functions over two arrays, element by element: adding an array to another, adding a row to each row, and copying an
//! array into a part of another array.
#![tactic(auto, using(nd_array_core::proofs::AxesOfDimensionTypes::known_axes))]

ghost use Rattle.std.specs.Prelude.{◌≡◌, ℕ, List, OnOk, OnErr, slice_index, IsTrue};
ghost use Rattle.nd_array_core.specs.Prelude.{meaning_of, shape_of, element_at, columns_of, table_of, line_of, ShowsTable, fits_shape, broadcasts, sliced_part, KeepsBut, view_frame, lent_frame, CanBeSeen, EachCloneIsEqual};
ghost use Rattle.uses_nd_array_core.specs.BroadcastAddition.{AddsBroadcast, plus_line};
ghost use Rattle.uses_nd_array_core.specs.LentViewsFilledOrAssigned.{EndsPasted};
ghost use Rattle.uses_nd_array_core.specs.FilledAndCopiedParts.{BroadcastsToPart, PastesPart, PastesPartly, MayLackForPart, BroadcastsToView, IsPastedIn, IsPartlyIn, MayLackInView};

use nd_array_core::ViewMutRepr;
use nd_array_core::laws::{broadcast_to_itself, shape_is_checked};
use nd_array_core::prelude::*;
use nd_array_core::scoped::{LentView, ViewTask};

/// Adds to each element of `array` the element of `other` at the same index, modulo 2 to the 64th. `other` is broadcast
/// to the shape of `array`.
pub fn add_all<S: DataMut<Elem = u64>, D: Dimension, Z: Data<Elem = u64>, E: Dimension>(
    array: &mut ArrayBase<S, D>,
    other: &ArrayBase<Z, E>,
)
    requires { IsTrue (broadcasts (shape_of other.now) (shape_of array.old)) }
    ensures shape { shape_of array.new ≡ shape_of array.old }
    ensures elements { AddsBroadcast (meaning_of array.old) (meaning_of other.now) (element_at array.new) }
{
    array.zip_mut_with(other, |x, y| *x = x.wrapping_add(*y));
}

/// Adds `row` to each row of `image`, modulo 2 to the 64th.
#[tactic(auto, using(std::proofs::lemmas::Bool::Decides::nat_tests, nd_array_core::proofs::AxesOfDimensionTypes::known_axes))]
pub fn add_row<S: DataMut<Elem = u64>, Z: Data<Elem = u64>>(
    image: &mut ArrayBase<S, Ix2>,
    row: &ArrayBase<Z, Ix1>,
)
    requires { slice_index (shape_of row.now) 0 ≡ columns_of image.old }
    ensures { ShowsTable image.new (plus_line (line_of row.now) (table_of image.old)) }
{
    shape_is_checked(image);
    add_all(image, row);
}

/// Overwrites each element of `array` with a clone of the element of `source` at the same index. The shapes must be the
/// same.
pub fn overwrite<A: Clone + Drop, S: DataMut<Elem = A>, Z: Data<Elem = A>, D: Dimension>(
    array: &mut ArrayBase<S, D>,
    source: &ArrayBase<Z, D>,
) -> Result<(), NoMemory>
    requires same { shape_of source.now ≡ shape_of array.old }
    requires clones { EachCloneIsEqual A.is_clone }
    ensures shape { shape_of array.new ≡ shape_of array.old }
    ensures elements { OnOk result ((i : List ℕ) → element_at array.new i ≡ element_at source.now i) }
{
    broadcast_to_itself(source);
    array.assign(source)?;
    Ok(())
}

/// A task that broadcasts an array to the shape of a view, and writes to each index of the view a clone of the element
/// there.
#[derive(Drop)]
struct PasteIn<Z: Data + Drop, E: Dimension> {
    source: ArrayBase<Z, E>,
}

impl<A: Clone + Drop, Z: Data<Elem = A> + Drop, D: Dimension, E: Dimension> ViewTask<A, D>
    for PasteIn<Z, E> {
    type Answer = Result<(), NoMemory>;

    ghost pre = { λ task v. IsTrue (broadcasts (shape_of task.source) v.placed_shape) × EachCloneIsEqual A.is_clone };

    ghost post = { λ task v w answer. EndsPasted A.is_infallible (meaning_of task.source) v w answer };

    fn run(self, lent: LentView<'_, A, D, D::Strides>) -> (ViewMutRepr<'_, A>, Result<(), NoMemory>)
        requires sound { CanBeSeen D.lengths D.Strides.strides_of lent }
        requires broadcasts { BroadcastsToView D.lengths D.Strides.strides_of self.source lent }
        requires clones { EachCloneIsEqual A.is_clone }
        ensures frame { view_frame result.0 ≡ lent_frame lent.entry }
        ensures pasted { OnOk result.1 (IsPastedIn D.lengths D.Strides.strides_of self.source lent.entry result.0) }
        ensures stopped { OnErr result.1 (IsPartlyIn D.lengths D.Strides.strides_of self.source lent.entry result.0) }
        ensures refused { OnErr result.1 (MayLackInView D.lengths D.Strides.strides_of A.is_infallible self.source lent.entry) }
    {
        let mut view = lent.into_view();
        let done = view.assign(&self.source);
        (view.into_storage(), done)
    }
}

/// Broadcasts `source` to the shape of the part of `array` that a list of slices names, and copies it into the part. If
/// a clone is refused, each index of the part has either its old element or the new one.
pub fn paste<
    A: Clone + Drop,
    S: DataMut<Elem = A>,
    D: Dimension,
    I: SliceArg<D>,
    Z: Data<Elem = A>,
    E: Dimension,
>(array: &mut ArrayBase<S, D>, info: I, source: &ArrayBase<Z, E>) -> Result<(), NoMemory>
    requires fits { IsTrue (fits_shape (shape_of array.old) (I.elements_of info)) }
    requires broadcasts { BroadcastsToPart array.old (I.elements_of info) source.now }
    requires clones { EachCloneIsEqual A.is_clone }
    ensures shape { shape_of array.new ≡ shape_of array.old }
    ensures named { OnOk result (PastesPart array.old array.new (I.elements_of info) source.now) }
    ensures stopped { OnErr result (PastesPartly array.old array.new (I.elements_of info) source.now) }
    ensures refused { OnErr result (MayLackForPart A.is_infallible array.old (I.elements_of info) source.now) }
    ensures kept { KeepsBut array.old array.new (sliced_part array.old (I.elements_of info)) }
{
    array.with_slice_mut(
        info,
        PasteIn {
            source: source.view(),
        },
    )
}
