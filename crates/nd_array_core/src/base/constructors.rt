//! New arrays: of a vector's elements, of what an iterator gives, and of one value at every index.
#![tactic(auto)]

ghost use Rattle.std.specs.Prelude.{◌≡◌, ◌<◌, [], ◌∷◌, length, replicate, IfOk, OnErr, vec_len, vec_capacity};
ghost use Rattle.std.specs.Iterator.{Drains, IsFinite, IsFiniteIterable};
ghost use Rattle.nd_shape_and_slice.specs.ShapesAndIndexOrders.{size_of, HasCheckedSize};
ghost use Rattle.nd_shape_and_slice.specs.declared.shape_builder.Order.TheVariants.{RowMajor};
ghost use Rattle.nd_array_core.specs.ArrayMeaning.{storage_of};
ghost use Rattle.nd_elements.specs.BorrowedAndOwnedStorages.{stored_list, room_of};
ghost use Rattle.nd_array_core.specs.base.NewArrays.{built_by, IsOnly, OwnsInOrder, ShowsOneValue, ShowsSuch};
ghost use Rattle.nd_elements.specs.EqualClones.{ClonesAreEqual};
ghost use Rattle.nd_array_core.specs.base.FromIteratorsAndClosures.{SourceGivesItem, GivesItem, StoresItemsOf};

use crate::base::array::Array;
use crate::base::from_shape::in_order;
use nd_elements::base::from_elem::{defaults, repeated};
use nd_elements::storage::OwnedRepr;
use nd_shape_and_slice::{Dimension, IntoDimension, Ix1, NoMemory, Order, ShapeBuilder};
use num_traits::{One, Zero};
use std::alloc::Global;

/// Returns an array of shape `dim` that owns the elements of `items`, in the order `order`. There must be as many
/// elements as the shape has.
pub(crate) fn of_items<A, D: Dimension>(items: Vec<A>, dim: D, order: Order) -> Array<A, D>
    requires checked { HasCheckedSize (D.lengths dim) }
    requires count { vec_len items ≡ size_of (D.lengths dim) }
    ensures owns { OwnsInOrder (D.lengths dim, order) result }
    ensures stored { stored_list (storage_of result) ≡ items.items }
    ensures room { room_of (storage_of result) ≡ vec_capacity items }
{
    in_order(OwnedRepr { items }, dim, order)
}

/// Returns the items that `iterator` gives, in their order. Memory is requested only after the first item was given.
fn items_of<A: Drop, I: Iterator<Item = A>>(alloc: Global, iterator: I) -> Result<Vec<A>, NoMemory>
    requires can { I.can_next iterator }
    requires finite { IsFinite (I.remaining iterator) }
    ensures items { IfOk result (λ v. Drains I.next_gives iterator v.items) }
    ensures refused { OnErr result (GivesItem I.next_gives iterator) }
{
    let mut rest = iterator;
    let Some(first) = rest.next() else {
        return Ok(Vec::new(alloc));
    };
    let at_least = rest.size_hint().0.saturating_add(1);
    let Ok(mut items) = Vec::with_capacity(alloc, at_least) else {
        return Err(NoMemory);
    };
    items.push_reserved(first);
    items.extend(rest)?;
    Ok(items)
}

impl<A, D: Dimension> Array<A, D> {
    /// Returns an array of a shape with one value at every index, in row-major order, or in column-major order after
    /// `.f()`. The shape must have a checked size, and a clone must equal its original. Fails with `NoMemory` if the
    /// storage or a clone is refused. This is ndarray's `from_elem`.
    pub fn from_elem<Sh: ShapeBuilder<Dim = D>>(
        alloc: Global,
        shape: Sh,
        elem: A,
    ) -> Result<Self, NoMemory>
    where
        A: Clone,
        requires checked { HasCheckedSize (Sh.builds_lengths shape) }
        requires clones { ClonesAreEqual A.is_clone elem }
        ensures owns { IfOk result (OwnsInOrder (built_by Sh.ShapeBuilder shape)) }
        ensures stored { IfOk result (λ a. stored_list (storage_of a) ≡ replicate (size_of (Sh.builds_lengths shape)) elem) }
        ensures elements { IfOk result (ShowsOneValue (built_by Sh.ShapeBuilder shape) elem) }
        ensures refused { OnErr result (0 < size_of (Sh.builds_lengths shape)) }
    {
        let shape = shape.into_shape_with_order();
        let items = repeated(alloc, elem, shape.size())?;
        Ok(of_items(items, *shape.raw_dim(), shape.order()))
    }

    /// Returns an array of zeros of a shape, in row-major order, or in column-major order after `.f()`. The shape must
    /// have a checked size, and a clone must equal its original. Fails with `NoMemory` if the storage or a clone is
    /// refused. This is ndarray's `zeros`.
    pub fn zeros<Sh: ShapeBuilder<Dim = D>>(alloc: Global, shape: Sh) -> Result<Self, NoMemory>
    where
        A: Clone + Zero,
        requires checked { HasCheckedSize (Sh.builds_lengths shape) }
        requires clones { ClonesAreEqual A.is_clone A.zero }
        ensures owns { IfOk result (OwnsInOrder (built_by Sh.ShapeBuilder shape)) }
        ensures stored { IfOk result (λ a. stored_list (storage_of a) ≡ replicate (size_of (Sh.builds_lengths shape)) A.zero) }
        ensures elements { IfOk result (ShowsOneValue (built_by Sh.ShapeBuilder shape) A.zero) }
        ensures refused { OnErr result (0 < size_of (Sh.builds_lengths shape)) }
    {
        Array::from_elem(alloc, shape, A::zero())
    }

    /// Returns an array of ones of a shape, in row-major order, or in column-major order after `.f()`. The shape must
    /// have a checked size, and a clone must equal its original. Fails with `NoMemory` if the storage or a clone is
    /// refused. This is ndarray's `ones`.
    pub fn ones<Sh: ShapeBuilder<Dim = D>>(alloc: Global, shape: Sh) -> Result<Self, NoMemory>
    where
        A: Clone + One,
        requires checked { HasCheckedSize (Sh.builds_lengths shape) }
        requires clones { ClonesAreEqual A.is_clone A.one }
        ensures owns { IfOk result (OwnsInOrder (built_by Sh.ShapeBuilder shape)) }
        ensures stored { IfOk result (λ a. stored_list (storage_of a) ≡ replicate (size_of (Sh.builds_lengths shape)) A.one) }
        ensures elements { IfOk result (ShowsOneValue (built_by Sh.ShapeBuilder shape) A.one) }
        ensures refused { OnErr result (0 < size_of (Sh.builds_lengths shape)) }
    {
        Array::from_elem(alloc, shape, A::one())
    }

    /// Returns an array of default values of a shape, in row-major order, or in column-major order after `.f()`. The
    /// shape must have a checked size. Fails with `NoMemory` if the storage is refused, before the first value is made.
    /// This is ndarray's `default`.
    pub fn default<Sh: ShapeBuilder<Dim = D>>(alloc: Global, shape: Sh) -> Result<Self, NoMemory>
    where
        A: Default,
        requires checked { HasCheckedSize (Sh.builds_lengths shape) }
        ensures owns { IfOk result (OwnsInOrder (built_by Sh.ShapeBuilder shape)) }
        ensures elements { IfOk result (ShowsSuch (built_by Sh.ShapeBuilder shape) A.is_default) }
        ensures alike { (x : A) → IsOnly A.is_default x → IfOk result (ShowsOneValue (built_by Sh.ShapeBuilder shape) x) }
        ensures refused { OnErr result (0 < size_of (Sh.builds_lengths shape)) }
    {
        let shape = shape.into_shape_with_order();
        let items = defaults(alloc, shape.size())?;
        Ok(of_items(items, *shape.raw_dim(), shape.order()))
    }
}

impl<A> Array<A, Ix1> {
    /// Returns an array with one axis that owns the elements of a vector, without copying them. This is ndarray's
    /// `from_vec`.
    #[tactic(auto, using(crate::proofs::reshape_lemmas::NewArraysOverVectors::vec_is_line))]
    pub fn from_vec(v: Vec<A>) -> Self
        ensures owns { OwnsInOrder (vec_len v ∷ [], RowMajor) result }
        ensures stored { stored_list (storage_of result) ≡ v.items }
        ensures room { room_of (storage_of result) ≡ vec_capacity v }
    {
        let count = v.len();
        of_items(v, count.into_dimension(), Order::RowMajor)
    }

    /// Returns an array with one axis that owns the items that an iterator gives, in their order; the iterator must
    /// end. Fails with `NoMemory` if the storage is refused; if the iterator gives no item, no memory is requested.
    /// This is ndarray's `from_iter`.
    pub fn from_iter<I: IntoIterator<Item = A>>(
        alloc: Global,
        iterable: I,
    ) -> Result<Self, NoMemory>
    where
        A: Drop,
        requires { IsFiniteIterable I.into_iter_gives I.IntoIter.can_next I.IntoIter.remaining iterable }
        ensures owns { IfOk result (λ a. OwnsInOrder (length (stored_list (storage_of a)) ∷ [], RowMajor) a) }
        ensures items { IfOk result (StoresItemsOf I.into_iter_gives I.IntoIter.next_gives iterable) }
        ensures refused { OnErr result (SourceGivesItem I.into_iter_gives I.IntoIter.next_gives iterable) }
    {
        match items_of(alloc, iterable.into_iter()) {
            Ok(items) => Ok(Array::from_vec(items)),
            Err(refused) => Err(refused),
        }
    }
}
