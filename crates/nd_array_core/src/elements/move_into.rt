//! A call that moves the elements of an array into another one.
#![tactic(auto, unfolding(crate::specs::ArrayMeaning::meaning_of, crate::specs::ArrayMeaning::memory_layout_of))]

ghost use Rattle.std.specs.Prelude.{◌≡◌, ◌<◌, ℕ, List};
ghost use Rattle.nd_array_core.specs.ArrayMeaning.{shape_of, element_at};
ghost use Rattle.nd_array_core.specs.base.ArrayWrites.{KeepsFrame};

use crate::base::array::{Array, ArrayBase};
use nd_elements::elements::move_into::exchange_layouts;
use nd_elements::storage::DataMut;
use nd_shape_and_slice::Dimension;

impl<A: Drop, D: Dimension> Array<A, D> {
    /// Moves each element to the same index of another array, which must have the same shape. What stood there is
    /// dropped, and so are the elements of this array that no index names. Nothing is cloned, and it takes no memory.
    /// This is ndarray's `move_into`.
    pub fn move_into<Z: DataMut<Elem = A>>(self, to: &mut ArrayBase<Z, D>)
        requires same { shape_of to.old ≡ shape_of self }
        ensures moved { (i : List ℕ) → element_at to.new i ≡ element_at self i }
        ensures frame { KeepsFrame Z.frame to.old to.new }
    {
        let ArrayBase {
            mut storage,
            layout,
        } = self;
        exchange_layouts(&mut to.storage, &to.layout, &mut storage, &layout);
    }
}
