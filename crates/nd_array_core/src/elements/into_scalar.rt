//! The element of an array without axes.
#![tactic(auto, unfolding(crate::specs::ArrayMeaning::meaning_of, crate::specs::ArrayMeaning::memory_layout_of))]

ghost use Rattle.std.specs.Prelude.{◌≡◌, [], Some};
ghost use Rattle.nd_array_core.specs.ArrayMeaning.{element_at};

use crate::base::array::Array;
use nd_shape_and_slice::Ix0;

impl<A: Drop> Array<A, Ix0> {
    /// Moves the element of an array without axes out, and drops whatever else is stored. It takes no memory. This is
    /// ndarray's `into_scalar`.
    pub fn into_scalar(self) -> A
        ensures { element_at self [] ≡ Some result }
    {
        let _axes = self.ndim();
        match self.layout.place_of(&[]) {
            Some(place) => {
                let mut items = self.storage.items;
                items.swap_remove(place)
            }
            None => unreachable!(),
        }
    }
}
