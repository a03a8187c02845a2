//! Moves the elements of an array into another array.
#![tactic(auto, using(std::proofs::lemmas::Bool::Decides::nat_tests, nd_array_core::proofs::AxesOfDimensionTypes::known_axes))]

ghost use Rattle.std.specs.Prelude.{◌≡◌, reverse};
ghost use Rattle.nd_array_core.specs.Prelude.{shape_of, table_of, transposed, ShowsTable};

use nd_array_core::prelude::*;

/// Moves the pixels of `image` into `to`, transposed: a row of `image` becomes a column of `to`. No element is cloned.
pub fn move_transposed<A: Drop, S: DataMut<Elem = A>>(image: Array2<A>, to: &mut ArrayBase<S, Ix2>)
    requires { shape_of to.old ≡ reverse (shape_of image) }
    ensures { ShowsTable to.new (transposed (table_of image)) }
{
    image.reversed_axes().move_into(to);
}
