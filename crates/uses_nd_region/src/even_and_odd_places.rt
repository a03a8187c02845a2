//! Splits a region into its even and its odd places, and writes to both parts in turn.
ghost use Rattle.std.specs.Prelude.{◌≡◌, length, [], ◌∷◌};
ghost use Rattle.nd_region.specs.Region.{elements_of, IsSameBorrow};
ghost use Rattle.uses_nd_region.specs.WritesToEvenOddAndColumns.{with_each, HasEach, HasFirst, even_places, odd_places};

use nd_region::{Region, with_region};

#[tactic(auto, using(nd_region::proofs::RegionContentsForCallers::written_has))]
fn put_in_turn<'a>(
    mut even: Region<'a, u64>,
    mut odd: Region<'a, u64>,
) -> (Region<'a, u64>, Region<'a, u64>, ())
    requires { HasEach even even_places × HasEach odd odd_places }
    ensures { (result.0 ≡ with_each even.entry even_places 0) × (result.1 ≡ with_each odd.entry odd_places 1) }
{
    even.set(0, 0);
    odd.set(1, 1);
    even.set(2, 0);
    odd.set(3, 1);
    even.set(4, 0);
    odd.set(5, 1);
    (even, odd, ())
}

fn in_turn<'a>(mut region: Region<'a, u64>) -> (Region<'a, u64>, ())
    requires { HasFirst 6 region }
    ensures same { IsSameBorrow region.entry result.0 }
    ensures items { elements_of result.0 ≡ 0 ∷ 1 ∷ 0 ∷ 1 ∷ 0 ∷ 1 ∷ [] }
{
    region.split_with(0, &[3], &[2], put_in_turn);
    (region, ())
}

/// Writes 0 to the even places of `slice` and 1 to the odd places. The slice must have six elements.
pub fn fill_in_turn(slice: &mut [u64])
    requires { length slice.old ≡ 6 }
    ensures { slice.new ≡ 0 ∷ 1 ∷ 0 ∷ 1 ∷ 0 ∷ 1 ∷ [] }
{
    with_region(slice, in_turn);
}
