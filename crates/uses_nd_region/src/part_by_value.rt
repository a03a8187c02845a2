//! Splits a region, and passes one part by value to a function that fills it.
ghost use Rattle.std.specs.Prelude.{◌≡◌, length, [], ◌∷◌};
ghost use Rattle.nd_region.specs.Region.{elements_of, IsSameBorrow};
ghost use Rattle.uses_nd_region.specs.WritesToEvenOddAndColumns.{with_each, each_set, HasEach, HasFirst};

use nd_region::{Region, with_region};

#[tactic(auto, using(nd_region::proofs::RegionContentsForCallers::written_has))]
fn fill_three<'a>(mut part: Region<'a, u64>, value: u64) -> Region<'a, u64>
    requires { HasEach part (0 ∷ 2 ∷ 4 ∷ []) }
    ensures { result ≡ with_each part.entry (0 ∷ 2 ∷ 4 ∷ []) value }
{
    part.set(0, value);
    part.set(2, value);
    part.set(4, value);
    part
}

fn fill_first<'a>(
    even: Region<'a, u64>,
    odd: Region<'a, u64>,
) -> (Region<'a, u64>, Region<'a, u64>, ())
    requires { HasEach even (0 ∷ 2 ∷ 4 ∷ []) }
    ensures { (result.0 ≡ with_each even.entry (0 ∷ 2 ∷ 4 ∷ []) 7) × (result.1 ≡ odd.entry) }
{
    let even = fill_three(even, 7);
    (even, odd, ())
}

fn fill_part<'a>(mut region: Region<'a, u64>) -> (Region<'a, u64>, ())
    requires { HasFirst 6 region }
    ensures same { IsSameBorrow region.entry result.0 }
    ensures items { elements_of result.0 ≡ each_set (elements_of region.entry) (0 ∷ 2 ∷ 4 ∷ []) 7 }
{
    region.split_with(0, &[3], &[2], fill_first);
    (region, ())
}

/// Writes 7 to the even places of `slice`, which must have six elements.
pub fn fill_even(slice: &mut [u64])
    requires { length slice.old ≡ 6 }
    ensures { slice.new ≡ each_set slice.old (0 ∷ 2 ∷ 4 ∷ []) 7 }
{
    with_region(slice, fill_part);
}
