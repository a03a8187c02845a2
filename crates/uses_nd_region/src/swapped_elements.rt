//! Swaps two elements of a slice through a region.
ghost use Rattle.std.specs.Prelude.{◌≡◌, ◌<◌, length, IsSome};
ghost use Rattle.std.specs.List.{swap};
ghost use Rattle.nd_region.specs.Region.{region_stored, with_swapped};

use nd_region::{Region, with_region};

fn swap_two<'a>(mut region: Region<'a, u64>) -> (Region<'a, u64>, ())
    requires { IsSome (region_stored region 0) × IsSome (region_stored region 2) }
    ensures { result.0 ≡ with_swapped region.entry 0 2 }
{
    region.swap(0, 2);
    (region, ())
}

/// Swaps the first element and the third element of `slice`, which must have at least three elements.
#[tactic(auto, using(nd_region::proofs::RegionContentsForCallers::whole_has))]
pub fn exchange(slice: &mut [u64])
    requires { 2 < length slice.old }
    ensures { slice.new ≡ swap slice.old 0 2 }
{
    with_region(slice, swap_two);
}
