//! Writes through one region that covers a whole slice.
ghost use Rattle.std.specs.Prelude.{◌≡◌, ◌<◌, length, slice_set, IsSome};
ghost use Rattle.nd_region.specs.Region.{region_stored, with_element};

use nd_region::{Region, with_region};

#[tactic(auto, using(nd_region::proofs::RegionContentsForCallers::written_has))]
fn put_two<'a>(mut region: Region<'a, u64>) -> (Region<'a, u64>, ())
    requires { IsSome (region_stored region 1) × IsSome (region_stored region 3) }
    ensures { result.0 ≡ with_element (with_element region.entry 1 7) 3 9 }
{
    region.set(1, 7);
    region.set(3, 9);
    (region, ())
}

/// Writes 7 at the index 1 and 9 at the index 3 of `slice`, which must have at least four elements.
#[tactic(auto, using(nd_region::proofs::RegionContentsForCallers::whole_has))]
pub fn write_two(slice: &mut [u64])
    requires { 3 < length slice.old }
    ensures { slice.new ≡ slice_set (slice_set slice.old 1 7) 3 9 }
{
    with_region(slice, put_two);
}
