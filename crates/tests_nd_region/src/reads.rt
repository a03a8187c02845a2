//! Reads of places and of runs of places, through a mutable borrow and through a shared one.

ghost use Rattle.std.specs.Prelude.{◌<◌, ◌*◌, ◌^◌, length};

use nd_region::{Region, SharedRegion};

#[test]
#[tactic(auto, unfolding(nd_region::specs::RegionPlaces::stored_in))]
fn reads(rt: HostRuntime) {
    let mut xs = [1u64, 2, 3, 4];
    let region = Region::from_slice(&mut xs);
    let third = *region.get(2);
    let len = region.run(1, 3).len();
    let none = region.run(9, 0).len();
    region.end();
    assert_eq!(rt; (third, len, none), (3, 3, 0));
}

#[test]
#[tactic(auto, unfolding(nd_region::specs::RegionPlaces::stored_in))]
fn shares(rt: HostRuntime) {
    let mut xs = [1u64, 2, 3, 4];
    let region = Region::from_slice(&mut xs);
    let shared = region.share();
    let first = *shared.get(0);
    let len = shared.run(0, 2).len();
    region.end();
    assert_eq!(rt; first, 1);
    assert_eq!(rt; len, 2);
}

#[tactic(auto, using(nd_region::proofs::RegionContentsForCallers::whole_has))]
fn second_of(xs: &[u64]) -> u64
    requires { 1 < length xs.now }
{
    *SharedRegion::from_slice(xs).shortened().get(1)
}

fn run_of_none(rows: &[[u64; 2]]) -> usize
    requires { length rows.now * 2 < 2 ^ 63 }
{
    SharedRegion::from_rows(rows).run(4, 0).len()
}

#[test]
fn reads_slices_and_rows(rt: HostRuntime) {
    assert_eq!(rt; second_of(&[5, 6]), 6);
    assert_eq!(rt; run_of_none(&[[1, 2], [3, 4]]), 0);
}

#[test]
#[tactic(auto, unfolding(nd_region::specs::RegionPlaces::stored_in))]
fn reads_shared_places(rt: HostRuntime) {
    let rows = [[1u64, 2], [3, 4], [5, 6]];
    let shared = SharedRegion::from_rows(&rows);
    let third = *shared.get(2);
    let last = *shared.get(5);
    assert_eq!(rt; (third, last), (3, 6));
}
