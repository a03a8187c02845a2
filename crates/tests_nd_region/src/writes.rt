//! Writes to the places of a slice and of rows: to one place, by a swap, to a run, and for a shorter lifetime.

ghost use Rattle.std.specs.Prelude.{◌<◌, ◌^◌};

use nd_region::Region;

#[test]
#[tactic(auto, unfolding(nd_region::specs::RegionPlaces::stored_in))]
fn writes_places(rt: HostRuntime) {
    let mut xs = [1u64, 2, 3];
    let mut region = Region::from_slice(&mut xs);
    region.set(0, 10);
    let old = region.replace(1, 20);
    *region.get_mut(2) = 30;
    region.end();
    assert_eq!(rt; old, 2);
    assert_eq!(rt; xs, [10, 20, 30]);
}

#[test]
#[tactic(auto, unfolding(nd_region::specs::RegionPlaces::stored_in))]
fn writes_for_a_shorter_time(rt: HostRuntime) {
    let mut xs = [1u64, 2, 3];
    let mut region = Region::from_slice(&mut xs).shortened();
    region.set(1, 20);
    region.end();
    assert_eq!(rt; xs, [1, 20, 3]);
}

#[test]
#[tactic(auto, unfolding(nd_region::specs::RegionPlaces::stored_in))]
fn swaps(rt: HostRuntime) {
    let mut xs = [1u64, 2, 3];
    let mut region = Region::from_slice(&mut xs);
    region.swap(0, 2);
    region.end();
    assert_eq!(rt; xs, [3, 2, 1]);
}

#[test]
#[tactic(auto, unfolding(nd_region::specs::RegionPlaces::stored_in))]
fn writes_runs(rt: HostRuntime) {
    let mut xs = [1u64, 2, 3, 4];
    let mut region = Region::from_slice(&mut xs);
    region.reborrow().into_run(1, 2).fill(7);
    region.end();
    assert_eq!(rt; xs, [1, 7, 7, 4]);
    let mut ys = [1u64, 2, 3, 4];
    *Region::from_slice(&mut ys).into_mut(3) = 9;
    assert_eq!(rt; ys, [1, 2, 3, 9]);
    let mut zs = [1u64, 2, 3, 4];
    let mut region = Region::from_slice(&mut zs);
    region.run_mut(0, 2).fill(5);
    region.end();
    assert_eq!(rt; zs, [5, 5, 3, 4]);
}

#[test]
#[tactic(auto, unfolding(nd_region::specs::RegionPlaces::stored_in))]
fn writes_rows(rt: HostRuntime) {
    let mut rows = [[1u64, 2], [3, 4], [5, 6]];
    let mut region = Region::from_rows(&mut rows);
    region.set(1, 20);
    region.set(4, 50);
    region.end();
    assert_eq!(rt; rows, [[1, 20], [3, 4], [50, 6]]);
}
