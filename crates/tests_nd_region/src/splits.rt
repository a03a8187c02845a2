//! Parts of a region by layouts: two parts that are written in turn, and one part of two layouts.

use nd_region::Region;

#[test]
#[tactic(auto, unfolding(nd_region::specs::RegionPlaces::stored_in))]
fn fills_two_slices(rt: HostRuntime) {
    let mut six = [5u64, 5, 5, 5, 5, 5];
    let mut region = Region::from_slice(&mut six);
    let mut even = region.split(0, &[3], &[2]);
    let mut odd = region.split(1, &[3], &[2]);
    even.set(0, 0);
    odd.set(1, 1);
    even.set(2, 0);
    odd.set(3, 1);
    even.set(4, 0);
    odd.set(5, 1);
    even.end();
    odd.end();
    region.end();
    assert_eq!(rt; six, [0, 1, 0, 1, 0, 1]);
}

#[test]
#[tactic(auto, unfolding(nd_region::specs::RegionPlaces::stored_in))]
fn lends_either_of_two_layouts(rt: HostRuntime) {
    let mut six = [1u64, 2, 3, 4, 5, 6];
    let mut region = Region::from_slice(&mut six);
    let answer = region.with_either(0, &[3], &[2], 3, &[1], &[1], |part| (part, 7));
    region.set(4, 50);
    region.end();
    assert_eq!(rt; answer, 7);
    assert_eq!(rt; six, [1, 2, 3, 4, 50, 6]);
}
