//! What a region is made of: it takes two words, may have no places, may have elements without size, and drops each
//! element once.

use nd_region::{Region, with_region};
use std::cell::Cell;
use std::mem;

#[test]
fn is_two_words(rt: HostRuntime) {
    assert_eq!(rt; mem::size_of::<Region<u64>>(), 16);
}

#[test]
fn has_no_places(rt: HostRuntime) {
    let mut none: [u64; 0] = [];
    Region::from_slice(&mut none).end();
    with_region(&mut none, |region| (region, ()));
    let mut rows: [[u64; 0]; 3] = [[]; 3];
    let region = Region::from_rows(&mut rows);
    assert!(rt; region.run(0, 0).is_empty());
    region.end();
}

#[test]
#[tactic(auto, unfolding(nd_region::specs::RegionPlaces::stored_in))]
fn holds_units(rt: HostRuntime) {
    let mut units = [(), (), ()];
    let mut region = Region::from_slice(&mut units);
    region.set(2, ());
    assert_eq!(rt; region.run(0, 3).len(), 3);
    region.swap(0, 2);
    region.end();
}

// A value that adds its weight to a sum when it is dropped.
struct Weighed<'a> {
    weight: u64,
    sum: &'a Cell<u64>,
}

impl Drop for Weighed<'_> {
    fn drop(self) {
        let Self { weight, sum } = self;
        sum.set(sum.get().wrapping_add(weight));
    }
}

#[test]
#[tactic(auto, unfolding(nd_region::specs::RegionPlaces::stored_in))]
fn drops_each_once(rt: HostRuntime) {
    let sum = Cell::new(0u64);
    let weighed = |weight| Weighed { weight, sum: &sum };
    let mut items = [weighed(1), weighed(10), weighed(100)];
    let mut region = Region::from_slice(&mut items);
    region.set(0, weighed(1000));
    assert_eq!(rt; sum.get(), 1);
    region.swap(0, 2);
    let part = region.split(1, &[1], &[1]);
    part.end();
    region.end();
    assert_eq!(rt; sum.get(), 1);
    drop(items);
    assert_eq!(rt; sum.get(), 1111);
}
