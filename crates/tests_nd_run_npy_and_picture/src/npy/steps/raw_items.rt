//! Steps on elements that are bytes of no known kind.

use crate::npy::steps::step_checks::becomes;

#[test]
fn items_of_three_bytes(rt: HostRuntime) {
    const ITEMS: [[u8; 3]; 2] = [[1, 2, 3], [4, 5, 6]];
    const BACKWARDS: [[u8; 3]; 2] = [[4, 5, 6], [1, 2, 3]];
    let row = (b"invert 0".as_slice(), [2].as_slice(), BACKWARDS.as_slice());
    assert!(rt; becomes(rt.alloc(), (&[2], &ITEMS), row));
}
