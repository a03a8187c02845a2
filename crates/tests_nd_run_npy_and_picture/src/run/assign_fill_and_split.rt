//! Writes through paths, and to the two parts of a split.

use crate::run::output_checks::written;

#[test]
fn writes(rt: HostRuntime) {
    const TABLE: [(&[u8], &[u8]); 7] = [
        // every second element of the first six
        (
            b"start 1 10 0 1 8 27 64 125 216 343 512 729\nask cut 0 2 5 1 / elements\nwrite cut 0 0 6 2 / fill 1000\n",
            b"array 1 3 8 27 64\ndone\nend 1 10 1000 1 1000 27 1000 125 216 343 512 729\n",
        ),
        // a write to the array itself, and writes at the end of a path
        (
            b"start 2 2 3 1 2 3 4 5 6\nwrite set 2 1 0 9\nwrite reverse / invert 0 / set 2 0 0 -1\nwrite index 0 1 / swap 1 0 1 2\nwrite swap 2 0 1 2 0 1\nask elements\nwrite diag / fill 0\n",
            b"done\ndone\ndone\ndone\narray 2 2 3 1 2 -1 6 5 9\ndone\nend 2 2 3 0 2 -1 6 0 9\n",
        ),
        // an index outside, or with another number of coordinates
        (
            b"start 2 2 2 1 2 3 4\nwrite set 2 2 0 9\nwrite set 1 0 9\nwrite set 3 0 0 0 9\nwrite swap 2 0 0 2 0 2\nwrite swap 2 0 2 2 0 0\nwrite collapse 0 1 / set 2 1 0 9\nwrite remove 0 / swap 1 0 1 1\n",
            b"refused 2\nrefused 2\nrefused 2\nrefused 2\nrefused 2\nrefused 2\ndone\nend 2 2 2 2 1 3 4\n",
        ),
        // the first refused step is told, before the act is checked; a broadcast is refused too
        (
            b"start 1 2 7 8\nwrite broadcast 2 3 2 / fill 0\nwrite broadcast 1 3 / set 1 9 0\nwrite broadcast 33 1 1 1 1 1 1 1 1 1 1 1 1 1 1 1 1 1 1 1 1 1 1 1 1 1 1 1 1 1 1 1 1 1 / fill 0\nwrite invert 1 / broadcast 1 2 / fill 0\nwrite cut 0 0 3 1 / set 1 9 0\nwrite cut 0 0 _ 0 / fill 0\n",
            b"refused 8\nrefused 8\nrefused 8\nrefused 1\nrefused 3\nrefused 3\nend 1 2 7 8\n",
        ),
        // an array without elements, and an array of one element without axes
        (
            b"start 2 3 0\nwrite fill 9\nwrite set 2 0 0 9\nwrite reverse / diag / fill 9\n",
            b"done\nrefused 2\ndone\nend 2 3 0\n",
        ),
        (
            b"start 0 7\nwrite set 0 8\nwrite swap 0 0\nask elements\nwrite insert 0 / fill -9223372036854775808\nwrite set 1 0 1\n",
            b"done\ndone\narray 0 8\ndone\nrefused 2\nend 0 -9223372036854775808\n",
        ),
        // a write to an array whose axes were exchanged and sliced before
        (
            b"start 2 3 4 0 1 2 3 4 5 6 7 8 9 10 11\nkeep reverse\nkeep cut 0 0 _ -2\nask elements\nwrite index 1 2 / fill 100\nwrite slice 2 i -1 s 0 _ 2 / swap 1 0 1 1\n",
            b"done\ndone\narray 2 2 3 3 7 11 1 5 9\ndone\ndone\nend 2 2 3 3 7 100 100 5 1\n",
        ),
    ];
    assert!(rt; written(rt.alloc(), &TABLE));
}

#[test]
fn assigned(rt: HostRuntime) {
    const TABLE: [(&[u8], &[u8]); 5] = [
        (
            b"start 2 2 2 1 2 3 4\nwrite reverse / assign 1 2 8 9\nwrite assign 1 3 1 2 3\nask count 8\n",
            b"done\nrefused 8\nnumber 2\nend 2 2 2 8 8 9 9\n",
        ),
        // an array with more axes, and a step before the assignment that is refused
        (
            b"start 1 3 1 2 3\nwrite assign 2 1 3 1 2 3\nwrite index 0 4 / assign 1 9 0 0 0 0 0 0 0 0 0\nwrite broadcast 2 3 3 / assign 0 1\nwrite invert 0 / assign 1 3 1 2 3\n",
            b"refused 8\nrefused 2\nrefused 8\ndone\nend 1 3 3 2 1\n",
        ),
        // the two parts of a split: both arrays are checked before either is written
        (
            b"start 1 3 1 2 3\nsplit 0 1 assign 1 1 5 / assign 1 3 0 0 0\nsplit 0 1 assign 1 2 1 1 / set 1 9 0\nsplit 0 1 fill 0 / assign 1 3 4 5 6\nsplit 0 1 assign 0 7 / assign 1 2 8 9\n",
            b"refused 8\nrefused 8\nrefused 8\ndone\nend 1 3 7 8 9\n",
        ),
        // an array without elements, and an array of one element without axes
        (
            b"start 2 3 0\nwrite assign 2 1 0\nwrite assign 1 1 5\nwrite assign 1 2 5 6\n",
            b"done\ndone\nrefused 8\nend 2 3 0\n",
        ),
        (
            b"start 0 7\nwrite assign 1 1 8\nwrite assign 0 9\n",
            b"refused 8\ndone\nend 0 9\n",
        ),
    ];
    assert!(rt; written(rt.alloc(), &TABLE));
}

#[test]
fn splits(rt: HostRuntime) {
    const TABLE: [(&[u8], &[u8]); 5] = [
        // one value on each side of a column
        (
            b"start 2 2 4 1 2 3 4 5 6 7 8\nsplit 1 1 fill 0 / fill 9\n",
            b"done\nend 2 2 4 0 9 9 9 0 9 9 9\n",
        ),
        // both acts are checked before either writes
        (
            b"start 1 1 5\nkeep broadcast 1 3\nsplit 0 1 fill 9 / set 1 0 1\n",
            b"refused 8\nrefused 2\nend 1 1 5\n",
        ),
        (
            b"start 2 2 2 1 2 3 4\nsplit 0 1 set 2 0 1 9 / swap 2 0 0 2 1 0\nsplit 0 1 set 2 1 0 9 / fill 9\nsplit 0 1 swap 2 0 0 2 0 1 / set 2 0 1 9\n",
            b"refused 2\nrefused 2\ndone\nend 2 2 2 2 1 3 9\n",
        ),
        // checked in this order: the axis, the coordinate where it is split, the acts
        (
            b"start 1 3 1 2 3\nsplit 1 9 set 1 9 0 / fill 0\nsplit 0 4 fill 0 / fill 0\nsplit 0 3 fill 7 / fill 8\nask elements\nsplit 0 0 fill 9 / set 1 1 4\n",
            b"refused 1\nrefused 2\ndone\narray 1 3 7 7 7\ndone\nend 1 3 7 4 7\n",
        ),
        // an array without axes, and an array with an axis that was inverted before
        (
            b"start 0 7\nsplit 0 0 fill 1 / fill 2\nkeep insert 0\nkeep invert 0\nsplit 0 0 fill 1 / fill 2\n",
            b"refused 1\ndone\ndone\ndone\nend 1 1 2\n",
        ),
    ];
    assert!(rt; written(rt.alloc(), &TABLE));
}
