//! Arrays that grow in scripts.

use crate::run::output_checks::written;

#[test]
fn arrays_after_arrays(rt: HostRuntime) {
    const TABLE: [(&[u8], &[u8]); 11] = [
        // rows of another length, an axis that doesn't exist, and rows that fit
        (
            b"start 2 2 3 1 2 3 4 5 6\nask reverse / elements\nask broadcast 1 2 / shape\nask get 1 0\nappend 0 2 1 2 9 9\nappend 5 2 1 3 7 8 9\npush 0 1 3 7 8 9\nkeep invert 0\nreserve 0 18446744073709551615\n",
            b"array 2 3 2 1 4 2 5 3 6\nrefused 8\nnone\nrefused 5\nrefused 1\ndone\ndone\nrefused 6\nend 2 3 3 7 8 9 4 5 6 1 2 3\n",
        ),
        // an array without axes
        (
            b"start 0 7\nask diag / elements\nappend 0 0 8\nappend 9 1 1 8\npush 9 0 8\n",
            b"array 1 1 7\nrefused 5\nrefused 5\nrefused 5\nend 0 7\n",
        ),
        // an array without elements, and elements after none
        (
            b"start 2 3 0\nappend 0 2 2 0\nask shape\n",
            b"done\nshape 2 5 0\nend 2 5 0\n",
        ),
        (
            b"start 2 3 0\nkeep remove 1\nask diag / shape\nkeep invert 1\nask reshape row 2 0 7\nask reshape row 3 0 5 9223372036854775807\nappend 1 2 3 2 1 2 3 4 5 6\n",
            b"refused 2\nshape 1 0\ndone\narray 2 0 7\nrefused 5\ndone\nend 2 3 2 1 2 3 4 5 6\n",
        ),
        // refused for the axis, for the number of axes, and for the other lengths
        (
            b"start 2 2 3 1 2 3 4 5 6\nappend 2 1 1 9\nappend 0 1 3 7 8 9\nappend 1 2 3 1 7 8 9\nappend 1 2 2 1 7 8\nappend 0 2 0 4\nappend 0 2 0 3\n",
            b"refused 1\nrefused 5\nrefused 5\ndone\ndone\nrefused 5\nend 2 2 4 1 2 3 7 4 5 6 8\n",
        ),
        // an array with one axis fewer, which gets an axis of length 1
        (
            b"start 2 2 2 1 2 3 4\nkeep reverse\npush 0 1 2 9 8\npush 1 1 3 7 6 5\npush 1 1 2 0 0\npush 0 2 1 3 0 0 0\npush 2 1 3 0 0 0\npush 0 0 5\n",
            b"done\ndone\ndone\nrefused 5\nrefused 5\nrefused 1\nrefused 5\nend 2 3 3 1 3 7 2 4 6 9 8 5\n",
        ),
        (
            b"start 1 0\npush 0 0 5\npush 1 0 6\npush 0 0 6\npush 0 1 1 7\n",
            b"done\nrefused 1\ndone\nrefused 5\nend 1 2 5 6\n",
        ),
        // both arrays together are too large
        (
            b"start 2 9223372036854775807 0\nappend 0 2 1 0\nappend 0 2 0 0\nappend 1 2 9223372036854775807 0\nappend 1 2 1 0\nappend 1 2 2 0\n",
            b"refused 6\ndone\ndone\ndone\nrefused 5\nend 2 9223372036854775807 0\n",
        ),
        // what is appended is broadcast first: one number as a row and as a column, one row as two columns, and rows
        // that are too short or too long
        (
            b"start 2 2 3 1 2 3 4 5 6\nappend 0 2 1 1 9\n",
            b"done\nend 2 3 3 1 2 3 4 5 6 9 9 9\n",
        ),
        (
            b"start 2 1 2 1 2\npush 0 1 1 9\nappend 1 2 1 2 7 8\npush 1 1 1 6\nappend 0 2 2 2 0 0 0 0\npush 0 1 4 0 0 0 0\nappend 0 2 3 1 4 3 2\nappend 0 1 1 1\n",
            b"done\ndone\ndone\nrefused 5\nrefused 5\ndone\nrefused 5\nend 2 5 5 1 2 7 8 6 9 9 7 8 6 4 4 4 4 4 3 3 3 3 3 2 2 2 2 2\n",
        ),
        // appended to an array from which an element was removed
        (
            b"start 1 4 1 2 3 4\nremoveindex 0 1\nappend 0 1 0\nappend 0 1 2 5 6\n",
            b"done\ndone\ndone\nend 1 5 1 3 4 5 6\n",
        ),
    ];
    assert!(rt; written(rt.alloc(), &TABLE));
}

#[test]
fn arrays_joined(rt: HostRuntime) {
    const TABLE: [(&[u8], &[u8]); 8] = [
        // arrays that are stacked and concatenated, and some that don't fit
        (
            b"start 1 2 1 2\nstack 0 2 1 2 3 4 1 2 5 6\nconcat 1 1 2 3 1 7 8 9\nconcat 0 1 2 1 1 9\nappend 0 2 1 1 9\nstack 3 0\n",
            b"done\ndone\nrefused 5\ndone\nrefused 1\nend 2 4 3 1 2 7 3 4 8 5 6 9 9 9 9\n",
        ),
        // concatenated along each axis, and stacked along each new axis
        (
            b"start 2 2 3 3 7 8 5 2 4\nconcat 1 1 2 2 3 1 9 0 5 4 1\nconcat 2 1 2 2 6 1 1 1 1 1 1 1 1 1 1 1 1\nconcat 0 2 2 1 6 1 2 3 4 5 6 2 0 6\n",
            b"done\nrefused 1\ndone\nend 2 3 6 3 7 8 1 9 0 5 2 4 5 4 1 1 2 3 4 5 6\n",
        ),
        (
            b"start 2 2 3 3 7 8 5 2 4\nstack 1 1 2 2 3 1 9 0 5 4 1\n",
            b"done\nend 3 2 2 3 3 7 8 1 9 0 5 2 4 5 4 1\n",
        ),
        (
            b"start 2 2 3 3 7 8 5 2 4\nstack 3 1 2 2 3 1 9 0 5 4 1\nstack 2 1 2 2 3 1 9 0 5 4 1\n",
            b"refused 1\ndone\nend 3 2 3 2 3 1 7 9 8 0 5 5 2 4 4 1\n",
        ),
        // the array alone, an array without axes, and other shapes with the same number of elements
        (
            b"start 0 7\nconcat 0 0\nstack 0 0\nconcat 0 0\nstack 0 1 0 8\nstack 1 2 1 1 8 1 1 9\nstack 0 1 2 3 1 7 8 9\nconcat 0 1 1 3 0 0 0\n",
            b"refused 1\ndone\ndone\nrefused 5\ndone\nrefused 5\nrefused 5\nend 2 1 3 7 8 9\n",
        ),
        // the first error is told: for the axis, for too many axes, for the lengths, and for the size
        (
            b"start 32 1 1 1 1 1 1 1 1 1 1 1 1 1 1 1 1 1 1 1 1 1 1 1 1 1 1 1 1 1 1 1 1 5\nstack 33 1 0 1\nstack 32 1 0 1\nstack 0 0\nconcat 32 1 0 1\nconcat 31 1 0 1\nask shape\n",
            b"refused 1\nrefused 7\nrefused 7\nrefused 1\nrefused 5\nshape 32 1 1 1 1 1 1 1 1 1 1 1 1 1 1 1 1 1 1 1 1 1 1 1 1 1 1 1 1 1 1 1 1\nend 32 1 1 1 1 1 1 1 1 1 1 1 1 1 1 1 1 1 1 1 1 1 1 1 1 1 1 1 1 1 1 1 1 5\n",
        ),
        (
            b"start 2 9223372036854775807 0\nconcat 0 1 2 1 0\nconcat 0 2 2 9223372036854775807 0 2 9223372036854775807 0\nconcat 0 1 2 1 1 9\nstack 1 1 2 9223372036854775807 0\nstack 1 0\n",
            b"refused 6\nrefused 6\nrefused 5\nrefused 6\ndone\nend 3 9223372036854775807 1 0\n",
        ),
        (
            b"start 2 2 0\nconcat 1 1 2 2 1 8 9\nconcat 1 2 2 2 0 2 2 1 6 7\n",
            b"done\ndone\nend 2 2 2 8 6 9 7\n",
        ),
    ];
    assert!(rt; written(rt.alloc(), &TABLE));
}

#[test]
fn room(rt: HostRuntime) {
    const TABLE: [(&[u8], &[u8]); 3] = [
        (
            b"start 1 3 1 2 3\nreserve 0 4\nappend 0 1 2 4 5\nappend 0 1 1 6\nreserve 1 0\nappend 0 1 1 7\n",
            b"done\ndone\ndone\nrefused 1\ndone\nend 1 7 1 2 3 4 5 6 7\n",
        ),
        (
            b"start 2 2 0\nreserve 0 9223372036854775805\nreserve 0 9223372036854775806\nreserve 1 0\nreserve 2 0\n",
            b"done\nrefused 6\ndone\nrefused 1\nend 2 2 0\n",
        ),
        (b"start 0 7\nreserve 0 0\n", b"refused 1\nend 0 7\n"),
    ];
    assert!(rt; written(rt.alloc(), &TABLE));
}

#[test]
fn arrays_of_one_meaning_grow_alike(rt: HostRuntime) {
    // The table in row-major order, with its axes exchanged, and as a part of a larger table.
    const TABLE: [(&[u8], &[u8]); 3] = [
        (
            b"start 2 2 3 1 2 3 4 5 6\nkeep reverse\nkeep reverse\nappend 0 2 1 3 7 8 9\nreserve 1 2\npush 1 1 3 0 0 0\n",
            b"done\ndone\ndone\ndone\ndone\nend 2 3 4 1 2 3 0 4 5 6 0 7 8 9 0\n",
        ),
        (
            b"start 2 3 2 1 4 2 5 3 6\nkeep reverse\nkeep squeeze\nappend 0 2 1 3 7 8 9\nreserve 1 2\npush 1 1 3 0 0 0\n",
            b"done\ndone\ndone\ndone\ndone\nend 2 3 4 1 2 3 0 4 5 6 0 7 8 9 0\n",
        ),
        (
            b"start 2 4 6 0 0 0 0 0 0 0 0 0 0 0 0 0 0 0 0 0 0 0 0 0 0 0 0\nkeep slice 2 s 0 _ 2 s 0 _ -2\nwrite assign 2 2 3 1 2 3 4 5 6\nappend 0 2 1 3 7 8 9\nreserve 1 2\npush 1 1 3 0 0 0\n",
            b"done\ndone\ndone\ndone\ndone\nend 2 3 4 1 2 3 0 4 5 6 0 7 8 9 0\n",
        ),
    ];
    assert!(rt; written(rt.alloc(), &TABLE));
}
