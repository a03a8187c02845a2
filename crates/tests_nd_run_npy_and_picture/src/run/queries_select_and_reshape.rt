//! Whole scripts, from start to end.

use crate::run::output_checks::{tells, written};

#[test]
fn arrays_at_the_end(rt: HostRuntime) {
    const TABLE: [(&[u8], &[u8]); 8] = [
        (b"start 1 1 5", b"end 1 1 5\n"),
        (b"\r\n \tstart\t1 1  -0\r\n\n", b"end 1 1 0\n"),
        (b"start 01 001 -007\n", b"end 1 1 -7\n"),
        (
            b"start 1 2 9223372036854775807 -9223372036854775808\n",
            b"end 1 2 9223372036854775807 -9223372036854775808\n",
        ),
        (b"start 0 7\n", b"end 0 7\n"),
        (b"start 2 3 0\n", b"end 2 3 0\n"),
        (
            b"start 2 9223372036854775807 0",
            b"end 2 9223372036854775807 0\n",
        ),
        (
            b"start 32 1 1 1 1 1 1 1 1 1 1 1 1 1 1 1 1 1 1 1 1 1 1 1 1 1 1 1 1 1 1 1 1 5",
            b"end 32 1 1 1 1 1 1 1 1 1 1 1 1 1 1 1 1 1 1 1 1 1 1 1 1 1 1 1 1 1 1 1 1 5\n",
        ),
    ];
    assert!(rt; written(rt.alloc(), &TABLE));
}

#[test]
fn first_and_last(rt: HostRuntime) {
    const TABLE: [(&[u8], &[u8]); 3] = [
        (
            b"start 2 2 3 1 2 3 4 5 6\nask first\nask last\nask invert 0 / first\nask diag / last\n",
            b"some 1\nsome 6\nsome 4\nsome 5\nend 2 2 3 1 2 3 4 5 6\n",
        ),
        (
            b"start 2 2 0\nask first\nask last\nask cut 2 0 1 1 / last\n",
            b"none\nnone\nrefused 1\nend 2 2 0\n",
        ),
        (
            b"start 0 7\nask first\nask last\n",
            b"some 7\nsome 7\nend 0 7\n",
        ),
    ];
    assert!(rt; written(rt.alloc(), &TABLE));
}

#[test]
fn compared(rt: HostRuntime) {
    const TABLE: [(&[u8], &[u8]); 1] = [
        // the same lengths and elements, another element, other lengths, fewer axes, and then paths: to the transpose,
        // and to an axis that isn't there
        (
            b"start 2 2 3 1 2 3 4 5 6\nask equal 2 2 3 1 2 3 4 5 6\nask equal 2 2 3 1 2 3 4 5 7\nask equal 2 3 2 1 2 3 4 5 6\nask equal 1 6 1 2 3 4 5 6\nask reverse / equal 2 3 2 1 4 2 5 3 6\nask invert 2 / equal 2 2 3 1 2 3 4 5 6\n",
            b"true\nfalse\nfalse\nfalse\ntrue\nrefused 1\nend 2 2 3 1 2 3 4 5 6\n",
        ),
    ];
    assert!(rt; written(rt.alloc(), &TABLE));
}

#[test]
fn counts(rt: HostRuntime) {
    const TABLE: [(&[u8], &[u8]); 3] = [
        (
            b"start 2 2 3 1 2 1 2 1 1\nask count 1\nask cut 1 0 1 1 / count 1\nask count -1\nask index 2 0 / count 1\n",
            b"number 4\nnumber 1\nnumber 0\nrefused 1\nend 2 2 3 1 2 1 2 1 1\n",
        ),
        (b"start 2 3 0\nask count 0\n", b"number 0\nend 2 3 0\n"),
        (
            b"start 1 1 5\nask broadcast 2 40 50 / count 5\nask invert 0 / count 5\n",
            b"number 2000\nnumber 1\nend 1 1 5\n",
        ),
    ];
    assert!(rt; written(rt.alloc(), &TABLE));
}

#[test]
fn coordinates_chosen(rt: HostRuntime) {
    const TABLE: [(&[u8], &[u8]); 5] = [
        (
            b"start 2 3 2 0 1 2 3 4 5\nselect 0 3 2 0 2\nask shape\n",
            b"done\nshape 2 3 2\nend 2 3 2 4 5 0 1 4 5\n",
        ),
        (
            b"start 2 3 2 0 1 2 3 4 5\nselect 0 0\nselect 1 1 1\n",
            b"done\ndone\nend 2 0 1\n",
        ),
        (
            b"start 2 3 2 0 1 2 3 4 5\nselect 2 0\nselect 1 2 0 2\nselect 1 3 1 0 1\n",
            b"refused 1\nrefused 2\ndone\nend 2 3 3 1 0 1 3 2 3 5 4 5\n",
        ),
        (
            b"start 3 1 0 9223372036854775807\nselect 0 2 0 0\nselect 1 0\n",
            b"refused 6\ndone\nend 3 1 0 9223372036854775807\n",
        ),
        (
            b"start 2 2 2 1 2 3 4\nkeep invert 0\nkeep reverse\nselect 1 1 0\n",
            b"done\ndone\ndone\nend 2 2 1 3 4\n",
        ),
    ];
    assert!(rt; written(rt.alloc(), &TABLE));
}

#[test]
fn coordinates_taken_out(rt: HostRuntime) {
    const TABLE: [(&[u8], &[u8]); 4] = [
        (
            b"start 1 4 1 2 3 4\nremoveindex 0 1\nselect 0 3 2 0 2\nselect 0 1 3\n",
            b"done\ndone\nrefused 2\nend 1 3 4 1 4\n",
        ),
        (
            b"start 2 2 3 1 2 3 4 5 6\nremoveindex 1 0\nask shape\nremoveindex 0 1\n",
            b"done\nshape 2 2 2\ndone\nend 2 1 2 2 3\n",
        ),
        (
            b"start 2 2 3 1 2 3 4 5 6\nkeep reverse\nkeep invert 0\nremoveindex 0 0\nremoveindex 2 0\nremoveindex 0 2\n",
            b"done\ndone\ndone\nrefused 1\nrefused 2\nend 2 2 2 2 5 1 4\n",
        ),
        (
            b"start 2 1 3 7 8 9\nremoveindex 0 0\nremoveindex 0 0\n",
            b"done\nrefused 2\nend 2 0 3\n",
        ),
    ];
    assert!(rt; written(rt.alloc(), &TABLE));
}

#[test]
fn other_lengths(rt: HostRuntime) {
    const TABLE: [(&[u8], &[u8]); 6] = [
        (
            b"start 2 2 3 1 2 3 4 5 6\nreshape col 2 3 2\nask shape\nreshape row 1 6\n",
            b"done\nshape 2 3 2\ndone\nend 1 6 1 5 4 3 2 6\n",
        ),
        // refused for another number of elements, for a size that overflows, and for too many axes
        (
            b"start 1 4 1 2 3 4\nreshape row 1 3\nreshape row 0\nreshape col 2 9223372036854775807 2\nreshape row 33 1 1 1 1 1 1 1 1 1 1 1 1 1 1 1 1 1 1 1 1 1 1 1 1 1 1 1 1 1 1 1 1 1\nreshape col 2 2 2\n",
            b"refused 5\nrefused 5\nrefused 5\nrefused 7\ndone\nend 2 2 2 1 3 2 4\n",
        ),
        // an array without elements
        (
            b"start 2 3 0\nreshape row 3 0 5 9223372036854775807\nreshape col 2 0 7\nask shape\nreshape row 1 1\nreshape row 1 0\n",
            b"refused 5\ndone\nshape 2 0 7\nrefused 5\ndone\nend 1 0\n",
        ),
        // no strides fit the other lengths, so the elements are copied
        (
            b"start 2 2 3 1 2 3 4 5 6\nkeep permute 2 1 0\nreshape row 1 6\nreshape row 2 2 3\nkeep invert 1\nask elements\nreshape col 2 3 2\n",
            b"done\ndone\ndone\ndone\narray 2 2 3 2 4 1 6 3 5\ndone\nend 2 3 2 2 3 6 1 4 5\n",
        ),
        (
            b"start 0 7\nreshape row 3 1 1 1\nask shape\nreshape col 0\n",
            b"done\nshape 3 1 1 1\ndone\nend 0 7\n",
        ),
        // an array with 32 axes
        (
            b"start 1 1 5\nreshape col 32 1 1 1 1 1 1 1 1 1 1 1 1 1 1 1 1 1 1 1 1 1 1 1 1 1 1 1 1 1 1 1 1\nreshape col 0\n",
            b"done\ndone\nend 0 5\n",
        ),
    ];
    assert!(rt; written(rt.alloc(), &TABLE));
}

#[test]
fn elements_under_other_lengths(rt: HostRuntime) {
    const TABLE: [(&[u8], &[u8]); 3] = [
        (
            b"start 2 2 4 1 2 3 4 5 6 7 8\nask cut 1 0 _ 2 / reshape col 2 4 1\nask reverse / reshape row 2 2 4\nask index 2 0 / reshape row 1 1\nask reshape row 1 7\nask reshape row 33 1 1 1 1 1 1 1 1 1 1 1 1 1 1 1 1 1 1 1 1 1 1 1 1 1 1 1 1 1 1 1 1 1\n",
            b"array 2 4 1 1 5 3 7\narray 2 2 4 1 5 2 6 3 7 4 8\nrefused 1\nrefused 5\nrefused 7\nend 2 2 4 1 2 3 4 5 6 7 8\n",
        ),
        (
            b"start 2 3 0\nkeep remove 1\nask diag / shape\nkeep invert 1\nask reshape row 2 0 7\nask reshape row 3 0 5 9223372036854775807\n",
            b"refused 2\nshape 1 0\ndone\narray 2 0 7\nrefused 5\nend 2 3 0\n",
        ),
        // elements that are repeated
        (
            b"start 1 1 5\nkeep broadcast 1 3\nask broadcast 2 2 3 / reshape row 1 6\nsplit 0 1 fill 9 / set 1 0 1\n",
            b"refused 8\narray 1 6 5 5 5 5 5 5\nrefused 2\nend 1 1 5\n",
        ),
    ];
    assert!(rt; written(rt.alloc(), &TABLE));
}

#[test]
fn scripts(rt: HostRuntime) {
    const TABLE: [(&[u8], &[u8]); 9] = [
        // a slice of a list of cubes
        (
            b"start 1 10 0 1 8 27 64 125 216 343 512 729\nask cut 0 2 5 1 / elements\n",
            b"array 1 3 8 27 64\nend 1 10 0 1 8 27 64 125 216 343 512 729\n",
        ),
        // exchanged axes, and refusals that change nothing
        (
            b"start 2 2 3 1 2 3 4 5 6\nkeep permute 2 1 0\nask shape\nask get 2 2 0\nkeep cut 2 0 _ 1\nkeep cut 0 0 4 1\nkeep permute 2 0 0\n",
            b"done\nshape 2 3 2\nsome 3\nrefused 1\nrefused 3\nrefused 4\nend 2 3 2 1 4 2 5 3 6\n",
        ),
        // steps of -2, and then of -1
        (
            b"start 1 6 0 1 2 3 4 5\nask cut 0 0 6 -2 / elements\nkeep cut 0 0 6 -2\nask cut 0 0 3 -1 / elements",
            b"array 1 3 5 3 1\ndone\narray 1 3 1 3 5\nend 1 3 5 3 1\n",
        ),
        // a cut that is kept, with both ends counted from the far end; then each kind of call on what is left
        (
            b"start 2 2 7 0 1 2 3 4 5 6 7 8 9 10 11 12 13\nkeep cut 1 -6 -1 3\nkeep permute 2 1 0\nask shape\nask permute 2 1 0 / cut 0 0 _ 1 / get 2 1 0\nwrite reverse / invert 1 / set 2 0 1 -9\nwrite swap 0 1 8\nsplit 1 1 swap 2 0 0 2 1 0 / fill 4\nask elements\nwrite assign 1 2 5 -6\nask reverse / reshape row 1 4\nreshape col 2 4 1\n",
            b"done\ndone\nshape 2 2 2\nsome 8\ndone\nrefused 2\ndone\narray 2 2 2 4 4 -9 4\ndone\narray 1 4 5 5 -6 -6\ndone\nend 2 4 1 5 5 -6 -6\n",
        ),
        // an index without one of its coordinates, and an index outside
        (
            b"start 2 2 2 1 2 3 4\nask get 1 0\nask get 2 1 1\nask get 2 0 2\nask get 3 0 0 0\nask get 0\n",
            b"none\nsome 4\nnone\nnone\nnone\nend 2 2 2 1 2 3 4\n",
        ),
        // a path is refused by its first refused step
        (
            b"start 1 3 7 8 9\nask cut 0 0 _ 1 / cut 1 0 _ 1 / cut 0 0 9 1 / shape\nask cut 0 0 9 1 / cut 1 0 _ 1 / shape\nask cut 0 0 _ 0 / shape\nask cut 0 -3 -1 1 / elements\n",
            b"refused 1\nrefused 3\nrefused 3\narray 1 2 7 8\nend 1 3 7 8 9\n",
        ),
        // an array without elements, and one without axes
        (
            b"start 2 3 0\nask elements\nkeep permute 2 1 0\nask get 2 0 0\nkeep cut 1 1 3 1\n",
            b"array 2 3 0\ndone\nnone\ndone\nend 2 0 2\n",
        ),
        (
            b"start 0 5\nask elements\nask get 0\nkeep permute 0\nkeep cut 0 0 _ 1\n",
            b"array 0 5\nsome 5\ndone\nrefused 1\nend 0 5\n",
        ),
        // numbers at the limits of their types
        (
            b"start 2 9223372036854775807 0\nkeep cut 0 0 9223372036854775807 -9223372036854775808\nask shape\nkeep cut 0 -9223372036854775808 _ 1\n",
            b"done\nshape 2 1 0\nrefused 3\nend 2 1 0\n",
        ),
    ];
    assert!(rt; written(rt.alloc(), &TABLE));
}

// The replies of each kind before memory was refused, and then no array.
#[test]
fn out_of_memory(rt: HostRuntime) {
    assert!(rt;
        tells(
            rt.alloc(),
            b"start 1 2 -1 10\nkeep invert 0\nask broadcast 1 3 / shape\nask insert 0 / shape\nask invert 0 / elements\nask get 1 1\nask get 0\nreserve 0 1152921504606846976\nask shape\n",
            b"done\nrefused 8\nshape 2 1 2\narray 1 2 -1 10\nsome -1\nnone\nout of memory\n",
            &[],
            2,
        )
    );
}
