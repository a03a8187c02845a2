//! Steps that are kept, and paths of them that are asked about.

use crate::run::output_checks::written;

#[test]
fn steps(rt: HostRuntime) {
    const TABLE: [(&[u8], &[u8]); 10] = [
        // one coordinate of an axis
        (
            b"start 2 2 3 1 2 3 4 5 6\nask collapse 1 2 / elements\nask collapse 2 9 / shape\nask collapse 1 3 / shape\nask index 0 1 / elements\nask index 2 9 / shape\nask index 0 2 / shape\nask remove 0 / elements\nask remove 2 / shape\n",
            b"array 2 2 1 3 6\nrefused 1\nrefused 2\narray 1 3 4 5 6\nrefused 1\nrefused 2\narray 1 3 1 2 3\nrefused 1\nend 2 2 3 1 2 3 4 5 6\n",
        ),
        // axes in another order or in the opposite direction
        (
            b"start 2 2 3 1 2 3 4 5 6\nask reverse / elements\nask get 1 0\nask swapaxes 0 1 / elements\nask swapaxes 0 2 / shape\nask swapaxes 2 0 / shape\nask invert 1 / elements\nask invert 2 / shape\nkeep invert 0\n",
            b"array 2 3 2 1 4 2 5 3 6\nnone\narray 2 3 2 1 4 2 5 3 6\nrefused 1\nrefused 1\narray 2 2 3 3 2 1 6 5 4\nrefused 1\ndone\nend 2 2 3 4 5 6 1 2 3\n",
        ),
        // axes that are inserted
        (
            b"start 2 2 3 1 2 3 4 5 6\nask insert 1 / elements\nask insert 2 / shape\nask insert 0 / remove 0 / elements\nask insert 3 / shape\n",
            b"array 3 2 1 3 1 2 3 4 5 6\nshape 3 2 3 1\narray 2 2 3 1 2 3 4 5 6\nrefused 1\nend 2 2 3 1 2 3 4 5 6\n",
        ),
        // diagonals
        (
            b"start 2 2 3 1 2 3 4 5 6\nask diag / elements\nask reverse / diag / elements\nkeep diag\n",
            b"array 1 2 1 5\narray 1 2 1 5\ndone\nend 1 2 1 5\n",
        ),
        (
            b"start 0 7\nask diag / elements\nkeep remove 0\nkeep reverse\n",
            b"array 1 1 7\nrefused 1\ndone\nend 0 7\n",
        ),
        // an axis of length 0 isn't removed
        (
            b"start 2 2 0\nkeep remove 1\nkeep index 0 2\nkeep collapse 1 0\nkeep remove 0\nkeep diag\n",
            b"refused 2\nrefused 2\nrefused 2\ndone\ndone\nend 1 0\n",
        ),
        (
            b"start 2 3 0\nkeep remove 1\nask diag / shape\nkeep invert 1\n",
            b"refused 2\nshape 1 0\ndone\nend 2 3 0\n",
        ),
        // an element by its index alone
        (
            b"start 1 4 1 2 3 4\nask index 0 2 / elements\nkeep index 0 2\nkeep index 0 0\n",
            b"array 0 3\ndone\nrefused 1\nend 0 3\n",
        ),
        // a path of steps, each of which continues from the result of the step before it
        (
            b"start 2 2 3 1 2 3 4 5 6\nask invert 0 / insert 1 / permute 3 2 0 1 / collapse 0 1 / elements\nask invert 0 / invert 0 / reverse / reverse / elements\nask diag / swapaxes 0 1 / collapse 0 9 / shape\n",
            b"array 3 1 2 1 5 2\narray 2 2 3 1 2 3 4 5 6\nrefused 1\nend 2 2 3 1 2 3 4 5 6\n",
        ),
        // steps that are kept, one after another
        (
            b"start 2 2 3 1 2 3 4 5 6\nkeep reverse\nkeep swapaxes 0 1\nkeep invert 1\nkeep insert 0\nask shape\nkeep remove 0\nkeep index 0 1\nask elements\nkeep collapse 0 0\nkeep remove 0\nkeep diag\n",
            b"done\ndone\ndone\ndone\nshape 3 1 2 3\ndone\ndone\narray 1 3 6 5 4\ndone\ndone\ndone\nend 1 1 6\n",
        ),
    ];
    assert!(rt; written(rt.alloc(), &TABLE));
}

#[test]
fn axes_in_number(rt: HostRuntime) {
    const TABLE: [(&[u8], &[u8]); 2] = [
        // thirty-two axes, which is the greatest number
        (
            b"start 32 1 1 1 1 1 1 1 1 1 1 1 1 1 1 1 1 1 1 1 1 1 1 1 1 1 1 1 1 1 1 1 1 5\nkeep insert 0\nkeep insert 33\nkeep insert 32\nask remove 31 / insert 0 / elements\n",
            b"refused 7\nrefused 1\nrefused 7\narray 32 1 1 1 1 1 1 1 1 1 1 1 1 1 1 1 1 1 1 1 1 1 1 1 1 1 1 1 1 1 1 1 1 5\nend 32 1 1 1 1 1 1 1 1 1 1 1 1 1 1 1 1 1 1 1 1 1 1 1 1 1 1 1 1 1 1 1 1 5\n",
        ),
        // four axes in another order
        (
            b"start 4 2 3 4 5 0 1 2 3 4 5 6 7 8 9 10 11 12 13 14 15 16 17 18 19 20 21 22 23 24 25 26 27 28 29 30 31 32 33 34 35 36 37 38 39 40 41 42 43 44 45 46 47 48 49 50 51 52 53 54 55 56 57 58 59 60 61 62 63 64 65 66 67 68 69 70 71 72 73 74 75 76 77 78 79 80 81 82 83 84 85 86 87 88 89 90 91 92 93 94 95 96 97 98 99 100 101 102 103 104 105 106 107 108 109 110 111 112 113 114 115 116 117 118 119\nask permute 4 3 0 1 2 / shape\nask permute 4 3 0 1 2 / get 4 4 1 2 3\n",
            b"shape 4 5 2 3 4\nsome 119\nend 4 2 3 4 5 0 1 2 3 4 5 6 7 8 9 10 11 12 13 14 15 16 17 18 19 20 21 22 23 24 25 26 27 28 29 30 31 32 33 34 35 36 37 38 39 40 41 42 43 44 45 46 47 48 49 50 51 52 53 54 55 56 57 58 59 60 61 62 63 64 65 66 67 68 69 70 71 72 73 74 75 76 77 78 79 80 81 82 83 84 85 86 87 88 89 90 91 92 93 94 95 96 97 98 99 100 101 102 103 104 105 106 107 108 109 110 111 112 113 114 115 116 117 118 119\n",
        ),
    ];
    assert!(rt; written(rt.alloc(), &TABLE));
}

#[test]
fn lists_of_slices(rt: HostRuntime) {
    const TABLE: [(&[u8], &[u8]); 8] = [
        // a slice of a list of cubes
        (
            b"start 1 10 0 1 8 27 64 125 216 343 512 729\nask slice 1 s 2 5 1 / elements\n",
            b"array 1 3 8 27 64\nend 1 10 0 1 8 27 64 125 216 343 512 729\n",
        ),
        // steps of -2, and then of -1
        (
            b"start 1 6 0 1 2 3 4 5\nkeep slice 1 s 0 6 -2\nask slice 1 s 0 3 -1 / elements\n",
            b"done\narray 1 3 1 3 5\nend 1 3 5 3 1\n",
        ),
        // the longest steps leave one element, and a slice ends after the axis
        (
            b"start 1 6 0 1 2 3 4 5\nask slice 1 s -6 _ -9223372036854775808 / elements\nask slice 1 s -6 _ 9223372036854775807 / elements\nask slice 1 s 0 7 1 / shape\n",
            b"array 1 1 5\narray 1 1 0\nrefused 3\nend 1 6 0 1 2 3 4 5\n",
        ),
        // a single element
        (
            b"start 1 4 1 2 3 4\nask slice 1 i 2 / elements\nkeep slice 1 i -4\n",
            b"array 0 3\ndone\nend 0 1\n",
        ),
        // slices, coordinates and new axes in one list
        (
            b"start 2 2 3 1 2 3 4 5 6\nask slice 2 s 0 _ 1 i -1 / elements\nask slice 3 n i 1 s 0 _ -2 / elements\nask slice 4 s 0 0 1 n s 1 2 1 n / elements\nkeep slice 2 s -1 _ 1 s 0 _ 2\n",
            b"array 1 2 3 6\narray 2 1 2 6 4\narray 4 0 1 1 1\ndone\nend 2 1 2 4 6\n",
        ),
        // a list that reads another number of axes than the array has, and the first item that doesn't fit
        (
            b"start 2 2 3 1 2 3 4 5 6\nask slice 0 / shape\nask slice 1 i 9 / shape\nask slice 4 n i 0 i 0 i 0 / shape\nask slice 2 i 2 s 0 4 1 / shape\nask slice 2 s 0 3 1 i 9 / shape\nask slice 3 i 1 n s 0 4 1 / shape\nask slice 2 s 0 _ 1 i -4 / shape\nask slice 2 s 0 _ 0 i 0 / shape\n",
            b"refused 5\nrefused 5\nrefused 5\nrefused 2\nrefused 3\nrefused 3\nrefused 2\nrefused 3\nend 2 2 3 1 2 3 4 5 6\n",
        ),
        // too many axes, which is told after a wrong number of items and before an item that doesn't fit
        (
            b"start 1 1 5\nask slice 33 n n n n n n n n n n n n n n n n n n n n n n n n n n n n n n n n n / shape\nask slice 34 n n n n n n n n n n n n n n n n n n n n n n n n n n n n n n n n n i 9 / shape\nask slice 34 n n n n n n n n n n n n n n n n n n n n n n n n n n n n n n n n n i 0 / shape\nkeep slice 34 s 0 9 1 n n n n n n n n n n n n n n n n n n n n n n n n n n n n n n n n n\n",
            b"refused 5\nrefused 7\nrefused 7\nrefused 7\nend 1 1 5\n",
        ),
        // an array without axes
        (
            b"start 0 7\nask slice 0 / elements\nkeep slice 2 n n\n",
            b"array 0 7\ndone\nend 2 1 1 7\n",
        ),
    ];
    assert!(rt; written(rt.alloc(), &TABLE));
}

#[test]
fn squeezed_and_inserted(rt: HostRuntime) {
    const TABLE: [(&[u8], &[u8]); 8] = [
        // the axes of length 1 are removed, except a last one
        (
            b"start 3 2 1 3 1 2 3 4 5 6\nkeep squeeze\n",
            b"done\nend 2 2 3 1 2 3 4 5 6\n",
        ),
        (
            b"start 2 1 1 7\nkeep squeeze\nkeep squeeze\n",
            b"done\ndone\nend 1 1 7\n",
        ),
        (b"start 0 7\nkeep squeeze\n", b"done\nend 0 7\n"),
        // broadcasts in a path to a question, and a broadcast that can't be kept
        (
            b"start 1 1 5\nkeep broadcast 1 3\nask broadcast 2 2 3 / elements\nask broadcast 1 0 / elements\nask broadcast 3 1099511627776 1099511627776 0 / shape\nask broadcast 0 / shape\n",
            b"refused 8\narray 2 2 3 5 5 5 5 5 5\narray 1 0\nrefused 8\nrefused 8\nend 1 1 5\n",
        ),
        (
            b"start 1 2 1 2\nask broadcast 1 3 / shape\nask broadcast 2 3 2 / elements\nask insert 1 / broadcast 2 2 3 / elements\nask broadcast 2 3 2 / reverse / index 0 1 / elements\n",
            b"refused 8\narray 2 3 2 1 2 1 2 1 2\narray 2 2 3 1 1 1 2 2 2\narray 1 3 2 2 2\nend 1 2 1 2\n",
        ),
        (
            b"start 2 2 3 1 2 3 4 5 6\nask broadcast 1 2 / shape\n",
            b"refused 8\nend 2 2 3 1 2 3 4 5 6\n",
        ),
        // too many lengths of a broadcast, in a path to a question and in a step that is kept
        (
            b"start 0 5\nask broadcast 33 1 1 1 1 1 1 1 1 1 1 1 1 1 1 1 1 1 1 1 1 1 1 1 1 1 1 1 1 1 1 1 1 1 / shape\nkeep broadcast 33 1 1 1 1 1 1 1 1 1 1 1 1 1 1 1 1 1 1 1 1 1 1 1 1 1 1 1 1 1 1 1 1 1\n",
            b"refused 7\nrefused 8\nend 0 5\n",
        ),
        // numbers at the limits of their types
        (
            b"start 1 1 5\nask broadcast 1 9223372036854775807 / cut 0 0 _ 2 / shape\nask broadcast 1 9223372036854775807 / cut 0 0 _ 2 / get 1 4611686018427387903\nask broadcast 1 9223372036854775807 / cut 0 0 _ 2 / get 1 4611686018427387904\nask broadcast 1 9223372036854775807 / slice 1 s 0 _ -9223372036854775808 / elements\nask broadcast 1 9223372036854775808 / shape\n",
            b"shape 1 4611686018427387904\nsome 5\nnone\narray 1 1 5\nrefused 8\nend 1 1 5\n",
        ),
    ];
    assert!(rt; written(rt.alloc(), &TABLE));
}
