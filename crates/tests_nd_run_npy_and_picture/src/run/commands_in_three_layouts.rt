//! Each call on three layouts of the same array: the replies and the array at the end are the same.

use crate::run::output_checks::parts_tell;

// The table 1 2 3 / 4 5 6 in row-major order, with its axes exchanged, and as a part of a larger table with steps 2 and
// -2, each with the replies until it is there.
const STARTS: [(&[u8], &[u8]); 3] = [
    (b"start 2 2 3 1 2 3 4 5 6\n", b""),
    (b"start 2 3 2 1 4 2 5 3 6\nkeep reverse\n", b"done\n"),
    (
        b"start 2 4 6 0 0 0 0 0 0 0 0 0 0 0 0 0 0 0 0 0 0 0 0 0 0 0 0\nkeep slice 2 s 0 _ 2 s 0 _ -2\nwrite assign 2 2 3 1 2 3 4 5 6\n",
        b"done\ndone\n",
    ),
];

// Calls that follow each start, and what is written for them.
const CALLS: [(&[u8], &[u8]); 10] = [
    // each question, and each step in a path to a question
    (
        b"ask shape\nask cut 1 0 _ 2 / elements\nask slice 3 i -1 n s 0 _ -1 / elements\nask collapse 1 2 / elements\nask index 0 1 / elements\nask permute 2 1 0 / elements\nask reverse / first\nask swapaxes 0 1 / get 2 2 0\nask invert 1 / elements\n",
        b"shape 2 2 3\narray 2 2 2 1 3 4 6\narray 2 1 3 6 5 4\narray 2 2 1 3 6\narray 1 3 4 5 6\narray 2 3 2 1 4 2 5 3 6\nsome 1\nsome 3\narray 2 2 3 3 2 1 6 5 4\nend 2 2 3 1 2 3 4 5 6\n",
    ),
    (
        b"ask insert 1 / shape\nask remove 0 / elements\nask cut 0 1 _ 1 / squeeze / last\nask diag / elements\nask broadcast 3 2 2 3 / count 4\nask equal 2 2 3 1 2 3 4 5 6\nask invert 0 / equal 2 2 3 1 2 3 4 5 6\nask reshape row 2 3 2\nask reshape col 2 3 2\nask reshape row 1 5\n",
        b"shape 3 2 1 3\narray 1 3 1 2 3\nsome 6\narray 1 2 1 5\nnumber 2\ntrue\nfalse\narray 2 3 2 1 2 3 4 5 6\narray 2 3 2 1 5 4 3 2 6\nrefused 5\nend 2 2 3 1 2 3 4 5 6\n",
    ),
    // each step that is kept
    (
        b"keep invert 0\nkeep cut 1 0 _ -2\nkeep insert 0\nkeep permute 3 2 0 1\nkeep squeeze\nkeep swapaxes 0 1\nask elements\nkeep slice 3 s 0 _ 1 n i 0\nkeep reverse\nkeep collapse 0 0\nask elements\nkeep diag\nkeep broadcast 1 1\nkeep index 0 0\nkeep remove 0\n",
        b"done\ndone\ndone\ndone\ndone\ndone\narray 2 2 2 6 4 3 1\ndone\ndone\ndone\narray 2 1 2 6 3\ndone\nrefused 8\ndone\nrefused 1\nend 0 6\n",
    ),
    (b"keep remove 1\n", b"done\nend 1 2 1 4\n"),
    // each write
    (
        b"write cut 1 0 _ 2 / fill 9\nask elements\nwrite reverse / assign 2 3 1 7 8 0\nwrite index 0 1 / set 1 2 5\nwrite invert 1 / swap 2 0 0 2 1 0\nwrite broadcast 2 2 3 / fill 1\n",
        b"done\narray 2 2 3 9 2 9 9 5 9\ndone\ndone\ndone\nrefused 8\nend 2 2 3 7 8 5 7 8 0\n",
    ),
    (
        b"split 1 1 fill 0 / assign 1 2 8 9\nsplit 0 1 set 2 0 1 4 / swap 2 0 0 2 0 2\nsplit 0 3 fill 1 / fill 1\n",
        b"done\ndone\nrefused 2\nend 2 2 3 0 4 9 9 8 0\n",
    ),
    // calls that make another array, or lengthen or shorten the array
    (
        b"reshape row 1 5\nreshape col 2 3 2\nask elements\nreshape row 1 6\n",
        b"refused 5\ndone\narray 2 3 2 1 5 4 3 2 6\ndone\nend 1 6 1 5 4 3 2 6\n",
    ),
    (
        b"append 1 2 2 1 7 8\npush 0 1 4 9 9 9 9\nreserve 0 2\nappend 0 2 0 4\npush 1 1 2 0 0\n",
        b"done\ndone\ndone\ndone\nrefused 5\nend 2 3 4 1 2 3 7 4 5 6 8 9 9 9 9\n",
    ),
    (
        b"select 1 3 2 0 2\nask elements\nremoveindex 0 0\nselect 0 1 1\nremoveindex 1 1\n",
        b"done\narray 2 2 3 3 1 3 6 4 6\ndone\nrefused 2\ndone\nend 2 1 2 6 6\n",
    ),
    (
        b"concat 1 1 2 2 2 7 8 9 0\nconcat 0 1 2 1 3 0 0 0\nstack 1 1 2 2 5 0 1 2 3 4 5 6 7 8 9\nconcat 1 1 3 2 1 5 9 9 9 9 9 8 8 8 8 8\n",
        b"done\nrefused 5\ndone\ndone\nend 3 2 3 5 1 2 3 7 8 0 1 2 3 4 9 9 9 9 9 4 5 6 9 0 5 6 7 8 9 8 8 8 8 8\n",
    ),
];

#[test]
fn layouts_of_one_array(rt: HostRuntime) {
    for (calls, wanted) in &CALLS {
        for (start, before) in &STARTS {
            assert!(rt; parts_tell(rt.alloc(), &[start, calls], before, wanted, 0));
        }
    }
}
