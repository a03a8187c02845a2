//! Words that are no steps, and steps that are refused: the first bad or refused step is told.

use crate::npy::steps::step_checks::{NUMBERED, are_bad, refuse};

/// The words, the word at which the bad step should begin, and the error's text.
const BAD: [(&[u8], &[u8], &str); 16] = [
    (
        b"flip",
        b"flip",
        "step 1: no such step; --help lists the steps",
    ),
    (
        b"ask shape",
        b"ask",
        "step 1: no such step; --help lists the steps",
    ),
    (
        b"reverse / diag",
        b"/",
        "step 2: no such step; --help lists the steps",
    ),
    (
        b"reverse Diag",
        b"Diag",
        "step 2: no such step; --help lists the steps",
    ),
    (
        b"squeeze diag 0",
        b"0",
        "step 3: no such step; --help lists the steps",
    ),
    (
        b"cut 0 1 2",
        b"cut",
        "step 1: cut takes an axis, a start, an end or _, and a step",
    ),
    (
        b"cut 0 _ 2 1",
        b"cut",
        "step 1: cut takes an axis, a start, an end or _, and a step",
    ),
    (
        b"diag index -1 0",
        b"index",
        "step 2: index takes an axis and an index",
    ),
    (
        b"diag permute 2 0",
        b"permute",
        "step 2: permute takes a count, and as many axes",
    ),
    (b"invert", b"invert", "step 1: invert takes an axis"),
    (
        b"slice 1 x 0",
        b"slice",
        "step 1: slice takes a count, and as many of s START END STEP, i INDEX and n",
    ),
    (
        b"diag select 0 2 1",
        b"select",
        "step 2: select takes an axis, a count, and as many indexes",
    ),
    (
        b"select x",
        b"select",
        "step 1: select takes an axis, a count, and as many indexes",
    ),
    (
        b"reshape 2 6",
        b"reshape",
        "step 1: reshape takes a count, and as many lengths",
    ),
    (
        b"select 0 1 0 3",
        b"3",
        "step 2: no such step; --help lists the steps",
    ),
    (
        b"broadcast 18446744073709551615 1",
        b"broadcast",
        "step 1: broadcast takes a count, and as many lengths",
    ),
];

#[test]
fn bad_words(rt: HostRuntime) {
    assert!(rt; are_bad(rt.alloc(), &BAD));
}

/// The words, and the error's text for the array of shape [2, 3, 4].
const REFUSED: [(&[u8], &str); 16] = [
    (b"invert 3", "step 1: the array has no such axis"),
    (b"index 0 1 invert 2", "step 2: the array has no such axis"),
    (b"reverse index 0 4", "step 2: the axis has no such index"),
    (b"cut 0 0 3 1", "step 1: the slice doesn't fit its axis"),
    (b"cut 0 0 1 0", "step 1: the slice doesn't fit its axis"),
    (
        b"permute 3 0 1 1",
        "step 1: the list must name each axis once",
    ),
    (
        b"diag slice 2 n n",
        "step 2: the list must have a slice or an index for each axis",
    ),
    (
        b"slice 36 i 0 i 0 i 0 n n n n n n n n n n n n n n n n n n n n n n n n n n n n n n n n n",
        "step 1: the array would have more than 32 axes",
    ),
    (b"select 3 1 0", "step 1: the array has no such axis"),
    (b"diag select 0 2 1 2", "step 2: the axis has no such index"),
    (
        b"reshape 2 4 7",
        "step 1: the lengths don't make as many elements as there are",
    ),
    (
        b"reverse reshape 2 4294967296 4294967296 invert 9",
        "step 2: the array would be too large",
    ),
    (
        b"reshape 34 1 1 1 1 1 1 1 1 1 1 1 1 1 1 1 1 1 1 1 1 1 1 1 1 1 1 1 1 1 1 1 2 3 4",
        "step 1: the array would have more than 32 axes",
    ),
    (
        b"select 0 1 1 invert 3 reshape 1 12",
        "step 2: the array has no such axis",
    ),
    (
        b"broadcast 3 2 4 4 reshape 1 3",
        "step 1: there is no broadcast to these lengths",
    ),
    (
        b"broadcast 3 2 4 4 invert 9",
        "step 1: there is no broadcast to these lengths",
    ),
];

#[test]
fn refused_steps(rt: HostRuntime) {
    assert!(rt; refuse(rt.alloc(), NUMBERED, &REFUSED));
}
