//! Texts that are no script: the number of the first bad line is told.

use crate::run::output_checks::{parts_tell, tells};
use std::alloc::Global;

// Each of these scripts is bad at its first line.
const BAD_STARTS: [&[u8]; 21] = [
    b"",
    b"start",
    b"start 1 2 5",
    b"start 1 0 7",
    b"start 0",
    b"start 0 7 7",
    b"start 1 1 9223372036854775808",
    b"start 1 1 -9223372036854775809",
    b"start 1 18446744073709551616",
    b"start 1 -0",
    b"start 1 1 +5",
    b"start +1 1 5",
    b"start 1 1 -",
    b"start 1 1 5-",
    b"start 1 1 _",
    b"start 1 1 5\xff",
    b"start 1 1 5\x0c",
    b"start 2 9223372036854775807 2",
    b"start 33 1 1 1 1 1 1 1 1 1 1 1 1 1 1 1 1 1 1 1 1 1 1 1 1 1 1 1 1 1 1 1 1 1 5",
    b"Start 1 1 5",
    b"ask shape\nstart 1 1 5",
];

#[test]
fn bad_starts(rt: HostRuntime) {
    for text in &BAD_STARTS {
        assert!(rt; tells(rt.alloc(), text, b"bad line 1\n", &[], 1));
    }
}

// Each of these lines is bad.
const BAD_CALLS: &str = "start 1 1 5
keep
keep shape
keep other 0
shape
keep cut 0 0 1
keep cut 0 0 1 1 1
keep cut -1 0 1 1
keep cut 0 0 1 _
keep cut 0 _ 1 1
keep cut 0 9223372036854775808 1 1
keep cut 0 0 -9223372036854775809 1
keep permute
keep permute 2 0
keep permute 18446744073709551615 0
keep permute 1 0 0
ask
ask shape shape
ask cut 0 0 1 1 shape
ask / shape
ask cut 0 0 1 1 /
ask get 1
ask first 0
ask last shape
keep first
ask count
ask count 1 1
ask count _
count 1
ask reshape
ask reshape row
ask reshape 1 1
ask reshape col 2 1
ask reshape col 1 1 /
select
select 0
select 0 1
select 0 1 -1
select 0 0 0
select 0 18446744073709551615 0
keep select 0 0
removeindex 0
removeindex 0 0 0
removeindex 0 -1
keep removeindex 0 0
reshape
reshape row
reshape 1 1
reshape row 1
reshape row 1 1 1
reshape col 1 -1
reshape Row 1 1
reshape column 1 1
reshape row col 1 1
reshape row 18446744073709551615 1
keep reshape row 1 1
row 1 1
append
append 0
append 0 1
append 0 1 2 5
append 0 1 1 5 5
append -1 1 1 5
append 0 1 9223372036854775808
append 0 33 1 1 1 1 1 1 1 1 1 1 1 1 1 1 1 1 1 1 1 1 1 1 1 1 1 1 1 1 1 1 1 1 1 5
keep append 0 1 1 5
write append 0 1 1 5
push
push 0 1
push 0 0 5 5
ask push 0 0 5
reserve 0
reserve 0 18446744073709551616
reserve 0 0 0
concat
concat 0
concat 0 1
concat 0 1 1
concat 0 1 1 1
concat 0 2 1 1 5
concat 0 0 1 1 5
concat 0 1 1 1 5 5
concat -1 0
concat 0 -1
concat 0 18446744073709551616
concat 0 18446744073709551615 1 1 5
concat 0 4 1 1 5
concat 0 1 1 9223372036854775808
Concat 0 0
keep concat 0 0
stack
stack 0
stack 0 1
stack 0 2 0 1
stack 0 3 0 1
stack 0 0 0 1
stack 0 -1
stack 0 9223372036854775807 0 1
stack 0 1 33 1 1 1 1 1 1 1 1 1 1 1 1 1 1 1 1 1 1 1 1 1 1 1 1 1 1 1 1 1 1 1 1 1 5
write stack 0 0
ask stack 0 0";

// Each of these lines is bad: a write with a word too few or too many, or with a word that is no valid number.
const BAD_WRITES: &str = "fill 1
write
write fill
write fill _
write fill +1
write fill 9223372036854775808
write fill 1 1
write Fill 1
write / fill 1
write reverse fill 1
write reverse /
write shape
write set
write set 0
write set 1 0
write set 1 0 _
write set 1 -1 0
write set 1 0 9 9
write set 18446744073709551615 0 9
write swap
write swap 1 0
write swap 1 0 1
write swap 1 0 1 0 0
ask fill 1
write assign
write assign 1
write assign 1 1
write assign 1 1 5 5
write assign 1 1 _
write assign 1 9223372036854775808
split 0 0 assign 1 1 5
assign 1 1 5
ask assign 1 1 5
split
split 0
split 0 0
split 0 0 fill 1
split 0 0 fill 1 /
split 0 0 fill 1 fill 1
split 0 0 fill 1 / fill 1 /
split 0 -1 fill 1 / fill 1
split 0 fill 1 / fill 1
split 0 0 reverse / fill 1 / fill 1";

// Each of these lines is bad: a step with a word too few or too many, or with a word that is no valid number.
const BAD_STEPS: &str = "reverse
keep reverse 0
keep Reverse
ask reverse
ask reverse shape
ask reverse /
keep collapse 0
keep collapse 0 -1
keep collapse 0 0 0
keep index 0
keep index _ 0
keep index 0 0 0
keep swapaxes 0
keep swapaxes 0 18446744073709551616
keep swapaxes 0 0 0
keep invert
keep invert -1
keep invert 0 0
keep invert 18446744073709551616
keep insert
keep insert +1
keep insert 0 0
keep remove
keep remove _
keep remove 0 0
keep diag 0
keep diagonal
keep slice
keep slice -1
keep slice 1
keep slice 2 n
keep slice 9 n
keep slice 9 n n n n n n n n
keep slice 4 s 0 _ 1
keep slice 1 n n
keep slice 1 s 0 _
keep slice 1 s _ 0 1
keep slice 1 s 0 0 1 1
keep slice 1 i
keep slice 1 i _
keep slice 1 i 9223372036854775808
keep slice 1 0 1 1
keep slice 1 x
keep slice 18446744073709551615 n
keep squeeze 0
keep broadcast
keep broadcast 2 1
keep broadcast 1 -1";

// Returns whether each line of `calls` is the bad line of a script.
fn are_bad(alloc: Global, calls: &str) -> bool {
    for call in calls.lines() {
        let is_bad = parts_tell(
            alloc,
            &[
                b"\nstart 1 1 5\nask shape\n \n",
                call.as_bytes(),
                b"\nkeep\n",
            ],
            b"bad line 5\n",
            &[],
            1,
        );
        if !is_bad {
            return false;
        }
    }
    true
}

#[test]
fn bad_calls(rt: HostRuntime) {
    assert!(rt; are_bad(rt.alloc(), BAD_CALLS));
    assert!(rt; are_bad(rt.alloc(), BAD_STEPS));
    assert!(rt; are_bad(rt.alloc(), BAD_WRITES));
}

#[test]
fn no_line_with_words(rt: HostRuntime) {
    const TABLE: [(&[u8], &[u8]); 4] = [
        (b"\n", b"bad line 2\n"),
        (b" \t\r", b"bad line 2\n"),
        (b"\n\n \n", b"bad line 4\n"),
        (b"\n\n\n\n\n\n\n\n\n", b"bad line 10\n"),
    ];
    for (text, wanted) in &TABLE {
        assert!(rt; tells(rt.alloc(), text, wanted, &[], 1));
    }
}

// Other cases: a word too many, an empty line, numbers out of range, and other spellings of numbers.
const LINES: [(&[u8], &[u8], u8); 15] = [
    (b"start 1 1 5\nask get 1 0 0", b"bad line 2\n", 1),
    (b"start 1 1 5\nask cut 0 0 _ 1 elements", b"bad line 2\n", 1),
    (b"start 1 1 5\nfill 1", b"bad line 2\n", 1),
    (b"start 1 1 5\n\nkeep", b"bad line 3\n", 1),
    (b"start 1 0\nstart 1 0", b"bad line 2\n", 1),
    (b"\n\n", b"bad line 3\n", 1),
    (b"start 1 1 -9223372036854775809", b"bad line 1\n", 1),
    (b"start 1 1 +5", b"bad line 1\n", 1),
    (b"start 2 4294967296 4294967296", b"bad line 1\n", 1),
    (b"start 1 9223372036854775807 5", b"bad line 1\n", 1),
    (
        b"start 1 1 5\nask get 18446744073709551615 0",
        b"bad line 2\n",
        1,
    ),
    (b"start 1 1 5\nkeep invert -0", b"bad line 2\n", 1),
    (b"start 1 1 -0", b"end 1 1 0\n", 0),
    (b"start 1 1 007\r", b"end 1 1 7\n", 0),
    (
        b"start 2 9223372036854775807 0",
        b"end 2 9223372036854775807 0\n",
        0,
    ),
];

#[test]
fn lines_at_their_limits(rt: HostRuntime) {
    for (text, wanted, ended) in &LINES {
        assert!(rt; tells(rt.alloc(), text, wanted, &[], *ended));
    }
}
