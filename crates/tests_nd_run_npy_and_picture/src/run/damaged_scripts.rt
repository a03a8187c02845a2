//! A script that is cut after each of its bytes, and the script with each byte in turn replaced by one that stands in
//! no word.

use crate::run::output_checks::{is_told, run_text, tells};
use std::alloc::Global;

// For each line: what is written if the line is bad, the line, its reply, and what is written of the array after it.
const LINES: [(&[u8], &[u8], &[u8], &[u8]); 8] = [
    (
        b"bad line 1\n",
        b"start 2 2 3 1 2 3 4 5 6",
        b"",
        b"end 2 2 3 1 2 3 4 5 6\n",
    ),
    (
        b"bad line 2\n",
        b"ask reverse / elements",
        b"array 2 3 2 1 4 2 5 3 6\n",
        b"end 2 2 3 1 2 3 4 5 6\n",
    ),
    (
        b"bad line 3\n",
        b"ask broadcast 1 2 / shape",
        b"refused 8\n",
        b"end 2 2 3 1 2 3 4 5 6\n",
    ),
    (
        b"bad line 4\n",
        b"ask get 1 0",
        b"none\n",
        b"end 2 2 3 1 2 3 4 5 6\n",
    ),
    (
        b"bad line 5\n",
        b"append 0 2 1 2 9 9",
        b"refused 5\n",
        b"end 2 2 3 1 2 3 4 5 6\n",
    ),
    (
        b"bad line 6\n",
        b"append 5 2 1 3 7 8 9",
        b"refused 1\n",
        b"end 2 2 3 1 2 3 4 5 6\n",
    ),
    (
        b"bad line 7\n",
        b"push 0 1 3 7 8 9",
        b"done\n",
        b"end 2 3 3 1 2 3 4 5 6 7 8 9\n",
    ),
    (
        b"bad line 8\n",
        b"keep invert 0",
        b"done\n",
        b"end 2 3 3 7 8 9 4 5 6 1 2 3\n",
    ),
];

// The last line, whose number is greater than the size of any shape.
const LAST: &[u8] = b"reserve 0 18446744073709551615";

// Returns whether the script writes what it should if its last line asks for room: for so little that it is granted, or
// for more, which may be refused.
fn reserves_or_not(alloc: Global, text: &[u8], replies: &[u8], little: bool) -> bool {
    let (written, ended) = run_text(alloc, text);
    if ended == 2 && !little {
        is_told(&written, ended, replies, b"out of memory\n", 2)
    } else {
        is_told(
            &written,
            ended,
            replies,
            b"done\nend 2 3 3 7 8 9 4 5 6 1 2 3\n",
            0,
        )
    }
}

// Appends a line to a script byte by byte. Returns whether the line is bad as long as it is cut short.
fn cut_line(alloc: Global, text: &mut Vec<u8>, line: &[u8], bad: &[u8]) -> bool {
    for at in 0..line.len() {
        if text.push(line[at]).is_err() {
            return false;
        }
        if at < line.len() - 1 && !tells(alloc, text, bad, &[], 1) {
            return false;
        }
    }
    true
}

// Returns whether the last line of a script, cut to `at + 1` bytes, is bad, asks for little room, or for more.
fn last_is_right(alloc: Global, text: &[u8], replies: &[u8], at: usize) -> bool {
    if at < 10 {
        return tells(alloc, text, b"bad line 9\n", &[], 1);
    }
    at.saturating_add(1) >= LAST.len() || reserves_or_not(alloc, text, replies, at < 14)
}

// Appends the last line to a script byte by byte. Its number is valid however short it is cut.
fn cut_last_line(alloc: Global, text: &mut Vec<u8>, replies: &[u8]) -> bool {
    for at in 0..LAST.len() {
        if text.push(LAST[at]).is_err() || !last_is_right(alloc, text, replies, at) {
            return false;
        }
    }
    true
}

// Returns whether a whole script writes what it should without a line feed at its end, and with one, which is then
// appended to `text`. The last reply comes after the other replies.
fn whole(
    alloc: Global,
    text: &mut Vec<u8>,
    replies: &mut Vec<u8>,
    reply: &[u8],
    end: &[u8],
) -> bool {
    replies.extend_from_slice(reply).is_ok()
        && tells(alloc, text, replies, end, 0)
        && text.push(b'\n').is_ok()
        && tells(alloc, text, replies, end, 0)
}

// A line that is cut short is bad, since none of these lines can end earlier. A whole line is valid, with or without
// its line feed. The number of the last line is valid however short it is cut: it is room that is granted, room that
// may be refused, or more than any shape has.
#[test]
fn cut_after_each_byte(rt: HostRuntime) {
    let alloc = rt.alloc();
    let mut text = Vec::new(alloc);
    let mut replies = Vec::new(alloc);
    for (bad, line, reply, end) in &LINES {
        assert!(rt;
            cut_line(alloc, &mut text, line, bad)
                && whole(alloc, &mut text, &mut replies, reply, end)
        );
    }
    assert!(rt;
        cut_last_line(alloc, &mut text, &replies)
            && whole(
                alloc,
                &mut text,
                &mut replies,
                b"refused 6\n",
                b"end 2 3 3 7 8 9 4 5 6 1 2 3\n",
            )
    );
}

// Returns the script of all lines, or `None` if memory is refused.
fn script(alloc: Global) -> Option<Vec<u8>> {
    let mut text = Vec::new(alloc);
    for (_, line, _, _) in &LINES {
        text.extend_from_slice(line).ok()?;
        text.push(b'\n').ok()?;
    }
    text.extend_from_slice(LAST).ok()?;
    Some(text)
}

// Returns whether the script is bad, as `bad` says, if the byte at `place` is replaced by 255.
fn is_damaged(alloc: Global, text: &[u8], place: usize, bad: &[u8]) -> bool {
    let Ok(mut damaged) = Vec::from_slice(alloc, text) else {
        return false;
    };
    if let Some(byte) = damaged.get_mut(place) {
        *byte = 255;
    }
    tells(alloc, &damaged, bad, &[], 1)
}

// Returns whether the script is so damaged at each of the places from `from` on, as many as `count`.
fn all_damaged(alloc: Global, text: &[u8], from: usize, count: usize, bad: &[u8]) -> bool {
    for at in 0..count {
        if !is_damaged(alloc, text, from.saturating_add(at), bad) {
            return false;
        }
    }
    true
}

// If any byte of a line, a blank or a line feed too, is replaced by 255, this byte is part of a word of the line.
fn no_word_has_it(alloc: Global) -> bool {
    let Some(text) = script(alloc) else {
        return false;
    };
    let mut from = 0usize;
    for (bad, line, _, _) in &LINES {
        let count = line.len() + 1;
        if !all_damaged(alloc, &text, from, count, bad) {
            return false;
        }
        from = from.saturating_add(count);
    }
    all_damaged(alloc, &text, from, LAST.len(), b"bad line 9\n")
}

#[test]
fn each_byte_damaged(rt: HostRuntime) {
    assert!(rt; no_word_has_it(rt.alloc()));
}
