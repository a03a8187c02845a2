//! Readers and writers that take or give little, or fail.

use crate::run::output_checks::{is_told, status};
use nd_run::Watched;
use std::alloc::Global;
use std::io;
use std::io::{ErrorKind, Read, Write};

// A writer that takes at most three bytes in a call, and counts its calls. The call with the number `bad_call` fails:
// with the error `kind`, or, if there is none, by taking no byte. If `bad_flush` is true each flush fails too.
#[derive(Drop)]
struct Choppy {
    got: Vec<u8>,
    calls: u64,
    flushes: u64,
    bad_call: u64,
    kind: Option<ErrorKind>,
    bad_flush: bool,
}

impl Write for Choppy {
    fn write(&mut self, buf: &[u8]) -> io::Result<usize> {
        self.calls = self.calls.saturating_add(1);
        if self.calls == self.bad_call {
            return match self.kind {
                Some(kind) => Err(io::Error::from(kind)),
                None => Ok(0),
            };
        }
        let most = buf.len().min(3);
        self.got.extend_from_slice(&buf[..most])?;
        Ok(most)
    }

    fn flush(&mut self) -> io::Result<()> {
        self.flushes = self.flushes.saturating_add(1);
        if self.bad_flush {
            return Err(io::Error::from(ErrorKind::BrokenPipe));
        }
        Ok(())
    }
}

fn make_choppy(alloc: Global, bad_call: u64, kind: Option<ErrorKind>, bad_flush: bool) -> Choppy {
    Choppy {
        got: Vec::new(alloc),
        calls: 0,
        flushes: 0,
        bad_call,
        kind,
        bad_flush,
    }
}

const TEXT: &[u8] =
    b"start 2 2 3 1 2 3 4 5 6\nask reverse / elements\nask broadcast 1 2 / shape\nask get 1 0\nappend 0 2 1 2 9 9\nappend 5 2 1 3 7 8 9\npush 0 1 3 7 8 9\nkeep invert 0\nreserve 0 18446744073709551615\n";

const WRITTEN: &[u8] =
    b"array 2 3 2 1 4 2 5 3 6\nrefused 8\nnone\nrefused 5\nrefused 1\ndone\ndone\nrefused 6\nend 2 3 3 7 8 9 4 5 6 1 2 3\n";

// Runs the script with this writer. Returns the status, whether the writer failed, and the writer.
fn driven(alloc: Global, choppy: Choppy) -> (u8, bool, Choppy) {
    let mut output = Watched::new(choppy);
    let ended = status(alloc, &mut Watched::new(TEXT), &mut output);
    let failed = output.failed();
    (ended, failed, output.into_inner())
}

// Returns whether the whole script is written in short writes, and flushed once, and the status tells of a bad flush.
fn written_short(alloc: Global, bad_flush: bool) -> bool {
    let (ended, failed, inside) = driven(alloc, make_choppy(alloc, 0, None, bad_flush));
    let status = if bad_flush { 3 } else { 0 };
    is_told(&inside.got, ended, WRITTEN, &[], status) && failed == bad_flush && inside.flushes == 1
}

#[test]
fn short_writes_and_one_flush(rt: HostRuntime) {
    assert!(rt; written_short(rt.alloc(), false) && written_short(rt.alloc(), true));
}

// Returns the number of calls that the whole script makes, or 0 if it fails.
fn whole_calls(alloc: Global) -> u64 {
    let (ended, _, inside) = driven(alloc, make_choppy(alloc, 0, None, false));
    if ended == 0 { inside.calls } else { 0 }
}

// Returns whether nothing is written after the call with the number `bad_call`, which fails.
fn stops(alloc: Global, bad_call: u64, kind: Option<ErrorKind>) -> bool {
    let (ended, failed, inside) = driven(alloc, make_choppy(alloc, bad_call, kind, false));
    WRITTEN.starts_with(&inside.got)
        && ended == 3
        && failed
        && inside.calls == bad_call
        && inside.flushes == 0
}

// Returns whether nothing is written after any call that fails so.
fn all_stop(alloc: Global, kind: Option<ErrorKind>) -> bool {
    let calls = whole_calls(alloc);
    for bad_call in 1..=calls {
        if !stops(alloc, bad_call, kind) {
            return false;
        }
    }
    calls > 0
}

#[test]
fn nothing_after_a_failed_write(rt: HostRuntime) {
    assert!(rt; all_stop(rt.alloc(), None));
    assert!(rt; all_stop(rt.alloc(), Some(ErrorKind::Interrupted)));
    assert!(rt; all_stop(rt.alloc(), Some(ErrorKind::BrokenPipe)));
}

// A reader that gives one byte in each call, and fails at the byte `cut`.
#[derive(Drop)]
struct Flaky<'a> {
    text: &'a [u8],
    at: usize,
    cut: usize,
}

impl<'a> Read for Flaky<'a> {
    fn read(&mut self, buf: &mut [u8]) -> io::Result<usize> {
        if self.at == self.cut {
            self.cut = usize::MAX;
            return Err(io::Error::from(ErrorKind::Interrupted));
        }
        match (self.text.get(self.at), buf.first_mut()) {
            (Some(byte), Some(place)) => {
                *place = *byte;
                self.at = self.at.saturating_add(1);
                Ok(1)
            }
            _ => Ok(0),
        }
    }
}

// Runs the script with a reader that fails at the byte `cut`. Returns what is written, the status, and whether the
// reader failed.
fn read_until(alloc: Global, cut: usize) -> (Vec<u8>, u8, bool) {
    let mut input = Watched::new(Flaky {
        text: TEXT,
        at: 0,
        cut,
    });
    let mut output = Watched::new(Vec::new(alloc));
    let ended = status(alloc, &mut input, &mut output);
    (output.into_inner(), ended, input.failed())
}

// Returns whether a failed read is told where the reader fails at the byte `cut`, and otherwise all is written.
fn read_is_told(alloc: Global, cut: usize) -> bool {
    let (written, ended, failed) = read_until(alloc, cut);
    if cut <= TEXT.len() {
        failed && is_told(&written, ended, b"read failed\n", &[], 3)
    } else {
        !failed && is_told(&written, ended, WRITTEN, &[], 0)
    }
}

#[test]
fn a_failed_read(rt: HostRuntime) {
    for cut in 0..TEXT.len() + 3 {
        assert!(rt; read_is_told(rt.alloc(), cut));
    }
}
