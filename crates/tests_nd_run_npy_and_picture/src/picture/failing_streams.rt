//! Readers and writers that fail.

use nd_picture::Watched;
use nd_picture::program::drive;
use std::io;
use std::io::{ErrorKind, Read, Write};

// A reader that gives one byte in each call, and fails at the byte `cut`.
#[derive(Drop)]
struct Flaky<'a> {
    text: &'a [u8],
    at: usize,
    cut: usize,
}

impl<'a> Read for Flaky<'a> {
    fn read(&mut self, buf: &mut [u8]) -> io::Result<usize> {
        if self.at == self.cut {
            return Err(io::Error::from(ErrorKind::BrokenPipe));
        }
        match (self.text.get(self.at), buf.first_mut()) {
            (Some(byte), Some(place)) => {
                *place = *byte;
                self.at = self.at.saturating_add(1);
                Ok(1)
            }
            _ => Ok(0),
        }
    }
}

// A writer that takes no byte and fails.
#[derive(Drop)]
struct Full;

impl Write for Full {
    fn write(&mut self, _buf: &[u8]) -> io::Result<usize> {
        Err(io::Error::from(ErrorKind::BrokenPipe))
    }

    fn flush(&mut self) -> io::Result<()> {
        Ok(())
    }
}

const IMAGE: &[u8] = b"P5 2 1 9 \x01\x02";

#[test]
fn a_read_that_fails(rt: HostRuntime) {
    for cut in 0..12 {
        let mut input = Watched::new(Flaky {
            text: IMAGE,
            at: 0,
            cut,
        });
        let mut output = Watched::new(Vec::new(rt.alloc()));
        let mut errors = Watched::new(Vec::new(rt.alloc()));
        let status = drive(rt.alloc(), b"flop", &mut input, &mut output, &mut errors);
        assert!(rt; status == 3);
        assert!(rt; output.into_inner().as_slice() == b"".as_slice());
        assert!(rt;
            errors.into_inner().as_slice() == b"nd_picture_program: a read failed\n".as_slice()
        );
    }
}

#[test]
fn steps_that_are_none(rt: HostRuntime) {
    let mut input = Watched::new(Flaky {
        text: IMAGE,
        at: 0,
        cut: 0,
    });
    let mut output = Watched::new(Vec::new(rt.alloc()));
    let mut errors = Watched::new(Vec::new(rt.alloc()));
    let status = drive(rt.alloc(), b"turn", &mut input, &mut output, &mut errors);
    assert!(rt; status == 1);
    assert!(rt;
        errors.into_inner().as_slice()
            == b"nd_picture_program: step 1: 'turn': no such step; --help lists the steps\n".as_slice()
    );
}

#[test]
fn a_write_that_fails(rt: HostRuntime) {
    let mut output = Watched::new(Full);
    let mut errors = Watched::new(Vec::new(rt.alloc()));
    let status = drive(
        rt.alloc(),
        b"",
        &mut Watched::new(IMAGE),
        &mut output,
        &mut errors,
    );
    assert!(rt; status == 3);
    assert!(rt;
        errors.into_inner().as_slice() == b"nd_picture_program: a write failed\n".as_slice()
    );
    let mut output = Watched::new(Vec::new(rt.alloc()));
    let mut errors = Watched::new(Full);
    let status = drive(
        rt.alloc(),
        b"turn",
        &mut Watched::new(IMAGE),
        &mut output,
        &mut errors,
    );
    assert!(rt; status == 3);
    assert!(rt; output.into_inner().as_slice() == b"".as_slice());
}
