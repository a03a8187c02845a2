//! A reader that gives a few bytes at a time and may fail, a writer that fails, and what is written to a vector.

use nd_text::Watched;
use std::io;
use std::io::{ErrorKind, Read, Write};

/// A reader that gives at most `most` bytes in each call, and fails at the byte `cut`.
#[derive(Drop)]
pub(crate) struct Trickle<'a> {
    /// The bytes that are still to come.
    pub(crate) rest: &'a [u8],
    /// How many bytes a call gives at most.
    pub(crate) most: usize,
    /// How many bytes come before a call fails.
    pub(crate) cut: usize,
}

impl<'a> Trickle<'a> {
    /// Returns a reader of these bytes that gives at most `most` of them in each call, and doesn't fail.
    pub(crate) fn of(bytes: &'a [u8], most: usize) -> Trickle<'a> {
        Trickle {
            rest: bytes,
            most,
            cut: usize::MAX,
        }
    }
}

impl<'a> Read for Trickle<'a> {
    fn read(&mut self, buf: &mut [u8]) -> io::Result<usize> {
        if self.cut == 0 {
            return Err(io::Error::from(ErrorKind::BrokenPipe));
        }
        let count = buf.len().min(self.most).min(self.rest.len()).min(self.cut);
        buf[..count].copy_from_slice(&self.rest[..count]);
        self.rest = &self.rest[count..];
        self.cut -= count;
        Ok(count)
    }
}

/// A writer that takes no byte and fails.
#[derive(Drop)]
pub(crate) struct Full;

impl Write for Full {
    fn write(&mut self, _buf: &[u8]) -> io::Result<usize> {
        Err(io::Error::from(ErrorKind::BrokenPipe))
    }

    fn flush(&mut self) -> io::Result<()> {
        Ok(())
    }
}

/// Returns whether exactly these bytes were written to the vector.
pub(crate) fn has_written(output: Watched<Vec<u8>>, bytes: &[u8]) -> bool {
    output.into_inner().as_slice() == bytes
}
