//! A reader or a writer that remembers whether one of its calls failed, and whether and when it was flushed.

ghost use Rattle.std.specs.Prelude.{◌≡◌, ◌||◌, false, is_err};
ghost use Rattle.std.specs.Io.{ReadsAtMost, WritesAtMost};
ghost use Rattle.std.specs.Io.KnownBytes.{Keeps};
ghost use Rattle.nd_text.specs.declared.watched_streams.Flushes.TheVariants.{Never};
ghost use Rattle.nd_text.specs.WatchedReadersAndWriters.{watched_inner, watched_failed, watched_retried, watched_flushes, after_write, after_flush, write_failed, ReadsFromInner, WritesToInner};

use std::io;
use std::io::{Read, Write};

/// The flushes that a writer was asked for.
#[derive(Clone, Copy, Debug, PartialEq, Eq)]
pub enum Flushes {
    /// There was no flush.
    Never,
    /// There was one flush, with no failed call before it and no write after it.
    AtEnd,
    /// There was any other sequence of flushes.
    Other,
}

impl Flushes {
    fn after_write(self) -> Flushes
        ensures { result ≡ after_write self }
    {
        match self {
            Flushes::Never => Flushes::Never,
            _ => Flushes::Other,
        }
    }

    fn after_flush(self, failed: bool) -> Flushes
        ensures { result ≡ after_flush failed self }
    {
        match self {
            Flushes::Never if !failed => Flushes::AtEnd,
            _ => Flushes::Other,
        }
    }
}

/// A reader or a writer that remembers whether one of its calls failed, and whether another call came after that. Each
/// `Err` counts as a failure, `Interrupted` included, and so does a write that takes none of the bytes that it was
/// given.
///
/// The standard `flush` ensures only that the bytes stay, so a contract over any writer can't see it. `flushes`
/// is set together with the inner call, and lets contracts say when a flush is due.
#[derive(Drop)]
pub struct Watched<T> {
    inner: T,
    failed: bool,
    retried: bool,
    flushes: Flushes,
}

impl<T> Watched<T> {
    /// Returns a watched reader or writer, of which no call was made yet.
    pub fn new(inner: T) -> Self
        ensures inner { watched_inner result ≡ inner }
        ensures failed { watched_failed result ≡ false }
        ensures retried { watched_retried result ≡ false }
        ensures flushes { watched_flushes result ≡ Never }
    {
        Watched {
            inner,
            failed: false,
            retried: false,
            flushes: Flushes::Never,
        }
    }

    /// Returns the inner reader or writer.
    pub fn into_inner(self) -> T
        ensures { result ≡ watched_inner self }
    {
        let Watched { inner, .. } = self;
        inner
    }

    /// Returns whether some call of the reader or writer failed.
    pub fn failed(&self) -> bool
        ensures { result ≡ watched_failed self.now }
    {
        self.failed
    }
}

impl<R: Read> Read for Watched<R> {
    ghost remaining = { λ w. R.remaining (watched_inner w) };

    fn read(&mut self, buf: &mut [u8]) -> io::Result<usize>
        ensures bound { ReadsAtMost result buf.new }
        ensures bytes { ReadsFromInner R.remaining self.old self.new result buf.new }
        ensures failed { watched_failed self.new ≡ (watched_failed self.old || is_err result) }
        ensures retried { watched_retried self.new ≡ (watched_failed self.old || watched_retried self.old) }
        ensures flushes { watched_flushes self.new ≡ watched_flushes self.old }
    {
        self.retried = self.failed || self.retried;
        let result = self.inner.read(buf);
        if result.is_err() {
            self.failed = true;
        }
        result
    }
}

impl<W: Write> Write for Watched<W> {
    ghost contents = { λ w. W.contents (watched_inner w) };

    fn write(&mut self, buf: &[u8]) -> io::Result<usize>
        ensures bound { WritesAtMost result buf.now }
        ensures bytes { WritesToInner W.contents self.old self.new result buf.now }
        ensures failed { watched_failed self.new ≡ (watched_failed self.old || write_failed result buf.now) }
        ensures retried { watched_retried self.new ≡ (watched_failed self.old || watched_retried self.old) }
        ensures flushes { watched_flushes self.new ≡ after_write (watched_flushes self.old) }
    {
        self.retried = self.failed || self.retried;
        let result = self.inner.write(buf);
        self.flushes = self.flushes.after_write();
        match &result {
            Ok(0) if !buf.is_empty() => self.failed = true,
            Ok(_) => {}
            Err(_) => self.failed = true,
        }
        result
    }

    fn flush(&mut self) -> io::Result<()>
        ensures bytes { Keeps (W.contents (watched_inner self.old)) (W.contents (watched_inner self.new)) }
        ensures failed { watched_failed self.new ≡ (watched_failed self.old || is_err result) }
        ensures retried { watched_retried self.new ≡ (watched_failed self.old || watched_retried self.old) }
        ensures flushes { watched_flushes self.new ≡ after_flush (watched_failed self.old) (watched_flushes self.old) }
    {
        self.retried = self.failed || self.retried;
        let result = self.inner.flush();
        self.flushes = self.flushes.after_flush(self.failed);
        if result.is_err() {
            self.failed = true;
        }
        result
    }
}
