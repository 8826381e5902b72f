//! Readers and writers that keep the system's reason for a fault.

ghost use Rattle.std.specs.Prelude.{◌≡◌, IsErr, MatchResult, Ok};

use std::io;
use std::io::{Read, Write};

/// A reader or writer that keeps the last error of its reads, writes and flushes.
#[derive(Drop)]
pub struct Noted<T> {
    inner: T,
    error: Option<io::Error>,
}

impl<T> Noted<T> {
    /// A reader or writer that has not erred.
    pub fn new(inner: T) -> Noted<T>
        ensures { result.inner ≡ inner }
    {
        Noted { inner, error: None }
    }

    /// Its last error, if there was one.
    pub fn error(self) -> Option<io::Error>
    where
        T: Drop,
    {
        self.error
    }

    // Keeps an error, and passes on one of the same kind.
    fn note<X>(&mut self, done: io::Result<X>) -> io::Result<X>
        ensures inner { self.new.inner ≡ self.old.inner }
        ensures done { MatchResult result (λ x. done ≡ Ok x) (λ _. IsErr done) }
    {
        match done {
            Ok(x) => Ok(x),
            Err(e) => {
                let kind = e.kind();
                self.error = Some(e);
                Err(io::Error::from(kind))
            }
        }
    }
}

impl<R: Read> Read for Noted<R> {
    ghost remaining = { λ r. R.remaining r.inner };

    fn read(&mut self, buf: &mut [u8]) -> io::Result<usize> {
        let done = self.inner.read(buf);
        self.note(done)
    }
}

impl<W: Write> Write for Noted<W> {
    ghost contents = { λ w. W.contents w.inner };

    fn write(&mut self, buf: &[u8]) -> io::Result<usize> {
        let done = self.inner.write(buf);
        self.note(done)
    }

    fn flush(&mut self) -> io::Result<()> {
        let done = self.inner.flush();
        self.note(done)
    }
}
