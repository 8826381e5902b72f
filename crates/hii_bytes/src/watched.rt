//! Readers and writers that remember whether they failed.
ghost use Rattle.std.specs.Prelude.{◌≡◌, ◌≤◌, ◌<◌, ℕ, [], IsErr, OnErr, IfOk, OnOk, true, false, length, is_err};
ghost use Rattle.std.specs.Io.{ReadsAtMost, WritesAtMost};
ghost use Rattle.std.specs.Io.Buffered.{writer_buffer, writer_contents};
ghost use Rattle.std.specs.Io.KnownBytes.{ReadConsumes, WriteAppends, Keeps};
ghost use Rattle.hii_bytes.specs.Watching.{inner_of, has_failed, has_passed_on, saturating_sum};
ghost use Rattle.hii_bytes.specs.code.Writing.{taken_of};

use std::io::{BufWriter, Error, ErrorKind, Read, Result, Write};

/// A reader or writer that remembers whether a read, a write or a flush was a fault: an error of any kind, or a write of some
/// bytes that took none. From then on each of them is a fault. Of a writer it remembers, too, whether what it took was passed on.
#[derive(Drop)]
pub struct Watched<T> {
    inner: T,
    is_failed: bool,
    is_passed_on: bool,
    taken: u64,
}

impl<T> Watched<T> {
    /// Watches a reader or writer, as one that has not failed and has taken no bytes, and may hold back others.
    pub fn new(inner: T) -> Watched<T>
        ensures inner { inner_of result ≡ inner }
        ensures sound { has_failed result ≡ false }
        ensures held { has_passed_on result ≡ false }
        ensures none_taken { taken_of result ≡ 0 }
    {
        Watched {
            inner,
            is_failed: false,
            is_passed_on: false,
            taken: 0,
        }
    }

    /// Whether a read, a write or a flush erred, or a write of some bytes took none.
    pub fn failed(&self) -> bool
        ensures { result ≡ has_failed self.now }
    {
        self.is_failed
    }

    /// Whether a flush was no fault, and the writer took nothing since. So a writer that holds bytes back holds none.
    pub fn has_passed_on(&self) -> bool
        ensures { result ≡ has_passed_on self.now }
    {
        self.is_passed_on
    }

    /// The reader or writer that is watched.
    pub fn into_inner(self) -> T
        ensures { result ≡ inner_of self }
    {
        self.inner
    }

    /// How many bytes the writes since the last `restart` took.
    pub fn taken(&self) -> u64
        ensures { result ≡ taken_of self.now }
    {
        self.taken
    }

    /// Counts from 0 again.
    pub fn restart(&mut self)
        ensures inner { inner_of self.new ≡ inner_of self.old }
        ensures failed { has_failed self.new ≡ has_failed self.old }
        ensures passed_on { has_passed_on self.new ≡ has_passed_on self.old }
        ensures none_taken { taken_of self.new ≡ 0 }
    {
        self.taken = 0;
    }

    // Remembers what a flush came to, and gives it.
    fn remember(&mut self, flushed: Result<()>) -> Result<()>
        ensures inner { inner_of self.new ≡ inner_of self.old }
        ensures failed { has_failed self.new ≡ is_err flushed }
        ensures passed_on { OnOk flushed (has_passed_on self.new ≡ true) }
        ensures counted { taken_of self.new ≡ taken_of self.old }
        ensures result { result ≡ flushed }
    {
        self.is_failed = flushed.is_err();
        self.is_passed_on = flushed.is_ok();
        flushed
    }
}

impl<W: Write + Drop> Watched<BufWriter<W>> {
    /// Passes on all that the buffer holds, as `flush` does, and leaves it empty unless that is a fault.
    pub fn pass_on(&mut self) -> Result<()>
        ensures bytes { Keeps (writer_contents W.contents (inner_of self.old))
            (writer_contents W.contents (inner_of self.new)) }
        ensures empty { OnOk result (writer_buffer (inner_of self.new) ≡ []) }
        ensures passed_on { OnOk result (has_passed_on self.new ≡ true) }
        ensures counted { taken_of self.new ≡ taken_of self.old }
        ensures fault { has_failed self.new ≡ is_err result }
        ensures stays { has_failed self.old ≡ true → IsErr result }
    {
        if self.is_failed {
            return Err(Error::from(ErrorKind::Other));
        }
        let flushed = self.inner.flush();
        self.remember(flushed)
    }
}

impl<R: Read> Read for Watched<R> {
    ghost remaining = { λ w. R.remaining (inner_of w) };

    fn read(&mut self, buf: &mut [u8]) -> Result<usize>
        ensures bound { ReadsAtMost result buf.new }
        ensures bytes { ReadConsumes (R.remaining (inner_of self.old))
            (R.remaining (inner_of self.new)) result buf.new }
        ensures fault { has_failed self.new ≡ is_err result }
        ensures stays { has_failed self.old ≡ true → IsErr result }
    {
        if self.is_failed {
            return Err(Error::from(ErrorKind::Other));
        }
        let result = self.inner.read(buf);
        self.is_failed = result.is_err();
        result
    }
}

impl<W: Write> Write for Watched<W> {
    ghost contents = { λ w. W.contents (inner_of w) };

    #[inline(always)]
    fn write(&mut self, buf: &[u8]) -> Result<usize>
        ensures bound { WritesAtMost result buf.now }
        ensures bytes { WriteAppends (W.contents (inner_of self.old))
            (W.contents (inner_of self.new)) result buf.now }
        ensures counted { IfOk result (λ n. taken_of self.new
            ≡ saturating_sum (taken_of self.old) n) }
        ensures not_counted { OnErr result (taken_of self.new ≡ taken_of self.old) }
        ensures err { OnErr result (has_failed self.new ≡ true) }
        ensures none { IfOk result (λ n. n ≡ 0 → 0 < length buf.now → has_failed self.new ≡ true) }
        ensures some { IfOk result (λ n. 0 < n → has_failed self.new ≡ false) }
        ensures empty { length buf.now ≡ 0 → OnOk result (has_failed self.new ≡ false) }
        ensures held { OnOk result (has_passed_on self.new ≡ false) }
        ensures stays { has_failed self.old ≡ true → IsErr result }
    {
        if self.is_failed {
            return Err(Error::from(ErrorKind::Other));
        }
        self.is_passed_on = false;
        let result = self.inner.write(buf);
        match &result {
            Ok(n) => {
                self.is_failed = *n == 0 && !buf.is_empty();
                self.taken = self.taken.saturating_add(*n as u64);
            }
            Err(_) => self.is_failed = true,
        }
        result
    }

    fn flush(&mut self) -> Result<()>
        ensures bytes { Keeps (W.contents (inner_of self.old)) (W.contents (inner_of self.new)) }
        ensures counted { taken_of self.new ≡ taken_of self.old }
        ensures fault { has_failed self.new ≡ is_err result }
        ensures passed_on { OnOk result (has_passed_on self.new ≡ true) }
        ensures stays { has_failed self.old ≡ true → IsErr result }
    {
        if self.is_failed {
            return Err(Error::from(ErrorKind::Other));
        }
        let flushed = self.inner.flush();
        self.remember(flushed)
    }
}
