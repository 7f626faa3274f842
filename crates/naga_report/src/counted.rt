//! Readers and writers whose failed calls are counted.

ghost use Rattle.naga_arena.specs.Numbers.{largest_u64};
ghost use Rattle.std.specs.Io.KnownBytes.{Appends, Keeps, ReadConsumes};
ghost use Rattle.std.specs.Io.{ReadsAtMost};
ghost use Rattle.std.specs.Prelude.{◌≡◌, ◌+◌, ◌<◌, ◌≤◌, ◌↔◌, length, take, false, IfSome, IsTrue, OnErr, OnOk, OnSome, IfNone, MatchOption, MatchBool};

use std::io;
use std::io::{Read, Write};

/// A reader or a writer, the number of its calls that failed, and whether what was written is flushed.
///
/// All fields are private: code that borrows one can neither make up a failure or a flush nor hide one, since
/// these change only in the calls below.
#[derive(Debug, Drop)]
pub struct Counted<S> {
    inner: S,
    /// The number of calls that failed.
    failed: u64,
    /// Whether there was a flush that succeeded, and nothing was written since.
    is_flushed: bool,
}

impl<S> Counted<S> {
    /// A reader or a writer, with no failure counted yet.
    pub fn new(inner: S) -> Counted<S>
        ensures inner { result.inner ≡ inner }
        ensures failed { result.failed ≡ 0 }
        ensures unflushed { result.is_flushed ≡ false }
    {
        Counted {
            inner,
            failed: 0,
            is_flushed: false,
        }
    }

    /// The number of calls that failed so far.
    pub fn failed(&self) -> u64
        ensures { result ≡ self.now.failed }
    {
        self.failed
    }

    /// The reader or writer itself.
    pub fn into_inner(self) -> S
        ensures { result ≡ self.inner }
    {
        self.inner
    }
}

impl<R: Read> Counted<R> {
    /// One call of `read`, which returns the number of bytes read into `buf`, or 0 at the end. A call
    /// that was interrupted has failed too.
    ///
    /// # Errors
    ///
    /// The error of the call, which is counted.
    pub fn read(&mut self, buf: &mut [u8]) -> io::Result<usize>
        requires { self.old.failed < largest_u64 }
        ensures bound { ReadsAtMost result buf.new }
        ensures bytes { ReadConsumes (R.remaining self.old.inner) (R.remaining self.new.inner) result buf.new }
        ensures ok { OnOk result (self.new.failed ≡ self.old.failed) }
        ensures err { OnErr result (self.new.failed ≡ self.old.failed + 1) }
        ensures flushed { self.new.is_flushed ≡ self.old.is_flushed }
    {
        let result = self.inner.read(buf);
        if result.is_err() {
            self.failed += 1;
        }
        result
    }
}

impl<W: Write> Counted<W> {
    /// One call of `write` with at least one byte. Returns the number of bytes that it took, or `None` if
    /// it failed or took none, which is counted.
    pub fn write(&mut self, buf: &[u8]) -> Option<usize>
        requires some { 0 < length buf.now }
        requires count { self.old.failed < largest_u64 }
        ensures bound { IfSome result (λ n. (0 < n) × (n ≤ length buf.now)) }
        ensures bytes { MatchOption result (Keeps (W.contents self.old.inner) (W.contents self.new.inner))
            (λ n. Appends (W.contents self.old.inner) (W.contents self.new.inner) (take n buf.now)) }
        ensures count { OnSome result (self.new.failed ≡ self.old.failed) }
        ensures failure { IfNone result (self.new.failed ≡ self.old.failed + 1) }
        ensures unflushed { self.new.is_flushed ≡ false }
    {
        self.is_flushed = false;
        match self.inner.write(buf) {
            Ok(n) if n > 0 => Some(n),
            _ => {
                self.failed += 1;
                None
            }
        }
    }

    /// One call of `flush`. Returns whether it succeeded, which is noted; a failure is counted.
    pub fn flush(&mut self) -> bool
        requires { self.old.failed < largest_u64 }
        ensures bytes { Keeps (W.contents self.old.inner) (W.contents self.new.inner) }
        ensures count { MatchBool result (self.new.failed ≡ self.old.failed) (self.new.failed ≡ self.old.failed + 1) }
        ensures flushed { self.new.is_flushed ≡ result }
    {
        self.is_flushed = self.inner.flush().is_ok();
        if !self.is_flushed {
            self.failed += 1;
        }
        self.is_flushed
    }
}
