//! Runs from memory to memory, with a failure of each call in turn, also with one byte a call.

use super::{assert_lines, assert_same, assert_same_for};
use naga_report::counted::Counted;
use naga_report::report::Outcome;
use naga_report::run::{RunFault, run, status};
use std::alloc::Global;
use std::io;
use std::io::{Error, ErrorKind, Read, Write};
use std::num::NonZeroUsize;
use std::process::Abort;
use std::test::Fail;

/// A reader or writer that moves at most `step` bytes a call, and whose call of number `bad`, from 0, is
/// interrupted.
#[derive(Drop)]
struct Failing<S> {
    inner: S,
    step: usize,
    bad: usize,
    calls: usize,
}

impl<S> Failing<S> {
    /// The greatest number of bytes that the next call moves, unless it fails.
    fn turn(&mut self, len: usize) -> io::Result<usize> {
        let call = self.calls;
        self.calls = call.saturating_add(1);
        if call == self.bad {
            return Err(Error::from(ErrorKind::Interrupted));
        }
        Ok(len.min(self.step))
    }
}

impl<R: Read> Read for Failing<R> {
    fn read(&mut self, buf: &mut [u8]) -> io::Result<usize> {
        let len = self.turn(buf.len())?.min(buf.len());
        self.inner.read(&mut buf[..len])
    }
}

impl<W: Write> Write for Failing<W> {
    fn write(&mut self, buf: &[u8]) -> io::Result<usize> {
        let len = self.turn(buf.len())?.min(buf.len());
        self.inner.write(&buf[..len])
    }

    fn flush(&mut self) -> io::Result<()> {
        self.turn(0)?;
        Ok(())
    }
}

/// A text of 82 bytes.
const TEXT: &str =
    "# a comment and a setting\ncaps 67108864\n\ntype scalar float 2\ntype vector 3 sint 4\n";

/// The report on it, of 25 bytes.
const REPORT: &str = "T0 ff 2 2\nT1 ff 16 16\nok\n";

/// Runs, and returns how that ended, the numbers of reads and of writes that failed, and the writer.
fn run_counted<R: Read + Drop, W: Write + Drop>(
    alloc: Global,
    reader: R,
    writer: W,
) -> (Result<Outcome, RunFault>, (u64, u64), W) {
    let mut reader = Counted::new(reader);
    let mut writer = Counted::new(writer);
    let ended = run(alloc, &mut reader, &mut writer);
    let failures = (reader.failed(), writer.failed());
    (ended, failures, writer.into_inner())
}

/// Makes sure that the run on a text writes this report, has this exit status, and has no failure.
pub(super) fn assert_reported(rt: &impl Abort, alloc: Global, text: &str, want: &str, code: u8) {
    let (ended, failed, output) = run_counted(alloc, text.as_bytes(), Vec::new(alloc));
    assert!(rt; failed == (0, 0));
    assert_same(rt, &status(&ended), &code);
    assert!(rt; output.as_slice() == want.as_bytes());
}

/// Texts of each kind, with the reports on them and how runs on them end.
const RUNS: [(&str, &str, Outcome); 3] = [
    (TEXT, REPORT, Outcome::Accepted),
    (
        "type scalar float 2",
        "refused type T0 WidthError\n",
        Outcome::Refused,
    ),
    (
        "type scalar float 4\ntype\ntype scalar uint 4\n",
        "line 2 not readable\n",
        Outcome::Unreadable,
    ),
];

/// Makes sure that a run fails if any read of at most `step` bytes fails, and else ends as said.
fn assert_all_is_read(
    rt: &impl Abort,
    alloc: Global,
    wanted: (&str, &str, Outcome),
    step: NonZeroUsize,
) {
    let (text, report, outcome) = wanted;
    // The calls before this one read bytes, and this one returns 0 at the end.
    let reads = text.len().div_ceil(step.get());
    for bad in 0..reads.saturating_add(3) {
        let reader = Failing {
            inner: text.as_bytes(),
            step: step.get(),
            bad,
            calls: 0,
        };
        let (ended, (failed, _), output) = run_counted(alloc, reader, Vec::new(alloc));
        if bad <= reads {
            assert_same_for(rt, &bad, &ended, &Err(RunFault::Read));
            assert_same(rt, &status(&ended), &3);
            assert_same(rt, &failed, &1);
            assert!(rt; output.is_empty());
        } else {
            assert_same_for(rt, &bad, &ended, &Ok(outcome));
            assert_same(rt, &failed, &0);
            assert!(rt; output.as_slice() == report.as_bytes());
        }
    }
}

/// Makes sure that a run fails if any write of at most `step` bytes or the flush fails, after it wrote all before that,
/// and else ends as said.
fn assert_all_is_written(
    rt: &impl Abort,
    alloc: Global,
    wanted: (&str, &str, Outcome),
    step: NonZeroUsize,
) {
    let (text, report, outcome) = wanted;
    let out = report.as_bytes();
    // The calls before this one write bytes, and this one flushes.
    let writes = out.len().div_ceil(step.get());
    for bad in 0..writes.saturating_add(3) {
        let writer = Failing {
            inner: Vec::new(alloc),
            step: step.get(),
            bad,
            calls: 0,
        };
        let (ended, (_, failed), writer) = run_counted(alloc, text.as_bytes(), writer);
        let len = out.len().min(bad.saturating_mul(step.get()));
        assert!(rt; writer.inner.as_slice() == &out[..len], "{bad}");
        if bad <= writes {
            assert_same_for(rt, &bad, &ended, &Err(RunFault::Write));
            assert_same(rt, &status(&ended), &3);
            assert_same(rt, &failed, &1);
        } else {
            assert_same_for(rt, &bad, &ended, &Ok(outcome));
            assert_same(rt, &failed, &0);
        }
    }
}

#[test]
fn a_failure_of_any_read_write_or_flush_is_a_fault(rt: HostRuntime) {
    for wanted in RUNS {
        for bytes in [1, 4] {
            let step = NonZeroUsize::new(bytes).expect(&rt, "not 0");
            assert_all_is_read(&rt, rt.alloc(), wanted, step);
            assert_all_is_written(&rt, rt.alloc(), wanted, step);
        }
    }
}

#[test]
fn a_writer_without_room_is_a_fault(rt: HostRuntime) {
    let mut room = [0u8; 7];
    let (ended, (_, failed), left) = run_counted(rt.alloc(), TEXT.as_bytes(), &mut room[..]);
    assert_same(&rt, &ended, &Err(RunFault::Write));
    assert_same(&rt, &failed, &1);
    assert!(rt; left.is_empty());
    assert_lines(
        &rt,
        &[RunFault::Read, RunFault::Write, RunFault::OutOfMemory],
        "reading failed\nwriting failed\nout of memory\n",
    );
}
