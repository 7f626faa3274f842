//! From the bytes of a reader to the bytes of a writer.

ghost use Rattle.naga_arena.specs.Numbers.{largest_u64};
ghost use Rattle.naga_report.specs.Run.{AppendsFront, BeginsReport, Reports, status_of};
ghost use Rattle.std.specs.Io.KnownBytes.{Appends, IsAtEnd, Keeps};
ghost use Rattle.std.specs.Prelude.{◌≡◌, ◌+◌, ◌<◌, ◌⊎◌, ℕ, List, ◌++◌, IfErr, IfOk, IfSome, OnOk, IsErrOf, true};

use crate::counted::Counted;
use crate::report::{Outcome, make_report};
use std::alloc::Global;
use std::fmt;
use std::io::{Read, Write};

/// Why a run wrote no whole report.
#[derive(Clone, Copy, Debug, PartialEq)]
pub enum RunFault {
    /// A call of `read` failed. Nothing was written.
    Read,
    /// A call of `write` or `flush` failed, or a call of `write` took no byte. What was written is a
    /// beginning of the report.
    Write,
    /// A request for memory was refused while the text was read or the report was made. Nothing was
    /// written.
    OutOfMemory,
}

impl fmt::Display for RunFault {
    ghost use Rattle.std.specs.Prelude.{Some};
    ghost use Rattle.naga_report.specs.Run.{fault_text};

    ghost output = { λ fault. Some (fault_text fault) };

    fn fmt<W: fmt::Write>(&self, f: &mut fmt::Formatter<W>) -> fmt::Result {
        f.write_str(match self {
            RunFault::Read => "reading failed",
            RunFault::Write => "writing failed",
            RunFault::OutOfMemory => "out of memory",
        })
    }
}

impl std::error::Error for RunFault {}

/// Reads all bytes that a reader has.
fn read_all<R: Read>(alloc: Global, reader: &mut Counted<R>) -> Result<Vec<u8>, RunFault>
    requires { reader.old.failed < largest_u64 }
    ensures bytes { IfOk result (λ v. IfSome (R.remaining reader.old.inner) (λ input. v.items ≡ input)) }
    ensures end { OnOk result (IsAtEnd (R.remaining reader.new.inner)) }
    ensures count { OnOk result (reader.new.failed ≡ reader.old.failed) }
    ensures err { IfErr result (λ e. ((e ≡ RunFault.OutOfMemory) × (reader.new.failed ≡ reader.old.failed))
        ⊎ ((e ≡ RunFault.Read) × (reader.new.failed ≡ reader.old.failed + 1))) }
{
    let mut input = Vec::new(alloc);
    let mut buf = [0; 4096];
    'reads: loop {
        let Ok(n) = reader.read(&mut buf) else {
            return Err(RunFault::Read);
        };
        if n == 0 {
            return Ok(input);
        }
        if input.extend_from_slice(&buf[..n]).is_err() {
            return Err(RunFault::OutOfMemory);
        }
    }
}

/// Writes all bytes of a text, and flushes.
fn write_all<W: Write>(writer: &mut Counted<W>, text: &[u8]) -> Result<(), RunFault>
    requires { writer.old.failed < largest_u64 }
    ensures ok { OnOk result (Appends (W.contents writer.old.inner) (W.contents writer.new.inner) text.now) }
    ensures count { OnOk result (writer.new.failed ≡ writer.old.failed) }
    ensures flushed { OnOk result (writer.new.is_flushed ≡ true) }
    ensures err { IfErr result (λ e. (e ≡ RunFault.Write) × (writer.new.failed ≡ writer.old.failed + 1)) }
    ensures front { AppendsFront text.now (W.contents writer.old.inner) (W.contents writer.new.inner) }
{
    let mut at = 0;
    'writes: while at < text.len() {
        match writer.write(&text[at..]) {
            Some(n) => at += n,
            None => return Err(RunFault::Write),
        }
    }
    if writer.flush() {
        Ok(())
    } else {
        Err(RunFault::Write)
    }
}

/// Reads a text to the end of the reader, writes the report on it, and nothing else, to the writer, and
/// flushes it.
///
/// The text is the line text of `naga_text`; its module is validated by `naga_valid`. The counts of both
/// arguments are below `u64::MAX`, so that a failure can be counted.
///
/// # Errors
///
/// - `Read` if a call of `read` failed: the reader's count is one more. Nothing was written.
/// - `Write` if a call of `write` or `flush` failed, or a `write` took nothing: the writer's count is one
///   more. What was written is a beginning of the report.
/// - `OutOfMemory` if a request for memory was refused while the text was read or the report was made. No
///   call failed, and nothing was written.
pub fn run<R: Read, W: Write>(
    alloc: Global,
    reader: &mut Counted<R>,
    writer: &mut Counted<W>,
) -> Result<Outcome, RunFault>
    requires reads { reader.old.failed < largest_u64 }
    requires writes { writer.old.failed < largest_u64 }
    // What was written is a report on what was read, and the outcome is its kind.
    ensures report { IfOk result (λ outcome. IfSome (R.remaining reader.old.inner) (λ input.
        Reports input outcome (W.contents writer.old.inner) (W.contents writer.new.inner))) }
    ensures end { OnOk result (IsAtEnd (R.remaining reader.new.inner)) }
    ensures no_failure { OnOk result
        ((reader.new.failed ≡ reader.old.failed) × (writer.new.failed ≡ writer.old.failed)) }
    // Nothing was written since a flush that succeeded.
    ensures flushed { OnOk result (writer.new.is_flushed ≡ true) }
    // Each fault has its cause, and leaves a beginning of a report or nothing.
    ensures read { IsErrOf result RunFault.Read → (reader.new.failed ≡ reader.old.failed + 1)
        × (writer.new.failed ≡ writer.old.failed) }
    ensures write { IsErrOf result RunFault.Write → (reader.new.failed ≡ reader.old.failed)
        × (writer.new.failed ≡ writer.old.failed + 1) }
    ensures memory { IsErrOf result RunFault.OutOfMemory → (reader.new.failed ≡ reader.old.failed)
        × (writer.new.failed ≡ writer.old.failed) }
    ensures nothing { IsErrOf result RunFault.Read ⊎ IsErrOf result RunFault.OutOfMemory
        → Keeps (W.contents writer.old.inner) (W.contents writer.new.inner) }
    ensures beginning { IsErrOf result RunFault.Write → IfSome (R.remaining reader.old.inner) (λ input.
        BeginsReport input (W.contents writer.old.inner) (W.contents writer.new.inner)) }
{
    let input = read_all(alloc, reader)?;
    let Ok(report) = make_report(alloc, &input) else {
        return Err(RunFault::OutOfMemory);
    };
    write_all(writer, report.text.as_bytes())?;
    Ok(report.outcome)
}

/// The exit status of a run: 0 if the module was accepted, 1 if it was refused, 2 if the text can't be
/// read, and 3 if the run failed.
pub fn status(ended: &Result<Outcome, RunFault>) -> u8
    ensures { result ≡ status_of ended.now }
{
    match ended {
        Ok(Outcome::Accepted) => 0,
        Ok(Outcome::Refused) => 1,
        Ok(Outcome::Unreadable) => 2,
        Err(_) => 3,
    }
}
