//! The calls on a text.

ghost use Rattle.naga_c.specs.Calls.{LeavesBuffer, OfText};
ghost use Rattle.naga_c.specs.Statuses.{Returns};
ghost use Rattle.naga_c.specs.Text.{IsReported};
ghost use Rattle.naga_c.specs.Types.{ChecksTypes};
ghost use Rattle.std.specs.Prelude.{◌≡◌};

use crate::accepted::accept;
use crate::options::Options;
use crate::results::{Outcome, TypeRow};
use crate::status::{Status, status_of};
use crate::subject::subject_of_text;
use crate::types::report_types;
use naga_report::report::make_report;
use std::alloc::Global;

/// The version of this interface.
#[unsafe(no_mangle)]
pub extern "C" fn naga_check_abi_version() -> u32
    ensures { result ≡ 3 }
{
    3
}

/// Checks the types of a text.
fn text_types(
    alloc: Global,
    text: &[u8],
    options: &Options,
    infos: &mut [TypeRow],
    outcome: &mut Outcome,
) -> Status
    ensures { OfText options.now text.now (λ subject. ChecksTypes subject infos.old infos.new outcome.new)
        (LeavesBuffer infos.old infos.new outcome.new) result }
{
    let given = subject_of_text(alloc, text, options);
    match accept(alloc, given, options.most_leaves) {
        Ok(accepted) => report_types(alloc, &accepted, infos, outcome),
        Err(not) => {
            *outcome = not.outcome;
            not.status
        }
    }
}

/// Validates a module in a text, and writes the info of each type if it is accepted, unless `infos` is empty.
#[unsafe(no_mangle)]
pub extern "C" fn naga_check_text_with(
    alloc: Global,
    text: &[u8],
    options: &Options,
    infos: &mut [TypeRow],
    outcome: &mut Outcome,
) -> u32
    ensures { Returns result (OfText options.now text.now
        (λ subject. ChecksTypes subject infos.old infos.new outcome.new)
        (LeavesBuffer infos.old infos.new outcome.new)) }
{
    text_types(alloc, text, options, infos, outcome).code()
}

/// The report if memory was refused while a module was validated.
const REFUSED_MEMORY: &[u8] = b"refused memory\n";

/// Writes the report on a text and its length, or its length alone if it is longer than the buffer.
fn report_text(alloc: Global, text: &[u8], report: &mut [u8], length: &mut usize) -> Status
    ensures { IsReported text.now report.old report.new length.old length.new result }
{
    let Ok(made) = make_report(alloc, text) else {
        return Status::OutOfMemory;
    };
    let bytes = made.text.as_bytes();
    // The program calls that refused, and prints it. A host has to tell it from a module that breaks a rule.
    if bytes == REFUSED_MEMORY {
        return Status::OutOfMemory;
    }
    *length = bytes.len();
    if bytes.len() > report.len() {
        return Status::Room;
    }
    let (front, _) = report.split_at_mut(bytes.len());
    front.copy_from_slice(bytes);
    status_of(made.outcome)
}

/// Writes the report on a text that the program prints, and its length. If the report is longer than the buffer, only
/// its length is written, and nothing if memory was refused.
#[unsafe(no_mangle)]
pub extern "C" fn naga_check_report_with(
    alloc: Global,
    text: &[u8],
    report: &mut [u8],
    length: &mut usize,
) -> u32
    ensures { Returns result (IsReported text.now report.old report.new length.old length.new) }
{
    report_text(alloc, text, report, length).code()
}
