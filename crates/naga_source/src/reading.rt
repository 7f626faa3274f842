//! The module of a file, and where the file has its items, or why a line can't be read.

ghost use Rattle.naga_source.specs.Reading.{IsReadOf, IsSettled};
ghost use Rattle.naga_module_text.specs.Settings.{settings_of_both};
ghost use Rattle.naga_text.specs.Words.{lines_of};
ghost use Rattle.std.specs.Prelude.{◌≡◌, IfOk};

use crate::places::{ModuleLine, Places, resolved};
use crate::reason::{reason_at, reason_of};
use crate::source::TextKind;
use bitflags::Flags;
use naga_flags::flags::{Capabilities, ValidationFlags};
use naga_ir::ir::Module;
use naga_ir::memory::OutOfMemory;
use naga_module_text::draft::Draft;
use naga_module_text::settings::Settings;
use naga_text::text::{TextError, read_text};
use naga_verdict::verdict::{Reason, Unreadable};
use std::alloc::Global;

/// A module, how it is validated, and where its file has its items.
#[derive(Drop)]
pub struct Subject {
    pub module: Module,
    pub flags: ValidationFlags,
    pub capabilities: Capabilities,
    /// Whether overrides have to have their values.
    pub resolved: bool,
    pub places: Places,
}

/// What is read of a file or of one of its cases.
#[derive(Drop)]
pub enum Read {
    /// A module.
    Readable(Subject),
    /// The first line that can't be read.
    Unreadable(Unreadable),
}

/// A module with the settings in force, of those of its file and those that are asked for. Constants are always
/// validated, since the rules of functions rest on those of global expressions.
fn settled(
    alloc: Global,
    module: Module,
    said: Settings,
    asked: Settings,
    lines: &[ModuleLine],
) -> Result<Subject, OutOfMemory>
    ensures { IfOk result (IsSettled «module» (settings_of_both said asked)) }
{
    let places = Places::of(alloc, &module, lines)?;
    let settings = said.and(asked);
    Ok(Subject {
        module,
        flags: settings.flags().union(ValidationFlags::CONSTANTS),
        capabilities: settings.capabilities(),
        resolved: settings.resolved(),
        places,
    })
}

/// Why a line of the larger text can't be read, by its number from 1 among these lines.
fn unreadable_line(
    alloc: Global,
    lines: &[ModuleLine],
    number: usize,
) -> Result<Unreadable, OutOfMemory> {
    let index = number.saturating_sub(1);
    let before = lines.get(..index).unwrap_or(lines);
    let (line, text) = match lines.get(index) {
        Some(line) => (line.number, line.text),
        None => (1, ""),
    };
    Ok(Unreadable {
        line,
        why: reason_of(alloc, TextKind::Larger, before, text)?,
    })
}

/// The module of a draft.
fn module_of(draft: Draft) -> Module {
    let Draft { module, .. } = draft;
    module
}

/// The draft that lines of the larger text make.
fn draft_of(alloc: Global, lines: &[ModuleLine]) -> Result<Draft, OutOfMemory> {
    let text = resolved(alloc, lines)?;
    Draft::of_text(alloc, text.as_str(), false)
}

/// The module of a draft, and the settings in force.
fn subject_of(
    alloc: Global,
    draft: Draft,
    asked: Settings,
    lines: &[ModuleLine],
) -> Result<Subject, OutOfMemory> {
    let said = draft.settings;
    settled(alloc, module_of(draft), said, asked, lines)
}

/// The module of lines of the larger text, and the settings in force, or the first line that can't be read.
///
/// # Errors
///
/// `OutOfMemory` if a request for memory was refused.
pub fn read_larger(
    alloc: Global,
    asked: Settings,
    lines: &[ModuleLine],
) -> Result<Read, OutOfMemory> {
    let draft = draft_of(alloc, lines)?;
    match draft.unreadable {
        Some(number) => Ok(Read::Unreadable(unreadable_line(alloc, lines, number)?)),
        None => Ok(Read::Readable(subject_of(alloc, draft, asked, lines)?)),
    }
}

/// Why a line of the line text can't be read, by its number from 1.
fn unreadable_bytes(
    alloc: Global,
    lines: &[ModuleLine],
    bytes: &[u8],
    line: usize,
) -> Result<Unreadable, OutOfMemory>
    ensures { IfOk result (λ unreadable. unreadable.line ≡ line) }
{
    let index = line.saturating_sub(1);
    let found = bytes.split(|byte| *byte == b'\n').nth(index).unwrap_or(&[]);
    let text = match str::from_utf8(found) {
        Ok(text) => text,
        Err(error) => {
            let why = reason_at(Reason::NotUtf8, error.valid_up_to());
            return Ok(Unreadable { line, why });
        }
    };
    let count = lines
        .iter()
        .take_while(|before| before.number < line)
        .count();
    let before = lines.get(..count).unwrap_or(lines);
    Ok(Unreadable {
        line,
        why: reason_of(alloc, TextKind::Line, before, text)?,
    })
}

/// The module of a file in the line text, and the settings in force, or the first line that can't be read.
///
/// # Errors
///
/// `OutOfMemory` if a request for memory was refused.
pub fn read_lines(
    alloc: Global,
    asked: Settings,
    lines: &[ModuleLine],
    bytes: &[u8],
) -> Result<Read, OutOfMemory>
    ensures { IfOk result (IsReadOf (lines_of bytes.now) asked) }
{
    match read_text(alloc, bytes) {
        Ok(contents) => {
            let said = Settings {
                flags: contents.flags,
                capabilities: contents.capabilities,
                resolved: Some(contents.resolved),
            };
            Ok(Read::Readable(settled(alloc, contents.module, said, asked, lines)?))
        }
        Err(TextError::Line(number)) => Ok(Read::Unreadable(unreadable_bytes(
            alloc, lines, bytes, number,
        )?)),
        Err(TextError::OutOfMemory) => Err(OutOfMemory),
    }
}
