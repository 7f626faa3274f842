//! Answers about texts: the report on one, and which line of a larger text can't be read.

use naga_module_text::draft::Draft;
use naga_report::counted::Counted;
use naga_report::report::Outcome;
use naga_report::run::{RunFault, run, status};
use naga_valid::OutOfMemory;
use std::alloc::{AllocError, Global};

/// Adds ASCII text.
fn add_bytes(answer: &mut String, bytes: &[u8]) -> Result<(), AllocError> {
    for byte in bytes {
        answer.push(char::from(*byte))?;
    }
    Ok(())
}

/// Whether a run was refused memory. A slice can always be read, and only memory can keep a vector from taking
/// bytes, so that any fault is of memory.
fn is_memory_refused(ended: &Result<Outcome, RunFault>, written: &[u8]) -> bool {
    ended.is_err() || written == "refused memory\n".as_bytes()
}

/// Adds what a run on bytes writes, and its exit status.
pub fn add_run(alloc: Global, answer: &mut String, input: &[u8]) -> Result<(), AllocError> {
    let mut reader = Counted::new(input);
    let mut writer = Counted::new(Vec::new(alloc));
    let ended = run(alloc, &mut reader, &mut writer);
    let written = writer.into_inner();
    if is_memory_refused(&ended, &written) {
        return Err(AllocError);
    }
    add_bytes(answer, &written)?;
    let code = status(&ended);
    write!(answer, "status {code}\n")
}

/// Adds which line of a larger text is the first that can't be read.
pub fn add_unreadable(answer: &mut String, line: usize) -> Result<(), AllocError> {
    write!(answer, "line {line} not readable\n")
}

/// Adds whether a larger text can be read.
pub fn add_read(alloc: Global, answer: &mut String, text: &str) -> Result<(), OutOfMemory> {
    match Draft::of_text(alloc, text, false)?.unreadable {
        Some(line) => add_unreadable(answer, line)?,
        None => answer.push_str("ok\n")?,
    }
    Ok(())
}

/// What a part of a text between quotes begins.
#[derive(Clone, Copy)]
enum Escape {
    /// Nothing: a character stands for itself.
    None,
    /// A backslash stood before.
    Backslash,
    /// Two hexadecimal digits are to come.
    Hexadecimal,
    /// One is to come, after this one.
    Digit(u8),
}

/// The byte that a letter behind a backslash stands for.
fn escaped(letter: u8) -> Option<u8> {
    match letter {
        b'n' => Some(b'\n'),
        b'r' => Some(b'\r'),
        b't' => Some(b'\t'),
        b'"' | b'\\' => Some(letter),
        _ => None,
    }
}

/// The value of a hexadecimal digit.
fn digit(letter: u8) -> Option<u8> {
    match letter {
        b'0'..=b'9' => Some(letter - b'0'),
        b'a'..=b'f' => Some(letter - b'a' + 10),
        b'A'..=b'F' => Some(letter - b'A' + 10),
        _ => None,
    }
}

/// The byte that a byte ends, if it does, and what it begins.
fn step(escape: Escape, byte: u8) -> Option<(Option<u8>, Escape)> {
    match escape {
        Escape::None => match byte {
            b'\\' => Some((None, Escape::Backslash)),
            b'"' => None,
            _ => Some((Some(byte), Escape::None)),
        },
        Escape::Backslash => match byte {
            b'x' => Some((None, Escape::Hexadecimal)),
            _ => Some((Some(escaped(byte)?), Escape::None)),
        },
        Escape::Hexadecimal => Some((None, Escape::Digit(digit(byte)?))),
        Escape::Digit(high) => Some((
            Some(high.wrapping_mul(16).wrapping_add(digit(byte)?)),
            Escape::None,
        )),
    }
}

/// The bytes that a text between quotes stands for: `\n`, `\r`, `\t`, `\"`, `\\` and `\xHH` are escapes.
pub fn bytes_of(alloc: Global, quoted: &str) -> Result<Option<Vec<u8>>, AllocError> {
    let Some(text) = quoted
        .strip_prefix('"')
        .and_then(|rest| rest.strip_suffix('"'))
    else {
        return Ok(None);
    };
    let mut bytes = Vec::new(alloc);
    let mut escape = Escape::None;
    for byte in text.as_bytes() {
        let Some((ended, next)) = step(escape, *byte) else {
            return Ok(None);
        };
        if let Some(ended) = ended {
            bytes.push(ended)?;
        }
        escape = next;
    }
    match escape {
        Escape::None => Ok(Some(bytes)),
        Escape::Backslash | Escape::Hexadecimal | Escape::Digit(_) => Ok(None),
    }
}
