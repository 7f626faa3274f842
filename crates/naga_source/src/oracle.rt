//! Whether a line has a form, by the readers themselves.

use crate::source::TextKind;
use naga_ir::memory::OutOfMemory;
use naga_module_text::draft::Draft;
use naga_text::line::read_line;
use naga_text::line_words::LineWords;
use std::alloc::{AllocError, Global};

/// Whether the larger text has a line like this in an entry point, or a case in a switch there.
fn fits_larger(alloc: Global, line: &str) -> Result<bool, OutOfMemory> {
    let before = if line == "s case" || line.starts_with("s case ") {
        "entry\ns switch 0"
    } else {
        "entry"
    };
    let text = format!(in alloc; "{before}\n{line}\n")?;
    let draft = Draft::of_text(alloc, text.as_str(), false)?;
    Ok(draft.unreadable.is_none())
}

/// Whether a text has a line like this, without a label, in some place.
pub fn fits(alloc: Global, kind: TextKind, line: &str) -> Result<bool, OutOfMemory> {
    if read_line(alloc, &LineWords::new(line.as_bytes()))?.is_some() {
        return Ok(true);
    }
    match kind {
        TextKind::Line => Ok(false),
        TextKind::Larger => fits_larger(alloc, line),
    }
}

/// The words of a line, with another word at an index, or behind them.
pub fn line_with(
    alloc: Global,
    words: &[&str],
    other: Option<(usize, &str)>,
) -> Result<String, AllocError> {
    let mut line = String::new(alloc);
    for (i, word) in words.iter().enumerate() {
        if i > 0 {
            line.push(' ')?;
        }
        match other {
            Some((index, other)) if index == i => line.push_str(other)?,
            _ => line.push_str(word)?,
        }
    }
    if let Some((index, other)) = other
        && index >= words.len()
    {
        line.push(' ')?;
        line.push_str(other)?;
    }
    Ok(line)
}

/// Whether a text has a line of these words, with another word at an index, or behind them.
pub fn fits_words(
    alloc: Global,
    kind: TextKind,
    words: &[&str],
    other: Option<(usize, &str)>,
) -> Result<bool, OutOfMemory> {
    let line = line_with(alloc, words, other)?;
    fits(alloc, kind, line.as_str())
}
