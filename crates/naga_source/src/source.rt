//! The modules of a file: the lines of each, and which text they are in.

use crate::places::{ModuleLine, first_word, is_blank};
use naga_module_text::labels::labelled;
use naga_text::words::chosen;
use std::alloc::{AllocError, Global};

/// One of the two texts that describe modules.
#[derive(Clone, Copy, Debug, PartialEq)]
pub enum TextKind {
    /// The line text.
    Line,
    /// The larger text.
    Larger,
}

/// The lines of one module.
#[derive(Drop)]
pub struct Source<'a> {
    /// The title of the case, if the file has cases.
    pub title: Option<&'a str>,
    pub lines: Vec<ModuleLine<'a>>,
}

/// Which of the two texts have a line.
#[derive(Clone, Copy)]
enum Has {
    Both,
    Larger,
}

/// Which texts have lines that begin with a word.
fn has_word(word: &str) -> Option<Has> {
    let words = [
        ("flags", Has::Both),
        ("caps", Has::Both),
        ("resolved", Has::Both),
        ("type", Has::Both),
        ("expr", Has::Both),
        ("const", Has::Both),
        ("override", Has::Both),
        ("doc", Has::Both),
        ("global", Has::Larger),
        ("g", Has::Larger),
        ("fn", Has::Larger),
        ("entry", Has::Larger),
        ("arg", Has::Larger),
        ("local", Has::Larger),
        ("f", Has::Larger),
        ("s", Has::Larger),
        ("result", Has::Larger),
        ("named", Has::Larger),
        ("leaf", Has::Larger),
        ("wgsizes", Has::Larger),
        ("payload", Has::Larger),
        ("mesh", Has::Larger),
        ("special", Has::Larger),
        ("others", Has::Larger),
        ("filter", Has::Larger),
        ("filterleaf", Has::Larger),
        ("doctype", Has::Larger),
        ("docfn", Has::Larger),
        ("docentry", Has::Larger),
        ("docconst", Has::Larger),
        ("docglobal", Has::Larger),
        ("name", Has::Larger),
        ("?", Has::Larger),
        ("==", Has::Larger),
        ("|", Has::Larger),
    ];
    chosen(&words, word.as_bytes())
}

/// Whether the first word of a line is a keyword of a text.
pub fn is_keyword(word: &str, kind: TextKind) -> bool {
    match has_word(word) {
        Some(Has::Both) => true,
        Some(Has::Larger) => kind == TextKind::Larger,
        None => false,
    }
}

/// Whether only the larger text has a word in a line of this form of types.
fn is_larger_word(form: &str, word: &str) -> bool {
    match form {
        "struct" => {
            word.contains(":@") || word.contains(":builtin:") || word.contains(":location:")
        }
        "image" => matches!(word, "sintms" | "uintms") || word.starts_with("storage:"),
        "pointer" | "valuepointer" => word.starts_with("storage:"),
        _ => false,
    }
}

/// Whether a line says of a type what only the larger text says.
fn is_larger_type(line: &str) -> bool {
    let Some(ty) = line.strip_prefix("type ") else {
        return false;
    };
    let form = first_word(ty);
    ty.split(' ').any(|word| is_larger_word(form, word))
}

/// Whether only the larger text has a line.
fn is_larger_only(line: &str) -> bool {
    if is_blank(line) {
        return false;
    }
    let (label, _) = labelled(line);
    label.is_some()
        || matches!(has_word(first_word(line)), Some(Has::Larger))
        || is_larger_type(line)
}

/// A line without the carriage return before its line feed.
fn plain(line: &str) -> &str {
    line.strip_suffix('\r').unwrap_or(line)
}

/// The text of a line, or nothing for a line that is not UTF-8, which can only be a comment if it can be read.
fn line_text(line: &[u8]) -> &str {
    match str::from_utf8(line) {
        Ok(text) => text,
        Err(_) => "",
    }
}

/// The text that a file is in: the larger one if it has a line that only that one has.
pub fn kind_of(bytes: &[u8]) -> TextKind {
    for line in bytes.split(|byte| *byte == b'\n') {
        if is_larger_only(plain(line_text(line))) {
            return TextKind::Larger;
        }
    }
    TextKind::Line
}

/// The lines of a file in the line text that are neither empty nor comments.
pub fn lines_of(alloc: Global, bytes: &[u8]) -> Result<Vec<ModuleLine<'_>>, AllocError> {
    let mut lines = Vec::new(alloc);
    let mut number = 0usize;
    for line in bytes.split(|byte| *byte == b'\n') {
        number = number.saturating_add(1);
        let text = line_text(line);
        if !is_blank(text) {
            lines.push(ModuleLine { number, text })?;
        }
    }
    Ok(lines)
}

/// Whether a line of the larger text is one of a module, and not a query or a part of a result.
fn is_of_module(line: &str) -> bool {
    !line.starts_with("| ") && !line.starts_with("? ") && !is_blank(line)
}

/// A case with the lines that all share, or the module of a file without cases.
fn begin<'a>(
    alloc: Global,
    title: Option<&'a str>,
    shared: &[ModuleLine<'a>],
) -> Result<Source<'a>, AllocError> {
    Ok(Source {
        title,
        lines: Vec::from_slice(alloc, shared)?,
    })
}

/// The modules of a file in the larger text: its cases, each behind the lines that all share, or all its lines if it
/// has no case.
pub fn sources_of(alloc: Global, text: &str) -> Result<Vec<Source<'_>>, AllocError> {
    let mut shared = Vec::new(alloc);
    let mut sources = Vec::new(alloc);
    let mut open = None;
    let mut number = 0usize;
    for line in text.split('\n') {
        number = number.saturating_add(1);
        let text = plain(line);
        if let Some(title) = text.strip_prefix("== ") {
            if let Some(source) = open.replace(begin(alloc, Some(title), &shared)?) {
                sources.push(source)?;
            }
        } else if is_of_module(text) {
            let line = ModuleLine { number, text };
            match &mut open {
                Some(source) => source.lines.push(line)?,
                None => shared.push(line)?,
            }
        }
    }
    match open {
        Some(source) => sources.push(source)?,
        None => sources.push(begin(alloc, None, &shared)?)?,
    }
    Ok(sources)
}
