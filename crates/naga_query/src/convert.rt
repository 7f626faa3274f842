//! Modules of the larger text as words (docs/WORDS.md), and words as lines of the larger text.

use crate::case_file::{
    Lines, count_of_module, head_and_cases, number_in_file, plain, resolved, title_and_lines,
    without_head,
};
use naga_module_text::draft::Draft;
use naga_module_text::labels::Labels;
use naga_print::{PrintError, Printed, Settings, print};
use naga_text::number::number;
use naga_valid::OutOfMemory;
use naga_words::{Contents, MAGIC, VERSION, WordsError, read_words};
use std::alloc::{AllocError, AllocFailed, Global};
use thiserror::Error;

/// How many bytes a word has in a file.
const WORD_BYTES: usize = 4;

/// The words of the header.
const HEADER: [u32; 3] = [2 << 8 | 15, MAGIC, VERSION];

/// Why a file was not converted.
#[derive(Debug, Drop, Error)]
pub enum ConvertError {
    #[error("line {0} can't be read")]
    Line(usize),
    /// Of the words of one module, from 0.
    #[error("the item at word {0} can't be read")]
    Word(usize),
    #[error("its last word has fewer than four bytes")]
    Bytes,
    #[error("it is not UTF-8")]
    Utf8,
    #[error("it has no words: an item is too large")]
    NoWords,
    #[error("the larger text can't say {0}")]
    NoText(&'static str),
    #[error("memory was refused")]
    OutOfMemory,
}

impl From<AllocError> for ConvertError {
    fn from(_: AllocError) -> ConvertError {
        ConvertError::OutOfMemory
    }
}

impl<T: Drop> From<AllocFailed<T>> for ConvertError {
    fn from(_: AllocFailed<T>) -> ConvertError {
        ConvertError::OutOfMemory
    }
}

impl From<OutOfMemory> for ConvertError {
    fn from(_: OutOfMemory) -> ConvertError {
        ConvertError::OutOfMemory
    }
}

impl From<PrintError> for ConvertError {
    fn from(error: PrintError) -> ConvertError {
        match error {
            PrintError::TooLarge => ConvertError::NoWords,
            PrintError::OutOfMemory => ConvertError::OutOfMemory,
        }
    }
}

impl From<WordsError> for ConvertError {
    fn from(error: WordsError) -> ConvertError {
        match error {
            WordsError::Item(at) => ConvertError::Word(at),
            WordsError::OutOfMemory => ConvertError::OutOfMemory,
        }
    }
}

/// The module of lines, printed with the settings that they have.
fn printed(alloc: Global, text: &str) -> Result<Printed, ConvertError> {
    let draft = Draft::of_text(alloc, text, false)?;
    if let Some(number) = draft.unreadable {
        return Err(ConvertError::Line(number));
    }
    let settings = Settings {
        flags: draft.settings.flags,
        capabilities: draft.settings.capabilities,
        resolved: draft.settings.resolved(),
    };
    Ok(print(alloc, &draft.module, settings)?)
}

/// Adds the words of a module, an item a line, after the header.
fn add_listing(words: &mut String, printed: &Printed) -> Result<(), AllocError> {
    let [head, magic, version] = HEADER;
    write!(
        words,
        "{head} {magic} {version} # words of version {version}\n"
    )?;
    words.push_str(printed.listing.as_str())
}

/// Lines, with the number in the file that the first of them has.
#[derive(Clone, Copy)]
struct Section<'a> {
    lines: Lines<'a>,
    first: usize,
}

/// The number in the file of a line of a module, which has this number among the shared lines and those of its case.
fn number_of(shared: Section, own: Section, number: usize) -> usize {
    let count = count_of_module(shared.lines);
    if number <= count {
        number_in_file(shared.lines, shared.first, number)
    } else {
        number_in_file(own.lines, own.first, number - count)
    }
}

/// Adds the words of the module of shared lines and those of a case.
fn add_case(
    alloc: Global,
    words: &mut String,
    shared: Section,
    own: Section,
) -> Result<(), ConvertError> {
    let text = resolved(alloc, &mut Labels::new(alloc), shared.lines, own.lines)?;
    match printed(alloc, text.as_str()) {
        Ok(printed) => Ok(add_listing(words, &printed)?),
        Err(ConvertError::Line(number)) => {
            Err(ConvertError::Line(number_of(shared, own, number)))
        }
        Err(error) => Err(error),
    }
}

/// How many lines there are.
fn count(lines: Lines) -> usize {
    match lines {
        Some(lines) => lines.split('\n').count(),
        None => 0,
    }
}

/// The words of the modules of a file in the larger text, without its queries: of each of its cases, or of all lines if
/// it has no cases.
pub fn words_of_file(alloc: Global, text: &str) -> Result<String, ConvertError> {
    let mut words = String::new(alloc);
    let (head, cases) = head_and_cases(text);
    let lines = without_head(head);
    let shared = Section {
        lines,
        first: count(head).saturating_sub(count(lines)).saturating_add(1),
    };
    let mut first = count(head).saturating_add(1);
    let Some(cases) = cases else {
        let own = Section { lines: None, first };
        add_case(alloc, &mut words, shared, own)?;
        return Ok(words);
    };
    for case in cases.split("\n== ") {
        let (title, lines) = title_and_lines(case);
        let title = plain(title);
        write!(words, "== {title}\n")?;
        first = first.saturating_add(1);
        add_case(alloc, &mut words, shared, Section { lines, first })?;
        first = first.saturating_add(count(lines));
    }
    Ok(words)
}

/// Adds the lines of the larger text of words.
fn add_text(alloc: Global, text: &mut String, words: &[u32]) -> Result<(), ConvertError> {
    let Contents {
        module,
        flags,
        capabilities,
        resolved,
    } = read_words(alloc, words)?;
    let settings = Settings {
        flags,
        capabilities,
        resolved,
    };
    let printed = print(alloc, &module, settings)?;
    if let Some(unsaid) = printed.unsaid {
        return Err(ConvertError::NoText(unsaid));
    }
    text.push_str(printed.text.as_str())?;
    Ok(())
}

/// The words of bytes, the lowest byte of each first.
fn words_of_bytes(alloc: Global, bytes: &[u8]) -> Result<Vec<u32>, ConvertError> {
    let mut words = Vec::new(alloc);
    for word in bytes.chunks(WORD_BYTES) {
        let [first, second, third, fourth] = word else {
            return Err(ConvertError::Bytes);
        };
        words.push(u32::from_le_bytes([*first, *second, *third, *fourth]))?;
    }
    Ok(words)
}

/// Adds the words of a line, if all before `#` are decimal numbers.
fn add_words(words: &mut Vec<u32>, line: &str) -> Result<bool, AllocError> {
    let before = line.split('#').next().unwrap_or("");
    for word in before.split(' ') {
        if word.is_empty() {
            continue;
        }
        let Some(word) = number(word.as_bytes()) else {
            return Ok(false);
        };
        words.push(word)?;
    }
    Ok(true)
}

/// The larger text of lines of words: of each case, or of all lines if there are no titles.
fn text_of_lines(alloc: Global, lines: &str) -> Result<String, ConvertError> {
    let mut text = String::new(alloc);
    let mut words = Vec::new(alloc);
    let mut has_title = false;
    for (place, line) in lines.lines().enumerate() {
        if let Some(title) = line.strip_prefix("== ") {
            if has_title || !words.is_empty() {
                add_text(alloc, &mut text, &words)?;
            }
            words.clear();
            has_title = true;
            write!(text, "== {title}\n")?;
        } else if !add_words(&mut words, line)? {
            return Err(ConvertError::Line(place.saturating_add(1)));
        }
    }
    add_text(alloc, &mut text, &words)?;
    Ok(text)
}

/// Whether bytes begin with a magic word in the place that it has in a file of words.
fn has_magic(bytes: &[u8]) -> bool {
    match bytes {
        [_, _, _, _, b'N', b'A', b'G', b'W', ..] => true,
        _ => false,
    }
}

/// The larger text of words: of a file of words that begin with a header, or of lines of words in decimal.
pub fn text_of_file(alloc: Global, bytes: &[u8]) -> Result<String, ConvertError> {
    if has_magic(bytes) {
        let mut text = String::new(alloc);
        let words = words_of_bytes(alloc, bytes)?;
        add_text(alloc, &mut text, &words)?;
        return Ok(text);
    }
    match str::from_utf8(bytes) {
        Ok(lines) => text_of_lines(alloc, lines),
        Err(_) => Err(ConvertError::Utf8),
    }
}
