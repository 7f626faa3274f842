//! Why a line can't be read, by its text and the lines before it.

use crate::forms::{has_forms, is_form};
use crate::oracle::{fits, fits_words, line_with};
use crate::places::{ModuleLine, first_word};
use crate::source::{TextKind, is_keyword};
use naga_draft::unread::Unread;
use naga_ir::memory::OutOfMemory;
use naga_ir::types::TypeInner;
use naga_module_text::labels::{Labels, labelled};
use naga_module_text::types::type_inner;
use naga_text::line_words::LineWords;
use naga_verdict::verdict::{Reason, ReasonAt};
use std::alloc::{AllocError, Global};

/// A reason at a place in a line, from 0.
pub fn reason_at(reason: Reason, place: usize) -> ReasonAt {
    ReasonAt {
        reason,
        column: place.saturating_add(1),
    }
}

/// A byte that no line may have.
pub fn reason_of_bytes(text: &str) -> Option<ReasonAt> {
    if text.starts_with('\u{feff}') {
        return Some(reason_at(Reason::ByteOrderMark, 0));
    }
    if let Some(place) = text.find('\t') {
        return Some(reason_at(Reason::Tab, place));
    }
    if let Some(place) = text.find('\r') {
        return Some(reason_at(Reason::CarriageReturn, place));
    }
    None
}

/// A space where no word ends, or a comment behind an item.
fn reason_of_spaces(text: &str) -> Option<ReasonAt> {
    let mut place = 0usize;
    for word in text.split(' ') {
        if word.starts_with('#') {
            return Some(reason_at(Reason::CommentBehindItem, place));
        }
        if word.is_empty() {
            return Some(reason_at(Reason::EmptyWord, place));
        }
        place = place.saturating_add(word.len()).saturating_add(1);
    }
    None
}

/// The label behind a dollar sign.
fn label_at(text: &str) -> &str {
    let end = text
        .bytes()
        .position(|byte| !(byte.is_ascii_alphanumeric() || byte == b'_'));
    match end.and_then(|end| text.get(..end)) {
        Some(label) => label,
        None => text,
    }
}

/// A label that no line before has.
fn reason_of_uses(
    alloc: Global,
    labels: &Labels,
    text: &str,
    start: usize,
) -> Result<Option<ReasonAt>, AllocError> {
    let mut place = start;
    for (i, piece) in text.split('$').enumerate() {
        let label = label_at(piece);
        if i > 0 && labels.line(label).is_none() {
            let reason = Reason::UnknownLabel(String::from_str(alloc, label)?);
            return Ok(Some(reason_at(reason, place.saturating_sub(1))));
        }
        place = place.saturating_add(piece.len()).saturating_add(1);
    }
    Ok(None)
}

/// A label that can't be used as a line uses it.
fn reason_of_labels(
    alloc: Global,
    kind: TextKind,
    lines: &[ModuleLine],
    labels: &Labels,
    text: &str,
) -> Result<Option<ReasonAt>, AllocError> {
    let (label, rest) = labelled(text);
    if kind == TextKind::Line {
        return Ok(label.map(|_| reason_at(Reason::LabelInLineText, 0)));
    }
    if let Some(label) = label
        && let Some(line) = labels.line(label)
        && let Some(line) = lines.get(line)
    {
        return Ok(Some(reason_at(Reason::LabelAgain(line.number), 0)));
    }
    reason_of_uses(alloc, labels, rest, text.len().saturating_sub(rest.len()))
}

/// The type of a line, if it describes one.
fn type_of(alloc: Global, line: &str) -> Result<Option<TypeInner>, OutOfMemory> {
    let mut words = LineWords::new(line.as_bytes());
    if words.next() != Some(b"type") {
        return Ok(None);
    }
    match type_inner(alloc, &mut words) {
        Ok(inner) => Ok(Some(inner)),
        Err(Unread::Item) => Ok(None),
        Err(Unread::OutOfMemory) => Err(OutOfMemory),
    }
}

/// The number of the line before that describes an equal type.
fn earlier_type(
    alloc: Global,
    lines: &[ModuleLine],
    text: &str,
) -> Result<Option<usize>, OutOfMemory> {
    let Some(inner) = type_of(alloc, text)? else {
        return Ok(None);
    };
    let mut labels = Labels::new(alloc);
    for before in lines {
        let resolved = labels.resolve(before.text)?;
        if let Some(other) = type_of(alloc, resolved.as_str())?
            && other == inner
        {
            return Ok(Some(before.number));
        }
    }
    Ok(None)
}

/// The number of the first line that begins with a word, behind its label.
fn first_with(lines: &[ModuleLine], word: &str) -> Option<usize> {
    for line in lines {
        let (_, text) = labelled(line.text);
        if first_word(text) == word {
            return Some(line.number);
        }
    }
    None
}

/// Why a line that has a form can't stand behind the lines before it.
fn reason_of_place(alloc: Global, lines: &[ModuleLine], text: &str) -> Result<Reason, OutOfMemory> {
    let word = first_word(text);
    if word == "type"
        && let Some(before) = earlier_type(alloc, lines, text)?
    {
        return Ok(Reason::TypeAgain(before));
    }
    if matches!(word, "flags" | "caps" | "resolved")
        && let Some(before) = first_with(lines, word)
    {
        return Ok(Reason::SettingAgain(before));
    }
    let is_open = first_with(lines, "fn").is_some() || first_with(lines, "entry").is_some();
    Ok(if is_open {
        Reason::NoForm
    } else {
        Reason::OutsideFunction
    })
}

/// Whether a word is a number in decimal digits, perhaps behind a minus.
fn is_number(word: &str) -> bool {
    let digits = word.strip_prefix('-').unwrap_or(word);
    !digits.is_empty() && digits.bytes().all(|byte| byte.is_ascii_digit())
}

/// The place of a word in a text, in bytes.
fn place_of_word(text: &str, index: usize) -> usize {
    let mut place = 0usize;
    for (i, word) in text.split(' ').enumerate() {
        if i == index {
            return place;
        }
        place = place.saturating_add(word.len()).saturating_add(1);
    }
    text.len()
}

/// Words that stand in for one another: at least one of them fits where a word of a form can stand.
const SAMPLES: [&str; 33] = [
    "0",
    "1",
    "2",
    "8",
    "-",
    "uint",
    "function",
    "float",
    "0:0",
    "add",
    "A",
    "x",
    "u32",
    "zero",
    "size",
    "scalar",
    "struct",
    "array",
    "auto",
    "not",
    "all",
    "abs",
    "emit",
    "first",
    "volatile",
    "builtin",
    "position",
    "location",
    "perprimitive",
    "early",
    "points",
    "falls",
    "reduce",
];

/// How many words of a line are tried. Each is tried with each sample, and then the whole line is read.
const MOST_TRIED: usize = 100;

/// How many bytes a line has at most of which other words are tried.
const MOST_BYTES: usize = 4096;

/// How many words are dropped at most.
const MOST_DROPPED: usize = 3;

/// A word that can't stand in its place, or a number that is out of range there.
fn wrong_word(
    alloc: Global,
    original: &str,
    index: usize,
    sample: &str,
) -> Result<ReasonAt, AllocError> {
    let word = original.split(' ').nth(index).unwrap_or("");
    let place = place_of_word(original, index);
    let word = String::from_str(alloc, word)?;
    let reason = if is_number(word.as_str()) && is_number(sample) {
        Reason::OutOfRange(word)
    } else {
        Reason::UnknownWord(word)
    };
    Ok(reason_at(reason, place))
}

/// The first word behind those that name a form in whose place another one fits the form.
fn reason_of_word(
    alloc: Global,
    kind: TextKind,
    original: &str,
    words: &[&str],
) -> Result<Option<ReasonAt>, OutOfMemory> {
    let tried = words.get(..MOST_TRIED).unwrap_or(words);
    let first = if words.first().is_some_and(|word| has_forms(word)) {
        2
    } else {
        1
    };
    for index in first..tried.len() {
        for sample in SAMPLES {
            if fits_words(alloc, kind, words, Some((index, sample)))? {
                return Ok(Some(wrong_word(alloc, original, index, sample)?));
            }
        }
    }
    Ok(None)
}

/// Whether words fit a form with one or two words more, or are none but those that name a form.
fn are_too_few(alloc: Global, kind: TextKind, words: &[&str]) -> Result<bool, OutOfMemory> {
    match words {
        [_] => return Ok(true),
        [keyword, _] if has_forms(keyword) && *keyword != "s" => return Ok(true),
        _ => (),
    }
    for sample in SAMPLES {
        let longer = line_with(alloc, words, Some((words.len(), sample)))?;
        if fits(alloc, kind, longer.as_str())? {
            return Ok(true);
        }
        for other in SAMPLES {
            let longest = format!(in alloc; "{longer} {other}")?;
            if fits(alloc, kind, longest.as_str())? {
                return Ok(true);
            }
        }
    }
    Ok(false)
}

/// Words too few or too many.
fn reason_of_count(
    alloc: Global,
    kind: TextKind,
    original: &str,
    words: &[&str],
) -> Result<Option<ReasonAt>, OutOfMemory> {
    if are_too_few(alloc, kind, words)? {
        return Ok(Some(reason_at(Reason::TooFewWords, original.len())));
    }
    let least = words.len().saturating_sub(MOST_DROPPED).max(1);
    for count in least..words.len() {
        if let Some(fewer) = words.get(..count)
            && fits_words(alloc, kind, fewer, None)?
        {
            let place = place_of_word(original, count);
            return Ok(Some(reason_at(Reason::TooManyWords, place)));
        }
    }
    Ok(None)
}

/// Why the words of a line fit no form: which word is no form's, or by which changes of them they fit one.
fn reason_of_words(
    alloc: Global,
    kind: TextKind,
    original: &str,
    words: &[&str],
) -> Result<ReasonAt, OutOfMemory> {
    if let [keyword, form, ..] = words
        && !is_form(keyword, form)
    {
        return Ok(wrong_word(alloc, original, 1, "")?);
    }
    if original.len() > MOST_BYTES {
        return Ok(reason_at(Reason::NoForm, 0));
    }
    if let Some(found) = reason_of_word(alloc, kind, original, words)? {
        return Ok(found);
    }
    match reason_of_count(alloc, kind, original, words)? {
        Some(found) => Ok(found),
        None => Ok(reason_at(Reason::NoForm, 0)),
    }
}

/// The labels of lines.
fn labels_of(alloc: Global, lines: &[ModuleLine]) -> Result<Labels, AllocError> {
    let mut labels = Labels::new(alloc);
    for line in lines {
        labels.resolve(line.text)?;
    }
    Ok(labels)
}

/// Why a line can't be read, behind lines that can.
///
/// # Errors
///
/// `OutOfMemory` if a request for memory was refused.
pub fn reason_of(
    alloc: Global,
    kind: TextKind,
    lines: &[ModuleLine],
    text: &str,
) -> Result<ReasonAt, OutOfMemory> {
    if let Some(found) = reason_of_bytes(text) {
        return Ok(found);
    }
    if let Some(found) = reason_of_spaces(text) {
        return Ok(found);
    }
    let labels = labels_of(alloc, lines)?;
    if let Some(found) = reason_of_labels(alloc, kind, lines, &labels, text)? {
        return Ok(found);
    }
    let (_, rest) = labelled(text);
    let start = text.len().saturating_sub(rest.len());
    let word = first_word(rest);
    if !is_keyword(word, kind) {
        let reason = Reason::UnknownKeyword(String::from_str(alloc, word)?);
        return Ok(reason_at(reason, start));
    }
    let resolved = labels.replaced(rest)?;
    if fits(alloc, kind, resolved.as_str())? {
        let reason = reason_of_place(alloc, lines, resolved.as_str())?;
        return Ok(reason_at(reason, start));
    }
    let words: Vec<&str> = resolved.as_str().split(' ').collect(alloc)?;
    let ReasonAt { reason, column } = reason_of_words(alloc, kind, rest, &words)?;
    Ok(ReasonAt {
        reason,
        column: column.saturating_add(start),
    })
}
