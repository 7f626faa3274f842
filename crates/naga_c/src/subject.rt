//! What a call validates: the module of words or of a text, and the settings in force.

ghost use Rattle.naga_c.specs.Options.{Allow, AreKnown, AreWithin, IsTextWithin, capabilities_of_both, flags_of_both, item_count, line_ends, subject_of};
ghost use Rattle.naga_c.specs.Subjects.{IsSubjectOfText, IsSubjectOfWords};
ghost use Rattle.naga_c.specs.steps.Subjects.{IsTaken};
ghost use Rattle.std.specs.Prelude.{◌≡◌, ◌↔◌, ◌<◌, IsTrue, drop};

use crate::options::{NARROW, Options};
use naga_flags::flags::{Capabilities, ValidationFlags};
use naga_text::text::{TextError, read_text};
use naga_valid::{Flags, Module};
use naga_words::{WordsError, read_words};
use std::alloc::Global;

/// How many opcodes there may be: the number of operands stands above the opcode in the head of an item.
const OPCODES: u32 = 256;

/// A module, and the settings by which it is validated.
#[derive(Drop)]
pub struct Subject {
    pub module: Module,
    /// Which parts of it are validated.
    pub flags: ValidationFlags,
    /// What it may use.
    pub capabilities: Capabilities,
    /// Whether overrides have to have their values.
    pub resolved: bool,
}

/// The settings that come with a module, in its words or its text.
#[derive(Clone, Copy, Debug, PartialEq)]
pub struct Said {
    pub flags: Option<ValidationFlags>,
    pub capabilities: Option<Capabilities>,
    /// Whether overrides have to have their values.
    pub resolved: bool,
}

/// Why there is no module to validate.
#[derive(Clone, Copy, Debug, PartialEq)]
pub enum NoSubject {
    /// A field of the options has a value that means nothing here.
    Options,
    /// The words or the text are longer than the options allow.
    Limit,
    /// The index of the first word that can't be read, or the number of the first line that can't.
    Unreadable(usize),
    /// Settings come with the module, and the options don't allow that.
    Settings,
    /// A request for memory was refused.
    OutOfMemory,
}

impl From<WordsError> for NoSubject {
    ghost use Rattle.std.specs.Prelude.{◌≡◌};
    ghost use Rattle.naga_c.specs.steps.Subjects.{unread_words};

    ghost from_gives = { λ given e. e ≡ unread_words given };

    fn from(error: WordsError) -> NoSubject {
        match error {
            WordsError::Item(at) => NoSubject::Unreadable(at),
            WordsError::OutOfMemory => NoSubject::OutOfMemory,
        }
    }
}

impl From<TextError> for NoSubject {
    ghost use Rattle.std.specs.Prelude.{◌≡◌};
    ghost use Rattle.naga_c.specs.steps.Subjects.{unread_text};

    ghost from_gives = { λ given e. e ≡ unread_text given };

    fn from(error: TextError) -> NoSubject {
        match error {
            TextError::Line(number) => NoSubject::Unreadable(number),
            TextError::OutOfMemory => NoSubject::OutOfMemory,
        }
    }
}

/// The words after so many of them.
fn words_after(words: &[u32], count: usize) -> &[u32]
    ensures { result.now ≡ drop count words.now }
{
    if count < words.len() {
        &words[count..]
    } else {
        &[]
    }
}

/// How many items words have, by their heads alone: the last may lack operands.
fn count_items(words: &[u32]) -> usize
    ensures { result ≡ item_count words.now }
{
    let mut left = words;
    let mut count = 0;
    'items: while let Some((head, rest)) = left.split_first() {
        left = words_after(rest, (*head / OPCODES) as usize);
        count += 1;
    }
    count
}

/// Whether words are not more than options allow.
fn are_within(options: &Options, words: &[u32]) -> bool
    ensures { IsTrue result ↔ AreWithin options.now words.now }
{
    if words.len() as u64 > options.most_words {
        return false;
    }
    count_items(words) as u64 <= options.most_items
}

/// How many line ends a text has.
fn count_line_ends(text: &[u8]) -> usize
    ensures { result ≡ line_ends text.now }
{
    text.iter().filter(|byte| **byte == b'\n').count()
}

/// Whether a text is not longer than options allow.
fn is_text_within(options: &Options, text: &[u8]) -> bool
    ensures { IsTrue result ↔ IsTextWithin options.now text.now }
{
    if (text.len() / 4) as u64 > options.most_words {
        return false;
    }
    count_line_ends(text) as u64 <= options.most_items
}

/// What is validated: what the options say, and what was said.
fn flags_of_both(bits: u32, said: Option<ValidationFlags>) -> ValidationFlags
    requires { bits < 256 }
    ensures { result ≡ flags_of_both bits said }
{
    let own = ValidationFlags::from_bits_retain(bits as u8);
    match said {
        None => own,
        Some(said) => own.union(said),
    }
}

/// What a module may use: what both the options and what was said allow.
fn capabilities_of_both(bits: u64, said: Option<Capabilities>) -> Capabilities
    ensures { result ≡ capabilities_of_both bits said }
{
    let own = Capabilities::from_bits_retain(bits);
    match said {
        None => own,
        Some(said) => own.intersection(said),
    }
}

/// Whether options allow these settings to come with a module.
fn allow(options: &Options, said: &Said) -> bool
    ensures { IsTrue result ↔ Allow options.now said.now }
{
    if options.settings == NARROW {
        return true;
    }
    let Said {
        flags: None,
        capabilities: None,
        resolved: false,
    } = said
    else {
        return false;
    };
    true
}

/// A module with the settings in force, unless settings come with it that the options don't allow.
fn subject_of(module: Module, said: Said, options: &Options) -> Result<Subject, NoSubject>
    requires { AreKnown options.now }
    ensures { IsTaken options.now «module» said result }
{
    if !allow(options, &said) {
        return Err(NoSubject::Settings);
    }
    Ok(Subject {
        module,
        flags: flags_of_both(options.flags, said.flags),
        capabilities: capabilities_of_both(options.capabilities, said.capabilities),
        resolved: options.resolved == 1 || said.resolved,
    })
}

/// What words have a call validate.
pub(crate) fn subject_of_words(
    alloc: Global,
    words: &[u32],
    options: &Options,
) -> Result<Subject, NoSubject>
    ensures { IsSubjectOfWords options.now words.now result }
{
    if !options.are_known() {
        return Err(NoSubject::Options);
    }
    if !are_within(options, words) {
        return Err(NoSubject::Limit);
    }
    let contents = read_words(alloc, words)?;
    let said = Said {
        flags: contents.flags,
        capabilities: contents.capabilities,
        resolved: contents.resolved,
    };
    subject_of(contents.module, said, options)
}

/// What a text has a call validate.
pub(crate) fn subject_of_text(
    alloc: Global,
    text: &[u8],
    options: &Options,
) -> Result<Subject, NoSubject>
    ensures { IsSubjectOfText options.now text.now result }
{
    if !options.are_known() {
        return Err(NoSubject::Options);
    }
    if !is_text_within(options, text) {
        return Err(NoSubject::Limit);
    }
    let contents = read_text(alloc, text)?;
    let said = Said {
        flags: contents.flags,
        capabilities: contents.capabilities,
        resolved: contents.resolved,
    };
    subject_of(contents.module, said, options)
}
