//! What is found of a module, and the lines that say so.

ghost use Rattle.naga_verdict.specs.Verdicts.{before_name, named_by, reason_name, reason_text, stage_name, status_of};
ghost use Rattle.std.specs.Prelude.{◌≡◌, ◌++◌, IfOk, OnOk, string_bytes};

use crate::item::Item;
use std::alloc::{AllocError, Global};

/// Which rules a refused module breaks.
#[derive(Clone, Copy, Debug, PartialEq)]
pub enum Stage {
    Handles,
    Layout,
    Type_,
    Expression,
    Constant,
    Override,
    GlobalVariable,
    Function,
    EntryPoint,
    /// No part of it alone.
    Module,
}

impl Stage {
    /// The name of the stage.
    pub fn name(self) -> &'static str
        ensures { result.now ≡ stage_name self }
    {
        match self {
            Stage::Handles => "handles",
            Stage::Layout => "layout",
            Stage::Type_ => "type",
            Stage::Expression => "expression",
            Stage::Constant => "constant",
            Stage::Override => "override",
            Stage::GlobalVariable => "global variable",
            Stage::Function => "function",
            Stage::EntryPoint => "entry point",
            Stage::Module => "module",
        }
    }
}

/// An item, and where the file has it, if that is known.
#[derive(Drop)]
pub struct Named {
    pub item: Item,
    pub label: Option<String>,
    pub line: Option<usize>,
    /// The label of the function or entry point that the item belongs to.
    pub owner_label: Option<String>,
}

/// Why a module is refused.
#[derive(Drop)]
pub struct Refusal {
    pub stage: Stage,
    /// The item that is wrong.
    pub at: Option<Named>,
    /// The name of the error.
    pub error: String,
    /// What the error holds, as Rust prints it behind the name.
    pub fields: String,
    /// The error in words.
    pub text: String,
    /// The items that the error names.
    pub names: Vec<Named>,
}

/// Why a line can't be read.
#[derive(Debug, Drop)]
pub enum Reason {
    /// The file begins with a byte order mark.
    ByteOrderMark,
    /// A byte is not UTF-8.
    NotUtf8,
    Tab,
    CarriageReturn,
    /// A space stands where a word should.
    EmptyWord,
    /// A comment stands behind an item.
    CommentBehindItem,
    /// No line begins with this word.
    UnknownKeyword(String),
    /// A line of the line text has a label.
    LabelInLineText,
    /// No line before has this label.
    UnknownLabel(String),
    /// The line of this number has the label already.
    LabelAgain(usize),
    TooFewWords,
    TooManyWords,
    /// A number is out of range.
    OutOfRange(String),
    /// A word can't stand in its place.
    UnknownWord(String),
    /// The line of this number describes an equal type.
    TypeAgain(usize),
    /// The line of this number has the same setting.
    SettingAgain(usize),
    /// A line of a function stands before the first function.
    OutsideFunction,
    /// The words fit no form, or the line can't stand there.
    NoForm,
}

/// A reason and the column, from 1, at which the line can't be read.
#[derive(Debug, Drop)]
pub struct ReasonAt {
    pub reason: Reason,
    pub column: usize,
}

/// The first line of a file that can't be read.
#[derive(Drop)]
pub struct Unreadable {
    pub line: usize,
    pub why: ReasonAt,
}

/// What is found of a module, or of a file that has none.
#[derive(Drop)]
pub enum Verdict {
    Accepted,
    Refused(Refusal),
    Unreadable(Unreadable),
    /// A file can't be read at all, and why.
    Failed(String),
}

/// The verdict on a module of a file.
#[derive(Drop)]
pub struct Finding<'a> {
    pub file: &'a str,
    /// The title of the case, if the file has cases.
    pub case: Option<&'a str>,
    pub verdict: Verdict,
}

/// The exit status of a verdict.
pub fn status_of(verdict: &Verdict) -> u8
    ensures { result ≡ status_of verdict.now }
{
    match verdict {
        Verdict::Accepted => 0,
        Verdict::Refused(_) => 1,
        Verdict::Unreadable(_) => 2,
        Verdict::Failed(_) => 3,
    }
}

impl Reason {
    /// The name of the reason.
    pub fn name(&self) -> &'static str
        ensures { result.now ≡ reason_name self.now }
    {
        match self {
            Reason::ByteOrderMark => "ByteOrderMark",
            Reason::NotUtf8 => "NotUtf8",
            Reason::Tab => "Tab",
            Reason::CarriageReturn => "CarriageReturn",
            Reason::EmptyWord => "EmptyWord",
            Reason::CommentBehindItem => "CommentBehindItem",
            Reason::UnknownKeyword(_) => "UnknownKeyword",
            Reason::LabelInLineText => "LabelInLineText",
            Reason::UnknownLabel(_) => "UnknownLabel",
            Reason::LabelAgain(_) => "LabelAgain",
            Reason::TooFewWords => "TooFewWords",
            Reason::TooManyWords => "TooManyWords",
            Reason::OutOfRange(_) => "OutOfRange",
            Reason::UnknownWord(_) => "UnknownWord",
            Reason::TypeAgain(_) => "TypeAgain",
            Reason::SettingAgain(_) => "SettingAgain",
            Reason::OutsideFunction => "OutsideFunction",
            Reason::NoForm => "NoForm",
        }
    }

    /// The words before what the reason names, or all words if it names nothing.
    fn before(&self) -> &'static str
        ensures { result.now ≡ before_name self.now }
    {
        match self {
            Reason::ByteOrderMark => "the file begins with a byte order mark",
            Reason::NotUtf8 => "not UTF-8",
            Reason::Tab => "a tab; single spaces part words",
            Reason::CarriageReturn => "a carriage return; lines end with a line feed alone",
            Reason::EmptyWord => "a space too many; single spaces part words",
            Reason::CommentBehindItem => {
                "a comment behind an item; a comment has a line of its own"
            }
            Reason::UnknownKeyword(_) => "no such keyword: ",
            Reason::LabelInLineText => "a label, which only the larger text has",
            Reason::UnknownLabel(_) => "no line before has the label ",
            Reason::LabelAgain(_) => "the label stands already in line ",
            Reason::TooFewWords => "a word too few",
            Reason::TooManyWords => "a word too many",
            Reason::OutOfRange(_) => "out of range: ",
            Reason::UnknownWord(_) => "no word that can stand here: ",
            Reason::TypeAgain(_) => "an equal type stands already in line ",
            Reason::SettingAgain(_) => "the setting stands already in line ",
            Reason::OutsideFunction => "no function or entry point begins before",
            Reason::NoForm => "no line like this can stand here",
        }
    }

    /// Adds the word or the number of the line that the reason names, if it names one.
    fn add_name(&self, text: &mut String) -> Result<(), AllocError>
        ensures { OnOk result (string_bytes text.new ≡ string_bytes text.old ++ named_by self.now) }
    {
        match self {
            Reason::UnknownKeyword(word)
            | Reason::UnknownLabel(word)
            | Reason::OutOfRange(word)
            | Reason::UnknownWord(word) => text.push_str(word.as_str()),
            Reason::LabelAgain(line) | Reason::TypeAgain(line) | Reason::SettingAgain(line) => {
                write!(text, "{line}")
            }
            _ => Ok(()),
        }
    }

    /// Adds the reason in words.
    #[tactic(auto, using(std::proofs::lemmas::List::append_assoc))]
    pub fn add_to(&self, text: &mut String) -> Result<(), AllocError>
        ensures { OnOk result (string_bytes text.new ≡ string_bytes text.old ++ reason_text self.now) }
    {
        text.push_str(self.before())?;
        self.add_name(text)
    }

    /// The reason in words.
    pub fn text(&self, alloc: Global) -> Result<String, AllocError>
        ensures { IfOk result (λ text. string_bytes text ≡ reason_text self.now) }
    {
        let mut text = String::new(alloc);
        self.add_to(&mut text)?;
        Ok(text)
    }
}
