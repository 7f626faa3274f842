//! What one line says.

ghost use Rattle.naga_flags.specs.Bits.{all_capabilities, all_validation_flags};
ghost use Rattle.naga_text.specs.Forms.{IsForm};
ghost use Rattle.naga_text.specs.LineWords.{lines_after, words_left};
ghost use Rattle.naga_text.specs.WordForms.{read_by};
ghost use Rattle.naga_text.specs.steps.LineForms.{capabilities_of, constant_of, doc_of, expression_line_of, fixed_readers, flags_of, line_of, override_of, resolved_of, type_line_of};
ghost use Rattle.naga_text.specs.declared.line.Line.{Line};
ghost use Rattle.std.specs.Prelude.{◌≡◌, ◌∷◌, IfOk, IfSome, Some, map};

use crate::expressions::expression;
use crate::line_words::LineWords;
use crate::number::{handle, index, number_up_to, optional_handle, optional_number};
use crate::types::type_inner;
use crate::words::equals;
use bitflags::Flags;
use naga_flags::flags::{Capabilities, ValidationFlags};
use naga_ir::OutOfMemory;
use naga_ir::expression::Expression;
use naga_ir::handle::Handle;
use naga_ir::tags::{ExpressionTag, TypeTag};
use naga_ir::types::TypeInner;
use std::alloc::Global;

/// A line of a fixed number of words.
#[derive(Debug, Drop)]
pub enum FixedLine {
    /// `flags N`: which parts of the module are validated.
    Flags(ValidationFlags),
    /// `caps N`: what the module may use.
    Capabilities(Capabilities),
    /// `resolved`: overrides have to have their values.
    Resolved,
    /// `const T E`: a constant, which has no name.
    Constant {
        ty: Handle<TypeTag>,
        init: Handle<ExpressionTag>,
    },
    /// `override T E ID`: an override, which has no name.
    Override {
        ty: Handle<TypeTag>,
        init: Option<Handle<ExpressionTag>>,
        id: Option<u16>,
    },
    /// `doc T M`: a comment on a member of a type, which has no texts.
    Doc {
        ty: Handle<TypeTag>,
        member: usize,
    },
}

/// A line that is neither empty nor a comment.
#[derive(Debug, Drop)]
pub enum Line {
    /// `type ..`: a type, which has no name.
    Type_(TypeInner),
    /// `expr ..`: a global expression.
    Expression(Expression),
    /// Any other line.
    Fixed(FixedLine),
}

/// The bits of all parts that can be validated.
fn all_flags() -> u64
    ensures { result ≡ all_validation_flags }
{
    u64::from(ValidationFlags::all().bits())
}

/// The bits of all capabilities.
fn all_capabilities() -> u64
    ensures { result ≡ all_capabilities }
{
    Capabilities::all().bits()
}

/// The most words after a keyword other than `type` and `expr`: an override has as many.
const MOST_WORDS: usize = 3;

fn flags(words: &[&[u8]]) -> Option<FixedLine>
    ensures { result ≡ flags_of (map (λ w. w.now) words.now) }
{
    let [n] = words else { return None };
    let bits = number_up_to(n, all_flags())? as u8;
    Some(FixedLine::Flags(ValidationFlags::from_bits_retain(bits)))
}

fn capabilities(words: &[&[u8]]) -> Option<FixedLine>
    ensures { result ≡ capabilities_of (map (λ w. w.now) words.now) }
{
    let [n] = words else { return None };
    let bits = number_up_to(n, all_capabilities())?;
    Some(FixedLine::Capabilities(Capabilities::from_bits_retain(bits)))
}

fn resolved(words: &[&[u8]]) -> Option<FixedLine>
    ensures { result ≡ resolved_of (map (λ w. w.now) words.now) }
{
    if words.is_empty() {
        Some(FixedLine::Resolved)
    } else {
        None
    }
}

fn constant(words: &[&[u8]]) -> Option<FixedLine>
    ensures { result ≡ constant_of (map (λ w. w.now) words.now) }
{
    let [ty, init] = words else { return None };
    Some(FixedLine::Constant {
        ty: handle(ty)?,
        init: handle(init)?,
    })
}

fn override_line(words: &[&[u8]]) -> Option<FixedLine>
    ensures { result ≡ override_of (map (λ w. w.now) words.now) }
{
    let [ty, init, id] = words else { return None };
    Some(FixedLine::Override {
        ty: handle(ty)?,
        init: optional_handle(init)?,
        id: optional_number(id)?,
    })
}

fn doc(words: &[&[u8]]) -> Option<FixedLine>
    ensures { result ≡ doc_of (map (λ w. w.now) words.now) }
{
    let [ty, member] = words else { return None };
    Some(FixedLine::Doc {
        ty: handle(ty)?,
        member: index(member)?,
    })
}

fn type_line(alloc: Global, words: &mut LineWords) -> Result<Option<Line>, OutOfMemory>
    ensures { IfOk result (λ read. read ≡ type_line_of (words_left words.old)) }
{
    match type_inner(alloc, words)? {
        Some(inner) => Ok(Some(Line::Type_(inner))),
        None => Ok(None),
    }
}

fn expression_line(alloc: Global, words: &mut LineWords) -> Result<Option<Line>, OutOfMemory>
    ensures { IfOk result (λ read. read ≡ expression_line_of (words_left words.old)) }
{
    match expression(alloc, words)? {
        Some(expression) => Ok(Some(Line::Expression(expression))),
        None => Ok(None),
    }
}

/// The line of a keyword other than `type` and `expr`, and of the words after it.
fn fixed_line(keyword: &[u8], words: &[&[u8]]) -> Option<FixedLine>
    ensures { result ≡ read_by fixed_readers keyword.now (map (λ w. w.now) words.now) }
{
    match keyword {
        _ if equals(keyword, b"flags") => flags(words),
        _ if equals(keyword, b"caps") => capabilities(words),
        _ if equals(keyword, b"resolved") => resolved(words),
        _ if equals(keyword, b"const") => constant(words),
        _ if equals(keyword, b"override") => override_line(words),
        _ if equals(keyword, b"doc") => doc(words),
        _ => None,
    }
}

/// The line of a keyword other than `type` and `expr`, and of the words after it, of which only so many are read as
/// such a line has.
pub(crate) fn short_line(keyword: &[u8], words: &mut LineWords) -> Option<FixedLine>
    ensures read { result ≡ read_by fixed_readers keyword.now (words_left words.old) }
    ensures lines { lines_after words.new ≡ lines_after words.old }
{
    let mut room: [&[u8]; MOST_WORDS] = [&[]; MOST_WORDS];
    fixed_line(keyword, words.all(&mut room)?)
}

/// The line of a keyword and of the words after it. It is apart from `read_line_after`, whose two clauses follow from
/// the one here.
fn line_after(
    alloc: Global,
    keyword: &[u8],
    words: &mut LineWords,
) -> Result<Option<Line>, OutOfMemory>
    ensures { IfOk result (λ read. read ≡ line_of (keyword.now ∷ words_left words.old)) }
{
    match keyword {
        _ if equals(keyword, b"type") => type_line(alloc, words),
        _ if equals(keyword, b"expr") => expression_line(alloc, words),
        _ => match short_line(keyword, words) {
            Some(line) => Ok(Some(Line::Fixed(line))),
            None => Ok(None),
        },
    }
}

/// The line that has this keyword and the words that are left after it, if one has.
///
/// # Errors
///
/// `OutOfMemory` if a request for memory was refused.
pub fn read_line_after(
    alloc: Global,
    keyword: &[u8],
    words: &mut LineWords,
) -> Result<Option<Line>, OutOfMemory>
    ensures found { IfOk result (λ read. IfSome read (λ line. IsForm (keyword.now ∷ words_left words.old) line)) }
    ensures only { (line : Line) → IsForm (keyword.now ∷ words_left words.old) line
        → IfOk result (λ read. read ≡ Some line) }
{
    line_after(alloc, keyword, words)
}

/// The line that has the words that are left, if one has. None of them is read of `words` itself.
///
/// # Errors
///
/// `OutOfMemory` if a request for memory was refused.
pub fn read_line(alloc: Global, words: &LineWords) -> Result<Option<Line>, OutOfMemory>
    ensures found { IfOk result (λ read. IfSome read (λ line. IsForm (words_left words.now) line)) }
    ensures only { (line : Line) → IsForm (words_left words.now) line → IfOk result (λ read. read ≡ Some line) }
{
    let mut words = *words;
    match words.next() {
        Some(keyword) => read_line_after(alloc, keyword, &mut words),
        None => Ok(None),
    }
}
