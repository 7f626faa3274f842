//! The lines of a text, and the module and settings that they say.

ghost use Rattle.naga_arena.specs.Memory.{UnlessOutOfMemory};
ghost use Rattle.naga_text.specs.Text.{IsFirstUnreadable, IsText, NamesLine, has_content};
ghost use Rattle.naga_text.specs.Words.{lines_of};
ghost use Rattle.naga_text.specs.declared.line.Line.TheVariants.{Fixed};
ghost use Rattle.naga_text.specs.declared.text.Contents.{Contents};
ghost use Rattle.naga_text.specs.declared.text.TextError.TheVariants as error;
ghost use Rattle.naga_text.specs.LineWords.{first_line, lines_after, words_left};
ghost use Rattle.naga_text.specs.steps.SoFar.{AreAdded, AreRead, IsAdded, IsNewItem, IsNewType, IsReadNext, IsSetOnce, IsTypeAdded, ReadSoFar, finished};
ghost use Rattle.std.specs.Prelude.{◌≡◌, ◌<◌, ◌∷◌, ◌++◌, IfErr, IfNone, IfOk, IfSome, None, Ok, [], length, map};
ghost use Rattle.naga_text.specs.ErrorNames.{text_error_name};

use crate::expressions::expression;
use crate::line::{FixedLine, short_line};
use crate::line_words::LineWords;
use crate::types::{short_type, struct_type};
use crate::words::equals;
use naga_flags::flags::{Capabilities, ValidationFlags};
use naga_ir::OutOfMemory;
use naga_ir::arena::Arena;
use naga_ir::handle::Handle;
use naga_ir::ir::{Constant, MOST_ITEMS, Module, Override};
use naga_ir::list::List;
use naga_ir::span::Span;
use naga_ir::tags::TypeTag;
use naga_ir::text::Text;
use naga_ir::types::{Type, TypeInner};
use naga_ir::unique_arena::UniqueArena;
use std::alloc::{AllocError, Global};

/// What a text says: a module, and settings by which it is validated. Who takes the text of a stranger decides what
/// the settings are worth.
#[derive(Drop)]
pub struct Contents {
    /// The types, global expressions, constants and overrides that the text describes, each in its order,
    /// without names and with the undefined span, and its comments on members. It has nothing else.
    pub module: Module,
    /// Which parts of the module are validated, if a line says so.
    pub flags: Option<ValidationFlags>,
    /// What the module may use, if a line says so.
    pub capabilities: Option<Capabilities>,
    /// Whether a line says that overrides have to have their values.
    pub resolved: bool,
}

/// Why a text was not read.
#[derive(Clone, Copy, Debug, PartialEq)]
pub enum TextError {
    /// The number, from 1, of the first line that can't be read.
    Line(usize),
    /// A request for memory was refused.
    OutOfMemory,
}

impl TextError {
    /// The name of the variant.
    pub fn name(&self) -> &'static str
        ensures { result.now ≡ text_error_name self.now }
    {
        match self {
            TextError::Line(_) => "Line",
            TextError::OutOfMemory => "OutOfMemory",
        }
    }
}

impl From<AllocError> for TextError {
    ghost from_gives = { λ _ e. e ≡ error.OutOfMemory };

    fn from(_: AllocError) -> TextError {
        TextError::OutOfMemory
    }
}

impl From<OutOfMemory> for TextError {
    ghost from_gives = { λ _ e. e ≡ error.OutOfMemory };

    fn from(_: OutOfMemory) -> TextError {
        TextError::OutOfMemory
    }
}

/// What the lines so far say: the module, and each setting that one of them sets.
#[derive(Drop)]
struct ContentsSoFar {
    module: Module,
    flags: Option<ValidationFlags>,
    capabilities: Option<Capabilities>,
    resolved: Option<bool>,
}

impl ContentsSoFar {
    fn new(alloc: Global) -> ContentsSoFar
        ensures { ReadSoFar [] result }
    {
        ContentsSoFar {
            module: Module::new(alloc),
            flags: None,
            capabilities: None,
            resolved: None,
        }
    }

    /// The contents.
    fn finish(self) -> Contents
        ensures { result ≡ finished self }
    {
        Contents {
            module: self.module,
            flags: self.flags,
            capabilities: self.capabilities,
            resolved: self.resolved.unwrap_or_default(),
        }
    }
}

/// Gives a setting its value, and returns whether it had none yet.
fn set_once<T: Copy>(setting: &mut Option<T>, value: T) -> bool
    ensures { IsSetOnce setting.old value setting.new result }
{
    if setting.is_some() {
        return false;
    }
    *setting = Some(value);
    true
}

/// Adds a type, and returns whether it is new and had room.
fn add_type(types: &mut UniqueArena, inner: TypeInner) -> Result<bool, OutOfMemory>
    ensures { IfOk result (IsNewType types.old inner types.new) }
{
    let count = types.len();
    if count == MOST_ITEMS {
        return Ok(false);
    }
    let handle = types.insert(Type { name: None, inner }, Span::default())?;
    Ok(handle.index() == count)
}

/// Adds the type that the words after `type` describe, and returns whether they do, and it is new and had room. A type
/// without members is handed on as it was read, since it is wide, and most lines of a text are such types.
fn add_type_of(
    alloc: Global,
    types: &mut UniqueArena,
    words: &mut LineWords,
) -> Result<bool, OutOfMemory>
    ensures added { IfOk result (IsTypeAdded types.old (words_left words.old) types.new) }
    ensures lines { lines_after words.new ≡ lines_after words.old }
{
    let Some(form) = words.next() else {
        return Ok(false);
    };
    let inner = if equals(form, b"struct") {
        struct_type(alloc, words)?
    } else {
        short_type(form, words)
    };
    match inner {
        Some(inner) => add_type(types, inner),
        None => Ok(false),
    }
}

/// Adds an item, and returns whether the arena had room for it.
fn add_item<T: Drop, K>(items: &mut Arena<T, K>, item: T) -> Result<bool, OutOfMemory>
    ensures { IfOk result (IsNewItem items.old item items.new) }
{
    if items.len() == MOST_ITEMS {
        return Ok(false);
    }
    items.append(item, Span::default())?;
    Ok(true)
}

/// Adds a comment without texts.
fn add_comment(
    alloc: Global,
    comments: &mut List<((Handle<TypeTag>, usize), List<Text>)>,
    ty: Handle<TypeTag>,
    member: usize,
) -> Result<(), OutOfMemory>
    ensures { IfOk result (λ _. comments.new ≡ comments.old ++ ((ty, member), []) ∷ []) }
{
    comments.push(((ty, member), List::new(alloc)))
}

/// Adds what a line of a fixed number of words says, and returns whether it can stand after the lines before it.
fn add_fixed(
    alloc: Global,
    so_far: &mut ContentsSoFar,
    line: FixedLine,
) -> Result<bool, OutOfMemory>
    ensures { IfOk result (IsAdded so_far.old (Fixed line) so_far.new) }
{
    let module = &mut so_far.module;
    match line {
        FixedLine::Flags(flags) => Ok(set_once(&mut so_far.flags, flags)),
        FixedLine::Capabilities(capabilities) => {
            Ok(set_once(&mut so_far.capabilities, capabilities))
        }
        FixedLine::Resolved => Ok(set_once(&mut so_far.resolved, true)),
        FixedLine::Constant { ty, init } => {
            let name = None;
            add_item(&mut module.constants, Constant { name, ty, init })
        }
        FixedLine::Override { ty, init, id } => {
            let name = None;
            add_item(&mut module.overrides, Override { name, id, ty, init })
        }
        FixedLine::Doc { ty, member } => {
            add_comment(alloc, &mut module.doc_comments.struct_members, ty, member)?;
            Ok(true)
        }
    }
}

/// Adds what the words of a line say, and returns whether they say something that can stand after the lines before it.
/// A type and an expression are wide, so they go from their words to their arena, with no `Line` between.
fn add_words(
    alloc: Global,
    so_far: &mut ContentsSoFar,
    words: &mut LineWords,
) -> Result<bool, OutOfMemory>
    ensures added { IfOk result (AreAdded so_far.old (words_left words.old) so_far.new) }
    ensures lines { lines_after words.new ≡ lines_after words.old }
{
    let Some(keyword) = words.next() else {
        return Ok(false);
    };
    if equals(keyword, b"type") {
        return add_type_of(alloc, &mut so_far.module.types, words);
    }
    if equals(keyword, b"expr") {
        return match expression(alloc, words)? {
            Some(expression) => add_item(&mut so_far.module.global_expressions, expression),
            None => Ok(false),
        };
    }
    match short_line(keyword, words) {
        Some(line) => add_fixed(alloc, so_far, line),
        None => Ok(false),
    }
}

/// Whether the first line of a text is neither empty nor a comment.
fn has_content(text: &[u8]) -> bool
    ensures { result ≡ has_content (first_line text.now) }
{
    match text {
        [] | [b'\n' | b'#', ..] => false,
        _ => true,
    }
}

/// Reads the first line of a text, and returns whether it could be read, and the bytes after that line's end if
/// another line follows.
fn read_next<'a>(
    alloc: Global,
    so_far: &mut ContentsSoFar,
    text: &'a [u8],
) -> Result<(bool, Option<&'a [u8]>), OutOfMemory>
    ensures read { IfOk result (λ r. IsReadNext so_far.old (first_line text.now) so_far.new r.0) }
    ensures last { IfOk result (λ r. IfNone r.1 (lines_of text.now ≡ first_line text.now ∷ [])) }
    ensures more { IfOk result (λ r. IfSome r.1 (λ rest. lines_of text.now
        ≡ first_line text.now ∷ lines_of rest.now)) }
{
    let mut words = LineWords::new(text);
    if !has_content(text) {
        return Ok((true, words.others()));
    }
    let added = add_words(alloc, so_far, &mut words)?;
    Ok((added, words.others()))
}

/// Reads line after line.
fn read_lines(alloc: Global, text: &[u8]) -> Result<Contents, TextError>
    ensures { AreRead (lines_of text.now) result }
{
    let mut so_far = ContentsSoFar::new(alloc);
    let mut rest = text;
    let mut count = 0;
    'lines: loop {
        let (read, others) = read_next(alloc, &mut so_far, rest)?;
        if !read {
            return Err(TextError::Line(count + 1));
        }
        match others {
            Some(others) => rest = others,
            None => return Ok(so_far.finish()),
        }
        count += 1;
    }
}

/// Reads what a text says.
///
/// A line is empty, or a comment that begins with `#`, or has one of the forms of [`Line`], its words
/// parted by single spaces. Each setting is set once at most, and each type described once. What an index
/// names need not exist.
///
/// # Errors
///
/// - `Line` of the first line that has no form, sets a setting again, describes a type that the lines
///   before it describe already, or describes an item for which the arena has no room.
/// - `OutOfMemory` if a request for memory was refused.
pub fn read_text(alloc: Global, text: &[u8]) -> Result<Contents, TextError>
    // What is read is what the text says, and a line that is named is the first that can't be read.
    ensures text { UnlessOutOfMemory (λ e. e ≡ TextError.OutOfMemory) result (IsText (lines_of text.now))
        (λ e. NamesLine e (IsFirstUnreadable (lines_of text.now))) }
    // What the text says is read.
    ensures only { (contents : Contents) → IsText (lines_of text.now) contents →
        UnlessOutOfMemory (λ e. e ≡ TextError.OutOfMemory) result (λ read. read ≡ contents) (λ _. ⊥) }
{
    read_lines(alloc, text)
}
