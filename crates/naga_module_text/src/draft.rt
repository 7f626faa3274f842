//! A module, and how it is validated, while lines are read.

use crate::bindings::resource_of;
use crate::declarations::{Callable, Declarations};
use crate::entry_points::{EntryHead, entry_head};
use crate::forms::expression;
use crate::functions::{OpenFunction, PartWord, part_word_of};
use crate::items::{MOST_WORDS, only_handle, only_word};
use crate::settings::{Settings, capabilities_of, flags_of};
use crate::types::{address_space, type_inner};
use bitflags::Flags;
use naga_draft::draft::{Contents, Draft as ItemDraft};
use naga_draft::item::{Commented, Item, Part};
use naga_draft::unread::{Unread, known};
use naga_flags::flags::ShaderStages;
use naga_ir::handle::Handle;
use naga_ir::ir::{Constant, DiagnosticFilterNode, GlobalVariable, Module, Override};
use naga_ir::memory::OutOfMemory;
use naga_ir::span::Span;
use naga_ir::tags::{DiagnosticFilterNodeTag, TypeTag};
use naga_ir::text::Text;
use naga_ir::types::{Type, TypeInner};
use naga_text::line::{FixedLine, Line, read_line_after};
use naga_text::line_words::LineWords;
use naga_text::number::{handle, index, number_up_to, optional_handle};
use naga_text::words::{chosen, equals};
use std::alloc::Global;

/// What a line with a fixed number of words adds to a module, if the line text doesn't have it.
#[derive(Clone, Copy)]
enum Keyword {
    Flags,
    Capabilities,
    Name,
    GlobalVariable,
    Function,
    EntryPoint,
    SpecialTypes,
    Filter,
    FilterLeaf,
    Comment(CommentWord),
}

/// What a comment documents.
#[derive(Clone, Copy)]
enum CommentWord {
    Type,
    Function,
    EntryPoint,
    Constant,
    GlobalVariable,
}

/// The keyword of a word.
fn keyword_of(word: &[u8]) -> Option<Keyword> {
    let keywords = [
        ("flags", Keyword::Flags),
        ("caps", Keyword::Capabilities),
        ("name", Keyword::Name),
        ("global", Keyword::GlobalVariable),
        ("fn", Keyword::Function),
        ("entry", Keyword::EntryPoint),
        ("special", Keyword::SpecialTypes),
        ("filter", Keyword::Filter),
        ("filterleaf", Keyword::FilterLeaf),
        ("doctype", Keyword::Comment(CommentWord::Type)),
        ("docfn", Keyword::Comment(CommentWord::Function)),
        ("docentry", Keyword::Comment(CommentWord::EntryPoint)),
        ("docconst", Keyword::Comment(CommentWord::Constant)),
        ("docglobal", Keyword::Comment(CommentWord::GlobalVariable)),
    ];
    chosen(&keywords, word)
}

/// The one word that there has to be, as text.
fn only_text<'a>(words: &[&'a [u8]]) -> Option<&'a str> {
    str::from_utf8(only_word(words)?).ok()
}

/// `STAGES`
fn stages(words: &[&[u8]]) -> Option<ShaderStages> {
    let most = u64::from(ShaderStages::all().bits());
    let bits = number_up_to(only_word(words)?, most)?;
    Some(ShaderStages::from_bits_retain(u16::try_from(bits).ok()?))
}

/// `S T E|- [G:B] [coherent] [volatile]`
fn global_variable(words: &[&[u8]], name: Option<Text>) -> Option<GlobalVariable> {
    let [of, ty, init, rest @ ..] = words else {
        return None;
    };
    let resource = resource_of(rest)?;
    Some(GlobalVariable {
        name,
        space: address_space(of)?,
        binding: resource.binding,
        ty: handle(ty)?,
        init: optional_handle(init)?,
        memory_decorations: resource.memory_decorations,
    })
}

/// `D|-`
fn filter(words: &[&[u8]]) -> Option<DiagnosticFilterNode> {
    let parent = optional_handle(only_word(words)?)?;
    Some(DiagnosticFilterNode { parent })
}

/// An index: what a comment is on.
fn commented(on: CommentWord, words: &[&[u8]]) -> Option<Commented> {
    Some(match on {
        CommentWord::Type => Commented::Type_(only_handle(words)?),
        CommentWord::Function => Commented::Function(only_handle(words)?),
        CommentWord::EntryPoint => Commented::EntryPoint(index(only_word(words)?)?),
        CommentWord::Constant => Commented::Constant(only_handle(words)?),
        CommentWord::GlobalVariable => Commented::GlobalVariable(only_handle(words)?),
    })
}

/// The types that some built-in functions take or return, if a line says which these are.
#[derive(Clone, Copy)]
struct SpecialTypes {
    ray_desc: Option<Handle<TypeTag>>,
    ray_intersection: Option<Handle<TypeTag>>,
    ray_vertex_return: Option<Handle<TypeTag>>,
}

/// `T|- T|- T|-`
fn special_types(words: &[&[u8]]) -> Option<SpecialTypes> {
    let [desc, intersection, vertex_return] = words else {
        return None;
    };
    Some(SpecialTypes {
        ray_desc: optional_handle(desc)?,
        ray_intersection: optional_handle(intersection)?,
        ray_vertex_return: optional_handle(vertex_return)?,
    })
}

/// A module, and how it is validated, as far as lines were read.
#[derive(Drop)]
pub struct Draft {
    pub module: Module,
    pub settings: Settings,
    pub declarations: Declarations,
    /// The number, from 1, of the first line that can't be read.
    pub unreadable: Option<usize>,
}

/// What the lines so far say.
#[derive(Drop)]
struct LineReader {
    alloc: Global,
    draft: ItemDraft,
    declarations: Declarations,
    /// Whether literals stand for arguments that a function doesn't have.
    has_stand_ins: bool,
    /// The name of the next item that may have one.
    name: Option<Text>,
    /// The function or entry point to which lines still add.
    open: Option<OpenFunction>,
    /// What the last such line says, as a later one may say otherwise.
    special_types: Option<SpecialTypes>,
    filter_leaf: Option<Handle<DiagnosticFilterNodeTag>>,
}

impl LineReader {
    /// The empty module.
    fn new(alloc: Global, has_stand_ins: bool) -> LineReader {
        LineReader {
            alloc,
            draft: ItemDraft::new(alloc),
            declarations: Declarations::new(alloc),
            has_stand_ins,
            name: None,
            open: None,
            special_types: None,
            filter_leaf: None,
        }
    }

    /// `name WORD`
    fn set_name(&mut self, words: &[&[u8]]) -> Result<(), Unread> {
        let name = known(only_text(words))?;
        self.name = Some(Text::from_string(String::from_str(self.alloc, name)?));
        Ok(())
    }

    /// The item of a line of a fixed number of words that the line text has.
    fn item_of_fixed(&mut self, line: FixedLine) -> Item {
        match line {
            FixedLine::Flags(flags) => Item::Flags(flags),
            FixedLine::Capabilities(capabilities) => Item::Capabilities(capabilities),
            FixedLine::Resolved => Item::Resolved,
            FixedLine::Constant { ty, init } => {
                let name = self.name.take();
                Item::Constant(Constant { name, ty, init })
            }
            FixedLine::Override { ty, init, id } => {
                let name = self.name.take();
                Item::Override(Override { name, id, ty, init })
            }
            FixedLine::Doc { ty, member } => Item::Comment(Commented::Member(ty, member)),
        }
    }

    /// The item of a type.
    fn type_of(&mut self, inner: TypeInner) -> Item {
        let name = self.name.take();
        Item::Type_(Type { name, inner })
    }

    /// The item of a line of the line text.
    fn item_of(&mut self, line: Line) -> Item {
        match line {
            Line::Type_(inner) => self.type_of(inner),
            Line::Expression(expression) => Item::Expression(expression),
            Line::Fixed(line) => self.item_of_fixed(line),
        }
    }

    /// Adds the function or entry point to which the lines so far belong, if there is one.
    fn close_function(&mut self) -> Result<(), Unread> {
        let Some(open) = self.open.take() else {
            return Ok(());
        };
        let is_entry_point = open.is_entry_point;
        let declared = open.close(&mut self.draft)?;
        self.draft.close_function()?;
        let declarations = &mut self.declarations;
        if is_entry_point {
            declarations.last = Some(Callable::EntryPoint(declarations.entry_points.len()));
            declarations.entry_points.push(declared)?;
        } else {
            declarations.last = Some(Callable::Function(declarations.functions.len()));
            declarations.functions.push(declared)?;
        }
        Ok(())
    }

    /// `fn STAGES`
    fn open_function(&mut self, words: &[&[u8]]) -> Result<(), Unread> {
        let stages = known(stages(words))?;
        self.close_function()?;
        self.declarations.stages.push(stages)?;
        self.draft.add(Item::Function(self.name.take()))?;
        self.open = Some(OpenFunction::new(self.alloc, false, self.has_stand_ins));
        Ok(())
    }

    /// Adds what the line that begins an entry point says of it.
    fn add_head(&mut self, head: EntryHead) -> Result<(), Unread> {
        let EntryHead {
            stage,
            workgroup_size,
        } = head;
        if stage.stage.is_some() || stage.early_depth_test.is_some() {
            self.draft.add(Item::Part(Part::Stage(stage)))?;
        }
        match workgroup_size {
            Some(size) => self.draft.add(Item::Part(Part::WorkgroupSize(size))),
            None => Ok(()),
        }
    }

    /// `entry [STAGE|- [X Y Z] [EARLY]]`
    fn open_entry_point(&mut self, words: &[&[u8]]) -> Result<(), Unread> {
        let head = known(entry_head(words))?;
        self.close_function()?;
        let name = match self.name.take() {
            Some(name) => name,
            None => Text::new(self.alloc),
        };
        self.draft.add(Item::EntryPoint(name))?;
        self.add_head(head)?;
        self.open = Some(OpenFunction::new(self.alloc, true, self.has_stand_ins));
        Ok(())
    }

    /// Adds what a line of the module says that begins with a keyword.
    fn add(&mut self, keyword: Keyword, words: &[&[u8]]) -> Result<(), Unread> {
        match keyword {
            Keyword::Flags => {
                let flags = known(flags_of(known(only_text(words))?))?;
                self.draft.add(Item::Flags(flags))
            }
            Keyword::Capabilities => {
                let capabilities = known(capabilities_of(known(only_text(words))?))?;
                self.draft.add(Item::Capabilities(capabilities))
            }
            Keyword::Name => self.set_name(words),
            Keyword::GlobalVariable => {
                let variable = known(global_variable(words, self.name.take()))?;
                self.draft.add(Item::GlobalVariable(variable))
            }
            Keyword::Function => self.open_function(words),
            Keyword::EntryPoint => self.open_entry_point(words),
            Keyword::SpecialTypes => {
                self.special_types = Some(known(special_types(words))?);
                Ok(())
            }
            Keyword::Filter => self.draft.add(Item::Filter(known(filter(words))?)),
            Keyword::FilterLeaf => {
                self.filter_leaf = Some(known(only_handle(words))?);
                Ok(())
            }
            Keyword::Comment(on) => self.draft.add(Item::Comment(known(commented(on, words))?)),
        }
    }

    /// Adds what a line says of the last function or entry point.
    fn add_part(&mut self, part: PartWord, words: &[&[u8]]) -> Result<(), Unread> {
        let name = match part {
            PartWord::Argument | PartWord::Local => self.name.take(),
            _ => None,
        };
        let open = known(self.open.as_mut())?;
        open.add(&mut self.draft, part, words, name)
    }

    /// `g FORM`
    fn add_global_expression(&mut self, words: &mut LineWords) -> Result<(), Unread> {
        let expression = expression(self.alloc, words)?;
        self.draft.add(Item::Expression(expression))
    }

    /// `others T..`
    fn add_other_types(&mut self, words: &mut LineWords) -> Result<(), Unread> {
        while let Some(word) = words.next() {
            self.draft.add(Item::PredeclaredType(known(handle(word))?))?;
        }
        Ok(())
    }

    /// Adds what a line says that has a fixed number of words after its first, or any line of the line text.
    fn add_short(&mut self, first: &[u8], words: &mut LineWords) -> Result<(), Unread> {
        let mut room: [&[u8]; MOST_WORDS] = [&[]; MOST_WORDS];
        if let Some(part) = part_word_of(first) {
            return self.add_part(part, known(words.all(&mut room))?);
        }
        if let Some(keyword) = keyword_of(first) {
            return self.add(keyword, known(words.all(&mut room))?);
        }
        let line = known(read_line_after(self.alloc, first, words)?)?;
        let item = self.item_of(line);
        self.draft.add(item)
    }

    /// Adds what the words of a line say.
    fn add_words(&mut self, mut words: LineWords) -> Result<(), Unread> {
        let first = known(words.next())?;
        match first {
            _ if equals(first, b"s") => {
                let open = known(self.open.as_mut())?;
                open.add_statement(&mut self.draft, &mut words)
            }
            _ if equals(first, b"type") => {
                let inner = type_inner(self.alloc, &mut words)?;
                let item = self.type_of(inner);
                self.draft.add(item)
            }
            _ if equals(first, b"g") => self.add_global_expression(&mut words),
            _ if equals(first, b"others") => self.add_other_types(&mut words),
            _ => self.add_short(first, &mut words),
        }
    }

    /// Adds what a line says, unless it is empty or a comment.
    fn read_line(&mut self, line: &str) -> Result<(), Unread> {
        if line.is_empty() || line.starts_with('#') {
            return Ok(());
        }
        if let Some(form) = line.strip_prefix("f ") {
            let open = known(self.open.as_mut())?;
            return open.add_expression(&mut self.draft, form);
        }
        self.add_words(LineWords::new(line.as_bytes()))
    }

    /// Adds what the lines of a text say, up to the first that can't be read, and returns the number of that one.
    fn read(&mut self, text: &str) -> Result<Option<usize>, OutOfMemory> {
        let mut number = 0usize;
        for line in text.lines() {
            number = number.saturating_add(1);
            let short = u32::try_from(number).unwrap_or(u32::MAX);
            self.draft.set_span(Span::new(short, short));
            if !is_read(self.read_line(line))? {
                return Ok(Some(number));
            }
        }
        Ok(if is_read(self.close_function())? {
            None
        } else {
            Some(number)
        })
    }

    /// What was read, without the function or entry point that is still open.
    fn into_draft(self, unreadable: Option<usize>) -> Draft {
        let LineReader {
            draft,
            declarations,
            special_types,
            filter_leaf,
            ..
        } = self;
        let Contents {
            mut module,
            flags,
            capabilities,
            resolved,
        } = draft.into_contents();
        if let Some(said) = special_types {
            module.special_types.ray_desc = said.ray_desc;
            module.special_types.ray_intersection = said.ray_intersection;
            module.special_types.ray_vertex_return = said.ray_vertex_return;
        }
        module.diagnostic_filter_leaf = filter_leaf;
        Draft {
            module,
            settings: Settings {
                flags,
                capabilities,
                resolved: if resolved { Some(true) } else { None },
            },
            declarations,
            unreadable,
        }
    }
}

/// Whether a line was read, unless memory was refused.
fn is_read(read: Result<(), Unread>) -> Result<bool, OutOfMemory> {
    match read {
        Ok(()) => Ok(true),
        Err(Unread::Item) => Ok(false),
        Err(Unread::OutOfMemory) => Err(OutOfMemory),
    }
}

impl Draft {
    /// The module that the lines of a text describe, or those before the first that can't be read. If
    /// `has_stand_ins`, a literal stands for each argument that a function doesn't have, since a rule can be
    /// answered only if the arguments exist that the expressions before name.
    ///
    /// # Errors
    ///
    /// `OutOfMemory` if a request for memory was refused.
    pub fn of_text(alloc: Global, text: &str, has_stand_ins: bool) -> Result<Draft, OutOfMemory> {
        let mut lines = LineReader::new(alloc, has_stand_ins);
        let unreadable = lines.read(text)?;
        Ok(lines.into_draft(unreadable))
    }
}
