//! A function or entry point while its lines are read.

use crate::bindings::binding;
use crate::blocks::OpenBlocks;
use crate::declarations::Declared;
use crate::entry_points::{mesh_info, workgroup_sizes};
use crate::forms::expression;
use crate::items::only_handle;
use naga_draft::draft::Draft;
use naga_draft::item::{Item, Part};
use naga_draft::unread::{Unread, known};
use naga_ir::expression::{Expression, Literal};
use naga_ir::handle::Handle;
use naga_ir::ir::{FunctionArgument, FunctionResult, LocalVariable, MOST_ITEMS};
use naga_ir::tags::TypeTag;
use naga_ir::text::Text;
use naga_ir::types::Binding;
use naga_text::line_words::LineWords;
use naga_text::number::{handle, optional_handle};
use naga_text::words::chosen;
use std::alloc::Global;

/// What a line with a fixed number of words says of a function or an entry point.
#[derive(Clone, Copy)]
pub enum PartWord {
    Argument,
    Local,
    Result,
    Named,
    FilterLeaf,
    WorkgroupSizes,
    Payload,
    Mesh,
}

/// The part that a line's first word names.
pub fn part_word_of(word: &[u8]) -> Option<PartWord> {
    let parts = [
        ("arg", PartWord::Argument),
        ("local", PartWord::Local),
        ("result", PartWord::Result),
        ("named", PartWord::Named),
        ("leaf", PartWord::FilterLeaf),
        ("wgsizes", PartWord::WorkgroupSizes),
        ("payload", PartWord::Payload),
        ("mesh", PartWord::Mesh),
    ];
    chosen(&parts, word)
}

/// `T [BINDING]`
fn bound_type(words: &[&[u8]]) -> Option<(Handle<TypeTag>, Option<Binding>)> {
    let (ty, rest) = words.split_first()?;
    Some((handle(ty)?, binding(rest)?))
}

/// `local T E|-`
fn local_variable(words: &[&[u8]], name: Option<Text>) -> Option<Part> {
    let [ty, init] = words else { return None };
    Some(Part::LocalVariable(LocalVariable {
        name,
        ty: handle(ty)?,
        init: optional_handle(init)?,
    }))
}

/// The form of an expression, and the type that is declared behind a colon.
fn typed(form: &str) -> Option<(&str, Option<Handle<TypeTag>>)> {
    match form.rsplit_once(" : ") {
        Some((form, ty)) => Some((form, Some(handle(ty.as_bytes())?))),
        None => Some((form, None)),
    }
}

/// The index of the argument that an expression is, if it is one.
fn argument_of(expression: &Expression) -> Option<u32> {
    match expression {
        Expression::FunctionArgument(index) => Some(*index),
        _ => None,
    }
}

/// Adds a part of the function or entry point that is open.
fn add_part(draft: &mut Draft, part: Part) -> Result<(), Unread> {
    draft.add(Item::Part(part))
}

/// Adds a part if a line said it.
fn add_last(draft: &mut Draft, said: Option<Part>) -> Result<(), Unread> {
    match said {
        Some(part) => add_part(draft, part),
        None => Ok(()),
    }
}

/// What a later line may say otherwise. Only what the last line says is added, when the function ends.
#[derive(Drop)]
struct LastParts {
    result: Option<Part>,
    filter_leaf: Option<Part>,
    workgroup_sizes: Option<Part>,
    payload: Option<Part>,
    mesh: Option<Part>,
}

/// A function, or what becomes an entry point, to which lines still add.
#[derive(Drop)]
pub struct OpenFunction {
    alloc: Global,
    pub is_entry_point: bool,
    /// Whether literals stand for arguments that the function doesn't have.
    has_stand_ins: bool,
    argument_count: usize,
    declared: Vec<Declared>,
    blocks: OpenBlocks,
    last: LastParts,
}

impl OpenFunction {
    /// A function or entry point without parts.
    pub fn new(alloc: Global, is_entry_point: bool, has_stand_ins: bool) -> OpenFunction {
        OpenFunction {
            alloc,
            is_entry_point,
            has_stand_ins,
            argument_count: 0,
            declared: Vec::new(alloc),
            blocks: OpenBlocks::new(alloc),
            last: LastParts {
                result: None,
                filter_leaf: None,
                workgroup_sizes: None,
                payload: None,
                mesh: None,
            },
        }
    }

    /// `arg T [BINDING]`
    fn add_argument(
        &mut self,
        draft: &mut Draft,
        words: &[&[u8]],
        name: Option<Text>,
    ) -> Result<(), Unread> {
        let (ty, binding) = known(bound_type(words))?;
        self.argument_count = self.argument_count.saturating_add(1);
        add_part(
            draft,
            Part::Argument(FunctionArgument { name, ty, binding }),
        )
    }

    /// Adds the expression of `FORM` or `FORM : T`.
    pub fn add_expression(&mut self, draft: &mut Draft, form: &str) -> Result<(), Unread> {
        let Some((form, ty)) = typed(form) else {
            return Err(Unread::Item);
        };
        let mut words = LineWords::new(form.as_bytes());
        let expression = expression(self.alloc, &mut words)?;
        // It is missing unless a later line adds it.
        let missing = if self.has_stand_ins {
            argument_of(&expression)
        } else {
            None
        };
        add_part(draft, Part::Expression(expression))?;
        self.declared.push(Declared { ty, missing })?;
        Ok(())
    }

    /// What only an entry point has, of the last line that says it.
    fn entry_parts(&mut self) -> Result<&mut LastParts, Unread> {
        if self.is_entry_point {
            Ok(&mut self.last)
        } else {
            Err(Unread::Item)
        }
    }

    /// Adds the statement that words say, or opens or closes a block.
    pub fn add_statement(
        &mut self,
        draft: &mut Draft,
        words: &mut LineWords,
    ) -> Result<(), Unread> {
        self.blocks.add(self.alloc, draft, words)
    }

    /// Adds a part. An argument or a variable takes the name.
    pub fn add(
        &mut self,
        draft: &mut Draft,
        part: PartWord,
        words: &[&[u8]],
        name: Option<Text>,
    ) -> Result<(), Unread> {
        match part {
            PartWord::Argument => self.add_argument(draft, words, name)?,
            PartWord::Local => add_part(draft, known(local_variable(words, name))?)?,
            PartWord::Result => {
                let (ty, binding) = known(bound_type(words))?;
                self.last.result = Some(Part::Result(FunctionResult { ty, binding }));
            }
            PartWord::Named => {
                let named = known(only_handle(words))?;
                add_part(draft, Part::NamedExpression(named, Text::new(self.alloc)))?;
            }
            PartWord::FilterLeaf => {
                self.last.filter_leaf = Some(Part::FilterLeaf(known(only_handle(words))?));
            }
            PartWord::WorkgroupSizes => {
                let sizes = known(workgroup_sizes(words))?;
                self.entry_parts()?.workgroup_sizes = Some(Part::WorkgroupSizes(sizes));
            }
            PartWord::Payload => {
                let payload = known(only_handle(words))?;
                self.entry_parts()?.payload = Some(Part::TaskPayload(payload));
            }
            PartWord::Mesh => {
                let mesh = known(mesh_info(words))?;
                self.entry_parts()?.mesh = Some(Part::MeshOutput(mesh));
            }
        }
        Ok(())
    }

    /// Puts a literal in the place of each argument that the function doesn't have.
    fn replace_missing_arguments(&mut self, draft: &mut Draft) {
        let count = self.argument_count;
        for (place, declared) in self.declared.iter_mut().enumerate() {
            match declared.missing {
                Some(index) if (index as usize) < count => declared.missing = None,
                Some(_) if place < MOST_ITEMS => {
                    let literal = Expression::Literal(Literal::Bool(false));
                    draft.replace_expression(Handle::new(place as u32), literal);
                }
                _ => (),
            }
        }
    }

    /// Adds what the end of the function adds, and returns what is declared of its expressions.
    pub fn close(mut self, draft: &mut Draft) -> Result<Vec<Declared>, Unread> {
        self.replace_missing_arguments(draft);
        let OpenFunction {
            declared,
            mut blocks,
            last,
            ..
        } = self;
        blocks.close_all(draft)?;
        add_last(draft, last.result)?;
        add_last(draft, last.filter_leaf)?;
        add_last(draft, last.workgroup_sizes)?;
        add_last(draft, last.payload)?;
        add_last(draft, last.mesh)?;
        Ok(declared)
    }
}
