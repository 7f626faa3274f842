//! A function or entry point while its parts are read.

ghost use Rattle.naga_draft.specs.Items.{Head, entry_point, function};
ghost use Rattle.naga_draft.specs.declared.item.Part.{Part};
ghost use Rattle.naga_draft.specs.declared.unread.Unread.TheVariants as unread;
ghost use Rattle.naga_draft.specs.OpenFunctions.{AreParts, IsFinished, IsSection, SaysNoBlocks, with_expression};
ghost use Rattle.std.specs.Prelude.{◌≡◌, ◌++◌, ◌∷◌, [], IfErr, IfOk, List};

use crate::adding::{append, push, set_once};
use crate::blocks::OpenBlocks;
use crate::item::{EntryStage, Part};
use crate::unread::Unread;
use naga_ir::expression::Expression;
use naga_ir::handle::Handle;
use naga_ir::ir::{EntryPoint, Function, MeshStageInfo};
use naga_ir::span::Span;
use naga_ir::tags::{ExpressionTag, GlobalVariableTag};
use naga_ir::text::Text;
use std::alloc::Global;

/// What an entry point has besides its function.
#[derive(Drop)]
struct EntryParts {
    name: Text,
    stage: Option<EntryStage>,
    workgroup_size: Option<[u32; 3]>,
    workgroup_sizes: Option<[Option<Handle<ExpressionTag>>; 3]>,
    payload: Option<Handle<GlobalVariableTag>>,
    mesh: Option<MeshStageInfo>,
}

/// A function, or what becomes an entry point, to which items still add.
#[derive(Drop)]
pub struct OpenFunction {
    function: Function,
    blocks: OpenBlocks,
    entry: Option<EntryParts>,
}

/// A function or entry point, to which no item adds anything more.
#[derive(Drop)]
pub enum Finished {
    Function(Function),
    EntryPoint(EntryPoint),
}

impl OpenFunction {
    /// A function without parts.
    pub fn new(alloc: Global, name: Option<Text>) -> OpenFunction
        ensures { AreParts (function name) [] result }
    {
        let mut function = Function::new(alloc);
        function.name = name;
        OpenFunction {
            function,
            blocks: OpenBlocks::new(alloc),
            entry: None,
        }
    }

    /// An entry point without parts.
    pub fn new_entry(alloc: Global, name: Text) -> OpenFunction
        ensures { AreParts (entry_point name) [] result }
    {
        OpenFunction {
            function: Function::new(alloc),
            blocks: OpenBlocks::new(alloc),
            entry: Some(EntryParts {
                name,
                stage: None,
                workgroup_size: None,
                workgroup_sizes: None,
                payload: None,
                mesh: None,
            }),
        }
    }

    /// Adds a part, if it can stand after the parts before it.
    pub fn add(&mut self, part: Part) -> Result<(), Unread>
        ensures added { (head : Head) (parts : List Part) → AreParts head parts self.old → SaysNoBlocks part
            → IfOk result (λ _. AreParts head (parts ++ part ∷ []) self.new) }
        ensures refused { (head : Head) (parts : List Part) → AreParts head parts self.old
            → IfErr result (λ e. e ≡ unread.Item
            → (more : List Part) → ¬ (IsSection head (parts ++ part ∷ more))) }
    {
        let function = &mut self.function;
        match part {
            Part::Argument(argument) => push(&mut function.arguments, argument),
            Part::LocalVariable(variable) => {
                append(&mut function.local_variables, variable, Span::default())
            }
            Part::Result(result) => set_once(&mut function.result, result),
            Part::NamedExpression(named, name) => {
                push(&mut function.named_expressions, (named, name))
            }
            Part::FilterLeaf(filter) => set_once(&mut function.diagnostic_filter_leaf, filter),
            Part::WorkgroupSizes(sizes) => match &mut self.entry {
                Some(entry) => set_once(&mut entry.workgroup_sizes, sizes),
                None => Err(Unread::Item),
            },
            Part::Stage(stage) => match &mut self.entry {
                Some(entry) => set_once(&mut entry.stage, stage),
                None => Err(Unread::Item),
            },
            Part::WorkgroupSize(size) => match &mut self.entry {
                Some(entry) => set_once(&mut entry.workgroup_size, size),
                None => Err(Unread::Item),
            },
            Part::TaskPayload(payload) => match &mut self.entry {
                Some(entry) => set_once(&mut entry.payload, payload),
                None => Err(Unread::Item),
            },
            Part::MeshOutput(mesh) => match &mut self.entry {
                Some(entry) => set_once(&mut entry.mesh, mesh),
                None => Err(Unread::Item),
            },
            Part::Expression(expression) => {
                append(&mut function.expressions, expression, Span::default())
            }
            Part::Mark(mark) => self.blocks.add(mark),
        }
    }

    /// Puts an expression in the place of another, if there is one.
    pub fn replace_expression(&mut self, place: Handle<ExpressionTag>, expression: Expression)
        ensures { self.new ≡ with_expression place expression self.old }
    {
        let expressions = &mut self.function.expressions;
        if place.index() < expressions.len() {
            expressions.replace(place, expression);
        }
    }

    /// The function or entry point that the items describe, if no block is open.
    pub fn finish(self) -> Result<Finished, Unread>
        ensures finished { (head : Head) (parts : List Part) → AreParts head parts self
            → IfOk result (IsFinished head parts) }
        ensures unfinished { (head : Head) (parts : List Part) → AreParts head parts self
            → IfErr result (λ e. ¬ (IsSection head parts)) }
    {
        let OpenFunction {
            mut function,
            blocks,
            entry,
        } = self;
        function.body = blocks.finish()?;
        match entry {
            None => Ok(Finished::Function(function)),
            Some(entry) => {
                let stage = entry.stage.unwrap_or(EntryStage {
                    stage: None,
                    early_depth_test: None,
                });
                Ok(Finished::EntryPoint(EntryPoint {
                    name: entry.name,
                    stage: stage.stage,
                    early_depth_test: stage.early_depth_test,
                    workgroup_size: entry.workgroup_size.unwrap_or([0; 3]),
                    workgroup_size_overrides: entry.workgroup_sizes,
                    function,
                    task_payload: entry.payload,
                    mesh_info: entry.mesh,
                }))
            }
        }
    }
}
