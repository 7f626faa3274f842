//! A module, and how it is validated, while items are read.

ghost use Rattle.naga_arena.specs.Numbers.{largest_u32};
ghost use Rattle.naga_ir.specs.declared.types.«Type».{«Type»};
ghost use Rattle.naga_draft.specs.Modules.{CanBegin, Say};
ghost use Rattle.naga_draft.specs.declared.draft.Contents.{Contents};
ghost use Rattle.naga_draft.specs.declared.item.Item.{Item};
ghost use Rattle.naga_draft.specs.declared.item.Item.TheVariants as item;
ghost use Rattle.naga_draft.specs.declared.unread.Unread.TheVariants as unread;
ghost use Rattle.naga_draft.specs.Drafts.{AreAdded, AreClosed, IsUnfinished, SaysNoBlocks, contents_of, draft_with_expression, with_comment, with_special_types};
ghost use Rattle.std.specs.Prelude.{◌≡◌, ◌<◌, ◌≤◌, ◌++◌, ◌∷◌, [], Contains, IfErr, IfOk, List, length};

use crate::adding::{append, push, set_once};
use crate::functions::{Finished, OpenFunction};
use crate::item::{Commented, Item};
use crate::unread::Unread;
use naga_flags::flags::{Capabilities, ValidationFlags};
use naga_ir::expression::Expression;
use naga_ir::handle::Handle;
use naga_ir::ir::{DocComments, MOST_ITEMS, Module, SpecialTypes};
use naga_ir::list::List;
use naga_ir::span::Span;
use naga_ir::tags::{ExpressionTag, TypeTag};
use naga_ir::text::Text;
use naga_ir::types::Type;
use naga_ir::unique_arena::UniqueArena;
use std::alloc::Global;

/// What items say: a module, and settings by which it is validated. Who takes the items of a stranger decides what the
/// settings are worth.
#[derive(Drop)]
pub struct Contents {
    /// What the items describe, each kind in its order.
    pub module: Module,
    /// Which parts of the module are validated, if an item says so.
    pub flags: Option<ValidationFlags>,
    /// What the module may use, if an item says so.
    pub capabilities: Option<Capabilities>,
    /// Whether an item says that overrides have to have their values.
    pub resolved: bool,
}

/// A special type, if there is one.
type SpecialType = Option<Handle<TypeTag>>;

/// What the items so far say.
#[derive(Drop)]
pub struct Draft {
    alloc: Global,
    /// Where the item stands that is added next.
    span: Span,
    /// What they describe, except the special types that are set once.
    module: Module,
    /// Each setting that an item sets.
    flags: Option<ValidationFlags>,
    capabilities: Option<Capabilities>,
    resolved: Option<bool>,
    /// The ray descriptor, the ray intersection and the vertex return, if an item sets them.
    special_types: Option<(SpecialType, SpecialType, SpecialType)>,
    /// The function or entry point to which items still add.
    current: Option<OpenFunction>,
}

/// Adds a type with its span, if there is room for it and none is equal.
fn add_type(types: &mut UniqueArena, ty: Type, span: Span) -> Result<(), Unread>
    ensures added { IfOk result (λ _. types.new ≡ types.old ++ ty ∷ []) }
    ensures different { IfOk result (λ _. ¬ (Contains types.old ty)) }
    ensures room { IfOk result (λ _. length types.old < largest_u32) }
    ensures refused { IfErr result (λ e. e ≡ unread.Item → ¬ (Contains types.old ty)
        → largest_u32 ≤ length types.old) }
{
    let count = types.len();
    if count >= MOST_ITEMS {
        return Err(Unread::Item);
    }
    if types.insert(ty, span)?.index() == count {
        Ok(())
    } else {
        Err(Unread::Item)
    }
}

/// Adds a comment without texts.
fn add_comment(alloc: Global, comments: &mut DocComments, on: Commented) -> Result<(), Unread>
    ensures added { IfOk result (λ _. comments.new ≡ with_comment on comments.old) }
    ensures memory { IfErr result (λ e. e ≡ unread.OutOfMemory) }
{
    let texts = List::new(alloc);
    match on {
        Commented::Type_(ty) => push(&mut comments.types, (ty, texts)),
        Commented::Member(ty, member) => push(&mut comments.struct_members, ((ty, member), texts)),
        Commented::Function(function) => push(&mut comments.functions, (function, texts)),
        Commented::EntryPoint(index) => push(&mut comments.entry_points, (index, texts)),
        Commented::Constant(constant) => push(&mut comments.constants, (constant, texts)),
        Commented::GlobalVariable(variable) => {
            push(&mut comments.global_variables, (variable, texts))
        }
    }
}

/// Sets the special types that an item sets, if one does.
fn set_special_types(
    special: &mut SpecialTypes,
    set: Option<(SpecialType, SpecialType, SpecialType)>,
)
    ensures { special.new ≡ with_special_types set special.old }
{
    if let Some((ray_desc, ray_intersection, ray_vertex_return)) = set {
        special.ray_desc = ray_desc;
        special.ray_intersection = ray_intersection;
        special.ray_vertex_return = ray_vertex_return;
    }
}

impl Draft {
    /// The empty module.
    pub fn new(alloc: Global) -> Draft
        ensures { AreAdded [] result }
    {
        Draft {
            alloc,
            span: Span::default(),
            module: Module::new(alloc),
            flags: None,
            capabilities: None,
            resolved: None,
            special_types: None,
            current: None,
        }
    }

    /// Says where the items stand that are added next.
    pub fn set_span(&mut self, span: Span)
        ensures { (items : List Item) → AreAdded items self.old → AreAdded items self.new }
    {
        self.span = span;
    }

    /// Adds the function or entry point to which the items so far belong, if there is one. No part can be added until
    /// the next one begins.
    pub fn close_function(&mut self) -> Result<(), Unread>
        ensures closed { (items : List Item) → AreAdded items self.old → IfOk result (λ _. AreClosed items self.new) }
        ensures unfinished { (items : List Item) → AreAdded items self.old
            → IfErr result (λ e. e ≡ unread.Item → IsUnfinished items) }
    {
        let Some(current) = self.current.take() else {
            return Ok(());
        };
        match current.finish()? {
            Finished::Function(function) => append(&mut self.module.functions, function, self.span),
            Finished::EntryPoint(entry_point) => push(&mut self.module.entry_points, entry_point),
        }
    }

    /// Begins a function, if there is room for it.
    fn open_function(&mut self, name: Option<Text>) -> Result<(), Unread>
        ensures added { (items : List Item) → AreAdded items self.old
            → IfOk result (λ _. AreAdded (items ++ item.Function name ∷ []) self.new) }
        ensures refused { (items : List Item) → AreAdded items self.old
            → IfErr result (λ e. e ≡ unread.Item → ¬ (CanBegin (items ++ item.Function name ∷ []))) }
    {
        self.close_function()?;
        if self.module.functions.len() >= MOST_ITEMS {
            return Err(Unread::Item);
        }
        self.current = Some(OpenFunction::new(self.alloc, name));
        Ok(())
    }

    /// Begins an entry point.
    fn open_entry_point(&mut self, name: Text) -> Result<(), Unread>
        ensures added { (items : List Item) → AreAdded items self.old
            → IfOk result (λ _. AreAdded (items ++ item.EntryPoint name ∷ []) self.new) }
        ensures refused { (items : List Item) → AreAdded items self.old
            → IfErr result (λ e. e ≡ unread.Item → ¬ (CanBegin (items ++ item.EntryPoint name ∷ []))) }
    {
        self.close_function()?;
        self.current = Some(OpenFunction::new_entry(self.alloc, name));
        Ok(())
    }

    /// Adds what an item says, if it can stand after the items before it.
    pub fn add(&mut self, item: Item) -> Result<(), Unread>
        ensures added { (items : List Item) → AreAdded items self.old → SaysNoBlocks item
            → IfOk result (λ _. AreAdded (items ++ item ∷ []) self.new) }
        ensures refused { (items : List Item) → AreAdded items self.old
            → IfErr result (λ e. e ≡ unread.Item → ¬ (CanBegin (items ++ item ∷ []))) }
    {
        let module = &mut self.module;
        match item {
            Item::Flags(flags) => set_once(&mut self.flags, flags),
            Item::Capabilities(capabilities) => set_once(&mut self.capabilities, capabilities),
            Item::Resolved => set_once(&mut self.resolved, true),
            Item::SpecialTypes {
                ray_desc,
                ray_intersection,
                ray_vertex_return,
            } => set_once(
                &mut self.special_types,
                (ray_desc, ray_intersection, ray_vertex_return),
            ),
            Item::PredeclaredType(ty) => push(&mut module.special_types.others, ty),
            Item::Filter(filter) => append(&mut module.diagnostic_filters, filter, self.span),
            Item::FilterLeaf(leaf) => set_once(&mut module.diagnostic_filter_leaf, leaf),
            Item::Comment(on) => add_comment(self.alloc, &mut module.doc_comments, on),
            Item::Type_(ty) => add_type(&mut module.types, ty, self.span),
            Item::Constant(constant) => append(&mut module.constants, constant, self.span),
            Item::Override(id) => append(&mut module.overrides, id, self.span),
            Item::GlobalVariable(variable) => append(
                &mut module.global_variables,
                variable,
                self.span,
            ),
            Item::Expression(expression) => append(
                &mut module.global_expressions,
                expression,
                self.span,
            ),
            Item::Function(name) => self.open_function(name),
            Item::EntryPoint(name) => self.open_entry_point(name),
            Item::Part(part) => match &mut self.current {
                Some(current) => current.add(part),
                None => Err(Unread::Item),
            },
        }
    }

    /// Puts an expression in the place of another of the function or entry point that is open, if it has one there.
    pub fn replace_expression(&mut self, place: Handle<ExpressionTag>, expression: Expression)
        ensures { self.new ≡ draft_with_expression place expression self.old }
    {
        if let Some(current) = &mut self.current {
            current.replace_expression(place, expression);
        }
    }

    /// What the items say together, without the function or entry point that is open.
    pub fn into_contents(self) -> Contents
        ensures { result ≡ contents_of self }
    {
        let Draft {
            mut module,
            flags,
            capabilities,
            resolved,
            special_types,
            ..
        } = self;
        set_special_types(&mut module.special_types, special_types);
        Contents {
            module,
            flags,
            capabilities,
            resolved: resolved.unwrap_or_default(),
        }
    }

    /// What the items say together, if no block is open.
    pub fn finish(self) -> Result<Contents, Unread>
        ensures whole { (items : List Item) → AreAdded items self → IfOk result (Say items) }
        ensures unfinished { (items : List Item) → AreAdded items self
            → IfErr result (λ e. e ≡ unread.Item → (contents : Contents) → ¬ (Say items contents)) }
    {
        let mut draft = self;
        draft.close_function()?;
        Ok(draft.into_contents())
    }
}
