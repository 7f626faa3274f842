//! Whether types and global expressions can be visited in an order.
//!
//! Types may depend on global expressions: the length of an array may be an override, whose
//! initialiser is one. Global expressions depend on the types that they name. Two scans that know
//! nothing of each other would let a type be sized by an expression that names that type or a later
//! one: such a cycle has to be refused, or a recursion along dependencies would not end. Each arena in
//! itself refers only to preceding items, so there is no need of a graph. The expressions come first:
//! a table keeps for each the greatest type that it or one before it names. Then each type that an
//! initialiser sizes has to come after the greatest type that the expressions up to the initialiser
//! name. naga's `validate_module_handles` accepts the same modules.

ghost use Rattle.std.specs.Prelude.{◌≡◌, ℕ, ◌+◌, ◌<◌, ◌≤◌, ◌⊎◌, IfErr, IfOk, IsOk, IsSome, None, OnOk, Some, length, max, slice_get, vec_capacity};
ghost use Rattle.naga_arena.specs.Numbers.{largest_u32};
ghost use Rattle.naga_ir.specs.Handles.{Exists, module_counts, size_initialiser};
ghost use Rattle.naga_ir.specs.ItemReferences.{GlobalLists, global_lists};
ghost use Rattle.naga_ir.specs.declared.expression.Expression.TheVariants as form;
ghost use Rattle.naga_ir.specs.declared.reference.Reference.TheVariants as to;
ghost use Rattle.naga_ir.specs.Parts.{parts};
ghost use Rattle.naga_ir.specs.Ranks.{reach};
ghost use Rattle.naga_ir.specs.declared.types.«Type» as types;
ghost use Rattle.naga_handles.specs.Faults.{IsOrderFault, VisitedReference, forward};
ghost use Rattle.naga_handles.specs.Order.{CanBeOrdered};
ghost use Rattle.naga_handles.specs.steps.VisitState.{AllBefore, ExpressionOk, ItemOk, Names, NamesLate, SizeOk, Visited, named_initialiser};
ghost use Rattle.naga_handles.specs.steps.OtherItems.{IsHandleRefusal};

use crate::counts::{Counts, check_dep, check_operands};
use crate::error::{InvalidHandleError, ValidationFault};
use crate::walk::reader::Reader;
use naga_ir::expression::Expression;
use naga_ir::handle::Handle;
use naga_ir::ir::Module;
use naga_ir::memory::OutOfMemory;
use naga_ir::reference::Reference;
use naga_ir::tags::{ExpressionTag, TypeTag};
use naga_ir::types::TypeInner;
use std::alloc::Global;

mod reader;

/// Whether something that types and global expressions refer to exists.
fn check_exists(module: &Module, reference: Reference) -> Result<(), InvalidHandleError>
    requires { VisitedReference «module».now reference }
    ensures exists { OnOk result (Exists (module_counts «module».now) reference) }
    ensures refused { IfErr result (IsOrderFault «module».now) }
{
    Counts::of_module(module).check_exists(reference)
}

/// Whether the parts of a type precede it.
fn check_parts(handle: Handle<TypeTag>, inner: &TypeInner) -> Result<(), InvalidHandleError>
    ensures before { OnOk result (AllBefore handle (parts inner.now)) }
    ensures refused { IfErr result (NamesLate to.Type_ handle (parts inner.now)) }
{
    for part in inner.parts() {
        check_dep(handle, part)?;
    }
    Ok(())
}

/// The initialiser of the constant or override that an expression names.
#[tactic(auto, unfolding(crate::specs::steps::VisitState::named_initialiser))]
fn initialiser(module: &Module, expression: &Expression) -> Option<Handle<ExpressionTag>>
    requires constants { (c : ℕ) → expression.now ≡ form.Constant c → c < length «module».now.constants }
    requires overrides { (o : ℕ) → expression.now ≡ form.Override o → o < length «module».now.overrides }
    ensures { result ≡ named_initialiser (global_lists «module».now) expression.now }
{
    match *expression {
        Expression::Constant(handle) => Some(module.constants[handle].init),
        Expression::Override(handle) => module.overrides[handle].init,
        _ => None,
    }
}

/// The initialiser that sizes a type, if an override with an initialiser does: the override exists, its
/// type precedes this one, and the initialiser exists.
fn check_size(
    module: &Module,
    handle: Handle<TypeTag>,
    inner: &TypeInner,
) -> Result<Option<Handle<ExpressionTag>>, InvalidHandleError>
    requires { (x : types.«Type») × (slice_get «module».now.types handle ≡ Some x) × (x.inner ≡ inner.now) }
    ensures right { OnOk result (SizeOk «module».now handle inner.now) }
    ensures size { IfOk result (λ size. size ≡ size_initialiser (global_lists «module».now) handle) }
    ensures there { IfOk result (λ size. IsSome size → 0 < length «module».now.overrides) }
    ensures refused { IfErr result (IsOrderFault «module».now) }
{
    let Some(size) = inner.size_override() else {
        return Ok(None);
    };
    check_exists(module, Reference::Override(size))?;
    let sizing = &module.overrides[size];
    // The count is a value of the override's type, so that type comes before this one too.
    check_dep(handle, sizing.ty)?;
    let Some(last) = sizing.init else {
        return Ok(None);
    };
    check_exists(module, Reference::Expression(last))?;
    Ok(Some(last))
}

/// Whether the item that an expression names exists, and its initialiser precedes the expression.
fn check_item(
    module: &Module,
    handle: Handle<ExpressionTag>,
    expression: &Expression,
) -> Result<(), InvalidHandleError>
    requires { slice_get «module».now.global_expressions handle ≡ Some expression.now }
    ensures right { OnOk result (ItemOk «module».now handle expression.now) }
    ensures refused { IfErr result (IsOrderFault «module».now) }
{
    let Some(item) = expression.named_item() else {
        return Ok(());
    };
    check_exists(module, item)?;
    let Some(init) = initialiser(module, expression) else {
        return Ok(());
    };
    // The initialiser is a global expression too: a later one could lead back to this.
    check_dep(handle, init)?;
    Ok(())
}

/// Whether the references of an expression are right, except the type that it names.
fn check_expression(
    module: &Module,
    handle: Handle<ExpressionTag>,
    expression: &Expression,
) -> Result<(), InvalidHandleError>
    requires { slice_get «module».now.global_expressions handle ≡ Some expression.now }
    ensures right { OnOk result (ExpressionOk «module».now handle expression.now) }
    ensures refused { IfErr result (IsOrderFault «module».now) }
{
    check_operands(handle, expression)?;
    check_item(module, handle, expression)?;
    Ok(())
}

/// What is known of a module whose global expressions were visited, and then some of its types.
#[derive(Drop)]
pub(crate) struct Walker {
    reader: Reader,
    /// How many global expressions were visited: those before the first whose references aren't right.
    visited: usize,
    /// Why the references of the first expression that wasn't visited aren't right.
    kept: Option<InvalidHandleError>,
    /// The greatest type that the visited expressions name.
    greatest: Option<Handle<TypeTag>>,
    /// As far as it has room, entry e is the greatest type that the expressions 0 to e name.
    table: Vec<Option<Handle<TypeTag>>>,
}

impl Walker {
    /// Visits the global expressions of a module, up to the first whose references aren't right, the type
    /// that it names aside. Why they aren't is kept, since a type may have a fault that is reported before.
    /// The table has an entry for as many expressions as there is room for.
    ///
    /// # Errors
    ///
    /// `OutOfMemory` if memory was refused. Room for none takes no memory.
    pub(crate) fn of_expressions(
        alloc: Global,
        module: &Module,
        room: usize,
    ) -> Result<Walker, OutOfMemory>
        requires room { 0 < length «module».now.overrides → length «module».now.global_expressions ≤ room }
        ensures visited { IfOk result (Visited «module».now 0) }
        ensures none { room ≡ 0 → IsOk result }
    {
        let mut walker = Walker {
            reader: Reader::new(),
            visited: 0,
            kept: None,
            greatest: None,
            table: Vec::with_capacity(alloc, room)?,
        };
        for index in 0..module.global_expressions.len() {
            let place = Handle::new(index as u32);
            let expression = walker.reader.expression_at(module, place);
            if let Err(error) = check_expression(module, place, expression) {
                walker.kept = Some(error);
                return Ok(walker);
            }
            walker.add(expression);
        }
        Ok(walker)
    }

    /// Notes the type that the next global expression names, or that it names none.
    fn add(&mut self, expression: &Expression)
        requires { self.old.visited < largest_u32 }
        ensures names { (g : GlobalLists) → slice_get g.expressions self.old.visited ≡ Some expression.now
            → Names g self.old → Names g self.new }
        ensures visited { self.new.visited ≡ self.old.visited + 1 }
        ensures room { vec_capacity self.new.table ≡ vec_capacity self.old.table }
        ensures others { (self.new.reader ≡ self.old.reader) × (self.new.kept ≡ self.old.kept) }
    {
        // No type is less than any.
        self.greatest = self.greatest.max(expression.named_type());
        if self.table.len() < self.table.capacity() {
            self.table.push_reserved(self.greatest);
        }
        self.visited += 1;
    }

    /// How many items were looked at.
    pub(crate) fn looks(&self) -> u64
        ensures { result ≡ self.now.reader.looks }
    {
        self.reader.looks()
    }

    /// Reports what was kept, unless the first `needed` global expressions were visited.
    fn check_visited(&mut self, needed: usize) -> Result<(), InvalidHandleError>
        ensures right { OnOk result (((needed ≤ self.old.visited) ⊎ (self.old.kept ≡ None)) × (self.new ≡ self.old)) }
        ensures wrong { IfErr result (λ e. (self.old.visited < needed) × (self.old.kept ≡ Some e)) }
    {
        if needed <= self.visited {
            return Ok(());
        }
        match self.kept.take() {
            Some(error) => Err(error),
            None => Ok(()),
        }
    }

    /// Visits a type, after those before it. Returns how many global expressions precede it because of its
    /// size: they are right, and name only types before this one.
    pub(crate) fn visit_type(
        &mut self,
        module: &Module,
        handle: Handle<TypeTag>,
    ) -> Result<usize, InvalidHandleError>
        requires few { handle < largest_u32 }
        requires exists { handle < length «module».now.types }
        requires visited { Visited «module».now handle self.old }
        ensures visited { OnOk result (Visited «module».now (handle + 1) self.new) }
        ensures size { IfOk result (λ needed. (needed ≡ reach (size_initialiser (global_lists «module».now) handle))
            × (needed ≤ length «module».now.global_expressions)) }
        ensures refused { IfErr result (IsOrderFault «module».now) }
    {
        let ty = self.reader.type_at(module, handle);
        check_parts(handle, &ty.inner)?;
        let Some(last) = check_size(module, handle, &ty.inner)? else {
            return Ok(0);
        };
        let needed = last.index() + 1;
        self.check_visited(needed)?;
        if let Some(greatest) = self.table[last.index()] {
            check_dep(handle, greatest)?;
        }
        Ok(needed)
    }

    /// Whether all global expressions are right and the types exist that they name, after all types.
    pub(crate) fn check_rest(&mut self, module: &Module) -> Result<(), InvalidHandleError>
        requires { Visited «module».now (length «module».now.types) self.old }
        ensures accepted { OnOk result (CanBeOrdered «module».now) }
        ensures looks { OnOk result (self.new.reader.looks
            ≡ length «module».now.types + length «module».now.global_expressions) }
        ensures refused { IfErr result (IsOrderFault «module».now) }
    {
        self.check_visited(module.global_expressions.len())?;
        if let Some(greatest) = self.greatest {
            Counts::of_module(module).check_exists(Reference::Type_(greatest))?;
        }
        Ok(())
    }
}

/// How many global expressions the sizes of types may need: none without overrides.
fn needed_room(module: &Module) -> usize
    ensures room { 0 < length «module».now.overrides → length «module».now.global_expressions ≤ result }
    ensures none { length «module».now.overrides ≡ 0 → result ≡ 0 }
{
    if module.overrides.is_empty() {
        return 0;
    }
    module.global_expressions.len()
}

/// Whether the types and global expressions of a module can be visited in an order in which each
/// follows all that it depends on.
///
/// # Errors
///
/// `Invalid` names a fault of a type or global expression. `OutOfMemory` if memory was refused, which
/// can only be if the module has overrides.
pub(crate) fn walk(alloc: Global, module: &Module) -> Result<(), ValidationFault>
    ensures accepted { OnOk result (CanBeOrdered «module».now) }
    ensures refused { IfErr result (IsHandleRefusal «module».now) }
{
    let mut walker = Walker::of_expressions(alloc, module, needed_room(module))?;
    for index in 0..module.types.len() {
        walker.visit_type(module, Handle::new(index as u32))?;
    }
    walker.check_rest(module)?;
    Ok(())
}
