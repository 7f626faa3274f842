//! The order in which types and global expressions can be visited.

ghost use Rattle.std.specs.Prelude.{◌≡◌, ◌+◌, ◌≤◌, List, [], ◌∷◌, ◌++◌, IfErr, IfOk, OnOk, length};
ghost use Rattle.naga_arena.specs.Memory.{UnlessOutOfMemory};
ghost use Rattle.naga_arena.specs.Numbers.{largest_u32};
ghost use Rattle.naga_ir.specs.ItemReferences.{global_lists};
ghost use Rattle.naga_handles.specs.Order.{CanBeOrdered, IsOrder, NamesOrderFault, RanksFall};
ghost use Rattle.naga_handles.specs.steps.VisitState.{IsNoOrder, PlacesUpTo};
ghost use Rattle.naga_handles.specs.declared.order.Item.TheVariants as item;

use crate::error::ValidationFault;
use crate::walk::Walker;
use naga_ir::handle::Handle;
use naga_ir::ir::Module;
use naga_ir::memory::OutOfMemory;
use naga_ir::tags::{ExpressionTag, TypeTag};
use std::alloc::Global;

/// A type or a global expression.
#[derive(Clone, Copy, Debug, PartialEq, Eq)]
pub enum Item {
    Type_(Handle<TypeTag>),
    Expression(Handle<ExpressionTag>),
}

/// An order in which types and global expressions can be visited.
#[derive(Debug, PartialEq, Drop)]
pub struct Walk {
    /// Each type and each global expression once, after all that it depends on.
    pub order: Vec<Item>,
    /// How many types and global expressions were looked at.
    pub looks: u64,
}

/// The types and global expressions of a module in an order in which each follows all that it depends
/// on: a type its parts and the initialiser of the override that sizes it, an expression its operands,
/// the type that it names, and the initialiser of the constant or override that it names.
///
/// Types are in their order, and so are expressions. Each type is preceded by the expressions up to
/// the initialiser that sizes it; the others are last. `looks` is the number of items: the private
/// reader of the walk counts what it reads. The cost is linear in the module.
///
/// # Errors
///
/// `Invalid` names a fault of a type or global expression, as `validate_module_handles` does; the other
/// items need not be right. `OutOfMemory` if memory was refused.
pub fn visit_order(alloc: Global, module: &Module) -> Result<Walk, ValidationFault>
    ensures verdict { UnlessOutOfMemory (λ fault. fault ≡ ValidationFault.OutOfMemory) result
        (λ _. CanBeOrdered «module».now)
        (λ fault. NamesOrderFault «module».now fault × (CanBeOrdered «module».now → ⊥)) }
    ensures order { IfOk result (λ walk. IsOrder (global_lists «module».now) walk.order.items) }
    ensures falls { OnOk result (RanksFall (global_lists «module».now)) }
    ensures looks { IfOk result (λ walk. walk.looks
        ≡ length «module».now.types + length «module».now.global_expressions) }
{
    order_of(alloc, module)
}

/// `visit_order` without the clauses that follow from the others: that a refused module can't be
/// ordered, and that dependencies have lesser ranks.
fn order_of(alloc: Global, module: &Module) -> Result<Walk, ValidationFault>
    ensures accepted { OnOk result (CanBeOrdered «module».now) }
    ensures order { IfOk result (λ walk. IsOrder (global_lists «module».now) walk.order.items) }
    ensures looks { IfOk result (λ walk. walk.looks
        ≡ length «module».now.types + length «module».now.global_expressions) }
    ensures refused { IfErr result (IsNoOrder «module».now) }
{
    let mut walker = Walker::of_expressions(alloc, module, module.global_expressions.len())?;
    let mut order = Vec::new(alloc);
    let mut placed = 0;
    for index in 0..module.types.len() {
        let handle = Handle::new(index as u32);
        let needed = placed.max(walker.visit_type(module, handle)?);
        push_visited(&mut order, placed, needed, handle)?;
        placed = needed;
    }
    walker.check_rest(module)?;
    push_expressions(&mut order, placed, module.global_expressions.len())?;
    Ok(Walk {
        order,
        looks: walker.looks(),
    })
}

/// Adds the global expressions from index `from` to before index `to`.
fn push_expressions(order: &mut Vec<Item>, from: usize, to: usize) -> Result<(), OutOfMemory>
    requires grows { from ≤ to }
    requires few { to ≤ largest_u32 }
    ensures { OnOk result (PlacesUpTo order.old.items order.new.items from to) }
{
    for index in from..to {
        order.push(Item::Expression(Handle::new(index as u32)))?;
    }
    Ok(())
}

/// Adds the global expressions from index `from` to before index `to`, and a type.
fn push_visited(
    order: &mut Vec<Item>,
    from: usize,
    to: usize,
    handle: Handle<TypeTag>,
) -> Result<(), OutOfMemory>
    requires grows { from ≤ to }
    requires few { to ≤ largest_u32 }
    ensures { OnOk result ((between : List Item) × PlacesUpTo order.old.items between from to
        × (order.new.items ≡ between ++ item.Type_ handle ∷ [])) }
{
    push_expressions(order, from, to)?;
    order.push(Item::Type_(handle))?;
    Ok(())
}
