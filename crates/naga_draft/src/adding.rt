//! What may be added to a module that is read.

ghost use Rattle.naga_arena.specs.Numbers.{largest_u32};
ghost use Rattle.naga_draft.specs.declared.unread.Unread.TheVariants as unread;
ghost use Rattle.std.specs.Prelude.{◌≡◌, ◌<◌, ◌≤◌, ◌++◌, ◌∷◌, [], IfErr, IfOk, None, Some, length};

use crate::unread::Unread;
use naga_ir::arena::Arena;
use naga_ir::ir::MOST_ITEMS;
use naga_ir::list::List;
use naga_ir::span::Span;

/// Adds an item with its span, if the arena has room for it.
pub fn append<T: Drop, K>(items: &mut Arena<T, K>, item: T, span: Span) -> Result<(), Unread>
    ensures added { IfOk result (λ _. items.new ≡ items.old ++ item ∷ []) }
    ensures room { IfOk result (λ _. length items.old < largest_u32) }
    ensures full { IfErr result (λ e. e ≡ unread.Item → largest_u32 ≤ length items.old) }
{
    if items.len() >= MOST_ITEMS {
        return Err(Unread::Item);
    }
    items.append(item, span)?;
    Ok(())
}

/// Adds an item to a list, which always has room.
pub fn push<T: Drop>(items: &mut List<T>, item: T) -> Result<(), Unread>
    ensures added { IfOk result (λ _. items.new ≡ items.old ++ item ∷ []) }
    ensures memory { IfErr result (λ e. e ≡ unread.OutOfMemory) }
{
    items.push(item)?;
    Ok(())
}

/// Gives what may be said once its value.
pub fn set_once<T: Drop>(slot: &mut Option<T>, value: T) -> Result<(), Unread>
    ensures first { IfOk result (λ _. slot.old ≡ None) }
    ensures set { IfOk result (λ _. slot.new ≡ Some value) }
    ensures again { IfErr result (λ _. ¬ (slot.old ≡ None)) }
{
    if slot.is_some() {
        return Err(Unread::Item);
    }
    *slot = Some(value);
    Ok(())
}
