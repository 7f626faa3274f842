//! Adding items to a module, of which there are never too many for an arena.

use naga_valid::{Arena, Handle, OutOfMemory, Span, Type, TypeInner, TypeTag, UniqueArena};

/// The number of items up to which an arena is filled.
const MOST_ITEMS: usize = 1_000_000_000;

/// Adds an item.
pub fn append<T: Drop, K>(items: &mut Arena<T, K>, item: T) -> Result<Handle<K>, OutOfMemory> {
    if items.len() >= MOST_ITEMS {
        return Err(OutOfMemory);
    }
    items.append(item, Span::default())
}

/// Adds a type without a name, or finds it.
pub fn insert(types: &mut UniqueArena, inner: TypeInner) -> Result<Handle<TypeTag>, OutOfMemory> {
    if types.len() >= MOST_ITEMS {
        return Err(OutOfMemory);
    }
    types.insert(Type { name: None, inner }, Span::default())
}
