//! An arena of items.

use crate::retry::{Memory, Wrong, again, check};
use naga_valid::{Arena, Span, TypeTag};
use std::alloc::Global;

/// A refused item leaves the arena as it was, and the next one is added.
pub fn append_again(alloc: Global, memory: &mut Memory) -> Result<(), Wrong> {
    let mut arena: Arena<u8, TypeTag> = Arena::new(alloc);
    if arena.append(7, Span::default()).is_err() {
        memory.refused = true;
        check(arena.is_empty(), "a refused item is in the arena\n")?;
        check(
            arena.append(7, Span::default()).is_ok(),
            "an item is refused twice\n",
        )?;
    }
    check(arena.len() == 1, "the arena lacks the item\n")
}
