//! Which numbers the overrides of a module have.

ghost use Rattle.std.specs.Prelude.{◌≡◌, IfOk};
ghost use Rattle.naga_valid.specs.steps.Ids.{HasNone, IsNoted};

use naga_ir::memory::OutOfMemory;
use std::alloc::Global;
use std::marker::Model;

/// A set of numbers of 16 bits: a bool for each number up to the greatest since it was last cleared, in
/// fewer than 131,072 bytes. It keeps its memory when it is cleared, and doesn't hash, so that no choice
/// of numbers makes it slow.
#[derive(Drop)]
pub struct OverrideIds {
    seen: Vec<bool>,
}

impl Model for OverrideIds {
    ghost use Rattle.std.specs.Prelude.{Bool, List};

    ghost Value = { List Bool };

    ghost view = { λ ids. ids.seen.items };
}

impl OverrideIds {
    /// A set without numbers, which takes its memory from `alloc`.
    pub fn new(alloc: Global) -> OverrideIds {
        OverrideIds {
            seen: Vec::new(alloc),
        }
    }

    /// Removes all numbers.
    pub fn clear(&mut self)
        ensures { HasNone self.new }
    {
        self.seen.clear();
    }

    /// Adds a number, and returns whether it is new.
    ///
    /// # Errors
    ///
    /// `OutOfMemory` if memory was refused, which is requested only for a number greater than all that
    /// the set has had since it was last cleared.
    pub fn insert(&mut self, id: u16) -> Result<bool, OutOfMemory>
        ensures { IfOk result (IsNoted self.old id self.new) }
    {
        let index = usize::from(id);
        if index >= self.seen.len() {
            self.seen.resize(index + 1, false)?;
        }
        let seen = &mut self.seen[index];
        let is_new = !*seen;
        *seen = true;
        Ok(is_new)
    }
}
