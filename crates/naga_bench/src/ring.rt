//! The last expressions of one type.

use crate::random::Random;
use naga_valid::{ExpressionTag, Handle};

/// How many expressions are kept.
const KEPT: usize = 8;

/// The last eight expressions of one type. Operands are taken from these, as operands of real shaders mostly are.
#[derive(Clone, Copy)]
pub struct Ring {
    items: [Handle<ExpressionTag>; KEPT],
    next: usize,
}

impl Ring {
    /// One expression, eight times.
    pub fn new(item: Handle<ExpressionTag>) -> Ring {
        Ring {
            items: [item; KEPT],
            next: 0,
        }
    }

    /// Takes the place of the oldest.
    pub fn push(&mut self, item: Handle<ExpressionTag>) {
        self.items[self.next % KEPT] = item;
        self.next = self.next.wrapping_add(1);
    }

    /// Any of them.
    pub fn any(&self, random: &mut Random) -> Handle<ExpressionTag> {
        self.items[random.below(8) as usize % KEPT]
    }
}
