//! Why an item was not read.

ghost use Rattle.naga_draft.specs.declared.unread.Unread.TheVariants as unread;
ghost use Rattle.std.specs.Prelude.{◌≡◌, IfErr, IfOk, None, Some};

use naga_ir::memory::OutOfMemory;
use std::alloc::{AllocError, AllocFailed};

/// Why an item was not read.
#[derive(Clone, Copy, Debug, PartialEq)]
pub enum Unread {
    /// It has no form, or can't stand where it stands.
    Item,
    /// A request for memory was refused.
    OutOfMemory,
}

impl From<AllocError> for Unread {
    ghost from_gives = { λ _ e. e ≡ unread.OutOfMemory };

    fn from(_: AllocError) -> Unread {
        Unread::OutOfMemory
    }
}

impl<T: Drop> From<AllocFailed<T>> for Unread {
    ghost from_gives = { λ _ e. e ≡ unread.OutOfMemory };

    fn from(_: AllocFailed<T>) -> Unread {
        Unread::OutOfMemory
    }
}

impl From<OutOfMemory> for Unread {
    ghost from_gives = { λ _ e. e ≡ unread.OutOfMemory };

    fn from(_: OutOfMemory) -> Unread {
        Unread::OutOfMemory
    }
}

/// What operands say, if they say something.
pub fn known<T>(read: Option<T>) -> Result<T, Unread>
    ensures found { IfOk result (λ value. read ≡ Some value) }
    ensures none { IfErr result (λ e. (e ≡ unread.Item) × (read ≡ None)) }
{
    match read {
        Some(value) => Ok(value),
        None => Err(Unread::Item),
    }
}
