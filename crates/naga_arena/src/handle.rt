//! Handles: the indices of items in arenas.

ghost use Rattle.naga_arena.specs.Numbers.{largest_u32};
ghost use Rattle.std.specs.Prelude.{◌≡◌, ◌<◌, ◌↔◌, IfErr, IsOk};

use crate::text::StaticText;
use std::fmt;
use std::marker::{Model, PhantomData};
use thiserror::Error;

/// A kind of item. An empty tag type names each kind, so that no item type holds itself.
pub trait Kind: Copy + Drop {
    ghost use Rattle.std.specs.Prelude.{◌≡◌, List, ℕ};

    /// The bytes of the kind's name.
    ghost kind_name: { List ℕ };

    /// The kind's name, as error messages show it.
    fn name() -> StaticText
        ensures { result ≡ kind_name };
}

/// The index of an item in an arena of kind `K`, which contracts see as a number.
///
/// A handle may be dangling: whoever reads a module from outside may make any.
#[derive_where(Clone, Copy, PartialEq, Eq, PartialOrd, Ord, Hash)]
pub struct Handle<K> {
    index: u32,
    kind: PhantomData<K>,
}

impl<K> Model for Handle<K> {
    ghost use Rattle.naga_arena.specs.Numbers.{largest_u32};
    ghost use Rattle.std.specs.Prelude.{ℕ, ◌<◌};

    ghost Value = { ℕ };

    ghost view = { λ h. h.index };

    ghost invariant = { λ h. h.index < largest_u32 };

    ghost inverse = { λ n. record { index = n; kind = record {} } };
}

impl<K> Handle<K> {
    /// The handle of index `index`, which is below `u32::MAX`.
    pub fn new(index: u32) -> Handle<K>
        requires { index < largest_u32 }
        ensures { result ≡ index }
    {
        Handle {
            index,
            kind: PhantomData,
        }
    }

    /// The index, from 0.
    pub fn index(self) -> usize
        ensures value { result ≡ self }
        ensures bound { result < largest_u32 }
    {
        self.index as usize
    }
}

impl<K> fmt::Debug for Handle<K> {
    fn fmt<W: fmt::Write>(&self, f: &mut fmt::Formatter<W>) -> fmt::Result {
        write!(f, "[{}]", self.index)
    }
}

impl<K: Kind> Handle<K> {
    /// Whether a list of `length` items has one at this index.
    ///
    /// # Errors
    ///
    /// `BadHandle` if the index is `length` or more.
    pub fn check_valid_for(self, length: usize) -> Result<(), BadHandle>
        ensures exists { IsOk result ↔ (self < length) }
        ensures missing { IfErr result (λ e. e ≡ record { kind = K.kind_name; index = self }) }
    {
        if self.index() < length {
            Ok(())
        } else {
            Err(BadHandle {
                kind: K::name(),
                index: self.index(),
            })
        }
    }
}

/// A dangling handle: it names no item of its arena.
#[derive(Clone, Debug, PartialEq, Drop, Error)]
#[error("Handle {index} of {kind} is either not present, or inaccessible yet")]
pub struct BadHandle {
    /// The name of the kind of item.
    pub kind: StaticText,
    /// The index, which is out of bounds.
    pub index: usize,
}
