//! Ranges of handles.

ghost use Rattle.std.specs.Prelude.{◌≡◌, ◌↔◌, IfErr, IsOk};
ghost use Rattle.naga_arena.specs.Existence.{IsGoodRange};

use crate::handle::Kind;
use crate::text::StaticText;
use std::fmt;
use std::marker::PhantomData;
use thiserror::Error;

/// The handles of kind `K` from index `start` to before index `end`.
///
/// As a handle, a range may be dangling, and its end may precede its start.
#[derive_where(Clone, Copy, PartialEq, Eq)]
pub struct Range<K> {
    /// The first index.
    pub start: u32,
    /// The index after the last.
    pub end: u32,
    kind: PhantomData<K>,
}

impl<K> Range<K> {
    /// The range from index `start` to before index `end`.
    pub fn new(start: u32, end: u32) -> Range<K>
        ensures start { result.start ≡ start }
        ensures end { result.end ≡ end }
    {
        Range {
            start,
            end,
            kind: PhantomData,
        }
    }
}

impl<K: Kind> Range<K> {
    /// Whether a list of `length` items has one at each index of the range: it is empty, as its end is
    /// its start, or it goes forward and ends within the list.
    ///
    /// # Errors
    ///
    /// `BadRangeError` otherwise.
    pub fn check_valid_for(self, length: usize) -> Result<(), BadRangeError>
        ensures good { IsOk result ↔ IsGoodRange length self }
        ensures bad { IfErr result (λ e. e ≡ record { kind = K.kind_name; start = self.start; end = self.end }) }
    {
        let good = self.start == self.end || self.start < self.end && self.end as usize <= length;
        if good {
            Ok(())
        } else {
            Err(BadRangeError {
                kind: K::name(),
                start: self.start,
                end: self.end,
            })
        }
    }
}

impl<K> fmt::Debug for Range<K> {
    fn fmt<W: fmt::Write>(&self, f: &mut fmt::Formatter<W>) -> fmt::Result {
        write!(f, "[{}..{}]", self.start, self.end)
    }
}

/// A range of which some handle is dangling, or that goes back.
#[derive(Clone, Debug, PartialEq, Drop, Error)]
#[error("Handle range [{start}..{end}] of {kind} is either not present, or inaccessible yet")]
pub struct BadRangeError {
    /// The name of the kind of items.
    pub kind: StaticText,
    /// The first index.
    pub start: u32,
    /// The index after the last.
    pub end: u32,
}
