//! Arenas: lists whose items are named by handles.

ghost use Rattle.std.specs.Prelude.{◌≡◌, ◌==◌, ℕ, ◌<◌, ◌≤◌, [], ◌∷◌, ◌++◌, length, IfOk, OnOk, OnErr, Some, slice_get, slice_set, ◌↔◌, IfErr, IsOk};
ghost use Rattle.naga_arena.specs.Existence.{IsGoodRange};
ghost use Rattle.naga_arena.specs.Numbers.{largest_u32};
ghost use Rattle.std.specs.List.{enumerate_from};

use crate::handle::{BadHandle, Handle, Kind};
use crate::iter::Iter;
use crate::memory::OutOfMemory;
use crate::range::{BadRangeError, Range};
use crate::span::Span;
use std::alloc::Global;
use std::marker::{Model, PhantomData};
use std::ops::Index;

/// Items of kind `K` in the order in which they were added, each with its span in the source. Contracts
/// see the list of the items.
#[derive(Drop)]
#[derive_where(Debug; T)]
pub struct Arena<T, K> {
    data: Vec<T>,
    span_info: Vec<Span>,
    kind: PhantomData<K>,
}

impl<T, K> Model for Arena<T, K> {
    ghost use Rattle.naga_arena.specs.Numbers.{largest_u32};
    ghost use Rattle.std.specs.Prelude.{List, ◌≡◌, ◌≤◌, length};
    ghost use Rattle.std.specs.Coded.{coded_list};

    ghost Value = { List T };

    ghost coded = { coded_list T.code };

    ghost view = { λ a. a.data.items };

    ghost invariant = { λ a. (length a.span_info.items ≡ length a.data.items) × (length a.data.items ≤ largest_u32) };
}

impl<T: Drop, K> Arena<T, K> {
    /// An empty arena, which takes its memory from `alloc`.
    pub fn new(alloc: Global) -> Arena<T, K>
        ensures { result ≡ [] }
    {
        Arena {
            data: Vec::new(alloc),
            span_info: Vec::new(alloc),
            kind: PhantomData,
        }
    }

    /// The number of items.
    pub fn len(&self) -> usize
        ensures value { result ≡ length self.now }
        ensures bound { result ≤ largest_u32 }
    {
        self.data.len()
    }

    /// Whether there is no item.
    pub fn is_empty(&self) -> bool
        ensures { result ≡ (length self.now == 0) }
    {
        self.data.is_empty()
    }

    /// Adds an item at the end, and returns its handle.
    ///
    /// # Errors
    ///
    /// `OutOfMemory` if memory was refused, which leaves the arena as it was and drops the item.
    pub fn append(&mut self, item: T, span: Span) -> Result<Handle<K>, OutOfMemory>
        requires { length self.old < largest_u32 }
        ensures place { IfOk result (λ h. h ≡ length self.old) }
        ensures appended { OnOk result (self.new ≡ self.old ++ item ∷ []) }
        ensures refused { OnErr result (self.new ≡ self.old) }
    {
        let index = self.data.len();
        self.data.push(item)?;
        if self.span_info.push(span).is_err() {
            self.data.pop();
            return Err(OutOfMemory);
        }
        Ok(Handle::new(index as u32))
    }

    /// The item that a handle names.
    pub fn get(&self, handle: Handle<K>) -> &T
        requires { handle < length self.now }
        ensures { slice_get self.now handle ≡ Some result.now }
    {
        &self.data[handle.index()]
    }

    /// The part of the source that an item was made from; the default span if that isn't known.
    pub fn get_span(&self, handle: Handle<K>) -> Span
        requires { handle < length self.now }
    {
        self.span_info[handle.index()]
    }

    /// Puts an item in the place of another, whose span stays.
    pub fn replace(&mut self, handle: Handle<K>, item: T)
        requires { handle < length self.old }
        ensures { self.new ≡ slice_set self.old handle item }
    {
        self.data[handle.index()] = item;
    }

    /// The range of the items that were added after the first `old_length` ones.
    pub fn range_from(&self, old_length: usize) -> Range<K>
        requires { old_length ≤ length self.now }
        ensures start { result.start ≡ old_length }
        ensures end { result.end ≡ length self.now }
    {
        let length = self.len();
        Range::new(old_length as u32, length as u32)
    }

    /// The items in order.
    pub fn as_slice(&self) -> &[T]
        ensures { result.now ≡ self.now }
    {
        &self.data
    }

    /// The items with their handles, in order.
    pub fn iter(&self) -> Iter<'_, T, K>
        ensures { result ≡ enumerate_from 0 self.now }
    {
        Iter::new(&self.data)
    }
}

impl<T: Drop, K: Kind> Arena<T, K> {
    /// Whether a handle names an item of the arena.
    ///
    /// # Errors
    ///
    /// `BadHandle` if its index is the number of items or more.
    pub fn check_contains_handle(&self, handle: Handle<K>) -> Result<(), BadHandle>
        ensures exists { IsOk result ↔ (handle < length self.now) }
        ensures missing { IfErr result (λ e. e ≡ record { kind = K.kind_name; index = handle }) }
    {
        handle.check_valid_for(self.len())
    }

    /// Whether every handle of a range names an item of the arena. Of an empty range each does, whatever its ends.
    ///
    /// # Errors
    ///
    /// `BadRangeError` if the range goes back, or ends after the last item.
    pub fn check_contains_range(&self, range: Range<K>) -> Result<(), BadRangeError>
        ensures good { IsOk result ↔ IsGoodRange (length self.now) range }
        ensures bad { IfErr result (λ e. e ≡ record { kind = K.kind_name; start = range.start; end = range.end }) }
    {
        range.check_valid_for(self.len())
    }
}

impl<T: Drop, K> Index<Handle<K>> for Arena<T, K> {
    ghost use Rattle.std.specs.Prelude.{◌≡◌, ◌<◌, length, Some, slice_get};

    type Output = T;

    ghost can_index = { λ a i. i < length a };

    ghost index_gives = { λ a i r. slice_get a i ≡ Some r };

    fn index(&self, handle: Handle<K>) -> &T {
        self.get(handle)
    }
}
