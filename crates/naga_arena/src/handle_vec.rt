//! Vectors whose values belong to the items of an arena, and are read by their handles.

ghost use Rattle.std.specs.List.{AllZip};
ghost use Rattle.std.specs.Prelude.{◌≡◌, ◌==◌, ◌+◌, ◌<◌, ◌≤◌, [], ◌∷◌, ◌++◌, length, IfOk, IsOk, OnErr, OnOk};

use crate::handle::Handle;
use crate::memory::OutOfMemory;
use std::alloc::Global;
use std::fmt;
use std::marker::{Model, PhantomData};
use std::ops::Index;

/// A value for each of the first items of an arena of kind `K`, in the order of the items. Contracts
/// see the values, and the room for values that takes no more memory.
#[derive(Drop)]
pub struct HandleVec<V, K> {
    inner: Vec<V>,
    kind: PhantomData<K>,
}

impl<V, K> Model for HandleVec<V, K> {
    ghost use Rattle.std.specs.Prelude.{vec_capacity};
    ghost use Rattle.naga_arena.specs.WithRoom.{WithRoom};

    ghost Value = { WithRoom V };

    ghost view = { λ v. record { items = v.inner.items; room = vec_capacity v.inner } };
}

impl<V: Drop, K> HandleVec<V, K> {
    /// No values, which take their memory from `alloc`.
    pub fn new(alloc: Global) -> HandleVec<V, K>
        ensures { result.items ≡ [] }
    {
        HandleVec {
            inner: Vec::new(alloc),
            kind: PhantomData,
        }
    }

    /// No values, with room for `capacity` of them.
    ///
    /// # Errors
    ///
    /// `OutOfMemory` if memory was refused; room for none takes no memory.
    pub fn with_capacity(alloc: Global, capacity: usize) -> Result<HandleVec<V, K>, OutOfMemory>
        ensures items { IfOk result (λ v. v.items ≡ []) }
        ensures room { IfOk result (λ v. v.room ≡ capacity) }
        ensures none { capacity ≡ 0 → IsOk result }
    {
        Ok(HandleVec {
            inner: Vec::with_capacity(alloc, capacity)?,
            kind: PhantomData,
        })
    }

    /// How many values there are.
    pub fn len(&self) -> usize
        ensures { result ≡ length self.now.items }
    {
        self.inner.len()
    }

    /// Whether there is no value.
    pub fn is_empty(&self) -> bool
        ensures { result ≡ (length self.now.items == 0) }
    {
        self.inner.is_empty()
    }

    /// The values, in order.
    pub fn as_slice(&self) -> &[V]
        ensures { result.now ≡ self.now.items }
    {
        self.inner.as_slice()
    }

    /// How many values there is room for without more memory.
    pub fn capacity(&self) -> usize
        ensures { result ≡ self.now.room }
    {
        self.inner.capacity()
    }

    /// Makes room for `additional` more values. The room never shrinks.
    ///
    /// # Errors
    ///
    /// `OutOfMemory` if memory was refused, which leaves values and room as they were.
    pub fn reserve(&mut self, additional: usize) -> Result<(), OutOfMemory>
        ensures items { self.new.items ≡ self.old.items }
        ensures room { OnOk result (length self.old.items + additional ≤ self.new.room) }
        ensures grows { self.old.room ≤ self.new.room }
        ensures within_room { length self.old.items + additional ≤ self.old.room → IsOk result }
        ensures refused { OnErr result (self.new ≡ self.old) }
    {
        self.inner.reserve(additional)?;
        Ok(())
    }

    /// Adds the value of the next item. Below the room this takes no memory.
    ///
    /// # Errors
    ///
    /// `OutOfMemory` if memory was refused, which leaves the values as they were, and drops the new one.
    pub fn push(&mut self, value: V) -> Result<(), OutOfMemory>
        ensures pushed { OnOk result (self.new.items ≡ self.old.items ++ value ∷ []) }
        ensures refused { OnErr result (self.new.items ≡ self.old.items) }
        ensures within_room { length self.old.items < self.old.room → IsOk result }
        ensures grows { self.old.room ≤ self.new.room }
    {
        self.inner.push(value)?;
        Ok(())
    }

    /// Adds the value of the next item, for which there is room.
    pub fn push_reserved(&mut self, value: V)
        requires { length self.old.items < self.old.room }
        ensures { self.new ≡ record self.old { items = self.old.items ++ value ∷ [] } }
    {
        self.inner.push_reserved(value);
    }

    /// Forgets all values, and keeps the room.
    pub fn clear(&mut self)
        ensures { self.new ≡ record self.old { items = [] } }
    {
        self.inner.clear();
    }
}

impl<V: Copy, K> HandleVec<V, K> {
    /// Adds values of the next items, all of them or none. Within the room this takes no memory.
    ///
    /// # Errors
    ///
    /// `OutOfMemory` if memory was refused, which leaves the values as they were.
    pub fn extend_from_slice(&mut self, values: &[V]) -> Result<(), OutOfMemory>
        ensures added { OnOk result (self.new.items ≡ self.old.items ++ values.now) }
        ensures refused { OnErr result (self.new.items ≡ self.old.items) }
        ensures within_room { length self.old.items + length values.now ≤ self.old.room → IsOk result }
        ensures grows { self.old.room ≤ self.new.room }
    {
        self.inner.extend_from_slice(values)?;
        Ok(())
    }
}

impl<V: Clone, K> HandleVec<V, K> {
    /// Clones of the values, in memory of their own.
    ///
    /// # Errors
    ///
    /// `OutOfMemory` if memory was refused.
    pub fn try_clone(&self) -> Result<HandleVec<V, K>, OutOfMemory>
        ensures { IfOk result (λ copy. AllZip V.is_clone self.now.items copy.items) }
    {
        Ok(HandleVec {
            inner: self.inner.clone()?,
            kind: PhantomData,
        })
    }
}

impl<V: Drop, K> Index<Handle<K>> for HandleVec<V, K> {
    ghost use Rattle.std.specs.Prelude.{◌≡◌, ◌<◌, length, Some, slice_get};

    type Output = V;

    ghost can_index = { λ v i. i < length v.items };

    ghost index_gives = { λ v i r. slice_get v.items i ≡ Some r };

    fn index(&self, handle: Handle<K>) -> &V {
        &self.inner[handle.index()]
    }
}

/// Shown as the list of the values.
impl<V: fmt::Debug, K> fmt::Debug for HandleVec<V, K> {
    fn fmt<W: fmt::Write>(&self, f: &mut fmt::Formatter<W>) -> fmt::Result {
        self.inner.fmt(f)
    }
}
