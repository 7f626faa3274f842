//! The arena of types, in which no two are equal.

ghost use Rattle.std.specs.Prelude.{◌≡◌, ◌==◌, ℕ, ◌<◌, ◌≤◌, [], ◌∷◌, ◌++◌, length, IsOk, IfOk, OnOk, OnErr, IfSome, IsSome, Contains, ◌↔◌, Some, slice_get, codes, IfErr, vec_len, vec_capacity, ◌+◌};
ghost use Rattle.naga_arena.specs.Existence.{IsGoodRange};
ghost use Rattle.naga_arena.specs.Numbers.{largest_u32};
ghost use Rattle.std.specs.List.{enumerate_from};
ghost use Rattle.naga_ir.specs.Distinct.{AllDistinct};

use crate::type_paths::{add_link, find};
use crate::types::Type;
use naga_arena::handle::{BadHandle, Handle};
use naga_arena::iter::Iter;
use naga_arena::memory::OutOfMemory;
use naga_arena::range::{BadRangeError, Range};
use naga_arena::span::Span;
use naga_arena::tags::TypeTag;
use std::alloc::Global;
use std::fmt;
use std::marker::Model;
use std::ops::Index;

/// Types, of which no two are equal, in the order in which they were added, each with its span in the
/// source. Contracts see the list of the types.
///
/// An insertion hashes the type, in time linear in its own members, whose types are hashed as handles. It follows the
/// bits of the hash from type to type, some `log n` of n types. After eight of these links, which only types that were
/// chosen to collide have in common with many others, the bits of a second hash, SipHash, choose the way. However types
/// are chosen, there are at most 40 links, unless types share all 64 bits of SipHash.
#[derive(Drop)]
pub struct UniqueArena {
    types: Vec<Type>,
    span_info: Vec<Span>,
    /// The first hash of each type.
    hashes: Vec<u64>,
    /// Links at which paths to types begin, and four of each type to others.
    links: Vec<u32>,
}

impl Model for UniqueArena {
    ghost use Rattle.naga_arena.specs.Numbers.{largest_u32};
    ghost use Rattle.std.specs.Prelude.{List, ◌≡◌, ◌≤◌, length};
    ghost use Rattle.naga_ir.specs.declared.types.«Type».{«Type»};
    ghost use Rattle.naga_ir.specs.Distinct.{AllDistinct};
    ghost use Rattle.naga_ir.specs.steps.TypePaths.{AllReached, LinksGoOn, AreFirstHashes};

    ghost Value = { List «Type» };

    ghost view = { λ a. a.types.items };

    ghost invariant = { λ a. (length a.span_info.items ≡ length a.types.items)
        × (length a.types.items ≤ largest_u32)
        × AllDistinct a.types.items
        × AreFirstHashes a.hashes.items a.types.items
        × LinksGoOn a.links.items (length a.types.items)
        × AllReached a.links.items a.types.items };
}

/// Makes room for one more type.
///
/// # Errors
///
/// `OutOfMemory` if memory was refused.
fn reserve(
    types: &mut Vec<Type>,
    span_info: &mut Vec<Span>,
    hashes: &mut Vec<u64>,
) -> Result<(), OutOfMemory>
    ensures types { types.new.items ≡ types.old.items }
    ensures span_info { span_info.new.items ≡ span_info.old.items }
    ensures hashes { hashes.new.items ≡ hashes.old.items }
    ensures type_room { OnOk result (vec_len types.new < vec_capacity types.new) }
    ensures span_room { OnOk result (vec_len span_info.new < vec_capacity span_info.new) }
    ensures hash_room { OnOk result (vec_len hashes.new < vec_capacity hashes.new) }
{
    types.reserve(1)?;
    span_info.reserve(1)?;
    hashes.reserve(1)?;
    Ok(())
}

impl UniqueArena {
    /// An empty arena, which takes its memory from `alloc`.
    pub fn new(alloc: Global) -> UniqueArena
        ensures { result ≡ [] }
    {
        UniqueArena {
            types: Vec::new(alloc),
            span_info: Vec::new(alloc),
            hashes: Vec::new(alloc),
            links: Vec::new(alloc),
        }
    }

    /// The number of types.
    pub fn len(&self) -> usize
        ensures value { result ≡ length self.now }
        ensures bound { result ≤ largest_u32 }
    {
        self.types.len()
    }

    /// Whether there is no type.
    pub fn is_empty(&self) -> bool
        ensures { result ≡ (length self.now == 0) }
    {
        self.types.is_empty()
    }

    /// All types, in the order of their handles. No two are equal.
    pub fn as_slice(&self) -> &[Type]
        ensures items { result.now ≡ self.now }
        ensures bound { length result.now ≤ largest_u32 }
        ensures distinct { AllDistinct self.now }
    {
        self.types.as_slice()
    }

    /// The range of the types that were added after the first `old_length` ones.
    pub fn range_from(&self, old_length: usize) -> Range<TypeTag>
        requires { old_length ≤ length self.now }
        ensures start { result.start ≡ old_length }
        ensures end { result.end ≡ length self.now }
    {
        let length = self.len();
        Range::new(old_length as u32, length as u32)
    }

    /// The types with their handles, in order.
    pub fn iter(&self) -> Iter<'_, Type, TypeTag>
        ensures { result ≡ enumerate_from 0 self.now }
    {
        Iter::new(self.types.as_slice())
    }

    /// The type that a handle names.
    pub fn get(&self, handle: Handle<TypeTag>) -> &Type
        requires { handle < length self.now }
        ensures { slice_get self.now handle ≡ Some result.now }
    {
        &self.types[handle.index()]
    }

    /// The part of the source that a type was made from; the default span if that isn't known.
    pub fn get_span(&self, handle: Handle<TypeTag>) -> Span
        requires { handle < length self.now }
    {
        self.span_info[handle.index()]
    }

    /// The handle of the type of the arena that equals `value`, if there is one.
    pub fn get_handle(&self, value: &Type) -> Option<Handle<TypeTag>>
        ensures place { IfSome result (λ h. slice_get self.now h ≡ Some value.now) }
        ensures found { IsSome result ↔ Contains self.now value.now }
    {
        match find(
            self.types.as_slice(),
            self.hashes.as_slice(),
            self.links.as_slice(),
            value,
        ) {
            Ok(index) => Some(Handle::new(index as u32)),
            Err(_) => None,
        }
    }

    /// The handle of `value`, which is added with its `span` unless the arena has an equal type.
    ///
    /// # Errors
    ///
    /// `OutOfMemory` if memory was refused, which leaves the arena as it was and drops `value`. A type
    /// that the arena has is never refused.
    pub fn insert(&mut self, value: Type, span: Span) -> Result<Handle<TypeTag>, OutOfMemory>
        requires { length self.old < largest_u32 }
        ensures present { (k : ℕ) → slice_get self.old k ≡ Some value → IsOk result × IfOk result (λ h. h ≡ k)
            × (self.new ≡ self.old) }
        ensures place { ¬ (Contains self.old value) → IfOk result (λ h. h ≡ length self.old) }
        ensures appended { ¬ (Contains self.old value) → OnOk result (self.new ≡ self.old ++ value ∷ []) }
        ensures found { IfOk result (λ h. slice_get self.new h ≡ Some value) }
        ensures refused { OnErr result (self.new ≡ self.old) }
    {
        let end = match find(
            self.types.as_slice(),
            self.hashes.as_slice(),
            self.links.as_slice(),
            &value,
        ) {
            Ok(index) => return Ok(Handle::new(index as u32)),
            Err(end) => end,
        };
        let index = self.types.len() as u32;
        reserve(&mut self.types, &mut self.span_info, &mut self.hashes)?;
        // The link is the last that may be refused memory: it leads to the type that follows.
        add_link(&mut self.links, end.link, index)?;
        self.types.push_reserved(value);
        self.span_info.push_reserved(span);
        self.hashes.push_reserved(end.hash);
        Ok(Handle::new(index))
    }
}

impl UniqueArena {
    /// Whether a handle names a type of the arena.
    ///
    /// # Errors
    ///
    /// `BadHandle` if its index is the number of types or more.
    pub fn check_contains_handle(&self, handle: Handle<TypeTag>) -> Result<(), BadHandle>
        ensures exists { IsOk result ↔ (handle < length self.now) }
        ensures missing { IfErr result (λ e. e ≡ record { kind = codes "Type"; index = handle }) }
    {
        handle.check_valid_for(self.len())
    }

    /// Whether every handle of a range names a type of the arena. Of an empty range each does, whatever its ends.
    ///
    /// # Errors
    ///
    /// `BadRangeError` if the range goes back, or ends after the last type.
    pub fn check_contains_range(&self, range: Range<TypeTag>) -> Result<(), BadRangeError>
        ensures good { IsOk result ↔ IsGoodRange (length self.now) range }
        ensures bad { IfErr result (λ e. e ≡ record { kind = codes "Type"; start = range.start; end = range.end }) }
    {
        range.check_valid_for(self.len())
    }
}

impl Index<Handle<TypeTag>> for UniqueArena {
    ghost use Rattle.std.specs.Prelude.{◌≡◌, ◌<◌, length, Some, slice_get};

    type Output = Type;

    ghost can_index = { λ a i. i < length a };

    ghost index_gives = { λ a i r. slice_get a i ≡ Some r };

    fn index(&self, handle: Handle<TypeTag>) -> &Type {
        self.get(handle)
    }
}

impl fmt::Debug for UniqueArena {
    fn fmt<W: fmt::Write>(&self, f: &mut fmt::Formatter<W>) -> fmt::Result {
        self.as_slice().fmt(f)
    }
}
