//! All leaves of a type, one after another.

ghost use Rattle.std.specs.Prelude.{◌≡◌, ◌+◌, ◌<◌, [], ◌≤◌, suc, length as length_of, All, IfErr, IfOk, IfSome, IsTrue, MatchOption, OnErr, OnOk, None, Some, option_map, true};
ghost use Rattle.naga_arena.specs.Numbers.{largest_u32};
ghost use Rattle.naga_ir.specs.Handles.{GlobalReferencesOk};
ghost use Rattle.naga_ir.specs.ItemReferences.{global_lists};
ghost use Rattle.naga_leaves.specs.HasLeaves.{AreLeavesKnown, HasNoLeaf};
ghost use Rattle.naga_leaves.specs.Leaf.{bytes_of};
ghost use Rattle.naga_leaves.specs.Cursor.{YieldsAll, YieldsSame, IsAtEnd, IsCursor, IsNext, path_of};
ghost use Rattle.naga_leaves.specs.steps.NextLeaf.{ComesOn};
ghost use Rattle.naga_leaves.specs.steps.Parts.{part_of};
ghost use Rattle.naga_leaves.specs.Places.{IsEntered, IsPlace, IsUnmoved, part_of_type};
ghost use Rattle.naga_leaves.specs.steps.Steps.{Follows, HasNoLeafBefore, HasNoLeafFrom, IsTurned, IsVisited, Leaves as LeavesPart, Skips, Steps};
ghost use Rattle.naga_leaves.specs.declared.leaf.Part as part;
ghost use Rattle.naga_typing.specs.Context.{lists_of};
ghost use Rattle.naga_typing.specs.Leaves.{Elements, elements, leaf_at, moved};

use crate::has_leaves::extend_has_leaves;
use crate::leaf::{Leaf, PAST_PARTS, Part, index_after, part_at, whole_leaf};
use naga_ir::handle::Handle;
use naga_ir::handle_vec::HandleVec;
use naga_ir::ir::Module;
use naga_ir::memory::OutOfMemory;
use naga_ir::tags::TypeTag;
use naga_typing::context::{GlobalCtx, to_ctx};
use std::alloc::Global;

/// What a step comes to.
#[derive(Clone, Copy)]
enum Step {
    /// A leaf.
    Leaf(Leaf),
    /// A part that is not a leaf, or what follows a part.
    Other,
    /// The end of the whole value.
    End,
}

/// What follows a part in the part around it.
enum Following {
    /// The element or member of an index.
    Part(u32, Part),
    /// No leaf before the element or member of an index.
    Index(u64),
}

/// A place among the parts of a value.
#[derive(Drop)]
struct Place {
    /// The type of the whole value.
    ty: Handle<TypeTag>,
    /// The part to which the path leads, with its first byte from the start of the whole value.
    part: Part,
    /// The index of the element or member of that part to visit next: past `u32::MAX` in a leaf that
    /// was visited, and in a part that has no more.
    next: u64,
    /// The parts around it, from the whole value on.
    outer: Vec<Part>,
    /// The indexes that lead from each of these to the next, and from the last to the part.
    path: Vec<u32>,
}

impl Place {
    /// The part to which the path leads, if it is a leaf.
    fn leaf(&self, gctx: &GlobalCtx<'_>) -> Option<Leaf>
        requires { self.now.part.ty < length_of gctx.now.types.now }
        ensures leaf { (e : Elements) → option_map bytes_of result
            ≡ option_map (moved self.now.part.first) (leaf_at (lists_of gctx.now) e self.now.part.ty []) }
        ensures begins { IfSome result (λ leaf. leaf.first ≡ self.now.part.first) }
    {
        let Part { ty, first } = self.part;
        let leaf = whole_leaf(&gctx.types[ty].inner)?;
        Some(Leaf { first, ..leaf })
    }

    /// The element or member to visit next, with its index and its first byte from the start of the
    /// part.
    fn next_part(&self, length: u32, gctx: &GlobalCtx<'_>) -> Option<(u32, Part)>
        requires exists { self.now.part.ty < length_of gctx.now.types.now }
        requires references { GlobalReferencesOk (lists_of gctx.now) }
        ensures { MatchOption result
            (HasNoLeafFrom (lists_of gctx.now) (elements (lists_of gctx.now) length) self.now.part.ty self.now.next)
            (λ r. (r.0 ≡ self.now.next) × (r.0 ≤ largest_u32)
            × (part_of_type (lists_of gctx.now) (elements (lists_of gctx.now) length) self.now.part.ty r.0
            ≡ Some (part_of r.1))) }
    {
        // No part has an index past all `u32`s, so the type of a part without more isn't looked up.
        if self.next >= PAST_PARTS {
            return None;
        }
        let index = self.next as u32;
        let part = part_at(&gctx.types[self.part.ty].inner, index, length, gctx)?;
        Some((index, part))
    }

    /// Goes on to a part of the part.
    fn enter(&mut self, index: u32, part: Part) -> Result<(), OutOfMemory>
        ensures ok { OnOk result (IsEntered self.old self.new index part) }
        ensures err { OnErr result (IsUnmoved self.old self.new) }
    {
        self.outer.push(self.part)?;
        // Both lists grow or neither does: a later call goes on from the same place.
        if self.path.push(index).is_err() {
            self.outer.pop();
            return Err(OutOfMemory);
        }
        self.part = part;
        self.next = 0;
        Ok(())
    }

    /// Goes back to the part around the part, and there to the index `next`.
    #[inline]
    fn leave(&mut self, next: u64) -> Step
        requires { length_of self.old.outer.items ≡ length_of self.old.path.items }
        ensures { LeavesPart self.old self.new next result }
    {
        let Some(part) = self.outer.pop() else {
            return Step::End;
        };
        self.path.pop();
        self.part = part;
        self.next = next;
        Step::Other
    }

    /// Goes on to another part of the part around the part.
    #[inline]
    fn turn(&mut self, index: u32, part: Part)
        requires { 0 < length_of self.old.path.items }
        ensures { IsTurned self.old self.new index part }
    {
        let last = self.path.len() - 1;
        self.path[last] = index;
        self.part = part;
        self.next = 0;
    }

    /// What follows the part in the part around it, if anything does: an element or member that begins
    /// past `u64::MAX` is passed, since all its leaves are left out.
    #[inline]
    fn following(&self, length: u32, gctx: &GlobalCtx<'_>) -> Option<Following>
        requires place { IsPlace (lists_of gctx.now) (elements (lists_of gctx.now) length) self.now }
        requires references { GlobalReferencesOk (lists_of gctx.now) }
        ensures { MatchOption result
            (HasNoLeafBefore (lists_of gctx.now) (elements (lists_of gctx.now) length) self.now (suc largest_u32))
            (Follows (lists_of gctx.now) (elements (lists_of gctx.now) length) self.now) }
    {
        let last = self.path.len().checked_sub(1)?;
        let around = self.outer[last];
        let index = self.path[last].checked_add(1)?;
        let part = part_at(&gctx.types[around.ty].inner, index, length, gctx)?;
        let Some(first) = around.first.checked_add(part.first) else {
            return Some(Following::Index(index_after(around.ty, index, gctx)));
        };
        Some(Following::Part(index, Part { ty: part.ty, first }))
    }

    /// Visits the part, to which a step has led: the step comes to a leaf if the part is one.
    #[inline]
    fn visit(&mut self, gctx: &GlobalCtx<'_>) -> Step
        requires { self.old.part.ty < length_of gctx.now.types.now }
        ensures { (e : Elements) → IsVisited (lists_of gctx.now) e self.old self.new result }
    {
        let Some(leaf) = self.leaf(gctx) else {
            return Step::Other;
        };
        // A leaf has no parts, so the next step may pass it without a look at its type.
        self.next = PAST_PARTS;
        Step::Leaf(leaf)
    }

    /// Goes on from the part, which has no more elements or members, to the one that follows it, or
    /// leaves the part.
    #[inline]
    fn pass(&mut self, length: u32, gctx: &GlobalCtx<'_>) -> Step
        requires place { IsPlace (lists_of gctx.now) (elements (lists_of gctx.now) length) self.old }
        requires references { GlobalReferencesOk (lists_of gctx.now) }
        requires none { HasNoLeafFrom (lists_of gctx.now) (elements (lists_of gctx.now) length) self.old.part.ty self.old.next }
        ensures place { IsPlace (lists_of gctx.now) (elements (lists_of gctx.now) length) self.new }
        ensures ty { self.new.ty ≡ self.old.ty }
        ensures steps { Steps (lists_of gctx.now) (elements (lists_of gctx.now) length) self.old self.new result }
    {
        match self.following(length, gctx) {
            // What follows has the same parts around it, so a step to it needs no memory.
            Some(Following::Part(index, part)) => {
                self.turn(index, part);
                self.visit(gctx)
            }
            Some(Following::Index(next)) => self.leave(next),
            // The part around has no more, so the next step passes it without a look at its type.
            None => self.leave(PAST_PARTS),
        }
    }

    /// Whether the part is known to have no leaf, by what is known for runtime-sized arrays of `length` elements in
    /// the module of `gctx`.
    #[inline]
    fn has_no_leaf(
        &self,
        has_leaves: &HandleVec<bool, TypeTag>,
        length: u32,
        gctx: &GlobalCtx<'_>,
    ) -> bool
        requires known { AreLeavesKnown (lists_of gctx.now) (elements (lists_of gctx.now) length) has_leaves.now.items }
        ensures { IsTrue result → HasNoLeaf (lists_of gctx.now) (elements (lists_of gctx.now) length) self.now.part.ty }
    {
        matches!(has_leaves.as_slice().get(self.part.ty.index()), Some(false))
    }

    /// Whether the part, which is neither a leaf nor has a part, has no leaf. The first such part makes it known for
    /// all types up to the type of the whole value.
    #[cold]
    #[inline(never)]
    fn is_found_without(
        &self,
        has_leaves: &mut HandleVec<bool, TypeTag>,
        length: u32,
        gctx: &GlobalCtx<'_>,
    ) -> Result<bool, OutOfMemory>
        requires exists { self.now.ty < length_of gctx.now.types.now }
        requires references { GlobalReferencesOk (lists_of gctx.now) }
        requires known { AreLeavesKnown (lists_of gctx.now) (elements (lists_of gctx.now) length) has_leaves.old.items }
        ensures known { AreLeavesKnown (lists_of gctx.now) (elements (lists_of gctx.now) length)
            has_leaves.new.items }
        ensures none { IfOk result (λ none. IsTrue none
            → HasNoLeaf (lists_of gctx.now) (elements (lists_of gctx.now) length) self.now.part.ty) }
    {
        // After the whole value nothing is left to visit, so its type alone needs no memory.
        if self.path.is_empty() {
            return Ok(false);
        }
        extend_has_leaves(has_leaves, self.ty, length, gctx)?;
        Ok(self.has_no_leaf(has_leaves, length, gctx))
    }

    /// Passes the part, which has no leaf, and if it is an element also all elements after it.
    #[cold]
    #[inline(never)]
    fn skip(&mut self, gctx: &GlobalCtx<'_>) -> Step
        requires around { All (λ (around : part.Part). around.ty < length_of gctx.now.types.now) self.old.outer.items }
        requires lengths { length_of self.old.outer.items ≡ length_of self.old.path.items }
        ensures { Skips (lists_of gctx.now) self.old self.new result }
    {
        let Some(last) = self.path.len().checked_sub(1) else {
            return Step::End;
        };
        let next = index_after(self.outer[last].ty, self.path[last], gctx);
        self.leave(next)
    }

    /// Visits the next element or member of the part, or passes the part if it has no more, or no leaf.
    fn step(
        &mut self,
        has_leaves: &mut HandleVec<bool, TypeTag>,
        length: u32,
        gctx: &GlobalCtx<'_>,
    ) -> Result<Step, OutOfMemory>
        requires place { IsPlace (lists_of gctx.now) (elements (lists_of gctx.now) length) self.old }
        requires references { GlobalReferencesOk (lists_of gctx.now) }
        requires known { AreLeavesKnown (lists_of gctx.now) (elements (lists_of gctx.now) length) has_leaves.old.items }
        ensures place { IsPlace (lists_of gctx.now) (elements (lists_of gctx.now) length) self.new }
        ensures known { AreLeavesKnown (lists_of gctx.now) (elements (lists_of gctx.now) length)
            has_leaves.new.items }
        ensures ty { self.new.ty ≡ self.old.ty }
        ensures ok { IfOk result (λ step. Steps (lists_of gctx.now) (elements (lists_of gctx.now) length) self.old
            self.new step) }
        ensures err { OnErr result (IsUnmoved self.old self.new) }
    {
        if self.next == 0 && self.has_no_leaf(has_leaves, length, gctx) {
            return Ok(self.skip(gctx));
        }
        let Some((index, part)) = self.next_part(length, gctx) else {
            if self.next == 0 && self.is_found_without(has_leaves, length, gctx)? {
                return Ok(self.skip(gctx));
            }
            return Ok(self.pass(length, gctx));
        };
        // All leaves of a part that begins past `u64::MAX` are left out, so it isn't entered.
        let Some(first) = self.part.first.checked_add(part.first) else {
            self.next = index_after(self.part.ty, index, gctx);
            return Ok(Step::Other);
        };
        self.enter(index, Part { ty: part.ty, first })?;
        Ok(self.visit(gctx))
    }
}

/// The leaves of a type, one after another, in the lexicographic order of their paths.
///
/// It requests memory for a path, as deep as arrays and structs are nested. If it comes to a part that
/// is neither a leaf nor has a part, as an image or an array of no elements, it also requests a byte for
/// each type, once. It visits an element when it comes to it: an array may have 4294967295.
#[derive(Drop)]
pub struct Leaves<'a> {
    gctx: GlobalCtx<'a>,
    /// How many elements a runtime-sized array has.
    length: u32,
    /// Whether the whole value was visited.
    is_begun: bool,
    place: Place,
    /// Whether the first types have leaves: empty until a part comes that has none.
    has_leaves: HandleVec<bool, TypeTag>,
}

/// The leaves of the type `ty`, if runtime-sized arrays have `length` elements. Paths take their
/// memory from `alloc`.
///
/// ```text
/// let mut leaves = leaves_of(alloc, &module, ty, 1);
/// while let Some(leaf) = leaves.next()? {
///     pack(leaves.path(), leaf);
/// }
/// ```
pub fn leaves_of<'a>(
    alloc: Global,
    module: &'a Module,
    ty: Handle<TypeTag>,
    length: u32,
) -> Leaves<'a>
    requires exists { ty < length_of «module».now.types }
    requires references { GlobalReferencesOk (global_lists «module».now) }
    ensures cursor { IsCursor result }
    ensures all { YieldsAll (global_lists «module».now) (elements (global_lists «module».now) length) ty result }
{
    Leaves {
        gctx: to_ctx(module),
        length,
        is_begun: false,
        place: Place {
            ty,
            part: Part { ty, first: 0 },
            next: 0,
            outer: Vec::new(alloc),
            path: Vec::new(alloc),
        },
        has_leaves: HandleVec::new(alloc),
    }
}

impl<'a> Leaves<'a> {
    /// The path of the leaf that `next` returned last: the indexes of elements and members that lead
    /// to it, from the outermost on.
    pub fn path(&self) -> &[u32]
        ensures { result.now ≡ path_of self.now }
    {
        self.place.path.as_slice()
    }

    /// Visits the whole value unless it was visited, and returns it if it is a leaf.
    fn begin(&mut self) -> Option<Leaf>
        requires { IsCursor self.old }
        ensures cursor { IsCursor self.new }
        ensures begun { self.new.is_begun ≡ true }
        ensures leaf { MatchOption result (ComesOn self.old self.new)
            (λ leaf. IsNext self.old self.new (bytes_of leaf)) }
    {
        if self.is_begun {
            return None;
        }
        // A step only visits parts, so a type that is a leaf itself is returned here.
        self.is_begun = true;
        self.place.leaf(&self.gctx)
    }

    /// The next leaf, or `None` after the last.
    ///
    /// A leaf that would begin past the byte `u64::MAX` is left out.
    ///
    /// A call takes steps for the depth of the paths before and after it, and for each member between
    /// them that has no leaf: an array without leaves is passed in a step, and so are all elements of an
    /// array that begin past `u64::MAX`. The first call that comes to a part that is neither a leaf nor
    /// has a part takes time linear in the types up to the type of the whole value, and their members.
    /// Only parts that begin by `u64::MAX` and whose leaves all begin past it are visited one by one; some
    /// 2^32 leaves come before the first of them.
    ///
    /// # Errors
    ///
    /// `OutOfMemory` if memory was refused. A later call returns the same leaf if memory isn't refused
    /// then.
    pub fn next(&mut self) -> Result<Option<Leaf>, OutOfMemory>
        requires { IsCursor self.old }
        ensures cursor { IsCursor self.new }
        ensures ok { IfOk result (λ found. MatchOption found (IsAtEnd self.old self.new)
            (λ leaf. IsNext self.old self.new (bytes_of leaf))) }
        ensures err { OnErr result (YieldsSame self.old self.new) }
    {
        if let Some(leaf) = self.begin() {
            return Ok(Some(leaf));
        }
        'steps: loop {
            let step = self
                .place
                .step(&mut self.has_leaves, self.length, &self.gctx)?;
            match step {
                Step::Leaf(leaf) => return Ok(Some(leaf)),
                Step::Other => {}
                Step::End => return Ok(None),
            }
        }
    }
}
