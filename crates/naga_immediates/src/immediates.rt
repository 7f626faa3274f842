//! Which of the immediate data of a pipeline a shader uses, in slots of four bytes.

ghost use Rattle.std.specs.Prelude.{◌≡◌, ℕ, ◌+◌, ◌-◌, ◌^◌, ◌<◌, ◌↔◌, All, IsOk, IsTrue, MatchOption, None, Some, length, min, replicate, slice_get};
ghost use Rattle.naga_immediates.specs.SlotText as text;
ghost use Rattle.naga_immediates.specs.Slots as spec;
ghost use Rattle.naga_immediates.specs.Slots.{AccessesMember, IsSetOf, HasSlot, SharesByte, UsesSlot, immediate_size, lists_with, slot_count};
ghost use Rattle.naga_immediates.specs.steps.SlotWalk.{AddsSlotsOf, KnowsNoted, byte_of, note_count, place_of};
ghost use Rattle.naga_ir.specs.Handles.{GlobalReferencesOk, HandlesAccepted};
ghost use Rattle.naga_ir.specs.ItemReferences.{global_lists};
ghost use Rattle.naga_ir.specs.declared.types.«Type».{«Type»};
ghost use Rattle.naga_typing.specs.Context.{ReferencesExist, lists_of};
ghost use Rattle.naga_typing.specs.Layout.{layout_results, size_of};

use naga_ir::arena::Arena;
use naga_ir::expression::Expression;
use naga_ir::handle::Handle;
use naga_ir::ir::{GlobalVariable, Module};
use naga_ir::tags::{ExpressionTag, GlobalVariableTag, TypeTag};
use naga_ir::types::{AddressSpace, StructMember, TypeInner};
use naga_ir::unique_arena::UniqueArena;
use naga_typing::context::{GlobalCtx, to_ctx};
use naga_typing::type_methods::{size, try_size};
use std::fmt;
use std::ops::{BitOr, BitOrAssign};

/// How many slots there are.
const SLOT_COUNT: u64 = 64;

/// How many bytes a slot has.
const SLOT_SIZE: u64 = 4;

/// How many bytes all slots have.
const BYTE_COUNT: usize = 256;

/// How many struct types a walk notes for each byte.
const NOTES_A_BYTE: usize = 8;

/// How many struct types a walk notes for all bytes.
const NOTE_COUNT: usize = NOTES_A_BYTE * BYTE_COUNT;

/// A set of slots of the immediate data of a pipeline: naga's `ImmediateSlots`. The 256 bytes of
/// immediate data are 64 slots, of which slot `k` has the bytes `4 * k` to `4 * k + 3`.
///
/// No call takes memory.
#[derive(Clone, Copy, Debug, PartialEq, Eq)]
pub struct ImmediateSlots(u64);

impl ImmediateSlots {
    /// The slots whose bits are 1: slot `k` is in the set if bit `k` of `raw` is.
    pub fn from_raw(raw: u64) -> ImmediateSlots
        ensures { result ≡ record { 0 = raw } }
    {
        ImmediateSlots(raw)
    }

    /// The set as bits: bit `k` is 1 if slot `k` is in the set, else 0.
    pub fn to_raw(self) -> u64
        ensures { result ≡ self.0 }
    {
        self.0
    }

    /// The slots that share a byte with the `size_bytes` bytes from `offset` on, none if there are no
    /// bytes. Bytes from 256 on are in no slot; sums are not limited to 32 bits.
    pub fn from_range(offset: u32, size_bytes: u32) -> ImmediateSlots
        ensures { IsSetOf (SharesByte offset size_bytes) result }
    {
        if size_bytes == 0 {
            return ImmediateSlots(0);
        }
        // The sum of two numbers of 32 bits may need one bit more.
        let first = u64::from(offset);
        let last = first + u64::from(size_bytes) - 1;
        // `below` stops at the last slot, so bytes from 256 on drop out by themselves.
        ImmediateSlots(below(last / SLOT_SIZE + 1) - below(first / SLOT_SIZE))
    }

    /// The slots that a value of type `ty` uses if it begins at byte `offset`: the slots with which a
    /// part of it shares a byte. A struct has the parts of its members, at their offsets, and what is
    /// between them is used by none; any other value is one part, of as many bytes as its size. Bytes
    /// from 256 on are in no slot.
    ///
    /// `types` stands for the types of `gctx`.
    ///
    /// The cost is linear in the members of structs, each counted once for each way by which it is
    /// reached. But a struct type isn't walked through again from a byte from which it was walked through,
    /// unless a type whose index leaves the same remainder by 8 was since. So a chain of structs of two
    /// members of the struct before is linear, and one of pairs of neighbours of which each has both before
    /// as members. What takes time that doubles with each step is a chain of pairs of structs, eight apart
    /// among the types, of which each has both structs of the pair before as members at one byte: nine types
    /// a step. It calls itself as deep as structs are nested.
    pub fn from_type(
        ty: &TypeInner,
        offset: u32,
        types: &UniqueArena,
        gctx: GlobalCtx<'_>,
    ) -> ImmediateSlots
        requires exist { ReferencesExist (lists_with types.now gctx) ty.now }
        requires references { GlobalReferencesOk (lists_with types.now gctx) }
        ensures { IsSetOf (UsesSlot (lists_with types.now gctx.entry) ty.now offset) result }
    {
        let gctx = GlobalCtx { types, ..gctx };
        let TypeInner::Struct { members, .. } = ty else {
            return slots_of_part(ty, offset, gctx);
        };
        let mut walk = SlotWalk::new();
        for member in members.as_slice() {
            if let Some(byte) = member_byte(offset, member) {
                walk.add(member.ty, byte, gctx);
            }
        }
        walk.slots
    }

    /// Whether all slots of `other` are in this set.
    pub fn contains(self, other: ImmediateSlots) -> bool
        ensures { IsTrue result ↔ ((k : ℕ) → HasSlot other k → HasSlot self k) }
    {
        other.0 & !self.0 == 0
    }

    /// The slots of this set that aren't in `other`.
    pub fn difference(self, other: ImmediateSlots) -> ImmediateSlots
        ensures { (k : ℕ) → HasSlot result k ↔ (HasSlot self k × ¬ (HasSlot other k)) }
    {
        ImmediateSlots(self.0 & !other.0)
    }

    /// The size of the immediate data of a module, in bytes: the size of the type of the first global
    /// variable in the address space `Immediate`, or 0 if there is none.
    pub fn size_for_module(module: &Module) -> u32
        requires handles { HandlesAccepted «module».now }
        requires laid_out { All IsOk (layout_results (global_lists «module».now)) }
        ensures { result ≡ immediate_size (global_lists «module».now) «module».now.global_variables }
    {
        let gctx = to_ctx(module);
        for variable in module.global_variables.as_slice() {
            if let AddressSpace::Immediate = variable.space {
                return size(&gctx.types[variable.ty].inner, gctx);
            }
        }
        0
    }

    /// The slots that may be used through a pointer to the global variable `global` of immediate data,
    /// or to a part of it: the slots of a member if `pointer` accesses the member by its index in the
    /// variable itself, and else all slots of the variable.
    ///
    /// The cost is the cost of `from_type` for the type of the member or the variable.
    pub fn for_pointer(
        pointer: Handle<ExpressionTag>,
        global: Handle<GlobalVariableTag>,
        expressions: &Arena<Expression, ExpressionTag>,
        global_vars: &Arena<GlobalVariable, GlobalVariableTag>,
        gctx: GlobalCtx<'_>,
    ) -> ImmediateSlots
        requires pointer { pointer < length expressions.now }
        requires operands { spec.BaseExists expressions.now pointer }
        requires global { global < length global_vars.now }
        requires typed { spec.IsTyped (lists_of gctx) (slice_get global_vars.now global) }
        requires references { GlobalReferencesOk (lists_of gctx) }
        ensures { spec.AreSlotsTouched (lists_of gctx.entry) expressions.now (slice_get global_vars.now global)
            pointer result }
    {
        let whole = &gctx.types[global_vars[global].ty].inner;
        match accessed_member(pointer, expressions, whole) {
            Some(member) => {
                let inner = &gctx.types[member.ty].inner;
                ImmediateSlots::from_type(inner, member.offset, gctx.types, gctx)
            }
            None => ImmediateSlots::from_type(whole, 0, gctx.types, gctx),
        }
    }

    /// Whether a slot is in the set.
    fn has_slot(self, slot: u64) -> bool
        requires { slot < slot_count }
        ensures { result ≡ text.has_slot self slot }
    {
        self.0 >> slot & 1 == 1
    }

    /// Whether a run begins with a slot: it is in the set, and the one before it isn't.
    fn begins_run(self, slot: u64) -> bool
        requires { slot < slot_count }
        ensures { result ≡ text.begins_run self slot }
    {
        self.has_slot(slot) && !(slot > 0 && self.has_slot(slot - 1))
    }

    /// The first slot from one on that isn't in the set, or the number of all slots.
    fn end_of_run(self, first: u64) -> u64
        ensures { result ≡ text.end_of_run self first }
    {
        (first..SLOT_COUNT)
            .find(|slot| !self.has_slot(*slot))
            .unwrap_or(SLOT_COUNT)
    }
}

impl fmt::Display for ImmediateSlots {
    ghost use Rattle.std.specs.Prelude.{Some};
    ghost use Rattle.naga_immediates.specs.SlotText.{slot_text};

    ghost output = { λ slots. Some (slot_text slots) };

    /// Writes the maximal runs of slots, rising, each as its first byte and the byte after its last, as
    /// `0..8, 16..20`; and `(none)` if the set is empty.
    fn fmt<W: fmt::Write>(&self, f: &mut fmt::Formatter<W>) -> fmt::Result {
        if self.0 == 0 {
            return f.write_str("(none)");
        }
        let mut separator = "";
        for slot in 0..SLOT_COUNT {
            if self.begins_run(slot) {
                let first = SLOT_SIZE * slot;
                let end = SLOT_SIZE * self.end_of_run(slot);
                write!(f, "{separator}{first}..{end}")?;
                separator = ", ";
            }
        }
        Ok(())
    }
}

/// The bits of the slots before a slot, of those that there are.
fn below(slot: u64) -> u64
    ensures { result ≡ 2 ^ min slot_count slot - 1 }
{
    if slot < SLOT_COUNT {
        (1 << slot) - 1
    } else {
        u64::MAX
    }
}

/// The byte at which a member of a struct begins, if it is one of those that slots have.
fn member_byte(offset: u32, member: &StructMember) -> Option<u8>
    ensures { result ≡ byte_of (offset + member.now.offset) }
{
    u8::try_from(u64::from(offset) + u64::from(member.offset)).ok()
}

/// Where a walk notes that it has walked through a struct type from a byte.
fn place_of(ty: Handle<TypeTag>, byte: u8) -> usize
    ensures value { result ≡ place_of ty byte }
    ensures within { result < note_count }
{
    NOTES_A_BYTE * usize::from(byte) + ty.index() % NOTES_A_BYTE
}

/// The slots of a value that is not a struct.
fn slots_of_part(inner: &TypeInner, offset: u32, gctx: GlobalCtx<'_>) -> ImmediateSlots
    requires exist { ReferencesExist (lists_of gctx) inner.now }
    requires references { GlobalReferencesOk (lists_of gctx) }
    ensures { IsSetOf (SharesByte offset (size_of (lists_of gctx.entry) inner.now)) result }
{
    ImmediateSlots::from_range(offset, try_size(inner, gctx).unwrap_or(u32::MAX))
}

/// The member that a pointer accesses by its index in a global variable, whose type is `whole`.
fn accessed_member<'a>(
    pointer: Handle<ExpressionTag>,
    expressions: &Arena<Expression, ExpressionTag>,
    whole: &'a TypeInner,
) -> Option<&'a StructMember>
    requires pointer { pointer < length expressions.now }
    requires operands { spec.BaseExists expressions.now pointer }
    ensures { MatchOption result (spec.AccessesNone expressions.now whole.now pointer)
        (λ m. AccessesMember expressions.now whole.now pointer m.now) }
{
    let Expression::AccessIndex { base, index } = expressions[pointer] else {
        return None;
    };
    // An access below a member counts as one to the whole variable, as in naga.
    let Expression::GlobalVariable(_) = expressions[base] else {
        return None;
    };
    let TypeInner::Struct { members, .. } = whole else {
        return None;
    };
    members.as_slice().get(index as usize)
}

/// The slots that a walk through the members of a struct has found so far.
#[derive(Drop)]
struct SlotWalk {
    slots: ImmediateSlots,
    /// For each byte the struct types that were the last to be walked through from there, of those whose
    /// indexes leave the same remainder: all slots that they use from there are among `slots`.
    noted: [Option<Handle<TypeTag>>; NOTE_COUNT],
}

impl SlotWalk {
    /// The beginning of a walk.
    fn new() -> SlotWalk
        ensures slots { result.slots ≡ record { 0 = 0 } }
        ensures noted { result.noted ≡ replicate note_count None }
    {
        SlotWalk {
            slots: ImmediateSlots(0),
            noted: [None; NOTE_COUNT],
        }
    }

    /// Whether a struct type is noted to be walked through from a byte.
    fn has_walked(&self, ty: Handle<TypeTag>, byte: u8) -> bool
        ensures { IsTrue result ↔ (slice_get self.now.noted (place_of ty byte) ≡ Some (Some ty)) }
    {
        match self.noted[place_of(ty, byte)] {
            Some(walked) => walked == ty,
            None => false,
        }
    }

    /// Adds the slots that a value of a type uses if it begins at a byte.
    fn add(&mut self, ty: Handle<TypeTag>, byte: u8, gctx: GlobalCtx<'_>)
        requires exists { ty < length gctx.types.now }
        requires references { GlobalReferencesOk (lists_of gctx) }
        requires noted { KnowsNoted (lists_of gctx) self.old }
        ensures noted { KnowsNoted (lists_of gctx.entry) self.new }
        ensures gains { AddsSlotsOf (lists_of gctx.entry) ty byte self.old.slots self.new.slots }
    {
        let inner = &gctx.types[ty].inner;
        let TypeInner::Struct { members, .. } = inner else {
            self.slots |= slots_of_part(inner, u32::from(byte), gctx);
            return;
        };
        if self.has_walked(ty, byte) {
            return;
        }
        for member in members.as_slice() {
            if let Some(next) = member_byte(u32::from(byte), member) {
                self.add(member.ty, next, gctx);
            }
        }
        // Only now, after its members, are all its slots in the set.
        self.noted[place_of(ty, byte)] = Some(ty);
    }
}

impl Default for ImmediateSlots {
    ghost use Rattle.std.specs.Prelude.{◌≡◌};

    ghost is_default = { λ slots. slots ≡ record { 0 = 0 } };

    /// No slots.
    fn default() -> ImmediateSlots {
        ImmediateSlots(0)
    }
}

impl BitOrAssign for ImmediateSlots {
    ghost use Rattle.std.specs.Prelude.{◌≡◌, bit_or};

    ghost bitor_assign_gives = { λ a b r. r ≡ record { 0 = bit_or a.0 b.0 } };

    /// Adds the slots of another set.
    fn bitor_assign(&mut self, rhs: ImmediateSlots) {
        self.0 |= rhs.0;
    }
}

impl BitOr for ImmediateSlots {
    ghost use Rattle.std.specs.Prelude.{◌≡◌, bit_or};

    type Output = ImmediateSlots;

    ghost bitor_gives = { λ a b r. r ≡ record { 0 = bit_or a.0 b.0 } };

    /// The slots of either set.
    fn bitor(self, rhs: ImmediateSlots) -> ImmediateSlots {
        ImmediateSlots(self.0 | rhs.0)
    }
}
