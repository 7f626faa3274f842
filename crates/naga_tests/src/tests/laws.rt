//! What a caller of the validator knows by the laws of accepted modules: each law is called, so that what it
//! requires can be met, and the caller promises what follows.

ghost use Rattle.std.specs.Prelude.{◌≡◌, ◌+◌, ◌^◌, ◌<◌, ℕ, false, IfOk, IfSome, IsTrue, OnOk, length, slice_get};
ghost use Rattle.naga_immediates.specs.LeafSlots.{HasNoArray, HasSlotsOfLeaves};
ghost use Rattle.naga_immediates.specs.Slots.{IsSetOf, SharesByte};
ghost use Rattle.naga_ir.specs.ItemReferences.{global_lists};
ghost use Rattle.naga_types.specs.FlagsOfParts.{IsConstructibleByElements, IsConstructibleByMembers};
ghost use Rattle.naga_types.specs.HostLayouts.{HasStorageByLeaves, HasUniformByLeaves, IsForHosts};
ghost use Rattle.naga_types.specs.HostLeaves.{IsLaidOutForHosts, sized_for_hosts};
ghost use Rattle.naga_typing.specs.Leaves.{AreSeparate, HasNoShortStride, size_at_index};
ghost use Rattle.naga_valid.specs.Accepted.{Accepts, AreValidTypes};
ghost use Rattle.naga_valid.specs.Functions.{AreFunctionsReadyInOrder};
ghost use Rattle.naga_valid.specs.State.{settings_of};

use super::valid::{validator_under, with_text};
use super::{assert_same, last_type};
use naga_valid::{
    Capabilities, Handle, ImmediateSlots, Module, ModuleInfo, TypeTag, Typing, ValidationError,
    Validator, WithSpan, laws, to_ctx,
};
use std::alloc::{AllocError, Global};
use std::process::Abort;
use std::test::Fail;

/// No array of an accepted module has a stride below the size of its elements.
fn strides_fit<T: Typing>(module: &Module, validator: &Validator<T>, info: &ModuleInfo)
    requires { Accepts (T.resolves validator.now.typing) «module».now (settings_of validator.now false)
        validator.now.infos info.now.lists }
    ensures { (t : ℕ) → HasNoShortStride (global_lists «module».now) t }
{
    laws::strides(module, validator, false);
}

/// Validates a module, and calls each law of modules. If the module is accepted, no stride is short, the leaves
/// of a type are separate, its layouts follow from its leaves, and its flags from the flags of its members or
/// elements.
fn validate_with_laws(
    validator: &mut Validator,
    module: &Module,
    ty: Handle<TypeTag>,
) -> Result<(), WithSpan<ValidationError>>
    ensures types { OnOk result (AreValidTypes «module».now (settings_of validator.new false) validator.new.infos) }
    ensures strides { OnOk result ((t : ℕ) → HasNoShortStride (global_lists «module».now) t) }
    ensures leaves { OnOk result (IsLaidOutForHosts (global_lists «module».now) validator.new.infos ty sized_for_hosts
        → AreSeparate (global_lists «module».now) 0 ty (size_at_index (global_lists «module».now) ty)) }
    ensures storage { OnOk result (IfSome (slice_get validator.new.infos ty) (λ info. IsForHosts info
        → HasStorageByLeaves (global_lists «module».now) ty info)) }
    ensures uniform { OnOk result (IfSome (slice_get validator.new.infos ty) (λ info. IsForHosts info
        → HasUniformByLeaves (global_lists «module».now) validator.new.infos ty info)) }
    ensures by_members { OnOk result (IfSome (slice_get validator.new.infos ty)
        (IsConstructibleByMembers (global_lists «module».now) validator.new.infos ty)) }
    ensures by_elements { OnOk result (IfSome (slice_get validator.new.infos ty)
        (IsConstructibleByElements (global_lists «module».now) validator.new.infos ty)) }
    ensures functions { OnOk result (AreFunctionsReadyInOrder «module».now) }
{
    let info = validator.validate(module)?;
    strides_fit(module, validator, &info);
    laws::leaves(module, validator, false, ty, 0);
    laws::leaves_at_length(module, validator, false, ty, 0);
    laws::storage_ok(module, validator, false, ty);
    laws::uniform_ok(module, validator, false, ty);
    laws::struct_flags(module, validator, false, ty);
    laws::functions(module, validator, false, &info);
    Ok(())
}

/// The slots that a value of a type uses from byte 0 on: the slots of its leaves, if no array is inside.
fn slots_of(validator: &Validator, module: &Module, ty: Handle<TypeTag>) -> ImmediateSlots
    requires accepted { AreValidTypes «module».now (settings_of validator.now false) validator.now.infos }
    requires exists { ty < length «module».now.types }
    ensures { IfSome (slice_get validator.now.infos ty) (λ info. IsForHosts info
        → HasNoArray (global_lists «module».now) ty
        → HasSlotsOfLeaves (global_lists «module».now) 0 ty 0 result) }
{
    let gctx = to_ctx(module);
    let slots = ImmediateSlots::from_type(&module.types[ty].inner, 0, &module.types, gctx);
    laws::slots_of_leaves(module, validator, false, ty, 0, 0, slots);
    slots
}

/// Makes sure that a module of three types is accepted, so that the laws hold of the last, and which slots
/// that type uses.
fn have_laws(rt: &impl Abort, alloc: Global, module: &Module) -> Result<(), Fail> {
    let mut validator = validator_under(alloc, Capabilities::default());
    let ty = last_type(rt, module);
    validate_with_laws(&mut validator, module, ty)?;
    assert_same(rt, &validator.type_count(), &3);
    let slots = slots_of(&validator, module, ty);
    assert_same(rt, &slots, &ImmediateSlots::from_raw(0b1111_0001));
    Ok(())
}

#[test]
fn laws_hold_of_an_accepted_module(rt: HostRuntime) -> Result<(), Fail> {
    let text = "type scalar uint 4\ntype vector 4 float 4\ntype struct 32 0:0 1:16";
    with_text(&rt, rt.alloc(), text, |module| {
        have_laws(&rt, rt.alloc(), module)
    })
}

/// The slots of a range that is given in two parts, as the slots of either.
fn slots_of_both(offset: u32, size: u32, more: u32) -> ImmediateSlots
    requires { offset + size + more < 2 ^ 32 }
    ensures { IsSetOf (SharesByte offset (size + more)) result }
{
    let first = ImmediateSlots::from_range(offset, size);
    let next = ImmediateSlots::from_range(offset + size, more);
    let both = ImmediateSlots::from_range(offset, size + more);
    laws::ranges_join(offset, size, more, first, next, both);
    first | next
}

/// Whether two sets of slots are shown by one text. If so, they are equal.
fn are_shown_alike(
    alloc: Global,
    slots: ImmediateSlots,
    other: ImmediateSlots,
) -> Result<bool, AllocError>
    ensures { IfOk result (λ alike. IsTrue alike → slots ≡ other) }
{
    let shown = format!(in alloc; "{slots}")?;
    let other_shown = format!(in alloc; "{other}")?;
    laws::slot_text(slots, other);
    Ok(shown.as_str() == other_shown.as_str())
}

#[test]
fn laws_hold_of_slots(rt: HostRuntime) -> Result<(), Fail> {
    let both = slots_of_both(4, 8, 5);
    assert_same(&rt, &both, &ImmediateSlots::from_raw(0b1_1110));
    for (raw, want) in [(0b1_1110, true), (0b1110, false)] {
        let other = ImmediateSlots::from_raw(raw);
        assert_same(&rt, &are_shown_alike(rt.alloc(), both, other)?, &want);
    }
    Ok(())
}
