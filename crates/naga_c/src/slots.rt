//! The call on slots of immediate data.

ghost use Rattle.naga_c.specs.Accepted.{IsAccepted};
ghost use Rattle.naga_c.specs.Slots.{AreSlotsOf, ChecksSlots, HasNoSlots, IsShareable};
ghost use Rattle.naga_ir.specs.Handles.{GlobalReferencesOk};
ghost use Rattle.naga_ir.specs.ItemReferences.{global_lists};
ghost use Rattle.std.specs.Prelude.{◌≡◌, IfErr, IfOk, length};

use crate::accepted::AcceptedModule;
use crate::results::Outcome;
use crate::status::Status;
use crate::verdict::counts_of;
use naga_typing::context::to_ctx;
use naga_valid::{Flags, FullTyping, Handle, ImmediateSlots, Module, TypeFlags, Validator};

/// The slots that a value of a type of an accepted module uses from a byte on, if the module has the type and hosts may
/// share its values. The members of other structs may all begin at byte 0, and the walk through them would take time
/// that doubles with each struct inside another.
fn slots_of(
    module: &Module,
    validator: &Validator<FullTyping>,
    ty: u32,
    offset: u32,
) -> Result<ImmediateSlots, Status>
    requires same_length { length validator.now.infos ≡ length «module».now.types }
    requires references { GlobalReferencesOk (global_lists «module».now) }
    ensures found { IfOk result
        (λ slots. IsShareable validator.now.infos ty × AreSlotsOf «module».now ty offset slots) }
    ensures none { IfErr result (HasNoSlots validator.now.infos ty) }
{
    if ty as usize >= module.types.len() {
        return Err(Status::NoType);
    }
    let handle = Handle::new(ty);
    if !validator
        .type_info(handle)
        .flags
        .contains(TypeFlags::HOST_SHAREABLE)
    {
        return Err(Status::NotShareable);
    }
    let inner = &module.types[handle].inner;
    Ok(ImmediateSlots::from_type(inner, offset, &module.types, to_ctx(module)))
}

/// Writes the slots of a type of an accepted module. Returns also what was found out about the module.
pub(crate) fn report_slots(
    accepted: &AcceptedModule,
    ty: u32,
    offset: u32,
    slots: &mut u64,
) -> (Outcome, Status)
    requires accepted { IsAccepted accepted.now }
    requires empty { slots.old ≡ 0 }
    ensures { ChecksSlots accepted.now.subject ty offset slots.new result.0 result.1 }
{
    let module = &accepted.subject.module;
    let outcome = counts_of(module);
    match slots_of(module, &accepted.validator, ty, offset) {
        Ok(used) => {
            *slots = used.to_raw();
            (outcome, Status::Done)
        }
        Err(status) => (outcome, status),
    }
}
