//! What a caller of the validator knows of the variables of a module, by the laws on that: each law is called, so that
//! what it requires can be met, and the caller promises what follows.

ghost use Rattle.std.specs.Prelude.{◌≡◌, ℕ, false, IsTrue, OnOk};
ghost use Rattle.naga_flags.specs.Bits.{STRUCT_LAYOUTS};
ghost use Rattle.naga_flags.specs.Flags.{has};
ghost use Rattle.naga_ir.specs.ItemReferences.{global_lists};
ghost use Rattle.naga_valid.specs.Accepted.{Accepts};
ghost use Rattle.naga_valid.specs.Interfaces.{HasSeparateLeaves, IsBuffer, KeepVariables, surroundings_of};
ghost use Rattle.naga_valid.specs.MoreCapabilities.{HasMoreCapabilities};
ghost use Rattle.naga_valid.specs.State.{settings_of};

use super::last_type;
use super::valid::with_text;
use naga_valid::{
    AddressSpace, Capabilities, Flags, GlobalVariable, GlobalVariableTag, Handle,
    MemoryDecorations, Module, ModuleInfo, ResourceBinding, Span, Typing, ValidationFlags,
    Validator, VariablesError, laws,
};
use std::alloc::Global;
use std::process::Abort;
use std::test::Fail;

/// Validates the variables of an accepted module. If they are accepted, a host that binds a buffer to one may fill it
/// leaf by leaf.
fn validate_buffers<T: Typing>(
    module: &Module,
    validator: &Validator<T>,
    info: &ModuleInfo,
    variable: Handle<GlobalVariableTag>,
) -> Result<(), VariablesError>
    requires accepted { Accepts (T.resolves validator.now.typing) «module».now (settings_of validator.now false)
        validator.now.infos info.now.lists }
    requires layouts { IsTrue (has validator.now.flags.0 STRUCT_LAYOUTS) }
    ensures { OnOk result ((ty : ℕ) → IsBuffer (surroundings_of validator.now «module».now) «module».now variable ty
        → HasSeparateLeaves (global_lists «module».now) validator.now.infos 7 ty) }
{
    validator.validate_variables(module, info)?;
    laws::buffers(module, validator, info, variable, 7);
    Ok(())
}

/// Validates the variables of an accepted module. If they are accepted, so they are with more capabilities.
fn validate_variables_with_more<T: Typing>(
    module: &Module,
    validator: &Validator<T>,
    info: &ModuleInfo,
    more: &Validator<T>,
) -> Result<(), VariablesError>
    requires accepted { Accepts (T.resolves validator.now.typing) «module».now (settings_of validator.now false)
        validator.now.infos info.now.lists }
    requires capabilities { HasMoreCapabilities validator.now more.now }
    requires infos { more.now.infos ≡ validator.now.infos }
    ensures { OnOk result (KeepVariables more.now «module».now info.now.lists) }
{
    validator.validate_variables(module, info)?;
    laws::more_capabilities_variables(module, validator, more);
    Ok(())
}

/// A uniform variable of the last type of a module.
fn uniform_variable(rt: &impl Abort, module: &Module) -> GlobalVariable {
    GlobalVariable {
        name: None,
        space: AddressSpace::Uniform,
        binding: Some(ResourceBinding {
            group: 0,
            binding: 3,
        }),
        ty: last_type(rt, module),
        init: None,
        memory_decorations: MemoryDecorations::NONE,
    }
}

/// Makes sure that a variable in a buffer is accepted, so that the laws hold of it.
fn accept_buffer(rt: &impl Abort, alloc: Global, module: &mut Module) -> Result<(), Fail> {
    assert!(rt; module.global_variables.len() < 100);
    let variable = uniform_variable(rt, module);
    let handle = module.global_variables.append(variable, Span::default())?;
    let flags = ValidationFlags::all();
    assert!(rt; flags.contains(ValidationFlags::STRUCT_LAYOUTS));
    let mut validator = Validator::new(alloc, flags, Capabilities::default());
    let info = validator.validate(module)?;
    validate_buffers(module, &validator, &info, handle)?;
    validate_variables_with_more(module, &validator, &info, &validator)?;
    Ok(())
}

#[test]
fn laws_hold_of_accepted_variables(rt: HostRuntime) -> Result<(), Fail> {
    let text = "type scalar uint 4\ntype vector 4 float 4\ntype struct 32 0:0 1:16";
    with_text(&rt, rt.alloc(), text, |module| {
        accept_buffer(&rt, rt.alloc(), module)
    })
}
