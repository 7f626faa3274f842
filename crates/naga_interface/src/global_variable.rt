//! The rule of a variable of a module (naga's `validate_global_var`).

ghost use Rattle.std.specs.Prelude.{◌≡◌, ◌<◌, IfSome, length};
ghost use Rattle.naga_interface.specs.GlobalVariables as rule;
ghost use Rattle.naga_interface.specs.Spaces as table;
ghost use Rattle.naga_interface.specs.Surroundings.{AreExpressionsTyped, AreTypesKnown, known, surroundings};
ghost use Rattle.naga_types.specs.Checks.{first_error_or, ok_unless, require};
ghost use Rattle.naga_types.specs.TypeRule.{is_storage};

use crate::context::{Initialisers, InterfaceContext};
use crate::error::GlobalVariableError;
use bitflags::Flags;
use naga_flags::flags::{Capabilities, TypeFlags, ValidationFlags};
use naga_flags::width::ImmediateCompatibility;
use naga_ir::handle::Handle;
use naga_ir::ir::{GlobalVariable, MemoryDecorations};
use naga_ir::storage_format::StorageFormat;
use naga_ir::tags::{ExpressionTag, TypeTag};
use naga_ir::types::{AddressSpace, ImageClass, TypeInner};
use naga_types::info::LayoutCompatibility;

/// What the variables of an address space have to be.
#[derive(Clone, Copy)]
pub(crate) struct SpaceRow {
    /// What their types may at least be used for.
    pub(crate) flags: TypeFlags,
    /// Whether they are resources, which a pipeline binds.
    pub(crate) is_resource: bool,
}

/// The row of an address space. Variables of `Function` are not variables of a module, whatever their type.
fn space_row(space: AddressSpace) -> SpaceRow
    ensures { result ≡ table.space_row space }
{
    let data = TypeFlags::DATA;
    let sized = data.union(TypeFlags::SIZED);
    let shared = data.union(TypeFlags::HOST_SHAREABLE);
    let (flags, is_resource) = match space {
        AddressSpace::Function => (TypeFlags::empty(), false),
        AddressSpace::Private => (
            TypeFlags::CONSTRUCTIBLE.union(TypeFlags::CREATION_RESOLVED),
            false,
        ),
        AddressSpace::Uniform => (
            sized
                .union(TypeFlags::COPY)
                .union(TypeFlags::HOST_SHAREABLE)
                .union(TypeFlags::CREATION_RESOLVED),
            true,
        ),
        AddressSpace::Storage { .. } => (shared.union(TypeFlags::CREATION_RESOLVED), true),
        AddressSpace::Handle => (TypeFlags::empty(), true),
        AddressSpace::Immediate => (shared.union(TypeFlags::COPY).union(TypeFlags::SIZED), false),
        AddressSpace::WorkGroup
        | AddressSpace::TaskPayload
        | AddressSpace::RayPayload
        | AddressSpace::IncomingRayPayload => (sized, false),
    };
    SpaceRow { flags, is_resource }
}

/// Checks that a capability is given.
fn require_capability(
    capabilities: Capabilities,
    capability: Capabilities,
) -> Result<(), GlobalVariableError>
    ensures { result ≡ ok_unless (rule.capability_error capabilities.0 capability.0) tt }
{
    if capabilities.contains(capability) {
        Ok(())
    } else {
        Err(GlobalVariableError::UnsupportedCapability(capability))
    }
}

/// The type of the bindings of a binding array. Other types have none.
fn binding_base(inner: &TypeInner) -> Option<Handle<TypeTag>>
    ensures { result ≡ rule.binding_base inner.now }
{
    match *inner {
        TypeInner::BindingArray { base, .. } => Some(base),
        TypeInner::Scalar(_)
        | TypeInner::Vector { .. }
        | TypeInner::Matrix { .. }
        | TypeInner::CooperativeMatrix { .. }
        | TypeInner::Atomic(_)
        | TypeInner::Pointer { .. }
        | TypeInner::ValuePointer { .. }
        | TypeInner::Array { .. }
        | TypeInner::Struct { .. }
        | TypeInner::Image { .. }
        | TypeInner::Sampler { .. }
        | TypeInner::AccelerationStructure { .. }
        | TypeInner::RayQuery { .. } => None,
    }
}

/// Whether images of a class are storage images.
fn is_storage_class(class: ImageClass) -> bool
    ensures { result ≡ rule.is_storage_class class }
{
    match class {
        ImageClass::Storage { .. } => true,
        ImageClass::Sampled { .. } | ImageClass::Depth { .. } | ImageClass::External => false,
    }
}

/// The capability for binding arrays of a resource. Other types need none.
fn resource_array_capability(inner: &TypeInner) -> Capabilities
    ensures { result ≡ record { 0 = rule.resource_array_capability inner.now } }
{
    match *inner {
        TypeInner::Image { class, .. } if is_storage_class(class) => {
            Capabilities::STORAGE_TEXTURE_BINDING_ARRAY
        }
        TypeInner::Image { .. } | TypeInner::Sampler { .. } => {
            Capabilities::TEXTURE_AND_SAMPLER_BINDING_ARRAY
        }
        TypeInner::AccelerationStructure { .. } => {
            Capabilities::ACCELERATION_STRUCTURE_BINDING_ARRAY
        }
        TypeInner::Scalar(_)
        | TypeInner::Vector { .. }
        | TypeInner::Matrix { .. }
        | TypeInner::CooperativeMatrix { .. }
        | TypeInner::Atomic(_)
        | TypeInner::Pointer { .. }
        | TypeInner::ValuePointer { .. }
        | TypeInner::Array { .. }
        | TypeInner::Struct { .. }
        | TypeInner::RayQuery { .. }
        | TypeInner::BindingArray { .. } => Capabilities::empty(),
    }
}

/// Checks that an address space may have binding arrays of a type.
fn check_binding_array(
    ctx: InterfaceContext<'_>,
    space: AddressSpace,
    base: Handle<TypeTag>,
) -> Result<(), GlobalVariableError>
    requires { base < length ctx.types.now }
    ensures { result ≡ ok_unless (rule.binding_array_error (surroundings ctx.entry) space base) tt }
{
    let capability = match space {
        AddressSpace::Storage { .. } => Capabilities::STORAGE_BUFFER_BINDING_ARRAY,
        AddressSpace::Uniform => Capabilities::BUFFER_BINDING_ARRAY,
        AddressSpace::Handle => resource_array_capability(ctx.inner(base)),
        AddressSpace::Function
        | AddressSpace::Private
        | AddressSpace::WorkGroup
        | AddressSpace::Immediate
        | AddressSpace::TaskPayload
        | AddressSpace::RayPayload
        | AddressSpace::IncomingRayPayload => {
            return Err(GlobalVariableError::InvalidUsage(space));
        }
    };
    require_capability(ctx.capabilities, capability)
}

/// Checks that an address space may have binding arrays of the type's bindings, if the type is one.
fn check_array(
    ctx: InterfaceContext<'_>,
    space: AddressSpace,
    inner: &TypeInner,
) -> Result<(), GlobalVariableError>
    requires { IfSome (rule.binding_base inner.now) (λ b. b < length ctx.types.now) }
    ensures { result ≡ ok_unless (rule.array_error (surroundings ctx.entry) space (rule.binding_base inner.now)) tt }
{
    match binding_base(inner) {
        Some(base) => check_binding_array(ctx, space, base),
        None => Ok(()),
    }
}

/// Checks that hosts can share values of a type with this layout, if layouts are validated.
fn check_layout(
    flags: ValidationFlags,
    space: AddressSpace,
    layout: LayoutCompatibility,
) -> Result<(), GlobalVariableError>
    ensures { result ≡ ok_unless (rule.layout_error flags.0 space layout) tt }
{
    match layout {
        Err((ty, disalignment)) if flags.contains(ValidationFlags::STRUCT_LAYOUTS) => Err(
            GlobalVariableError::Alignment(space, ty, disalignment),
        ),
        Ok(_) | Err(_) => Ok(()),
    }
}

/// Whether the components of a format are normalised numbers of 16 bits.
fn is_16_bit_norm(format: StorageFormat) -> bool
    ensures { result ≡ rule.is_16_bit_norm format }
{
    matches!(
        format,
        StorageFormat::R16Unorm
            | StorageFormat::R16Snorm
            | StorageFormat::Rg16Unorm
            | StorageFormat::Rg16Snorm
            | StorageFormat::Rgba16Unorm
            | StorageFormat::Rgba16Snorm
    )
}

/// The capability that images of a class need.
fn class_capability(class: ImageClass) -> Capabilities
    ensures { result ≡ record { 0 = rule.class_capability class } }
{
    match class {
        ImageClass::Storage { format, .. } if is_16_bit_norm(format) => {
            Capabilities::STORAGE_TEXTURE_16BIT_NORM_FORMATS
        }
        ImageClass::Storage { .. }
        | ImageClass::Sampled { .. }
        | ImageClass::Depth { .. }
        | ImageClass::External => Capabilities::empty(),
    }
}

/// Checks that a type is an image, a sampler or an acceleration structure.
fn check_resource(capabilities: Capabilities, inner: &TypeInner) -> Result<(), GlobalVariableError>
    ensures { result ≡ ok_unless (rule.resource_error capabilities.0 (Some inner.now)) tt }
{
    match *inner {
        TypeInner::Image { class, .. } => {
            require_capability(capabilities, class_capability(class))
        }
        TypeInner::Sampler { .. } | TypeInner::AccelerationStructure { .. } => Ok(()),
        TypeInner::Scalar(_)
        | TypeInner::Vector { .. }
        | TypeInner::Matrix { .. }
        | TypeInner::CooperativeMatrix { .. }
        | TypeInner::Atomic(_)
        | TypeInner::Pointer { .. }
        | TypeInner::ValuePointer { .. }
        | TypeInner::Array { .. }
        | TypeInner::Struct { .. }
        | TypeInner::RayQuery { .. }
        | TypeInner::BindingArray { .. } => {
            Err(GlobalVariableError::InvalidType(AddressSpace::Handle))
        }
    }
}

/// Checks that immediates can hold a type.
fn check_immediate(
    capabilities: Capabilities,
    compatibility: ImmediateCompatibility,
) -> Result<(), GlobalVariableError>
    ensures { result ≡ first_error_or (rule.immediate_checks capabilities.0 compatibility) tt }
{
    require_capability(capabilities, Capabilities::IMMEDIATES)?;
    match compatibility {
        Ok(()) => Ok(()),
        Err(error) => Err(GlobalVariableError::InvalidImmediateType(error)),
    }
}

/// Checks what an address space requires of a type besides its flags.
fn check_space(
    ctx: InterfaceContext<'_>,
    space: AddressSpace,
    ty: Handle<TypeTag>,
) -> Result<(), GlobalVariableError>
    requires known { AreTypesKnown (surroundings ctx) }
    requires exists { ty < length ctx.types.now }
    ensures { result ≡ first_error_or (rule.space_checks (surroundings ctx.entry) space ty) tt }
{
    match space {
        AddressSpace::Function => Err(GlobalVariableError::InvalidUsage(space)),
        AddressSpace::Private | AddressSpace::WorkGroup => Ok(()),
        AddressSpace::Uniform => check_layout(ctx.flags, space, ctx.info(ty).uniform_layout),
        AddressSpace::Storage { access } => {
            check_layout(ctx.flags, space, ctx.info(ty).storage_layout)?;
            if access.load {
                Ok(())
            } else {
                Err(GlobalVariableError::StorageAddressSpaceWriteOnlyNotSupported)
            }
        }
        AddressSpace::Handle => check_resource(ctx.capabilities, ctx.inner(ty)),
        AddressSpace::Immediate => {
            check_immediate(ctx.capabilities, ctx.info(ty).immediates_compatibility)
        }
        AddressSpace::TaskPayload => {
            require_capability(ctx.capabilities, Capabilities::MESH_SHADER)
        }
        AddressSpace::RayPayload | AddressSpace::IncomingRayPayload => {
            require_capability(ctx.capabilities, Capabilities::RAY_TRACING_PIPELINE)
        }
    }
}

/// Whether an address space is `Storage`.
fn is_storage(space: AddressSpace) -> bool
    ensures { result ≡ is_storage space }
{
    match space {
        AddressSpace::Storage { .. } => true,
        AddressSpace::Function
        | AddressSpace::Private
        | AddressSpace::WorkGroup
        | AddressSpace::Uniform
        | AddressSpace::Handle
        | AddressSpace::Immediate
        | AddressSpace::TaskPayload
        | AddressSpace::RayPayload
        | AddressSpace::IncomingRayPayload => false,
    }
}

/// Checks that a variable with memory decorations is in `Storage`, and that these may be used.
fn check_decorations(
    capabilities: Capabilities,
    space: AddressSpace,
    decorations: MemoryDecorations,
) -> Result<(), GlobalVariableError>
    ensures { result ≡ first_error_or (rule.decoration_checks capabilities.0 space decorations) tt }
{
    if !is_storage(space) && (decorations.coherent || decorations.is_volatile) {
        return Err(GlobalVariableError::InvalidMemoryDecorationsAddressSpace);
    }
    if decorations.coherent && !capabilities.contains(Capabilities::MEMORY_DECORATION_COHERENT) {
        return Err(GlobalVariableError::CoherentNotSupported);
    }
    if decorations.is_volatile && !capabilities.contains(Capabilities::MEMORY_DECORATION_VOLATILE) {
        return Err(GlobalVariableError::VolatileNotSupported);
    }
    Ok(())
}

/// Whether an address space is `Private`.
fn is_private(space: AddressSpace) -> bool
    ensures { result ≡ rule.is_private space }
{
    match space {
        AddressSpace::Private => true,
        AddressSpace::Function
        | AddressSpace::WorkGroup
        | AddressSpace::Uniform
        | AddressSpace::Storage { .. }
        | AddressSpace::Handle
        | AddressSpace::Immediate
        | AddressSpace::TaskPayload
        | AddressSpace::RayPayload
        | AddressSpace::IncomingRayPayload => false,
    }
}

/// Checks an initialiser of a variable.
fn check_initialiser(
    ctx: InterfaceContext<'_>,
    init: Initialisers<'_>,
    variable: &GlobalVariable,
    expression: Handle<ExpressionTag>,
) -> Result<(), GlobalVariableError>
    requires known { AreTypesKnown (surroundings ctx) }
    requires typed { AreExpressionsTyped (surroundings ctx) (known init) }
    requires exists { variable.now.ty < length ctx.types.now }
    requires has_type { expression < length init.types.now }
    requires has_kind { expression < length init.kinds.now }
    ensures { result ≡ first_error_or (rule.initialiser_checks (surroundings ctx.entry) (known init.entry)
        variable.now.space variable.now.ty (Some expression)) tt }
{
    // WGSL fills memory in all other spaces itself, or the host does.
    if !is_private(variable.space) {
        return Err(GlobalVariableError::InitializerNotAllowed(variable.space));
    }
    if !init.kinds.is_const_or_override(expression) {
        return Err(GlobalVariableError::InitializerExprType);
    }
    if !ctx.has_type(init, variable.ty, expression) {
        return Err(GlobalVariableError::InitializerType);
    }
    Ok(())
}

/// Checks what follows the type of a variable: its memory decorations, its binding and its initialiser.
fn check_declaration(
    ctx: InterfaceContext<'_>,
    init: Initialisers<'_>,
    variable: &GlobalVariable,
    is_resource: bool,
) -> Result<(), GlobalVariableError>
    requires known { AreTypesKnown (surroundings ctx) }
    requires typed { AreExpressionsTyped (surroundings ctx) (known init) }
    requires exists { variable.now.ty < length ctx.types.now }
    requires has_type { IfSome variable.now.init (λ e. e < length init.types.now) }
    requires has_kind { IfSome variable.now.init (λ e. e < length init.kinds.now) }
    ensures { result ≡ first_error_or (rule.declaration_checks (surroundings ctx.entry) (known init.entry)
        is_resource variable.now) tt }
{
    check_decorations(
        ctx.capabilities,
        variable.space,
        variable.memory_decorations,
    )?;
    if ctx.flags.contains(ValidationFlags::BINDINGS) && variable.binding.is_some() != is_resource {
        return Err(GlobalVariableError::InvalidBinding);
    }
    match variable.init {
        Some(expression) => check_initialiser(ctx, init, variable, expression),
        None => Ok(()),
    }
}

/// Checks that a variable of a module has a type that its address space allows, only the memory decorations and the
/// binding that it may have, and an initialiser only in `Private`, of its type and known when a pipeline is created
/// (WGSL "var Declarations", "Address Spaces"; naga's `validate_global_var`). Of a binding array the address space asks
/// the type of its bindings.
///
/// It takes no memory, and its cost is constant.
///
/// # Errors
///
/// The first condition that is broken, in this order:
///
/// - of a binding array `UnsupportedCapability`, or `InvalidUsage` if the address space has none;
/// - what the address space requires: `InvalidUsage`, `InvalidType`, `UnsupportedCapability`,
///   `InvalidImmediateType`, `StorageAddressSpaceWriteOnlyNotSupported`, and with the flag `STRUCT_LAYOUTS` `Alignment`;
/// - `MissingTypeFlags`;
/// - `InvalidMemoryDecorationsAddressSpace`, `CoherentNotSupported`, `VolatileNotSupported`;
/// - with the flag `BINDINGS` `InvalidBinding`;
/// - `InitializerNotAllowed`, `InitializerExprType`, `InitializerType`.
pub fn validate_global_variable(
    ctx: InterfaceContext<'_>,
    init: Initialisers<'_>,
    variable: &GlobalVariable,
) -> Result<(), GlobalVariableError>
    requires known { AreTypesKnown (surroundings ctx) }
    requires typed { AreExpressionsTyped (surroundings ctx) (known init) }
    requires exists { variable.now.ty < length ctx.types.now }
    requires has_type { IfSome variable.now.init (λ e. e < length init.types.now) }
    requires has_kind { IfSome variable.now.init (λ e. e < length init.kinds.now) }
    ensures { result ≡ rule.global_variable_rule (surroundings ctx.entry) (known init.entry) variable.now }
{
    let space = variable.space;
    let inner = ctx.inner(variable.ty);
    check_array(ctx, space, inner)?;
    let ty = binding_base(inner).unwrap_or(variable.ty);
    check_space(ctx, space, ty)?;
    let row = space_row(space);
    let seen = ctx.type_flags(ty);
    if !seen.contains(row.flags) {
        let required = row.flags;
        return Err(GlobalVariableError::MissingTypeFlags { required, seen });
    }
    check_declaration(ctx, init, variable, row.is_resource)
}
