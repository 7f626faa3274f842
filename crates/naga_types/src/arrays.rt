//! The rules of arrays and of binding arrays (WGSL "Array Types").

ghost use Rattle.std.specs.Prelude.{◌≡◌, ◌<◌, ◌≤◌, IfSome, bit_and, false, length};
ghost use Rattle.naga_ir.specs.Handles.{GlobalReferencesOk};
ghost use Rattle.naga_ir.specs.Parts.{pending};
ghost use Rattle.naga_types.specs.Checks.{first_error_or};
ghost use Rattle.naga_types.specs.FormFlags as form;
ghost use Rattle.naga_types.specs.Surroundings.{flags_at, shared, surroundings};
ghost use Rattle.naga_types.specs.TypeRule as rule;
ghost use Rattle.naga_types.specs.steps.KnownTypes.{KnownBefore};
ghost use Rattle.naga_typing.specs.Context.{lists_of};

use crate::error::{Disalignment, TypeError};
use crate::info::{LayoutCompatibility, TypeContext, TypeInfo};
use crate::type_rule::is_external;
use bitflags::Flags;
use naga_flags::flags::TypeFlags;
use naga_ir::alignment::Alignment;
use naga_ir::handle::Handle;
use naga_ir::tags::TypeTag;
use naga_ir::types::{ArraySize, TypeInner};
use naga_typing::context::GlobalCtx;
use naga_typing::type_methods::override_count;

/// What an array may be used for at most.
fn array_flags(size: ArraySize) -> TypeFlags
    ensures { result ≡ record { 0 = form.array_flags size } }
{
    let shared = TypeFlags::DATA
        .union(TypeFlags::COPY)
        .union(TypeFlags::HOST_SHAREABLE);
    let sized = shared.union(TypeFlags::SIZED).union(TypeFlags::ARGUMENT);
    match size {
        ArraySize::Constant(_) => sized
            .union(TypeFlags::CREATION_RESOLVED)
            .union(TypeFlags::CONSTRUCTIBLE),
        // An override gives the count with the pipeline, too late to construct values.
        ArraySize::Pending(_) => sized,
        // Without `SIZED` an array can only end a struct, or be a whole variable.
        ArraySize::Dynamic => shared.union(TypeFlags::CREATION_RESOLVED),
    }
}

/// What a binding array may be used for at most.
fn binding_array_flags(size: ArraySize) -> TypeFlags
    ensures { result ≡ record { 0 = form.binding_array_flags size } }
{
    match size {
        ArraySize::Constant(_) => TypeFlags::SIZED
            .union(TypeFlags::HOST_SHAREABLE)
            .union(TypeFlags::CREATION_RESOLVED),
        ArraySize::Pending(_) => TypeFlags::SIZED.union(TypeFlags::HOST_SHAREABLE),
        ArraySize::Dynamic => TypeFlags::HOST_SHAREABLE.union(TypeFlags::CREATION_RESOLVED),
    }
}

/// The layout of an array in an address space, by `base`, the layout of its elements there. Its alignment
/// is at least `least`, and its stride in bytes a multiple of that.
fn array_layout(
    handle: Handle<TypeTag>,
    least: Alignment,
    stride: u32,
    base: LayoutCompatibility,
) -> LayoutCompatibility
    ensures { result ≡ rule.array_layout handle least stride base }
{
    // An error of the base is returned before the stride is looked at, as in naga.
    let alignment = base?.max(least);
    if alignment.is_aligned(stride) {
        Ok(alignment)
    } else {
        Err((handle, Disalignment::ArrayStride { stride, alignment }))
    }
}

/// Whether a size is a count: an override that sizes an array has a value above 0.
fn has_count(size: ArraySize, gctx: GlobalCtx<'_>) -> bool
    requires there { IfSome (pending size) (λ o. o < length gctx.overrides.now) }
    requires references { GlobalReferencesOk (lists_of gctx) }
    ensures { result ≡ rule.has_count (lists_of gctx.entry) size }
{
    match size {
        ArraySize::Pending(over) => override_count(over, gctx).is_some(),
        ArraySize::Constant(_) | ArraySize::Dynamic => true,
    }
}

/// The info of an array, or why it is refused.
pub(crate) fn validate_array<'a>(
    ctx: TypeContext<'a>,
    handle: Handle<TypeTag>,
    gctx: GlobalCtx<'a>,
    base: Handle<TypeTag>,
    size: &ArraySize,
    stride: u32,
) -> Result<TypeInfo, TypeError>
    requires known { KnownBefore (surroundings ctx gctx) handle }
    requires before { base < handle }
    requires there { IfSome (pending size.now) (λ o. o < length gctx.overrides.now) }
    requires references { GlobalReferencesOk (lists_of gctx) }
    ensures { result ≡ first_error_or
        (rule.array_checks false (surroundings ctx.entry gctx.entry) handle base size.now stride)
        (rule.array_info (surroundings ctx.entry gctx.entry) handle base size.now stride) }
{
    let elements = TypeFlags::DATA
        .union(TypeFlags::SIZED)
        .union(TypeFlags::CREATION_RESOLVED);
    let info = ctx.infos.get(base);
    if !info.flags.contains(elements) {
        return Err(TypeError::InvalidArrayBaseType(base));
    }
    let layout = ctx.layouter[base];
    // With a shorter stride, elements would share bytes.
    if stride < layout.size {
        return Err(TypeError::InvalidArrayStride {
            stride,
            expected: layout.size,
        });
    }
    let has_count = has_count(*size, gctx);
    if ctx.overrides_resolved && !has_count {
        return Err(TypeError::InvalidArraySize(handle));
    }
    let alignment = layout.alignment;
    let in_uniform = alignment.max(Alignment::MIN_UNIFORM);
    // The flags of the base limit the array's: an array is only used as its elements may be.
    Ok(TypeInfo {
        flags: info.flags.intersection(array_flags(*size)),
        uniform_layout: array_layout(handle, in_uniform, stride, info.uniform_layout),
        storage_layout: array_layout(handle, alignment, stride, info.storage_layout),
        immediates_compatibility: info.immediates_compatibility,
    })
}

/// Whether a type is an external texture.
fn is_external_image(inner: &TypeInner) -> bool
    ensures { result ≡ rule.is_external_image (Some inner.now) }
{
    match inner {
        TypeInner::Image { class, .. } => is_external(*class),
        TypeInner::Scalar(_)
        | TypeInner::Vector { .. }
        | TypeInner::Matrix { .. }
        | TypeInner::CooperativeMatrix { .. }
        | TypeInner::Atomic(_)
        | TypeInner::Pointer { .. }
        | TypeInner::ValuePointer { .. }
        | TypeInner::Array { .. }
        | TypeInner::Struct { .. }
        | TypeInner::Sampler { .. }
        | TypeInner::AccelerationStructure { .. }
        | TypeInner::RayQuery { .. }
        | TypeInner::BindingArray { .. } => false,
    }
}

/// The info of a binding array, or why it is refused.
pub(crate) fn validate_binding_array<'a>(
    ctx: TypeContext<'a>,
    gctx: GlobalCtx<'a>,
    base: Handle<TypeTag>,
    size: ArraySize,
) -> Result<TypeInfo, TypeError>
    requires known { base < length ctx.infos.now.infos }
    requires there { base < length gctx.types.now }
    ensures { result ≡ first_error_or (rule.binding_array_checks (surroundings ctx.entry gctx.entry) base)
        (shared (bit_and (flags_at (surroundings ctx.entry gctx.entry) base) (form.binding_array_flags size)) 1) }
{
    let flags = ctx.infos.get(base).flags;
    let inner = &gctx.types[base].inner;
    // Ray queries are data too, so this also keeps them out of binding arrays (naga).
    if flags.contains(TypeFlags::DATA) && !inner.is_struct() {
        return Err(TypeError::BindingArrayBaseTypeNotStruct(base));
    }
    // naga doesn't support binding arrays of external textures yet.
    if is_external_image(inner) {
        return Err(TypeError::BindingArrayBaseExternalTextures);
    }
    if !flags.contains(TypeFlags::CREATION_RESOLVED) {
        return Err(TypeError::InvalidData(base));
    }
    let flags = flags.intersection(binding_array_flags(size));
    Ok(TypeInfo::new(flags, Alignment::ONE))
}
