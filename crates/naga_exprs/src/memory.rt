//! The rules of loads, of cooperative matrices too, and of the lengths of arrays.

ghost use Rattle.std.specs.Prelude.{◌≡◌, ◌↔◌, ◌<◌, IsTrue, Ok, Some, length};
ghost use Rattle.naga_exprs.specs.Memory as rule;
ghost use Rattle.naga_exprs.specs.Memory.{array_length_rule, cooperative_load_rule, load_rule};
ghost use Rattle.naga_ir.specs.ItemReferences.{global_lists};
ghost use Rattle.naga_info.specs.Stages as stages;
ghost use Rattle.naga_info.specs.Surroundings.{AreSound, surroundings};
ghost use Rattle.naga_typing.specs.Context.{ReferencesExist};

use bitflags::Flags;
use naga_flags::flags::{ShaderStages, TypeFlags};
use naga_info::context::{FunctionContext, every_stage};
use naga_info::expression_error::ExpressionError;
use naga_ir::handle::Handle;
use naga_ir::ir::Module;
use naga_ir::tags::ExpressionTag;
use naga_ir::types::{ArraySize, TypeInner};
use naga_typing::full_typing::target_scalar;

/// Whether a value can be loaded through a value of type `inner`.
fn can_load(context: FunctionContext<'_>, inner: &TypeInner) -> bool
    requires sound { AreSound (surroundings context) }
    requires exist { ReferencesExist (global_lists context.«module».now) inner.now }
    ensures { result ≡ rule.can_load (surroundings context.entry) inner.now }
{
    match inner {
        TypeInner::Pointer { base, .. } => {
            let loadable = TypeFlags::SIZED.union(TypeFlags::DATA);
            context.type_flags(*base).contains(loadable)
        }
        // It always leads to a scalar or a vector.
        TypeInner::ValuePointer { .. } => true,
        TypeInner::Scalar(_)
        | TypeInner::Vector { .. }
        | TypeInner::Matrix { .. }
        | TypeInner::CooperativeMatrix { .. }
        | TypeInner::Atomic(_)
        | TypeInner::Array { .. }
        | TypeInner::Struct { .. }
        | TypeInner::Image { .. }
        | TypeInner::Sampler { .. }
        | TypeInner::AccelerationStructure { .. }
        | TypeInner::RayQuery { .. }
        | TypeInner::BindingArray { .. } => false,
    }
}

/// The stages that may use a load (WGSL "Load Rule").
///
/// # Errors
///
/// `InvalidPointerType` if the operand is neither a value pointer nor a pointer to data of a fixed size.
pub fn validate_load(
    context: FunctionContext<'_>,
    pointer: Handle<ExpressionTag>,
) -> Result<ShaderStages, ExpressionError>
    requires sound { AreSound (surroundings context) }
    requires pointer { pointer < length context.info.now.types }
    ensures { result ≡ load_rule (surroundings context.entry) pointer }
{
    if !admits_load(context, pointer) {
        return Err(ExpressionError::InvalidPointerType(pointer));
    }
    Ok(every_stage())
}

/// Whether every stage may use a load: whether `validate_load` accepts it. It makes no
/// `ExpressionError`.
pub(crate) fn admits_load(context: FunctionContext<'_>, pointer: Handle<ExpressionTag>) -> bool
    requires sound { AreSound (surroundings context) }
    requires pointer { pointer < length context.info.now.types }
    ensures { IsTrue result ↔ (load_rule (surroundings context.entry) pointer ≡ Ok stages.every_stage) }
{
    can_load(context, context.type_of(pointer))
}

/// Whether a type is a runtime-sized array.
fn is_dynamic_array(inner: &TypeInner) -> bool
    ensures { result ≡ rule.is_dynamic_array (Some inner.now) }
{
    match inner {
        TypeInner::Array { size, .. } => *size == ArraySize::Dynamic,
        TypeInner::Scalar(_)
        | TypeInner::Vector { .. }
        | TypeInner::Matrix { .. }
        | TypeInner::CooperativeMatrix { .. }
        | TypeInner::Atomic(_)
        | TypeInner::Pointer { .. }
        | TypeInner::ValuePointer { .. }
        | TypeInner::Struct { .. }
        | TypeInner::Image { .. }
        | TypeInner::Sampler { .. }
        | TypeInner::AccelerationStructure { .. }
        | TypeInner::RayQuery { .. }
        | TypeInner::BindingArray { .. } => false,
    }
}

/// Whether a type is a pointer to a runtime-sized array.
fn points_to_dynamic(inner: &TypeInner, module: &Module) -> bool
    requires exist { ReferencesExist (global_lists «module».now) inner.now }
    ensures { result ≡ rule.points_to_dynamic «module».now.types inner.now }
{
    match inner {
        TypeInner::Pointer { base, .. } => is_dynamic_array(&module.types[*base].inner),
        TypeInner::Scalar(_)
        | TypeInner::Vector { .. }
        | TypeInner::Matrix { .. }
        | TypeInner::CooperativeMatrix { .. }
        | TypeInner::Atomic(_)
        | TypeInner::ValuePointer { .. }
        | TypeInner::Array { .. }
        | TypeInner::Struct { .. }
        | TypeInner::Image { .. }
        | TypeInner::Sampler { .. }
        | TypeInner::AccelerationStructure { .. }
        | TypeInner::RayQuery { .. }
        | TypeInner::BindingArray { .. } => false,
    }
}

/// The stages that may use the length of a runtime-sized array (WGSL "arrayLength").
///
/// # Errors
///
/// `InvalidArrayType` if the operand is not a pointer to such an array.
pub fn validate_array_length(
    context: FunctionContext<'_>,
    array: Handle<ExpressionTag>,
) -> Result<ShaderStages, ExpressionError>
    requires sound { AreSound (surroundings context) }
    requires array { array < length context.info.now.types }
    ensures { result ≡ array_length_rule (surroundings context.entry) array }
{
    // A runtime-sized array is never a value, so it is given by a pointer.
    if !points_to_dynamic(context.type_of(array), context.module) {
        return Err(ExpressionError::InvalidArrayType(array));
    }
    Ok(every_stage())
}

/// The stages that may use a cooperative matrix from memory (SPIR-V "OpCooperativeMatrixLoadKHR"): compute
/// shaders.
///
/// # Errors
///
/// `InvalidPointerType` if the operand is not a pointer to a scalar, a vector or a matrix. A value pointer is one.
pub fn validate_cooperative_load(
    context: FunctionContext<'_>,
    pointer: Handle<ExpressionTag>,
) -> Result<ShaderStages, ExpressionError>
    requires sound { AreSound (surroundings context) }
    requires pointer { pointer < length context.info.now.types }
    ensures { result ≡ cooperative_load_rule (surroundings context.entry) pointer }
{
    if target_scalar(&context.module.types, context.type_of(pointer)).is_none() {
        return Err(ExpressionError::InvalidPointerType(pointer));
    }
    Ok(ShaderStages::COMPUTE)
}
