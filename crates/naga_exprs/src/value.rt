//! The rules of literals, zero values, compositions, splats and arguments, and of the results of calls
//! and of loads for a whole workgroup.

ghost use Rattle.std.specs.Prelude.{◌≡◌, ◌↔◌, ◌<◌, All, IsTrue, Ok, length};
ghost use Rattle.naga_info.specs.Stages as stages;
ghost use Rattle.naga_info.specs.Surroundings.{AreSound, surroundings};
ghost use Rattle.naga_exprs.specs.Values as rule;

use crate::const_expression::validate_literal;
use bitflags::Flags;
use naga_flags::flags::{ShaderStages, TypeFlags};
use naga_info::context::{FunctionContext, every_stage};
use naga_info::expression_error::ExpressionError;
use naga_ir::expression::Literal;
use naga_ir::handle::Handle;
use naga_ir::tags::{ExpressionTag, FunctionTag, TypeTag};
use naga_types::compose::validate_compose_at;
use naga_typing::context::to_ctx;

/// The stages that may use a literal (WGSL "Literals").
///
/// # Errors
///
/// `Literal` if its width is refused.
pub fn validate_literal_value(
    context: FunctionContext<'_>,
    literal: Literal,
) -> Result<ShaderStages, ExpressionError>
    ensures { result ≡ rule.literal_value_rule (surroundings context.entry) literal }
{
    validate_literal(context.capabilities, literal)?;
    Ok(every_stage())
}

/// Whether every stage may use a literal: whether `validate_literal_value` accepts it. It makes no
/// `ExpressionError`.
pub(crate) fn admits_literal_value(context: FunctionContext<'_>, literal: Literal) -> bool
    ensures { IsTrue result ↔ (rule.literal_value_rule (surroundings context.entry) literal ≡ Ok stages.every_stage) }
{
    validate_literal(context.capabilities, literal).is_ok()
}

/// The stages that may use a zero value (WGSL "Zero Value").
///
/// # Errors
///
/// `InvalidZeroValue` if the type isn't constructible.
pub fn validate_zero_value(
    context: FunctionContext<'_>,
    ty: Handle<TypeTag>,
) -> Result<ShaderStages, ExpressionError>
    requires sound { AreSound (surroundings context) }
    requires exists { ty < length context.«module».now.types }
    ensures { result ≡ rule.zero_value_rule (surroundings context.entry) ty }
{
    if !admits_zero_value(context, ty) {
        return Err(ExpressionError::InvalidZeroValue(ty));
    }
    Ok(every_stage())
}

/// Whether every stage may use a zero value: whether `validate_zero_value` accepts it. It makes no
/// `ExpressionError`.
pub(crate) fn admits_zero_value(context: FunctionContext<'_>, ty: Handle<TypeTag>) -> bool
    requires sound { AreSound (surroundings context) }
    requires exists { ty < length context.«module».now.types }
    ensures { IsTrue result ↔ (rule.zero_value_rule (surroundings context.entry) ty ≡ Ok stages.every_stage) }
{
    context.type_flags(ty).contains(TypeFlags::CONSTRUCTIBLE)
}

/// The stages that may use a composition (WGSL "Value Constructor Built-in Functions").
///
/// # Errors
///
/// `Compose` if values of the type aren't composed, or the components don't fit.
pub fn validate_composition(
    context: FunctionContext<'_>,
    ty: Handle<TypeTag>,
    components: &[Handle<ExpressionTag>],
) -> Result<ShaderStages, ExpressionError>
    requires sound { AreSound (surroundings context) }
    requires exists { ty < length context.«module».now.types }
    requires components { All (λ o. o < length context.info.now.types) components.now }
    ensures { result ≡ rule.composition_rule (surroundings context.entry) ty components.now }
{
    validate_compose_at(
        ty,
        to_ctx(context.module),
        components,
        context.info.types.as_slice(),
    )?;
    Ok(every_stage())
}

/// Whether every stage may use a composition: whether `validate_composition` accepts it. It makes no
/// `ExpressionError`.
pub(crate) fn admits_composition(
    context: FunctionContext<'_>,
    ty: Handle<TypeTag>,
    components: &[Handle<ExpressionTag>],
) -> bool
    requires sound { AreSound (surroundings context) }
    requires exists { ty < length context.«module».now.types }
    requires components { All (λ o. o < length context.info.now.types) components.now }
    ensures { IsTrue result ↔ (rule.composition_rule (surroundings context.entry) ty components.now
        ≡ Ok stages.every_stage) }
{
    let types = context.info.types.as_slice();
    validate_compose_at(ty, to_ctx(context.module), components, types).is_ok()
}

/// The stages that may use a splat (WGSL "Value Constructor Built-in Functions").
///
/// # Errors
///
/// `InvalidSplatType` if the operand is not a scalar.
pub fn validate_splat(
    context: FunctionContext<'_>,
    value: Handle<ExpressionTag>,
) -> Result<ShaderStages, ExpressionError>
    requires sound { AreSound (surroundings context) }
    requires value { value < length context.info.now.types }
    ensures { result ≡ rule.splat_rule (surroundings context.entry) value }
{
    if !admits_splat(context, value) {
        return Err(ExpressionError::InvalidSplatType(value));
    }
    Ok(every_stage())
}

/// Whether every stage may use a splat: whether `validate_splat` accepts it. It makes no
/// `ExpressionError`.
pub(crate) fn admits_splat(context: FunctionContext<'_>, value: Handle<ExpressionTag>) -> bool
    requires sound { AreSound (surroundings context) }
    requires value { value < length context.info.now.types }
    ensures { IsTrue result ↔ (rule.splat_rule (surroundings context.entry) value ≡ Ok stages.every_stage) }
{
    match context.type_of(value).vector_size_and_scalar() {
        Some((None, _)) => true,
        Some((Some(_), _)) | None => false,
    }
}

/// The stages that may use an argument (WGSL "Formal Parameter Expression").
///
/// # Errors
///
/// `FunctionArgumentDoesntExist` if the function has none of this index.
pub fn validate_function_argument(
    context: FunctionContext<'_>,
    index: u32,
) -> Result<ShaderStages, ExpressionError>
    ensures { result ≡ rule.argument_rule (surroundings context.entry) index }
{
    if !admits_function_argument(context, index) {
        return Err(ExpressionError::FunctionArgumentDoesntExist(index));
    }
    Ok(every_stage())
}

/// Whether every stage may use an argument: whether `validate_function_argument` accepts it. It makes no
/// `ExpressionError`.
pub(crate) fn admits_function_argument(context: FunctionContext<'_>, index: u32) -> bool
    ensures { IsTrue result ↔ (rule.argument_rule (surroundings context.entry) index ≡ Ok stages.every_stage) }
{
    (index as usize) < context.function.arguments.len()
}

/// The stages that may use the result of a call (WGSL "Function Call Expression"): those that may use the
/// function.
pub fn validate_call_result(
    context: FunctionContext<'_>,
    function: Handle<FunctionTag>,
) -> ShaderStages
    requires { function < length context.mod_info.now.lists.functions }
    ensures { result ≡ rule.call_stages (surroundings context.entry) function }
{
    // Functions are validated in order, so the stages of the callee are known.
    context.mod_info[function].available_stages
}

/// The stages that may use the result of a load for a whole workgroup (WGSL "workgroupUniformLoad"):
/// those with workgroups.
///
/// # Errors
///
/// `InvalidWorkGroupUniformLoadResultType` if the type has no fixed size, or isn't constructible.
pub fn validate_workgroup_uniform_load_result(
    context: FunctionContext<'_>,
    ty: Handle<TypeTag>,
) -> Result<ShaderStages, ExpressionError>
    requires sound { AreSound (surroundings context) }
    requires exists { ty < length context.«module».now.types }
    ensures { result ≡ rule.workgroup_load_rule (surroundings context.entry) ty }
{
    let loadable = TypeFlags::SIZED.union(TypeFlags::CONSTRUCTIBLE);
    if !context.type_flags(ty).contains(loadable) {
        return Err(ExpressionError::InvalidWorkGroupUniformLoadResultType(ty));
    }
    Ok(ShaderStages::COMPUTE_LIKE)
}
