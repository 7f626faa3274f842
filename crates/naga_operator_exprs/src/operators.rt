//! The rules of operators on one value, of selections, derivatives, queries and conversions.

ghost use Rattle.std.specs.Prelude.{◌≡◌, ◌↔◌, ◌<◌, IsTrue, Ok, length, unwrap_or};
ghost use Rattle.naga_info.specs.Results.{IsRuleResult};
ghost use Rattle.naga_info.specs.Stages as stages;
ghost use Rattle.naga_info.specs.Surroundings.{AreSound, surroundings};
ghost use Rattle.naga_ir.specs.TypeWords.{vector_size_and_scalar};
ghost use Rattle.naga_operator_exprs.specs.Operators as rule;
ghost use Rattle.naga_types.specs.Checks.{ok_unless};

use naga_flags::flags::ShaderStages;
use naga_flags::width::check_width;
use naga_info::context::{FunctionContext, every_stage};
use naga_info::expression_error::ExpressionError;
use naga_ir::expression::{RelationalFunction, UnaryOperator};
use naga_ir::handle::Handle;
use naga_ir::tags::ExpressionTag;
use naga_ir::types::{Scalar, ScalarKind, TypeInner, VectorSize};

/// Whether an operator on one value takes values of a kind.
fn takes(op: UnaryOperator, kind: ScalarKind) -> bool
    ensures { result ≡ rule.takes op kind }
{
    match op {
        UnaryOperator::Negate => matches!(kind, ScalarKind::Float | ScalarKind::Sint),
        UnaryOperator::LogicalNot => matches!(kind, ScalarKind::Bool),
        UnaryOperator::BitwiseNot => matches!(kind, ScalarKind::Sint | ScalarKind::Uint),
    }
}

/// The stages that may use an operator on one value (WGSL "Logical Expressions", "Arithmetic Expressions"
/// and "Bit Expressions").
///
/// # Errors
///
/// `InvalidUnaryOperandType` if the operator doesn't take such a value.
pub fn validate_unary(
    context: FunctionContext<'_>,
    op: UnaryOperator,
    expr: Handle<ExpressionTag>,
) -> Result<ShaderStages, ExpressionError>
    requires sound { AreSound (surroundings context) }
    requires expr { expr < length context.info.now.types }
    ensures { result ≡ rule.unary_rule (surroundings context.entry) op expr }
{
    if !admits_unary(context, op, expr) {
        return Err(ExpressionError::InvalidUnaryOperandType(op, expr));
    }
    Ok(every_stage())
}

/// Whether every stage may use an operator on one value: whether `validate_unary` accepts it. It makes no
/// `ExpressionError`, so it takes less time where most operands are accepted.
pub fn admits_unary(
    context: FunctionContext<'_>,
    op: UnaryOperator,
    expr: Handle<ExpressionTag>,
) -> bool
    requires sound { AreSound (surroundings context) }
    requires expr { expr < length context.info.now.types }
    ensures { IsTrue result ↔ (rule.unary_rule (surroundings context.entry) op expr ≡ Ok stages.every_stage) }
{
    match context.type_of(expr).vector_size_and_scalar() {
        Some((_, scalar)) => takes(op, scalar.kind),
        None => false,
    }
}

/// Whether bools of the first size choose between values of the second size.
fn chooses_size(condition: Option<VectorSize>, value: Option<VectorSize>) -> bool
    ensures { result ≡ rule.chooses_size condition value }
{
    match (condition, value) {
        (None, _) => true,
        (Some(condition), Some(value)) => condition == value,
        (Some(_), None) => false,
    }
}

/// Whether a condition of one type chooses between values of another.
fn chooses(condition: &TypeInner, value: &TypeInner) -> bool
    ensures { result ≡ rule.chooses (vector_size_and_scalar condition.now) (vector_size_and_scalar value.now) }
{
    let shape = condition.vector_size_and_scalar();
    match (shape, value.vector_size_and_scalar()) {
        (Some((condition_size, scalar)), Some((value_size, _))) => {
            scalar.kind == ScalarKind::Bool && chooses_size(condition_size, value_size)
        }
        (Some(_), None) | (None, _) => false,
    }
}

/// The stages that may use a selection (WGSL "select").
///
/// # Errors
///
/// - `SelectValuesTypeMismatch` if the two values have different types.
/// - `SelectConditionNotABool` if the condition is neither a bool nor a vector of as many
///   bools as the values have components, or if the values are neither scalars nor vectors.
/// - `OutOfMemory` if memory was refused for a struct in one of these.
pub fn validate_select(
    context: FunctionContext<'_>,
    condition: Handle<ExpressionTag>,
    accept: Handle<ExpressionTag>,
    reject: Handle<ExpressionTag>,
) -> Result<ShaderStages, ExpressionError>
    requires sound { AreSound (surroundings context) }
    requires condition { condition < length context.info.now.types }
    requires accept { accept < length context.info.now.types }
    requires reject { reject < length context.info.now.types }
    ensures { IsRuleResult (rule.select_rule (surroundings context.entry) condition accept reject) result }
{
    let condition_type = context.type_of(condition);
    let accept_type = context.type_of(accept);
    let reject_type = context.type_of(reject);
    // naga compares the condition with the first value only, so the values come first.
    if accept_type != reject_type {
        return Err(ExpressionError::SelectValuesTypeMismatch {
            accept: accept_type.try_clone()?,
            reject: reject_type.try_clone()?,
        });
    }
    if !chooses(condition_type, accept_type) {
        return Err(ExpressionError::SelectConditionNotABool {
            actual: condition_type.try_clone()?,
        });
    }
    Ok(every_stage())
}

/// Whether every stage may use a selection: whether `validate_select` accepts it. It makes no `ExpressionError`, so
/// it takes less time where most operands are accepted, and no memory.
///
/// The cost is linear in the members of structs that it compares.
pub fn admits_select(
    context: FunctionContext<'_>,
    condition: Handle<ExpressionTag>,
    accept: Handle<ExpressionTag>,
    reject: Handle<ExpressionTag>,
) -> bool
    requires sound { AreSound (surroundings context) }
    requires condition { condition < length context.info.now.types }
    requires accept { accept < length context.info.now.types }
    requires reject { reject < length context.info.now.types }
    ensures { IsTrue result ↔ (rule.select_rule (surroundings context.entry) condition accept reject
        ≡ Ok stages.every_stage) }
{
    let accept_type = context.type_of(accept);
    accept_type == context.type_of(reject) && chooses(context.type_of(condition), accept_type)
}

/// The stages that may use a derivative (WGSL "Derivative Built-in Functions"): fragments.
///
/// # Errors
///
/// `InvalidDerivative` if the operand is neither a floating-point number of at least 32 bits nor a vector of
/// such.
pub fn validate_derivative(
    context: FunctionContext<'_>,
    expr: Handle<ExpressionTag>,
) -> Result<ShaderStages, ExpressionError>
    requires sound { AreSound (surroundings context) }
    requires expr { expr < length context.info.now.types }
    ensures { result ≡ rule.derivative_rule (surroundings context.entry) expr }
{
    let Some((_, scalar)) = context.type_of(expr).vector_size_and_scalar() else {
        return Err(ExpressionError::InvalidDerivative);
    };
    if scalar.kind != ScalarKind::Float || scalar.width < 4 {
        return Err(ExpressionError::InvalidDerivative);
    }
    Ok(ShaderStages::FRAGMENT)
}

/// Checks the argument of a query, which has this type.
fn check_argument(
    fun: RelationalFunction,
    argument: Handle<ExpressionTag>,
    inner: &TypeInner,
) -> Result<(), ExpressionError>
    ensures { result ≡ ok_unless (rule.relational_argument_error fun argument inner.now) tt }
{
    let shape = inner.vector_size_and_scalar();
    match fun {
        // WGSL also takes a single bool here, naga only vectors.
        RelationalFunction::All | RelationalFunction::Any => match shape {
            Some((Some(_), scalar)) if scalar.kind == ScalarKind::Bool => Ok(()),
            Some(_) | None => Err(ExpressionError::InvalidBooleanVector(argument)),
        },
        RelationalFunction::IsNan | RelationalFunction::IsInf => match shape {
            Some((_, scalar)) if scalar.kind == ScalarKind::Float => Ok(()),
            Some(_) | None => Err(ExpressionError::InvalidFloatArgument(argument)),
        },
    }
}

/// The stages that may use a query of a value (WGSL "Logical Built-in Functions"; `IsNan` and `IsInf` are
/// naga's).
///
/// # Errors
///
/// - `InvalidBooleanVector` if the argument of `All` or `Any` is not a vector of bools.
/// - `InvalidFloatArgument` if the argument of `IsNan` or `IsInf` is neither a floating-point number nor a vector of
///   such.
pub fn validate_relational(
    context: FunctionContext<'_>,
    fun: RelationalFunction,
    argument: Handle<ExpressionTag>,
) -> Result<ShaderStages, ExpressionError>
    requires sound { AreSound (surroundings context) }
    requires argument { argument < length context.info.now.types }
    ensures { result ≡ rule.relational_rule (surroundings context.entry) fun argument }
{
    check_argument(fun, argument, context.type_of(argument))?;
    Ok(every_stage())
}

/// The scalar that a conversion converts.
fn cast_scalar(inner: &TypeInner) -> Option<Scalar>
    ensures { result ≡ rule.cast_scalar inner.now }
{
    match inner {
        TypeInner::Scalar(scalar)
        | TypeInner::Vector { scalar, .. }
        | TypeInner::Matrix { scalar, .. } => Some(*scalar),
        TypeInner::CooperativeMatrix { .. }
        | TypeInner::Atomic(_)
        | TypeInner::Pointer { .. }
        | TypeInner::ValuePointer { .. }
        | TypeInner::Array { .. }
        | TypeInner::Struct { .. }
        | TypeInner::Image { .. }
        | TypeInner::Sampler { .. }
        | TypeInner::AccelerationStructure { .. }
        | TypeInner::RayQuery { .. }
        | TypeInner::BindingArray { .. } => None,
    }
}

/// The scalar that a conversion makes of another: of this kind, and of this width in bytes or else the same.
fn converted(scalar: Scalar, kind: ScalarKind, convert: Option<u8>) -> Scalar
    ensures { result ≡ record { kind = kind; width = unwrap_or convert scalar.width } }
{
    // Without a width the bits are kept as they are, and so is the width.
    Scalar {
        kind,
        width: convert.unwrap_or(scalar.width),
    }
}

/// The stages that may use a conversion of scalars, vectors or matrices to another scalar: to this kind,
/// and to this width in bytes or else the same (WGSL "Value Constructor Built-in Functions" and "bitcast").
///
/// # Errors
///
/// `InvalidCastArgument` if the operand is of another type, or the width of the new scalar is refused.
pub fn validate_as(
    context: FunctionContext<'_>,
    expr: Handle<ExpressionTag>,
    kind: ScalarKind,
    convert: Option<u8>,
) -> Result<ShaderStages, ExpressionError>
    requires sound { AreSound (surroundings context) }
    requires expr { expr < length context.info.now.types }
    ensures { result ≡ rule.as_rule (surroundings context.entry) expr kind convert }
{
    if !admits_as(context, expr, kind, convert) {
        return Err(ExpressionError::InvalidCastArgument);
    }
    Ok(every_stage())
}

/// Whether every stage may use a conversion: whether `validate_as` accepts it. It makes no `ExpressionError`, so it
/// takes less time where most operands are accepted.
pub fn admits_as(
    context: FunctionContext<'_>,
    expr: Handle<ExpressionTag>,
    kind: ScalarKind,
    convert: Option<u8>,
) -> bool
    requires sound { AreSound (surroundings context) }
    requires expr { expr < length context.info.now.types }
    ensures { IsTrue result ↔ (rule.as_rule (surroundings context.entry) expr kind convert ≡ Ok stages.every_stage) }
{
    match cast_scalar(context.type_of(expr)) {
        Some(scalar) => {
            let target = converted(scalar, kind, convert);
            check_width(context.capabilities, target).is_ok()
        }
        None => false,
    }
}
