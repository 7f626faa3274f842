//! The rule of operators on two values.

ghost use Rattle.std.specs.Prelude.{◌≡◌, ◌↔◌, ◌<◌, Err, IsTrue, Ok, length};
ghost use Rattle.naga_info.specs.Results.{IsRuleResult};
ghost use Rattle.naga_info.specs.Sources.{AreSourcesRight};
ghost use Rattle.naga_info.specs.Stages as stages;
ghost use Rattle.naga_info.specs.Surroundings.{AreSound, surroundings};
ghost use Rattle.naga_ir.specs.TypeWords.{vector_size_and_scalar};
ghost use Rattle.naga_info.specs.Words.{consists_of, is_bool, is_number};
ghost use Rattle.naga_info.specs.declared.expression_error.ExpressionError.TheVariants as refusal;
ghost use Rattle.naga_operator_exprs.specs.Binary as rule;
ghost use Rattle.naga_types.specs.TypeRule.{is_integer};

use crate::integers::{Forbidden, has_forbidden};
use crate::product::can_multiply;
use naga_flags::flags::ShaderStages;
use naga_info::context::{FunctionContext, every_stage};
use naga_info::expression_error::ExpressionError;
use naga_info::sources::Place;
use naga_info::type_methods::{is_integer, is_number};
use naga_ir::expression::BinaryOperator;
use naga_ir::handle::Handle;
use naga_ir::tags::ExpressionTag;
use naga_ir::types::{Scalar, ScalarKind, TypeInner};
use naga_types::type_methods::is_sized;

/// Whether a type is a scalar that is a number with a width of its own, or a vector of such.
fn consists_of_numbers(inner: &TypeInner) -> bool
    ensures { result ≡ consists_of (λ scalar. is_number scalar.kind) inner.now }
{
    match inner.vector_size_and_scalar() {
        Some((_, scalar)) => is_number(scalar.kind),
        None => false,
    }
}

/// Whether a type is an integer with a width of its own, or a vector of such.
fn consists_of_integers(inner: &TypeInner) -> bool
    ensures { result ≡ consists_of (λ scalar. is_integer scalar.kind) inner.now }
{
    match inner.vector_size_and_scalar() {
        Some((_, scalar)) => is_integer(scalar.kind),
        None => false,
    }
}

/// Whether a type is a bool, or a vector of such.
fn consists_of_bools(inner: &TypeInner) -> bool
    ensures { result ≡ consists_of (λ scalar. is_bool scalar.kind) inner.now }
{
    match inner.vector_size_and_scalar() {
        Some((_, scalar)) => scalar.kind == ScalarKind::Bool,
        None => false,
    }
}

/// Whether a type is a matrix, cooperative or not.
fn is_any_matrix(inner: &TypeInner) -> bool
    ensures { result ≡ rule.is_any_matrix inner.now }
{
    match inner {
        TypeInner::Matrix { .. } | TypeInner::CooperativeMatrix { .. } => true,
        TypeInner::Scalar(_)
        | TypeInner::Vector { .. }
        | TypeInner::Atomic(_)
        | TypeInner::Pointer { .. }
        | TypeInner::ValuePointer { .. }
        | TypeInner::Array { .. }
        | TypeInner::Struct { .. }
        | TypeInner::Image { .. }
        | TypeInner::Sampler { .. }
        | TypeInner::AccelerationStructure { .. }
        | TypeInner::RayQuery { .. }
        | TypeInner::BindingArray { .. } => false,
    }
}

/// Whether values of the left type are shifted by values of the right type.
fn can_shift(left: &TypeInner, right: &TypeInner) -> bool
    ensures { result ≡ rule.can_shift (vector_size_and_scalar left.now) (vector_size_and_scalar right.now) }
{
    match (
        left.vector_size_and_scalar(),
        right.vector_size_and_scalar(),
    ) {
        (Some((size, scalar)), Some((amount_size, amount))) => {
            is_integer(scalar.kind) && amount.kind == ScalarKind::Uint && size == amount_size
        }
        (Some(_), None) | (None, _) => false,
    }
}

/// Whether an operator takes two values of these types.
fn operands_fit(op: BinaryOperator, left: &TypeInner, right: &TypeInner) -> bool
    ensures { result ≡ rule.operands_fit op left.now right.now }
{
    match op {
        BinaryOperator::Add | BinaryOperator::Subtract => {
            (consists_of_numbers(left) || is_any_matrix(left)) && left == right
        }
        BinaryOperator::Multiply => can_multiply(left, right),
        // naga compares all types of a fixed size, WGSL only scalars and vectors.
        BinaryOperator::Equal | BinaryOperator::NotEqual => is_sized(left) && left == right,
        BinaryOperator::Divide
        | BinaryOperator::Modulo
        | BinaryOperator::Less
        | BinaryOperator::LessEqual
        | BinaryOperator::Greater
        | BinaryOperator::GreaterEqual => consists_of_numbers(left) && left == right,
        BinaryOperator::LogicalAnd | BinaryOperator::LogicalOr => {
            consists_of_bools(left) && left == right
        }
        BinaryOperator::And | BinaryOperator::InclusiveOr => {
            (consists_of_bools(left) || consists_of_integers(left)) && left == right
        }
        // WGSL has `&` and `|` of bools too, but no `^`.
        BinaryOperator::ExclusiveOr => consists_of_integers(left) && left == right,
        BinaryOperator::ShiftLeft | BinaryOperator::ShiftRight => can_shift(left, right),
    }
}

/// What a constant must not be on the right of an operator, by the type on the left.
fn forbidden_on_right(op: BinaryOperator, left: &TypeInner) -> Option<Forbidden>
    ensures { result ≡ rule.forbidden_on_right op left.now }
{
    let (_, scalar) = left.vector_size_and_scalar()?;
    // naga lets floating-point numbers be divided by any constant.
    if !is_integer(scalar.kind) {
        return None;
    }
    match op {
        BinaryOperator::ShiftLeft | BinaryOperator::ShiftRight => {
            Some(Forbidden::AtLeast(8 * u32::from(scalar.width)))
        }
        BinaryOperator::Divide | BinaryOperator::Modulo => Some(Forbidden::Zero),
        BinaryOperator::Add
        | BinaryOperator::Subtract
        | BinaryOperator::Multiply
        | BinaryOperator::Equal
        | BinaryOperator::NotEqual
        | BinaryOperator::Less
        | BinaryOperator::LessEqual
        | BinaryOperator::Greater
        | BinaryOperator::GreaterEqual
        | BinaryOperator::And
        | BinaryOperator::ExclusiveOr
        | BinaryOperator::InclusiveOr
        | BinaryOperator::LogicalAnd
        | BinaryOperator::LogicalOr => None,
    }
}

/// Refuses operands that an operator doesn't take.
fn refuse_operands(
    op: BinaryOperator,
    left: Handle<ExpressionTag>,
    left_type: &TypeInner,
    right: Handle<ExpressionTag>,
    right_type: &TypeInner,
) -> Result<ShaderStages, ExpressionError>
    ensures { IsRuleResult (Err (refusal.InvalidBinaryOperandTypes op left left_type.now right right_type.now)) result }
{
    Err(ExpressionError::InvalidBinaryOperandTypes {
        op,
        lhs_expr: left,
        lhs_type: left_type.try_clone()?,
        rhs_expr: right,
        rhs_type: right_type.try_clone()?,
    })
}

/// Refuses a constant on the right of an operator.
fn refuse_constant(
    forbidden: Forbidden,
    left_type: &TypeInner,
    right: Handle<ExpressionTag>,
) -> Result<ShaderStages, ExpressionError>
    ensures { IsRuleResult (Err (rule.refusal_of forbidden left_type.now right)) result }
{
    match forbidden {
        Forbidden::AtLeast(_) => Err(ExpressionError::ShiftAmountTooLarge {
            lhs_type: left_type.try_clone()?,
            rhs_expr: right,
        }),
        Forbidden::Zero => Err(ExpressionError::DivideByZero),
    }
}

/// The stages that may use an operator on two values (WGSL "Logical Expressions", "Arithmetic
/// Expressions", "Comparison Expressions" and "Bit Expressions").
///
/// # Errors
///
/// - `InvalidBinaryOperandTypes` if the operator doesn't take such a pair of values.
/// - `ShiftAmountTooLarge` if integers are shifted by a constant that is at least the number of their bits,
///   or has such a component.
/// - `DivideByZero` if integers are divided by a constant that is 0, or has such a component.
/// - `OutOfMemory` if memory was refused for a struct in one of these.
pub fn validate_binary(
    context: FunctionContext<'_>,
    op: BinaryOperator,
    left: Handle<ExpressionTag>,
    right: Handle<ExpressionTag>,
) -> Result<ShaderStages, ExpressionError>
    requires sound { AreSound (surroundings context) }
    requires sources { AreSourcesRight context }
    requires left { left < length context.info.now.types }
    requires right { right < length context.info.now.types }
    requires exists { right < length context.function.now.expressions }
    ensures { rule.IsBinaryResult (surroundings context.entry) op left right result }
{
    let left_type = context.type_of(left);
    let right_type = context.type_of(right);
    if !operands_fit(op, left_type, right_type) {
        return refuse_operands(op, left, left_type, right, right_type);
    }
    let Some(forbidden) = forbidden_on_right(op, left_type) else {
        return Ok(every_stage());
    };
    if has_forbidden(context, forbidden, Place::InFunction(right)) {
        return refuse_constant(forbidden, left_type, right);
    }
    Ok(every_stage())
}

/// Whether every stage may use an operator on two values: whether `validate_binary` accepts it. The rule and the
/// cost of the search for forbidden constants are the same. It makes no `ExpressionError`, so it takes less time
/// where most operands are accepted, and no memory.
pub fn admits_binary(
    context: FunctionContext<'_>,
    op: BinaryOperator,
    left: Handle<ExpressionTag>,
    right: Handle<ExpressionTag>,
) -> bool
    requires sound { AreSound (surroundings context) }
    requires sources { AreSourcesRight context }
    requires left { left < length context.info.now.types }
    requires right { right < length context.info.now.types }
    requires exists { right < length context.function.now.expressions }
    ensures { IsTrue result ↔ rule.IsBinaryRule (surroundings context.entry) op left right (Ok stages.every_stage) }
{
    let left_type = context.type_of(left);
    if !operands_fit(op, left_type, context.type_of(right)) {
        return false;
    }
    match forbidden_on_right(op, left_type) {
        Some(forbidden) => !has_forbidden(context, forbidden, Place::InFunction(right)),
        None => true,
    }
}
