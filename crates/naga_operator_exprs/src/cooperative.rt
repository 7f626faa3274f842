//! The rule of `a * b + c` of cooperative matrices.

ghost use Rattle.std.specs.Prelude.{◌≡◌, ◌<◌, length};
ghost use Rattle.naga_info.specs.Surroundings.{AreSound, surroundings};
ghost use Rattle.naga_operator_exprs.specs.Cooperative as rule;

use naga_flags::flags::ShaderStages;
use naga_info::context::FunctionContext;
use naga_info::expression_error::ExpressionError;
use naga_ir::handle::Handle;
use naga_ir::tags::ExpressionTag;
use naga_ir::types::{CooperativeRole, TypeInner};

/// Whether a type is a cooperative matrix of a role.
fn has_role(inner: &TypeInner, wanted: CooperativeRole) -> bool
    ensures { result ≡ rule.has_role wanted inner.now }
{
    match inner {
        TypeInner::CooperativeMatrix { role, .. } => *role == wanted,
        TypeInner::Scalar(_)
        | TypeInner::Vector { .. }
        | TypeInner::Matrix { .. }
        | TypeInner::Atomic(_)
        | TypeInner::Pointer { .. }
        | TypeInner::ValuePointer { .. }
        | TypeInner::Array { .. }
        | TypeInner::Struct { .. }
        | TypeInner::Image { .. }
        | TypeInner::Sampler { .. }
        | TypeInner::AccelerationStructure { .. }
        | TypeInner::RayQuery { .. }
        | TypeInner::BindingArray { .. } => false,
    }
}

/// The stages that may use `a * b + c` of cooperative matrices (SPIR-V "OpCooperativeMatrixMulAddKHR"):
/// compute shaders.
///
/// # Errors
///
/// `InvalidCooperativeOperand` of the first operand that is not a cooperative matrix of its role.
pub fn validate_cooperative_multiply_add(
    context: FunctionContext<'_>,
    a: Handle<ExpressionTag>,
    b: Handle<ExpressionTag>,
    c: Handle<ExpressionTag>,
) -> Result<ShaderStages, ExpressionError>
    requires sound { AreSound (surroundings context) }
    requires left { a < length context.info.now.types }
    requires right { b < length context.info.now.types }
    requires summand { c < length context.info.now.types }
    ensures { result ≡ rule.cooperative_multiply_add_rule (surroundings context.entry) a b c }
{
    if !has_role(context.type_of(a), CooperativeRole::A) {
        return Err(ExpressionError::InvalidCooperativeOperand(a));
    }
    if !has_role(context.type_of(b), CooperativeRole::B) {
        return Err(ExpressionError::InvalidCooperativeOperand(b));
    }
    if !has_role(context.type_of(c), CooperativeRole::C) {
        return Err(ExpressionError::InvalidCooperativeOperand(c));
    }
    Ok(ShaderStages::COMPUTE)
}
