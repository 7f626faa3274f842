//! Which types multiply.

ghost use Rattle.std.specs.Prelude.{◌≡◌, ◌||◌};
ghost use Rattle.naga_ir.specs.declared.types.CooperativeRole.{CooperativeRole};
ghost use Rattle.naga_ir.specs.declared.types.CooperativeSize.{CooperativeSize};
ghost use Rattle.naga_ir.specs.declared.types.Scalar.{Scalar};
ghost use Rattle.naga_ir.specs.declared.types.TypeInner.TheVariants as form;
ghost use Rattle.naga_ir.specs.declared.types.VectorSize.{VectorSize};
ghost use Rattle.naga_operator_exprs.specs.Product as rule;

use naga_info::type_methods::is_number;
use naga_ir::types::{Scalar, ScalarKind, TypeInner, VectorSize};

/// Whether a scalar on the left and a value of a type on the right multiply, widths aside.
fn scalar_times(scalar: Scalar, right: &TypeInner) -> bool
    ensures { result ≡ rule.forms_multiply (form.Scalar scalar) right.now }
{
    match right {
        TypeInner::Scalar(other)
        | TypeInner::Vector { scalar: other, .. }
        | TypeInner::CooperativeMatrix { scalar: other, .. } => scalar == *other,
        TypeInner::Matrix { .. } => scalar.kind == ScalarKind::Float,
        TypeInner::Atomic(_)
        | TypeInner::Pointer { .. }
        | TypeInner::ValuePointer { .. }
        | TypeInner::Array { .. }
        | TypeInner::Struct { .. }
        | TypeInner::Image { .. }
        | TypeInner::Sampler { .. }
        | TypeInner::AccelerationStructure { .. }
        | TypeInner::RayQuery { .. }
        | TypeInner::BindingArray { .. } => false,
    }
}

/// Whether a vector on the left and a value of a type on the right multiply, widths aside.
fn vector_times(size: VectorSize, scalar: Scalar, right: &TypeInner) -> bool
    ensures { result ≡ rule.forms_multiply (form.Vector size scalar) right.now }
{
    match right {
        TypeInner::Scalar(other) => *other == scalar,
        TypeInner::Vector {
            size: other_size,
            scalar: other,
        } => *other_size == size && *other == scalar,
        TypeInner::Matrix { rows, .. } => scalar.kind == ScalarKind::Float && size == *rows,
        TypeInner::CooperativeMatrix { .. }
        | TypeInner::Atomic(_)
        | TypeInner::Pointer { .. }
        | TypeInner::ValuePointer { .. }
        | TypeInner::Array { .. }
        | TypeInner::Struct { .. }
        | TypeInner::Image { .. }
        | TypeInner::Sampler { .. }
        | TypeInner::AccelerationStructure { .. }
        | TypeInner::RayQuery { .. }
        | TypeInner::BindingArray { .. } => false,
    }
}

/// Whether a matrix on the left and a value of a type on the right multiply, widths aside.
fn matrix_times(columns: VectorSize, right: &TypeInner) -> bool
    ensures { (rows : VectorSize) (scalar : Scalar)
        → result ≡ rule.forms_multiply (form.Matrix columns rows scalar) right.now }
{
    match right {
        TypeInner::Scalar(other) => other.kind == ScalarKind::Float,
        TypeInner::Vector {
            size,
            scalar: other,
        } => other.kind == ScalarKind::Float && columns == *size,
        TypeInner::Matrix { rows, .. } => columns == *rows,
        TypeInner::CooperativeMatrix { .. }
        | TypeInner::Atomic(_)
        | TypeInner::Pointer { .. }
        | TypeInner::ValuePointer { .. }
        | TypeInner::Array { .. }
        | TypeInner::Struct { .. }
        | TypeInner::Image { .. }
        | TypeInner::Sampler { .. }
        | TypeInner::AccelerationStructure { .. }
        | TypeInner::RayQuery { .. }
        | TypeInner::BindingArray { .. } => false,
    }
}

/// Whether a cooperative matrix on the left and a value of a type on the right multiply, widths aside.
fn cooperative_matrix_times(scalar: Scalar, right: &TypeInner) -> bool
    ensures { (columns rows : CooperativeSize) (role : CooperativeRole)
        → result ≡ rule.forms_multiply (form.CooperativeMatrix columns rows scalar role) right.now }
{
    match right {
        TypeInner::Scalar(other) => *other == scalar,
        TypeInner::Vector { .. }
        | TypeInner::Matrix { .. }
        | TypeInner::CooperativeMatrix { .. }
        | TypeInner::Atomic(_)
        | TypeInner::Pointer { .. }
        | TypeInner::ValuePointer { .. }
        | TypeInner::Array { .. }
        | TypeInner::Struct { .. }
        | TypeInner::Image { .. }
        | TypeInner::Sampler { .. }
        | TypeInner::AccelerationStructure { .. }
        | TypeInner::RayQuery { .. }
        | TypeInner::BindingArray { .. } => false,
    }
}

/// Whether values of two types multiply, widths aside.
fn forms_multiply(left: &TypeInner, right: &TypeInner) -> bool
    ensures { result ≡ rule.forms_multiply left.now right.now }
{
    match left {
        TypeInner::Scalar(scalar) => scalar_times(*scalar, right),
        TypeInner::Vector { size, scalar } => vector_times(*size, *scalar, right),
        TypeInner::Matrix { columns, .. } => matrix_times(*columns, right),
        TypeInner::CooperativeMatrix { scalar, .. } => cooperative_matrix_times(*scalar, right),
        TypeInner::Atomic(_)
        | TypeInner::Pointer { .. }
        | TypeInner::ValuePointer { .. }
        | TypeInner::Array { .. }
        | TypeInner::Struct { .. }
        | TypeInner::Image { .. }
        | TypeInner::Sampler { .. }
        | TypeInner::AccelerationStructure { .. }
        | TypeInner::RayQuery { .. }
        | TypeInner::BindingArray { .. } => false,
    }
}

/// Whether values of two types multiply (WGSL "Arithmetic Expressions"). The rule is naga's
/// `Validator::validate_expression`, which lists the pairs.
pub(crate) fn can_multiply(left: &TypeInner, right: &TypeInner) -> bool
    ensures { result ≡ rule.can_multiply left.now right.now }
{
    let (Some(scalar), Some(other)) = (left.scalar(), right.scalar()) else {
        return false;
    };
    // Pairs with a matrix are compared by shape and kind, so widths are compared here.
    is_number(scalar.kind) && scalar.width == other.width && forms_multiply(left, right)
}
