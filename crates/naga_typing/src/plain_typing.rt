//! A typing that supports the variants whose types follow from their operands.

ghost use Rattle.std.specs.Prelude.{◌≡◌, ◌<◌, All, IfSome, Ok, Some, length, option_and_then, option_map, slice_get};
ghost use Rattle.naga_typing.specs.Math.{math_type};
ghost use Rattle.naga_typing.specs.PlainTyping as spec;
ghost use Rattle.naga_ir.specs.ItemReferences.{global_lists};
ghost use Rattle.naga_typing.specs.Resolutions.{IsProperResolution, ResolutionExists, operand};
ghost use Rattle.naga_typing.specs.Typings.{CanResolve};

use crate::math::{accepts, argument_count, result_type};
use crate::typifier::{ResolveError, TypeResolution};
use crate::typing::Typing;
use naga_ir::expression::{BinaryOperator, Expression, MathFunction, RelationalFunction};
use naga_ir::handle::Handle;
use naga_ir::ir::Module;
use naga_ir::tags::ExpressionTag;
use naga_ir::types::{Scalar, ScalarKind, TypeInner, VectorSize};
use std::alloc::Global;

/// A typing that supports the variants whose types follow from their operands.
///
/// It supports literals, constants, overrides, zero values and compositions, which have a declared
/// type; parts of vectors, matrices, arrays and structs; operators, relational and mathematical
/// functions, conversions, splats and swizzles. Operands aren't compared with one another, except the
/// arguments of mathematical functions: the type of a sum is the type of its left operand, whatever the
/// right one is. Operands from which no type follows are `IncompatibleOperands`, and so are arguments
/// that a mathematical function doesn't take. Loads, variables, arguments, images, rays, calls, the
/// results of statements, and those of `Modf` and `Frexp`, which are structs of the module, are
/// `NotResolvable`. `resolve` takes no memory, and `push_type` only for the list.
///
/// Each mathematical function has one row of types (WGSL "Numeric Built-in Functions" and those after
/// it), of scalars of any width. `Outer` and `Inverse`, which WGSL lacks, are those of GLSL: `Outer` takes two
/// vectors of one scalar to the matrix that has as many columns as the second has components, and as many rows
/// as the first; `Inverse` takes a square matrix of floating-point numbers.
#[derive(Clone, Copy, Debug, PartialEq, Eq)]
pub struct PlainTyping;

/// The type of a scalar.
pub(crate) fn scalar(scalar: Scalar) -> Result<TypeResolution, ResolveError>
    ensures { result ≡ Ok (TypeResolution.Value (TypeInner.Scalar scalar)) }
{
    Ok(TypeResolution::Value(TypeInner::Scalar(scalar)))
}

/// The type of a vector.
pub(crate) fn vector(size: VectorSize, scalar: Scalar) -> Result<TypeResolution, ResolveError>
    ensures { result ≡ Ok (TypeResolution.Value (TypeInner.Vector size scalar)) }
{
    Ok(TypeResolution::Value(TypeInner::Vector { size, scalar }))
}

/// The type of an element: the scalar of a vector, the column of a matrix, the base of an array.
pub(crate) fn element_of(inner: &TypeInner) -> Result<TypeResolution, ResolveError>
    ensures { result ≡ spec.element_of inner.now }
{
    match *inner {
        TypeInner::Vector { scalar: of, .. } => scalar(of),
        TypeInner::Matrix { rows, scalar, .. } => vector(rows, scalar),
        TypeInner::Array { base, .. } => Ok(TypeResolution::Handle(base)),
        TypeInner::Scalar(_)
        | TypeInner::CooperativeMatrix { .. }
        | TypeInner::Atomic(_)
        | TypeInner::Pointer { .. }
        | TypeInner::ValuePointer { .. }
        | TypeInner::Struct { .. }
        | TypeInner::Image { .. }
        | TypeInner::Sampler { .. }
        | TypeInner::AccelerationStructure { .. }
        | TypeInner::RayQuery { .. }
        | TypeInner::BindingArray { .. } => Err(ResolveError::IncompatibleOperands),
    }
}

/// The type of the part of a constant index: a member of a struct, or an element.
pub(crate) fn part_of(index: u32, inner: &TypeInner) -> Result<TypeResolution, ResolveError>
    ensures { result ≡ spec.part_of index inner.now }
{
    if let TypeInner::Struct { members, .. } = inner {
        return match members.as_slice().get(index as usize) {
            Some(member) => Ok(TypeResolution::Handle(member.ty)),
            None => Err(ResolveError::IncompatibleOperands),
        };
    }
    element_of(inner)
}

/// The type of a vector of one scalar.
pub(crate) fn splat_of(size: VectorSize, inner: &TypeInner) -> Result<TypeResolution, ResolveError>
    ensures { result ≡ spec.splat_of size inner.now }
{
    match *inner {
        TypeInner::Scalar(scalar) => vector(size, scalar),
        TypeInner::Vector { .. }
        | TypeInner::Matrix { .. }
        | TypeInner::CooperativeMatrix { .. }
        | TypeInner::Atomic(_)
        | TypeInner::Pointer { .. }
        | TypeInner::ValuePointer { .. }
        | TypeInner::Array { .. }
        | TypeInner::Struct { .. }
        | TypeInner::Image { .. }
        | TypeInner::Sampler { .. }
        | TypeInner::AccelerationStructure { .. }
        | TypeInner::RayQuery { .. }
        | TypeInner::BindingArray { .. } => Err(ResolveError::IncompatibleOperands),
    }
}

/// The type of a vector of some components of a vector.
pub(crate) fn swizzle_of(
    size: VectorSize,
    inner: &TypeInner,
) -> Result<TypeResolution, ResolveError>
    ensures { result ≡ spec.swizzle_of size inner.now }
{
    match *inner {
        TypeInner::Vector { scalar, .. } => vector(size, scalar),
        TypeInner::Scalar(_)
        | TypeInner::Matrix { .. }
        | TypeInner::CooperativeMatrix { .. }
        | TypeInner::Atomic(_)
        | TypeInner::Pointer { .. }
        | TypeInner::ValuePointer { .. }
        | TypeInner::Array { .. }
        | TypeInner::Struct { .. }
        | TypeInner::Image { .. }
        | TypeInner::Sampler { .. }
        | TypeInner::AccelerationStructure { .. }
        | TypeInner::RayQuery { .. }
        | TypeInner::BindingArray { .. } => Err(ResolveError::IncompatibleOperands),
    }
}

/// The type of as many bools as a scalar or a vector has components.
pub(crate) fn bools_of(inner: &TypeInner) -> Result<TypeResolution, ResolveError>
    ensures { result ≡ spec.bools_of inner.now }
{
    match *inner {
        TypeInner::Scalar(_) => scalar(Scalar::BOOL),
        TypeInner::Vector { size, .. } => vector(size, Scalar::BOOL),
        TypeInner::Matrix { .. }
        | TypeInner::CooperativeMatrix { .. }
        | TypeInner::Atomic(_)
        | TypeInner::Pointer { .. }
        | TypeInner::ValuePointer { .. }
        | TypeInner::Array { .. }
        | TypeInner::Struct { .. }
        | TypeInner::Image { .. }
        | TypeInner::Sampler { .. }
        | TypeInner::AccelerationStructure { .. }
        | TypeInner::RayQuery { .. }
        | TypeInner::BindingArray { .. } => Err(ResolveError::IncompatibleOperands),
    }
}

/// The type of a scalar, vector or matrix converted to another kind, and to another width, in bytes, if
/// one is given.
pub(crate) fn cast_of(
    kind: ScalarKind,
    convert: Option<u8>,
    inner: &TypeInner,
) -> Result<TypeResolution, ResolveError>
    ensures { result ≡ spec.cast_of kind convert inner.now }
{
    let cast = |scalar: Scalar| Scalar {
        kind,
        width: convert.unwrap_or(scalar.width),
    };
    match *inner {
        TypeInner::Scalar(of) => scalar(cast(of)),
        TypeInner::Vector { size, scalar } => vector(size, cast(scalar)),
        TypeInner::Matrix {
            columns,
            rows,
            scalar,
        } => Ok(TypeResolution::Value(TypeInner::Matrix {
            columns,
            rows,
            scalar: cast(scalar),
        })),
        TypeInner::CooperativeMatrix { .. }
        | TypeInner::Atomic(_)
        | TypeInner::Pointer { .. }
        | TypeInner::ValuePointer { .. }
        | TypeInner::Array { .. }
        | TypeInner::Struct { .. }
        | TypeInner::Image { .. }
        | TypeInner::Sampler { .. }
        | TypeInner::AccelerationStructure { .. }
        | TypeInner::RayQuery { .. }
        | TypeInner::BindingArray { .. } => Err(ResolveError::IncompatibleOperands),
    }
}

/// The type of the result of a relational function.
fn relational_of(fun: RelationalFunction, inner: &TypeInner) -> Result<TypeResolution, ResolveError>
    ensures { result ≡ spec.relational_of fun inner.now }
{
    match fun {
        RelationalFunction::All | RelationalFunction::Any => scalar(Scalar::BOOL),
        RelationalFunction::IsNan | RelationalFunction::IsInf => bools_of(inner),
    }
}

/// The type of an operand.
pub(crate) fn operand<'a>(
    module: &'a Module,
    earlier: &'a [TypeResolution],
    handle: Handle<ExpressionTag>,
) -> &'a TypeInner
    requires earlier { handle < length earlier.now }
    requires exist { All (ResolutionExists (global_lists «module».now)) earlier.now }
    ensures { operand «module».now.types earlier.now handle ≡ Some result.now }
{
    earlier[handle.index()].inner_with(&module.types)
}

/// The type of an operand. To copy it takes no memory, since it is proper.
pub(crate) fn same_type(
    earlier: &[TypeResolution],
    handle: Handle<ExpressionTag>,
) -> Result<TypeResolution, ResolveError>
    requires earlier { handle < length earlier.now }
    requires proper { All IsProperResolution earlier.now }
    ensures { result ≡ spec.same_type (slice_get earlier.now handle) }
{
    Ok(earlier[handle.index()].try_clone()?)
}

/// The type of the product of two operands.
pub(crate) fn product(
    module: &Module,
    earlier: &[TypeResolution],
    left: Handle<ExpressionTag>,
    right: Handle<ExpressionTag>,
) -> Result<TypeResolution, ResolveError>
    requires left_earlier { left < length earlier.now }
    requires right_earlier { right < length earlier.now }
    requires exist { All (ResolutionExists (global_lists «module».now)) earlier.now }
    requires proper { All IsProperResolution earlier.now }
    ensures { result ≡ spec.product «module».now.types earlier.now left right }
{
    match (
        operand(module, earlier, left),
        operand(module, earlier, right),
    ) {
        (TypeInner::Scalar(_), TypeInner::Vector { .. } | TypeInner::Matrix { .. }) => {
            same_type(earlier, right)
        }
        (&TypeInner::Matrix { rows, scalar, .. }, TypeInner::Vector { .. }) => {
            vector(rows, scalar)
        }
        (
            TypeInner::Vector { .. },
            &TypeInner::Matrix {
                columns,
                scalar,
                ..
            },
        ) => vector(columns, scalar),
        (&TypeInner::Matrix { rows, scalar, .. }, &TypeInner::Matrix { columns, .. }) => {
            Ok(TypeResolution::Value(TypeInner::Matrix {
                columns,
                rows,
                scalar,
            }))
        }
        // Neither: the left factor decides.
        _ => same_type(earlier, left),
    }
}

/// The type of the result of an operator on two operands.
pub(crate) fn binary_of(
    module: &Module,
    earlier: &[TypeResolution],
    op: BinaryOperator,
    left: Handle<ExpressionTag>,
    right: Handle<ExpressionTag>,
) -> Result<TypeResolution, ResolveError>
    requires left_earlier { left < length earlier.now }
    requires right_earlier { right < length earlier.now }
    requires exist { All (ResolutionExists (global_lists «module».now)) earlier.now }
    requires proper { All IsProperResolution earlier.now }
    ensures { result ≡ spec.binary_of «module».now.types earlier.now op left right }
{
    match op {
        BinaryOperator::Equal
        | BinaryOperator::NotEqual
        | BinaryOperator::Less
        | BinaryOperator::LessEqual
        | BinaryOperator::Greater
        | BinaryOperator::GreaterEqual => bools_of(operand(module, earlier, left)),
        BinaryOperator::Multiply => product(module, earlier, left, right),
        BinaryOperator::Add
        | BinaryOperator::Subtract
        | BinaryOperator::Divide
        | BinaryOperator::Modulo
        | BinaryOperator::And
        | BinaryOperator::ExclusiveOr
        | BinaryOperator::InclusiveOr
        | BinaryOperator::LogicalAnd
        | BinaryOperator::LogicalOr
        | BinaryOperator::ShiftLeft
        | BinaryOperator::ShiftRight => same_type(earlier, left),
    }
}

impl Typing for PlainTyping {
    ghost use Rattle.naga_typing.specs.Math.{accepts, argument_count};
    ghost use Rattle.naga_typing.specs.PlainTyping.{plain_resolves};
    ghost use Rattle.naga_typing.specs.PlainLaws.{plain_lawful};

    ghost resolves = { λ _. plain_resolves };

    ghost accepts_types = { λ _. accepts };

    ghost least_arguments = { λ _ fun _. argument_count fun };

    ghost lawful = { λ _. plain_lawful };

    fn resolve(
        &self,
        _alloc: Global,
        module: &Module,
        expression: &Expression,
        earlier: &[TypeResolution],
    ) -> Result<TypeResolution, ResolveError>
        requires { CanResolve «module».now expression.now earlier.now }
        ensures { result ≡ plain_resolves «module».now expression.now earlier.now }
    {
        resolve(module, expression, earlier)
    }

    fn accepts(&self, fun: MathFunction, types: &[&TypeInner]) -> bool {
        accepts(fun, types)
    }

    fn min_arguments(&self, fun: MathFunction, _types: &[&TypeInner]) -> usize {
        argument_count(fun)
    }
}

/// The type of an operand that may not be given.
fn optional_operand<'a>(
    module: &'a Module,
    earlier: &'a [TypeResolution],
    handle: Option<Handle<ExpressionTag>>,
) -> Option<&'a TypeInner>
    requires earlier { IfSome handle (λ e. e < length earlier.now) }
    requires exist { All (ResolutionExists (global_lists «module».now)) earlier.now }
    ensures { option_and_then (operand «module».now.types earlier.now) handle ≡ option_map (λ t. t.now) result }
{
    match handle {
        Some(handle) => Some(operand(module, earlier, handle)),
        None => None,
    }
}

/// The type of the result of a mathematical function.
fn math_of(
    fun: MathFunction,
    first: &TypeInner,
    second: Option<&TypeInner>,
    third: Option<&TypeInner>,
    fourth: Option<&TypeInner>,
) -> Result<TypeResolution, ResolveError>
    ensures { let seen = option_map (λ t. t.now) in result
        ≡ spec.value_of (math_type fun first.now (seen second.entry) (seen third.entry) (seen fourth.entry)) }
{
    let inner = match (second, third, fourth) {
        (None, None, None) => result_type(fun, &[first]),
        (Some(second), None, None) => result_type(fun, &[first, second]),
        (Some(second), Some(third), None) => result_type(fun, &[first, second, third]),
        (Some(second), Some(third), Some(fourth)) => {
            result_type(fun, &[first, second, third, fourth])
        }
        (None, Some(_), _) | (None, None, Some(_)) | (Some(_), None, Some(_)) => {
            Err(ResolveError::IncompatibleOperands)
        }
    };
    match inner {
        Ok(inner) => Ok(TypeResolution::Value(inner)),
        Err(error) => Err(error),
    }
}

/// The type of an expression, by its variant.
#[tactic(auto, unfolding(crate::specs::PlainTyping::plain_resolves))]
pub(crate) fn resolve(
    module: &Module,
    expression: &Expression,
    earlier: &[TypeResolution],
) -> Result<TypeResolution, ResolveError>
    requires { CanResolve «module».now expression.now earlier.now }
    ensures { result ≡ spec.plain_resolves «module».now expression.now earlier.now }
{
    match *expression {
        Expression::Literal(literal) => scalar(literal.scalar()),
        Expression::Constant(constant) => Ok(TypeResolution::Handle(module.constants[constant].ty)),
        Expression::Override(over) => Ok(TypeResolution::Handle(module.overrides[over].ty)),
        Expression::ZeroValue(ty) | Expression::Compose { ty, .. } => {
            Ok(TypeResolution::Handle(ty))
        }
        Expression::Access { base, .. } => element_of(operand(module, earlier, base)),
        Expression::AccessIndex { base, index } => part_of(index, operand(module, earlier, base)),
        Expression::Splat { size, value } => splat_of(size, operand(module, earlier, value)),
        Expression::Swizzle { size, vector, .. } => swizzle_of(
            size,
            operand(module, earlier, vector),
        ),
        Expression::Unary { expr, .. } => same_type(earlier, expr),
        Expression::Derivative { expr } => same_type(earlier, expr),
        Expression::Select { accept, .. } => same_type(earlier, accept),
        Expression::Binary { op, left, right } => binary_of(module, earlier, op, left, right),
        Expression::Relational { fun, argument } => relational_of(
            fun,
            operand(module, earlier, argument),
        ),
        Expression::Math {
            fun,
            arg,
            arg1,
            arg2,
            arg3,
        } => {
            let first = operand(module, earlier, arg);
            let second = optional_operand(module, earlier, arg1);
            let third = optional_operand(module, earlier, arg2);
            let fourth = optional_operand(module, earlier, arg3);
            math_of(fun, first, second, third, fourth)
        }
        Expression::As {
            expr,
            kind,
            convert,
        } => cast_of(kind, convert, operand(module, earlier, expr)),
        Expression::ArrayLength(_) => scalar(Scalar::U32),
        Expression::FunctionArgument(_)
        | Expression::GlobalVariable(_)
        | Expression::LocalVariable(_)
        | Expression::Load { .. }
        | Expression::ImageSample { .. }
        | Expression::ImageLoad { .. }
        | Expression::ImageQuery { .. }
        | Expression::CallResult(_)
        | Expression::AtomicResult { .. }
        | Expression::WorkGroupUniformLoadResult { .. }
        | Expression::RayQueryProceedResult
        | Expression::RayQueryGetIntersection { .. }
        | Expression::RayQueryVertexPositions { .. }
        | Expression::SubgroupBallotResult
        | Expression::SubgroupOperationResult { .. }
        | Expression::CooperativeLoad { .. }
        | Expression::CooperativeMultiplyAdd { .. } => Err(ResolveError::NotResolvable),
    }
}
