//! The types of the most frequent variants of expressions, added to the list of types where they are resolved.
//!
//! A `TypeResolution` takes 56 bytes. A function that returns one writes its fields one by one, and a processor waits
//! if they are then copied in wider pieces. So the functions of this file write a type once, into the list. A type
//! that they don't resolve themselves they take from the functions of full_typing.rt and plain_typing.rt, whose
//! contracts give the same types. A type of each variant is added by a function that isn't inlined: otherwise the
//! compiler merges the ends of all arms of a match into one, which copies.

ghost use Rattle.std.specs.Prelude.{◌≡◌, ◌<◌, All, Ok, OnErr, Some, length, slice_get};
ghost use Rattle.naga_ir.specs.ItemReferences.{global_lists};
ghost use Rattle.naga_typing.specs.FullTyping as full;
ghost use Rattle.naga_typing.specs.PlainTyping as plain;
ghost use Rattle.naga_typing.specs.Resolutions.{IsProperResolution, PartsExist, ResolutionExists, operand};
ghost use Rattle.naga_typing.specs.Typings.{CanResolve, IsPushResult};

use crate::full_typing::{
    full_cast_of, full_product, load_of, part_in, part_pointer, resolve_full,
};
use crate::plain_typing::{bools_of, operand, same_type, splat_of, swizzle_of};
use crate::typifier::{ResolveError, TypeResolution};
use naga_ir::expression::{BinaryOperator, Expression};
use naga_ir::handle::Handle;
use naga_ir::ir::{GlobalVariable, Module};
use naga_ir::list::List;
use naga_ir::tags::{ExpressionTag, TypeTag};
use naga_ir::types::{AddressSpace, Scalar, ScalarKind, TypeInner, VectorSize};

/// Adds a type that was resolved, if it was.
fn push_result(
    types: &mut List<TypeResolution>,
    resolved: Result<TypeResolution, ResolveError>,
) -> Result<(), ResolveError>
    ensures result { IsPushResult resolved types.old types.new result }
    ensures refused { OnErr result (types.new ≡ types.old) }
{
    types.push(resolved?)?;
    Ok(())
}

/// Adds a type of the module.
#[inline(never)]
fn push_declared(types: &mut List<TypeResolution>, ty: Handle<TypeTag>) -> Result<(), ResolveError>
    ensures result { IsPushResult (Ok (TypeResolution.Handle ty)) types.old types.new result }
    ensures refused { OnErr result (types.new ≡ types.old) }
{
    types.push(TypeResolution::Handle(ty))?;
    Ok(())
}

/// Adds the type of a scalar.
#[inline(never)]
fn push_scalar(types: &mut List<TypeResolution>, scalar: Scalar) -> Result<(), ResolveError>
    ensures result { IsPushResult (Ok (TypeResolution.Value (TypeInner.Scalar scalar))) types.old types.new result }
    ensures refused { OnErr result (types.new ≡ types.old) }
{
    types.push(TypeResolution::Value(TypeInner::Scalar(scalar)))?;
    Ok(())
}

/// Adds the type of a vector.
#[inline(never)]
fn push_vector(
    types: &mut List<TypeResolution>,
    size: VectorSize,
    scalar: Scalar,
) -> Result<(), ResolveError>
    ensures result { IsPushResult (Ok (TypeResolution.Value (TypeInner.Vector size scalar)))
        types.old types.new result }
    ensures refused { OnErr result (types.new ≡ types.old) }
{
    types.push(TypeResolution::Value(TypeInner::Vector { size, scalar }))?;
    Ok(())
}

/// Adds the type of a pointer.
#[inline(never)]
fn push_pointer(
    types: &mut List<TypeResolution>,
    base: Handle<TypeTag>,
    space: AddressSpace,
) -> Result<(), ResolveError>
    ensures result { IsPushResult (Ok (TypeResolution.Value (TypeInner.Pointer base space)))
        types.old types.new result }
    ensures refused { OnErr result (types.new ≡ types.old) }
{
    types.push(TypeResolution::Value(TypeInner::Pointer { base, space }))?;
    Ok(())
}

/// Adds the type of a pointer to a scalar, or to a vector if there is a size.
#[inline(never)]
fn push_value_pointer(
    types: &mut List<TypeResolution>,
    size: Option<VectorSize>,
    scalar: Scalar,
    space: AddressSpace,
) -> Result<(), ResolveError>
    ensures result { IsPushResult (Ok (TypeResolution.Value (TypeInner.ValuePointer size scalar space)))
        types.old types.new result }
    ensures refused { OnErr result (types.new ≡ types.old) }
{
    types.push(TypeResolution::Value(TypeInner::ValuePointer {
        size,
        scalar,
        space,
    }))?;
    Ok(())
}

/// Adds the type of an operand once more.
fn push_same(
    types: &mut List<TypeResolution>,
    handle: Handle<ExpressionTag>,
) -> Result<(), ResolveError>
    requires earlier { handle < length types.old }
    requires proper { All IsProperResolution types.old }
    ensures result { IsPushResult (plain.same_type (slice_get types.old handle)) types.old types.new result }
    ensures refused { OnErr result (types.new ≡ types.old) }
{
    match types.as_slice()[handle.index()] {
        TypeResolution::Handle(ty) => push_declared(types, ty),
        TypeResolution::Value(TypeInner::Scalar(scalar)) => push_scalar(types, scalar),
        TypeResolution::Value(TypeInner::Vector { size, scalar }) => {
            push_vector(types, size, scalar)
        }
        TypeResolution::Value(_) => {
            let same = same_type(types.as_slice(), handle);
            push_result(types, same)
        }
    }
}

/// Adds the type of a reference to a variable.
fn push_reference(
    types: &mut List<TypeResolution>,
    variable: &GlobalVariable,
) -> Result<(), ResolveError>
    ensures result { IsPushResult (Ok (full.reference_to variable.now.ty variable.now.space))
        types.old types.new result }
    ensures refused { OnErr result (types.new ≡ types.old) }
{
    if matches!(variable.space, AddressSpace::Handle) {
        return push_declared(types, variable.ty);
    }
    push_pointer(types, variable.ty, variable.space)
}

/// Adds the type of a pointer to a part of what a pointer in an address space points to: at a constant index, or
/// without one at an index that is computed.
fn push_part_pointer(
    types: &mut List<TypeResolution>,
    index: Option<u32>,
    space: AddressSpace,
    target: &TypeInner,
) -> Result<(), ResolveError>
    ensures result { IsPushResult (full.part_pointer index space target.now) types.old types.new result }
    ensures refused { OnErr result (types.new ≡ types.old) }
{
    match (target, index) {
        (TypeInner::Struct { members, .. }, Some(index)) => {
            match members.as_slice().get(index as usize) {
                Some(member) => push_pointer(types, member.ty, space),
                None => Err(ResolveError::IncompatibleOperands),
            }
        }
        (&TypeInner::Array { base, .. }, _) => push_pointer(types, base, space),
        (&TypeInner::Vector { scalar, .. }, _) => push_value_pointer(types, None, scalar, space),
        (&TypeInner::Matrix { rows, scalar, .. }, _) => {
            push_value_pointer(types, Some(rows), scalar, space)
        }
        _ => push_result(types, part_pointer(index, space, target)),
    }
}

/// Adds the type of a part of an operand, or of a pointer to a part of what it points to: at a constant index, or
/// without one at an index that is computed.
fn push_part(
    module: &Module,
    types: &mut List<TypeResolution>,
    index: Option<u32>,
    base: Handle<ExpressionTag>,
) -> Result<(), ResolveError>
    requires earlier { base < length types.old }
    requires exist { All (ResolutionExists (global_lists «module».now)) types.old }
    requires parts { (inner : TypeInner) → operand «module».now.types types.old base ≡ Some inner
        → PartsExist «module».now.types inner }
    ensures result { IsPushResult (plain.of_form (operand «module».now.types types.old base)
        (full.part_in «module».now.types index)) types.old types.new result }
    ensures refused { OnErr result (types.new ≡ types.old) }
{
    match *operand(module, types.as_slice(), base) {
        TypeInner::Pointer { base, space } => {
            push_part_pointer(types, index, space, &module.types[base].inner)
        }
        TypeInner::Vector { scalar, .. } => push_scalar(types, scalar),
        _ => {
            let part = part_in(
                &module.types,
                index,
                operand(module, types.as_slice(), base),
            );
            push_result(types, part)
        }
    }
}

/// Adds the type of what is loaded through an operand.
fn push_load(
    module: &Module,
    types: &mut List<TypeResolution>,
    pointer: Handle<ExpressionTag>,
) -> Result<(), ResolveError>
    requires earlier { pointer < length types.old }
    requires exist { All (ResolutionExists (global_lists «module».now)) types.old }
    requires parts { (inner : TypeInner) → operand «module».now.types types.old pointer ≡ Some inner
        → PartsExist «module».now.types inner }
    ensures result { IsPushResult (plain.of_form (operand «module».now.types types.old pointer)
        (full.load_of «module».now.types)) types.old types.new result }
    ensures refused { OnErr result (types.new ≡ types.old) }
{
    match *operand(module, types.as_slice(), pointer) {
        TypeInner::Pointer { base, .. } => {
            if let TypeInner::Atomic(scalar) = module.types[base].inner {
                return push_scalar(types, scalar);
            }
            push_declared(types, base)
        }
        TypeInner::ValuePointer {
            size: Some(size),
            scalar,
            ..
        } => push_vector(types, size, scalar),
        TypeInner::ValuePointer {
            size: None,
            scalar,
            ..
        } => push_scalar(types, scalar),
        _ => {
            let load = load_of(&module.types, operand(module, types.as_slice(), pointer));
            push_result(types, load)
        }
    }
}

/// Adds the type of a vector of a scalar, which is an operand.
fn push_splat(
    module: &Module,
    types: &mut List<TypeResolution>,
    size: VectorSize,
    value: Handle<ExpressionTag>,
) -> Result<(), ResolveError>
    requires earlier { value < length types.old }
    requires exist { All (ResolutionExists (global_lists «module».now)) types.old }
    ensures result { IsPushResult (plain.of_form (operand «module».now.types types.old value) (plain.splat_of size))
        types.old types.new result }
    ensures refused { OnErr result (types.new ≡ types.old) }
{
    match *operand(module, types.as_slice(), value) {
        TypeInner::Scalar(scalar) => push_vector(types, size, scalar),
        _ => {
            let splat = splat_of(size, operand(module, types.as_slice(), value));
            push_result(types, splat)
        }
    }
}

/// Adds the type of a vector of some components of an operand.
fn push_swizzle(
    module: &Module,
    types: &mut List<TypeResolution>,
    size: VectorSize,
    vector: Handle<ExpressionTag>,
) -> Result<(), ResolveError>
    requires earlier { vector < length types.old }
    requires exist { All (ResolutionExists (global_lists «module».now)) types.old }
    ensures result { IsPushResult (plain.of_form (operand «module».now.types types.old vector)
        (plain.swizzle_of size)) types.old types.new result }
    ensures refused { OnErr result (types.new ≡ types.old) }
{
    match *operand(module, types.as_slice(), vector) {
        TypeInner::Vector { scalar, .. } => push_vector(types, size, scalar),
        _ => {
            let swizzle = swizzle_of(size, operand(module, types.as_slice(), vector));
            push_result(types, swizzle)
        }
    }
}

/// Adds the type of an operand converted to another kind, and to another width, in bytes, if one is given.
fn push_cast(
    module: &Module,
    types: &mut List<TypeResolution>,
    kind: ScalarKind,
    convert: Option<u8>,
    expr: Handle<ExpressionTag>,
) -> Result<(), ResolveError>
    requires earlier { expr < length types.old }
    requires exist { All (ResolutionExists (global_lists «module».now)) types.old }
    ensures result { IsPushResult (plain.of_form (operand «module».now.types types.old expr)
        (full.full_cast_of kind convert)) types.old types.new result }
    ensures refused { OnErr result (types.new ≡ types.old) }
{
    match *operand(module, types.as_slice(), expr) {
        TypeInner::Scalar(Scalar { width, .. }) => {
            let width = convert.unwrap_or(width);
            push_scalar(types, Scalar { kind, width })
        }
        TypeInner::Vector {
            size,
            scalar: Scalar { width, .. },
        } => {
            let width = convert.unwrap_or(width);
            push_vector(types, size, Scalar { kind, width })
        }
        _ => {
            let cast = full_cast_of(kind, convert, operand(module, types.as_slice(), expr));
            push_result(types, cast)
        }
    }
}

/// Adds the type of as many bools as an operand has components.
fn push_bools(
    module: &Module,
    types: &mut List<TypeResolution>,
    left: Handle<ExpressionTag>,
) -> Result<(), ResolveError>
    requires earlier { left < length types.old }
    requires exist { All (ResolutionExists (global_lists «module».now)) types.old }
    ensures result { IsPushResult (plain.of_form (operand «module».now.types types.old left) plain.bools_of)
        types.old types.new result }
    ensures refused { OnErr result (types.new ≡ types.old) }
{
    match *operand(module, types.as_slice(), left) {
        TypeInner::Scalar(_) => push_scalar(types, Scalar::BOOL),
        TypeInner::Vector { size, .. } => push_vector(types, size, Scalar::BOOL),
        _ => {
            let bools = bools_of(operand(module, types.as_slice(), left));
            push_result(types, bools)
        }
    }
}

/// Adds the type of the result of an operator on two operands.
fn push_binary(
    module: &Module,
    types: &mut List<TypeResolution>,
    op: BinaryOperator,
    left: Handle<ExpressionTag>,
    right: Handle<ExpressionTag>,
) -> Result<(), ResolveError>
    requires left_earlier { left < length types.old }
    requires right_earlier { right < length types.old }
    requires exist { All (ResolutionExists (global_lists «module».now)) types.old }
    requires proper { All IsProperResolution types.old }
    ensures result { IsPushResult (full.full_binary_of «module».now.types types.old op left right)
        types.old types.new result }
    ensures refused { OnErr result (types.new ≡ types.old) }
{
    match op {
        BinaryOperator::Equal
        | BinaryOperator::NotEqual
        | BinaryOperator::Less
        | BinaryOperator::LessEqual
        | BinaryOperator::Greater
        | BinaryOperator::GreaterEqual => push_bools(module, types, left),
        BinaryOperator::Multiply => push_product(module, types, left, right),
        BinaryOperator::Add
        | BinaryOperator::Subtract
        | BinaryOperator::Divide
        | BinaryOperator::Modulo
        | BinaryOperator::And
        | BinaryOperator::ExclusiveOr
        | BinaryOperator::InclusiveOr
        | BinaryOperator::LogicalAnd
        | BinaryOperator::LogicalOr
        | BinaryOperator::ShiftLeft
        | BinaryOperator::ShiftRight => push_same(types, left),
    }
}

/// Adds the type of the product of two operands.
fn push_product(
    module: &Module,
    types: &mut List<TypeResolution>,
    left: Handle<ExpressionTag>,
    right: Handle<ExpressionTag>,
) -> Result<(), ResolveError>
    requires left_earlier { left < length types.old }
    requires right_earlier { right < length types.old }
    requires exist { All (ResolutionExists (global_lists «module».now)) types.old }
    requires proper { All IsProperResolution types.old }
    ensures result { IsPushResult (full.full_product «module».now.types types.old left right)
        types.old types.new result }
    ensures refused { OnErr result (types.new ≡ types.old) }
{
    let earlier = types.as_slice();
    match (
        operand(module, earlier, left),
        operand(module, earlier, right),
    ) {
        (TypeInner::Scalar(_), TypeInner::Vector { .. }) => push_same(types, right),
        (TypeInner::Scalar(_), TypeInner::Scalar(_))
        | (TypeInner::Vector { .. }, TypeInner::Vector { .. } | TypeInner::Scalar(_)) => {
            push_same(types, left)
        }
        (&TypeInner::Matrix { rows, scalar, .. }, TypeInner::Vector { .. }) => {
            push_vector(types, rows, scalar)
        }
        _ => {
            let product = full_product(module, earlier, left, right);
            push_result(types, product)
        }
    }
}

/// Adds the type of an expression of a variant that is less frequent.
#[inline(never)]
fn push_resolved(
    module: &Module,
    types: &mut List<TypeResolution>,
    expression: &Expression,
) -> Result<(), ResolveError>
    requires { CanResolve «module».now expression.now types.old }
    ensures result { IsPushResult (full.full_resolves «module».now expression.now types.old)
        types.old types.new result }
    ensures refused { OnErr result (types.new ≡ types.old) }
{
    let resolved = resolve_full(module, expression, types.as_slice());
    push_result(types, resolved)
}

/// Adds the type of an expression, by its variant.
#[tactic(auto, unfolding(crate::specs::FullTyping::full_resolves, crate::specs::PlainTyping::plain_resolves))]
pub(crate) fn push_full(
    module: &Module,
    types: &mut List<TypeResolution>,
    expression: &Expression,
) -> Result<(), ResolveError>
    requires { CanResolve «module».now expression.now types.old }
    ensures result { IsPushResult (full.full_resolves «module».now expression.now types.old)
        types.old types.new result }
    ensures refused { OnErr result (types.new ≡ types.old) }
{
    match *expression {
        Expression::Literal(literal) => push_scalar(types, literal.scalar()),
        Expression::ZeroValue(ty) | Expression::Compose { ty, .. } => push_declared(types, ty),
        Expression::Access { base, .. } => push_part(module, types, None, base),
        Expression::AccessIndex { base, index } => push_part(module, types, Some(index), base),
        Expression::Splat { size, value } => push_splat(module, types, size, value),
        Expression::Swizzle { size, vector, .. } => push_swizzle(module, types, size, vector),
        Expression::GlobalVariable(variable) => {
            push_reference(types, &module.global_variables[variable])
        }
        Expression::Load { pointer } => push_load(module, types, pointer),
        Expression::Unary { expr, .. } => push_same(types, expr),
        Expression::Select { accept, .. } => push_same(types, accept),
        Expression::Binary { op, left, right } => push_binary(module, types, op, left, right),
        Expression::As {
            expr,
            kind,
            convert,
        } => push_cast(module, types, kind, convert, expr),
        _ => push_resolved(module, types, expression),
    }
}
