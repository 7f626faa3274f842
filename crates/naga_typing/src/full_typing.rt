//! A typing that supports nearly all variants of expressions.

ghost use Rattle.std.specs.Prelude.{◌≡◌, ◌<◌, All, Ok, Some, length};
ghost use Rattle.std.specs.List.{find};
ghost use Rattle.naga_ir.specs.Handles.{HandlesAccepted};
ghost use Rattle.naga_ir.specs.ItemReferences.{global_lists};
ghost use Rattle.naga_ir.specs.declared.expression.Expression.TheVariants as form;
ghost use Rattle.naga_typing.specs.FullTyping as spec;
ghost use Rattle.naga_typing.specs.Resolutions.{AllPartsExist, IsProperResolution, PartsExist, ResolutionExists};
ghost use Rattle.naga_typing.specs.Typings.{CanResolve};

use crate::math::{accepts, argument_count, exponent_type};
use crate::plain_typing::{
    self, binary_of, cast_of, element_of, operand, part_of, product, same_type, scalar, vector,
};
use crate::pushing::push_full;
use crate::typifier::{ResolveError, TypeResolution};
use crate::typing::Typing;
use naga_ir::expression::{
    BinaryOperator, CooperativeShape, Expression, ImageQuery, MathFunction, SwizzleComponent,
};
use naga_ir::handle::Handle;
use naga_ir::ir::{Function, Module};
use naga_ir::list::List;
use naga_ir::tags::{ExpressionTag, TypeTag};
use naga_ir::types::{
    AddressSpace, ImageClass, ImageDimension, Scalar, ScalarKind, StructMember, TypeInner,
    VectorSize,
};
use naga_ir::unique_arena::UniqueArena;
use std::alloc::Global;

/// A typing that supports all variants whose types follow from a module and from their operands.
///
/// Where the operands decide the type, it resolves what `PlainTyping` does, except that a scalar times a
/// cooperative matrix has the type of the matrix, and that a matrix which is converted keeps its kind and
/// changes only its width. It also supports
///
/// - variables of the module, whose types are pointers to the declared types, or in the address space
///   `Handle` the declared types themselves;
/// - parts of what pointers point to, which are pointers in the same address space, and elements of
///   binding arrays;
/// - loads, of an atomic as its scalar;
/// - samples, texels and properties of images, of a storage image by its format;
/// - results of calls, of atomic operations, of ray queries, and of operations of subgroups and
///   workgroups;
/// - cooperative matrices from memory, of the scalar of what the pointer points to, and products of
///   cooperative matrices;
/// - `Modf` and `Frexp`, whose results are structs that the module predeclares (`SpecialTypes::others`).
///
/// `NotResolvable` are arguments and local variables, as the function isn't given; cooperative loads
/// without a shape; results of ray queries, of `Modf` and of `Frexp` in a module without the special
/// type; and results of functions without one. `resolve` takes no memory, and `push_type` only for the
/// list.
///
/// It follows naga's typifier (`proc/typifier.rs`). It has the mathematical functions of `PlainTyping`. The
/// struct of `Modf` is the first among the first 64 predeclared types that has exactly two members of the
/// argument's type; the one of `Frexp` has a member of the argument's type, and then one of as many `I32` as the
/// argument has components.
#[derive(Clone, Copy, Debug, PartialEq, Eq)]
pub struct FullTyping;

/// A type of the module, if there is one.
fn declared(ty: Option<Handle<TypeTag>>) -> Result<TypeResolution, ResolveError>
    ensures { result ≡ spec.declared ty }
{
    match ty {
        Some(ty) => Ok(TypeResolution::Handle(ty)),
        None => Err(ResolveError::NotResolvable),
    }
}

/// The type of a reference to a variable of this type.
fn reference_to(ty: Handle<TypeTag>, space: AddressSpace) -> TypeResolution
    ensures { result ≡ spec.reference_to ty space }
{
    // A resource is not in memory, so a reference to it is not a pointer.
    if matches!(space, AddressSpace::Handle) {
        return TypeResolution::Handle(ty);
    }
    TypeResolution::Value(TypeInner::Pointer { base: ty, space })
}

/// The type of the result of a function, if it has one.
fn result_of(function: &Function) -> Option<Handle<TypeTag>>
    ensures { result ≡ spec.result_of function.now }
{
    match &function.result {
        Some(result) => Some(result.ty),
        None => None,
    }
}

/// The type of a pointer.
fn pointer(base: Handle<TypeTag>, space: AddressSpace) -> Result<TypeResolution, ResolveError>
    ensures { result ≡ Ok (TypeResolution.Value (TypeInner.Pointer base space)) }
{
    Ok(TypeResolution::Value(TypeInner::Pointer { base, space }))
}

/// The type of a pointer to a scalar, or to a vector if there is a size.
fn value_pointer(
    size: Option<VectorSize>,
    scalar: Scalar,
    space: AddressSpace,
) -> Result<TypeResolution, ResolveError>
    ensures { result ≡ Ok (TypeResolution.Value (TypeInner.ValuePointer size scalar space)) }
{
    Ok(TypeResolution::Value(TypeInner::ValuePointer {
        size,
        scalar,
        space,
    }))
}

/// The type of a pointer to a part of what a pointer in an address space points to: at a constant
/// index, or without one at an index that is computed.
pub(crate) fn part_pointer(
    index: Option<u32>,
    space: AddressSpace,
    target: &TypeInner,
) -> Result<TypeResolution, ResolveError>
    ensures { result ≡ spec.part_pointer index space target.now }
{
    match target {
        TypeInner::Struct { members, .. } => {
            let Some(index) = index else {
                return Err(ResolveError::IncompatibleOperands);
            };
            match members.as_slice().get(index as usize) {
                Some(member) => pointer(member.ty, space),
                None => Err(ResolveError::IncompatibleOperands),
            }
        }
        &TypeInner::Vector { scalar, .. } => value_pointer(None, scalar, space),
        &TypeInner::Matrix { rows, scalar, .. } => value_pointer(Some(rows), scalar, space),
        &TypeInner::Array { base, .. } | &TypeInner::BindingArray { base, .. } => {
            pointer(base, space)
        }
        TypeInner::Scalar(_)
        | TypeInner::CooperativeMatrix { .. }
        | TypeInner::Atomic(_)
        | TypeInner::Pointer { .. }
        | TypeInner::ValuePointer { .. }
        | TypeInner::Image { .. }
        | TypeInner::Sampler { .. }
        | TypeInner::AccelerationStructure { .. }
        | TypeInner::RayQuery { .. } => Err(ResolveError::IncompatibleOperands),
    }
}

/// The type of a part of a value, or of a pointer to a part of what a pointer points to: at a constant
/// index, or without one at an index that is computed.
pub(crate) fn part_in(
    types: &UniqueArena,
    index: Option<u32>,
    inner: &TypeInner,
) -> Result<TypeResolution, ResolveError>
    requires { PartsExist types.now inner.now }
    ensures { result ≡ spec.part_in types.now index inner.now }
{
    match *inner {
        TypeInner::Pointer { base, space } => part_pointer(index, space, &types[base].inner),
        TypeInner::ValuePointer {
            size: Some(_),
            scalar,
            space,
        } => value_pointer(None, scalar, space),
        TypeInner::ValuePointer { size: None, .. } => Err(ResolveError::IncompatibleOperands),
        TypeInner::BindingArray { base, .. } => Ok(TypeResolution::Handle(base)),
        TypeInner::Scalar(_)
        | TypeInner::Vector { .. }
        | TypeInner::Matrix { .. }
        | TypeInner::CooperativeMatrix { .. }
        | TypeInner::Atomic(_)
        | TypeInner::Array { .. }
        | TypeInner::Struct { .. }
        | TypeInner::Image { .. }
        | TypeInner::Sampler { .. }
        | TypeInner::AccelerationStructure { .. }
        | TypeInner::RayQuery { .. } => match index {
            Some(index) => part_of(index, inner),
            None => element_of(inner),
        },
    }
}

/// The type of what is loaded of a type of the module.
fn loaded(base: Handle<TypeTag>, target: &TypeInner) -> Result<TypeResolution, ResolveError>
    ensures { result ≡ spec.loaded base target.now }
{
    match *target {
        // Atomics are not values: loading one gives its scalar.
        TypeInner::Atomic(of) => scalar(of),
        TypeInner::Scalar(_)
        | TypeInner::Vector { .. }
        | TypeInner::Matrix { .. }
        | TypeInner::CooperativeMatrix { .. }
        | TypeInner::Pointer { .. }
        | TypeInner::ValuePointer { .. }
        | TypeInner::Array { .. }
        | TypeInner::Struct { .. }
        | TypeInner::Image { .. }
        | TypeInner::Sampler { .. }
        | TypeInner::AccelerationStructure { .. }
        | TypeInner::RayQuery { .. }
        | TypeInner::BindingArray { .. } => Ok(TypeResolution::Handle(base)),
    }
}

/// The type of what is loaded through a pointer.
pub(crate) fn load_of(
    types: &UniqueArena,
    pointer: &TypeInner,
) -> Result<TypeResolution, ResolveError>
    requires { PartsExist types.now pointer.now }
    ensures { result ≡ spec.load_of types.now pointer.now }
{
    match *pointer {
        TypeInner::Pointer { base, .. } => loaded(base, &types[base].inner),
        TypeInner::ValuePointer {
            size: Some(size),
            scalar,
            ..
        } => vector(size, scalar),
        TypeInner::ValuePointer {
            size: None,
            scalar: of,
            ..
        } => scalar(of),
        TypeInner::Scalar(_)
        | TypeInner::Vector { .. }
        | TypeInner::Matrix { .. }
        | TypeInner::CooperativeMatrix { .. }
        | TypeInner::Atomic(_)
        | TypeInner::Array { .. }
        | TypeInner::Struct { .. }
        | TypeInner::Image { .. }
        | TypeInner::Sampler { .. }
        | TypeInner::AccelerationStructure { .. }
        | TypeInner::RayQuery { .. }
        | TypeInner::BindingArray { .. } => Err(ResolveError::IncompatibleOperands),
    }
}

/// The dimension and the class of an image. Other types have none.
fn image_parts(inner: &TypeInner) -> Option<(ImageDimension, ImageClass)>
    ensures { result ≡ spec.image_parts inner.now }
{
    match *inner {
        TypeInner::Image { dim, class, .. } => Some((dim, class)),
        TypeInner::Scalar(_)
        | TypeInner::Vector { .. }
        | TypeInner::Matrix { .. }
        | TypeInner::CooperativeMatrix { .. }
        | TypeInner::Atomic(_)
        | TypeInner::Pointer { .. }
        | TypeInner::ValuePointer { .. }
        | TypeInner::Array { .. }
        | TypeInner::Struct { .. }
        | TypeInner::Sampler { .. }
        | TypeInner::AccelerationStructure { .. }
        | TypeInner::RayQuery { .. }
        | TypeInner::BindingArray { .. } => None,
    }
}

/// The type of a vector of four scalars of a kind, of four bytes each.
fn four_of(kind: ScalarKind) -> Result<TypeResolution, ResolveError>
    ensures { result ≡ spec.four_of kind }
{
    vector(VectorSize::Quad, Scalar { kind, width: 4 })
}

/// The type of a texel of an image.
fn texel_of(class: ImageClass) -> Result<TypeResolution, ResolveError>
    ensures { result ≡ spec.texel_of class }
{
    match class {
        ImageClass::Sampled { kind, .. } => four_of(kind),
        ImageClass::Depth { .. } => scalar(Scalar::F32),
        ImageClass::Storage { format, .. } => vector(VectorSize::Quad, format.scalar()),
        ImageClass::External => four_of(ScalarKind::Float),
    }
}

/// The type of one component of four texels of an image.
fn gathered_of(class: ImageClass) -> Result<TypeResolution, ResolveError>
    ensures { result ≡ spec.gathered_of class }
{
    match class {
        ImageClass::Sampled { kind, .. } => four_of(kind),
        ImageClass::Depth { .. } | ImageClass::Storage { .. } | ImageClass::External => {
            four_of(ScalarKind::Float)
        }
    }
}

/// The type of a texel of an image, or of what is gathered if a component is given.
fn sample_in(
    gather: Option<SwizzleComponent>,
    image: &TypeInner,
) -> Result<TypeResolution, ResolveError>
    ensures { result ≡ spec.sample_in gather image.now }
{
    match (image_parts(image), gather) {
        (Some((_, class)), Some(_)) => gathered_of(class),
        (Some((_, class)), None) => texel_of(class),
        (None, _) => Err(ResolveError::IncompatibleOperands),
    }
}

/// The type of the size of an image.
fn extent_of(dim: ImageDimension) -> Result<TypeResolution, ResolveError>
    ensures { result ≡ spec.extent_of dim }
{
    match dim {
        ImageDimension::D1 => scalar(Scalar::U32),
        ImageDimension::D2 | ImageDimension::Cube => vector(VectorSize::Bi, Scalar::U32),
        ImageDimension::D3 => vector(VectorSize::Tri, Scalar::U32),
    }
}

/// The type of what a query of an image returns.
fn query_of(query: ImageQuery, image: &TypeInner) -> Result<TypeResolution, ResolveError>
    ensures { result ≡ spec.query_of query image.now }
{
    match query {
        ImageQuery::Size { .. } => match image_parts(image) {
            Some((dim, _)) => extent_of(dim),
            None => Err(ResolveError::IncompatibleOperands),
        },
        ImageQuery::NumLevels | ImageQuery::NumLayers | ImageQuery::NumSamples => {
            scalar(Scalar::U32)
        }
    }
}

/// The type of the product of two operands. A cooperative matrix that a scalar is multiplied by keeps its
/// type.
pub(crate) fn full_product(
    module: &Module,
    earlier: &[TypeResolution],
    left: Handle<ExpressionTag>,
    right: Handle<ExpressionTag>,
) -> Result<TypeResolution, ResolveError>
    requires left_earlier { left < length earlier.now }
    requires right_earlier { right < length earlier.now }
    requires exist { All (ResolutionExists (global_lists «module».now)) earlier.now }
    requires proper { All IsProperResolution earlier.now }
    ensures { result ≡ spec.full_product «module».now.types earlier.now left right }
{
    match (
        operand(module, earlier, left),
        operand(module, earlier, right),
    ) {
        (TypeInner::Scalar(_), TypeInner::CooperativeMatrix { .. }) => same_type(earlier, right),
        _ => product(module, earlier, left, right),
    }
}

/// The type of the result of an operator on two operands.
fn full_binary_of(
    module: &Module,
    earlier: &[TypeResolution],
    op: BinaryOperator,
    left: Handle<ExpressionTag>,
    right: Handle<ExpressionTag>,
) -> Result<TypeResolution, ResolveError>
    requires left_earlier { left < length earlier.now }
    requires right_earlier { right < length earlier.now }
    requires exist { All (ResolutionExists (global_lists «module».now)) earlier.now }
    requires proper { All IsProperResolution earlier.now }
    ensures { result ≡ spec.full_binary_of «module».now.types earlier.now op left right }
{
    match op {
        BinaryOperator::Multiply => full_product(module, earlier, left, right),
        _ => binary_of(module, earlier, op, left, right),
    }
}

/// The type of a scalar, vector or matrix converted to another kind, and to another width, in bytes, if
/// one is given. A matrix keeps its kind.
pub(crate) fn full_cast_of(
    kind: ScalarKind,
    convert: Option<u8>,
    inner: &TypeInner,
) -> Result<TypeResolution, ResolveError>
    ensures { result ≡ spec.full_cast_of kind convert inner.now }
{
    match *inner {
        TypeInner::Matrix { scalar, .. } => cast_of(scalar.kind, convert, inner),
        _ => cast_of(kind, convert, inner),
    }
}

/// The scalar of what a type points to, if that is a scalar, a vector or a matrix of either kind.
pub fn target_scalar(types: &UniqueArena, inner: &TypeInner) -> Option<Scalar>
    requires { PartsExist types.now inner.now }
    ensures { result ≡ spec.target_scalar types.now inner.now }
{
    match *inner {
        TypeInner::Pointer { base, .. } => types[base].inner.scalar(),
        TypeInner::ValuePointer { scalar, .. } => Some(scalar),
        TypeInner::Scalar(_)
        | TypeInner::Vector { .. }
        | TypeInner::Matrix { .. }
        | TypeInner::CooperativeMatrix { .. }
        | TypeInner::Atomic(_)
        | TypeInner::Array { .. }
        | TypeInner::Struct { .. }
        | TypeInner::Image { .. }
        | TypeInner::Sampler { .. }
        | TypeInner::AccelerationStructure { .. }
        | TypeInner::RayQuery { .. }
        | TypeInner::BindingArray { .. } => None,
    }
}

/// The type of a cooperative matrix from memory, of the scalar of what a pointer points to, if the shape is said.
fn cooperative_load_of(
    types: &UniqueArena,
    shape: Option<CooperativeShape>,
    pointer: &TypeInner,
) -> Result<TypeResolution, ResolveError>
    requires { PartsExist types.now pointer.now }
    ensures { result ≡ spec.cooperative_load_of types.now shape (Some pointer.now) }
{
    let Some(shape) = shape else {
        return Err(ResolveError::NotResolvable);
    };
    match target_scalar(types, pointer) {
        Some(scalar) => Ok(TypeResolution::Value(TypeInner::CooperativeMatrix {
            columns: shape.columns,
            rows: shape.rows,
            scalar,
            role: shape.role,
        })),
        None => Err(ResolveError::IncompatibleOperands),
    }
}

/// How many of the types that a module predeclares may be structs that functions return. A bound keeps the time
/// that the expressions of a module take in proportion to how many they are; naga predeclares at most one such
/// struct for each function and type of its argument.
const MOST_RESULT_TYPES: usize = 64;

/// The types that a module predeclares and that may be structs that functions return.
fn result_types(module: &Module) -> &[Handle<TypeTag>]
    ensures { result.now ≡ spec.result_types «module».now }
{
    let others = module.special_types.others.as_slice();
    &others[..MOST_RESULT_TYPES.min(others.len())]
}

/// Whether a type of the module is `inner`.
fn is_type(types: &UniqueArena, inner: &TypeInner, ty: Handle<TypeTag>) -> bool
    requires { ty < length types.now }
    ensures { result ≡ spec.is_type types.now inner.now ty }
{
    *inner == types[ty].inner
}

/// Whether the members of a struct are two, of the types `first` and `second`.
fn are_two(
    types: &UniqueArena,
    first: &TypeInner,
    second: &TypeInner,
    members: &[StructMember],
) -> bool
    requires { All (λ m. m.ty < length types.now) members.now }
    ensures { result ≡ spec.are_two types.now first.now second.now members.now }
{
    match members {
        [one, other] => is_type(types, first, one.ty) && is_type(types, second, other.ty),
        _ => false,
    }
}

/// Whether a type of the module is a struct of two members, of the types `first` and `second`.
fn is_pair(types: &UniqueArena, first: &TypeInner, second: &TypeInner, ty: Handle<TypeTag>) -> bool
    requires exists { ty < length types.now }
    requires parts { AllPartsExist types.now }
    ensures { result ≡ spec.is_pair types.now first.now second.now ty }
{
    match &types[ty].inner {
        TypeInner::Struct { members, .. } => are_two(types, first, second, members.as_slice()),
        _ => false,
    }
}

/// The first of some types that is a struct of two members, of the types `first` and `second`.
fn find_pair(
    types: &UniqueArena,
    among: &[Handle<TypeTag>],
    first: &TypeInner,
    second: &TypeInner,
) -> Option<Handle<TypeTag>>
    requires exist { All (λ t. t < length types.now) among.now }
    requires parts { AllPartsExist types.now }
    ensures { result ≡ find (spec.is_pair types.now first.now second.now) among.now }
{
    for ty in among {
        if is_pair(types, first, second, *ty) {
            return Some(*ty);
        }
    }
    None
}

/// The struct that a function returns for a first argument of this type, if it returns one and the module
/// predeclares it.
fn struct_of(module: &Module, fun: MathFunction, first: &TypeInner) -> Option<Handle<TypeTag>>
    requires { HandlesAccepted «module».now }
    ensures { result ≡ spec.struct_of «module».now fun first.now }
{
    match fun {
        MathFunction::Modf => find_pair(&module.types, result_types(module), first, first),
        MathFunction::Frexp => {
            let exponent = exponent_type(first)?;
            find_pair(&module.types, result_types(module), first, &exponent)
        }
        _ => None,
    }
}

/// The type of the result of a mathematical function, by what `PlainTyping` resolves.
fn or_struct(
    module: &Module,
    fun: MathFunction,
    first: &TypeInner,
    plain: Result<TypeResolution, ResolveError>,
) -> Result<TypeResolution, ResolveError>
    requires { HandlesAccepted «module».now }
    ensures { result ≡ spec.or_struct «module».now fun (Some first.now) plain }
{
    match plain {
        Err(ResolveError::NotResolvable) => declared(struct_of(module, fun, first)),
        _ => plain,
    }
}

impl Typing for FullTyping {
    ghost use Rattle.naga_typing.specs.FullLaws.{full_lawful};
    ghost use Rattle.naga_typing.specs.FullTyping.{full_resolves};
    ghost use Rattle.naga_typing.specs.Math.{accepts, argument_count};

    ghost resolves = { λ _. full_resolves };

    ghost accepts_types = { λ _. accepts };

    ghost least_arguments = { λ _ fun _. argument_count fun };

    ghost lawful = { λ _. full_lawful };

    fn resolve(
        &self,
        _alloc: Global,
        module: &Module,
        expression: &Expression,
        earlier: &[TypeResolution],
    ) -> Result<TypeResolution, ResolveError>
        requires { CanResolve «module».now expression.now earlier.now }
        ensures { result ≡ full_resolves «module».now expression.now earlier.now }
    {
        resolve_full(module, expression, earlier)
    }

    fn push_type(
        &self,
        _alloc: Global,
        module: &Module,
        expression: &Expression,
        types: &mut List<TypeResolution>,
    ) -> Result<(), ResolveError> {
        push_full(module, types, expression)
    }

    fn accepts(&self, fun: MathFunction, types: &[&TypeInner]) -> bool {
        accepts(fun, types)
    }

    fn min_arguments(&self, fun: MathFunction, _types: &[&TypeInner]) -> usize {
        argument_count(fun)
    }
}

/// The type of an expression, by its variant.
#[tactic(auto, unfolding(crate::specs::FullTyping::full_resolves))]
pub(crate) fn resolve_full(
    module: &Module,
    expression: &Expression,
    earlier: &[TypeResolution],
) -> Result<TypeResolution, ResolveError>
    requires { CanResolve «module».now expression.now earlier.now }
    ensures { result ≡ spec.full_resolves «module».now expression.now earlier.now }
{
    let types = &module.types;
    match *expression {
        Expression::Literal(_)
        | Expression::Constant(_)
        | Expression::Override(_)
        | Expression::ZeroValue(_)
        | Expression::Compose { .. }
        | Expression::Splat { .. }
        | Expression::Swizzle { .. }
        | Expression::Unary { .. }
        | Expression::Derivative { .. }
        | Expression::Select { .. }
        | Expression::Relational { .. }
        | Expression::ArrayLength(_) => plain_typing::resolve(module, expression, earlier),
        Expression::Access { base, .. } => part_in(types, None, operand(module, earlier, base)),
        Expression::AccessIndex { base, index } => {
            part_in(types, Some(index), operand(module, earlier, base))
        }
        Expression::GlobalVariable(variable) => {
            let variable = &module.global_variables[variable];
            Ok(reference_to(variable.ty, variable.space))
        }
        Expression::Load { pointer } => load_of(types, operand(module, earlier, pointer)),
        Expression::ImageSample { image, gather, .. } => sample_in(
            gather,
            operand(module, earlier, image),
        ),
        Expression::ImageLoad { image, .. } => sample_in(None, operand(module, earlier, image)),
        Expression::ImageQuery { image, query } => query_of(query, operand(module, earlier, image)),
        Expression::Binary { op, left, right } => full_binary_of(module, earlier, op, left, right),
        Expression::As {
            expr,
            kind,
            convert,
        } => full_cast_of(kind, convert, operand(module, earlier, expr)),
        Expression::Math { fun, arg, .. } => or_struct(
            module,
            fun,
            operand(module, earlier, arg),
            plain_typing::resolve(module, expression, earlier),
        ),
        Expression::CallResult(function) => declared(result_of(&module.functions[function])),
        Expression::AtomicResult { ty, .. }
        | Expression::WorkGroupUniformLoadResult { ty }
        | Expression::SubgroupOperationResult { ty } => Ok(TypeResolution::Handle(ty)),
        Expression::RayQueryProceedResult => scalar(Scalar::BOOL),
        Expression::RayQueryGetIntersection { .. } => declared(
            module.special_types.ray_intersection,
        ),
        Expression::RayQueryVertexPositions { .. } => declared(
            module.special_types.ray_vertex_return,
        ),
        Expression::SubgroupBallotResult => four_of(ScalarKind::Uint),
        Expression::CooperativeLoad { shape, pointer, .. } => cooperative_load_of(
            types,
            shape,
            operand(module, earlier, pointer),
        ),
        Expression::CooperativeMultiplyAdd { c, .. } => same_type(earlier, c),
        Expression::FunctionArgument(_) | Expression::LocalVariable(_) => {
            Err(ResolveError::NotResolvable)
        }
    }
}
