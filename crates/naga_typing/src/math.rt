//! The mathematical functions: which arguments each takes, and which type its result has (naga's
//! `proc/overloads`).

ghost use Rattle.std.specs.Prelude.{◌≡◌, map};
ghost use Rattle.std.specs.List.{list_any};
ghost use Rattle.naga_ir.specs.contracts.types.ScalarKindPartialEq.TheImpl as of_kind;
ghost use Rattle.naga_typing.specs.Math as spec;
ghost use Rattle.naga_typing.specs.steps.Math.{concluded, kinds_of, known_type, meaning, takes_first, takes_further};

use crate::typifier::ResolveError;
use ConclusionRule::{
    Always, ArgumentType, MatrixOfArgument, OfModule, OuterProduct, ScalarOfArgument, Transposed,
};
use FirstArgument::{
    Exactly, Matrix, ScalarOrVector, SquareMatrix, SquareMatrixOf, Vector, VectorOfThree,
};
use FurtherArgument::{
    ExactlyU32, ExponentOfFirst, Same, SameOrScalar, ScalarOfFirst, VectorOfScalar,
};
use KnownType::{FourF32, FourI32, FourU32, I32, TwoF32, U32};
use naga_ir::expression::MathFunction as Math;
use naga_ir::types::{Scalar, ScalarKind, TypeInner, VectorSize};

/// Kinds of scalars.
#[derive(Clone, Copy)]
enum ScalarSet {
    /// Floating-point numbers.
    Float,
    /// Numbers with a width of their own.
    Number,
    /// Numbers with a sign.
    Signed,
    /// Integers with a width of their own.
    Integer,
}

/// A type that functions take or return whatever their other types are.
#[derive(Clone, Copy)]
enum KnownType {
    I32,
    U32,
    /// A vector of two `F32`.
    TwoF32,
    /// A vector of four `F32`.
    FourF32,
    /// A vector of four `I32`.
    FourI32,
    /// A vector of four `U32`.
    FourU32,
}

/// Which types a function takes as its first argument.
#[derive(Clone, Copy)]
enum FirstArgument {
    /// Scalars and vectors.
    ScalarOrVector(ScalarSet),
    /// Only vectors.
    Vector(ScalarSet),
    /// Vectors of three components.
    VectorOfThree(ScalarSet),
    Matrix,
    /// Matrices with as many columns as rows.
    SquareMatrix,
    /// Matrices with as many columns as rows, of scalars of a set.
    SquareMatrixOf(ScalarSet),
    /// One type.
    Exactly(KnownType),
}

/// Which types a function takes as one of its further arguments.
#[derive(Clone, Copy)]
enum FurtherArgument {
    /// The type of the first.
    Same,
    /// The type of the first, or its scalar.
    SameOrScalar,
    /// The type of the scalar of the first.
    ScalarOfFirst,
    /// Vectors of the scalar of the first.
    VectorOfScalar,
    /// As many `I32` as the first has components.
    ExponentOfFirst,
    /// `U32`, whatever the first is.
    ExactlyU32,
}

/// Which type the result has: naga's `ConclusionRule`.
#[derive(Clone, Copy)]
enum ConclusionRule {
    /// The type of the first argument.
    ArgumentType,
    /// The type of the scalar of the first argument.
    ScalarOfArgument,
    /// The type of a matrix whose columns are the rows of the first argument.
    Transposed,
    /// The type of the first argument, a matrix.
    MatrixOfArgument,
    /// The type of a matrix whose rows are the components of the first argument, and whose columns are those of the
    /// second.
    OuterProduct,
    /// One type.
    Always(KnownType),
    /// A struct of the module, which doesn't follow from the arguments.
    OfModule,
}

/// What a function takes and returns.
#[derive(Clone, Copy)]
struct Signature {
    first: FirstArgument,
    further: &'static [FurtherArgument],
    conclusion: ConclusionRule,
}

const FLOATS: FirstArgument = ScalarOrVector(ScalarSet::Float);

const FLOAT_VECTORS: FirstArgument = Vector(ScalarSet::Float);

const NUMBERS: FirstArgument = ScalarOrVector(ScalarSet::Number);

const INTEGERS: FirstArgument = ScalarOrVector(ScalarSet::Integer);

/// A row of the table of functions.
fn row(
    first: FirstArgument,
    further: &'static [FurtherArgument],
    conclusion: ConclusionRule,
) -> Signature
    ensures { result ≡ record { first = first; further = further.entry; conclusion = conclusion } }
{
    Signature {
        first,
        further,
        conclusion,
    }
}

/// The row of functions of one argument, whose type the result has.
fn unary(first: FirstArgument) -> Signature
    ensures { meaning result ≡ spec.unary (takes_first first) }
{
    row(first, &[], ArgumentType)
}

/// The row of functions of one argument of a type, whose result has another.
fn conversion(from: KnownType, to: KnownType) -> Signature
    ensures { meaning result ≡ spec.conversion (known_type from) (known_type to) }
{
    row(Exactly(from), &[], Always(to))
}

/// What each function takes and returns.
#[tactic(auto, unfolding(crate::specs::Math::signature))]
fn signature_of(fun: Math) -> Signature
    ensures { meaning result ≡ spec.signature fun }
{
    match fun {
        Math::Cos | Math::Sin | Math::Tan | Math::Acos | Math::Asin | Math::Atan => unary(FLOATS),
        Math::Cosh | Math::Sinh | Math::Tanh => unary(FLOATS),
        Math::Acosh | Math::Asinh | Math::Atanh => unary(FLOATS),
        Math::Radians | Math::Degrees | Math::Saturate | Math::QuantizeToF16 => unary(FLOATS),
        Math::Ceil | Math::Floor | Math::Round | Math::Fract | Math::Trunc => unary(FLOATS),
        Math::Exp | Math::Exp2 | Math::Log | Math::Log2 => unary(FLOATS),
        Math::Sqrt | Math::InverseSqrt => unary(FLOATS),
        Math::Length => row(FLOATS, &[], ScalarOfArgument),
        Math::Normalize => unary(FLOAT_VECTORS),
        Math::Modf | Math::Frexp => row(FLOATS, &[], OfModule),
        Math::Ldexp => row(FLOATS, &[ExponentOfFirst], ArgumentType),
        Math::Atan2 | Math::Pow | Math::Step => row(FLOATS, &[Same], ArgumentType),
        Math::Distance => row(FLOATS, &[Same], ScalarOfArgument),
        Math::Reflect => row(FLOAT_VECTORS, &[Same], ArgumentType),
        Math::Cross => row(VectorOfThree(ScalarSet::Float), &[Same], ArgumentType),
        Math::Fma | Math::SmoothStep => row(FLOATS, &[Same, Same], ArgumentType),
        Math::FaceForward => row(FLOAT_VECTORS, &[Same, Same], ArgumentType),
        Math::Mix => row(FLOATS, &[Same, SameOrScalar], ArgumentType),
        Math::Refract => row(FLOAT_VECTORS, &[Same, ScalarOfFirst], ArgumentType),
        Math::Abs => unary(NUMBERS),
        Math::Min | Math::Max => row(NUMBERS, &[Same], ArgumentType),
        Math::Clamp => row(NUMBERS, &[Same, Same], ArgumentType),
        Math::Dot => row(Vector(ScalarSet::Number), &[Same], ScalarOfArgument),
        Math::Dot4I8Packed => row(Exactly(U32), &[Same], Always(I32)),
        Math::Dot4U8Packed => row(Exactly(U32), &[Same], Always(U32)),
        Math::Outer => row(FLOAT_VECTORS, &[VectorOfScalar], OuterProduct),
        Math::Sign => unary(ScalarOrVector(ScalarSet::Signed)),
        Math::CountTrailingZeros | Math::CountLeadingZeros | Math::CountOneBits => unary(INTEGERS),
        Math::ReverseBits | Math::FirstTrailingBit | Math::FirstLeadingBit => unary(INTEGERS),
        Math::ExtractBits => row(INTEGERS, &[ExactlyU32, ExactlyU32], ArgumentType),
        Math::InsertBits => row(INTEGERS, &[Same, ExactlyU32, ExactlyU32], ArgumentType),
        Math::Transpose => row(Matrix, &[], Transposed),
        Math::Determinant => row(SquareMatrix, &[], ScalarOfArgument),
        Math::Inverse => row(SquareMatrixOf(ScalarSet::Float), &[], MatrixOfArgument),
        Math::Pack4x8snorm | Math::Pack4x8unorm => conversion(FourF32, U32),
        Math::Pack2x16snorm | Math::Pack2x16unorm | Math::Pack2x16float => conversion(TwoF32, U32),
        Math::Pack4xI8 | Math::Pack4xI8Clamp => conversion(FourI32, U32),
        Math::Pack4xU8 | Math::Pack4xU8Clamp => conversion(FourU32, U32),
        Math::Unpack4x8snorm | Math::Unpack4x8unorm => conversion(U32, FourF32),
        Math::Unpack2x16snorm | Math::Unpack2x16unorm => conversion(U32, TwoF32),
        Math::Unpack2x16float => conversion(U32, TwoF32),
        Math::Unpack4xI8 => conversion(U32, FourI32),
        Math::Unpack4xU8 => conversion(U32, FourU32),
    }
}

/// The numbers of columns and rows of a matrix, and its scalar.
fn matrix_parts(inner: &TypeInner) -> Option<(VectorSize, VectorSize, Scalar)>
    ensures { result ≡ spec.matrix_parts inner.now }
{
    match *inner {
        TypeInner::Matrix {
            columns,
            rows,
            scalar,
        } => Some((columns, rows, scalar)),
        TypeInner::Scalar(_)
        | TypeInner::Vector { .. }
        | TypeInner::CooperativeMatrix { .. }
        | TypeInner::Atomic(_)
        | TypeInner::Pointer { .. }
        | TypeInner::ValuePointer { .. }
        | TypeInner::Array { .. }
        | TypeInner::Struct { .. }
        | TypeInner::Image { .. }
        | TypeInner::Sampler { .. }
        | TypeInner::AccelerationStructure { .. }
        | TypeInner::RayQuery { .. }
        | TypeInner::BindingArray { .. } => None,
    }
}

/// The type of a scalar, or of a vector if there is a size.
fn of_components(size: Option<VectorSize>, scalar: Scalar) -> TypeInner
    ensures { result ≡ spec.of_components (size, scalar) }
{
    match size {
        None => TypeInner::Scalar(scalar),
        Some(size) => TypeInner::Vector { size, scalar },
    }
}

/// The number of components of a vector, and its scalar.
fn vector_parts(inner: &TypeInner) -> Option<(VectorSize, Scalar)>
    ensures { result ≡ spec.vector_parts inner.now }
{
    match inner.vector_size_and_scalar() {
        Some((Some(size), scalar)) => Some((size, scalar)),
        Some((None, _)) | None => None,
    }
}

/// The type of the exponents of a scalar or a vector: as many `I32` as it has components.
pub(crate) fn exponent_type(inner: &TypeInner) -> Option<TypeInner>
    ensures { result ≡ spec.exponent_type inner.now }
{
    let (size, _) = inner.vector_size_and_scalar()?;
    Some(of_components(size, Scalar::I32))
}

impl KnownType {
    /// The type.
    fn inner(self) -> TypeInner
        ensures { result ≡ known_type self }
    {
        let (size, scalar) = match self {
            I32 => (None, Scalar::I32),
            U32 => (None, Scalar::U32),
            TwoF32 => (Some(VectorSize::Bi), Scalar::F32),
            FourF32 => (Some(VectorSize::Quad), Scalar::F32),
            FourI32 => (Some(VectorSize::Quad), Scalar::I32),
            FourU32 => (Some(VectorSize::Quad), Scalar::U32),
        };
        of_components(size, scalar)
    }
}

impl ScalarSet {
    /// Whether a kind is in the set.
    fn contains(self, kind: ScalarKind) -> bool
        ensures { result ≡ list_any (of_kind.ghosts.eq kind) (kinds_of self) }
    {
        match self {
            ScalarSet::Float => matches!(kind, ScalarKind::Float),
            ScalarSet::Number => {
                matches!(
                    kind,
                    ScalarKind::Sint | ScalarKind::Uint | ScalarKind::Float
                )
            }
            ScalarSet::Signed => matches!(kind, ScalarKind::Float | ScalarKind::Sint),
            ScalarSet::Integer => matches!(kind, ScalarKind::Sint | ScalarKind::Uint),
        }
    }
}

impl FirstArgument {
    /// Whether the first argument may have this type.
    fn takes(self, inner: &TypeInner) -> bool
        ensures { result ≡ takes_first self inner.now }
    {
        let found = inner.vector_size_and_scalar();
        match self {
            ScalarOrVector(set) => matches!(found, Some((_, scalar)) if set.contains(scalar.kind)),
            Vector(set) => matches!(found, Some((Some(_), scalar)) if set.contains(scalar.kind)),
            VectorOfThree(set) => {
                matches!(found, Some((Some(VectorSize::Tri), scalar)) if set.contains(scalar.kind))
            }
            Matrix => matrix_parts(inner).is_some(),
            SquareMatrix => {
                matches!(matrix_parts(inner), Some((columns, rows, _)) if columns == rows)
            }
            SquareMatrixOf(set) => {
                matches!(
                    matrix_parts(inner),
                    Some((columns, rows, scalar)) if columns == rows && set.contains(scalar.kind)
                )
            }
            Exactly(known) => known.inner() == *inner,
        }
    }
}

/// Whether a type is the scalar of another.
fn is_scalar_of(first: &TypeInner, inner: &TypeInner) -> bool
    ensures { result ≡ spec.scalar_of_first first.now inner.now }
{
    match first.scalar() {
        Some(scalar) => TypeInner::Scalar(scalar) == *inner,
        None => false,
    }
}

/// Whether a type is a vector of the scalar of another.
fn is_vector_of_scalar(first: &TypeInner, inner: &TypeInner) -> bool
    ensures { result ≡ spec.vector_of_scalar first.now inner.now }
{
    match vector_parts(inner) {
        Some((_, scalar)) => is_scalar_of(first, &TypeInner::Scalar(scalar)),
        None => false,
    }
}

/// Whether a type is the type of the exponents of another.
fn is_exponent_of(first: &TypeInner, inner: &TypeInner) -> bool
    ensures { result ≡ spec.exponent_of_first first.now inner.now }
{
    match exponent_type(first) {
        Some(exponent) => exponent == *inner,
        None => false,
    }
}

impl FurtherArgument {
    /// Whether a further argument may have this type, after a first one of type `first`.
    fn takes(self, first: &TypeInner, inner: &TypeInner) -> bool
        ensures { result ≡ takes_further self first.now inner.now }
    {
        match self {
            Same => first == inner,
            SameOrScalar => first == inner || is_scalar_of(first, inner),
            ScalarOfFirst => is_scalar_of(first, inner),
            VectorOfScalar => is_vector_of_scalar(first, inner),
            ExponentOfFirst => is_exponent_of(first, inner),
            ExactlyU32 => TypeInner::Scalar(Scalar::U32) == *inner,
        }
    }
}

impl ConclusionRule {
    /// The type of the result, by the types of the first argument and of those after it.
    fn conclude(self, first: &TypeInner, further: &[&TypeInner]) -> Option<TypeInner>
        ensures { result ≡ concluded self first.now (map (λ t. t.now) further.now) }
    {
        match self {
            ArgumentType => {
                let (size, scalar) = first.vector_size_and_scalar()?;
                Some(of_components(size, scalar))
            }
            ScalarOfArgument => Some(TypeInner::Scalar(first.scalar()?)),
            Transposed => {
                let (columns, rows, scalar) = matrix_parts(first)?;
                Some(TypeInner::Matrix {
                    columns: rows,
                    rows: columns,
                    scalar,
                })
            }
            MatrixOfArgument => {
                let (columns, rows, scalar) = matrix_parts(first)?;
                Some(TypeInner::Matrix {
                    columns,
                    rows,
                    scalar,
                })
            }
            OuterProduct => {
                let (rows, scalar) = vector_parts(first)?;
                let (columns, _) = vector_parts(further.first()?)?;
                Some(TypeInner::Matrix {
                    columns,
                    rows,
                    scalar,
                })
            }
            Always(known) => Some(known.inner()),
            OfModule => None,
        }
    }
}

/// Whether `rules` allow the type of each further argument, and there are at most as many arguments as rules.
fn takes_each(rules: &[FurtherArgument], first: &TypeInner, further: &[&TypeInner]) -> bool
    ensures { result ≡ spec.takes_each (map takes_further rules.now) first.now (map (λ t. t.now) further.now) }
{
    if further.len() > rules.len() {
        return false;
    }
    for (index, inner) in further.iter().enumerate() {
        if !rules[index].takes(first, inner) {
            return false;
        }
    }
    true
}

/// Whether a function takes arguments of these types, which may be the first of several.
pub(crate) fn accepts(fun: Math, types: &[&TypeInner]) -> bool
    ensures { result ≡ spec.accepts fun (map (λ t. t.now) types.now) }
{
    let Some((first, further)) = types.split_first() else {
        return true;
    };
    let signature = signature_of(fun);
    signature.first.takes(first) && takes_each(signature.further, first, further)
}

/// How many arguments a function takes.
pub(crate) fn argument_count(fun: Math) -> usize
    ensures { result ≡ spec.argument_count fun }
{
    signature_of(fun).further.len() + 1
}

/// The type of the result, if a function takes these arguments.
///
/// # Errors
///
/// - `IncompatibleOperands` if it doesn't.
/// - `NotResolvable` if the result is a struct of the module.
pub(crate) fn result_type(fun: Math, types: &[&TypeInner]) -> Result<TypeInner, ResolveError>
    ensures { result ≡ spec.result_type fun (map (λ t. t.now) types.now) }
{
    let Some((first, further)) = types.split_first() else {
        return Err(ResolveError::IncompatibleOperands);
    };
    if !accepts(fun, types) || types.len() != argument_count(fun) {
        return Err(ResolveError::IncompatibleOperands);
    }
    match signature_of(fun).conclusion.conclude(first, further) {
        Some(inner) => Ok(inner),
        None => Err(ResolveError::NotResolvable),
    }
}
