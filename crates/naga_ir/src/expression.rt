//! Expressions, and the literals in them.

ghost use Rattle.std.specs.Prelude.{◌≡◌};
ghost use Rattle.naga_ir.specs.Literals.{literal_scalar};

use crate::types::{CooperativeRole, CooperativeSize, Scalar, ScalarKind, VectorSize};
use naga_arena::handle::Handle;
use naga_arena::list::List;
use naga_arena::tags::{
    ConstantTag, ExpressionTag, FunctionTag, GlobalVariableTag, LocalVariableTag, OverrideTag,
    TypeTag,
};

/// A literal. Floating-point numbers are kept as their bits, so two literals are equal exactly if
/// their bits are.
#[derive(Clone, Copy, Debug, PartialEq, Eq, Hash)]
pub enum Literal {
    /// The bits of an `f64`.
    F64(u64),
    /// The bits of an `f32`.
    F32(u32),
    /// The bits of an `f16`.
    F16(u16),
    U16(u16),
    I16(i16),
    U32(u32),
    I32(i32),
    U64(u64),
    I64(i64),
    Bool(bool),
    AbstractInt(i64),
    /// The bits of an `f64`.
    AbstractFloat(u64),
}

impl Literal {
    /// The type of the value.
    pub fn scalar(&self) -> Scalar
        ensures { result ≡ literal_scalar self.now }
    {
        match self {
            Literal::F64(_) => Scalar::F64,
            Literal::F32(_) => Scalar::F32,
            Literal::F16(_) => Scalar::F16,
            Literal::U16(_) => Scalar::U16,
            Literal::I16(_) => Scalar::I16,
            Literal::U32(_) => Scalar::U32,
            Literal::I32(_) => Scalar::I32,
            Literal::U64(_) => Scalar::U64,
            Literal::I64(_) => Scalar::I64,
            Literal::Bool(_) => Scalar::BOOL,
            Literal::AbstractInt(_) => Scalar::ABSTRACT_INT,
            Literal::AbstractFloat(_) => Scalar::ABSTRACT_FLOAT,
        }
    }
}

/// A component of a vector.
#[derive(Clone, Copy, Debug, PartialEq, Eq)]
pub enum SwizzleComponent {
    X,
    Y,
    Z,
    W,
}

/// Which mipmap level of an image is sampled.
#[derive(Clone, Copy, Debug, PartialEq, Eq)]
pub enum SampleLevel {
    /// By the derivatives of the coordinates.
    Auto,
    /// The first.
    Zero,
    /// The one of this number.
    Exact(Handle<ExpressionTag>),
    /// By the derivatives, and this many levels on.
    Bias(Handle<ExpressionTag>),
    /// By these derivatives.
    Gradient {
        x: Handle<ExpressionTag>,
        y: Handle<ExpressionTag>,
    },
}

/// A query of an image.
#[derive(Clone, Copy, Debug, PartialEq, Eq)]
pub enum ImageQuery {
    /// Its size in texels, of the first level or of the given one.
    Size {
        level: Option<Handle<ExpressionTag>>,
    },
    NumLevels,
    NumLayers,
    NumSamples,
}

/// An operator on one value.
#[derive(Clone, Copy, Debug, PartialEq, Eq)]
pub enum UnaryOperator {
    Negate,
    LogicalNot,
    BitwiseNot,
}

/// An operator on two values.
#[derive(Clone, Copy, Debug, PartialEq, Eq)]
pub enum BinaryOperator {
    Add,
    Subtract,
    Multiply,
    Divide,
    Modulo,
    Equal,
    NotEqual,
    Less,
    LessEqual,
    Greater,
    GreaterEqual,
    And,
    ExclusiveOr,
    InclusiveOr,
    LogicalAnd,
    LogicalOr,
    ShiftLeft,
    /// Of signed integers, keeps the sign.
    ShiftRight,
}

/// A query of a bool or number.
#[derive(Clone, Copy, Debug, PartialEq, Eq)]
pub enum RelationalFunction {
    All,
    Any,
    IsNan,
    IsInf,
}

/// A mathematical function.
#[derive(Clone, Copy, Debug, PartialEq, Eq)]
pub enum MathFunction {
    Abs,
    Min,
    Max,
    Clamp,
    Saturate,
    Cos,
    Cosh,
    Sin,
    Sinh,
    Tan,
    Tanh,
    Acos,
    Asin,
    Atan,
    Atan2,
    Asinh,
    Acosh,
    Atanh,
    Radians,
    Degrees,
    Ceil,
    Floor,
    Round,
    Fract,
    Trunc,
    Modf,
    Frexp,
    Ldexp,
    Exp,
    Exp2,
    Log,
    Log2,
    Pow,
    Dot,
    Dot4I8Packed,
    Dot4U8Packed,
    Outer,
    Cross,
    Distance,
    Length,
    Normalize,
    FaceForward,
    Reflect,
    Refract,
    Sign,
    Fma,
    Mix,
    Step,
    SmoothStep,
    Sqrt,
    InverseSqrt,
    Inverse,
    Transpose,
    Determinant,
    QuantizeToF16,
    CountTrailingZeros,
    CountLeadingZeros,
    CountOneBits,
    ReverseBits,
    ExtractBits,
    InsertBits,
    FirstTrailingBit,
    FirstLeadingBit,
    Pack4x8snorm,
    Pack4x8unorm,
    Pack2x16snorm,
    Pack2x16unorm,
    Pack2x16float,
    Pack4xI8,
    Pack4xU8,
    Pack4xI8Clamp,
    Pack4xU8Clamp,
    Unpack4x8snorm,
    Unpack4x8unorm,
    Unpack2x16snorm,
    Unpack2x16unorm,
    Unpack2x16float,
    Unpack4xI8,
    Unpack4xU8,
}

/// The columns, the rows and the role of a cooperative matrix.
#[derive(Clone, Copy, Debug, PartialEq, Eq)]
pub struct CooperativeShape {
    pub columns: CooperativeSize,
    pub rows: CooperativeSize,
    pub role: CooperativeRole,
}

/// A value that is computed from the values of preceding expressions.
///
/// An expression is not an instruction: a function's statements say when it is evaluated.
#[derive(Debug, Drop)]
pub enum Expression {
    /// A literal.
    Literal(Literal),
    /// The value of a constant.
    Constant(Handle<ConstantTag>),
    /// The value of an override.
    Override(Handle<OverrideTag>),
    /// The zero of a type.
    ZeroValue(Handle<TypeTag>),
    /// A value from its components.
    Compose {
        /// The type of the value.
        ty: Handle<TypeTag>,
        components: List<Handle<ExpressionTag>>,
    },
    /// A component, element or member, at an index that is computed.
    Access {
        base: Handle<ExpressionTag>,
        index: Handle<ExpressionTag>,
    },
    /// A component, element or member, at a known index.
    AccessIndex {
        base: Handle<ExpressionTag>,
        /// The index, from 0.
        index: u32,
    },
    /// A vector of which all components are one value.
    Splat {
        /// The number of components.
        size: VectorSize,
        value: Handle<ExpressionTag>,
    },
    /// A vector from components of another.
    Swizzle {
        /// The number of components.
        size: VectorSize,
        vector: Handle<ExpressionTag>,
        /// The component of each index, of which the first `size` count.
        pattern: [SwizzleComponent; 4],
    },
    /// The argument of this number.
    FunctionArgument(u32),
    /// A pointer to a variable of the module; in the address space `Handle` the image or sampler itself.
    GlobalVariable(Handle<GlobalVariableTag>),
    /// A pointer to a variable of the function.
    LocalVariable(Handle<LocalVariableTag>),
    /// The value that a pointer points to.
    Load {
        pointer: Handle<ExpressionTag>,
    },
    /// A sample of an image.
    ImageSample {
        image: Handle<ExpressionTag>,
        sampler: Handle<ExpressionTag>,
        /// The component that is gathered of four texels, of a gather.
        gather: Option<SwizzleComponent>,
        coordinate: Handle<ExpressionTag>,
        array_index: Option<Handle<ExpressionTag>>,
        /// From the coordinates to the sample, in texels.
        offset: Option<Handle<ExpressionTag>>,
        level: SampleLevel,
        /// What depths are compared with.
        depth_ref: Option<Handle<ExpressionTag>>,
        /// Whether coordinates are clamped to within half a texel of the edges.
        clamp_to_edge: bool,
    },
    /// A texel of an image.
    ImageLoad {
        image: Handle<ExpressionTag>,
        coordinate: Handle<ExpressionTag>,
        array_index: Option<Handle<ExpressionTag>>,
        /// Which sample, of a multisampled image.
        sample: Option<Handle<ExpressionTag>>,
        level: Option<Handle<ExpressionTag>>,
    },
    /// A property of an image.
    ImageQuery {
        image: Handle<ExpressionTag>,
        query: ImageQuery,
    },
    /// An operator on one value.
    Unary {
        op: UnaryOperator,
        expr: Handle<ExpressionTag>,
    },
    /// An operator on two values.
    Binary {
        op: BinaryOperator,
        left: Handle<ExpressionTag>,
        right: Handle<ExpressionTag>,
    },
    /// One of two values, by a condition.
    Select {
        condition: Handle<ExpressionTag>,
        accept: Handle<ExpressionTag>,
        reject: Handle<ExpressionTag>,
    },
    /// The derivative of a value across fragments.
    Derivative {
        expr: Handle<ExpressionTag>,
    },
    /// A query of a value.
    Relational {
        fun: RelationalFunction,
        argument: Handle<ExpressionTag>,
    },
    /// A mathematical function.
    Math {
        fun: MathFunction,
        arg: Handle<ExpressionTag>,
        arg1: Option<Handle<ExpressionTag>>,
        arg2: Option<Handle<ExpressionTag>>,
        arg3: Option<Handle<ExpressionTag>>,
    },
    /// A conversion to another scalar kind.
    As {
        expr: Handle<ExpressionTag>,
        kind: ScalarKind,
        /// The width in bytes that the value is converted to; without one, its bits are reinterpreted.
        convert: Option<u8>,
    },
    /// The result of a call of this function.
    CallResult(Handle<FunctionTag>),
    /// The result of an atomic operation.
    AtomicResult {
        /// The type of the result.
        ty: Handle<TypeTag>,
        /// Whether it was a compare-and-exchange.
        comparison: bool,
    },
    /// The result of a load for the whole workgroup.
    WorkGroupUniformLoadResult {
        /// The type of the result.
        ty: Handle<TypeTag>,
    },
    /// The number of elements of the runtime-sized array that a pointer points to.
    ArrayLength(Handle<ExpressionTag>),
    /// Whether a ray goes on.
    RayQueryProceedResult,
    /// What a ray has hit.
    RayQueryGetIntersection {
        query: Handle<ExpressionTag>,
        /// Whether it is the committed hit, and not a candidate.
        committed: bool,
    },
    /// The corners of what a ray has hit.
    RayQueryVertexPositions {
        query: Handle<ExpressionTag>,
        /// Whether it is the committed hit, and not a candidate.
        committed: bool,
    },
    /// The result of a ballot of the subgroup.
    SubgroupBallotResult,
    /// The result of an operation of the subgroup.
    SubgroupOperationResult {
        /// The type of the result.
        ty: Handle<TypeTag>,
    },
    /// A cooperative matrix from memory.
    CooperativeLoad {
        /// What the matrix is, if that is said: its type is not known without.
        shape: Option<CooperativeShape>,
        pointer: Handle<ExpressionTag>,
        /// From the start of a column or row to the start of the next, in elements.
        stride: Handle<ExpressionTag>,
    },
    /// `a * b + c` of cooperative matrices.
    CooperativeMultiplyAdd {
        a: Handle<ExpressionTag>,
        b: Handle<ExpressionTag>,
        c: Handle<ExpressionTag>,
    },
}
