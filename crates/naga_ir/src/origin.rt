//! Where expressions have their values from.

ghost use Rattle.std.specs.Prelude.{◌≡◌};
ghost use Rattle.naga_ir.specs.Origins as spec;

use crate::expression::{Expression, Literal};
use naga_arena::handle::Handle;
use naga_arena::tags::{ConstantTag, ExpressionTag, OverrideTag, TypeTag};

/// Where an expression has its value from, as far as that decides when the value is known.
#[derive(Clone, Copy, Debug, PartialEq, Eq)]
pub enum Origin {
    /// From a literal.
    Literal(Literal),
    /// From a constant.
    Constant(Handle<ConstantTag>),
    /// From an override.
    Override(Handle<OverrideTag>),
    /// From a type, whose zero it is.
    ZeroValue(Handle<TypeTag>),
    /// From its components, as a value of this type.
    Compose(Handle<TypeTag>),
    /// From this expression, which is each component.
    Splat(Handle<ExpressionTag>),
    /// From its operands: it is known once they are.
    Computed,
    /// From the invocation or from memory: it is known only when the shader runs.
    Runtime,
}

impl Expression {
    /// Where this has its value from. What depends on few variants of expressions goes by this, so that it lists none
    /// of the others.
    pub fn origin(&self) -> Origin
        ensures { result ≡ spec.origin self.now }
    {
        match *self {
            Self::Literal(literal) => Origin::Literal(literal),
            Self::Constant(constant) => Origin::Constant(constant),
            Self::Override(override_) => Origin::Override(override_),
            Self::ZeroValue(ty) => Origin::ZeroValue(ty),
            Self::Compose { ty, .. } => Origin::Compose(ty),
            Self::Splat { value, .. } => Origin::Splat(value),
            Self::Access { .. } | Self::AccessIndex { .. } | Self::Swizzle { .. } =>
                Origin::Computed,
            Self::Unary { .. } | Self::Binary { .. } | Self::Math { .. } => Origin::Computed,
            Self::As { .. } | Self::Select { .. } | Self::Relational { .. } => Origin::Computed,
            Self::ArrayLength(_) => Origin::Computed,
            Self::FunctionArgument(_) | Self::GlobalVariable(_) => Origin::Runtime,
            Self::LocalVariable(_) | Self::Load { .. } | Self::Derivative { .. } => Origin::Runtime,
            Self::ImageSample { .. } | Self::ImageLoad { .. } => Origin::Runtime,
            Self::ImageQuery { .. } | Self::CallResult(_) => Origin::Runtime,
            Self::AtomicResult { .. } | Self::WorkGroupUniformLoadResult { .. } => Origin::Runtime,
            Self::RayQueryProceedResult | Self::SubgroupBallotResult => Origin::Runtime,
            Self::RayQueryGetIntersection { .. } => Origin::Runtime,
            Self::RayQueryVertexPositions { .. } => Origin::Runtime,
            Self::SubgroupOperationResult { .. } => Origin::Runtime,
            Self::CooperativeLoad { .. } | Self::CooperativeMultiplyAdd { .. } => Origin::Runtime,
        }
    }
}
