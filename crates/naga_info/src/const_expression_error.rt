//! Why expressions are refused.

ghost use Rattle.std.specs.Prelude.{◌≡◌};
ghost use Rattle.naga_info.specs.ErrorNames.{const_expression_error_name, literal_error_name};

use naga_flags::width::WidthError;
use naga_ir::handle::Handle;
use naga_ir::tags::ExpressionTag;
use naga_types::error::ComposeError;
use naga_typing::typifier::ResolveError;
use thiserror::Error;

/// Why a literal is refused: naga's `LiteralError`.
#[derive(Clone, Debug, PartialEq, Drop, Error)]
pub enum LiteralError {
    /// The width of its scalar is not allowed.
    #[error("{0}")]
    Width(WidthError),
}

impl LiteralError {
    /// The name of the variant.
    pub fn name(&self) -> &'static str
        ensures { result.now ≡ literal_error_name self.now }
    {
        match self {
            LiteralError::Width(_) => "Width",
        }
    }
}

impl From<WidthError> for LiteralError {
    ghost use Rattle.std.specs.Prelude.{◌≡◌};
    ghost use Rattle.naga_info.specs.declared.const_expression_error.LiteralError.TheVariants as variant;

    ghost from_gives = { λ source error. error ≡ variant.Width source };

    fn from(source: WidthError) -> LiteralError {
        LiteralError::Width(source)
    }
}

/// Why a global expression is refused: naga's `ConstExpressionError`.
#[derive(Clone, Debug, PartialEq, Drop, Error)]
pub enum ConstExpressionError {
    /// Its value is known only when the shader runs.
    #[error("The expression is not a constant or override expression")]
    NonConstOrOverride,
    /// Its value should be known, and is still to be computed.
    #[error("The expression is not a fully evaluated constant expression")]
    NonFullyEvaluatedConst,
    /// A value can't be composed of its components.
    #[error("{0}")]
    Compose(ComposeError),
    /// The operand of a splat, which this names, is not a scalar.
    #[error("Splatting {0:?} can't be done")]
    InvalidSplatType(Handle<ExpressionTag>),
    /// It has no type.
    #[error("Type resolution failed")]
    Type_(ResolveError),
    /// A literal is refused.
    #[error("{0}")]
    Literal(LiteralError),
    /// Never returned: a width is refused inside `Literal`.
    #[error("{0}")]
    Width(WidthError),
}

impl ConstExpressionError {
    /// The name of the variant, as naga spells it: `Type_` is `Type`.
    pub fn name(&self) -> &'static str
        ensures { result.now ≡ const_expression_error_name self.now }
    {
        match self {
            ConstExpressionError::NonConstOrOverride => "NonConstOrOverride",
            ConstExpressionError::NonFullyEvaluatedConst => "NonFullyEvaluatedConst",
            ConstExpressionError::Compose(_) => "Compose",
            ConstExpressionError::InvalidSplatType(_) => "InvalidSplatType",
            ConstExpressionError::Type_(_) => "Type",
            ConstExpressionError::Literal(_) => "Literal",
            ConstExpressionError::Width(_) => "Width",
        }
    }
}

impl From<ComposeError> for ConstExpressionError {
    ghost use Rattle.std.specs.Prelude.{◌≡◌};
    ghost use Rattle.naga_info.specs.declared.const_expression_error.ConstExpressionError.TheVariants as variant;

    ghost from_gives = { λ source error. error ≡ variant.Compose source };

    fn from(source: ComposeError) -> ConstExpressionError {
        ConstExpressionError::Compose(source)
    }
}

impl From<ResolveError> for ConstExpressionError {
    ghost use Rattle.std.specs.Prelude.{◌≡◌};
    ghost use Rattle.naga_info.specs.declared.const_expression_error.ConstExpressionError.TheVariants as variant;

    ghost from_gives = { λ source error. error ≡ variant.Type_ source };

    fn from(source: ResolveError) -> ConstExpressionError {
        ConstExpressionError::Type_(source)
    }
}

impl From<LiteralError> for ConstExpressionError {
    ghost use Rattle.std.specs.Prelude.{◌≡◌};
    ghost use Rattle.naga_info.specs.declared.const_expression_error.ConstExpressionError.TheVariants as variant;

    ghost from_gives = { λ source error. error ≡ variant.Literal source };

    fn from(source: LiteralError) -> ConstExpressionError {
        ConstExpressionError::Literal(source)
    }
}

impl From<WidthError> for ConstExpressionError {
    ghost use Rattle.std.specs.Prelude.{◌≡◌};
    ghost use Rattle.naga_info.specs.declared.const_expression_error.ConstExpressionError.TheVariants as variant;

    ghost from_gives = { λ source error. error ≡ variant.Width source };

    fn from(source: WidthError) -> ConstExpressionError {
        ConstExpressionError::Width(source)
    }
}
