//! The numbers of errors, which bindings/c/naga_check.h names: of each enum from 1, in the order of its variants. A
//! number never changes its meaning.

ghost use Rattle.naga_c.specs.Codes.{compose_error_code, const_expression_error_cause, const_expression_error_code, const_expression_error_second_cause, constant_error_code, disalignment_code, expression_error_cause, expression_error_code, expression_error_second_cause, handle_error_code, indexable_length_error_code, layout_error_code, literal_error_cause, literal_error_code, override_error_cause, override_error_code, override_error_second_cause, override_error_third_cause, resolve_error_code, type_error_cause, type_error_code, varying_error_code, width_error_code};
ghost use Rattle.std.specs.Prelude.{◌≡◌};

use naga_handles::error::InvalidHandleError;
use naga_info::const_expression_error::{ConstExpressionError, LiteralError};
use naga_info::expression_error::ExpressionError;
use naga_types::error::{ComposeError, Disalignment, TypeError, VaryingError};
use naga_typing::index::IndexableLengthError;
use naga_typing::layouter::LayoutErrorInner;
use naga_typing::typifier::ResolveError;
use naga_valid::{ConstantError, OverrideError, WidthError};

/// The number of an error of handles.
pub(crate) fn handle_error_code(error: &InvalidHandleError) -> u32
    ensures { result ≡ handle_error_code error.now }
{
    match error {
        InvalidHandleError::BadHandle(_) => 1,
        InvalidHandleError::ForwardDependency(_) => 2,
        InvalidHandleError::BadRange(_) => 3,
    }
}

/// The number of an error of layouts.
pub(crate) fn layout_error_code(error: &LayoutErrorInner) -> u32
    ensures { result ≡ layout_error_code error.now }
{
    match error {
        LayoutErrorInner::TooLarge => 1,
        LayoutErrorInner::NonPowerOfTwoWidth => 2,
        LayoutErrorInner::OutOfMemory => 3,
    }
}

/// The number of an error of types.
pub(crate) fn type_error_code(error: &TypeError) -> u32
    ensures { result ≡ type_error_code error.now }
{
    match error {
        TypeError::MissingCapability(_) => 1,
        TypeError::InvalidAtomicWidth(..) => 2,
        TypeError::InvalidPointerBase(_) => 3,
        TypeError::InvalidPointerToUnsized { .. } => 4,
        TypeError::InvalidData(_) => 5,
        TypeError::InvalidArrayBaseType(_) => 6,
        TypeError::MatrixElementNotFloat => 7,
        TypeError::UnsupportedSpecializedArrayLength(_) => 8,
        TypeError::UnsupportedImageType { .. } => 9,
        TypeError::InvalidArrayStride { .. } => 10,
        TypeError::InvalidDynamicArray(..) => 11,
        TypeError::BindingArrayBaseTypeNotStruct(_) => 12,
        TypeError::BindingArrayBaseExternalTextures => 13,
        TypeError::MemberOverlap { .. } => 14,
        TypeError::MemberOutOfBounds { .. } => 15,
        TypeError::EmptyStruct => 16,
        TypeError::InvalidBlendSrc(_) => 17,
        TypeError::WidthError(_) => 18,
        TypeError::UnresolvedOverride(_) => 19,
        TypeError::InvalidArraySize(_) => 20,
        TypeError::OutOfMemory => 21,
    }
}

/// The number of an error of global expressions.
pub(crate) fn const_expression_error_code(error: &ConstExpressionError) -> u32
    ensures { result ≡ const_expression_error_code error.now }
{
    match error {
        ConstExpressionError::NonConstOrOverride => 1,
        ConstExpressionError::NonFullyEvaluatedConst => 2,
        ConstExpressionError::Compose(_) => 3,
        ConstExpressionError::InvalidSplatType(_) => 4,
        ConstExpressionError::Type_(_) => 5,
        ConstExpressionError::Literal(_) => 6,
        ConstExpressionError::Width(_) => 7,
    }
}

/// The number of an error of constants.
pub(crate) fn constant_error_code(error: &ConstantError) -> u32
    ensures { result ≡ constant_error_code error.now }
{
    match error {
        ConstantError::InitializerExprType => 1,
        ConstantError::InvalidType => 2,
        ConstantError::NonConstructibleType => 3,
    }
}

/// The number of an error of overrides.
pub(crate) fn override_error_code(error: &OverrideError) -> u32
    ensures { result ≡ override_error_code error.now }
{
    match error {
        OverrideError::MissingNameAndID => 1,
        OverrideError::DuplicateID => 2,
        OverrideError::InitializerExprType => 3,
        OverrideError::InvalidType => 4,
        OverrideError::NonConstructibleType => 5,
        OverrideError::TypeNotScalar => 6,
        OverrideError::NotAllowed => 7,
        OverrideError::UninitializedOverride => 8,
        OverrideError::ConstExpression { .. } => 9,
    }
}

/// The number of an error of an expression of a function.
pub(crate) fn expression_error_code(error: &ExpressionError) -> u32
    ensures { result ≡ expression_error_code error.now }
{
    match error {
        ExpressionError::NotInScope => 1,
        ExpressionError::InvalidBaseType(_) => 2,
        ExpressionError::InvalidIndexType(_) => 3,
        ExpressionError::NegativeIndex(_) => 4,
        ExpressionError::IndexOutOfBounds(..) => 5,
        ExpressionError::FunctionArgumentDoesntExist(_) => 6,
        ExpressionError::InvalidPointerType(_) => 7,
        ExpressionError::InvalidArrayType(_) => 8,
        ExpressionError::InvalidRayQueryType(_) => 9,
        ExpressionError::InvalidSplatType(_) => 10,
        ExpressionError::InvalidVectorType(_) => 11,
        ExpressionError::InvalidSwizzleComponent(..) => 12,
        ExpressionError::Compose(_) => 13,
        ExpressionError::InvalidZeroValue(_) => 14,
        ExpressionError::IndexableLength(_) => 15,
        ExpressionError::InvalidUnaryOperandType(..) => 16,
        ExpressionError::InvalidBinaryOperandTypes { .. } => 17,
        ExpressionError::SelectValuesTypeMismatch { .. } => 18,
        ExpressionError::SelectConditionNotABool { .. } => 19,
        ExpressionError::InvalidBooleanVector(_) => 20,
        ExpressionError::InvalidFloatArgument(_) => 21,
        ExpressionError::Type_(_) => 22,
        ExpressionError::ExpectedGlobalVariable => 23,
        ExpressionError::ExpectedGlobalOrArgument => 24,
        ExpressionError::ExpectedBindingArrayType(_) => 25,
        ExpressionError::ExpectedImageType(_) => 26,
        ExpressionError::ExpectedSamplerType(_) => 27,
        ExpressionError::InvalidImageClass(_) => 28,
        ExpressionError::InvalidImageFormat(_) => 29,
        ExpressionError::InvalidImageStorageAccess(_) => 30,
        ExpressionError::InvalidDerivative => 31,
        ExpressionError::InvalidImageArrayIndex => 32,
        ExpressionError::InvalidImageSampleSelector => 33,
        ExpressionError::MissingImageSampleSelector => 34,
        ExpressionError::InvalidImageLevelSelector => 35,
        ExpressionError::MissingImageLevelSelector => 36,
        ExpressionError::InvalidImageArrayIndexType(_) => 37,
        ExpressionError::InvalidImageOtherIndexType(_) => 38,
        ExpressionError::InvalidImageCoordinateType(..) => 39,
        ExpressionError::ComparisonSamplingMismatch { .. } => 40,
        ExpressionError::InvalidSampleOffsetExprType => 41,
        ExpressionError::InvalidSampleOffset(..) => 42,
        ExpressionError::InvalidDepthReference(_) => 43,
        ExpressionError::InvalidDepthSampleLevel => 44,
        ExpressionError::InvalidGatherLevel => 45,
        ExpressionError::InvalidGatherComponent(_) => 46,
        ExpressionError::InvalidGatherDimension(_) => 47,
        ExpressionError::InvalidSampleLevelExactType(_) => 48,
        ExpressionError::InvalidSampleLevelBiasType(_) => 49,
        ExpressionError::InvalidSampleLevelBiasDimension(_) => 50,
        ExpressionError::InvalidSampleLevelGradientType(..) => 51,
        ExpressionError::InvalidSampleClampCoordinateToEdge(_) => 52,
        ExpressionError::InvalidCastArgument => 53,
        ExpressionError::WrongArgumentCount(_) => 54,
        ExpressionError::InvalidArgumentType(..) => 55,
        ExpressionError::InvalidWorkGroupUniformLoadResultType(_) => 56,
        ExpressionError::MissingCapabilities(_) => 57,
        ExpressionError::Literal(_) => 58,
        ExpressionError::UnsupportedWidth(..) => 59,
        ExpressionError::InvalidCooperativeOperand(_) => 60,
        ExpressionError::ShiftAmountTooLarge { .. } => 61,
        ExpressionError::DivideByZero => 62,
        ExpressionError::OutOfMemory => 63,
    }
}

/// The number of the reason why a type has no layout in an address space.
pub(crate) fn disalignment_code(error: &Disalignment) -> u32
    ensures { result ≡ disalignment_code error.now }
{
    match error {
        Disalignment::ArrayStride { .. } => 1,
        Disalignment::StructSpan { .. } => 2,
        Disalignment::MemberOffset { .. } => 3,
        Disalignment::MemberOffsetAfterStruct { .. } => 4,
        Disalignment::UnsizedMember { .. } => 5,
        Disalignment::NonHostShareable => 6,
    }
}

/// The number of the reason why a struct can't have its blend sources, or why an input or output is refused.
pub(crate) fn varying_error_code(error: &VaryingError) -> u32
    ensures { result ≡ varying_error_code error.now }
{
    match error {
        VaryingError::InvalidBlendSrcIndex { .. } => 1,
        VaryingError::BindingCollisionBlendSrc { .. } => 2,
        VaryingError::InvalidBlendSrcWithOtherBindings { .. } => 3,
        VaryingError::BlendSrcOutputTypeMismatch { .. } => 4,
        VaryingError::NotIOShareableType(_) => 5,
        VaryingError::IncompleteBlendSrcUsage { .. } => 6,
        VaryingError::InvalidType(_) => 7,
        VaryingError::InvalidInterpolation => 8,
        VaryingError::InvalidInterpolationSamplingCombination { .. } => 9,
        VaryingError::MissingInterpolation => 10,
        VaryingError::InvalidBuiltInStage(_) => 11,
        VaryingError::InvalidBuiltInType(_) => 12,
        VaryingError::MissingBinding => 13,
        VaryingError::MemberMissingBinding(_) => 14,
        VaryingError::BindingCollision { .. } => 15,
        VaryingError::DuplicateBuiltIn(_) => 16,
        VaryingError::UnsupportedCapability(_) => 17,
        VaryingError::InvalidInputAttributeInStage(_) => 18,
        VaryingError::InvalidAttributeInStage(_) => 19,
        VaryingError::InvalidMultiDimensionalSubgroupBuiltIn => 20,
        VaryingError::InvalidPerPrimitive => 21,
        VaryingError::OutOfMemory => 22,
    }
}

/// The number of the reason why a value can't be composed.
fn compose_error_code(error: &ComposeError) -> u32
    ensures { result ≡ compose_error_code error.now }
{
    match error {
        ComposeError::Type_(_) => 1,
        ComposeError::ComponentCount { .. } => 2,
        ComposeError::ComponentType { .. } => 3,
    }
}

/// The number of the reason why a width is refused.
fn width_error_code(error: &WidthError) -> u32
    ensures { result ≡ width_error_code error.now }
{
    match error {
        WidthError::Invalid(..) => 1,
        WidthError::MissingCapability { .. } => 2,
        WidthError::Abstract => 3,
    }
}

/// The number of the reason why an expression has no type.
fn resolve_error_code(error: &ResolveError) -> u32
    ensures { result ≡ resolve_error_code error.now }
{
    match error {
        ResolveError::IncompatibleOperands => 1,
        ResolveError::NotResolvable => 2,
        ResolveError::OutOfMemory => 3,
    }
}

/// The number of the reason why a value has no length.
fn indexable_length_error_code(error: &IndexableLengthError) -> u32
    ensures { result ≡ indexable_length_error_code error.now }
{
    match error {
        IndexableLengthError::TypeNotIndexable => 1,
        IndexableLengthError::InvalidArrayLength => 2,
    }
}

/// The number of an error of a literal.
fn literal_error_code(error: &LiteralError) -> u32
    ensures { result ≡ literal_error_code error.now }
{
    match error {
        LiteralError::Width(_) => 1,
    }
}

/// The number of the error within an error of a literal.
fn literal_error_cause(error: &LiteralError) -> u32
    ensures { result ≡ literal_error_cause error.now }
{
    match error {
        LiteralError::Width(error) => width_error_code(error),
    }
}

/// The number of the error within an error of types, or 0.
pub(crate) fn type_error_cause(error: &TypeError) -> u32
    ensures { result ≡ type_error_cause error.now }
{
    match error {
        TypeError::InvalidBlendSrc(error) => varying_error_code(error),
        TypeError::WidthError(error) => width_error_code(error),
        TypeError::MissingCapability(_)
        | TypeError::InvalidAtomicWidth(..)
        | TypeError::InvalidPointerBase(_)
        | TypeError::InvalidPointerToUnsized { .. }
        | TypeError::InvalidData(_)
        | TypeError::InvalidArrayBaseType(_)
        | TypeError::MatrixElementNotFloat
        | TypeError::UnsupportedSpecializedArrayLength(_)
        | TypeError::UnsupportedImageType { .. }
        | TypeError::InvalidArrayStride { .. }
        | TypeError::InvalidDynamicArray(..)
        | TypeError::BindingArrayBaseTypeNotStruct(_)
        | TypeError::BindingArrayBaseExternalTextures
        | TypeError::MemberOverlap { .. }
        | TypeError::MemberOutOfBounds { .. }
        | TypeError::EmptyStruct
        | TypeError::UnresolvedOverride(_)
        | TypeError::InvalidArraySize(_)
        | TypeError::OutOfMemory => 0,
    }
}

/// The number of the error within an error of global expressions, or 0.
pub(crate) fn const_expression_error_cause(error: &ConstExpressionError) -> u32
    ensures { result ≡ const_expression_error_cause error.now }
{
    match error {
        ConstExpressionError::Compose(error) => compose_error_code(error),
        ConstExpressionError::Type_(error) => resolve_error_code(error),
        ConstExpressionError::Literal(error) => literal_error_code(error),
        ConstExpressionError::Width(error) => width_error_code(error),
        ConstExpressionError::NonConstOrOverride
        | ConstExpressionError::NonFullyEvaluatedConst
        | ConstExpressionError::InvalidSplatType(_) => 0,
    }
}

/// The number of the error within an error of overrides, or 0.
pub(crate) fn override_error_cause(error: &OverrideError) -> u32
    ensures { result ≡ override_error_cause error.now }
{
    match error {
        OverrideError::ConstExpression { source, .. } => const_expression_error_code(source),
        OverrideError::MissingNameAndID
        | OverrideError::DuplicateID
        | OverrideError::InitializerExprType
        | OverrideError::InvalidType
        | OverrideError::NonConstructibleType
        | OverrideError::TypeNotScalar
        | OverrideError::NotAllowed
        | OverrideError::UninitializedOverride => 0,
    }
}

/// The number of the second error within an error of global expressions, or 0.
pub(crate) fn const_expression_error_second_cause(error: &ConstExpressionError) -> u32
    ensures { result ≡ const_expression_error_second_cause error.now }
{
    match error {
        ConstExpressionError::Literal(error) => literal_error_cause(error),
        ConstExpressionError::NonConstOrOverride
        | ConstExpressionError::NonFullyEvaluatedConst
        | ConstExpressionError::Compose(_)
        | ConstExpressionError::InvalidSplatType(_)
        | ConstExpressionError::Type_(_)
        | ConstExpressionError::Width(_) => 0,
    }
}

/// The number of the second error within an error of overrides, or 0.
pub(crate) fn override_error_second_cause(error: &OverrideError) -> u32
    ensures { result ≡ override_error_second_cause error.now }
{
    match error {
        OverrideError::ConstExpression { source, .. } => const_expression_error_cause(source),
        OverrideError::MissingNameAndID
        | OverrideError::DuplicateID
        | OverrideError::InitializerExprType
        | OverrideError::InvalidType
        | OverrideError::NonConstructibleType
        | OverrideError::TypeNotScalar
        | OverrideError::NotAllowed
        | OverrideError::UninitializedOverride => 0,
    }
}

/// The number of the third error within an error of overrides, or 0.
pub(crate) fn override_error_third_cause(error: &OverrideError) -> u32
    ensures { result ≡ override_error_third_cause error.now }
{
    match error {
        OverrideError::ConstExpression { source, .. } => const_expression_error_second_cause(
            source,
        ),
        OverrideError::MissingNameAndID
        | OverrideError::DuplicateID
        | OverrideError::InitializerExprType
        | OverrideError::InvalidType
        | OverrideError::NonConstructibleType
        | OverrideError::TypeNotScalar
        | OverrideError::NotAllowed
        | OverrideError::UninitializedOverride => 0,
    }
}

/// The number of the error within an error of an expression of a function, or 0.
pub(crate) fn expression_error_cause(error: &ExpressionError) -> u32
    ensures { result ≡ expression_error_cause error.now }
{
    match error {
        ExpressionError::Compose(error) => compose_error_code(error),
        ExpressionError::IndexableLength(error) => indexable_length_error_code(error),
        ExpressionError::Type_(error) => resolve_error_code(error),
        ExpressionError::Literal(error) => literal_error_code(error),
        ExpressionError::NotInScope
        | ExpressionError::InvalidBaseType(_)
        | ExpressionError::InvalidIndexType(_)
        | ExpressionError::NegativeIndex(_)
        | ExpressionError::IndexOutOfBounds(..)
        | ExpressionError::FunctionArgumentDoesntExist(_)
        | ExpressionError::InvalidPointerType(_)
        | ExpressionError::InvalidArrayType(_)
        | ExpressionError::InvalidRayQueryType(_)
        | ExpressionError::InvalidSplatType(_)
        | ExpressionError::InvalidVectorType(_)
        | ExpressionError::InvalidSwizzleComponent(..)
        | ExpressionError::InvalidZeroValue(_)
        | ExpressionError::InvalidUnaryOperandType(..)
        | ExpressionError::InvalidBinaryOperandTypes { .. }
        | ExpressionError::SelectValuesTypeMismatch { .. }
        | ExpressionError::SelectConditionNotABool { .. }
        | ExpressionError::InvalidBooleanVector(_)
        | ExpressionError::InvalidFloatArgument(_)
        | ExpressionError::ExpectedGlobalVariable
        | ExpressionError::ExpectedGlobalOrArgument
        | ExpressionError::ExpectedBindingArrayType(_)
        | ExpressionError::ExpectedImageType(_)
        | ExpressionError::ExpectedSamplerType(_)
        | ExpressionError::InvalidImageClass(_)
        | ExpressionError::InvalidImageFormat(_)
        | ExpressionError::InvalidImageStorageAccess(_)
        | ExpressionError::InvalidDerivative
        | ExpressionError::InvalidImageArrayIndex
        | ExpressionError::InvalidImageSampleSelector
        | ExpressionError::MissingImageSampleSelector
        | ExpressionError::InvalidImageLevelSelector
        | ExpressionError::MissingImageLevelSelector
        | ExpressionError::InvalidImageArrayIndexType(_)
        | ExpressionError::InvalidImageOtherIndexType(_)
        | ExpressionError::InvalidImageCoordinateType(..)
        | ExpressionError::ComparisonSamplingMismatch { .. }
        | ExpressionError::InvalidSampleOffsetExprType
        | ExpressionError::InvalidSampleOffset(..)
        | ExpressionError::InvalidDepthReference(_)
        | ExpressionError::InvalidDepthSampleLevel
        | ExpressionError::InvalidGatherLevel
        | ExpressionError::InvalidGatherComponent(_)
        | ExpressionError::InvalidGatherDimension(_)
        | ExpressionError::InvalidSampleLevelExactType(_)
        | ExpressionError::InvalidSampleLevelBiasType(_)
        | ExpressionError::InvalidSampleLevelBiasDimension(_)
        | ExpressionError::InvalidSampleLevelGradientType(..)
        | ExpressionError::InvalidSampleClampCoordinateToEdge(_)
        | ExpressionError::InvalidCastArgument
        | ExpressionError::WrongArgumentCount(_)
        | ExpressionError::InvalidArgumentType(..)
        | ExpressionError::InvalidWorkGroupUniformLoadResultType(_)
        | ExpressionError::MissingCapabilities(_)
        | ExpressionError::UnsupportedWidth(..)
        | ExpressionError::InvalidCooperativeOperand(_)
        | ExpressionError::ShiftAmountTooLarge { .. }
        | ExpressionError::DivideByZero
        | ExpressionError::OutOfMemory => 0,
    }
}

/// The number of the second error within an error of an expression of a function, or 0.
pub(crate) fn expression_error_second_cause(error: &ExpressionError) -> u32
    ensures { result ≡ expression_error_second_cause error.now }
{
    match error {
        ExpressionError::Literal(error) => literal_error_cause(error),
        ExpressionError::NotInScope
        | ExpressionError::InvalidBaseType(_)
        | ExpressionError::InvalidIndexType(_)
        | ExpressionError::NegativeIndex(_)
        | ExpressionError::IndexOutOfBounds(..)
        | ExpressionError::FunctionArgumentDoesntExist(_)
        | ExpressionError::InvalidPointerType(_)
        | ExpressionError::InvalidArrayType(_)
        | ExpressionError::InvalidRayQueryType(_)
        | ExpressionError::InvalidSplatType(_)
        | ExpressionError::InvalidVectorType(_)
        | ExpressionError::InvalidSwizzleComponent(..)
        | ExpressionError::Compose(_)
        | ExpressionError::InvalidZeroValue(_)
        | ExpressionError::IndexableLength(_)
        | ExpressionError::InvalidUnaryOperandType(..)
        | ExpressionError::InvalidBinaryOperandTypes { .. }
        | ExpressionError::SelectValuesTypeMismatch { .. }
        | ExpressionError::SelectConditionNotABool { .. }
        | ExpressionError::InvalidBooleanVector(_)
        | ExpressionError::InvalidFloatArgument(_)
        | ExpressionError::Type_(_)
        | ExpressionError::ExpectedGlobalVariable
        | ExpressionError::ExpectedGlobalOrArgument
        | ExpressionError::ExpectedBindingArrayType(_)
        | ExpressionError::ExpectedImageType(_)
        | ExpressionError::ExpectedSamplerType(_)
        | ExpressionError::InvalidImageClass(_)
        | ExpressionError::InvalidImageFormat(_)
        | ExpressionError::InvalidImageStorageAccess(_)
        | ExpressionError::InvalidDerivative
        | ExpressionError::InvalidImageArrayIndex
        | ExpressionError::InvalidImageSampleSelector
        | ExpressionError::MissingImageSampleSelector
        | ExpressionError::InvalidImageLevelSelector
        | ExpressionError::MissingImageLevelSelector
        | ExpressionError::InvalidImageArrayIndexType(_)
        | ExpressionError::InvalidImageOtherIndexType(_)
        | ExpressionError::InvalidImageCoordinateType(..)
        | ExpressionError::ComparisonSamplingMismatch { .. }
        | ExpressionError::InvalidSampleOffsetExprType
        | ExpressionError::InvalidSampleOffset(..)
        | ExpressionError::InvalidDepthReference(_)
        | ExpressionError::InvalidDepthSampleLevel
        | ExpressionError::InvalidGatherLevel
        | ExpressionError::InvalidGatherComponent(_)
        | ExpressionError::InvalidGatherDimension(_)
        | ExpressionError::InvalidSampleLevelExactType(_)
        | ExpressionError::InvalidSampleLevelBiasType(_)
        | ExpressionError::InvalidSampleLevelBiasDimension(_)
        | ExpressionError::InvalidSampleLevelGradientType(..)
        | ExpressionError::InvalidSampleClampCoordinateToEdge(_)
        | ExpressionError::InvalidCastArgument
        | ExpressionError::WrongArgumentCount(_)
        | ExpressionError::InvalidArgumentType(..)
        | ExpressionError::InvalidWorkGroupUniformLoadResultType(_)
        | ExpressionError::MissingCapabilities(_)
        | ExpressionError::UnsupportedWidth(..)
        | ExpressionError::InvalidCooperativeOperand(_)
        | ExpressionError::ShiftAmountTooLarge { .. }
        | ExpressionError::DivideByZero
        | ExpressionError::OutOfMemory => 0,
    }
}
