//! The values that errors hold, outermost error first: handles as indices, numbers as they are, capabilities as bits,
//! and the rest by the numbers that words have. Types and texts are left out.

ghost use Rattle.naga_c.specs.Values.{compose_error_values, const_expression_error_values, counted, expression_error_values, handle_error_values, literal_error_values, override_error_values, type_error_values, varying_error_values, width_error_values};
ghost use Rattle.std.specs.Prelude.{◌≡◌, ◌+◌, ◌<◌, ℕ, List, [], ◌∷◌};

use crate::kinds::{capability_named, scalar_named};
use crate::numbers::{
    access_number, binary_operator_number, bool_number, class_first, class_number, class_second,
    component_number, dimension_number, format_number, interpolation_number, math_function_number,
    sampling_number, scalar_kind_number, space_access, space_number, stage_number,
    unary_operator_number,
};
use bitflags::Flags;
use naga_flags::width::WidthError;
use naga_handles::error::InvalidHandleError;
use naga_info::const_expression_error::{ConstExpressionError, LiteralError};
use naga_info::expression_error::ExpressionError;
use naga_types::error::{ComposeError, TypeError, VaryingError};
use naga_valid::OverrideError;

/// The values of an error and of the errors in it.
#[derive(Clone, Copy, Debug, PartialEq)]
pub(crate) struct Values {
    /// How many there are.
    pub(crate) count: u32,
    /// They, and 0 after the last.
    pub(crate) items: [u64; 5],
}

/// No values.
pub(crate) fn none() -> Values
    ensures { result ≡ counted [] }
{
    Values {
        count: 0,
        items: [0; 5],
    }
}

/// One value.
pub(crate) fn one(first: u64) -> Values
    ensures { result ≡ counted (first ∷ []) }
{
    Values {
        count: 1,
        items: [first, 0, 0, 0, 0],
    }
}

/// Two values.
pub(crate) fn two(first: u64, second: u64) -> Values
    ensures { result ≡ counted (first ∷ second ∷ []) }
{
    Values {
        count: 2,
        items: [first, second, 0, 0, 0],
    }
}

/// Three values.
pub(crate) fn three(first: u64, second: u64, third: u64) -> Values
    ensures { result ≡ counted (first ∷ second ∷ third ∷ []) }
{
    Values {
        count: 3,
        items: [first, second, third, 0, 0],
    }
}

/// Four values.
fn four(first: u64, second: u64, third: u64, fourth: u64) -> Values
    ensures { result ≡ counted (first ∷ second ∷ third ∷ fourth ∷ []) }
{
    Values {
        count: 4,
        items: [first, second, third, fourth, 0],
    }
}

/// Five values.
fn five(first: u64, second: u64, third: u64, fourth: u64, fifth: u64) -> Values
    ensures { result ≡ counted (first ∷ second ∷ third ∷ fourth ∷ fifth ∷ []) }
{
    Values {
        count: 5,
        items: [first, second, third, fourth, fifth],
    }
}

/// A value, and those of an error within the one that holds it.
pub(crate) fn after(first: u64, rest: Values) -> Values
    requires room { rest.count < 5 }
    ensures value { (xs : List ℕ) → rest ≡ counted xs → result ≡ counted (first ∷ xs) }
    ensures count { result.count ≡ rest.count + 1 }
{
    let [second, third, fourth, fifth, _] = rest.items;
    Values {
        count: rest.count + 1,
        items: [first, second, third, fourth, fifth],
    }
}

/// The values of an error of handles.
pub(crate) fn handle_error_values(error: &InvalidHandleError) -> Values
    ensures { result ≡ counted (handle_error_values error.now) }
{
    match error {
        InvalidHandleError::BadHandle(error) => one(error.index as u64),
        InvalidHandleError::ForwardDependency(error) => two(
            error.subject() as u64,
            error.depends_on() as u64,
        ),
        InvalidHandleError::BadRange(error) => two(u64::from(error.start), u64::from(error.end)),
    }
}

/// The values of why an input or output is refused, or why a struct can't have its blend sources.
pub(crate) fn varying_error_values(error: &VaryingError) -> Values
    ensures value { result ≡ counted (varying_error_values error.now) }
    ensures room { result.count < 5 }
{
    match error {
        VaryingError::InvalidBlendSrcIndex {
            location,
            blend_src,
        } => two(u64::from(*location), u64::from(*blend_src)),
        VaryingError::BindingCollisionBlendSrc { blend_src } => one(u64::from(*blend_src)),
        VaryingError::InvalidBlendSrcWithOtherBindings { location } => one(u64::from(*location)),
        VaryingError::BlendSrcOutputTypeMismatch {
            blend_src_0_type,
            blend_src_1_type,
        } => two(
            blend_src_0_type.index() as u64,
            blend_src_1_type.index() as u64,
        ),
        VaryingError::NotIOShareableType(ty) => one(ty.index() as u64),
        VaryingError::IncompleteBlendSrcUsage { present_blend_src } => one(u64::from(
            *present_blend_src,
        )),
        VaryingError::InvalidType(ty) => one(ty.index() as u64),
        VaryingError::InvalidInterpolationSamplingCombination {
            interpolation,
            sampling,
        } => two(
            interpolation_number(*interpolation),
            sampling_number(*sampling),
        ),
        VaryingError::InvalidBuiltInStage(value) => one(u64::from(value.number())),
        VaryingError::InvalidBuiltInType(value) => one(u64::from(value.number())),
        VaryingError::MemberMissingBinding(index) => one(*index as u64),
        VaryingError::BindingCollision { location } => one(u64::from(*location)),
        VaryingError::DuplicateBuiltIn(value) => one(u64::from(value.number())),
        VaryingError::UnsupportedCapability(capabilities) => one(capabilities.bits()),
        VaryingError::InvalidInputAttributeInStage(stage) => one(stage_number(*stage)),
        VaryingError::InvalidAttributeInStage(stage) => one(stage_number(*stage)),
        VaryingError::InvalidInterpolation
        | VaryingError::MissingInterpolation
        | VaryingError::MissingBinding
        | VaryingError::InvalidMultiDimensionalSubgroupBuiltIn
        | VaryingError::InvalidPerPrimitive
        | VaryingError::OutOfMemory => none(),
    }
}

/// The values of why a width is refused.
fn width_error_values(error: &WidthError) -> Values
    ensures value { result ≡ counted (width_error_values error.now) }
    ensures room { result.count < 5 }
{
    match error {
        WidthError::Invalid(kind, width) => two(scalar_kind_number(*kind), u64::from(*width)),
        WidthError::MissingCapability { name, flag } => {
            let scalar = scalar_named(name.as_str());
            three(
                scalar_kind_number(scalar.kind),
                u64::from(scalar.width),
                capability_named(flag.as_str()),
            )
        }
        WidthError::Abstract => none(),
    }
}

/// The values of why a value can't be composed.
fn compose_error_values(error: &ComposeError) -> Values
    ensures value { result ≡ counted (compose_error_values error.now) }
    ensures room { result.count < 5 }
{
    match error {
        ComposeError::Type_(ty) => one(ty.index() as u64),
        ComposeError::ComponentCount { given, expected } => two(
            u64::from(*given),
            u64::from(*expected),
        ),
        ComposeError::ComponentType { index } => one(u64::from(*index)),
    }
}

/// The values of why a literal is refused.
fn literal_error_values(error: &LiteralError) -> Values
    ensures value { result ≡ counted (literal_error_values error.now) }
    ensures room { result.count < 5 }
{
    match error {
        LiteralError::Width(error) => width_error_values(error),
    }
}

/// The values of why a type is refused.
pub(crate) fn type_error_values(error: &TypeError) -> Values
    ensures { result ≡ counted (type_error_values error.now) }
{
    match error {
        TypeError::MissingCapability(capabilities) => one(capabilities.bits()),
        TypeError::InvalidAtomicWidth(kind, width) => two(
            scalar_kind_number(*kind),
            u64::from(*width),
        ),
        TypeError::InvalidPointerBase(base) => one(base.index() as u64),
        TypeError::InvalidPointerToUnsized { base, space } => three(
            base.index() as u64,
            space_number(*space),
            space_access(*space),
        ),
        TypeError::InvalidData(ty) => one(ty.index() as u64),
        TypeError::InvalidArrayBaseType(base) => one(base.index() as u64),
        TypeError::UnsupportedSpecializedArrayLength(constant) => one(constant.index() as u64),
        TypeError::UnsupportedImageType {
            dim,
            arrayed,
            class,
        } => five(
            dimension_number(*dim),
            bool_number(*arrayed),
            class_number(*class),
            class_first(*class),
            class_second(*class),
        ),
        TypeError::InvalidArrayStride { stride, expected } => two(
            u64::from(*stride),
            u64::from(*expected),
        ),
        TypeError::InvalidDynamicArray(_, ty) => one(ty.index() as u64),
        TypeError::BindingArrayBaseTypeNotStruct(base) => one(base.index() as u64),
        TypeError::MemberOverlap { index, offset } => two(u64::from(*index), u64::from(*offset)),
        TypeError::MemberOutOfBounds {
            index,
            offset,
            size,
            span,
        } => four(
            u64::from(*index),
            u64::from(*offset),
            u64::from(*size),
            u64::from(*span),
        ),
        TypeError::InvalidBlendSrc(error) => varying_error_values(error),
        TypeError::WidthError(error) => width_error_values(error),
        TypeError::UnresolvedOverride(base) => one(base.index() as u64),
        TypeError::InvalidArraySize(base) => one(base.index() as u64),
        TypeError::MatrixElementNotFloat
        | TypeError::BindingArrayBaseExternalTextures
        | TypeError::EmptyStruct
        | TypeError::OutOfMemory => none(),
    }
}

/// The values of why a global expression is refused.
pub(crate) fn const_expression_error_values(error: &ConstExpressionError) -> Values
    ensures value { result ≡ counted (const_expression_error_values error.now) }
    ensures room { result.count < 5 }
{
    match error {
        ConstExpressionError::Compose(error) => compose_error_values(error),
        ConstExpressionError::InvalidSplatType(operand) => one(operand.index() as u64),
        ConstExpressionError::Literal(error) => literal_error_values(error),
        ConstExpressionError::Width(error) => width_error_values(error),
        ConstExpressionError::NonConstOrOverride
        | ConstExpressionError::NonFullyEvaluatedConst
        | ConstExpressionError::Type_(_) => none(),
    }
}

/// The values of why an override is refused.
pub(crate) fn override_error_values(error: &OverrideError) -> Values
    ensures { result ≡ counted (override_error_values error.now) }
{
    match error {
        OverrideError::ConstExpression { handle, source } => after(
            handle.index() as u64,
            const_expression_error_values(source),
        ),
        OverrideError::MissingNameAndID
        | OverrideError::DuplicateID
        | OverrideError::InitializerExprType
        | OverrideError::InvalidType
        | OverrideError::NonConstructibleType
        | OverrideError::TypeNotScalar
        | OverrideError::NotAllowed
        | OverrideError::UninitializedOverride => none(),
    }
}

/// The values of why an expression of a function is refused.
pub(crate) fn expression_error_values(error: &ExpressionError) -> Values
    ensures { result ≡ counted (expression_error_values error.now) }
{
    match error {
        ExpressionError::InvalidBaseType(operand) => one(operand.index() as u64),
        ExpressionError::InvalidIndexType(operand) => one(operand.index() as u64),
        ExpressionError::NegativeIndex(operand) => one(operand.index() as u64),
        ExpressionError::IndexOutOfBounds(base, index) => two(
            base.index() as u64,
            u64::from(*index),
        ),
        ExpressionError::FunctionArgumentDoesntExist(index) => one(u64::from(*index)),
        ExpressionError::InvalidPointerType(operand) => one(operand.index() as u64),
        ExpressionError::InvalidArrayType(operand) => one(operand.index() as u64),
        ExpressionError::InvalidRayQueryType(operand) => one(operand.index() as u64),
        ExpressionError::InvalidSplatType(operand) => one(operand.index() as u64),
        ExpressionError::InvalidVectorType(operand) => one(operand.index() as u64),
        ExpressionError::InvalidSwizzleComponent(component, size) => two(
            component_number(*component),
            u64::from(size.components()),
        ),
        ExpressionError::Compose(error) => compose_error_values(error),
        ExpressionError::InvalidZeroValue(ty) => one(ty.index() as u64),
        ExpressionError::InvalidUnaryOperandType(op, operand) => two(
            unary_operator_number(*op),
            operand.index() as u64,
        ),
        ExpressionError::InvalidBinaryOperandTypes {
            op,
            lhs_expr,
            rhs_expr,
            ..
        } => three(
            binary_operator_number(*op),
            lhs_expr.index() as u64,
            rhs_expr.index() as u64,
        ),
        ExpressionError::InvalidBooleanVector(operand) => one(operand.index() as u64),
        ExpressionError::InvalidFloatArgument(operand) => one(operand.index() as u64),
        ExpressionError::ExpectedBindingArrayType(ty) => one(ty.index() as u64),
        ExpressionError::ExpectedImageType(ty) => one(ty.index() as u64),
        ExpressionError::ExpectedSamplerType(ty) => one(ty.index() as u64),
        ExpressionError::InvalidImageClass(class) => three(
            class_number(*class),
            class_first(*class),
            class_second(*class),
        ),
        ExpressionError::InvalidImageFormat(format) => one(format_number(*format)),
        ExpressionError::InvalidImageStorageAccess(access) => one(access_number(*access)),
        ExpressionError::InvalidImageArrayIndexType(operand) => one(operand.index() as u64),
        ExpressionError::InvalidImageOtherIndexType(operand) => one(operand.index() as u64),
        ExpressionError::InvalidImageCoordinateType(dim, operand) => two(
            dimension_number(*dim),
            operand.index() as u64,
        ),
        ExpressionError::ComparisonSamplingMismatch {
            image,
            sampler,
            has_ref,
        } => five(
            class_number(*image),
            class_first(*image),
            class_second(*image),
            bool_number(*sampler),
            bool_number(*has_ref),
        ),
        ExpressionError::InvalidSampleOffset(dim, operand) => two(
            dimension_number(*dim),
            operand.index() as u64,
        ),
        ExpressionError::InvalidDepthReference(operand) => one(operand.index() as u64),
        ExpressionError::InvalidGatherComponent(component) => one(component_number(*component)),
        ExpressionError::InvalidGatherDimension(dim) => one(dimension_number(*dim)),
        ExpressionError::InvalidSampleLevelExactType(operand) => one(operand.index() as u64),
        ExpressionError::InvalidSampleLevelBiasType(operand) => one(operand.index() as u64),
        ExpressionError::InvalidSampleLevelBiasDimension(dim) => one(dimension_number(*dim)),
        ExpressionError::InvalidSampleLevelGradientType(dim, operand) => two(
            dimension_number(*dim),
            operand.index() as u64,
        ),
        ExpressionError::WrongArgumentCount(function) => one(math_function_number(*function)),
        ExpressionError::InvalidArgumentType(function, index, argument) => three(
            math_function_number(*function),
            u64::from(*index),
            argument.index() as u64,
        ),
        ExpressionError::InvalidWorkGroupUniformLoadResultType(ty) => one(ty.index() as u64),
        ExpressionError::MissingCapabilities(capabilities) => one(capabilities.bits()),
        ExpressionError::Literal(error) => literal_error_values(error),
        ExpressionError::UnsupportedWidth(function, kind, width) => three(
            math_function_number(*function),
            scalar_kind_number(*kind),
            u64::from(*width),
        ),
        ExpressionError::InvalidCooperativeOperand(operand) => one(operand.index() as u64),
        ExpressionError::ShiftAmountTooLarge { rhs_expr, .. } => one(rhs_expr.index() as u64),
        ExpressionError::NotInScope
        | ExpressionError::IndexableLength(_)
        | ExpressionError::SelectValuesTypeMismatch { .. }
        | ExpressionError::SelectConditionNotABool { .. }
        | ExpressionError::Type_(_)
        | ExpressionError::ExpectedGlobalVariable
        | ExpressionError::ExpectedGlobalOrArgument
        | ExpressionError::InvalidDerivative
        | ExpressionError::InvalidImageArrayIndex
        | ExpressionError::InvalidImageSampleSelector
        | ExpressionError::MissingImageSampleSelector
        | ExpressionError::InvalidImageLevelSelector
        | ExpressionError::MissingImageLevelSelector
        | ExpressionError::InvalidSampleOffsetExprType
        | ExpressionError::InvalidDepthSampleLevel
        | ExpressionError::InvalidGatherLevel
        | ExpressionError::InvalidSampleClampCoordinateToEdge(_)
        | ExpressionError::InvalidCastArgument
        | ExpressionError::DivideByZero
        | ExpressionError::OutOfMemory => none(),
    }
}
