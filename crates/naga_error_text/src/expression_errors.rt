//! Why expressions of functions are refused.

ghost use Rattle.naga_error_text.specs.ExpressionErrors.{expression_error_cause, expression_error_parts, expression_errors};
ghost use Rattle.naga_error_text.specs.Numbers.{numbered};
ghost use Rattle.naga_error_text.specs.steps.Pieces.{are_short, piece_text};
ghost use Rattle.std.specs.Prelude.{◌≡◌, IsTrue, map};

use crate::families::Family;
use crate::names::Names;
use crate::numbers::numbered;
use crate::pieces::Piece::{Class, Name, Number, Words};
use crate::pieces::Place::{Fifth, First, Fourth, Second, Third};
use crate::pieces::{Piece, Values};

/// Why an expression of a function or an entry point is refused.
#[derive(Clone, Copy, Debug, PartialEq)]
pub enum ExpressionError {
    /// Never returned: scopes are not checked here.
    NotInScope,
    /// The base of an access has no parts.
    InvalidBaseType,
    /// The index of an access is not an integer, or is a constant of another width than 16 or 32 bits.
    InvalidIndexType,
    /// A base is accessed at a constant index below 0.
    NegativeIndex,
    /// A base is accessed at an index past its last part.
    IndexOutOfBounds,
    /// The function has no argument of this index.
    FunctionArgumentDoesntExist,
    /// A value is loaded through something that is neither a pointer to data of a fixed size nor a value pointer,
    /// or a cooperative matrix through something that is not a pointer to scalars or vectors.
    InvalidPointerType,
    /// The length is taken of something that is not a pointer to a runtime-sized array.
    InvalidArrayType,
    /// A hit is read from something that is not a pointer to a ray query of the function.
    InvalidRayQueryType,
    /// The operand of a splat is not a scalar.
    InvalidSplatType,
    /// The operand of a swizzle is not a vector.
    InvalidVectorType,
    /// A vector of this size has no such component.
    InvalidSwizzleComponent,
    /// A value can't be composed of its components.
    Compose,
    /// A type without a zero.
    InvalidZeroValue,
    /// The base of an access at a constant index has no length.
    IndexableLength,
    /// The operator takes no such operand.
    InvalidUnaryOperandType,
    /// The operator takes no such pair of operands.
    InvalidBinaryOperandTypes,
    /// The two values of a selection have different types.
    SelectValuesTypeMismatch,
    /// The condition of a selection is neither a bool nor a vector of as many as the values have components; or the
    /// values are neither scalars nor vectors.
    SelectConditionNotABool,
    /// The argument of `All` or `Any` is not a vector of bools.
    InvalidBooleanVector,
    /// The argument of `IsNan` or `IsInf` is neither a floating-point number nor a vector of such.
    InvalidFloatArgument,
    /// An expression has no type.
    Type_,
    /// An image or a sampler is neither a variable of the module nor an argument nor an element of such a variable.
    ExpectedGlobalVariable,
    /// Never returned: `ExpectedGlobalVariable` is.
    ExpectedGlobalOrArgument,
    /// An element is taken of a variable that is not a binding array.
    ExpectedBindingArrayType,
    /// Something else stands in place of an image.
    ExpectedImageType,
    /// Something else stands in place of a sampler.
    ExpectedSamplerType,
    /// Images of this class can't be used so.
    InvalidImageClass,
    /// Never returned: image atomics are not checked here.
    InvalidImageFormat,
    /// Never returned: image atomics are not checked here.
    InvalidImageStorageAccess,
    /// A derivative is taken of something that is not a floating-point number of at least 32 bits, nor a vector of
    /// such.
    InvalidDerivative,
    /// An image of layers has no index of one, or another image has.
    InvalidImageArrayIndex,
    /// A sample is chosen of an image that isn't multisampled.
    InvalidImageSampleSelector,
    /// No sample is chosen of a multisampled image.
    MissingImageSampleSelector,
    /// A level is chosen of an image without levels.
    InvalidImageLevelSelector,
    /// No level is chosen of an image with levels.
    MissingImageLevelSelector,
    /// The index of an array layer is not an integer, for a load not an integer of 32 bits; or the level of a load
    /// is not an integer.
    InvalidImageArrayIndexType,
    /// The index of a sample or a level is not an integer of 32 bits.
    InvalidImageOtherIndexType,
    /// The coordinates don't fit an image of this dimension.
    InvalidImageCoordinateType,
    /// A reference is given to a sampler that doesn't compare, or none to one that does; or a sampler compares, and
    /// the image holds no depths.
    ComparisonSamplingMismatch,
    /// The offset of a sample is not known when the shader is compiled.
    InvalidSampleOffsetExprType,
    /// The offset doesn't fit an image of this dimension.
    InvalidSampleOffset,
    /// What depths are compared with is not a floating-point number.
    InvalidDepthReference,
    /// Depths are compared at another level than `Auto` or `Zero`.
    InvalidDepthSampleLevel,
    /// Texels are gathered at another level than `Zero`.
    InvalidGatherLevel,
    /// The image has no such component to gather.
    InvalidGatherComponent,
    /// Texels can't be gathered of an image of this dimension.
    InvalidGatherDimension,
    /// The number of a level is not an integer for a depth image, or not a floating-point number for another.
    InvalidSampleLevelExactType,
    /// The bias of a level is not a floating-point number.
    InvalidSampleLevelBiasType,
    /// Images of this dimension have no bias.
    InvalidSampleLevelBiasDimension,
    /// A derivative doesn't fit the coordinates of an image of this dimension.
    InvalidSampleLevelGradientType,
    /// Coordinates can't be clamped to the edges together with this.
    InvalidSampleClampCoordinateToEdge,
    /// The operand of a conversion is neither a scalar nor a vector nor a matrix, or there are no such scalars to
    /// convert to.
    InvalidCastArgument,
    /// A math function has too few arguments, or a gap between them.
    WrongArgumentCount,
    /// The argument of this index has a wrong type.
    InvalidArgumentType,
    /// A workgroup can't load a value of this type together, which has no fixed size or isn't constructible.
    InvalidWorkGroupUniformLoadResultType,
    /// The expression needs capabilities that aren't given.
    MissingCapabilities,
    /// A literal is refused.
    Literal,
    /// Never returned: the typing checks the arguments of math functions.
    UnsupportedWidth,
    /// An operand of a cooperative multiplication is not a cooperative matrix of its role.
    InvalidCooperativeOperand,
    /// An integer is shifted by a constant of at least as many bits as it has, or that has such a component.
    ShiftAmountTooLarge,
    /// An integer is divided by a constant that is zero, or has a component that is.
    DivideByZero,
}

/// The error of a number, if there is one.
pub(crate) fn expression_error_of(number: u32) -> Option<ExpressionError>
    ensures { result ≡ numbered expression_errors number }
{
    numbered(
        &[
            ExpressionError::NotInScope,
            ExpressionError::InvalidBaseType,
            ExpressionError::InvalidIndexType,
            ExpressionError::NegativeIndex,
            ExpressionError::IndexOutOfBounds,
            ExpressionError::FunctionArgumentDoesntExist,
            ExpressionError::InvalidPointerType,
            ExpressionError::InvalidArrayType,
            ExpressionError::InvalidRayQueryType,
            ExpressionError::InvalidSplatType,
            ExpressionError::InvalidVectorType,
            ExpressionError::InvalidSwizzleComponent,
            ExpressionError::Compose,
            ExpressionError::InvalidZeroValue,
            ExpressionError::IndexableLength,
            ExpressionError::InvalidUnaryOperandType,
            ExpressionError::InvalidBinaryOperandTypes,
            ExpressionError::SelectValuesTypeMismatch,
            ExpressionError::SelectConditionNotABool,
            ExpressionError::InvalidBooleanVector,
            ExpressionError::InvalidFloatArgument,
            ExpressionError::Type_,
            ExpressionError::ExpectedGlobalVariable,
            ExpressionError::ExpectedGlobalOrArgument,
            ExpressionError::ExpectedBindingArrayType,
            ExpressionError::ExpectedImageType,
            ExpressionError::ExpectedSamplerType,
            ExpressionError::InvalidImageClass,
            ExpressionError::InvalidImageFormat,
            ExpressionError::InvalidImageStorageAccess,
            ExpressionError::InvalidDerivative,
            ExpressionError::InvalidImageArrayIndex,
            ExpressionError::InvalidImageSampleSelector,
            ExpressionError::MissingImageSampleSelector,
            ExpressionError::InvalidImageLevelSelector,
            ExpressionError::MissingImageLevelSelector,
            ExpressionError::InvalidImageArrayIndexType,
            ExpressionError::InvalidImageOtherIndexType,
            ExpressionError::InvalidImageCoordinateType,
            ExpressionError::ComparisonSamplingMismatch,
            ExpressionError::InvalidSampleOffsetExprType,
            ExpressionError::InvalidSampleOffset,
            ExpressionError::InvalidDepthReference,
            ExpressionError::InvalidDepthSampleLevel,
            ExpressionError::InvalidGatherLevel,
            ExpressionError::InvalidGatherComponent,
            ExpressionError::InvalidGatherDimension,
            ExpressionError::InvalidSampleLevelExactType,
            ExpressionError::InvalidSampleLevelBiasType,
            ExpressionError::InvalidSampleLevelBiasDimension,
            ExpressionError::InvalidSampleLevelGradientType,
            ExpressionError::InvalidSampleClampCoordinateToEdge,
            ExpressionError::InvalidCastArgument,
            ExpressionError::WrongArgumentCount,
            ExpressionError::InvalidArgumentType,
            ExpressionError::InvalidWorkGroupUniformLoadResultType,
            ExpressionError::MissingCapabilities,
            ExpressionError::Literal,
            ExpressionError::UnsupportedWidth,
            ExpressionError::InvalidCooperativeOperand,
            ExpressionError::ShiftAmountTooLarge,
            ExpressionError::DivideByZero,
        ],
        number,
    )
}

/// The pieces of the text of such an error.
pub(crate) fn expression_error_pieces(error: ExpressionError) -> &'static [Piece]
    ensures text { (values : Values) → map (piece_text values) result.now ≡ expression_error_parts error values }
    ensures short { IsTrue (are_short result.now) }
{
    match error {
        ExpressionError::NotInScope => &[Words(
            "Used by a statement before it was introduced into the scope by any of the dominating blocks",
        )],
        ExpressionError::InvalidBaseType => &[
            Words("Base type ["),
            Number(First),
            Words("] is not compatible with this expression"),
        ],
        ExpressionError::InvalidIndexType => &[
            Words("Accessing with index ["),
            Number(First),
            Words("] can't be done"),
        ],
        ExpressionError::NegativeIndex => &[
            Words("Accessing ["),
            Number(First),
            Words("] via a negative index is invalid"),
        ],
        ExpressionError::IndexOutOfBounds => &[
            Words("Accessing index "),
            Number(Second),
            Words(" is out of ["),
            Number(First),
            Words("] bounds"),
        ],
        ExpressionError::FunctionArgumentDoesntExist => &[
            Words("Function argument "),
            Number(First),
            Words(" doesn't exist"),
        ],
        ExpressionError::InvalidPointerType => &[
            Words("Loading of ["),
            Number(First),
            Words("] can't be done"),
        ],
        ExpressionError::InvalidArrayType => &[
            Words("Array length of ["),
            Number(First),
            Words("] can't be done"),
        ],
        ExpressionError::InvalidRayQueryType => &[
            Words("Get intersection of ["),
            Number(First),
            Words("] can't be done"),
        ],
        ExpressionError::InvalidSplatType => &[
            Words("Splatting ["),
            Number(First),
            Words("] can't be done"),
        ],
        ExpressionError::InvalidVectorType => &[
            Words("Swizzling ["),
            Number(First),
            Words("] can't be done"),
        ],
        ExpressionError::InvalidSwizzleComponent => &[
            Words("Swizzle component "),
            Name(Names::Components, First),
            Words(" is outside of vector size "),
            Name(Names::VectorSizes, Second),
        ],
        ExpressionError::Compose => &[],
        ExpressionError::InvalidZeroValue => &[
            Words("Cannot construct zero value of ["),
            Number(First),
            Words("] because it is not a constructible type"),
        ],
        ExpressionError::IndexableLength => &[],
        ExpressionError::InvalidUnaryOperandType => &[
            Words("Operation "),
            Name(Names::UnaryOperators, First),
            Words(" can't work with ["),
            Number(Second),
            Words("]"),
        ],
        ExpressionError::InvalidBinaryOperandTypes => &[
            Words("Operation "),
            Name(Names::BinaryOperators, First),
            Words(" can't work with ["),
            Number(Second),
            Words("] and ["),
            Number(Third),
            Words("]"),
        ],
        ExpressionError::SelectValuesTypeMismatch => &[Words(
            "Expected selection argument types to match, but reject value's type does not match accept value's",
        )],
        ExpressionError::SelectConditionNotABool => &[Words(
            "Expected selection condition to be a boolean value",
        )],
        ExpressionError::InvalidBooleanVector => &[
            Words("Relational argument ["),
            Number(First),
            Words("] is not a boolean vector"),
        ],
        ExpressionError::InvalidFloatArgument => &[
            Words("Relational argument ["),
            Number(First),
            Words("] is not a float"),
        ],
        ExpressionError::Type_ => &[Words("Type resolution failed: ")],
        ExpressionError::ExpectedGlobalVariable => &[Words("Not a global variable")],
        ExpressionError::ExpectedGlobalOrArgument => &[Words(
            "Not a global variable or a function argument",
        )],
        ExpressionError::ExpectedBindingArrayType => &[
            Words("Needs to be an binding array instead of ["),
            Number(First),
            Words("]"),
        ],
        ExpressionError::ExpectedImageType => &[
            Words("Needs to be an image instead of ["),
            Number(First),
            Words("]"),
        ],
        ExpressionError::ExpectedSamplerType => &[
            Words("Needs to be an image instead of ["),
            Number(First),
            Words("]"),
        ],
        ExpressionError::InvalidImageClass => &[
            Words("Unable to operate on image class "),
            Class(First, Second, Third),
        ],
        ExpressionError::InvalidImageFormat => &[
            Words("Image atomics are not supported for storage format "),
            Name(Names::StorageFormats, First),
        ],
        ExpressionError::InvalidImageStorageAccess => &[
            Words("Image atomics require atomic storage access, "),
            Name(Names::Accesses, First),
            Words(" is insufficient"),
        ],
        ExpressionError::InvalidDerivative => &[Words(
            "Derivatives can only be taken from scalar and vector floats",
        )],
        ExpressionError::InvalidImageArrayIndex => &[Words(
            "Image array index parameter is misplaced",
        )],
        ExpressionError::InvalidImageSampleSelector => &[Words(
            "Cannot textureLoad from a specific multisample sample on a non-multisampled image.",
        )],
        ExpressionError::MissingImageSampleSelector => &[Words(
            "Cannot textureLoad from a multisampled image without specifying a sample.",
        )],
        ExpressionError::InvalidImageLevelSelector => &[Words(
            "Cannot textureLoad with a specific mip level on a non-mipmapped image.",
        )],
        ExpressionError::MissingImageLevelSelector => &[Words(
            "Cannot textureLoad from a mipmapped image without specifying a level.",
        )],
        ExpressionError::InvalidImageArrayIndexType => &[
            Words("Image array index type of ["),
            Number(First),
            Words("] is not an integer scalar"),
        ],
        ExpressionError::InvalidImageOtherIndexType => &[
            Words("Image sample or level-of-detail index's type of ["),
            Number(First),
            Words("] is not an integer scalar"),
        ],
        ExpressionError::InvalidImageCoordinateType => &[
            Words("Image coordinate type of ["),
            Number(Second),
            Words("] does not match dimension "),
            Name(Names::Dimensions, First),
        ],
        ExpressionError::ComparisonSamplingMismatch => &[
            Words("Comparison sampling mismatch: image has class "),
            Class(First, Second, Third),
            Words(", but the sampler is comparison="),
            Name(Names::Bools, Fourth),
            Words(", and the reference was provided="),
            Name(Names::Bools, Fifth),
        ],
        ExpressionError::InvalidSampleOffsetExprType => &[Words(
            "Sample offset must be a const-expression",
        )],
        ExpressionError::InvalidSampleOffset => &[
            Words("Sample offset constant ["),
            Number(Second),
            Words("] doesn't match the image dimension "),
            Name(Names::Dimensions, First),
        ],
        ExpressionError::InvalidDepthReference => &[
            Words("Depth reference ["),
            Number(First),
            Words("] is not a scalar float"),
        ],
        ExpressionError::InvalidDepthSampleLevel => &[Words(
            "Depth sample level can only be Auto or Zero",
        )],
        ExpressionError::InvalidGatherLevel => &[Words("Gather level can only be Zero")],
        ExpressionError::InvalidGatherComponent => &[
            Words("Gather component "),
            Name(Names::Components, First),
            Words(" doesn't exist in the image"),
        ],
        ExpressionError::InvalidGatherDimension => &[
            Words("Gather can't be done for image dimension "),
            Name(Names::Dimensions, First),
        ],
        ExpressionError::InvalidSampleLevelExactType => &[
            Words("Sample level (exact) type ["),
            Number(First),
            Words("] has an invalid type"),
        ],
        ExpressionError::InvalidSampleLevelBiasType => &[
            Words("Sample level (bias) type ["),
            Number(First),
            Words("] is not a scalar float"),
        ],
        ExpressionError::InvalidSampleLevelBiasDimension => &[
            Words("Bias can't be done for image dimension "),
            Name(Names::Dimensions, First),
        ],
        ExpressionError::InvalidSampleLevelGradientType => &[
            Words("Sample level (gradient) of ["),
            Number(Second),
            Words("] doesn't match the image dimension "),
            Name(Names::Dimensions, First),
        ],
        ExpressionError::InvalidSampleClampCoordinateToEdge => &[Words(
            "Clamping sample coordinate to edge is not supported",
        )],
        ExpressionError::InvalidCastArgument => &[Words("Unable to cast")],
        ExpressionError::WrongArgumentCount => &[
            Words("Invalid argument count for "),
            Name(Names::MathFunctions, First),
        ],
        ExpressionError::InvalidArgumentType => &[
            Words("Argument ["),
            Number(Second),
            Words("] to "),
            Name(Names::MathFunctions, First),
            Words(" as expression ["),
            Number(Third),
            Words("] has an invalid type."),
        ],
        ExpressionError::InvalidWorkGroupUniformLoadResultType => &[
            Words("workgroupUniformLoad result type can't be ["),
            Number(First),
            Words("]. It can only be a constructible type."),
        ],
        ExpressionError::MissingCapabilities => &[
            Words("Shader requires capability Capabilities("),
            Name(Names::Capabilities, First),
            Words(")"),
        ],
        ExpressionError::Literal => &[],
        ExpressionError::UnsupportedWidth => &[
            Name(Names::MathFunctions, First),
            Words(" is not supported for Width "),
            Number(Third),
            Words(" "),
            Name(Names::ScalarKinds, Second),
            Words(" arguments yet, see https://github.com/gfx-rs/wgpu/issues/5276"),
        ],
        ExpressionError::InvalidCooperativeOperand => &[Words(
            "Invalid operand for cooperative op",
        )],
        ExpressionError::ShiftAmountTooLarge => &[
            Words("Shift amount ["),
            Number(First),
            Words("] exceeds the bit width"),
        ],
        ExpressionError::DivideByZero => &[Words("Division by zero")],
    }
}

/// What the error within such an error is one of, if there is one.
pub(crate) fn expression_error_cause(error: ExpressionError) -> Option<Family>
    ensures { result ≡ expression_error_cause error }
{
    match error {
        ExpressionError::Compose => Some(Family::Compose),
        ExpressionError::IndexableLength => Some(Family::IndexableLength),
        ExpressionError::Type_ => Some(Family::Resolve),
        ExpressionError::Literal => Some(Family::Literal),
        _ => None,
    }
}
