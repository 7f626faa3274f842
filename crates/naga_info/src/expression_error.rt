//! Why an expression of a function is refused.

ghost use Rattle.std.specs.Prelude.{◌≡◌};
ghost use Rattle.naga_info.specs.ErrorNames.{expression_error_name};

use crate::const_expression_error::LiteralError;
use naga_flags::flags::Capabilities;
use naga_ir::expression::{BinaryOperator, MathFunction, SwizzleComponent, UnaryOperator};
use naga_ir::handle::Handle;
use naga_ir::memory::OutOfMemory;
use naga_ir::storage_format::StorageFormat;
use naga_ir::tags::{ExpressionTag, TypeTag};
use naga_ir::types::{
    ImageClass, ImageDimension, ScalarKind, StorageAccess, TypeInner, VectorSize,
};
use naga_types::error::ComposeError;
use naga_typing::index::IndexableLengthError;
use naga_typing::typifier::ResolveError;
use std::error::Error;
use std::fmt;
use std::fmt::Display;

/// Why an expression of a function is refused: naga's `ExpressionError`. A handle of an expression
/// names the operand at fault, and a handle of a type the type at fault, unless the variant says
/// otherwise.
#[derive(Debug, PartialEq, Drop)]
pub enum ExpressionError {
    /// Never returned: scopes are not checked here.
    NotInScope,
    /// The base of an access has no parts.
    InvalidBaseType(Handle<ExpressionTag>),
    /// The index of an access is not an integer, or is a constant of another width than 16 or 32 bits.
    InvalidIndexType(Handle<ExpressionTag>),
    /// A base, which this names, is accessed at a constant index below 0.
    NegativeIndex(Handle<ExpressionTag>),
    /// A base is accessed at an index past its last part.
    IndexOutOfBounds(Handle<ExpressionTag>, u32),
    /// The function has no argument of this index.
    FunctionArgumentDoesntExist(u32),
    /// A value is loaded through something that is neither a pointer to data of a fixed size nor a value
    /// pointer, or a cooperative matrix through something that is not a pointer to scalars or vectors.
    InvalidPointerType(Handle<ExpressionTag>),
    /// The length is taken of something that is not a pointer to a runtime-sized array.
    InvalidArrayType(Handle<ExpressionTag>),
    /// A hit is read from something that is not a pointer to a ray query of the function.
    InvalidRayQueryType(Handle<ExpressionTag>),
    /// The operand of a splat is not a scalar.
    InvalidSplatType(Handle<ExpressionTag>),
    /// The operand of a swizzle is not a vector.
    InvalidVectorType(Handle<ExpressionTag>),
    /// A vector of this size has no such component.
    InvalidSwizzleComponent(SwizzleComponent, VectorSize),
    /// A value can't be composed of its components.
    Compose(ComposeError),
    /// A type without a zero.
    InvalidZeroValue(Handle<TypeTag>),
    /// The base of an access at a constant index has no length.
    IndexableLength(IndexableLengthError),
    /// The operator takes no such operand.
    InvalidUnaryOperandType(UnaryOperator, Handle<ExpressionTag>),
    /// The operator takes no such pair of operands.
    InvalidBinaryOperandTypes {
        op: BinaryOperator,
        /// The left operand.
        lhs_expr: Handle<ExpressionTag>,
        /// Its type.
        lhs_type: TypeInner,
        /// The right operand.
        rhs_expr: Handle<ExpressionTag>,
        /// Its type.
        rhs_type: TypeInner,
    },
    /// The two values of a selection have different types.
    SelectValuesTypeMismatch {
        accept: TypeInner,
        reject: TypeInner,
    },
    /// The condition of a selection is neither a bool nor a vector of as many as the values have
    /// components; or the values are neither scalars nor vectors.
    SelectConditionNotABool {
        /// The type of the condition.
        actual: TypeInner,
    },
    /// The argument of `All` or `Any` is not a vector of bools.
    InvalidBooleanVector(Handle<ExpressionTag>),
    /// The argument of `IsNan` or `IsInf` is neither a floating-point number nor a vector of such.
    InvalidFloatArgument(Handle<ExpressionTag>),
    /// An expression has no type. The rules of single variants never return it, since the types of operands are
    /// resolved before; the validation of a whole function does.
    Type_(ResolveError),
    /// An image or a sampler is neither a variable of the module nor an argument nor an element of such a
    /// variable.
    ExpectedGlobalVariable,
    /// Never returned: `ExpectedGlobalVariable` is.
    ExpectedGlobalOrArgument,
    /// An element is taken of a variable that is not a binding array.
    ExpectedBindingArrayType(Handle<TypeTag>),
    /// Something else is given in place of an image.
    ExpectedImageType(Handle<TypeTag>),
    /// Something else is given in place of a sampler.
    ExpectedSamplerType(Handle<TypeTag>),
    /// Images of this class can't be used so.
    InvalidImageClass(ImageClass),
    /// Never returned: image atomics are not checked here.
    InvalidImageFormat(StorageFormat),
    /// Never returned: image atomics are not checked here.
    InvalidImageStorageAccess(StorageAccess),
    /// A derivative is taken of something that is not a floating-point number of at least 32 bits, nor a
    /// vector of such.
    InvalidDerivative,
    /// An image of layers has no index of one, or another image has.
    InvalidImageArrayIndex,
    /// A sample is chosen of an image that isn't multisampled.
    InvalidImageSampleSelector,
    /// No sample is chosen of a multisampled image.
    MissingImageSampleSelector,
    /// A level is chosen of an image without levels.
    InvalidImageLevelSelector,
    /// No level is chosen of an image with levels.
    MissingImageLevelSelector,
    /// The index of an array layer is not an integer, for a load not an integer of 32 bits; or the level of a load
    /// is not an integer.
    InvalidImageArrayIndexType(Handle<ExpressionTag>),
    /// The index of a sample or a level is not an integer of 32 bits.
    InvalidImageOtherIndexType(Handle<ExpressionTag>),
    /// The coordinates don't fit an image of this dimension.
    InvalidImageCoordinateType(ImageDimension, Handle<ExpressionTag>),
    /// A reference is given to a sampler that doesn't compare, or none to one that does; or a sampler
    /// compares, and the image holds no depths.
    ComparisonSamplingMismatch {
        /// The class of the image.
        image: ImageClass,
        /// Whether the sampler compares.
        sampler: bool,
        /// Whether there is a reference.
        has_ref: bool,
    },
    /// The offset of a sample is not known when the shader is compiled.
    InvalidSampleOffsetExprType,
    /// The offset doesn't fit an image of this dimension.
    InvalidSampleOffset(ImageDimension, Handle<ExpressionTag>),
    /// What depths are compared with is not a floating-point number.
    InvalidDepthReference(Handle<ExpressionTag>),
    /// Depths are compared at another level than `Auto` or `Zero`.
    InvalidDepthSampleLevel,
    /// Texels are gathered at another level than `Zero`.
    InvalidGatherLevel,
    /// The image has no such component to gather.
    InvalidGatherComponent(SwizzleComponent),
    /// Texels can't be gathered of an image of this dimension.
    InvalidGatherDimension(ImageDimension),
    /// The number of a level is not an integer for a depth image, or not a floating-point number for another.
    InvalidSampleLevelExactType(Handle<ExpressionTag>),
    /// The bias of a level is not a floating-point number.
    InvalidSampleLevelBiasType(Handle<ExpressionTag>),
    /// Images of this dimension have no bias.
    InvalidSampleLevelBiasDimension(ImageDimension),
    /// A derivative doesn't fit the coordinates of an image of this dimension.
    InvalidSampleLevelGradientType(ImageDimension, Handle<ExpressionTag>),
    /// Coordinates can't be clamped to the edges together with this.
    InvalidSampleClampCoordinateToEdge(String),
    /// The operand of a conversion is neither a scalar nor a vector nor a matrix, or there are no such
    /// scalars to convert to.
    InvalidCastArgument,
    /// A math function has too few arguments, or a gap between them.
    WrongArgumentCount(MathFunction),
    /// The argument of this index has a wrong type.
    InvalidArgumentType(MathFunction, u32, Handle<ExpressionTag>),
    /// A workgroup can't load a value of this type together, which has no fixed size or isn't
    /// constructible.
    InvalidWorkGroupUniformLoadResultType(Handle<TypeTag>),
    /// The expression needs capabilities that aren't given.
    MissingCapabilities(Capabilities),
    /// A literal is refused.
    Literal(LiteralError),
    /// Never returned: the typing checks the arguments of math functions.
    UnsupportedWidth(MathFunction, ScalarKind, u8),
    /// An operand of a cooperative multiplication is not a cooperative matrix of its role.
    InvalidCooperativeOperand(Handle<ExpressionTag>),
    /// An integer is shifted by a constant of at least as many bits as it has, or that has such a component.
    ShiftAmountTooLarge {
        /// The type of what is shifted.
        lhs_type: TypeInner,
        /// By what it is shifted.
        rhs_expr: Handle<ExpressionTag>,
    },
    /// An integer is divided by a constant that is zero, or has a component that is.
    DivideByZero,
    /// A request for memory was refused, for the types or the text in an error.
    OutOfMemory,
}

impl ExpressionError {
    /// The name of the variant, as naga spells it: `Type_` is `Type`.
    pub fn name(&self) -> &'static str
        ensures { result.now ≡ expression_error_name self.now }
    {
        match self {
            Self::NotInScope => "NotInScope",
            Self::InvalidBaseType(_) => "InvalidBaseType",
            Self::InvalidIndexType(_) => "InvalidIndexType",
            Self::NegativeIndex(_) => "NegativeIndex",
            Self::IndexOutOfBounds(..) => "IndexOutOfBounds",
            Self::FunctionArgumentDoesntExist(_) => "FunctionArgumentDoesntExist",
            Self::InvalidPointerType(_) => "InvalidPointerType",
            Self::InvalidArrayType(_) => "InvalidArrayType",
            Self::InvalidRayQueryType(_) => "InvalidRayQueryType",
            Self::InvalidSplatType(_) => "InvalidSplatType",
            Self::InvalidVectorType(_) => "InvalidVectorType",
            Self::InvalidSwizzleComponent(..) => "InvalidSwizzleComponent",
            Self::Compose(_) => "Compose",
            Self::InvalidZeroValue(_) => "InvalidZeroValue",
            Self::IndexableLength(_) => "IndexableLength",
            Self::InvalidUnaryOperandType(..) => "InvalidUnaryOperandType",
            Self::InvalidBinaryOperandTypes { .. } => "InvalidBinaryOperandTypes",
            Self::SelectValuesTypeMismatch { .. } => "SelectValuesTypeMismatch",
            Self::SelectConditionNotABool { .. } => "SelectConditionNotABool",
            Self::InvalidBooleanVector(_) => "InvalidBooleanVector",
            Self::InvalidFloatArgument(_) => "InvalidFloatArgument",
            Self::Type_(_) => "Type",
            Self::ExpectedGlobalVariable => "ExpectedGlobalVariable",
            Self::ExpectedGlobalOrArgument => "ExpectedGlobalOrArgument",
            Self::ExpectedBindingArrayType(_) => "ExpectedBindingArrayType",
            Self::ExpectedImageType(_) => "ExpectedImageType",
            Self::ExpectedSamplerType(_) => "ExpectedSamplerType",
            Self::InvalidImageClass(_) => "InvalidImageClass",
            Self::InvalidImageFormat(_) => "InvalidImageFormat",
            Self::InvalidImageStorageAccess(_) => "InvalidImageStorageAccess",
            Self::InvalidDerivative => "InvalidDerivative",
            Self::InvalidImageArrayIndex => "InvalidImageArrayIndex",
            Self::InvalidImageSampleSelector => "InvalidImageSampleSelector",
            Self::MissingImageSampleSelector => "MissingImageSampleSelector",
            Self::InvalidImageLevelSelector => "InvalidImageLevelSelector",
            Self::MissingImageLevelSelector => "MissingImageLevelSelector",
            Self::InvalidImageArrayIndexType(_) => "InvalidImageArrayIndexType",
            Self::InvalidImageOtherIndexType(_) => "InvalidImageOtherIndexType",
            Self::InvalidImageCoordinateType(..) => "InvalidImageCoordinateType",
            Self::ComparisonSamplingMismatch { .. } => "ComparisonSamplingMismatch",
            Self::InvalidSampleOffsetExprType => "InvalidSampleOffsetExprType",
            Self::InvalidSampleOffset(..) => "InvalidSampleOffset",
            Self::InvalidDepthReference(_) => "InvalidDepthReference",
            Self::InvalidDepthSampleLevel => "InvalidDepthSampleLevel",
            Self::InvalidGatherLevel => "InvalidGatherLevel",
            Self::InvalidGatherComponent(_) => "InvalidGatherComponent",
            Self::InvalidGatherDimension(_) => "InvalidGatherDimension",
            Self::InvalidSampleLevelExactType(_) => "InvalidSampleLevelExactType",
            Self::InvalidSampleLevelBiasType(_) => "InvalidSampleLevelBiasType",
            Self::InvalidSampleLevelBiasDimension(_) => "InvalidSampleLevelBiasDimension",
            Self::InvalidSampleLevelGradientType(..) => "InvalidSampleLevelGradientType",
            Self::InvalidSampleClampCoordinateToEdge(_) => "InvalidSampleClampCoordinateToEdge",
            Self::InvalidCastArgument => "InvalidCastArgument",
            Self::WrongArgumentCount(_) => "WrongArgumentCount",
            Self::InvalidArgumentType(..) => "InvalidArgumentType",
            Self::InvalidWorkGroupUniformLoadResultType(_) =>
                "InvalidWorkGroupUniformLoadResultType",
            Self::MissingCapabilities(_) => "MissingCapabilities",
            Self::Literal(_) => "Literal",
            Self::UnsupportedWidth(..) => "UnsupportedWidth",
            Self::InvalidCooperativeOperand(_) => "InvalidCooperativeOperand",
            Self::ShiftAmountTooLarge { .. } => "ShiftAmountTooLarge",
            Self::DivideByZero => "DivideByZero",
            Self::OutOfMemory => "OutOfMemory",
        }
    }
}

impl fmt::Display for ExpressionError {
    fn fmt<W: fmt::Write>(&self, f: &mut fmt::Formatter<W>) -> fmt::Result {
        if let Some(text) = self.fixed_text() {
            return f.write_str(text);
        }
        if let Some(result) = self.write_selection(f) {
            return result;
        }
        if let Some(result) = self.write_access(f) {
            return result;
        }
        if let Some(result) = self.write_reference(f) {
            return result;
        }
        if let Some(result) = self.write_operator(f) {
            return result;
        }
        if let Some(result) = self.write_function(f) {
            return result;
        }
        if let Some(result) = self.write_image(f) {
            return result;
        }
        if let Some(result) = self.write_coordinate(f) {
            return result;
        }
        if let Some(result) = self.write_sample(f) {
            return result;
        }
        self.write_level(f).unwrap_or(Ok(()))
    }
}

impl ExpressionError {
    /// The text of an error that shows no field.
    fn fixed_text(&self) -> Option<&'static str> {
        let text = match self {
            Self::NotInScope =>
                "Used by a statement before it was introduced into the scope by any of the dominating blocks",
            Self::Type_(_) => "Type resolution failed",
            Self::ExpectedGlobalVariable => "Not a global variable",
            Self::ExpectedGlobalOrArgument => "Not a global variable or a function argument",
            Self::InvalidDerivative =>
                "Derivatives can only be taken from scalar and vector floats",
            Self::InvalidImageArrayIndex => "Image array index parameter is misplaced",
            Self::InvalidImageSampleSelector =>
                "Cannot textureLoad from a specific multisample sample on a non-multisampled image.",
            Self::MissingImageSampleSelector =>
                "Cannot textureLoad from a multisampled image without specifying a sample.",
            Self::InvalidImageLevelSelector =>
                "Cannot textureLoad with a specific mip level on a non-mipmapped image.",
            Self::MissingImageLevelSelector =>
                "Cannot textureLoad from a mipmapped image without specifying a level.",
            Self::InvalidSampleOffsetExprType => "Sample offset must be a const-expression",
            Self::InvalidDepthSampleLevel => "Depth sample level can only be Auto or Zero",
            Self::InvalidGatherLevel => "Gather level can only be Zero",
            Self::InvalidCastArgument => "Unable to cast",
            Self::InvalidCooperativeOperand(_) => "Invalid operand for cooperative op",
            Self::DivideByZero => "Division by zero",
            Self::OutOfMemory => "Out of memory",
            _ => return None,
        };
        Some(text)
    }

    /// Writes the text of an error about a selection, or what the shader may use.
    fn write_selection<W: fmt::Write>(&self, f: &mut fmt::Formatter<W>) -> Option<fmt::Result> {
        let result = match self {
            Self::SelectValuesTypeMismatch { accept, reject } => about_two(
                f,
                "Expected selection argument types to match, but reject value of type ",
                reject,
                " does not match accept value of value ",
                accept,
                "",
            ),
            Self::SelectConditionNotABool { actual } => about(
                f,
                "Expected selection condition to be a boolean value, got ",
                actual,
                "",
            ),
            Self::MissingCapabilities(capabilities) => about(
                f,
                "Shader requires capability ",
                capabilities,
                "",
            ),
            _ => return None,
        };
        Some(result)
    }

    /// Writes the text of an error about an access or a composition.
    fn write_access<W: fmt::Write>(&self, f: &mut fmt::Formatter<W>) -> Option<fmt::Result> {
        let result = match self {
            Self::InvalidBaseType(operand) => about(
                f,
                "Base type ",
                operand,
                " is not compatible with this expression",
            ),
            Self::InvalidIndexType(operand) => about(
                f,
                "Accessing with index ",
                operand,
                " can't be done",
            ),
            Self::NegativeIndex(operand) => about(
                f,
                "Accessing ",
                operand,
                " via a negative index is invalid",
            ),
            Self::IndexOutOfBounds(base, index) => about_two(
                f,
                "Accessing index ",
                index,
                " is out of ",
                base,
                " bounds",
            ),
            Self::IndexableLength(source) => source.fmt(f),
            Self::InvalidSplatType(operand) => about(f, "Splatting ", operand, " can't be done"),
            Self::InvalidVectorType(operand) => about(f, "Swizzling ", operand, " can't be done"),
            Self::Compose(source) => source.fmt(f),
            _ => return None,
        };
        Some(result)
    }

    /// Writes the text of an error about what is there, or a pointer.
    fn write_reference<W: fmt::Write>(&self, f: &mut fmt::Formatter<W>) -> Option<fmt::Result> {
        let result = match self {
            Self::FunctionArgumentDoesntExist(index) => about(
                f,
                "Function argument ",
                index,
                " doesn't exist",
            ),
            Self::InvalidPointerType(operand) => about(f, "Loading of ", operand, " can't be done"),
            Self::InvalidArrayType(operand) => about(
                f,
                "Array length of ",
                operand,
                " can't be done",
            ),
            Self::InvalidRayQueryType(operand) => about(
                f,
                "Get intersection of ",
                operand,
                " can't be done",
            ),
            Self::InvalidZeroValue(ty) => about(
                f,
                "Cannot construct zero value of ",
                ty,
                " because it is not a constructible type",
            ),
            Self::InvalidWorkGroupUniformLoadResultType(ty) => about(
                f,
                "workgroupUniformLoad result type can't be ",
                ty,
                ". It can only be a constructible type.",
            ),
            Self::Literal(source) => source.fmt(f),
            _ => return None,
        };
        Some(result)
    }

    /// Writes the text of an error about an operator.
    fn write_operator<W: fmt::Write>(&self, f: &mut fmt::Formatter<W>) -> Option<fmt::Result> {
        let result = match self {
            Self::InvalidUnaryOperandType(op, operand) => about_two(
                f,
                "Operation ",
                op,
                " can't work with ",
                operand,
                "",
            ),
            Self::InvalidBinaryOperandTypes {
                op,
                lhs_expr,
                lhs_type,
                rhs_expr,
                rhs_type,
            } => write!(
                f,
                "Operation {op:?} can't work with {lhs_expr:?} (of type {lhs_type:?}) and {rhs_expr:?} (of type {rhs_type:?})"
            ),
            Self::ShiftAmountTooLarge { lhs_type, .. } => about(
                f,
                "Shift amount exceeds the bit width of ",
                lhs_type,
                "",
            ),
            Self::InvalidSwizzleComponent(component, size) => about_two(
                f,
                "Swizzle component ",
                component,
                " is outside of vector size ",
                size,
                "",
            ),
            _ => return None,
        };
        Some(result)
    }

    /// Writes the text of an error about a relational or math function.
    fn write_function<W: fmt::Write>(&self, f: &mut fmt::Formatter<W>) -> Option<fmt::Result> {
        let result = match self {
            Self::InvalidBooleanVector(operand) => about(
                f,
                "Relational argument ",
                operand,
                " is not a boolean vector",
            ),
            Self::InvalidFloatArgument(operand) => about(
                f,
                "Relational argument ",
                operand,
                " is not a float",
            ),
            Self::WrongArgumentCount(function) => about(
                f,
                "Invalid argument count for ",
                function,
                "",
            ),
            Self::InvalidArgumentType(function, index, argument) => write!(
                f,
                "Argument [{index}] to {function:?} as expression {argument:?} has an invalid type."
            ),
            Self::UnsupportedWidth(function, kind, width) => write!(
                f,
                "{function:?} is not supported for Width {width} {kind:?} arguments yet, see https://github.com/gfx-rs/wgpu/issues/5276"
            ),
            _ => return None,
        };
        Some(result)
    }

    /// Writes the text of an error about an image or a sampler.
    fn write_image<W: fmt::Write>(&self, f: &mut fmt::Formatter<W>) -> Option<fmt::Result> {
        let result = match self {
            Self::ExpectedBindingArrayType(ty) => about(
                f,
                "Needs to be an binding array instead of ",
                ty,
                "",
            ),
            Self::ExpectedImageType(ty) => about(f, "Needs to be an image instead of ", ty, ""),
            Self::ExpectedSamplerType(ty) => about(f, "Needs to be an image instead of ", ty, ""),
            Self::InvalidImageClass(class) => about(
                f,
                "Unable to operate on image class ",
                class,
                "",
            ),
            Self::InvalidImageFormat(format) => about(
                f,
                "Image atomics are not supported for storage format ",
                format,
                "",
            ),
            Self::InvalidImageStorageAccess(access) => about(
                f,
                "Image atomics require atomic storage access, ",
                access,
                " is insufficient",
            ),
            _ => return None,
        };
        Some(result)
    }

    /// Writes the text of an error about a place in an image.
    fn write_coordinate<W: fmt::Write>(&self, f: &mut fmt::Formatter<W>) -> Option<fmt::Result> {
        let result = match self {
            Self::InvalidImageArrayIndexType(operand) => about(
                f,
                "Image array index type of ",
                operand,
                " is not an integer scalar",
            ),
            Self::InvalidImageOtherIndexType(operand) => about(
                f,
                "Image sample or level-of-detail index's type of ",
                operand,
                " is not an integer scalar",
            ),
            Self::InvalidImageCoordinateType(dim, operand) => about_two(
                f,
                "Image coordinate type of ",
                operand,
                " does not match dimension ",
                dim,
                "",
            ),
            Self::InvalidSampleOffset(dim, operand) => about_two(
                f,
                "Sample offset constant ",
                operand,
                " doesn't match the image dimension ",
                dim,
                "",
            ),
            Self::InvalidSampleClampCoordinateToEdge(what) => write!(
                f,
                "Clamping sample coordinate to edge is not supported with {what}"
            ),
            _ => return None,
        };
        Some(result)
    }

    /// Writes the text of an error about how an image is sampled.
    fn write_sample<W: fmt::Write>(&self, f: &mut fmt::Formatter<W>) -> Option<fmt::Result> {
        let result = match self {
            Self::ComparisonSamplingMismatch {
                image,
                sampler,
                has_ref,
            } => write!(
                f,
                "Comparison sampling mismatch: image has class {image:?}, but the sampler is comparison={sampler}, and the reference was provided={has_ref}"
            ),
            Self::InvalidDepthReference(operand) => about(
                f,
                "Depth reference ",
                operand,
                " is not a scalar float",
            ),
            Self::InvalidGatherComponent(component) => about(
                f,
                "Gather component ",
                component,
                " doesn't exist in the image",
            ),
            Self::InvalidGatherDimension(dim) => about(
                f,
                "Gather can't be done for image dimension ",
                dim,
                "",
            ),
            _ => return None,
        };
        Some(result)
    }

    /// Writes the text of an error about a level of an image.
    fn write_level<W: fmt::Write>(&self, f: &mut fmt::Formatter<W>) -> Option<fmt::Result> {
        let result = match self {
            Self::InvalidSampleLevelExactType(operand) => about(
                f,
                "Sample level (exact) type ",
                operand,
                " has an invalid type",
            ),
            Self::InvalidSampleLevelBiasType(operand) => about(
                f,
                "Sample level (bias) type ",
                operand,
                " is not a scalar float",
            ),
            Self::InvalidSampleLevelBiasDimension(dim) => about(
                f,
                "Bias can't be done for image dimension ",
                dim,
                "",
            ),
            Self::InvalidSampleLevelGradientType(dim, operand) => about_two(
                f,
                "Sample level (gradient) of ",
                operand,
                " doesn't match the image dimension ",
                dim,
                "",
            ),
            _ => return None,
        };
        Some(result)
    }
}

impl Error for ExpressionError {}

/// Writes a value between what stands before and after it.
fn about<T: fmt::Debug, W: fmt::Write>(
    f: &mut fmt::Formatter<W>,
    before: &str,
    shown: &T,
    after: &str,
) -> fmt::Result {
    write!(f, "{before}{shown:?}{after}")
}

/// Writes two values between what stands before, between and after them.
fn about_two<T: fmt::Debug, U: fmt::Debug, W: fmt::Write>(
    f: &mut fmt::Formatter<W>,
    before: &str,
    first: &T,
    between: &str,
    second: &U,
    after: &str,
) -> fmt::Result {
    write!(f, "{before}{first:?}{between}{second:?}{after}")
}

impl From<ComposeError> for ExpressionError {
    ghost use Rattle.std.specs.Prelude.{◌≡◌};
    ghost use Rattle.naga_info.specs.declared.expression_error.ExpressionError.TheVariants as variant;

    ghost from_gives = { λ source error. error ≡ variant.Compose source };

    fn from(source: ComposeError) -> ExpressionError {
        ExpressionError::Compose(source)
    }
}

impl From<IndexableLengthError> for ExpressionError {
    ghost use Rattle.std.specs.Prelude.{◌≡◌};
    ghost use Rattle.naga_info.specs.declared.expression_error.ExpressionError.TheVariants as variant;

    ghost from_gives = { λ source error. error ≡ variant.IndexableLength source };

    fn from(source: IndexableLengthError) -> ExpressionError {
        ExpressionError::IndexableLength(source)
    }
}

impl From<ResolveError> for ExpressionError {
    ghost use Rattle.std.specs.Prelude.{◌≡◌};
    ghost use Rattle.naga_info.specs.declared.expression_error.ExpressionError.TheVariants as variant;

    ghost from_gives = { λ source error. error ≡ variant.Type_ source };

    fn from(source: ResolveError) -> ExpressionError {
        ExpressionError::Type_(source)
    }
}

impl From<LiteralError> for ExpressionError {
    ghost use Rattle.std.specs.Prelude.{◌≡◌};
    ghost use Rattle.naga_info.specs.declared.expression_error.ExpressionError.TheVariants as variant;

    ghost from_gives = { λ source error. error ≡ variant.Literal source };

    fn from(source: LiteralError) -> ExpressionError {
        ExpressionError::Literal(source)
    }
}

impl From<OutOfMemory> for ExpressionError {
    ghost use Rattle.std.specs.Prelude.{◌≡◌};
    ghost use Rattle.naga_info.specs.declared.expression_error.ExpressionError.TheVariants as variant;

    ghost from_gives = { λ _ error. error ≡ variant.OutOfMemory };

    fn from(_: OutOfMemory) -> ExpressionError {
        ExpressionError::OutOfMemory
    }
}
