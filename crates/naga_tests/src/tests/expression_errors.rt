//! The texts of errors. A table is the list of the errors, and above it their texts, a line for each.

use super::assert_lines;
use naga_flags::flags::Capabilities;
use naga_flags::width::WidthError;
use naga_info::const_expression_error::{ConstExpressionError, LiteralError};
use naga_info::expression_error::ExpressionError;
use naga_ir::expression::{BinaryOperator, MathFunction, SwizzleComponent, UnaryOperator};
use naga_ir::handle::Handle;
use naga_ir::storage_format::StorageFormat;
use naga_ir::types::{
    ImageClass, ImageDimension, Scalar, ScalarKind, StorageAccess, TypeInner, VectorSize,
};
use naga_types::error::ComposeError;
use naga_typing::index::IndexableLengthError;
use naga_typing::typifier::ResolveError;

/// The variant of a scalar type.
fn scalar(scalar: Scalar) -> TypeInner {
    TypeInner::Scalar(scalar)
}

const CONST_EXPRESSIONS: &str = "The expression is not a constant or override expression
The expression is not a fully evaluated constant expression
Composing of type [2] can't be done
Splatting [3] can't be done
Type resolution failed
Abstract types may only appear in constant expressions
The Float scalar width 3 is not supported
";

#[test]
fn texts_of_errors_of_literals_and_global_expressions(rt: HostRuntime) {
    let width = WidthError::Invalid(ScalarKind::Float, 3);
    assert_lines(
        &rt,
        &[LiteralError::from(WidthError::Invalid(ScalarKind::Sint, 3))],
        "The Sint scalar width 3 is not supported\n",
    );
    assert_lines(
        &rt,
        &[
            ConstExpressionError::NonConstOrOverride,
            ConstExpressionError::NonFullyEvaluatedConst,
            ConstExpressionError::from(ComposeError::Type_(Handle::new(2))),
            ConstExpressionError::InvalidSplatType(Handle::new(3)),
            ConstExpressionError::from(ResolveError::NotResolvable),
            ConstExpressionError::from(LiteralError::Width(WidthError::Abstract)),
            ConstExpressionError::from(width),
        ],
        CONST_EXPRESSIONS,
    );
}

const VALUES: &str =
    "Used by a statement before it was introduced into the scope by any of the dominating blocks
Base type [3] is not compatible with this expression
Accessing with index [3] can't be done
Accessing [3] via a negative index is invalid
Accessing index 7 is out of [3] bounds
Array length is not a positive constant
Swizzling [3] can't be done
Swizzle component W is outside of vector size Tri
Function argument 7 doesn't exist
Loading of [3] can't be done
Array length of [3] can't be done
Get intersection of [3] can't be done
workgroupUniformLoad result type can't be [4]. It can only be a constructible type.
Type resolution failed
Composing of type [2] can't be done
Splatting [3] can't be done
Cannot construct zero value of [4] because it is not a constructible type
Abstract types may only appear in constant expressions
Shader requires capability Capabilities(FLOAT64)
Invalid operand for cooperative op
Unable to cast
Out of memory
";

#[test]
fn texts_of_errors_of_accesses_and_values(rt: HostRuntime) {
    assert_lines(
        &rt,
        &[
            ExpressionError::NotInScope,
            ExpressionError::InvalidBaseType(Handle::new(3)),
            ExpressionError::InvalidIndexType(Handle::new(3)),
            ExpressionError::NegativeIndex(Handle::new(3)),
            ExpressionError::IndexOutOfBounds(Handle::new(3), 7),
            ExpressionError::IndexableLength(IndexableLengthError::InvalidArrayLength),
            ExpressionError::InvalidVectorType(Handle::new(3)),
            ExpressionError::InvalidSwizzleComponent(SwizzleComponent::W, VectorSize::Tri),
            ExpressionError::FunctionArgumentDoesntExist(7),
            ExpressionError::InvalidPointerType(Handle::new(3)),
            ExpressionError::InvalidArrayType(Handle::new(3)),
            ExpressionError::InvalidRayQueryType(Handle::new(3)),
            ExpressionError::InvalidWorkGroupUniformLoadResultType(Handle::new(4)),
            ExpressionError::Type_(ResolveError::NotResolvable),
            ExpressionError::Compose(ComposeError::Type_(Handle::new(2))),
            ExpressionError::InvalidSplatType(Handle::new(3)),
            ExpressionError::InvalidZeroValue(Handle::new(4)),
            ExpressionError::Literal(LiteralError::Width(WidthError::Abstract)),
            ExpressionError::MissingCapabilities(Capabilities::FLOAT64),
            ExpressionError::InvalidCooperativeOperand(Handle::new(3)),
            ExpressionError::InvalidCastArgument,
            ExpressionError::OutOfMemory,
        ],
        VALUES,
    );
}

const OPERATORS: &str = "Operation Negate can't work with [3]
Operation Add can't work with [1] (of type Scalar(Scalar { kind: Float, width: 4 })) and [2] \
(of type Scalar(Scalar { kind: Bool, width: 1 }))
Shift amount exceeds the bit width of Scalar(Scalar { kind: Float, width: 4 })
Division by zero
Expected selection argument types to match, but reject value of type Scalar(Scalar { kind: Bool, width: 1 }) \
does not match accept value of value Scalar(Scalar { kind: Float, width: 4 })
Expected selection condition to be a boolean value, got Scalar(Scalar { kind: Float, width: 4 })
Derivatives can only be taken from scalar and vector floats
Relational argument [3] is not a boolean vector
Relational argument [3] is not a float
Invalid argument count for Min
Argument [7] to Min as expression [3] has an invalid type.
Min is not supported for Width 8 Sint arguments yet, see https://github.com/gfx-rs/wgpu/issues/5276
";

#[test]
fn texts_of_errors_of_operators_and_functions(rt: HostRuntime) {
    assert_lines(
        &rt,
        &[
            ExpressionError::InvalidUnaryOperandType(UnaryOperator::Negate, Handle::new(3)),
            ExpressionError::InvalidBinaryOperandTypes {
                op: BinaryOperator::Add,
                lhs_expr: Handle::new(1),
                lhs_type: scalar(Scalar::F32),
                rhs_expr: Handle::new(2),
                rhs_type: scalar(Scalar::BOOL),
            },
            ExpressionError::ShiftAmountTooLarge {
                lhs_type: scalar(Scalar::F32),
                rhs_expr: Handle::new(2),
            },
            ExpressionError::DivideByZero,
            ExpressionError::SelectValuesTypeMismatch {
                accept: scalar(Scalar::F32),
                reject: scalar(Scalar::BOOL),
            },
            ExpressionError::SelectConditionNotABool {
                actual: scalar(Scalar::F32),
            },
            ExpressionError::InvalidDerivative,
            ExpressionError::InvalidBooleanVector(Handle::new(3)),
            ExpressionError::InvalidFloatArgument(Handle::new(3)),
            ExpressionError::WrongArgumentCount(MathFunction::Min),
            ExpressionError::InvalidArgumentType(MathFunction::Min, 7, Handle::new(3)),
            ExpressionError::UnsupportedWidth(MathFunction::Min, ScalarKind::Sint, 8),
        ],
        OPERATORS,
    );
}

const IMAGES: &str = "Not a global variable
Not a global variable or a function argument
Needs to be an binding array instead of [4]
Needs to be an image instead of [4]
Needs to be an image instead of [4]
Unable to operate on image class External
Image atomics are not supported for storage format R16Sint
Image atomics require atomic storage access, \
StorageAccess { load: true, store: false, atomic: false } is insufficient
Image array index parameter is misplaced
Image array index type of [3] is not an integer scalar
Image sample or level-of-detail index's type of [3] is not an integer scalar
Image coordinate type of [3] does not match dimension Cube
Cannot textureLoad from a specific multisample sample on a non-multisampled image.
Cannot textureLoad from a multisampled image without specifying a sample.
Cannot textureLoad with a specific mip level on a non-mipmapped image.
Cannot textureLoad from a mipmapped image without specifying a level.
";

#[test]
fn texts_of_errors_of_images(rt: HostRuntime) {
    let access = StorageAccess {
        load: true,
        store: false,
        atomic: false,
    };
    let dim = ImageDimension::Cube;
    assert_lines(
        &rt,
        &[
            ExpressionError::ExpectedGlobalVariable,
            ExpressionError::ExpectedGlobalOrArgument,
            ExpressionError::ExpectedBindingArrayType(Handle::new(4)),
            ExpressionError::ExpectedImageType(Handle::new(4)),
            ExpressionError::ExpectedSamplerType(Handle::new(4)),
            ExpressionError::InvalidImageClass(ImageClass::External),
            ExpressionError::InvalidImageFormat(StorageFormat::R16Sint),
            ExpressionError::InvalidImageStorageAccess(access),
            ExpressionError::InvalidImageArrayIndex,
            ExpressionError::InvalidImageArrayIndexType(Handle::new(3)),
            ExpressionError::InvalidImageOtherIndexType(Handle::new(3)),
            ExpressionError::InvalidImageCoordinateType(dim, Handle::new(3)),
            ExpressionError::InvalidImageSampleSelector,
            ExpressionError::MissingImageSampleSelector,
            ExpressionError::InvalidImageLevelSelector,
            ExpressionError::MissingImageLevelSelector,
        ],
        IMAGES,
    );
}

const SAMPLES: &str = "Sample offset must be a const-expression
Sample offset constant [3] doesn't match the image dimension Cube
Comparison sampling mismatch: image has class Depth { multi: false }, but the sampler is comparison=true, \
and the reference was provided=false
Depth reference [3] is not a scalar float
Depth sample level can only be Auto or Zero
Clamping sample coordinate to edge is not supported with a gather
Gather level can only be Zero
Gather component W doesn't exist in the image
Gather can't be done for image dimension Cube
Sample level (exact) type [3] has an invalid type
Sample level (bias) type [3] is not a scalar float
Bias can't be done for image dimension Cube
Sample level (gradient) of [3] doesn't match the image dimension Cube
";

#[test]
fn texts_of_errors_of_samples(rt: HostRuntime) {
    let what = String::from_str(rt.alloc(), "a gather").expect(&rt, "memory");
    let dim = ImageDimension::Cube;
    assert_lines(
        &rt,
        &[
            ExpressionError::InvalidSampleOffsetExprType,
            ExpressionError::InvalidSampleOffset(dim, Handle::new(3)),
            ExpressionError::ComparisonSamplingMismatch {
                image: ImageClass::Depth { multi: false },
                sampler: true,
                has_ref: false,
            },
            ExpressionError::InvalidDepthReference(Handle::new(3)),
            ExpressionError::InvalidDepthSampleLevel,
            ExpressionError::InvalidSampleClampCoordinateToEdge(what),
            ExpressionError::InvalidGatherLevel,
            ExpressionError::InvalidGatherComponent(SwizzleComponent::W),
            ExpressionError::InvalidGatherDimension(dim),
            ExpressionError::InvalidSampleLevelExactType(Handle::new(3)),
            ExpressionError::InvalidSampleLevelBiasType(Handle::new(3)),
            ExpressionError::InvalidSampleLevelBiasDimension(dim),
            ExpressionError::InvalidSampleLevelGradientType(dim, Handle::new(3)),
        ],
        SAMPLES,
    );
}

/// The error on a condition of this type.
fn not_a_bool(actual: Scalar) -> ExpressionError {
    ExpressionError::SelectConditionNotABool {
        actual: scalar(actual),
    }
}

#[test]
fn errors_of_expressions_are_equal_by_variant_and_fields(rt: HostRuntime) {
    let base = ExpressionError::InvalidBaseType(Handle::new(3));
    let same_base = ExpressionError::InvalidBaseType(Handle::new(3));
    let other_base = ExpressionError::InvalidBaseType(Handle::new(4));
    let index = ExpressionError::InvalidIndexType(Handle::new(3));
    let float = not_a_bool(Scalar::F32);
    let same_float = not_a_bool(Scalar::F32);
    let bool = not_a_bool(Scalar::BOOL);
    for (one, other, are_equal) in [
        (
            &ExpressionError::DivideByZero,
            &ExpressionError::DivideByZero,
            true,
        ),
        (&base, &same_base, true),
        (&float, &same_float, true),
        (
            &ExpressionError::DivideByZero,
            &ExpressionError::OutOfMemory,
            false,
        ),
        (&base, &other_base, false),
        (&base, &index, false),
        (&float, &bool, false),
    ] {
        assert!(rt; (one == other) == are_equal, "{one:?}, {other:?}");
    }
}
