//! The numbers that words have for what errors hold.

ghost use Rattle.naga_words.specs.Tables.{accesses, binary_operators, components, dimensions, interpolations, kinds, math_functions, samplings, stages, storage_formats, unary_operators};
ghost use Rattle.naga_c.specs.Numbers.{access_number, binary_operator_number, bool_number, class_first, class_number, class_second, component_number, dimension_number, format_number, interpolation_number, math_function_number, sampling_number, scalar_kind_number, space_access, space_number, stage_number, unary_operator_number};
ghost use Rattle.std.specs.Prelude.{◌≡◌, Some, slice_get};

use naga_ir::expression::{BinaryOperator, MathFunction, SwizzleComponent, UnaryOperator};
use naga_ir::ir::ShaderStage;
use naga_ir::storage_format::StorageFormat;
use naga_ir::types::{
    AddressSpace, ImageClass, ImageDimension, Interpolation, Sampling, ScalarKind, StorageAccess,
};

/// The number of a kind of scalars.
pub(crate) fn scalar_kind_number(kind: ScalarKind) -> u64
    ensures value { result ≡ scalar_kind_number kind }
    ensures word { slice_get kinds result ≡ Some kind }
{
    match kind {
        ScalarKind::Sint => 0,
        ScalarKind::Uint => 1,
        ScalarKind::Float => 2,
        ScalarKind::Bool => 3,
        ScalarKind::AbstractInt => 4,
        ScalarKind::AbstractFloat => 5,
    }
}

/// The number of a dimension of images.
pub(crate) fn dimension_number(dimension: ImageDimension) -> u64
    ensures value { result ≡ dimension_number dimension }
    ensures word { slice_get dimensions result ≡ Some dimension }
{
    match dimension {
        ImageDimension::D1 => 0,
        ImageDimension::D2 => 1,
        ImageDimension::D3 => 2,
        ImageDimension::Cube => 3,
    }
}

/// The number of a component of vectors.
pub(crate) fn component_number(component: SwizzleComponent) -> u64
    ensures value { result ≡ component_number component }
    ensures word { slice_get components result ≡ Some component }
{
    match component {
        SwizzleComponent::X => 0,
        SwizzleComponent::Y => 1,
        SwizzleComponent::Z => 2,
        SwizzleComponent::W => 3,
    }
}

/// The number of an operator on one value.
pub(crate) fn unary_operator_number(operator: UnaryOperator) -> u64
    ensures value { result ≡ unary_operator_number operator }
    ensures word { slice_get unary_operators result ≡ Some operator }
{
    match operator {
        UnaryOperator::Negate => 0,
        UnaryOperator::LogicalNot => 1,
        UnaryOperator::BitwiseNot => 2,
    }
}

/// The number of an operator on two values.
pub(crate) fn binary_operator_number(operator: BinaryOperator) -> u64
    ensures value { result ≡ binary_operator_number operator }
    ensures word { slice_get binary_operators result ≡ Some operator }
{
    match operator {
        BinaryOperator::Add => 0,
        BinaryOperator::Subtract => 1,
        BinaryOperator::Multiply => 2,
        BinaryOperator::Divide => 3,
        BinaryOperator::Modulo => 4,
        BinaryOperator::Equal => 5,
        BinaryOperator::NotEqual => 6,
        BinaryOperator::Less => 7,
        BinaryOperator::LessEqual => 8,
        BinaryOperator::Greater => 9,
        BinaryOperator::GreaterEqual => 10,
        BinaryOperator::And => 11,
        BinaryOperator::ExclusiveOr => 12,
        BinaryOperator::InclusiveOr => 13,
        BinaryOperator::LogicalAnd => 14,
        BinaryOperator::LogicalOr => 15,
        BinaryOperator::ShiftLeft => 16,
        BinaryOperator::ShiftRight => 17,
    }
}

/// The number of a mathematical function.
pub(crate) fn math_function_number(function: MathFunction) -> u64
    ensures value { result ≡ math_function_number function }
    ensures word { slice_get math_functions result ≡ Some function }
{
    match function {
        MathFunction::Abs => 0,
        MathFunction::Min => 1,
        MathFunction::Max => 2,
        MathFunction::Clamp => 3,
        MathFunction::Saturate => 4,
        MathFunction::Cos => 5,
        MathFunction::Cosh => 6,
        MathFunction::Sin => 7,
        MathFunction::Sinh => 8,
        MathFunction::Tan => 9,
        MathFunction::Tanh => 10,
        MathFunction::Acos => 11,
        MathFunction::Asin => 12,
        MathFunction::Atan => 13,
        MathFunction::Atan2 => 14,
        MathFunction::Asinh => 15,
        MathFunction::Acosh => 16,
        MathFunction::Atanh => 17,
        MathFunction::Radians => 18,
        MathFunction::Degrees => 19,
        MathFunction::Ceil => 20,
        MathFunction::Floor => 21,
        MathFunction::Round => 22,
        MathFunction::Fract => 23,
        MathFunction::Trunc => 24,
        MathFunction::Exp => 25,
        MathFunction::Exp2 => 26,
        MathFunction::Log => 27,
        MathFunction::Log2 => 28,
        MathFunction::Pow => 29,
        MathFunction::Dot => 30,
        MathFunction::Cross => 31,
        MathFunction::Distance => 32,
        MathFunction::Length => 33,
        MathFunction::Normalize => 34,
        MathFunction::FaceForward => 35,
        MathFunction::Reflect => 36,
        MathFunction::Refract => 37,
        MathFunction::Sign => 38,
        MathFunction::Fma => 39,
        MathFunction::Mix => 40,
        MathFunction::Step => 41,
        MathFunction::SmoothStep => 42,
        MathFunction::Sqrt => 43,
        MathFunction::InverseSqrt => 44,
        MathFunction::Transpose => 45,
        MathFunction::Determinant => 46,
        MathFunction::QuantizeToF16 => 47,
        MathFunction::CountTrailingZeros => 48,
        MathFunction::CountLeadingZeros => 49,
        MathFunction::CountOneBits => 50,
        MathFunction::ReverseBits => 51,
        MathFunction::ExtractBits => 52,
        MathFunction::InsertBits => 53,
        MathFunction::FirstTrailingBit => 54,
        MathFunction::FirstLeadingBit => 55,
        MathFunction::Pack2x16float => 56,
        MathFunction::Unpack2x16float => 57,
        MathFunction::Modf => 58,
        MathFunction::Frexp => 59,
        MathFunction::Ldexp => 60,
        MathFunction::Dot4I8Packed => 61,
        MathFunction::Dot4U8Packed => 62,
        MathFunction::Outer => 63,
        MathFunction::Inverse => 64,
        MathFunction::Pack4x8snorm => 65,
        MathFunction::Pack4x8unorm => 66,
        MathFunction::Pack2x16snorm => 67,
        MathFunction::Pack2x16unorm => 68,
        MathFunction::Pack4xI8 => 69,
        MathFunction::Pack4xU8 => 70,
        MathFunction::Pack4xI8Clamp => 71,
        MathFunction::Pack4xU8Clamp => 72,
        MathFunction::Unpack4x8snorm => 73,
        MathFunction::Unpack4x8unorm => 74,
        MathFunction::Unpack2x16snorm => 75,
        MathFunction::Unpack2x16unorm => 76,
        MathFunction::Unpack4xI8 => 77,
        MathFunction::Unpack4xU8 => 78,
    }
}

/// The number of what may be done with storage: 1 for loads, 2 for stores and 4 for atomics, added.
pub(crate) fn access_number(access: StorageAccess) -> u64
    ensures value { result ≡ access_number access }
    ensures word { slice_get accesses result ≡ Some access }
{
    match (access.load, access.store, access.atomic) {
        (false, false, false) => 0,
        (true, false, false) => 1,
        (false, true, false) => 2,
        (true, true, false) => 3,
        (false, false, true) => 4,
        (true, false, true) => 5,
        (false, true, true) => 6,
        (true, true, true) => 7,
    }
}

/// The number of a format of storage images.
pub(crate) fn format_number(format: StorageFormat) -> u64
    ensures value { result ≡ format_number format }
    ensures word { slice_get storage_formats result ≡ Some format }
{
    match format {
        StorageFormat::R8Unorm => 0,
        StorageFormat::R8Snorm => 1,
        StorageFormat::R8Uint => 2,
        StorageFormat::R8Sint => 3,
        StorageFormat::R16Uint => 4,
        StorageFormat::R16Sint => 5,
        StorageFormat::R16Float => 6,
        StorageFormat::Rg8Unorm => 7,
        StorageFormat::Rg8Snorm => 8,
        StorageFormat::Rg8Uint => 9,
        StorageFormat::Rg8Sint => 10,
        StorageFormat::R32Uint => 11,
        StorageFormat::R32Sint => 12,
        StorageFormat::R32Float => 13,
        StorageFormat::Rg16Uint => 14,
        StorageFormat::Rg16Sint => 15,
        StorageFormat::Rg16Float => 16,
        StorageFormat::Rgba8Unorm => 17,
        StorageFormat::Rgba8Snorm => 18,
        StorageFormat::Rgba8Uint => 19,
        StorageFormat::Rgba8Sint => 20,
        StorageFormat::Bgra8Unorm => 21,
        StorageFormat::Rgb10a2Uint => 22,
        StorageFormat::Rgb10a2Unorm => 23,
        StorageFormat::Rg11b10Ufloat => 24,
        StorageFormat::R64Uint => 25,
        StorageFormat::Rg32Uint => 26,
        StorageFormat::Rg32Sint => 27,
        StorageFormat::Rg32Float => 28,
        StorageFormat::Rgba16Uint => 29,
        StorageFormat::Rgba16Sint => 30,
        StorageFormat::Rgba16Float => 31,
        StorageFormat::Rgba32Uint => 32,
        StorageFormat::Rgba32Sint => 33,
        StorageFormat::Rgba32Float => 34,
        StorageFormat::R16Unorm => 35,
        StorageFormat::R16Snorm => 36,
        StorageFormat::Rg16Unorm => 37,
        StorageFormat::Rg16Snorm => 38,
        StorageFormat::Rgba16Unorm => 39,
        StorageFormat::Rgba16Snorm => 40,
    }
}

/// The number of a bool.
pub(crate) fn bool_number(value: bool) -> u64
    ensures { result ≡ bool_number value }
{
    if value { 1 } else { 0 }
}

/// The number of an address space.
pub(crate) fn space_number(space: AddressSpace) -> u64
    ensures { result ≡ space_number space }
{
    match space {
        AddressSpace::Function => 0,
        AddressSpace::Private => 1,
        AddressSpace::WorkGroup => 2,
        AddressSpace::Uniform => 3,
        AddressSpace::Storage { .. } => 4,
        AddressSpace::Handle => 5,
        AddressSpace::Immediate => 6,
        AddressSpace::TaskPayload => 7,
        AddressSpace::RayPayload => 8,
        AddressSpace::IncomingRayPayload => 9,
    }
}

/// The number of what may be done with an address space, which only storage has.
pub(crate) fn space_access(space: AddressSpace) -> u64
    ensures { result ≡ space_access space }
{
    match space {
        AddressSpace::Storage { access } => access_number(access),
        AddressSpace::Function
        | AddressSpace::Private
        | AddressSpace::WorkGroup
        | AddressSpace::Uniform
        | AddressSpace::Handle
        | AddressSpace::Immediate
        | AddressSpace::TaskPayload
        | AddressSpace::RayPayload
        | AddressSpace::IncomingRayPayload => 0,
    }
}

/// The number of a class of images.
pub(crate) fn class_number(class: ImageClass) -> u64
    ensures { result ≡ class_number class }
{
    match class {
        ImageClass::Sampled { .. } => 0,
        ImageClass::Depth { .. } => 1,
        ImageClass::Storage { .. } => 2,
        ImageClass::External => 3,
    }
}

/// The first of the two words that follow the number of a class of images.
pub(crate) fn class_first(class: ImageClass) -> u64
    ensures { result ≡ class_first class }
{
    match class {
        ImageClass::Sampled { kind, .. } => scalar_kind_number(kind),
        ImageClass::Depth { multi } => bool_number(multi),
        ImageClass::Storage { format, .. } => format_number(format),
        ImageClass::External => 0,
    }
}

/// The second of the two words that follow the number of a class of images.
pub(crate) fn class_second(class: ImageClass) -> u64
    ensures { result ≡ class_second class }
{
    match class {
        ImageClass::Sampled { multi, .. } => bool_number(multi),
        ImageClass::Storage { access, .. } => access_number(access),
        ImageClass::Depth { .. } | ImageClass::External => 0,
    }
}

/// The number of how the value of a fragment is made.
pub(crate) fn interpolation_number(interpolation: Interpolation) -> u64
    ensures value { result ≡ interpolation_number interpolation }
    ensures word { slice_get interpolations result ≡ Some (Some interpolation) }
{
    match interpolation {
        Interpolation::Perspective => 1,
        Interpolation::Linear => 2,
        Interpolation::Flat => 3,
        Interpolation::PerVertex => 4,
    }
}

/// The number of where the value of a fragment is taken.
pub(crate) fn sampling_number(sampling: Sampling) -> u64
    ensures value { result ≡ sampling_number sampling }
    ensures word { slice_get samplings result ≡ Some (Some sampling) }
{
    match sampling {
        Sampling::Center => 1,
        Sampling::Centroid => 2,
        Sampling::Sample => 3,
        Sampling::First => 4,
        Sampling::Either => 5,
    }
}

/// The number of the stage of an entry point.
pub(crate) fn stage_number(stage: ShaderStage) -> u64
    ensures value { result ≡ stage_number stage }
    ensures word { slice_get stages result ≡ Some (Some stage) }
{
    match stage {
        ShaderStage::Vertex => 1,
        ShaderStage::Task => 2,
        ShaderStage::Mesh => 3,
        ShaderStage::Fragment => 4,
        ShaderStage::Compute => 5,
        ShaderStage::RayGeneration => 6,
        ShaderStage::Miss => 7,
        ShaderStage::AnyHit => 8,
        ShaderStage::ClosestHit => 9,
    }
}
