//! The values that words stand for: a word is the place of its value in a table.

ghost use Rattle.naga_words.specs.Tables.{barriers, collective_operations, early_depth_tests, interpolations, memory_decorations, samplings, stages, storage_formats, topologies};
ghost use Rattle.naga_ir.specs.declared.ir.EarlyDepthTest.TheVariants.{Allow};
ghost use Rattle.std.specs.Prelude.{◌≡◌, Some, slice_get};

use crate::operands::chosen;
use naga_ir::expression::MathFunction;
use naga_ir::ir::{
    ConservativeDepth, EarlyDepthTest, MemoryDecorations, MeshOutputTopology, ShaderStage,
};
use naga_ir::statement::{Barrier, CollectiveOperation};
use naga_ir::storage_format::StorageFormat;
use naga_ir::types::{Interpolation, Sampling};

/// How the value of a fragment is made, if that is said.
pub(crate) fn interpolation(word: u32) -> Option<Option<Interpolation>>
    ensures { result ≡ slice_get interpolations word }
{
    chosen(
        &[
            None,
            Some(Interpolation::Perspective),
            Some(Interpolation::Linear),
            Some(Interpolation::Flat),
            Some(Interpolation::PerVertex),
        ],
        word,
    )
}

/// Where the value of a fragment is taken, if that is said.
pub(crate) fn sampling(word: u32) -> Option<Option<Sampling>>
    ensures { result ≡ slice_get samplings word }
{
    chosen(
        &[
            None,
            Some(Sampling::Center),
            Some(Sampling::Centroid),
            Some(Sampling::Sample),
            Some(Sampling::First),
            Some(Sampling::Either),
        ],
        word,
    )
}

/// The format of a storage image.
pub(crate) fn storage_format(word: u32) -> Option<StorageFormat>
    ensures { result ≡ slice_get storage_formats word }
{
    chosen(
        &[
            StorageFormat::R8Unorm,
            StorageFormat::R8Snorm,
            StorageFormat::R8Uint,
            StorageFormat::R8Sint,
            StorageFormat::R16Uint,
            StorageFormat::R16Sint,
            StorageFormat::R16Float,
            StorageFormat::Rg8Unorm,
            StorageFormat::Rg8Snorm,
            StorageFormat::Rg8Uint,
            StorageFormat::Rg8Sint,
            StorageFormat::R32Uint,
            StorageFormat::R32Sint,
            StorageFormat::R32Float,
            StorageFormat::Rg16Uint,
            StorageFormat::Rg16Sint,
            StorageFormat::Rg16Float,
            StorageFormat::Rgba8Unorm,
            StorageFormat::Rgba8Snorm,
            StorageFormat::Rgba8Uint,
            StorageFormat::Rgba8Sint,
            StorageFormat::Bgra8Unorm,
            StorageFormat::Rgb10a2Uint,
            StorageFormat::Rgb10a2Unorm,
            StorageFormat::Rg11b10Ufloat,
            StorageFormat::R64Uint,
            StorageFormat::Rg32Uint,
            StorageFormat::Rg32Sint,
            StorageFormat::Rg32Float,
            StorageFormat::Rgba16Uint,
            StorageFormat::Rgba16Sint,
            StorageFormat::Rgba16Float,
            StorageFormat::Rgba32Uint,
            StorageFormat::Rgba32Sint,
            StorageFormat::Rgba32Float,
            StorageFormat::R16Unorm,
            StorageFormat::R16Snorm,
            StorageFormat::Rg16Unorm,
            StorageFormat::Rg16Snorm,
            StorageFormat::Rgba16Unorm,
            StorageFormat::Rgba16Snorm,
        ],
        word,
    )
}

/// What holds of each access to a variable.
fn decorations(coherent: bool, is_volatile: bool) -> MemoryDecorations
    ensures { result ≡ record { coherent = coherent; is_volatile = is_volatile } }
{
    MemoryDecorations {
        coherent,
        is_volatile,
    }
}

/// What holds of each access to a variable: the sum of 1 if it is coherent and 2 if it is volatile.
pub(crate) fn memory_decorations(word: u32) -> Option<MemoryDecorations>
    ensures { result ≡ slice_get memory_decorations word }
{
    chosen(
        &[
            decorations(false, false),
            decorations(true, false),
            decorations(false, true),
            decorations(true, true),
        ],
        word,
    )
}

/// A stage of a pipeline, or none.
pub(crate) fn stage(word: u32) -> Option<Option<ShaderStage>>
    ensures { result ≡ slice_get stages word }
{
    chosen(
        &[
            None,
            Some(ShaderStage::Vertex),
            Some(ShaderStage::Task),
            Some(ShaderStage::Mesh),
            Some(ShaderStage::Fragment),
            Some(ShaderStage::Compute),
            Some(ShaderStage::RayGeneration),
            Some(ShaderStage::Miss),
            Some(ShaderStage::AnyHit),
            Some(ShaderStage::ClosestHit),
        ],
        word,
    )
}

/// A test of depths that a shader may have early, since it keeps a promise.
fn allow(conservative: ConservativeDepth) -> Option<EarlyDepthTest>
    ensures { result ≡ Some (Allow conservative) }
{
    Some(EarlyDepthTest::Allow { conservative })
}

/// Whether depths are tested early, if that is said.
pub(crate) fn early_depth_test(word: u32) -> Option<Option<EarlyDepthTest>>
    ensures { result ≡ slice_get early_depth_tests word }
{
    chosen(
        &[
            None,
            Some(EarlyDepthTest::Force),
            allow(ConservativeDepth::GreaterEqual),
            allow(ConservativeDepth::LessEqual),
            allow(ConservativeDepth::Unchanged),
        ],
        word,
    )
}

/// What the primitives of a mesh are.
pub(crate) fn topology(word: u32) -> Option<MeshOutputTopology>
    ensures { result ≡ slice_get topologies word }
{
    chosen(
        &[
            MeshOutputTopology::Points,
            MeshOutputTopology::Lines,
            MeshOutputTopology::Triangles,
        ],
        word,
    )
}

/// For which invocations a subgroup makes one value of many.
pub(crate) fn collective_operation(word: u32) -> Option<CollectiveOperation>
    ensures { result ≡ slice_get collective_operations word }
{
    chosen(
        &[
            CollectiveOperation::Reduce,
            CollectiveOperation::InclusiveScan,
            CollectiveOperation::ExclusiveScan,
        ],
        word,
    )
}

/// The memory of a barrier.
fn memory(storage: bool, work_group: bool, sub_group: bool, texture: bool) -> Barrier
    ensures { result ≡ record { storage = storage; work_group = work_group; sub_group = sub_group; texture = texture } }
{
    Barrier {
        storage,
        work_group,
        sub_group,
        texture,
    }
}

/// The memory of a barrier: the sum of 1 for storage buffers, 2 for the workgroup, 4 for the subgroup, 8 for storage
/// images.
pub(crate) fn memory_of_barrier(word: u32) -> Option<Barrier>
    ensures { result ≡ slice_get barriers word }
{
    chosen(
        &[
            memory(false, false, false, false),
            memory(true, false, false, false),
            memory(false, true, false, false),
            memory(true, true, false, false),
            memory(false, false, true, false),
            memory(true, false, true, false),
            memory(false, true, true, false),
            memory(true, true, true, false),
            memory(false, false, false, true),
            memory(true, false, false, true),
            memory(false, true, false, true),
            memory(true, true, false, true),
            memory(false, false, true, true),
            memory(true, false, true, true),
            memory(false, true, true, true),
            memory(true, true, true, true),
        ],
        word,
    )
}

/// The mathematical functions, in the order of their numbers.
pub(crate) const MATH_FUNCTIONS: [MathFunction; 79] = [
    MathFunction::Abs,
    MathFunction::Min,
    MathFunction::Max,
    MathFunction::Clamp,
    MathFunction::Saturate,
    MathFunction::Cos,
    MathFunction::Cosh,
    MathFunction::Sin,
    MathFunction::Sinh,
    MathFunction::Tan,
    MathFunction::Tanh,
    MathFunction::Acos,
    MathFunction::Asin,
    MathFunction::Atan,
    MathFunction::Atan2,
    MathFunction::Asinh,
    MathFunction::Acosh,
    MathFunction::Atanh,
    MathFunction::Radians,
    MathFunction::Degrees,
    MathFunction::Ceil,
    MathFunction::Floor,
    MathFunction::Round,
    MathFunction::Fract,
    MathFunction::Trunc,
    MathFunction::Exp,
    MathFunction::Exp2,
    MathFunction::Log,
    MathFunction::Log2,
    MathFunction::Pow,
    MathFunction::Dot,
    MathFunction::Cross,
    MathFunction::Distance,
    MathFunction::Length,
    MathFunction::Normalize,
    MathFunction::FaceForward,
    MathFunction::Reflect,
    MathFunction::Refract,
    MathFunction::Sign,
    MathFunction::Fma,
    MathFunction::Mix,
    MathFunction::Step,
    MathFunction::SmoothStep,
    MathFunction::Sqrt,
    MathFunction::InverseSqrt,
    MathFunction::Transpose,
    MathFunction::Determinant,
    MathFunction::QuantizeToF16,
    MathFunction::CountTrailingZeros,
    MathFunction::CountLeadingZeros,
    MathFunction::CountOneBits,
    MathFunction::ReverseBits,
    MathFunction::ExtractBits,
    MathFunction::InsertBits,
    MathFunction::FirstTrailingBit,
    MathFunction::FirstLeadingBit,
    MathFunction::Pack2x16float,
    MathFunction::Unpack2x16float,
    MathFunction::Modf,
    MathFunction::Frexp,
    MathFunction::Ldexp,
    MathFunction::Dot4I8Packed,
    MathFunction::Dot4U8Packed,
    MathFunction::Outer,
    MathFunction::Inverse,
    MathFunction::Pack4x8snorm,
    MathFunction::Pack4x8unorm,
    MathFunction::Pack2x16snorm,
    MathFunction::Pack2x16unorm,
    MathFunction::Pack4xI8,
    MathFunction::Pack4xU8,
    MathFunction::Pack4xI8Clamp,
    MathFunction::Pack4xU8Clamp,
    MathFunction::Unpack4x8snorm,
    MathFunction::Unpack4x8unorm,
    MathFunction::Unpack2x16snorm,
    MathFunction::Unpack2x16unorm,
    MathFunction::Unpack4xI8,
    MathFunction::Unpack4xU8,
];
