//! The table of built-in values.

ghost use Rattle.std.specs.Prelude.{◌≡◌, ◌<◌};
ghost use Rattle.naga_interface.specs.BuiltIns as table;

use bitflags::Flags;
use naga_flags::flags::{Capabilities, ShaderStages};
use naga_ir::built_in::BuiltIn;
use naga_ir::types::{Scalar, VectorSize};

/// The type of a built-in value.
#[derive(Clone, Copy, Debug)]
pub enum BuiltInType {
    Scalar(Scalar),
    Vector { size: VectorSize, scalar: Scalar },
    /// An integer of 32 bits, signed or not.
    Either32,
    /// An array of at most 8 floating-point numbers of 32 bits, whose length the module says.
    Distances,
}

/// What the table says of a built-in value.
#[derive(Clone, Copy, Debug)]
pub struct BuiltInRow {
    /// The stages in which it is an input.
    pub inputs: ShaderStages,
    /// The stages in which it is an output.
    pub outputs: ShaderStages,
    pub ty: BuiltInType,
    /// What it needs besides the core of the language, or nothing.
    pub capability: Capabilities,
}

impl BuiltInType {
    /// A vector.
    fn vector(size: VectorSize, scalar: Scalar) -> BuiltInType
        ensures { result ≡ BuiltInType.Vector size scalar }
    {
        BuiltInType::Vector { size, scalar }
    }
}

impl BuiltInRow {
    /// The row of an input.
    fn input(stages: ShaderStages, ty: BuiltInType) -> BuiltInRow
        ensures { result ≡ table.row stages.0 0 ty 0 }
    {
        BuiltInRow {
            inputs: stages,
            outputs: ShaderStages::empty(),
            ty,
            capability: Capabilities::empty(),
        }
    }

    /// The row of an output.
    fn output(stages: ShaderStages, ty: BuiltInType) -> BuiltInRow
        ensures { result ≡ table.row 0 stages.0 ty 0 }
    {
        BuiltInRow {
            inputs: ShaderStages::empty(),
            outputs: stages,
            ty,
            capability: Capabilities::empty(),
        }
    }

    /// The row of an input that is an output of other stages too.
    fn and_output(self, outputs: ShaderStages) -> BuiltInRow
        ensures { result ≡ record self { outputs = outputs } }
    {
        BuiltInRow { outputs, ..self }
    }

    /// The row of a value that needs a capability.
    fn with(self, capability: Capabilities) -> BuiltInRow
        ensures { result ≡ record self { capability = capability } }
    {
        BuiltInRow { capability, ..self }
    }
}

/// What the table says of a built-in value (WGSL "Built-in Inputs and Outputs"; naga's `VaryingContext`): the stages in
/// which it is an input or an output, its type, and the capability that it needs. Stages of meshes and rays are not
/// covered, nor their values.
pub(crate) fn built_in_row(built_in: BuiltIn) -> BuiltInRow
    ensures { result ≡ table.built_in_row built_in }
{
    let vertex = ShaderStages::VERTEX;
    let fragment = ShaderStages::FRAGMENT;
    let compute = ShaderStages::COMPUTE;
    let one = BuiltInType::Scalar(Scalar::U32);
    let three = BuiltInType::vector(VectorSize::Tri, Scalar::U32);
    match built_in {
        BuiltIn::VertexIndex
        | BuiltIn::InstanceIndex
        | BuiltIn::BaseVertex
        | BuiltIn::BaseInstance => BuiltInRow::input(vertex, one),
        BuiltIn::DrawIndex => BuiltInRow::input(vertex, one).with(Capabilities::DRAW_INDEX),
        BuiltIn::Position { .. } => {
            let place = BuiltInType::vector(VectorSize::Quad, Scalar::F32);
            BuiltInRow::input(fragment, place).and_output(vertex)
        }
        BuiltIn::PointSize => BuiltInRow::output(vertex, BuiltInType::Scalar(Scalar::F32)),
        BuiltIn::PointCoord => {
            BuiltInRow::input(fragment, BuiltInType::vector(VectorSize::Bi, Scalar::F32))
        }
        BuiltIn::ClipDistances => {
            BuiltInRow::output(vertex, BuiltInType::Distances).with(Capabilities::CLIP_DISTANCES)
        }
        BuiltIn::CullDistance => {
            BuiltInRow::output(vertex, BuiltInType::Distances).with(Capabilities::CULL_DISTANCE)
        }
        BuiltIn::ViewIndex => BuiltInRow::input(vertex.union(fragment), BuiltInType::Either32).with(
            Capabilities::MULTIVIEW,
        ),
        BuiltIn::FragDepth => BuiltInRow::output(fragment, BuiltInType::Scalar(Scalar::F32)),
        BuiltIn::FrontFacing => BuiltInRow::input(fragment, BuiltInType::Scalar(Scalar::BOOL)),
        BuiltIn::PrimitiveIndex => {
            BuiltInRow::input(fragment, one).with(Capabilities::PRIMITIVE_INDEX)
        }
        BuiltIn::Barycentric { .. } => {
            BuiltInRow::input(fragment, BuiltInType::vector(VectorSize::Tri, Scalar::F32)).with(
                Capabilities::SHADER_BARYCENTRICS,
            )
        }
        BuiltIn::SampleIndex => {
            BuiltInRow::input(fragment, one).with(Capabilities::MULTISAMPLED_SHADING)
        }
        BuiltIn::SampleMask => BuiltInRow::input(fragment, one).and_output(fragment),
        BuiltIn::LocalInvocationIndex => BuiltInRow::input(compute, one),
        BuiltIn::LocalInvocationId
        | BuiltIn::GlobalInvocationId
        | BuiltIn::WorkGroupId
        | BuiltIn::WorkGroupSize
        | BuiltIn::NumWorkGroups => BuiltInRow::input(compute, three),
        BuiltIn::NumSubgroups | BuiltIn::SubgroupId => {
            BuiltInRow::input(compute, one).with(Capabilities::SUBGROUP)
        }
        BuiltIn::SubgroupSize | BuiltIn::SubgroupInvocationId => {
            BuiltInRow::input(compute.union(fragment), one).with(Capabilities::SUBGROUP)
        }
        BuiltIn::MeshTaskSize
        | BuiltIn::CullPrimitive
        | BuiltIn::PointIndex
        | BuiltIn::LineIndices
        | BuiltIn::TriangleIndices
        | BuiltIn::VertexCount
        | BuiltIn::Vertices
        | BuiltIn::PrimitiveCount
        | BuiltIn::Primitives
        | BuiltIn::RayInvocationId
        | BuiltIn::NumRayInvocations
        | BuiltIn::InstanceCustomData
        | BuiltIn::GeometryIndex
        | BuiltIn::WorldRayOrigin
        | BuiltIn::WorldRayDirection
        | BuiltIn::ObjectRayOrigin
        | BuiltIn::ObjectRayDirection
        | BuiltIn::RayTmin
        | BuiltIn::RayTCurrentMax
        | BuiltIn::ObjectToWorld
        | BuiltIn::WorldToObject
        | BuiltIn::HitKind => BuiltInRow::input(ShaderStages::empty(), one),
    }
}

/// Whether a built-in value is of a subgroup, and only defined in workgroups of one dimension.
pub(crate) fn is_of_one_dimension(built_in: BuiltIn) -> bool
    ensures { result ≡ table.is_of_one_dimension built_in }
{
    matches!(
        built_in,
        BuiltIn::NumSubgroups | BuiltIn::SubgroupId | BuiltIn::SubgroupInvocationId
    )
}

/// The number of a built-in value, which is the same whatever the value says besides: whether `Position` is invariant,
/// and how `Barycentric` is corrected.
pub(crate) fn plain_number(built_in: BuiltIn) -> u32
    ensures value { result ≡ table.plain_number built_in }
    ensures below { result < 64 }
{
    let plain = match built_in {
        BuiltIn::Position { .. } => BuiltIn::Position { invariant: false },
        BuiltIn::Barycentric { .. } => BuiltIn::Barycentric { perspective: false },
        _ => built_in,
    };
    plain.number()
}
