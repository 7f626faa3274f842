//! The values that a pipeline itself gives to shaders or takes from them.

ghost use Rattle.std.specs.Prelude.{◌≡◌, slice_get};
ghost use Rattle.naga_ir.specs.BuiltIns.{built_ins, number};

use std::hash::{Hash, Hasher};

/// A value that the pipeline itself gives or takes (WGSL, "Built-in Inputs and Outputs"; naga, `BuiltIn`).
#[derive(Clone, Copy, Debug)]
pub enum BuiltIn {
    /// The position of a vertex in clip space, or of a fragment.
    Position {
        /// Whether equal computations give equal bits.
        invariant: bool,
    },
    /// The index of the view, of several.
    ViewIndex,
    /// The index of the first instance.
    BaseInstance,
    /// What is added to an index to get that of a vertex.
    BaseVertex,
    /// Distances to planes at which primitives are cut.
    ClipDistances,
    /// Distances to planes behind which primitives are left out.
    CullDistance,
    /// The index of the instance.
    InstanceIndex,
    /// The size of a point.
    PointSize,
    /// The index of the vertex.
    VertexIndex,
    /// The index of the draw call, of several.
    DrawIndex,
    /// The depth of a fragment.
    FragDepth,
    /// Where in a point a fragment is.
    PointCoord,
    /// Whether a fragment is of a front face.
    FrontFacing,
    /// The index of the primitive.
    PrimitiveIndex,
    /// Where in its triangle a fragment is.
    Barycentric {
        /// Whether with the correction for perspective.
        perspective: bool,
    },
    /// The index of the sample.
    SampleIndex,
    /// The samples that a fragment covers.
    SampleMask,
    /// The place of the invocation in the grid.
    GlobalInvocationId,
    /// The place of the invocation in its workgroup.
    LocalInvocationId,
    /// The index of the invocation in its workgroup.
    LocalInvocationIndex,
    /// The place of the workgroup in the grid.
    WorkGroupId,
    /// The size of a workgroup.
    WorkGroupSize,
    /// How many workgroups there are.
    NumWorkGroups,
    /// How many subgroups the workgroup has.
    NumSubgroups,
    /// The index of the subgroup in its workgroup.
    SubgroupId,
    /// The size of a subgroup.
    SubgroupSize,
    /// The index of the invocation in its subgroup.
    SubgroupInvocationId,
    /// How many mesh workgroups a task shader starts.
    MeshTaskSize,
    /// Whether a primitive of a mesh is left out.
    CullPrimitive,
    /// The vertex of a point of a mesh.
    PointIndex,
    /// The vertices of a line of a mesh.
    LineIndices,
    /// The vertices of a triangle of a mesh.
    TriangleIndices,
    /// How many vertices a mesh has.
    VertexCount,
    /// The vertices of a mesh.
    Vertices,
    /// How many primitives a mesh has.
    PrimitiveCount,
    /// The primitives of a mesh.
    Primitives,
    /// The place of the ray in the grid.
    RayInvocationId,
    /// How many rays there are.
    NumRayInvocations,
    /// What the host said of the instance.
    InstanceCustomData,
    /// The index of the geometry.
    GeometryIndex,
    /// Where the ray begins, in the world.
    WorldRayOrigin,
    /// Where the ray goes, in the world.
    WorldRayDirection,
    /// Where the ray begins, in the space of the object.
    ObjectRayOrigin,
    /// Where the ray goes, in the space of the object.
    ObjectRayDirection,
    /// The least distance along the ray.
    RayTmin,
    /// The greatest distance along the ray so far.
    RayTCurrentMax,
    /// From the space of the object to the world.
    ObjectToWorld,
    /// From the world to the space of the object.
    WorldToObject,
    /// What was hit.
    HitKind,
}

/// The value at the place of a number in a table, if there is one.
fn chosen<T: Copy>(table: &[T], number: u32) -> Option<T>
    ensures { result ≡ slice_get table.now number }
{
    match table.get(number as usize) {
        Some(value) => Some(*value),
        None => None,
    }
}

impl BuiltIn {
    /// Its number in texts and words.
    pub fn number(self) -> u32
        ensures { result ≡ number self }
    {
        match self {
            BuiltIn::Position { invariant: false } => 0,
            BuiltIn::Position { invariant: true } => 1,
            BuiltIn::ViewIndex => 2,
            BuiltIn::BaseInstance => 3,
            BuiltIn::BaseVertex => 4,
            BuiltIn::ClipDistances => 5,
            BuiltIn::CullDistance => 6,
            BuiltIn::InstanceIndex => 7,
            BuiltIn::PointSize => 8,
            BuiltIn::VertexIndex => 9,
            BuiltIn::DrawIndex => 10,
            BuiltIn::FragDepth => 11,
            BuiltIn::PointCoord => 12,
            BuiltIn::FrontFacing => 13,
            BuiltIn::PrimitiveIndex => 14,
            BuiltIn::Barycentric { perspective: false } => 15,
            BuiltIn::Barycentric { perspective: true } => 16,
            BuiltIn::SampleIndex => 17,
            BuiltIn::SampleMask => 18,
            BuiltIn::GlobalInvocationId => 19,
            BuiltIn::LocalInvocationId => 20,
            BuiltIn::LocalInvocationIndex => 21,
            BuiltIn::WorkGroupId => 22,
            BuiltIn::WorkGroupSize => 23,
            BuiltIn::NumWorkGroups => 24,
            BuiltIn::NumSubgroups => 25,
            BuiltIn::SubgroupId => 26,
            BuiltIn::SubgroupSize => 27,
            BuiltIn::SubgroupInvocationId => 28,
            BuiltIn::MeshTaskSize => 29,
            BuiltIn::CullPrimitive => 30,
            BuiltIn::PointIndex => 31,
            BuiltIn::LineIndices => 32,
            BuiltIn::TriangleIndices => 33,
            BuiltIn::VertexCount => 34,
            BuiltIn::Vertices => 35,
            BuiltIn::PrimitiveCount => 36,
            BuiltIn::Primitives => 37,
            BuiltIn::RayInvocationId => 38,
            BuiltIn::NumRayInvocations => 39,
            BuiltIn::InstanceCustomData => 40,
            BuiltIn::GeometryIndex => 41,
            BuiltIn::WorldRayOrigin => 42,
            BuiltIn::WorldRayDirection => 43,
            BuiltIn::ObjectRayOrigin => 44,
            BuiltIn::ObjectRayDirection => 45,
            BuiltIn::RayTmin => 46,
            BuiltIn::RayTCurrentMax => 47,
            BuiltIn::ObjectToWorld => 48,
            BuiltIn::WorldToObject => 49,
            BuiltIn::HitKind => 50,
        }
    }

    /// The value of a number, if one has it.
    pub fn from_number(number: u32) -> Option<BuiltIn>
        ensures { result ≡ slice_get built_ins number }
    {
        chosen(
            &[
                BuiltIn::Position { invariant: false },
                BuiltIn::Position { invariant: true },
                BuiltIn::ViewIndex,
                BuiltIn::BaseInstance,
                BuiltIn::BaseVertex,
                BuiltIn::ClipDistances,
                BuiltIn::CullDistance,
                BuiltIn::InstanceIndex,
                BuiltIn::PointSize,
                BuiltIn::VertexIndex,
                BuiltIn::DrawIndex,
                BuiltIn::FragDepth,
                BuiltIn::PointCoord,
                BuiltIn::FrontFacing,
                BuiltIn::PrimitiveIndex,
                BuiltIn::Barycentric { perspective: false },
                BuiltIn::Barycentric { perspective: true },
                BuiltIn::SampleIndex,
                BuiltIn::SampleMask,
                BuiltIn::GlobalInvocationId,
                BuiltIn::LocalInvocationId,
                BuiltIn::LocalInvocationIndex,
                BuiltIn::WorkGroupId,
                BuiltIn::WorkGroupSize,
                BuiltIn::NumWorkGroups,
                BuiltIn::NumSubgroups,
                BuiltIn::SubgroupId,
                BuiltIn::SubgroupSize,
                BuiltIn::SubgroupInvocationId,
                BuiltIn::MeshTaskSize,
                BuiltIn::CullPrimitive,
                BuiltIn::PointIndex,
                BuiltIn::LineIndices,
                BuiltIn::TriangleIndices,
                BuiltIn::VertexCount,
                BuiltIn::Vertices,
                BuiltIn::PrimitiveCount,
                BuiltIn::Primitives,
                BuiltIn::RayInvocationId,
                BuiltIn::NumRayInvocations,
                BuiltIn::InstanceCustomData,
                BuiltIn::GeometryIndex,
                BuiltIn::WorldRayOrigin,
                BuiltIn::WorldRayDirection,
                BuiltIn::ObjectRayOrigin,
                BuiltIn::ObjectRayDirection,
                BuiltIn::RayTmin,
                BuiltIn::RayTCurrentMax,
                BuiltIn::ObjectToWorld,
                BuiltIn::WorldToObject,
                BuiltIn::HitKind,
            ],
            number,
        )
    }
}

impl PartialEq for BuiltIn {
    ghost use Rattle.std.specs.Prelude.{◌==◌};
    ghost use Rattle.std.proofs.Common.{rules};
    ghost use Rattle.std.specs.Cmp.Rules.{comparing};
    ghost use Rattle.std.specs.Ordering.{on};
    ghost use Rattle.naga_ir.specs.BuiltIns.{number};

    ghost eq = { on number ◌==◌ };

    ghost laws = { Prim.search (comparing, rules) };

    fn eq(&self, other: &BuiltIn) -> bool {
        self.number() == other.number()
    }
}

impl Eq for BuiltIn {
    ghost use Rattle.std.proofs.Common.{rules};
    ghost use Rattle.std.specs.Cmp.Rules.{comparing};

    ghost laws = { Prim.search (comparing, rules) };
}

impl Hash for BuiltIn {
    ghost use Rattle.std.proofs.Common.{rules};
    ghost use Rattle.std.specs.Cmp.Rules.{hashing};
    ghost use Rattle.std.specs.Hash as fed;
    ghost use Rattle.naga_ir.specs.BuiltIns.{number};

    ghost hash_input = { λ b. fed.u32 (number b) };

    ghost respects_eq = { Prim.search (hashing, rules) };

    fn hash<H: Hasher>(&self, state: &mut H) {
        self.number().hash(state);
    }
}
