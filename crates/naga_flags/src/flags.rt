//! The sets of flags: what is validated, what shaders may use, what types may be used for.
//!
//! Contracts see a set as the number of its bits, in its field `0`.

use bitflags::parser::{WriteHex, to_writer};
use bitflags::{Flag, Flags, bitflag_items};
use std::fmt;

/// Shows a set of flags by the names of those in it, as in `Capabilities(RAY_QUERY | SUBGROUP)`.
fn debug_names<B: Flags, W: fmt::Write>(
    f: &mut fmt::Formatter<W>,
    set: &str,
    flags: &B,
) -> fmt::Result
where
    <B as Flags>::Bits: WriteHex,
{
    f.write_str(set)?;
    f.write_str("(")?;
    if flags.is_empty() {
        f.write_str("0x0")?;
    } else {
        to_writer(flags, f)?;
    }
    f.write_str(")")
}

/// Which parts of a module a validator validates.
#[derive(Clone, Copy, PartialEq, Eq)]
pub struct ValidationFlags(u8);

bitflag_items! {
    impl ValidationFlags: u8 {
        /// Expressions of functions.
        const EXPRESSIONS = 0x1;
        /// Statements and the blocks that they stand in.
        const BLOCKS = 0x2;
        /// Uniformity of control flow where derivatives or barriers need it.
        const CONTROL_FLOW_UNIFORMITY = 0x4;
        /// Layouts of structs that hosts share.
        const STRUCT_LAYOUTS = 0x8;
        /// Global expressions, constants and overrides.
        const CONSTANTS = 0x10;
        /// Bindings of global variables and of entry points.
        const BINDINGS = 0x20;
    }
}

impl Flags for ValidationFlags {
    ghost use Rattle.std.specs.Prelude.{⊤};
    ghost use Rattle.naga_flags.specs.Flags.{validation_flags};

    type Bits = u8;

    ghost exact = { ⊤ };

    ghost table = { validation_flags };

    ghost set_of = { λ flags. flags.0 };

    fn flags<'a>() -> &'a [Flag<ValidationFlags>] {
        ValidationFlags::FLAGS
    }

    fn bits(&self) -> u8 {
        self.0
    }

    fn from_bits_retain(bits: u8) -> ValidationFlags {
        ValidationFlags(bits)
    }
}

impl fmt::Debug for ValidationFlags {
    fn fmt<W: fmt::Write>(&self, f: &mut fmt::Formatter<W>) -> fmt::Result {
        debug_names(f, "ValidationFlags", self)
    }
}

impl Default for ValidationFlags {
    ghost use Rattle.std.specs.Prelude.{◌≡◌};
    ghost use Rattle.naga_flags.specs.Bits.{all_validation_flags};

    ghost is_default = { λ flags. flags ≡ record { 0 = all_validation_flags } };

    /// All flags.
    fn default() -> ValidationFlags {
        ValidationFlags(0x3f)
    }
}

/// What a shader may use beyond the core of the language: naga's `Capabilities`.
#[derive(Clone, Copy, PartialEq, Eq)]
pub struct Capabilities(u64);

bitflag_items! {
    impl Capabilities: u64 {
        /// Immediates, small values that come with a draw or dispatch call.
        const IMMEDIATES = 0x1;
        /// Floating-point numbers of 64 bits.
        const FLOAT64 = 0x2;
        /// The index of a primitive, as a built-in value.
        const PRIMITIVE_INDEX = 0x4;
        /// Binding arrays of sampled textures and samplers.
        const TEXTURE_AND_SAMPLER_BINDING_ARRAY = 0x8;
        /// Binding arrays of uniform buffers.
        const BUFFER_BINDING_ARRAY = 0x10;
        /// Binding arrays of storage textures.
        const STORAGE_TEXTURE_BINDING_ARRAY = 0x20;
        /// Binding arrays of storage buffers.
        const STORAGE_BUFFER_BINDING_ARRAY = 0x40;
        /// Clip distances, as a built-in value.
        const CLIP_DISTANCES = 0x80;
        /// Cull distances, as a built-in value.
        const CULL_DISTANCE = 0x100;
        /// Storage textures of normalized 16-bit formats.
        const STORAGE_TEXTURE_16BIT_NORM_FORMATS = 0x200;
        /// Rendering to several views at once.
        const MULTIVIEW = 0x400;
        /// Depth tests before the fragment shader.
        const EARLY_DEPTH_TEST = 0x800;
        /// Shading by the sample.
        const MULTISAMPLED_SHADING = 0x1000;
        /// Ray queries and acceleration structures.
        const RAY_QUERY = 0x2000;
        /// Two sources for blending.
        const DUAL_SOURCE_BLENDING = 0x4000;
        /// Arrays of cube textures.
        const CUBE_ARRAY_TEXTURES = 0x8000;
        /// Integers of 64 bits.
        const SHADER_INT64 = 0x1_0000;
        /// Subgroup operations in fragment and compute shaders.
        const SUBGROUP = 0x2_0000;
        /// Subgroup barriers.
        const SUBGROUP_BARRIER = 0x4_0000;
        /// Subgroup operations in vertex shaders.
        const SUBGROUP_VERTEX_STAGE = 0x8_0000;
        /// Minimum and maximum on atomic integers of 64 bits.
        const SHADER_INT64_ATOMIC_MIN_MAX = 0x10_0000;
        /// All operations on atomic integers of 64 bits.
        const SHADER_INT64_ATOMIC_ALL_OPS = 0x20_0000;
        /// Atomic floating-point numbers of 32 bits.
        const SHADER_FLOAT32_ATOMIC = 0x40_0000;
        /// Atomic operations on textures.
        const TEXTURE_ATOMIC = 0x80_0000;
        /// Atomic operations on textures of 64-bit integers.
        const TEXTURE_INT64_ATOMIC = 0x100_0000;
        /// The vertex positions of a triangle that a ray hit.
        const RAY_HIT_VERTEX_POSITION = 0x200_0000;
        /// Floating-point numbers of 16 bits.
        const SHADER_FLOAT16 = 0x400_0000;
        /// External textures.
        const TEXTURE_EXTERNAL = 0x800_0000;
        /// Rounding to 16-bit floating-point numbers that stand in 32 bits.
        const SHADER_FLOAT16_IN_FLOAT32 = 0x1000_0000;
        /// Barycentric coordinates, as a built-in value.
        const SHADER_BARYCENTRICS = 0x2000_0000;
        /// Mesh and task shaders.
        const MESH_SHADER = 0x4000_0000;
        /// Mesh shaders that emit points.
        const MESH_SHADER_POINT_TOPOLOGY = 0x8000_0000;
        /// Non-uniform indexing of binding arrays of sampled textures and samplers.
        const TEXTURE_AND_SAMPLER_BINDING_ARRAY_NON_UNIFORM_INDEXING = 0x1_0000_0000;
        /// Non-uniform indexing of binding arrays of uniform buffers.
        const BUFFER_BINDING_ARRAY_NON_UNIFORM_INDEXING = 0x2_0000_0000;
        /// Non-uniform indexing of binding arrays of storage textures.
        const STORAGE_TEXTURE_BINDING_ARRAY_NON_UNIFORM_INDEXING = 0x4_0000_0000;
        /// Non-uniform indexing of binding arrays of storage buffers.
        const STORAGE_BUFFER_BINDING_ARRAY_NON_UNIFORM_INDEXING = 0x8_0000_0000;
        /// Cooperative matrices.
        const COOPERATIVE_MATRIX = 0x10_0000_0000;
        /// Inputs of fragment shaders with a value for each vertex.
        const PER_VERTEX = 0x20_0000_0000;
        /// Ray tracing pipelines and acceleration structures.
        const RAY_TRACING_PIPELINE = 0x40_0000_0000;
        /// The index of a draw call, as a built-in value.
        const DRAW_INDEX = 0x80_0000_0000;
        /// Binding arrays of acceleration structures.
        const ACCELERATION_STRUCTURE_BINDING_ARRAY = 0x100_0000_0000;
        /// Coherent memory.
        const MEMORY_DECORATION_COHERENT = 0x200_0000_0000;
        /// Volatile memory.
        const MEMORY_DECORATION_VOLATILE = 0x400_0000_0000;
        /// Integers of 16 bits.
        const SHADER_INT16 = 0x800_0000_0000;
    }
}

impl Flags for Capabilities {
    ghost use Rattle.std.specs.Prelude.{⊤};
    ghost use Rattle.naga_flags.specs.Flags.{capabilities};

    type Bits = u64;

    ghost exact = { ⊤ };

    ghost table = { capabilities };

    ghost set_of = { λ flags. flags.0 };

    fn flags<'a>() -> &'a [Flag<Capabilities>] {
        Capabilities::FLAGS
    }

    fn bits(&self) -> u64 {
        self.0
    }

    fn from_bits_retain(bits: u64) -> Capabilities {
        Capabilities(bits)
    }
}

impl fmt::Debug for Capabilities {
    fn fmt<W: fmt::Write>(&self, f: &mut fmt::Formatter<W>) -> fmt::Result {
        debug_names(f, "Capabilities", self)
    }
}

impl Default for Capabilities {
    ghost use Rattle.std.specs.Prelude.{◌≡◌};
    ghost use Rattle.naga_flags.specs.Bits.{default_capabilities};

    ghost is_default = { λ flags. flags ≡ record { 0 = default_capabilities } };

    /// `MULTISAMPLED_SHADING` and `CUBE_ARRAY_TEXTURES`.
    fn default() -> Capabilities {
        Capabilities(0x9000)
    }
}

/// What a type may be used for: naga's `TypeFlags`.
#[derive(Clone, Copy, PartialEq, Eq)]
pub struct TypeFlags(u8);

bitflag_items! {
    impl TypeFlags: u8 {
        /// Local variables, struct members, array elements and function arguments may be of the type.
        const DATA = 0x1;
        /// The size is fixed when a pipeline is created (WGSL "Fixed-Footprint Types").
        const SIZED = 0x2;
        /// Values can be copied.
        const COPY = 0x4;
        /// Pipeline stages may pass values to one another, as inputs and outputs (WGSL "Input-output
        /// Locations").
        const IO_SHAREABLE = 0x8;
        /// The host and the device may share values (WGSL "Host-shareable Types").
        const HOST_SHAREABLE = 0x10;
        /// The size is fixed when a shader module is created: no override decides it (WGSL
        /// "Fixed-Footprint Types").
        const CREATION_RESOLVED = 0x20;
        /// Functions may take values as arguments.
        const ARGUMENT = 0x40;
        /// Values can be created, loaded, stored, passed and returned (WGSL "Constructible Types").
        const CONSTRUCTIBLE = 0x80;
    }
}

impl Flags for TypeFlags {
    ghost use Rattle.std.specs.Prelude.{⊤};
    ghost use Rattle.naga_flags.specs.Flags.{type_flags};

    type Bits = u8;

    ghost exact = { ⊤ };

    ghost table = { type_flags };

    ghost set_of = { λ flags. flags.0 };

    fn flags<'a>() -> &'a [Flag<TypeFlags>] {
        TypeFlags::FLAGS
    }

    fn bits(&self) -> u8 {
        self.0
    }

    fn from_bits_retain(bits: u8) -> TypeFlags {
        TypeFlags(bits)
    }
}

impl fmt::Debug for TypeFlags {
    fn fmt<W: fmt::Write>(&self, f: &mut fmt::Formatter<W>) -> fmt::Result {
        debug_names(f, "TypeFlags", self)
    }
}

/// Stages of a pipeline.
#[derive(Clone, Copy, PartialEq, Eq)]
pub struct ShaderStages(u16);

bitflag_items! {
    impl ShaderStages: u16 {
        /// Vertex shaders.
        const VERTEX = 0x1;
        /// Fragment shaders.
        const FRAGMENT = 0x2;
        /// Compute shaders.
        const COMPUTE = 0x4;
        /// Mesh shaders.
        const MESH = 0x8;
        /// Task shaders.
        const TASK = 0x10;
        /// Shaders that generate rays.
        const RAY_GENERATION = 0x20;
        /// Shaders that accept or ignore a hit of a ray.
        const ANY_HIT = 0x40;
        /// Shaders for the closest hit of a ray.
        const CLOSEST_HIT = 0x80;
        /// Shaders for rays that hit nothing.
        const MISS = 0x100;
        /// Stages that run in workgroups: compute, mesh and task shaders.
        const COMPUTE_LIKE = 0x1c;
    }
}

impl Flags for ShaderStages {
    ghost use Rattle.std.specs.Prelude.{⊤};
    ghost use Rattle.naga_flags.specs.Flags.{shader_stages};

    type Bits = u16;

    ghost exact = { ⊤ };

    ghost table = { shader_stages };

    ghost set_of = { λ flags. flags.0 };

    fn flags<'a>() -> &'a [Flag<ShaderStages>] {
        ShaderStages::FLAGS
    }

    fn bits(&self) -> u16 {
        self.0
    }

    fn from_bits_retain(bits: u16) -> ShaderStages {
        ShaderStages(bits)
    }
}

impl fmt::Debug for ShaderStages {
    fn fmt<W: fmt::Write>(&self, f: &mut fmt::Formatter<W>) -> fmt::Result {
        debug_names(f, "ShaderStages", self)
    }
}

/// Groups of operations among the invocations of a subgroup, as devices support them (WGSL "Subgroup
/// Built-in Functions").
#[derive(Clone, Copy, PartialEq, Eq)]
pub struct SubgroupOperationSet(u8);

bitflag_items! {
    impl SubgroupOperationSet: u8 {
        /// Barriers.
        const BASIC = 0x1;
        /// Whether a condition holds in all or in any of the invocations.
        const VOTE = 0x2;
        /// Reductions and scans.
        const ARITHMETIC = 0x4;
        /// Ballots, and broadcasts.
        const BALLOT = 0x8;
        /// Values of any other invocation.
        const SHUFFLE = 0x10;
        /// Values of the invocation a number of places after or before.
        const SHUFFLE_RELATIVE = 0x20;
        /// Values within a quad, in fragment and compute shaders.
        const QUAD_FRAGMENT_COMPUTE = 0x80;
    }
}

impl Flags for SubgroupOperationSet {
    ghost use Rattle.std.specs.Prelude.{⊤};
    ghost use Rattle.naga_flags.specs.Flags.{subgroup_operations};

    type Bits = u8;

    ghost exact = { ⊤ };

    ghost table = { subgroup_operations };

    ghost set_of = { λ flags. flags.0 };

    fn flags<'a>() -> &'a [Flag<SubgroupOperationSet>] {
        SubgroupOperationSet::FLAGS
    }

    fn bits(&self) -> u8 {
        self.0
    }

    fn from_bits_retain(bits: u8) -> SubgroupOperationSet {
        SubgroupOperationSet(bits)
    }
}

impl fmt::Debug for SubgroupOperationSet {
    fn fmt<W: fmt::Write>(&self, f: &mut fmt::Formatter<W>) -> fmt::Result {
        debug_names(f, "SubgroupOperationSet", self)
    }
}

impl Default for SubgroupOperationSet {
    ghost use Rattle.std.specs.Prelude.{◌≡◌};

    ghost is_default = { λ flags. flags ≡ record { 0 = 0 } };

    /// No operations.
    fn default() -> SubgroupOperationSet {
        SubgroupOperationSet(0)
    }
}
