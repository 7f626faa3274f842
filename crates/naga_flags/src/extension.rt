//! The extensions of WGSL that capabilities stand for.

ghost use Rattle.std.specs.Prelude.{◌≡◌};
ghost use Rattle.naga_flags.specs.Extensions.{extension_of};

use crate::flags::Capabilities;

/// The extensions of WGSL that naga knows, and that a shader may enable.
#[derive(Clone, Copy, Debug, PartialEq, Eq)]
pub enum ImplementedEnableExtension {
    /// Two sources for blending.
    DualSourceBlending,
    /// Floating-point numbers of 16 bits.
    F16,
    /// Integers of 16 bits.
    WgpuInt16,
    /// Clip distances.
    ClipDistances,
    /// Mesh and task shaders.
    WgpuMeshShader,
    /// Ray queries.
    WgpuRayQuery,
    /// The vertex positions of a triangle that a ray hit.
    WgpuRayQueryVertexReturn,
    /// Cooperative matrices.
    WgpuCooperativeMatrix,
    /// Ray tracing pipelines.
    WgpuRayTracingPipeline,
    /// Inputs of fragment shaders with a value for each vertex.
    WgpuPerVertex,
    /// Binding arrays.
    WgpuBindingArray,
}

impl Capabilities {
    /// The extension that a single capability stands for, by naga's `Capabilities::extension`. Other
    /// capabilities, and sets that are not a single capability, stand for none.
    pub fn extension(&self) -> Option<ImplementedEnableExtension>
        ensures { result ≡ extension_of self.now.0 }
    {
        match *self {
            Capabilities::DUAL_SOURCE_BLENDING => {
                Some(ImplementedEnableExtension::DualSourceBlending)
            }
            Capabilities::SHADER_FLOAT16 => Some(ImplementedEnableExtension::F16),
            Capabilities::SHADER_INT16 => Some(ImplementedEnableExtension::WgpuInt16),
            Capabilities::CLIP_DISTANCES => Some(ImplementedEnableExtension::ClipDistances),
            Capabilities::MESH_SHADER => Some(ImplementedEnableExtension::WgpuMeshShader),
            Capabilities::RAY_QUERY => Some(ImplementedEnableExtension::WgpuRayQuery),
            Capabilities::RAY_HIT_VERTEX_POSITION => {
                Some(ImplementedEnableExtension::WgpuRayQueryVertexReturn)
            }
            Capabilities::COOPERATIVE_MATRIX => {
                Some(ImplementedEnableExtension::WgpuCooperativeMatrix)
            }
            Capabilities::RAY_TRACING_PIPELINE => {
                Some(ImplementedEnableExtension::WgpuRayTracingPipeline)
            }
            Capabilities::PER_VERTEX => Some(ImplementedEnableExtension::WgpuPerVertex),
            Capabilities::BUFFER_BINDING_ARRAY
            | Capabilities::BUFFER_BINDING_ARRAY_NON_UNIFORM_INDEXING
            | Capabilities::STORAGE_BUFFER_BINDING_ARRAY
            | Capabilities::STORAGE_BUFFER_BINDING_ARRAY_NON_UNIFORM_INDEXING
            | Capabilities::STORAGE_TEXTURE_BINDING_ARRAY
            | Capabilities::STORAGE_TEXTURE_BINDING_ARRAY_NON_UNIFORM_INDEXING
            | Capabilities::TEXTURE_AND_SAMPLER_BINDING_ARRAY
            | Capabilities::TEXTURE_AND_SAMPLER_BINDING_ARRAY_NON_UNIFORM_INDEXING => {
                Some(ImplementedEnableExtension::WgpuBindingArray)
            }
            _ => None,
        }
    }
}
