//! What only entry points have.

use naga_draft::item::EntryStage;
use naga_ir::handle::Handle;
use naga_ir::ir::{
    ConservativeDepth, EarlyDepthTest, MeshOutputTopology, MeshStageInfo, ShaderStage,
};
use naga_ir::tags::ExpressionTag;
use naga_text::number::{handle, number, optional_handle};
use naga_text::words::{chosen, equals};

/// What the line says that begins an entry point.
#[derive(Clone, Copy)]
pub struct EntryHead {
    pub stage: EntryStage,
    /// The sizes of a workgroup, if they are said.
    pub workgroup_size: Option<[u32; 3]>,
}

/// A stage in lower case, or none for `-`.
fn stage(word: &[u8]) -> Option<Option<ShaderStage>> {
    let stages = [
        ("-", None),
        ("vertex", Some(ShaderStage::Vertex)),
        ("task", Some(ShaderStage::Task)),
        ("mesh", Some(ShaderStage::Mesh)),
        ("fragment", Some(ShaderStage::Fragment)),
        ("compute", Some(ShaderStage::Compute)),
        ("raygeneration", Some(ShaderStage::RayGeneration)),
        ("miss", Some(ShaderStage::Miss)),
        ("anyhit", Some(ShaderStage::AnyHit)),
        ("closesthit", Some(ShaderStage::ClosestHit)),
    ];
    chosen(&stages, word)
}

/// `early`, `early:greaterequal`, `early:lessequal` or `early:unchanged`, or no word for none
fn early_depth_test(words: &[&[u8]]) -> Option<Option<EarlyDepthTest>> {
    let allow = |conservative| EarlyDepthTest::Allow { conservative };
    let tests = [
        ("early", EarlyDepthTest::Force),
        ("early:greaterequal", allow(ConservativeDepth::GreaterEqual)),
        ("early:lessequal", allow(ConservativeDepth::LessEqual)),
        ("early:unchanged", allow(ConservativeDepth::Unchanged)),
    ];
    match words {
        [] => Some(None),
        [word] => Some(Some(chosen(&tests, word)?)),
        _ => None,
    }
}

/// `[STAGE|- [X Y Z] [EARLY]]`
pub fn entry_head(words: &[&[u8]]) -> Option<EntryHead> {
    let (stage, rest) = match words.split_first() {
        Some((word, rest)) => (stage(word)?, rest),
        None => (None, words),
    };
    let (workgroup_size, early) = match rest {
        [x, y, z, early @ ..] => (Some([number(x)?, number(y)?, number(z)?]), early),
        early => (None, early),
    };
    Some(EntryHead {
        stage: EntryStage {
            stage,
            early_depth_test: early_depth_test(early)?,
        },
        workgroup_size,
    })
}

/// `E|- E|- E|-`
pub fn workgroup_sizes(words: &[&[u8]]) -> Option<[Option<Handle<ExpressionTag>>; 3]> {
    let [x, y, z] = words else { return None };
    Some([
        optional_handle(x)?,
        optional_handle(y)?,
        optional_handle(z)?,
    ])
}

/// What the primitives of a mesh are.
fn topology(word: &[u8]) -> Option<MeshOutputTopology> {
    let topologies = [
        ("points", MeshOutputTopology::Points),
        ("lines", MeshOutputTopology::Lines),
        ("triangles", MeshOutputTopology::Triangles),
    ];
    chosen(&topologies, word)
}

/// `V T T E|- E|- [TOPOLOGY N N]`
pub fn mesh_info(words: &[&[u8]]) -> Option<MeshStageInfo> {
    let [variable, vertex, primitive, vertices, primitives, rest @ ..] = words else {
        return None;
    };
    let (topology, max_vertices, max_primitives) = match rest {
        [] => (MeshOutputTopology::Points, 0, 0),
        [of, vertices, primitives] => (topology(of)?, number(vertices)?, number(primitives)?),
        _ => return None,
    };
    Some(MeshStageInfo {
        topology,
        max_vertices,
        max_primitives,
        output_variable: handle(variable)?,
        vertex_output_type: handle(vertex)?,
        primitive_output_type: handle(primitive)?,
        max_vertices_override: optional_handle(vertices)?,
        max_primitives_override: optional_handle(primitives)?,
    })
}
