//! The rules of reading from ray queries.

ghost use Rattle.std.specs.Prelude.{◌≡◌, ◌<◌, Some, length};
ghost use Rattle.naga_exprs.specs.RayQueries as rule;
ghost use Rattle.naga_ir.specs.ItemReferences.{global_lists};
ghost use Rattle.naga_info.specs.Surroundings.{AreSound, surroundings};
ghost use Rattle.naga_typing.specs.Context.{ReferencesExist};

use naga_flags::flags::ShaderStages;
use naga_info::context::{FunctionContext, every_stage};
use naga_info::expression_error::ExpressionError;
use naga_ir::handle::Handle;
use naga_ir::ir::Module;
use naga_ir::tags::ExpressionTag;
use naga_ir::types::{AddressSpace, TypeInner};

/// Whether a type is a ray query, and if `vertices` is true, one that gives the vertices of a hit.
fn is_ray_query(inner: &TypeInner, vertices: bool) -> bool
    ensures { result ≡ rule.is_ray_query vertices (Some inner.now) }
{
    match inner {
        // A query that returns vertices may be read without them, but not the other way round.
        TypeInner::RayQuery { vertex_return } => *vertex_return || !vertices,
        TypeInner::Scalar(_)
        | TypeInner::Vector { .. }
        | TypeInner::Matrix { .. }
        | TypeInner::CooperativeMatrix { .. }
        | TypeInner::Atomic(_)
        | TypeInner::Pointer { .. }
        | TypeInner::ValuePointer { .. }
        | TypeInner::Array { .. }
        | TypeInner::Struct { .. }
        | TypeInner::Image { .. }
        | TypeInner::Sampler { .. }
        | TypeInner::AccelerationStructure { .. }
        | TypeInner::BindingArray { .. } => false,
    }
}

/// Whether a type is a pointer to a ray query of the function.
fn points_to_ray_query(inner: &TypeInner, module: &Module, vertices: bool) -> bool
    requires exist { ReferencesExist (global_lists «module».now) inner.now }
    ensures { result ≡ rule.points_to_ray_query «module».now.types vertices inner.now }
{
    match inner {
        TypeInner::Pointer { base, space } => {
            *space == AddressSpace::Function && is_ray_query(&module.types[*base].inner, vertices)
        }
        TypeInner::Scalar(_)
        | TypeInner::Vector { .. }
        | TypeInner::Matrix { .. }
        | TypeInner::CooperativeMatrix { .. }
        | TypeInner::Atomic(_)
        | TypeInner::ValuePointer { .. }
        | TypeInner::Array { .. }
        | TypeInner::Struct { .. }
        | TypeInner::Image { .. }
        | TypeInner::Sampler { .. }
        | TypeInner::AccelerationStructure { .. }
        | TypeInner::RayQuery { .. }
        | TypeInner::BindingArray { .. } => false,
    }
}

/// The stages that may use what a ray has hit (SPIR-V "SPV_KHR_ray_query").
///
/// # Errors
///
/// `InvalidRayQueryType` if the operand is not a pointer to a ray query of the function.
pub fn validate_ray_query_get_intersection(
    context: FunctionContext<'_>,
    query: Handle<ExpressionTag>,
) -> Result<ShaderStages, ExpressionError>
    requires sound { AreSound (surroundings context) }
    requires query { query < length context.info.now.types }
    ensures { result ≡ rule.ray_query_get_intersection_rule (surroundings context.entry) query }
{
    if !points_to_ray_query(context.type_of(query), context.module, false) {
        return Err(ExpressionError::InvalidRayQueryType(query));
    }
    Ok(every_stage())
}

/// The stages that may use the vertices of the triangle that a ray has hit (SPIR-V
/// "SPV_KHR_ray_tracing_position_fetch").
///
/// # Errors
///
/// `InvalidRayQueryType` if the operand is not a pointer to a ray query of the function that gives vertices.
pub fn validate_ray_query_vertex_positions(
    context: FunctionContext<'_>,
    query: Handle<ExpressionTag>,
) -> Result<ShaderStages, ExpressionError>
    requires sound { AreSound (surroundings context) }
    requires query { query < length context.info.now.types }
    ensures { result ≡ rule.ray_query_vertex_positions_rule (surroundings context.entry) query }
{
    if !points_to_ray_query(context.type_of(query), context.module, true) {
        return Err(ExpressionError::InvalidRayQueryType(query));
    }
    Ok(every_stage())
}
