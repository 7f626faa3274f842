//! The rule of one expression of a function (naga's `Validator::validate_expression`).

ghost use Rattle.std.specs.Prelude.{◌↔◌, IsTrue, Ok};
ghost use Rattle.naga_exprs.specs.ExpressionRule.{IsExpressionResult, IsRule, is_frequent};
ghost use Rattle.naga_exprs.specs.Math.{math_typing};
ghost use Rattle.naga_info.specs.Sources.{AreSourcesRight};
ghost use Rattle.naga_info.specs.Stages as stages;
ghost use Rattle.naga_info.specs.Surroundings.{IsReadySomewhere, surroundings};

use crate::access::{
    admits_access, admits_access_index, admits_swizzle, validate_access, validate_access_index,
    validate_swizzle,
};
use crate::math::{admits_math, validate_math};
use crate::memory::{admits_load, validate_array_length, validate_cooperative_load, validate_load};
use crate::ray_query::{validate_ray_query_get_intersection, validate_ray_query_vertex_positions};
use crate::value::{
    admits_composition, admits_function_argument, admits_literal_value, admits_splat,
    admits_zero_value, validate_call_result, validate_composition, validate_function_argument,
    validate_literal_value, validate_splat, validate_workgroup_uniform_load_result,
    validate_zero_value,
};
use naga_flags::flags::ShaderStages;
use naga_image_exprs::load::validate_image_load;
use naga_image_exprs::query::validate_image_query;
use naga_image_exprs::sample::{Sample, validate_image_sample};
use naga_info::context::{FunctionContext, every_stage};
use naga_info::expression_error::ExpressionError;
use naga_ir::expression::Expression;
use naga_operator_exprs::binary::{admits_binary, validate_binary};
use naga_operator_exprs::cooperative::validate_cooperative_multiply_add;
use naga_operator_exprs::operators::{
    admits_as, admits_select, admits_unary, validate_as, validate_derivative, validate_relational,
    validate_select, validate_unary,
};
use naga_typing::typing::Typing;
use std::alloc::Global;

/// The pipeline stages that may use an expression of a function (naga's `Validator::validate_expression`).
///
/// The handles of the module are right, and the handles of the function except the types of its variables.
/// `context` knows what each type of the module may be used for. All that the expression refers to exists. Its
/// operands precede its place in the function, and `context` knows their types, and of a sample the kind of its
/// offset; what these types refer to exists. The sources that it keeps are right, and it may keep none. Each
/// `FunctionArgument` before that place names an argument. If the expression is the result of a call, `context` knows
/// the function. What mathematical functions take is what the typing accepts.
///
/// Accepting takes no memory. The cost is linear in the expression's own components, in the members of
/// structs that it compares, and in the pointers through which its base is reached, except for the search for
/// forbidden integers on the right of a division or a shift, which also goes through the constants, splats and
/// compositions that the operand is made of, and calls itself at compositions of several components. If all these
/// are accepted, they are a vector of at most four components, and the calls are at most three deep; if `context`
/// keeps the source of each, the search takes constant time.
///
/// Expressions that nobody has checked, global ones without the flag `CONSTANTS` or earlier ones of the function, can
/// nest deeper. The calls are then as deep as they are nested, up to the length of the arena, by `vec2(E0, 1)`,
/// `vec2(E1, 1)` and so on. The search notes what it has been through, so that shared ones, as in `vec2(E0, E0)`,
/// `vec2(E1, E1)` and so on, take linear time. It has sixteen notes, one for each remainder of an index. So time is
/// exponential if the indexes of all compositions leave one remainder, and each is `vec3(E, F, E)` of the one before
/// it and another.
///
/// # Errors
///
/// The error of the first condition of its variant that the expression breaks; the functions of variants list
/// them. `OutOfMemory` if memory was refused for a struct or a text that an error holds.
pub fn validate_expression<T: Typing>(
    alloc: Global,
    typing: &T,
    context: FunctionContext<'_>,
    expression: &Expression,
) -> Result<ShaderStages, ExpressionError>
    requires ready { IsReadySomewhere (surroundings context) expression.now }
    requires sources { AreSourcesRight context }
    ensures { IsExpressionResult (math_typing (T.accepts_types typing.now) (T.least_arguments typing.now))
        (surroundings context.entry) expression.now result }
{
    match *expression {
        Expression::Access { base, index } => validate_access(context, base, index),
        Expression::AccessIndex { base, index } => validate_access_index(context, base, index),
        Expression::Splat { value, .. } => validate_splat(context, value),
        Expression::Swizzle {
            size,
            vector,
            ref pattern,
        } => validate_swizzle(context, size, vector, pattern),
        Expression::Literal(literal) => validate_literal_value(context, literal),
        Expression::Constant(_)
        | Expression::Override(_)
        | Expression::GlobalVariable(_)
        | Expression::LocalVariable(_)
        | Expression::AtomicResult { .. }
        | Expression::RayQueryProceedResult => Ok(every_stage()),
        Expression::ZeroValue(ty) => validate_zero_value(context, ty),
        Expression::Compose { ty, ref components } => {
            validate_composition(context, ty, components.as_slice())
        }
        Expression::FunctionArgument(index) => validate_function_argument(context, index),
        Expression::Load { pointer } => validate_load(context, pointer),
        Expression::ImageSample {
            image,
            sampler,
            gather,
            coordinate,
            array_index,
            offset,
            level,
            depth_ref,
            clamp_to_edge,
        } => {
            let sample = Sample {
                image,
                sampler,
                gather,
                coordinate,
                array_index,
                offset,
                level,
                depth_ref,
                clamp_to_edge,
            };
            validate_image_sample(alloc, context, &sample)
        }
        Expression::ImageLoad {
            image,
            coordinate,
            array_index,
            sample,
            level,
        } => validate_image_load(context, image, coordinate, array_index, sample, level),
        Expression::ImageQuery { image, query } => validate_image_query(context, image, query),
        Expression::Unary { op, expr } => validate_unary(context, op, expr),
        Expression::Binary { op, left, right } => validate_binary(context, op, left, right),
        Expression::Select {
            condition,
            accept,
            reject,
        } => validate_select(context, condition, accept, reject),
        Expression::Derivative { expr } => validate_derivative(context, expr),
        Expression::Relational { fun, argument } => validate_relational(context, fun, argument),
        Expression::Math {
            fun,
            arg,
            arg1,
            arg2,
            arg3,
        } => validate_math(context, typing, fun, arg, arg1, arg2, arg3),
        Expression::As {
            expr,
            kind,
            convert,
        } => validate_as(context, expr, kind, convert),
        Expression::CallResult(function) => Ok(validate_call_result(context, function)),
        Expression::WorkGroupUniformLoadResult { ty } => {
            validate_workgroup_uniform_load_result(context, ty)
        }
        Expression::ArrayLength(array) => validate_array_length(context, array),
        Expression::RayQueryGetIntersection { query, .. } => {
            validate_ray_query_get_intersection(context, query)
        }
        Expression::RayQueryVertexPositions { query, .. } => {
            validate_ray_query_vertex_positions(context, query)
        }
        Expression::SubgroupBallotResult | Expression::SubgroupOperationResult { .. } => {
            Ok(context.subgroup_stages)
        }
        Expression::CooperativeLoad { pointer, .. } => validate_cooperative_load(context, pointer),
        Expression::CooperativeMultiplyAdd { a, b, c } => {
            validate_cooperative_multiply_add(context, a, b, c)
        }
    }
}

/// Whether an expression is of a frequent variant, keeps its rule, and may be used by every stage. If so,
/// `validate_expression`, which requires the same, returns every stage. Frequent are the variants that functions of
/// shaders mostly consist of: variables, arguments, literals and other constants, compositions and parts of values,
/// loads, operators, conversions and mathematical functions.
///
/// A function is accepted sooner if this is called first: an `ExpressionError` is wide, and to hand on a result that
/// may hold one takes longer than to check most expressions. The cost is the same as of `validate_expression`. It
/// takes no memory.
pub fn admits_expression<T: Typing>(
    typing: &T,
    context: FunctionContext<'_>,
    expression: &Expression,
) -> bool
    requires ready { IsReadySomewhere (surroundings context) expression.now }
    requires sources { AreSourcesRight context }
    ensures { IsTrue result ↔ (IsTrue (is_frequent expression.now)
        × IsRule (math_typing (T.accepts_types typing.now) (T.least_arguments typing.now)) (surroundings context.entry)
        expression.now (Ok stages.every_stage)) }
{
    match *expression {
        Expression::LocalVariable(_) | Expression::GlobalVariable(_) => true,
        Expression::Override(_) | Expression::Constant(_) => true,
        Expression::Literal(literal) => admits_literal_value(context, literal),
        Expression::ZeroValue(ty) => admits_zero_value(context, ty),
        Expression::Compose { ty, ref components } => {
            admits_composition(context, ty, components.as_slice())
        }
        Expression::Access { base, index } => admits_access(context, base, index),
        Expression::AccessIndex { base, index } => admits_access_index(context, base, index),
        Expression::Splat { value, .. } => admits_splat(context, value),
        Expression::Swizzle {
            size,
            vector,
            ref pattern,
        } => admits_swizzle(context, size, vector, pattern),
        Expression::FunctionArgument(index) => admits_function_argument(context, index),
        Expression::Load { pointer } => admits_load(context, pointer),
        Expression::Unary { op, expr } => admits_unary(context, op, expr),
        Expression::Binary { op, left, right } => admits_binary(context, op, left, right),
        Expression::Select {
            condition,
            accept,
            reject,
        } => admits_select(context, condition, accept, reject),
        Expression::As {
            expr,
            kind,
            convert,
        } => admits_as(context, expr, kind, convert),
        Expression::Math {
            fun,
            arg,
            arg1,
            arg2,
            arg3,
        } => admits_math(context, typing, fun, arg, arg1, arg2, arg3),
        // These are rarer, or their rules don't let every stage use them.
        Expression::AtomicResult { .. }
        | Expression::ImageSample { .. }
        | Expression::ImageLoad { .. }
        | Expression::ImageQuery { .. }
        | Expression::Derivative { .. }
        | Expression::Relational { .. }
        | Expression::CallResult(_)
        | Expression::WorkGroupUniformLoadResult { .. }
        | Expression::ArrayLength(_)
        | Expression::RayQueryProceedResult
        | Expression::RayQueryGetIntersection { .. }
        | Expression::RayQueryVertexPositions { .. }
        | Expression::SubgroupBallotResult
        | Expression::SubgroupOperationResult { .. }
        | Expression::CooperativeLoad { .. }
        | Expression::CooperativeMultiplyAdd { .. } => false,
    }
}
