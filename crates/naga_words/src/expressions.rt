//! The expressions that words describe, one function a form.

ghost use Rattle.naga_words.specs.Expressions.{compose_of, cooperative_load_of, early_forms, expression_of, image_query_of, image_sample_of, late_forms, swizzle_of};
ghost use Rattle.naga_words.specs.Operands.{converted_width_of, handle_of, level_of, literal_of, query_of, size_of};
ghost use Rattle.naga_words.specs.Reading.{read_by, reads_five, reads_none, reads_one, reads_three, reads_triple, reads_two};
ghost use Rattle.naga_words.specs.Tables.{binary_operators, bools, kinds, math_functions, relational_functions, unary_operators};
ghost use Rattle.naga_ir.specs.declared.expression.Expression.TheVariants as x;
ghost use Rattle.naga_draft.specs.declared.unread.Unread.TheVariants as unread;
ghost use Rattle.std.specs.Prelude.{◌≡◌, IfErr, IfOk, None, Some, slice_get};

use crate::literals::literal;
use crate::opcodes as code;
use crate::operands::{
    NONE, binary_operator, boolean, component, expressions, handle, kind, math_function,
    optional_component, relational_function, shape, size, unary_operator, width, zero,
};
use naga_draft::unread::{Unread, known};
use naga_ir::expression::{Expression, ImageQuery, SampleLevel};
use std::alloc::Global;

fn literal_expression(operands: &[u32]) -> Option<Expression>
    ensures { result ≡ reads_triple literal_of x.Literal operands.now }
{
    let [form, low, high] = operands else {
        return None
    };
    Some(Expression::Literal(literal(*form, *low, *high)?))
}

fn constant(operands: &[u32]) -> Option<Expression>
    ensures { result ≡ reads_one handle_of x.Constant operands.now }
{
    let [constant] = operands else { return None };
    Some(Expression::Constant(handle(*constant)?))
}

fn override_expression(operands: &[u32]) -> Option<Expression>
    ensures { result ≡ reads_one handle_of x.Override operands.now }
{
    let [id] = operands else { return None };
    Some(Expression::Override(handle(*id)?))
}

fn zero_value(operands: &[u32]) -> Option<Expression>
    ensures { result ≡ reads_one handle_of x.ZeroValue operands.now }
{
    let [ty] = operands else { return None };
    Some(Expression::ZeroValue(handle(*ty)?))
}

fn access(operands: &[u32]) -> Option<Expression>
    ensures { result ≡ reads_two handle_of handle_of x.Access operands.now }
{
    let [base, index] = operands else { return None };
    Some(Expression::Access {
        base: handle(*base)?,
        index: handle(*index)?,
    })
}

fn access_index(operands: &[u32]) -> Option<Expression>
    ensures { result ≡ reads_two handle_of Some x.AccessIndex operands.now }
{
    let [base, index] = operands else { return None };
    Some(Expression::AccessIndex {
        base: handle(*base)?,
        index: *index,
    })
}

fn splat(operands: &[u32]) -> Option<Expression>
    ensures { result ≡ reads_two size_of handle_of x.Splat operands.now }
{
    let [components, value] = operands else {
        return None
    };
    Some(Expression::Splat {
        size: size(*components)?,
        value: handle(*value)?,
    })
}

fn swizzle(operands: &[u32]) -> Option<Expression>
    ensures { result ≡ swizzle_of operands.now }
{
    let [components, vector, x, y, z, w] = operands else {
        return None
    };
    Some(Expression::Swizzle {
        size: size(*components)?,
        vector: handle(*vector)?,
        pattern: [
            component(*x)?,
            component(*y)?,
            component(*z)?,
            component(*w)?,
        ],
    })
}

fn function_argument(operands: &[u32]) -> Option<Expression>
    ensures { result ≡ reads_one Some x.FunctionArgument operands.now }
{
    let [index] = operands else { return None };
    Some(Expression::FunctionArgument(*index))
}

fn global_variable(operands: &[u32]) -> Option<Expression>
    ensures { result ≡ reads_one handle_of x.GlobalVariable operands.now }
{
    let [variable] = operands else { return None };
    Some(Expression::GlobalVariable(handle(*variable)?))
}

fn local_variable(operands: &[u32]) -> Option<Expression>
    ensures { result ≡ reads_one handle_of x.LocalVariable operands.now }
{
    let [variable] = operands else { return None };
    Some(Expression::LocalVariable(handle(*variable)?))
}

fn load(operands: &[u32]) -> Option<Expression>
    ensures { result ≡ reads_one handle_of x.Load operands.now }
{
    let [pointer] = operands else { return None };
    Some(Expression::Load {
        pointer: handle(*pointer)?,
    })
}

/// Which mipmap level is sampled.
fn level(form: u32, first: u32, second: u32) -> Option<SampleLevel>
    ensures { result ≡ level_of form first second }
{
    if form == 4 {
        return Some(SampleLevel::Gradient {
            x: handle(first)?,
            y: handle(second)?,
        });
    }
    zero(second)?;
    match form {
        0 => {
            zero(first)?;
            Some(SampleLevel::Auto)
        }
        1 => {
            zero(first)?;
            Some(SampleLevel::Zero)
        }
        2 => Some(SampleLevel::Exact(handle(first)?)),
        3 => Some(SampleLevel::Bias(handle(first)?)),
        _ => None,
    }
}

fn image_sample(operands: &[u32]) -> Option<Expression>
    ensures { result ≡ image_sample_of operands.now }
{
    let [
        image,
        sampler,
        gather,
        coordinate,
        index,
        offset,
        level_form,
        first,
        second,
        depth,
        clamp,
    ] = operands
    else {
        return None;
    };
    Some(Expression::ImageSample {
        image: handle(*image)?,
        sampler: handle(*sampler)?,
        gather: optional_component(*gather)?,
        coordinate: handle(*coordinate)?,
        array_index: handle(*index),
        offset: handle(*offset),
        level: level(*level_form, *first, *second)?,
        depth_ref: handle(*depth),
        clamp_to_edge: boolean(*clamp)?,
    })
}

fn image_load(operands: &[u32]) -> Option<Expression>
    ensures { result ≡ reads_five handle_of handle_of x.ImageLoad operands.now }
{
    let [image, coordinate, index, sample, by] = operands else {
        return None;
    };
    Some(Expression::ImageLoad {
        image: handle(*image)?,
        coordinate: handle(*coordinate)?,
        array_index: handle(*index),
        sample: handle(*sample),
        level: handle(*by),
    })
}

/// What is asked of an image.
fn query(form: u32, operand: u32) -> Option<ImageQuery>
    ensures { result ≡ query_of form operand }
{
    if form == 0 {
        return Some(ImageQuery::Size {
            level: handle(operand),
        });
    }
    zero(operand)?;
    match form {
        1 => Some(ImageQuery::NumLevels),
        2 => Some(ImageQuery::NumLayers),
        3 => Some(ImageQuery::NumSamples),
        _ => None,
    }
}

fn image_query(operands: &[u32]) -> Option<Expression>
    ensures { result ≡ image_query_of operands.now }
{
    let [image, form, operand] = operands else {
        return None
    };
    Some(Expression::ImageQuery {
        image: handle(*image)?,
        query: query(*form, *operand)?,
    })
}

fn unary(operands: &[u32]) -> Option<Expression>
    ensures { result ≡ reads_two (slice_get unary_operators) handle_of x.Unary operands.now }
{
    let [op, value] = operands else { return None };
    Some(Expression::Unary {
        op: unary_operator(*op)?,
        expr: handle(*value)?,
    })
}

fn binary(operands: &[u32]) -> Option<Expression>
    ensures { result ≡ reads_three (slice_get binary_operators) handle_of handle_of x.Binary operands.now }
{
    let [op, left, right] = operands else {
        return None
    };
    Some(Expression::Binary {
        op: binary_operator(*op)?,
        left: handle(*left)?,
        right: handle(*right)?,
    })
}

fn select(operands: &[u32]) -> Option<Expression>
    ensures { result ≡ reads_three handle_of handle_of handle_of x.Select operands.now }
{
    let [condition, accept, reject] = operands else {
        return None
    };
    Some(Expression::Select {
        condition: handle(*condition)?,
        accept: handle(*accept)?,
        reject: handle(*reject)?,
    })
}

fn derivative(operands: &[u32]) -> Option<Expression>
    ensures { result ≡ reads_one handle_of x.Derivative operands.now }
{
    let [value] = operands else { return None };
    Some(Expression::Derivative {
        expr: handle(*value)?,
    })
}

fn relational(operands: &[u32]) -> Option<Expression>
    ensures { result ≡ reads_two (slice_get relational_functions) handle_of x.Relational operands.now }
{
    let [fun, argument] = operands else {
        return None
    };
    Some(Expression::Relational {
        fun: relational_function(*fun)?,
        argument: handle(*argument)?,
    })
}

fn math(operands: &[u32]) -> Option<Expression>
    ensures { result ≡ reads_five (slice_get math_functions) handle_of x.Math operands.now }
{
    let [fun, arg, arg1, arg2, arg3] = operands else {
        return None
    };
    Some(Expression::Math {
        fun: math_function(*fun)?,
        arg: handle(*arg)?,
        arg1: handle(*arg1),
        arg2: handle(*arg2),
        arg3: handle(*arg3),
    })
}

/// The width that a value is converted to, or none if its bits are kept.
fn converted_width(word: u32) -> Option<Option<u8>>
    ensures { result ≡ converted_width_of word }
{
    if word == NONE {
        return Some(None);
    }
    Some(Some(width(word)?))
}

fn as_expression(operands: &[u32]) -> Option<Expression>
    ensures { result ≡ reads_three handle_of (slice_get kinds) converted_width_of x.As operands.now }
{
    let [value, of_kind, of_width] = operands else {
        return None
    };
    Some(Expression::As {
        expr: handle(*value)?,
        kind: kind(*of_kind)?,
        convert: converted_width(*of_width)?,
    })
}

fn call_result(operands: &[u32]) -> Option<Expression>
    ensures { result ≡ reads_one handle_of x.CallResult operands.now }
{
    let [function] = operands else { return None };
    Some(Expression::CallResult(handle(*function)?))
}

fn atomic_result(operands: &[u32]) -> Option<Expression>
    ensures { result ≡ reads_two handle_of (slice_get bools) x.AtomicResult operands.now }
{
    let [ty, comparison] = operands else {
        return None
    };
    Some(Expression::AtomicResult {
        ty: handle(*ty)?,
        comparison: boolean(*comparison)?,
    })
}

fn workgroup_load_result(operands: &[u32]) -> Option<Expression>
    ensures { result ≡ reads_one handle_of x.WorkGroupUniformLoadResult operands.now }
{
    let [ty] = operands else { return None };
    Some(Expression::WorkGroupUniformLoadResult { ty: handle(*ty)? })
}

fn array_length(operands: &[u32]) -> Option<Expression>
    ensures { result ≡ reads_one handle_of x.ArrayLength operands.now }
{
    let [array] = operands else { return None };
    Some(Expression::ArrayLength(handle(*array)?))
}

fn proceed_result(operands: &[u32]) -> Option<Expression>
    ensures { result ≡ reads_none x.RayQueryProceedResult operands.now }
{
    let [] = operands else { return None };
    Some(Expression::RayQueryProceedResult)
}

fn intersection(operands: &[u32]) -> Option<Expression>
    ensures { result ≡ reads_two handle_of (slice_get bools) x.RayQueryGetIntersection operands.now }
{
    let [query, committed] = operands else {
        return None
    };
    Some(Expression::RayQueryGetIntersection {
        query: handle(*query)?,
        committed: boolean(*committed)?,
    })
}

fn vertex_positions(operands: &[u32]) -> Option<Expression>
    ensures { result ≡ reads_two handle_of (slice_get bools) x.RayQueryVertexPositions operands.now }
{
    let [query, committed] = operands else {
        return None
    };
    Some(Expression::RayQueryVertexPositions {
        query: handle(*query)?,
        committed: boolean(*committed)?,
    })
}

fn ballot_result(operands: &[u32]) -> Option<Expression>
    ensures { result ≡ reads_none x.SubgroupBallotResult operands.now }
{
    let [] = operands else { return None };
    Some(Expression::SubgroupBallotResult)
}

fn subgroup_result(operands: &[u32]) -> Option<Expression>
    ensures { result ≡ reads_one handle_of x.SubgroupOperationResult operands.now }
{
    let [ty] = operands else { return None };
    Some(Expression::SubgroupOperationResult { ty: handle(*ty)? })
}

fn cooperative_load(operands: &[u32]) -> Option<Expression>
    ensures { result ≡ cooperative_load_of operands.now }
{
    match operands {
        [pointer, stride] => Some(Expression::CooperativeLoad {
            pointer: handle(*pointer)?,
            stride: handle(*stride)?,
            shape: None,
        }),
        [pointer, stride, columns, rows, role] => Some(Expression::CooperativeLoad {
            pointer: handle(*pointer)?,
            stride: handle(*stride)?,
            shape: Some(shape(*columns, *rows, *role)?),
        }),
        _ => None,
    }
}

fn cooperative_multiply_add(operands: &[u32]) -> Option<Expression>
    ensures { result ≡ reads_three handle_of handle_of handle_of x.CooperativeMultiplyAdd operands.now }
{
    let [a, b, c] = operands else { return None };
    Some(Expression::CooperativeMultiplyAdd {
        a: handle(*a)?,
        b: handle(*b)?,
        c: handle(*c)?,
    })
}

/// The expression of one of the first forms, except `compose`.
fn early_form(form: u8, operands: &[u32]) -> Option<Expression>
    ensures { result ≡ read_by early_forms form operands.now }
{
    match form {
        code::FORM_LITERAL => literal_expression(operands),
        code::FORM_CONSTANT => constant(operands),
        code::FORM_OVERRIDE => override_expression(operands),
        code::FORM_ZERO_VALUE => zero_value(operands),
        code::FORM_ACCESS => access(operands),
        code::FORM_ACCESS_INDEX => access_index(operands),
        code::FORM_SPLAT => splat(operands),
        code::FORM_SWIZZLE => swizzle(operands),
        code::FORM_FUNCTION_ARGUMENT => function_argument(operands),
        code::FORM_GLOBAL_VARIABLE => global_variable(operands),
        code::FORM_LOCAL_VARIABLE => local_variable(operands),
        code::FORM_LOAD => load(operands),
        code::FORM_IMAGE_SAMPLE => image_sample(operands),
        code::FORM_IMAGE_LOAD => image_load(operands),
        code::FORM_IMAGE_QUERY => image_query(operands),
        _ => None,
    }
}

/// The expression of one of the other forms.
fn late_form(form: u8, operands: &[u32]) -> Option<Expression>
    ensures { result ≡ read_by late_forms form operands.now }
{
    match form {
        code::FORM_UNARY => unary(operands),
        code::FORM_BINARY => binary(operands),
        code::FORM_SELECT => select(operands),
        code::FORM_DERIVATIVE => derivative(operands),
        code::FORM_RELATIONAL => relational(operands),
        code::FORM_MATH => math(operands),
        code::FORM_AS => as_expression(operands),
        code::FORM_CALL_RESULT => call_result(operands),
        code::FORM_ATOMIC_RESULT => atomic_result(operands),
        code::FORM_WORKGROUP_UNIFORM_LOAD_RESULT => workgroup_load_result(operands),
        code::FORM_ARRAY_LENGTH => array_length(operands),
        code::FORM_RAY_QUERY_PROCEED_RESULT => proceed_result(operands),
        code::FORM_RAY_QUERY_GET_INTERSECTION => intersection(operands),
        code::FORM_RAY_QUERY_VERTEX_POSITIONS => vertex_positions(operands),
        code::FORM_SUBGROUP_BALLOT_RESULT => ballot_result(operands),
        code::FORM_SUBGROUP_OPERATION_RESULT => subgroup_result(operands),
        code::FORM_COOPERATIVE_LOAD => cooperative_load(operands),
        code::FORM_COOPERATIVE_MULTIPLY_ADD => cooperative_multiply_add(operands),
        _ => None,
    }
}

fn compose(alloc: Global, operands: &[u32]) -> Result<Expression, Unread>
    ensures found { IfOk result (λ read. compose_of operands.now ≡ Some read) }
    ensures none { IfErr result (λ e. e ≡ unread.Item → compose_of operands.now ≡ None) }
{
    let [ty, rest @ ..] = operands else {
        return Err(Unread::Item);
    };
    let Some(ty) = handle(*ty) else {
        return Err(Unread::Item);
    };
    let components = expressions(alloc, rest)?;
    Ok(Expression::Compose { ty, components })
}

/// The expression of a form and its operands.
#[tactic(auto, using(crate::proofs::ItemLaws::early_expression, crate::proofs::ItemLaws::late_expression))]
pub(crate) fn expression(alloc: Global, form: u8, operands: &[u32]) -> Result<Expression, Unread>
    ensures found { IfOk result (λ x. expression_of form operands.now ≡ Some x) }
    ensures none { IfErr result (λ e. e ≡ unread.Item → expression_of form operands.now ≡ None) }
{
    if form == code::FORM_COMPOSE {
        compose(alloc, operands)
    } else if form < code::FORM_UNARY {
        known(early_form(form, operands))
    } else {
        known(late_form(form, operands))
    }
}
