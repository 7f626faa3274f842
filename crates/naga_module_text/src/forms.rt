//! The forms of expressions that the line text doesn't have.

use crate::items::{MOST_WORDS, at_colon, only_handle, only_word};
use crate::tables::math_function;
use naga_draft::unread::{Unread, known};
use naga_ir::expression::{
    CooperativeShape, Expression, ImageQuery, RelationalFunction, SampleLevel, SwizzleComponent,
};
use naga_ir::handle::Handle;
use naga_ir::tags::ExpressionTag;
use naga_text::expressions::{compose, fixed_expression};
use naga_text::line_words::LineWords;
use naga_text::number::{handle, number, number_up_to, optional_handle};
use naga_text::words::{boolean, chosen, cooperative_size, equals, kind, role, size};
use std::alloc::Global;

/// The component of the letter `x`, `y`, `z` or `w`.
fn component(letter: u8) -> Option<SwizzleComponent> {
    match letter {
        b'x' => Some(SwizzleComponent::X),
        b'y' => Some(SwizzleComponent::Y),
        b'z' => Some(SwizzleComponent::Z),
        b'w' => Some(SwizzleComponent::W),
        _ => None,
    }
}

/// The component that is gathered, or none for `-`.
fn gathered(word: &[u8]) -> Option<Option<SwizzleComponent>> {
    match word {
        [b'-'] => Some(None),
        [letter] => Some(Some(component(*letter)?)),
        _ => None,
    }
}

/// `access E E`
fn access(words: &[&[u8]]) -> Option<Expression> {
    let [base, index] = words else { return None };
    Some(Expression::Access {
        base: handle(base)?,
        index: handle(index)?,
    })
}

/// `accessindex E N`
fn access_index(words: &[&[u8]]) -> Option<Expression> {
    let [base, index] = words else { return None };
    Some(Expression::AccessIndex {
        base: handle(base)?,
        index: number(index)?,
    })
}

/// `swizzle N E xyzw`, with four letters
fn swizzle(words: &[&[u8]]) -> Option<Expression> {
    let [components, vector, [x, y, z, w]] = words else {
        return None;
    };
    Some(Expression::Swizzle {
        size: size(components)?,
        vector: handle(vector)?,
        pattern: [
            component(*x)?,
            component(*y)?,
            component(*z)?,
            component(*w)?,
        ],
    })
}

/// How a word says which mipmap level is sampled, if it names expressions.
#[derive(Clone, Copy)]
enum LevelForm {
    Exact,
    Bias,
    Gradient,
}

/// `exact:E`, `bias:E`, `grad:E:E`
fn level_by(form: &[u8], by: &[u8]) -> Option<SampleLevel> {
    let forms = [
        ("exact", LevelForm::Exact),
        ("bias", LevelForm::Bias),
        ("grad", LevelForm::Gradient),
    ];
    match chosen(&forms, form)? {
        LevelForm::Exact => Some(SampleLevel::Exact(handle(by)?)),
        LevelForm::Bias => Some(SampleLevel::Bias(handle(by)?)),
        LevelForm::Gradient => {
            let (x, y) = at_colon(by)?;
            Some(SampleLevel::Gradient {
                x: handle(x)?,
                y: handle(y)?,
            })
        }
    }
}

/// `auto`, `zero`, or one by expressions
fn level(word: &[u8]) -> Option<SampleLevel> {
    match at_colon(word) {
        Some((form, by)) => level_by(form, by),
        None => chosen(
            &[("auto", SampleLevel::Auto), ("zero", SampleLevel::Zero)],
            word,
        ),
    }
}

/// `sample IMAGE SAMPLER COORDINATE GATHER INDEX OFFSET LEVEL DEPTH CLAMP`
fn image_sample(words: &[&[u8]]) -> Option<Expression> {
    let [
        image,
        sampler,
        coordinate,
        gather,
        index,
        offset,
        by,
        depth,
        clamp,
    ] = words
    else {
        return None;
    };
    Some(Expression::ImageSample {
        image: handle(image)?,
        sampler: handle(sampler)?,
        gather: gathered(gather)?,
        coordinate: handle(coordinate)?,
        array_index: optional_handle(index)?,
        offset: optional_handle(offset)?,
        level: level(by)?,
        depth_ref: optional_handle(depth)?,
        clamp_to_edge: boolean(clamp)?,
    })
}

/// `imageload IMAGE COORDINATE INDEX SAMPLE LEVEL`, the last three `E|-`
fn image_load(words: &[&[u8]]) -> Option<Expression> {
    let [image, coordinate, index, sample, by] = words else {
        return None;
    };
    Some(Expression::ImageLoad {
        image: handle(image)?,
        coordinate: handle(coordinate)?,
        array_index: optional_handle(index)?,
        sample: optional_handle(sample)?,
        level: optional_handle(by)?,
    })
}

/// `size:E`
fn size_of_level(word: &[u8]) -> Option<ImageQuery> {
    let (query, by) = at_colon(word)?;
    if !equals(query, b"size") {
        return None;
    }
    Some(ImageQuery::Size {
        level: Some(handle(by)?),
    })
}

/// `imagequery IMAGE size|size:E|levels|layers|samples`
fn image_query(words: &[&[u8]]) -> Option<Expression> {
    let [image, word] = words else { return None };
    let queries = [
        ("size", ImageQuery::Size { level: None }),
        ("levels", ImageQuery::NumLevels),
        ("layers", ImageQuery::NumLayers),
        ("samples", ImageQuery::NumSamples),
    ];
    let query = match chosen(&queries, word) {
        Some(query) => query,
        None => size_of_level(word)?,
    };
    Some(Expression::ImageQuery {
        image: handle(image)?,
        query,
    })
}

/// `select E E E`: the condition first
fn select(words: &[&[u8]]) -> Option<Expression> {
    let [condition, accept, reject] = words else {
        return None;
    };
    Some(Expression::Select {
        condition: handle(condition)?,
        accept: handle(accept)?,
        reject: handle(reject)?,
    })
}

/// `relational all|any|isnan|isinf E`
fn relational(words: &[&[u8]]) -> Option<Expression> {
    let [fun, argument] = words else { return None };
    let functions = [
        ("all", RelationalFunction::All),
        ("any", RelationalFunction::Any),
        ("isnan", RelationalFunction::IsNan),
        ("isinf", RelationalFunction::IsInf),
    ];
    Some(Expression::Relational {
        fun: chosen(&functions, fun)?,
        argument: handle(argument)?,
    })
}

/// `math FUN E E|- E|- E|-`, `FUN` the variant's name in lower case
fn math(words: &[&[u8]]) -> Option<Expression> {
    let [fun, arg, arg1, arg2, arg3] = words else {
        return None;
    };
    Some(Expression::Math {
        fun: math_function(fun)?,
        arg: handle(arg)?,
        arg1: optional_handle(arg1)?,
        arg2: optional_handle(arg2)?,
        arg3: optional_handle(arg3)?,
    })
}

/// A width in bytes, or none for `-`.
fn width(word: &[u8]) -> Option<Option<u8>> {
    if equals(word, b"-") {
        return Some(None);
    }
    Some(Some(number_up_to(word, 255)? as u8))
}

/// `as E K W|-`
fn conversion(words: &[&[u8]]) -> Option<Expression> {
    let [expr, to, bytes] = words else {
        return None;
    };
    Some(Expression::As {
        expr: handle(expr)?,
        kind: kind(to)?,
        convert: width(bytes)?,
    })
}

/// `atomicresult T 0|1`
fn atomic_result(words: &[&[u8]]) -> Option<Expression> {
    let [ty, comparison] = words else { return None };
    Some(Expression::AtomicResult {
        ty: handle(ty)?,
        comparison: boolean(comparison)?,
    })
}

/// The query of a ray, and whether its committed hit is meant, which it isn't unless a word says so.
fn ray_query(words: &[&[u8]]) -> Option<(Handle<ExpressionTag>, bool)> {
    match words {
        [query] => Some((handle(query)?, false)),
        [query, committed] => Some((handle(query)?, boolean(committed)?)),
        _ => None,
    }
}

/// `getintersection E [0|1]`
fn intersection(words: &[&[u8]]) -> Option<Expression> {
    let (query, committed) = ray_query(words)?;
    Some(Expression::RayQueryGetIntersection { query, committed })
}

/// `vertexpositions E [0|1]`
fn vertex_positions(words: &[&[u8]]) -> Option<Expression> {
    let (query, committed) = ray_query(words)?;
    Some(Expression::RayQueryVertexPositions { query, committed })
}

/// `[C R ROLE]`: what a cooperative matrix is, if that is said
fn cooperative_shape(words: &[&[u8]]) -> Option<Option<CooperativeShape>> {
    match words {
        [] => Some(None),
        [columns, rows, of] => Some(Some(CooperativeShape {
            columns: cooperative_size(columns)?,
            rows: cooperative_size(rows)?,
            role: role(of)?,
        })),
        _ => None,
    }
}

/// `coopload E E [C R ROLE]`
fn cooperative_load(words: &[&[u8]]) -> Option<Expression> {
    let [pointer, stride, shape @ ..] = words else {
        return None;
    };
    Some(Expression::CooperativeLoad {
        shape: cooperative_shape(shape)?,
        pointer: handle(pointer)?,
        stride: handle(stride)?,
    })
}

/// `coopmuladd E E E`
fn cooperative_multiply_add(words: &[&[u8]]) -> Option<Expression> {
    let [a, b, c] = words else { return None };
    Some(Expression::CooperativeMultiplyAdd {
        a: handle(a)?,
        b: handle(b)?,
        c: handle(c)?,
    })
}

/// The expression of a form that has no words.
fn alone(expression: Expression, words: &[&[u8]]) -> Option<Expression> {
    if words.is_empty() {
        Some(expression)
    } else {
        None
    }
}

/// `load E`
fn load(words: &[&[u8]]) -> Option<Expression> {
    let pointer = only_handle(words)?;
    Some(Expression::Load { pointer })
}

/// `derivative E`
fn derivative(words: &[&[u8]]) -> Option<Expression> {
    let expr = only_handle(words)?;
    Some(Expression::Derivative { expr })
}

/// `workgroupload T`
fn workgroup_load(words: &[&[u8]]) -> Option<Expression> {
    let ty = only_handle(words)?;
    Some(Expression::WorkGroupUniformLoadResult { ty })
}

/// `subgroupresult T`
fn subgroup_result(words: &[&[u8]]) -> Option<Expression> {
    let ty = only_handle(words)?;
    Some(Expression::SubgroupOperationResult { ty })
}

/// The expression of a form other than `compose`, and of the words after it.
fn fixed_form(form: &[u8], words: &[&[u8]]) -> Option<Expression> {
    match form {
        _ if equals(form, b"access") => access(words),
        _ if equals(form, b"accessindex") => access_index(words),
        _ if equals(form, b"swizzle") => swizzle(words),
        _ if equals(form, b"argument") => Some(Expression::FunctionArgument(number(only_word(
            words,
        )?)?)),
        _ if equals(form, b"global") => Some(Expression::GlobalVariable(only_handle(words)?)),
        _ if equals(form, b"local") => Some(Expression::LocalVariable(only_handle(words)?)),
        _ if equals(form, b"load") => load(words),
        _ if equals(form, b"sample") => image_sample(words),
        _ if equals(form, b"imageload") => image_load(words),
        _ if equals(form, b"imagequery") => image_query(words),
        _ if equals(form, b"select") => select(words),
        _ if equals(form, b"derivative") => derivative(words),
        _ if equals(form, b"relational") => relational(words),
        _ if equals(form, b"math") => math(words),
        _ if equals(form, b"as") => conversion(words),
        _ if equals(form, b"callresult") => Some(Expression::CallResult(only_handle(words)?)),
        _ if equals(form, b"atomicresult") => atomic_result(words),
        _ if equals(form, b"workgroupload") => workgroup_load(words),
        _ if equals(form, b"arraylength") => Some(Expression::ArrayLength(only_handle(words)?)),
        _ if equals(form, b"proceedresult") => alone(Expression::RayQueryProceedResult, words),
        _ if equals(form, b"getintersection") => intersection(words),
        _ if equals(form, b"vertexpositions") => vertex_positions(words),
        _ if equals(form, b"ballotresult") => alone(Expression::SubgroupBallotResult, words),
        _ if equals(form, b"subgroupresult") => subgroup_result(words),
        _ if equals(form, b"coopload") => cooperative_load(words),
        _ if equals(form, b"coopmuladd") => cooperative_multiply_add(words),
        _ => fixed_expression(form, words),
    }
}

/// The expression that words say, of any form.
pub fn expression(alloc: Global, words: &mut LineWords) -> Result<Expression, Unread> {
    let form = known(words.next())?;
    if equals(form, b"compose") {
        return known(compose(alloc, words)?);
    }
    let mut room: [&[u8]; MOST_WORDS] = [&[]; MOST_WORDS];
    known(fixed_form(form, known(words.all(&mut room))?))
}
