//! Global expressions that `validate` doesn't reach: an argument and a splat of a vector, which have no types, and
//! what is made of an override that must have its value, which is refused before. All others are in
//! `constant_expressions.txt` and `literals.txt` of `naga_query`.

ghost use Rattle.std.specs.Prelude.{◌≡◌, IfOk, length};

use super::{add, add_type, all_exist, assert_references_ok, assert_same_for, with_module};
use naga_exprs::const_expression::validate_const_expression;
use naga_flags::flags::{Capabilities, ShaderStages};
use naga_info::const_expression_error::ConstExpressionError;
use naga_info::context::ExprContext;
use naga_info::module_info::ModuleInfo;
use naga_ir::expression::{BinaryOperator, Expression, Literal};
use naga_ir::handle::Handle;
use naga_ir::ir::{Module, Override};
use naga_ir::list::List;
use naga_ir::memory::OutOfMemory;
use naga_ir::span::Span;
use naga_ir::types::{Scalar, TypeInner, VectorSize};
use naga_typing::context::to_ctx;
use naga_typing::expression_kind::ExpressionKindTracker;
use naga_typing::plain_typing::PlainTyping;
use naga_typing::typifier::TypeResolution;
use std::alloc::Global;
use std::process::Abort;
use std::test::Fail;

/// The index of the type of unsigned numbers.
const WORD: u32 = 0;

/// The index of the type of pairs of them.
const PAIR: u32 = 1;

// The expressions.
const LITERAL: u32 = 0;

const OVERRIDE: u32 = 1;

const SUM: u32 = 2;

const BOTH: u32 = 3;

const ZEROS: u32 = 4;

const SPLAT: u32 = 5;

const ARGUMENT: u32 = 6;

/// The types of these.
const TYPES: &[u32] = &[WORD, WORD, WORD, PAIR, PAIR, PAIR, WORD];

/// Adds a type of numbers, one of pairs of them, and an override.
fn add_items(rt: &impl Abort, module: &mut Module) -> Result<(), Fail> {
    let scalar = Scalar::U32;
    let size = VectorSize::Bi;
    let ty = add_type(rt, module, TypeInner::Scalar(scalar))?;
    add_type(rt, module, TypeInner::Vector { size, scalar })?;
    let over = Override {
        name: None,
        id: None,
        ty,
        init: None,
    };
    assert!(rt; module.overrides.is_empty());
    module.overrides.append(over, Span::default())?;
    Ok(())
}

/// A pair of a literal and an override.
fn pair_of_both(alloc: Global) -> Result<Expression, OutOfMemory> {
    let mut list = List::new(alloc);
    list.push(Handle::new(LITERAL))?;
    list.push(Handle::new(OVERRIDE))?;
    Ok(Expression::Compose {
        ty: Handle::new(PAIR),
        components: list,
    })
}

/// Adds expressions, of which the last two have no types in a module that is validated.
fn add_expressions(rt: &impl Abort, alloc: Global, module: &mut Module) -> Result<(), Fail> {
    add_items(rt, module)?;
    for expression in [
        Expression::Literal(Literal::U32(5)),
        Expression::Override(Handle::new(0)),
        Expression::Binary {
            op: BinaryOperator::Add,
            left: Handle::new(LITERAL),
            right: Handle::new(OVERRIDE),
        },
        pair_of_both(alloc)?,
        Expression::ZeroValue(Handle::new(PAIR)),
        Expression::Splat {
            size: VectorSize::Bi,
            value: Handle::new(ZEROS),
        },
        Expression::FunctionArgument(0),
    ] {
        add(rt, module, expression)?;
    }
    Ok(())
}

/// What is known of the module of `add_expressions`.
fn known(rt: &impl Abort, alloc: Global) -> Result<ModuleInfo, OutOfMemory> {
    let mut info = ModuleInfo::new(alloc);
    for ty in TYPES {
        assert!(rt; *ty < 100);
        info.push_expression(TypeResolution::Handle(Handle::new(*ty)))?;
    }
    Ok(info)
}

/// The kinds of a module's global expressions.
fn kinds_of(
    rt: &impl Abort,
    alloc: Global,
    module: &Module,
) -> Result<ExpressionKindTracker, OutOfMemory>
    ensures { IfOk result (λ kinds. length kinds ≡ length «module».now.global_expressions) }
{
    assert_references_ok(rt, alloc, module);
    ExpressionKindTracker::from_arena(alloc, &module.global_expressions)
}

/// The result of validating the global expression of an index, by an info of its module.
fn said_of(
    rt: &(impl AllocGlobal + Abort),
    module: &Module,
    info: &ModuleInfo,
    overrides_resolved: bool,
    index: u32,
) -> Result<(), ConstExpressionError> {
    let kinds = kinds_of(rt, rt.alloc(), module).expect(rt, "memory");
    assert_references_ok(rt, rt.alloc(), module);
    assert!(rt; index < 100);
    assert!(rt; (index as usize) < module.global_expressions.len());
    assert!(rt; index as usize <= info.const_expression_types().len());
    assert!(rt; all_exist(info.const_expression_types(), &module.types));
    let ctx = ExprContext {
        capabilities: Capabilities::SHADER_INT64,
        overrides_resolved,
        subgroup_stages: ShaderStages::VERTEX,
        typing: &PlainTyping,
    };
    validate_const_expression(ctx, Handle::new(index), to_ctx(module), info, &kinds)
}

/// Makes sure of the results of validating global expressions, by index.
fn assert_said(
    rt: &(impl AllocGlobal + Abort),
    overrides_resolved: bool,
    rows: &[(u32, Result<(), ConstExpressionError>)],
) -> Result<(), Fail> {
    let info = known(rt, rt.alloc())?;
    with_module(rt.alloc(), |module| {
        add_expressions(rt, rt.alloc(), module)?;
        for (index, want) in rows {
            let said = said_of(rt, module, &info, overrides_resolved, *index);
            assert_same_for(rt, index, &said, want);
        }
        Ok(())
    })
}

#[test]
fn expressions_that_validate_does_not_reach_are_refused(rt: HostRuntime) -> Result<(), Fail> {
    let no_const = || Err(ConstExpressionError::NonConstOrOverride);
    let no_splat = ConstExpressionError::InvalidSplatType(Handle::new(ZEROS));
    assert_said(
        &rt,
        false,
        &[(ARGUMENT, no_const()), (SPLAT, Err(no_splat))],
    )?;
    // Overrides must have their values: a sum of one must be evaluated, and a composition may stay.
    assert_said(
        &rt,
        true,
        &[
            (ARGUMENT, no_const()),
            (SUM, Err(ConstExpressionError::NonFullyEvaluatedConst)),
            (BOTH, Ok(())),
        ],
    )
}
