//! Functions whose blocks are nested deep, in statements of each kind that has blocks.

use super::{assert_same_for, with_module};
use naga_handles::error::{InvalidHandleError, ValidationFault};
use naga_handles::handles::validate_module_handles;
use naga_ir::expression::{Expression, Literal};
use naga_ir::handle::{BadHandle, Handle};
use naga_ir::ir::{Function, Module};
use naga_ir::memory::OutOfMemory;
use naga_ir::span::Span;
use naga_ir::statement::{Block, Statement, SwitchCase};
use naga_ir::tags::ExpressionTag;
use naga_ir::text::StaticText;
use std::alloc::Global;
use std::process::Abort;

/// A statement with a block in it: of another kind at each level, in the place of each block that a statement has.
fn around(alloc: Global, level: u32, block: Block) -> Result<Statement, OutOfMemory> {
    let condition = Handle::new(0);
    let other = Block::new(alloc);
    Ok(match level % 6 {
        0 => Statement::Block(block),
        1 => Statement::If {
            condition,
            accept: block,
            reject: other,
        },
        2 => Statement::If {
            condition,
            accept: other,
            reject: block,
        },
        3 => {
            let mut cases = Vec::new(alloc);
            cases.push(SwitchCase {
                value: None,
                body: block,
                fall_through: false,
            })?;
            Statement::Switch {
                selector: condition,
                cases,
            }
        }
        4 => Statement::Loop {
            body: block,
            continuing: other,
            break_if: None,
        },
        _ => Statement::Loop {
            body: other,
            continuing: block,
            break_if: Some(condition),
        },
    })
}

/// A block that returns an expression, in `depth` blocks.
fn nested(alloc: Global, depth: u32, value: Handle<ExpressionTag>) -> Result<Block, OutOfMemory> {
    let mut block = Block::new(alloc);
    block.push(Statement::Return { value: Some(value) })?;
    for level in 0..depth {
        let mut outer = Block::new(alloc);
        outer.push(around(alloc, level, block)?)?;
        block = outer;
    }
    Ok(block)
}

/// Adds a function of one expression, which returns an expression `depth` blocks deep.
fn add_function(
    rt: &impl Abort,
    alloc: Global,
    module: &mut Module,
    depth: u32,
    value: Handle<ExpressionTag>,
) -> Result<(), OutOfMemory> {
    let mut function = Function::new(alloc);
    assert!(rt; function.expressions.is_empty() && module.functions.is_empty());
    function
        .expressions
        .append(Expression::Literal(Literal::U32(1)), Span::default())?;
    function.body = nested(alloc, depth, value)?;
    module.functions.append(function, Span::default())?;
    Ok(())
}

/// Makes sure of the result for a function that returns an expression `depth` blocks deep.
fn assert_handles(
    rt: &impl Abort,
    alloc: Global,
    depth: u32,
    value: Handle<ExpressionTag>,
    wanted: Result<(), ValidationFault>,
) {
    let found = with_module(alloc, |module: &mut Module| {
        add_function(rt, alloc, module, depth, value).expect(rt, "memory");
        validate_module_handles(alloc, module)
    });
    assert_same_for(rt, &depth, &found, &wanted);
}

/// The text that describes modules has a limit on how deep blocks nest, and the pass has none.
#[test]
fn handles_are_checked_two_hundred_blocks_deep(rt: HostRuntime) {
    for depth in [0, 6, 200] {
        assert_handles(&rt, rt.alloc(), depth, Handle::new(0), Ok(()));
        assert_handles(
            &rt,
            rt.alloc(),
            depth,
            Handle::new(4_294_967_294),
            Err(ValidationFault::Invalid(InvalidHandleError::BadHandle(BadHandle {
                kind: StaticText::new("Expression"),
                index: 4_294_967_294,
            }))),
        );
    }
}
