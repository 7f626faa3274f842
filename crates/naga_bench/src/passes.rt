//! What passes over a module ask after each change: whether its handles are right, and an order of its items.

use crate::build::append;
use crate::random::{Digest, Random};
use crate::shaders::{Size, change, fill};
use crate::totals::Totals;
use naga_valid::{
    Expression, Handle, Item, Module, OutOfMemory, validate_module_handles, visit_order,
};
use std::alloc::Global;

fn add_order(digest: &mut Digest, order: &[Item]) {
    for item in order {
        match item {
            Item::Type_(ty) => digest.add((ty.index() as u64) << 1),
            Item::Expression(expression) => digest.add((expression.index() as u64) << 1 | 1),
        }
    }
}

/// Asks for the handles and the order of a module.
fn ask(alloc: Global, module: &Module, totals: &mut Totals) -> Result<(), OutOfMemory> {
    match validate_module_handles(alloc, module) {
        Ok(()) => totals.accept(),
        Err(fault) => totals.refuse(alloc, &fault)?,
    }
    match visit_order(alloc, module) {
        Ok(walk) => {
            add_order(&mut totals.digest, walk.order.as_slice());
            totals.digest.add(walk.looks);
        }
        Err(fault) => totals.refuse(alloc, &fault)?,
    }
    Ok(())
}

/// Asks of one module after each of so many changes, and at last of the module with a dangling handle.
fn ask_of_one(
    alloc: Global,
    changes: u32,
    size: Size,
    random: &mut Random,
    totals: &mut Totals,
) -> Result<(), OutOfMemory> {
    let mut module = Module::new(alloc);
    fill(alloc, &mut module, size, random)?;
    for _ in 0..changes {
        change(&mut module, random)?;
        ask(alloc, &module, totals)?;
    }
    let dangling = Expression::Constant(Handle::new(900_000_000));
    append(&mut module.global_expressions, dangling)?;
    ask(alloc, &module, totals)
}

/// Asks of so many modules, each with many statements.
pub fn ask_many(
    alloc: Global,
    count: u32,
    random: &mut Random,
    totals: &mut Totals,
) -> Result<(), OutOfMemory> {
    for _ in 0..count {
        let size = Size {
            types: random.from_to(50, 400),
            constants: random.from_to(50, 400),
            functions: random.from_to(20, 60),
            expressions: random.from_to(100, 400),
        };
        ask_of_one(alloc, 12, size, random, totals)?;
    }
    Ok(())
}
