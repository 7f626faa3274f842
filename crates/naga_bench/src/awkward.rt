//! Inputs that are large in one way only, and one that is refused at its last expression.

use crate::build::{append, insert};
use crate::random::Random;
use crate::shaders::{Size, fill, new_validator, validate};
use crate::totals::Totals;
use crate::types::{Laid, Members, Shape};
use naga_valid::{
    ArraySize, Constant, Expression, ExpressionTag, FullTyping, Function, Handle, List, Literal,
    Module, OutOfMemory, Override, Scalar, TypeInner, TypeTag, UnaryOperator, Validator,
    VectorSize,
};
use std::alloc::Global;
use std::num::NonZeroU32;

fn scalar(ty: Handle<TypeTag>) -> Laid {
    Laid {
        ty,
        shape: Shape::Uint,
        size: 4,
        alignment: 4,
    }
}

/// A struct of so many members.
fn add_members(
    alloc: Global,
    module: &mut Module,
    count: u32,
    random: &mut Random,
) -> Result<(), OutOfMemory> {
    let uint = insert(&mut module.types, TypeInner::Scalar(Scalar::U32))?;
    let float = insert(&mut module.types, TypeInner::Scalar(Scalar::F32))?;
    let mut members = Members::new(alloc);
    for _ in 0..count {
        let ty = if random.below(2) == 0 { uint } else { float };
        members.put(&scalar(ty))?;
    }
    members.finish(&mut module.types)?;
    Ok(())
}

/// Arrays, each sized by an override of its own, which have all numbers that overrides can have.
fn add_sized(module: &mut Module, count: u32, random: &mut Random) -> Result<(), OutOfMemory> {
    let uint = insert(&mut module.types, TypeInner::Scalar(Scalar::U32))?;
    for index in 0..count {
        let literal = Expression::Literal(Literal::U32(random.from_to(1, 1000)));
        let init = append(&mut module.global_expressions, literal)?;
        let over = Override {
            name: None,
            id: u16::try_from(index).ok(),
            ty: uint,
            init: Some(init),
        };
        let size = append(&mut module.overrides, over)?;
        let inner = TypeInner::Array {
            base: uint,
            size: ArraySize::Pending(size),
            stride: 4,
        };
        insert(&mut module.types, inner)?;
    }
    Ok(())
}

/// Structs, each with the one before as its only member and up to three words after it.
fn add_chain(
    alloc: Global,
    module: &mut Module,
    count: u32,
    random: &mut Random,
) -> Result<(), OutOfMemory> {
    let mut inner = scalar(insert(&mut module.types, TypeInner::Scalar(Scalar::U32))?);
    for _ in 0..count {
        let mut members = Members::new(alloc);
        members.put(&inner)?;
        members.pad(4 * random.below(4));
        inner = members.finish(&mut module.types)?;
    }
    Ok(())
}

/// Values that are all composed of one array.
fn add_compositions(
    alloc: Global,
    module: &mut Module,
    count: u32,
    random: &mut Random,
) -> Result<(), OutOfMemory> {
    let float = insert(&mut module.types, TypeInner::Scalar(Scalar::F32))?;
    let base = insert(
        &mut module.types,
        TypeInner::Vector {
            size: VectorSize::Quad,
            scalar: Scalar::F32,
        },
    )?;
    let array = TypeInner::Array {
        base,
        size: match NonZeroU32::new(16) {
            Some(count) => ArraySize::Constant(count),
            None => ArraySize::Dynamic,
        },
        stride: 16,
    };
    let ty = insert(&mut module.types, array)?;
    let zero = append(&mut module.global_expressions, Expression::ZeroValue(base))?;
    let literal = Expression::Literal(Literal::F32(random.below(0x7f00_0000)));
    let value = append(&mut module.global_expressions, literal)?;
    let size = VectorSize::Quad;
    let splat = append(
        &mut module.global_expressions,
        Expression::Splat { size, value },
    )?;
    for _ in 0..count {
        add_composition(alloc, module, ty, [zero, splat], random)?;
    }
    append(
        &mut module.constants,
        Constant {
            name: None,
            ty: float,
            init: value,
        },
    )?;
    Ok(())
}

/// A value of an array of sixteen elements.
fn add_composition(
    alloc: Global,
    module: &mut Module,
    ty: Handle<TypeTag>,
    elements: [Handle<ExpressionTag>; 2],
    random: &mut Random,
) -> Result<(), OutOfMemory> {
    let mut components = List::new(alloc);
    for _ in 0..16 {
        components.push(elements[random.below(2) as usize % 2])?;
    }
    let expression = Expression::Compose { ty, components };
    append(&mut module.global_expressions, expression)?;
    Ok(())
}

/// A function whose last expression is refused: the logical negation of a number.
fn add_refused(alloc: Global, module: &mut Module) -> Result<(), OutOfMemory> {
    let mut function = Function::new(alloc);
    let literal = Expression::Literal(Literal::U32(1));
    let expr = append(&mut function.expressions, literal)?;
    let op = UnaryOperator::LogicalNot;
    append(&mut function.expressions, Expression::Unary { op, expr })?;
    append(&mut module.functions, function)?;
    Ok(())
}

/// Adds what makes a module large in the way of this number.
fn make(
    alloc: Global,
    module: &mut Module,
    way: u32,
    random: &mut Random,
) -> Result<(), OutOfMemory> {
    match way {
        0 => add_members(alloc, module, 20_000, random),
        1 => add_sized(module, 60_000, random),
        2 => add_chain(alloc, module, 20_000, random),
        3 => add_compositions(alloc, module, 20_000, random),
        _ => {
            let size = Size {
                types: 100,
                constants: 100,
                functions: 10,
                expressions: 1000,
            };
            fill(alloc, module, size, random)?;
            add_refused(alloc, module)
        }
    }
}

fn validate_one(
    alloc: Global,
    validator: &mut Validator<FullTyping>,
    way: u32,
    random: &mut Random,
    totals: &mut Totals,
) -> Result<(), OutOfMemory> {
    let mut module = Module::new(alloc);
    make(alloc, &mut module, way, random)?;
    validate(alloc, validator, &module, totals)
}

/// Validates so many modules, each large in one of five ways.
pub fn validate_awkward(
    alloc: Global,
    count: u32,
    random: &mut Random,
    totals: &mut Totals,
) -> Result<(), OutOfMemory> {
    let mut validator = new_validator(alloc);
    for index in 0..count {
        validate_one(alloc, &mut validator, index % 5, random, totals)?;
    }
    Ok(())
}
