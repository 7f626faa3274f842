//! The global expressions, constants, overrides and variables of a made module.

use crate::build::append;
use crate::random::Random;
use crate::types::Types;
use naga_valid::{
    AddressSpace, Constant, Expression, ExpressionTag, GlobalVariable, GlobalVariableTag, Handle,
    List, Literal, MemoryDecorations, Module, OutOfMemory, Override, StorageAccess, TypeTag,
    VectorSize,
};
use std::alloc::Global;

/// The variables that functions of a made module use.
#[derive(Clone, Copy)]
pub struct Variables {
    /// A struct of a uniform buffer.
    pub material: Handle<GlobalVariableTag>,
    /// Vectors of a storage buffer.
    pub vectors: Handle<GlobalVariableTag>,
    pub image: Handle<GlobalVariableTag>,
    pub sampler: Handle<GlobalVariableTag>,
}

/// Adds a literal of a float.
fn add_float(
    module: &mut Module,
    random: &mut Random,
) -> Result<Handle<ExpressionTag>, OutOfMemory> {
    let literal = Literal::F32(random.below(0x7f00_0000));
    append(&mut module.global_expressions, Expression::Literal(literal))
}

/// Adds a vector of four literals.
fn add_vector(
    alloc: Global,
    module: &mut Module,
    types: &Types,
    random: &mut Random,
) -> Result<Handle<ExpressionTag>, OutOfMemory> {
    let mut components = List::new(alloc);
    for _ in 0..4 {
        components.push(add_float(module, random)?)?;
    }
    let expression = Expression::Compose {
        ty: types.vector4,
        components,
    };
    append(&mut module.global_expressions, expression)
}

/// Adds a value of some form, and returns its type and the expression.
fn add_value(
    alloc: Global,
    module: &mut Module,
    types: &Types,
    random: &mut Random,
) -> Result<(Handle<TypeTag>, Handle<ExpressionTag>), OutOfMemory> {
    match random.below(5) {
        0 => {
            let literal = Literal::U32(random.below(1_000_000));
            let literal = Expression::Literal(literal);
            Ok((types.uint, append(&mut module.global_expressions, literal)?))
        }
        1 => {
            let value = add_float(module, random)?;
            let size = VectorSize::Tri;
            let splat = Expression::Splat { size, value };
            Ok((
                types.vector3,
                append(&mut module.global_expressions, splat)?,
            ))
        }
        2 => {
            let zero = Expression::ZeroValue(types.matrix);
            Ok((types.matrix, append(&mut module.global_expressions, zero)?))
        }
        3 => Ok((types.float, add_float(module, random)?)),
        _ => Ok((types.vector4, add_vector(alloc, module, types, random)?)),
    }
}

/// Adds constants, of which each fourth is the initialiser of the next.
fn add_constants(
    alloc: Global,
    module: &mut Module,
    types: &Types,
    count: u32,
    random: &mut Random,
) -> Result<(), OutOfMemory> {
    for _ in 0..count {
        let (ty, init) = add_value(alloc, module, types, random)?;
        let name = None;
        let constant = append(&mut module.constants, Constant { name, ty, init })?;
        if random.below(4) == 0 {
            let name = None;
            let init = append(
                &mut module.global_expressions,
                Expression::Constant(constant),
            )?;
            append(&mut module.constants, Constant { name, ty, init })?;
        }
    }
    Ok(())
}

/// Adds overrides with numbers.
fn add_overrides(
    module: &mut Module,
    types: &Types,
    count: u16,
    random: &mut Random,
) -> Result<(), OutOfMemory> {
    for id in 0..count {
        let init = add_float(module, random)?;
        let over = Override {
            name: None,
            id: Some(id),
            ty: types.float,
            init: Some(init),
        };
        append(&mut module.overrides, over)?;
    }
    Ok(())
}

/// Adds a variable without a first value.
fn add_variable(
    module: &mut Module,
    space: AddressSpace,
    ty: Handle<TypeTag>,
) -> Result<Handle<GlobalVariableTag>, OutOfMemory> {
    let variable = GlobalVariable {
        name: None,
        space,
        binding: None,
        ty,
        init: None,
        memory_decorations: MemoryDecorations::NONE,
    };
    append(&mut module.global_variables, variable)
}

/// Adds the variables that functions use, and some more.
fn add_variables(
    module: &mut Module,
    types: &Types,
    random: &mut Random,
) -> Result<Variables, OutOfMemory> {
    let access = StorageAccess {
        load: true,
        store: true,
        atomic: false,
    };
    let material = add_variable(module, AddressSpace::Uniform, types.material)?;
    let vectors = add_variable(module, AddressSpace::Storage { access }, types.vectors)?;
    let image = add_variable(module, AddressSpace::Handle, types.image)?;
    let sampler = add_variable(module, AddressSpace::Handle, types.sampler)?;
    for _ in 0..random.below(20) {
        add_variable(module, AddressSpace::Private, types.vector4)?;
    }
    Ok(Variables {
        material,
        vectors,
        image,
        sampler,
    })
}

/// Adds constants, overrides and variables.
pub fn add_values(
    alloc: Global,
    module: &mut Module,
    types: &Types,
    constants: u32,
    random: &mut Random,
) -> Result<Variables, OutOfMemory> {
    add_constants(alloc, module, types, constants, random)?;
    add_overrides(module, types, 6, random)?;
    add_variables(module, types, random)
}
