//! What is known of a module, of a function and of types.

ghost use Rattle.std.specs.Prelude.{◌<◌};
ghost use Rattle.naga_arena.specs.Numbers.{largest_u32};

use crate::retry::{Memory, Wrong, again, check};
use naga_valid::{
    Alignment, FunctionInfo, Handle, ModuleInfo, Scalar, ShaderStages, TypeFlags, TypeInfo,
    TypeInfos, TypeInner, TypeResolution,
};
use std::alloc::Global;

/// A type that is given as a value.
fn float() -> TypeResolution {
    TypeResolution::Value(TypeInner::Scalar(Scalar::F32))
}

/// Fills an info, and copies it.
pub fn fill_module_info(alloc: Global, memory: &mut Memory) -> Result<(), Wrong> {
    let mut info = ModuleInfo::new(alloc);
    for stages in [ShaderStages::VERTEX, ShaderStages::FRAGMENT] {
        again(memory, || info.push_type(TypeFlags::DATA))?;
        again(memory, || info.push_expression(float()))?;
        if info
            .push_function(FunctionInfo::new(alloc, stages))
            .is_err()
        {
            memory.refused = true;
            let pushed = info.push_function(FunctionInfo::new(alloc, stages));
            check(pushed.is_ok(), "a function is refused twice\n")?;
        }
        if info
            .push_entry_point(FunctionInfo::new(alloc, stages))
            .is_err()
        {
            memory.refused = true;
            let pushed = info.push_entry_point(FunctionInfo::new(alloc, stages));
            check(pushed.is_ok(), "an entry point is refused twice\n")?;
        }
    }
    again(memory, || info.try_clone())?;
    Ok(())
}

/// Makes room in an info, and then fills the room, which takes no memory.
pub fn make_room(alloc: Global, memory: &mut Memory) -> Result<(), Wrong> {
    let mut info = ModuleInfo::new(alloc);
    again(memory, || info.reserve(3, 5))?;
    for _ in 0..3 {
        let pushed = info.push_type(TypeFlags::DATA);
        check(pushed.is_ok(), "a type within the room is refused\n")?;
    }
    for _ in 0..5 {
        let pushed = info.push_expression(float());
        check(pushed.is_ok(), "an expression within the room is refused\n")?;
    }
    Ok(())
}

/// Adds the type of an expression of a function, and copies what is known of the function.
pub fn fill_function_info(alloc: Global, memory: &mut Memory) -> Result<(), Wrong> {
    let mut info = FunctionInfo::new(alloc, ShaderStages::VERTEX);
    again(memory, || info.push(float()))?;
    again(memory, || info.try_clone())?;
    Ok(())
}

/// Adds an info as the one of this index. If that is refused, there was no room, and the infos stay as they were.
fn add_type_info(
    memory: &mut Memory,
    infos: &mut TypeInfos,
    index: u32,
    info: TypeInfo,
) -> Result<(), Wrong>
    requires { index < largest_u32 }
{
    let had_room = infos.len() < infos.room();
    if infos.push(info).is_err() {
        memory.refused = true;
        check(!had_room, "an info within the room is refused\n")?;
        check(
            infos.len() == index as usize,
            "a refused info is in the list\n",
        )?;
        check(infos.push(info).is_ok(), "an info is refused twice\n")?;
    }
    let added = infos.len() == index as usize + 1 && infos.get(Handle::new(index)) == info;
    check(added, "an info is not the one that was added\n")
}

/// Adds infos of two kinds by turns.
fn fill_type_infos(memory: &mut Memory, infos: &mut TypeInfos) -> Result<(), Wrong> {
    let flags = [TypeFlags::DATA, TypeFlags::SIZED];
    for index in 0..40u32 {
        let info = TypeInfo::new(flags[index as usize % 2], Alignment::ONE);
        add_type_info(memory, infos, index, info)?;
    }
    Ok(())
}

/// Takes room for some infos, and adds more than there is room for.
pub fn add_type_infos(alloc: Global, memory: &mut Memory) -> Result<(), Wrong> {
    let mut infos = again(memory, || TypeInfos::with_room(alloc, 5))?;
    fill_type_infos(memory, &mut infos)
}
