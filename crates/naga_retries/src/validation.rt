//! A module with a struct that no struct can be, since its first member is an array without a length. The struct and
//! this member have names, which no text gives.

ghost use Rattle.std.specs.Prelude.{◌<◌, length};
ghost use Rattle.naga_arena.specs.Numbers.{largest_u32};

use crate::retry::{Memory, Wrong, again, check};
use naga_text::text::read_text;
use naga_valid::{
    Capabilities, Handle, List, Module, OutOfMemory, Span, StructMember, Text, Type, TypeError,
    TypeInner, UniqueArena, ValidationError, ValidationFlags, Validator, WithSpan,
};
use std::alloc::Global;

/// A number, and an array of it without a length.
const TYPES: &str = "type scalar uint 4
type array 0 dyn 4
";

fn text(alloc: Global, bytes: &str) -> Result<Text, OutOfMemory> {
    Ok(Text::from_string(String::from_str(alloc, bytes)?))
}

/// A struct that begins with the array.
fn scene(alloc: Global) -> Result<Type, OutOfMemory> {
    let mut members = List::new(alloc);
    members.push(StructMember {
        name: Some(text(alloc, "lights")?),
        ty: Handle::new(1),
        binding: None,
        offset: 0,
    })?;
    members.push(StructMember {
        name: None,
        ty: Handle::new(0),
        binding: None,
        offset: 4,
    })?;
    Ok(Type {
        name: Some(text(alloc, "Scene")?),
        inner: TypeInner::Struct { members, span: 8 },
    })
}

/// Adds the struct to the two types.
fn add_scene(alloc: Global, types: &mut UniqueArena) -> Result<(), OutOfMemory>
    requires { length types.old < largest_u32 }
{
    types.insert(scene(alloc)?, Span::new(1, 2))?;
    Ok(())
}

/// Adds the struct. If that is refused, the arena stays as it was.
fn insert_again(alloc: Global, memory: &mut Memory, types: &mut UniqueArena) -> Result<(), Wrong> {
    check(types.len() == 2, "the text has two types\n")?;
    if add_scene(alloc, types).is_err() {
        memory.refused = true;
        check(types.len() == 2, "a refused type is in the arena\n")?;
        check(add_scene(alloc, types).is_ok(), "a type is refused twice\n")?;
    }
    check(types.len() == 3, "the arena lacks the type\n")
}

/// Copies the struct.
fn copy_again(memory: &mut Memory, types: &UniqueArena) -> Result<(), Wrong> {
    let Some(ty) = types.as_slice().get(2) else {
        return Err(Wrong("the arena lacks the type\n"));
    };
    let copy = again(memory, || ty.inner.try_clone())?;
    check(copy == ty.inner, "a copy of a type differs\n")
}

/// Whether an error is of the array that is the first member, and names the member.
fn names_lights(source: &TypeError) -> bool {
    match source {
        TypeError::InvalidDynamicArray(name, array) => {
            name.as_str() == "lights" && array.index() == 1
        }
        _ => false,
    }
}

/// Whether a refusal is of the struct, and says so.
fn is_of_scene(error: &WithSpan<ValidationError>) -> bool {
    match error.as_inner() {
        ValidationError::Type_ {
            handle,
            name,
            source,
        } => {
            handle.index() == 2
                && name.as_str() == "Scene"
                && error.span() == Some(Span::new(1, 2))
                && names_lights(source)
        }
        _ => false,
    }
}

/// Validates the module, which is refused for its struct, and returns whether it was refused for memory before that.
/// Either leaves the validator as after `reset`.
fn is_out_of_memory(validator: &mut Validator, module: &Module) -> Result<bool, Wrong> {
    let Err(error) = validator.validate(module) else {
        return Err(Wrong("a struct that begins with an array without a length is accepted\n"));
    };
    check(
        validator.type_count() == 0,
        "infos stay after a module was refused\n",
    )?;
    if let ValidationError::OutOfMemory = error.as_inner() {
        check(error.span() == None, "refused memory has a span\n")?;
        return Ok(true);
    }
    check(
        is_of_scene(&error),
        "the module is refused for something else\n",
    )?;
    Ok(false)
}

/// Validates the module twice. Of the two calls one may be out of memory, and the other then returns what a fresh
/// validator returns.
fn validate_twice(alloc: Global, memory: &mut Memory, module: &Module) -> Result<(), Wrong> {
    let flags = ValidationFlags::default();
    let mut validator = Validator::new(alloc, flags, Capabilities::default());
    let first = is_out_of_memory(&mut validator, module)?;
    let second = is_out_of_memory(&mut validator, module)?;
    check(!(first && second), "memory is refused twice\n")?;
    memory.refused = memory.refused || first || second;
    Ok(())
}

/// Adds the struct to a module, copies it, and validates the module.
fn validate_module(alloc: Global, memory: &mut Memory, module: &mut Module) -> Result<(), Wrong> {
    insert_again(alloc, memory, &mut module.types)?;
    copy_again(memory, &module.types)?;
    validate_twice(alloc, memory, module)
}

/// Validates a module of a struct that no struct can be.
pub fn validate_again(alloc: Global, memory: &mut Memory) -> Result<(), Wrong> {
    let mut contents = again(memory, || read_text(alloc, TYPES.as_bytes()))?;
    validate_module(alloc, memory, &mut contents.module)
}
