//! The layouts of types, of which some are arrays that overrides size, and copies of types.

ghost use Rattle.std.specs.Prelude.{IsTrue};
ghost use Rattle.naga_ir.specs.Handles.{GlobalReferencesOk};
ghost use Rattle.naga_ir.specs.ItemReferences.{global_lists};

use crate::retry::{Memory, Wrong, again, check};
use naga_text::text::read_text;
use naga_valid::{LayoutErrorInner, Layouter, Module, to_ctx, validate_module_handles};
use std::alloc::Global;

/// Ten types, of which two are sized by overrides, and global expressions that name types.
const TYPES: &str = "type scalar uint 4
expr lit u32 3
expr zero 0
override 0 0 7
type array 0 o0 4
type vector 2 uint 4
expr zero 2
expr override 0
override 0 3 8
type array 2 o1 8
type vector 4 uint 4
type struct 48 0:0 4:16 4:32
type scalar float 4
type vector 4 float 4
type matrix 4 4 float 4
type array 8 2 64
expr zero 9
";

/// Whether the handles of a module are right. Its overrides take memory for that.
fn are_handles_right(alloc: Global, memory: &mut Memory, module: &Module) -> bool
    ensures { IsTrue result → GlobalReferencesOk (global_lists «module».now) }
{
    if validate_module_handles(alloc, module).is_ok() {
        return true;
    }
    memory.refused = true;
    validate_module_handles(alloc, module).is_ok()
}

/// Lays out the types, and returns whether memory was refused.
fn is_out_of_memory(layouter: &mut Layouter, module: &Module) -> Result<bool, Wrong>
    requires { GlobalReferencesOk (global_lists «module».now) }
{
    match layouter.update(to_ctx(module)) {
        Ok(()) => Ok(false),
        Err(error) => {
            check(
                error.inner == LayoutErrorInner::OutOfMemory,
                "a type has no layout\n",
            )?;
            Ok(true)
        }
    }
}

/// Lays out the types twice. Of the two calls one may be out of memory.
fn lay_out_twice(alloc: Global, memory: &mut Memory, module: &Module) -> Result<(), Wrong>
    requires { GlobalReferencesOk (global_lists «module».now) }
{
    let mut layouter = Layouter::new(alloc);
    let first = is_out_of_memory(&mut layouter, module)?;
    let second = is_out_of_memory(&mut layouter, module)?;
    check(!(first && second), "layouts are refused twice\n")?;
    memory.refused = memory.refused || first || second;
    Ok(())
}

/// Copies each type.
fn copy_types(memory: &mut Memory, module: &Module) -> Result<(), Wrong> {
    for ty in module.types.as_slice() {
        let copy = again(memory, || ty.try_clone())?;
        check(copy == *ty, "a copy of a type differs\n")?;
    }
    Ok(())
}

/// Lays out and copies the types of a module, if its handles are right.
fn use_types(alloc: Global, memory: &mut Memory, module: &Module) -> Result<(), Wrong> {
    if !are_handles_right(alloc, memory, module) {
        return Err(Wrong("the arrays aren't accepted\n"));
    }
    lay_out_twice(alloc, memory, module)?;
    copy_types(memory, module)
}

/// Lays out and copies the types.
pub fn lay_out_again(alloc: Global, memory: &mut Memory) -> Result<(), Wrong> {
    let contents = again(memory, || read_text(alloc, TYPES.as_bytes()))?;
    use_types(alloc, memory, &contents.module)
}
