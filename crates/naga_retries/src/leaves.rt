//! The leaves of a type, whose path takes memory, and which types have leaves.

ghost use Rattle.std.specs.Prelude.{◌≡◌, length};
ghost use Rattle.naga_ir.specs.Handles.{GlobalReferencesOk};
ghost use Rattle.naga_ir.specs.ItemReferences.{global_lists};

use crate::retry::{Memory, Wrong, again, check};
use naga_text::text::read_text;
use naga_valid::{Handle, Module, leaf_at, leaves_of, validate_module_handles};
use std::alloc::Global;

/// Five arrays around a struct: a path of six indices takes more than one request for memory. The first member of the
/// struct has no leaf, so that which types have takes one more.
const ARRAYS: &str = "type scalar uint 4
type sampler 0
type struct 4 1:0 0:0
type array 2 dyn 4
type array 3 dyn 8
type array 4 dyn 16
type array 5 dyn 32
type array 6 dyn 64
";

/// Goes over all leaves of the last type: each is the leaf at its path.
fn find_in_module(alloc: Global, memory: &mut Memory, module: &Module) -> Result<(), Wrong>
    requires references { GlobalReferencesOk (global_lists «module».now) }
    requires types { length «module».now.types ≡ 8 }
{
    let ty = Handle::new(7);
    let mut leaves = leaves_of(alloc, module, ty, 2);
    for number in 0..32u32 {
        let mut found = leaves.next();
        if found.is_err() {
            memory.refused = true;
            found = leaves.next();
        }
        let path = [
            number / 16,
            number / 8 % 2,
            number / 4 % 2,
            number / 2 % 2,
            number % 2,
            1,
        ];
        check(leaves.path() == &path[..], "a leaf is out of order\n")?;
        check(
            found == Ok(leaf_at(module, ty, &path, 2)),
            "a leaf isn't the one at its path\n",
        )?;
    }
    check(leaves.next() == Ok(None), "a leaf follows the last one\n")
}

/// Goes over the leaves of the last type of a module of arrays, if its handles are right.
fn check_module(alloc: Global, memory: &mut Memory, module: &Module) -> Result<(), Wrong> {
    if module.types.len() == 8 && validate_module_handles(alloc, module).is_ok() {
        find_in_module(alloc, memory, module)
    } else {
        Err(Wrong("the arrays aren't accepted\n"))
    }
}

/// Goes over the leaves of the arrays.
pub fn find_leaves(alloc: Global, memory: &mut Memory) -> Result<(), Wrong> {
    let contents = again(memory, || read_text(alloc, ARRAYS.as_bytes()))?;
    check_module(alloc, memory, &contents.module)
}
