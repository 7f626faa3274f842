//! Answers about the leaves of types: their paths, and where they are in memory.

ghost use Rattle.std.specs.Prelude.{◌<◌, length as length_of};
ghost use Rattle.naga_ir.specs.Handles.{GlobalReferencesOk};
ghost use Rattle.naga_ir.specs.ItemReferences.{global_lists};

use crate::answers::modules::add_not_applicable;
use naga_text::number::{handle, number};
use naga_valid::{Handle, Leaf, Module, OutOfMemory, TypeInner, TypeTag, leaf_at, leaves_of};
use std::alloc::{AllocError, Global};

/// How many leaves are added of one type.
const MOST_LEAVES: usize = 1000;

/// Adds where a leaf is, its size and its alignment in bytes.
fn add_leaf(answer: &mut String, leaf: Leaf) -> Result<(), AllocError> {
    let first = leaf.first;
    let size = leaf.size;
    let alignment = leaf.alignment;
    write!(answer, "at {first}, size {size}, alignment {alignment}\n")
}

/// The type to which an index leads in a type, if it leads to one.
fn part_type(module: &Module, ty: Handle<TypeTag>, index: u32) -> Option<Handle<TypeTag>> {
    match &module.types.as_slice().get(ty.index())?.inner {
        TypeInner::Struct { members, .. } => Some(members.as_slice().get(index as usize)?.ty),
        TypeInner::Array { base, .. } | TypeInner::BindingArray { base, .. } => Some(*base),
        _ => None,
    }
}

/// The name of a member of a type, if the index leads to one and it has one.
fn member_name(module: &Module, ty: Handle<TypeTag>, index: u32) -> Option<&str> {
    match &module.types.as_slice().get(ty.index())?.inner {
        TypeInner::Struct { members, .. } => match &members.as_slice().get(index as usize)?.name {
            Some(name) => Some(name.as_str()),
            None => None,
        },
        _ => None,
    }
}

/// Adds a step of a path in a type: the name of a member that has one, and else the index.
fn add_step(
    answer: &mut String,
    module: &Module,
    ty: Handle<TypeTag>,
    index: u32,
) -> Result<(), AllocError> {
    match member_name(module, ty, index) {
        Some(name) => write!(answer, ".{name}"),
        None => write!(answer, ".{index}"),
    }
}

/// Adds a path from a type, a dot for the whole value.
fn add_path(
    answer: &mut String,
    module: &Module,
    ty: Handle<TypeTag>,
    path: &[u32],
) -> Result<(), AllocError> {
    if path.is_empty() {
        return answer.push_str(".");
    }
    let mut within = ty;
    for index in path {
        add_step(answer, module, within, *index)?;
        if let Some(part) = part_type(module, within, *index) {
            within = part;
        }
    }
    Ok(())
}

/// Adds the path and the place of each leaf of a type, up to `MOST_LEAVES`.
fn add_all(
    alloc: Global,
    answer: &mut String,
    module: &Module,
    ty: Handle<TypeTag>,
    length: u32,
) -> Result<(), OutOfMemory>
    requires exists { ty < length_of «module».now.types }
    requires references { GlobalReferencesOk (global_lists «module».now) }
{
    let mut leaves = leaves_of(alloc, module, ty, length);
    for _ in 0..MOST_LEAVES {
        let Some(leaf) = leaves.next()? else {
            return Ok(());
        };
        add_path(answer, module, ty, leaves.path())?;
        answer.push_str(" ")?;
        add_leaf(answer, leaf)?;
    }
    answer.push_str("and so on\n")?;
    Ok(())
}

/// The type of a query, and how many elements runtime-sized arrays have: one, unless a word says otherwise.
fn type_and_length(words: &[&[u8]]) -> Option<(Handle<TypeTag>, u32)> {
    match words {
        [ty] => Some((handle(ty)?, 1)),
        [ty, length] => Some((handle(ty)?, number(length)?)),
        _ => None,
    }
}

/// `leaves T [N]`: adds the leaves of a type whose runtime-sized arrays have N elements.
pub fn add_leaves(
    alloc: Global,
    answer: &mut String,
    module: &Module,
    words: &[&[u8]],
) -> Result<(), OutOfMemory>
    requires { GlobalReferencesOk (global_lists «module».now) }
{
    match type_and_length(words) {
        Some((ty, length)) if ty.index() < module.types.len() => {
            add_all(alloc, answer, module, ty, length)
        }
        _ => Ok(add_not_applicable(answer, "no such type")?),
    }
}

/// The indices that words write.
fn path_of(alloc: Global, words: &[&[u8]]) -> Result<Option<Vec<u32>>, AllocError> {
    let mut path = Vec::new(alloc);
    for word in words {
        match number(word) {
            Some(index) => path.push(index)?,
            None => return Ok(None),
        }
    }
    Ok(Some(path))
}

/// The type of a query, how many elements runtime-sized arrays have, and the words of a path.
fn type_length_and_path<'a, 'b>(
    words: &'a [&'b [u8]],
) -> Option<(Handle<TypeTag>, u32, &'a [&'b [u8]])> {
    let [ty, length, path @ ..] = words else {
        return None;
    };
    Some((handle(ty)?, number(length)?, path))
}

/// `leaf T N PATH..`: adds the leaf to which a path leads in a type whose runtime-sized arrays have N elements.
pub fn add_leaf_at(
    alloc: Global,
    answer: &mut String,
    module: &Module,
    words: &[&[u8]],
) -> Result<(), AllocError>
    requires { GlobalReferencesOk (global_lists «module».now) }
{
    let Some((ty, length, path)) = type_length_and_path(words) else {
        return add_not_applicable(answer, "no type, length and path");
    };
    let Some(path) = path_of(alloc, path)? else {
        return add_not_applicable(answer, "not a path");
    };
    if ty.index() >= module.types.len() {
        return add_not_applicable(answer, "no such type");
    }
    match leaf_at(module, ty, &path, length) {
        Some(leaf) => add_leaf(answer, leaf),
        None => answer.push_str("none\n"),
    }
}
