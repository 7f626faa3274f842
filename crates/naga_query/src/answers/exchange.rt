//! Answers about the structs that atomic compare-exchanges return.

ghost use Rattle.std.specs.Prelude.{◌<◌, All, IsTrue};
ghost use Rattle.naga_ir.specs.declared.types.StructMember as member;

use crate::answers::modules::add_not_applicable;
use naga_draft::unread::{Unread, known};
use naga_module_text::items::at_colon;
use naga_text::number::handle;
use naga_text::words::equals;
use naga_valid::{
    Handle, List, Module, OutOfMemory, StructMember, Text, TypeInner, TypeTag,
    validate_atomic_compare_exchange_struct,
};
use std::alloc::{AllocError, Global};

/// The name of a word, or none for `-`.
fn name_of(alloc: Global, word: &[u8]) -> Result<Option<Text>, Unread> {
    if equals(word, b"-") {
        return Ok(None);
    }
    match str::from_utf8(word) {
        Ok(name) => Ok(Some(Text::from_string(String::from_str(alloc, name)?))),
        Err(_) => Err(Unread::Item),
    }
}

/// `NAME:T`
fn member_of(alloc: Global, word: &[u8]) -> Result<StructMember, Unread> {
    let (name, ty) = known(at_colon(word))?;
    Ok(StructMember {
        name: name_of(alloc, name)?,
        ty: known(handle(ty))?,
        binding: None,
        offset: 0,
    })
}

/// The members that words write.
fn members_of(alloc: Global, words: &[&[u8]]) -> Result<List<StructMember>, Unread> {
    let mut members = List::new(alloc);
    for word in words {
        members.push(member_of(alloc, word)?)?;
    }
    Ok(members)
}

/// Whether the types of all members are among the first `count`.
fn all_typed(members: &[StructMember], count: usize) -> bool
    ensures { IsTrue result → All (λ (m : member.StructMember). m.ty < count) members.now }
{
    members.iter().all(|member| member.ty.index() < count)
}

/// The type whose index a word writes, if there is such a type.
fn type_at<'a>(module: &'a Module, word: &[u8]) -> Option<&'a TypeInner> {
    let ty: Handle<TypeTag> = handle(word)?;
    Some(&module.types.as_slice().get(ty.index())?.inner)
}

/// Adds whether these are the members of a struct that an exchange of a value returns.
fn add_exchanged(
    answer: &mut String,
    module: &Module,
    old: &TypeInner,
    members: &[StructMember],
) -> Result<(), AllocError> {
    let types = &module.types;
    if !all_typed(members, types.len()) {
        return add_not_applicable(answer, "no such type");
    }
    let is_old = |inner: &TypeInner| *inner == *old;
    let exchanged = validate_atomic_compare_exchange_struct(types, members, is_old);
    write!(answer, "{exchanged:?}\n")
}

/// `exchange T NAME:T..`: adds whether these are the members of a struct that an atomic compare-exchange of a value of
/// the first type returns.
pub fn add_exchange(
    alloc: Global,
    answer: &mut String,
    module: &Module,
    words: &[&[u8]],
) -> Result<(), OutOfMemory> {
    let Some((ty, words)) = words.split_first() else {
        return Ok(add_not_applicable(answer, "no type")?);
    };
    let Some(old) = type_at(module, ty) else {
        return Ok(add_not_applicable(answer, "no such type")?);
    };
    match members_of(alloc, words) {
        Ok(members) => {
            add_exchanged(answer, module, old, members.as_slice())?;
            Ok(())
        }
        Err(Unread::Item) => Ok(add_not_applicable(answer, "not members")?),
        Err(Unread::OutOfMemory) => Err(OutOfMemory),
    }
}
