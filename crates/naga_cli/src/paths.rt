//! Paths from a type to its leaves.

use naga_source::places::Places;
use naga_valid::{Handle, Module, StructMember, TypeInner, TypeTag};
use naga_verdict::item::Item;
use std::alloc::AllocError;

/// The inner type of a handle, if it has one.
pub fn inner_of(module: &Module, ty: Handle<TypeTag>) -> Option<&TypeInner> {
    let ty = module.types.as_slice().get(ty.index())?;
    Some(&ty.inner)
}

/// The label of the type of a member, if it can stand for the member: no other member of the struct has the type, and
/// it can't be taken for an index.
fn label_of_member<'a>(
    places: &'a Places,
    members: &[StructMember],
    member: &StructMember,
) -> Option<&'a str> {
    let label = places.label(Item::Type_(member.ty.index()))?;
    let first = label.bytes().next()?;
    let count = members.iter().filter(|other| other.ty == member.ty).count();
    if count == 1 && !first.is_ascii_digit() {
        Some(label)
    } else {
        None
    }
}

/// Adds a step from a struct to a member: its name, else the label of its type, else its index.
fn add_member(
    text: &mut String,
    places: &Places,
    members: &[StructMember],
    index: u32,
) -> Result<(), AllocError> {
    let Some(member) = members.get(index as usize) else {
        return write!(text, ".{index}");
    };
    if let Some(name) = &member.name {
        text.push('.')?;
        return text.push_str(name.as_str());
    }
    match label_of_member(places, members, member) {
        Some(label) => write!(text, ".{label}"),
        None => write!(text, ".{index}"),
    }
}

/// The type to which an index leads in a type, if it leads to one.
fn part_type(inner: &TypeInner, index: u32) -> Option<Handle<TypeTag>> {
    match inner {
        TypeInner::Struct { members, .. } => Some(members.as_slice().get(index as usize)?.ty),
        TypeInner::Array { base, .. } | TypeInner::BindingArray { base, .. } => Some(*base),
        _ => None,
    }
}

/// Adds a path from a type, and returns the type to which it leads, if it leads to one.
pub fn add_path(
    text: &mut String,
    module: &Module,
    places: &Places,
    ty: Handle<TypeTag>,
    path: &[u32],
) -> Result<Option<Handle<TypeTag>>, AllocError> {
    let mut within = Some(ty);
    for index in path {
        let inner = within.and_then(|ty| inner_of(module, ty));
        match inner {
            Some(TypeInner::Struct { members, .. }) => {
                add_member(text, places, members.as_slice(), *index)?;
            }
            _ => write!(text, "[{index}]")?,
        }
        within = inner.and_then(|inner| part_type(inner, *index));
    }
    Ok(within)
}
