//! The layouts of the types of a module: of all structs, or of those that are named.

ghost use Rattle.std.specs.Prelude.{◌≡◌, ◌<◌, length};
ghost use Rattle.naga_ir.specs.Handles.{GlobalReferencesOk};
ghost use Rattle.naga_ir.specs.ItemReferences.{global_lists};

use crate::arguments::Shown;
use crate::layout::{LayoutOf, layout_of, layouts_of};
use naga_source::reading::Subject;
use naga_text::number::index;
use naga_valid::{FullTyping, Handle, OutOfMemory, TypeInner, Validator};
use naga_verdict::item::Item;
use std::alloc::Global;

/// Whether a type goes by a name: its label, its name, or its index behind a `T`.
fn goes_by(subject: &Subject, ty: usize, name: &str) -> bool {
    if let Some(number) = name.strip_prefix('T')
        && index(number.as_bytes()) == Some(ty)
    {
        return true;
    }
    subject.places.label(Item::Type_(ty)) == Some(name)
}

/// Whether a type is a struct.
fn is_struct(subject: &Subject, ty: usize) -> bool {
    match subject.module.types.as_slice().get(ty) {
        Some(ty) => matches!(ty.inner, TypeInner::Struct { .. }),
        None => false,
    }
}

/// Whether the layout of a type is asked for: of every struct if no type is named.
fn is_asked(subject: &Subject, ty: usize, names: &[String]) -> bool {
    if names.is_empty() {
        return is_struct(subject, ty);
    }
    names.iter().any(|name| goes_by(subject, ty, name.as_str()))
}

/// The first name that no type goes by.
pub fn first_unknown<'a>(subject: &Subject, names: &'a [String]) -> Option<&'a str> {
    for name in names {
        let count = subject.module.types.len();
        if !(0..count).any(|ty| goes_by(subject, ty, name.as_str())) {
            return Some(name.as_str());
        }
    }
    None
}

/// The layouts that are asked for, of an accepted module.
pub fn layouts(
    alloc: Global,
    subject: &Subject,
    validator: &Validator<FullTyping>,
    names: &[String],
    shown: Shown,
) -> Result<Vec<LayoutOf>, OutOfMemory>
    requires references { GlobalReferencesOk (global_lists subject.now.«module») }
    requires infos { length validator.now.infos ≡ length subject.now.«module».types }
{
    let layouter = layouts_of(alloc, &subject.module)?;
    let mut all = Vec::new(alloc);
    for ty in 0..subject.module.types.len() {
        if is_asked(subject, ty, names) {
            let handle = Handle::new(ty as u32);
            let known = (layouter[handle], validator.type_info(handle));
            all.push(layout_of(alloc, subject, handle, known, shown)?)?;
        }
    }
    Ok(all)
}
