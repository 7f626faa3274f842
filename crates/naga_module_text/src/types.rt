//! Types, with what the line text doesn't say of them.

use crate::bindings::binding;
use crate::items::{MOST_WORDS, at_colon};
use crate::tables::storage_format;
use naga_draft::unread::{Unread, known};
use naga_ir::list::List;
use naga_ir::storage_format::StorageFormat;
use naga_ir::text::Text;
use naga_ir::types::{
    AddressSpace, Binding, ImageClass, Scalar, ScalarKind, StorageAccess, StructMember, TypeInner,
};
use naga_text::line_words::LineWords;
use naga_text::number::{handle, number, number_up_to};
use naga_text::types::short_type;
use naga_text::words::{boolean, chosen, class, dimension, equals, kind, pointed_size, space};
use std::alloc::Global;

/// The pieces of a word, which colons part, if there is room for them.
fn pieces<'a, 'b>(word: &'a [u8], room: &'b mut [&'a [u8]]) -> Option<&'b [&'a [u8]]> {
    let mut count = 0usize;
    for piece in word.split(|byte| *byte == b':') {
        *room.get_mut(count)? = piece;
        count = count.saturating_add(1);
    }
    let pieces: &'b [&'a [u8]] = room;
    pieces.get(..count)
}

/// What stands in a word before `:@`, and the name behind it, if there is one.
fn at_name(word: &[u8]) -> (&[u8], Option<&[u8]>) {
    match word.iter().position(|byte| *byte == b'@') {
        Some(place) if place > 0 && word[place - 1] == b':' => {
            (&word[..place - 1], Some(&word[place + 1..]))
        }
        _ => (word, None),
    }
}

/// The source of blending behind a location, if there is one.
fn blend_source(pieces: &[&[u8]]) -> Option<Option<u32>> {
    match pieces {
        [] => Some(None),
        [source] => Some(Some(number(source)?)),
        _ => None,
    }
}

/// `LOCATION`, `LOCATION:BLEND`, or a binding as that of an argument, with colons in place of spaces
fn member_binding(pieces: &[&[u8]]) -> Option<Option<Binding>> {
    if let Some((first, rest)) = pieces.split_first()
        && let Some(location) = number(first)
    {
        return Some(Some(Binding::Location {
            location,
            interpolation: None,
            sampling: None,
            blend_src: blend_source(rest)?,
            per_primitive: false,
        }));
    }
    binding(pieces)
}

/// The name of these bytes.
fn name_of(alloc: Global, bytes: &[u8]) -> Result<Text, Unread> {
    let name = known(str::from_utf8(bytes).ok())?;
    Ok(Text::from_string(String::from_str(alloc, name)?))
}

/// `T:OFFSET[:BINDING][:@NAME]`
fn member(alloc: Global, word: &[u8]) -> Result<StructMember, Unread> {
    let (place, name) = at_name(word);
    let name = match name {
        Some(bytes) => Some(name_of(alloc, bytes)?),
        None => None,
    };
    let mut room: [&[u8]; MOST_WORDS] = [&[]; MOST_WORDS];
    let [ty, offset, pieces @ ..] = known(pieces(place, &mut room))? else {
        return Err(Unread::Item);
    };
    Ok(StructMember {
        name,
        ty: known(handle(ty))?,
        binding: known(member_binding(pieces))?,
        offset: known(number(offset))?,
    })
}

/// `struct SPAN M..`
fn struct_type(alloc: Global, words: &mut LineWords) -> Result<TypeInner, Unread> {
    let span = known(number(known(words.next())?))?;
    let mut members = List::new(alloc);
    while let Some(word) = words.next() {
        members.push(member(alloc, word)?)?;
    }
    Ok(TypeInner::Struct { members, span })
}

/// Letters of `lsa` for load, store and atomic, in this order, or `-` for no access
fn access(word: &[u8]) -> Option<StorageAccess> {
    let of = |load, store, atomic| StorageAccess {
        load,
        store,
        atomic,
    };
    let accesses = [
        ("-", of(false, false, false)),
        ("l", of(true, false, false)),
        ("s", of(false, true, false)),
        ("a", of(false, false, true)),
        ("ls", of(true, true, false)),
        ("la", of(true, false, true)),
        ("sa", of(false, true, true)),
        ("lsa", of(true, true, true)),
    ];
    chosen(&accesses, word)
}

/// An address space: as in the line text, or `storage:ACCESS`
pub fn address_space(word: &[u8]) -> Option<AddressSpace> {
    if let Some(space) = space(word) {
        return Some(space);
    }
    let (form, allowed) = at_colon(word)?;
    if !equals(form, b"storage") {
        return None;
    }
    Some(AddressSpace::Storage {
        access: access(allowed)?,
    })
}

/// `pointer T S`
fn pointer_type(words: &[&[u8]]) -> Option<TypeInner> {
    let [base, of] = words else { return None };
    Some(TypeInner::Pointer {
        base: handle(base)?,
        space: address_space(of)?,
    })
}

/// `valuepointer N K W S`
fn value_pointer_type(words: &[&[u8]]) -> Option<TypeInner> {
    let [components, of, width, place] = words else {
        return None;
    };
    Some(TypeInner::ValuePointer {
        size: pointed_size(components)?,
        scalar: Scalar {
            kind: kind(of)?,
            width: number_up_to(width, 255)? as u8,
        },
        space: address_space(place)?,
    })
}

/// A storage image of a format.
fn storage(format: StorageFormat, access: StorageAccess) -> ImageClass {
    ImageClass::Storage { format, access }
}

/// `storage:FORMAT[:ACCESS]`, for all three uses unless ACCESS says otherwise
fn storage_class(word: &[u8]) -> Option<ImageClass> {
    let (form, of) = at_colon(word)?;
    if !equals(form, b"storage") {
        return None;
    }
    match at_colon(of) {
        Some((format, allowed)) => Some(storage(storage_format(format)?, access(allowed)?)),
        None => Some(storage(storage_format(of)?, access(b"lsa")?)),
    }
}

/// The class of an image: as in the line text, a multisampled image of integers, or a storage image of a format.
fn image_class(word: &[u8]) -> Option<ImageClass> {
    let multisampled = [("sintms", ScalarKind::Sint), ("uintms", ScalarKind::Uint)];
    if let Some(class) = class(word) {
        return Some(class);
    }
    match chosen(&multisampled, word) {
        Some(kind) => Some(ImageClass::Sampled { kind, multi: true }),
        None => storage_class(word),
    }
}

/// `image D A X`
fn image_type(words: &[&[u8]]) -> Option<TypeInner> {
    let [dim, arrayed, class_word] = words else {
        return None;
    };
    Some(TypeInner::Image {
        dim: dimension(dim)?,
        arrayed: boolean(arrayed)?,
        class: image_class(class_word)?,
    })
}

/// The type that words say.
pub fn type_inner(alloc: Global, words: &mut LineWords) -> Result<TypeInner, Unread> {
    let form = known(words.next())?;
    let mut room: [&[u8]; MOST_WORDS] = [&[]; MOST_WORDS];
    match form {
        _ if equals(form, b"struct") => struct_type(alloc, words),
        _ if equals(form, b"image") => known(image_type(known(words.all(&mut room))?)),
        _ if equals(form, b"pointer") => known(pointer_type(known(words.all(&mut room))?)),
        _ if equals(form, b"valuepointer") => {
            known(value_pointer_type(known(words.all(&mut room))?))
        }
        _ => known(short_type(form, words)),
    }
}
