//! The types that words describe, one function a form.

ghost use Rattle.naga_text.specs.LineWords.{lines_after, words_left};
ghost use Rattle.naga_text.specs.WordForms.{read_by};
ghost use Rattle.naga_text.specs.steps.LineForms.{acceleration_structure_of, array_of, atomic_of, binding_array_of, cooperative_matrix_of, image_of, matrix_of, memberless_readers, pointer_of, ray_query_of, sampler_of, scalar_of, scalar_type_of, struct_of, type_of, value_pointer_of, vector_of};
ghost use Rattle.std.specs.Prelude.{◌≡◌, IfOk, map};

use crate::line_words::LineWords;
use crate::members::members;
use crate::number::{handle, number, number_up_to};
use crate::words::{
    array_size, boolean, class, cooperative_size, dimension, equals, kind, pointed_size, role,
    size, space,
};
use naga_ir::OutOfMemory;
use naga_ir::types::{Scalar, TypeInner};
use std::alloc::Global;

/// The most words after the form of a type other than `struct`: a cooperative matrix has as many.
const MOST_WORDS: usize = 5;

fn scalar(kind_word: &[u8], width_word: &[u8]) -> Option<Scalar>
    ensures { result ≡ scalar_of kind_word.now width_word.now }
{
    Some(Scalar {
        kind: kind(kind_word)?,
        width: number_up_to(width_word, u8::MAX as u64)? as u8,
    })
}

fn scalar_type(words: &[&[u8]]) -> Option<TypeInner>
    ensures { result ≡ scalar_type_of (map (λ w. w.now) words.now) }
{
    let [kind, width] = words else { return None };
    Some(TypeInner::Scalar(scalar(kind, width)?))
}

fn vector_type(words: &[&[u8]]) -> Option<TypeInner>
    ensures { result ≡ vector_of (map (λ w. w.now) words.now) }
{
    let [components, kind, width] = words else {
        return None
    };
    Some(TypeInner::Vector {
        size: size(components)?,
        scalar: scalar(kind, width)?,
    })
}

fn matrix_type(words: &[&[u8]]) -> Option<TypeInner>
    ensures { result ≡ matrix_of (map (λ w. w.now) words.now) }
{
    let [columns, rows, kind, width] = words else {
        return None
    };
    Some(TypeInner::Matrix {
        columns: size(columns)?,
        rows: size(rows)?,
        scalar: scalar(kind, width)?,
    })
}

fn cooperative_matrix_type(words: &[&[u8]]) -> Option<TypeInner>
    ensures { result ≡ cooperative_matrix_of (map (λ w. w.now) words.now) }
{
    let [columns, rows, kind, width, role_word] = words else {
        return None
    };
    Some(TypeInner::CooperativeMatrix {
        columns: cooperative_size(columns)?,
        rows: cooperative_size(rows)?,
        scalar: scalar(kind, width)?,
        role: role(role_word)?,
    })
}

fn atomic_type(words: &[&[u8]]) -> Option<TypeInner>
    ensures { result ≡ atomic_of (map (λ w. w.now) words.now) }
{
    let [kind, width] = words else { return None };
    Some(TypeInner::Atomic(scalar(kind, width)?))
}

fn pointer_type(words: &[&[u8]]) -> Option<TypeInner>
    ensures { result ≡ pointer_of (map (λ w. w.now) words.now) }
{
    let [base, space_word] = words else {
        return None
    };
    Some(TypeInner::Pointer {
        base: handle(base)?,
        space: space(space_word)?,
    })
}

fn value_pointer_type(words: &[&[u8]]) -> Option<TypeInner>
    ensures { result ≡ value_pointer_of (map (λ w. w.now) words.now) }
{
    let [components, kind, width, space_word] = words else {
        return None
    };
    Some(TypeInner::ValuePointer {
        size: pointed_size(components)?,
        scalar: scalar(kind, width)?,
        space: space(space_word)?,
    })
}

fn array_type(words: &[&[u8]]) -> Option<TypeInner>
    ensures { result ≡ array_of (map (λ w. w.now) words.now) }
{
    let [base, size, stride] = words else {
        return None
    };
    Some(TypeInner::Array {
        base: handle(base)?,
        size: array_size(size)?,
        stride: number(stride)?,
    })
}

fn binding_array_type(words: &[&[u8]]) -> Option<TypeInner>
    ensures { result ≡ binding_array_of (map (λ w. w.now) words.now) }
{
    let [base, size] = words else { return None };
    Some(TypeInner::BindingArray {
        base: handle(base)?,
        size: array_size(size)?,
    })
}

fn image_type(words: &[&[u8]]) -> Option<TypeInner>
    ensures { result ≡ image_of (map (λ w. w.now) words.now) }
{
    let [dim, arrayed, class_word] = words else {
        return None
    };
    Some(TypeInner::Image {
        dim: dimension(dim)?,
        arrayed: boolean(arrayed)?,
        class: class(class_word)?,
    })
}

fn sampler_type(words: &[&[u8]]) -> Option<TypeInner>
    ensures { result ≡ sampler_of (map (λ w. w.now) words.now) }
{
    let [comparison] = words else { return None };
    Some(TypeInner::Sampler {
        comparison: boolean(comparison)?,
    })
}

fn acceleration_structure_type(words: &[&[u8]]) -> Option<TypeInner>
    ensures { result ≡ acceleration_structure_of (map (λ w. w.now) words.now) }
{
    let [vertex_return] = words else { return None };
    Some(TypeInner::AccelerationStructure {
        vertex_return: boolean(vertex_return)?,
    })
}

fn ray_query_type(words: &[&[u8]]) -> Option<TypeInner>
    ensures { result ≡ ray_query_of (map (λ w. w.now) words.now) }
{
    let [vertex_return] = words else { return None };
    Some(TypeInner::RayQuery {
        vertex_return: boolean(vertex_return)?,
    })
}

/// The type of the words after `struct`.
pub(crate) fn struct_type(
    alloc: Global,
    words: &mut LineWords,
) -> Result<Option<TypeInner>, OutOfMemory>
    ensures read { IfOk result (λ read. read ≡ struct_of (words_left words.old)) }
    ensures lines { lines_after words.new ≡ lines_after words.old }
{
    let Some(span) = words.next() else {
        return Ok(None);
    };
    let Some(span) = number(span) else {
        return Ok(None);
    };
    match members(alloc, words)? {
        Some(members) => Ok(Some(TypeInner::Struct { members, span })),
        None => Ok(None),
    }
}

/// The type of a form other than `struct`, and of the words after it.
fn memberless_type(form: &[u8], words: &[&[u8]]) -> Option<TypeInner>
    ensures { result ≡ read_by memberless_readers form.now (map (λ w. w.now) words.now) }
{
    match form {
        _ if equals(form, b"scalar") => scalar_type(words),
        _ if equals(form, b"vector") => vector_type(words),
        _ if equals(form, b"matrix") => matrix_type(words),
        _ if equals(form, b"coop") => cooperative_matrix_type(words),
        _ if equals(form, b"atomic") => atomic_type(words),
        _ if equals(form, b"pointer") => pointer_type(words),
        _ if equals(form, b"valuepointer") => value_pointer_type(words),
        _ if equals(form, b"array") => array_type(words),
        _ if equals(form, b"bindingarray") => binding_array_type(words),
        _ if equals(form, b"image") => image_type(words),
        _ if equals(form, b"sampler") => sampler_type(words),
        _ if equals(form, b"accel") => acceleration_structure_type(words),
        _ if equals(form, b"rayquery") => ray_query_type(words),
        _ => None,
    }
}

/// The type of a form other than `struct`, and of the words after it, of which only so many are read as such a form
/// has.
pub fn short_type(form: &[u8], words: &mut LineWords) -> Option<TypeInner>
    ensures read { result ≡ read_by memberless_readers form.now (words_left words.old) }
    ensures lines { lines_after words.new ≡ lines_after words.old }
{
    let mut room: [&[u8]; MOST_WORDS] = [&[]; MOST_WORDS];
    memberless_type(form, words.all(&mut room)?)
}

/// The type of the words after `type`. Only a struct's members take memory.
pub fn type_inner(alloc: Global, words: &mut LineWords) -> Result<Option<TypeInner>, OutOfMemory>
    ensures read { IfOk result (λ read. read ≡ type_of (words_left words.old)) }
    ensures lines { lines_after words.new ≡ lines_after words.old }
{
    let Some(form) = words.next() else {
        return Ok(None);
    };
    if equals(form, b"struct") {
        struct_type(alloc, words)
    } else {
        Ok(short_type(form, words))
    }
}
