//! The types that words describe, one function a form.

ghost use Rattle.naga_words.specs.Reading.{read_all, read_by, reads_one, reads_pair};
ghost use Rattle.naga_words.specs.Operands.{scalar_of};
ghost use Rattle.naga_words.specs.Tables.{bools};
ghost use Rattle.naga_ir.specs.declared.types.TypeInner.TheVariants as t;
ghost use Rattle.naga_words.specs.Types.{array_type_of, binding_array_type_of, cooperative_matrix_type_of, first_member, image_type_of, inner_of, matrix_type_of, member_of, memberless_types, pointer_type_of, struct_type_of, type_of, value_pointer_type_of, vector_type_of};
ghost use Rattle.naga_draft.specs.declared.unread.Unread.TheVariants as unread;
ghost use Rattle.std.specs.Prelude.{◌≡◌, ◌<◌, IfErr, IfOk, None, Some, length, slice_get};

use crate::names::name;
use crate::opcodes as code;
use crate::operands::{
    array_size, binding, boolean, class, cooperative_size, dimension, handle, pointed_size, role,
    scalar, size, space,
};
use naga_draft::unread::{Unread, known};
use naga_ir::list::List;
use naga_ir::text::Text;
use naga_ir::types::{StructMember, Type, TypeInner};
use std::alloc::Global;

/// The number of operands of a member of a struct, after its name.
const MEMBER_OPERANDS: usize = 5;

fn scalar_type(operands: &[u32]) -> Option<TypeInner>
    ensures { result ≡ reads_pair scalar_of t.Scalar operands.now }
{
    let [kind, width] = operands else { return None };
    Some(TypeInner::Scalar(scalar(*kind, *width)?))
}

fn vector_type(operands: &[u32]) -> Option<TypeInner>
    ensures { result ≡ vector_type_of operands.now }
{
    let [components, kind, width] = operands else {
        return None
    };
    Some(TypeInner::Vector {
        size: size(*components)?,
        scalar: scalar(*kind, *width)?,
    })
}

fn matrix_type(operands: &[u32]) -> Option<TypeInner>
    ensures { result ≡ matrix_type_of operands.now }
{
    let [columns, rows, kind, width] = operands else {
        return None
    };
    Some(TypeInner::Matrix {
        columns: size(*columns)?,
        rows: size(*rows)?,
        scalar: scalar(*kind, *width)?,
    })
}

fn cooperative_matrix_type(operands: &[u32]) -> Option<TypeInner>
    ensures { result ≡ cooperative_matrix_type_of operands.now }
{
    let [columns, rows, kind, width, role_word] = operands else {
        return None
    };
    Some(TypeInner::CooperativeMatrix {
        columns: cooperative_size(*columns)?,
        rows: cooperative_size(*rows)?,
        scalar: scalar(*kind, *width)?,
        role: role(*role_word)?,
    })
}

fn atomic_type(operands: &[u32]) -> Option<TypeInner>
    ensures { result ≡ reads_pair scalar_of t.Atomic operands.now }
{
    let [kind, width] = operands else { return None };
    Some(TypeInner::Atomic(scalar(*kind, *width)?))
}

fn pointer_type(operands: &[u32]) -> Option<TypeInner>
    ensures { result ≡ pointer_type_of operands.now }
{
    let [base, number, access] = operands else {
        return None
    };
    Some(TypeInner::Pointer {
        base: handle(*base)?,
        space: space(*number, *access)?,
    })
}

fn value_pointer_type(operands: &[u32]) -> Option<TypeInner>
    ensures { result ≡ value_pointer_type_of operands.now }
{
    let [components, kind, width, number, access] = operands else {
        return None
    };
    Some(TypeInner::ValuePointer {
        size: pointed_size(*components)?,
        scalar: scalar(*kind, *width)?,
        space: space(*number, *access)?,
    })
}

fn array_type(operands: &[u32]) -> Option<TypeInner>
    ensures { result ≡ array_type_of operands.now }
{
    let [base, form, number, stride] = operands else {
        return None
    };
    Some(TypeInner::Array {
        base: handle(*base)?,
        size: array_size(*form, *number)?,
        stride: *stride,
    })
}

fn image_type(operands: &[u32]) -> Option<TypeInner>
    ensures { result ≡ image_type_of operands.now }
{
    let [dim, arrayed, form, first, second] = operands else {
        return None
    };
    Some(TypeInner::Image {
        dim: dimension(*dim)?,
        arrayed: boolean(*arrayed)?,
        class: class(*form, *first, *second)?,
    })
}

fn sampler_type(operands: &[u32]) -> Option<TypeInner>
    ensures { result ≡ reads_one (slice_get bools) t.Sampler operands.now }
{
    let [comparison] = operands else { return None };
    Some(TypeInner::Sampler {
        comparison: boolean(*comparison)?,
    })
}

fn acceleration_structure_type(operands: &[u32]) -> Option<TypeInner>
    ensures { result ≡ reads_one (slice_get bools) t.AccelerationStructure operands.now }
{
    let [vertex_return] = operands else {
        return None
    };
    Some(TypeInner::AccelerationStructure {
        vertex_return: boolean(*vertex_return)?,
    })
}

fn ray_query_type(operands: &[u32]) -> Option<TypeInner>
    ensures { result ≡ reads_one (slice_get bools) t.RayQuery operands.now }
{
    let [vertex_return] = operands else {
        return None
    };
    Some(TypeInner::RayQuery {
        vertex_return: boolean(*vertex_return)?,
    })
}

fn binding_array_type(operands: &[u32]) -> Option<TypeInner>
    ensures { result ≡ binding_array_type_of operands.now }
{
    let [base, form, number] = operands else {
        return None
    };
    Some(TypeInner::BindingArray {
        base: handle(*base)?,
        size: array_size(*form, *number)?,
    })
}

/// The type of an opcode and of the operands after its name, unless it is a struct.
fn memberless_type(opcode: u8, operands: &[u32]) -> Option<TypeInner>
    ensures { result ≡ read_by memberless_types opcode operands.now }
{
    match opcode {
        code::OP_SCALAR => scalar_type(operands),
        code::OP_VECTOR => vector_type(operands),
        code::OP_MATRIX => matrix_type(operands),
        code::OP_COOPERATIVE_MATRIX => cooperative_matrix_type(operands),
        code::OP_ATOMIC => atomic_type(operands),
        code::OP_POINTER => pointer_type(operands),
        code::OP_VALUE_POINTER => value_pointer_type(operands),
        code::OP_ARRAY => array_type(operands),
        code::OP_IMAGE => image_type(operands),
        code::OP_SAMPLER => sampler_type(operands),
        code::OP_ACCELERATION_STRUCTURE => acceleration_structure_type(operands),
        code::OP_RAY_QUERY => ray_query_type(operands),
        code::OP_BINDING_ARRAY => binding_array_type(operands),
        _ => None,
    }
}

/// The member of this name, of the operands after it.
fn named_member(name: Option<Text>, operands: &[u32]) -> Option<StructMember>
    ensures { result ≡ member_of name operands.now }
{
    let [ty, offset, form, number, source] = operands else {
        return None
    };
    Some(StructMember {
        name,
        ty: handle(*ty)?,
        binding: binding(*form, *number, *source)?,
        offset: *offset,
    })
}

/// The member with which words begin, and the words after it.
fn member(alloc: Global, words: &[u32]) -> Result<(StructMember, &[u32]), Unread>
    ensures found { IfOk result (λ read. first_member words.now ≡ Some (read.0, read.1.now)) }
    ensures none { IfErr result (λ e. e ≡ unread.Item → first_member words.now ≡ None) }
    ensures shorter { IfOk result (λ read. length read.1.now < length words.now) }
{
    let (name, others) = name(alloc, words)?;
    if others.len() < MEMBER_OPERANDS {
        return Err(Unread::Item);
    }
    let (operands, rest) = others.split_at(MEMBER_OPERANDS);
    Ok((known(named_member(name, operands))?, rest))
}

/// The members of words, if each is one.
#[tactic(auto, using(crate::proofs::AllLaws::all_more, crate::proofs::AllLaws::all_stuck, crate::proofs::ReaderLaws::member_shortens))]
fn members(alloc: Global, words: &[u32]) -> Result<List<StructMember>, Unread>
    ensures found { IfOk result (λ members. read_all first_member words.now ≡ Some members) }
    ensures none { IfErr result (λ e. e ≡ unread.Item → read_all first_member words.now ≡ None) }
{
    let mut members = List::new(alloc);
    let mut left = words;
    'members: while !left.is_empty() {
        let (member, rest) = member(alloc, left)?;
        members.push(member)?;
        left = rest;
    }
    Ok(members)
}

/// A struct, of the operands after its name: its span and its members.
fn struct_type(alloc: Global, operands: &[u32]) -> Result<TypeInner, Unread>
    ensures found { IfOk result (λ t. struct_type_of operands.now ≡ Some t) }
    ensures none { IfErr result (λ e. e ≡ unread.Item → struct_type_of operands.now ≡ None) }
{
    let [span, rest @ ..] = operands else {
        return Err(Unread::Item);
    };
    let members = members(alloc, rest)?;
    Ok(TypeInner::Struct {
        members,
        span: *span,
    })
}

/// What a type is made of, of an opcode and the operands after its name.
fn inner(alloc: Global, opcode: u8, operands: &[u32]) -> Result<TypeInner, Unread>
    ensures found { IfOk result (λ t. inner_of opcode operands.now ≡ Some t) }
    ensures none { IfErr result (λ e. e ≡ unread.Item → inner_of opcode operands.now ≡ None) }
{
    if opcode == code::OP_STRUCT {
        return struct_type(alloc, operands);
    }
    known(memberless_type(opcode, operands))
}

/// The type of an opcode and its operands.
pub(crate) fn type_of(alloc: Global, opcode: u8, operands: &[u32]) -> Result<Type, Unread>
    ensures found { IfOk result (λ t. type_of opcode operands.now ≡ Some t) }
    ensures none { IfErr result (λ e. e ≡ unread.Item → type_of opcode operands.now ≡ None) }
{
    let (name, others) = name(alloc, operands)?;
    let inner = inner(alloc, opcode, others)?;
    Ok(Type { name, inner })
}
