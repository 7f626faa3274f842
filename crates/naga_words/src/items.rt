//! The items of a module.

ghost use Rattle.naga_words.specs.Items.{after_name, after_text, capabilities_of, commented_of, constant_of, entry_point_of, filter_of, flags_of, global_variable_of, id_of, item_of, member_comment_of, named_item_of, optional_id_of, override_of, plain_item_of, resource_of, special_types_of};
ghost use Rattle.naga_draft.specs.declared.unread.Unread.TheVariants as unread;
ghost use Rattle.std.specs.Prelude.{◌≡◌, IfErr, IfOk, None, Some};

use crate::bits::{all_capabilities, all_flags};
use crate::expressions::expression;
use crate::literals::wide;
use crate::names::{name, text};
use crate::opcodes as code;
use crate::operands::{NONE, handle, index, nothing, only, only_handle, resource_binding, space};
use crate::parts::part;
use crate::tables::memory_decorations;
use crate::types::type_of;
use bitflags::Flags;
use naga_draft::item::{Commented, Item};
use naga_draft::unread::{Unread, known};
use naga_flags::flags::{Capabilities, ValidationFlags};
use naga_ir::ir::{Constant, DiagnosticFilterNode, GlobalVariable, MemoryDecorations, Override};
use naga_ir::text::Text;
use std::alloc::Global;

/// The parts of a module that are validated, of their bits.
fn flags(operands: &[u32]) -> Option<ValidationFlags>
    ensures { result ≡ flags_of operands.now }
{
    let [bits] = operands else { return None };
    if *bits <= all_flags() {
        Some(ValidationFlags::from_bits_retain(*bits as u8))
    } else {
        None
    }
}

/// What a module may use, of the two words of its bits.
fn capabilities(operands: &[u32]) -> Option<Capabilities>
    ensures { result ≡ capabilities_of operands.now }
{
    let [low, high] = operands else { return None };
    let bits = wide(*low, *high);
    if bits <= all_capabilities() {
        Some(Capabilities::from_bits_retain(bits))
    } else {
        None
    }
}

/// The three special types.
fn special_types(operands: &[u32]) -> Option<Item>
    ensures { result ≡ special_types_of operands.now }
{
    let [desc, intersection, vertex_return] = operands else {
        return None;
    };
    Some(Item::SpecialTypes {
        ray_desc: handle(*desc),
        ray_intersection: handle(*intersection),
        ray_vertex_return: handle(*vertex_return),
    })
}

/// A diagnostic filter, by its parent.
fn filter(operands: &[u32]) -> Option<DiagnosticFilterNode>
    ensures { result ≡ filter_of operands.now }
{
    Some(DiagnosticFilterNode {
        parent: handle(only(operands)?),
    })
}

/// A member of a struct as what a comment is on: its type and its index.
fn member_comment(operands: &[u32]) -> Option<Commented>
    ensures { result ≡ member_comment_of operands.now }
{
    let [ty, member] = operands else { return None };
    Some(Commented::Member(handle(*ty)?, index(*member)?))
}

/// What a comment is on.
fn commented(opcode: u8, operands: &[u32]) -> Option<Commented>
    ensures { result ≡ commented_of opcode operands.now }
{
    match opcode {
        code::OP_COMMENT_ON_TYPE => Some(Commented::Type_(only_handle(operands)?)),
        code::OP_COMMENT_ON_MEMBER => member_comment(operands),
        code::OP_COMMENT_ON_FUNCTION => Some(Commented::Function(only_handle(operands)?)),
        code::OP_COMMENT_ON_ENTRY_POINT => Some(Commented::EntryPoint(index(only(operands)?)?)),
        code::OP_COMMENT_ON_CONSTANT => Some(Commented::Constant(only_handle(operands)?)),
        code::OP_COMMENT_ON_GLOBAL_VARIABLE => Some(Commented::GlobalVariable(only_handle(
            operands,
        )?)),
        _ => None,
    }
}

/// What an item without a name says that is neither a type nor an expression.
fn plain_item(opcode: u8, operands: &[u32]) -> Option<Item>
    ensures { result ≡ plain_item_of opcode operands.now }
{
    match opcode {
        code::OP_FLAGS => Some(Item::Flags(flags(operands)?)),
        code::OP_CAPABILITIES => Some(Item::Capabilities(capabilities(operands)?)),
        code::OP_RESOLVED => {
            nothing(operands)?;
            Some(Item::Resolved)
        }
        code::OP_SPECIAL_TYPES => special_types(operands),
        code::OP_PREDECLARED_TYPE => Some(Item::PredeclaredType(only_handle(operands)?)),
        code::OP_FILTER => Some(Item::Filter(filter(operands)?)),
        code::OP_FILTER_LEAF => Some(Item::FilterLeaf(only_handle(operands)?)),
        _ => Some(Item::Comment(commented(opcode, operands)?)),
    }
}

/// A number of 16 bits.
fn id(word: u32) -> Option<u16>
    ensures { result ≡ id_of word }
{
    u16::try_from(word).ok()
}

/// The number of an override, or none.
fn optional_id(word: u32) -> Option<Option<u16>>
    ensures { result ≡ optional_id_of word }
{
    if word == NONE {
        return Some(None);
    }
    Some(Some(id(word)?))
}

/// A constant of this name: its type and its value.
fn constant(name: Option<Text>, operands: &[u32]) -> Option<Constant>
    ensures { result ≡ constant_of name operands.now }
{
    let [ty, init] = operands else { return None };
    Some(Constant {
        name,
        ty: handle(*ty)?,
        init: handle(*init)?,
    })
}

/// An override of this name: its type, its initialiser and its number.
fn override_item(name: Option<Text>, operands: &[u32]) -> Option<Override>
    ensures { result ≡ override_of name operands.now }
{
    let [ty, init, id] = operands else {
        return None
    };
    Some(Override {
        name,
        id: optional_id(*id)?,
        ty: handle(*ty)?,
        init: handle(*init),
    })
}

/// A global variable of this name: its space, its type and its initialiser.
fn global_variable(name: Option<Text>, operands: &[u32]) -> Option<GlobalVariable>
    ensures { result ≡ global_variable_of name operands.now }
{
    let [number, access, ty, init] = operands else {
        return None;
    };
    Some(GlobalVariable {
        name,
        space: space(*number, *access)?,
        binding: None,
        ty: handle(*ty)?,
        init: handle(*init),
        memory_decorations: MemoryDecorations::NONE,
    })
}

/// A global variable of this name that a pipeline binds, or that has memory decorations: besides its space, its type
/// and its initialiser its binding and these.
fn resource(name: Option<Text>, operands: &[u32]) -> Option<GlobalVariable>
    ensures { result ≡ resource_of name operands.now }
{
    let [number, access, ty, init, form, group, binding, decorations] = operands else {
        return None;
    };
    Some(GlobalVariable {
        name,
        space: space(*number, *access)?,
        ty: handle(*ty)?,
        binding: resource_binding(*form, *group, *binding)?,
        init: handle(*init),
        memory_decorations: memory_decorations(*decorations)?,
    })
}

/// What an item of this name says, of the operands after it.
fn item_of_name(opcode: u8, name: Option<Text>, operands: &[u32]) -> Option<Item>
    ensures { result ≡ named_item_of opcode name operands.now }
{
    match opcode {
        code::OP_CONSTANT => Some(Item::Constant(constant(name, operands)?)),
        code::OP_OVERRIDE => Some(Item::Override(override_item(name, operands)?)),
        code::OP_GLOBAL_VARIABLE => Some(Item::GlobalVariable(global_variable(name, operands)?)),
        code::OP_FUNCTION => {
            nothing(operands)?;
            Some(Item::Function(name))
        }
        code::OP_RESOURCE => Some(Item::GlobalVariable(resource(name, operands)?)),
        _ => None,
    }
}

/// What an item says whose operands begin with a name.
fn named_item(alloc: Global, opcode: u8, operands: &[u32]) -> Result<Item, Unread>
    ensures found { IfOk result (λ x. after_name (named_item_of opcode) operands.now ≡ Some x) }
    ensures none { IfErr result (λ e. e ≡ unread.Item → after_name (named_item_of opcode) operands.now ≡ None) }
{
    let (name, rest) = name(alloc, operands)?;
    known(item_of_name(opcode, name, rest))
}

/// The beginning of an entry point of this name.
fn entry_point_of_name(name: Text, operands: &[u32]) -> Option<Item>
    ensures { result ≡ entry_point_of name operands.now }
{
    nothing(operands)?;
    Some(Item::EntryPoint(name))
}

/// The beginning of an entry point: its name.
fn entry_point(alloc: Global, operands: &[u32]) -> Result<Item, Unread>
    ensures found { IfOk result (λ x. after_text entry_point_of operands.now ≡ Some x) }
    ensures none { IfErr result (λ e. e ≡ unread.Item → after_text entry_point_of operands.now ≡ None) }
{
    let (text, rest) = text(alloc, operands)?;
    known(entry_point_of_name(text, rest))
}

/// What an item says, of its opcode and its operands. What is called here refuses the opcodes that no item has.
#[tactic(auto, using(crate::proofs::ItemLaws::opcodes_of_items))]
pub(crate) fn item(alloc: Global, opcode: u8, operands: &[u32]) -> Result<Item, Unread>
    ensures found { IfOk result (λ x. item_of opcode operands.now ≡ Some x) }
    ensures none { IfErr result (λ e. e ≡ unread.Item → item_of opcode operands.now ≡ None) }
{
    if opcode < code::OP_SCALAR {
        known(plain_item(opcode, operands))
    } else if opcode < code::OP_CONSTANT {
        Ok(Item::Type_(type_of(alloc, opcode, operands)?))
    } else if opcode < code::OP_ENTRY_POINT {
        named_item(alloc, opcode, operands)
    } else if opcode == code::OP_ENTRY_POINT {
        entry_point(alloc, operands)
    } else if opcode == code::OP_RESOURCE {
        named_item(alloc, opcode, operands)
    } else if opcode < code::OP_GLOBAL_EXPRESSION {
        Ok(Item::Part(part(alloc, opcode, operands)?))
    } else if opcode < code::OP_EXPRESSION {
        Ok(Item::Expression(expression(alloc, opcode - code::OP_GLOBAL_EXPRESSION, operands)?))
    } else {
        Ok(Item::Part(part(alloc, opcode, operands)?))
    }
}
