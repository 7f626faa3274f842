//! The items of a function's body: statements without blocks, and where blocks begin and end.

ghost use Rattle.naga_words.specs.Statements.{block_mark_of, case_of, is_of_statement, mark_of, switch_value_of};
ghost use Rattle.naga_draft.specs.declared.unread.Unread.TheVariants as unread;
ghost use Rattle.std.specs.Prelude.{◌≡◌, IfErr, IfOk, None, Some};

use crate::opcodes as code;
use crate::operands::{boolean, handle, nothing, only, only_handle, zero};
use crate::statements::statement;
use naga_draft::item::{CaseHead, Mark};
use naga_draft::unread::{Unread, known};
use naga_ir::statement::SwitchValue;
use std::alloc::Global;

/// Whether an opcode is of no item with which a block begins or ends.
fn is_of_statement(opcode: u8) -> bool
    ensures { result ≡ is_of_statement opcode }
{
    opcode < code::STATEMENT_BLOCK || opcode > code::STATEMENT_END_LOOP
}

/// When a case is executed.
fn switch_value(form: u32, value: u32) -> Option<SwitchValue>
    ensures { result ≡ switch_value_of form value }
{
    match form {
        0 => {
            zero(value)?;
            Some(SwitchValue::Default)
        }
        1 => Some(SwitchValue::I32(value.cast_signed())),
        2 => Some(SwitchValue::U32(value)),
        _ => None,
    }
}

/// A case: whether the next one is executed after it, and maybe when it is executed.
fn case(operands: &[u32]) -> Option<CaseHead>
    ensures { result ≡ case_of operands.now }
{
    match operands {
        [falls] => Some(CaseHead {
            value: None,
            fall_through: boolean(*falls)?,
        }),
        [falls, form, value] => {
            let fall_through = boolean(*falls)?;
            Some(CaseHead {
                value: Some(switch_value(*form, *value)?),
                fall_through,
            })
        }
        _ => None,
    }
}

/// The item of an opcode with which a block begins or ends.
fn block_mark(opcode: u8, operands: &[u32]) -> Option<Mark>
    ensures { result ≡ block_mark_of opcode operands.now }
{
    match opcode {
        code::STATEMENT_BLOCK => {
            nothing(operands)?;
            Some(Mark::Block)
        }
        code::STATEMENT_IF => Some(Mark::If(only_handle(operands)?)),
        code::STATEMENT_ELSE => {
            nothing(operands)?;
            Some(Mark::Else)
        }
        code::STATEMENT_SWITCH => Some(Mark::Switch(only_handle(operands)?)),
        code::STATEMENT_CASE => Some(Mark::Case(case(operands)?)),
        code::STATEMENT_LOOP => {
            nothing(operands)?;
            Some(Mark::Loop)
        }
        code::STATEMENT_CONTINUING => {
            nothing(operands)?;
            Some(Mark::Continuing)
        }
        code::STATEMENT_END => {
            nothing(operands)?;
            Some(Mark::End)
        }
        code::STATEMENT_END_LOOP => Some(Mark::EndOfLoop(handle(only(operands)?))),
        _ => None,
    }
}

/// What an item of a body says, of its opcode and its operands.
pub(crate) fn mark(alloc: Global, opcode: u8, operands: &[u32]) -> Result<Mark, Unread>
    ensures found { IfOk result (λ x. mark_of opcode operands.now ≡ Some x) }
    ensures none { IfErr result (λ e. e ≡ unread.Item → mark_of opcode operands.now ≡ None) }
{
    if is_of_statement(opcode) {
        Ok(Mark::Statement(statement(alloc, opcode, operands)?))
    } else {
        known(block_mark(opcode, operands))
    }
}
