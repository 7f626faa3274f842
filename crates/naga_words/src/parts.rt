//! The items that say something of a function or entry point.

ghost use Rattle.naga_words.specs.Items.{after_name, after_text, argument_of, entry_stage_of, function_result_of, local_variable_of, mesh_numbers_of, mesh_output_of, named_expression_of, named_part_of, part_of, plain_part_of, workgroup_size_of, workgroup_sizes_of};
ghost use Rattle.naga_draft.specs.declared.unread.Unread.TheVariants as unread;
ghost use Rattle.std.specs.Prelude.{◌≡◌, IfErr, IfOk, None, Some};

use crate::expressions::expression;
use crate::marks::mark;
use crate::names::{name, text};
use crate::opcodes as code;
use crate::operands::{binding, handle, only_handle};
use crate::tables::{early_depth_test, stage, topology};
use naga_draft::item::{EntryStage, Part};
use naga_draft::unread::{Unread, known};
use naga_ir::handle::Handle;
use naga_ir::ir::{
    FunctionArgument, FunctionResult, LocalVariable, MeshOutputTopology, MeshStageInfo,
};
use naga_ir::tags::ExpressionTag;
use naga_ir::text::Text;
use std::alloc::Global;

/// An argument of this name: its type and its binding.
fn argument(name: Option<Text>, operands: &[u32]) -> Option<FunctionArgument>
    ensures { result ≡ argument_of name operands.now }
{
    let [ty, form, number, source] = operands else {
        return None
    };
    Some(FunctionArgument {
        name,
        ty: handle(*ty)?,
        binding: binding(*form, *number, *source)?,
    })
}

/// A local variable of this name: its type and its initialiser.
fn local_variable(name: Option<Text>, operands: &[u32]) -> Option<LocalVariable>
    ensures { result ≡ local_variable_of name operands.now }
{
    let [ty, init] = operands else { return None };
    Some(LocalVariable {
        name,
        ty: handle(*ty)?,
        init: handle(*init),
    })
}

/// What an item of this name says, of the operands after it.
fn part_of_name(opcode: u8, name: Option<Text>, operands: &[u32]) -> Option<Part>
    ensures { result ≡ named_part_of opcode name operands.now }
{
    match opcode {
        code::OP_ARGUMENT => Some(Part::Argument(argument(name, operands)?)),
        code::OP_LOCAL_VARIABLE => Some(Part::LocalVariable(local_variable(name, operands)?)),
        _ => None,
    }
}

/// What an item says whose operands begin with a name.
fn named_part(alloc: Global, opcode: u8, operands: &[u32]) -> Result<Part, Unread>
    ensures found { IfOk result (λ x. after_name (named_part_of opcode) operands.now ≡ Some x) }
    ensures none { IfErr result (λ e. e ≡ unread.Item → after_name (named_part_of opcode) operands.now ≡ None) }
{
    let (name, rest) = name(alloc, operands)?;
    known(part_of_name(opcode, name, rest))
}

/// The expression that has this text as its name.
fn expression_of_text(text: Text, operands: &[u32]) -> Option<Part>
    ensures { result ≡ named_expression_of text operands.now }
{
    Some(Part::NamedExpression(only_handle(operands)?, text))
}

/// A name of an expression.
fn named_expression(alloc: Global, operands: &[u32]) -> Result<Part, Unread>
    ensures found { IfOk result (λ x. after_text named_expression_of operands.now ≡ Some x) }
    ensures none { IfErr result (λ e. e ≡ unread.Item → after_text named_expression_of operands.now ≡ None) }
{
    let (text, rest) = text(alloc, operands)?;
    known(expression_of_text(text, rest))
}

/// The result of a function: its type and its binding.
fn function_result(operands: &[u32]) -> Option<FunctionResult>
    ensures { result ≡ function_result_of operands.now }
{
    let [ty, form, number, source] = operands else {
        return None
    };
    Some(FunctionResult {
        ty: handle(*ty)?,
        binding: binding(*form, *number, *source)?,
    })
}

/// The overrides of a workgroup's sizes.
fn workgroup_sizes(operands: &[u32]) -> Option<[Option<Handle<ExpressionTag>>; 3]>
    ensures { result ≡ workgroup_sizes_of operands.now }
{
    let [x, y, z] = operands else { return None };
    Some([handle(*x), handle(*y), handle(*z)])
}

/// What the primitives of a mesh shader are, and how many vertices and primitives it has at most.
fn mesh_numbers(operands: &[u32]) -> Option<(MeshOutputTopology, u32, u32)>
    ensures { result ≡ mesh_numbers_of operands.now }
{
    match operands {
        [] => Some((MeshOutputTopology::Points, 0, 0)),
        [form, vertices, primitives] => Some((topology(*form)?, *vertices, *primitives)),
        _ => None,
    }
}

/// The output of a mesh shader.
fn mesh_output(operands: &[u32]) -> Option<MeshStageInfo>
    ensures { result ≡ mesh_output_of operands.now }
{
    let [
        variable,
        vertex,
        primitive,
        vertices,
        primitives,
        numbers @ ..,
    ] = operands
    else {
        return None;
    };
    let (topology, max_vertices, max_primitives) = mesh_numbers(numbers)?;
    Some(MeshStageInfo {
        topology,
        max_vertices,
        max_primitives,
        output_variable: handle(*variable)?,
        vertex_output_type: handle(*vertex)?,
        primitive_output_type: handle(*primitive)?,
        max_vertices_override: handle(*vertices),
        max_primitives_override: handle(*primitives),
    })
}

/// The stage of an entry point, and whether depths are tested early.
fn entry_stage(operands: &[u32]) -> Option<EntryStage>
    ensures { result ≡ entry_stage_of operands.now }
{
    let [of_stage, early] = operands else {
        return None
    };
    Some(EntryStage {
        stage: stage(*of_stage)?,
        early_depth_test: early_depth_test(*early)?,
    })
}

/// The sizes of a workgroup.
fn workgroup_size(operands: &[u32]) -> Option<[u32; 3]>
    ensures { result ≡ workgroup_size_of operands.now }
{
    let [x, y, z] = operands else { return None };
    Some([*x, *y, *z])
}

/// What an item says that has neither a name nor a text and is no expression or mark.
fn plain_part(opcode: u8, operands: &[u32]) -> Option<Part>
    ensures { result ≡ plain_part_of opcode operands.now }
{
    match opcode {
        code::OP_RESULT => Some(Part::Result(function_result(operands)?)),
        code::OP_FUNCTION_FILTER_LEAF => Some(Part::FilterLeaf(only_handle(operands)?)),
        code::OP_WORKGROUP_SIZES => Some(Part::WorkgroupSizes(workgroup_sizes(operands)?)),
        code::OP_TASK_PAYLOAD => Some(Part::TaskPayload(only_handle(operands)?)),
        code::OP_MESH_OUTPUT => Some(Part::MeshOutput(mesh_output(operands)?)),
        code::OP_STAGE => Some(Part::Stage(entry_stage(operands)?)),
        code::OP_WORKGROUP_SIZE => Some(Part::WorkgroupSize(workgroup_size(operands)?)),
        _ => None,
    }
}

/// What an item says of a function or entry point, of its opcode and its operands. What is called here refuses the
/// opcodes that no such item has.
#[tactic(auto, using(crate::proofs::ItemLaws::expression_part, crate::proofs::ItemLaws::mark_part))]
pub(crate) fn part(alloc: Global, opcode: u8, operands: &[u32]) -> Result<Part, Unread>
    ensures found { IfOk result (λ x. part_of opcode operands.now ≡ Some x) }
    ensures none { IfErr result (λ e. e ≡ unread.Item → part_of opcode operands.now ≡ None) }
{
    if opcode < code::OP_RESULT {
        named_part(alloc, opcode, operands)
    } else if opcode == code::OP_NAMED_EXPRESSION {
        named_expression(alloc, operands)
    } else if opcode < code::OP_EXPRESSION {
        known(plain_part(opcode, operands))
    } else if opcode < code::STATEMENT_EMIT {
        Ok(Part::Expression(expression(alloc, opcode - code::OP_EXPRESSION, operands)?))
    } else {
        Ok(Part::Mark(mark(alloc, opcode, operands)?))
    }
}
