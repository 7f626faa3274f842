//! Answers about the slots of immediate data.

ghost use Rattle.std.specs.Prelude.{◌<◌, All, IsOk, IsTrue, length};
ghost use Rattle.naga_immediates.specs.Slots.{BaseExists};
ghost use Rattle.naga_ir.specs.Handles.{GlobalReferencesOk, HandlesAccepted};
ghost use Rattle.naga_ir.specs.ItemReferences.{global_lists};
ghost use Rattle.naga_query.specs.Accepted.{IsVariableTyped};
ghost use Rattle.naga_typing.specs.Layout.{layout_results};

use crate::answers::modules::add_not_applicable;
use naga_text::number::{handle, number};
use naga_valid::{
    Arena, Expression, ExpressionTag, Function, FunctionTag, GlobalVariableTag, Handle,
    ImmediateSlots, Module, TypeTag, to_ctx,
};
use std::alloc::AllocError;

/// Adds a set of slots, as bits in hexadecimal and as ranges of bytes.
fn add_slots(answer: &mut String, slots: ImmediateSlots) -> Result<(), AllocError> {
    let bits = slots.to_raw();
    write!(answer, "{bits:016x} {slots}\n")
}

/// `range OFFSET BYTES`: adds the slots of a range of bytes.
pub fn add_range(answer: &mut String, words: &[&[u8]]) -> Result<(), AllocError> {
    let [offset, bytes] = words else {
        return add_not_applicable(answer, "no offset and number of bytes");
    };
    match (number(offset), number(bytes)) {
        (Some(offset), Some(bytes)) => add_slots(answer, ImmediateSlots::from_range(offset, bytes)),
        _ => add_not_applicable(answer, "no offset and number of bytes"),
    }
}

/// The type and the offset of a query.
fn type_and_offset(words: &[&[u8]]) -> Option<(Handle<TypeTag>, u32)> {
    let [ty, offset] = words else { return None };
    Some((handle(ty)?, number(offset)?))
}

/// The slots that a type uses from a byte on.
fn slots_of(module: &Module, ty: Handle<TypeTag>, offset: u32) -> ImmediateSlots
    requires exists { ty < length «module».now.types }
    requires references { GlobalReferencesOk (global_lists «module».now) }
{
    let gctx = to_ctx(module);
    ImmediateSlots::from_type(&module.types[ty].inner, offset, &module.types, gctx)
}

/// `typeslots T OFFSET`: adds the slots that a type uses from a byte on.
pub fn add_of_type(answer: &mut String, module: &Module, words: &[&[u8]]) -> Result<(), AllocError>
    requires { GlobalReferencesOk (global_lists «module».now) }
{
    match type_and_offset(words) {
        Some((ty, offset)) if ty.index() < module.types.len() => {
            add_slots(answer, slots_of(module, ty, offset))
        }
        _ => add_not_applicable(answer, "no such type"),
    }
}

/// An expression of a function, and the global variable to which it points.
#[derive(Clone, Copy)]
struct Pointer {
    function: Handle<FunctionTag>,
    expression: Handle<ExpressionTag>,
    variable: Handle<GlobalVariableTag>,
}

/// The pointer of a query.
fn pointer_of(words: &[&[u8]]) -> Option<Pointer> {
    let [function, expression, variable] = words else {
        return None;
    };
    Some(Pointer {
        function: handle(function)?,
        expression: handle(expression)?,
        variable: handle(variable)?,
    })
}

/// Whether the base of an expression is there, if it accesses a part by its index.
fn has_base(expressions: &Arena<Expression, ExpressionTag>, pointer: Handle<ExpressionTag>) -> bool
    requires { pointer < length expressions.now }
    ensures { IsTrue result → BaseExists expressions.now pointer }
{
    match &expressions[pointer] {
        Expression::AccessIndex { base, .. } => base.index() < expressions.len(),
        _ => true,
    }
}

/// Whether the type of a global variable is there.
fn has_type(module: &Module, variable: Handle<GlobalVariableTag>) -> bool
    requires { variable < length «module».now.global_variables }
    ensures { IsTrue result → IsVariableTyped «module».now variable }
{
    module.global_variables[variable].ty.index() < module.types.len()
}

/// Adds the slots that may be used through a pointer in a function, if there is such a pointer.
fn add_reached(
    answer: &mut String,
    module: &Module,
    function: &Function,
    pointer: Pointer,
) -> Result<(), AllocError>
    requires { GlobalReferencesOk (global_lists «module».now) }
{
    let expressions = &function.expressions;
    let variables = &module.global_variables;
    let Pointer {
        expression,
        variable,
        ..
    } = pointer;
    if expression.index() >= expressions.len() || !has_base(expressions, expression) {
        return add_not_applicable(answer, "no such expression");
    }
    if variable.index() >= variables.len() || !has_type(module, variable) {
        return add_not_applicable(answer, "no such global variable");
    }
    let gctx = to_ctx(module);
    let slots = ImmediateSlots::for_pointer(expression, variable, expressions, variables, gctx);
    add_slots(answer, slots)
}

/// `pointerslots F E V`: adds the slots that may be used through expression E of function F, which points to
/// global variable V.
pub fn add_through(answer: &mut String, module: &Module, words: &[&[u8]]) -> Result<(), AllocError>
    requires { GlobalReferencesOk (global_lists «module».now) }
{
    let Some(pointer) = pointer_of(words) else {
        return add_not_applicable(answer, "no function, expression and global variable");
    };
    match module.functions.as_slice().get(pointer.function.index()) {
        Some(function) => add_reached(answer, module, function, pointer),
        None => add_not_applicable(answer, "no such function"),
    }
}

/// `immediatesize`: adds the size of the immediate data of a module in bytes.
pub fn add_size(answer: &mut String, module: &Module) -> Result<(), AllocError>
    requires handles { HandlesAccepted «module».now }
    requires laid_out { All IsOk (layout_results (global_lists «module».now)) }
{
    let size = ImmediateSlots::size_for_module(module);
    write!(answer, "{size}\n")
}
