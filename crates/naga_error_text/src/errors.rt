//! An error of any family.

ghost use Rattle.naga_error_text.specs.Errors.{cause_of, error_of, error_parts, values_within, without_first};
ghost use Rattle.naga_error_text.specs.steps.Pieces.{are_short, piece_text};
ghost use Rattle.std.specs.Prelude.{◌≡◌, IsTrue, map};

use crate::causes::{
    ComposeError, Disalignment, ImmediateError, IndexableLengthError, LiteralError, ResolveError,
    VaryingError, WidthError, compose_error_of, compose_error_pieces, disalignment_of,
    disalignment_pieces, immediate_error_of, immediate_error_pieces, indexable_length_error_of,
    indexable_length_error_pieces, literal_error_cause, literal_error_of, literal_error_pieces,
    resolve_error_of, resolve_error_pieces, varying_error_of, varying_error_pieces, width_error_of,
    width_error_pieces,
};
use crate::declaration_errors::{
    EntryPointError, FunctionDeclarationError, GlobalVariableError, LocalVariableError,
    entry_point_error_cause, entry_point_error_of, entry_point_error_pieces,
    function_declaration_error_cause, function_declaration_error_of,
    function_declaration_error_pieces, global_variable_error_cause, global_variable_error_of,
    global_variable_error_pieces, local_variable_error_of, local_variable_error_pieces,
};
use crate::expression_errors::{
    ExpressionError, expression_error_cause, expression_error_of, expression_error_pieces,
};
use crate::families::Family;
use crate::module_errors::{
    ConstExpressionError, ConstantError, HandleError, LayoutError, ModuleError, OverrideError,
    const_expression_error_cause, const_expression_error_of, const_expression_error_pieces,
    constant_error_of, constant_error_pieces, handle_error_of, handle_error_pieces,
    layout_error_of, layout_error_pieces, module_error_of, module_error_pieces,
    override_error_cause, override_error_of, override_error_pieces,
};
use crate::pieces::{Piece, Values};
use crate::stages::{Stage, stage_cause, stage_of, stage_pieces};
use crate::type_errors::{TypeError, type_error_cause, type_error_of, type_error_pieces};

/// An error of any family.
#[derive(Clone, Copy, Debug, PartialEq)]
pub enum Error {
    Stage(Stage),
    Handle(HandleError),
    Layout(LayoutError),
    Type_(TypeError),
    ConstExpression(ConstExpressionError),
    Constant(ConstantError),
    Override(OverrideError),
    Expression(ExpressionError),
    Module(ModuleError),
    Varying(VaryingError),
    Literal(LiteralError),
    Width(WidthError),
    Compose(ComposeError),
    Resolve(ResolveError),
    IndexableLength(IndexableLengthError),
    GlobalVariable(GlobalVariableError),
    LocalVariable(LocalVariableError),
    FunctionDeclaration(FunctionDeclarationError),
    EntryPoint(EntryPointError),
    Immediate(ImmediateError),
    Disalignment(Disalignment),
}

/// The error of a family that has this number, if there is one.
pub(crate) fn error_of(family: Family, number: u32) -> Option<Error>
    ensures { result ≡ error_of family number }
{
    Some(match family {
        Family::Stage => Error::Stage(stage_of(number)?),
        Family::Handle => Error::Handle(handle_error_of(number)?),
        Family::Layout => Error::Layout(layout_error_of(number)?),
        Family::Type_ => Error::Type_(type_error_of(number)?),
        Family::ConstExpression => Error::ConstExpression(const_expression_error_of(number)?),
        Family::Constant => Error::Constant(constant_error_of(number)?),
        Family::Override => Error::Override(override_error_of(number)?),
        Family::Expression => Error::Expression(expression_error_of(number)?),
        Family::Module => Error::Module(module_error_of(number)?),
        Family::Varying => Error::Varying(varying_error_of(number)?),
        Family::Literal => Error::Literal(literal_error_of(number)?),
        Family::Width => Error::Width(width_error_of(number)?),
        Family::Compose => Error::Compose(compose_error_of(number)?),
        Family::Resolve => Error::Resolve(resolve_error_of(number)?),
        Family::IndexableLength => Error::IndexableLength(indexable_length_error_of(number)?),
        Family::GlobalVariable => Error::GlobalVariable(global_variable_error_of(number)?),
        Family::LocalVariable => Error::LocalVariable(local_variable_error_of(number)?),
        Family::FunctionDeclaration => Error::FunctionDeclaration(function_declaration_error_of(
            number,
        )?),
        Family::EntryPoint => Error::EntryPoint(entry_point_error_of(number)?),
        Family::Immediate => Error::Immediate(immediate_error_of(number)?),
        Family::Disalignment => Error::Disalignment(disalignment_of(number)?),
    })
}

/// The pieces of the text of an error.
pub(crate) fn pieces_of(error: Error) -> &'static [Piece]
    ensures text { (values : Values) → map (piece_text values) result.now ≡ error_parts error values }
    ensures short { IsTrue (are_short result.now) }
{
    match error {
        Error::Stage(error) => stage_pieces(error),
        Error::Handle(error) => handle_error_pieces(error),
        Error::Layout(error) => layout_error_pieces(error),
        Error::Type_(error) => type_error_pieces(error),
        Error::ConstExpression(error) => const_expression_error_pieces(error),
        Error::Constant(error) => constant_error_pieces(error),
        Error::Override(error) => override_error_pieces(error),
        Error::Expression(error) => expression_error_pieces(error),
        Error::Module(error) => module_error_pieces(error),
        Error::Varying(error) => varying_error_pieces(error),
        Error::Literal(error) => literal_error_pieces(error),
        Error::Width(error) => width_error_pieces(error),
        Error::Compose(error) => compose_error_pieces(error),
        Error::Resolve(error) => resolve_error_pieces(error),
        Error::IndexableLength(error) => indexable_length_error_pieces(error),
        Error::GlobalVariable(error) => global_variable_error_pieces(error),
        Error::LocalVariable(error) => local_variable_error_pieces(error),
        Error::FunctionDeclaration(error) => function_declaration_error_pieces(error),
        Error::EntryPoint(error) => entry_point_error_pieces(error),
        Error::Immediate(error) => immediate_error_pieces(error),
        Error::Disalignment(error) => disalignment_pieces(error),
    }
}

/// What the error within an error is one of, if there is one.
pub(crate) fn cause_of(error: Error) -> Option<Family>
    ensures { result ≡ cause_of error }
{
    match error {
        Error::Stage(error) => Some(stage_cause(error)),
        Error::Type_(error) => type_error_cause(error),
        Error::ConstExpression(error) => const_expression_error_cause(error),
        Error::Override(error) => override_error_cause(error),
        Error::Expression(error) => expression_error_cause(error),
        Error::Literal(error) => Some(literal_error_cause(error)),
        Error::GlobalVariable(error) => global_variable_error_cause(error),
        Error::FunctionDeclaration(error) => function_declaration_error_cause(error),
        Error::EntryPoint(error) => entry_point_error_cause(error),
        Error::Handle(_)
        | Error::Layout(_)
        | Error::Constant(_)
        | Error::Module(_)
        | Error::Varying(_)
        | Error::Width(_)
        | Error::Compose(_)
        | Error::Resolve(_)
        | Error::IndexableLength(_)
        | Error::LocalVariable(_)
        | Error::Immediate(_)
        | Error::Disalignment(_) => None,
    }
}

/// Values without the first.
fn without_first(values: Values) -> Values
    ensures { result ≡ without_first values }
{
    Values {
        first: values.second,
        second: values.third,
        third: values.fourth,
        fourth: values.fifth,
        fifth: 0,
        ..values
    }
}

/// The values of the error within an error: those after its own.
pub(crate) fn values_within(error: Error, values: Values) -> Values
    ensures { result ≡ values_within error values }
{
    match error {
        Error::Override(OverrideError::ConstExpression)
        | Error::FunctionDeclaration(FunctionDeclarationError::LocalVariable)
        | Error::EntryPoint(EntryPointError::Argument) => without_first(values),
        Error::GlobalVariable(GlobalVariableError::Alignment) => {
            without_first(without_first(values))
        }
        _ => values,
    }
}
