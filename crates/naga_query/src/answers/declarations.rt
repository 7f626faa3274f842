//! Answers about the variables of a module, and what its functions and entry points declare.

ghost use Rattle.naga_query.specs.Accepted.{IsVariableThere};
ghost use Rattle.naga_valid.specs.declared.interface.DeclarationsError.TheVariants as declarations_error;

use crate::answers::modules::add_error;
use crate::answers::shaders::add_first_refusal;
use crate::query::DeclarationQuery;
use crate::session::Session;
use naga_module_text::draft::Draft;
use naga_valid::{
    DeclarationsError, EntryPointError, FullTyping, FunctionDeclarationError, InterfacesError,
    Module, OutOfMemory, Span, VariablesError,
};
use std::alloc::AllocError;

/// Adds the line of an item, if it is known.
fn add_line(answer: &mut String, span: Span) -> Result<(), AllocError> {
    if span.is_defined() {
        let line = span.start;
        write!(answer, " at line {line}")?;
    }
    answer.push_str("\n")
}

/// Adds which variable is refused first, and why.
fn add_variable(
    answer: &mut String,
    module: &Module,
    error: &VariablesError,
) -> Result<(), OutOfMemory>
    requires { IsVariableThere «module».now (declarations_error.Variable error.now) }
{
    match error {
        VariablesError::GlobalVariable { handle, source } => {
            let index = handle.index();
            write!(answer, "V{index} refused {source:?}")?;
            Ok(add_line(answer, module.global_variables.get_span(*handle))?)
        }
        VariablesError::OutOfMemory => Err(OutOfMemory),
    }
}

/// Adds which function or entry point is refused first, and why.
fn add_interface(answer: &mut String, error: &InterfacesError) -> Result<(), OutOfMemory> {
    match error {
        InterfacesError::Function {
            source: FunctionDeclarationError::OutOfMemory,
            ..
        }
        | InterfacesError::EntryPoint {
            source: EntryPointError::OutOfMemory,
            ..
        } => Err(OutOfMemory),
        InterfacesError::Function { handle, source } => {
            let index = handle.index();
            Ok(write!(answer, "F{index} refused {source:?}\n")?)
        }
        InterfacesError::EntryPoint { index, source } => {
            Ok(write!(answer, "N{index} refused {source:?}\n")?)
        }
    }
}

/// Adds what is wrong with the declarations of an accepted module.
fn add_refused(
    answer: &mut String,
    module: &Module,
    error: &DeclarationsError,
) -> Result<(), OutOfMemory>
    requires { IsVariableThere «module».now error.now }
{
    match error {
        DeclarationsError::Variable(error) => add_variable(answer, module, error),
        DeclarationsError::Function(error) => add_first_refusal(answer, error),
        DeclarationsError::Interface(error) => add_interface(answer, error),
    }
}

/// `variables`, `interfaces`, `declarations`: adds `ok`, or what is refused first: the module, and then of the variables,
/// or of the functions and entry points, or of all of these.
pub fn add_declarations(
    session: &mut Session<FullTyping>,
    answer: &mut String,
    draft: &Draft,
    query: DeclarationQuery,
) -> Result<(), OutOfMemory> {
    match session.validate_declarations(draft, query) {
        Ok(Ok(())) => Ok(answer.push_str("ok\n")?),
        Ok(Err(error)) => add_refused(answer, &draft.module, &error),
        Err(error) => add_error(answer, &error),
    }
}
