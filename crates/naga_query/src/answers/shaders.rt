//! Answers about whole functions: the types of their expressions by the full typing, and the stages that may
//! use them.

ghost use Rattle.std.specs.Prelude.{◌≡◌, ◌≤◌, OnOk, [], length};
ghost use Rattle.naga_ir.specs.Handles.{HandlesAccepted};
ghost use Rattle.naga_valid.specs.Functions.{IsFunctionReady, AreFunctionsReadyInOrder};

use crate::answers::modules::{add_error, add_not_applicable};
use crate::callable::{FunctionAt, function_of};
use crate::session::Session;
use bitflags::Flags;
use naga_module_text::declarations::Callable;
use naga_module_text::draft::Draft;
use naga_valid::{
    Callable as ModuleCallable, FullTyping, FunctionError, FunctionInfo, FunctionsError,
    ModuleInfo, OutOfMemory, TypeResolution,
};
use std::alloc::AllocError;

/// Adds the types of a function's expressions, and the stages that may use the function.
fn add_info(answer: &mut String, info: &FunctionInfo) -> Result<(), AllocError> {
    for (place, ty) in info.types.as_slice().iter().enumerate() {
        match ty {
            TypeResolution::Handle(ty) => {
                let index = ty.index();
                write!(answer, "E{place} T{index}\n")?;
            }
            TypeResolution::Value(inner) => write!(answer, "E{place} {inner:?}\n")?,
        }
    }
    let bits = info.available_stages.bits();
    write!(answer, "stages {bits:x}\n")
}

/// Adds which expression of a function or an entry point is refused first, and why.
fn add_refusal(
    answer: &mut String,
    callable: Callable,
    error: &FunctionError,
) -> Result<(), OutOfMemory> {
    match error {
        FunctionError::Expression { handle, source } => {
            let place = handle.index();
            write!(answer, "{callable} E{place} refused {source:?}\n")?;
            Ok(())
        }
        FunctionError::OutOfMemory => Err(OutOfMemory),
    }
}

/// A function that is refused, and why.
type Refusal = (Callable, FunctionError);

/// Validates the first functions of a module, and adds what is known of each to its info.
fn validate_first(
    session: &Session<FullTyping>,
    draft: &Draft,
    info: &mut ModuleInfo,
    count: usize,
) -> Result<(), Refusal>
    requires handles { HandlesAccepted draft.now.«module» }
    requires in_order { AreFunctionsReadyInOrder draft.now.«module» }
    requires flags { length draft.now.«module».types ≤ length info.old.lists.type_flags }
    requires none { info.old.lists.functions ≡ [] }
    requires count { count ≤ length draft.now.«module».functions }
    ensures functions { OnOk result (length info.new.lists.functions ≡ count) }
    ensures flags { OnOk result (length draft.now.«module».types ≤ length info.new.lists.type_flags) }
{
    let functions = draft.module.functions.as_slice();
    let validator = &session.validator;
    for index in 0..count {
        let function = &functions[index];
        let resolved = draft.settings.resolved();
        let known = match validator.validate_function_expressions(
            &draft.module,
            info,
            function,
            resolved,
        ) {
            Ok(known) => known,
            Err(error) => return Err((Callable::Function(index), error)),
        };
        if info.push_function(known).is_err() {
            return Err((Callable::Function(index), FunctionError::OutOfMemory));
        }
    }
    Ok(())
}

/// Adds what is known of a function whose callees are known, or which expression is refused first.
fn add_validated(
    session: &Session<FullTyping>,
    answer: &mut String,
    draft: &Draft,
    info: &ModuleInfo,
    at: FunctionAt<'_>,
) -> Result<(), OutOfMemory>
    requires handles { HandlesAccepted draft.now.«module» }
    requires flags { length draft.now.«module».types ≤ length info.now.lists.type_flags }
    requires can { IsFunctionReady draft.now.«module» at.function.now (length info.now.lists.functions) }
{
    let validator = &session.validator;
    let resolved = draft.settings.resolved();
    match validator.validate_function_expressions(&draft.module, info, at.function, resolved) {
        Ok(known) => Ok(add_info(answer, &known)?),
        Err(error) => add_refusal(answer, at.callable, &error),
    }
}

/// Adds what is known of a function or entry point of an accepted module, after those before it.
fn add_after_others(
    session: &Session<FullTyping>,
    answer: &mut String,
    draft: &Draft,
    info: &mut ModuleInfo,
    callable: Callable,
) -> Result<(), OutOfMemory>
    requires handles { HandlesAccepted draft.now.«module» }
    requires in_order { AreFunctionsReadyInOrder draft.now.«module» }
    requires flags { length draft.now.«module».types ≤ length info.old.lists.type_flags }
    requires none { info.old.lists.functions ≡ [] }
{
    let Some(at) = function_of(&draft.module, callable) else {
        return Ok(add_not_applicable(answer, "no such function")?);
    };
    if let Err((refused, error)) = validate_first(session, draft, info, at.preceding) {
        return add_refusal(answer, refused, &error);
    }
    add_validated(session, answer, draft, info, at)
}

/// Adds the types of the expressions of a function or entry point and the stages that may use it, or what is
/// refused: the module, or the first expression of it or of a function before it.
pub fn add_callable(
    session: &mut Session<FullTyping>,
    answer: &mut String,
    draft: &Draft,
    callable: Callable,
) -> Result<(), OutOfMemory> {
    match session.validate(draft) {
        Ok(mut info) => add_after_others(session, answer, draft, &mut info, callable),
        Err(error) => add_error(answer, &error),
    }
}

/// Adds which function or entry point is refused first, and why.
pub fn add_first_refusal(answer: &mut String, error: &FunctionsError) -> Result<(), OutOfMemory> {
    let callable = match error.at {
        ModuleCallable::Function(handle) => Callable::Function(handle.index()),
        ModuleCallable::EntryPoint(index) => Callable::EntryPoint(index),
    };
    add_refusal(answer, callable, &error.source)
}

/// `callables`: adds `ok` if all functions and entry points are accepted, or what is refused: the module, or
/// the first expression of the first of them.
pub fn add_callables(
    session: &mut Session<FullTyping>,
    answer: &mut String,
    draft: &Draft,
) -> Result<(), OutOfMemory> {
    match session.validate_functions(draft) {
        Ok(Ok(())) => Ok(answer.push_str("ok\n")?),
        Ok(Err(error)) => add_first_refusal(answer, &error),
        Err(error) => add_error(answer, &error),
    }
}
