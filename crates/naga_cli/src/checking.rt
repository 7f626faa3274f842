//! What is found of the module of a source.

ghost use Rattle.std.specs.Prelude.{◌≡◌, IfOk, None, Some};
ghost use Rattle.naga_arena.specs.Memory.{UnlessOutOfMemory};
ghost use Rattle.naga_arena.specs.Span.{inner_of};
ghost use Rattle.naga_cli.specs.Findings.{IsFound, Says, SaysDeclarationsError, SaysFunctionError, SaysModuleError, settings_in, state_of};
ghost use Rattle.naga_types.specs.ErrorNames.{type_error_name};
ghost use Rattle.naga_typing.specs.FullTyping.{full_resolves};
ghost use Rattle.naga_valid.specs.Accepted.{Accepts, Refuses};
ghost use Rattle.naga_valid.specs.ErrorNames.{constant_error_name, override_error_name, validation_error_name};
ghost use Rattle.naga_valid.specs.State.{settings_of};
ghost use Rattle.naga_valid.specs.declared.error.ValidationError.TheVariants as module_error;
ghost use Rattle.naga_verdict.specs.declared.item.Item.TheVariants as item;
ghost use Rattle.naga_verdict.specs.declared.verdict.Stage.TheVariants as stage;

use crate::arguments::Coverage;
use crate::declarations::{refused_interface, refused_variable};
use crate::names::{
    Names, of_const_expression_error, of_expression_error, of_handle_error, of_override_error,
    of_type_error, subject_of,
};
use crate::refusal::{Wrong, refusal};
use naga_source::places::Places;
use naga_source::reading::Subject;
use naga_valid::{
    Callable, ConstantError, DeclarationsError, FullTyping, FunctionError, FunctionsError,
    InvalidHandleError, LayoutError, ModuleInfo, OutOfMemory, OverrideError, TypeError,
    ValidationError, Validator, WithSpan,
};
use naga_verdict::item::{Item, Owner};
use naga_verdict::verdict::{Refusal, Stage};
use std::alloc::Global;
use std::fmt::{Debug, Display};

/// The refusal for an error of handles.
fn refused_handle(
    alloc: Global,
    places: &Places,
    error: &InvalidHandleError,
) -> Result<Refusal, OutOfMemory>
    ensures { IfOk result (SaysModuleError (module_error.InvalidHandle error.now)) }
{
    let wrong = Wrong {
        stage: Stage::Handles,
        item: match error {
            InvalidHandleError::ForwardDependency(error) => subject_of(error),
            InvalidHandleError::BadHandle(_) | InvalidHandleError::BadRange(_) => None,
        },
        name: error.name(),
        names: of_handle_error(error),
    };
    refusal(alloc, places, wrong, error)
}

/// The refusal for a type that has no layout.
fn refused_layout(
    alloc: Global,
    places: &Places,
    error: &LayoutError,
) -> Result<Refusal, OutOfMemory>
    ensures { IfOk result (SaysModuleError (module_error.Layouter error.now)) }
{
    let wrong = Wrong {
        stage: Stage::Layout,
        item: Some(Item::Type_(error.ty.index())),
        name: error.inner.name(),
        names: Names::default(),
    };
    refusal(alloc, places, wrong, &error.inner)
}

/// The refusal for an error of a type.
fn refused_type(
    alloc: Global,
    places: &Places,
    ty: usize,
    error: &TypeError,
) -> Result<Refusal, OutOfMemory>
    ensures { IfOk result (Says stage.Type_ (Some (item.Type_ ty)) (type_error_name error.now)) }
{
    let wrong = Wrong {
        stage: Stage::Type_,
        item: Some(Item::Type_(ty)),
        name: error.name(),
        names: of_type_error(error),
    };
    refusal(alloc, places, wrong, error)
}

/// The refusal for an error of a global expression.
fn refused_expression<E: Debug + Display>(
    alloc: Global,
    places: &Places,
    expression: usize,
    named: (&str, Names),
    error: &E,
) -> Result<Refusal, OutOfMemory>
    ensures { IfOk result (Says stage.Expression (Some (item.GlobalExpression expression)) named.entry.0.now) }
{
    let (name, names) = named;
    let wrong = Wrong {
        stage: Stage::Expression,
        item: Some(Item::GlobalExpression(expression)),
        name,
        names,
    };
    refusal(alloc, places, wrong, error)
}

/// The refusal for an error of a constant.
fn refused_constant(
    alloc: Global,
    places: &Places,
    constant: usize,
    error: &ConstantError,
) -> Result<Refusal, OutOfMemory>
    ensures { IfOk result (Says stage.Constant (Some (item.Constant constant)) (constant_error_name error.now)) }
{
    let wrong = Wrong {
        stage: Stage::Constant,
        item: Some(Item::Constant(constant)),
        name: error.name(),
        names: Names::default(),
    };
    refusal(alloc, places, wrong, error)
}

/// The refusal for an error of an override.
fn refused_override(
    alloc: Global,
    places: &Places,
    index: usize,
    error: &OverrideError,
) -> Result<Refusal, OutOfMemory>
    ensures { IfOk result (Says stage.Override (Some (item.Override index)) (override_error_name error.now)) }
{
    let wrong = Wrong {
        stage: Stage::Override,
        item: Some(Item::Override(index)),
        name: error.name(),
        names: of_override_error(error),
    };
    refusal(alloc, places, wrong, error)
}

/// The refusal for an error that names no part of a module.
fn refused_module(
    alloc: Global,
    places: &Places,
    error: &ValidationError,
) -> Result<Refusal, OutOfMemory>
    ensures { IfOk result (Says stage.Module None (validation_error_name error.now)) }
{
    let wrong = Wrong {
        stage: Stage::Module,
        item: None,
        name: error.name(),
        names: Names::default(),
    };
    refusal(alloc, places, wrong, error)
}

/// The refusal for an error of a module.
fn refused(alloc: Global, places: &Places, error: &ValidationError) -> Result<Refusal, OutOfMemory>
    ensures { IfOk result (SaysModuleError error.now) }
{
    match error {
        ValidationError::InvalidHandle(error) => refused_handle(alloc, places, error),
        ValidationError::Layouter(error) => refused_layout(alloc, places, error),
        ValidationError::Type_ { handle, source, .. } => {
            refused_type(alloc, places, handle.index(), source)
        }
        ValidationError::ConstExpression { handle, source } => {
            let named = (source.name(), of_const_expression_error(source));
            refused_expression(alloc, places, handle.index(), named, source)
        }
        ValidationError::ArraySizeError { handle } => {
            let named = (error.name(), Names::default());
            refused_expression(alloc, places, handle.index(), named, error)
        }
        ValidationError::Constant { handle, source, .. } => {
            refused_constant(alloc, places, handle.index(), source)
        }
        ValidationError::Override { handle, source, .. } => {
            refused_override(alloc, places, handle.index(), source)
        }
        ValidationError::Corrupted => refused_module(alloc, places, error),
        ValidationError::OutOfMemory => Err(OutOfMemory),
    }
}

/// The refusal for an error of a function or an entry point.
fn refused_function(
    alloc: Global,
    places: &Places,
    error: &FunctionsError,
) -> Result<Refusal, OutOfMemory>
    ensures { IfOk result (SaysFunctionError error.now.at error.now.source) }
{
    let FunctionError::Expression { handle, source } = &error.source else {
        return Err(OutOfMemory);
    };
    let (stage, owner) = match error.at {
        Callable::Function(function) => (Stage::Function, Owner::Function(function.index())),
        Callable::EntryPoint(index) => (Stage::EntryPoint, Owner::EntryPoint(index)),
    };
    let wrong = Wrong {
        stage,
        item: Some(Item::Expression(owner, handle.index())),
        name: source.name(),
        names: of_expression_error(source, owner),
    };
    refusal(alloc, places, wrong, source)
}

/// What is found of a module.
#[derive(Drop)]
pub enum Checked {
    /// It is accepted, and the validator has the infos of its types.
    Accepted(Validator<FullTyping>),
    /// It is refused.
    Refused(Refusal),
}

/// Validates the module of a subject, without its functions.
fn validate(
    validator: &mut Validator<FullTyping>,
    subject: &Subject,
) -> Result<ModuleInfo, WithSpan<ValidationError>>
    ensures result { UnlessOutOfMemory (λ e. inner_of e ≡ module_error.OutOfMemory) result
        (λ info. Accepts full_resolves subject.now.«module» (settings_of validator.old subject.now.resolved)
        validator.new.infos info.lists)
        (λ e. Refuses full_resolves subject.now.«module» (settings_of validator.old subject.now.resolved)
        (inner_of e)) }
    ensures settings { validator.new ≡ record validator.old { infos = validator.new.infos } }
{
    if subject.resolved {
        validator.validate_resolved_overrides(&subject.module)
    } else {
        validator.validate(&subject.module)
    }
}

/// What is found of a module that is accepted without its functions, by the expressions of its functions and entry
/// points.
fn check_functions(
    alloc: Global,
    validator: Validator<FullTyping>,
    subject: &Subject,
    info: &mut ModuleInfo,
) -> Result<Checked, OutOfMemory>
    requires settings { validator ≡ state_of subject.now validator.typing validator.infos }
    requires accepted { Accepts full_resolves subject.now.«module» (settings_in subject.now) validator.infos
        info.old.lists }
    ensures { IfOk result (IsFound Coverage.Values subject.now) }
{
    match validator.validate_functions(&subject.module, info, subject.resolved) {
        Ok(()) => Ok(Checked::Accepted(validator)),
        Err(error) => {
            let refusal = refused_function(alloc, &subject.places, &error)?;
            Ok(Checked::Refused(refusal))
        }
    }
}

/// The refusal for an error of what a module declares.
fn refused_declarations(
    alloc: Global,
    places: &Places,
    error: &DeclarationsError,
) -> Result<Refusal, OutOfMemory>
    ensures { IfOk result (SaysDeclarationsError error.now) }
{
    match error {
        DeclarationsError::Variable(error) => refused_variable(alloc, places, error),
        DeclarationsError::Function(error) => refused_function(alloc, places, error),
        DeclarationsError::Interface(error) => refused_interface(alloc, places, error),
    }
}

/// What is found of a module that is accepted without its functions, by all that it declares.
fn check_declarations(
    alloc: Global,
    validator: Validator<FullTyping>,
    subject: &Subject,
    info: &mut ModuleInfo,
) -> Result<Checked, OutOfMemory>
    requires settings { validator ≡ state_of subject.now validator.typing validator.infos }
    requires accepted { Accepts full_resolves subject.now.«module» (settings_in subject.now) validator.infos
        info.old.lists }
    ensures { IfOk result (IsFound Coverage.Declarations subject.now) }
{
    match validator.validate_declarations(&subject.module, info, subject.resolved) {
        Ok(()) => Ok(Checked::Accepted(validator)),
        Err(error) => {
            let refusal = refused_declarations(alloc, &subject.places, &error)?;
            Ok(Checked::Refused(refusal))
        }
    }
}

/// What is found of the module of a subject, as far as it is to be validated: it is accepted, or refused by the first
/// rule that it breaks. Its variables come before its functions, and the expressions of all functions and entry points
/// before what these declare.
///
/// # Errors
///
/// `OutOfMemory` if a request for memory was refused.
pub fn check(alloc: Global, subject: &Subject, coverage: Coverage) -> Result<Checked, OutOfMemory>
    ensures { IfOk result (IsFound coverage subject.now) }
{
    let mut validator = Validator::with_typing(
        alloc,
        subject.flags,
        subject.capabilities,
        FullTyping,
    );
    match validate(&mut validator, subject) {
        Ok(mut info) => match coverage {
            Coverage::Values => check_functions(alloc, validator, subject, &mut info),
            Coverage::Declarations => check_declarations(alloc, validator, subject, &mut info),
        },
        Err(error) => {
            let refusal = refused(alloc, &subject.places, error.as_inner())?;
            Ok(Checked::Refused(refusal))
        }
    }
}
