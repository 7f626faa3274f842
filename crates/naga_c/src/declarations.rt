//! The call on what a module declares: its variables, and the inputs and outputs of its functions and entry points.

ghost use Rattle.naga_c.specs.Declarations.{ChecksDeclarations, ReportsDeclarations, TellsExpression, TellsRefusal};
ghost use Rattle.naga_c.specs.Functions.{settings_for_functions};
ghost use Rattle.naga_typing.specs.FullTyping.{full_resolves};
ghost use Rattle.naga_valid.specs.Accepted.{Accepts};
ghost use Rattle.naga_valid.specs.State.{settings_of, stages_with};
ghost use Rattle.std.specs.Prelude.{◌≡◌};

use crate::functions::{refused_at, validator_of_functions};
use crate::refusal::{Refusal, interfaces_refusal, variables_refusal};
use crate::results::Outcome;
use crate::status::Status;
use crate::subject::Subject;
use crate::verdict::{
    counts_of, no_outcome, outcome_of, refused_outcome, refused_status, validate,
};
use naga_valid::{
    DeclarationsError, FullTyping, FunctionError, FunctionsError, Module, ModuleInfo, Validator,
};
use std::alloc::Global;

/// Writes a refusal, or nothing if memory was refused.
fn tell_refusal(module: &Module, refusal: Option<Refusal>, outcome: &mut Outcome) -> Status
    ensures { TellsRefusal «module».now refusal outcome.new result }
{
    match refusal {
        Some(refusal) => {
            *outcome = outcome_of(module, &refusal);
            Status::Refused
        }
        None => {
            *outcome = no_outcome();
            Status::OutOfMemory
        }
    }
}

/// Writes which expression of a function or entry point is refused and why, or nothing if memory was refused.
fn tell_expression(module: &Module, refused: &FunctionsError, outcome: &mut Outcome) -> Status
    ensures { TellsExpression «module».now refused.now outcome.new result }
{
    let FunctionError::Expression { handle, source } = &refused.source else {
        *outcome = no_outcome();
        return Status::OutOfMemory;
    };
    *outcome = refused_at(module, &refused.at, *handle, source);
    Status::Refused
}

/// Checks what an accepted module declares.
fn report_declarations(
    validator: &Validator<FullTyping>,
    subject: &Subject,
    info: &mut ModuleInfo,
    outcome: &mut Outcome,
) -> Status
    requires settings { settings_of validator.now subject.now.resolved ≡ settings_for_functions subject.now }
    requires subgroups { validator.now.subgroup_stages ≡ record { 0 = stages_with subject.now.capabilities.0 } }
    requires accepted { Accepts full_resolves subject.now.«module» (settings_of validator.now subject.now.resolved)
        validator.now.infos info.old.lists }
    ensures { ReportsDeclarations subject.now validator.now info.old.lists outcome.new result }
{
    let module = &subject.module;
    let Err(refused) = validator.validate_declarations(module, info, subject.resolved) else {
        *outcome = counts_of(module);
        return Status::Done;
    };
    match &refused {
        DeclarationsError::Variable(error) => {
            tell_refusal(module, variables_refusal(error), outcome)
        }
        DeclarationsError::Function(error) => tell_expression(module, error, outcome),
        DeclarationsError::Interface(error) => {
            tell_refusal(module, interfaces_refusal(error), outcome)
        }
    }
}

/// Checks what the module of words declares, after the module and the expressions of its functions. Constants are
/// validated as `validator_of_functions` says.
pub(crate) fn check_declarations(alloc: Global, subject: &Subject, outcome: &mut Outcome) -> Status
    ensures { ChecksDeclarations subject.now outcome.new result }
{
    let mut validator = validator_of_functions(alloc, subject);
    match validate(&mut validator, subject) {
        Ok(mut info) => report_declarations(&validator, subject, &mut info, outcome),
        Err(error) => {
            let inner = error.as_inner();
            *outcome = refused_outcome(&subject.module, inner);
            refused_status(inner)
        }
    }
}
