//! The verdict on what a call validates.

ghost use Rattle.naga_arena.specs.Memory.{UnlessOutOfMemory};
ghost use Rattle.naga_arena.specs.Span.{inner_of};
ghost use Rattle.naga_c.specs.Verdicts as spec;
ghost use Rattle.naga_c.specs.steps.Verdicts as steps;
ghost use Rattle.naga_ir.specs.Handles.{GlobalReferencesOk};
ghost use Rattle.naga_ir.specs.ItemReferences.{global_lists};
ghost use Rattle.naga_typing.specs.FullTyping.{full_resolves};
ghost use Rattle.naga_typing.specs.declared.full_typing.FullTyping.{FullTyping};
ghost use Rattle.naga_valid.specs.Accepted.{Accepts, Refuses};
ghost use Rattle.naga_valid.specs.State.{new_state, settings_of};
ghost use Rattle.naga_valid.specs.declared.error.ValidationError.TheVariants as error;
ghost use Rattle.std.specs.Prelude.{◌≡◌, IfOk, OnOk, false};

use crate::refusal::{Refusal, refusal_of};
use crate::results::Outcome;
use crate::status::Status;
use crate::subject::{NoSubject, Subject};
use naga_valid::{FullTyping, Module, ModuleInfo, ValidationError, Validator, WithSpan};
use std::alloc::Global;

/// What is written if nothing was found out.
pub(crate) fn no_outcome() -> Outcome
    ensures { result ≡ spec.no_outcome }
{
    Outcome::default()
}

/// What is written by a call that has no module to validate.
pub(crate) fn outcome_without(why: NoSubject) -> Outcome
    ensures { result ≡ spec.outcome_without why }
{
    match why {
        NoSubject::Unreadable(at) => Outcome {
            index: at as u64,
            ..no_outcome()
        },
        NoSubject::Options | NoSubject::Limit | NoSubject::Settings | NoSubject::OutOfMemory =>
            no_outcome(),
    }
}

/// How many types, functions and entry points a module has.
pub(crate) fn counts_of(module: &Module) -> Outcome
    ensures { result ≡ spec.counts_of «module».now }
{
    Outcome {
        types: module.types.len() as u64,
        functions: module.functions.len() as u64,
        entry_points: module.entry_points.len() as u64,
        ..no_outcome()
    }
}

/// A validator by the settings in force, which resolves the types of all expressions that functions have.
pub(crate) fn validator_for(alloc: Global, subject: &Subject) -> Validator<FullTyping>
    ensures { result ≡ new_state subject.now.flags subject.now.capabilities result.typing }
{
    Validator::with_typing(alloc, subject.flags, subject.capabilities, FullTyping)
}

/// Validates a module by the settings in force.
pub(crate) fn validate(
    validator: &mut Validator<FullTyping>,
    subject: &Subject,
) -> Result<ModuleInfo, WithSpan<ValidationError>>
    ensures result { UnlessOutOfMemory (λ e. inner_of e ≡ error.OutOfMemory) result
        (λ info. Accepts full_resolves subject.now.«module» (settings_of validator.old subject.now.resolved)
        validator.new.infos info.lists)
        (λ e. Refuses full_resolves subject.now.«module» (settings_of validator.old subject.now.resolved)
        (inner_of e)) }
    ensures references { OnOk result (GlobalReferencesOk (global_lists subject.now.«module»)) }
    ensures unresolved { IfOk result
        (λ info. Accepts full_resolves subject.now.«module» (settings_of validator.old false) validator.new.infos
        info.lists) }
    ensures settings { validator.new ≡ record validator.old { infos = validator.new.infos } }
{
    if subject.resolved {
        validator.validate_resolved_overrides(&subject.module)
    } else {
        validator.validate(&subject.module)
    }
}

/// The status of a module that is not accepted.
pub(crate) fn refused_status(error: &ValidationError) -> Status
    ensures { result ≡ steps.refused_status error.now }
{
    match error {
        ValidationError::OutOfMemory => Status::OutOfMemory,
        ValidationError::InvalidHandle(_)
        | ValidationError::Layouter(_)
        | ValidationError::Type_ { .. }
        | ValidationError::ConstExpression { .. }
        | ValidationError::ArraySizeError { .. }
        | ValidationError::Constant { .. }
        | ValidationError::Override { .. }
        | ValidationError::Corrupted => Status::Refused,
    }
}

/// What is written of a module of which this is refused.
pub(crate) fn outcome_of(module: &Module, refusal: &Refusal) -> Outcome
    ensures { result ≡ spec.refused_with «module».now refusal.now }
{
    Outcome {
        index: refusal.index,
        values: refusal.values.items,
        stage: refusal.stage,
        kind: refusal.kind,
        errors: refusal.errors,
        value_count: refusal.values.count,
        ..counts_of(module)
    }
}

/// What is written of a module that is not accepted.
pub(crate) fn refused_outcome(module: &Module, error: &ValidationError) -> Outcome
    ensures { result ≡ steps.refused_outcome «module».now error.now }
{
    if refused_status(error) == Status::OutOfMemory {
        return no_outcome();
    }
    outcome_of(module, &refusal_of(error))
}
