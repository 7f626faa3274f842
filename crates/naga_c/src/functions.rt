//! The call on the functions of a module: the stages that may use each, or the first refused expression.

ghost use Rattle.naga_arena.specs.Numbers.{largest_u32};
ghost use Rattle.naga_c.specs.Buffers.{BeginsWith};
ghost use Rattle.naga_c.specs.Functions.{ChecksFunctions, ReportsAll, ReportsFunctions, ReportsRefused, callable_count, refused_at, stages_of, with_constants};
ghost use Rattle.naga_typing.specs.FullTyping.{full_resolves};
ghost use Rattle.naga_valid.specs.Accepted.{Accepts};
ghost use Rattle.naga_valid.specs.AllFunctions.{HaveInfos, IsNext};
ghost use Rattle.naga_valid.specs.State.{new_state, settings_of, stages_with};
ghost use Rattle.std.specs.Prelude.{◌≡◌, ◌+◌, ◌<◌, ◌≤◌, Some, length, slice_get};

use crate::codes::{expression_error_cause, expression_error_code, expression_error_second_cause};
use crate::kinds;
use crate::refusal::{ENTRY_POINT, FUNCTION};
use crate::results::Outcome;
use crate::status::Status;
use crate::subject::Subject;
use crate::values::{Values, expression_error_values};
use crate::verdict::{counts_of, no_outcome, refused_outcome, refused_status, validate};
use naga_info::expression_error::ExpressionError;
use naga_valid::{
    Callable, ExpressionTag, Flags, FullTyping, FunctionError, FunctionInfo, FunctionTag,
    FunctionsError, Handle, Module, ModuleInfo, ValidationFlags, Validator,
};
use std::alloc::Global;

/// The stages that may use a function or entry point, as bits.
fn bits_of(info: &FunctionInfo) -> u32
    ensures { result ≡ info.now.available_stages.0 }
{
    u32::from(info.available_stages.bits())
}

/// The stages of the function of an index, or of the entry point whose index follows those of all functions.
#[tactic(auto, using(crate::proofs::StageLaws::function_stages))]
fn stages_at(info: &ModuleInfo, functions: usize, index: usize) -> u32
    requires functions { functions ≡ length info.now.lists.functions }
    requires handles { functions ≤ largest_u32 }
    requires index { index < functions + length info.now.lists.entry_points }
    ensures { slice_get (stages_of info.now.lists) index ≡ Some result }
{
    if index < functions {
        let handle: Handle<FunctionTag> = Handle::new(index as u32);
        bits_of(&info[handle])
    } else {
        bits_of(info.get_entry_point(index - functions))
    }
}

/// Writes the stages of the first functions and entry points: all that are known.
fn write_stages(info: &ModuleInfo, functions: usize, count: usize, stages: &mut [u32])
    requires functions { functions ≡ length info.now.lists.functions }
    requires handles { functions ≤ largest_u32 }
    requires count { count ≡ functions + length info.now.lists.entry_points }
    requires room { count ≤ length stages.old }
    ensures { BeginsWith (stages_of info.now.lists) stages.old stages.new }
{
    for index in 0..count {
        stages[index] = stages_at(info, functions, index);
    }
}

/// How many functions and entry points a module has together.
fn callable_count(module: &Module) -> usize
    ensures { result ≡ callable_count «module».now }
{
    module.functions.len() + module.entry_points.as_slice().len()
}

/// Writes the stages of all functions and entry points, which are accepted, if they are wanted and have room.
fn report_all(
    module: &Module,
    info: &ModuleInfo,
    stages: &mut [u32],
    outcome: &mut Outcome,
) -> Status
    requires { HaveInfos «module».now info.now.lists }
    ensures { ReportsAll «module».now info.now.lists stages.old stages.new outcome.new result }
{
    *outcome = counts_of(module);
    if stages.is_empty() {
        return Status::Done;
    }
    let count = callable_count(module);
    if stages.len() < count {
        return Status::Room;
    }
    write_stages(info, module.functions.len(), count, stages);
    outcome.written = count as u64;
    Status::Done
}

/// How many functions, and how many entry points, are accepted before a refused one.
fn accepted_before(module: &Module, info: &ModuleInfo, at: &Callable) -> (usize, usize)
    requires { IsNext «module».now info.now.lists at.now }
    ensures functions { result.0 ≡ length info.now.lists.functions }
    ensures entry_points { result.1 ≡ length info.now.lists.entry_points }
    ensures handles { result.0 ≤ largest_u32 }
    ensures within { result.0 + result.1 ≤ callable_count «module».now }
{
    match *at {
        Callable::Function(handle) => (handle.index(), 0),
        Callable::EntryPoint(index) => (module.functions.len(), index),
    }
}

/// What is written of a function or entry point whose expression is refused.
pub(crate) fn refused_at(
    module: &Module,
    at: &Callable,
    expression: Handle<ExpressionTag>,
    error: &ExpressionError,
) -> Outcome
    ensures { result ≡ refused_at «module».now at.now expression error.now }
{
    let (stage, kind, index) = match *at {
        Callable::Function(handle) => (FUNCTION, kinds::FUNCTION, handle.index()),
        Callable::EntryPoint(index) => (ENTRY_POINT, kinds::ENTRY_POINT, index),
    };
    let Values { count, items } = expression_error_values(error);
    let errors = [
        expression_error_code(error),
        expression_error_cause(error),
        expression_error_second_cause(error),
        0,
    ];
    Outcome {
        index: index as u64,
        values: items,
        stage,
        kind,
        errors,
        value_count: count,
        expression: expression.index() as u32,
        ..counts_of(module)
    }
}

/// Writes which function or entry point is refused and why, and the stages of those before it if there is room for the
/// stages of all.
fn report_refused(
    module: &Module,
    info: &ModuleInfo,
    refused: &FunctionsError,
    stages: &mut [u32],
    outcome: &mut Outcome,
) -> Status
    requires { IsNext «module».now info.now.lists refused.now.at }
    ensures { ReportsRefused «module».now info.now.lists refused.now stages.old stages.new outcome.new result }
{
    let FunctionError::Expression { handle, source } = &refused.source else {
        *outcome = no_outcome();
        return Status::OutOfMemory;
    };
    *outcome = refused_at(module, &refused.at, *handle, source);
    let all = callable_count(module);
    if stages.len() < all {
        return Status::Refused;
    }
    let (functions, entry_points) = accepted_before(module, info, &refused.at);
    let count = functions + entry_points;
    write_stages(info, functions, count, stages);
    outcome.written = count as u64;
    Status::Refused
}

/// These flags, and the one by which constants are validated.
fn with_constants(flags: ValidationFlags) -> ValidationFlags
    ensures { result ≡ with_constants flags }
{
    flags.union(ValidationFlags::CONSTANTS)
}

/// A validator of the functions of words. It validates constants also if the words leave them out: the rule of a
/// division goes through the global expressions that its right operand is made of, and calls itself as deep as these
/// are nested unless they keep their rules.
pub(crate) fn validator_of_functions(alloc: Global, subject: &Subject) -> Validator<FullTyping>
    ensures { result ≡ new_state (with_constants subject.now.flags) subject.now.capabilities result.typing }
{
    let flags = with_constants(subject.flags);
    Validator::with_typing(alloc, flags, subject.capabilities, FullTyping)
}

/// Checks the functions of an accepted module.
fn report_functions(
    validator: &Validator<FullTyping>,
    subject: &Subject,
    info: &mut ModuleInfo,
    stages: &mut [u32],
    outcome: &mut Outcome,
) -> Status
    requires capabilities { validator.now.capabilities ≡ subject.now.capabilities }
    requires subgroups { validator.now.subgroup_stages ≡ record { 0 = stages_with subject.now.capabilities.0 } }
    requires accepted { Accepts full_resolves subject.now.«module» (settings_of validator.now subject.now.resolved)
        validator.now.infos info.old.lists }
    ensures { ReportsFunctions subject.now info.old.lists stages.old stages.new outcome.new result }
{
    let module = &subject.module;
    match validator.validate_functions(module, info, subject.resolved) {
        Ok(()) => report_all(module, info, stages, outcome),
        Err(refused) => report_refused(module, info, &refused, stages, outcome),
    }
}

/// Checks the functions of words that were read.
pub(crate) fn check_functions(
    alloc: Global,
    subject: &Subject,
    stages: &mut [u32],
    outcome: &mut Outcome,
) -> Status
    ensures { ChecksFunctions subject.now stages.old stages.new outcome.new result }
{
    let mut validator = validator_of_functions(alloc, subject);
    match validate(&mut validator, subject) {
        Ok(mut info) => report_functions(&validator, subject, &mut info, stages, outcome),
        Err(error) => {
            let inner = error.as_inner();
            *outcome = refused_outcome(&subject.module, inner);
            refused_status(inner)
        }
    }
}
