//! Why variables, and what functions and entry points declare, refuse a module.

ghost use Rattle.std.specs.Prelude.{◌≡◌, IfOk, Some};
ghost use Rattle.naga_cli.specs.Findings.{Says, SaysDeclarationError, SaysEntryPointError, SaysInterfacesError, SaysVariablesError};
ghost use Rattle.naga_cli.specs.Findings as spec;
ghost use Rattle.naga_interface.specs.ErrorNames.{entry_point_error_name, function_declaration_error_name, local_variable_error_name};
ghost use Rattle.naga_verdict.specs.declared.item.Item.TheVariants as item;
ghost use Rattle.naga_verdict.specs.declared.verdict.Stage.TheVariants as stage;

use crate::names::{Names, of_global_variable_error, of_local_variable_error, of_varying_error};
use crate::refusal::{Wrong, refusal};
use naga_source::places::Places;
use naga_valid::{
    EntryPointError, FunctionDeclarationError, InterfacesError, LocalVariableError, OutOfMemory,
    VariablesError,
};
use naga_verdict::item::{Item, Owner};
use naga_verdict::verdict::{Refusal, Stage};
use std::alloc::Global;

/// The refusal for an error of a variable of a module.
pub fn refused_variable(
    alloc: Global,
    places: &Places,
    error: &VariablesError,
) -> Result<Refusal, OutOfMemory>
    ensures { IfOk result (SaysVariablesError error.now) }
{
    let VariablesError::GlobalVariable { handle, source } = error else {
        return Err(OutOfMemory);
    };
    let wrong = Wrong {
        stage: Stage::GlobalVariable,
        item: Some(Item::GlobalVariable(handle.index())),
        name: source.name(),
        names: of_global_variable_error(source),
    };
    refusal(alloc, places, wrong, source)
}

/// The stage of what a function or an entry point declares.
fn stage_of(owner: Owner) -> Stage
    ensures { result ≡ spec.stage_of owner }
{
    match owner {
        Owner::Function(_) => Stage::Function,
        Owner::EntryPoint(_) => Stage::EntryPoint,
    }
}

/// The refusal for an error of a local variable.
fn refused_local_variable(
    alloc: Global,
    places: &Places,
    owner: Owner,
    variable: usize,
    error: &LocalVariableError,
) -> Result<Refusal, OutOfMemory>
    ensures { IfOk result (Says (spec.stage_of owner) (Some (item.LocalVariable owner variable))
        (local_variable_error_name error.now)) }
{
    let wrong = Wrong {
        stage: stage_of(owner),
        item: Some(Item::LocalVariable(owner, variable)),
        name: error.name(),
        names: of_local_variable_error(error),
    };
    refusal(alloc, places, wrong, error)
}

/// The refusal for an error of an argument or a result, or of the function as a whole.
fn refused_item(
    alloc: Global,
    places: &Places,
    owner: Owner,
    item: Item,
    error: &FunctionDeclarationError,
) -> Result<Refusal, OutOfMemory>
    ensures { IfOk result (Says (spec.stage_of owner) (Some item) (function_declaration_error_name error.now)) }
{
    let wrong = Wrong {
        stage: stage_of(owner),
        item: Some(item),
        name: error.name(),
        names: Names::default(),
    };
    refusal(alloc, places, wrong, error)
}

/// The refusal for an error of what a function declares, also of the function of an entry point.
fn refused_declaration(
    alloc: Global,
    places: &Places,
    owner: Owner,
    error: &FunctionDeclarationError,
) -> Result<Refusal, OutOfMemory>
    ensures { IfOk result (SaysDeclarationError owner error.now) }
{
    match error {
        FunctionDeclarationError::LocalVariable { handle, source } => {
            refused_local_variable(alloc, places, owner, handle.index(), source)
        }
        FunctionDeclarationError::InvalidArgumentPointerSpace { index, .. }
        | FunctionDeclarationError::InvalidArgumentType { index }
        | FunctionDeclarationError::PipelineInputRegularFunction { index } => {
            refused_item(alloc, places, owner, Item::Argument(owner, *index), error)
        }
        FunctionDeclarationError::NonConstructibleReturnType
        | FunctionDeclarationError::PipelineOutputRegularFunction => {
            refused_item(alloc, places, owner, owner.item(), error)
        }
        FunctionDeclarationError::OutOfMemory => Err(OutOfMemory),
    }
}

/// The refusal for an error of an entry point that is said of it or of an argument.
fn refused_entry_item(
    alloc: Global,
    places: &Places,
    item: Item,
    names: Names,
    error: &EntryPointError,
) -> Result<Refusal, OutOfMemory>
    ensures { IfOk result (Says stage.EntryPoint (Some item) (entry_point_error_name error.now)) }
{
    let wrong = Wrong {
        stage: Stage::EntryPoint,
        item: Some(item),
        name: error.name(),
        names,
    };
    refusal(alloc, places, wrong, error)
}

/// The refusal for an error of an entry point.
fn refused_entry_point(
    alloc: Global,
    places: &Places,
    index: usize,
    error: &EntryPointError,
) -> Result<Refusal, OutOfMemory>
    ensures { IfOk result (SaysEntryPointError index error.now) }
{
    let owner = Owner::EntryPoint(index);
    match error {
        EntryPointError::Argument(argument, source) => {
            let names = of_varying_error(source);
            refused_entry_item(
                alloc,
                places,
                Item::Argument(owner, *argument),
                names,
                error,
            )
        }
        EntryPointError::Result(source) => {
            let names = of_varying_error(source);
            refused_entry_item(alloc, places, Item::EntryPoint(index), names, error)
        }
        EntryPointError::Function(source) => refused_declaration(alloc, places, owner, source),
        EntryPointError::Conflict
        | EntryPointError::MissingVertexOutputPosition
        | EntryPointError::UnexpectedEarlyDepthTest
        | EntryPointError::UnexpectedWorkgroupSize
        | EntryPointError::OutOfRangeWorkgroupSize
        | EntryPointError::ForbiddenStageOperations
        | EntryPointError::StageNotCovered => {
            refused_entry_item(
                alloc,
                places,
                Item::EntryPoint(index),
                Names::default(),
                error,
            )
        }
        EntryPointError::OutOfMemory => Err(OutOfMemory),
    }
}

/// The refusal for an error of what functions and entry points declare.
pub fn refused_interface(
    alloc: Global,
    places: &Places,
    error: &InterfacesError,
) -> Result<Refusal, OutOfMemory>
    ensures { IfOk result (SaysInterfacesError error.now) }
{
    match error {
        InterfacesError::Function { handle, source } => {
            refused_declaration(alloc, places, Owner::Function(handle.index()), source)
        }
        InterfacesError::EntryPoint { index, source } => {
            refused_entry_point(alloc, places, *index, source)
        }
    }
}
