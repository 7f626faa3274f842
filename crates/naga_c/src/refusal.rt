//! Which item a refusal is about, and why, in numbers.

ghost use Rattle.naga_c.specs.DeclarationRefusals.{declaration_refusal, entry_point_lacks_memory, entry_point_refusal, global_variable_refusal, interfaces_refusal, lacks_memory, variables_refusal};
ghost use Rattle.naga_c.specs.Refusals.{handle_error_index, handle_error_kind, refusal, refusal_of};
ghost use Rattle.std.specs.Prelude.{◌≡◌, [], ◌∷◌};

use crate::codes::{
    const_expression_error_cause, const_expression_error_code, const_expression_error_second_cause,
    constant_error_code, handle_error_code, layout_error_code, override_error_cause,
    override_error_code, override_error_second_cause, override_error_third_cause, type_error_cause,
    type_error_code,
};
use crate::declaration_codes::{
    declaration_error_cause, declaration_error_code, entry_point_error_cause,
    entry_point_error_code, entry_point_error_second_cause, global_variable_error_cause,
    global_variable_error_code,
};
use crate::declaration_values::{
    declaration_error_values, entry_point_error_values, global_variable_error_values,
};
use crate::kinds::{self, item_kind};
use crate::values::{
    Values, const_expression_error_values, handle_error_values, none, one, override_error_values,
    type_error_values,
};
use naga_handles::error::InvalidHandleError;
use naga_ir::tags::GlobalVariableTag;
use naga_valid::{
    EntryPointError, FunctionDeclarationError, FunctionTag, GlobalVariableError, Handle,
    InterfacesError, ValidationError, VariablesError,
};

/// The stage of the handles of a module.
const HANDLE: u32 = 1;

/// The stage of the layouts of types.
const LAYOUT: u32 = 2;

/// The stage of the rules of types.
const TYPE: u32 = 3;

/// The stage of global expressions.
const GLOBAL_EXPRESSION: u32 = 4;

/// The stage of constants.
const CONSTANT: u32 = 5;

/// The stage of overrides.
const OVERRIDE: u32 = 6;

/// The stage of the expressions of functions.
pub(crate) const FUNCTION: u32 = 7;

/// The stage of the expressions of entry points.
pub(crate) const ENTRY_POINT: u32 = 8;

/// The stage of what no validation returns.
const MODULE: u32 = 9;

/// The stage of global variables.
const GLOBAL_VARIABLE: u32 = 10;

/// The stage of what functions declare.
const DECLARATIONS: u32 = 11;

/// The stage of what entry points declare.
const INTERFACE: u32 = 12;

/// Which item is refused, and why.
#[derive(Clone, Copy, Debug, PartialEq)]
pub struct Refusal {
    pub stage: u32,
    /// The kind of the item, or 0.
    pub kind: u32,
    /// The item, among those of its kind.
    pub index: u64,
    /// The error of the stage, and the errors within it, outermost first, then 0.
    pub errors: [u32; 4],
    /// What these errors hold.
    pub values: Values,
}

/// Which index an error of handles is about: what is dangling, what depends on a later item, or the start of a range.
fn handle_error_index(error: &InvalidHandleError) -> u64
    ensures { result ≡ handle_error_index error.now }
{
    match error {
        InvalidHandleError::BadHandle(error) => error.index as u64,
        InvalidHandleError::ForwardDependency(error) => error.subject() as u64,
        InvalidHandleError::BadRange(error) => u64::from(error.start),
    }
}

/// The kind of items that this index is of.
fn handle_error_kind(error: &InvalidHandleError) -> u32
    ensures { result ≡ handle_error_kind error.now }
{
    match error {
        InvalidHandleError::BadHandle(error) => item_kind(error.kind.as_str()),
        InvalidHandleError::ForwardDependency(error) => item_kind(error.subject_kind()),
        InvalidHandleError::BadRange(error) => item_kind(error.kind.as_str()),
    }
}

/// Which item a refusal is about, and why.
pub(crate) fn refusal_of(error: &ValidationError) -> Refusal
    ensures { result ≡ refusal_of error.now }
{
    match error {
        ValidationError::InvalidHandle(error) => Refusal {
            stage: HANDLE,
            kind: handle_error_kind(error),
            index: handle_error_index(error),
            errors: [handle_error_code(error), 0, 0, 0],
            values: handle_error_values(error),
        },
        ValidationError::Layouter(error) => Refusal {
            stage: LAYOUT,
            kind: kinds::TYPE,
            index: error.ty.index() as u64,
            errors: [layout_error_code(&error.inner), 0, 0, 0],
            values: none(),
        },
        ValidationError::Type_ { handle, source, .. } => Refusal {
            stage: TYPE,
            kind: kinds::TYPE,
            index: handle.index() as u64,
            errors: [type_error_code(source), type_error_cause(source), 0, 0],
            values: type_error_values(source),
        },
        ValidationError::ConstExpression { handle, source } => Refusal {
            stage: GLOBAL_EXPRESSION,
            kind: kinds::EXPRESSION,
            index: handle.index() as u64,
            errors: [
                const_expression_error_code(source),
                const_expression_error_cause(source),
                const_expression_error_second_cause(source),
                0,
            ],
            values: const_expression_error_values(source),
        },
        ValidationError::Constant { handle, source, .. } => Refusal {
            stage: CONSTANT,
            kind: kinds::CONSTANT,
            index: handle.index() as u64,
            errors: [constant_error_code(source), 0, 0, 0],
            values: none(),
        },
        ValidationError::Override { handle, source, .. } => Refusal {
            stage: OVERRIDE,
            kind: kinds::OVERRIDE,
            index: handle.index() as u64,
            errors: [
                override_error_code(source),
                override_error_cause(source),
                override_error_second_cause(source),
                override_error_third_cause(source),
            ],
            values: override_error_values(source),
        },
        ValidationError::Corrupted => never(1),
        ValidationError::ArraySizeError { handle } => Refusal {
            stage: MODULE,
            kind: kinds::EXPRESSION,
            index: handle.index() as u64,
            errors: [2, 0, 0, 0],
            values: one(handle.index() as u64),
        },
        ValidationError::OutOfMemory => never(0),
    }
}

/// The refusal of a global variable.
fn global_variable_refusal(
    handle: Handle<GlobalVariableTag>,
    source: &GlobalVariableError,
) -> Refusal
    ensures { result ≡ global_variable_refusal handle source.now }
{
    Refusal {
        stage: GLOBAL_VARIABLE,
        kind: kinds::GLOBAL_VARIABLE,
        index: handle.index() as u64,
        errors: [
            global_variable_error_code(source),
            global_variable_error_cause(source),
            0,
            0,
        ],
        values: global_variable_error_values(source),
    }
}

/// The refusal of what a function declares.
fn declaration_refusal(handle: Handle<FunctionTag>, source: &FunctionDeclarationError) -> Refusal
    ensures { result ≡ declaration_refusal handle source.now }
{
    Refusal {
        stage: DECLARATIONS,
        kind: kinds::FUNCTION,
        index: handle.index() as u64,
        errors: [
            declaration_error_code(source),
            declaration_error_cause(source),
            0,
            0,
        ],
        values: declaration_error_values(source),
    }
}

/// The refusal of an entry point.
fn entry_point_refusal(index: usize, source: &EntryPointError) -> Refusal
    ensures { result ≡ entry_point_refusal index source.now }
{
    Refusal {
        stage: INTERFACE,
        kind: kinds::ENTRY_POINT,
        index: index as u64,
        errors: [
            entry_point_error_code(source),
            entry_point_error_cause(source),
            entry_point_error_second_cause(source),
            0,
        ],
        values: entry_point_error_values(source),
    }
}

/// The refusal of a module's variables, unless memory was refused.
pub(crate) fn variables_refusal(error: &VariablesError) -> Option<Refusal>
    ensures { result ≡ variables_refusal error.now }
{
    match error {
        VariablesError::GlobalVariable { handle, source } => {
            Some(global_variable_refusal(*handle, source))
        }
        VariablesError::OutOfMemory => None,
    }
}

/// Whether memory was refused while a function's declarations were validated.
fn lacks_memory(error: &FunctionDeclarationError) -> bool
    ensures { result ≡ lacks_memory error.now }
{
    match error {
        FunctionDeclarationError::OutOfMemory => true,
        FunctionDeclarationError::LocalVariable { .. }
        | FunctionDeclarationError::InvalidArgumentPointerSpace { .. }
        | FunctionDeclarationError::InvalidArgumentType { .. }
        | FunctionDeclarationError::PipelineInputRegularFunction { .. }
        | FunctionDeclarationError::NonConstructibleReturnType
        | FunctionDeclarationError::PipelineOutputRegularFunction => false,
    }
}

/// Whether memory was refused while an entry point was validated.
fn entry_point_lacks_memory(error: &EntryPointError) -> bool
    ensures { result ≡ entry_point_lacks_memory error.now }
{
    match error {
        EntryPointError::OutOfMemory => true,
        EntryPointError::Conflict
        | EntryPointError::MissingVertexOutputPosition
        | EntryPointError::UnexpectedEarlyDepthTest
        | EntryPointError::UnexpectedWorkgroupSize
        | EntryPointError::OutOfRangeWorkgroupSize
        | EntryPointError::ForbiddenStageOperations
        | EntryPointError::Argument(..)
        | EntryPointError::Result(_)
        | EntryPointError::Function(_)
        | EntryPointError::StageNotCovered => false,
    }
}

/// The refusal of what a module's functions and entry points declare, unless memory was refused.
pub(crate) fn interfaces_refusal(error: &InterfacesError) -> Option<Refusal>
    ensures { result ≡ interfaces_refusal error.now }
{
    match error {
        InterfacesError::Function { handle, source } => {
            if lacks_memory(source) {
                return None;
            }
            Some(declaration_refusal(*handle, source))
        }
        InterfacesError::EntryPoint { index, source } => {
            if entry_point_lacks_memory(source) {
                return None;
            }
            Some(entry_point_refusal(*index, source))
        }
    }
}

/// The refusal of what no validation returns, or of refused memory.
fn never(error: u32) -> Refusal
    ensures { result ≡ refusal 9 0 0 (error ∷ 0 ∷ 0 ∷ 0 ∷ []) [] }
{
    Refusal {
        stage: MODULE,
        kind: 0,
        index: 0,
        errors: [error, 0, 0, 0],
        values: none(),
    }
}
