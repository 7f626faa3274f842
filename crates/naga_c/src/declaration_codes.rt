//! The numbers of errors of variables and of what functions and entry points declare, which bindings/c/naga_check.h
//! names: of each enum from 1, in the order of its variants. A number never changes its meaning.

ghost use Rattle.naga_c.specs.DeclarationCodes.{declaration_error_cause, declaration_error_code, entry_point_error_cause, entry_point_error_code, entry_point_error_second_cause, global_variable_error_cause, global_variable_error_code, immediate_error_code, local_variable_error_code};
ghost use Rattle.std.specs.Prelude.{◌≡◌};

use crate::codes::{disalignment_code, varying_error_code};
use naga_flags::width::ImmediateError;
use naga_valid::{
    EntryPointError, FunctionDeclarationError, GlobalVariableError, LocalVariableError,
};

/// The number of the reason why immediates can't hold a type.
fn immediate_error_code(error: &ImmediateError) -> u32
    ensures { result ≡ immediate_error_code error.now }
{
    match error {
        ImmediateError::InvalidScalar(_) => 1,
    }
}

/// The number of an error of a global variable.
pub(crate) fn global_variable_error_code(error: &GlobalVariableError) -> u32
    ensures { result ≡ global_variable_error_code error.now }
{
    match error {
        GlobalVariableError::InvalidUsage(_) => 1,
        GlobalVariableError::InvalidType(_) => 2,
        GlobalVariableError::InvalidBindingArray(_) => 3,
        GlobalVariableError::MissingTypeFlags { .. } => 4,
        GlobalVariableError::UnsupportedCapability(_) => 5,
        GlobalVariableError::InvalidBinding => 6,
        GlobalVariableError::Alignment(..) => 7,
        GlobalVariableError::InitializerExprType => 8,
        GlobalVariableError::InitializerType => 9,
        GlobalVariableError::InitializerNotAllowed(_) => 10,
        GlobalVariableError::StorageAddressSpaceWriteOnlyNotSupported => 11,
        GlobalVariableError::InvalidImmediateType(_) => 12,
        GlobalVariableError::InvalidMemoryDecorationsAddressSpace => 13,
        GlobalVariableError::CoherentNotSupported => 14,
        GlobalVariableError::VolatileNotSupported => 15,
    }
}

/// The number of an error of a local variable.
fn local_variable_error_code(error: &LocalVariableError) -> u32
    ensures { result ≡ local_variable_error_code error.now }
{
    match error {
        LocalVariableError::InvalidType(_) => 1,
        LocalVariableError::InitializerType => 2,
        LocalVariableError::NonConstOrOverrideInitializer => 3,
    }
}

/// The number of an error of what a function declares.
pub(crate) fn declaration_error_code(error: &FunctionDeclarationError) -> u32
    ensures { result ≡ declaration_error_code error.now }
{
    match error {
        FunctionDeclarationError::LocalVariable { .. } => 1,
        FunctionDeclarationError::InvalidArgumentPointerSpace { .. } => 2,
        FunctionDeclarationError::InvalidArgumentType { .. } => 3,
        FunctionDeclarationError::PipelineInputRegularFunction { .. } => 4,
        FunctionDeclarationError::NonConstructibleReturnType => 5,
        FunctionDeclarationError::PipelineOutputRegularFunction => 6,
        FunctionDeclarationError::OutOfMemory => 7,
    }
}

/// The number of an error of an entry point.
pub(crate) fn entry_point_error_code(error: &EntryPointError) -> u32
    ensures { result ≡ entry_point_error_code error.now }
{
    match error {
        EntryPointError::Conflict => 1,
        EntryPointError::MissingVertexOutputPosition => 2,
        EntryPointError::UnexpectedEarlyDepthTest => 3,
        EntryPointError::UnexpectedWorkgroupSize => 4,
        EntryPointError::OutOfRangeWorkgroupSize => 5,
        EntryPointError::ForbiddenStageOperations => 6,
        EntryPointError::Argument(..) => 7,
        EntryPointError::Result(_) => 8,
        EntryPointError::Function(_) => 9,
        EntryPointError::StageNotCovered => 10,
        EntryPointError::OutOfMemory => 11,
    }
}

/// The number of the error within an error of a global variable, or 0.
pub(crate) fn global_variable_error_cause(error: &GlobalVariableError) -> u32
    ensures { result ≡ global_variable_error_cause error.now }
{
    match error {
        GlobalVariableError::Alignment(_, _, disalignment) => disalignment_code(disalignment),
        GlobalVariableError::InvalidImmediateType(error) => immediate_error_code(error),
        GlobalVariableError::InvalidUsage(_)
        | GlobalVariableError::InvalidType(_)
        | GlobalVariableError::InvalidBindingArray(_)
        | GlobalVariableError::MissingTypeFlags { .. }
        | GlobalVariableError::UnsupportedCapability(_)
        | GlobalVariableError::InvalidBinding
        | GlobalVariableError::InitializerExprType
        | GlobalVariableError::InitializerType
        | GlobalVariableError::InitializerNotAllowed(_)
        | GlobalVariableError::StorageAddressSpaceWriteOnlyNotSupported
        | GlobalVariableError::InvalidMemoryDecorationsAddressSpace
        | GlobalVariableError::CoherentNotSupported
        | GlobalVariableError::VolatileNotSupported => 0,
    }
}

/// The number of the error within an error of what a function declares, or 0.
pub(crate) fn declaration_error_cause(error: &FunctionDeclarationError) -> u32
    ensures { result ≡ declaration_error_cause error.now }
{
    match error {
        FunctionDeclarationError::LocalVariable { source, .. } => local_variable_error_code(source),
        FunctionDeclarationError::InvalidArgumentPointerSpace { .. }
        | FunctionDeclarationError::InvalidArgumentType { .. }
        | FunctionDeclarationError::PipelineInputRegularFunction { .. }
        | FunctionDeclarationError::NonConstructibleReturnType
        | FunctionDeclarationError::PipelineOutputRegularFunction
        | FunctionDeclarationError::OutOfMemory => 0,
    }
}

/// The number of the error within an error of an entry point, or 0.
pub(crate) fn entry_point_error_cause(error: &EntryPointError) -> u32
    ensures { result ≡ entry_point_error_cause error.now }
{
    match error {
        EntryPointError::Argument(_, error) => varying_error_code(error),
        EntryPointError::Result(error) => varying_error_code(error),
        EntryPointError::Function(error) => declaration_error_code(error),
        EntryPointError::Conflict
        | EntryPointError::MissingVertexOutputPosition
        | EntryPointError::UnexpectedEarlyDepthTest
        | EntryPointError::UnexpectedWorkgroupSize
        | EntryPointError::OutOfRangeWorkgroupSize
        | EntryPointError::ForbiddenStageOperations
        | EntryPointError::StageNotCovered
        | EntryPointError::OutOfMemory => 0,
    }
}

/// The number of the second error within an error of an entry point, or 0.
pub(crate) fn entry_point_error_second_cause(error: &EntryPointError) -> u32
    ensures { result ≡ entry_point_error_second_cause error.now }
{
    match error {
        EntryPointError::Function(error) => declaration_error_cause(error),
        EntryPointError::Conflict
        | EntryPointError::MissingVertexOutputPosition
        | EntryPointError::UnexpectedEarlyDepthTest
        | EntryPointError::UnexpectedWorkgroupSize
        | EntryPointError::OutOfRangeWorkgroupSize
        | EntryPointError::ForbiddenStageOperations
        | EntryPointError::Argument(..)
        | EntryPointError::Result(_)
        | EntryPointError::StageNotCovered
        | EntryPointError::OutOfMemory => 0,
    }
}
