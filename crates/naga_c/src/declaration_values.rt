//! The values that errors of variables, and of what functions and entry points declare, hold: as those of other errors.

ghost use Rattle.naga_c.specs.DeclarationValues.{declaration_error_values, disalignment_values, entry_point_error_values, global_variable_error_values, immediate_error_values, local_variable_error_values};
ghost use Rattle.naga_c.specs.Values.{counted};
ghost use Rattle.std.specs.Prelude.{◌≡◌, ◌<◌, ◌≤◌};

use crate::numbers::{scalar_kind_number, space_access, space_number};
use crate::values::{Values, after, none, one, three, two, varying_error_values};
use bitflags::Flags;
use naga_flags::width::ImmediateError;
use naga_types::error::Disalignment;
use naga_valid::{
    EntryPointError, FunctionDeclarationError, GlobalVariableError, LocalVariableError,
};

/// The values of why immediates can't hold a type.
fn immediate_error_values(error: &ImmediateError) -> Values
    ensures { result ≡ counted (immediate_error_values error.now) }
{
    match error {
        ImmediateError::InvalidScalar(scalar) => two(
            scalar_kind_number(scalar.kind),
            u64::from(scalar.width),
        ),
    }
}

/// The values of why a type has no layout in an address space.
fn disalignment_values(error: &Disalignment) -> Values
    ensures value { result ≡ counted (disalignment_values error.now) }
    ensures room { result.count ≤ 3 }
{
    match error {
        Disalignment::ArrayStride { stride, alignment } => two(
            u64::from(*stride),
            u64::from(alignment.get()),
        ),
        Disalignment::StructSpan { span, alignment } => two(
            u64::from(*span),
            u64::from(alignment.get()),
        ),
        Disalignment::MemberOffset {
            index,
            offset,
            alignment,
        } => three(
            u64::from(*index),
            u64::from(*offset),
            u64::from(alignment.get()),
        ),
        Disalignment::MemberOffsetAfterStruct {
            index,
            offset,
            expected,
        } => three(u64::from(*index), u64::from(*offset), u64::from(*expected)),
        Disalignment::UnsizedMember { index } => one(u64::from(*index)),
        Disalignment::NonHostShareable => none(),
    }
}

/// The values of why a global variable is refused. Of the address space of a layout only its number is one.
pub(crate) fn global_variable_error_values(error: &GlobalVariableError) -> Values
    ensures { result ≡ counted (global_variable_error_values error.now) }
{
    match error {
        GlobalVariableError::InvalidUsage(space) => {
            two(space_number(*space), space_access(*space))
        }
        GlobalVariableError::InvalidType(space) => two(space_number(*space), space_access(*space)),
        GlobalVariableError::InvalidBindingArray(ty) => one(ty.index() as u64),
        GlobalVariableError::MissingTypeFlags { required, seen } => two(
            u64::from(required.bits()),
            u64::from(seen.bits()),
        ),
        GlobalVariableError::UnsupportedCapability(capabilities) => one(capabilities.bits()),
        GlobalVariableError::Alignment(space, ty, disalignment) => after(
            space_number(*space),
            after(ty.index() as u64, disalignment_values(disalignment)),
        ),
        GlobalVariableError::InitializerNotAllowed(space) => two(
            space_number(*space),
            space_access(*space),
        ),
        GlobalVariableError::InvalidImmediateType(error) => immediate_error_values(error),
        GlobalVariableError::InvalidBinding
        | GlobalVariableError::InitializerExprType
        | GlobalVariableError::InitializerType
        | GlobalVariableError::StorageAddressSpaceWriteOnlyNotSupported
        | GlobalVariableError::InvalidMemoryDecorationsAddressSpace
        | GlobalVariableError::CoherentNotSupported
        | GlobalVariableError::VolatileNotSupported => none(),
    }
}

/// The values of why a local variable is refused.
fn local_variable_error_values(error: &LocalVariableError) -> Values
    ensures value { result ≡ counted (local_variable_error_values error.now) }
    ensures room { result.count < 5 }
{
    match error {
        LocalVariableError::InvalidType(ty) => one(ty.index() as u64),
        LocalVariableError::InitializerType | LocalVariableError::NonConstOrOverrideInitializer =>
            none(),
    }
}

/// The values of why what a function declares is refused.
pub(crate) fn declaration_error_values(error: &FunctionDeclarationError) -> Values
    ensures { result ≡ counted (declaration_error_values error.now) }
{
    match error {
        FunctionDeclarationError::LocalVariable { handle, source } => after(
            handle.index() as u64,
            local_variable_error_values(source),
        ),
        FunctionDeclarationError::InvalidArgumentPointerSpace { index, space } => three(
            *index as u64,
            space_number(*space),
            space_access(*space),
        ),
        FunctionDeclarationError::InvalidArgumentType { index } => one(*index as u64),
        FunctionDeclarationError::PipelineInputRegularFunction { index } => one(*index as u64),
        FunctionDeclarationError::NonConstructibleReturnType
        | FunctionDeclarationError::PipelineOutputRegularFunction
        | FunctionDeclarationError::OutOfMemory => none(),
    }
}

/// The values of why an entry point is refused.
pub(crate) fn entry_point_error_values(error: &EntryPointError) -> Values
    ensures { result ≡ counted (entry_point_error_values error.now) }
{
    match error {
        EntryPointError::Argument(index, error) => {
            after(*index as u64, varying_error_values(error))
        }
        EntryPointError::Result(error) => varying_error_values(error),
        EntryPointError::Function(error) => declaration_error_values(error),
        EntryPointError::Conflict
        | EntryPointError::MissingVertexOutputPosition
        | EntryPointError::UnexpectedEarlyDepthTest
        | EntryPointError::UnexpectedWorkgroupSize
        | EntryPointError::OutOfRangeWorkgroupSize
        | EntryPointError::ForbiddenStageOperations
        | EntryPointError::StageNotCovered
        | EntryPointError::OutOfMemory => none(),
    }
}
