//! Why variables, declarations of functions and entry points are refused.

ghost use Rattle.naga_error_text.specs.DeclarationErrors.{entry_point_error_cause, entry_point_error_parts, entry_point_errors, function_declaration_error_cause, function_declaration_error_parts, function_declaration_errors, global_variable_error_cause, global_variable_error_parts, global_variable_errors, local_variable_error_parts, local_variable_errors};
ghost use Rattle.naga_error_text.specs.Numbers.{numbered};
ghost use Rattle.naga_error_text.specs.steps.Pieces.{are_short, piece_text};
ghost use Rattle.std.specs.Prelude.{◌≡◌, IsTrue, map};

use crate::families::Family;
use crate::names::Names;
use crate::numbers::numbered;
use crate::pieces::Piece::{Name, Number, Space, TypeFlags, Words};
use crate::pieces::Place::{First, Second, Third};
use crate::pieces::{Piece, Values};

/// Why a variable of a module is refused.
#[derive(Clone, Copy, Debug, PartialEq)]
pub enum GlobalVariableError {
    /// No variable of a module is in this address space, or none that is a binding array.
    InvalidUsage,
    /// A variable in `Handle` is not an image, a sampler or an acceleration structure.
    InvalidType,
    /// Never returned: the rule of types refuses such binding arrays.
    InvalidBindingArray,
    /// The type may not be used for all that the address space requires (WGSL "Address Spaces").
    MissingTypeFlags,
    /// The variable needs a capability that isn't given.
    UnsupportedCapability,
    /// A resource has no binding, or another variable has one (WGSL "Resource Interface").
    InvalidBinding,
    /// Hosts can't share values of the type in this address space, because of a type inside it and its layout (WGSL
    /// "Address Space Layout Constraints").
    Alignment,
    /// The value of the initialiser is not known when a pipeline is created.
    InitializerExprType,
    /// The initialiser has another type than the variable.
    InitializerType,
    /// Variables in this address space have no initialiser (WGSL "var Declarations").
    InitializerNotAllowed,
    /// A variable in `Storage` can't be loaded from.
    StorageAddressSpaceWriteOnlyNotSupported,
    /// Immediates can't hold the type.
    InvalidImmediateType,
    /// A variable outside of `Storage` is coherent or volatile.
    InvalidMemoryDecorationsAddressSpace,
    /// Coherent variables need a capability that isn't given.
    CoherentNotSupported,
    /// Volatile variables need a capability that isn't given.
    VolatileNotSupported,
}

/// The error of a number, if there is one.
pub(crate) fn global_variable_error_of(number: u32) -> Option<GlobalVariableError>
    ensures { result ≡ numbered global_variable_errors number }
{
    numbered(
        &[
            GlobalVariableError::InvalidUsage,
            GlobalVariableError::InvalidType,
            GlobalVariableError::InvalidBindingArray,
            GlobalVariableError::MissingTypeFlags,
            GlobalVariableError::UnsupportedCapability,
            GlobalVariableError::InvalidBinding,
            GlobalVariableError::Alignment,
            GlobalVariableError::InitializerExprType,
            GlobalVariableError::InitializerType,
            GlobalVariableError::InitializerNotAllowed,
            GlobalVariableError::StorageAddressSpaceWriteOnlyNotSupported,
            GlobalVariableError::InvalidImmediateType,
            GlobalVariableError::InvalidMemoryDecorationsAddressSpace,
            GlobalVariableError::CoherentNotSupported,
            GlobalVariableError::VolatileNotSupported,
        ],
        number,
    )
}

/// The pieces of the text of such an error.
pub(crate) fn global_variable_error_pieces(error: GlobalVariableError) -> &'static [Piece]
    ensures text { (values : Values) → map (piece_text values) result.now ≡ global_variable_error_parts error values }
    ensures short { IsTrue (are_short result.now) }
{
    match error {
        GlobalVariableError::InvalidUsage => &[
            Words("Usage isn't compatible with address space "),
            Space(First, Second),
        ],
        GlobalVariableError::InvalidType => &[
            Words("Type isn't compatible with address space "),
            Space(First, Second),
        ],
        GlobalVariableError::InvalidBindingArray => &[
            Words("Type ["),
            Number(First),
            Words("] isn't compatible with binding arrays"),
        ],
        GlobalVariableError::MissingTypeFlags => &[
            Words("Type flags TypeFlags("),
            TypeFlags(Second),
            Words(") do not meet the required TypeFlags("),
            TypeFlags(First),
            Words(")"),
        ],
        GlobalVariableError::UnsupportedCapability => &[
            Words("Capability Capabilities("),
            Name(Names::Capabilities, First),
            Words(") is not supported"),
        ],
        GlobalVariableError::InvalidBinding => &[Words(
            "Binding decoration is missing or not applicable",
        )],
        GlobalVariableError::Alignment => &[
            Words("Alignment requirements for address space "),
            Name(Names::Spaces, First),
            Words(" are not met by ["),
            Number(Second),
            Words("]: "),
        ],
        GlobalVariableError::InitializerExprType => &[Words(
            "Initializer must be an override-expression",
        )],
        GlobalVariableError::InitializerType => &[Words(
            "Initializer doesn't match the variable type",
        )],
        GlobalVariableError::InitializerNotAllowed => &[
            Words("Initializer can't be used with address space "),
            Space(First, Second),
        ],
        GlobalVariableError::StorageAddressSpaceWriteOnlyNotSupported => &[Words(
            "Storage address space doesn't support write-only access",
        )],
        GlobalVariableError::InvalidImmediateType => &[Words(
            "Type is not valid for use as immediate data: ",
        )],
        GlobalVariableError::InvalidMemoryDecorationsAddressSpace => &[Words(
            "Memory decorations can only be used in the storage address space",
        )],
        GlobalVariableError::CoherentNotSupported => &[Words("Coherent memory is not supported")],
        GlobalVariableError::VolatileNotSupported => &[Words("Volatile memory is not supported")],
    }
}

/// What the error within such an error is one of, if there is one.
pub(crate) fn global_variable_error_cause(error: GlobalVariableError) -> Option<Family>
    ensures { result ≡ global_variable_error_cause error }
{
    match error {
        GlobalVariableError::Alignment => Some(Family::Disalignment),
        GlobalVariableError::InvalidImmediateType => Some(Family::Immediate),
        _ => None,
    }
}

/// Why a variable of a function is refused.
#[derive(Clone, Copy, Debug, PartialEq)]
pub enum LocalVariableError {
    /// The type is not constructible (WGSL "Constructible Types").
    InvalidType,
    /// The initialiser has another type than the variable.
    InitializerType,
    /// The value of the initialiser is not known when a pipeline is created.
    NonConstOrOverrideInitializer,
}

/// The error of a number, if there is one.
pub(crate) fn local_variable_error_of(number: u32) -> Option<LocalVariableError>
    ensures { result ≡ numbered local_variable_errors number }
{
    numbered(
        &[
            LocalVariableError::InvalidType,
            LocalVariableError::InitializerType,
            LocalVariableError::NonConstOrOverrideInitializer,
        ],
        number,
    )
}

/// The pieces of the text of such an error.
pub(crate) fn local_variable_error_pieces(error: LocalVariableError) -> &'static [Piece]
    ensures text { (values : Values) → map (piece_text values) result.now ≡ local_variable_error_parts error values }
    ensures short { IsTrue (are_short result.now) }
{
    match error {
        LocalVariableError::InvalidType => &[
            Words("Local variable has a type ["),
            Number(First),
            Words("] that can't be stored in a local variable"),
        ],
        LocalVariableError::InitializerType => &[Words(
            "Initializer doesn't match the variable type",
        )],
        LocalVariableError::NonConstOrOverrideInitializer => &[Words(
            "Initializer is not a const or override expression",
        )],
    }
}

/// Why the local variables, the arguments or the result of a function are refused.
#[derive(Clone, Copy, Debug, PartialEq)]
pub enum FunctionDeclarationError {
    /// A local variable breaks its rule.
    LocalVariable,
    /// An argument is a pointer into an address space that pointers can't be passed into (WGSL "Function
    /// Restrictions").
    InvalidArgumentPointerSpace,
    /// Functions can't take values of the type of an argument.
    InvalidArgumentType,
    /// An argument has a binding, and the function is not an entry point's.
    PipelineInputRegularFunction,
    /// The type of the result is not constructible (WGSL "Constructible Types").
    NonConstructibleReturnType,
    /// The result has a binding, and the function is not an entry point's.
    PipelineOutputRegularFunction,
}

/// The error of a number, if there is one.
pub(crate) fn function_declaration_error_of(number: u32) -> Option<FunctionDeclarationError>
    ensures { result ≡ numbered function_declaration_errors number }
{
    numbered(
        &[
            FunctionDeclarationError::LocalVariable,
            FunctionDeclarationError::InvalidArgumentPointerSpace,
            FunctionDeclarationError::InvalidArgumentType,
            FunctionDeclarationError::PipelineInputRegularFunction,
            FunctionDeclarationError::NonConstructibleReturnType,
            FunctionDeclarationError::PipelineOutputRegularFunction,
        ],
        number,
    )
}

/// The pieces of the text of such an error.
pub(crate) fn function_declaration_error_pieces(error: FunctionDeclarationError) -> &'static [Piece]
    ensures text { (values : Values) → map (piece_text values) result.now ≡ function_declaration_error_parts error values }
    ensures short { IsTrue (are_short result.now) }
{
    match error {
        FunctionDeclarationError::LocalVariable => &[
            Words("Local variable ["),
            Number(First),
            Words("] is invalid: "),
        ],
        FunctionDeclarationError::InvalidArgumentPointerSpace => &[
            Words("Argument at index "),
            Number(First),
            Words(" is a pointer of space "),
            Space(Second, Third),
            Words(", which can't be passed into functions"),
        ],
        FunctionDeclarationError::InvalidArgumentType => &[
            Words("Argument at index "),
            Number(First),
            Words(" has a type that can't be passed into functions"),
        ],
        FunctionDeclarationError::PipelineInputRegularFunction => &[
            Words("Argument at index "),
            Number(First),
            Words(" has a binding, but its function is not an entry point"),
        ],
        FunctionDeclarationError::NonConstructibleReturnType => &[Words(
            "The function's given return type cannot be returned from functions",
        )],
        FunctionDeclarationError::PipelineOutputRegularFunction => &[Words(
            "The result has a binding, but its function is not an entry point",
        )],
    }
}

/// What the error within such an error is one of, if there is one.
pub(crate) fn function_declaration_error_cause(error: FunctionDeclarationError) -> Option<Family>
    ensures { result ≡ function_declaration_error_cause error }
{
    match error {
        FunctionDeclarationError::LocalVariable => Some(Family::LocalVariable),
        _ => None,
    }
}

/// Why an entry point is refused.
#[derive(Clone, Copy, Debug, PartialEq)]
pub enum EntryPointError {
    /// An earlier entry point of the same stage has the same name.
    Conflict,
    /// The outputs of a vertex shader lack the position of the vertex (WGSL "position").
    MissingVertexOutputPosition,
    /// Depths are tested early for a shader that is not a fragment shader.
    UnexpectedEarlyDepthTest,
    /// A shader of a stage without workgroups has the size of one.
    UnexpectedWorkgroupSize,
    /// A workgroup has no invocation or more than 16384 in one of its dimensions.
    OutOfRangeWorkgroupSize,
    /// The function uses operations that the stage doesn't have.
    ForbiddenStageOperations,
    /// The argument of this index is refused as an input.
    Argument,
    /// The result is refused as an output, or an early test of depths needs a capability.
    Result,
    /// The declarations of the function are refused.
    Function,
    /// The stage isn't known, or its rules are not covered: the stages of meshes and rays.
    StageNotCovered,
}

/// The error of a number, if there is one.
pub(crate) fn entry_point_error_of(number: u32) -> Option<EntryPointError>
    ensures { result ≡ numbered entry_point_errors number }
{
    numbered(
        &[
            EntryPointError::Conflict,
            EntryPointError::MissingVertexOutputPosition,
            EntryPointError::UnexpectedEarlyDepthTest,
            EntryPointError::UnexpectedWorkgroupSize,
            EntryPointError::OutOfRangeWorkgroupSize,
            EntryPointError::ForbiddenStageOperations,
            EntryPointError::Argument,
            EntryPointError::Result,
            EntryPointError::Function,
            EntryPointError::StageNotCovered,
        ],
        number,
    )
}

/// The pieces of the text of such an error.
pub(crate) fn entry_point_error_pieces(error: EntryPointError) -> &'static [Piece]
    ensures text { (values : Values) → map (piece_text values) result.now ≡ entry_point_error_parts error values }
    ensures short { IsTrue (are_short result.now) }
{
    match error {
        EntryPointError::Conflict => &[Words("Multiple conflicting entry points")],
        EntryPointError::MissingVertexOutputPosition => &[Words(
            "Vertex shaders must return a `@builtin(position)` output value",
        )],
        EntryPointError::UnexpectedEarlyDepthTest => &[Words("Early depth test is not applicable")],
        EntryPointError::UnexpectedWorkgroupSize => &[Words("Workgroup size is not applicable")],
        EntryPointError::OutOfRangeWorkgroupSize => &[Words("Workgroup size is out of range")],
        EntryPointError::ForbiddenStageOperations => &[Words(
            "Uses operations forbidden at this stage",
        )],
        EntryPointError::Argument => &[
            Words("Argument "),
            Number(First),
            Words(" varying error: "),
        ],
        EntryPointError::Result => &[Words("Result varying error: ")],
        EntryPointError::Function => &[],
        EntryPointError::StageNotCovered => &[Words(
            "Entry points of this stage are not validated",
        )],
    }
}

/// What the error within such an error is one of, if there is one.
pub(crate) fn entry_point_error_cause(error: EntryPointError) -> Option<Family>
    ensures { result ≡ entry_point_error_cause error }
{
    match error {
        EntryPointError::Argument => Some(Family::Varying),
        EntryPointError::Result => Some(Family::Varying),
        EntryPointError::Function => Some(Family::FunctionDeclaration),
        _ => None,
    }
}
