//! Why variables, declarations of functions and entry points are refused.

ghost use Rattle.std.specs.Prelude.{◌≡◌};
ghost use Rattle.naga_interface.specs.ErrorNames.{entry_point_error_name, function_declaration_error_name, global_variable_error_name, local_variable_error_name};

use naga_flags::flags::{Capabilities, TypeFlags};
use naga_flags::width::ImmediateError;
use naga_ir::handle::Handle;
use naga_ir::memory::OutOfMemory;
use naga_ir::tags::{LocalVariableTag, TypeTag};
use naga_ir::types::AddressSpace;
use naga_types::error::{Disalignment, VaryingError};
use thiserror::Error;

/// Why a variable of a module is refused: naga's `GlobalVariableError`.
#[derive(Clone, Copy, Debug, PartialEq, Error)]
pub enum GlobalVariableError {
    /// No variable of a module is in this address space, or none that is a binding array.
    #[error("Usage isn't compatible with address space {0:?}")]
    InvalidUsage(AddressSpace),
    /// A variable in `Handle` is not an image, a sampler or an acceleration structure.
    #[error("Type isn't compatible with address space {0:?}")]
    InvalidType(AddressSpace),
    /// Never returned: the rule of types refuses such binding arrays.
    #[error("Type {0:?} isn't compatible with binding arrays")]
    InvalidBindingArray(Handle<TypeTag>),
    /// The type may not be used for all that the address space requires (WGSL "Address Spaces").
    #[error("Type flags {seen:?} do not meet the required {required:?}")]
    MissingTypeFlags {
        /// What the address space requires.
        required: TypeFlags,
        /// What the type may be used for.
        seen: TypeFlags,
    },
    /// The variable needs a capability that isn't given.
    #[error("Capability {0:?} is not supported")]
    UnsupportedCapability(Capabilities),
    /// A resource has no binding, or another variable has one (WGSL "Resource Interface").
    #[error("Binding decoration is missing or not applicable")]
    InvalidBinding,
    /// Hosts can't share values of the type in this address space, because of this type inside it and its layout (WGSL
    /// "Address Space Layout Constraints").
    #[error("Alignment requirements for address space {0:?} are not met by {1:?}")]
    Alignment(AddressSpace, Handle<TypeTag>, Disalignment),
    /// The value of the initialiser is not known when a pipeline is created.
    #[error("Initializer must be an override-expression")]
    InitializerExprType,
    /// The initialiser has another type than the variable.
    #[error("Initializer doesn't match the variable type")]
    InitializerType,
    /// Variables in this address space have no initialiser (WGSL "var Declarations").
    #[error("Initializer can't be used with address space {0:?}")]
    InitializerNotAllowed(AddressSpace),
    /// A variable in `Storage` can't be loaded from.
    #[error("Storage address space doesn't support write-only access")]
    StorageAddressSpaceWriteOnlyNotSupported,
    /// Immediates can't hold the type.
    #[error("Type is not valid for use as immediate data: {0}")]
    InvalidImmediateType(ImmediateError),
    /// A variable outside of `Storage` is coherent or volatile.
    #[error("Memory decorations can only be used in the storage address space")]
    InvalidMemoryDecorationsAddressSpace,
    /// Coherent variables need a capability that isn't given.
    #[error("Coherent memory is not supported")]
    CoherentNotSupported,
    /// Volatile variables need a capability that isn't given.
    #[error("Volatile memory is not supported")]
    VolatileNotSupported,
}

impl GlobalVariableError {
    /// The name of the variant.
    pub fn name(&self) -> &'static str
        ensures { result.now ≡ global_variable_error_name self.now }
    {
        match self {
            GlobalVariableError::InvalidUsage(_) => "InvalidUsage",
            GlobalVariableError::InvalidType(_) => "InvalidType",
            GlobalVariableError::InvalidBindingArray(_) => "InvalidBindingArray",
            GlobalVariableError::MissingTypeFlags { .. } => "MissingTypeFlags",
            GlobalVariableError::UnsupportedCapability(_) => "UnsupportedCapability",
            GlobalVariableError::InvalidBinding => "InvalidBinding",
            GlobalVariableError::Alignment(..) => "Alignment",
            GlobalVariableError::InitializerExprType => "InitializerExprType",
            GlobalVariableError::InitializerType => "InitializerType",
            GlobalVariableError::InitializerNotAllowed(_) => "InitializerNotAllowed",
            GlobalVariableError::StorageAddressSpaceWriteOnlyNotSupported =>
                "StorageAddressSpaceWriteOnlyNotSupported",
            GlobalVariableError::InvalidImmediateType(_) => "InvalidImmediateType",
            GlobalVariableError::InvalidMemoryDecorationsAddressSpace =>
                "InvalidMemoryDecorationsAddressSpace",
            GlobalVariableError::CoherentNotSupported => "CoherentNotSupported",
            GlobalVariableError::VolatileNotSupported => "VolatileNotSupported",
        }
    }
}

/// Why a variable of a function is refused: naga's `LocalVariableError`.
#[derive(Clone, Copy, Debug, PartialEq, Error)]
pub enum LocalVariableError {
    /// The type is not constructible (WGSL "Constructible Types").
    #[error("Local variable has a type {0:?} that can't be stored in a local variable")]
    InvalidType(Handle<TypeTag>),
    /// The initialiser has another type than the variable.
    #[error("Initializer doesn't match the variable type")]
    InitializerType,
    /// The value of the initialiser is not known when a pipeline is created.
    #[error("Initializer is not a const or override expression")]
    NonConstOrOverrideInitializer,
}

impl LocalVariableError {
    /// The name of the variant.
    pub fn name(&self) -> &'static str
        ensures { result.now ≡ local_variable_error_name self.now }
    {
        match self {
            LocalVariableError::InvalidType(_) => "InvalidType",
            LocalVariableError::InitializerType => "InitializerType",
            LocalVariableError::NonConstOrOverrideInitializer => "NonConstOrOverrideInitializer",
        }
    }
}

/// Why the local variables, the arguments or the result of a function are refused: the variants of naga's
/// `FunctionError` that these give. An index counts arguments, from 0.
#[derive(Clone, Copy, Debug, PartialEq, Error)]
pub enum FunctionDeclarationError {
    /// A local variable breaks its rule.
    #[error("Local variable {handle:?} is invalid")]
    LocalVariable {
        handle: Handle<LocalVariableTag>,
        source: LocalVariableError,
    },
    /// An argument is a pointer into an address space that pointers can't be passed into (WGSL "Function Restrictions").
    #[error("Argument at index {index} is a pointer of space {space:?}, which can't be passed into functions")]
    InvalidArgumentPointerSpace {
        index: usize,
        /// The pointer's space.
        space: AddressSpace,
    },
    /// Functions can't take values of the type of an argument.
    #[error("Argument at index {index} has a type that can't be passed into functions")]
    InvalidArgumentType {
        index: usize,
    },
    /// An argument has a binding, and the function is not an entry point's.
    #[error("Argument at index {index} has a binding, but its function is not an entry point")]
    PipelineInputRegularFunction {
        index: usize,
    },
    /// The type of the result is not constructible (WGSL "Constructible Types").
    #[error("The function's given return type cannot be returned from functions")]
    NonConstructibleReturnType,
    /// The result has a binding, and the function is not an entry point's.
    #[error("The result has a binding, but its function is not an entry point")]
    PipelineOutputRegularFunction,
    /// A request for memory was refused, and nothing was decided about the function.
    #[error("Out of memory")]
    OutOfMemory,
}

impl FunctionDeclarationError {
    /// The name of the variant.
    pub fn name(&self) -> &'static str
        ensures { result.now ≡ function_declaration_error_name self.now }
    {
        match self {
            FunctionDeclarationError::LocalVariable { .. } => "LocalVariable",
            FunctionDeclarationError::InvalidArgumentPointerSpace { .. } =>
                "InvalidArgumentPointerSpace",
            FunctionDeclarationError::InvalidArgumentType { .. } => "InvalidArgumentType",
            FunctionDeclarationError::PipelineInputRegularFunction { .. } =>
                "PipelineInputRegularFunction",
            FunctionDeclarationError::NonConstructibleReturnType => "NonConstructibleReturnType",
            FunctionDeclarationError::PipelineOutputRegularFunction =>
                "PipelineOutputRegularFunction",
            FunctionDeclarationError::OutOfMemory => "OutOfMemory",
        }
    }
}

impl From<OutOfMemory> for FunctionDeclarationError {
    ghost use Rattle.std.specs.Prelude.{◌≡◌};
    ghost use Rattle.naga_interface.specs.declared.error.FunctionDeclarationError.TheVariants as variant;

    ghost from_gives = { λ _ error. error ≡ variant.OutOfMemory };

    fn from(_: OutOfMemory) -> FunctionDeclarationError {
        FunctionDeclarationError::OutOfMemory
    }
}

/// The text of an error: an attribute with the word that stands third in it would be taken for a test function's mark.
const EARLY_DEPTH_TEST: &str = "Early depth test is not applicable";

/// Why an entry point is refused: naga's `EntryPointError`, as far as its declarations are validated.
#[derive(Debug, PartialEq, Drop, Error)]
pub enum EntryPointError {
    /// An earlier entry point of the same stage has the same name.
    #[error("Multiple conflicting entry points")]
    Conflict,
    /// The outputs of a vertex shader lack the position of the vertex (WGSL "position").
    #[error("Vertex shaders must return a `@builtin(position)` output value")]
    MissingVertexOutputPosition,
    /// Depths are tested early for a shader that is not a fragment shader.
    #[error("{text}", text = EARLY_DEPTH_TEST)]
    UnexpectedEarlyDepthTest,
    /// A shader of a stage without workgroups has the size of one.
    #[error("Workgroup size is not applicable")]
    UnexpectedWorkgroupSize,
    /// A workgroup has no invocation or more than 16384 in one of its dimensions.
    #[error("Workgroup size is out of range")]
    OutOfRangeWorkgroupSize,
    /// The function uses operations that the stage doesn't have.
    #[error("Uses operations forbidden at this stage")]
    ForbiddenStageOperations,
    /// The argument of this index is refused as an input.
    #[error("Argument {0} varying error: {1}")]
    Argument(usize, VaryingError),
    /// The result is refused as an output, or an early test of depths needs a capability.
    #[error("Result varying error: {0}")]
    Result(VaryingError),
    /// The declarations of the function are refused.
    #[error("{0}")]
    Function(FunctionDeclarationError),
    /// The stage isn't known, or its rules are not covered: the stages of meshes and rays.
    #[error("Entry points of this stage are not validated")]
    StageNotCovered,
    /// A request for memory was refused, and nothing was decided about the entry point.
    #[error("Out of memory")]
    OutOfMemory,
}

impl EntryPointError {
    /// The name of the variant.
    pub fn name(&self) -> &'static str
        ensures { result.now ≡ entry_point_error_name self.now }
    {
        match self {
            EntryPointError::Conflict => "Conflict",
            EntryPointError::MissingVertexOutputPosition => "MissingVertexOutputPosition",
            EntryPointError::UnexpectedEarlyDepthTest => "UnexpectedEarlyDepthTest",
            EntryPointError::UnexpectedWorkgroupSize => "UnexpectedWorkgroupSize",
            EntryPointError::OutOfRangeWorkgroupSize => "OutOfRangeWorkgroupSize",
            EntryPointError::ForbiddenStageOperations => "ForbiddenStageOperations",
            EntryPointError::Argument(..) => "Argument",
            EntryPointError::Result(_) => "Result",
            EntryPointError::Function(_) => "Function",
            EntryPointError::StageNotCovered => "StageNotCovered",
            EntryPointError::OutOfMemory => "OutOfMemory",
        }
    }
}

impl From<OutOfMemory> for EntryPointError {
    ghost use Rattle.std.specs.Prelude.{◌≡◌};
    ghost use Rattle.naga_interface.specs.declared.error.EntryPointError.TheVariants as variant;

    ghost from_gives = { λ _ error. error ≡ variant.OutOfMemory };

    fn from(_: OutOfMemory) -> EntryPointError {
        EntryPointError::OutOfMemory
    }
}
