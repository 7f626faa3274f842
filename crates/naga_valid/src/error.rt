//! Why a module is refused.

ghost use Rattle.std.specs.Prelude.{◌≡◌};
ghost use Rattle.naga_valid.specs.ErrorNames.{constant_error_name, override_error_name, validation_error_name};

use naga_handles::error::{FwdDepError, InvalidHandleError, ValidationFault};
use naga_info::const_expression_error::ConstExpressionError;
use naga_ir::handle::{BadHandle, Handle};
use naga_ir::memory::OutOfMemory;
use naga_ir::range::BadRangeError;
use naga_ir::tags::{ConstantTag, ExpressionTag, OverrideTag, TypeTag};
use naga_ir::text::Text;
use naga_types::error::TypeError;
use naga_typing::layouter::LayoutError;
use thiserror::Error;

/// Why a constant is refused.
#[derive(Clone, Debug, PartialEq, Drop, Error)]
pub enum ConstantError {
    /// The value of the initialiser isn't known when the shader is compiled.
    #[error("Initializer must be a const-expression")]
    InitializerExprType,
    /// The initialiser has another type than the constant.
    #[error("The type doesn't match the constant")]
    InvalidType,
    /// The type of the constant is not constructible (WGSL "Constructible Types").
    #[error("The type is not constructible")]
    NonConstructibleType,
}

impl ConstantError {
    /// The name of the variant.
    pub fn name(&self) -> &'static str
        ensures { result.now ≡ constant_error_name self.now }
    {
        match self {
            ConstantError::InitializerExprType => "InitializerExprType",
            ConstantError::InvalidType => "InvalidType",
            ConstantError::NonConstructibleType => "NonConstructibleType",
        }
    }
}

/// Why an override is refused.
#[derive(Clone, Debug, PartialEq, Drop, Error)]
pub enum OverrideError {
    /// Never returned: an override may lack both.
    #[error("Override name and ID are missing")]
    MissingNameAndID,
    /// An earlier override has the same number (WGSL "id").
    #[error("Override ID must be unique")]
    DuplicateID,
    /// Never returned: the rule of global expressions refuses such an initialiser.
    #[error("Initializer must be a const-expression or override-expression")]
    InitializerExprType,
    /// The initialiser has another type than the override.
    #[error("The type doesn't match the override")]
    InvalidType,
    /// The type of the override is not constructible (WGSL "Constructible Types").
    #[error("The type is not constructible")]
    NonConstructibleType,
    /// The type of the override is none of the scalars that overrides may have (WGSL "override
    /// Declarations").
    #[error("The type is not a scalar")]
    TypeNotScalar,
    /// Never returned: modules may have overrides.
    #[error("Override declarations are not allowed")]
    NotAllowed,
    /// Overrides have to have their values, and this one has no initialiser.
    #[error("Override is uninitialized")]
    UninitializedOverride,
    /// Never returned: the rule of global expressions refuses them before.
    #[error("Constant expression {handle:?} is invalid")]
    ConstExpression {
        handle: Handle<ExpressionTag>,
        source: ConstExpressionError,
    },
}

impl OverrideError {
    /// The name of the variant.
    pub fn name(&self) -> &'static str
        ensures { result.now ≡ override_error_name self.now }
    {
        match self {
            OverrideError::MissingNameAndID => "MissingNameAndID",
            OverrideError::DuplicateID => "DuplicateID",
            OverrideError::InitializerExprType => "InitializerExprType",
            OverrideError::InvalidType => "InvalidType",
            OverrideError::NonConstructibleType => "NonConstructibleType",
            OverrideError::TypeNotScalar => "TypeNotScalar",
            OverrideError::NotAllowed => "NotAllowed",
            OverrideError::UninitializedOverride => "UninitializedOverride",
            OverrideError::ConstExpression { .. } => "ConstExpression",
        }
    }
}

/// Why a module is refused.
#[derive(Debug, PartialEq, Drop, Error)]
pub enum ValidationError {
    /// A handle or range is dangling, or doesn't go back.
    #[error("{0}")]
    InvalidHandle(InvalidHandleError),
    /// A type has no layout.
    #[error("{0}")]
    Layouter(LayoutError),
    /// A type breaks its rule, or a comment documents a member that it doesn't have (`InvalidData`). The
    /// name is empty if the type has none; on a comment it then is `Unknown` if the type is not a struct,
    /// else `members length incorrect`.
    #[error("Type {handle:?} '{name}' is invalid")]
    Type_ {
        handle: Handle<TypeTag>,
        name: Text,
        source: TypeError,
    },
    /// A global expression has no type, or breaks its rule.
    #[error("Constant expression {handle:?} is invalid")]
    ConstExpression {
        handle: Handle<ExpressionTag>,
        source: ConstExpressionError,
    },
    /// Never returned: a size that gives no count is an error of the type.
    #[error("Array size expression {handle:?} is not strictly positive")]
    ArraySizeError {
        handle: Handle<ExpressionTag>,
    },
    /// A constant breaks its rule. The name is empty if it has none.
    #[error("Constant {handle:?} '{name}' is invalid")]
    Constant {
        handle: Handle<ConstantTag>,
        name: Text,
        source: ConstantError,
    },
    /// An override breaks its rule. The name is empty if it has none.
    #[error("Override {handle:?} '{name}' is invalid")]
    Override {
        handle: Handle<OverrideTag>,
        name: Text,
        source: OverrideError,
    },
    /// Never returned.
    #[error("Module is corrupted")]
    Corrupted,
    /// A request for memory was refused, and nothing was decided about the module.
    #[error("Out of memory")]
    OutOfMemory,
}

impl ValidationError {
    /// The name of the variant, as naga spells it: `Type_` is `Type`.
    pub fn name(&self) -> &'static str
        ensures { result.now ≡ validation_error_name self.now }
    {
        match self {
            ValidationError::InvalidHandle(_) => "InvalidHandle",
            ValidationError::Layouter(_) => "Layouter",
            ValidationError::Type_ { .. } => "Type",
            ValidationError::ConstExpression { .. } => "ConstExpression",
            ValidationError::ArraySizeError { .. } => "ArraySizeError",
            ValidationError::Constant { .. } => "Constant",
            ValidationError::Override { .. } => "Override",
            ValidationError::Corrupted => "Corrupted",
            ValidationError::OutOfMemory => "OutOfMemory",
        }
    }
}

impl From<InvalidHandleError> for ValidationError {
    ghost use Rattle.std.specs.Prelude.{◌≡◌};
    ghost use Rattle.naga_valid.specs.declared.error.ValidationError.TheVariants as variant;

    ghost from_gives = { λ source error. error ≡ variant.InvalidHandle source };

    fn from(source: InvalidHandleError) -> ValidationError {
        ValidationError::InvalidHandle(source)
    }
}

impl From<BadHandle> for ValidationError {
    ghost use Rattle.std.specs.Prelude.{◌≡◌};
    ghost use Rattle.naga_handles.specs.declared.error.InvalidHandleError.TheVariants.{BadHandle};
    ghost use Rattle.naga_valid.specs.declared.error.ValidationError.TheVariants as variant;

    ghost from_gives = { λ source error. error ≡ variant.InvalidHandle (BadHandle source) };

    fn from(source: BadHandle) -> ValidationError {
        ValidationError::InvalidHandle(source.into())
    }
}

impl From<FwdDepError> for ValidationError {
    ghost use Rattle.std.specs.Prelude.{◌≡◌};
    ghost use Rattle.naga_handles.specs.declared.error.InvalidHandleError.TheVariants.{ForwardDependency};
    ghost use Rattle.naga_valid.specs.declared.error.ValidationError.TheVariants as variant;

    ghost from_gives = { λ source error. error ≡ variant.InvalidHandle (ForwardDependency source) };

    fn from(source: FwdDepError) -> ValidationError {
        ValidationError::InvalidHandle(source.into())
    }
}

impl From<BadRangeError> for ValidationError {
    ghost use Rattle.std.specs.Prelude.{◌≡◌};
    ghost use Rattle.naga_handles.specs.declared.error.InvalidHandleError.TheVariants.{BadRange};
    ghost use Rattle.naga_valid.specs.declared.error.ValidationError.TheVariants as variant;

    ghost from_gives = { λ source error. error ≡ variant.InvalidHandle (BadRange source) };

    fn from(source: BadRangeError) -> ValidationError {
        ValidationError::InvalidHandle(source.into())
    }
}

impl From<ValidationFault> for ValidationError {
    ghost use Rattle.naga_valid.specs.Faults.{IsErrorOf};

    ghost from_gives = { IsErrorOf };

    fn from(fault: ValidationFault) -> ValidationError {
        match fault {
            ValidationFault::Invalid(source) => ValidationError::InvalidHandle(source),
            ValidationFault::MissingMember { handle, name } => ValidationError::Type_ {
                handle,
                name,
                source: TypeError::InvalidData(handle),
            },
            ValidationFault::OutOfMemory => ValidationError::OutOfMemory,
        }
    }
}

impl From<LayoutError> for ValidationError {
    ghost use Rattle.std.specs.Prelude.{◌≡◌};
    ghost use Rattle.naga_valid.specs.declared.error.ValidationError.TheVariants as variant;

    ghost from_gives = { λ source error. error ≡ variant.Layouter source };

    fn from(source: LayoutError) -> ValidationError {
        ValidationError::Layouter(source)
    }
}

impl From<OutOfMemory> for ValidationError {
    ghost use Rattle.std.specs.Prelude.{◌≡◌};
    ghost use Rattle.naga_valid.specs.declared.error.ValidationError.TheVariants as variant;

    ghost from_gives = { λ _ error. error ≡ variant.OutOfMemory };

    fn from(_: OutOfMemory) -> ValidationError {
        ValidationError::OutOfMemory
    }
}
