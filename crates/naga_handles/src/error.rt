//! What is wrong with a module's handles.

ghost use Rattle.std.specs.Prelude.{◌≡◌};
ghost use Rattle.naga_handles.specs.ErrorNames.{handle_error_name, validation_fault_name};

use naga_ir::handle::{BadHandle, Handle, Kind};
use naga_ir::memory::OutOfMemory;
use naga_ir::range::BadRangeError;
use naga_ir::tags::TypeTag;
use naga_ir::text::{StaticText, Text};
use thiserror::Error;

/// What is wrong with a handle or range of a module.
#[derive(Clone, Debug, PartialEq, Drop, Error)]
pub enum InvalidHandleError {
    /// It is dangling.
    #[error("{0}")]
    BadHandle(BadHandle),
    /// What it names doesn't precede the item that depends on it.
    #[error("{0}")]
    ForwardDependency(FwdDepError),
    /// It is a range of expressions to emit that goes back, or ends after the last expression.
    #[error("{0}")]
    BadRange(BadRangeError),
}

impl InvalidHandleError {
    /// The name of the variant.
    pub fn name(&self) -> &'static str
        ensures { result.now ≡ handle_error_name self.now }
    {
        match self {
            InvalidHandleError::BadHandle(_) => "BadHandle",
            InvalidHandleError::ForwardDependency(_) => "ForwardDependency",
            InvalidHandleError::BadRange(_) => "BadRange",
        }
    }
}

impl From<BadHandle> for InvalidHandleError {
    ghost use Rattle.std.specs.Prelude.{◌≡◌};
    ghost use Rattle.naga_handles.specs.declared.error.InvalidHandleError.TheVariants as variant;

    ghost from_gives = { λ source error. error ≡ variant.BadHandle source };

    fn from(source: BadHandle) -> InvalidHandleError {
        InvalidHandleError::BadHandle(source)
    }
}

impl From<FwdDepError> for InvalidHandleError {
    ghost use Rattle.std.specs.Prelude.{◌≡◌};
    ghost use Rattle.naga_handles.specs.declared.error.InvalidHandleError.TheVariants as variant;

    ghost from_gives = { λ source error. error ≡ variant.ForwardDependency source };

    fn from(source: FwdDepError) -> InvalidHandleError {
        InvalidHandleError::ForwardDependency(source)
    }
}

impl From<BadRangeError> for InvalidHandleError {
    ghost use Rattle.std.specs.Prelude.{◌≡◌};
    ghost use Rattle.naga_handles.specs.declared.error.InvalidHandleError.TheVariants as variant;

    ghost from_gives = { λ source error. error ≡ variant.BadRange source };

    fn from(source: BadRangeError) -> InvalidHandleError {
        InvalidHandleError::BadRange(source)
    }
}

/// An item that depends on another item of its kind, which doesn't precede it.
#[derive(Clone, Debug, PartialEq, Drop, Error)]
#[error("[{subject}] of kind \"{subject_kind}\" depends on [{depends_on}] of kind {depends_on_kind}, which has not been processed yet")]
pub struct FwdDepError {
    /// The index of the item.
    subject: usize,
    /// The name of its kind.
    subject_kind: StaticText,
    /// The index of the item that it depends on.
    depends_on: usize,
    /// The name of the kind of the item that it depends on.
    depends_on_kind: StaticText,
}

impl FwdDepError {
    /// The error on `subject`, which depends on `depends_on`.
    pub fn new<K: Kind>(subject: Handle<K>, depends_on: Handle<K>) -> FwdDepError
        ensures { result ≡ record {
          subject = subject;
          subject_kind = K.kind_name;
          depends_on = depends_on;
          depends_on_kind = K.kind_name;
        } }
    {
        FwdDepError {
            subject: subject.index(),
            subject_kind: K::name(),
            depends_on: depends_on.index(),
            depends_on_kind: K::name(),
        }
    }

    /// The index of the item.
    pub fn subject(&self) -> usize
        ensures { result ≡ self.now.subject }
    {
        self.subject
    }

    /// The name of its kind.
    pub fn subject_kind(&self) -> &'static str
        ensures { result.now ≡ self.now.subject_kind }
    {
        self.subject_kind.as_str()
    }

    /// The index of the item that it depends on.
    pub fn depends_on(&self) -> usize
        ensures { result ≡ self.now.depends_on }
    {
        self.depends_on
    }

    /// The name of the kind of the item that it depends on.
    pub fn depends_on_kind(&self) -> &'static str
        ensures { result.now ≡ self.now.depends_on_kind }
    {
        self.depends_on_kind.as_str()
    }
}

/// What is wrong with the handles of a module.
#[derive(Debug, PartialEq, Drop, Error)]
pub enum ValidationFault {
    /// A handle or range isn't right.
    #[error("{0}")]
    Invalid(InvalidHandleError),
    /// A comment documents a member of a type that is not a struct, or has no such member.
    #[error("Type {handle:?} '{name}' has no member that a comment is on")]
    MissingMember {
        /// The type.
        handle: Handle<TypeTag>,
        /// The name of the type; of a type without one `Unknown` if it is not a struct, else `members
        /// length incorrect`.
        name: Text,
    },
    /// A request for memory was refused, and nothing was decided about the module.
    #[error("Out of memory")]
    OutOfMemory,
}

impl ValidationFault {
    /// The name of the variant.
    pub fn name(&self) -> &'static str
        ensures { result.now ≡ validation_fault_name self.now }
    {
        match self {
            ValidationFault::Invalid(_) => "Invalid",
            ValidationFault::MissingMember { .. } => "MissingMember",
            ValidationFault::OutOfMemory => "OutOfMemory",
        }
    }
}

impl From<InvalidHandleError> for ValidationFault {
    ghost use Rattle.std.specs.Prelude.{◌≡◌};
    ghost use Rattle.naga_handles.specs.declared.error.ValidationFault.TheVariants as variant;

    ghost from_gives = { λ source fault. fault ≡ variant.Invalid source };

    fn from(source: InvalidHandleError) -> ValidationFault {
        ValidationFault::Invalid(source)
    }
}

impl From<OutOfMemory> for ValidationFault {
    ghost use Rattle.std.specs.Prelude.{◌≡◌};
    ghost use Rattle.naga_handles.specs.declared.error.ValidationFault.TheVariants as variant;

    ghost from_gives = { λ _ fault. fault ≡ variant.OutOfMemory };

    fn from(_: OutOfMemory) -> ValidationFault {
        ValidationFault::OutOfMemory
    }
}
