//! The widths that scalars may have.

ghost use Rattle.std.specs.Prelude.{◌≡◌};
ghost use Rattle.naga_flags.specs.ErrorNames.{immediate_error_name, width_error_name};
ghost use Rattle.naga_flags.specs.Width.{width_rule};

use crate::flags::Capabilities;
use bitflags::Flags;
use naga_ir::text::StaticText;
use naga_ir::types::{BOOL_WIDTH, Scalar, ScalarKind};
use std::fmt;
use thiserror::Error;

/// Why a width of a scalar is refused.
#[derive(Clone, Debug, PartialEq, Drop, Error)]
pub enum WidthError {
    /// No capability allows scalars of this kind the width, in bytes.
    #[error("The {0:?} scalar width {1} is not supported")]
    Invalid(ScalarKind, u8),
    /// The width needs a capability.
    #[error("Using `{name}` values requires the `naga::valid::Capabilities::{flag}` flag")]
    MissingCapability {
        /// What the language calls the type, as `f64`.
        name: StaticText,
        /// The name of the capability's constant.
        flag: StaticText,
    },
    /// Only constant expressions have abstract scalars (WGSL "Abstract Numeric Types").
    #[error("Abstract types may only appear in constant expressions")]
    Abstract,
}

impl WidthError {
    /// The name of the variant.
    pub fn name(&self) -> &'static str
        ensures { result.now ≡ width_error_name self.now }
    {
        match self {
            WidthError::Invalid(..) => "Invalid",
            WidthError::MissingCapability { .. } => "MissingCapability",
            WidthError::Abstract => "Abstract",
        }
    }
}

/// Why immediates may not hold a type (naga).
#[derive(Clone, Copy, Debug, PartialEq)]
pub enum ImmediateError {
    /// The scalar, of which the type is made, has 16 bits.
    InvalidScalar(Scalar),
}

impl ImmediateError {
    /// The name of the variant.
    pub fn name(&self) -> &'static str
        ensures { result.now ≡ immediate_error_name self.now }
    {
        match self {
            ImmediateError::InvalidScalar(_) => "InvalidScalar",
        }
    }
}

impl fmt::Display for ImmediateError {
    fn fmt<W: fmt::Write>(&self, f: &mut fmt::Formatter<W>) -> fmt::Result {
        match self {
            ImmediateError::InvalidScalar(scalar) => write!(
                f,
                "The scalar type {scalar:?} is not supported in immediates"
            ),
        }
    }
}

impl std::error::Error for ImmediateError {}

/// Whether immediates may hold a type.
pub type ImmediateCompatibility = Result<(), ImmediateError>;

/// Checks that scalars of this kind and width are allowed under `capabilities`, and returns whether
/// immediates may hold them. The rule is naga's `Validator::check_width`.
///
/// # Errors
///
/// - `Abstract` if the kind is abstract.
/// - `MissingCapability` if `capabilities` lacks the one that the width needs.
/// - `Invalid` if no capability allows the width.
pub fn check_width(
    capabilities: Capabilities,
    scalar: Scalar,
) -> Result<ImmediateCompatibility, WidthError>
    ensures { result ≡ width_rule capabilities.0 scalar }
{
    let (name, flag, needed) = match (scalar.kind, scalar.width) {
        (ScalarKind::AbstractInt | ScalarKind::AbstractFloat, _) => return Err(
            WidthError::Abstract,
        ),
        (ScalarKind::Bool, BOOL_WIDTH) => return Ok(Ok(())),
        (ScalarKind::Float | ScalarKind::Sint | ScalarKind::Uint, 4) => return Ok(Ok(())),
        (ScalarKind::Float, 8) => ("f64", "FLOAT64", Capabilities::FLOAT64),
        (ScalarKind::Float, 2) => ("f16", "SHADER_FLOAT16", Capabilities::SHADER_FLOAT16),
        (ScalarKind::Sint, 8) => ("i64", "SHADER_INT64", Capabilities::SHADER_INT64),
        (ScalarKind::Sint, 2) => ("i16", "SHADER_INT16", Capabilities::SHADER_INT16),
        (ScalarKind::Uint, 8) => ("u64", "SHADER_INT64", Capabilities::SHADER_INT64),
        (ScalarKind::Uint, 2) => ("u16", "SHADER_INT16", Capabilities::SHADER_INT16),
        (kind, width) => return Err(WidthError::Invalid(kind, width)),
    };
    if !capabilities.contains(needed) {
        return Err(WidthError::MissingCapability {
            name: StaticText::new(name),
            flag: StaticText::new(flag),
        });
    }
    if scalar.width == 2 {
        return Ok(Err(ImmediateError::InvalidScalar(scalar)));
    }
    Ok(Ok(()))
}
