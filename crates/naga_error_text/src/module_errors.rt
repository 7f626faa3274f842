//! What is wrong with handles, layouts, constants and overrides.

ghost use Rattle.naga_error_text.specs.ModuleErrors.{const_expression_error_cause, const_expression_error_parts, const_expression_errors, constant_error_parts, constant_errors, handle_error_parts, handle_errors, layout_error_parts, layout_errors, module_error_parts, module_errors, override_error_cause, override_error_parts, override_errors};
ghost use Rattle.naga_error_text.specs.Numbers.{numbered};
ghost use Rattle.naga_error_text.specs.steps.Pieces.{are_short, piece_text};
ghost use Rattle.std.specs.Prelude.{◌≡◌, IsTrue, map};

use crate::families::Family;
use crate::names::Names;
use crate::numbers::numbered;
use crate::pieces::Piece::{Name, Number, Words};
use crate::pieces::Place::{First, Kind, Second};
use crate::pieces::{Piece, Values};

/// What is wrong with a handle or range of a module.
#[derive(Clone, Copy, Debug, PartialEq)]
pub enum HandleError {
    /// It is dangling.
    BadHandle,
    /// What it names doesn't precede the item that depends on it.
    ForwardDependency,
    /// It is a range of expressions to emit that goes back, or ends after the last expression.
    BadRange,
}

/// The error of a number, if there is one.
pub(crate) fn handle_error_of(number: u32) -> Option<HandleError>
    ensures { result ≡ numbered handle_errors number }
{
    numbered(
        &[
            HandleError::BadHandle,
            HandleError::ForwardDependency,
            HandleError::BadRange,
        ],
        number,
    )
}

/// The pieces of the text of such an error.
pub(crate) fn handle_error_pieces(error: HandleError) -> &'static [Piece]
    ensures text { (values : Values) → map (piece_text values) result.now ≡ handle_error_parts error values }
    ensures short { IsTrue (are_short result.now) }
{
    match error {
        HandleError::BadHandle => &[
            Words("Handle "),
            Number(First),
            Words(" of "),
            Name(Names::ItemKinds, Kind),
            Words(" is either not present, or inaccessible yet"),
        ],
        HandleError::ForwardDependency => &[
            Words("["),
            Number(First),
            Words("] of kind \""),
            Name(Names::ItemKinds, Kind),
            Words("\" depends on ["),
            Number(Second),
            Words("] of kind "),
            Name(Names::ItemKinds, Kind),
            Words(", which has not been processed yet"),
        ],
        HandleError::BadRange => &[
            Words("Handle range ["),
            Number(First),
            Words(".."),
            Number(Second),
            Words("] of "),
            Name(Names::ItemKinds, Kind),
            Words(" is either not present, or inaccessible yet"),
        ],
    }
}

/// Why a type has no layout.
#[derive(Clone, Copy, Debug, PartialEq)]
pub enum LayoutError {
    /// An array is larger than 2147483647 bytes.
    TooLarge,
    /// The width of a scalar, in bytes, is not a power of two.
    NonPowerOfTwoWidth,
}

/// The error of a number, if there is one.
pub(crate) fn layout_error_of(number: u32) -> Option<LayoutError>
    ensures { result ≡ numbered layout_errors number }
{
    numbered(
        &[LayoutError::TooLarge, LayoutError::NonPowerOfTwoWidth],
        number,
    )
}

/// The pieces of the text of such an error.
pub(crate) fn layout_error_pieces(error: LayoutError) -> &'static [Piece]
    ensures text { (values : Values) → map (piece_text values) result.now ≡ layout_error_parts error values }
    ensures short { IsTrue (are_short result.now) }
{
    match error {
        LayoutError::TooLarge => &[Words("The array is larger than 2147483647 bytes")],
        LayoutError::NonPowerOfTwoWidth => &[Words("The scalar width is not a power of two")],
    }
}

/// Why a global expression is refused.
#[derive(Clone, Copy, Debug, PartialEq)]
pub enum ConstExpressionError {
    /// Its value is known only when the shader runs.
    NonConstOrOverride,
    /// Its value should be known, and is still to be computed.
    NonFullyEvaluatedConst,
    /// A value can't be composed of its components.
    Compose,
    /// The operand of a splat is not a scalar.
    InvalidSplatType,
    /// It has no type.
    Type_,
    /// The width of a literal is not allowed.
    Literal,
    /// Never returned: a width is refused inside `Literal`.
    Width,
}

/// The error of a number, if there is one.
pub(crate) fn const_expression_error_of(number: u32) -> Option<ConstExpressionError>
    ensures { result ≡ numbered const_expression_errors number }
{
    numbered(
        &[
            ConstExpressionError::NonConstOrOverride,
            ConstExpressionError::NonFullyEvaluatedConst,
            ConstExpressionError::Compose,
            ConstExpressionError::InvalidSplatType,
            ConstExpressionError::Type_,
            ConstExpressionError::Literal,
            ConstExpressionError::Width,
        ],
        number,
    )
}

/// The pieces of the text of such an error.
pub(crate) fn const_expression_error_pieces(error: ConstExpressionError) -> &'static [Piece]
    ensures text { (values : Values) → map (piece_text values) result.now ≡ const_expression_error_parts error values }
    ensures short { IsTrue (are_short result.now) }
{
    match error {
        ConstExpressionError::NonConstOrOverride => &[Words(
            "The expression is not a constant or override expression",
        )],
        ConstExpressionError::NonFullyEvaluatedConst => &[Words(
            "The expression is not a fully evaluated constant expression",
        )],
        ConstExpressionError::Compose => &[],
        ConstExpressionError::InvalidSplatType => &[
            Words("Splatting ["),
            Number(First),
            Words("] can't be done"),
        ],
        ConstExpressionError::Type_ => &[Words("Type resolution failed: ")],
        ConstExpressionError::Literal => &[],
        ConstExpressionError::Width => &[],
    }
}

/// What the error within such an error is one of, if there is one.
pub(crate) fn const_expression_error_cause(error: ConstExpressionError) -> Option<Family>
    ensures { result ≡ const_expression_error_cause error }
{
    match error {
        ConstExpressionError::Compose => Some(Family::Compose),
        ConstExpressionError::Type_ => Some(Family::Resolve),
        ConstExpressionError::Literal => Some(Family::Literal),
        ConstExpressionError::Width => Some(Family::Width),
        _ => None,
    }
}

/// Why a constant is refused.
#[derive(Clone, Copy, Debug, PartialEq)]
pub enum ConstantError {
    /// The value of the initialiser isn't known when the shader is compiled.
    InitializerExprType,
    /// The initialiser has another type than the constant.
    InvalidType,
    /// The type of the constant is not constructible (WGSL "Constructible Types").
    NonConstructibleType,
}

/// The error of a number, if there is one.
pub(crate) fn constant_error_of(number: u32) -> Option<ConstantError>
    ensures { result ≡ numbered constant_errors number }
{
    numbered(
        &[
            ConstantError::InitializerExprType,
            ConstantError::InvalidType,
            ConstantError::NonConstructibleType,
        ],
        number,
    )
}

/// The pieces of the text of such an error.
pub(crate) fn constant_error_pieces(error: ConstantError) -> &'static [Piece]
    ensures text { (values : Values) → map (piece_text values) result.now ≡ constant_error_parts error values }
    ensures short { IsTrue (are_short result.now) }
{
    match error {
        ConstantError::InitializerExprType => &[Words("Initializer must be a const-expression")],
        ConstantError::InvalidType => &[Words("The type doesn't match the constant")],
        ConstantError::NonConstructibleType => &[Words("The type is not constructible")],
    }
}

/// Why an override is refused.
#[derive(Clone, Copy, Debug, PartialEq)]
pub enum OverrideError {
    /// Never returned: an override may lack both.
    MissingNameAndID,
    /// An earlier override has the same number (WGSL "id").
    DuplicateID,
    /// Never returned: the rule of global expressions refuses such an initialiser.
    InitializerExprType,
    /// The initialiser has another type than the override.
    InvalidType,
    /// The type of the override is not constructible (WGSL "Constructible Types").
    NonConstructibleType,
    /// The type of the override is none of the scalars that overrides may have (WGSL "override Declarations").
    TypeNotScalar,
    /// Never returned: modules may have overrides.
    NotAllowed,
    /// Overrides have to have their values, and this one has no initialiser.
    UninitializedOverride,
    /// Never returned: the rule of global expressions refuses them before.
    ConstExpression,
}

/// The error of a number, if there is one.
pub(crate) fn override_error_of(number: u32) -> Option<OverrideError>
    ensures { result ≡ numbered override_errors number }
{
    numbered(
        &[
            OverrideError::MissingNameAndID,
            OverrideError::DuplicateID,
            OverrideError::InitializerExprType,
            OverrideError::InvalidType,
            OverrideError::NonConstructibleType,
            OverrideError::TypeNotScalar,
            OverrideError::NotAllowed,
            OverrideError::UninitializedOverride,
            OverrideError::ConstExpression,
        ],
        number,
    )
}

/// The pieces of the text of such an error.
pub(crate) fn override_error_pieces(error: OverrideError) -> &'static [Piece]
    ensures text { (values : Values) → map (piece_text values) result.now ≡ override_error_parts error values }
    ensures short { IsTrue (are_short result.now) }
{
    match error {
        OverrideError::MissingNameAndID => &[Words("Override name and ID are missing")],
        OverrideError::DuplicateID => &[Words("Override ID must be unique")],
        OverrideError::InitializerExprType => &[Words(
            "Initializer must be a const-expression or override-expression",
        )],
        OverrideError::InvalidType => &[Words("The type doesn't match the override")],
        OverrideError::NonConstructibleType => &[Words("The type is not constructible")],
        OverrideError::TypeNotScalar => &[Words("The type is not a scalar")],
        OverrideError::NotAllowed => &[Words("Override declarations are not allowed")],
        OverrideError::UninitializedOverride => &[Words("Override is uninitialized")],
        OverrideError::ConstExpression => &[
            Words("Constant expression ["),
            Number(First),
            Words("] is invalid: "),
        ],
    }
}

/// What the error within such an error is one of, if there is one.
pub(crate) fn override_error_cause(error: OverrideError) -> Option<Family>
    ensures { result ≡ override_error_cause error }
{
    match error {
        OverrideError::ConstExpression => Some(Family::ConstExpression),
        _ => None,
    }
}

/// What is wrong with a module as a whole. No call returns it.
#[derive(Clone, Copy, Debug, PartialEq)]
pub enum ModuleError {
    /// The module is corrupted.
    Corrupted,
    /// The size of an array is not positive.
    ArraySize,
}

/// The error of a number, if there is one.
pub(crate) fn module_error_of(number: u32) -> Option<ModuleError>
    ensures { result ≡ numbered module_errors number }
{
    numbered(&[ModuleError::Corrupted, ModuleError::ArraySize], number)
}

/// The pieces of the text of such an error.
pub(crate) fn module_error_pieces(error: ModuleError) -> &'static [Piece]
    ensures text { (values : Values) → map (piece_text values) result.now ≡ module_error_parts error values }
    ensures short { IsTrue (are_short result.now) }
{
    match error {
        ModuleError::Corrupted => &[Words("Module is corrupted")],
        ModuleError::ArraySize => &[
            Words("Array size expression ["),
            Number(First),
            Words("] is not strictly positive"),
        ],
    }
}
