//! The errors within errors.

ghost use Rattle.naga_error_text.specs.Causes.{compose_error_parts, compose_errors, disalignment_parts, disalignments, immediate_error_parts, immediate_errors, indexable_length_error_parts, indexable_length_errors, literal_error_cause, literal_error_parts, literal_errors, resolve_error_parts, resolve_errors, varying_error_parts, varying_errors, width_error_parts, width_errors};
ghost use Rattle.naga_error_text.specs.Numbers.{numbered};
ghost use Rattle.naga_error_text.specs.steps.Pieces.{are_short, piece_text};
ghost use Rattle.std.specs.Prelude.{◌≡◌, IsTrue, map};

use crate::families::Family;
use crate::names::Names;
use crate::numbers::numbered;
use crate::pieces::Piece::{Name, Number, Words};
use crate::pieces::Place::{First, Second, Third};
use crate::pieces::{Piece, Values};

/// Why an input or output of an entry point is refused, or why the members of a struct can't be the two sources of
/// blending (WGSL "User-defined Inputs and Outputs", "blend_src").
#[derive(Clone, Copy, Debug, PartialEq)]
pub enum VaryingError {
    /// A source of blending has another location than 0, or an index other than 0 and 1.
    InvalidBlendSrcIndex,
    /// An earlier member or output is the same source.
    BindingCollisionBlendSrc,
    /// A member of a struct with blend sources has a location, but is not a source itself.
    InvalidBlendSrcWithOtherBindings,
    /// The two sources have different types.
    BlendSrcOutputTypeMismatch,
    /// Pipeline stages can't pass values of the type (WGSL "Input-output Locations").
    NotIOShareableType,
    /// Only one of the two sources exists.
    IncompleteBlendSrcUsage,
    /// The type at a location is not a scalar or a vector.
    InvalidType,
    /// The values of integers are not interpolated, and the interpolation is not `Flat`.
    InvalidInterpolation,
    /// The sampling says nothing of values that are interpolated so (WGSL "Interpolation").
    InvalidInterpolationSamplingCombination,
    /// A floating-point output of a vertex shader or input of a fragment shader has no interpolation.
    MissingInterpolation,
    /// The stage has no such built-in value as an input, or as an output.
    InvalidBuiltInStage,
    /// The built-in value has another type (WGSL "Built-in Inputs and Outputs").
    InvalidBuiltInType,
    /// An argument or a result that is not a struct has no binding.
    MissingBinding,
    /// The member of this index has no binding.
    MemberMissingBinding,
    /// An earlier input, or an earlier output, has the same location.
    BindingCollision,
    /// An earlier input, or an earlier output, is the same built-in value.
    DuplicateBuiltIn,
    /// The binding needs a capability that isn't given.
    UnsupportedCapability,
    /// A source of blending is an input of this stage, and not an output.
    InvalidInputAttributeInStage,
    /// This stage has no sources of blending.
    InvalidAttributeInStage,
    /// The place of an invocation among subgroups is only defined in workgroups of one dimension.
    InvalidMultiDimensionalSubgroupBuiltIn,
    /// A value of each primitive is not an input of a fragment shader.
    InvalidPerPrimitive,
}

/// The error of a number, if there is one.
pub(crate) fn varying_error_of(number: u32) -> Option<VaryingError>
    ensures { result ≡ numbered varying_errors number }
{
    numbered(
        &[
            VaryingError::InvalidBlendSrcIndex,
            VaryingError::BindingCollisionBlendSrc,
            VaryingError::InvalidBlendSrcWithOtherBindings,
            VaryingError::BlendSrcOutputTypeMismatch,
            VaryingError::NotIOShareableType,
            VaryingError::IncompleteBlendSrcUsage,
            VaryingError::InvalidType,
            VaryingError::InvalidInterpolation,
            VaryingError::InvalidInterpolationSamplingCombination,
            VaryingError::MissingInterpolation,
            VaryingError::InvalidBuiltInStage,
            VaryingError::InvalidBuiltInType,
            VaryingError::MissingBinding,
            VaryingError::MemberMissingBinding,
            VaryingError::BindingCollision,
            VaryingError::DuplicateBuiltIn,
            VaryingError::UnsupportedCapability,
            VaryingError::InvalidInputAttributeInStage,
            VaryingError::InvalidAttributeInStage,
            VaryingError::InvalidMultiDimensionalSubgroupBuiltIn,
            VaryingError::InvalidPerPrimitive,
        ],
        number,
    )
}

/// The pieces of the text of such an error.
pub(crate) fn varying_error_pieces(error: VaryingError) -> &'static [Piece]
    ensures text { (values : Values) → map (piece_text values) result.now ≡ varying_error_parts error values }
    ensures short { IsTrue (are_short result.now) }
{
    match error {
        VaryingError::InvalidBlendSrcIndex => &[
            Words("A blend source has to be 0 or 1 at location 0, and not "),
            Number(Second),
            Words(" at location "),
            Number(First),
        ],
        VaryingError::BindingCollisionBlendSrc => &[
            Words("Several members are the blend source "),
            Number(First),
        ],
        VaryingError::InvalidBlendSrcWithOtherBindings => &[
            Words("A member at location "),
            Number(First),
            Words(" stands beside blend sources"),
        ],
        VaryingError::BlendSrcOutputTypeMismatch => &[
            Words("The blend sources are of the types ["),
            Number(First),
            Words("] and ["),
            Number(Second),
            Words("], which differ"),
        ],
        VaryingError::NotIOShareableType => &[
            Words("Values of the type ["),
            Number(First),
            Words("] can't be passed between pipeline stages"),
        ],
        VaryingError::IncompleteBlendSrcUsage => &[
            Words("Only the blend source "),
            Number(First),
            Words(" is there, and not the other one"),
        ],
        VaryingError::InvalidType => &[
            Words("The type ["),
            Number(First),
            Words("] does not match the varying"),
        ],
        VaryingError::InvalidInterpolation => &[Words("Interpolation is not valid")],
        VaryingError::InvalidInterpolationSamplingCombination => &[
            Words("Cannot combine "),
            Name(Names::Interpolations, First),
            Words(" interpolation with the "),
            Name(Names::Samplings, Second),
            Words(" sample type"),
        ],
        VaryingError::MissingInterpolation => &[Words(
            "Interpolation must be specified on vertex shader outputs and fragment shader inputs",
        )],
        VaryingError::InvalidBuiltInStage => &[
            Words("Built-in "),
            Name(Names::BuiltIns, First),
            Words(" is not available at this stage"),
        ],
        VaryingError::InvalidBuiltInType => &[
            Words("Built-in type for "),
            Name(Names::BuiltIns, First),
            Words(" is invalid"),
        ],
        VaryingError::MissingBinding => &[Words(
            "Entry point arguments and return values must all have bindings",
        )],
        VaryingError::MemberMissingBinding => &[
            Words("Struct member "),
            Number(First),
            Words(" is missing a binding"),
        ],
        VaryingError::BindingCollision => &[
            Words("Multiple bindings at location "),
            Number(First),
            Words(" are present"),
        ],
        VaryingError::DuplicateBuiltIn => &[
            Words("Built-in "),
            Name(Names::BuiltIns, First),
            Words(" is present more than once"),
        ],
        VaryingError::UnsupportedCapability => &[
            Words("Capability Capabilities("),
            Name(Names::Capabilities, First),
            Words(") is not supported"),
        ],
        VaryingError::InvalidInputAttributeInStage => &[
            Words("A blend source is only valid as an output for stage "),
            Name(Names::EntryStages, First),
        ],
        VaryingError::InvalidAttributeInStage => &[
            Words("A blend source is not valid for stage "),
            Name(Names::EntryStages, First),
        ],
        VaryingError::InvalidMultiDimensionalSubgroupBuiltIn => &[Words(
            "Workgroup size is multi dimensional, so built-in values of subgroups are not supported",
        )],
        VaryingError::InvalidPerPrimitive => &[Words(
            "Values of each primitive can only be inputs of fragment shaders",
        )],
    }
}

/// Why a literal is refused.
#[derive(Clone, Copy, Debug, PartialEq)]
pub enum LiteralError {
    /// The width of its scalar is not allowed.
    Width,
}

/// The error of a number, if there is one.
pub(crate) fn literal_error_of(number: u32) -> Option<LiteralError>
    ensures { result ≡ numbered literal_errors number }
{
    numbered(&[LiteralError::Width], number)
}

/// The pieces of the text of such an error.
pub(crate) fn literal_error_pieces(error: LiteralError) -> &'static [Piece]
    ensures text { (values : Values) → map (piece_text values) result.now ≡ literal_error_parts error values }
    ensures short { IsTrue (are_short result.now) }
{
    match error {
        LiteralError::Width => &[],
    }
}

/// What the error within such an error is one of.
pub(crate) fn literal_error_cause(error: LiteralError) -> Family
    ensures { result ≡ literal_error_cause error }
{
    match error {
        LiteralError::Width => Family::Width,
    }
}

/// Why a width of a scalar is refused.
#[derive(Clone, Copy, Debug, PartialEq)]
pub enum WidthError {
    /// No capability allows scalars of this kind the width.
    Invalid,
    /// The width needs a capability.
    MissingCapability,
    /// Only constant expressions have abstract scalars (WGSL "Abstract Numeric Types").
    Abstract,
}

/// The error of a number, if there is one.
pub(crate) fn width_error_of(number: u32) -> Option<WidthError>
    ensures { result ≡ numbered width_errors number }
{
    numbered(
        &[
            WidthError::Invalid,
            WidthError::MissingCapability,
            WidthError::Abstract,
        ],
        number,
    )
}

/// The pieces of the text of such an error.
pub(crate) fn width_error_pieces(error: WidthError) -> &'static [Piece]
    ensures text { (values : Values) → map (piece_text values) result.now ≡ width_error_parts error values }
    ensures short { IsTrue (are_short result.now) }
{
    match error {
        WidthError::Invalid => &[
            Words("The "),
            Name(Names::ScalarKinds, First),
            Words(" scalar width "),
            Number(Second),
            Words(" is not supported"),
        ],
        WidthError::MissingCapability => &[
            Words("Using `"),
            Name(Names::ScalarLetters, First),
            Name(Names::ScalarBits, Second),
            Words("` values requires the `naga::valid::Capabilities::"),
            Name(Names::Capabilities, Third),
            Words("` flag"),
        ],
        WidthError::Abstract => &[Words("Abstract types may only appear in constant expressions")],
    }
}

/// Why a value can't be composed.
#[derive(Clone, Copy, Debug, PartialEq)]
pub enum ComposeError {
    /// Values of the type aren't composed.
    Type_,
    /// The components are too few or too many.
    ComponentCount,
    /// A component has the wrong type.
    ComponentType,
}

/// The error of a number, if there is one.
pub(crate) fn compose_error_of(number: u32) -> Option<ComposeError>
    ensures { result ≡ numbered compose_errors number }
{
    numbered(
        &[
            ComposeError::Type_,
            ComposeError::ComponentCount,
            ComposeError::ComponentType,
        ],
        number,
    )
}

/// The pieces of the text of such an error.
pub(crate) fn compose_error_pieces(error: ComposeError) -> &'static [Piece]
    ensures text { (values : Values) → map (piece_text values) result.now ≡ compose_error_parts error values }
    ensures short { IsTrue (are_short result.now) }
{
    match error {
        ComposeError::Type_ => &[
            Words("Composing of type ["),
            Number(First),
            Words("] can't be done"),
        ],
        ComposeError::ComponentCount => &[
            Words("Composing expects "),
            Number(Second),
            Words(" components but "),
            Number(First),
            Words(" were given"),
        ],
        ComposeError::ComponentType => &[
            Words("Composing "),
            Number(First),
            Words("'s component type is not expected"),
        ],
    }
}

/// Why an expression has no type.
#[derive(Clone, Copy, Debug, PartialEq)]
pub enum ResolveError {
    /// The types of the operands don't fit the expression.
    IncompatibleOperands,
    /// The typing doesn't support this variant of expressions.
    NotResolvable,
}

/// The error of a number, if there is one.
pub(crate) fn resolve_error_of(number: u32) -> Option<ResolveError>
    ensures { result ≡ numbered resolve_errors number }
{
    numbered(
        &[
            ResolveError::IncompatibleOperands,
            ResolveError::NotResolvable,
        ],
        number,
    )
}

/// The pieces of the text of such an error.
pub(crate) fn resolve_error_pieces(error: ResolveError) -> &'static [Piece]
    ensures text { (values : Values) → map (piece_text values) result.now ≡ resolve_error_parts error values }
    ensures short { IsTrue (are_short result.now) }
{
    match error {
        ResolveError::IncompatibleOperands => &[Words("Incompatible operands")],
        ResolveError::NotResolvable => &[Words("The type of the expression can't be resolved")],
    }
}

/// Why a value has no length.
#[derive(Clone, Copy, Debug, PartialEq)]
pub enum IndexableLengthError {
    /// It is neither a vector, matrix, array or binding array, nor a pointer to one.
    TypeNotIndexable,
    /// The override that gives the number of elements has no initialiser that is an index constant above 0.
    InvalidArrayLength,
}

/// The error of a number, if there is one.
pub(crate) fn indexable_length_error_of(number: u32) -> Option<IndexableLengthError>
    ensures { result ≡ numbered indexable_length_errors number }
{
    numbered(
        &[
            IndexableLengthError::TypeNotIndexable,
            IndexableLengthError::InvalidArrayLength,
        ],
        number,
    )
}

/// The pieces of the text of such an error.
pub(crate) fn indexable_length_error_pieces(error: IndexableLengthError) -> &'static [Piece]
    ensures text { (values : Values) → map (piece_text values) result.now ≡ indexable_length_error_parts error values }
    ensures short { IsTrue (are_short result.now) }
{
    match error {
        IndexableLengthError::TypeNotIndexable => &[Words(
            "Type is not indexable, and has no length (validation error)",
        )],
        IndexableLengthError::InvalidArrayLength => &[Words(
            "Array length is not a positive constant",
        )],
    }
}

/// Why immediates can't hold a type.
#[derive(Clone, Copy, Debug, PartialEq)]
pub enum ImmediateError {
    /// The scalar, of which the type is made, has 16 bits.
    InvalidScalar,
}

/// The error of a number, if there is one.
pub(crate) fn immediate_error_of(number: u32) -> Option<ImmediateError>
    ensures { result ≡ numbered immediate_errors number }
{
    numbered(&[ImmediateError::InvalidScalar], number)
}

/// The pieces of the text of such an error.
pub(crate) fn immediate_error_pieces(error: ImmediateError) -> &'static [Piece]
    ensures text { (values : Values) → map (piece_text values) result.now ≡ immediate_error_parts error values }
    ensures short { IsTrue (are_short result.now) }
{
    match error {
        ImmediateError::InvalidScalar => &[
            Words("The scalar type Scalar { kind: "),
            Name(Names::ScalarKinds, First),
            Words(", width: "),
            Number(Second),
            Words(" } is not supported in immediates"),
        ],
    }
}

/// Why a type has no layout in an address space (WGSL "Alignment and Size", "Address Space Layout Constraints").
#[derive(Clone, Copy, Debug, PartialEq)]
pub enum Disalignment {
    /// An array's stride is not a multiple of the alignment that the array needs.
    ArrayStride,
    /// A struct's span is not a multiple of the struct's alignment.
    StructSpan,
    /// A member's offset is not a multiple of the alignment that the member needs.
    MemberOffset,
    /// A member follows a struct, and begins before that struct's size rounded up to 16 bytes ends.
    MemberOffsetAfterStruct,
    /// A member of a uniform struct has no fixed size.
    UnsizedMember,
    /// Hosts can't share values of the type (WGSL "Host-shareable Types").
    NonHostShareable,
}

/// The error of a number, if there is one.
pub(crate) fn disalignment_of(number: u32) -> Option<Disalignment>
    ensures { result ≡ numbered disalignments number }
{
    numbered(
        &[
            Disalignment::ArrayStride,
            Disalignment::StructSpan,
            Disalignment::MemberOffset,
            Disalignment::MemberOffsetAfterStruct,
            Disalignment::UnsizedMember,
            Disalignment::NonHostShareable,
        ],
        number,
    )
}

/// The pieces of the text of such an error.
pub(crate) fn disalignment_pieces(error: Disalignment) -> &'static [Piece]
    ensures text { (values : Values) → map (piece_text values) result.now ≡ disalignment_parts error values }
    ensures short { IsTrue (are_short result.now) }
{
    match error {
        Disalignment::ArrayStride => &[
            Words("The array stride "),
            Number(First),
            Words(" is not a multiple of the required alignment "),
            Number(Second),
        ],
        Disalignment::StructSpan => &[
            Words("The struct span "),
            Number(First),
            Words(", is not a multiple of the required alignment "),
            Number(Second),
        ],
        Disalignment::MemberOffset => &[
            Words("The struct member["),
            Number(First),
            Words("] offset "),
            Number(Second),
            Words(" is not a multiple of the required alignment "),
            Number(Third),
        ],
        Disalignment::MemberOffsetAfterStruct => &[
            Words("The struct member["),
            Number(First),
            Words("] offset "),
            Number(Second),
            Words(" must be at least "),
            Number(Third),
        ],
        Disalignment::UnsizedMember => &[
            Words("The struct member["),
            Number(First),
            Words("] is not statically sized"),
        ],
        Disalignment::NonHostShareable => &[Words("The type is not host-shareable")],
    }
}
