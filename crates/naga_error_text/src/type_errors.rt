//! Why types are refused.

ghost use Rattle.naga_error_text.specs.TypeErrors.{type_error_cause, type_error_parts, type_errors};
ghost use Rattle.naga_error_text.specs.Numbers.{numbered};
ghost use Rattle.naga_error_text.specs.steps.Pieces.{are_short, piece_text};
ghost use Rattle.std.specs.Prelude.{◌≡◌, IsTrue, map};

use crate::families::Family;
use crate::names::Names;
use crate::numbers::numbered;
use crate::pieces::Piece::{Class, Name, Number, Words};
use crate::pieces::Place::{Fifth, First, Fourth, Second, Third};
use crate::pieces::{Piece, Values};

/// Why a type is refused.
#[derive(Clone, Copy, Debug, PartialEq)]
pub enum TypeError {
    /// A type needs a capability that isn't given.
    MissingCapability,
    /// No capability allows atomic scalars of this kind and width.
    InvalidAtomicWidth,
    /// A pointer's base is not data (WGSL "Memory Views").
    InvalidPointerBase,
    /// A pointer's base has no fixed size, and the pointer's space is not `Storage`.
    InvalidPointerToUnsized,
    /// The type can't be the type of a member or of an element of a binding array, or a comment is on a member that
    /// the type doesn't have.
    InvalidData,
    /// An array's elements are not data of a size that is fixed when a module is created (WGSL "Array Types").
    InvalidArrayBaseType,
    /// A matrix has components other than floating-point numbers (WGSL "Matrix Types").
    MatrixElementNotFloat,
    /// Never returned: no constant is specialized here.
    UnsupportedSpecializedArrayLength,
    /// Images of this dimension and class are not supported (WGSL "Texture Types").
    UnsupportedImageType,
    /// An array has a stride below the size of its elements.
    InvalidArrayStride,
    /// A member has no fixed size, and isn't an array at the end of its struct (WGSL "Structure Types").
    InvalidDynamicArray,
    /// The elements of a binding array are data, but not structs.
    BindingArrayBaseTypeNotStruct,
    /// The elements of a binding array are external images.
    BindingArrayBaseExternalTextures,
    /// A member begins before the end of the one before it, and not at 0.
    MemberOverlap,
    /// A member ends past the end of its struct.
    MemberOutOfBounds,
    /// A struct has no members.
    EmptyStruct,
    /// Some members are sources of blending, and can't be so.
    InvalidBlendSrc,
    /// A scalar's width is not allowed.
    WidthError,
    /// Never returned: sizes that overrides decide are `InvalidArraySize`.
    UnresolvedOverride,
    /// Overrides must have their values, and the one that sizes this array gives no count above 0.
    InvalidArraySize,
}

/// The error of a number, if there is one.
pub(crate) fn type_error_of(number: u32) -> Option<TypeError>
    ensures { result ≡ numbered type_errors number }
{
    numbered(
        &[
            TypeError::MissingCapability,
            TypeError::InvalidAtomicWidth,
            TypeError::InvalidPointerBase,
            TypeError::InvalidPointerToUnsized,
            TypeError::InvalidData,
            TypeError::InvalidArrayBaseType,
            TypeError::MatrixElementNotFloat,
            TypeError::UnsupportedSpecializedArrayLength,
            TypeError::UnsupportedImageType,
            TypeError::InvalidArrayStride,
            TypeError::InvalidDynamicArray,
            TypeError::BindingArrayBaseTypeNotStruct,
            TypeError::BindingArrayBaseExternalTextures,
            TypeError::MemberOverlap,
            TypeError::MemberOutOfBounds,
            TypeError::EmptyStruct,
            TypeError::InvalidBlendSrc,
            TypeError::WidthError,
            TypeError::UnresolvedOverride,
            TypeError::InvalidArraySize,
        ],
        number,
    )
}

/// The pieces of the text of such an error.
pub(crate) fn type_error_pieces(error: TypeError) -> &'static [Piece]
    ensures text { (values : Values) → map (piece_text values) result.now ≡ type_error_parts error values }
    ensures short { IsTrue (are_short result.now) }
{
    match error {
        TypeError::MissingCapability => &[
            Words("Capability Capabilities("),
            Name(Names::Capabilities, First),
            Words(") is required"),
        ],
        TypeError::InvalidAtomicWidth => &[
            Words("The "),
            Name(Names::ScalarKinds, First),
            Words(" scalar width "),
            Number(Second),
            Words(" is not supported for an atomic"),
        ],
        TypeError::InvalidPointerBase => &[
            Words("Invalid type for pointer target ["),
            Number(First),
            Words("]"),
        ],
        TypeError::InvalidPointerToUnsized => &[
            Words("Unsized types like ["),
            Number(First),
            Words("] must be in the `Storage` address space, not `"),
            Name(Names::Spaces, Second),
            Words("`"),
        ],
        TypeError::InvalidData => &[
            Words("Expected data type, found ["),
            Number(First),
            Words("]"),
        ],
        TypeError::InvalidArrayBaseType => &[
            Words("Base type ["),
            Number(First),
            Words("] for the array is invalid"),
        ],
        TypeError::MatrixElementNotFloat => &[Words(
            "Matrix elements must always be floating-point types",
        )],
        TypeError::UnsupportedSpecializedArrayLength => &[
            Words("The constant ["),
            Number(First),
            Words("] is specialized, and cannot be used as an array size"),
        ],
        TypeError::UnsupportedImageType => &[
            Name(Names::ImageNames, Second),
            Words(" of dimensionality "),
            Name(Names::Dimensions, First),
            Words(" and class "),
            Class(Third, Fourth, Fifth),
            Words(" are not supported"),
        ],
        TypeError::InvalidArrayStride => &[
            Words("Array stride "),
            Number(First),
            Words(" does not match the expected "),
            Number(Second),
        ],
        TypeError::InvalidDynamicArray => &[
            Words("A field can't be dynamically-sized, has type ["),
            Number(First),
            Words("]"),
        ],
        TypeError::BindingArrayBaseTypeNotStruct => &[
            Words("The base handle ["),
            Number(First),
            Words("] has to be a struct"),
        ],
        TypeError::BindingArrayBaseExternalTextures => &[Words(
            "Binding arrays of external textures are not yet supported",
        )],
        TypeError::MemberOverlap => &[
            Words("Structure member["),
            Number(First),
            Words("] at "),
            Number(Second),
            Words(" overlaps the previous member"),
        ],
        TypeError::MemberOutOfBounds => &[
            Words("Structure member["),
            Number(First),
            Words("] at "),
            Number(Second),
            Words(" and size "),
            Number(Third),
            Words(" crosses the structure boundary of size "),
            Number(Fourth),
        ],
        TypeError::EmptyStruct => &[Words("Structure types must have at least one member")],
        TypeError::InvalidBlendSrc => &[Words("Invalid `@blend_src` structure: ")],
        TypeError::WidthError => &[],
        TypeError::UnresolvedOverride => &[
            Words("The base handle ["),
            Number(First),
            Words("] has an override-expression that didn't get resolved to a constant"),
        ],
        TypeError::InvalidArraySize => &[
            Words("Override-sized array type ["),
            Number(First),
            Words("] does not have a positive size"),
        ],
    }
}

/// What the error within such an error is one of, if there is one.
pub(crate) fn type_error_cause(error: TypeError) -> Option<Family>
    ensures { result ≡ type_error_cause error }
{
    match error {
        TypeError::InvalidBlendSrc => Some(Family::Varying),
        TypeError::WidthError => Some(Family::Width),
        _ => None,
    }
}
