//! Why a type is refused, why it has no layout that hosts may share, and why a value can't be composed.

ghost use Rattle.std.specs.Prelude.{◌≡◌, codes, if◌then◌else◌};
ghost use Rattle.naga_types.specs.ErrorNames.{compose_error_name, disalignment_name, type_error_name, varying_error_name};
ghost use Rattle.naga_types.specs.Layouts as layouts;

use naga_flags::flags::Capabilities;
use naga_flags::width::WidthError;
use naga_ir::alignment::Alignment;
use naga_ir::built_in::BuiltIn;
use naga_ir::handle::Handle;
use naga_ir::ir::ShaderStage;
use naga_ir::memory::OutOfMemory;
use naga_ir::tags::{ConstantTag, TypeTag};
use naga_ir::text::Text;
use naga_ir::types::{
    AddressSpace, ImageClass, ImageDimension, Interpolation, Sampling, ScalarKind,
};
use std::fmt;
use thiserror::Error;

/// Why a type has no layout for the uniform or the storage address space (WGSL "Alignment and Size",
/// "Address Space Layout Constraints"). Sizes, offsets and alignments are in bytes; an `index` names
/// a member, from 0.
#[derive(Clone, Copy, Debug, PartialEq)]
pub enum Disalignment {
    /// An array's stride is not a multiple of the alignment that the array needs.
    ArrayStride {
        stride: u32,
        alignment: Alignment,
    },
    /// A struct's span is not a multiple of the struct's alignment.
    StructSpan {
        span: u32,
        alignment: Alignment,
    },
    /// A member's offset is not a multiple of the alignment that the member needs.
    MemberOffset {
        index: u32,
        offset: u32,
        alignment: Alignment,
    },
    /// A member follows a struct, and begins before that struct's size rounded up to 16 bytes ends.
    MemberOffsetAfterStruct {
        index: u32,
        offset: u32,
        /// The least offset that the member may have.
        expected: u32,
    },
    /// A member of a uniform struct has no fixed size.
    UnsizedMember {
        index: u32,
    },
    /// Hosts can't share values of the type (WGSL "Host-shareable Types").
    NonHostShareable,
}

impl Disalignment {
    /// The name of the variant.
    pub fn name(&self) -> &'static str
        ensures { result.now ≡ disalignment_name self.now }
    {
        match self {
            Disalignment::ArrayStride { .. } => "ArrayStride",
            Disalignment::StructSpan { .. } => "StructSpan",
            Disalignment::MemberOffset { .. } => "MemberOffset",
            Disalignment::MemberOffsetAfterStruct { .. } => "MemberOffsetAfterStruct",
            Disalignment::UnsizedMember { .. } => "UnsizedMember",
            Disalignment::NonHostShareable => "NonHostShareable",
        }
    }
}

impl fmt::Display for Disalignment {
    ghost use Rattle.std.specs.Prelude.{Some};
    ghost use Rattle.naga_types.specs.Texts.{text_of};

    ghost output = { λ why. Some (text_of why) };

    fn fmt<W: fmt::Write>(&self, f: &mut fmt::Formatter<W>) -> fmt::Result {
        match self {
            Disalignment::ArrayStride { stride, alignment } => write!(
                f,
                "The array stride {stride} is not a multiple of the required alignment {alignment}"
            ),
            Disalignment::StructSpan { span, alignment } => write!(
                f,
                "The struct span {span}, is not a multiple of the required alignment {alignment}"
            ),
            Disalignment::MemberOffset {
                index,
                offset,
                alignment,
            } => write!(
                f,
                "The struct member[{index}] offset {offset} is not a multiple of the required alignment {alignment}"
            ),
            Disalignment::MemberOffsetAfterStruct {
                index,
                offset,
                expected,
            } => write!(
                f,
                "The struct member[{index}] offset {offset} must be at least {expected}"
            ),
            Disalignment::UnsizedMember { index } => {
                write!(f, "The struct member[{index}] is not statically sized")
            }
            Disalignment::NonHostShareable => f.write_str("The type is not host-shareable"),
        }
    }
}

impl std::error::Error for Disalignment {}

/// Why an input or output of an entry point is refused, or why the members of a struct can't be the two sources of
/// blending (WGSL "User-defined Inputs and Outputs", "blend_src"): naga's `VaryingError`. The rule of structs gives
/// only the errors about blend sources, and `NotIOShareableType`.
#[derive(Clone, Debug, PartialEq, Drop, Error)]
pub enum VaryingError {
    /// The type at a location is not a scalar or a vector.
    #[error("The type {0:?} does not match the varying")]
    InvalidType(Handle<TypeTag>),
    /// Pipeline stages can't pass values of the type (WGSL "Input-output Locations").
    #[error("Values of the type {0:?} can't be passed between pipeline stages")]
    NotIOShareableType(Handle<TypeTag>),
    /// The values of integers are not interpolated, and the interpolation is not `Flat`.
    #[error("Interpolation is not valid")]
    InvalidInterpolation,
    /// The sampling says nothing of values that are interpolated so (WGSL "Interpolation").
    #[error("Cannot combine {interpolation:?} interpolation with the {sampling:?} sample type")]
    InvalidInterpolationSamplingCombination {
        interpolation: Interpolation,
        sampling: Sampling,
    },
    /// A floating-point output of a vertex shader or input of a fragment shader has no interpolation.
    #[error("Interpolation must be specified on vertex shader outputs and fragment shader inputs")]
    MissingInterpolation,
    /// The stage has no such built-in value as an input, or as an output.
    #[error("Built-in {0:?} is not available at this stage")]
    InvalidBuiltInStage(BuiltIn),
    /// The built-in value has another type (WGSL "Built-in Inputs and Outputs").
    #[error("Built-in type for {0:?} is invalid")]
    InvalidBuiltInType(BuiltIn),
    /// An argument or a result that is not a struct has no binding.
    #[error("Entry point arguments and return values must all have bindings")]
    MissingBinding,
    /// The member of this index has no binding.
    #[error("Struct member {0} is missing a binding")]
    MemberMissingBinding(usize),
    /// An earlier input, or an earlier output, has the same location.
    #[error("Multiple bindings at location {location} are present")]
    BindingCollision {
        location: u32,
    },
    /// An earlier member or output is the same source of blending.
    #[error("Several members are the blend source {blend_src}")]
    BindingCollisionBlendSrc {
        /// The index of the source.
        blend_src: u32,
    },
    /// An earlier input, or an earlier output, is the same built-in value.
    #[error("Built-in {0:?} is present more than once")]
    DuplicateBuiltIn(BuiltIn),
    /// The binding needs a capability that isn't given.
    #[error("Capability {0:?} is not supported")]
    UnsupportedCapability(Capabilities),
    /// A source of blending is an input of this stage, and not an output.
    #[error("A blend source is only valid as an output for stage {0:?}")]
    InvalidInputAttributeInStage(ShaderStage),
    /// This stage has no sources of blending.
    #[error("A blend source is not valid for stage {0:?}")]
    InvalidAttributeInStage(ShaderStage),
    /// A source of blending has another location than 0, or an index other than 0 and 1.
    #[error("A blend source has to be 0 or 1 at location 0, and not {blend_src} at location {location}")]
    InvalidBlendSrcIndex {
        location: u32,
        /// The index of the source.
        blend_src: u32,
    },
    /// Only one of the two sources exists.
    #[error("Only the blend source {present_blend_src} is there, and not the other one")]
    IncompleteBlendSrcUsage {
        /// The index of the source that exists.
        present_blend_src: u32,
    },
    /// A member of a struct with blend sources has a location, but is not a source itself.
    #[error("A member at location {location} stands beside blend sources")]
    InvalidBlendSrcWithOtherBindings {
        /// The location of the last such member.
        location: u32,
    },
    /// The two sources have different types.
    #[error("The blend sources are of the types {blend_src_0_type:?} and {blend_src_1_type:?}, which differ")]
    BlendSrcOutputTypeMismatch {
        blend_src_0_type: Handle<TypeTag>,
        blend_src_1_type: Handle<TypeTag>,
    },
    /// The place of an invocation among subgroups is only defined in workgroups of one dimension.
    #[error("Workgroup size is multi dimensional, so built-in values of subgroups are not supported")]
    InvalidMultiDimensionalSubgroupBuiltIn,
    /// A value of each primitive is not an input of a fragment shader.
    #[error("Values of each primitive can only be inputs of fragment shaders")]
    InvalidPerPrimitive,
    /// A request for memory was refused, and nothing was decided. The rule of structs takes none.
    #[error("Out of memory")]
    OutOfMemory,
}

impl VaryingError {
    /// The name of the variant.
    pub fn name(&self) -> &'static str
        ensures { result.now ≡ varying_error_name self.now }
    {
        match self {
            VaryingError::InvalidType(_) => "InvalidType",
            VaryingError::NotIOShareableType(_) => "NotIOShareableType",
            VaryingError::InvalidInterpolation => "InvalidInterpolation",
            VaryingError::InvalidInterpolationSamplingCombination { .. } =>
                "InvalidInterpolationSamplingCombination",
            VaryingError::MissingInterpolation => "MissingInterpolation",
            VaryingError::InvalidBuiltInStage(_) => "InvalidBuiltInStage",
            VaryingError::InvalidBuiltInType(_) => "InvalidBuiltInType",
            VaryingError::MissingBinding => "MissingBinding",
            VaryingError::MemberMissingBinding(_) => "MemberMissingBinding",
            VaryingError::BindingCollision { .. } => "BindingCollision",
            VaryingError::BindingCollisionBlendSrc { .. } => "BindingCollisionBlendSrc",
            VaryingError::DuplicateBuiltIn(_) => "DuplicateBuiltIn",
            VaryingError::UnsupportedCapability(_) => "UnsupportedCapability",
            VaryingError::InvalidInputAttributeInStage(_) => "InvalidInputAttributeInStage",
            VaryingError::InvalidAttributeInStage(_) => "InvalidAttributeInStage",
            VaryingError::InvalidBlendSrcIndex { .. } => "InvalidBlendSrcIndex",
            VaryingError::IncompleteBlendSrcUsage { .. } => "IncompleteBlendSrcUsage",
            VaryingError::InvalidBlendSrcWithOtherBindings { .. } =>
                "InvalidBlendSrcWithOtherBindings",
            VaryingError::BlendSrcOutputTypeMismatch { .. } => "BlendSrcOutputTypeMismatch",
            VaryingError::InvalidMultiDimensionalSubgroupBuiltIn =>
                "InvalidMultiDimensionalSubgroupBuiltIn",
            VaryingError::InvalidPerPrimitive => "InvalidPerPrimitive",
            VaryingError::OutOfMemory => "OutOfMemory",
        }
    }
}

impl From<OutOfMemory> for VaryingError {
    ghost use Rattle.std.specs.Prelude.{◌≡◌};
    ghost use Rattle.naga_types.specs.declared.error.VaryingError.TheVariants as variant;

    ghost from_gives = { λ _ error. error ≡ variant.OutOfMemory };

    fn from(_: OutOfMemory) -> VaryingError {
        VaryingError::OutOfMemory
    }
}

/// Why a type is refused: naga's `TypeError`. A handle names the type at fault, an `index` a
/// member, from 0, and offsets, sizes, spans and strides are in bytes.
#[derive(Debug, PartialEq, Drop, Error)]
pub enum TypeError {
    /// A type needs a capability that isn't given.
    #[error("Capability {0:?} is required")]
    MissingCapability(Capabilities),
    /// No capability allows atomic scalars of this kind and width, in bytes.
    #[error("The {0:?} scalar width {1} is not supported for an atomic")]
    InvalidAtomicWidth(ScalarKind, u8),
    /// A pointer's base is not data (WGSL "Memory Views").
    #[error("Invalid type for pointer target {0:?}")]
    InvalidPointerBase(Handle<TypeTag>),
    /// A pointer's base has no fixed size, and the pointer's space is not `Storage`.
    #[error("Unsized types like {base:?} must be in the `Storage` address space, not `{space:?}`")]
    InvalidPointerToUnsized {
        base: Handle<TypeTag>,
        /// The pointer's space.
        space: AddressSpace,
    },
    /// The type can't be the type of a member or of an element of a binding array, or a doc comment is on a
    /// member that the type doesn't have.
    #[error("Expected data type, found {0:?}")]
    InvalidData(Handle<TypeTag>),
    /// An array's elements are not data of a size that is fixed when a module is created (WGSL "Array
    /// Types").
    #[error("Base type {0:?} for the array is invalid")]
    InvalidArrayBaseType(Handle<TypeTag>),
    /// A matrix has components other than floating-point numbers (WGSL "Matrix Types"), or a cooperative matrix other
    /// components than floating-point numbers of 16 or 32 bits.
    #[error("Matrix elements must always be floating-point types")]
    MatrixElementNotFloat,
    /// Never returned: no constant is specialized here.
    #[error("The constant {0:?} is specialized, and cannot be used as an array size")]
    UnsupportedSpecializedArrayLength(Handle<ConstantTag>),
    /// Images of this dimension and class are not supported (WGSL "Texture Types").
    #[error("{what} of dimensionality {dim:?} and class {class:?} are not supported", what = images(.arrayed))]
    UnsupportedImageType {
        dim: ImageDimension,
        arrayed: bool,
        class: ImageClass,
    },
    /// An array has a stride below the size of its elements. Both are in bytes, and the size is what was expected.
    #[error("Array stride {stride} does not match the expected {expected}")]
    InvalidArrayStride {
        stride: u32,
        expected: u32,
    },
    /// A member has no fixed size, and isn't an array at the end of its struct (WGSL "Structure Types").
    /// The text is the member's name, or empty; the handle is the member's type.
    #[error("Field '{0}' can't be dynamically-sized, has type {1:?}")]
    InvalidDynamicArray(Text, Handle<TypeTag>),
    /// The elements of a binding array are data, but not structs. The handle is their type.
    #[error("The base handle {0:?} has to be a struct")]
    BindingArrayBaseTypeNotStruct(Handle<TypeTag>),
    /// The elements of a binding array are external textures.
    #[error("Binding arrays of external textures are not yet supported")]
    BindingArrayBaseExternalTextures,
    /// A member begins before the end of the one before it, and not at 0.
    #[error("Structure member[{index}] at {offset} overlaps the previous member")]
    MemberOverlap {
        index: u32,
        offset: u32,
    },
    /// A member ends past the end of its struct.
    #[error("Structure member[{index}] at {offset} and size {size} crosses the structure boundary of size {span}")]
    MemberOutOfBounds {
        index: u32,
        offset: u32,
        /// The size of the member.
        size: u32,
        /// The size of the struct.
        span: u32,
    },
    /// A struct has no members.
    #[error("Structure types must have at least one member")]
    EmptyStruct,
    /// Some members are sources of blending, and can't be.
    #[error("Invalid `@blend_src` structure: {0}")]
    InvalidBlendSrc(VaryingError),
    /// A scalar's width is not allowed.
    #[error("{0}")]
    WidthError(WidthError),
    /// Never returned: sizes that overrides decide are `InvalidArraySize`.
    #[error("The base handle {0:?} has an override-expression that didn't get resolved to a constant")]
    UnresolvedOverride(Handle<TypeTag>),
    /// Overrides must have their values, and the one that sizes this array gives no count above 0.
    #[error("Override-sized array type {0:?} does not have a positive size")]
    InvalidArraySize(Handle<TypeTag>),
    /// Memory was refused for the name in an `InvalidDynamicArray`.
    #[error("Out of memory")]
    OutOfMemory,
}

impl TypeError {
    /// The name of the variant.
    pub fn name(&self) -> &'static str
        ensures { result.now ≡ type_error_name self.now }
    {
        match self {
            TypeError::MissingCapability(_) => "MissingCapability",
            TypeError::InvalidAtomicWidth(..) => "InvalidAtomicWidth",
            TypeError::InvalidPointerBase(_) => "InvalidPointerBase",
            TypeError::InvalidPointerToUnsized { .. } => "InvalidPointerToUnsized",
            TypeError::InvalidData(_) => "InvalidData",
            TypeError::InvalidArrayBaseType(_) => "InvalidArrayBaseType",
            TypeError::MatrixElementNotFloat => "MatrixElementNotFloat",
            TypeError::UnsupportedSpecializedArrayLength(_) => "UnsupportedSpecializedArrayLength",
            TypeError::UnsupportedImageType { .. } => "UnsupportedImageType",
            TypeError::InvalidArrayStride { .. } => "InvalidArrayStride",
            TypeError::InvalidDynamicArray(..) => "InvalidDynamicArray",
            TypeError::BindingArrayBaseTypeNotStruct(_) => "BindingArrayBaseTypeNotStruct",
            TypeError::BindingArrayBaseExternalTextures => "BindingArrayBaseExternalTextures",
            TypeError::MemberOverlap { .. } => "MemberOverlap",
            TypeError::MemberOutOfBounds { .. } => "MemberOutOfBounds",
            TypeError::EmptyStruct => "EmptyStruct",
            TypeError::InvalidBlendSrc(_) => "InvalidBlendSrc",
            TypeError::WidthError(_) => "WidthError",
            TypeError::UnresolvedOverride(_) => "UnresolvedOverride",
            TypeError::InvalidArraySize(_) => "InvalidArraySize",
            TypeError::OutOfMemory => "OutOfMemory",
        }
    }
}

/// What images are called in an error.
fn images(arrayed: &bool) -> &'static str
    ensures { result.now ≡ (if arrayed.now then codes "Arrayed images" else codes "Images") }
{
    if *arrayed { "Arrayed images" } else { "Images" }
}

impl From<WidthError> for TypeError {
    ghost use Rattle.std.specs.Prelude.{◌≡◌};
    ghost use Rattle.naga_types.specs.declared.error.TypeError.TheVariants as variant;

    ghost from_gives = { λ source error. error ≡ variant.WidthError source };

    fn from(source: WidthError) -> TypeError {
        TypeError::WidthError(source)
    }
}

impl From<OutOfMemory> for TypeError {
    ghost use Rattle.std.specs.Prelude.{◌≡◌};
    ghost use Rattle.naga_types.specs.declared.error.TypeError.TheVariants as variant;

    ghost from_gives = { λ _ error. error ≡ variant.OutOfMemory };

    fn from(_: OutOfMemory) -> TypeError {
        TypeError::OutOfMemory
    }
}

/// Why a value can't be composed: naga's `ComposeError`.
#[derive(Clone, Debug, PartialEq, Drop, Error)]
pub enum ComposeError {
    /// Values of this type aren't composed.
    #[error("Composing of type {0:?} can't be done")]
    Type_(Handle<TypeTag>),
    /// The components are too few or too many.
    #[error("Composing expects {expected} components but {given} were given")]
    ComponentCount {
        /// How many there are; of a vector, how many components of it they make.
        given: u32,
        /// How many the type has.
        expected: u32,
    },
    /// A component has the wrong type.
    #[error("Composing {index}'s component type is not expected")]
    ComponentType {
        /// The place of the component, from 0.
        index: u32,
    },
}

impl ComposeError {
    /// The name of the variant, as naga spells it: `Type_` is `Type`.
    pub fn name(&self) -> &'static str
        ensures { result.now ≡ compose_error_name self.now }
    {
        match self {
            ComposeError::Type_(_) => "Type",
            ComposeError::ComponentCount { .. } => "ComponentCount",
            ComposeError::ComponentType { .. } => "ComponentType",
        }
    }
}

/// A number as errors give it: the greatest `u32` in place of any above.
pub(crate) fn saturated(number: u64) -> u32
    ensures { result ≡ layouts.saturated number }
{
    u32::try_from(number).unwrap_or(u32::MAX)
}
