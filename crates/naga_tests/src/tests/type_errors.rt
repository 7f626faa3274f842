//! The texts of errors. A table is the list of the errors, and above it their texts, a line for each.

use super::{aligned, assert_lines};
use naga_flags::flags::Capabilities;
use naga_flags::width::{ImmediateError, WidthError};
use naga_ir::handle::Handle;
use naga_ir::text::{StaticText, Text};
use naga_ir::types::{AddressSpace, ImageClass, ImageDimension, Scalar, ScalarKind};
use naga_types::error::{ComposeError, Disalignment, TypeError, VaryingError};
use naga_typing::context::ConstValueError;
use naga_typing::index::IndexableLengthError;
use naga_typing::layouter::{LayoutError, LayoutErrorInner};
use naga_typing::typifier::ResolveError;

const WIDTHS: &str = "The Uint scalar width 3 is not supported
Using `f16` values requires the `naga::valid::Capabilities::SHADER_FLOAT16` flag
Abstract types may only appear in constant expressions
";

const COMPOSITIONS: &str = "Composing of type [3] can't be done
Composing expects 3 components but 4 were given
Composing 1's component type is not expected
";

#[test]
fn texts_of_errors_of_widths_and_compositions(rt: HostRuntime) {
    assert_lines(
        &rt,
        &[
            WidthError::Invalid(ScalarKind::Uint, 3),
            WidthError::MissingCapability {
                name: StaticText::new("f16"),
                flag: StaticText::new("SHADER_FLOAT16"),
            },
            WidthError::Abstract,
        ],
        WIDTHS,
    );
    assert_lines(
        &rt,
        &[ImmediateError::InvalidScalar(Scalar::F16)],
        "The scalar type Scalar { kind: Float, width: 2 } is not supported in immediates\n",
    );
    assert_lines(
        &rt,
        &[
            ComposeError::Type_(Handle::new(3)),
            ComposeError::ComponentCount {
                given: 4,
                expected: 3,
            },
            ComposeError::ComponentType { index: 1 },
        ],
        COMPOSITIONS,
    );
}

const TYPES: &str = "Capability Capabilities(RAY_QUERY) is required
The Sint scalar width 2 is not supported for an atomic
Invalid type for pointer target [3]
Unsized types like [4] must be in the `Storage` address space, not `WorkGroup`
Expected data type, found [5]
Matrix elements must always be floating-point types
The Float scalar width 3 is not supported
Base type [6] for the array is invalid
The constant [7] is specialized, and cannot be used as an array size
Arrayed images of dimensionality D3 and class Depth { multi: false } are not supported
Images of dimensionality Cube and class External are not supported
Array stride 8 does not match the expected 16
The base handle [9] has to be a struct
Binding arrays of external textures are not yet supported
The base handle [10] has an override-expression that didn't get resolved to a constant
Override-sized array type [11] does not have a positive size
";

#[test]
fn texts_of_errors_of_types(rt: HostRuntime) {
    assert_lines(
        &rt,
        &[
            TypeError::MissingCapability(Capabilities::RAY_QUERY),
            TypeError::InvalidAtomicWidth(ScalarKind::Sint, 2),
            TypeError::InvalidPointerBase(Handle::new(3)),
            TypeError::InvalidPointerToUnsized {
                base: Handle::new(4),
                space: AddressSpace::WorkGroup,
            },
            TypeError::InvalidData(Handle::new(5)),
            TypeError::MatrixElementNotFloat,
            TypeError::from(WidthError::Invalid(ScalarKind::Float, 3)),
            TypeError::InvalidArrayBaseType(Handle::new(6)),
            TypeError::UnsupportedSpecializedArrayLength(Handle::new(7)),
            TypeError::UnsupportedImageType {
                dim: ImageDimension::D3,
                arrayed: true,
                class: ImageClass::Depth { multi: false },
            },
            TypeError::UnsupportedImageType {
                dim: ImageDimension::Cube,
                arrayed: false,
                class: ImageClass::External,
            },
            TypeError::InvalidArrayStride {
                stride: 8,
                expected: 16,
            },
            TypeError::BindingArrayBaseTypeNotStruct(Handle::new(9)),
            TypeError::BindingArrayBaseExternalTextures,
            TypeError::UnresolvedOverride(Handle::new(10)),
            TypeError::InvalidArraySize(Handle::new(11)),
        ],
        TYPES,
    );
}

const STRUCTS: &str = "Field 'lights' can't be dynamically-sized, has type [8]
Structure member[1] at 2 overlaps the previous member
Structure member[1] at 2 and size 3 crosses the structure boundary of size 4
Structure types must have at least one member
Invalid `@blend_src` structure: Several members are the blend source 1
Out of memory
";

const BLEND_SOURCES: &str = "A blend source has to be 0 or 1 at location 0, and not 2 at location 3
Several members are the blend source 1
A member at location 4 stands beside blend sources
The blend sources are of the types [5] and [6], which differ
Values of the type [7] can't be passed between pipeline stages
Only the blend source 1 is there, and not the other one
";

#[test]
fn texts_of_errors_of_structs(rt: HostRuntime) {
    let name = String::from_str(rt.alloc(), "lights").expect(&rt, "memory");
    assert_lines(
        &rt,
        &[
            TypeError::InvalidDynamicArray(Text::from_string(name), Handle::new(8)),
            TypeError::MemberOverlap {
                index: 1,
                offset: 2,
            },
            TypeError::MemberOutOfBounds {
                index: 1,
                offset: 2,
                size: 3,
                span: 4,
            },
            TypeError::EmptyStruct,
            TypeError::InvalidBlendSrc(VaryingError::BindingCollisionBlendSrc { blend_src: 1 }),
            TypeError::OutOfMemory,
        ],
        STRUCTS,
    );
    assert_lines(
        &rt,
        &[
            VaryingError::InvalidBlendSrcIndex {
                location: 3,
                blend_src: 2,
            },
            VaryingError::BindingCollisionBlendSrc { blend_src: 1 },
            VaryingError::InvalidBlendSrcWithOtherBindings { location: 4 },
            VaryingError::BlendSrcOutputTypeMismatch {
                blend_src_0_type: Handle::new(5),
                blend_src_1_type: Handle::new(6),
            },
            VaryingError::NotIOShareableType(Handle::new(7)),
            VaryingError::IncompleteBlendSrcUsage {
                present_blend_src: 1,
            },
        ],
        BLEND_SOURCES,
    );
}

const LAYOUTS: &str = "The array stride 20 is not a multiple of the required alignment 16
The struct span 20, is not a multiple of the required alignment 16
The struct member[1] offset 20 is not a multiple of the required alignment 16
The struct member[1] offset 20 must be at least 32
The struct member[1] is not statically sized
The type is not host-shareable
";

#[test]
fn texts_of_errors_of_layouts(rt: HostRuntime) {
    let alignment = aligned(&rt, 16);
    assert_lines(
        &rt,
        &[
            Disalignment::ArrayStride {
                stride: 20,
                alignment,
            },
            Disalignment::StructSpan {
                span: 20,
                alignment,
            },
            Disalignment::MemberOffset {
                index: 1,
                offset: 20,
                alignment,
            },
            Disalignment::MemberOffsetAfterStruct {
                index: 1,
                offset: 20,
                expected: 32,
            },
            Disalignment::UnsizedMember { index: 1 },
            Disalignment::NonHostShareable,
        ],
        LAYOUTS,
    );
    assert_lines(
        &rt,
        &[LayoutErrorInner::TooLarge, LayoutErrorInner::OutOfMemory],
        "The array is larger than 2147483647 bytes\nOut of memory\n",
    );
    let too_large = LayoutError {
        ty: Handle::new(1),
        inner: LayoutErrorInner::TooLarge,
    };
    let odd_width = LayoutError {
        ty: Handle::new(0),
        inner: LayoutErrorInner::NonPowerOfTwoWidth,
    };
    assert_lines(
        &rt,
        &[too_large, odd_width],
        "Error laying out type [1]: The array is larger than 2147483647 bytes
Error laying out type [0]: The scalar width is not a power of two
",
    );
}

const TYPINGS: &str = "Incompatible operands
The type of the expression can't be resolved
Out of memory
";

const LENGTHS: &str = "Type is not indexable, and has no length (validation error)
Array length is not a positive constant
";

const INDICES: &str = "The expression is not a constant
The constant is negative
The constant is not an integer of 16 or 32 bits
";

#[test]
fn texts_of_errors_of_the_typing_layer(rt: HostRuntime) {
    assert_lines(
        &rt,
        &[
            ResolveError::IncompatibleOperands,
            ResolveError::NotResolvable,
            ResolveError::OutOfMemory,
        ],
        TYPINGS,
    );
    assert_lines(
        &rt,
        &[
            IndexableLengthError::TypeNotIndexable,
            IndexableLengthError::InvalidArrayLength,
        ],
        LENGTHS,
    );
    assert_lines(
        &rt,
        &[
            ConstValueError::NonConst,
            ConstValueError::Negative,
            ConstValueError::InvalidType,
        ],
        INDICES,
    );
}
