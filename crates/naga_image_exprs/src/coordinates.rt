//! What the rules of images require of coordinates, and of the indexes of array layers, samples and levels.

ghost use Rattle.std.specs.Prelude.{◌≡◌, ◌<◌, IfSome, length};
ghost use Rattle.naga_image_exprs.specs.Coordinates as rule;
ghost use Rattle.naga_info.specs.Surroundings.{AreSound, surroundings};
ghost use Rattle.naga_info.specs.Words as words;
ghost use Rattle.naga_types.specs.Checks.{ok_unless};

use naga_info::context::FunctionContext;
use naga_info::expression_error::ExpressionError;
use naga_info::type_methods::{component_count, is_integer_scalar};
use naga_ir::handle::Handle;
use naga_ir::tags::ExpressionTag;
use naga_ir::types::{ImageDimension, Scalar, ScalarKind, TypeInner};

/// How many numbers the coordinates of an image of this dimension are.
pub(crate) fn coordinate_count(dim: ImageDimension) -> u8
    ensures { result ≡ rule.coordinate_count dim }
{
    match dim {
        ImageDimension::D1 => 1,
        ImageDimension::D2 => 2,
        ImageDimension::D3 | ImageDimension::Cube => 3,
    }
}

/// Whether a type is `count` scalars of a kind: a scalar if `count` is 1, or a vector.
pub(crate) fn is_of_kind(inner: &TypeInner, count: u8, kind: ScalarKind) -> bool
    ensures { result ≡ rule.is_of_kind count kind inner.now }
{
    match inner.vector_size_and_scalar() {
        Some((size, scalar)) => component_count(size) == count && scalar.kind == kind,
        None => false,
    }
}

/// Whether a type can be the coordinates of samples of an image of this dimension.
pub(crate) fn are_coordinates(inner: &TypeInner, dim: ImageDimension) -> bool
    ensures { result ≡ rule.are_coordinates dim inner.now }
{
    is_of_kind(inner, coordinate_count(dim), ScalarKind::Float)
}

/// Whether a type is an integer of 32 bits.
pub(crate) fn is_index(inner: &TypeInner) -> bool
    ensures { result ≡ rule.is_index inner.now }
{
    match inner.vector_size_and_scalar() {
        Some((None, scalar)) => scalar == Scalar::I32 || scalar == Scalar::U32,
        Some((Some(_), _)) | None => false,
    }
}

/// Checks that an array layer is chosen of an image that has several, and of no other.
fn check_layer(arrayed: bool, has_index: bool) -> Result<(), ExpressionError>
    ensures { result ≡ ok_unless (rule.layer_presence_error arrayed has_index) tt }
{
    if arrayed != has_index {
        return Err(ExpressionError::InvalidImageArrayIndex);
    }
    Ok(())
}

/// Checks the index of the array layer that is sampled, which may be an integer of any width.
pub(crate) fn check_sampled_layer(
    context: FunctionContext<'_>,
    arrayed: bool,
    array_index: Option<Handle<ExpressionTag>>,
) -> Result<(), ExpressionError>
    requires sound { AreSound (surroundings context) }
    requires known { IfSome array_index (λ e. e < length context.info.now.types) }
    ensures { result ≡ ok_unless (rule.layer_error (surroundings context.entry) words.is_integer_scalar arrayed
        array_index) tt }
{
    check_layer(arrayed, array_index.is_some())?;
    match array_index {
        Some(index) if !is_integer_scalar(context.type_of(index)) => {
            Err(ExpressionError::InvalidImageArrayIndexType(index))
        }
        Some(_) | None => Ok(()),
    }
}

/// Checks the index of the array layer of which a texel is loaded: an integer of 32 bits.
pub(crate) fn check_loaded_layer(
    context: FunctionContext<'_>,
    arrayed: bool,
    array_index: Option<Handle<ExpressionTag>>,
) -> Result<(), ExpressionError>
    requires sound { AreSound (surroundings context) }
    requires known { IfSome array_index (λ e. e < length context.info.now.types) }
    ensures { result ≡ ok_unless (rule.layer_error (surroundings context.entry) rule.is_index arrayed array_index) tt }
{
    check_layer(arrayed, array_index.is_some())?;
    match array_index {
        Some(index) if !is_index(context.type_of(index)) => {
            Err(ExpressionError::InvalidImageArrayIndexType(index))
        }
        Some(_) | None => Ok(()),
    }
}
