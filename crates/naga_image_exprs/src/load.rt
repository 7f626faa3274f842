//! The rule of loads of texels.

ghost use Rattle.std.specs.Prelude.{◌≡◌, ◌<◌, IfSome, length};
ghost use Rattle.naga_image_exprs.specs.Loads as rule;
ghost use Rattle.naga_ir.specs.declared.expression.Expression.TheVariants as form;
ghost use Rattle.naga_ir.specs.TypeWords.{is_mipmapped, is_multisampled};
ghost use Rattle.naga_info.specs.Surroundings.{AreSound, IsReadySomewhere, surroundings};
ghost use Rattle.naga_types.specs.Checks.{ok_unless};

use crate::coordinates::{check_loaded_layer, is_index};
use crate::resource::image_at;
use naga_flags::flags::ShaderStages;
use naga_info::context::{FunctionContext, every_stage};
use naga_info::expression_error::ExpressionError;
use naga_info::type_methods::is_integer_scalar;
use naga_ir::handle::Handle;
use naga_ir::tags::ExpressionTag;
use naga_ir::types::{ImageClass, ImageDimension};
use naga_types::type_methods::image_storage_coordinates;

/// Checks that coordinates, in texels, fit an image of this dimension.
fn check_coordinate(
    context: FunctionContext<'_>,
    dim: ImageDimension,
    coordinate: Handle<ExpressionTag>,
) -> Result<(), ExpressionError>
    requires sound { AreSound (surroundings context) }
    requires known { coordinate < length context.info.now.types }
    ensures { result ≡ ok_unless (rule.coordinate_error (surroundings context.entry) dim coordinate) tt }
{
    // No type is the coordinates of a cube, so nothing is loaded from one.
    match image_storage_coordinates(context.type_of(coordinate)) {
        Some(found) if found == dim => Ok(()),
        Some(_) | None => Err(ExpressionError::InvalidImageCoordinateType(dim, coordinate)),
    }
}

/// Checks that a sample is chosen of a multisampled image, by an integer of 32 bits, and of no other.
fn check_sample(
    context: FunctionContext<'_>,
    class: ImageClass,
    sample: Option<Handle<ExpressionTag>>,
) -> Result<(), ExpressionError>
    requires sound { AreSound (surroundings context) }
    requires known { IfSome sample (λ e. e < length context.info.now.types) }
    ensures { result ≡ ok_unless (rule.sample_index_error (surroundings context.entry) (is_multisampled class)
        sample) tt }
{
    match (sample, class.is_multisampled()) {
        (None, false) => Ok(()),
        (Some(sample), true) => {
            if !is_index(context.type_of(sample)) {
                return Err(ExpressionError::InvalidImageOtherIndexType(sample));
            }
            Ok(())
        }
        (Some(_), false) => Err(ExpressionError::InvalidImageSampleSelector),
        (None, true) => Err(ExpressionError::MissingImageSampleSelector),
    }
}

/// Checks that a level is chosen of an image that may have several, by an integer, and of no other.
fn check_level(
    context: FunctionContext<'_>,
    class: ImageClass,
    level: Option<Handle<ExpressionTag>>,
) -> Result<(), ExpressionError>
    requires sound { AreSound (surroundings context) }
    requires known { IfSome level (λ e. e < length context.info.now.types) }
    ensures { result ≡ ok_unless (rule.level_error (surroundings context.entry) (is_mipmapped class) level) tt }
{
    match (level, class.is_mipmapped()) {
        (None, false) => Ok(()),
        (Some(level), true) => {
            if !is_integer_scalar(context.type_of(level)) {
                return Err(ExpressionError::InvalidImageArrayIndexType(level));
            }
            Ok(())
        }
        (Some(_), false) => Err(ExpressionError::InvalidImageLevelSelector),
        (None, true) => Err(ExpressionError::MissingImageLevelSelector),
    }
}

/// The stages that may use a load of a texel (WGSL "textureLoad").
///
/// # Errors
///
/// - `ExpectedGlobalVariable` if what is loaded from is not a variable of the module, an argument, or an
///   element of such a variable. `ExpectedBindingArrayType` if it is an element of a variable that is not
///   a binding array.
/// - `ExpectedImageType` if it is not an image.
/// - `InvalidImageCoordinateType` if the coordinates are not as many integers as the image has dimensions.
///   Nothing is loaded from cubes.
/// - `InvalidImageArrayIndex` if the image has array layers and none is chosen, or the other way round.
///   `InvalidImageArrayIndexType` if the index of the array layer is not an integer of 32 bits.
/// - `InvalidImageSampleSelector` if a sample is chosen of an image that isn't multisampled, and
///   `MissingImageSampleSelector` if none is chosen of one that is. `InvalidImageOtherIndexType` if the
///   index of the sample is not an integer of 32 bits.
/// - `InvalidImageLevelSelector` if a level is chosen of an image that can't have several, and
///   `MissingImageLevelSelector` if none is chosen of one that can. `InvalidImageArrayIndexType` if the
///   number of the level is not an integer.
pub fn validate_image_load(
    context: FunctionContext<'_>,
    image: Handle<ExpressionTag>,
    coordinate: Handle<ExpressionTag>,
    array_index: Option<Handle<ExpressionTag>>,
    sample: Option<Handle<ExpressionTag>>,
    level: Option<Handle<ExpressionTag>>,
) -> Result<ShaderStages, ExpressionError>
    requires { IsReadySomewhere (surroundings context) (form.ImageLoad image coordinate array_index sample level) }
    ensures { result ≡ rule.image_load_rule (surroundings context.entry) image coordinate array_index sample level }
{
    let found = image_at(context, image)?;
    // naga checks the coordinates before the array layer here, unlike in a sample.
    check_coordinate(context, found.dim, coordinate)?;
    check_loaded_layer(context, found.arrayed, array_index)?;
    check_sample(context, found.class, sample)?;
    check_level(context, found.class, level)?;
    Ok(every_stage())
}
