//! The rule of queries of images.

ghost use Rattle.std.specs.Prelude.{◌≡◌, ◌<◌, All, length};
ghost use Rattle.naga_image_exprs.specs.Queries as rule;
ghost use Rattle.naga_ir.specs.References.{query_operands};
ghost use Rattle.naga_ir.specs.declared.expression.Expression.TheVariants as form;
ghost use Rattle.naga_info.specs.Surroundings.{AreSound, IsReadySomewhere, surroundings};
ghost use Rattle.naga_types.specs.Checks.{ok_unless};

use crate::coordinates::is_index;
use crate::resource::{ImageType, image_at};
use naga_flags::flags::ShaderStages;
use naga_info::context::{FunctionContext, every_stage};
use naga_info::expression_error::ExpressionError;
use naga_ir::expression::ImageQuery;
use naga_ir::handle::Handle;
use naga_ir::tags::ExpressionTag;

/// Checks that the size of a level is only queried of an image that may have several, and by an integer of 32
/// bits.
fn check_level(
    context: FunctionContext<'_>,
    image: ImageType,
    level: Handle<ExpressionTag>,
) -> Result<(), ExpressionError>
    requires sound { AreSound (surroundings context) }
    requires known { level < length context.info.now.types }
    ensures { result ≡ ok_unless (rule.level_error (surroundings context.entry) image level) tt }
{
    // naga looks at the type of the level before it looks at the image.
    if !is_index(context.type_of(level)) {
        return Err(ExpressionError::InvalidImageOtherIndexType(level));
    }
    if !image.class.is_mipmapped() {
        return Err(ExpressionError::InvalidImageClass(image.class));
    }
    Ok(())
}

/// Checks that an image has the property that is queried.
fn check_query(
    context: FunctionContext<'_>,
    image: ImageType,
    query: ImageQuery,
) -> Result<(), ExpressionError>
    requires sound { AreSound (surroundings context) }
    requires known { All (λ e. e < length context.info.now.types) (query_operands query) }
    ensures { result ≡ ok_unless (rule.query_error (surroundings context.entry) image query) tt }
{
    let has_property = match query {
        ImageQuery::Size { level: None } => true,
        ImageQuery::Size { level: Some(level) } => return check_level(context, image, level),
        ImageQuery::NumLevels => image.class.is_mipmapped(),
        ImageQuery::NumLayers => image.arrayed,
        ImageQuery::NumSamples => image.class.is_multisampled(),
    };
    if !has_property {
        return Err(ExpressionError::InvalidImageClass(image.class));
    }
    Ok(())
}

/// The stages that may use a query of an image: its size, or the number of its levels, array layers or
/// samples (WGSL "textureDimensions", "textureNumLevels", "textureNumLayers" and "textureNumSamples").
///
/// # Errors
///
/// - `ExpectedGlobalVariable` if what is queried is not a variable of the module, an argument, or an
///   element of such a variable. `ExpectedBindingArrayType` if it is an element of a variable that is not
///   a binding array.
/// - `ExpectedImageType` if it is not an image.
/// - `InvalidImageOtherIndexType` if the level whose size is queried is not an integer of 32 bits.
/// - `InvalidImageClass` if levels are queried of an image that can't have several, array layers of one that
///   isn't arrayed, or samples of one that isn't multisampled.
pub fn validate_image_query(
    context: FunctionContext<'_>,
    image: Handle<ExpressionTag>,
    query: ImageQuery,
) -> Result<ShaderStages, ExpressionError>
    requires { IsReadySomewhere (surroundings context) (form.ImageQuery image query) }
    ensures { result ≡ rule.image_query_rule (surroundings context.entry) image query }
{
    let found = image_at(context, image)?;
    check_query(context, found, query)?;
    Ok(every_stage())
}
