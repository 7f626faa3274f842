//! The rule of samples of images.

ghost use Rattle.std.specs.Prelude.{◌≡◌, ◌<◌, All, IfSome, length};
ghost use Rattle.naga_image_exprs.specs.Samples as rule;
ghost use Rattle.naga_image_exprs.specs.steps.KnownResources.{CanLookUp};
ghost use Rattle.naga_ir.specs.References.{level_operands};
ghost use Rattle.naga_info.specs.Surroundings.{AreSound, IsReadySomewhere, surroundings};
ghost use Rattle.naga_info.specs.Words.{is_scalar_that};
ghost use Rattle.naga_types.specs.Checks.{ok_unless};
ghost use Rattle.naga_types.specs.TypeRule.{is_integer};

use crate::clamp::{check_clamp, is_filtered};
use crate::coordinates::{are_coordinates, check_sampled_layer, coordinate_count, is_of_kind};
use crate::resource::{ImageType, global_var_ty, image_type, sampler_comparison};
use naga_flags::flags::ShaderStages;
use naga_info::context::{FunctionContext, every_stage};
use naga_info::expression_error::ExpressionError;
use naga_info::type_methods::is_integer_scalar;
use naga_ir::expression::{SampleLevel, SwizzleComponent};
use naga_ir::handle::Handle;
use naga_ir::tags::ExpressionTag;
use naga_ir::types::{ImageClass, ImageDimension, ScalarKind, TypeInner};
use std::alloc::Global;

/// A sample of an image: the fields of `Expression::ImageSample`. Handles are operands.
#[derive(Clone, Copy, Debug)]
pub struct Sample {
    pub image: Handle<ExpressionTag>,
    pub sampler: Handle<ExpressionTag>,
    /// The component that is gathered of four texels, of a gather.
    pub gather: Option<SwizzleComponent>,
    pub coordinate: Handle<ExpressionTag>,
    /// The array layer, of an image that has several.
    pub array_index: Option<Handle<ExpressionTag>>,
    /// By how many texels the coordinates are moved.
    pub offset: Option<Handle<ExpressionTag>>,
    pub level: SampleLevel,
    /// What depths are compared with.
    pub depth_ref: Option<Handle<ExpressionTag>>,
    /// Whether coordinates are clamped to within half a texel of the edges.
    pub clamp_to_edge: bool,
}

/// The image that is sampled, and whether its sampler compares depths.
fn sampled(
    context: FunctionContext<'_>,
    image: Handle<ExpressionTag>,
    sampler: Handle<ExpressionTag>,
) -> Result<(ImageType, bool), ExpressionError>
    requires sound { AreSound (surroundings context) }
    requires image { CanLookUp (surroundings context) image }
    requires sampler { CanLookUp (surroundings context) sampler }
    ensures { result ≡ rule.sampled (surroundings context.entry) image sampler }
{
    let image_ty = global_var_ty(context, image)?;
    let sampler_ty = global_var_ty(context, sampler)?;
    // naga looks at the type of the sampler first, so of two wrong types it is reported.
    let comparison = sampler_comparison(context, sampler_ty)?;
    let image = image_type(context, image_ty)?;
    Ok((image, comparison))
}

/// Whether images of a class can be sampled, or gathered from.
fn can_sample(class: ImageClass, gathers: bool) -> bool
    ensures { result ≡ rule.can_sample class gathers }
{
    match class {
        ImageClass::Sampled { kind, multi: false } => match kind {
            ScalarKind::Float => true,
            // Integers can't be filtered, but a gather returns texels as they are.
            ScalarKind::Sint | ScalarKind::Uint => gathers,
            ScalarKind::Bool | ScalarKind::AbstractInt | ScalarKind::AbstractFloat => false,
        },
        ImageClass::Depth { multi } => !multi,
        ImageClass::External => true,
        ImageClass::Sampled { multi: true, .. } | ImageClass::Storage { .. } => false,
    }
}

/// Checks that images of a class can be sampled, or gathered from.
fn check_class(class: ImageClass, gather: Option<SwizzleComponent>) -> Result<(), ExpressionError>
    ensures { result ≡ ok_unless (rule.class_error class gather) tt }
{
    if !can_sample(class, gather.is_some()) {
        return Err(ExpressionError::InvalidImageClass(class));
    }
    Ok(())
}

/// Whether images of a class hold depths.
fn is_depth(class: ImageClass) -> bool
    ensures { result ≡ rule.is_depth class }
{
    match class {
        ImageClass::Depth { .. } => true,
        ImageClass::Sampled { .. } | ImageClass::Storage { .. } | ImageClass::External => false,
    }
}

/// Checks that the sampler compares exactly if there is a reference, and that then the image holds depths.
fn check_comparison(
    class: ImageClass,
    comparison: bool,
    depth_ref: Option<Handle<ExpressionTag>>,
) -> Result<(), ExpressionError>
    ensures { result ≡ ok_unless (rule.comparison_error class comparison depth_ref) tt }
{
    let has_ref = depth_ref.is_some();
    if comparison != has_ref || comparison && !is_depth(class) {
        return Err(ExpressionError::ComparisonSamplingMismatch {
            image: class,
            sampler: comparison,
            has_ref,
        });
    }
    Ok(())
}

/// Checks that coordinates fit an image of this dimension.
fn check_coordinate(
    context: FunctionContext<'_>,
    dim: ImageDimension,
    coordinate: Handle<ExpressionTag>,
) -> Result<(), ExpressionError>
    requires sound { AreSound (surroundings context) }
    requires known { coordinate < length context.info.now.types }
    ensures { result ≡ ok_unless (rule.coordinate_error (surroundings context.entry) dim coordinate) tt }
{
    if !are_coordinates(context.type_of(coordinate), dim) {
        return Err(ExpressionError::InvalidImageCoordinateType(dim, coordinate));
    }
    Ok(())
}

/// Checks that an offset is known when the shader is compiled, and fits an image of this dimension.
fn check_offset(
    context: FunctionContext<'_>,
    dim: ImageDimension,
    offset: Option<Handle<ExpressionTag>>,
) -> Result<(), ExpressionError>
    requires sound { AreSound (surroundings context) }
    requires known { IfSome offset (λ e. e < length context.info.now.types) }
    requires kind { IfSome offset (λ e. e < length context.kinds.now) }
    ensures { result ≡ ok_unless (rule.sample_offset_error (surroundings context.entry) dim offset) tt }
{
    let Some(offset) = offset else {
        return Ok(());
    };
    // Offsets are part of the instruction, so an override would come too late.
    if !context.kinds.is_const(offset) {
        return Err(ExpressionError::InvalidSampleOffsetExprType);
    }
    let count = coordinate_count(dim);
    if !is_of_kind(context.type_of(offset), count, ScalarKind::Sint) {
        return Err(ExpressionError::InvalidSampleOffset(dim, offset));
    }
    Ok(())
}

/// Checks that depths are compared with a number, at the level `Auto` or `Zero`.
fn check_depth_reference(
    context: FunctionContext<'_>,
    depth_ref: Option<Handle<ExpressionTag>>,
    level: SampleLevel,
) -> Result<(), ExpressionError>
    requires sound { AreSound (surroundings context) }
    requires known { IfSome depth_ref (λ e. e < length context.info.now.types) }
    ensures { result ≡ ok_unless (rule.depth_reference_error (surroundings context.entry) depth_ref level) tt }
{
    let Some(depth_ref) = depth_ref else {
        return Ok(());
    };
    if !is_of_kind(context.type_of(depth_ref), 1, ScalarKind::Float) {
        return Err(ExpressionError::InvalidDepthReference(depth_ref));
    }
    match level {
        SampleLevel::Auto | SampleLevel::Zero => Ok(()),
        SampleLevel::Exact(_) | SampleLevel::Bias(_) | SampleLevel::Gradient { .. } => {
            Err(ExpressionError::InvalidDepthSampleLevel)
        }
    }
}

/// Whether four texels of an image of this dimension can be gathered.
fn can_gather(dim: ImageDimension) -> bool
    ensures { result ≡ rule.can_gather dim }
{
    match dim {
        ImageDimension::D2 | ImageDimension::Cube => true,
        ImageDimension::D1 | ImageDimension::D3 => false,
    }
}

/// Checks that a component can be gathered of an image, at the first level.
fn check_gather(
    image: ImageType,
    gather: Option<SwizzleComponent>,
    level: SampleLevel,
) -> Result<(), ExpressionError>
    ensures { result ≡ ok_unless (rule.gather_error image gather level) tt }
{
    let Some(component) = gather else {
        return Ok(());
    };
    if !can_gather(image.dim) {
        return Err(ExpressionError::InvalidGatherDimension(image.dim));
    }
    if is_depth(image.class) && component != SwizzleComponent::X {
        return Err(ExpressionError::InvalidGatherComponent(component));
    }
    if level != SampleLevel::Zero {
        return Err(ExpressionError::InvalidGatherLevel);
    }
    Ok(())
}

/// Checks that coordinates in an external texture are clamped.
fn check_external(class: ImageClass, clamp_to_edge: bool) -> Result<(), ExpressionError>
    ensures { result ≡ ok_unless (rule.external_error class clamp_to_edge) tt }
{
    if class == ImageClass::External && !clamp_to_edge {
        return Err(ExpressionError::InvalidImageClass(class));
    }
    Ok(())
}

/// Whether levels of an image of a class are numbered by values of a type: levels of depths by integers, and
/// others by floating-point numbers.
fn numbers_levels(class: ImageClass, inner: &TypeInner) -> bool
    ensures { result ≡ rule.numbers_levels class inner.now }
{
    match class {
        // WGSL doesn't mix levels of depths, so a level is numbered by an integer.
        ImageClass::Depth { .. } => is_integer_scalar(inner),
        ImageClass::Sampled { .. } | ImageClass::Storage { .. } | ImageClass::External => {
            is_of_kind(inner, 1, ScalarKind::Float)
        }
    }
}

/// Checks the number of a level.
fn check_exact(
    context: FunctionContext<'_>,
    class: ImageClass,
    level: Handle<ExpressionTag>,
) -> Result<(), ExpressionError>
    requires sound { AreSound (surroundings context) }
    requires known { level < length context.info.now.types }
    ensures { result ≡ ok_unless (rule.exact_level_error (surroundings context.entry) class level) tt }
{
    if !numbers_levels(class, context.type_of(level)) {
        return Err(ExpressionError::InvalidSampleLevelExactType(level));
    }
    Ok(())
}

/// Checks the bias of a level, and that an image of this type has one.
fn check_bias(
    context: FunctionContext<'_>,
    image: ImageType,
    bias: Handle<ExpressionTag>,
) -> Result<(), ExpressionError>
    requires sound { AreSound (surroundings context) }
    requires known { bias < length context.info.now.types }
    ensures { result ≡ ok_unless (rule.bias_error (surroundings context.entry) image bias) tt }
{
    if !is_of_kind(context.type_of(bias), 1, ScalarKind::Float) {
        return Err(ExpressionError::InvalidSampleLevelBiasType(bias));
    }
    if !is_filtered(image.class) {
        return Err(ExpressionError::InvalidImageClass(image.class));
    }
    // A 1D image has only one level, which a bias can't change.
    if image.dim == ImageDimension::D1 {
        return Err(ExpressionError::InvalidSampleLevelBiasDimension(image.dim));
    }
    Ok(())
}

/// Checks one of the derivatives of the coordinates.
fn check_derivative(
    context: FunctionContext<'_>,
    dim: ImageDimension,
    derivative: Handle<ExpressionTag>,
) -> Result<(), ExpressionError>
    requires sound { AreSound (surroundings context) }
    requires known { derivative < length context.info.now.types }
    ensures { result ≡ ok_unless (rule.gradient_error (surroundings context.entry) dim derivative) tt }
{
    if !are_coordinates(context.type_of(derivative), dim) {
        return Err(ExpressionError::InvalidSampleLevelGradientType(dim, derivative));
    }
    Ok(())
}

/// Checks what the level is given by.
fn check_level(
    context: FunctionContext<'_>,
    image: ImageType,
    level: SampleLevel,
) -> Result<(), ExpressionError>
    requires sound { AreSound (surroundings context) }
    requires known { All (λ e. e < length context.info.now.types) (level_operands level) }
    ensures { result ≡ ok_unless (rule.level_error (surroundings context.entry) image level) tt }
{
    match level {
        SampleLevel::Auto | SampleLevel::Zero => Ok(()),
        SampleLevel::Exact(level) => check_exact(context, image.class, level),
        SampleLevel::Bias(bias) => check_bias(context, image, bias),
        SampleLevel::Gradient { x, y } => {
            check_derivative(context, image.dim, x)?;
            check_derivative(context, image.dim, y)
        }
    }
}

/// The stages that may sample at a level: only fragments have the derivatives that choose one.
fn level_stages(level: SampleLevel) -> ShaderStages
    ensures { result ≡ rule.level_stages level }
{
    match level {
        SampleLevel::Auto | SampleLevel::Bias(_) => ShaderStages::FRAGMENT,
        SampleLevel::Zero | SampleLevel::Exact(_) | SampleLevel::Gradient { .. } => every_stage(),
    }
}

/// The stages that may use a sample of an image (WGSL "textureSample", "textureGather" and their like).
///
/// Accepting takes no memory.
///
/// # Errors
///
/// - `ExpectedGlobalVariable` if the image or the sampler is not a variable of the module, an argument, or an
///   element of such a variable. `ExpectedBindingArrayType` if it is an element of a variable that is not
///   a binding array.
/// - `ExpectedSamplerType`, `ExpectedImageType` if it is something else.
/// - `InvalidImageArrayIndex` if the image has array layers and none is chosen, or the other way round.
///   `InvalidImageArrayIndexType` if the index of the array layer is not an integer.
/// - `InvalidImageClass` if the image can't be sampled: it is multisampled, or a storage image, or holds
///   integers, which can only be gathered, or bools or abstract numbers.
/// - `ComparisonSamplingMismatch` if there is a reference and the sampler doesn't compare, or there is none
///   and it does, or it compares and the image holds no depths.
/// - `InvalidImageCoordinateType` if the coordinates are not as many floating-point numbers as the image
///   has dimensions, three in a cube.
/// - `InvalidSampleOffsetExprType` if the offset is not known when the shader is compiled.
///   `InvalidSampleOffset` if it is not as many signed integers.
/// - `InvalidDepthReference` if the reference is not a floating-point number. `InvalidDepthSampleLevel` if
///   depths are compared at another level than `Auto` or `Zero`.
/// - `InvalidGatherDimension` if the image is 1D or 3D, and texels are gathered.
///   `InvalidGatherComponent` if another component of depths is gathered than the first.
///   `InvalidGatherLevel` if they are gathered at another level than `Zero`.
/// - `InvalidSampleClampCoordinateToEdge` if coordinates are clamped, and the image is neither one of
///   floating-point numbers nor an external texture, is not 2D, or texels are gathered, an array layer
///   or an offset is given, the level is not `Zero` or depths are compared. It names the first such.
/// - `InvalidImageClass` if coordinates in an external texture are not clamped.
/// - `InvalidSampleLevelExactType` if the number of the level is not an integer for a depth image, or not a
///   floating-point number for another.
/// - `InvalidSampleLevelBiasType` if the bias is not a floating-point number. `InvalidImageClass` if the image
///   with a bias is one of depths or an external texture. `InvalidSampleLevelBiasDimension` if it is 1D.
/// - `InvalidSampleLevelGradientType` if a derivative is not as many floating-point numbers as the
///   coordinates.
/// - `OutOfMemory` if memory was refused for the text of `InvalidSampleClampCoordinateToEdge`.
pub fn validate_image_sample(
    alloc: Global,
    context: FunctionContext<'_>,
    sample: &Sample,
) -> Result<ShaderStages, ExpressionError>
    requires { IsReadySomewhere (surroundings context) (rule.expression_of sample.now) }
    ensures { rule.IsImageSampleResult (surroundings context.entry) sample.now result }
{
    let (image, comparison) = sampled(context, sample.image, sample.sampler)?;
    // The order is naga's, and decides which of several errors is reported.
    check_sampled_layer(context, image.arrayed, sample.array_index)?;
    check_class(image.class, sample.gather)?;
    check_comparison(image.class, comparison, sample.depth_ref)?;
    check_coordinate(context, image.dim, sample.coordinate)?;
    check_offset(context, image.dim, sample.offset)?;
    check_depth_reference(context, sample.depth_ref, sample.level)?;
    check_gather(image, sample.gather, sample.level)?;
    check_clamp(alloc, image, sample)?;
    check_external(image.class, sample.clamp_to_edge)?;
    check_level(context, image, sample.level)?;
    Ok(level_stages(sample.level))
}
