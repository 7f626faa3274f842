//! The images and samplers that operands stand for.

ghost use Rattle.std.specs.Prelude.{◌≡◌, ◌<◌, IfOk, length};
ghost use Rattle.naga_image_exprs.specs.Resources as rule;
ghost use Rattle.naga_image_exprs.specs.steps.KnownResources.{CanLookUp};
ghost use Rattle.naga_info.specs.Surroundings.{AreSound, surroundings};

use naga_info::context::FunctionContext;
use naga_info::expression_error::ExpressionError;
use naga_ir::expression::Expression;
use naga_ir::handle::Handle;
use naga_ir::tags::{ExpressionTag, GlobalVariableTag, TypeTag};
use naga_ir::types::{ImageClass, ImageDimension, TypeInner};

/// What the rules of images read of the type of one.
#[derive(Clone, Copy, Debug)]
pub struct ImageType {
    pub dim: ImageDimension,
    /// Whether it has several array layers.
    pub arrayed: bool,
    /// What it holds.
    pub class: ImageClass,
}

/// The type of the bindings of a variable of the module, which has to be a binding array.
fn binding_type(
    context: FunctionContext<'_>,
    variable: Handle<GlobalVariableTag>,
) -> Result<Handle<TypeTag>, ExpressionError>
    requires sound { AreSound (surroundings context) }
    requires exists { variable < length context.«module».now.global_variables }
    ensures value { result ≡ rule.element_of_variable (surroundings context.entry) variable }
    ensures exists { IfOk result (λ ty. ty < length context.entry.«module».now.types) }
{
    let array = context.module.global_variables[variable].ty;
    match &context.module.types[array].inner {
        TypeInner::BindingArray { base, .. } => Ok(*base),
        TypeInner::Scalar(_)
        | TypeInner::Vector { .. }
        | TypeInner::Matrix { .. }
        | TypeInner::CooperativeMatrix { .. }
        | TypeInner::Atomic(_)
        | TypeInner::Pointer { .. }
        | TypeInner::ValuePointer { .. }
        | TypeInner::Array { .. }
        | TypeInner::Struct { .. }
        | TypeInner::Image { .. }
        | TypeInner::Sampler { .. }
        | TypeInner::AccelerationStructure { .. }
        | TypeInner::RayQuery { .. } => Err(ExpressionError::ExpectedBindingArrayType(array)),
    }
}

/// The type of an element of what an expression stands for, which has to be a variable of the module.
fn element_type(
    context: FunctionContext<'_>,
    base: Handle<ExpressionTag>,
) -> Result<Handle<TypeTag>, ExpressionError>
    requires sound { AreSound (surroundings context) }
    requires exists { base < length context.function.now.expressions }
    ensures value { result ≡ rule.element_type (surroundings context.entry) base }
    ensures exists { IfOk result (λ ty. ty < length context.entry.«module».now.types) }
{
    // Binding arrays can't be passed to functions, so arguments have no elements.
    match context.function.expressions[base] {
        Expression::GlobalVariable(variable) => binding_type(context, variable),
        _ => Err(ExpressionError::ExpectedGlobalVariable),
    }
}

/// The type of the image or sampler that an expression stands for (naga's `global_var_ty`): a variable of
/// the module, an argument, or an element of such a variable.
///
/// # Errors
///
/// - `ExpectedBindingArrayType` if an element is taken of a variable that is not a binding array.
/// - `ExpectedGlobalVariable` if the expression is none of these.
pub(crate) fn global_var_ty(
    context: FunctionContext<'_>,
    expression: Handle<ExpressionTag>,
) -> Result<Handle<TypeTag>, ExpressionError>
    requires sound { AreSound (surroundings context) }
    requires known { CanLookUp (surroundings context) expression }
    ensures value { result ≡ rule.resource_type (surroundings context.entry) expression }
    ensures exists { IfOk result (λ ty. ty < length context.entry.«module».now.types) }
{
    match context.function.expressions[expression] {
        Expression::GlobalVariable(variable) => Ok(context.module.global_variables[variable].ty),
        Expression::FunctionArgument(index) => {
            Ok(context.function.arguments.as_slice()[index as usize].ty)
        }
        Expression::Access { base, .. } | Expression::AccessIndex { base, .. } => {
            element_type(context, base)
        }
        _ => Err(ExpressionError::ExpectedGlobalVariable),
    }
}

/// Dimension, `arrayed` and class of a type of the module, if it is an image.
///
/// # Errors
///
/// `ExpectedImageType` if it is not an image.
pub(crate) fn image_type(
    context: FunctionContext<'_>,
    ty: Handle<TypeTag>,
) -> Result<ImageType, ExpressionError>
    requires { ty < length context.«module».now.types }
    ensures { result ≡ rule.image_type (surroundings context.entry) ty }
{
    match context.module.types[ty].inner {
        TypeInner::Image {
            dim,
            arrayed,
            class,
        } => Ok(ImageType {
            dim,
            arrayed,
            class,
        }),
        TypeInner::Scalar(_)
        | TypeInner::Vector { .. }
        | TypeInner::Matrix { .. }
        | TypeInner::CooperativeMatrix { .. }
        | TypeInner::Atomic(_)
        | TypeInner::Pointer { .. }
        | TypeInner::ValuePointer { .. }
        | TypeInner::Array { .. }
        | TypeInner::Struct { .. }
        | TypeInner::Sampler { .. }
        | TypeInner::AccelerationStructure { .. }
        | TypeInner::RayQuery { .. }
        | TypeInner::BindingArray { .. } => Err(ExpressionError::ExpectedImageType(ty)),
    }
}

/// Whether the sampler of a type of the module compares depths.
///
/// # Errors
///
/// `ExpectedSamplerType` if it is not the type of a sampler.
pub(crate) fn sampler_comparison(
    context: FunctionContext<'_>,
    ty: Handle<TypeTag>,
) -> Result<bool, ExpressionError>
    requires { ty < length context.«module».now.types }
    ensures { result ≡ rule.sampler_comparison (surroundings context.entry) ty }
{
    match context.module.types[ty].inner {
        TypeInner::Sampler { comparison } => Ok(comparison),
        TypeInner::Scalar(_)
        | TypeInner::Vector { .. }
        | TypeInner::Matrix { .. }
        | TypeInner::CooperativeMatrix { .. }
        | TypeInner::Atomic(_)
        | TypeInner::Pointer { .. }
        | TypeInner::ValuePointer { .. }
        | TypeInner::Array { .. }
        | TypeInner::Struct { .. }
        | TypeInner::Image { .. }
        | TypeInner::AccelerationStructure { .. }
        | TypeInner::RayQuery { .. }
        | TypeInner::BindingArray { .. } => Err(ExpressionError::ExpectedSamplerType(ty)),
    }
}

/// The type of the image that an expression stands for.
///
/// # Errors
///
/// The errors of `global_var_ty`, and `ExpectedImageType` if the expression doesn't stand for an image.
pub(crate) fn image_at(
    context: FunctionContext<'_>,
    image: Handle<ExpressionTag>,
) -> Result<ImageType, ExpressionError>
    requires sound { AreSound (surroundings context) }
    requires known { CanLookUp (surroundings context) image }
    ensures { result ≡ rule.image_at (surroundings context.entry) image }
{
    let ty = global_var_ty(context, image)?;
    image_type(context, ty)
}
