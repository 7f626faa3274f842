//! The rule of mathematical functions.

ghost use Rattle.std.specs.Prelude.{◌≡◌, ◌↔◌, ◌≤◌, IsTrue, None, Ok, length, map, option_map};
ghost use Rattle.naga_ir.specs.declared.expression.Expression.TheVariants as form;
ghost use Rattle.naga_exprs.specs.Math as rule;
ghost use Rattle.naga_exprs.specs.Math.{argument_checks, first_argument_error, math_rule, math_typing};
ghost use Rattle.naga_info.specs.Stages as stages;
ghost use Rattle.naga_info.specs.Surroundings.{IsReadySomewhere, surroundings};
ghost use Rattle.naga_info.specs.declared.expression_error.ExpressionError.TheVariants as refusal;
ghost use Rattle.naga_types.specs.Checks.{ok_unless, first_error_or};

use bitflags::Flags;
use naga_flags::flags::{Capabilities, ShaderStages};
use naga_info::context::{FunctionContext, every_stage};
use naga_info::expression_error::ExpressionError;
use naga_ir::expression::MathFunction;
use naga_ir::handle::Handle;
use naga_ir::tags::ExpressionTag;
use naga_ir::types::TypeInner;
use naga_typing::typing::Typing;

/// Whether a function keeps floating-point numbers of 16 bits in ones of 32.
#[tactic(auto, unfolding(crate::specs::Math::keeps_float16))]
fn keeps_halves(fun: MathFunction) -> bool
    ensures { result ≡ rule.keeps_float16 fun }
{
    matches!(
        fun,
        MathFunction::QuantizeToF16 | MathFunction::Pack2x16float | MathFunction::Unpack2x16float
    )
}

/// Whether the capability of a function is given, if it needs one.
fn has_capability(capabilities: Capabilities, fun: MathFunction) -> bool
    ensures { IsTrue result ↔ (rule.float16_error capabilities.0 fun ≡ None) }
{
    // These need no type of 16 bits, only halves within 32 bits: a capability of its own.
    !keeps_halves(fun) || capabilities.contains(Capabilities::SHADER_FLOAT16_IN_FLOAT32)
}

/// Checks that the capability of a function is given, if it needs one.
fn check_capability(capabilities: Capabilities, fun: MathFunction) -> Result<(), ExpressionError>
    ensures { result ≡ ok_unless (rule.float16_error capabilities.0 fun) tt }
{
    if !has_capability(capabilities, fun) {
        let needed = Capabilities::SHADER_FLOAT16_IN_FLOAT32;
        return Err(ExpressionError::MissingCapabilities(needed));
    }
    Ok(())
}

/// The first of some arguments, with its index, that a function doesn't take. The arguments have these types.
fn first_refused<T: Typing>(
    typing: &T,
    fun: MathFunction,
    arguments: &[Handle<ExpressionTag>],
    types: &[&TypeInner],
) -> Option<(u32, Handle<ExpressionTag>)>
    requires typed { length arguments.now ≡ length types.now }
    requires few { length arguments.now ≤ 4 }
    ensures { option_map (λ refused. refusal.InvalidArgumentType fun refused.0 refused.1) result
        ≡ first_argument_error (math_typing (T.accepts_types typing.now) (T.least_arguments typing.now)) fun
        (map (λ t. t.now) types.now) arguments.now }
{
    for (index, argument) in arguments.iter().enumerate() {
        if !typing.accepts(fun, &types[..index + 1]) {
            return Some((index as u32, *argument));
        }
    }
    None
}

/// The stages that may use a function of these arguments, which have these types.
fn validate_arguments<T: Typing>(
    typing: &T,
    fun: MathFunction,
    arguments: &[Handle<ExpressionTag>],
    types: &[&TypeInner],
) -> Result<ShaderStages, ExpressionError>
    requires typed { length arguments.now ≡ length types.now }
    requires few { length arguments.now ≤ 4 }
    ensures { result ≡ first_error_or
        (argument_checks (math_typing (T.accepts_types typing.now) (T.least_arguments typing.now)) fun
        (map (λ t. t.now) types.now) arguments.now) stages.every_stage }
{
    if let Some((index, argument)) = first_refused(typing, fun, arguments, types) {
        return Err(ExpressionError::InvalidArgumentType(fun, index, argument));
    }
    // The arguments decide which overloads are left, and with them how many are required.
    if types.len() < typing.min_arguments(fun, types) {
        return Err(ExpressionError::WrongArgumentCount(fun));
    }
    Ok(every_stage())
}

/// The stages that may use a mathematical function (WGSL "Numeric Built-in Functions" and those after
/// it).
///
/// # Errors
///
/// - `MissingCapabilities` if the function keeps floating-point numbers of 16 bits in ones of 32, and that
///   capability isn't given.
/// - `WrongArgumentCount` if an argument is left out before another, or there are fewer than the typing
///   requires.
/// - `InvalidArgumentType` of the first argument for which the typing doesn't accept the types up to its
///   own.
pub fn validate_math<T: Typing>(
    context: FunctionContext<'_>,
    typing: &T,
    fun: MathFunction,
    arg: Handle<ExpressionTag>,
    arg1: Option<Handle<ExpressionTag>>,
    arg2: Option<Handle<ExpressionTag>>,
    arg3: Option<Handle<ExpressionTag>>,
) -> Result<ShaderStages, ExpressionError>
    requires { IsReadySomewhere (surroundings context) (form.Math fun arg arg1 arg2 arg3) }
    ensures { result ≡ math_rule (math_typing (T.accepts_types typing.now) (T.least_arguments typing.now))
        (surroundings context.entry) fun arg arg1 arg2 arg3 }
{
    check_capability(context.capabilities, fun)?;
    let first = context.type_of(arg);
    match (arg1, arg2, arg3) {
        (None, None, None) => validate_arguments(typing, fun, &[arg], &[first]),
        (Some(arg1), None, None) => {
            let types = [first, context.type_of(arg1)];
            validate_arguments(typing, fun, &[arg, arg1], &types)
        }
        (Some(arg1), Some(arg2), None) => {
            let types = [first, context.type_of(arg1), context.type_of(arg2)];
            validate_arguments(typing, fun, &[arg, arg1, arg2], &types)
        }
        (Some(arg1), Some(arg2), Some(arg3)) => {
            let (second, third) = (context.type_of(arg1), context.type_of(arg2));
            let types = [first, second, third, context.type_of(arg3)];
            validate_arguments(typing, fun, &[arg, arg1, arg2, arg3], &types)
        }
        (None, Some(_), _) | (None, None, Some(_)) | (Some(_), None, Some(_)) => {
            Err(ExpressionError::WrongArgumentCount(fun))
        }
    }
}

/// Whether every stage may use a function of these arguments, which have these types.
fn admits_arguments<T: Typing>(
    typing: &T,
    fun: MathFunction,
    arguments: &[Handle<ExpressionTag>],
    types: &[&TypeInner],
) -> bool
    requires typed { length arguments.now ≡ length types.now }
    requires few { length arguments.now ≤ 4 }
    ensures { IsTrue result ↔ (first_error_or
        (argument_checks (math_typing (T.accepts_types typing.now) (T.least_arguments typing.now)) fun
        (map (λ t. t.now) types.now) arguments.now) stages.every_stage ≡ Ok stages.every_stage) }
{
    first_refused(typing, fun, arguments, types).is_none()
        && typing.min_arguments(fun, types) <= types.len()
}

/// Whether every stage may use a mathematical function: whether `validate_math` accepts it. It makes no
/// `ExpressionError`.
pub(crate) fn admits_math<T: Typing>(
    context: FunctionContext<'_>,
    typing: &T,
    fun: MathFunction,
    arg: Handle<ExpressionTag>,
    arg1: Option<Handle<ExpressionTag>>,
    arg2: Option<Handle<ExpressionTag>>,
    arg3: Option<Handle<ExpressionTag>>,
) -> bool
    requires { IsReadySomewhere (surroundings context) (form.Math fun arg arg1 arg2 arg3) }
    ensures { IsTrue result ↔ (math_rule (math_typing (T.accepts_types typing.now) (T.least_arguments typing.now))
        (surroundings context.entry) fun arg arg1 arg2 arg3 ≡ Ok stages.every_stage) }
{
    if !has_capability(context.capabilities, fun) {
        return false;
    }
    let first = context.type_of(arg);
    match (arg1, arg2, arg3) {
        (None, None, None) => admits_arguments(typing, fun, &[arg], &[first]),
        (Some(second), None, None) => {
            let types = [first, context.type_of(second)];
            admits_arguments(typing, fun, &[arg, second], &types)
        }
        (Some(second), Some(third), None) => {
            let types = [first, context.type_of(second), context.type_of(third)];
            admits_arguments(typing, fun, &[arg, second, third], &types)
        }
        (Some(second), Some(third), Some(fourth)) => {
            let second_type = context.type_of(second);
            let third_type = context.type_of(third);
            let types = [first, second_type, third_type, context.type_of(fourth)];
            admits_arguments(typing, fun, &[arg, second, third, fourth], &types)
        }
        (None, Some(_), _) | (None, None, Some(_)) | (Some(_), None, Some(_)) => false,
    }
}
