//! The rules of literals and of global expressions (naga's `validate_literal` and
//! `validate_const_expression`).

ghost use Rattle.std.specs.Prelude.{◌≡◌, ◌<◌, ◌≤◌, ◌||◌, [], ◌∷◌, All, IfSome, Some, length, slice_get};
ghost use Rattle.naga_exprs.specs.ConstExpression.{const_expression_rule, form_checks, is_scalar, literal_rule, surroundings};
ghost use Rattle.naga_info.specs.declared.const_expression_error.ConstExpressionError.TheVariants as refusal;
ghost use Rattle.naga_ir.specs.Handles.{GlobalReferencesOk};
ghost use Rattle.naga_types.specs.Checks.{ok_unless, first_error_or, when, require};
ghost use Rattle.naga_typing.specs.Context.{lists_of};
ghost use Rattle.naga_typing.specs.Kinds.{is_const, is_const_or_override};
ghost use Rattle.naga_typing.specs.Resolutions.{TypesExist, inner_in};

use naga_flags::flags::Capabilities;
use naga_flags::width::check_width;
use naga_info::const_expression_error::{ConstExpressionError, LiteralError};
use naga_info::context::ExprContext;
use naga_info::module_info::ModuleInfo;
use naga_ir::expression::Literal;
use naga_ir::handle::Handle;
use naga_ir::origin::Origin;
use naga_ir::tags::ExpressionTag;
use naga_ir::types::TypeInner;
use naga_ir::unique_arena::UniqueArena;
use naga_types::compose::validate_compose_at;
use naga_typing::context::GlobalCtx;
use naga_typing::expression_kind::ExpressionKindTracker;
use naga_typing::typifier::TypeResolution;
use naga_typing::typing::Typing;

/// Checks that literals of this type are allowed under `capabilities`.
///
/// # Errors
///
/// `Width` if the width of the literal's scalar is refused.
pub fn validate_literal(capabilities: Capabilities, literal: Literal) -> Result<(), LiteralError>
    ensures { result ≡ literal_rule capabilities.0 literal }
{
    // Whether immediates may hold such a scalar does not matter to literals.
    let _immediates = check_width(capabilities, literal.scalar())?;
    Ok(())
}

/// Checks that the value of an expression is known before the shader runs.
fn check_known(
    handle: Handle<ExpressionTag>,
    kinds: &ExpressionKindTracker,
) -> Result<(), ConstExpressionError>
    requires { handle < length kinds.now }
    ensures { result ≡ ok_unless (require (is_const_or_override (slice_get kinds.now handle))
        refusal.NonConstOrOverride) tt }
{
    if kinds.is_const_or_override(handle) {
        return Ok(());
    }
    Err(ConstExpressionError::NonConstOrOverride)
}

/// Checks that an expression whose value is still to be computed may be so.
fn check_evaluated(
    overrides_resolved: bool,
    handle: Handle<ExpressionTag>,
    kinds: &ExpressionKindTracker,
) -> Result<(), ConstExpressionError>
    requires { handle < length kinds.now }
    ensures { result ≡ first_error_or
        (when (overrides_resolved || is_const (slice_get kinds.now handle)) (Some refusal.NonFullyEvaluatedConst)
        ∷ []) tt }
{
    // Front ends evaluate all else, so only what waits for overrides may be left (naga).
    if overrides_resolved || kinds.is_const(handle) {
        return Err(ConstExpressionError::NonFullyEvaluatedConst);
    }
    Ok(())
}

/// Checks that the operand of a splat, which has this type, is a scalar.
fn check_splat(
    value: Handle<ExpressionTag>,
    resolution: &TypeResolution,
    types: &UniqueArena,
) -> Result<(), ConstExpressionError>
    requires { TypesExist types.now resolution.now }
    ensures { result ≡ first_error_or
        (require (is_scalar (inner_in types.now resolution.now)) (refusal.InvalidSplatType value) ∷ []) tt }
{
    match resolution.inner_with(types) {
        TypeInner::Scalar(_) => Ok(()),
        TypeInner::Vector { .. }
        | TypeInner::Matrix { .. }
        | TypeInner::CooperativeMatrix { .. }
        | TypeInner::Atomic(_)
        | TypeInner::Pointer { .. }
        | TypeInner::ValuePointer { .. }
        | TypeInner::Array { .. }
        | TypeInner::Struct { .. }
        | TypeInner::Image { .. }
        | TypeInner::Sampler { .. }
        | TypeInner::AccelerationStructure { .. }
        | TypeInner::RayQuery { .. }
        | TypeInner::BindingArray { .. } => Err(ConstExpressionError::InvalidSplatType(value)),
    }
}

/// Checks that a global expression keeps the conditions of its variant.
fn check_form<T: Typing>(
    ctx: ExprContext<'_, T>,
    handle: Handle<ExpressionTag>,
    gctx: GlobalCtx<'_>,
    mod_info: &ModuleInfo,
    kinds: &ExpressionKindTracker,
) -> Result<(), ConstExpressionError>
    requires exists { handle < length gctx.global_expressions.now }
    requires references { GlobalReferencesOk (lists_of gctx) }
    requires kinds { handle < length kinds.now }
    requires typed { handle ≤ length mod_info.now.lists.const_expression_types }
    requires types { All (TypesExist gctx.types.now) mod_info.now.lists.const_expression_types }
    ensures { IfSome (slice_get gctx.entry.global_expressions.now handle) (λ x. result ≡ first_error_or
        (form_checks (surroundings ctx.entry gctx.entry mod_info.now.lists.const_expression_types kinds.now)
        handle x) tt) }
{
    let expression = &gctx.global_expressions[handle];
    match expression.origin() {
        Origin::Literal(literal) => Ok(validate_literal(ctx.capabilities, literal)?),
        Origin::Constant(_) | Origin::ZeroValue(_) => Ok(()),
        Origin::Compose(ty) => {
            let types = mod_info.const_expression_types();
            Ok(validate_compose_at(ty, gctx, expression.components(), types)?)
        }
        Origin::Splat(value) => check_splat(value, &mod_info[value], gctx.types),
        Origin::Override(_) | Origin::Computed | Origin::Runtime => {
            check_evaluated(ctx.overrides_resolved, handle, kinds)
        }
    }
}

/// Checks a global expression, of which the operands are accepted.
///
/// Its value has to be known before the shader runs. Literals have to be allowed, compositions have to
/// fit, and only scalars are splatted. Constants and zero values are accepted. All other variants are
/// accepted only while they depend on overrides that need no values yet.
///
/// # Errors
///
/// - `NonConstOrOverride` if the value is known only when the shader runs.
/// - `Literal` if a literal is refused.
/// - `Compose` if a value can't be composed of its components.
/// - `InvalidSplatType` if the operand of a splat is not a scalar.
/// - `NonFullyEvaluatedConst` if an expression of another variant is const, or overrides must have their
///   values.
pub fn validate_const_expression<T: Typing>(
    ctx: ExprContext<'_, T>,
    handle: Handle<ExpressionTag>,
    gctx: GlobalCtx<'_>,
    mod_info: &ModuleInfo,
    kinds: &ExpressionKindTracker,
) -> Result<(), ConstExpressionError>
    requires exists { handle < length gctx.global_expressions.now }
    requires references { GlobalReferencesOk (lists_of gctx) }
    requires kinds { handle < length kinds.now }
    requires typed { handle ≤ length mod_info.now.lists.const_expression_types }
    requires types { All (TypesExist gctx.types.now) mod_info.now.lists.const_expression_types }
    ensures { IfSome (slice_get gctx.entry.global_expressions.now handle) (λ x. result ≡ const_expression_rule
        (surroundings ctx.entry gctx.entry mod_info.now.lists.const_expression_types kinds.now) handle x) }
{
    check_known(handle, kinds)?;
    check_form(ctx, handle, gctx, mod_info, kinds)
}
