//! The rules of constants and overrides, and of all values of a module: its global expressions,
//! constants and overrides.

ghost use Rattle.std.specs.Prelude.{◌≡◌, ◌<◌, All, IfOk, IfSome, IsOk, List, MatchResult, Result, Some, length};
ghost use Rattle.naga_arena.specs.Memory.{UnlessOutOfMemory};
ghost use Rattle.naga_arena.specs.Span.{inner_of};
ghost use Rattle.naga_valid.specs.Values as rule;
ghost use Rattle.naga_valid.specs.Values.{AreValueResults};
ghost use Rattle.naga_valid.specs.declared.error.ValidationError as error;
ghost use Rattle.naga_valid.specs.steps.Ids.{IsChecked};
ghost use Rattle.naga_valid.specs.steps.KnownValues.{AreFilled, AreFilledWithKinds, IsFirstValueError};

use crate::error::{ConstantError, OverrideError, ValidationError};
use crate::override_ids::OverrideIds;
use bitflags::Flags;
use naga_exprs::const_expression::validate_const_expression;
use naga_flags::flags::TypeFlags;
use naga_info::context::ExprContext;
use naga_info::module_info::ModuleInfo;
use naga_ir::handle::Handle;
use naga_ir::ir::{Constant, Module, Override};
use naga_ir::memory::OutOfMemory;
use naga_ir::span::WithSpan;
use naga_ir::tags::{ExpressionTag, TypeTag};
use naga_ir::text::Text;
use naga_ir::types::{Scalar, TypeInner};
use naga_typing::context::to_ctx;
use naga_typing::expression_kind::ExpressionKindTracker;
use naga_typing::typifier::{TypeResolution, compare_types};
use naga_typing::typing::Typing;
use std::alloc::Global;

/// The name of an item in errors, which is empty if it has none.
pub fn name_of(alloc: Global, name: &Option<Text>) -> Result<Text, OutOfMemory>
    ensures { IfOk result (λ shown. shown ≡ rule.shown_name name.now) }
{
    match name {
        Some(name) => name.try_clone(),
        None => Ok(Text::new(alloc)),
    }
}

/// Whether a type is constructible (WGSL "Constructible Types").
fn is_constructible(mod_info: &ModuleInfo, ty: Handle<TypeTag>) -> bool
    requires { ty < length mod_info.now.lists.type_flags }
    ensures { result ≡ rule.is_constructible mod_info.now.lists ty }
{
    mod_info[ty].contains(TypeFlags::CONSTRUCTIBLE)
}

/// Whether a global expression has this type.
fn has_type(
    module: &Module,
    mod_info: &ModuleInfo,
    ty: Handle<TypeTag>,
    init: Handle<ExpressionTag>,
) -> bool
    requires filled { AreFilled «module».now mod_info.now.lists }
    requires ty { ty < length «module».now.types }
    requires init { init < length «module».now.global_expressions }
    ensures { result ≡ rule.has_type «module».now mod_info.now.lists ty init }
{
    compare_types(&TypeResolution::Handle(ty), &mod_info[init], &module.types)
}

/// Whether overrides may have a type: a bool or a number that is not abstract, except an integer of 64
/// bits (naga).
fn is_override_type(inner: &TypeInner) -> bool
    ensures { result ≡ rule.is_override_type (Some inner.now) }
{
    match inner {
        TypeInner::Scalar(scalar) => [
            Scalar::BOOL,
            Scalar::I16,
            Scalar::U16,
            Scalar::I32,
            Scalar::U32,
            Scalar::F16,
            Scalar::F32,
            Scalar::F64,
        ]
        .contains(scalar),
        TypeInner::Vector { .. }
        | TypeInner::Matrix { .. }
        | TypeInner::CooperativeMatrix { .. }
        | TypeInner::Atomic(_)
        | TypeInner::Pointer { .. }
        | TypeInner::ValuePointer { .. }
        | TypeInner::Array { .. }
        | TypeInner::Struct { .. }
        | TypeInner::Image { .. }
        | TypeInner::Sampler { .. }
        | TypeInner::AccelerationStructure { .. }
        | TypeInner::RayQuery { .. }
        | TypeInner::BindingArray { .. } => false,
    }
}

/// Checks that a constant has a constructible type, and an initialiser of this type that is known when
/// the shader is compiled.
fn validate_constant(
    constant: &Constant,
    module: &Module,
    mod_info: &ModuleInfo,
    kinds: &ExpressionKindTracker,
) -> Result<(), ConstantError>
    requires known { AreFilledWithKinds «module».now mod_info.now.lists kinds.now }
    requires ty { constant.now.ty < length «module».now.types }
    requires init { constant.now.init < length «module».now.global_expressions }
    ensures { result ≡ rule.constant_rule «module».now mod_info.now.lists kinds.now constant.now }
{
    if !is_constructible(mod_info, constant.ty) {
        return Err(ConstantError::NonConstructibleType);
    }
    // A constant that depended on an override would be open until a pipeline is created.
    if !kinds.is_const(constant.init) {
        return Err(ConstantError::InitializerExprType);
    }
    if !has_type(module, mod_info, constant.ty, constant.init) {
        return Err(ConstantError::InvalidType);
    }
    Ok(())
}

/// Notes the number of an override, if it has one, and returns whether an earlier override has it.
fn is_duplicate(ids: &mut OverrideIds, id: Option<u16>) -> Result<bool, OutOfMemory>
    ensures { IfOk result (IsChecked ids.old id ids.new) }
{
    match id {
        Some(id) => Ok(!ids.insert(id)?),
        None => Ok(false),
    }
}

/// Checks that an override has a constructible type that is one of some scalars, and an initialiser of
/// this type, or none unless overrides have to have their values. `is_duplicate` is whether an
/// earlier override has its number.
fn validate_override(
    over: &Override,
    is_duplicate: bool,
    module: &Module,
    mod_info: &ModuleInfo,
    overrides_resolved: bool,
) -> Result<(), OverrideError>
    requires filled { AreFilled «module».now mod_info.now.lists }
    requires ty { over.now.ty < length «module».now.types }
    requires init { IfSome over.now.init (λ init. init < length «module».now.global_expressions) }
    ensures { result ≡ rule.override_rule is_duplicate overrides_resolved «module».now mod_info.now.lists over.now }
{
    // naga notes the number before it looks at the type, so a duplicate is reported first.
    if is_duplicate {
        return Err(OverrideError::DuplicateID);
    }
    if !is_constructible(mod_info, over.ty) {
        return Err(OverrideError::NonConstructibleType);
    }
    if !is_override_type(&module.types[over.ty].inner) {
        return Err(OverrideError::TypeNotScalar);
    }
    match over.init {
        Some(init) if !has_type(module, mod_info, over.ty, init) => Err(OverrideError::InvalidType),
        None if overrides_resolved => Err(OverrideError::UninitializedOverride),
        Some(_) | None => Ok(()),
    }
}

/// Checks each global expression, in order.
fn validate_expressions<T: Typing>(
    ctx: ExprContext<'_, T>,
    module: &Module,
    mod_info: &ModuleInfo,
    kinds: &ExpressionKindTracker,
) -> Result<(), WithSpan<ValidationError>>
    requires { AreFilledWithKinds «module».now mod_info.now.lists kinds.now }
    ensures { MatchResult result
        (λ _. All IsOk (rule.results_of
        (rule.expression_result (rule.const_surroundings ctx.entry.capabilities ctx.entry.overrides_resolved
        «module».now mod_info.now.lists kinds.now)) «module».now.global_expressions))
        (λ e. IsFirstValueError (rule.results_of
        (rule.expression_result (rule.const_surroundings ctx.entry.capabilities ctx.entry.overrides_resolved
        «module».now mod_info.now.lists kinds.now)) «module».now.global_expressions) (inner_of e)) }
{
    for (handle, _) in module.global_expressions.iter() {
        if let Err(source) = validate_const_expression(
            ctx,
            handle,
            to_ctx(module),
            mod_info,
            kinds,
        ) {
            let error = ValidationError::ConstExpression { handle, source };
            return Err(WithSpan::new(error).with_span(module.global_expressions.get_span(handle)));
        }
    }
    Ok(())
}

/// Checks each constant, in order.
fn validate_constants(
    alloc: Global,
    module: &Module,
    mod_info: &ModuleInfo,
    kinds: &ExpressionKindTracker,
) -> Result<(), WithSpan<ValidationError>>
    requires { AreFilledWithKinds «module».now mod_info.now.lists kinds.now }
    ensures { UnlessOutOfMemory (λ e. inner_of e ≡ ValidationError.OutOfMemory) result
        (λ _. All IsOk (rule.results_of (rule.constant_result «module».now mod_info.now.lists kinds.now)
        «module».now.constants))
        (λ e. IsFirstValueError (rule.results_of (rule.constant_result «module».now mod_info.now.lists kinds.now)
        «module».now.constants) (inner_of e)) }
{
    for (handle, constant) in module.constants.iter() {
        if let Err(source) = validate_constant(constant, module, mod_info, kinds) {
            let name = name_of(alloc, &constant.name)?;
            let error = ValidationError::Constant {
                handle,
                name,
                source,
            };
            return Err(WithSpan::new(error).with_span(module.constants.get_span(handle)));
        }
    }
    Ok(())
}

/// Checks each override, in order. The numbers of an earlier module are forgotten first.
fn validate_overrides(
    alloc: Global,
    overrides_resolved: bool,
    module: &Module,
    mod_info: &ModuleInfo,
    ids: &mut OverrideIds,
) -> Result<(), WithSpan<ValidationError>>
    requires { AreFilled «module».now mod_info.now.lists }
    ensures { UnlessOutOfMemory (λ e. inner_of e ≡ ValidationError.OutOfMemory) result
        (λ _. All IsOk (rule.results_of (rule.override_result overrides_resolved «module».now mod_info.now.lists)
        «module».now.overrides))
        (λ e. IsFirstValueError (rule.results_of
        (rule.override_result overrides_resolved «module».now mod_info.now.lists) «module».now.overrides)
        (inner_of e)) }
{
    ids.clear();
    for (handle, over) in module.overrides.iter() {
        let is_duplicate = is_duplicate(ids, over.id)?;
        if let Err(source) = validate_override(
            over,
            is_duplicate,
            module,
            mod_info,
            overrides_resolved,
        ) {
            let name = name_of(alloc, &over.name)?;
            let error = ValidationError::Override {
                handle,
                name,
                source,
            };
            return Err(WithSpan::new(error).with_span(module.overrides.get_span(handle)));
        }
    }
    Ok(())
}

/// Checks all values of a module: its global expressions, then its constants, then its overrides.
pub fn validate_values<T: Typing>(
    alloc: Global,
    ctx: ExprContext<'_, T>,
    module: &Module,
    mod_info: &ModuleInfo,
    ids: &mut OverrideIds,
) -> Result<(), WithSpan<ValidationError>>
    requires { AreFilled «module».now mod_info.now.lists }
    ensures { UnlessOutOfMemory (λ e. inner_of e ≡ ValidationError.OutOfMemory) result
        (λ _. (results : List (Result (Unit {0}) error.ValidationError))
        × AreValueResults ctx.entry.capabilities ctx.entry.overrides_resolved «module».now mod_info.now.lists
        results × All IsOk results)
        (λ e. (results : List (Result (Unit {0}) error.ValidationError))
        × AreValueResults ctx.entry.capabilities ctx.entry.overrides_resolved «module».now mod_info.now.lists
        results × IsFirstValueError results (inner_of e)) }
{
    let kinds = ExpressionKindTracker::from_arena(alloc, &module.global_expressions)?;
    validate_expressions(ctx, module, mod_info, &kinds)?;
    validate_constants(alloc, module, mod_info, &kinds)?;
    validate_overrides(alloc, ctx.overrides_resolved, module, mod_info, ids)
}
