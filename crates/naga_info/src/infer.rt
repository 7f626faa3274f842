//! The types of the expressions of a function.

ghost use Rattle.std.specs.Prelude.{◌≡◌, ◌<◌, ℕ, All, Err, IfErr, OnErr, length};
ghost use Rattle.naga_arena.specs.Memory.{UnlessOutOfMemory};
ghost use Rattle.naga_flags.specs.Bits.{all_stages};
ghost use Rattle.naga_info.specs.FunctionTypes.{AreFunctionTypes, AreTypesBefore, IsUntyped, function_resolves, info_of};
ghost use Rattle.naga_info.specs.steps.FunctionTypes.{HasType};
ghost use Rattle.naga_ir.specs.Handles.{FunctionReferencesOk, HandlesAccepted};
ghost use Rattle.naga_ir.specs.ItemReferences.{global_lists};
ghost use Rattle.naga_ir.specs.declared.expression.Expression.TheVariants as form;
ghost use Rattle.naga_typing.specs.Resolutions.{IsProperResolution, ResolutionExists};
ghost use Rattle.naga_typing.specs.Typings.{CanResolve};

use crate::module_info::FunctionInfo;
use bitflags::Flags;
use naga_flags::flags::ShaderStages;
use naga_ir::expression::Expression;
use naga_ir::handle::Handle;
use naga_ir::ir::{Function, Module};
use naga_ir::tags::ExpressionTag;
use naga_ir::types::{AddressSpace, TypeInner};
use naga_typing::typifier::{ResolveError, TypeResolution};
use naga_typing::typing::Typing;
use std::alloc::Global;
use thiserror::Error;

/// The first expression of a function that has no type.
#[derive(Debug, Drop, Error)]
#[error("Expression {handle:?} has no type: {error}")]
pub struct UntypedExpression {
    /// The types of the expressions before it.
    pub info: FunctionInfo,
    /// The expression.
    pub handle: Handle<ExpressionTag>,
    /// Why it has no type.
    pub error: ResolveError,
}

/// The types of all expressions of a function, in order, each by those before it.
///
/// An argument has its declared type, and a local variable is a pointer to its type; all else the typing
/// resolves. The info allows every stage: no rule of an expression has been checked. It takes memory for
/// the info, and what the typing takes; the time is linear in the number of expressions.
///
/// # Errors
///
/// The first expression without a type, with the types of the expressions before it, by which their rules can be
/// checked. Its error is
///
/// - `NotResolvable` if it names an argument that the function hasn't;
/// - what the typing returns;
/// - `OutOfMemory` if memory was refused for it.
pub fn infer_types<T: Typing>(
    alloc: Global,
    module: &Module,
    function: &Function,
    typing: &T,
) -> Result<FunctionInfo, UntypedExpression>
    requires handles { HandlesAccepted «module».now }
    requires in_function { FunctionReferencesOk «module».now function.now }
    ensures result { UnlessOutOfMemory (λ e. e.error ≡ ResolveError.OutOfMemory) result
        (λ info. AreFunctionTypes (T.resolves typing.now) «module».now function.now info.types)
        (λ e. IsUntyped (T.resolves typing.now) «module».now function.now e.handle e.info.types e.error) }
    ensures before { IfErr result (λ e. AreTypesBefore (T.resolves typing.now) «module».now function.now e.handle
        e.info.types) }
    ensures stages { (info_of result).available_stages ≡ record { 0 = all_stages } }
    ensures exist { All (ResolutionExists (global_lists «module».now)) (info_of result).types }
    ensures proper { All IsProperResolution (info_of result).types }
{
    let mut info = FunctionInfo::new(alloc, ShaderStages::all());
    for (handle, expression) in function.expressions.iter() {
        if let Err(error) = push_type_of(alloc, module, function, typing, expression, &mut info) {
            return Err(UntypedExpression {
                info,
                handle,
                error,
            });
        }
    }
    Ok(info)
}

/// Adds the type of the next expression of a function to the info, by the types of those before it.
///
/// # Errors
///
/// The errors of `infer_types`, which leave the info as it was.
#[tactic(auto, unfolding(crate::specs::FunctionTypes::function_resolves))]
fn push_type_of<T: Typing>(
    alloc: Global,
    module: &Module,
    function: &Function,
    typing: &T,
    expression: &Expression,
    info: &mut FunctionInfo,
) -> Result<(), ResolveError>
    requires can_resolve { CanResolve «module».now expression.now info.old.types }
    requires variable_exists { (v : ℕ) → expression.now ≡ form.LocalVariable v
        → v < length function.now.local_variables }
    ensures result { UnlessOutOfMemory (λ e. e ≡ ResolveError.OutOfMemory) result
        (λ _. HasType (function_resolves (T.resolves typing.now) «module».now function.now expression.now
        info.old.types) info.old info.new)
        (λ e. function_resolves (T.resolves typing.now) «module».now function.now expression.now info.old.types
        ≡ Err e) }
    ensures refused { OnErr result (info.new ≡ info.old) }
{
    match *expression {
        Expression::FunctionArgument(index) => {
            match function.arguments.as_slice().get(index as usize) {
                Some(argument) => info.push(TypeResolution::Handle(argument.ty))?,
                None => return Err(ResolveError::NotResolvable),
            }
        }
        Expression::LocalVariable(variable) => info.push(TypeResolution::Value(
            TypeInner::Pointer {
                base: function.local_variables[variable].ty,
                space: AddressSpace::Function,
            },
        ))?,
        _ => typing.push_type(alloc, module, expression, &mut info.types)?,
    }
    Ok(())
}
