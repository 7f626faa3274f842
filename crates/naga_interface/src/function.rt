//! The rule of the local variables, the arguments and the result of a function (naga's `validate_function`).

ghost use Rattle.std.specs.Prelude.{◌≡◌, ◌<◌, All, IfOk, IfSome, IsFalse, IsOk, IsTrue, Some, length};
ghost use Rattle.naga_interface.specs.Functions as rule;
ghost use Rattle.naga_interface.specs.Functions.{CanValidate, IsDeclarationResult};
ghost use Rattle.naga_interface.specs.Surroundings.{AreExpressionsTyped, AreTypesKnown, known, surroundings};
ghost use Rattle.naga_interface.specs.steps.KnownFunctions.{HaveKinds};
ghost use Rattle.naga_ir.specs.declared.ir.FunctionArgument as argument;
ghost use Rattle.naga_ir.specs.Handles.{OrderedOperands, ReferencesPrecede};
ghost use Rattle.naga_types.specs.Checks.{first_error_or, ok_unless};
ghost use Rattle.naga_types.specs.FormFlags.{is_argument_space};
ghost use Rattle.naga_typing.specs.Kinds.{AreKinds};

use crate::context::{Initialisers, InterfaceContext};
use crate::error::{FunctionDeclarationError, LocalVariableError};
use bitflags::Flags;
use naga_flags::flags::TypeFlags;
use naga_ir::handle::Handle;
use naga_ir::ir::{Function, FunctionArgument, FunctionResult, LocalVariable};
use naga_ir::memory::OutOfMemory;
use naga_ir::types::{AddressSpace, TypeInner};
use naga_typing::expression_kind::ExpressionKindTracker;
use naga_typing::typifier::TypeResolution;
use std::alloc::Global;

/// Checks that a variable of a function has a constructible type (WGSL "Constructible Types"), and an initialiser of
/// this type that is known when a pipeline is created, if it has one. naga's `validate_local_var`.
///
/// # Errors
///
/// The first condition that is broken: `InvalidType`, `InitializerType`, `NonConstOrOverrideInitializer`.
pub fn validate_local_variable(
    ctx: InterfaceContext<'_>,
    init: Initialisers<'_>,
    variable: &LocalVariable,
) -> Result<(), LocalVariableError>
    requires known { AreTypesKnown (surroundings ctx) }
    requires typed { AreExpressionsTyped (surroundings ctx) (known init) }
    requires exists { variable.now.ty < length ctx.types.now }
    requires has_type { IfSome variable.now.init (λ e. e < length init.types.now) }
    requires has_kind { IfSome variable.now.init (λ e. e < length init.kinds.now) }
    ensures { result ≡ rule.local_variable_rule (surroundings ctx.entry) (known init.entry) variable.now }
{
    if !ctx
        .type_flags(variable.ty)
        .contains(TypeFlags::CONSTRUCTIBLE)
    {
        return Err(LocalVariableError::InvalidType(variable.ty));
    }
    let Some(expression) = variable.init else {
        return Ok(());
    };
    if !ctx.has_type(init, variable.ty, expression) {
        return Err(LocalVariableError::InitializerType);
    }
    if !init.kinds.is_const_or_override(expression) {
        return Err(LocalVariableError::NonConstOrOverrideInitializer);
    }
    Ok(())
}

/// Checks each local variable of a function, in order.
fn check_local_variables(
    ctx: InterfaceContext<'_>,
    init: Initialisers<'_>,
    function: &Function,
) -> Result<(), FunctionDeclarationError>
    requires can { CanValidate (surroundings ctx) init.types.now function.now }
    requires kinds { HaveKinds function.now init.kinds.now }
    ensures { result ≡ ok_unless (rule.local_variables_error (surroundings ctx.entry) (known init.entry)
        function.now.local_variables) tt }
{
    for index in 0..function.local_variables.len() {
        let handle = Handle::new(index as u32);
        let variable = &function.local_variables[handle];
        if let Err(source) = validate_local_variable(ctx, init, variable) {
            return Err(FunctionDeclarationError::LocalVariable { handle, source });
        }
    }
    Ok(())
}

/// The address space that a pointer points into. Other types have none.
fn pointer_space(inner: &TypeInner) -> Option<AddressSpace>
    ensures { result ≡ rule.pointer_space inner.now }
{
    match *inner {
        TypeInner::Pointer { space, .. } | TypeInner::ValuePointer { space, .. } => Some(space),
        TypeInner::Scalar(_)
        | TypeInner::Vector { .. }
        | TypeInner::Matrix { .. }
        | TypeInner::CooperativeMatrix { .. }
        | TypeInner::Atomic(_)
        | TypeInner::Array { .. }
        | TypeInner::Struct { .. }
        | TypeInner::Image { .. }
        | TypeInner::Sampler { .. }
        | TypeInner::AccelerationStructure { .. }
        | TypeInner::RayQuery { .. }
        | TypeInner::BindingArray { .. } => None,
    }
}

/// Whether pointers into an address space may be passed to functions.
fn is_argument_space(space: AddressSpace) -> bool
    ensures { result ≡ is_argument_space space }
{
    match space {
        AddressSpace::Function
        | AddressSpace::Private
        | AddressSpace::RayPayload
        | AddressSpace::IncomingRayPayload => true,
        AddressSpace::WorkGroup
        | AddressSpace::Uniform
        | AddressSpace::Storage { .. }
        | AddressSpace::Handle
        | AddressSpace::Immediate
        | AddressSpace::TaskPayload => false,
    }
}

/// Checks an argument of a function.
fn check_argument(
    ctx: InterfaceContext<'_>,
    is_entry_point: bool,
    index: usize,
    argument: &FunctionArgument,
) -> Result<(), FunctionDeclarationError>
    requires known { AreTypesKnown (surroundings ctx) }
    requires exists { argument.now.ty < length ctx.types.now }
    ensures { result ≡ ok_unless (rule.argument_error (surroundings ctx.entry) is_entry_point (index, argument.now))
        tt }
{
    // Such a pointer lacks `ARGUMENT` too, but naga names the space.
    if let Some(space) = pointer_space(ctx.inner(argument.ty))
        && !is_argument_space(space)
    {
        return Err(FunctionDeclarationError::InvalidArgumentPointerSpace { index, space });
    }
    if !ctx.type_flags(argument.ty).contains(TypeFlags::ARGUMENT) {
        return Err(FunctionDeclarationError::InvalidArgumentType { index });
    }
    if !is_entry_point && argument.binding.is_some() {
        return Err(FunctionDeclarationError::PipelineInputRegularFunction { index });
    }
    Ok(())
}

/// Checks each argument of a function, in order.
fn check_arguments(
    ctx: InterfaceContext<'_>,
    is_entry_point: bool,
    arguments: &[FunctionArgument],
) -> Result<(), FunctionDeclarationError>
    requires known { AreTypesKnown (surroundings ctx) }
    requires exist { All (λ (a : argument.FunctionArgument). a.ty < length ctx.types.now) arguments.now }
    ensures { result ≡ ok_unless (rule.arguments_error (surroundings ctx.entry) is_entry_point arguments.now) tt }
{
    for index in 0..arguments.len() {
        if let Err(error) = check_argument(ctx, is_entry_point, index, &arguments[index]) {
            return Err(error);
        }
    }
    Ok(())
}

/// Checks the result of a function.
fn check_result(
    ctx: InterfaceContext<'_>,
    is_entry_point: bool,
    outcome: &FunctionResult,
) -> Result<(), FunctionDeclarationError>
    requires known { AreTypesKnown (surroundings ctx) }
    requires exists { outcome.now.ty < length ctx.types.now }
    ensures { result ≡ first_error_or (rule.result_checks (surroundings ctx.entry) is_entry_point (Some outcome.now)) tt }
{
    if !ctx
        .type_flags(outcome.ty)
        .contains(TypeFlags::CONSTRUCTIBLE)
    {
        return Err(FunctionDeclarationError::NonConstructibleReturnType);
    }
    if !is_entry_point && outcome.binding.is_some() {
        return Err(FunctionDeclarationError::PipelineOutputRegularFunction);
    }
    Ok(())
}

/// Checks what a function declares, by the types of its expressions and by when their values are known.
pub(crate) fn check_declarations(
    ctx: InterfaceContext<'_>,
    init: Initialisers<'_>,
    function: &Function,
    is_entry_point: bool,
) -> Result<(), FunctionDeclarationError>
    requires can { CanValidate (surroundings ctx) init.types.now function.now }
    requires kinds { HaveKinds function.now init.kinds.now }
    ensures { result ≡ rule.declaration_rule (surroundings ctx.entry) (known init.entry) is_entry_point function.now }
{
    if let Err(error) = check_local_variables(ctx, init, function) {
        return Err(error);
    }
    if let Err(error) = check_arguments(ctx, is_entry_point, function.arguments.as_slice()) {
        return Err(error);
    }
    match &function.result {
        Some(outcome) => check_result(ctx, is_entry_point, outcome),
        None => Ok(()),
    }
}

/// When the values of a function's expressions are known, if a local variable has an initialiser. Else nothing is
/// found, and no memory taken.
///
/// # Errors
///
/// `OutOfMemory` if memory was refused.
pub(crate) fn find_kinds(
    alloc: Global,
    function: &Function,
) -> Result<ExpressionKindTracker, OutOfMemory>
    requires { ReferencesPrecede (OrderedOperands function.now.expressions) }
    ensures found { IsTrue (rule.has_initialisers function.now) → IfOk result (AreKinds function.now.expressions) }
    ensures none { IsFalse (rule.has_initialisers function.now) → IsOk result }
{
    if function
        .local_variables
        .as_slice()
        .iter()
        .any(|variable| variable.init.is_some())
    {
        ExpressionKindTracker::from_arena(alloc, &function.expressions)
    } else {
        Ok(ExpressionKindTracker::new(alloc))
    }
}

/// Checks what a function of a module declares: each local variable by `validate_local_variable`; each argument, that it
/// is not a pointer into an address space of which none may be passed (WGSL "Function Restrictions"), and that its type
/// is one of arguments; that the type of the result is constructible; and that neither has a binding. `types` are the
/// types of the function's expressions.
///
/// It takes memory for the kinds of the expressions if a local variable has an initialiser, and is linear in what the
/// function declares, besides that.
///
/// # Errors
///
/// The first condition that is broken, of the local variables in order, then of the arguments in order, then of the
/// result; or `OutOfMemory`.
pub fn validate_declarations(
    alloc: Global,
    ctx: InterfaceContext<'_>,
    types: &[TypeResolution],
    function: &Function,
) -> Result<(), FunctionDeclarationError>
    requires { CanValidate (surroundings ctx) types.now function.now }
    ensures { IsDeclarationResult (surroundings ctx.entry) types.now function.now result }
{
    let kinds = find_kinds(alloc, function)?;
    let init = Initialisers {
        types,
        kinds: &kinds,
    };
    check_declarations(ctx, init, function, false)
}
