//! The rule of an entry point (naga's `validate_entry_point`).

ghost use Rattle.std.specs.List.{list_any};
ghost use Rattle.std.specs.Option.{option_copied};
ghost use Rattle.std.specs.Prelude.{◌≡◌, ◌≢◌, ◌<◌, [], All, IfSome, IsTrue, List, OnOk, length};
ghost use Rattle.naga_arena.specs.Results.{IsResultOf};
ghost use Rattle.naga_interface.specs.EntryPoints as rule;
ghost use Rattle.naga_interface.specs.EntryPoints.{IsEntryPointResult};
ghost use Rattle.naga_interface.specs.Functions.{CanValidate, has_initialisers};
ghost use Rattle.naga_interface.specs.Stages as stages;
ghost use Rattle.naga_interface.specs.Surroundings.{AreTypesKnown, surroundings};
ghost use Rattle.naga_interface.specs.Varyings.{is_far};
ghost use Rattle.naga_interface.specs.steps.BindingSets.{AreIn};
ghost use Rattle.naga_interface.specs.steps.VaryingContexts.{varyings_in};
ghost use Rattle.naga_ir.specs.declared.ir.FunctionArgument as argument;
ghost use Rattle.naga_ir.specs.declared.ir.FunctionResult as function_result;
ghost use Rattle.naga_types.specs.Checks.{first_error_or, ok_unless};
ghost use Rattle.naga_typing.specs.Kinds.{AreKinds};
ghost use Rattle.naga_typing.specs.declared.expression_kind.ExpressionKind.{ExpressionKind};

use crate::binding_set::BindingSet;
use crate::context::{Initialisers, InterfaceContext};
use crate::error::EntryPointError;
use crate::function::{check_declarations, find_kinds};
use crate::varying::{Direction, VaryingContext, stage_flag};
use bitflags::Flags;
use naga_flags::flags::{Capabilities, ShaderStages};
use naga_info::module_info::FunctionInfo;
use naga_ir::built_in::BuiltIn;
use naga_ir::ir::{EarlyDepthTest, EntryPoint, FunctionArgument, FunctionResult, ShaderStage};
use naga_types::error::VaryingError;
use std::alloc::Global;

/// The greatest size of a workgroup in a dimension (naga, `MAX_WORKGROUP_SIZE`).
const MAX_WORKGROUP_SIZE: u32 = 0x4000;

/// Whether entry points of a stage can be validated: the rules of meshes and rays are not covered.
fn is_covered(stage: ShaderStage) -> bool
    ensures { result ≡ stages.is_covered stage }
{
    match stage {
        ShaderStage::Vertex | ShaderStage::Fragment | ShaderStage::Compute => true,
        ShaderStage::Task
        | ShaderStage::Mesh
        | ShaderStage::RayGeneration
        | ShaderStage::Miss
        | ShaderStage::AnyHit
        | ShaderStage::ClosestHit => false,
    }
}

/// Checks that depths are tested early only for fragment shaders.
fn check_early_depth_test(
    capabilities: Capabilities,
    stage: ShaderStage,
    test: Option<EarlyDepthTest>,
) -> Result<(), EntryPointError>
    ensures { result ≡ first_error_or (rule.early_depth_checks capabilities.0 stage test) tt }
{
    if test.is_none() {
        return Ok(());
    }
    if !capabilities.contains(Capabilities::EARLY_DEPTH_TEST) {
        let missing = VaryingError::UnsupportedCapability(Capabilities::EARLY_DEPTH_TEST);
        return Err(EntryPointError::Result(missing));
    }
    if stage != ShaderStage::Fragment {
        return Err(EntryPointError::UnexpectedEarlyDepthTest);
    }
    Ok(())
}

/// Checks the sizes of a workgroup.
fn check_workgroup_size(stage: ShaderStage, sizes: [u32; 3]) -> Result<(), EntryPointError>
    ensures { result ≡ ok_unless (rule.workgroup_error stage sizes) tt }
{
    if ShaderStages::COMPUTE_LIKE.contains(stage_flag(stage)) {
        if sizes
            .iter()
            .all(|size| *size >= 1 && *size <= MAX_WORKGROUP_SIZE)
        {
            return Ok(());
        }
        return Err(EntryPointError::OutOfRangeWorkgroupSize);
    }
    if sizes.iter().all(|size| *size == 0) {
        return Ok(());
    }
    Err(EntryPointError::UnexpectedWorkgroupSize)
}

/// The error of an argument that is refused as an input.
fn argument_error(index: usize, error: VaryingError) -> EntryPointError
    ensures out_of_memory { error ≡ VaryingError.OutOfMemory → result ≡ EntryPointError.OutOfMemory }
    ensures other { error ≢ VaryingError.OutOfMemory → result ≡ EntryPointError.Argument index error }
{
    match error {
        VaryingError::OutOfMemory => EntryPointError::OutOfMemory,
        error => EntryPointError::Argument(index, error),
    }
}

/// The error of a result that is refused as an output.
fn result_error(error: VaryingError) -> EntryPointError
    ensures out_of_memory { error ≡ VaryingError.OutOfMemory → result ≡ EntryPointError.OutOfMemory }
    ensures other { error ≢ VaryingError.OutOfMemory → result ≡ EntryPointError.Result error }
{
    match error {
        VaryingError::OutOfMemory => EntryPointError::OutOfMemory,
        error => EntryPointError::Result(error),
    }
}

/// Checks each argument as an input.
fn check_inputs(
    alloc: Global,
    context: VaryingContext<'_>,
    arguments: &[FunctionArgument],
) -> Result<(), EntryPointError>
    requires known { AreTypesKnown (surroundings context.interface) }
    requires exist { All (λ (a : argument.FunctionArgument). a.ty < length context.interface.types.now) arguments.now }
    ensures { let s = varyings_in context.entry in
        IsResultOf (λ _. IsTrue (list_any is_far (rule.argument_bindings s.interface arguments.now)))
        EntryPointError.OutOfMemory (ok_unless (rule.inputs_error s arguments.now) tt) result }
{
    let mut before = BindingSet::new(alloc);
    for index in 0..arguments.len() {
        let argument = &arguments[index];
        if let Err(error) = context.validate(argument.ty, argument.binding, &mut before) {
            return Err(argument_error(index, error));
        }
    }
    Ok(())
}

/// Checks the result as an output, and adds its bindings to `outputs`, which has none.
fn check_output(
    context: VaryingContext<'_>,
    outcome: Option<&FunctionResult>,
    outputs: &mut BindingSet,
) -> Result<(), EntryPointError>
    requires known { AreTypesKnown (surroundings context.interface) }
    requires exists { IfSome (option_copied outcome) (λ (r : function_result.FunctionResult).
        r.ty < length context.interface.types.now) }
    requires none { AreIn [] outputs.old }
    ensures checks { let s = varyings_in context.entry in
        IsResultOf (λ _. IsTrue (list_any is_far (rule.result_bindings s.interface (option_copied outcome.entry))))
        EntryPointError.OutOfMemory (ok_unless (rule.output_error s (option_copied outcome.entry)) tt) result }
    ensures added { OnOk result
        (AreIn (rule.result_bindings (surroundings context.entry.interface) (option_copied outcome.entry)) outputs.new) }
{
    let Some(outcome) = outcome else {
        return Ok(());
    };
    if let Err(error) = context.validate(outcome.ty, outcome.binding, outputs) {
        return Err(result_error(error));
    }
    Ok(())
}

/// Checks the result as an output, and that a vertex shader has the position of the vertex.
fn check_outputs(
    alloc: Global,
    context: VaryingContext<'_>,
    outcome: Option<&FunctionResult>,
) -> Result<(), EntryPointError>
    requires known { AreTypesKnown (surroundings context.interface) }
    requires exists { IfSome (option_copied outcome) (λ (r : function_result.FunctionResult).
        r.ty < length context.interface.types.now) }
    ensures { let s = varyings_in context.entry in
        IsResultOf (λ _. IsTrue (list_any is_far (rule.result_bindings s.interface (option_copied outcome.entry))))
        EntryPointError.OutOfMemory
        (first_error_or (rule.output_checks s (option_copied outcome.entry)) tt) result }
{
    let mut outputs = BindingSet::new(alloc);
    check_output(context, outcome, &mut outputs)?;
    let has_position = !outputs.insert_built_in(BuiltIn::Position { invariant: false });
    if context.stage == ShaderStage::Vertex && !has_position {
        return Err(EntryPointError::MissingVertexOutputPosition);
    }
    Ok(())
}

/// Checks what the function of an entry point declares.
fn check_function(
    alloc: Global,
    ctx: InterfaceContext<'_>,
    info: &FunctionInfo,
    entry_point: &EntryPoint,
) -> Result<(), EntryPointError>
    requires { CanValidate (surroundings ctx) info.now.types entry_point.now.function }
    ensures { (kinds : List ExpressionKind) → AreKinds entry_point.now.function.expressions kinds
        → IsResultOf (λ _. IsTrue (has_initialisers entry_point.now.function)) EntryPointError.OutOfMemory
        (ok_unless (rule.function_error (surroundings ctx.entry) (record { types = info.now.types; kinds = kinds })
        entry_point.now) tt) result }
{
    let kinds = find_kinds(alloc, &entry_point.function)?;
    let init = Initialisers {
        types: info.types.as_slice(),
        kinds: &kinds,
    };
    match check_declarations(ctx, init, &entry_point.function, true) {
        Ok(()) => Ok(()),
        Err(error) => Err(EntryPointError::Function(error)),
    }
}

/// Checks what an entry point takes and gives.
fn check_varyings(
    alloc: Global,
    ctx: InterfaceContext<'_>,
    stage: ShaderStage,
    entry_point: &EntryPoint,
) -> Result<(), EntryPointError>
    requires known { AreTypesKnown (surroundings ctx) }
    requires arguments { All (λ (a : argument.FunctionArgument). a.ty < length ctx.types.now)
        entry_point.now.function.arguments }
    requires outcome { IfSome entry_point.now.function.result (λ (r : function_result.FunctionResult).
        r.ty < length ctx.types.now) }
    ensures { IsResultOf (λ _. IsTrue (rule.takes_memory (surroundings ctx.entry) entry_point.now))
        EntryPointError.OutOfMemory
        (first_error_or (rule.varying_checks (surroundings ctx.entry) entry_point.now stage) tt) result }
{
    let inputs = VaryingContext {
        interface: ctx,
        stage,
        direction: Direction::Input,
        workgroup_size: entry_point.workgroup_size,
    };
    if let Err(error) = check_inputs(alloc, inputs, entry_point.function.arguments.as_slice()) {
        return Err(error);
    }
    let outputs = VaryingContext {
        direction: Direction::Output,
        ..inputs
    };
    check_outputs(alloc, outputs, entry_point.function.result.as_ref())
}

/// Checks an entry point of a stage that is covered: its early test of depths, the sizes of its workgroup, what its
/// function declares, that its stage may use the function, and what it takes and gives (WGSL "Entry Points"; naga's
/// `validate_entry_point`). `info` is what is known of its function. No other entry point is looked at.
///
/// It takes memory for the kinds of the function's expressions if a local variable has an initialiser, and for each
/// location from 64 on. Its cost is linear in its arguments and their members, besides what `validate_declarations` says
/// of its function; each location from 64 on is looked up in a tree.
///
/// # Errors
///
/// The first condition that is broken, in this order:
///
/// - `StageNotCovered` if its stage isn't known, or is one of meshes and rays;
/// - `Result` with `UnsupportedCapability`, or `UnexpectedEarlyDepthTest`;
/// - `OutOfRangeWorkgroupSize`, `UnexpectedWorkgroupSize`;
/// - `Function` with the error of a declaration;
/// - `ForbiddenStageOperations`;
/// - `Argument` with the error of the first input that is refused;
/// - `Result` with the error of the output, or `MissingVertexOutputPosition`.
///
/// `OutOfMemory` if memory was refused.
pub fn validate_entry_point(
    alloc: Global,
    ctx: InterfaceContext<'_>,
    info: &FunctionInfo,
    entry_point: &EntryPoint,
) -> Result<(), EntryPointError>
    requires { CanValidate (surroundings ctx) info.now.types entry_point.now.function }
    ensures { IsEntryPointResult (surroundings ctx.entry) info.now entry_point.now result }
{
    let stage = match entry_point.stage {
        Some(stage) if is_covered(stage) => stage,
        Some(_) | None => return Err(EntryPointError::StageNotCovered),
    };
    check_early_depth_test(ctx.capabilities, stage, entry_point.early_depth_test)?;
    check_workgroup_size(stage, entry_point.workgroup_size)?;
    check_function(alloc, ctx, info, entry_point)?;
    if !info.available_stages.contains(stage_flag(stage)) {
        return Err(EntryPointError::ForbiddenStageOperations);
    }
    check_varyings(alloc, ctx, stage, entry_point)
}
