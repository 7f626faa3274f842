//! What a caller of two validators knows if one has more capabilities than the other, by the laws on that.

ghost use Rattle.std.specs.Prelude.{◌≡◌, false, IfErr, IfOk, IsTrue, Ok, OnOk};
ghost use Rattle.naga_arena.specs.Span.{inner_of};
ghost use Rattle.naga_exprs.specs.ExpressionRule.{IsRule};
ghost use Rattle.naga_exprs.specs.Math.{math_typing};
ghost use Rattle.naga_exprs.specs.MoreCapabilities.{AllowsMore};
ghost use Rattle.naga_flags.specs.Flags.{has};
ghost use Rattle.naga_flags.specs.declared.flags.ShaderStages as flags;
ghost use Rattle.naga_ir.specs.declared.expression.Expression.TheVariants as form;
ghost use Rattle.naga_info.specs.ModuleInfo.{ModuleInfoLists};
ghost use Rattle.naga_info.specs.Surroundings.{surroundings};
ghost use Rattle.naga_valid.specs.Accepted.{Accepts};
ghost use Rattle.naga_valid.specs.AllFunctions.{AreInfosInOrder};
ghost use Rattle.naga_valid.specs.Functions.{function_surroundings};
ghost use Rattle.naga_valid.specs.MoreCapabilities.{HasMoreCapabilities, KnowsMoreStages};
ghost use Rattle.naga_valid.specs.State.{settings_of};

use super::with_module;
use naga_typing::expression_kind::ExpressionKindTracker;
use naga_valid::{
    Capabilities, Expression, Flags, FullTyping, Function, FunctionContext, FunctionInfo,
    FunctionsError, Module, ModuleInfo, ShaderStages, Sources, Span, Typing, ValidationError,
    ValidationFlags, Validator, WithSpan, laws,
};
use std::alloc::Global;
use std::process::Abort;
use std::test::Fail;

/// Validates a module by a validator with more capabilities than the one that has accepted it: what both return is
/// the same, unless memory is refused.
fn validate_with_more<T: Typing>(
    module: &Module,
    validator: &Validator<T>,
    info: &ModuleInfo,
    more: &mut Validator<T>,
) -> Result<ModuleInfo, WithSpan<ValidationError>>
    requires accepted { Accepts (T.resolves validator.now.typing) «module».now (settings_of validator.now false)
        validator.now.infos info.now.lists }
    requires more { HasMoreCapabilities validator.now more.old }
    ensures lists { IfOk result (λ again. again.lists ≡ info.now.lists) }
    ensures infos { OnOk result (more.new.infos ≡ validator.now.infos) }
    ensures memory { IfErr result (λ e. inner_of e ≡ ValidationError.OutOfMemory) }
    ensures settings { more.new ≡ record more.old { infos = more.new.infos } }
{
    laws::more_capabilities(module, validator, false, more);
    more.validate(module)
}

/// Validates the functions of a module that a validator has accepted. If it accepts them all, so does one with more
/// capabilities, and no stage loses any.
fn validate_functions_with_more<T: Typing>(
    module: &Module,
    validator: &Validator<T>,
    info: &mut ModuleInfo,
    more: &Validator<T>,
) -> Result<(), FunctionsError>
    requires accepted { Accepts (T.resolves validator.now.typing) «module».now (settings_of validator.now false)
        validator.now.infos info.old.lists }
    requires capabilities { HasMoreCapabilities validator.now more.now }
    requires stages { IsTrue (has more.now.subgroup_stages.0 validator.now.subgroup_stages.0) }
    ensures { let by_more = function_surroundings (T.resolves more.now.typing)
        (math_typing (T.accepts_types more.now.typing) (T.least_arguments more.now.typing))
        more.now false «module».now in
        OnOk result ((known : ModuleInfoLists) × AreInfosInOrder by_more «module».now known
        × KnowsMoreStages info.new.lists known) }
{
    validator.validate_functions(module, info, false)?;
    laws::more_capabilities_functions(module, validator, false, more);
    Ok(())
}

/// The result of a ballot of a subgroup may be used by the stages that may use subgroup operations, and no stage
/// loses it where more is allowed.
fn ballot_with_more<T: Typing>(typing: &T, less: FunctionContext<'_>, more: FunctionContext<'_>)
    requires { AllowsMore (surroundings less) (surroundings more) }
    ensures { let math = math_typing (T.accepts_types typing.now) (T.least_arguments typing.now) in
        (stages : flags.ShaderStages) × IsRule math (surroundings more.entry) form.SubgroupBallotResult (Ok stages)
        × IsTrue (has stages.0 less.entry.subgroup_stages.0) }
{
    laws::more_capabilities_expression(typing, &Expression::SubgroupBallotResult, less, more);
}

/// Compares the stages that may use a ballot, in a function that has no expression, by what is known of an accepted
/// module: where compute shaders may use subgroup operations, and where all stages may.
fn compare_ballots(rt: &impl Abort, alloc: Global, module: &Module, mod_info: &ModuleInfo) {
    let (few, many) = (ShaderStages::COMPUTE, ShaderStages::all());
    assert!(rt; many.contains(few));
    let function = Function::new(alloc);
    let info = FunctionInfo::new(alloc, few);
    let kinds = ExpressionKindTracker::new(alloc);
    let sources = Sources::new(alloc);
    let less = FunctionContext {
        capabilities: Capabilities::SUBGROUP,
        overrides_resolved: false,
        subgroup_stages: few,
        module,
        function: &function,
        info: &info,
        mod_info,
        kinds: &kinds,
        sources: &sources,
    };
    let more = FunctionContext {
        subgroup_stages: many,
        ..less
    };
    ballot_with_more(&FullTyping, less, more);
}

/// Makes sure that a module with its functions is accepted by a validator, and then by one with more capabilities.
fn accept_by_both<T: Typing>(
    module: &Module,
    validator: &mut Validator<T>,
    more: &mut Validator<T>,
) -> Result<(), Fail>
    requires capabilities { HasMoreCapabilities validator.old more.old }
    requires stages { IsTrue (has more.old.subgroup_stages.0 validator.old.subgroup_stages.0) }
{
    let mut info = validator.validate(module)?;
    validate_with_more(module, validator, &info, more)?;
    validate_functions_with_more(module, validator, &mut info, more)?;
    Ok(())
}

/// Makes sure that a module with its functions is accepted under some capabilities, and then under more.
fn accept_under_both(
    rt: &impl Abort,
    alloc: Global,
    module: &Module,
    less: Capabilities,
    more: Capabilities,
) -> Result<(), Fail> {
    assert!(rt; more.contains(less));
    let flags = ValidationFlags::default();
    let mut validator = Validator::with_typing(alloc, flags, less, FullTyping);
    let mut other = Validator::with_typing(alloc, flags, more, FullTyping);
    laws::more_capabilities(module, &validator, false, &other);
    accept_by_both(module, &mut validator, &mut other)
}

#[test]
fn more_capabilities_accept_no_less(rt: HostRuntime) -> Result<(), Fail> {
    let alloc = rt.alloc();
    with_module(alloc, |module| {
        assert!(&rt; module.functions.len() < 100);
        let mut function = Function::new(alloc);
        let ballot = Expression::SubgroupBallotResult;
        function.expressions.append(ballot, Span::default())?;
        module.functions.append(function, Span::default())?;
        accept_under_both(
            &rt,
            alloc,
            module,
            Capabilities::SUBGROUP,
            Capabilities::all(),
        )
    })
}

#[test]
fn a_ballot_loses_no_stage(rt: HostRuntime) -> Result<(), Fail> {
    let alloc = rt.alloc();
    with_module(alloc, |module| {
        let flags = ValidationFlags::default();
        let mut validator = Validator::new(alloc, flags, Capabilities::SUBGROUP);
        let info = validator.validate(module)?;
        compare_ballots(&rt, alloc, module, &info);
        Ok(())
    })
}
