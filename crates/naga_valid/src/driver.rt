//! The driver: the rules in their order.

ghost use Rattle.std.specs.Prelude.{◌≡◌, ◌<◌, ◌≤◌, ◌⊎◌, ◌↔◌, [], All, length, IfOk, IfSome, IsTrue, OnErr, OnOk, Some, slice_get, false, true};
ghost use Rattle.naga_arena.specs.Memory.{UnlessOutOfMemory};
ghost use Rattle.naga_arena.specs.Span.{inner_of};
ghost use Rattle.naga_exprs.specs.ConstExpression.{literal_rule};
ghost use Rattle.naga_exprs.specs.ExpressionRule.{IsExpressionResult};
ghost use Rattle.naga_exprs.specs.Math.{math_typing};
ghost use Rattle.naga_flags.specs.Width.{width_rule};
ghost use Rattle.naga_ir.specs.Handles.{GlobalReferencesOk, HandlesAccepted};
ghost use Rattle.naga_ir.specs.ItemReferences.{global_lists};
ghost use Rattle.naga_info.specs.Integers.{scope_in};
ghost use Rattle.naga_info.specs.Sources.{AreSources, AreSourcesRight};
ghost use Rattle.naga_info.specs.Surroundings.{IsReady, surroundings};
ghost use Rattle.naga_interface.specs.Surroundings.{surroundings as interface_surroundings};
ghost use Rattle.naga_types.specs.AcceptedTypes.{IsLaidOut, surroundings_by, rule_at};
ghost use Rattle.naga_types.specs.HostLeaves.{AllLeavesAreSeparate};
ghost use Rattle.naga_types.specs.RuleResults.{IsRuleResult};
ghost use Rattle.naga_types.specs.declared.error.TypeError.TheVariants as TypeError;
ghost use Rattle.naga_typing.specs.Resolutions.{TypesExist};
ghost use Rattle.naga_typing.specs.Typings.{AreResolved, Resolves};
ghost use Rattle.naga_valid.specs.Accepted.{Accepts, AreValidTypes, Refuses, lists_of};
ghost use Rattle.naga_valid.specs.Functions.{surroundings_under};
ghost use Rattle.naga_valid.specs.Interfaces.{surroundings_of};
ghost use Rattle.naga_valid.specs.State.{settings_of};
ghost use Rattle.naga_valid.specs.State as state;
ghost use Rattle.naga_valid.specs.steps.KnownValues.{IsFirstUnresolved};

use crate::error::ValidationError;
use crate::override_ids::OverrideIds;
use crate::values::{name_of, validate_values};
use bitflags::Flags;
use naga_exprs::const_expression::validate_literal;
use naga_exprs::expression::validate_expression;
use naga_flags::flags::{Capabilities, ShaderStages, SubgroupOperationSet, ValidationFlags};
use naga_flags::width::{ImmediateCompatibility, WidthError, check_width};
use naga_handles::handles::validate_module_handles;
use naga_info::const_expression_error::{ConstExpressionError, LiteralError};
use naga_info::context::{ExprContext, FunctionContext};
use naga_info::expression_error::ExpressionError;
use naga_info::module_info::{FunctionInfo, ModuleInfo};
use naga_info::sources::Sources;
use naga_interface::context::InterfaceContext;
use naga_ir::expression::{Expression, Literal};
use naga_ir::handle::Handle;
use naga_ir::ir::{Function, Module};
use naga_ir::memory::OutOfMemory;
use naga_ir::span::WithSpan;
use naga_ir::tags::{ExpressionTag, TypeTag};
use naga_ir::types::Scalar;
use naga_types::error::TypeError;
use naga_types::info::{TypeContext, TypeInfo, TypeInfos};
use naga_types::type_rule::validate_type;
use naga_typing::context::to_ctx;
use naga_typing::expression_kind::ExpressionKindTracker;
use naga_typing::layouter::{LayoutErrorInner, Layouter};
use naga_typing::plain_typing::PlainTyping;
use naga_typing::typifier::ResolveError;
use naga_typing::typing::Typing;
use std::alloc::Global;
use std::marker::Model;

/// Validates modules, one after another, under settings of its own.
///
/// Its results depend only on the settings, the typing and the module. Contracts see these, and the
/// infos of the types of the module last accepted.
#[derive(Drop)]
pub struct Validator<T = PlainTyping> {
    pub(super) alloc: Global,
    flags: ValidationFlags,
    capabilities: Capabilities,
    subgroup_stages: ShaderStages,
    subgroup_operations: SubgroupOperationSet,
    pub(super) typing: T,
    infos: TypeInfos,
    layouter: Layouter,
    override_ids: OverrideIds,
}

impl<T> Model for Validator<T> {
    ghost use Rattle.naga_valid.specs.State.{State};

    ghost Value = { State T };

    ghost view = { λ v. record {
      flags = v.flags;
      capabilities = v.capabilities;
      subgroup_stages = v.subgroup_stages;
      subgroup_operations = v.subgroup_operations;
      typing = v.typing;
      infos = v.infos.infos;
    } };
}

/// What the validation of a module depends on in one call.
#[derive(Clone, Copy)]
struct Settings {
    flags: ValidationFlags,
    capabilities: Capabilities,
    overrides_resolved: bool,
}

impl Model for Settings {
    ghost use Rattle.naga_valid.specs.State as state;

    ghost Value = { state.Settings };

    ghost view = { λ s. record { flags = s.flags; capabilities = s.capabilities; resolved = s.overrides_resolved } };

    ghost inverse = { λ s. record { flags = s.flags; capabilities = s.capabilities; overrides_resolved = s.resolved } };
}

/// The stages that may use subgroup operations under these capabilities.
fn stages_with(capabilities: Capabilities) -> ShaderStages
    ensures { result ≡ record { 0 = state.stages_with capabilities.0 } }
{
    let mut stages = ShaderStages::empty();
    if capabilities.contains(Capabilities::SUBGROUP_VERTEX_STAGE) {
        stages.insert(ShaderStages::VERTEX);
    }
    if capabilities.contains(Capabilities::SUBGROUP) {
        stages.insert(ShaderStages::FRAGMENT);
        stages.insert(ShaderStages::COMPUTE_LIKE);
    }
    stages
}

/// The subgroup operations that are allowed under these capabilities.
fn operations_with(capabilities: Capabilities) -> SubgroupOperationSet
    ensures { result ≡ record { 0 = state.operations_with capabilities.0 } }
{
    if capabilities.contains(Capabilities::SUBGROUP) {
        SubgroupOperationSet::BASIC
            .union(SubgroupOperationSet::VOTE)
            .union(SubgroupOperationSet::ARITHMETIC)
            .union(SubgroupOperationSet::BALLOT)
            .union(SubgroupOperationSet::SHUFFLE)
            .union(SubgroupOperationSet::SHUFFLE_RELATIVE)
            .union(SubgroupOperationSet::QUAD_FRAGMENT_COMPUTE)
    } else {
        SubgroupOperationSet::empty()
    }
}

impl Validator<PlainTyping> {
    /// A validator with these settings, which resolves the types of expressions by `PlainTyping`. It
    /// takes no memory before its first module.
    ///
    /// With `Capabilities::SUBGROUP` fragment, compute, mesh and task shaders may use subgroups, and
    /// all operations in them; with `SUBGROUP_VERTEX_STAGE` vertex shaders may (naga's
    /// `Validator::new`).
    pub fn new(
        alloc: Global,
        flags: ValidationFlags,
        capabilities: Capabilities,
    ) -> Validator<PlainTyping>
        ensures { result ≡ state.new_state flags capabilities result.typing }
    {
        Validator::with_typing(alloc, flags, capabilities, PlainTyping)
    }
}

impl<T: Typing> Validator<T> {
    /// A validator with these settings and this typing, as `new` makes one.
    pub fn with_typing(
        alloc: Global,
        flags: ValidationFlags,
        capabilities: Capabilities,
        typing: T,
    ) -> Validator<T>
        ensures { result ≡ state.new_state flags capabilities typing }
    {
        Validator {
            alloc,
            flags,
            capabilities,
            subgroup_stages: stages_with(capabilities),
            subgroup_operations: operations_with(capabilities),
            typing,
            infos: TypeInfos::with_room(alloc, 0).unwrap(),
            layouter: Layouter::new(alloc),
            override_ids: OverrideIds::new(alloc),
        }
    }

    /// Lets these stages use subgroup operations, and no others.
    pub fn subgroup_stages(&mut self, stages: ShaderStages) -> &mut Self
        ensures set { result.now ≡ record self.old { subgroup_stages = stages } }
        ensures same { result.ghost_name ≡ self.entry.ghost_name }
    {
        self.subgroup_stages = stages;
        self
    }

    /// Allows these operations in subgroups, and no others.
    pub fn subgroup_operations(&mut self, operations: SubgroupOperationSet) -> &mut Self
        ensures set { result.now ≡ record self.old { subgroup_operations = operations } }
        ensures same { result.ghost_name ≡ self.entry.ghost_name }
    {
        self.subgroup_operations = operations;
        self
    }

    /// Forgets the module last accepted, and keeps the settings and the typing.
    pub fn reset(&mut self)
        ensures { self.new ≡ record self.old { infos = [] } }
    {
        self.infos.clear();
        // `override_ids` may stay as it is: it is cleared before an override is validated.
        self.layouter.clear();
    }

    /// Whether a module keeps all rules, and what is known of it then. Of global variables, functions
    /// and entry points only the handles are validated, and of global expressions, constants and overrides
    /// the types, unless the flags have `CONSTANTS`. If it keeps them, hosts may rely on the leaves of
    /// its types. `validate_module_handles` says how much stack blocks within each other take.
    ///
    /// # Errors
    ///
    /// A refusal, the first in this order:
    ///
    /// - a handle or range that isn't right, `ValidationError::InvalidHandle`, or a comment on a missing
    ///   member, `Type_` with `InvalidData`;
    /// - the first type without layout, `Layouter`;
    /// - the first type that breaks its rule, `Type_`;
    /// - the first global expression that has no type, `ConstExpression` with `Type_`;
    /// - with the flag `CONSTANTS` the first global expression that breaks its rule, `ConstExpression`,
    ///   the first constant, `Constant`, and the first override, `Override`.
    ///
    /// All except errors of handles have the span of the item. A module that is refused breaks a rule.
    /// `OutOfMemory` if memory was refused. After each of them the validator is as after `reset`.
    pub fn validate(&mut self, module: &Module) -> Result<ModuleInfo, WithSpan<ValidationError>>
        ensures result { UnlessOutOfMemory (λ e. inner_of e ≡ ValidationError.OutOfMemory) result
            (λ info. Accepts (T.resolves self.old.typing) «module».now (settings_of self.old false) self.new.infos
            info.lists)
            (λ e. Refuses (T.resolves self.old.typing) «module».now (settings_of self.old false) (inner_of e)) }
        ensures types { OnOk result (AreValidTypes «module».now (settings_of self.old false) self.new.infos) }
        ensures leaves { OnOk result (AllLeavesAreSeparate (global_lists «module».now) self.new.infos) }
        ensures references { OnOk result (GlobalReferencesOk (global_lists «module».now)) }
        ensures cleared { OnErr result (self.new.infos ≡ []) }
        ensures settings { self.new ≡ record self.old { infos = self.new.infos } }
    {
        self.validate_impl(module, false)
    }

    /// Validates a module as `validate` does, except that overrides have to have their values. What is
    /// accepted so, `validate` accepts with the same info.
    ///
    /// # Errors
    ///
    /// The errors of `validate`.
    pub fn validate_resolved_overrides(
        &mut self,
        module: &Module,
    ) -> Result<ModuleInfo, WithSpan<ValidationError>>
        ensures result { UnlessOutOfMemory (λ e. inner_of e ≡ ValidationError.OutOfMemory) result
            (λ info. Accepts (T.resolves self.old.typing) «module».now (settings_of self.old true) self.new.infos
            info.lists)
            (λ e. Refuses (T.resolves self.old.typing) «module».now (settings_of self.old true) (inner_of e)) }
        ensures unresolved { IfOk result
            (λ info. Accepts (T.resolves self.old.typing) «module».now (settings_of self.old false) self.new.infos
            info.lists) }
        ensures types { OnOk result (AreValidTypes «module».now (settings_of self.old true) self.new.infos) }
        ensures leaves { OnOk result (AllLeavesAreSeparate (global_lists «module».now) self.new.infos) }
        ensures references { OnOk result (GlobalReferencesOk (global_lists «module».now)) }
        ensures cleared { OnErr result (self.new.infos ≡ []) }
        ensures settings { self.new ≡ record self.old { infos = self.new.infos } }
    {
        self.validate_impl(module, true)
    }

    /// What both calls do: validates, and resets after a refusal. The rules are a function of their own, since
    /// each of them leaves by `?`.
    fn validate_impl(
        &mut self,
        module: &Module,
        overrides_resolved: bool,
    ) -> Result<ModuleInfo, WithSpan<ValidationError>>
        ensures result { UnlessOutOfMemory (λ e. inner_of e ≡ ValidationError.OutOfMemory) result
            (λ info. Accepts (T.resolves self.old.typing) «module».now (settings_of self.old overrides_resolved)
            self.new.infos info.lists)
            (λ e. Refuses (T.resolves self.old.typing) «module».now (settings_of self.old overrides_resolved)
            (inner_of e)) }
        ensures cleared { OnErr result (self.new.infos ≡ []) }
        ensures settings { self.new ≡ record self.old { infos = self.new.infos } }
    {
        let result = self.validate_steps(module, overrides_resolved);
        // After a refusal `infos` may have types of the refused module.
        if result.is_err() {
            self.reset();
        }
        result
    }

    /// The rules in their order, up to the first refusal.
    fn validate_steps(
        &mut self,
        module: &Module,
        overrides_resolved: bool,
    ) -> Result<ModuleInfo, WithSpan<ValidationError>>
        ensures result { UnlessOutOfMemory (λ e. inner_of e ≡ ValidationError.OutOfMemory) result
            (λ info. Accepts (T.resolves self.old.typing) «module».now (settings_of self.old overrides_resolved)
            self.new.infos info.lists)
            (λ e. Refuses (T.resolves self.old.typing) «module».now (settings_of self.old overrides_resolved)
            (inner_of e)) }
        ensures settings { self.new ≡ record self.old { infos = self.new.infos } }
    {
        // Handles come first: all later steps index by them without a check.
        if let Err(fault) = validate_module_handles(self.alloc, module) {
            return Err(WithSpan::new(ValidationError::from(fault)));
        }
        // Layouts come next, since the rules of types read sizes and alignments.
        lay_out(&mut self.layouter, module)?;
        let settings = Settings {
            flags: self.flags,
            capabilities: self.capabilities,
            overrides_resolved,
        };
        let mut mod_info = validate_types(
            self.alloc,
            settings,
            module,
            &self.layouter,
            &mut self.infos,
        )?;
        // Without `CONSTANTS` expressions are typed too: `ModuleInfo` is usable either way.
        resolve_expressions(self.alloc, &self.typing, module, &mut mod_info)?;
        if self.flags.contains(ValidationFlags::CONSTANTS) {
            let ctx = ExprContext {
                capabilities: self.capabilities,
                overrides_resolved,
                subgroup_stages: self.subgroup_stages,
                typing: &self.typing,
            };
            validate_values(self.alloc, ctx, module, &mod_info, &mut self.override_ids)?;
        }
        Ok(mod_info)
    }

    /// Checks that the capabilities allow the width of a scalar, and returns whether immediates may hold it.
    ///
    /// # Errors
    ///
    /// The errors of the function `check_width`.
    pub fn check_width(&self, scalar: Scalar) -> Result<ImmediateCompatibility, WidthError>
        ensures { result ≡ width_rule self.now.capabilities.0 scalar }
    {
        check_width(self.capabilities, scalar)
    }

    /// Checks that the capabilities allow the width of a literal.
    ///
    /// # Errors
    ///
    /// The errors of the function `validate_literal`.
    pub fn validate_literal(&self, literal: Literal) -> Result<(), LiteralError>
        ensures { result ≡ literal_rule self.now.capabilities.0 literal }
    {
        validate_literal(self.capabilities, literal)
    }

    /// The pipeline stages that may use an expression of a function, under the capabilities and the
    /// subgroup stages of the validator. What has to be known of the arguments, and the cost, are as for the
    /// function `validate_expression`.
    ///
    /// # Errors
    ///
    /// The errors of the function `validate_expression`.
    pub fn validate_expression(
        &self,
        overrides_resolved: bool,
        root: Handle<ExpressionTag>,
        expression: &Expression,
        function: &Function,
        module: &Module,
        info: &FunctionInfo,
        mod_info: &ModuleInfo,
        kinds: &ExpressionKindTracker,
    ) -> Result<ShaderStages, ExpressionError>
        requires ready { IsReady (surroundings_under self.now overrides_resolved «module».now function.now
            mod_info.now.lists info.now.types kinds.now) root expression.now }
        ensures { IsExpressionResult (math_typing (T.accepts_types self.now.typing) (T.least_arguments self.now.typing))
            (surroundings_under self.now overrides_resolved «module».now function.now
            mod_info.now.lists info.now.types kinds.now) expression.now result }
    {
        let sources = Sources::new(self.alloc);
        let context = self.context(
            overrides_resolved,
            function,
            module,
            info,
            mod_info,
            kinds,
            &sources,
        );
        validate_expression(self.alloc, &self.typing, context, expression)
    }

    /// What the validation of an expression of a function depends on, besides the expression and the typing.
    pub(super) fn context<'a>(
        &self,
        overrides_resolved: bool,
        function: &'a Function,
        module: &'a Module,
        info: &'a FunctionInfo,
        mod_info: &'a ModuleInfo,
        kinds: &'a ExpressionKindTracker,
        sources: &'a Sources,
    ) -> FunctionContext<'a>
        requires { AreSources (scope_in «module».now function.now) sources.now }
        ensures surroundings { surroundings result ≡ surroundings_under self.now overrides_resolved «module».now
            function.now mod_info.now.lists info.now.types kinds.now }
        ensures sources { AreSourcesRight result }
    {
        FunctionContext {
            capabilities: self.capabilities,
            overrides_resolved,
            subgroup_stages: self.subgroup_stages,
            module,
            function,
            info,
            mod_info,
            kinds,
            sources,
        }
    }

    /// What the rules of variables, inputs and outputs of a module depend on, of whose types the infos are known.
    pub(super) fn interface_context<'a>(&'a self, module: &'a Module) -> InterfaceContext<'a>
        ensures { interface_surroundings result ≡ surroundings_of self.now «module».now }
    {
        InterfaceContext {
            flags: self.flags,
            capabilities: self.capabilities,
            types: &module.types,
            infos: &self.infos,
        }
    }

    /// How many types the module last accepted has.
    pub fn type_count(&self) -> usize
        ensures { result ≡ length self.now.infos }
    {
        self.infos.len()
    }

    /// What is known of a type of the module last accepted.
    pub fn type_info(&self, handle: Handle<TypeTag>) -> TypeInfo
        requires { handle < length self.now.infos }
        ensures { slice_get self.now.infos handle ≡ Some result }
    {
        self.infos.get(handle)
    }
}

/// Computes the layouts of a module's types.
fn lay_out(layouter: &mut Layouter, module: &Module) -> Result<(), WithSpan<ValidationError>>
    requires { HandlesAccepted «module».now }
    ensures { UnlessOutOfMemory (λ e. inner_of e ≡ ValidationError.OutOfMemory) result
        (λ _. IsLaidOut «module».now layouter.new)
        (λ e. (resolves : Resolves) (settings : state.Settings) → Refuses resolves «module».now settings (inner_of e)) }
{
    let Err(error) = layouter.update(to_ctx(module)) else {
        return Ok(());
    };
    match error.inner {
        LayoutErrorInner::OutOfMemory => Err(WithSpan::new(ValidationError::OutOfMemory)),
        LayoutErrorInner::TooLarge | LayoutErrorInner::NonPowerOfTwoWidth => {
            let span = module.types.get_span(error.ty);
            Err(WithSpan::new(ValidationError::from(error)).with_span(span))
        }
    }
}

/// Validates each type in order, and fills `infos`.
fn validate_types(
    alloc: Global,
    settings: Settings,
    module: &Module,
    layouter: &Layouter,
    infos: &mut TypeInfos,
) -> Result<ModuleInfo, WithSpan<ValidationError>>
    requires { IsLaidOut «module».now layouter.now }
    ensures { UnlessOutOfMemory (λ e. inner_of e ≡ ValidationError.OutOfMemory) result
        (λ info. AreValidTypes «module».now settings infos.new.infos
        × (info.lists ≡ lists_of (record { infos = infos.new.infos; resolutions = [] })))
        (λ e. (resolves : Resolves) → Refuses resolves «module».now settings (inner_of e)) }
{
    let mut mod_info = ModuleInfo::new(alloc);
    make_room(alloc, module, infos, &mut mod_info)?;
    for (handle, ty) in module.types.iter() {
        match type_info_of(alloc, settings, infos, layouter, handle, module) {
            Ok(info) => infos.push(info)?,
            Err(source) => {
                if is_out_of_memory(&source) {
                    return Err(WithSpan::new(ValidationError::OutOfMemory));
                }
                let name = name_of(alloc, &ty.name)?;
                let error = ValidationError::Type_ {
                    handle,
                    name,
                    source,
                };
                return Err(WithSpan::new(error).with_span(module.types.get_span(handle)));
            }
        }
    }
    mod_info.copy_flags(infos)?;
    Ok(mod_info)
}

/// Whether a type was not validated to the end, since a request for memory was refused.
fn is_out_of_memory(error: &TypeError) -> bool
    ensures { IsTrue result ↔ (error.now ≡ TypeError.OutOfMemory) }
{
    matches!(error, TypeError::OutOfMemory)
}

/// Validates one type, by the infos of the types before it.
fn type_info_of(
    alloc: Global,
    settings: Settings,
    infos: &TypeInfos,
    layouter: &Layouter,
    handle: Handle<TypeTag>,
    module: &Module,
) -> Result<TypeInfo, TypeError>
    requires exists { handle < length «module».now.types }
    requires known { handle ≤ length infos.now.infos }
    requires laid_out { IsLaidOut «module».now layouter.now }
    ensures { IfSome (rule_at (surroundings_by (global_lists «module».now) settings.capabilities settings.resolved
        layouter.now infos.now.infos) handle) (λ rule. IsRuleResult rule result) }
{
    let ctx = TypeContext {
        capabilities: settings.capabilities,
        overrides_resolved: settings.overrides_resolved,
        infos,
        layouter,
    };
    validate_type(alloc, ctx, handle, to_ctx(module))
}

/// Clears `infos`, and makes room for what is learnt of the types and global expressions of a module.
fn make_room(
    alloc: Global,
    module: &Module,
    infos: &mut TypeInfos,
    mod_info: &mut ModuleInfo,
) -> Result<(), OutOfMemory>
    ensures infos { OnOk result (infos.new.infos ≡ []) }
    ensures mod_info { mod_info.new.lists ≡ mod_info.old.lists }
{
    let types = module.types.len();
    infos.clear();
    if infos.room() < types {
        *infos = TypeInfos::with_room(alloc, types)?;
    }
    mod_info.reserve(types, module.global_expressions.len())
}

/// Resolves the type of each global expression, by the types of the expressions before it.
fn resolve_expressions<T: Typing>(
    alloc: Global,
    typing: &T,
    module: &Module,
    mod_info: &mut ModuleInfo,
) -> Result<(), WithSpan<ValidationError>>
    requires handles { HandlesAccepted «module».now }
    requires none { mod_info.old.lists.const_expression_types ≡ [] }
    ensures result { UnlessOutOfMemory (λ e. inner_of e ≡ ValidationError.OutOfMemory) result
        (λ _. AreResolved (T.resolves typing.now) «module».now mod_info.new.lists.const_expression_types)
        (λ e. IsFirstUnresolved (T.resolves typing.now) «module».now (inner_of e)) }
    ensures exist { OnOk result (All (TypesExist «module».now.types) mod_info.new.lists.const_expression_types) }
    ensures others { mod_info.new.lists
        ≡ record mod_info.old.lists { const_expression_types = mod_info.new.lists.const_expression_types } }
{
    for (handle, expression) in module.global_expressions.iter() {
        match typing.resolve(alloc, module, expression, mod_info.const_expression_types()) {
            Ok(ty) => mod_info.push_expression(ty)?,
            Err(ResolveError::OutOfMemory) => return Err(WithSpan::new(
                ValidationError::OutOfMemory,
            )),
            Err(error) => {
                let source = ConstExpressionError::from(error);
                let error = ValidationError::ConstExpression { handle, source };
                let span = module.global_expressions.get_span(handle);
                return Err(WithSpan::new(error).with_span(span));
            }
        }
    }
    Ok(())
}
