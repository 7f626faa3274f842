//! The expressions of a function: their types and their rules (naga's valid/function.rs).

ghost use Rattle.std.specs.Prelude.{◌≡◌, ◌≤◌, [], Contains, IfErr, IfSome, IsFalse, OnErr, OnOk, Some, length, slice_get, ℕ};
ghost use Rattle.naga_arena.specs.Memory.{UnlessOutOfMemory};
ghost use Rattle.naga_info.specs.Integers.{scope_in};
ghost use Rattle.naga_info.specs.Sources.{AreSources, PlaceExists};
ghost use Rattle.naga_info.specs.Surroundings.{kind_operands};
ghost use Rattle.naga_ir.specs.Handles.{ExpressionReferencesOk, FunctionReferencesOk, HandlesAccepted, OrderedOperands, ReferencesPrecede};
ghost use Rattle.naga_ir.specs.References.{operands};
ghost use Rattle.naga_valid.specs.Accepted.{Accepts};
ghost use Rattle.naga_valid.specs.AllFunctions.{AddsInfos, AreInfosInOrder, HaveInfos, IsNext, IsNextRefused, IsThere, ValidatesFunctions, function_of};
ghost use Rattle.naga_valid.specs.ErrorNames.{function_error_name};
ghost use Rattle.naga_valid.specs.Functions.{CallsBefore, IsFunctionAccepted, RefusesFunction, validator_surroundings};
ghost use Rattle.naga_valid.specs.State.{settings_of};
ghost use Rattle.naga_valid.specs.steps.AllFunctions.{HaveFunctionInfos, IsInfoAdded, with_info};
ghost use Rattle.naga_valid.specs.steps.Functions.{AllowInCommon, AreFoundKinds, CanCheckRules, IsFirstBreachAs, SufficeFor};

use crate::driver::Validator;
use bitflags::Flags;
use naga_exprs::expression::{admits_expression, validate_expression};
use naga_flags::flags::ShaderStages;
use naga_info::context::every_stage;
use naga_info::expression_error::ExpressionError;
use naga_info::infer::{UntypedExpression, infer_types};
use naga_info::module_info::{FunctionInfo, ModuleInfo};
use naga_info::sources::{Place, Sources, components_at, only_source};
use naga_ir::expression::{BinaryOperator, Expression};
use naga_ir::handle::Handle;
use naga_ir::ir::{Function, Module};
use naga_ir::memory::OutOfMemory;
use naga_ir::tags::{ExpressionTag, FunctionTag};
use naga_typing::expression_kind::ExpressionKindTracker;
use naga_typing::typifier::ResolveError;
use naga_typing::typing::Typing;
use std::alloc::Global;
use thiserror::Error;

/// Why a function is refused: naga's `FunctionError`, as far as expressions are validated.
#[derive(Debug, PartialEq, Drop, Error)]
pub enum FunctionError {
    /// An expression has no type, or breaks its rule.
    #[error("Expression {handle:?} is invalid")]
    Expression {
        handle: Handle<ExpressionTag>,
        source: ExpressionError,
    },
    /// A request for memory was refused, and nothing was decided about the function.
    #[error("Out of memory")]
    OutOfMemory,
}

impl FunctionError {
    /// The name of the variant.
    pub fn name(&self) -> &'static str
        ensures { result.now ≡ function_error_name self.now }
    {
        match self {
            FunctionError::Expression { .. } => "Expression",
            FunctionError::OutOfMemory => "OutOfMemory",
        }
    }
}

impl From<OutOfMemory> for FunctionError {
    ghost use Rattle.std.specs.Prelude.{◌≡◌};
    ghost use Rattle.naga_valid.specs.declared.function.FunctionError.TheVariants as variant;

    ghost from_gives = { λ _ error. error ≡ variant.OutOfMemory };

    fn from(_: OutOfMemory) -> FunctionError {
        FunctionError::OutOfMemory
    }
}

/// A function of a module, or one of its entry points.
#[derive(Clone, Copy, Debug, PartialEq, Eq)]
pub enum Callable {
    Function(Handle<FunctionTag>),
    /// The entry point of this index.
    EntryPoint(usize),
}

impl Callable {
    /// The function, or the function of the entry point.
    pub fn function<'a>(&self, module: &'a Module) -> &'a Function
        requires { IsThere «module».now self.now }
        ensures { function_of «module».now self.now ≡ Some result.now }
    {
        match *self {
            Callable::Function(handle) => &module.functions[handle],
            Callable::EntryPoint(index) => &module.entry_points.as_slice()[index].function,
        }
    }
}

/// The first function or entry point of a module that is refused, and why.
#[derive(Debug, PartialEq, Drop, Error)]
#[error("{at:?}: {source}")]
pub struct FunctionsError {
    pub at: Callable,
    /// `OutOfMemory` if memory was refused, and nothing was decided about this function or entry point.
    pub source: FunctionError,
}

/// Adds what is known of a function or entry point.
fn add_info(mod_info: &mut ModuleInfo, at: &Callable, info: FunctionInfo) -> Result<(), OutOfMemory>
    ensures added { OnOk result (mod_info.new.lists ≡ with_info mod_info.old.lists at.now info) }
    ensures refused { OnErr result (mod_info.new.lists ≡ mod_info.old.lists) }
{
    match *at {
        Callable::Function(_) => mod_info.push_function(info),
        Callable::EntryPoint(_) => mod_info.push_entry_point(info),
    }
}

/// Whether the rule of an expression needs the kind of an operand: only the rule of a sample does, for its offset.
fn needs_kinds(expression: &Expression) -> bool
    ensures { IsFalse result → kind_operands expression.now ≡ [] }
{
    matches!(
        expression,
        Expression::ImageSample {
            offset: Some(_),
            ..
        }
    )
}

/// Finds the kinds of the expressions of a function, unless they are found, if the rule of an expression needs one.
/// Few functions have such an expression.
///
/// # Errors
///
/// `OutOfMemory` if memory was refused.
fn find_kinds(
    alloc: Global,
    function: &Function,
    expression: &Expression,
    kinds: &mut ExpressionKindTracker,
) -> Result<(), OutOfMemory>
    requires back { ReferencesPrecede (OrderedOperands function.now.expressions) }
    requires found { AreFoundKinds function.now.expressions kinds.old }
    ensures found { OnOk result (AreFoundKinds function.now.expressions kinds.new) }
    ensures suffice { OnOk result (SufficeFor function.now.expressions expression.now kinds.new) }
{
    if needs_kinds(expression) && kinds.is_empty() {
        *kinds = ExpressionKindTracker::from_arena(alloc, &function.expressions)?;
    }
    Ok(())
}

/// The operand whose integers the rule of an expression searches: what is on the right of a division or a shift.
fn searched_operand(expression: &Expression) -> Option<Handle<ExpressionTag>>
    ensures { IfSome result (Contains (operands expression.now)) }
{
    let Expression::Binary {
        op: BinaryOperator::Divide
        | BinaryOperator::Modulo
        | BinaryOperator::ShiftLeft
        | BinaryOperator::ShiftRight,
        right,
        ..
    } = *expression
    else {
        return None;
    };
    Some(right)
}

/// How many compositions of several components can be nested in a vector: one of four components has one of three, and
/// that has one of two.
const NESTED_COUNT: u32 = 3;

/// What is left of a number of expressions that searches may go through, once the expression at a place is searched for
/// forbidden integers: 0 too if more compositions are nested in it than the `nested` that an accepted operand has.
fn unspent(module: &Module, function: &Function, place: Place, nested: u32, allowed: usize) -> usize
    requires handles { HandlesAccepted «module».now }
    requires in_function { ExpressionReferencesOk «module».now function.now }
    requires exists { PlaceExists (scope_in «module».now function.now) place }
{
    let mut last = place;
    let mut left = allowed.saturating_sub(1);
    while let Some(next) = only_source(module, function, &last) {
        left = left.saturating_sub(1);
        last = next;
    }
    for component in components_at(module, function, &last) {
        if nested == 0 || left == 0 {
            return 0;
        }
        let place = last.operand_place(*component);
        left = unspent(module, function, place, nested - 1, left);
    }
    left
}

/// The last sources of a function's expressions, which are found once searches for forbidden integers have gone through
/// about as many expressions as that takes. In few functions they do.
#[derive(Drop)]
struct SearchedSources {
    /// How many expressions searches may go through before the last sources are found; none if they are found.
    left: usize,
    sources: Sources,
}

impl SearchedSources {
    /// The last sources of no expression of a function, before its first search. It takes no memory.
    fn new(alloc: Global, module: &Module, function: &Function) -> SearchedSources
        ensures { result.sources ≡ record { in_function = []; in_module = [] } }
    {
        let count = module.global_expressions.len() + function.expressions.len();
        SearchedSources {
            left: 2 * count,
            sources: Sources::new(alloc),
        }
    }

    /// Finds the last sources of a function's expressions if searches have gone through so many expressions, with the
    /// search for forbidden integers on the right of an operator of the function that is checked next.
    ///
    /// # Errors
    ///
    /// `OutOfMemory` if memory was refused.
    fn find(
        &mut self,
        alloc: Global,
        module: &Module,
        function: &Function,
        expression: &Expression,
    ) -> Result<(), OutOfMemory>
        requires handles { HandlesAccepted «module».now }
        requires in_function { ExpressionReferencesOk «module».now function.now }
        requires there { (e : ℕ) × (slice_get function.now.expressions e ≡ Some expression.now) }
        requires right { AreSources (scope_in «module».now function.now) self.old.sources }
        ensures right { OnOk result (AreSources (scope_in «module».now function.now) self.new.sources) }
    {
        if self.left == 0 {
            return Ok(());
        }
        let Some(right) = searched_operand(expression) else {
            return Ok(());
        };
        let place = Place::InFunction(right);
        self.left = unspent(module, function, place, NESTED_COUNT, self.left);
        if self.left == 0 {
            self.sources = Sources::find(alloc, module, function)?;
        }
        Ok(())
    }
}

impl<T: Typing> Validator<T> {
    /// What is known of a function whose expressions have types and keep their rules: these types, in
    /// their order, and the pipeline stages that each expression may be used by, all stages if there are
    /// none. Naga's `Validator::validate_function` does the same before it validates the body.
    ///
    /// Each type follows from the types before it, as `infer_types` says, and each rule is the rule of
    /// `validate_expression`. The handles of the module and of the function are right, and `mod_info`
    /// says of each type what it may be used for. It knows each function whose result is among the
    /// expressions, so functions are validated in order, and each info is pushed to `mod_info` before the
    /// next. The law `laws::functions` says that this can be done in a module that `validate` accepts.
    ///
    /// It takes memory for the types of the expressions, for their kinds if one is a sample with an offset, and for
    /// the sources of these and of the global expressions if divisions and shifts search more than twice as many. The
    /// cost is linear in the number of these, besides what `validate_expression` says of each.
    ///
    /// # Errors
    ///
    /// - `Expression` for the first expression that breaks its rule, with the error of its rule, or that
    ///   keeps it and has no type, with `ExpressionError::Type_`. Such a function isn't accepted with any
    ///   types. The error has none either: `infer_types` returns the types before the first missing one.
    /// - `OutOfMemory` if memory was refused.
    pub fn validate_function_expressions(
        &self,
        module: &Module,
        mod_info: &ModuleInfo,
        function: &Function,
        overrides_resolved: bool,
    ) -> Result<FunctionInfo, FunctionError>
        requires handles { HandlesAccepted «module».now }
        requires in_function { FunctionReferencesOk «module».now function.now }
        requires flags { length «module».now.types ≤ length mod_info.now.lists.type_flags }
        requires calls { CallsBefore function.now (length mod_info.now.lists.functions) }
        ensures { let s = validator_surroundings T.resolves T.accepts_types T.least_arguments
            self.now overrides_resolved «module».now function.now mod_info.now.lists in
            UnlessOutOfMemory (λ e. e ≡ FunctionError.OutOfMemory) result (λ info. IsFunctionAccepted s info)
            (λ e. RefusesFunction s e) }
    {
        match infer_types(self.alloc, module, function, &self.typing) {
            Ok(mut info) => {
                info.available_stages = self.validate_rules(
                    module,
                    mod_info,
                    function,
                    &info,
                    overrides_resolved,
                )?;
                Ok(info)
            }
            Err(
                UntypedExpression {
                    error: ResolveError::OutOfMemory,
                    ..
                },
            ) => Err(FunctionError::OutOfMemory),
            Err(
                UntypedExpression {
                    info,
                    handle,
                    error,
                },
            ) => {
                // The first broken rule up to here is reported in place of the missing type.
                self.validate_rules(module, mod_info, function, &info, overrides_resolved)?;
                let source = ExpressionError::from(error);
                Err(FunctionError::Expression { handle, source })
            }
        }
    }

    /// Checks the rule of each expression in order, up to the first without a type, and returns the
    /// stages that may use all of these.
    ///
    /// # Errors
    ///
    /// The first expression that breaks its rule, or `OutOfMemory`.
    fn validate_rules(
        &self,
        module: &Module,
        mod_info: &ModuleInfo,
        function: &Function,
        info: &FunctionInfo,
        overrides_resolved: bool,
    ) -> Result<ShaderStages, FunctionError>
        requires { let s = validator_surroundings T.resolves T.accepts_types T.least_arguments
            self.now overrides_resolved «module».now function.now mod_info.now.lists in
            CanCheckRules s info.now.types }
        ensures { let s = validator_surroundings T.resolves T.accepts_types T.least_arguments
            self.now overrides_resolved «module».now function.now mod_info.now.lists in
            UnlessOutOfMemory (λ e. e ≡ FunctionError.OutOfMemory) result
            (λ common. AllowInCommon s info.now.types common)
            (λ e. IsFirstBreachAs s info.now.types e) }
    {
        let mut kinds = ExpressionKindTracker::new(self.alloc);
        let mut searched = SearchedSources::new(self.alloc, module, function);
        let mut stages = ShaderStages::all();
        for (handle, expression) in function.expressions.iter() {
            // The first without a type is included: its rule only needs the types before it.
            if handle.index() > info.types.len() {
                break;
            }
            find_kinds(self.alloc, function, expression, &mut kinds)?;
            searched.find(self.alloc, module, function, expression)?;
            // For most expressions a bool is enough. The result of `validate_expression` is wide, and is moved before
            // it is looked at.
            let context = self.context(
                overrides_resolved,
                function,
                module,
                info,
                mod_info,
                &kinds,
                &searched.sources,
            );
            if admits_expression(&self.typing, context, expression) {
                stages = stages.intersection(every_stage());
                continue;
            }
            match validate_expression(self.alloc, &self.typing, context, expression) {
                Ok(allowed) => stages = stages.intersection(allowed),
                Err(ExpressionError::OutOfMemory) => return Err(FunctionError::OutOfMemory),
                Err(source) => return Err(FunctionError::Expression { handle, source }),
            }
        }
        Ok(stages)
    }

    /// Validates the expressions of all functions of an accepted module, and then of all entry points,
    /// each as `validate_function_expressions` does, and adds what is known of each to `mod_info`. `mod_info`
    /// is what `validate` or `validate_resolved_overrides` returned for this module, with the same
    /// `overrides_resolved`, and the validator has validated no other module since.
    ///
    /// # Errors
    ///
    /// The first function that is refused, or else the first entry point. `mod_info` then has the infos of all
    /// before it. The same holds if memory was refused.
    pub fn validate_functions(
        &self,
        module: &Module,
        mod_info: &mut ModuleInfo,
        overrides_resolved: bool,
    ) -> Result<(), FunctionsError>
        requires { Accepts (T.resolves self.now.typing) «module».now (settings_of self.now overrides_resolved)
            self.now.infos mod_info.old.lists }
        ensures { let by = validator_surroundings T.resolves T.accepts_types T.least_arguments
            self.now overrides_resolved «module».now in
            ValidatesFunctions by «module».now mod_info.old.lists mod_info.new.lists result }
    {
        // Entry points come after all functions, since they may call any of them.
        self.validate_each_function(module, mod_info, overrides_resolved)?;
        self.validate_each_entry_point(module, mod_info, overrides_resolved)
    }

    /// Validates the functions in order, and adds what is known of each.
    ///
    /// # Errors
    ///
    /// The first function that is refused.
    fn validate_each_function(
        &self,
        module: &Module,
        mod_info: &mut ModuleInfo,
        overrides_resolved: bool,
    ) -> Result<(), FunctionsError>
        requires handles { HandlesAccepted «module».now }
        requires flags { length «module».now.types ≤ length mod_info.old.lists.type_flags }
        requires functions { mod_info.old.lists.functions ≡ [] }
        requires entry_points { mod_info.old.lists.entry_points ≡ [] }
        ensures { let by = validator_surroundings T.resolves T.accepts_types T.least_arguments
            self.now overrides_resolved «module».now in
            AddsInfos by «module».now (HaveFunctionInfos «module».now) mod_info.old.lists mod_info.new.lists result }
    {
        for index in 0..module.functions.len() {
            let at = Callable::Function(Handle::new(index as u32));
            self.validate_next(module, mod_info, at, overrides_resolved)?;
        }
        Ok(())
    }

    /// Validates the entry points in order, and adds what is known of each.
    ///
    /// # Errors
    ///
    /// The first entry point that is refused.
    fn validate_each_entry_point(
        &self,
        module: &Module,
        mod_info: &mut ModuleInfo,
        overrides_resolved: bool,
    ) -> Result<(), FunctionsError>
        requires handles { HandlesAccepted «module».now }
        requires flags { length «module».now.types ≤ length mod_info.old.lists.type_flags }
        requires functions { HaveFunctionInfos «module».now mod_info.old.lists }
        requires in_order { let by = validator_surroundings T.resolves T.accepts_types T.least_arguments
            self.now overrides_resolved «module».now in
            AreInfosInOrder by «module».now mod_info.old.lists }
        ensures { let by = validator_surroundings T.resolves T.accepts_types T.least_arguments
            self.now overrides_resolved «module».now in
            ValidatesFunctions by «module».now mod_info.old.lists mod_info.new.lists result }
    {
        for index in 0..module.entry_points.as_slice().len() {
            self.validate_next(
                module,
                mod_info,
                Callable::EntryPoint(index),
                overrides_resolved,
            )?;
        }
        Ok(())
    }

    /// Validates the first function or entry point without an info, and adds what is known of it.
    ///
    /// # Errors
    ///
    /// The error of the function or entry point that is refused, or `OutOfMemory` if memory was refused.
    fn validate_next(
        &self,
        module: &Module,
        mod_info: &mut ModuleInfo,
        at: Callable,
        overrides_resolved: bool,
    ) -> Result<(), FunctionsError>
        requires handles { HandlesAccepted «module».now }
        requires flags { length «module».now.types ≤ length mod_info.old.lists.type_flags }
        requires next { IsNext «module».now mod_info.old.lists at }
        ensures added { let by = validator_surroundings T.resolves T.accepts_types T.least_arguments
            self.now overrides_resolved «module».now in
            OnOk result (IsInfoAdded by «module».now at mod_info.old.lists mod_info.new.lists) }
        ensures same { OnErr result (mod_info.new.lists ≡ mod_info.old.lists) }
        ensures refused { let by = validator_surroundings T.resolves T.accepts_types T.least_arguments
            self.now overrides_resolved «module».now in
            IfErr result (IsNextRefused by «module».now mod_info.old.lists) }
    {
        let function = at.function(module);
        let info = match self.validate_function_expressions(
            module,
            mod_info,
            function,
            overrides_resolved,
        ) {
            Ok(info) => info,
            Err(source) => return Err(FunctionsError { at, source }),
        };
        match add_info(mod_info, &at, info) {
            Ok(()) => Ok(()),
            Err(OutOfMemory) => {
                let source = FunctionError::OutOfMemory;
                Err(FunctionsError { at, source })
            }
        }
    }
}
