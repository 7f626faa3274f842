//! The variables of a module, and what its functions and entry points declare (naga's valid/interface.rs).

ghost use Rattle.std.specs.List.{list_any};
ghost use Rattle.std.specs.Prelude.{◌≡◌, ◌<◌, ◌+◌, ◌++◌, ◌∷◌, [], All, IfOk, IsFalse, IsOk, IsTrue, List, MatchResult, OnOk, length, not, take};
ghost use Rattle.naga_ir.specs.Handles.{OrderedOperands, ReferencesPrecede};
ghost use Rattle.naga_ir.specs.declared.ir.EntryPoint as declared;
ghost use Rattle.naga_typing.specs.Kinds.{AreKinds};
ghost use Rattle.naga_valid.specs.Accepted.{Accepts};
ghost use Rattle.naga_valid.specs.Functions.{validator_surroundings};
ghost use Rattle.naga_valid.specs.Interfaces.{AreDeclarationsChecked, AreFunctionsValidated, IsDeclarationsResult, IsInterfacesResult, IsKnown, IsVariableRefusal, KeepDeclarations, KeepVariables, has_initialisers, is_conflict};
ghost use Rattle.naga_valid.specs.State.{settings_of};
ghost use Rattle.naga_valid.specs.steps.Interfaces.{AreNamesOf, AreNoted, IsDeclarationAnswer, IsInterfaceAnswer, has_covered_stage};

use crate::driver::Validator;
use crate::function::FunctionsError;
use naga_info::module_info::ModuleInfo;
use naga_interface::context::Initialisers;
use naga_interface::entry_point::validate_entry_point;
use naga_interface::error::{EntryPointError, FunctionDeclarationError, GlobalVariableError};
use naga_interface::function::validate_declarations;
use naga_interface::global_variable::validate_global_variable;
use naga_ir::handle::Handle;
use naga_ir::ir::{EntryPoint, Module, ShaderStage};
use naga_ir::memory::OutOfMemory;
use naga_ir::tags::{FunctionTag, GlobalVariableTag};
use naga_typing::expression_kind::ExpressionKindTracker;
use naga_typing::typing::Typing;
use std::alloc::Global;
use std::collections::BTreeSet;
use thiserror::Error;

/// The first variable of a module that is refused, and why.
#[derive(Clone, Copy, Debug, PartialEq, Error)]
pub enum VariablesError {
    #[error("Global variable {handle:?} is invalid: {source}")]
    GlobalVariable {
        handle: Handle<GlobalVariableTag>,
        source: GlobalVariableError,
    },
    /// A request for memory was refused, and nothing was decided about the variables.
    #[error("Out of memory")]
    OutOfMemory,
}

impl From<OutOfMemory> for VariablesError {
    ghost use Rattle.std.specs.Prelude.{◌≡◌};
    ghost use Rattle.naga_valid.specs.declared.interface.VariablesError.TheVariants as variant;

    ghost from_gives = { λ _ error. error ≡ variant.OutOfMemory };

    fn from(_: OutOfMemory) -> VariablesError {
        VariablesError::OutOfMemory
    }
}

/// The first function of a module, or else its first entry point, whose declarations are refused, and why. If memory was
/// refused, the error inside says so, and nothing was decided about this function or entry point.
#[derive(Debug, PartialEq, Drop, Error)]
pub enum InterfacesError {
    #[error("Function {handle:?} is invalid: {source}")]
    Function {
        handle: Handle<FunctionTag>,
        source: FunctionDeclarationError,
    },
    /// The entry point of this index.
    #[error("Entry point {index} is invalid: {source}")]
    EntryPoint {
        index: usize,
        source: EntryPointError,
    },
}

/// What is refused first of what an accepted module declares besides types and values.
#[derive(Debug, PartialEq, Drop, Error)]
pub enum DeclarationsError {
    #[error(transparent)]
    Variable(VariablesError),
    /// An expression of a function or entry point: what these declare is validated only once their expressions are.
    #[error(transparent)]
    Function(FunctionsError),
    #[error(transparent)]
    Interface(InterfacesError),
}

/// The names of the entry points of each stage that is covered.
#[derive(Drop)]
struct EntryPointNames<'a> {
    vertex: BTreeSet<&'a str>,
    fragment: BTreeSet<&'a str>,
    compute: BTreeSet<&'a str>,
}

impl<'a> EntryPointNames<'a> {
    /// No names. It takes no memory.
    fn new(alloc: Global) -> EntryPointNames<'a>
        ensures { AreNamesOf [] result }
    {
        EntryPointNames {
            vertex: BTreeSet::new(alloc),
            fragment: BTreeSet::new(alloc),
            compute: BTreeSet::new(alloc),
        }
    }

    /// Adds the name of an entry point, and returns whether it is new in its stage. Of stages that are not covered none
    /// is noted: the first entry point of one is refused.
    ///
    /// # Errors
    ///
    /// `OutOfMemory` if memory was refused.
    fn insert(&mut self, entry_point: &'a EntryPoint) -> Result<bool, OutOfMemory>
        ensures is_new { IfOk result (λ is_new. (before : List declared.EntryPoint) → AreNamesOf before self.old
            → All (λ (e : declared.EntryPoint). IsTrue (has_covered_stage e)) before
            → is_new ≡ not (list_any (is_conflict entry_point.now) before)) }
        ensures added { OnOk result ((before : List declared.EntryPoint) → AreNamesOf before self.old
            → AreNamesOf (before ++ entry_point.now ∷ []) self.new) }
    {
        let name = entry_point.name.as_str();
        match entry_point.stage {
            Some(ShaderStage::Vertex) => Ok(self.vertex.insert(name)?),
            Some(ShaderStage::Fragment) => Ok(self.fragment.insert(name)?),
            Some(ShaderStage::Compute) => Ok(self.compute.insert(name)?),
            Some(
                ShaderStage::Task
                | ShaderStage::Mesh
                | ShaderStage::RayGeneration
                | ShaderStage::Miss
                | ShaderStage::AnyHit
                | ShaderStage::ClosestHit,
            )
            | None => Ok(true),
        }
    }
}

/// When the values of the global expressions are known, if a variable has an initialiser. Else nothing is found, and no
/// memory taken.
///
/// # Errors
///
/// `OutOfMemory` if memory was refused.
fn find_kinds(alloc: Global, module: &Module) -> Result<ExpressionKindTracker, OutOfMemory>
    requires { ReferencesPrecede (OrderedOperands «module».now.global_expressions) }
    ensures found { IsTrue (has_initialisers «module».now) → IfOk result (AreKinds «module».now.global_expressions) }
    ensures none { IsFalse (has_initialisers «module».now) → IsOk result }
{
    if module
        .global_variables
        .as_slice()
        .iter()
        .any(|variable| variable.init.is_some())
    {
        ExpressionKindTracker::from_arena(alloc, &module.global_expressions)
    } else {
        Ok(ExpressionKindTracker::new(alloc))
    }
}

impl<T: Typing> Validator<T> {
    /// Validates the variables of an accepted module in order, each as `validate_global_variable` does. `mod_info` is what
    /// `validate` or `validate_resolved_overrides` returned for this module, and functions may have been added since; the
    /// validator has validated no other module since.
    ///
    /// It takes memory for the kinds of the global expressions if a variable has an initialiser. Its cost is linear in the
    /// variables and these.
    ///
    /// # Errors
    ///
    /// The first variable that is refused, with the first condition of its rule that it breaks, or `OutOfMemory`.
    pub fn validate_variables(
        &self,
        module: &Module,
        mod_info: &ModuleInfo,
    ) -> Result<(), VariablesError>
        requires { IsKnown (T.resolves self.now.typing) self.now «module».now mod_info.now.lists }
        ensures { MatchResult result (λ _. KeepVariables self.now «module».now mod_info.now.lists)
            (IsVariableRefusal self.now «module».now mod_info.now.lists) }
    {
        let kinds = find_kinds(self.alloc, module)?;
        let ctx = self.interface_context(module);
        let init = Initialisers {
            types: mod_info.const_expression_types(),
            kinds: &kinds,
        };
        for (handle, variable) in module.global_variables.iter() {
            if let Err(source) = validate_global_variable(ctx, init, variable) {
                return Err(VariablesError::GlobalVariable { handle, source });
            }
        }
        Ok(())
    }

    /// Validates what the functions of an accepted module declare, in order, and then its entry points, in order: of each
    /// function its local variables, its arguments and its result, as `validate_declarations` does, and each entry point as
    /// `validate_entry_point` does. No two entry points of a stage have one name. Bodies are not validated, nor which
    /// variables they use. `mod_info` is what `validate_functions` left, and the validator has validated no other module
    /// since `validate` or `validate_resolved_overrides` accepted this one.
    ///
    /// It takes memory for the names of entry points if there are several, besides what these calls say.
    ///
    /// # Errors
    ///
    /// The first function that is refused, or else the first entry point.
    pub fn validate_interfaces(
        &self,
        module: &Module,
        mod_info: &ModuleInfo,
    ) -> Result<(), InterfacesError>
        requires accepted { IsKnown (T.resolves self.now.typing) self.now «module».now mod_info.now.lists }
        requires functions { AreFunctionsValidated (λ resolved. validator_surroundings T.resolves T.accepts_types
            T.least_arguments self.now resolved «module».now) «module».now mod_info.now.lists }
        ensures { IsInterfacesResult self.now «module».now mod_info.now.lists result }
    {
        if let Err(error) = self.validate_each_declaration(module, mod_info) {
            return Err(error);
        }
        self.validate_each_interface(module, mod_info)
    }

    /// Validates all that an accepted module declares: its variables as `validate_variables` does, the expressions of its
    /// functions and entry points as `validate_functions` does, and then what these declare as `validate_interfaces` does.
    /// It adds what is known of each function and entry point to `mod_info`, which is what `validate` or
    /// `validate_resolved_overrides` returned for this module, with the same `overrides_resolved`; the validator has
    /// validated no other module since.
    ///
    /// # Errors
    ///
    /// The first error of these calls, in this order. `mod_info` then has the infos that `validate_functions` leaves, and
    /// none if a variable is refused.
    pub fn validate_declarations(
        &self,
        module: &Module,
        mod_info: &mut ModuleInfo,
        overrides_resolved: bool,
    ) -> Result<(), DeclarationsError>
        requires { Accepts (T.resolves self.now.typing) «module».now (settings_of self.now overrides_resolved)
            self.now.infos mod_info.old.lists }
        ensures { let by = validator_surroundings T.resolves T.accepts_types T.least_arguments
            self.now overrides_resolved «module».now in
            IsDeclarationsResult by self.now «module».now mod_info.old.lists mod_info.new.lists result }
    {
        if let Err(error) = self.validate_variables(module, mod_info) {
            return Err(DeclarationsError::Variable(error));
        }
        if let Err(error) = self.validate_functions(module, mod_info, overrides_resolved) {
            return Err(DeclarationsError::Function(error));
        }
        match self.validate_interfaces(module, mod_info) {
            Ok(()) => Ok(()),
            Err(error) => Err(DeclarationsError::Interface(error)),
        }
    }

    /// Validates what each function declares.
    ///
    /// # Errors
    ///
    /// The first function that is refused.
    fn validate_each_declaration(
        &self,
        module: &Module,
        mod_info: &ModuleInfo,
    ) -> Result<(), InterfacesError>
        requires accepted { IsKnown (T.resolves self.now.typing) self.now «module».now mod_info.now.lists }
        requires functions { AreFunctionsValidated (λ resolved. validator_surroundings T.resolves T.accepts_types
            T.least_arguments self.now resolved «module».now) «module».now mod_info.now.lists }
        ensures { AreDeclarationsChecked self.now «module».now mod_info.now.lists result }
    {
        for index in 0..module.functions.len() {
            let handle = Handle::new(index as u32);
            if let Err(source) = self.check_declarations(module, mod_info, handle) {
                return Err(InterfacesError::Function { handle, source });
            }
        }
        Ok(())
    }

    /// Validates what a function declares.
    fn check_declarations(
        &self,
        module: &Module,
        mod_info: &ModuleInfo,
        handle: Handle<FunctionTag>,
    ) -> Result<(), FunctionDeclarationError>
        requires accepted { IsKnown (T.resolves self.now.typing) self.now «module».now mod_info.now.lists }
        requires functions { AreFunctionsValidated (λ resolved. validator_surroundings T.resolves T.accepts_types
            T.least_arguments self.now resolved «module».now) «module».now mod_info.now.lists }
        requires there { handle < length «module».now.functions }
        ensures { IsDeclarationAnswer self.now «module».now mod_info.now.lists handle result }
    {
        let ctx = self.interface_context(module);
        let types = mod_info[handle].types.as_slice();
        validate_declarations(self.alloc, ctx, types, &module.functions[handle])
    }

    /// Validates each entry point.
    ///
    /// # Errors
    ///
    /// The first entry point that is refused.
    fn validate_each_interface(
        &self,
        module: &Module,
        mod_info: &ModuleInfo,
    ) -> Result<(), InterfacesError>
        requires accepted { IsKnown (T.resolves self.now.typing) self.now «module».now mod_info.now.lists }
        requires functions { AreFunctionsValidated (λ resolved. validator_surroundings T.resolves T.accepts_types
            T.least_arguments self.now resolved «module».now) «module».now mod_info.now.lists }
        requires declared { KeepDeclarations self.now «module».now mod_info.now.lists (length «module».now.functions) }
        ensures { IsInterfacesResult self.now «module».now mod_info.now.lists result }
    {
        let mut names = EntryPointNames::new(self.alloc);
        for index in 0..module.entry_points.as_slice().len() {
            if let Err(source) = self.check_interface(module, mod_info, index, &mut names) {
                return Err(InterfacesError::EntryPoint { index, source });
            }
        }
        Ok(())
    }

    /// Validates an entry point, and adds its name to those of the entry points before it if there are several.
    fn check_interface<'a>(
        &self,
        module: &'a Module,
        mod_info: &ModuleInfo,
        index: usize,
        names: &mut EntryPointNames<'a>,
    ) -> Result<(), EntryPointError>
        requires accepted { IsKnown (T.resolves self.now.typing) self.now «module».now mod_info.now.lists }
        requires functions { AreFunctionsValidated (λ resolved. validator_surroundings T.resolves T.accepts_types
            T.least_arguments self.now resolved «module».now) «module».now mod_info.now.lists }
        requires there { index < length «module».now.entry_points }
        requires noted { AreNoted «module».now index names.old }
        ensures answer { IsInterfaceAnswer self.now «module».now mod_info.now.lists index result }
        ensures noted { OnOk result (AreNoted «module».now (index + 1) names.new) }
    {
        let entry_points = module.entry_points.as_slice();
        let entry_point = &entry_points[index];
        // The name of a lone entry point is not noted, which would take memory.
        if entry_points.len() > 1 && !names.insert(entry_point)? {
            return Err(EntryPointError::Conflict);
        }
        let info = mod_info.get_entry_point(index);
        validate_entry_point(
            self.alloc,
            self.interface_context(module),
            info,
            entry_point,
        )
    }
}
