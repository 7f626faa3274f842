//! The validators that serve all cases of a file.

ghost use Rattle.std.specs.Prelude.{IfErr, IfOk};
ghost use Rattle.naga_query.specs.Accepted.{IsAcceptedBy, IsAcceptedModule, IsVariableThere};
ghost use Rattle.naga_valid.specs.Accepted.{Accepts};
ghost use Rattle.naga_valid.specs.State.{settings_of};

use crate::query::DeclarationQuery;
use naga_module_text::draft::Draft;
use naga_module_text::settings::Settings;
use naga_valid::{
    Capabilities, DeclarationsError, FullTyping, FunctionsError, Module, ModuleInfo, OutOfMemory,
    PlainTyping, Typing, ValidationError, ValidationFlags, Validator, WithSpan, laws,
};
use std::alloc::Global;

/// Validates a module; `resolved` says whether overrides have to have their values.
fn validate_module<T: Typing>(
    validator: &mut Validator<T>,
    module: &Module,
    resolved: bool,
) -> Result<ModuleInfo, WithSpan<ValidationError>>
    ensures { IfOk result (IsAcceptedBy (T.resolves validator.new.typing) validator.new resolved «module».now) }
{
    if resolved {
        validator.validate_resolved_overrides(module)
    } else {
        validator.validate(module)
    }
}

/// A validator, kept from case to case as long as the case has the same settings.
#[derive(Drop)]
pub struct Session<T> {
    alloc: Global,
    flags: ValidationFlags,
    capabilities: Capabilities,
    typing: T,
    /// The validator, with the settings of the case that was validated last.
    pub validator: Validator<T>,
}

impl<T: Typing + Copy> Session<T> {
    /// A session with the default settings.
    pub fn new(alloc: Global, typing: T) -> Session<T> {
        let flags = ValidationFlags::default();
        let capabilities = Capabilities::default();
        Session {
            alloc,
            flags,
            capabilities,
            typing,
            validator: Validator::with_typing(alloc, flags, capabilities, typing),
        }
    }

    /// The allocator of all answers.
    pub fn alloc(&self) -> Global {
        self.alloc
    }

    /// Takes the settings of a case.
    fn set(&mut self, settings: Settings) {
        let flags = settings.flags();
        let capabilities = settings.capabilities();
        if self.flags == flags && self.capabilities == capabilities {
            return;
        }
        self.flags = flags;
        self.capabilities = capabilities;
        self.validator = Validator::with_typing(self.alloc, flags, capabilities, self.typing);
    }

    /// The validator, with the settings of a case.
    pub fn with_settings(&mut self, settings: Settings) -> &Validator<T> {
        self.set(settings);
        &self.validator
    }

    /// Validates the module of a case under its settings.
    pub fn validate(&mut self, draft: &Draft) -> Result<ModuleInfo, WithSpan<ValidationError>>
        ensures { IfOk result (λ info. IsAcceptedModule draft.now.«module» self.new.validator.infos info.lists) }
    {
        self.set(draft.settings);
        let resolved = draft.settings.resolved();
        let info = validate_module(&mut self.validator, &draft.module, resolved)?;
        laws::functions(&draft.module, &self.validator, resolved, &info);
        Ok(info)
    }

    /// Validates the module of a case with all its functions and entry points, under its settings.
    pub fn validate_functions(
        &mut self,
        draft: &Draft,
    ) -> Result<Result<(), FunctionsError>, WithSpan<ValidationError>> {
        self.set(draft.settings);
        let resolved = draft.settings.resolved();
        let mut info = validate_module(&mut self.validator, &draft.module, resolved)?;
        Ok(
            self.validator
                .validate_functions(&draft.module, &mut info, resolved),
        )
    }
}

/// Validates what an accepted module declares, as far as a query asks; `resolved` says whether overrides have to have their
/// values.
#[tactic(auto, using(crate::proofs::Declarations::refused_declaration, crate::proofs::Declarations::refused_variable, naga_valid::proofs::KnownModules::known_at_once, naga_valid::proofs::KnownModules::known_with_functions))]
fn validate_declared<T: Typing>(
    validator: &Validator<T>,
    module: &Module,
    info: &mut ModuleInfo,
    resolved: bool,
    query: DeclarationQuery,
) -> Result<(), DeclarationsError>
    requires { Accepts (T.resolves validator.now.typing) «module».now (settings_of validator.now resolved)
        validator.now.infos info.old.lists }
    ensures { IfErr result (IsVariableThere «module».now) }
{
    match query {
        DeclarationQuery::Variables => validator
            .validate_variables(module, info)
            .map_err(DeclarationsError::Variable),
        DeclarationQuery::Interfaces => {
            if let Err(error) = validator.validate_functions(module, info, resolved) {
                return Err(DeclarationsError::Function(error));
            }
            validator
                .validate_interfaces(module, info)
                .map_err(DeclarationsError::Interface)
        }
        DeclarationQuery::Declarations => validator.validate_declarations(module, info, resolved),
    }
}

impl Session<FullTyping> {
    /// Validates the module of a case with what it declares, as far as a query asks, under its settings.
    pub fn validate_declarations(
        &mut self,
        draft: &Draft,
        query: DeclarationQuery,
    ) -> Result<Result<(), DeclarationsError>, WithSpan<ValidationError>>
        ensures { IfOk result (λ checked. IfErr checked (IsVariableThere draft.now.«module»)) }
    {
        self.set(draft.settings);
        let resolved = draft.settings.resolved();
        let mut info = validate_module(&mut self.validator, &draft.module, resolved)?;
        Ok(validate_declared(&self.validator, &draft.module, &mut info, resolved, query))
    }
}

/// The sessions of a file, one for each typing.
#[derive(Drop)]
pub struct Sessions {
    pub alloc: Global,
    /// What the host sets beside the settings of each case.
    pub host: Settings,
    pub plain: Session<PlainTyping>,
    pub full: Session<FullTyping>,
}

impl Sessions {
    /// Sessions of a host with these settings.
    pub fn new(alloc: Global, host: Settings) -> Sessions {
        Sessions {
            alloc,
            host,
            plain: Session::new(alloc, PlainTyping),
            full: Session::new(alloc, FullTyping),
        }
    }

    /// The module of a text, with its settings and the host's. If `has_stand_ins`, literals stand for arguments that a
    /// function doesn't have.
    pub fn draft(&self, text: &str, has_stand_ins: bool) -> Result<Draft, OutOfMemory> {
        let mut draft = Draft::of_text(self.alloc, text, has_stand_ins)?;
        draft.settings = draft.settings.and(self.host);
        Ok(draft)
    }
}
