//! What the validation of expressions depends on.

ghost use Rattle.std.specs.Prelude.{◌≡◌, ◌<◌, length};
ghost use Rattle.naga_ir.specs.ItemReferences.{global_lists};
ghost use Rattle.naga_info.specs.Stages as stages;
ghost use Rattle.naga_info.specs.Surroundings.{AreSound, flags_at, form_at, surroundings};
ghost use Rattle.naga_typing.specs.Context.{ReferencesExist};

use crate::module_info::{FunctionInfo, ModuleInfo};
use crate::sources::Sources;
use bitflags::Flags;
use naga_flags::flags::{Capabilities, ShaderStages, TypeFlags};
use naga_ir::handle::Handle;
use naga_ir::ir::{Function, Module};
use naga_ir::tags::{ExpressionTag, TypeTag};
use naga_ir::types::TypeInner;
use naga_typing::expression_kind::ExpressionKindTracker;

/// What the validation of expressions depends on, besides the module and what is known of it.
#[derive_where(Clone, Copy)]
pub struct ExprContext<'a, T> {
    /// What shaders may use.
    pub capabilities: Capabilities,
    /// Whether overrides must have their values.
    pub overrides_resolved: bool,
    /// The pipeline stages that may use subgroup operations.
    pub subgroup_stages: ShaderStages,
    /// What resolves the types of expressions.
    pub typing: &'a T,
}

/// What the validation of an expression of a function depends on, besides the expression and the typing.
#[derive(Clone, Copy)]
pub struct FunctionContext<'a> {
    /// What shaders may use.
    pub capabilities: Capabilities,
    /// Whether overrides must have their values.
    pub overrides_resolved: bool,
    /// The pipeline stages that may use subgroup operations.
    pub subgroup_stages: ShaderStages,
    pub module: &'a Module,
    pub function: &'a Function,
    /// What is known of the function: the types of its expressions, at least of the operands.
    pub info: &'a FunctionInfo,
    /// What is known of the module.
    pub mod_info: &'a ModuleInfo,
    /// When the values of the function's expressions are known, at least of the offset of a sample.
    pub kinds: &'a ExpressionKindTracker,
    /// The last sources of expressions, or of none if nothing is known of them.
    pub sources: &'a Sources,
}

impl<'a> FunctionContext<'a> {
    /// The type of an operand: naga's `ExpressionTypeResolver`.
    pub fn type_of(self, operand: Handle<ExpressionTag>) -> &'a TypeInner
        requires sound { AreSound (surroundings self) }
        requires known { operand < length self.info.now.types }
        ensures form { result.now ≡ form_at (surroundings self.entry) operand }
        ensures exist { ReferencesExist (global_lists self.entry.«module».now) result.now }
    {
        self.info.types.as_slice()[operand.index()].inner_with(&self.module.types)
    }

    /// What a type of the module may be used for.
    pub fn type_flags(self, ty: Handle<TypeTag>) -> TypeFlags
        requires sound { AreSound (surroundings self) }
        requires exists { ty < length self.«module».now.types }
        ensures { result.0 ≡ flags_at (surroundings self.entry) ty }
    {
        self.mod_info[ty]
    }
}

/// All pipeline stages.
pub fn every_stage() -> ShaderStages
    ensures { result ≡ stages.every_stage }
{
    ShaderStages::all()
}
