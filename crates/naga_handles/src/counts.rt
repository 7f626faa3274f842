//! Which references are dangling, and which go back.

ghost use Rattle.std.specs.Prelude.{◌≡◌, ◌<◌, ◌↔◌, [], ◌∷◌, IfErr, IsOk, MatchResult};
ghost use Rattle.naga_ir.specs.Handles.{Exists, function_counts, module_counts};
ghost use Rattle.naga_ir.specs.References.{operands};
ghost use Rattle.naga_ir.specs.FirstError.{ChecksEach};
ghost use Rattle.naga_handles.specs.Faults.{missing};
ghost use Rattle.naga_handles.specs.steps.ItemChecks.{IsOperandResult};

use crate::error::{FwdDepError, InvalidHandleError};
use naga_ir::expression::Expression;
use naga_ir::handle::{Handle, Kind};
use naga_ir::ir::{Function, Module};
use naga_ir::reference::Reference;
use naga_ir::tags::ExpressionTag;
use std::marker::Model;

/// How many items of each kind can be referred to.
#[derive(Clone, Copy)]
pub(crate) struct Counts {
    types: usize,
    constants: usize,
    overrides: usize,
    global_variables: usize,
    expressions: usize,
    local_variables: usize,
    functions: usize,
    diagnostic_filters: usize,
}

impl Model for Counts {
    ghost use Rattle.naga_ir.specs.Handles.{Counts};

    ghost Value = { Counts };

    ghost inverse = { λ n. record {
      types = n.types;
      constants = n.constants;
      overrides = n.overrides;
      global_variables = n.global_variables;
      expressions = n.expressions;
      local_variables = n.local_variables;
      functions = n.functions;
      diagnostic_filters = n.diagnostic_filters;
    } };

    ghost view = { λ n. record {
      types = n.types;
      constants = n.constants;
      overrides = n.overrides;
      global_variables = n.global_variables;
      expressions = n.expressions;
      local_variables = n.local_variables;
      functions = n.functions;
      diagnostic_filters = n.diagnostic_filters;
    } };
}

impl Counts {
    /// The counts of a module. Its global expressions see no local variable.
    pub(crate) fn of_module(module: &Module) -> Counts
        ensures { result ≡ module_counts «module».now }
    {
        Counts {
            types: module.types.len(),
            constants: module.constants.len(),
            overrides: module.overrides.len(),
            global_variables: module.global_variables.len(),
            expressions: module.global_expressions.len(),
            local_variables: 0,
            functions: module.functions.len(),
            diagnostic_filters: module.diagnostic_filters.len(),
        }
    }

    /// The counts of a function, which sees its own expressions and variables.
    pub(crate) fn of_function(module: &Module, function: &Function) -> Counts
        ensures { result ≡ function_counts «module».now function.now }
    {
        Counts {
            expressions: function.expressions.len(),
            local_variables: function.local_variables.len(),
            ..Counts::of_module(module)
        }
    }

    /// Whether a reference is not dangling.
    #[inline(always)]
    pub(crate) fn check_exists(self, reference: Reference) -> Result<(), InvalidHandleError>
        ensures { MatchResult result (λ _. Exists self reference)
            (λ e. (Exists self reference → ⊥) × (e ≡ missing reference)) }
    {
        match reference {
            Reference::Type_(handle) => handle.check_valid_for(self.types)?,
            Reference::Constant(handle) => handle.check_valid_for(self.constants)?,
            Reference::Override(handle) => handle.check_valid_for(self.overrides)?,
            Reference::GlobalVariable(handle) => handle.check_valid_for(self.global_variables)?,
            Reference::Expression(handle) => handle.check_valid_for(self.expressions)?,
            Reference::LocalVariable(handle) => handle.check_valid_for(self.local_variables)?,
            Reference::Function(handle) => handle.check_valid_for(self.functions)?,
            Reference::DiagnosticFilterNode(handle) => {
                handle.check_valid_for(self.diagnostic_filters)?
            }
            Reference::Emit(range) => range.check_valid_for(self.expressions)?,
        }
        Ok(())
    }
}

/// Whether `depends_on` precedes `subject`. Then `depends_on` exists if `subject` does.
pub(crate) fn check_dep<K: Kind>(
    subject: Handle<K>,
    depends_on: Handle<K>,
) -> Result<(), InvalidHandleError>
    ensures before { IsOk result ↔ (depends_on < subject) }
    ensures after { IfErr result (λ e. e
        ≡ InvalidHandleError.ForwardDependency
        (record {
          subject = subject;
          subject_kind = K.kind_name;
          depends_on = depends_on;
          depends_on_kind = K.kind_name;
        })) }
{
    if depends_on < subject {
        Ok(())
    } else {
        Err(FwdDepError::new(subject, depends_on).into())
    }
}

/// Whether one operand of an expression precedes it.
#[inline(always)]
fn check_one(
    handle: Handle<ExpressionTag>,
    operand: Handle<ExpressionTag>,
) -> Result<(), InvalidHandleError>
    ensures { ChecksEach (IsOperandResult handle) (operand ∷ []) result }
{
    check_dep(handle, operand)
}

/// Whether two operands of an expression precede it.
#[inline(always)]
fn check_two(
    handle: Handle<ExpressionTag>,
    first: Handle<ExpressionTag>,
    second: Handle<ExpressionTag>,
) -> Result<(), InvalidHandleError>
    ensures { ChecksEach (IsOperandResult handle) (first ∷ second ∷ []) result }
{
    check_one(handle, first)?;
    check_one(handle, second)
}

/// Whether three operands of an expression precede it.
#[inline(always)]
fn check_three(
    handle: Handle<ExpressionTag>,
    first: Handle<ExpressionTag>,
    second: Handle<ExpressionTag>,
    third: Handle<ExpressionTag>,
) -> Result<(), InvalidHandleError>
    ensures { ChecksEach (IsOperandResult handle) (first ∷ second ∷ third ∷ []) result }
{
    check_one(handle, first)?;
    check_two(handle, second, third)
}

/// Whether any number of operands of an expression precede it.
fn check_listed(
    handle: Handle<ExpressionTag>,
    expression: &Expression,
) -> Result<(), InvalidHandleError>
    ensures { ChecksEach (IsOperandResult handle) (operands expression.now) result }
{
    for operand in expression.operands() {
        check_dep(handle, operand)?;
    }
    Ok(())
}

/// Whether the operands of an expression precede it.
///
/// Frequent variants check their own operands: the jump to the variant is all that a processor can't foresee. Of a loop
/// over the operands it can't foresee the end either.
#[inline(always)]
#[tactic(auto, unfolding(naga_ir::specs::References::operands))]
pub(crate) fn check_operands(
    handle: Handle<ExpressionTag>,
    expression: &Expression,
) -> Result<(), InvalidHandleError>
    ensures { ChecksEach (IsOperandResult handle) (operands expression.now) result }
{
    match *expression {
        Expression::AccessIndex { base: expr, .. }
        | Expression::Splat { value: expr, .. }
        | Expression::Swizzle { vector: expr, .. }
        | Expression::Load { pointer: expr }
        | Expression::Unary { expr, .. }
        | Expression::Derivative { expr }
        | Expression::Relational { argument: expr, .. }
        | Expression::As { expr, .. }
        | Expression::ArrayLength(expr) => check_one(handle, expr),
        Expression::Access { base, index } => check_two(handle, base, index),
        Expression::Binary { left, right, .. } => check_two(handle, left, right),
        Expression::Select {
            condition,
            accept,
            reject,
        } => check_three(handle, condition, accept, reject),
        _ => check_listed(handle, expression),
    }
}
