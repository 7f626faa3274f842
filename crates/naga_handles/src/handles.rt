//! Whether all handles of a module are right.

ghost use Rattle.std.specs.Prelude.{◌≡◌, ◌↔◌, ℕ, IfErr, IfOk, IsTrue, List, ◌∷◌, None, OnOk, map, option_to_list};
ghost use Rattle.std.specs.List.{enumerate_from, flat_map};
ghost use Rattle.std.specs.Fn.{FnReturnsAt};
ghost use Rattle.naga_ir.specs.ItemReferences.{body_references, constant_references, entry_point_references, global_lists, global_variable_references, local_references, local_variable_references, override_references, signature_references};
ghost use Rattle.naga_ir.specs.References as spec;
ghost use Rattle.naga_ir.specs.Statements.{block_references};
ghost use Rattle.naga_ir.specs.ItemReferences as item;
ghost use Rattle.naga_ir.specs.Handles.{GlobalReferencesOk, HandlesAccepted, function_counts, module_counts};
ghost use Rattle.naga_ir.specs.Operands.{present};
ghost use Rattle.naga_ir.specs.declared.reference.Reference.TheVariants as to;
ghost use Rattle.naga_ir.specs.FirstError.{ChecksEach};
ghost use Rattle.naga_arena.specs.Memory.{UnlessOutOfMemory};
ghost use Rattle.naga_handles.specs.Faults.{IsFault, NeedsMemory, display_name, text_of_unnamed};
ghost use Rattle.naga_handles.specs.steps.ItemChecks.{IsResult, IsEntryPointResult, IsMemberResult, IsOperandResult, HasMember, all_filter_checks, code_checks, documented_references, entry_point_checks, expression_checks, filter_checks, function_checks, checks_in, module_checks, numbered_checks, valued_references};
ghost use Rattle.naga_handles.specs.steps.OtherItems.{IsHandleRefusal, OtherItemsOk};
ghost use Rattle.naga_handles.specs.steps.Checks.{of_function};

use crate::counts::{Counts, check_dep, check_operands};
use crate::error::{InvalidHandleError, ValidationFault};
use crate::walk::walk;
use naga_ir::expression::Expression;
use naga_ir::handle::{BadHandle, Handle};
use naga_ir::ir::{
    Constant, DocComments, EntryPoint, Function, FunctionArgument, GlobalVariable, LocalVariable,
    Module, Override, SpecialTypes,
};
use naga_ir::list::List;
use naga_ir::memory::OutOfMemory;
use naga_ir::reference::Reference;
use naga_ir::statement::Block;
use naga_ir::tags::{ConstantTag, ExpressionTag, FunctionTag, GlobalVariableTag, TypeTag};
use naga_ir::text::{StaticText, Text};
use naga_ir::types::{Type, TypeInner};
use std::alloc::Global;

/// Whether all handles and ranges of a module are right: none is dangling, and what an item depends on
/// precedes it. All that comments document exists too. Then every index into the module is in bounds,
/// and every recursion along its handles ends.
///
/// These precede the item that names them: the parts of a type, and the type of the override that
/// sizes it; the operands of an expression, and of a global expression also the initialiser of the
/// constant or override that it names; the functions that a function calls, or whose results it names;
/// the parent of a filter. If the override that sizes a type has an initialiser, then the initialiser
/// and all global expressions before it name only types that precede the type. The rule is naga's
/// (`Validator::validate_module_handles`), with the references that naga leaves unchecked.
///
/// The calls on types and global expressions, as `leaf_at`, `Layouter::update` and
/// `ImmediateSlots::from_type`, require `GlobalReferencesOk`, which holds of a module that is accepted.
///
/// The cost is linear in the module. Blocks may stand in blocks to any depth, and the pass calls itself for each block
/// in a block: that takes 352 bytes of stack where it was measured, so that 23,700 blocks within each other fit into
/// 8 MB, and 690 into 256 KB. With more the process ends.
///
/// # Errors
///
/// `Invalid` and `MissingMember` name a fault of the module: if it has several, one of the first group
/// with any, in the order types with the global expressions that their sizes need, other global
/// expressions, constants, overrides, variables, entry points, functions, special types, filters,
/// comments. `MissingMember` is of a comment on a member. `OutOfMemory` if memory was refused, which
/// can only be if the module has overrides or a `MissingMember` is due.
pub fn validate_module_handles(alloc: Global, module: &Module) -> Result<(), ValidationFault>
    ensures result { UnlessOutOfMemory (λ fault. (fault ≡ ValidationFault.OutOfMemory) × NeedsMemory «module».now)
        result (λ _. HandlesAccepted «module».now)
        (λ fault. IsFault «module».now fault × (HandlesAccepted «module».now → ⊥)) }
    ensures references { OnOk result (GlobalReferencesOk (global_lists «module».now)) }
{
    validate_all_handles(alloc, module)
}

/// `validate_module_handles` without its last clause, that a refused module isn't accepted: that
/// follows from what a fault is.
fn validate_all_handles(alloc: Global, module: &Module) -> Result<(), ValidationFault>
    ensures accepted { OnOk result (HandlesAccepted «module».now) }
    ensures refused { IfErr result (IsHandleRefusal «module».now) }
{
    walk(alloc, module)?;
    validate_other_handles(alloc, module)
}

/// Calls `check` on each item, up to the first that it refuses.
fn try_each<T, E, F: Fn(&T) -> Result<(), E>>(items: &[T], check: &F) -> Result<(), E>
    requires { F.IsAlwaysCallable check.now }
    ensures { ChecksEach (FnReturnsAt F.Fn check.now) items.now result }
{
    for item in items {
        check(item)?;
    }
    Ok(())
}

/// What an item may refer to: the items that exist, and of functions those that precede the one that
/// it belongs to.
#[derive(Clone, Copy)]
struct Scope {
    counts: Counts,
    /// None outside the functions of the module, as in an entry point.
    caller: Option<Handle<FunctionTag>>,
}

impl Scope {
    /// The scope of the items of a module that belong to no function.
    fn of_module(module: &Module) -> Scope
        ensures counts { result.counts ≡ module_counts «module».now }
        ensures caller { result.caller ≡ None }
    {
        Scope {
            counts: Counts::of_module(module),
            caller: None,
        }
    }

    /// The scope of a function of the module, or of an entry point.
    fn of_function(
        module: &Module,
        caller: Option<Handle<FunctionTag>>,
        function: &Function,
    ) -> Scope
        ensures counts { result.counts ≡ function_counts «module».now function.now }
        ensures caller { result.caller ≡ caller }
    {
        Scope {
            counts: Counts::of_function(module, function),
            caller,
        }
    }

    /// Whether an item may refer to this. Most callers name the variant: inside of them its check is all that is left.
    #[inline(always)]
    fn check(&self, reference: Reference) -> Result<(), InvalidHandleError>
        ensures { IsResult (record {
          there = self.now.counts;
          subject = of_function self.now.caller reference;
          target = reference;
        }) result }
    {
        // WGSL has no recursion, so a function may only call those before it.
        if let (Some(caller), Reference::Function(function)) = (self.caller, reference) {
            check_dep(caller, function)
        } else {
            self.counts.check_exists(reference)
        }
    }

    /// Whether an item may refer to all of these. `None` is a reference that it doesn't have.
    #[inline(always)]
    fn check_all(&self, references: &[Option<Reference>]) -> Result<(), InvalidHandleError>
        ensures { ChecksEach IsResult (checks_in self.now (present references.now)) result }
    {
        for reference in references {
            if let Some(reference) = reference {
                self.check(*reference)?;
            }
        }
        Ok(())
    }
}

/// Whether the type of an item exists, and its initialiser if it has one.
#[inline(always)]
fn check_valued(
    scope: &Scope,
    ty: Handle<TypeTag>,
    init: Option<Handle<ExpressionTag>>,
) -> Result<(), InvalidHandleError>
    ensures { ChecksEach IsResult (checks_in scope.now (to.Type_ ty ∷ map to.Expression (option_to_list init))) result }
{
    scope.check_all(&[Some(Reference::Type_(ty)), init.map(Reference::Expression)])
}

#[inline(always)]
fn validate_expression_handles(
    scope: &Scope,
    handle: Handle<ExpressionTag>,
    expression: &Expression,
) -> Result<(), InvalidHandleError>
    ensures { ChecksEach IsResult (expression_checks scope.now.counts scope.now.caller (handle, expression.now))
        result }
{
    // Operands precede the expression, so that one pass in order can type all of them.
    check_operands(handle, expression)?;
    scope.check_all(&[
        expression.named_type().map(Reference::Type_),
        expression.named_item(),
    ])
}

/// Why the handles of an expression aren't right.
#[cold]
#[inline(never)]
fn refuse_expression(
    scope: &Scope,
    handle: Handle<ExpressionTag>,
    expression: &Expression,
) -> Result<(), InvalidHandleError>
    ensures { ChecksEach IsResult (expression_checks scope.now.counts scope.now.caller (handle, expression.now))
        result }
{
    validate_expression_handles(scope, handle, expression)
}

/// Whether the handles of an expression are right. The error of the first check isn't kept: for the one expression that
/// is refused, `refuse_expression` makes it again, out of line.
#[inline(always)]
fn validate_next_expression(
    scope: &Scope,
    handle: Handle<ExpressionTag>,
    expression: &Expression,
) -> Result<(), InvalidHandleError>
    ensures { ChecksEach IsResult (expression_checks scope.now.counts scope.now.caller (handle, expression.now))
        result }
{
    if validate_expression_handles(scope, handle, expression).is_ok() {
        return Ok(());
    }
    refuse_expression(scope, handle, expression)
}

/// Whether what the expressions of a function refer to exists, and their operands precede them.
fn validate_expressions(scope: &Scope, function: &Function) -> Result<(), InvalidHandleError>
    ensures { ChecksEach IsResult (flat_map (expression_checks scope.now.counts scope.now.caller)
        (enumerate_from 0 function.now.expressions)) result }
{
    for (handle, expression) in function.expressions.iter() {
        validate_next_expression(scope, handle, expression)?;
    }
    Ok(())
}

/// Whether the types of a function's arguments and of its result exist.
fn validate_signature(scope: &Scope, function: &Function) -> Result<(), InvalidHandleError>
    ensures { ChecksEach IsResult (checks_in scope.now (signature_references function.now)) result }
{
    try_each(
        function.arguments.as_slice(),
        &|argument: &FunctionArgument| scope.check(Reference::Type_(argument.ty)),
    )?;
    scope.check_all(&[
        function
            .result
            .as_ref()
            .map(|returned| Reference::Type_(returned.ty)),
    ])
}

/// Whether what the variables of a function refer to exists, and its named expressions.
fn validate_locals(scope: &Scope, function: &Function) -> Result<(), InvalidHandleError>
    ensures { ChecksEach IsResult (checks_in scope.now (local_references function.now)) result }
{
    try_each(
        function.local_variables.as_slice(),
        &|variable: &LocalVariable| check_valued(scope, variable.ty, variable.init),
    )?;
    try_each(
        function.named_expressions.as_slice(),
        &|named: &(Handle<ExpressionTag>, Text)| scope.check(Reference::Expression(named.0)),
    )
}

/// Whether what the statements of a block refer to exists. A function without statements costs no call.
#[inline(always)]
fn validate_statements(scope: &Scope, block: &Block) -> Result<(), InvalidHandleError>
    ensures { ChecksEach IsResult (checks_in scope.now (block_references block.now)) result }
{
    if block.body.is_empty() {
        return Ok(());
    }
    block.try_for_each_reference(&|reference: Reference| scope.check(reference))
}

/// Whether what the statements of a function refer to exists, and its filter.
fn validate_body(scope: &Scope, function: &Function) -> Result<(), InvalidHandleError>
    ensures { ChecksEach IsResult (checks_in scope.now (body_references function.now)) result }
{
    validate_statements(scope, &function.body)?;
    scope.check_all(&[
        function
            .diagnostic_filter_leaf
            .map(Reference::DiagnosticFilterNode),
    ])
}

fn validate_function_handles(scope: &Scope, function: &Function) -> Result<(), InvalidHandleError>
    ensures { ChecksEach IsResult (function_checks scope.now.counts scope.now.caller function.now) result }
{
    // The order is naga's, and decides which of several faults is reported.
    validate_signature(scope, function)?;
    validate_locals(scope, function)?;
    validate_expressions(scope, function)?;
    validate_body(scope, function)
}

/// Whether the global expressions exist that decide the sizes of an entry point's workgroups.
fn validate_workgroup_sizes(
    scope: &Scope,
    entry_point: &EntryPoint,
) -> Result<(), InvalidHandleError>
    ensures { ChecksEach IsResult (checks_in scope.now
        (map to.Expression (item.workgroup_sizes entry_point.now.workgroup_size_overrides))) result }
{
    match &entry_point.workgroup_size_overrides {
        Some(sizes) => try_each(
            sizes,
            &|size: &Option<Handle<ExpressionTag>>| {
                scope.check_all(&[size.map(Reference::Expression)])
            },
        ),
        None => Ok(()),
    }
}

/// What the output of a mesh shader refers to.
fn mesh_references(entry_point: &EntryPoint) -> [Option<Reference>; 5]
    ensures { present result ≡ flat_map item.mesh_references (option_to_list entry_point.now.mesh_info) }
{
    match entry_point.mesh_info {
        Some(mesh) => [
            Some(Reference::GlobalVariable(mesh.output_variable)),
            Some(Reference::Type_(mesh.vertex_output_type)),
            Some(Reference::Type_(mesh.primitive_output_type)),
            mesh.max_vertices_override.map(Reference::Expression),
            mesh.max_primitives_override.map(Reference::Expression),
        ],
        None => [None, None, None, None, None],
    }
}

/// Whether what an entry point refers to exists, except what its function refers to.
fn validate_stage(scope: &Scope, entry_point: &EntryPoint) -> Result<(), InvalidHandleError>
    ensures { ChecksEach IsResult (checks_in scope.now (entry_point_references entry_point.now)) result }
{
    validate_workgroup_sizes(scope, entry_point)?;
    scope.check_all(&[entry_point.task_payload.map(Reference::GlobalVariable)])?;
    scope.check_all(&mesh_references(entry_point))
}

fn validate_entry_point_handles(
    module: &Module,
    entry_point: &EntryPoint,
) -> Result<(), InvalidHandleError>
    ensures { ChecksEach IsResult (entry_point_checks «module».now entry_point.now) result }
{
    let scope = Scope::of_function(module, None, &entry_point.function);
    validate_function_handles(&scope, &entry_point.function)?;
    // The expressions that are left are global, so the expressions of the function are out of scope.
    validate_stage(&Scope::of_module(module), entry_point)
}

/// Whether what the functions of a module refer to exists, and what they call precedes them.
fn validate_functions(module: &Module) -> Result<(), InvalidHandleError>
    ensures { ChecksEach IsResult (flat_map (numbered_checks «module».now) (enumerate_from 0 «module».now.functions))
        result }
{
    for (handle, function) in module.functions.iter() {
        let scope = Scope::of_function(module, Some(handle), function);
        validate_function_handles(&scope, function)?;
    }
    Ok(())
}

/// Whether what the entry points and functions of a module refer to exists.
fn validate_code(module: &Module) -> Result<(), InvalidHandleError>
    ensures { ChecksEach IsResult (code_checks «module».now) result }
{
    // Entry points come before the functions that they call, since naga reports them first.
    try_each(
        module.entry_points.as_slice(),
        &|entry_point: &EntryPoint| validate_entry_point_handles(module, entry_point),
    )?;
    validate_functions(module)
}

/// Whether what the constants, overrides and variables of a module refer to exists.
fn validate_valued(scope: &Scope, module: &Module) -> Result<(), InvalidHandleError>
    ensures { ChecksEach IsResult (checks_in scope.now (valued_references «module».now)) result }
{
    try_each(
        module.constants.as_slice(),
        &|constant: &Constant| check_valued(scope, constant.ty, Some(constant.init)),
    )?;
    try_each(
        module.overrides.as_slice(),
        &|over: &Override| check_valued(scope, over.ty, over.init),
    )?;
    try_each(
        module.global_variables.as_slice(),
        &|variable: &GlobalVariable| check_valued(scope, variable.ty, variable.init),
    )
}

/// Whether the special types exist.
fn validate_special_types(
    scope: &Scope,
    special_types: &SpecialTypes,
) -> Result<(), InvalidHandleError>
    ensures { ChecksEach IsResult (checks_in scope.now (map to.Type_ (item.special_types special_types.now))) result }
{
    scope.check_all(&[
        special_types.ray_desc.map(Reference::Type_),
        special_types.ray_intersection.map(Reference::Type_),
        special_types.ray_vertex_return.map(Reference::Type_),
    ])?;
    // naga doesn't check the types in this list.
    try_each(
        special_types.others.as_slice(),
        &|ty: &Handle<TypeTag>| scope.check(Reference::Type_(*ty)),
    )
}

/// Whether the parent of each filter precedes it.
fn validate_filter_parents(module: &Module) -> Result<(), InvalidHandleError>
    ensures { ChecksEach IsResult (flat_map (filter_checks (module_counts «module».now))
        (enumerate_from 0 «module».now.diagnostic_filters)) result }
{
    for (handle, filter) in module.diagnostic_filters.iter() {
        if let Some(parent) = filter.parent {
            check_dep(handle, parent)?;
        }
    }
    Ok(())
}

/// Whether the parent of each filter precedes it, and the innermost filter of the module exists.
fn validate_filters(module: &Module) -> Result<(), InvalidHandleError>
    ensures { ChecksEach IsResult (all_filter_checks «module».now) result }
{
    validate_filter_parents(module)?;
    Scope::of_module(module).check_all(&[
        module
            .diagnostic_filter_leaf
            .map(Reference::DiagnosticFilterNode),
    ])
}

/// Whether the items exist that comments document by a handle, except the types of members.
fn validate_documented(scope: &Scope, comments: &DocComments) -> Result<(), InvalidHandleError>
    ensures { ChecksEach IsResult (checks_in scope.now (documented_references comments.now)) result }
{
    try_each(
        comments.types.as_slice(),
        &|comment: &(Handle<TypeTag>, List<Text>)| scope.check(Reference::Type_(comment.0)),
    )?;
    // naga checks functions and what follows only if a member is documented (nested loops).
    try_each(
        comments.functions.as_slice(),
        &|comment: &(Handle<FunctionTag>, List<Text>)| scope.check(Reference::Function(comment.0)),
    )?;
    try_each(
        comments.constants.as_slice(),
        &|comment: &(Handle<ConstantTag>, List<Text>)| scope.check(Reference::Constant(comment.0)),
    )?;
    try_each(
        comments.global_variables.as_slice(),
        &|comment: &(Handle<GlobalVariableTag>, List<Text>)| {
            scope.check(Reference::GlobalVariable(comment.0))
        },
    )
}

/// Whether all that items refer to exists and precedes them if it has to, types and global expressions
/// aside, and all that comments document by a handle exists.
fn validate_items(module: &Module) -> Result<(), InvalidHandleError>
    ensures { ChecksEach IsResult (module_checks «module».now) result }
{
    let scope = Scope::of_module(module);
    // The order of these groups is naga's, and decides which of several faults is reported.
    validate_valued(&scope, module)?;
    validate_code(module)?;
    validate_special_types(&scope, &module.special_types)?;
    validate_filters(module)?;
    validate_documented(&scope, &module.doc_comments)
}

fn validate_entry_point_index(module: &Module, index: usize) -> Result<(), InvalidHandleError>
    ensures { IsEntryPointResult «module».now index result }
{
    if index < module.entry_points.len() {
        Ok(())
    } else {
        Err(InvalidHandleError::BadHandle(BadHandle {
            kind: StaticText::new("EntryPoint"),
            index,
        }))
    }
}

/// Whether the entry points exist that comments document.
fn validate_documented_entry_points(module: &Module) -> Result<(), InvalidHandleError>
    ensures { ChecksEach (IsEntryPointResult «module».now)
        (map (λ (c : ℕ × List (List ℕ)). c.0) «module».now.doc_comments.entry_points) result }
{
    try_each(
        module.doc_comments.entry_points.as_slice(),
        &|comment: &(usize, List<Text>)| validate_entry_point_index(module, comment.0),
    )
}

/// What an error shows in place of the name of a type without one (naga).
fn wrong_text(inner: &TypeInner) -> &'static str
    ensures { result.now ≡ text_of_unnamed inner.now }
{
    match inner {
        TypeInner::Struct { .. } => "members length incorrect",
        TypeInner::Scalar(_)
        | TypeInner::Vector { .. }
        | TypeInner::Matrix { .. }
        | TypeInner::CooperativeMatrix { .. }
        | TypeInner::Atomic(_)
        | TypeInner::Pointer { .. }
        | TypeInner::ValuePointer { .. }
        | TypeInner::Array { .. }
        | TypeInner::Image { .. }
        | TypeInner::Sampler { .. }
        | TypeInner::AccelerationStructure { .. }
        | TypeInner::RayQuery { .. }
        | TypeInner::BindingArray { .. } => "Unknown",
    }
}

/// The name of a type as an error shows it.
fn name_of(alloc: Global, ty: &Type) -> Result<Text, OutOfMemory>
    ensures { IfOk result (λ name. name ≡ display_name ty.now) }
{
    match &ty.name {
        Some(name) => name.try_clone(),
        None => Ok(Text::from_string(String::from_str(alloc, wrong_text(&ty.inner))?)),
    }
}

/// Whether a type is a struct with a member of this index.
fn has_member(ty: &Type, index: usize) -> bool
    ensures { IsTrue result ↔ HasMember ty.now index }
{
    match &ty.inner {
        TypeInner::Struct { members, .. } => index < members.len(),
        _ => false,
    }
}

/// Whether the type of this handle exists, and is a struct with a member of this index.
fn validate_documented_member(
    alloc: Global,
    module: &Module,
    handle: Handle<TypeTag>,
    index: usize,
) -> Result<(), ValidationFault>
    ensures { IsMemberResult «module».now (handle, index) result }
{
    Scope::of_module(module).check(Reference::Type_(handle))?;
    let ty = module.types.get(handle);
    if has_member(ty, index) {
        return Ok(());
    }
    match name_of(alloc, ty) {
        Ok(name) => Err(ValidationFault::MissingMember { handle, name }),
        Err(_) => Err(ValidationFault::OutOfMemory),
    }
}

/// Whether the members exist that comments document.
fn validate_documented_members(alloc: Global, module: &Module) -> Result<(), ValidationFault>
    ensures { ChecksEach (IsMemberResult «module».now)
        (map (λ (c : (ℕ × ℕ) × List (List ℕ)). c.0) «module».now.doc_comments.struct_members) result }
{
    try_each(
        module.doc_comments.struct_members.as_slice(),
        &|comment: &((Handle<TypeTag>, usize), List<Text>)| {
            validate_documented_member(alloc, module, comment.0.0, comment.0.1)
        },
    )
}

/// Whether all that items refer to exists and precedes them if it has to, types and global expressions
/// aside, and all that comments document exists.
fn validate_other_handles(alloc: Global, module: &Module) -> Result<(), ValidationFault>
    ensures accepted { OnOk result (OtherItemsOk «module».now) }
    ensures refused { IfErr result (IsHandleRefusal «module».now) }
{
    validate_items(module)?;
    validate_documented_entry_points(module)?;
    validate_documented_members(alloc, module)
}
