//! What statements refer to.

ghost use Rattle.std.specs.Prelude.{◌≡◌, ◌++◌, map, option_to_list};
ghost use Rattle.std.specs.List.{flat_map};
ghost use Rattle.naga_ir.specs.Operands.{present};
ghost use Rattle.naga_ir.specs.steps.OwnReferences.{IsListed, IsOwn};
ghost use Rattle.naga_ir.specs.steps.StatementParts.{IsAtomic, UsesMemory, UsesSubgroup, call_arguments, operands_of, references_of, target_of};
ghost use Rattle.naga_ir.specs.Statements.{block_references, case_references, statement_references};
ghost use Rattle.naga_ir.specs.Statements as of;
ghost use Rattle.naga_ir.specs.FirstError.{ChecksEach};
ghost use Rattle.naga_ir.specs.declared.reference.Reference.TheVariants as to;
ghost use Rattle.naga_ir.specs.declared.statement.Statement.TheViews.{out-Statement};

use crate::reference::Reference;
use crate::statement::{
    AtomicFunction, Block, GatherMode, RayPipelineFunction, RayQueryFunction, Statement, SwitchCase,
};
use naga_arena::handle::Handle;
use naga_arena::range::Range;
use naga_arena::tags::ExpressionTag;

impl Block {
    /// Calls `check` on each reference of the block's statements, at any depth and in order, up to the
    /// first that it refuses.
    ///
    /// # Errors
    ///
    /// The error of `check` on the first reference that it refuses.
    #[cycle(blocks)]
    pub fn try_for_each_reference<E, F: Fn(Reference) -> Result<(), E>>(
        &self,
        check: &F,
    ) -> Result<(), E>
        requires { F.IsAlwaysCallable check.now }
        ensures { ChecksEach (F.post check.now) (block_references self.now) result }
    {
        for statement in &self.body {
            try_for_each_in_statement(statement, check)?;
        }
        Ok(())
    }
}

/// Calls `check` on each reference of the cases of a switch.
#[cycle(blocks)]
fn try_for_each_in_cases<E, F: Fn(Reference) -> Result<(), E>>(
    cases: &[SwitchCase],
    check: &F,
) -> Result<(), E>
    requires { F.IsAlwaysCallable check.now }
    ensures { ChecksEach (F.post check.now) (flat_map case_references cases.now) result }
{
    for case in cases {
        case.body.try_for_each_reference(check)?;
    }
    Ok(())
}

/// Calls `check` on each reference of a statement and of the blocks in it, at any depth.
#[cycle(blocks)]
fn try_for_each_in_statement<E, F: Fn(Reference) -> Result<(), E>>(
    statement: &Statement,
    check: &F,
) -> Result<(), E>
    requires { F.IsAlwaysCallable check.now }
    ensures { ChecksEach (F.post check.now) (statement_references statement.now) result }
{
    try_for_each_own_reference(statement, check)?;
    match statement {
        Statement::Block(block) => block.try_for_each_reference(check),
        Statement::If { accept, reject, .. } => {
            accept.try_for_each_reference(check)?;
            reject.try_for_each_reference(check)
        }
        Statement::Switch { cases, .. } => try_for_each_in_cases(cases, check),
        Statement::Loop {
            body,
            continuing,
            ..
        } => {
            body.try_for_each_reference(check)?;
            continuing.try_for_each_reference(check)
        }
        Statement::Emit(_)
        | Statement::Break
        | Statement::Continue
        | Statement::Return { .. }
        | Statement::Kill
        | Statement::ControlBarrier(_)
        | Statement::MemoryBarrier(_)
        | Statement::Store { .. }
        | Statement::ImageStore { .. }
        | Statement::Atomic { .. }
        | Statement::ImageAtomic { .. }
        | Statement::WorkGroupUniformLoad { .. }
        | Statement::Call { .. }
        | Statement::RayQuery { .. }
        | Statement::RayPipelineFunction(_)
        | Statement::SubgroupBallot { .. }
        | Statement::SubgroupGather { .. }
        | Statement::SubgroupCollectiveOperation { .. }
        | Statement::CooperativeStore { .. } => Ok(()),
    }
}

/// What a statement refers to, without the blocks in it. Each variant holds one kind of reference, so that its check is
/// called where the kind is known, and no `Reference` is put together and handed on.
#[derive(Clone, Copy)]
enum OwnReferences {
    Nothing,
    Emitted(Range<ExpressionTag>),
    One(Handle<ExpressionTag>),
    Two([Handle<ExpressionTag>; 2]),
    /// Any number of references.
    More,
}

/// What a statement refers to, the blocks in it aside. Nearly all statements refer to two things at most, and most of
/// them emit expressions or store a value: for these no list is made in which most places are empty.
#[inline]
#[tactic(auto, unfolding(crate::specs::Statements::own_target, crate::specs::Statements::own_operands, crate::specs::steps::OwnReferences::IsListed))]
fn own_references(statement: &Statement) -> OwnReferences
    ensures { IsOwn statement.now result }
{
    match statement {
        Statement::Emit(range) => OwnReferences::Emitted(*range),
        Statement::Store { pointer, value } => OwnReferences::Two([*pointer, *value]),
        Statement::If { condition, .. } => OwnReferences::One(*condition),
        Statement::Switch { selector, .. } => OwnReferences::One(*selector),
        Statement::Loop {
            break_if: Some(condition),
            ..
        } => { OwnReferences::One(*condition) }
        Statement::Return { value: Some(value) } => OwnReferences::One(*value),
        Statement::Loop { break_if: None, .. }
        | Statement::Return { value: None }
        | Statement::Block(_)
        | Statement::Break
        | Statement::Continue
        | Statement::Kill
        | Statement::ControlBarrier(_)
        | Statement::MemoryBarrier(_) => OwnReferences::Nothing,
        Statement::ImageStore { .. }
        | Statement::Atomic { .. }
        | Statement::ImageAtomic { .. }
        | Statement::WorkGroupUniformLoad { .. }
        | Statement::Call { .. }
        | Statement::RayQuery { .. }
        | Statement::RayPipelineFunction(_)
        | Statement::SubgroupBallot { .. }
        | Statement::SubgroupGather { .. }
        | Statement::SubgroupCollectiveOperation { .. }
        | Statement::CooperativeStore { .. } => OwnReferences::More,
    }
}

/// Calls `check` on each reference of a statement, without the blocks in it.
#[inline]
fn try_for_each_own_reference<E, F: Fn(Reference) -> Result<(), E>>(
    statement: &Statement,
    check: &F,
) -> Result<(), E>
    requires { F.IsAlwaysCallable check.now }
    ensures { ChecksEach (F.post check.now) (references_of statement.now) result }
{
    match own_references(statement) {
        OwnReferences::Nothing => Ok(()),
        OwnReferences::Emitted(range) => check(Reference::Emit(range)),
        OwnReferences::One(operand) => check(Reference::Expression(operand)),
        OwnReferences::Two(operands) => try_for_each_expression(&operands, check),
        OwnReferences::More => try_for_each_listed_reference(statement, check),
    }
}

/// Calls `check` on each reference of a statement that may have any number of them, without the blocks in it.
fn try_for_each_listed_reference<E, F: Fn(Reference) -> Result<(), E>>(
    statement: &Statement,
    check: &F,
) -> Result<(), E>
    requires callable { F.IsAlwaysCallable check.now }
    requires listed { IsListed (out-Statement statement.now) }
    ensures { ChecksEach (F.post check.now) (references_of statement.now) result }
{
    if let Some(reference) = target(statement) {
        check(reference)?;
    }
    let others = other_operands(statement);
    try_for_each_expression(arguments(statement), check)?;
    try_for_each_operand(&others, check)
}

/// Calls `check` on each expression.
fn try_for_each_expression<E, F: Fn(Reference) -> Result<(), E>>(
    expressions: &[Handle<ExpressionTag>],
    check: &F,
) -> Result<(), E>
    requires { F.IsAlwaysCallable check.now }
    ensures { ChecksEach (F.post check.now) (map to.Expression expressions.now) result }
{
    for expression in expressions {
        check(Reference::Expression(*expression))?;
    }
    Ok(())
}

/// Calls `check` on each expression of those options that have one.
fn try_for_each_operand<E, F: Fn(Reference) -> Result<(), E>>(
    operands: &[Option<Handle<ExpressionTag>>],
    check: &F,
) -> Result<(), E>
    requires { F.IsAlwaysCallable check.now }
    ensures { ChecksEach (F.post check.now) (map to.Expression (present operands.now)) result }
{
    for operand in operands {
        if let Some(expression) = operand {
            check(Reference::Expression(*expression))?;
        }
    }
    Ok(())
}

/// The function that a statement calls.
#[tactic(auto, unfolding(crate::specs::Statements::own_target, crate::specs::steps::OwnReferences::IsListed))]
fn target(statement: &Statement) -> Option<Reference>
    requires { IsListed (out-Statement statement.now) }
    ensures { option_to_list result ≡ target_of statement.now }
{
    match statement {
        Statement::Call { function, .. } => Some(Reference::Function(*function)),
        _ => None,
    }
}

/// The arguments that a statement calls a function with.
#[tactic(auto, unfolding(crate::specs::steps::StatementParts::call_arguments))]
fn arguments(statement: &Statement) -> &[Handle<ExpressionTag>]
    ensures { result.now ≡ call_arguments (out-Statement statement.now) }
{
    match statement {
        Statement::Call { arguments, .. } => arguments.as_slice(),
        _ => &[],
    }
}

/// The expressions that a statement names, besides the arguments of a call: five at most.
type Operands = [Option<Handle<ExpressionTag>>; 5];

/// The expressions that a statement names, in order: of a call, those after the arguments.
#[tactic(auto, unfolding(crate::specs::Statements::own_operands, crate::specs::steps::StatementParts::call_arguments, crate::specs::steps::OwnReferences::IsListed))]
fn other_operands(statement: &Statement) -> Operands
    requires { IsListed (out-Statement statement.now) }
    ensures { call_arguments (out-Statement statement.now) ++ present result ≡ operands_of statement.now }
{
    match statement {
        Statement::Call { result, .. } => [*result, None, None, None, None],
        Statement::ImageStore { .. }
        | Statement::WorkGroupUniformLoad { .. }
        | Statement::CooperativeStore { .. } => memory_operands(statement),
        Statement::Atomic { .. } | Statement::ImageAtomic { .. } => atomic_operands(statement),
        Statement::RayQuery { query, fun } => {
            let [first, second] = ray_query_operands(*fun);
            [Some(*query), first, second, None, None]
        }
        Statement::RayPipelineFunction(fun) => ray_pipeline_operands(*fun),
        Statement::SubgroupBallot { .. }
        | Statement::SubgroupGather { .. }
        | Statement::SubgroupCollectiveOperation { .. } => subgroup_operands(statement),
        _ => unreachable!(),
    }
}

/// The expressions that a uniform load, an image store or a cooperative store names.
#[tactic(auto, unfolding(crate::specs::Statements::own_operands))]
fn memory_operands(statement: &Statement) -> Operands
    requires { UsesMemory (out-Statement statement.now) }
    ensures { present result ≡ operands_of statement.now }
{
    match statement {
        Statement::ImageStore {
            image,
            coordinate,
            array_index,
            value,
        } => [
            Some(*image),
            Some(*coordinate),
            *array_index,
            Some(*value),
            None,
        ],
        Statement::WorkGroupUniformLoad { pointer, result } => [
            Some(*pointer),
            Some(*result),
            None,
            None,
            None,
        ],
        Statement::CooperativeStore {
            target,
            pointer,
            stride,
        } => [Some(*target), Some(*pointer), Some(*stride), None, None],
        _ => unreachable!(),
    }
}

/// The expressions that an atomic operation names.
#[tactic(auto, unfolding(crate::specs::Statements::own_operands))]
fn atomic_operands(statement: &Statement) -> Operands
    requires { IsAtomic (out-Statement statement.now) }
    ensures { present result ≡ operands_of statement.now }
{
    match statement {
        Statement::Atomic {
            pointer,
            fun,
            value,
            result,
        } => [
            Some(*pointer),
            compare_operand(*fun),
            Some(*value),
            *result,
            None,
        ],
        Statement::ImageAtomic {
            image,
            coordinate,
            array_index,
            fun,
            value,
        } => {
            let compare = compare_operand(*fun);
            [
                Some(*image),
                Some(*coordinate),
                *array_index,
                compare,
                Some(*value),
            ]
        }
        _ => unreachable!(),
    }
}

/// What a compare-and-exchange compares with.
fn compare_operand(fun: AtomicFunction) -> Option<Handle<ExpressionTag>>
    ensures { option_to_list result ≡ of.compare_operand fun }
{
    match fun {
        AtomicFunction::Exchange { compare } => compare,
        AtomicFunction::Add
        | AtomicFunction::Subtract
        | AtomicFunction::And
        | AtomicFunction::ExclusiveOr
        | AtomicFunction::InclusiveOr
        | AtomicFunction::Min
        | AtomicFunction::Max => None,
    }
}

/// The expressions that a step of a ray query names.
fn ray_query_operands(fun: RayQueryFunction) -> [Option<Handle<ExpressionTag>>; 2]
    ensures { present result ≡ of.ray_query_operands fun }
{
    match fun {
        RayQueryFunction::Initialize {
            acceleration_structure,
            descriptor,
        } => [Some(acceleration_structure), Some(descriptor)],
        RayQueryFunction::Proceed { result } => [Some(result), None],
        RayQueryFunction::GenerateIntersection { hit_t } => [Some(hit_t), None],
        RayQueryFunction::ConfirmIntersection | RayQueryFunction::Terminate => [None, None],
    }
}

/// The expressions that a step of a ray tracing pipeline names.
fn ray_pipeline_operands(fun: RayPipelineFunction) -> Operands
    ensures { present result ≡ of.ray_pipeline_operands fun }
{
    match fun {
        RayPipelineFunction::TraceRay {
            acceleration_structure,
            descriptor,
            payload,
        } => [
            Some(acceleration_structure),
            Some(descriptor),
            Some(payload),
            None,
            None,
        ],
    }
}

/// The expressions that an operation of a subgroup names.
#[tactic(auto, unfolding(crate::specs::Statements::own_operands))]
fn subgroup_operands(statement: &Statement) -> Operands
    requires { UsesSubgroup (out-Statement statement.now) }
    ensures { present result ≡ operands_of statement.now }
{
    match statement {
        Statement::SubgroupBallot { result, predicate } => [
            Some(*result),
            *predicate,
            None,
            None,
            None,
        ],
        Statement::SubgroupGather {
            mode,
            argument,
            result,
        } => [
            gather_operand(*mode),
            Some(*argument),
            Some(*result),
            None,
            None,
        ],
        Statement::SubgroupCollectiveOperation {
            argument,
            result,
            ..
        } => [Some(*argument), Some(*result), None, None, None],
        _ => unreachable!(),
    }
}

/// The number of the invocation, if it is given by an expression.
fn gather_operand(mode: GatherMode) -> Option<Handle<ExpressionTag>>
    ensures { option_to_list result ≡ of.gather_operand mode }
{
    match mode {
        GatherMode::BroadcastFirst | GatherMode::QuadSwap => None,
        GatherMode::Broadcast(index)
        | GatherMode::Shuffle(index)
        | GatherMode::ShuffleDown(index)
        | GatherMode::ShuffleUp(index)
        | GatherMode::ShuffleXor(index)
        | GatherMode::QuadBroadcast(index) => Some(index),
    }
}
