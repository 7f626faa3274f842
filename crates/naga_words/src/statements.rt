//! The statements that words describe and that contain no others, one function an opcode.

ghost use Rattle.naga_words.specs.Operands.{handle_of, optional_of};
ghost use Rattle.naga_words.specs.Reading.{read_by, reads_four, reads_none, reads_one, reads_three, reads_two};
ghost use Rattle.naga_ir.specs.declared.statement.Statement.TheVariants as s;
ghost use Rattle.naga_words.specs.Statements.{atomic_function_of, atomic_of, barrier_of, call_of, collective_of, emit_of, fixed_statements, gather_mode_of, gather_of, image_atomic_of, ray_query_of, statement_of, step_of, trace_ray_of};
ghost use Rattle.naga_draft.specs.declared.unread.Unread.TheVariants as unread;
ghost use Rattle.std.specs.Prelude.{◌≡◌, IfErr, IfOk, None, Some, option_map};

use crate::opcodes as code;
use crate::operands::{expressions, handle, subgroup_operation, zero};
use crate::tables::{collective_operation, memory_of_barrier};
use naga_draft::unread::{Unread, known};
use naga_ir::range::Range;
use naga_ir::statement::{
    AtomicFunction, Barrier, GatherMode, RayPipelineFunction, RayQueryFunction, Statement,
};
use std::alloc::Global;

fn emit(operands: &[u32]) -> Option<Statement>
    ensures { result ≡ emit_of operands.now }
{
    let [start, end] = operands else { return None };
    Some(Statement::Emit(Range::new(*start, *end)))
}

fn break_statement(operands: &[u32]) -> Option<Statement>
    ensures { result ≡ reads_none s.Break operands.now }
{
    let [] = operands else { return None };
    Some(Statement::Break)
}

fn continue_statement(operands: &[u32]) -> Option<Statement>
    ensures { result ≡ reads_none s.Continue operands.now }
{
    let [] = operands else { return None };
    Some(Statement::Continue)
}

fn return_statement(operands: &[u32]) -> Option<Statement>
    ensures { result ≡ reads_one optional_of s.Return operands.now }
{
    let [value] = operands else { return None };
    Some(Statement::Return {
        value: handle(*value),
    })
}

fn kill(operands: &[u32]) -> Option<Statement>
    ensures { result ≡ reads_none s.Kill operands.now }
{
    let [] = operands else { return None };
    Some(Statement::Kill)
}

/// The memory of a barrier.
fn barrier(operands: &[u32]) -> Option<Barrier>
    ensures { result ≡ barrier_of operands.now }
{
    match operands {
        [] => Some(Barrier::WORK_GROUP),
        [memory] => memory_of_barrier(*memory),
        _ => None,
    }
}

fn control_barrier(operands: &[u32]) -> Option<Statement>
    ensures { result ≡ option_map s.ControlBarrier (barrier_of operands.now) }
{
    Some(Statement::ControlBarrier(barrier(operands)?))
}

fn memory_barrier(operands: &[u32]) -> Option<Statement>
    ensures { result ≡ option_map s.MemoryBarrier (barrier_of operands.now) }
{
    Some(Statement::MemoryBarrier(barrier(operands)?))
}

fn store(operands: &[u32]) -> Option<Statement>
    ensures { result ≡ reads_two handle_of handle_of s.Store operands.now }
{
    let [pointer, value] = operands else {
        return None
    };
    Some(Statement::Store {
        pointer: handle(*pointer)?,
        value: handle(*value)?,
    })
}

fn image_store(operands: &[u32]) -> Option<Statement>
    ensures { result ≡ reads_four handle_of handle_of optional_of handle_of s.ImageStore operands.now }
{
    let [image, coordinate, index, value] = operands else {
        return None;
    };
    Some(Statement::ImageStore {
        image: handle(*image)?,
        coordinate: handle(*coordinate)?,
        array_index: handle(*index),
        value: handle(*value)?,
    })
}

/// What an atomic operation does.
fn atomic_function(form: u32, compare: u32) -> Option<AtomicFunction>
    ensures { result ≡ atomic_function_of form compare }
{
    if form == 7 {
        return Some(AtomicFunction::Exchange {
            compare: handle(compare),
        });
    }
    zero(compare)?;
    match form {
        0 => Some(AtomicFunction::Add),
        1 => Some(AtomicFunction::Subtract),
        2 => Some(AtomicFunction::And),
        3 => Some(AtomicFunction::ExclusiveOr),
        4 => Some(AtomicFunction::InclusiveOr),
        5 => Some(AtomicFunction::Min),
        6 => Some(AtomicFunction::Max),
        _ => None,
    }
}

fn atomic(operands: &[u32]) -> Option<Statement>
    ensures { result ≡ atomic_of operands.now }
{
    let [pointer, form, compare, value, before] = operands else {
        return None;
    };
    Some(Statement::Atomic {
        pointer: handle(*pointer)?,
        fun: atomic_function(*form, *compare)?,
        value: handle(*value)?,
        result: handle(*before),
    })
}

fn image_atomic(operands: &[u32]) -> Option<Statement>
    ensures { result ≡ image_atomic_of operands.now }
{
    let [image, coordinate, index, form, compare, value] = operands else {
        return None;
    };
    Some(Statement::ImageAtomic {
        image: handle(*image)?,
        coordinate: handle(*coordinate)?,
        array_index: handle(*index),
        fun: atomic_function(*form, *compare)?,
        value: handle(*value)?,
    })
}

fn workgroup_load(operands: &[u32]) -> Option<Statement>
    ensures { result ≡ reads_two handle_of handle_of s.WorkGroupUniformLoad operands.now }
{
    let [pointer, loaded] = operands else {
        return None
    };
    Some(Statement::WorkGroupUniformLoad {
        pointer: handle(*pointer)?,
        result: handle(*loaded)?,
    })
}

/// A step of a ray query.
fn step(form: u32, first: u32, second: u32) -> Option<RayQueryFunction>
    ensures { result ≡ step_of form first second }
{
    if form == 0 {
        return Some(RayQueryFunction::Initialize {
            acceleration_structure: handle(first)?,
            descriptor: handle(second)?,
        });
    }
    zero(second)?;
    match form {
        1 => Some(RayQueryFunction::Proceed {
            result: handle(first)?,
        }),
        2 => Some(RayQueryFunction::GenerateIntersection {
            hit_t: handle(first)?,
        }),
        3 => {
            zero(first)?;
            Some(RayQueryFunction::ConfirmIntersection)
        }
        4 => {
            zero(first)?;
            Some(RayQueryFunction::Terminate)
        }
        _ => None,
    }
}

fn ray_query(operands: &[u32]) -> Option<Statement>
    ensures { result ≡ ray_query_of operands.now }
{
    let [query, form, first, second] = operands else {
        return None;
    };
    Some(Statement::RayQuery {
        query: handle(*query)?,
        fun: step(*form, *first, *second)?,
    })
}

fn trace_ray(operands: &[u32]) -> Option<Statement>
    ensures { result ≡ trace_ray_of operands.now }
{
    let [structure, descriptor, payload] = operands else {
        return None;
    };
    Some(Statement::RayPipelineFunction(RayPipelineFunction::TraceRay {
        acceleration_structure: handle(*structure)?,
        descriptor: handle(*descriptor)?,
        payload: handle(*payload)?,
    }))
}

fn ballot(operands: &[u32]) -> Option<Statement>
    ensures { result ≡ reads_two handle_of optional_of s.SubgroupBallot operands.now }
{
    let [balloted, predicate] = operands else {
        return None
    };
    Some(Statement::SubgroupBallot {
        result: handle(*balloted)?,
        predicate: handle(*predicate),
    })
}

/// From which invocation of a subgroup a value is taken.
fn gather_mode(form: u32, by: u32) -> Option<GatherMode>
    ensures { result ≡ gather_mode_of form by }
{
    match form {
        0 => {
            zero(by)?;
            Some(GatherMode::BroadcastFirst)
        }
        1 => Some(GatherMode::Broadcast(handle(by)?)),
        2 => Some(GatherMode::Shuffle(handle(by)?)),
        3 => Some(GatherMode::ShuffleDown(handle(by)?)),
        4 => Some(GatherMode::ShuffleUp(handle(by)?)),
        5 => Some(GatherMode::ShuffleXor(handle(by)?)),
        6 => Some(GatherMode::QuadBroadcast(handle(by)?)),
        7 => {
            zero(by)?;
            Some(GatherMode::QuadSwap)
        }
        _ => None,
    }
}

fn gather(operands: &[u32]) -> Option<Statement>
    ensures { result ≡ gather_of operands.now }
{
    let [form, by, argument, gathered] = operands else {
        return None;
    };
    Some(Statement::SubgroupGather {
        mode: gather_mode(*form, *by)?,
        argument: handle(*argument)?,
        result: handle(*gathered)?,
    })
}

fn collective(operands: &[u32]) -> Option<Statement>
    ensures { result ≡ collective_of operands.now }
{
    let (of_op, argument, made, of_collective) = match operands {
        [op, argument, made] => (*op, *argument, *made, 0),
        [op, argument, made, collective] => (*op, *argument, *made, *collective),
        _ => return None,
    };
    Some(Statement::SubgroupCollectiveOperation {
        op: subgroup_operation(of_op)?,
        argument: handle(argument)?,
        result: handle(made)?,
        collective_op: collective_operation(of_collective)?,
    })
}

fn cooperative_store(operands: &[u32]) -> Option<Statement>
    ensures { result ≡ reads_three handle_of handle_of handle_of s.CooperativeStore operands.now }
{
    let [target, pointer, stride] = operands else {
        return None;
    };
    Some(Statement::CooperativeStore {
        target: handle(*target)?,
        pointer: handle(*pointer)?,
        stride: handle(*stride)?,
    })
}

/// The statement of an opcode and its operands, unless it is a call.
fn fixed_statement(opcode: u8, operands: &[u32]) -> Option<Statement>
    ensures { result ≡ read_by fixed_statements opcode operands.now }
{
    match opcode {
        code::STATEMENT_EMIT => emit(operands),
        code::STATEMENT_BREAK => break_statement(operands),
        code::STATEMENT_CONTINUE => continue_statement(operands),
        code::STATEMENT_RETURN => return_statement(operands),
        code::STATEMENT_KILL => kill(operands),
        code::STATEMENT_CONTROL_BARRIER => control_barrier(operands),
        code::STATEMENT_MEMORY_BARRIER => memory_barrier(operands),
        code::STATEMENT_STORE => store(operands),
        code::STATEMENT_IMAGE_STORE => image_store(operands),
        code::STATEMENT_ATOMIC => atomic(operands),
        code::STATEMENT_IMAGE_ATOMIC => image_atomic(operands),
        code::STATEMENT_WORKGROUP_UNIFORM_LOAD => workgroup_load(operands),
        code::STATEMENT_RAY_QUERY => ray_query(operands),
        code::STATEMENT_TRACE_RAY => trace_ray(operands),
        code::STATEMENT_SUBGROUP_BALLOT => ballot(operands),
        code::STATEMENT_SUBGROUP_GATHER => gather(operands),
        code::STATEMENT_SUBGROUP_OPERATION => collective(operands),
        code::STATEMENT_COOPERATIVE_STORE => cooperative_store(operands),
        _ => None,
    }
}

fn call(alloc: Global, operands: &[u32]) -> Result<Statement, Unread>
    ensures found { IfOk result (λ read. call_of operands.now ≡ Some read) }
    ensures none { IfErr result (λ e. e ≡ unread.Item → call_of operands.now ≡ None) }
{
    let [function, returned, rest @ ..] = operands else {
        return Err(Unread::Item);
    };
    let Some(function) = handle(*function) else {
        return Err(Unread::Item);
    };
    let arguments = expressions(alloc, rest)?;
    Ok(Statement::Call {
        function,
        arguments,
        result: handle(*returned),
    })
}

/// The statement of an opcode and its operands, which contains no others.
pub(crate) fn statement(alloc: Global, opcode: u8, operands: &[u32]) -> Result<Statement, Unread>
    ensures found { IfOk result (λ s. statement_of opcode operands.now ≡ Some s) }
    ensures none { IfErr result (λ e. e ≡ unread.Item → statement_of opcode operands.now ≡ None) }
{
    if opcode == code::STATEMENT_CALL {
        return call(alloc, operands);
    }
    known(fixed_statement(opcode, operands))
}
