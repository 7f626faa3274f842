//! Statements that contain no other statements.

use crate::items::{MOST_WORDS, at_colon, expressions};
use naga_draft::unread::{Unread, known};
use naga_ir::range::Range;
use naga_ir::statement::{
    AtomicFunction, Barrier, CollectiveOperation, GatherMode, RayPipelineFunction,
    RayQueryFunction, Statement, SubgroupOperation,
};
use naga_text::line_words::LineWords;
use naga_text::number::{handle, number, number_up_to, optional_handle};
use naga_text::words::{chosen, equals};
use std::alloc::Global;

/// The statement of a word that no other word follows.
fn alone(statement: Statement, words: &[&[u8]]) -> Option<Statement> {
    if words.is_empty() {
        Some(statement)
    } else {
        None
    }
}

/// `emit A B`: the expressions from A on, up to but not B
fn emit(words: &[&[u8]]) -> Option<Statement> {
    let [start, end] = words else { return None };
    Some(Statement::Emit(Range::new(number(start)?, number(end)?)))
}

/// A barrier for one kind of memory more, by its name.
fn with_memory(barrier: Barrier, name: &[u8]) -> Option<Barrier> {
    match name {
        _ if equals(name, b"storage") => Some(Barrier {
            storage: true,
            ..barrier
        }),
        _ if equals(name, b"workgroup") => Some(Barrier {
            work_group: true,
            ..barrier
        }),
        _ if equals(name, b"subgroup") => Some(Barrier {
            sub_group: true,
            ..barrier
        }),
        _ if equals(name, b"texture") => Some(Barrier {
            texture: true,
            ..barrier
        }),
        _ => None,
    }
}

/// The barrier of a number: the sum of 1 storage, 2 workgroup, 4 subgroup and 8 texture.
fn numbered_barrier(bits: u64) -> Barrier {
    Barrier {
        storage: bits % 2 == 1,
        work_group: bits / 2 % 2 == 1,
        sub_group: bits / 4 % 2 == 1,
        texture: bits / 8 % 2 == 1,
    }
}

/// `[FLAGS]`, a number or names with commas between them; the workgroup alone without it
fn barrier(words: &[&[u8]]) -> Option<Barrier> {
    let word = match words {
        [] => return Some(Barrier::WORK_GROUP),
        [word] => word,
        _ => return None,
    };
    if let Some(bits) = number_up_to(word, 15) {
        return Some(numbered_barrier(bits));
    }
    let mut all = numbered_barrier(0);
    for name in word.split(|byte| *byte == b',') {
        all = with_memory(all, name)?;
    }
    Some(all)
}

/// `return E|-`
fn return_statement(words: &[&[u8]]) -> Option<Statement> {
    let [value] = words else { return None };
    Some(Statement::Return {
        value: optional_handle(value)?,
    })
}

/// `store E E`
fn store(words: &[&[u8]]) -> Option<Statement> {
    let [pointer, value] = words else { return None };
    Some(Statement::Store {
        pointer: handle(pointer)?,
        value: handle(value)?,
    })
}

/// `imagestore IMAGE COORDINATE INDEX|- VALUE`
fn image_store(words: &[&[u8]]) -> Option<Statement> {
    let [image, coordinate, index, value] = words else {
        return None;
    };
    Some(Statement::ImageStore {
        image: handle(image)?,
        coordinate: handle(coordinate)?,
        array_index: optional_handle(index)?,
        value: handle(value)?,
    })
}

/// `cas:E`
fn compare_exchange(word: &[u8]) -> Option<AtomicFunction> {
    let (name, compare) = at_colon(word)?;
    if !equals(name, b"cas") {
        return None;
    }
    Some(AtomicFunction::Exchange {
        compare: Some(handle(compare)?),
    })
}

/// `add sub and xor or min max xchg cas:E`
fn atomic_function(word: &[u8]) -> Option<AtomicFunction> {
    let functions = [
        ("add", AtomicFunction::Add),
        ("sub", AtomicFunction::Subtract),
        ("and", AtomicFunction::And),
        ("xor", AtomicFunction::ExclusiveOr),
        ("or", AtomicFunction::InclusiveOr),
        ("min", AtomicFunction::Min),
        ("max", AtomicFunction::Max),
        ("xchg", AtomicFunction::Exchange { compare: None }),
    ];
    match chosen(&functions, word) {
        Some(function) => Some(function),
        None => compare_exchange(word),
    }
}

/// `atomic POINTER FUN VALUE RESULT|-`
fn atomic(words: &[&[u8]]) -> Option<Statement> {
    let [pointer, fun, value, before] = words else {
        return None;
    };
    Some(Statement::Atomic {
        pointer: handle(pointer)?,
        fun: atomic_function(fun)?,
        value: handle(value)?,
        result: optional_handle(before)?,
    })
}

/// `imageatomic IMAGE COORDINATE INDEX|- FUN VALUE`
fn image_atomic(words: &[&[u8]]) -> Option<Statement> {
    let [image, coordinate, index, fun, value] = words else {
        return None;
    };
    Some(Statement::ImageAtomic {
        image: handle(image)?,
        coordinate: handle(coordinate)?,
        array_index: optional_handle(index)?,
        fun: atomic_function(fun)?,
        value: handle(value)?,
    })
}

/// `wgload POINTER RESULT`
fn workgroup_load(words: &[&[u8]]) -> Option<Statement> {
    let [pointer, loaded] = words else {
        return None
    };
    Some(Statement::WorkGroupUniformLoad {
        pointer: handle(pointer)?,
        result: handle(loaded)?,
    })
}

/// `call F RESULT|- E..`
fn call(alloc: Global, words: &mut LineWords) -> Result<Statement, Unread> {
    let function = known(handle(known(words.next())?))?;
    let result = known(optional_handle(known(words.next())?))?;
    Ok(Statement::Call {
        function,
        arguments: expressions(alloc, words)?,
        result,
    })
}

/// What a step of a ray query does.
#[derive(Clone, Copy)]
enum Step {
    Initialize,
    Proceed,
    GenerateIntersection,
    ConfirmIntersection,
    Terminate,
}

/// `init E E`, `proceed E`, `generate E`, `confirm` or `terminate`
fn ray_query_function(words: &[&[u8]]) -> Option<RayQueryFunction> {
    let steps = [
        ("init", Step::Initialize),
        ("proceed", Step::Proceed),
        ("generate", Step::GenerateIntersection),
        ("confirm", Step::ConfirmIntersection),
        ("terminate", Step::Terminate),
    ];
    let (step, rest) = words.split_first()?;
    match (chosen(&steps, step)?, rest) {
        (Step::Initialize, [structure, descriptor]) => Some(RayQueryFunction::Initialize {
            acceleration_structure: handle(structure)?,
            descriptor: handle(descriptor)?,
        }),
        (Step::Proceed, [proceeded]) => Some(RayQueryFunction::Proceed {
            result: handle(proceeded)?,
        }),
        (Step::GenerateIntersection, [hit_t]) => Some(RayQueryFunction::GenerateIntersection {
            hit_t: handle(hit_t)?,
        }),
        (Step::ConfirmIntersection, []) => Some(RayQueryFunction::ConfirmIntersection),
        (Step::Terminate, []) => Some(RayQueryFunction::Terminate),
        _ => None,
    }
}

/// `rayquery QUERY STEP`
fn ray_query(words: &[&[u8]]) -> Option<Statement> {
    let (query, step) = words.split_first()?;
    Some(Statement::RayQuery {
        query: handle(query)?,
        fun: ray_query_function(step)?,
    })
}

/// `ballot RESULT PREDICATE|-`
fn ballot(words: &[&[u8]]) -> Option<Statement> {
    let [balloted, predicate] = words else {
        return None
    };
    Some(Statement::SubgroupBallot {
        result: handle(balloted)?,
        predicate: optional_handle(predicate)?,
    })
}

/// `all any add mul min max and or xor`
fn subgroup_operation(word: &[u8]) -> Option<SubgroupOperation> {
    let operations = [
        ("all", SubgroupOperation::All),
        ("any", SubgroupOperation::Any),
        ("add", SubgroupOperation::Add),
        ("mul", SubgroupOperation::Mul),
        ("min", SubgroupOperation::Min),
        ("max", SubgroupOperation::Max),
        ("and", SubgroupOperation::And),
        ("or", SubgroupOperation::Or),
        ("xor", SubgroupOperation::Xor),
    ];
    chosen(&operations, word)
}

/// `reduce`, `inclusive` or `exclusive`
fn collective_operation(word: &[u8]) -> Option<CollectiveOperation> {
    let operations = [
        ("reduce", CollectiveOperation::Reduce),
        ("inclusive", CollectiveOperation::InclusiveScan),
        ("exclusive", CollectiveOperation::ExclusiveScan),
    ];
    chosen(&operations, word)
}

/// `collective ARGUMENT RESULT [OPERATION [HOW]]`, which adds the values of all invocations unless words say otherwise
fn collective(words: &[&[u8]]) -> Option<Statement> {
    let [argument, made, rest @ ..] = words else {
        return None;
    };
    let (op, collective_op) = match rest {
        [] => (SubgroupOperation::Add, CollectiveOperation::Reduce),
        [op] => (subgroup_operation(op)?, CollectiveOperation::Reduce),
        [op, how] => (subgroup_operation(op)?, collective_operation(how)?),
        _ => return None,
    };
    Some(Statement::SubgroupCollectiveOperation {
        op,
        collective_op,
        argument: handle(argument)?,
        result: handle(made)?,
    })
}

/// How an invocation is named from which a value is taken.
#[derive(Clone, Copy)]
enum GatherForm {
    Broadcast,
    Shuffle,
    ShuffleDown,
    ShuffleUp,
    ShuffleXor,
    QuadBroadcast,
}

/// `broadcast:E shuffle:E shuffledown:E shuffleup:E shufflexor:E quadbroadcast:E`
fn gather_by(word: &[u8]) -> Option<GatherMode> {
    let gathers = [
        ("broadcast", GatherForm::Broadcast),
        ("shuffle", GatherForm::Shuffle),
        ("shuffledown", GatherForm::ShuffleDown),
        ("shuffleup", GatherForm::ShuffleUp),
        ("shufflexor", GatherForm::ShuffleXor),
        ("quadbroadcast", GatherForm::QuadBroadcast),
    ];
    let (gather, by) = at_colon(word)?;
    let by = handle(by)?;
    match chosen(&gathers, gather)? {
        GatherForm::Broadcast => Some(GatherMode::Broadcast(by)),
        GatherForm::Shuffle => Some(GatherMode::Shuffle(by)),
        GatherForm::ShuffleDown => Some(GatherMode::ShuffleDown(by)),
        GatherForm::ShuffleUp => Some(GatherMode::ShuffleUp(by)),
        GatherForm::ShuffleXor => Some(GatherMode::ShuffleXor(by)),
        GatherForm::QuadBroadcast => Some(GatherMode::QuadBroadcast(by)),
    }
}

/// `first`, `quadswap`, or one by an expression
fn gather_mode(word: &[u8]) -> Option<GatherMode> {
    let modes = [
        ("first", GatherMode::BroadcastFirst),
        ("quadswap", GatherMode::QuadSwap),
    ];
    match chosen(&modes, word) {
        Some(mode) => Some(mode),
        None => gather_by(word),
    }
}

/// `gather MODE ARGUMENT RESULT`
fn gather(words: &[&[u8]]) -> Option<Statement> {
    let [mode, argument, gathered] = words else {
        return None;
    };
    Some(Statement::SubgroupGather {
        mode: gather_mode(mode)?,
        argument: handle(argument)?,
        result: handle(gathered)?,
    })
}

/// `coopstore TARGET POINTER STRIDE`
fn cooperative_store(words: &[&[u8]]) -> Option<Statement> {
    let [target, pointer, stride] = words else {
        return None;
    };
    Some(Statement::CooperativeStore {
        target: handle(target)?,
        pointer: handle(pointer)?,
        stride: handle(stride)?,
    })
}

/// `trace STRUCTURE DESCRIPTOR PAYLOAD`
fn trace_ray(words: &[&[u8]]) -> Option<Statement> {
    let [structure, descriptor, payload] = words else {
        return None;
    };
    Some(Statement::RayPipelineFunction(RayPipelineFunction::TraceRay {
        acceleration_structure: handle(structure)?,
        descriptor: handle(descriptor)?,
        payload: handle(payload)?,
    }))
}

/// The statement of a word other than `call`, and of the words after it.
fn fixed_statement(word: &[u8], words: &[&[u8]]) -> Option<Statement> {
    match word {
        _ if equals(word, b"emit") => emit(words),
        _ if equals(word, b"break") => alone(Statement::Break, words),
        _ if equals(word, b"continue") => alone(Statement::Continue, words),
        _ if equals(word, b"kill") => alone(Statement::Kill, words),
        _ if equals(word, b"barrier") => Some(Statement::ControlBarrier(barrier(words)?)),
        _ if equals(word, b"membarrier") => Some(Statement::MemoryBarrier(barrier(words)?)),
        _ if equals(word, b"return") => return_statement(words),
        _ if equals(word, b"store") => store(words),
        _ if equals(word, b"imagestore") => image_store(words),
        _ if equals(word, b"atomic") => atomic(words),
        _ if equals(word, b"imageatomic") => image_atomic(words),
        _ if equals(word, b"wgload") => workgroup_load(words),
        _ if equals(word, b"rayquery") => ray_query(words),
        _ if equals(word, b"ballot") => ballot(words),
        _ if equals(word, b"collective") => collective(words),
        _ if equals(word, b"gather") => gather(words),
        _ if equals(word, b"coopstore") => cooperative_store(words),
        _ if equals(word, b"trace") => trace_ray(words),
        _ => None,
    }
}

/// The statement of a word and of the words after it, which contains no others.
pub fn statement(alloc: Global, word: &[u8], words: &mut LineWords) -> Result<Statement, Unread> {
    if equals(word, b"call") {
        return call(alloc, words);
    }
    let mut room: [&[u8]; MOST_WORDS] = [&[]; MOST_WORDS];
    known(fixed_statement(word, known(words.all(&mut room))?))
}
