//! Statements, and the blocks that they make up and contain.

ghost use Rattle.std.specs.Prelude.{◌≡◌, [], ◌∷◌, ◌++◌, OnErr, OnOk};

use naga_arena::handle::Handle;
use naga_arena::list::List;
use naga_arena::memory::OutOfMemory;
use naga_arena::range::Range;
use naga_arena::tags::{ExpressionTag, FunctionTag};
use std::alloc::Global;

/// Statements that are executed in order.
///
/// Blocks may stand in blocks to any depth. What goes through a whole block calls itself for each block in it:
/// `try_for_each_reference`, and what drops or shows a block. So a block from outside is best read only to a depth that
/// the stack bears, as `validate_module_handles` says.
#[derive(Debug, Drop)]
#[cycle(statement)]
pub struct Block {
    pub body: Vec<Statement>,
}

impl Block {
    /// An empty block, which takes its memory from `alloc`.
    pub fn new(alloc: Global) -> Block
        ensures { result.body.items ≡ [] }
    {
        Block {
            body: Vec::new(alloc),
        }
    }

    /// Adds a statement at the end.
    ///
    /// # Errors
    ///
    /// `OutOfMemory` if memory was refused, which leaves the block as it was and drops the statement.
    pub fn push(&mut self, statement: Statement) -> Result<(), OutOfMemory>
        ensures pushed { OnOk result (self.new.body.items ≡ self.old.body.items ++ statement ∷ []) }
        ensures refused { OnErr result (self.new.body.items ≡ self.old.body.items) }
    {
        self.body.push(statement)?;
        Ok(())
    }
}

/// The value of a selector at which a case of a `switch` is executed (naga, `SwitchValue`).
#[derive(Clone, Copy, Debug, PartialEq, Eq)]
pub enum SwitchValue {
    I32(i32),
    U32(u32),
    /// Each value that no other case has.
    Default,
}

/// A case of a `switch`.
#[derive(Debug, Drop)]
#[cycle(statement)]
pub struct SwitchCase {
    /// When it is executed. Where that isn't said, the last case of a `switch` is its default, and another case has a
    /// value of its own.
    pub value: Option<SwitchValue>,
    pub body: Block,
    /// Whether the next case is executed after this one.
    pub fall_through: bool,
}

/// What an atomic operation does.
#[derive(Clone, Copy, Debug, PartialEq, Eq)]
pub enum AtomicFunction {
    Add,
    Subtract,
    And,
    ExclusiveOr,
    InclusiveOr,
    Min,
    Max,
    /// Replaces the value: always, or only if it equals `compare`.
    Exchange {
        compare: Option<Handle<ExpressionTag>>,
    },
}

/// A step of a ray query.
#[derive(Clone, Copy, Debug, PartialEq, Eq)]
pub enum RayQueryFunction {
    /// Begins it.
    Initialize {
        acceleration_structure: Handle<ExpressionTag>,
        /// The ray: where it begins and where it goes.
        descriptor: Handle<ExpressionTag>,
    },
    /// Proceeds to the next candidate.
    Proceed {
        /// Whether there was one.
        result: Handle<ExpressionTag>,
    },
    /// Commits a generated hit, at this distance.
    GenerateIntersection {
        hit_t: Handle<ExpressionTag>,
    },
    /// Commits the candidate.
    ConfirmIntersection,
    /// Ends it.
    Terminate,
}

/// A step of a ray tracing pipeline.
#[derive(Clone, Copy, Debug, PartialEq, Eq)]
pub enum RayPipelineFunction {
    /// Traces a ray.
    TraceRay {
        acceleration_structure: Handle<ExpressionTag>,
        /// The ray: where it begins and where it goes.
        descriptor: Handle<ExpressionTag>,
        /// A pointer to what the stages of the trace share.
        payload: Handle<ExpressionTag>,
    },
}

/// From which invocation of a subgroup a value is taken.
#[derive(Clone, Copy, Debug, PartialEq, Eq)]
pub enum GatherMode {
    /// The first.
    BroadcastFirst,
    /// The one of this number.
    Broadcast(Handle<ExpressionTag>),
    /// For each, the one of this number.
    Shuffle(Handle<ExpressionTag>),
    /// For each, the one whose number is greater by this.
    ShuffleDown(Handle<ExpressionTag>),
    /// For each, the one whose number is less by this.
    ShuffleUp(Handle<ExpressionTag>),
    /// For each, the one whose number differs in these bits.
    ShuffleXor(Handle<ExpressionTag>),
    /// The one of this number in the quad.
    QuadBroadcast(Handle<ExpressionTag>),
    /// Another one of the quad.
    QuadSwap,
}

/// What a subgroup makes of the values of its invocations.
#[derive(Clone, Copy, Debug, PartialEq, Eq)]
pub enum SubgroupOperation {
    All,
    Any,
    Add,
    Mul,
    Min,
    Max,
    And,
    Or,
    Xor,
}

/// For which invocations a subgroup makes one value of many (naga, `CollectiveOperation`).
#[derive(Clone, Copy, Debug, PartialEq, Eq)]
pub enum CollectiveOperation {
    /// Of all invocations, for each of them.
    Reduce,
    /// For each invocation, of those up to it and of its own.
    InclusiveScan,
    /// For each invocation, of those before it.
    ExclusiveScan,
}

/// The memory whose accesses a barrier orders (naga, `Barrier`).
#[derive(Clone, Copy, Debug, PartialEq, Eq)]
pub struct Barrier {
    /// Buffers.
    pub storage: bool,
    /// Variables of the workgroup.
    pub work_group: bool,
    /// What the invocations of a subgroup share.
    pub sub_group: bool,
    /// Storage images.
    pub texture: bool,
}

impl Barrier {
    /// Variables of the workgroup alone.
    pub const WORK_GROUP: Barrier = Barrier {
        storage: false,
        work_group: true,
        sub_group: false,
        texture: false,
    };
}

/// A statement.
#[derive(Debug, Drop)]
#[cycle(statement)]
pub enum Statement {
    /// Evaluates these expressions.
    Emit(Range<ExpressionTag>),
    /// A block of its own.
    Block(Block),
    /// One of two blocks, by a condition.
    If {
        condition: Handle<ExpressionTag>,
        accept: Block,
        reject: Block,
    },
    /// One of several blocks, by a number.
    Switch {
        selector: Handle<ExpressionTag>,
        cases: Vec<SwitchCase>,
    },
    /// Two blocks again and again, until a `Break` or until `break_if` is true after them.
    Loop {
        body: Block,
        continuing: Block,
        break_if: Option<Handle<ExpressionTag>>,
    },
    /// Leaves the innermost loop or switch.
    Break,
    /// Goes to the `continuing` block of the innermost loop.
    Continue,
    /// Leaves the function.
    Return {
        value: Option<Handle<ExpressionTag>>,
    },
    /// Ends the invocation of a fragment.
    Kill,
    /// Waits for the other invocations, and orders accesses to memory.
    ControlBarrier(Barrier),
    /// Orders accesses to memory.
    MemoryBarrier(Barrier),
    /// Writes a value to what a pointer points to.
    Store {
        pointer: Handle<ExpressionTag>,
        value: Handle<ExpressionTag>,
    },
    /// Writes a texel of an image.
    ImageStore {
        image: Handle<ExpressionTag>,
        coordinate: Handle<ExpressionTag>,
        array_index: Option<Handle<ExpressionTag>>,
        value: Handle<ExpressionTag>,
    },
    /// An atomic operation on what a pointer points to.
    Atomic {
        pointer: Handle<ExpressionTag>,
        fun: AtomicFunction,
        value: Handle<ExpressionTag>,
        /// What was there before, if it is used.
        result: Option<Handle<ExpressionTag>>,
    },
    /// An atomic operation on a texel.
    ImageAtomic {
        image: Handle<ExpressionTag>,
        coordinate: Handle<ExpressionTag>,
        array_index: Option<Handle<ExpressionTag>>,
        fun: AtomicFunction,
        value: Handle<ExpressionTag>,
    },
    /// Loads one value for the whole workgroup.
    WorkGroupUniformLoad {
        pointer: Handle<ExpressionTag>,
        result: Handle<ExpressionTag>,
    },
    /// Calls a function.
    Call {
        function: Handle<FunctionTag>,
        arguments: List<Handle<ExpressionTag>>,
        /// What the function returns, if it returns something.
        result: Option<Handle<ExpressionTag>>,
    },
    /// A step of a ray query.
    RayQuery {
        query: Handle<ExpressionTag>,
        fun: RayQueryFunction,
    },
    /// A step of a ray tracing pipeline.
    RayPipelineFunction(RayPipelineFunction),
    /// Collects a bool from all invocations of the subgroup.
    SubgroupBallot {
        result: Handle<ExpressionTag>,
        /// The bool; without it, each invocation takes part with true.
        predicate: Option<Handle<ExpressionTag>>,
    },
    /// Takes values of other invocations of the subgroup.
    SubgroupGather {
        mode: GatherMode,
        argument: Handle<ExpressionTag>,
        result: Handle<ExpressionTag>,
    },
    /// Makes one value of the values of the subgroup.
    SubgroupCollectiveOperation {
        op: SubgroupOperation,
        collective_op: CollectiveOperation,
        argument: Handle<ExpressionTag>,
        result: Handle<ExpressionTag>,
    },
    /// Writes a cooperative matrix to memory.
    CooperativeStore {
        /// The matrix.
        target: Handle<ExpressionTag>,
        pointer: Handle<ExpressionTag>,
        /// From the start of a column or row to the start of the next, in elements.
        stride: Handle<ExpressionTag>,
    },
}
