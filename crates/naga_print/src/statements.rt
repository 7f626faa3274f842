//! Statements as items.

use crate::printer::{NONE, PrintError, Printer};
use naga_ir::statement::{
    AtomicFunction, Barrier, Block, CollectiveOperation, GatherMode, RayPipelineFunction,
    RayQueryFunction, Statement, SubgroupOperation, SwitchCase, SwitchValue,
};

/// The opcode of a statement, and how its line begins.
fn head_of(statement: &Statement) -> (u32, &'static str) {
    match statement {
        Statement::Emit(_) => (192, "s emit"),
        Statement::Block(_) => (193, "s block"),
        Statement::If { .. } => (194, "s if"),
        Statement::Switch { .. } => (196, "s switch"),
        Statement::Loop { .. } => (198, "s loop"),
        Statement::Break => (202, "s break"),
        Statement::Continue => (203, "s continue"),
        Statement::Return { .. } => (204, "s return"),
        Statement::Kill => (205, "s kill"),
        Statement::ControlBarrier(_) => (206, "s barrier"),
        Statement::MemoryBarrier(_) => (207, "s membarrier"),
        Statement::Store { .. } => (208, "s store"),
        Statement::ImageStore { .. } => (209, "s imagestore"),
        Statement::Atomic { .. } => (210, "s atomic"),
        Statement::ImageAtomic { .. } => (211, "s imageatomic"),
        Statement::WorkGroupUniformLoad { .. } => (212, "s wgload"),
        Statement::Call { .. } => (213, "s call"),
        Statement::RayQuery { .. } => (214, "s rayquery"),
        Statement::RayPipelineFunction(_) => (215, "s trace"),
        Statement::SubgroupBallot { .. } => (216, "s ballot"),
        Statement::SubgroupGather { .. } => (217, "s gather"),
        Statement::SubgroupCollectiveOperation { .. } => (218, "s collective"),
        Statement::CooperativeStore { .. } => (219, "s coopstore"),
    }
}

/// The number and the word of an operation of a subgroup.
fn operation(op: SubgroupOperation) -> (u32, &'static str) {
    match op {
        SubgroupOperation::All => (0, "all"),
        SubgroupOperation::Any => (1, "any"),
        SubgroupOperation::Add => (2, "add"),
        SubgroupOperation::Mul => (3, "mul"),
        SubgroupOperation::Min => (4, "min"),
        SubgroupOperation::Max => (5, "max"),
        SubgroupOperation::And => (6, "and"),
        SubgroupOperation::Or => (7, "or"),
        SubgroupOperation::Xor => (8, "xor"),
    }
}

impl Printer {
    fn atomic_function(&mut self, fun: AtomicFunction) -> Result<(), PrintError> {
        match fun {
            AtomicFunction::Add => self.choice_alone((0, "add")),
            AtomicFunction::Subtract => self.choice_alone((1, "sub")),
            AtomicFunction::And => self.choice_alone((2, "and")),
            AtomicFunction::ExclusiveOr => self.choice_alone((3, "xor")),
            AtomicFunction::InclusiveOr => self.choice_alone((4, "or")),
            AtomicFunction::Min => self.choice_alone((5, "min")),
            AtomicFunction::Max => self.choice_alone((6, "max")),
            AtomicFunction::Exchange {
                compare: Some(compare),
            } => self.choice_by((7, "cas"), compare),
            AtomicFunction::Exchange { compare: None } => {
                self.choice((7, "xchg"))?;
                self.word(NONE)
            }
        }
    }

    /// Adds the three words of a step of a ray query.
    fn ray_query_step(&mut self, fun: RayQueryFunction) -> Result<(), PrintError> {
        match fun {
            RayQueryFunction::Initialize {
                acceleration_structure,
                descriptor,
            } => {
                self.choice((0, "init"))?;
                self.indices(&[acceleration_structure, descriptor])
            }
            RayQueryFunction::Proceed { result } => {
                self.choice((1, "proceed"))?;
                self.index(result)?;
                self.word(0)
            }
            RayQueryFunction::GenerateIntersection { hit_t } => {
                self.choice((2, "generate"))?;
                self.index(hit_t)?;
                self.word(0)
            }
            RayQueryFunction::ConfirmIntersection => {
                self.choice_alone((3, "confirm"))?;
                self.word(0)
            }
            RayQueryFunction::Terminate => {
                self.choice_alone((4, "terminate"))?;
                self.word(0)
            }
        }
    }

    /// Adds the two words of a mode in which values are gathered.
    fn gather_mode(&mut self, mode: GatherMode) -> Result<(), PrintError> {
        match mode {
            GatherMode::BroadcastFirst => self.choice_alone((0, "first")),
            GatherMode::Broadcast(by) => self.choice_by((1, "broadcast"), by),
            GatherMode::Shuffle(by) => self.choice_by((2, "shuffle"), by),
            GatherMode::ShuffleDown(by) => self.choice_by((3, "shuffledown"), by),
            GatherMode::ShuffleUp(by) => self.choice_by((4, "shuffleup"), by),
            GatherMode::ShuffleXor(by) => self.choice_by((5, "shufflexor"), by),
            GatherMode::QuadBroadcast(by) => self.choice_by((6, "quadbroadcast"), by),
            GatherMode::QuadSwap => self.choice_alone((7, "quadswap")),
        }
    }

    /// Adds the operands of a statement about memory.
    fn of_memory(&mut self, statement: &Statement) -> Result<(), PrintError> {
        match statement {
            Statement::Store { pointer, value } => self.indices(&[*pointer, *value]),
            Statement::Atomic {
                pointer,
                fun,
                value,
                result,
            } => {
                self.index(*pointer)?;
                self.atomic_function(*fun)?;
                self.index(*value)?;
                self.optional(*result)
            }
            Statement::WorkGroupUniformLoad { pointer, result } => {
                self.indices(&[*pointer, *result])
            }
            Statement::CooperativeStore {
                target,
                pointer,
                stride,
            } => self.indices(&[*target, *pointer, *stride]),
            _ => Ok(()),
        }
    }

    /// Adds the operands of a statement about images.
    fn of_images(&mut self, statement: &Statement) -> Result<(), PrintError> {
        match statement {
            Statement::ImageStore {
                image,
                coordinate,
                array_index,
                value,
            } => {
                self.indices(&[*image, *coordinate])?;
                self.optional(*array_index)?;
                self.index(*value)
            }
            Statement::ImageAtomic {
                image,
                coordinate,
                array_index,
                fun,
                value,
            } => {
                self.indices(&[*image, *coordinate])?;
                self.optional(*array_index)?;
                self.atomic_function(*fun)?;
                self.index(*value)
            }
            _ => Ok(()),
        }
    }

    /// Adds the operands of a statement about rays.
    fn of_rays(&mut self, statement: &Statement) -> Result<(), PrintError> {
        match statement {
            Statement::RayQuery { query, fun } => {
                self.index(*query)?;
                self.ray_query_step(*fun)
            }
            Statement::RayPipelineFunction(
                RayPipelineFunction::TraceRay {
                    acceleration_structure,
                    descriptor,
                    payload,
                },
            ) => self.indices(&[*acceleration_structure, *descriptor, *payload]),
            _ => Ok(()),
        }
    }

    /// Adds the operands of a statement about subgroups.
    fn of_subgroups(&mut self, statement: &Statement) -> Result<(), PrintError> {
        match statement {
            Statement::SubgroupBallot { result, predicate } => {
                self.index(*result)?;
                self.optional(*predicate)
            }
            Statement::SubgroupGather {
                mode,
                argument,
                result,
            } => {
                self.gather_mode(*mode)?;
                self.indices(&[*argument, *result])
            }
            Statement::SubgroupCollectiveOperation {
                op,
                collective_op,
                argument,
                result,
            } => {
                let (number, word) = operation(*op);
                self.word(number)?;
                self.indices(&[*argument, *result])?;
                self.part(" ")?;
                self.part(word)?;
                match collective_op {
                    CollectiveOperation::Reduce => Ok(()),
                    CollectiveOperation::InclusiveScan => self.choice((1, "inclusive")),
                    CollectiveOperation::ExclusiveScan => self.choice((2, "exclusive")),
                }
            }
            _ => Ok(()),
        }
    }

    /// Adds the memory of a barrier, unless it is for the workgroup alone.
    fn barrier(&mut self, barrier: Barrier) -> Result<(), PrintError> {
        if barrier == Barrier::WORK_GROUP {
            return Ok(());
        }
        let storage = if barrier.storage { 1 } else { 0 };
        let work_group = if barrier.work_group { 2 } else { 0 };
        let sub_group = if barrier.sub_group { 4 } else { 0 };
        let texture = if barrier.texture { 8 } else { 0 };
        self.number(storage + work_group + sub_group + texture)
    }

    /// Adds the operands of a statement about the flow of control.
    fn of_control(&mut self, statement: &Statement) -> Result<(), PrintError> {
        match statement {
            Statement::Emit(range) => {
                self.number(range.start)?;
                self.number(range.end)
            }
            Statement::If { condition, .. } => self.index(*condition),
            Statement::Switch { selector, .. } => self.index(*selector),
            Statement::Return { value } => self.optional(*value),
            Statement::ControlBarrier(barrier) | Statement::MemoryBarrier(barrier) => {
                self.barrier(*barrier)
            }
            Statement::Call {
                function,
                arguments,
                result,
            } => {
                self.index(*function)?;
                self.optional(*result)?;
                self.indices(arguments.as_slice())
            }
            _ => Ok(()),
        }
    }

    /// Prints the item with which a statement begins. Each of the groups of statements adds the operands of its own,
    /// and none of another's.
    fn statement_head(&mut self, statement: &Statement) -> Result<(), PrintError> {
        let (opcode, line) = head_of(statement);
        self.begin(opcode, line)?;
        self.of_control(statement)?;
        self.of_memory(statement)?;
        self.of_images(statement)?;
        self.of_rays(statement)?;
        self.of_subgroups(statement)?;
        self.end()
    }

    /// Prints the item that begins a case.
    fn case_head(&mut self, case: &SwitchCase) -> Result<(), PrintError> {
        self.begin(197, "s case")?;
        self.word(u32::from(case.fall_through))?;
        match case.value {
            Some(SwitchValue::Default) => self.choice_alone((0, "default"))?,
            Some(SwitchValue::I32(value)) => {
                self.word(1)?;
                self.word(value.cast_unsigned())?;
                self.part(" i")?;
                self.signed_decimal(i64::from(value))?;
            }
            Some(SwitchValue::U32(value)) => {
                self.word(2)?;
                self.number(value)?;
            }
            None if case.fall_through => self.part(" -")?,
            None => (),
        }
        if case.fall_through {
            self.part(" falls")?;
        }
        self.end()
    }

    #[cycle(statements)]
    fn cases(&mut self, cases: &[SwitchCase]) -> Result<(), PrintError> {
        for case in cases {
            self.case_head(case)?;
            self.block(&case.body)?;
        }
        Ok(())
    }

    /// Prints the blocks of a statement, and what stands between and after them.
    #[cycle(statements)]
    fn blocks(&mut self, statement: &Statement) -> Result<(), PrintError> {
        match statement {
            Statement::Block(block) => {
                self.block(block)?;
                self.item(200, "s end")
            }
            Statement::If { accept, reject, .. } => {
                self.block(accept)?;
                self.item(195, "s else")?;
                self.block(reject)?;
                self.item(200, "s end")
            }
            Statement::Switch { cases, .. } => {
                self.cases(cases)?;
                self.item(200, "s end")
            }
            Statement::Loop {
                body,
                continuing,
                break_if,
            } => {
                self.block(body)?;
                self.item(199, "s continuing")?;
                self.block(continuing)?;
                self.begin(201, "s end")?;
                self.optional(*break_if)?;
                self.end()
            }
            _ => Ok(()),
        }
    }

    /// Prints the statements of a block.
    #[cycle(statements)]
    pub(crate) fn block(&mut self, block: &Block) -> Result<(), PrintError> {
        for statement in &block.body {
            self.statement_head(statement)?;
            self.blocks(statement)?;
        }
        Ok(())
    }
}
