//! The blocks of a function's body while they are read.

ghost use Rattle.naga_ir.specs.declared.statement.Block.{Block};
ghost use Rattle.naga_draft.specs.Bodies.{IsBody};
ghost use Rattle.naga_draft.specs.BodyParts.{CanBeginBody, HasNoBlocks, IsPlain};
ghost use Rattle.naga_draft.specs.declared.item.Mark.TheVariants as mark;
ghost use Rattle.naga_draft.specs.declared.item.Mark.{Mark};
ghost use Rattle.naga_draft.specs.declared.unread.Unread.TheVariants as unread;
ghost use Rattle.naga_draft.specs.OpenBlocks.{Adds, AddsCase, AreRead, Closes, Opens, Refuses, TakesBlock};
ghost use Rattle.naga_draft.specs.OpenBlocks.{ends, has_room, kind_of, kinds, outer_of, takes};
ghost use Rattle.std.specs.Prelude.{◌≡◌, List, [], ◌∷◌, ◌++◌, IfErr, IfOk, OnOk, false, true};

use crate::item::{CaseHead, Mark};
use crate::unread::{Unread, known};
use naga_ir::handle::Handle;
use naga_ir::ir::MOST_NESTED;
use naga_ir::statement::{Block, Statement, SwitchCase};
use naga_ir::tags::ExpressionTag;
use std::alloc::Global;
use std::mem;

/// Which statement an open block is a part of, with what was read of the statement before.
#[derive(Drop)]
enum Opener {
    Block,
    Accept {
        condition: Handle<ExpressionTag>,
    },
    Reject {
        condition: Handle<ExpressionTag>,
        accept: Block,
    },
    /// Before the first case.
    Switch {
        selector: Handle<ExpressionTag>,
    },
    Case {
        selector: Handle<ExpressionTag>,
        cases: Vec<SwitchCase>,
        head: CaseHead,
    },
    Body,
    Continuing {
        body: Block,
    },
}

/// A block in which another one is open.
#[derive(Drop)]
struct OuterBlock {
    block: Block,
    /// What opened the other one.
    opener: Opener,
}

/// The cases of a switch, with one more.
fn with_case(
    mut cases: Vec<SwitchCase>,
    body: Block,
    head: CaseHead,
) -> Result<Vec<SwitchCase>, Unread>
    ensures added { IfOk result (λ v. AddsCase cases.items head body v.items) }
    ensures refused { IfErr result (λ e. e ≡ unread.OutOfMemory) }
{
    cases.push(SwitchCase {
        value: head.value,
        body,
        fall_through: head.fall_through,
    })?;
    Ok(cases)
}

/// The statement that ends with a block, unless it is a loop or lacks its last block.
fn closed(alloc: Global, opener: Opener, block: Block) -> Result<Statement, Unread>
    ensures closed { IfOk result (λ s. Closes (mark.End ∷ []) opener block s) }
    ensures last { OnOk result (ends (kind_of opener) ≡ true) }
    ensures refused { IfErr result (λ e. e ≡ unread.Item → ends (kind_of opener) ≡ false) }
{
    match opener {
        Opener::Block => Ok(Statement::Block(block)),
        Opener::Reject { condition, accept } => Ok(Statement::If {
            condition,
            accept,
            reject: block,
        }),
        Opener::Switch { selector } => Ok(Statement::Switch {
            selector,
            cases: Vec::new(alloc),
        }),
        Opener::Case {
            selector,
            cases,
            head,
        } => Ok(Statement::Switch {
            selector,
            cases: with_case(cases, block, head)?,
        }),
        Opener::Accept { .. } | Opener::Body | Opener::Continuing { .. } => Err(Unread::Item),
    }
}

/// A body, of which the last blocks may still be open.
#[derive(Drop)]
pub struct OpenBlocks {
    alloc: Global,
    /// Each stands in the one before.
    outer: Vec<OuterBlock>,
    /// The innermost block that is open, or the body if none is.
    block: Block,
}

impl OpenBlocks {
    /// An empty body.
    pub fn new(alloc: Global) -> OpenBlocks
        ensures { AreRead [] result }
    {
        OpenBlocks {
            alloc,
            outer: Vec::new(alloc),
            block: Block::new(alloc),
        }
    }

    /// Whether a statement can stand here: not in a switch before its first case.
    fn takes_statements(&self) -> bool
        ensures { result ≡ takes (kinds (outer_of self.now)) }
    {
        match self.outer.last() {
            Some(outer) => !matches!(outer.opener, Opener::Switch { .. }),
            None => true,
        }
    }

    /// Adds a statement to the innermost block, if it can stand there.
    fn push(&mut self, statement: Statement) -> Result<(), Unread>
        ensures added { HasNoBlocks statement → OnOk result (Adds (mark.Statement statement) self.old self.new) }
        ensures refused { IfErr result (λ e. e ≡ unread.Item → Refuses (mark.Statement statement) self.old) }
    {
        if !self.takes_statements() {
            return Err(Unread::Item);
        }
        self.block.push(statement)?;
        Ok(())
    }

    /// Opens a block in the innermost block.
    fn enter(&mut self, opener: Opener) -> Result<(), Unread>
        ensures opened { OnOk result (Opens opener self.old self.new) }
        ensures refused { IfErr result (λ e. e ≡ unread.OutOfMemory) }
    {
        let block = mem::replace(&mut self.block, Block::new(self.alloc));
        self.outer.push(OuterBlock { block, opener })?;
        Ok(())
    }

    /// Begins a statement that has blocks, if it can stand here and not too many blocks are open.
    fn begin(&mut self, opener: Opener) -> Result<(), Unread>
        ensures opened { OnOk result (Opens opener self.old self.new) }
        ensures room { OnOk result (has_room (kinds (outer_of self.old)) ≡ true) }
        ensures refused { IfErr result (λ e. e ≡ unread.Item → has_room (kinds (outer_of self.old)) ≡ false) }
    {
        if !self.takes_statements() || self.outer.len() >= MOST_NESTED {
            return Err(Unread::Item);
        }
        self.enter(opener)
    }

    /// Takes the innermost block that is open, and what opened it.
    fn take(&mut self) -> Result<(Opener, Block), Unread>
        ensures taken { IfOk result (λ t. TakesBlock self.old t.0 t.1 self.new) }
        ensures none { IfErr result (λ _. self.old.outer.items ≡ []) }
    {
        let OuterBlock { block, opener } = known(self.outer.pop())?;
        Ok((opener, mem::replace(&mut self.block, block)))
    }

    /// Ends the block of an `if` whose condition is true, and opens the other one.
    fn open_reject(&mut self) -> Result<(), Unread>
        ensures added { OnOk result (Adds mark.Else self.old self.new) }
        ensures refused { IfErr result (λ e. e ≡ unread.Item → Refuses mark.Else self.old) }
    {
        let (opener, accept) = self.take()?;
        match opener {
            Opener::Accept { condition } => self.enter(Opener::Reject { condition, accept }),
            Opener::Block
            | Opener::Reject { .. }
            | Opener::Switch { .. }
            | Opener::Case { .. }
            | Opener::Body
            | Opener::Continuing { .. } => Err(Unread::Item),
        }
    }

    /// Ends the case before, if there is one, and opens the next.
    fn open_case(&mut self, next: CaseHead) -> Result<(), Unread>
        ensures added { OnOk result (Adds (mark.Case next) self.old self.new) }
        ensures refused { IfErr result (λ e. e ≡ unread.Item → Refuses (mark.Case next) self.old) }
    {
        let (opener, block) = self.take()?;
        match opener {
            Opener::Switch { selector } => self.enter(Opener::Case {
                selector,
                cases: Vec::new(self.alloc),
                head: next,
            }),
            Opener::Case {
                selector,
                cases,
                head,
            } => {
                let cases = with_case(cases, block, head)?;
                self.enter(Opener::Case {
                    selector,
                    cases,
                    head: next,
                })
            }
            Opener::Block
            | Opener::Accept { .. }
            | Opener::Reject { .. }
            | Opener::Body
            | Opener::Continuing { .. } => Err(Unread::Item),
        }
    }

    /// Ends the body of a loop, and opens the block that is executed after it.
    fn open_continuing(&mut self) -> Result<(), Unread>
        ensures added { OnOk result (Adds mark.Continuing self.old self.new) }
        ensures refused { IfErr result (λ e. e ≡ unread.Item → Refuses mark.Continuing self.old) }
    {
        let (opener, body) = self.take()?;
        match opener {
            Opener::Body => self.enter(Opener::Continuing { body }),
            Opener::Block
            | Opener::Accept { .. }
            | Opener::Reject { .. }
            | Opener::Switch { .. }
            | Opener::Case { .. }
            | Opener::Continuing { .. } => Err(Unread::Item),
        }
    }

    /// Ends a block, an `else` or a switch.
    fn close(&mut self) -> Result<(), Unread>
        ensures added { OnOk result (Adds mark.End self.old self.new) }
        ensures refused { IfErr result (λ e. e ≡ unread.Item → Refuses mark.End self.old) }
    {
        let (opener, block) = self.take()?;
        let statement = closed(self.alloc, opener, block)?;
        self.block.push(statement)?;
        Ok(())
    }

    /// Ends a loop.
    fn close_loop(&mut self, break_if: Option<Handle<ExpressionTag>>) -> Result<(), Unread>
        ensures added { OnOk result (Adds (mark.EndOfLoop break_if) self.old self.new) }
        ensures refused { IfErr result (λ e. e ≡ unread.Item → Refuses (mark.EndOfLoop break_if) self.old) }
    {
        let (opener, continuing) = self.take()?;
        match opener {
            Opener::Continuing { body } => {
                self.block.push(Statement::Loop {
                    body,
                    continuing,
                    break_if,
                })?;
                Ok(())
            }
            Opener::Block
            | Opener::Accept { .. }
            | Opener::Reject { .. }
            | Opener::Switch { .. }
            | Opener::Case { .. }
            | Opener::Body => Err(Unread::Item),
        }
    }

    /// Adds a statement, or begins or ends blocks.
    pub fn add(&mut self, mark: Mark) -> Result<(), Unread>
        ensures added { (marks : List Mark) → AreRead marks self.old → IsPlain mark
            → OnOk result (AreRead (marks ++ mark ∷ []) self.new) }
        ensures refused { (marks : List Mark) → AreRead marks self.old
            → IfErr result (λ e. e ≡ unread.Item → ¬ (CanBeginBody (marks ++ mark ∷ []))) }
    {
        match mark {
            Mark::Statement(statement) => self.push(statement),
            Mark::Block => self.begin(Opener::Block),
            Mark::If(condition) => self.begin(Opener::Accept { condition }),
            Mark::Else => self.open_reject(),
            Mark::Switch(selector) => self.begin(Opener::Switch { selector }),
            Mark::Case(head) => self.open_case(head),
            Mark::Loop => self.begin(Opener::Body),
            Mark::Continuing => self.open_continuing(),
            Mark::End => self.close(),
            Mark::EndOfLoop(break_if) => self.close_loop(break_if),
        }
    }

    /// The whole body, if no block is open.
    pub fn finish(self) -> Result<Block, Unread>
        ensures whole { (marks : List Mark) → AreRead marks self → IfOk result (λ b. IsBody marks b) }
        ensures refused { (marks : List Mark) → AreRead marks self
            → IfErr result (λ e. (e ≡ unread.Item) × ((b : Block) → ¬ (IsBody marks b))) }
    {
        let OpenBlocks { outer, block, .. } = self;
        if outer.is_empty() {
            Ok(block)
        } else {
            Err(Unread::Item)
        }
    }
}
