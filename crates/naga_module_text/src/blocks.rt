//! The blocks of a function's body while their lines are read.

use crate::cases::case_head;
use crate::items::{MOST_WORDS, only_handle};
use crate::statements::statement;
use naga_draft::draft::Draft;
use naga_draft::item::{CaseHead, Item, Mark, Part};
use naga_draft::unread::{Unread, known};
use naga_ir::handle::Handle;
use naga_ir::tags::ExpressionTag;
use naga_text::line_words::LineWords;
use naga_text::number::optional_handle;
use naga_text::words::chosen;
use std::alloc::Global;

/// A word that opens or closes a block.
#[derive(Clone, Copy)]
enum BlockWord {
    Block,
    If,
    Else,
    Switch,
    Case,
    Loop,
    Continuing,
    End,
}

/// The block word of these bytes.
fn block_word_of(word: &[u8]) -> Option<BlockWord> {
    let words = [
        ("block", BlockWord::Block),
        ("if", BlockWord::If),
        ("else", BlockWord::Else),
        ("switch", BlockWord::Switch),
        ("case", BlockWord::Case),
        ("loop", BlockWord::Loop),
        ("continuing", BlockWord::Continuing),
        ("end", BlockWord::End),
    ];
    chosen(&words, word)
}

/// Which block of a statement is open.
#[derive(Clone, Copy, PartialEq)]
enum OpenBlock {
    Block,
    Accept,
    Reject,
    /// Before the first case.
    Switch,
    Case,
    Body,
    Continuing,
}

/// Adds a mark to the function or entry point that is open.
fn add_mark(draft: &mut Draft, mark: Mark) -> Result<(), Unread> {
    draft.add(Item::Part(Part::Mark(mark)))
}

/// The blocks of a body that are open. Lines leave out marks that the items of a body have: `end` ends an `if` without
/// its `else` and a loop without its `continuing`, and the end of the function ends all blocks.
#[derive(Drop)]
pub struct OpenBlocks {
    /// Each stands in the one before.
    open: Vec<OpenBlock>,
}

impl OpenBlocks {
    /// No blocks.
    pub fn new(alloc: Global) -> OpenBlocks {
        OpenBlocks {
            open: Vec::new(alloc),
        }
    }

    /// Whether a statement can stand here: not in a switch before its first case.
    fn takes_statements(&self) -> bool {
        match self.open.last() {
            Some(innermost) => *innermost != OpenBlock::Switch,
            None => true,
        }
    }

    /// Opens a block in the innermost block.
    fn open(&mut self, draft: &mut Draft, block: OpenBlock, mark: Mark) -> Result<(), Unread> {
        if !self.takes_statements() {
            // The line that ends such a block can't be read, so that this case is in no module.
            add_mark(
                draft,
                Mark::Case(CaseHead {
                    value: None,
                    fall_through: false,
                }),
            )?;
        }
        add_mark(draft, mark)?;
        self.open.push(block)?;
        Ok(())
    }

    /// Opens a block in place of the innermost block.
    fn replace(&mut self, draft: &mut Draft, block: OpenBlock, mark: Mark) -> Result<(), Unread> {
        known(self.open.pop())?;
        add_mark(draft, mark)?;
        self.open.push(block)?;
        Ok(())
    }

    /// `end`, of a loop also `end E|-`
    fn close(
        &mut self,
        draft: &mut Draft,
        break_if: Option<Handle<ExpressionTag>>,
    ) -> Result<(), Unread> {
        let block = known(self.open.pop())?;
        let is_loop = matches!(block, OpenBlock::Body | OpenBlock::Continuing);
        if !self.takes_statements() || break_if.is_some() && !is_loop {
            return Err(Unread::Item);
        }
        match block {
            OpenBlock::Accept => add_mark(draft, Mark::Else)?,
            OpenBlock::Body => add_mark(draft, Mark::Continuing)?,
            OpenBlock::Block
            | OpenBlock::Reject
            | OpenBlock::Switch
            | OpenBlock::Case
            | OpenBlock::Continuing => (),
        }
        add_mark(
            draft,
            if is_loop {
                Mark::EndOfLoop(break_if)
            } else {
                Mark::End
            },
        )
    }

    /// Does what a block word says, with the words after it.
    fn add_block(
        &mut self,
        draft: &mut Draft,
        word: BlockWord,
        words: &[&[u8]],
    ) -> Result<(), Unread> {
        match (word, words) {
            (BlockWord::Block, []) => self.open(draft, OpenBlock::Block, Mark::Block),
            (BlockWord::If, _) => {
                let condition = known(only_handle(words))?;
                self.open(draft, OpenBlock::Accept, Mark::If(condition))
            }
            (BlockWord::Else, []) => self.replace(draft, OpenBlock::Reject, Mark::Else),
            (BlockWord::Switch, _) => {
                let selector = known(only_handle(words))?;
                self.open(draft, OpenBlock::Switch, Mark::Switch(selector))
            }
            (BlockWord::Case, _) => {
                let head = known(case_head(words))?;
                self.replace(draft, OpenBlock::Case, Mark::Case(head))
            }
            (BlockWord::Loop, []) => self.open(draft, OpenBlock::Body, Mark::Loop),
            (BlockWord::Continuing, []) => {
                self.replace(draft, OpenBlock::Continuing, Mark::Continuing)
            }
            (BlockWord::End, []) => self.close(draft, None),
            (BlockWord::End, [break_if]) => self.close(draft, known(optional_handle(break_if))?),
            _ => Err(Unread::Item),
        }
    }

    /// Adds what the words of a line on statements say.
    pub fn add(
        &mut self,
        alloc: Global,
        draft: &mut Draft,
        words: &mut LineWords,
    ) -> Result<(), Unread> {
        let word = known(words.next())?;
        match block_word_of(word) {
            Some(block_word) => {
                let mut room: [&[u8]; MOST_WORDS] = [&[]; MOST_WORDS];
                self.add_block(draft, block_word, known(words.all(&mut room))?)
            }
            None => add_mark(draft, Mark::Statement(statement(alloc, word, words)?)),
        }
    }

    /// Ends all blocks.
    pub fn close_all(&mut self, draft: &mut Draft) -> Result<(), Unread> {
        for _ in 0..self.open.len() {
            self.close(draft, None)?;
        }
        Ok(())
    }
}
