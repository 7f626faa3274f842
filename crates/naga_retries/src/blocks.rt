//! A block of statements, and a list.

use crate::retry::{Memory, Wrong, check};
use naga_valid::{Block, List, Statement};
use std::alloc::Global;

/// A refused statement leaves the block as it was, and the next one is added.
pub fn fill_block(alloc: Global, memory: &mut Memory) -> Result<(), Wrong> {
    let mut block = Block::new(alloc);
    for count in 0..6usize {
        if block.push(Statement::Kill).is_err() {
            memory.refused = true;
            check(
                block.body.len() == count,
                "a refused statement is in the block\n",
            )?;
            check(
                block.push(Statement::Kill).is_ok(),
                "a statement is refused twice\n",
            )?;
        }
        check(
            block.body.len() == count + 1,
            "the block lacks the statement\n",
        )?;
    }
    Ok(())
}

/// A refused item leaves the list as it was, and the next one is added.
pub fn fill_list(alloc: Global, memory: &mut Memory) -> Result<(), Wrong> {
    let mut list: List<u8> = List::new(alloc);
    for count in 0..20u8 {
        if list.push(count).is_err() {
            memory.refused = true;
            check(
                list.as_slice().len() == usize::from(count),
                "a refused item is in the list\n",
            )?;
            check(list.push(count).is_ok(), "an item is refused twice\n")?;
        }
        check(
            list.as_slice().last() == Some(&count),
            "the list lacks the item\n",
        )?;
    }
    Ok(())
}
