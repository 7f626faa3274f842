//! Uses values again after a call on them was refused memory.
//!
//! The contract of such a call says that the value stays as it was, and not that the next call succeeds. All other
//! calls are made by the queries in `examples/refused`, except those on names of members, which no text gives.
//!
//! The program prints `ample` if no call was refused memory and each result was right, and `refused` if one was, and
//! then the next call succeeded. Else it prints what was wrong, and ends with status 1. `scripts/refused-memory` runs
//! it with one request after another refused. The status is 3 if nothing could be printed.
#![tactic(auto)]

mod acceptance;
mod arenas;
mod blocks;
mod infos;
mod layouts;
mod leaves;
mod retry;
mod validation;

use crate::acceptance::accept_again;
use crate::arenas::append_again;
use crate::blocks::{fill_block, fill_list};
use crate::infos::{add_type_infos, fill_function_info, fill_module_info, make_room};
use crate::layouts::lay_out_again;
use crate::leaves::find_leaves;
use crate::retry::{Memory, Wrong};
use crate::validation::validate_again;
use std::alloc::Global;
use std::process::ExitCode;

/// Runs all scenarios.
fn run(alloc: Global) -> Result<Memory, Wrong> {
    let mut memory = Memory::default();
    validate_again(alloc, &mut memory)?;
    accept_again(alloc, &mut memory)?;
    append_again(alloc, &mut memory)?;
    fill_block(alloc, &mut memory)?;
    fill_list(alloc, &mut memory)?;
    lay_out_again(alloc, &mut memory)?;
    fill_module_info(alloc, &mut memory)?;
    make_room(alloc, &mut memory)?;
    fill_function_info(alloc, &mut memory)?;
    add_type_infos(alloc, &mut memory)?;
    find_leaves(alloc, &mut memory)?;
    Ok(memory)
}

fn main(rt: HostRuntime) -> ExitCode {
    let (text, status) = match run(rt.alloc()) {
        Ok(Memory { refused: false }) => ("ample\n", 0),
        Ok(Memory { refused: true }) => ("refused\n", 0),
        Err(Wrong(what)) => (what, 1),
    };
    match rt.print(text) {
        Ok(()) => ExitCode::from(status),
        Err(_) => ExitCode::from(3),
    }
}
