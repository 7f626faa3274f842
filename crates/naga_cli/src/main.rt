//! Validates shader modules in files, and prints how their types are laid out in memory.
#![tactic(auto)]

mod arguments;
mod checking;
mod declarations;
mod layout;
mod layout_objects;
mod layouts;
mod leaf_types;
mod names;
mod paths;
mod refusal;
mod rows;
mod run;
mod tables;
mod usage;
mod written;

use crate::run::run;
use std::process::ExitCode;

fn main(rt: HostRuntime) -> ExitCode {
    ExitCode::from(run(&rt))
}
