//! Printers of modules: as words (docs/WORDS.md), and as lines of the larger text (docs/TEXT.md).
#![tactic(auto)]

mod expressions;
mod functions;
mod math;
mod module;
mod operands;
mod printer;
mod statements;
mod types;

pub use module::{Settings, print};
pub use printer::{PrintError, Printed};
