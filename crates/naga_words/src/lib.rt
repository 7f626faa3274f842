//! Modules as words: the form in which hosts hand a module to the library (docs/WORDS.md), and its reader.
#![tactic(auto)]

mod bits;
mod expressions;
mod items;
pub mod laws;
mod literals;
mod marks;
mod names;
mod opcodes;
mod operands;
mod parts;
mod reader;
mod statements;
mod tables;
mod types;

pub use bits::{all_capabilities, all_flags};
pub use naga_draft::draft::Contents;
pub use reader::{MAGIC, VERSION, WordsError, read_words};
