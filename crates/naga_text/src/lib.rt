//! The reader of the text that describes a module and how it is validated.
#![tactic(auto)]

pub mod expressions;
pub mod line;
pub mod line_words;
pub mod literals;
mod members;
pub mod number;
pub mod pieces;
pub mod text;
pub mod types;
pub mod words;
