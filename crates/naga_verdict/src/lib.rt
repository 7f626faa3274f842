//! What is found of a module, and the lines for people and the objects of JSON that say so.
#![tactic(auto)]

mod fields;
pub mod item;
pub mod json_text;
pub mod lines;
pub mod objects;
pub mod verdict;
