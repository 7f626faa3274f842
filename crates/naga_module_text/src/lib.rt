//! The reader of the larger text, which describes whole modules: types, values, variables, functions and entry points.
#![tactic(auto)]

mod bindings;
mod blocks;
mod cases;
pub mod declarations;
pub mod draft;
mod entry_points;
pub mod forms;
mod functions;
pub mod items;
pub mod labels;
pub mod settings;
mod statements;
pub mod tables;
pub mod types;
