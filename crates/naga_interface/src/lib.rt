//! The rules of variables, and of the inputs and outputs of entry points.
#![tactic(auto)]

pub mod binding_set;
pub mod built_in;
pub mod context;
pub mod entry_point;
pub mod error;
pub mod function;
pub mod global_variable;
pub mod varying;
