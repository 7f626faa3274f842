//! The rule of one type: what it may be used for, and how hosts and devices may share it.
#![tactic(auto)]

mod arrays;
pub mod compose;
pub mod error;
pub mod exchange;
pub mod info;
mod structs;
pub mod type_methods;
pub mod type_rule;
