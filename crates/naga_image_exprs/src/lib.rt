//! The rules of expressions of functions that read images or query them.
#![tactic(auto)]

pub mod clamp;
pub mod coordinates;
pub mod load;
pub mod query;
pub mod resource;
pub mod sample;
