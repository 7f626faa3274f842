//! The slots of immediate data.
#![tactic(auto)]

pub mod immediates;
