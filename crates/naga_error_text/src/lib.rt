//! The texts of errors, of the numbers that calls write of them.
#![tactic(auto)]

mod causes;
mod declaration_errors;
mod errors;
mod expression_errors;
mod families;
mod module_errors;
mod names;
mod numbers;
pub mod pieces;
mod stages;
pub mod texts;
mod type_errors;
mod write;
