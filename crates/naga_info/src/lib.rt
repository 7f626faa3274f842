//! What validation learns of a module, what the validation of expressions depends on, and why they are refused.
#![tactic(auto)]

pub mod const_expression_error;
pub mod context;
pub mod expression_error;
pub mod infer;
pub mod module_info;
pub mod sources;
pub mod type_methods;
