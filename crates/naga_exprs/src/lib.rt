//! The rules of global expressions, and of the expressions of functions except operators and images.
#![tactic(auto)]

pub mod access;
pub mod const_expression;
pub mod expression;
pub mod math;
pub mod memory;
pub mod ray_query;
pub mod value;
