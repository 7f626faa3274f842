//! The rules of expressions of functions that compute values: operators, selections, derivatives,
//! queries, conversions and products of cooperative matrices.
#![tactic(auto)]

pub mod binary;
pub mod cooperative;
pub mod integers;
pub mod operators;
pub mod product;
