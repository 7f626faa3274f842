//! What is known of the types and expressions of a module before any rule of validation: sizes,
//! alignments and lengths of types, and index constants, kinds and types of expressions.
#![tactic(auto)]

pub mod context;
pub mod expression_kind;
pub mod full_typing;
pub mod index;
pub mod layouter;
mod math;
pub mod plain_typing;
mod pushing;
pub mod type_methods;
pub mod typifier;
pub mod typing;
