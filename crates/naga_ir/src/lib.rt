//! The intermediate representation of a shader module: its types, its arenas and what they hold.
//!
//! Contracts see an arena as the list of its items, a handle as an index into such a list, and a
//! module as a record of lists. The arena of types is one in which no two are equal.
#![tactic(auto)]

pub mod alignment;
pub mod block_references;
pub mod built_in;
pub mod expression;
pub mod ir;
pub mod laws;
pub mod operands;
pub mod origin;
pub mod parts;
pub mod reference;
pub mod statement;
pub mod storage_format;
mod type_paths;
pub mod types;
pub mod unique_arena;

pub use naga_arena::memory::OutOfMemory;
pub use naga_arena::{
    arena as arena, handle as handle, handle_vec as handle_vec, iter as iter, list as list,
    memory as memory, range as range, span as span, tags as tags, text as text,
};
