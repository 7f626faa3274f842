//! Arenas: lists whose items are named by handles, and the lists and texts inside items.
//!
//! Contracts see an arena as the list of its items, and a handle as an index into such a list.
#![tactic(auto)]

pub mod arena;
pub mod handle;
pub mod handle_vec;
pub mod iter;
pub mod list;
pub mod memory;
pub mod range;
pub mod span;
pub mod tags;
pub mod text;
