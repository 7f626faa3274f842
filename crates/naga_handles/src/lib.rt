//! The pass over all handles of a module: whether each exists and goes back, and the order in which
//! types and global expressions can be visited.
#![tactic(auto)]

mod counts;
pub mod error;
pub mod handles;
pub mod order;
mod walk;
