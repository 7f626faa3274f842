//! Where the leaves of a value are: its scalars, vectors, matrices and atomics, at any depth of arrays
//! and structs. For code that packs the buffers that a host shares with a device.
#![tactic(auto)]

pub mod cursor;
mod has_leaves;
pub mod leaf;
