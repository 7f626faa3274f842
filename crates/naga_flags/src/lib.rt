//! Flag sets, and the widths that scalars may have.
#![tactic(auto)]

pub mod extension;
pub mod flags;
pub mod subgroup;
pub mod width;
