//! From the bytes of a file to the modules that it describes, or to the first line that can't be read and why.
#![tactic(auto)]

mod forms;
mod oracle;
pub mod places;
pub mod reading;
mod reason;
pub mod source;
