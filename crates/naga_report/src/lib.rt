//! From a text to the report on the shader module that it describes: `run` reads the one from a
//! reader and writes the other to a writer.
#![tactic(auto)]

pub mod counted;
pub mod report;
pub mod run;
