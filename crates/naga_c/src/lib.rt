//! The validator for hosts in C and Rust: a static library with a C interface (bindings/c/naga_check.h).
//!
//! What C passes is not checked. So no call requires anything, except that an open module is as a call left it.
#![tactic(auto)]

mod accepted;
mod calls;
mod codes;
mod declaration_codes;
mod declaration_values;
mod declarations;
mod error_text;
mod functions;
mod kinds;
mod leaf_counts;
mod leaves;
mod loose;
mod module_calls;
mod numbers;
mod open_module;
mod options;
mod refusal;
mod results;
mod slots;
mod status;
mod subject;
mod text;
mod types;
mod values;
mod verdict;
