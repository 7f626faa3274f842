//! The tests that no row of `naga_query` can be: calls that no query makes, the texts of errors, readers and writers
//! that fail, values that are used again after a refused call, callers of laws, and another typing with its proof.
#![tactic(auto)]

#[cfg(test)]
mod tests;
