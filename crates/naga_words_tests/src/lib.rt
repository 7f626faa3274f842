//! The tests of the reader of words.
#![tactic(auto)]

#[cfg(test)]
mod tests;
