//! The tests of what a module is: arenas, types, expressions, statements.
#![tactic(auto)]

#[cfg(test)]
mod tests;
