//! What a workload comes to.

use crate::random::Digest;
use naga_valid::OutOfMemory;
use std::alloc::Global;
use std::fmt;

/// How many inputs were accepted and refused, and a digest of all results.
#[derive(Drop, Default)]
pub struct Totals {
    pub accepted: u64,
    pub refused: u64,
    pub digest: Digest,
}

impl Totals {
    pub fn accept(&mut self) {
        self.accepted = self.accepted.wrapping_add(1);
    }

    /// Counts an input that is refused, and adds all that its error says.
    pub fn refuse<E: fmt::Debug>(&mut self, alloc: Global, error: &E) -> Result<(), OutOfMemory> {
        self.refused = self.refused.wrapping_add(1);
        let mut text = String::new(alloc);
        write!(text, "{error:?}")?;
        self.add_text(text.as_str());
        Ok(())
    }

    /// Adds the bytes of a text to the digest.
    pub fn add_text(&mut self, text: &str) {
        self.digest.add_value(&text);
    }
}
