//! How hosts want modules to be validated, and how much calls may take.

ghost use Rattle.naga_c.specs.Options.{AreKnown};
ghost use Rattle.std.specs.Prelude.{◌↔◌, IsTrue};

use naga_words::{all_capabilities, all_flags};

/// The size of `Options` in bytes.
const SIZE: u32 = 48;

/// What settings that come with a module are worth if they narrow.
pub(crate) const NARROW: u32 = 1;

/// How a host wants a module to be validated, and how much a call may take: `naga_check_options` of
/// bindings/c/naga_check.h, field by field.
#[repr(C)]
#[derive(Clone, Copy, Debug, PartialEq)]
pub struct Options {
    /// The size of the struct in bytes, by which a version tells it from that of another.
    pub size: u32,
    /// Which parts of a module are validated: bits of `ValidationFlags`.
    pub flags: u32,
    /// What a module may use: bits of `Capabilities`.
    pub capabilities: u64,
    /// 1 if overrides have to have their values, else 0.
    pub resolved: u32,
    /// What settings that come with a module are worth: with 0 it is not read, and with 1 they narrow.
    pub settings: u32,
    /// The most words of a module, or the most bytes of a text divided by four.
    pub most_words: u64,
    /// The most items of words, or the most line ends of a text.
    pub most_items: u64,
    /// The most leaves that a call may come to.
    pub most_leaves: u64,
}

impl Options {
    /// Whether each field has a value that means something here.
    pub(crate) fn are_known(&self) -> bool
        ensures { IsTrue result ↔ AreKnown self.now }
    {
        if self.size != SIZE || self.resolved > 1 || self.settings > NARROW {
            return false;
        }
        if self.flags > all_flags() {
            return false;
        }
        self.capabilities <= all_capabilities()
    }
}
