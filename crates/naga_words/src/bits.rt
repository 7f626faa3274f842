//! The greatest numbers that are sets of flags.

ghost use Rattle.naga_flags.specs.Bits.{all_capabilities, all_validation_flags};
ghost use Rattle.std.specs.Prelude.{◌≡◌};

use bitflags::Flags;
use naga_flags::flags::{Capabilities, ValidationFlags};

/// The bits of all parts of a module that can be validated. A smaller number is a set of such.
pub fn all_flags() -> u32
    ensures { result ≡ all_validation_flags }
{
    u32::from(ValidationFlags::all().bits())
}

/// The bits of all that a module may use. A smaller number is a set of such.
pub fn all_capabilities() -> u64
    ensures { result ≡ all_capabilities }
{
    Capabilities::all().bits()
}
