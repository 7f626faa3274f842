//! Alignments, which are powers of two.

ghost use Rattle.std.specs.Prelude.{◌≡◌, ◌+◌, ◌%◌, ◌<◌, ◌≤◌, ◌↔◌, IsTrue, IfSome, is_some};
ghost use Rattle.std.specs.Int.{IsPowerOfTwo, is_power_of_two};
ghost use Rattle.naga_ir.specs.Sizes.{vector_alignment};

use crate::types::VectorSize;
use std::fmt;
use std::marker::Model;

/// An alignment in bytes: a power of two, which contracts see as a number.
#[derive(Clone, Copy, Debug, PartialEq, Eq, PartialOrd, Ord)]
pub struct Alignment {
    bytes: u32,
}

impl Model for Alignment {
    ghost use Rattle.std.specs.Prelude.{ℕ};
    ghost use Rattle.std.specs.Int.{IsPowerOfTwo};

    ghost Value = { ℕ };

    ghost view = { λ a. a.bytes };

    ghost invariant = { λ a. IsPowerOfTwo a.bytes };

    ghost inverse = { λ n. record { bytes = n } };
}

impl Alignment {
    /// One byte: any place will do.
    pub const ONE: Alignment = Alignment { bytes: 1 };

    /// 16 bytes, the least alignment of an array or a struct in the uniform address space (WGSL, "Address Space
    /// Layout Constraints").
    pub const MIN_UNIFORM: Alignment = Alignment { bytes: 16 };

    /// The alignment of `bytes`, if that is a power of two.
    pub fn new(bytes: u32) -> Option<Alignment>
        ensures power { is_some result ≡ is_power_of_two bytes }
        ensures value { IfSome result (λ a. a ≡ bytes) }
    {
        if bytes.is_power_of_two() {
            Some(Alignment { bytes })
        } else {
            None
        }
    }

    /// The alignment of a scalar of `width` bytes.
    pub fn from_width(width: u8) -> Alignment
        requires { IsPowerOfTwo width }
        ensures { result ≡ width }
    {
        Alignment {
            bytes: u32::from(width),
        }
    }

    /// The number of bytes.
    pub fn get(self) -> u32
        ensures value { result ≡ self }
        ensures power { IsPowerOfTwo result }
    {
        self.bytes
    }

    /// Whether `n` bytes are a multiple of the alignment.
    pub fn is_aligned(self, n: u32) -> bool
        ensures { IsTrue result ↔ (n % self ≡ 0) }
    {
        n % self.bytes == 0
    }

    /// The least multiple of the alignment that is `n` bytes or more. It may exceed `u32::MAX`.
    pub fn round_up(self, n: u32) -> u64
        ensures multiple { result % self ≡ 0 }
        ensures known_index_error { n ≤ result }
        ensures least { result < n + self }
    {
        u64::from(n).next_multiple_of(u64::from(self.bytes))
    }
}

impl From<VectorSize> for Alignment {
    ghost use Rattle.std.specs.Prelude.{◌≡◌};
    ghost use Rattle.naga_ir.specs.Sizes.{vector_alignment};

    ghost from_gives = { λ size a. a ≡ vector_alignment size };

    /// How many components a vector of `size` is aligned to (WGSL, "Alignment and Size").
    fn from(size: VectorSize) -> Alignment {
        match size {
            VectorSize::Bi => Alignment { bytes: 2 },
            VectorSize::Tri | VectorSize::Quad => Alignment { bytes: 4 },
        }
    }
}

impl fmt::Display for Alignment {
    ghost use Rattle.std.specs.Prelude.{Some, decimal};

    ghost output = { λ a. Some (decimal a) };

    fn fmt<W: fmt::Write>(&self, f: &mut fmt::Formatter<W>) -> fmt::Result {
        write!(f, "{}", self.bytes)
    }
}
