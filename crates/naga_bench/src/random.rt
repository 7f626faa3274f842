//! Numbers that follow from a seed, and a digest of results.

ghost use Rattle.std.specs.Prelude.{◌<◌};

use std::hash::{FoldHasher, Hash, Hasher};

/// A generator of numbers: SplitMix64.
#[derive(Drop)]
pub struct Random {
    state: u64,
}

impl Random {
    /// The generator of a seed.
    pub fn new(seed: u64) -> Random {
        Random { state: seed }
    }

    /// The next number of 64 bits.
    pub fn number(&mut self) -> u64 {
        self.state = self.state.wrapping_add(0x9e37_79b9_7f4a_7c15);
        let first = (self.state ^ (self.state >> 30)).wrapping_mul(0xbf58_476d_1ce4_e5b9);
        let second = (first ^ (first >> 27)).wrapping_mul(0x94d0_49bb_1331_11eb);
        second ^ (second >> 31)
    }

    /// The next number, below a limit.
    pub fn below(&mut self, limit: u32) -> u32
        requires { 0 < limit }
        ensures { result < limit }
    {
        ((self.number() >> 32) % u64::from(limit)) as u32
    }

    /// A number from `least` to before `limit`, and `least` if there is none.
    pub fn from_to(&mut self, least: u32, limit: u32) -> u32 {
        if limit <= least {
            return least;
        }
        self.below(limit - least).saturating_add(least)
    }
}

/// Numbers below a limit in an order that follows from a seed, none of them twice.
#[derive(Clone, Copy)]
pub struct Places {
    first: u32,
    step: u32,
}

impl Places {
    /// The order of a seed.
    pub fn new(random: &mut Random) -> Places {
        Places {
            first: random.below(1_000_000),
            // Prime to 10, so that no number below a limit whose only prime factors are 2 and 5 comes twice.
            step: 10 * random.below(100_000) + 3,
        }
    }

    /// The number at an index of the order. All indexes below `limit`, whose only prime factors are 2 and 5, have
    /// numbers of their own.
    pub fn below(self, limit: u32, index: u32) -> u32
        requires { 0 < limit }
    {
        let steps = u64::from(index).wrapping_mul(u64::from(self.step));
        let place = steps.wrapping_add(u64::from(self.first));
        (place % u64::from(limit)) as u32
    }
}

/// A number that depends on all values that were added, in their order.
#[derive(Drop, Default)]
pub struct Digest {
    hasher: FoldHasher,
}

impl Digest {
    /// Adds a number.
    pub fn add(&mut self, number: u64) {
        self.hasher.write_u64(number);
    }

    /// Adds a value.
    pub fn add_value<T: Hash>(&mut self, value: &T) {
        value.hash(&mut self.hasher);
    }

    /// The number.
    pub fn value(&self) -> u64 {
        self.hasher.finish()
    }
}
