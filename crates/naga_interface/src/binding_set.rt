//! Bindings as sets of their locations, sources of blending and built-in values.

ghost use Rattle.std.specs.Prelude.{◌≡◌, ◌<◌, ◌≤◌, ◌||◌, ◌==◌, not, ℕ, Bool, List, [], ◌∷◌, ◌++◌, IfOk, None, OnErr, OnOk, Option, Some};
ghost use Rattle.naga_interface.specs.Varyings.{inline_locations, is_at, is_built_in, is_source};
ghost use Rattle.naga_interface.specs.steps.BindingSets.{AreIn, has_bit};
ghost use Rattle.naga_ir.specs.declared.types.Binding.{Binding};
ghost use Rattle.naga_ir.specs.declared.types.Binding.TheVariants as bound;
ghost use Rattle.naga_ir.specs.declared.types.Interpolation.{Interpolation};
ghost use Rattle.naga_ir.specs.declared.types.Sampling.{Sampling};
ghost use Rattle.std.specs.List.{list_any};

use crate::built_in::plain_number;
use naga_ir::built_in::BuiltIn;
use naga_ir::memory::OutOfMemory;
use std::alloc::Global;
use std::collections::BTreeSet;

/// A set of numbers below 64, a bit each.
#[derive(Clone, Copy)]
struct Bits(u64);

impl Bits {
    /// Adds a number, and returns whether it is new.
    fn insert(&mut self, number: u32) -> bool
        requires { number < 64 }
        ensures is_new { result ≡ not (has_bit self.old.0 number) }
        ensures has_both { (n : ℕ) → n < 64 → has_bit self.new.0 n ≡ (n == number || has_bit self.old.0 n) }
    {
        let bit = 1_u64 << number;
        let is_new = self.0 & bit == 0;
        self.0 |= bit;
        is_new
    }
}

/// The number of locations that take no memory.
const INLINE_LOCATIONS: u32 = 64;

/// The bindings of some inputs, or of some outputs: the set of their locations, of their sources of blending, and of their
/// built-in values. Only locations from 64 on take memory; these don't hash, so that no choice of them makes it slow.
#[derive(Drop)]
pub(crate) struct BindingSet {
    /// The locations below 64.
    near: Bits,
    /// The locations from 64 on.
    far: BTreeSet<u32>,
    sources: Bits,
    /// The built-in values, by their numbers.
    built_ins: Bits,
}

impl BindingSet {
    /// The set of no bindings, which takes its memory from `alloc`.
    pub(crate) fn new(alloc: Global) -> BindingSet
        ensures { AreIn [] result }
    {
        BindingSet {
            near: Bits(0),
            far: BTreeSet::new(alloc),
            sources: Bits(0),
            built_ins: Bits(0),
        }
    }

    /// Adds a location, and returns whether it is new.
    ///
    /// # Errors
    ///
    /// `OutOfMemory` if memory was refused, which is requested for no location below 64.
    pub(crate) fn insert_location(&mut self, location: u32) -> Result<bool, OutOfMemory>
        ensures is_new { IfOk result (λ is_new. (before : List Binding) → AreIn before self.old
            → is_new ≡ not (list_any (is_at location) before)) }
        ensures added { OnOk result ((before : List Binding) → AreIn before self.old
            → (interpolation : Option Interpolation) (sampling : Option Sampling) (per_primitive : Bool)
            → AreIn (before ++ bound.Location location interpolation sampling None per_primitive ∷ []) self.new) }
        ensures memory { OnErr result (inline_locations ≤ location) }
    {
        if location < INLINE_LOCATIONS {
            return Ok(self.near.insert(location));
        }
        Ok(self.far.insert(location)?)
    }

    /// Adds a source of blending, and returns whether it is new.
    pub(crate) fn insert_source(&mut self, source: u32) -> bool
        requires { source < 2 }
        ensures is_new { (before : List Binding) → AreIn before self.old
            → result ≡ not (list_any (is_source source) before) }
        ensures added { (before : List Binding) → AreIn before self.old
            → (location : ℕ) (interpolation : Option Interpolation) (sampling : Option Sampling) (per_primitive : Bool)
            → AreIn (before ++ bound.Location location interpolation sampling (Some source) per_primitive ∷ []) self.new }
    {
        self.sources.insert(source)
    }

    /// Adds a built-in value, and returns whether it is new, whatever it says besides.
    pub(crate) fn insert_built_in(&mut self, built_in: BuiltIn) -> bool
        ensures is_new { (before : List Binding) → AreIn before self.old
            → result ≡ not (list_any (is_built_in built_in) before) }
        ensures added { (before : List Binding) → AreIn before self.old
            → AreIn (before ++ bound.BuiltIn built_in ∷ []) self.new }
    {
        self.built_ins.insert(plain_number(built_in))
    }
}
