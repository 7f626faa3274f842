//! Laws of types, for whoever finds them by their hashes.

ghost use Rattle.std.specs.Prelude.{◌≡◌};
ghost use Rattle.naga_ir.specs.contracts.types.BindingHash.TheImpl as of_binding;
ghost use Rattle.naga_ir.specs.steps.HashLaws.{HaveRange};

use crate::types::Binding;

/// The numbers of a location and of its source of blending are below 2^32.
fn numbers_have_range(binding: Binding)
    ensures { HaveRange binding }
{
    match binding {
        Binding::Location {
            blend_src: Some(_source),
            location: _location,
            ..
        } => {}
        Binding::Location {
            blend_src: None,
            location: _location,
            ..
        } => {}
        Binding::BuiltIn(_) => {}
    }
}

/// Bindings that give a hasher the same bytes are equal: `hash` reads all that `==` compares. So types that differ only
/// in how a location is interpolated share a path of a `UniqueArena` by chance alone, as all types that differ.
pub fn hash_reads_bindings(first: Binding, second: Binding)
    ensures { of_binding.ghosts.hash_input first ≡ of_binding.ghosts.hash_input second → first ≡ second }
{
    numbers_have_range(first);
    numbers_have_range(second);
}
