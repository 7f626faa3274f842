//! The words that say where values and resources come from, and where they go to.

ghost use Rattle.naga_module_text.specs.Words.{resource_binding_of};
ghost use Rattle.std.specs.Prelude.{◌≡◌};

use crate::tables::built_in_named;
use naga_ir::built_in::BuiltIn;
use naga_ir::ir::{MemoryDecorations, ResourceBinding};
use naga_ir::types::{Binding, Interpolation, Sampling};
use naga_text::number::number;
use naga_text::pieces::split_first;
use naga_text::words::{chosen, equals};

/// The value of the first word in a table, if the word is there, and the words behind it.
fn perhaps<'a, 'b, T: Copy>(
    table: &[(&str, T)],
    words: &'b [&'a [u8]],
) -> (Option<T>, &'b [&'a [u8]]) {
    if let Some((word, rest)) = words.split_first()
        && let Some(value) = chosen(table, word)
    {
        return (Some(value), rest);
    }
    (None, words)
}

/// Whether the first word is this one, and the words behind it.
fn has_word<'a, 'b>(name: &[u8], words: &'b [&'a [u8]]) -> (bool, &'b [&'a [u8]]) {
    match words.split_first() {
        Some((word, rest)) if equals(word, name) => (true, rest),
        _ => (false, words),
    }
}

/// `NAME`, `position invariant` or `barycentric perspective`
fn built_in(words: &[&[u8]]) -> Option<BuiltIn> {
    match words {
        [name] => built_in_named(name),
        [name, of] if equals(name, b"position") && equals(of, b"invariant") => {
            Some(BuiltIn::Position { invariant: true })
        }
        [name, of] if equals(name, b"barycentric") && equals(of, b"perspective") => {
            Some(BuiltIn::Barycentric { perspective: true })
        }
        _ => None,
    }
}

/// How the value of a fragment is made of those of vertices.
fn interpolation<'a, 'b>(words: &'b [&'a [u8]]) -> (Option<Interpolation>, &'b [&'a [u8]]) {
    let interpolations = [
        ("perspective", Interpolation::Perspective),
        ("linear", Interpolation::Linear),
        ("flat", Interpolation::Flat),
        ("pervertex", Interpolation::PerVertex),
    ];
    perhaps(&interpolations, words)
}

/// Where the value of a fragment is taken.
fn sampling<'a, 'b>(words: &'b [&'a [u8]]) -> (Option<Sampling>, &'b [&'a [u8]]) {
    let samplings = [
        ("center", Sampling::Center),
        ("centroid", Sampling::Centroid),
        ("sample", Sampling::Sample),
        ("first", Sampling::First),
        ("either", Sampling::Either),
    ];
    perhaps(&samplings, words)
}

/// `N [perspective|linear|flat|pervertex] [center|centroid|sample|first|either] [blend N] [perprimitive]`
fn location(words: &[&[u8]]) -> Option<Binding> {
    let (location, words) = words.split_first()?;
    let (interpolation, words) = interpolation(words);
    let (sampling, words) = sampling(words);
    let (blend_src, words) = match has_word(b"blend", words) {
        (true, words) => {
            let (source, words) = words.split_first()?;
            (Some(number(source)?), words)
        }
        (false, words) => (None, words),
    };
    let (per_primitive, words) = has_word(b"perprimitive", words);
    if !words.is_empty() {
        return None;
    }
    Some(Binding::Location {
        location: number(location)?,
        interpolation,
        sampling,
        blend_src,
        per_primitive,
    })
}

/// `builtin NAME`, `location N ..`, or no words for no binding
pub fn binding(words: &[&[u8]]) -> Option<Option<Binding>> {
    let Some((form, words)) = words.split_first() else {
        return Some(None);
    };
    match form {
        _ if equals(form, b"builtin") => Some(Some(Binding::BuiltIn(built_in(words)?))),
        _ if equals(form, b"location") => Some(Some(location(words)?)),
        _ => None,
    }
}

/// `G:B`
fn resource_binding(word: &[u8]) -> Option<ResourceBinding>
    ensures { result ≡ resource_binding_of word.now }
{
    let (group, rest) = split_first(word, b':');
    match split_first(rest?, b':') {
        (binding, None) => Some(ResourceBinding {
            group: number(group)?,
            binding: number(binding)?,
        }),
        (_, Some(_)) => None,
    }
}

/// Where a pipeline binds a variable, and what holds of each access to it.
#[derive(Clone, Copy)]
pub struct Resource {
    pub binding: Option<ResourceBinding>,
    pub memory_decorations: MemoryDecorations,
}

/// `[G:B] [coherent] [volatile]`
pub fn resource_of(words: &[&[u8]]) -> Option<Resource> {
    let (binding, words) = match words.split_first() {
        Some((word, rest)) if word.contains(&b':') => (Some(resource_binding(word)?), rest),
        _ => (None, words),
    };
    let (coherent, words) = has_word(b"coherent", words);
    let (is_volatile, words) = has_word(b"volatile", words);
    if !words.is_empty() {
        return None;
    }
    Some(Resource {
        binding,
        memory_decorations: MemoryDecorations {
            coherent,
            is_volatile,
        },
    })
}
