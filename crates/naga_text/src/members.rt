//! The members of a struct, each in one word.

ghost use Rattle.naga_text.specs.LineWords.{lines_after, words_left};
ghost use Rattle.naga_text.specs.WordForms.{binding_of, member_of, read_each};
ghost use Rattle.naga_text.specs.Words.{pieces_of};
ghost use Rattle.std.specs.Prelude.{◌≡◌, IfOk, Some, option_map};

use crate::line_words::LineWords;
use crate::number::{handle, number};
use crate::pieces::split_first;
use naga_ir::OutOfMemory;
use naga_ir::list::List;
use naga_ir::types::{Binding, StructMember};
use std::alloc::Global;

/// The binding of the pieces that follow a member's type and offset: a location, and perhaps a blend source.
fn binding(pieces: &[u8]) -> Option<Binding>
    ensures { option_map Some result ≡ binding_of (pieces_of pieces.now) }
{
    let (location, rest) = split_first(pieces, b':');
    let location = number(location)?;
    let blend_src = match rest {
        None => None,
        Some(rest) => match split_first(rest, b':') {
            (blend_src, None) => Some(number(blend_src)?),
            (_, Some(_)) => return None,
        },
    };
    Some(Binding::Location {
        location,
        interpolation: None,
        sampling: None,
        blend_src,
        per_primitive: false,
    })
}

/// The member of a word: its type, its offset and its binding, parted by colons.
fn member(word: &[u8]) -> Option<StructMember>
    ensures { result ≡ member_of word.now }
{
    let (ty, rest) = split_first(word, b':');
    let (offset, rest) = split_first(rest?, b':');
    let binding = match rest {
        None => None,
        Some(rest) => Some(binding(rest)?),
    };
    Some(StructMember {
        name: None,
        ty: handle(ty)?,
        binding,
        offset: number(offset)?,
    })
}

/// The members of the words that are left, if each is one.
pub fn members(
    alloc: Global,
    words: &mut LineWords,
) -> Result<Option<List<StructMember>>, OutOfMemory>
    ensures read { IfOk result (λ read. read ≡ read_each member_of (words_left words.old)) }
    ensures lines { lines_after words.new ≡ lines_after words.old }
{
    let mut members = List::new(alloc);
    while let Some(word) = words.next() {
        match member(word) {
            Some(member) => members.push(member)?,
            None => return Ok(None),
        }
    }
    Ok(Some(members))
}
