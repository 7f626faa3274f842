//! Texts and names in words.

ghost use Rattle.naga_words.specs.Texts.{bytes_in, name_of, text_in, text_of};
ghost use Rattle.naga_draft.specs.declared.unread.Unread.TheVariants as unread;
ghost use Rattle.std.specs.List.{list_all};
ghost use Rattle.std.specs.Prelude.{◌≡◌, ◌==◌, ◌<◌, ◌≤◌, IfErr, IfOk, None, Some, length};

use crate::operands::NONE;
use naga_draft::unread::Unread;
use naga_ir::text::Text;
use std::alloc::Global;

/// The bytes of words, the lowest of each word first.
fn bytes_of(alloc: Global, words: &[u32]) -> Result<Vec<u8>, Unread>
    ensures bytes { IfOk result (λ v. v.items ≡ bytes_in words.now) }
    ensures memory { IfErr result (λ e. e ≡ unread.OutOfMemory) }
{
    let mut bytes = Vec::new(alloc);
    for word in words {
        bytes.extend_from_slice(&word.to_le_bytes())?;
    }
    Ok(bytes)
}

/// Whether all bytes are 0.
fn are_zero(bytes: &[u8]) -> bool
    ensures { result ≡ list_all (λ b. b == 0) bytes.now }
{
    for byte in bytes {
        if *byte != 0 {
            return false;
        }
    }
    true
}

/// The text of so many first bytes, if they are UTF-8 and the bytes after them are 0.
#[tactic(auto, using(crate::proofs::ReaderLaws::in_text, crate::proofs::ReaderLaws::not_text))]
fn text_in(alloc: Global, bytes: &[u8], count: usize) -> Result<Text, Unread>
    requires { count ≤ length bytes.now }
    ensures found { IfOk result (λ text. text_in count bytes.now ≡ Some text) }
    ensures none { IfErr result (λ e. e ≡ unread.Item → text_in count bytes.now ≡ None) }
{
    let (text, padding) = bytes.split_at(count);
    if !are_zero(padding) {
        return Err(Unread::Item);
    }
    match str::from_utf8(text) {
        Ok(text) => Ok(Text::from_string(String::from_str(alloc, text)?)),
        Err(_) => Err(Unread::Item),
    }
}

/// The text with which words begin, and the words after it.
#[tactic(auto, using(crate::proofs::ReaderLaws::enough_bytes))]
pub(crate) fn text(alloc: Global, words: &[u32]) -> Result<(Text, &[u32]), Unread>
    ensures found { IfOk result (λ read. text_of words.now ≡ Some (read.0, read.1.now)) }
    ensures none { IfErr result (λ e. e ≡ unread.Item → text_of words.now ≡ None) }
    ensures shorter { IfOk result (λ read. length read.1.now < length words.now) }
{
    let [count, others @ ..] = words else {
        return Err(Unread::Item);
    };
    let count = *count as usize;
    let length = (count + 3) / 4;
    if length > others.len() {
        return Err(Unread::Item);
    }
    let (packed, rest) = others.split_at(length);
    let bytes = bytes_of(alloc, packed)?;
    Ok((text_in(alloc, bytes.as_slice(), count)?, rest))
}

/// The name with which words begin, and the words after it.
pub(crate) fn name(alloc: Global, words: &[u32]) -> Result<(Option<Text>, &[u32]), Unread>
    ensures found { IfOk result (λ read. name_of words.now ≡ Some (read.0, read.1.now)) }
    ensures none { IfErr result (λ e. e ≡ unread.Item → name_of words.now ≡ None) }
    ensures shorter { IfOk result (λ read. length read.1.now < length words.now) }
{
    let [first, others @ ..] = words else {
        return Err(Unread::Item);
    };
    if *first == NONE {
        return Ok((None, others));
    }
    let (text, rest) = text(alloc, words)?;
    Ok((Some(text), rest))
}
