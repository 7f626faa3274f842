//! What the readers of all lines share.

use naga_draft::unread::{Unread, known};
use naga_ir::handle::Handle;
use naga_ir::list::List;
use naga_ir::tags::ExpressionTag;
use naga_text::line_words::LineWords;
use naga_text::number::handle;
use std::alloc::Global;

/// The most words that follow the word for what a line adds, unless a line can have any number of them: `sample` has as
/// many. Only so many are listed of a line.
pub const MOST_WORDS: usize = 9;

/// The one word that there has to be.
pub fn only_word<'a>(words: &[&'a [u8]]) -> Option<&'a [u8]> {
    match words {
        [word] => Some(*word),
        _ => None,
    }
}

/// The one handle that there has to be.
pub fn only_handle<K>(words: &[&[u8]]) -> Option<Handle<K>> {
    handle(only_word(words)?)
}

/// What stands before and behind the first colon of a word.
pub fn at_colon(word: &[u8]) -> Option<(&[u8], &[u8])> {
    let place = word.iter().position(|byte| *byte == b':')?;
    Some((&word[..place], &word[place + 1..]))
}

/// The expressions whose indices the words that are left write.
pub fn expressions(
    alloc: Global,
    words: &mut LineWords,
) -> Result<List<Handle<ExpressionTag>>, Unread> {
    let mut expressions = List::new(alloc);
    while let Some(word) = words.next() {
        expressions.push(known(handle(word))?)?;
    }
    Ok(expressions)
}
