//! The words of a line, one after another.

ghost use Rattle.naga_text.specs.LineWords.{first_line, lines_after, others_of, words_left};
ghost use Rattle.naga_text.specs.Words.{lines_of, words_of};
ghost use Rattle.std.specs.Prelude.{◌≡◌, ◌<◌, ◌∷◌, [], IfNone, IfSome, MatchOption, length, map};

use crate::pieces::split_first;

/// Where a reader of a text stands in a line. It reads one word after another, so that no list of all words is made,
/// and finds the line's end while it does, so that the bytes of a line are read once.
#[derive(Clone, Copy, Debug)]
pub enum LineWords<'a> {
    /// Before a word: the bytes from there on.
    AtWord(&'a [u8]),
    /// After the last word of the line, if another line follows: the bytes of that line and of all after it.
    AtLine(&'a [u8]),
    /// After the last word of the last line.
    AtEnd,
}

/// The first word of a line, and where a reader stands after it.
#[inline]
fn split_word(bytes: &[u8]) -> (&[u8], LineWords)
    ensures words { words_of (first_line bytes.now) ≡ result.0.now ∷ words_left result.1 }
    ensures lines { others_of (lines_of bytes.now) ≡ lines_after result.1 }
{
    for (i, byte) in bytes.iter().enumerate() {
        // Most bytes are greater than both, so that one test is enough for them.
        if *byte > b' ' {
            continue;
        }
        if *byte == b' ' {
            return (&bytes[..i], LineWords::AtWord(&bytes[i + 1..]));
        }
        if *byte == b'\n' {
            return (&bytes[..i], LineWords::AtLine(&bytes[i + 1..]));
        }
    }
    (bytes, LineWords::AtEnd)
}

impl<'a> LineWords<'a> {
    /// The words of the first line of a text.
    pub fn new(text: &'a [u8]) -> LineWords<'a>
        ensures words { words_left result ≡ words_of (first_line text.now) }
        ensures lines { lines_after result ≡ others_of (lines_of text.now) }
    {
        LineWords::AtWord(text)
    }

    /// The next word, if one is left.
    pub fn next(&mut self) -> Option<&'a [u8]>
        ensures none { IfNone result (words_left self.old ≡ []) }
        ensures end { IfNone result (words_left self.new ≡ []) }
        ensures word { IfSome result (λ word. words_left self.old ≡ word.now ∷ words_left self.new) }
        ensures lines { lines_after self.new ≡ lines_after self.old }
    {
        let LineWords::AtWord(bytes) = *self else {
            return None;
        };
        let (word, after) = split_word(bytes);
        *self = after;
        Some(word)
    }

    /// All words that are left, if there is room for them.
    pub fn all<'b>(&mut self, room: &'b mut [&'a [u8]]) -> Option<&'b [&'a [u8]]>
        ensures words { MatchOption result (length room.old < length (words_left self.old))
            (λ words. map (λ w. w.now) words.now ≡ words_left self.old) }
        ensures lines { lines_after self.new ≡ lines_after self.old }
    {
        let mut count = 0;
        while let Some(word) = self.next() {
            if count == room.len() {
                return None;
            }
            room[count] = word;
            count += 1;
        }
        let words: &'b [&'a [u8]] = room;
        Some(&words[..count])
    }

    /// The bytes after the line's end, if another line follows.
    pub fn others(&self) -> Option<&'a [u8]>
        ensures { MatchOption result (lines_after self.now ≡ [])
            (λ others. lines_after self.now ≡ lines_of others.now) }
    {
        match *self {
            LineWords::AtWord(bytes) => split_first(bytes, b'\n').1,
            LineWords::AtLine(others) => Some(others),
            LineWords::AtEnd => None,
        }
    }
}
