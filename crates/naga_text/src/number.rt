//! Numbers in decimal digits, and the minus that stands for none.

ghost use Rattle.naga_text.specs.Words.{handle_of, integer_up_to, largest_i64, largest_u16, most_digits, number_of, number_up_to, value_after};
ghost use Rattle.std.specs.Str.{all_ascii_digits};
ghost use Rattle.naga_text.specs.WordForms.{optional_of};
ghost use Rattle.std.specs.Prelude.{◌≡◌, ◌+◌, ◌<◌, ◌≤◌, ◌≤ℤ◌, IfSome, None, Some, if◌then◌else◌, length, neg_ℤ, pos};

use crate::words::equals;
use naga_ir::handle::Handle;

/// The most digits that a number is written in: as many as the greatest `u64` has.
const MOST_DIGITS: usize = 20;

/// The greatest index of a handle.
const MOST_INDEX: u64 = u32::MAX as u64 - 1;

/// The number that up to 19 digits write. It is below 10 to the power of 19, so 64 bits hold it.
fn short_value(word: &[u8]) -> Option<u64>
    requires { length word.now < most_digits }
    ensures { result ≡ (if all_ascii_digits word.now then Some (value_after 0 word.now) else None) }
{
    let mut value = 0u64;
    for byte in word {
        if !byte.is_ascii_digit() {
            return None;
        }
        value = value * 10 + u64::from(*byte - b'0');
    }
    Some(value)
}

/// The number that a word writes in 1 to 20 digits, if it is at most `most`.
pub fn number_up_to(word: &[u8], most: u64) -> Option<u64>
    ensures { result ≡ number_up_to most word.now }
{
    if word.is_empty() || word.len() > MOST_DIGITS {
        return None;
    }
    if word.len() < MOST_DIGITS {
        let value = short_value(word)?;
        return if value <= most { Some(value) } else { None };
    }
    // A word of 20 digits may write a number of more than 64 bits.
    let mut value = 0u128;
    for byte in word {
        if !byte.is_ascii_digit() {
            return None;
        }
        value = value * 10 + u128::from(*byte - b'0');
    }
    if value <= u128::from(most) {
        Some(value as u64)
    } else {
        None
    }
}

/// The integer that a word writes: a number up to `most`, or after a minus the negative of one up to
/// `most + 1`.
pub fn integer_up_to(word: &[u8], most: u64) -> Option<i128>
    requires { most ≤ largest_i64 }
    ensures value { result ≡ integer_up_to most word.now }
    ensures least { IfSome result (λ n. neg_ℤ (pos (most + 1)) ≤ℤ n) }
    ensures greatest { IfSome result (λ n. n ≤ℤ pos most) }
{
    match word {
        [b'-', digits @ ..] => Some(-i128::from(number_up_to(digits, most + 1)?)),
        _ => Some(i128::from(number_up_to(word, most)?)),
    }
}

/// A number of 32 bits.
pub fn number(word: &[u8]) -> Option<u32>
    ensures { result ≡ number_of word.now }
{
    Some(number_up_to(word, u32::MAX as u64)? as u32)
}

/// The index of a handle.
pub fn index(word: &[u8]) -> Option<usize>
    ensures { result ≡ handle_of word.now }
{
    Some(number_up_to(word, MOST_INDEX)? as usize)
}

/// The handle of an index.
pub fn handle<K>(word: &[u8]) -> Option<Handle<K>>
    ensures { result ≡ handle_of word.now }
{
    Some(Handle::new(index(word)? as u32))
}

/// The handle of an index, or none for `-`.
pub fn optional_handle<K>(word: &[u8]) -> Option<Option<Handle<K>>>
    ensures { result ≡ optional_of handle_of word.now }
{
    if equals(word, b"-") {
        Some(None)
    } else {
        Some(Some(handle(word)?))
    }
}

/// A number of 16 bits, or none for `-`.
pub fn optional_number(word: &[u8]) -> Option<Option<u16>>
    ensures { result ≡ optional_of (number_up_to largest_u16) word.now }
{
    if equals(word, b"-") {
        Some(None)
    } else {
        Some(Some(number_up_to(word, u16::MAX as u64)? as u16))
    }
}
