//! The text of an error, with the texts of the errors within it.

ghost use Rattle.naga_error_text.specs.Errors.{error_parts};
ghost use Rattle.naga_error_text.specs.Texts.{chain_text, refusal_text};
ghost use Rattle.naga_error_text.specs.Writing.{overwritten};
ghost use Rattle.naga_error_text.specs.steps.Writing.{written_at};
ghost use Rattle.std.specs.List.{concat};
ghost use Rattle.std.specs.Prelude.{◌≡◌, ◌+◌, ◌*◌, ◌<◌, ◌≤◌, ◌^◌, length};

use crate::errors::{Error, cause_of, error_of, pieces_of, values_within};
use crate::families::Family;
use crate::pieces::Values;
use crate::write::{write_pieces, write_words};

/// The text of what no call writes.
const UNKNOWN: &[u8] = b"unknown error";

/// Writes the text of an error, without that of the error within it, which is short.
fn write_error(buffer: &mut [u8], at: usize, error: Error, values: Values) -> usize
    requires { at + 16384 < 2 ^ 63 }
    ensures place { result ≡ at + length (concat (error_parts error values)) }
    ensures short { result ≤ at + 16384 }
    ensures bytes { buffer.new ≡ written_at at (concat (error_parts error values)) buffer.old }
{
    write_pieces(buffer, at, values, pieces_of(error))
}

/// Writes the text of an error of a family and of the errors within it, of their numbers, outermost first.
fn write_chain(
    buffer: &mut [u8],
    at: usize,
    numbers: &[u32],
    family: Family,
    values: Values,
) -> usize
    requires { at + 16384 * (length numbers.now + 1) < 2 ^ 63 }
    ensures place { result ≡ at + length (chain_text numbers.now family values) }
    ensures bytes { buffer.new ≡ written_at at (chain_text numbers.now family values) buffer.old }
{
    let Some((number, rest)) = numbers.split_first() else {
        return write_words(buffer, at, UNKNOWN);
    };
    let Some(error) = error_of(family, *number) else {
        return write_words(buffer, at, UNKNOWN);
    };
    let next = write_error(buffer, at, error, values);
    match cause_of(error) {
        Some(cause) => write_chain(buffer, next, rest, cause, values_within(error, values)),
        None => next,
    }
}

/// A refusal, by the numbers that an outcome has of it.
#[derive(Clone, Copy, Debug, PartialEq)]
pub struct Refusal {
    pub stage: u32,
    /// The error of the stage, and the errors within it, outermost first.
    pub errors: [u32; 4],
    /// What these errors hold.
    pub values: Values,
}

/// Writes the text of a refusal, as far as the buffer reaches. Returns the length of the whole text.
pub fn write_refusal(buffer: &mut [u8], refusal: Refusal) -> usize
    ensures length { result ≡ length (refusal_text refusal.stage refusal.errors refusal.values) }
    ensures bytes { buffer.new ≡ overwritten (refusal_text refusal.stage refusal.errors refusal.values) buffer.old }
{
    if refusal.stage == 0 {
        return 0;
    }
    let [first, second, third, fourth] = refusal.errors;
    let numbers = [refusal.stage, first, second, third, fourth];
    write_chain(buffer, 0, &numbers, Family::Stage, refusal.values)
}
