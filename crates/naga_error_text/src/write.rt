//! Writing pieces into a buffer that may be too short for them.

ghost use Rattle.naga_error_text.specs.Classes.{image_class};
ghost use Rattle.naga_error_text.specs.Flags.{flag_text, flags_text, separator};
ghost use Rattle.naga_error_text.specs.Spaces.{space_text};
ghost use Rattle.naga_error_text.specs.steps.Pieces.{part_text, piece_text, row_of};
ghost use Rattle.naga_error_text.specs.steps.Writing.{written_at};
ghost use Rattle.std.specs.List.{concat};
ghost use Rattle.std.specs.Prelude.{◌≡◌, ◌+◌, ◌<◌, ◌^◌, decimal, length, map};

use crate::names::shown_name;
use crate::pieces::{
    Flag, Part, Piece, Values, image_class_of, image_class_pieces, is_storage, space_pieces,
    two_values, type_flags,
};
use itoa::Buffer;

/// Writes words at a place of a text, as far as the buffer reaches. Returns the place after them.
pub(crate) fn write_words(buffer: &mut [u8], at: usize, words: &[u8]) -> usize
    requires { at + length words.now < 2 ^ 63 }
    ensures place { result ≡ at + length words.now }
    ensures bytes { buffer.new ≡ written_at at words.now buffer.old }
{
    if at < buffer.len() {
        let count = words.len().min(buffer.len() - at);
        buffer[at..at + count].copy_from_slice(&words[..count]);
    }
    at + words.len()
}

/// Writes a number in decimal digits.
fn write_number(buffer: &mut [u8], at: usize, number: u64) -> usize
    requires { at + length (decimal number) < 2 ^ 63 }
    ensures place { result ≡ at + length (decimal number) }
    ensures bytes { buffer.new ≡ written_at at (decimal number) buffer.old }
{
    write_words(buffer, at, Buffer::new().format(number).as_bytes())
}

/// Writes a piece of a class of images.
fn write_part(buffer: &mut [u8], at: usize, values: Values, part: &Part) -> usize
    requires { at + length (part_text values part.now) < 2 ^ 63 }
    ensures place { result ≡ at + length (part_text values part.now) }
    ensures bytes { buffer.new ≡ written_at at (part_text values part.now) buffer.old }
{
    match part {
        Part::Words(words) => write_words(buffer, at, words.as_bytes()),
        Part::Number(place) => write_number(buffer, at, values.at(*place)),
        Part::Name(names, place) => {
            let name = shown_name(*names, values.at(*place));
            write_words(buffer, at, name.as_bytes())
        }
    }
}

/// Writes the pieces of a class of images.
fn write_parts(buffer: &mut [u8], start: usize, values: Values, parts: &[Part]) -> usize
    requires { start + length (concat (map (part_text values) parts.now)) < 2 ^ 63 }
    ensures place { result ≡ start + length (concat (map (part_text values) parts.now)) }
    ensures bytes { buffer.new ≡ written_at start (concat (map (part_text values) parts.now)) buffer.old }
{
    let mut at = start;
    for part in parts {
        at = write_part(buffer, at, values, part);
    }
    at
}

/// Writes the class of images of a number, with its two words.
fn write_class(buffer: &mut [u8], at: usize, number: u64, words: (u64, u64)) -> usize
    requires { at + length (image_class number words.0 words.1) < 2 ^ 63 }
    ensures place { result ≡ at + length (image_class number words.0 words.1) }
    ensures bytes { buffer.new ≡ written_at at (image_class number words.0 words.1) buffer.old }
{
    let values = two_values(words.0, words.1);
    write_parts(
        buffer,
        at,
        values,
        image_class_pieces(image_class_of(number)),
    )
}

/// Writes the address space of a number, with which may be done what another number says.
fn write_space(buffer: &mut [u8], at: usize, number: u64, access: u64) -> usize
    requires { at + length (space_text number access) < 2 ^ 63 }
    ensures place { result ≡ at + length (space_text number access) }
    ensures bytes { buffer.new ≡ written_at at (space_text number access) buffer.old }
{
    let values = two_values(number, access);
    write_parts(buffer, at, values, space_pieces(is_storage(number)))
}

/// What stands before a flag, of whose earlier flags a set has these.
fn separator(earlier: u64) -> &'static str
    ensures { result.now ≡ separator earlier }
{
    if earlier == 0 { "" } else { " | " }
}

/// Writes what the text of a set says of a flag.
fn write_flag(buffer: &mut [u8], at: usize, set: u64, flag: Flag) -> usize
    requires { at + length (flag_text set (row_of flag)) < 2 ^ 63 }
    ensures place { result ≡ at + length (flag_text set (row_of flag)) }
    ensures bytes { buffer.new ≡ written_at at (flag_text set (row_of flag)) buffer.old }
{
    if set & flag.bit == 0 {
        return at;
    }
    let next = write_words(buffer, at, separator(set & flag.before).as_bytes());
    write_words(buffer, next, flag.name.as_bytes())
}

/// Writes what the text of a set says of some flags.
fn write_each_flag(buffer: &mut [u8], start: usize, set: u64, flags: &[Flag]) -> usize
    requires { start + length (concat (map (flag_text set) (map row_of flags.now))) < 2 ^ 63 }
    ensures place { result ≡ start + length (concat (map (flag_text set) (map row_of flags.now))) }
    ensures bytes { buffer.new ≡ written_at start (concat (map (flag_text set) (map row_of flags.now))) buffer.old }
{
    let mut at = start;
    for flag in flags {
        at = write_flag(buffer, at, set, *flag);
    }
    at
}

/// Writes the names of the flags of types in a set.
fn write_flags(buffer: &mut [u8], at: usize, set: u64) -> usize
    requires { at + length (flags_text set) < 2 ^ 63 }
    ensures place { result ≡ at + length (flags_text set) }
    ensures bytes { buffer.new ≡ written_at at (flags_text set) buffer.old }
{
    if set == 0 {
        return write_words(buffer, at, b"0x0");
    }
    write_each_flag(buffer, at, set, type_flags())
}

/// Writes a piece of the text of an error.
fn write_piece(buffer: &mut [u8], at: usize, values: Values, piece: &Piece) -> usize
    requires { at + length (piece_text values piece.now) < 2 ^ 63 }
    ensures place { result ≡ at + length (piece_text values piece.now) }
    ensures bytes { buffer.new ≡ written_at at (piece_text values piece.now) buffer.old }
{
    match piece {
        Piece::Words(words) => write_words(buffer, at, words.as_bytes()),
        Piece::Number(place) => write_number(buffer, at, values.at(*place)),
        Piece::Name(names, place) => {
            let name = shown_name(*names, values.at(*place));
            write_words(buffer, at, name.as_bytes())
        }
        Piece::Class(number, first, second) => {
            let words = (values.at(*first), values.at(*second));
            write_class(buffer, at, values.at(*number), words)
        }
        Piece::Space(number, access) => {
            write_space(buffer, at, values.at(*number), values.at(*access))
        }
        Piece::TypeFlags(place) => write_flags(buffer, at, values.at(*place)),
    }
}

/// Writes the pieces of the text of an error.
pub(crate) fn write_pieces(
    buffer: &mut [u8],
    start: usize,
    values: Values,
    pieces: &[Piece],
) -> usize
    requires { start + length (concat (map (piece_text values) pieces.now)) < 2 ^ 63 }
    ensures place { result ≡ start + length (concat (map (piece_text values) pieces.now)) }
    ensures bytes { buffer.new ≡ written_at start (concat (map (piece_text values) pieces.now)) buffer.old }
{
    let mut at = start;
    for piece in pieces {
        at = write_piece(buffer, at, values, piece);
    }
    at
}
