//! Modules in words, as hosts hand them over: the modules that the texts of reports.rt describe, read and validated.

use crate::random::Random;
use crate::reports::Counts;
use crate::shaders::{new_validator, validate};
use crate::totals::Totals;
use naga_valid::OutOfMemory;
use naga_words::{WordsError, read_words};
use std::alloc::{AllocError, Global};

/// The word that stands for nothing: here for no name, and for no number of an override.
const NONE: u32 = u32::MAX;

// Opcodes.
const SCALAR: u32 = 16;

const VECTOR: u32 = 17;

const POINTER: u32 = 21;

const ARRAY: u32 = 23;

const STRUCT: u32 = 24;

const CONSTANT: u32 = 32;

const OVERRIDE: u32 = 33;

const LITERAL: u32 = 64;

const COMPOSE: u32 = 68;

const SPLAT: u32 = 71;

// Kinds of scalars.
const UINT: u32 = 1;

const FLOAT: u32 = 2;

/// Adds an item of an opcode with few operands.
fn put_item(words: &mut Vec<u32>, opcode: u32, operands: &[u32]) -> Result<(), AllocError> {
    let count = operands.len().min(100) as u32;
    words.push(count << 8 | opcode)?;
    words.extend_from_slice(operands)
}

/// Adds a member without a name and a binding to the item before.
fn put_member(words: &mut Vec<u32>, ty: u32, offset: u32) -> Result<(), AllocError> {
    words.extend_from_slice(&[NONE, ty, offset, 0, 0, 0])
}

/// Adds an array of vectors, a struct with it at its end, and a pointer to the struct.
fn put_types(
    words: &mut Vec<u32>,
    counts: &mut Counts,
    random: &mut Random,
) -> Result<(), AllocError> {
    let array = counts.types;
    put_item(words, ARRAY, &[NONE, 3, 0, array, 16])?;
    let members = random.from_to(2, 9);
    let start = members.saturating_mul(16);
    let operands = members.saturating_mul(6).saturating_add(8);
    words.push(operands << 8 | STRUCT)?;
    words.push(NONE)?;
    words.push(array.saturating_mul(16).saturating_add(start))?;
    for member in 0..members {
        let ty = if random.below(3) == 0 { 3 } else { 1 };
        put_member(words, ty, member.saturating_mul(16))?;
    }
    put_member(words, array, start)?;
    put_item(words, POINTER, &[NONE, array.saturating_add(1), 0, 0])?;
    counts.types = array.saturating_add(3);
    Ok(())
}

/// Adds a vector of literals, a constant of it, a vector of one literal, and an override.
fn put_values(
    words: &mut Vec<u32>,
    counts: &mut Counts,
    random: &mut Random,
) -> Result<(), AllocError> {
    let first = counts.expressions;
    let second = first.saturating_add(1);
    put_item(words, LITERAL, &[1, random.below(0x7f00_0000), 0])?;
    put_item(words, LITERAL, &[1, random.below(0x7f00_0000), 0])?;
    let x = first.saturating_add(random.below(2));
    let y = first.saturating_add(random.below(2));
    let z = first.saturating_add(random.below(2));
    put_item(words, COMPOSE, &[3, first, x, y, z])?;
    put_item(words, CONSTANT, &[NONE, 3, first.saturating_add(2)])?;
    put_item(words, SPLAT, &[4, first])?;
    put_item(words, OVERRIDE, &[NONE, 1, second, NONE])?;
    counts.expressions = first.saturating_add(4);
    Ok(())
}

/// The words of a module of `count` rounds of types and values, that begins with four types.
fn make_words(alloc: Global, count: u32, random: &mut Random) -> Result<Vec<u32>, AllocError> {
    let mut words = Vec::new(alloc);
    put_item(&mut words, SCALAR, &[NONE, UINT, 4])?;
    put_item(&mut words, SCALAR, &[NONE, FLOAT, 4])?;
    put_item(&mut words, VECTOR, &[NONE, 2, FLOAT, 4])?;
    put_item(&mut words, VECTOR, &[NONE, 4, FLOAT, 4])?;
    let mut counts = Counts {
        types: 4,
        expressions: 0,
    };
    for _ in 0..count {
        put_types(&mut words, &mut counts, random)?;
        put_values(&mut words, &mut counts, random)?;
    }
    Ok(words)
}

/// Reads a module, and validates it.
fn check(alloc: Global, words: &[u32], totals: &mut Totals) -> Result<(), OutOfMemory> {
    match read_words(alloc, words) {
        Ok(contents) => validate(alloc, &mut new_validator(alloc), &contents.module, totals),
        Err(WordsError::OutOfMemory) => Err(OutOfMemory),
        Err(error) => totals.refuse(alloc, &error),
    }
}

/// Reads and validates so many modules of `items` items, about, of which the second is refused and the third
/// unreadable at its end, and so on.
pub fn check_many(
    alloc: Global,
    count: u32,
    items: u32,
    random: &mut Random,
    totals: &mut Totals,
) -> Result<(), OutOfMemory> {
    for index in 0..count {
        let mut words = make_words(alloc, items / 8, random)?;
        match index % 4 {
            1 => put_item(&mut words, VECTOR, &[NONE, 4, FLOAT, 8])?,
            2 => put_item(&mut words, VECTOR, &[NONE, 5, FLOAT, 4])?,
            _ => {}
        }
        check(alloc, words.as_slice(), totals)?;
    }
    Ok(())
}
