//! Reports on large texts.

use crate::random::Random;
use crate::totals::Totals;
use naga_report::report::{Outcome, make_report};
use naga_valid::OutOfMemory;
use std::alloc::{AllocError, Global};

/// Adds a number in decimal digits.
fn put(text: &mut String, number: u32) -> Result<(), AllocError> {
    write!(text, "{number}")
}

/// Adds a word, a space and a number.
fn put_word(text: &mut String, word: &str, number: u32) -> Result<(), AllocError> {
    text.push_str(word)?;
    text.push_str(" ")?;
    put(text, number)
}

/// How many types and expressions a module has so far.
#[derive(Clone, Copy)]
pub struct Counts {
    pub types: u32,
    pub expressions: u32,
}

/// Adds an array of vectors, and a struct with it at its end.
fn put_types(
    text: &mut String,
    counts: &mut Counts,
    random: &mut Random,
) -> Result<(), AllocError> {
    let count = counts.types;
    put_word(text, "type array 3", count)?;
    text.push_str(" 16\ntype struct ")?;
    let members = random.from_to(2, 9);
    let start = members.saturating_mul(16);
    put(text, count.saturating_mul(16).saturating_add(start))?;
    for member in 0..members {
        text.push_str(if random.below(3) == 0 { " 3:" } else { " 1:" })?;
        put(text, member.saturating_mul(16))?;
    }
    text.push_str(" ")?;
    put(text, count)?;
    text.push_str(":")?;
    put(text, start)?;
    put_word(text, "\ntype pointer", count.saturating_add(1))?;
    text.push_str(" function\n")?;
    counts.types = count.saturating_add(3);
    Ok(())
}

/// Adds a vector of literals, a constant of it, a vector of one literal, and an override.
fn put_values(
    text: &mut String,
    counts: &mut Counts,
    random: &mut Random,
) -> Result<(), AllocError> {
    let first = counts.expressions;
    put_word(text, "expr lit f32", random.below(0x7f00_0000))?;
    put_word(text, "\nexpr lit f32", random.below(0x7f00_0000))?;
    put_word(text, "\nexpr compose 3", first)?;
    for _ in 0..3 {
        put_word(text, "", first.saturating_add(random.below(2)))?;
    }
    put_word(text, "\nconst 3", first.saturating_add(2))?;
    put_word(text, "\nexpr splat 4", first)?;
    put_word(text, "\noverride 1", first.saturating_add(1))?;
    text.push_str(" -\n")?;
    counts.expressions = first.saturating_add(4);
    Ok(())
}

/// A text of `count` rounds of types and values, that begins with four types.
fn make_text(alloc: Global, count: u32, random: &mut Random) -> Result<String, AllocError> {
    let mut text = String::new(alloc);
    text.push_str("# A module that was made.\ntype scalar uint 4\ntype scalar float 4\n")?;
    text.push_str("type vector 2 float 4\ntype vector 4 float 4\n\n")?;
    let mut counts = Counts {
        types: 4,
        expressions: 0,
    };
    for _ in 0..count {
        put_types(&mut text, &mut counts, random)?;
        put_values(&mut text, &mut counts, random)?;
    }
    Ok(text)
}

/// Makes the report on a text.
fn report(alloc: Global, text: &str, totals: &mut Totals) -> Result<(), OutOfMemory> {
    let report = make_report(alloc, text.as_bytes())?;
    totals.add_text(report.text.as_str());
    match report.outcome {
        Outcome::Accepted => totals.accept(),
        outcome => totals.refuse(alloc, &outcome)?,
    }
    Ok(())
}

/// Makes the reports on so many texts of `lines` lines, about, of which the second is refused and the third
/// unreadable at its end, and so on.
pub fn report_many(
    alloc: Global,
    count: u32,
    lines: u32,
    random: &mut Random,
    totals: &mut Totals,
) -> Result<(), OutOfMemory> {
    for index in 0..count {
        let mut text = make_text(alloc, lines / 8, random)?;
        match index % 4 {
            1 => text.push_str("type vector 4 float 8\n")?,
            2 => text.push_str("type vector 5 float 4\n")?,
            _ => {}
        }
        report(alloc, text.as_str(), totals)?;
    }
    Ok(())
}
