//! A text that is large in all that a short one is small in: its types, lines and bytes, the members of a
//! struct, and a word.

use super::assert_same;
use super::run::assert_reported;
use naga_report::report::{Outcome, make_report};
use std::alloc::{AllocError, Global};
use std::test::Fail;

/// A line of 100 bytes.
const COMMENT: &str =
    "# This line says nothing of the module. There are ten thousand of them: one million bytes together.\n";

/// A member of the first type, in 41 bytes.
const MEMBER: &str = "00000000000000000000:00000000000000000000";

/// Ten thousand comments, then 1,001 types: a scalar, arrays of it, and a struct of 100 members.
fn large_text(alloc: Global) -> Result<String, AllocError> {
    let mut text = String::new(alloc);
    add_comments(&mut text)?;
    text.push_str("type scalar uint 4\n")?;
    add_arrays(&mut text)?;
    add_struct(&mut text)?;
    Ok(text)
}

fn add_comments(text: &mut String) -> Result<(), AllocError> {
    for _ in 0..10_000 {
        text.push_str(COMMENT)?;
    }
    Ok(())
}

fn add_arrays(text: &mut String) -> Result<(), AllocError> {
    for count in 1..1_000 {
        write!(text, "type array 0 {count} 4\n")?;
    }
    Ok(())
}

fn add_struct(text: &mut String) -> Result<(), AllocError> {
    text.push_str("type struct 400 ")?;
    text.push_str(MEMBER)?;
    for member in 1..100u32 {
        let offset = member * 4;
        write!(text, " 0:{offset}")?;
    }
    text.push_str("\n")
}

/// What is proved leaves open that memory is refused, on any text: here it isn't.
#[test]
fn a_large_text_is_accepted(rt: HostRuntime) {
    let text = large_text(rt.alloc()).expect(&rt, "memory");
    assert_same(&rt, &(text.len() > 1_000_000), &true);
    let report = make_report(rt.alloc(), text.as_bytes()).expect(&rt, "memory");
    assert_same(&rt, &report.outcome, &Outcome::Accepted);
    let lines = report.text.as_str().lines().count();
    assert_same(&rt, &lines, &1_002);
    assert_reported(&rt, rt.alloc(), text.as_str(), report.text.as_str(), 0);
}
