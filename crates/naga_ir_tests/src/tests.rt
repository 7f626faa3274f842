//! The tests of `naga_arena` and `naga_ir`.
//!
//! Each exit of a function drops what it owns, and the proof goes through each. So what builds a value here
//! ends the run if memory is refused.

mod arena;
mod ir_types;
mod operands;

use naga_arena::text::Text;
use std::fmt::{Debug, Display};
use std::process::Abort;

/// Checks that a value is as wanted. Each `assert_eq!` in a test is proved anew, text and all; this one
/// is proved once.
pub(crate) fn assert_same<T: Debug + PartialEq>(rt: &impl Abort, of: &str, got: &T, expected: &T) {
    assert!(rt; *got == *expected, "{of}: {got:?}, and not {expected:?}");
}

/// Checks that a value is shown as this text.
pub(crate) fn assert_shown<T: Display>(rt: &(impl AllocGlobal + Abort), value: &T, expected: &str) {
    let shown = format!(in rt.alloc(); "{value}").expect(rt, "memory");
    assert!(rt; shown.as_str() == expected, "{shown}");
}

/// Checks that the debug text of a value is this.
pub(crate) fn assert_debugged<T: Debug>(
    rt: &(impl AllocGlobal + Abort),
    value: &T,
    expected: &str,
) {
    let shown = format!(in rt.alloc(); "{value:?}").expect(rt, "memory");
    assert!(rt; shown.as_str() == expected, "{shown}");
}

/// A text of these bytes.
pub(crate) fn text(rt: &(impl AllocGlobal + Abort), text: &str) -> Text {
    Text::from_string(String::from_str(rt.alloc(), text).expect(rt, "memory"))
}
