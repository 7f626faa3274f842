//! Modules that are accepted, or refused for a constant or an override, each validated twice by one validator, some with
//! overrides resolved.

use crate::retry::{Memory, Wrong, check};
use naga_text::text::{Contents, read_text};
use naga_valid::{ConstantError, ModuleInfo, OverrideError, ValidationError, Validator, WithSpan};
use std::alloc::Global;

/// Forty types without names: numbers, vectors, and arrays of the first number.
const TYPES: &str = "type scalar uint 4
type scalar sint 4
type scalar float 4
type vector 2 uint 4
type vector 3 uint 4
type vector 4 uint 4
type vector 2 float 4
type vector 3 float 4
type vector 4 float 4
type array 0 1 4
type array 0 2 4
type array 0 3 4
type array 0 4 4
type array 0 5 4
type array 0 6 4
type array 0 7 4
type array 0 8 4
type array 0 9 4
type array 0 10 4
type array 0 11 4
type array 0 12 4
type array 0 13 4
type array 0 14 4
type array 0 15 4
type array 0 16 4
type array 0 17 4
type array 0 18 4
type array 0 19 4
type array 0 20 4
type array 0 21 4
type array 0 22 4
type array 0 23 4
type array 0 24 4
type array 0 25 4
type array 0 26 4
type array 0 27 4
type array 0 28 4
type array 0 29 4
type array 0 30 4
type array 0 31 4
";

/// An array that an override sizes.
const SIZED: &str = "type scalar uint 4
expr zero 0
override 0 0 -
type array 0 o0 4
";

/// A constant whose type is such an array, so that it can't be constructed. Constants aren't validated.
const UNCHECKED_CONSTANT: &str = "flags 47
type scalar uint 4
expr zero 0
expr const 0
override 0 1 -
type array 0 o0 4
const 1 0
";

/// The same, and constants are validated.
const CONSTANT: &str = "type scalar uint 4
expr zero 0
expr const 0
override 0 1 -
type array 0 o0 4
const 1 0
";

/// A constant, and an override with a number whose initialiser is the constant.
const NUMBERED: &str = "type scalar sint 4
expr lit i32 -7
const 0 0
expr const 0
override 0 1 7
";

/// The same, and another override with that number.
const NUMBERED_TWICE: &str = "type scalar sint 4
expr lit i32 -7
const 0 0
expr const 0
override 0 1 7
override 0 - 7
";

/// An array that an override sizes, which has its value.
const RESOLVED: &str = "resolved
type scalar uint 4
expr lit u32 3
override 0 0 7
type array 0 o0 4
";

/// An override that has none.
const UNRESOLVED: &str = "resolved
type scalar uint 4
override 0 - -
";

/// What the result for a module has to be.
#[derive(Clone, Copy, PartialEq)]
enum Verdict {
    /// It is accepted, with so many types.
    Accepted(usize),
    /// The constant of this index has a type that can't be constructed.
    NonConstructible(usize),
    /// The override of this index has the number of one before it.
    DuplicateId(usize),
    /// The override of this index has no value.
    Uninitialized(usize),
}

/// What a refusal says, if it is one of these.
fn verdict_of(error: &ValidationError) -> Option<Verdict> {
    match error {
        ValidationError::Constant {
            handle,
            source: ConstantError::NonConstructibleType,
            ..
        } => Some(Verdict::NonConstructible(handle.index())),
        ValidationError::Override {
            handle,
            source: OverrideError::DuplicateID,
            ..
        } => Some(Verdict::DuplicateId(handle.index())),
        ValidationError::Override {
            handle,
            source: OverrideError::UninitializedOverride,
            ..
        } => Some(Verdict::Uninitialized(handle.index())),
        _ => None,
    }
}

/// Validates the module of a text.
fn validate(
    validator: &mut Validator,
    contents: &Contents,
) -> Result<ModuleInfo, WithSpan<ValidationError>> {
    if contents.resolved {
        validator.validate_resolved_overrides(&contents.module)
    } else {
        validator.validate(&contents.module)
    }
}

/// Validates the module, and returns whether it was refused for memory. That leaves the validator as after `reset`, as
/// each refusal does.
fn is_out_of_memory(
    validator: &mut Validator,
    contents: &Contents,
    right: Verdict,
) -> Result<bool, Wrong> {
    let Err(error) = validate(validator, contents) else {
        let accepted = Verdict::Accepted(validator.type_count());
        check(
            right == accepted,
            "a module is accepted, or with other types\n",
        )?;
        return Ok(false);
    };
    check(
        validator.type_count() == 0,
        "infos stay after a module was refused\n",
    )?;
    if let ValidationError::OutOfMemory = error.as_inner() {
        return Ok(true);
    }
    check(
        verdict_of(error.as_inner()) == Some(right),
        "a module is refused for something else\n",
    )?;
    Ok(false)
}

/// Validates the module twice. Of the two calls one may be out of memory, and the other then returns what a fresh
/// validator returns.
fn validate_twice(
    alloc: Global,
    memory: &mut Memory,
    contents: &Contents,
    right: Verdict,
) -> Result<(), Wrong> {
    let flags = contents.flags.unwrap_or_default();
    let mut validator = Validator::new(alloc, flags, contents.capabilities.unwrap_or_default());
    let first = is_out_of_memory(&mut validator, contents, right)?;
    let second = is_out_of_memory(&mut validator, contents, right)?;
    check(!(first && second), "memory is refused twice\n")?;
    memory.refused = memory.refused || first || second;
    Ok(())
}

/// Reads a text, and reads it again if that is refused memory.
fn read_again(alloc: Global, memory: &mut Memory, text: &str) -> Result<Contents, Wrong> {
    if let Ok(contents) = read_text(alloc, text.as_bytes()) {
        return Ok(contents);
    }
    memory.refused = true;
    match read_text(alloc, text.as_bytes()) {
        Ok(contents) => Ok(contents),
        Err(_) => Err(Wrong("a text is refused memory twice\n")),
    }
}

/// Validates the module of a text.
fn validate_text(
    alloc: Global,
    memory: &mut Memory,
    text: &str,
    right: Verdict,
) -> Result<(), Wrong> {
    let contents = read_again(alloc, memory, text)?;
    validate_twice(alloc, memory, &contents, right)
}

/// Validates the modules of all texts.
pub fn accept_again(alloc: Global, memory: &mut Memory) -> Result<(), Wrong> {
    validate_text(alloc, memory, TYPES, Verdict::Accepted(40))?;
    validate_text(alloc, memory, SIZED, Verdict::Accepted(2))?;
    validate_text(alloc, memory, UNCHECKED_CONSTANT, Verdict::Accepted(2))?;
    validate_text(alloc, memory, CONSTANT, Verdict::NonConstructible(0))?;
    validate_text(alloc, memory, NUMBERED, Verdict::Accepted(1))?;
    validate_text(alloc, memory, NUMBERED_TWICE, Verdict::DuplicateId(1))?;
    validate_text(alloc, memory, RESOLVED, Verdict::Accepted(2))?;
    validate_text(alloc, memory, UNRESOLVED, Verdict::Uninitialized(0))
}
