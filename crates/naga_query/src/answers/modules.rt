//! Answers about the handles of a module, and why a module is refused.

ghost use Rattle.std.specs.Prelude.{OnOk};
ghost use Rattle.naga_query.specs.Accepted.{AreHandlesRight};

use naga_valid::{
    InvalidHandleError, Item, Module, OutOfMemory, ValidationError, ValidationFault, Walk,
    WithSpan, validate_module_handles, visit_order,
};
use std::alloc::{AllocError, Global};

/// Adds that a query has no answer, and why.
pub fn add_not_applicable(answer: &mut String, why: &str) -> Result<(), AllocError> {
    write!(answer, "not applicable: {why}\n")
}

/// Adds why a module is refused, and the line of the item that is wrong.
pub fn add_error(
    answer: &mut String,
    error: &WithSpan<ValidationError>,
) -> Result<(), OutOfMemory> {
    let inner = error.as_inner();
    if *inner == ValidationError::OutOfMemory {
        return Err(OutOfMemory);
    }
    write!(answer, "{inner:?}")?;
    if let Some(span) = error.span() {
        let line = span.start;
        write!(answer, " at line {line}")?;
    }
    answer.push_str("\n")?;
    Ok(())
}

/// Adds which handle or range is wrong.
fn add_handle_error(answer: &mut String, error: &InvalidHandleError) -> Result<(), AllocError> {
    match error {
        InvalidHandleError::BadHandle(bad) => {
            let kind = bad.kind.as_str();
            let index = bad.index;
            write!(answer, "BadHandle {kind} {index}\n")
        }
        InvalidHandleError::ForwardDependency(forward) => {
            let subject = forward.subject();
            let depends_on = forward.depends_on();
            let kind = forward.subject_kind();
            let other = forward.depends_on_kind();
            write!(
                answer,
                "ForwardDependency {kind} {subject} {other} {depends_on}\n"
            )
        }
        InvalidHandleError::BadRange(bad) => {
            let start = bad.start;
            let end = bad.end;
            write!(answer, "BadRange {start} {end}\n")
        }
    }
}

/// Adds what is wrong with a module's handles.
pub fn add_fault(answer: &mut String, fault: &ValidationFault) -> Result<(), AllocError> {
    match fault {
        ValidationFault::Invalid(error) => add_handle_error(answer, error),
        ValidationFault::MissingMember { handle, name } => {
            let index = handle.index();
            let name = name.as_str();
            write!(answer, "MissingMember {index} {name}\n")
        }
        ValidationFault::OutOfMemory => Err(AllocError),
    }
}

/// Returns the first handle or range of a module that is wrong.
pub fn check_handles(alloc: Global, module: &Module) -> Result<(), ValidationFault>
    ensures { OnOk result (AreHandlesRight «module».now) }
{
    validate_module_handles(alloc, module)
}

/// `handles`: adds `ok`, or the first handle or range that is wrong.
pub fn add_handles(alloc: Global, answer: &mut String, module: &Module) -> Result<(), AllocError> {
    match check_handles(alloc, module) {
        Ok(()) => answer.push_str("ok\n"),
        Err(fault) => add_fault(answer, &fault),
    }
}

/// Adds an item of a walk.
fn add_item(answer: &mut String, item: Item) -> Result<(), AllocError> {
    match item {
        Item::Type_(ty) => {
            let index = ty.index();
            write!(answer, "T{index} ")
        }
        Item::Expression(expression) => {
            let index = expression.index();
            write!(answer, "G{index} ")
        }
    }
}

/// Adds the order in which types and global expressions are visited, and how many were looked at.
fn add_walk(answer: &mut String, walk: &Walk) -> Result<(), AllocError> {
    for item in &walk.order {
        add_item(answer, *item)?;
    }
    let looks = walk.looks;
    write!(answer, "looks {looks}\n")
}

/// `order`: adds the order of visits, or why there is none.
pub fn add_order(alloc: Global, answer: &mut String, module: &Module) -> Result<(), AllocError> {
    match visit_order(alloc, module) {
        Ok(walk) => add_walk(answer, &walk),
        Err(fault) => add_fault(answer, &fault),
    }
}
