//! The messages of faults.

use naga_handles::error::{FwdDepError, InvalidHandleError, ValidationFault};
use naga_ir::handle::{BadHandle, Handle};
use naga_ir::range::BadRangeError;
use naga_ir::tags::FunctionTag;
use naga_ir::text::{StaticText, Text};
use std::process::Abort;

/// The fault of an item that isn't there.
fn bad_handle(kind: &'static str, index: usize) -> ValidationFault {
    let kind = StaticText::new(kind);
    ValidationFault::Invalid(InvalidHandleError::BadHandle(BadHandle { kind, index }))
}

/// The error on function 2, which calls function 3.
fn late_function() -> FwdDepError {
    FwdDepError::new(Handle::<FunctionTag>::new(2), Handle::<FunctionTag>::new(3))
}

/// Checks that a fault is displayed as this text.
fn assert_reads(rt: &(impl AllocGlobal + Abort), fault: ValidationFault, expected: &str) {
    let text = format!(in rt.alloc(); "{fault}").expect(rt, "memory");
    assert_eq!(rt; text.as_str(), expected);
}

#[test]
fn faults_read_as_sentences(rt: HostRuntime) {
    assert_reads(
        &rt,
        bad_handle("Function", 5),
        "Handle 5 of Function is either not present, or inaccessible yet",
    );
    assert_reads(
        &rt,
        ValidationFault::Invalid(InvalidHandleError::from(late_function())),
        "[2] of kind \"Function\" depends on [3] of kind Function, which has not been processed yet",
    );
    let range = BadRangeError {
        kind: StaticText::new("Expression"),
        start: 2,
        end: 5,
    };
    assert_reads(
        &rt,
        ValidationFault::Invalid(InvalidHandleError::from(range)),
        "Handle range [2..5] of Expression is either not present, or inaccessible yet",
    );
    let name = String::from_str(rt.alloc(), "S").expect(&rt, "memory");
    let missing_member = ValidationFault::MissingMember {
        handle: Handle::new(1),
        name: Text::from_string(name),
    };
    assert_reads(
        &rt,
        missing_member,
        "Type [1] 'S' has no member that a comment is on",
    );
    assert_reads(&rt, ValidationFault::OutOfMemory, "Out of memory");
}
