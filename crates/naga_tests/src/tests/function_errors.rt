//! The texts of errors.

use naga_valid::{Callable, ExpressionError, FunctionError, FunctionsError, Handle};
use std::process::Abort;

#[test]
fn texts_of_errors_of_functions(rt: HostRuntime) {
    for (error, want) in [
        (
            FunctionError::Expression {
                handle: Handle::new(3),
                source: ExpressionError::InvalidDerivative,
            },
            "Expression [3] is invalid",
        ),
        (FunctionError::OutOfMemory, "Out of memory"),
    ] {
        let shown = format!(in rt.alloc(); "{error}").expect(&rt, "memory");
        assert!(&rt; shown.as_str() == want, "{shown}");
    }
}

#[test]
fn texts_of_the_first_refused_function(rt: HostRuntime) {
    for (at, want) in [
        (
            Callable::Function(Handle::new(2)),
            "Function([2]): Out of memory",
        ),
        (Callable::EntryPoint(1), "EntryPoint(1): Out of memory"),
    ] {
        let error = FunctionsError {
            at,
            source: FunctionError::OutOfMemory,
        };
        let shown = format!(in rt.alloc(); "{error}").expect(&rt, "memory");
        assert!(&rt; shown.as_str() == want, "{shown}");
    }
}
