//! The snippets of docs/LIBRARY.md, and the names of errors.

use super::assert_same;
use naga_report::report::{report_accepted, report_refused};
use naga_text::text::TextError;
use naga_valid::{
    Capabilities, ComposeError, ConstExpressionError, ConstValueError, ConstantError, Disalignment,
    Expression, ExpressionError, Flags, FullTyping, Function, FunctionError, Handle,
    IndexableLengthError, LayoutErrorInner, Literal, LiteralError, Module, ModuleInfo,
    OverrideError, ResolveError, Scalar, ScalarKind, Span, Type, TypeError, TypeInner, Typing,
    ValidationError, ValidationFault, ValidationFlags, Validator, VaryingError, WidthError,
};
use std::alloc::{AllocError, Global};
use std::test::Fail;

/// Returns the report on a module, under capabilities that are given as bits.
fn report_on(alloc: Global, bits: u64, module: &Module) -> Result<String, AllocError> {
    let capabilities = Capabilities::from_bits_retain(bits);
    let mut validator = Validator::new(alloc, ValidationFlags::default(), capabilities);
    match validator.validate(module) {
        Ok(_) => report_accepted(alloc, module, &validator),
        Err(error) => report_refused(alloc, error.as_inner()),
    }
}

#[test]
fn a_module_is_reported_under_given_bits(rt: HostRuntime) -> Result<(), Fail> {
    let alloc = rt.alloc();
    let mut module = Module::new(alloc);
    let inner = TypeInner::Scalar(Scalar {
        kind: ScalarKind::Float,
        width: 8,
    });
    module
        .types
        .insert(Type { name: None, inner }, Span::default())?;
    let report = report_on(alloc, Capabilities::FLOAT64.bits(), &module)?;
    assert_same(&rt, &report.as_str(), &"T0 ff 8 8\nok\n");
    let report = report_on(alloc, 0, &module)?;
    assert_same(&rt, &report.as_str(), &"refused type T0 WidthError\n");
    Ok(())
}

/// Validates a module with its functions and entry points.
fn validate_all<T: Typing>(alloc: Global, typing: T, module: &Module) -> Result<ModuleInfo, Fail> {
    let flags = ValidationFlags::default();
    let mut validator = Validator::with_typing(alloc, flags, Capabilities::default(), typing);
    let mut info = validator.validate(module)?;
    validator.validate_functions(module, &mut info, false)?;
    Ok(info)
}

#[test]
fn functions_are_validated(rt: HostRuntime) -> Result<(), Fail> {
    let alloc = rt.alloc();
    let mut module = Module::new(alloc);
    let mut function = Function::new(alloc);
    let one = Expression::Literal(Literal::U32(1));
    function.expressions.append(one, Span::default())?;
    module.functions.append(function, Span::default())?;
    validate_all(alloc, FullTyping, &module)?;
    Ok(())
}

#[test]
fn errors_give_the_names_of_their_variants(rt: HostRuntime) {
    let resolve = ResolveError::NotResolvable;
    let handle = Handle::new(0);
    let compose = ComposeError::ComponentType { index: 0 };
    for (name, want) in [
        (WidthError::Abstract.name(), "Abstract"),
        (TextError::Line(1).name(), "Line"),
        (resolve.name(), "NotResolvable"),
        (LayoutErrorInner::TooLarge.name(), "TooLarge"),
        (
            IndexableLengthError::TypeNotIndexable.name(),
            "TypeNotIndexable",
        ),
        (ConstValueError::Negative.name(), "Negative"),
        (ValidationFault::OutOfMemory.name(), "OutOfMemory"),
        (Disalignment::NonHostShareable.name(), "NonHostShareable"),
        (
            VaryingError::NotIOShareableType(handle).name(),
            "NotIOShareableType",
        ),
        (TypeError::EmptyStruct.name(), "EmptyStruct"),
        (compose.name(), "ComponentType"),
        (LiteralError::Width(WidthError::Abstract).name(), "Width"),
        (ConstExpressionError::Type_(resolve).name(), "Type"),
        (ExpressionError::Type_(resolve).name(), "Type"),
        (ConstantError::InvalidType.name(), "InvalidType"),
        (OverrideError::DuplicateID.name(), "DuplicateID"),
        (ValidationError::Corrupted.name(), "Corrupted"),
        (FunctionError::OutOfMemory.name(), "OutOfMemory"),
    ] {
        assert_same(&rt, &name, &want);
    }
}
