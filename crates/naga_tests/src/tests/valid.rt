//! Validators that go from module to module, what no row shows of refusals, and the texts of errors.

ghost use Rattle.naga_flags.specs.Bits.{MESH, VOTE};
ghost use Rattle.std.specs.Prelude.{◌≡◌};

use super::{assert_lines, assert_same, assert_same_for};
use naga_text::text::read_text;
use naga_valid::{
    BadHandle, BadRangeError, Capabilities, ConstExpressionError, ConstantError, FunctionTag,
    FwdDepError, Handle, InvalidHandleError, LayoutError, LayoutErrorInner, Module, OutOfMemory,
    OverrideError, Scalar, ShaderStages, Span, StaticText, SubgroupOperationSet, Text, Type,
    TypeError, TypeInner, ValidationError, ValidationFlags, Validator, WithSpan,
};
use std::alloc::Global;
use std::process::Abort;
use std::test::Fail;

/// Returns what `check` makes of the module that a text describes. No other function here owns a module,
/// since each exit of a function drops what it owns, and the proof goes through each.
pub(crate) fn with_text<R, F: FnOnce(&mut Module) -> R>(
    rt: &impl Abort,
    alloc: Global,
    text: &str,
    check: F,
) -> R
    requires { F.IsAlwaysCallable check }
{
    let mut contents = read_text(alloc, text.as_bytes()).expect(rt, "readable");
    check(&mut contents.module)
}

/// A validator of whole modules.
pub(crate) fn validator_under(alloc: Global, capabilities: Capabilities) -> Validator {
    Validator::new(alloc, ValidationFlags::default(), capabilities)
}

/// Whether a validator accepts a module, as it is or with all overrides resolved, and how many types it
/// knows then.
fn outcome_of(validator: &mut Validator, module: &Module, is_resolved: bool) -> (bool, usize) {
    let is_accepted = if is_resolved {
        validator.validate_resolved_overrides(module).is_ok()
    } else {
        validator.validate(module).is_ok()
    };
    (is_accepted, validator.type_count())
}

/// Makes sure that a validator accepts the module of a text both ways, with so many types, or refuses it.
fn assert_outcome(
    rt: &impl Abort,
    alloc: Global,
    validator: &mut Validator,
    text: &str,
    want: (bool, usize),
) {
    let outcome = with_text(
        rt,
        alloc,
        text,
        |module| outcome_of(validator, module, false),
    );
    assert_same_for(rt, &text, &outcome, &want);
    let outcome = with_text(
        rt,
        alloc,
        text,
        |module| outcome_of(validator, module, true),
    );
    assert_same_for(rt, &text, &outcome, &want);
}

#[test]
fn each_result_is_of_its_own_module(rt: HostRuntime) {
    // The number of the override is only the module's.
    let good = "type scalar float 4\nexpr zero 0\noverride 0 0 7";
    let mut validator = validator_under(rt.alloc(), Capabilities::default());
    assert_same(&rt, &validator.type_count(), &0);
    for (text, want) in [
        ("", (true, 0)),
        (good, (true, 1)),
        ("type scalar float 4\ntype scalar float 3", (false, 0)),
        (good, (true, 1)),
        ("type scalar float 4\ntype scalar float 2", (false, 0)),
        (good, (true, 1)),
        (
            "type scalar float 4\nexpr zero 0\noverride 0 0 7\noverride 0 0 7",
            (false, 0),
        ),
        (good, (true, 1)),
    ] {
        assert_outcome(&rt, rt.alloc(), &mut validator, text, want);
    }
    let mut validator = validator_under(rt.alloc(), Capabilities::SHADER_FLOAT16);
    let half = "type scalar float 2";
    assert_outcome(&rt, rt.alloc(), &mut validator, half, (true, 1));
    validator.reset();
    assert_same(&rt, &validator.type_count(), &0);
    assert_outcome(&rt, rt.alloc(), &mut validator, half, (true, 1));
    let double = "type scalar float 8";
    assert_outcome(&rt, rt.alloc(), &mut validator, double, (false, 0));
}

/// What is known of a module without items, as it is shown.
fn shown_empty(alloc: Global, module: &Module) -> Result<String, Fail> {
    let info = validator_under(alloc, Capabilities::default()).validate(module)?;
    Ok(format!(in alloc; "{info:?}")?)
}

#[test]
fn nothing_is_known_of_an_empty_module(rt: HostRuntime) -> Result<(), Fail> {
    let shown = with_text(
        &rt,
        rt.alloc(),
        "",
        |module| shown_empty(rt.alloc(), module),
    )?;
    assert_same(
        &rt,
        &shown.as_str(),
        &"ModuleInfo { type_flags: [], functions: [], entry_points: [], const_expression_types: [] }",
    );
    Ok(())
}

/// A number, and an array of such that an override sizes.
const SIZED_BY_OVERRIDE: &str = "type scalar uint 4
expr zero 0
override 0 0 -
type array 0 o0 4";

/// What is known of that module, as it is shown.
const KNOWN: &str = "ModuleInfo { type_flags: [\
    TypeFlags(DATA | SIZED | COPY | IO_SHAREABLE | HOST_SHAREABLE | CREATION_RESOLVED | ARGUMENT | CONSTRUCTIBLE), \
    TypeFlags(DATA | SIZED | COPY | HOST_SHAREABLE | ARGUMENT)], \
    functions: [], entry_points: [], const_expression_types: [Handle([0])] }";

/// A copy of what is known of a module, as it is shown.
fn shown_copy(alloc: Global, module: &Module) -> Result<String, Fail> {
    let info = validator_under(alloc, Capabilities::default()).validate(module)?;
    let copy = info.try_clone()?;
    Ok(format!(in alloc; "{copy:?}")?)
}

#[test]
fn what_is_known_of_a_module_is_copied(rt: HostRuntime) -> Result<(), Fail> {
    let shown = with_text(
        &rt,
        rt.alloc(),
        SIZED_BY_OVERRIDE,
        |module| shown_copy(rt.alloc(), module),
    )?;
    assert_same(&rt, &shown.as_str(), &KNOWN);
    Ok(())
}

/// Adds a type of floating-point numbers of this width.
fn add_float(
    rt: &impl Abort,
    module: &mut Module,
    width: u8,
    span: Span,
) -> Result<(), OutOfMemory> {
    assert!(rt; module.types.len() < 100);
    let inner = TypeInner::Scalar(Scalar {
        width,
        ..Scalar::F32
    });
    module.types.insert(Type { name: None, inner }, span)?;
    Ok(())
}

/// Adds a type of this width to a module, and returns why the module is refused.
fn refusal_with(
    rt: &impl Abort,
    alloc: Global,
    module: &mut Module,
    width: u8,
    span: Span,
) -> Result<WithSpan<ValidationError>, Fail> {
    add_float(rt, module, width, span)?;
    let mut validator = validator_under(alloc, Capabilities::default());
    Ok(validator.validate(module).err().ok_or("accepted")?)
}

#[test]
fn a_refusal_has_the_span_of_the_item(rt: HostRuntime) -> Result<(), Fail> {
    let known = Span::new(5, 9);
    for (text, width, span, want) in [
        ("", 2, known, Some(known)),
        ("", 2, Span::default(), None),
        ("type scalar float 4", 3, known, Some(known)),
        ("type scalar float 4", 3, Span::default(), None),
        ("expr lit aint 1", 4, known, None),
    ] {
        let error = with_text(&rt, rt.alloc(), text, |module| {
            refusal_with(&rt, rt.alloc(), module, width, span)
        })?;
        assert_same_for(&rt, &width, &error.span(), &want);
    }
    Ok(())
}

/// The error on a range that ends past the last expression.
fn bad_range() -> BadRangeError {
    BadRangeError {
        kind: StaticText::new("Expression"),
        start: 2,
        end: 5,
    }
}

/// The error on function 2, which calls function 3.
fn late_function() -> FwdDepError {
    let caller: Handle<FunctionTag> = Handle::new(2);
    FwdDepError::new(caller, Handle::new(3))
}

/// The error on type 1, whose width is not a power of two.
fn odd_width() -> LayoutError {
    LayoutError {
        ty: Handle::new(1),
        inner: LayoutErrorInner::NonPowerOfTwoWidth,
    }
}

#[test]
fn errors_are_made_from_those_of_lower_crates(rt: HostRuntime) {
    for (got, want) in [
        (
            ValidationError::from(odd_width()),
            ValidationError::Layouter(odd_width()),
        ),
        (
            ValidationError::from(bad_range()),
            ValidationError::InvalidHandle(InvalidHandleError::BadRange(bad_range())),
        ),
        (
            ValidationError::from(late_function()),
            ValidationError::InvalidHandle(InvalidHandleError::ForwardDependency(late_function())),
        ),
        (
            ValidationError::from(OutOfMemory),
            ValidationError::OutOfMemory,
        ),
    ] {
        assert_same(&rt, &got, &want);
    }
}

/// A name.
fn name(rt: &(impl AllocGlobal + Abort), text: &str) -> Text {
    Text::from_string(String::from_str(rt.alloc(), text).expect(rt, "memory"))
}

const REFUSALS: &str = "Type [0] 'name' is invalid
Type [2] '' is invalid
Error laying out type [1]: The scalar width is not a power of two
Handle 5 of Function is either not present, or inaccessible yet
Constant expression [0] is invalid
Constant [0] 'one' is invalid
Override [0] 'two' is invalid
Out of memory
";

#[test]
fn texts_of_refusals(rt: HostRuntime) {
    let missing_function = BadHandle {
        kind: StaticText::new("Function"),
        index: 5,
    };
    assert_lines(
        &rt,
        &[
            ValidationError::Type_ {
                handle: Handle::new(0),
                name: name(&rt, "name"),
                source: TypeError::MatrixElementNotFloat,
            },
            ValidationError::Type_ {
                handle: Handle::new(2),
                name: Text::new(rt.alloc()),
                source: TypeError::MatrixElementNotFloat,
            },
            ValidationError::from(odd_width()),
            ValidationError::from(missing_function),
            ValidationError::ConstExpression {
                handle: Handle::new(0),
                source: ConstExpressionError::NonConstOrOverride,
            },
            ValidationError::Constant {
                handle: Handle::new(0),
                name: name(&rt, "one"),
                source: ConstantError::NonConstructibleType,
            },
            ValidationError::Override {
                handle: Handle::new(0),
                name: name(&rt, "two"),
                source: OverrideError::NonConstructibleType,
            },
            ValidationError::OutOfMemory,
        ],
        REFUSALS,
    );
}

const NEVER_RETURNED: &str = "Array size expression [0] is not strictly positive
Module is corrupted
";

#[test]
fn texts_of_refusals_that_never_come(rt: HostRuntime) {
    let size = ValidationError::ArraySizeError {
        handle: Handle::new(0),
    };
    assert_lines(&rt, &[size, ValidationError::Corrupted], NEVER_RETURNED);
}

const CONSTANTS: &str = "Initializer must be a const-expression
The type doesn't match the constant
The type is not constructible
";

const OVERRIDES: &str = "Override name and ID are missing
Override ID must be unique
Initializer must be a const-expression or override-expression
The type doesn't match the override
The type is not constructible
The type is not a scalar
Override declarations are not allowed
Override is uninitialized
Constant expression [0] is invalid
";

#[test]
fn texts_of_errors_of_constants_and_overrides(rt: HostRuntime) {
    assert_lines(
        &rt,
        &[
            ConstantError::InitializerExprType,
            ConstantError::InvalidType,
            ConstantError::NonConstructibleType,
        ],
        CONSTANTS,
    );
    assert_lines(
        &rt,
        &[
            OverrideError::MissingNameAndID,
            OverrideError::DuplicateID,
            OverrideError::InitializerExprType,
            OverrideError::InvalidType,
            OverrideError::NonConstructibleType,
            OverrideError::TypeNotScalar,
            OverrideError::NotAllowed,
            OverrideError::UninitializedOverride,
            OverrideError::ConstExpression {
                handle: Handle::new(0),
                source: ConstExpressionError::NonConstOrOverride,
            },
        ],
        OVERRIDES,
    );
}

/// Sets both at once: what the calls return is the validator itself.
fn set_both(validator: &mut Validator, stages: ShaderStages, operations: SubgroupOperationSet)
    ensures { validator.new ≡ record validator.old { subgroup_stages = stages; subgroup_operations = operations } }
{
    validator
        .subgroup_stages(stages)
        .subgroup_operations(operations);
}

/// Validates a module after settings were given, and resets the validator: the settings stay. Nothing
/// shows them but the contract, so this is proved and not run.
fn settings_outlast(validator: &mut Validator, module: &Module)
    ensures stages { validator.new.subgroup_stages ≡ record { 0 = MESH } }
    ensures operations { validator.new.subgroup_operations ≡ record { 0 = VOTE } }
    ensures capabilities { validator.new.capabilities ≡ validator.old.capabilities }
    ensures flags { validator.new.flags ≡ validator.old.flags }
{
    set_both(validator, ShaderStages::MESH, SubgroupOperationSet::VOTE);
    let _ = validator.validate(module);
    validator.reset();
}
