//! The kinds of items of a module, by number, and what else the texts in errors name.

ghost use Rattle.naga_c.specs.Kinds.{capability_named, item_kind, scalar_named};
ghost use Rattle.std.specs.Prelude.{◌≡◌};

use bitflags::Flags;
use naga_flags::flags::Capabilities;
use naga_ir::types::{Scalar, ScalarKind};
use naga_text::words::chosen;

/// Types.
pub(crate) const TYPE: u32 = 1;

/// Constants.
pub(crate) const CONSTANT: u32 = 2;

/// Overrides.
pub(crate) const OVERRIDE: u32 = 3;

/// Variables of the module.
pub(crate) const GLOBAL_VARIABLE: u32 = 4;

/// Expressions, of the module or of a function.
pub(crate) const EXPRESSION: u32 = 5;

/// Variables of a function.
pub(crate) const LOCAL_VARIABLE: u32 = 6;

/// Functions.
pub(crate) const FUNCTION: u32 = 7;

/// Filters of diagnostics.
pub(crate) const DIAGNOSTIC_FILTER_NODE: u32 = 8;

/// Entry points.
pub(crate) const ENTRY_POINT: u32 = 9;

/// The number of the kind of items that has this name, or 0.
pub(crate) fn item_kind(name: &str) -> u32
    ensures { result ≡ item_kind name.now }
{
    let kinds = [
        ("Type", TYPE),
        ("Constant", CONSTANT),
        ("Override", OVERRIDE),
        ("GlobalVariable", GLOBAL_VARIABLE),
        ("Expression", EXPRESSION),
        ("LocalVariable", LOCAL_VARIABLE),
        ("Function", FUNCTION),
        ("DiagnosticFilterNode", DIAGNOSTIC_FILTER_NODE),
        ("EntryPoint", ENTRY_POINT),
    ];
    chosen(&kinds, name.as_bytes()).unwrap_or(0)
}

/// The bit of the capability that has this name, if some width needs it, else 0.
pub(crate) fn capability_named(name: &str) -> u64
    ensures { result ≡ capability_named name.now }
{
    let capabilities = [
        ("FLOAT64", Capabilities::FLOAT64.bits()),
        ("SHADER_FLOAT16", Capabilities::SHADER_FLOAT16.bits()),
        ("SHADER_INT64", Capabilities::SHADER_INT64.bits()),
        ("SHADER_INT16", Capabilities::SHADER_INT16.bits()),
    ];
    chosen(&capabilities, name.as_bytes()).unwrap_or(0)
}

/// The scalars that have this name, if they need a capability, else those of no bytes.
pub(crate) fn scalar_named(name: &str) -> Scalar
    ensures { result ≡ scalar_named name.now }
{
    let scalars = [
        ("f64", Scalar::F64),
        ("f16", Scalar::F16),
        ("i64", Scalar::I64),
        ("i16", Scalar::I16),
        ("u64", Scalar::U64),
        ("u16", Scalar::U16),
    ];
    let none = Scalar {
        kind: ScalarKind::Sint,
        width: 0,
    };
    chosen(&scalars, name.as_bytes()).unwrap_or(none)
}
