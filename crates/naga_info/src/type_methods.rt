//! What the rules of several variants require of the types of operands.

ghost use Rattle.std.specs.Prelude.{◌≡◌};
ghost use Rattle.naga_info.specs.Words as words;
ghost use Rattle.naga_types.specs.TypeRule as rule;

use naga_ir::types::{ScalarKind, TypeInner, VectorSize};

/// How many components a vector of this size has, or a scalar.
pub fn component_count(size: Option<VectorSize>) -> u8
    ensures { result ≡ words.component_count size }
{
    match size {
        Some(size) => size.components(),
        None => 1,
    }
}

/// Whether scalars of a kind are integers with a width of their own.
pub fn is_integer(kind: ScalarKind) -> bool
    ensures { result ≡ rule.is_integer kind }
{
    match kind {
        ScalarKind::Sint | ScalarKind::Uint => true,
        ScalarKind::Float
        | ScalarKind::Bool
        | ScalarKind::AbstractInt
        | ScalarKind::AbstractFloat => false,
    }
}

/// Whether scalars of a kind are numbers with a width of their own.
pub fn is_number(kind: ScalarKind) -> bool
    ensures { result ≡ words.is_number kind }
{
    match kind {
        ScalarKind::Sint | ScalarKind::Uint | ScalarKind::Float => true,
        ScalarKind::Bool | ScalarKind::AbstractInt | ScalarKind::AbstractFloat => false,
    }
}

/// Whether a type is one integer, of any width.
pub fn is_integer_scalar(inner: &TypeInner) -> bool
    ensures { result ≡ words.is_integer_scalar inner.now }
{
    match inner.vector_size_and_scalar() {
        Some((size, scalar)) => component_count(size) == 1 && is_integer(scalar.kind),
        None => false,
    }
}
