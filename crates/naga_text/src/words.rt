//! Words that stand for a few values.

ghost use Rattle.naga_text.specs.Tables.{binary_operators, bools, chosen, classes, dimensions, kinds, roles, spaces, unary_operators};
ghost use Rattle.naga_text.specs.WordForms.{array_size_of, cooperative_size_of, count_at, count_of, pointed_size_of, size_at, size_of};
ghost use Rattle.std.specs.Prelude.{◌≡◌, bytes_eq, map};

use crate::number::{handle, number, number_up_to};
use naga_ir::expression::{BinaryOperator, UnaryOperator};
use naga_ir::storage_format::StorageFormat;
use naga_ir::types::{
    AddressSpace, ArraySize, CooperativeRole, CooperativeSize, ImageClass, ImageDimension,
    ScalarKind, StorageAccess, VectorSize,
};
use std::num::NonZeroU32;

/// Whether a word consists of these bytes. Readers choose by tests and not by patterns, since a long
/// byte string in a pattern is compared byte by byte, and a proof would have to put the word together
/// again.
pub fn equals(word: &[u8], other: &[u8]) -> bool
    ensures { result ≡ bytes_eq word.now other.now }
{
    word == other
}

/// The value of a word in a table, if the word is there.
pub fn chosen<T: Copy>(table: &[(&str, T)], word: &[u8]) -> Option<T>
    ensures { result ≡ chosen (map (λ row. (row.0.now, row.1)) table.now) word.now }
{
    for (name, value) in table {
        if word == name.as_bytes() {
            return Some(*value);
        }
    }
    None
}

/// The kind of a scalar.
pub fn kind(word: &[u8]) -> Option<ScalarKind>
    ensures { result ≡ chosen kinds word.now }
{
    chosen(
        &[
            ("sint", ScalarKind::Sint),
            ("uint", ScalarKind::Uint),
            ("float", ScalarKind::Float),
            ("bool", ScalarKind::Bool),
            ("aint", ScalarKind::AbstractInt),
            ("afloat", ScalarKind::AbstractFloat),
        ],
        word,
    )
}

/// A bool: `0` or `1`.
pub fn boolean(word: &[u8]) -> Option<bool>
    ensures { result ≡ chosen bools word.now }
{
    chosen(&[("0", false), ("1", true)], word)
}

fn size_at(n: u64) -> Option<VectorSize>
    ensures { result ≡ size_at n }
{
    match n {
        2 => Some(VectorSize::Bi),
        3 => Some(VectorSize::Tri),
        4 => Some(VectorSize::Quad),
        _ => None,
    }
}

/// The number of components of a vector, or of columns or rows of a matrix.
pub fn size(word: &[u8]) -> Option<VectorSize>
    ensures { result ≡ size_of word.now }
{
    size_at(number_up_to(word, 4)?)
}

/// The number of components that a value pointer points to. A scalar is written as `0`.
pub fn pointed_size(word: &[u8]) -> Option<Option<VectorSize>>
    ensures { result ≡ pointed_size_of word.now }
{
    match number_up_to(word, 4)? {
        0 => Some(None),
        n => Some(Some(size_at(n)?)),
    }
}

/// The number of columns or rows of a cooperative matrix.
pub fn cooperative_size(word: &[u8]) -> Option<CooperativeSize>
    ensures { result ≡ cooperative_size_of word.now }
{
    match number_up_to(word, 16)? {
        8 => Some(CooperativeSize::Eight),
        16 => Some(CooperativeSize::Sixteen),
        _ => None,
    }
}

/// Which operand a cooperative matrix is.
pub fn role(word: &[u8]) -> Option<CooperativeRole>
    ensures { result ≡ chosen roles word.now }
{
    chosen(
        &[
            ("A", CooperativeRole::A),
            ("B", CooperativeRole::B),
            ("C", CooperativeRole::C),
        ],
        word,
    )
}

/// An address space. Storage can be read and written.
pub fn space(word: &[u8]) -> Option<AddressSpace>
    ensures { result ≡ chosen spaces word.now }
{
    let access = StorageAccess {
        load: true,
        store: true,
        atomic: false,
    };
    chosen(
        &[
            ("function", AddressSpace::Function),
            ("private", AddressSpace::Private),
            ("workgroup", AddressSpace::WorkGroup),
            ("uniform", AddressSpace::Uniform),
            ("storage", AddressSpace::Storage { access }),
            ("handle", AddressSpace::Handle),
            ("immediate", AddressSpace::Immediate),
            ("taskpayload", AddressSpace::TaskPayload),
            ("raypayload", AddressSpace::RayPayload),
            ("incomingraypayload", AddressSpace::IncomingRayPayload),
        ],
        word,
    )
}

/// The dimension of an image.
pub fn dimension(word: &[u8]) -> Option<ImageDimension>
    ensures { result ≡ chosen dimensions word.now }
{
    chosen(
        &[
            ("1", ImageDimension::D1),
            ("2", ImageDimension::D2),
            ("3", ImageDimension::D3),
            ("cube", ImageDimension::Cube),
        ],
        word,
    )
}

/// Sampled values, one or several in each texel.
fn sampled(kind: ScalarKind, multi: bool) -> ImageClass
    ensures { result ≡ ImageClass.Sampled kind multi }
{
    ImageClass::Sampled { kind, multi }
}

/// The class of an image. A storage image has the format `R8Unorm` and all accesses.
pub fn class(word: &[u8]) -> Option<ImageClass>
    ensures { result ≡ chosen classes word.now }
{
    let format = StorageFormat::R8Unorm;
    let access = StorageAccess {
        load: true,
        store: true,
        atomic: true,
    };
    chosen(
        &[
            ("float", sampled(ScalarKind::Float, false)),
            ("floatms", sampled(ScalarKind::Float, true)),
            ("sint", sampled(ScalarKind::Sint, false)),
            ("uint", sampled(ScalarKind::Uint, false)),
            ("depth", ImageClass::Depth { multi: false }),
            ("depthms", ImageClass::Depth { multi: true }),
            ("storage", ImageClass::Storage { format, access }),
            ("external", ImageClass::External),
        ],
        word,
    )
}

fn count_at(n: u32) -> Option<NonZeroU32>
    ensures { result ≡ count_at n }
{
    NonZeroU32::new(n)
}

fn count(word: &[u8]) -> Option<NonZeroU32>
    ensures { result ≡ count_of word.now }
{
    count_at(number(word)?)
}

/// The number of elements of an array: a count, the letter `o` and an override, or `dyn`.
pub fn array_size(word: &[u8]) -> Option<ArraySize>
    ensures { result ≡ array_size_of word.now }
{
    match word {
        _ if equals(word, b"dyn") => Some(ArraySize::Dynamic),
        [b'o', digits @ ..] => Some(ArraySize::Pending(handle(digits)?)),
        _ => Some(ArraySize::Constant(count(word)?)),
    }
}

/// An operator on one value.
pub fn unary_operator(word: &[u8]) -> Option<UnaryOperator>
    ensures { result ≡ chosen unary_operators word.now }
{
    chosen(
        &[
            ("negate", UnaryOperator::Negate),
            ("not", UnaryOperator::LogicalNot),
            ("bitnot", UnaryOperator::BitwiseNot),
        ],
        word,
    )
}

/// An operator on two values.
pub fn binary_operator(word: &[u8]) -> Option<BinaryOperator>
    ensures { result ≡ chosen binary_operators word.now }
{
    chosen(
        &[
            ("add", BinaryOperator::Add),
            ("sub", BinaryOperator::Subtract),
            ("mul", BinaryOperator::Multiply),
            ("div", BinaryOperator::Divide),
            ("mod", BinaryOperator::Modulo),
            ("eq", BinaryOperator::Equal),
            ("ne", BinaryOperator::NotEqual),
            ("lt", BinaryOperator::Less),
            ("le", BinaryOperator::LessEqual),
            ("gt", BinaryOperator::Greater),
            ("ge", BinaryOperator::GreaterEqual),
            ("and", BinaryOperator::And),
            ("or", BinaryOperator::InclusiveOr),
            ("xor", BinaryOperator::ExclusiveOr),
            ("land", BinaryOperator::LogicalAnd),
            ("lor", BinaryOperator::LogicalOr),
            ("shl", BinaryOperator::ShiftLeft),
            ("shr", BinaryOperator::ShiftRight),
        ],
        word,
    )
}
