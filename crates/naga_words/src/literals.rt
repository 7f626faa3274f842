//! Literals in words.

ghost use Rattle.naga_words.specs.Numbers.{wide};
ghost use Rattle.naga_words.specs.Operands.{literal_of, narrow_of, short_of};
ghost use Rattle.std.specs.Prelude.{◌≡◌};

use crate::operands::boolean;
use naga_ir::expression::Literal;

/// A number of 16 bits, in two words.
fn narrow(low: u32, high: u32) -> Option<u16>
    ensures { result ≡ narrow_of low high }
{
    if high == 0 {
        u16::try_from(low).ok()
    } else {
        None
    }
}

/// A number of 32 bits, in two words.
fn short(low: u32, high: u32) -> Option<u32>
    ensures { result ≡ short_of low high }
{
    if high == 0 { Some(low) } else { None }
}

/// A number of 64 bits, in two words.
pub(crate) fn wide(low: u32, high: u32) -> u64
    ensures { result ≡ wide low high }
{
    u64::from(high) * 4294967296 + u64::from(low)
}

/// The literal of a form and of the two words of its value.
pub(crate) fn literal(form: u32, low: u32, high: u32) -> Option<Literal>
    ensures { result ≡ literal_of form low high }
{
    match form {
        0 => Some(Literal::F64(wide(low, high))),
        1 => Some(Literal::F32(short(low, high)?)),
        2 => Some(Literal::F16(narrow(low, high)?)),
        3 => Some(Literal::U16(narrow(low, high)?)),
        4 => Some(Literal::I16(narrow(low, high)?.cast_signed())),
        5 => Some(Literal::U32(short(low, high)?)),
        6 => Some(Literal::I32(short(low, high)?.cast_signed())),
        7 => Some(Literal::U64(wide(low, high))),
        8 => Some(Literal::I64(wide(low, high).cast_signed())),
        9 => Some(Literal::Bool(boolean(short(low, high)?)?)),
        10 => Some(Literal::AbstractInt(wide(low, high).cast_signed())),
        11 => Some(Literal::AbstractFloat(wide(low, high))),
        _ => None,
    }
}
