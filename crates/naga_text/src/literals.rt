//! Literals, each in two words: its type and its value.

ghost use Rattle.naga_text.specs.ExpressionReaders.{literal_of};
ghost use Rattle.std.specs.Prelude.{◌≡◌};

use crate::number::{integer_up_to, number, number_up_to};
use crate::words::equals;
use naga_ir::expression::Literal;

/// The literal of a type and a value. The value of a floating-point number is its bits.
pub fn literal(ty: &[u8], value: &[u8]) -> Option<Literal>
    ensures { result ≡ literal_of ty.now value.now }
{
    match ty {
        _ if equals(ty, b"i16") => Some(Literal::I16(
            integer_up_to(value, i16::MAX as u64)? as i16,
        )),
        _ if equals(ty, b"u16") => Some(Literal::U16(number_up_to(value, u16::MAX as u64)? as u16)),
        _ if equals(ty, b"i32") => Some(Literal::I32(
            integer_up_to(value, i32::MAX as u64)? as i32,
        )),
        _ if equals(ty, b"u32") => Some(Literal::U32(number(value)?)),
        _ if equals(ty, b"i64") => Some(Literal::I64(
            integer_up_to(value, i64::MAX as u64)? as i64,
        )),
        _ if equals(ty, b"u64") => Some(Literal::U64(number_up_to(value, u64::MAX)?)),
        _ if equals(ty, b"f16") => Some(Literal::F16(number_up_to(value, u16::MAX as u64)? as u16)),
        _ if equals(ty, b"f32") => Some(Literal::F32(number(value)?)),
        _ if equals(ty, b"f64") => Some(Literal::F64(number_up_to(value, u64::MAX)?)),
        _ if equals(ty, b"bool") => Some(Literal::Bool(number_up_to(value, 1)? == 1)),
        _ if equals(ty, b"aint") => Some(Literal::AbstractInt(
            integer_up_to(value, i64::MAX as u64)? as i64,
        )),
        _ if equals(ty, b"afloat") => Some(Literal::AbstractFloat(number_up_to(value, u64::MAX)?)),
        _ => None,
    }
}
