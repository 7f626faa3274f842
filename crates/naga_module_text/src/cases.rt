//! The words that say when a case of a `switch` is executed.

ghost use Rattle.naga_module_text.specs.Words.{switch_value_of};
ghost use Rattle.std.specs.Prelude.{◌≡◌};

use naga_draft::item::CaseHead;
use naga_ir::statement::SwitchValue;
use naga_text::number::{integer_up_to, number};
use naga_text::words::equals;

/// `default`, a number, or `i` and a number or its negative
fn switch_value(word: &[u8]) -> Option<SwitchValue>
    ensures { result ≡ switch_value_of word.now }
{
    match word {
        _ if equals(word, b"default") => Some(SwitchValue::Default),
        [b'i', digits @ ..] => Some(SwitchValue::I32(
            integer_up_to(digits, i32::MAX as u64)? as i32,
        )),
        _ => Some(SwitchValue::U32(number(word)?)),
    }
}

/// A value, or none for `-`.
fn optional_value(word: &[u8]) -> Option<Option<SwitchValue>> {
    if equals(word, b"-") {
        return Some(None);
    }
    Some(Some(switch_value(word)?))
}

/// `[VALUE|- [falls]]`
pub fn case_head(words: &[&[u8]]) -> Option<CaseHead> {
    let (value, fall_through) = match words {
        [] => (None, false),
        [value] => (optional_value(value)?, false),
        [value, falls] if equals(falls, b"falls") => (optional_value(value)?, true),
        _ => return None,
    };
    Some(CaseHead {
        value,
        fall_through,
    })
}
