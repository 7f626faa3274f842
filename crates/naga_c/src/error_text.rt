//! The call for the text of an error.

ghost use Rattle.naga_c.specs.ErrorText.{error_text, told_refusal};
ghost use Rattle.naga_error_text.specs.Writing.{overwritten};
ghost use Rattle.std.specs.Prelude.{◌≡◌, length};

use crate::results::Outcome;
use naga_error_text::pieces::Values;
use naga_error_text::texts::{Refusal, write_refusal};

/// The refusal that an outcome tells.
fn told_refusal(outcome: &Outcome) -> Refusal
    ensures { result ≡ told_refusal outcome.now }
{
    let [first, second, third, fourth, fifth] = outcome.values;
    Refusal {
        stage: outcome.stage,
        errors: outcome.errors,
        values: Values {
            first,
            second,
            third,
            fourth,
            fifth,
            index: outcome.index,
            expression: u64::from(outcome.expression),
            kind: u64::from(outcome.kind),
        },
    }
}

/// Writes the text of the refusal that an outcome tells, as far as the buffer reaches, and returns the length of the
/// whole text. There is none if the outcome tells of no refusal.
#[unsafe(no_mangle)]
pub extern "C" fn naga_check_error_text_with(outcome: &Outcome, buffer: &mut [u8]) -> usize
    ensures length { result ≡ length (error_text outcome.now) }
    ensures bytes { buffer.new ≡ overwritten (error_text outcome.now) buffer.old }
{
    write_refusal(buffer, told_refusal(outcome))
}
