//! What stands at a number, counted from 1.

ghost use Rattle.naga_error_text.specs.Numbers.{numbered};
ghost use Rattle.std.specs.Prelude.{◌≡◌};

/// What has this number, if the numbers of all begin at 1.
pub(crate) fn numbered<T: Copy>(all: &[T], number: u32) -> Option<T>
    ensures { result ≡ numbered all.now number }
{
    let index = number.checked_sub(1)?;
    all.get(index as usize).copied()
}
