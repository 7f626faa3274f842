//! A call, and the same call again if the first was refused memory.

ghost use Rattle.std.specs.Prelude.{IsTrue, OnOk};

/// Whether memory was refused so far.
#[derive(Drop, Default)]
pub struct Memory {
    pub refused: bool,
}

/// What is wrong with a result, as a line of text.
#[derive(Drop)]
pub struct Wrong(pub &'static str);

/// Returns an error if a result isn't right.
pub fn check(right: bool, what: &'static str) -> Result<(), Wrong>
    ensures { OnOk result (IsTrue right) }
{
    if right { Ok(()) } else { Err(Wrong(what)) }
}

/// Calls again if the first call is refused memory. One request is refused in a run, so the second call has to succeed.
pub fn again<T, E, F>(memory: &mut Memory, mut call: F) -> Result<T, Wrong>
where
    T: Drop,
    E: Drop,
    F: FnMut() -> Result<T, E>,
    requires { F.IsAlwaysCallable call }
{
    if let Ok(value) = call() {
        return Ok(value);
    }
    memory.refused = true;
    match call() {
        Ok(value) => Ok(value),
        Err(_) => Err(Wrong("a call after one that was refused memory fails\n")),
    }
}
