//! Validates the shader module that standard input describes, and writes the verdict to standard
//! output. It takes no argument.
#![tactic(auto)]

use naga_report::counted::Counted;
use naga_report::run::{run, status};
use std::env::FillError;
use std::io;
use std::process::ExitCode;
use std::rt::Env;

/// The exit status of wrong usage, after those of a run.
const WRONG_USAGE: u8 = 4;

/// Whether the program was given an argument besides its name.
fn has_argument(rt: &impl Env) -> bool {
    // No argument is copied, so this takes no memory.
    !matches!(rt.arg(1, &mut []), Err(FillError::NotPresent))
}

fn main(rt: HostRuntime) -> ExitCode {
    if has_argument(&rt) {
        // The status says it too, so a line that can't be written changes nothing.
        let _ = rt.eprintln("naga_check takes no argument: usage: naga_check <FILE");
        return ExitCode::from(WRONG_USAGE);
    }
    let mut reader = Counted::new(rt.reader());
    let mut writer = Counted::new(io::writer(&rt));
    ExitCode::from(status(&run(rt.alloc(), &mut reader, &mut writer)))
}
