//! Answers queries about shader modules.
//!
//! Without arguments it is a filter: it writes the file on standard input back, with the result of each
//! query as it is now. With the names of files it checks that the results in them are right, writes what
//! differs, and then `N passed, M failed`. With `--verify` it writes only what differs, of files or of standard input,
//! with `--words` the modules as words, and with `--text` the modules of words. Other options set how modules are
//! validated, beside the settings in the files.
#![tactic(auto)]

mod answers;
mod asker;
mod callable;
mod case_file;
mod convert;
mod options;
mod query;
mod session;

use crate::case_file::{Answered, answer_file};
use crate::convert::{ConvertError, text_of_file, words_of_file};
use crate::options::{Job, Options, USAGE};
use anyhow::{Context, Result};
use naga_module_text::settings::Settings;
use std::io::Read;
use std::process::ExitCode;
use std::rt::{Env, Files};
use std::{env, fs, io};

/// The exit status of a file with another result than it should have, or of words that the larger text can't say.
const DIFFERENT: u8 = 1;

/// The exit status of a file that can't be read as what it should be.
const UNREADABLE: u8 = 2;

/// The exit status if reading, writing or memory fails, with an option for what is written.
const FAULT: u8 = 3;

/// The exit status of wrong usage.
const WRONG_USAGE: u8 = 4;

/// The numbers of queries whose results are right, and of all others.
#[derive(Clone, Copy, Default)]
struct Totals {
    passed: usize,
    failed: usize,
}

/// Answers the queries on standard input.
fn answer_input(rt: &(impl AllocGlobal + Input), host: Settings) -> Result<Answered> {
    let text = io::read_to_string(rt.alloc(), rt.reader())?;
    Ok(answer_file(rt.alloc(), text.as_str(), host)?)
}

/// Answers the queries of a file.
fn answer_named(rt: &(impl AllocGlobal + Files), name: &str, host: Settings) -> Result<Answered> {
    let text = fs::read_to_string(rt, name).context(format_args!("reading {name}"))?;
    Ok(answer_file(rt.alloc(), text.as_str(), host)?)
}

/// Writes standard input back, with the result of each query.
fn filter(rt: &(impl AllocGlobal + Input + Print), host: Settings) -> Result<()> {
    let answered = answer_input(rt, host)?;
    rt.print(answered.text.as_str())?;
    Ok(())
}

/// Checks a file, and writes what differs in it.
fn check_file(
    rt: &(impl AllocGlobal + Files + Print),
    name: &str,
    host: Settings,
) -> Result<Totals> {
    let answered = answer_named(rt, name, host)?;
    let differences = answered.differences.as_str();
    if !differences.is_empty() {
        println!(rt; "{name} differs at\n{differences}")?;
    }
    if answered.asks_nothing() {
        println!(rt; "{name} asks nothing")?;
        return Ok(Totals {
            passed: 0,
            failed: 1,
        });
    }
    Ok(Totals {
        passed: answered.passed,
        failed: answered.failed,
    })
}

/// Checks files, and writes how many results are right and how many aren't.
fn check_files(rt: &(impl AllocGlobal + Files + Print), options: &Options) -> Result<ExitCode> {
    let mut passed = 0usize;
    let mut failed = 0usize;
    for name in &options.names {
        let totals = check_file(rt, name.as_str(), options.host)?;
        passed = passed.saturating_add(totals.passed);
        failed = failed.saturating_add(totals.failed);
    }
    println!(rt; "{passed} passed, {failed} failed")?;
    Ok(if failed == 0 {
        ExitCode::SUCCESS
    } else {
        ExitCode::FAILURE
    })
}

/// Writes what can't be read of a file and what differs in it, and returns its exit status.
fn verify(rt: &impl Print, name: &str, answered: &Answered) -> Result<u8> {
    let unreadable = answered.unreadable.as_str();
    let differences = answered.differences.as_str();
    if answered.asks_nothing() {
        println!(rt; "{name} asks nothing")?;
    } else if !unreadable.is_empty() || !differences.is_empty() {
        println!(rt; "{name} differs at")?;
    }
    rt.print(unreadable)?;
    rt.print(differences)?;
    Ok(if !unreadable.is_empty() {
        UNREADABLE
    } else if !differences.is_empty() || answered.asks_nothing() {
        DIFFERENT
    } else {
        0
    })
}

/// Writes what differs in files, or in standard input if none is named, and returns the greatest of the exit statuses.
fn verify_all(rt: &(impl AllocGlobal + Input + Files + Print), options: &Options) -> Result<u8> {
    if options.names.is_empty() {
        return verify(rt, "standard input", &answer_input(rt, options.host)?);
    }
    let mut status = 0;
    for name in &options.names {
        let answered = answer_named(rt, name.as_str(), options.host)?;
        status = status.max(verify(rt, name.as_str(), &answered)?);
    }
    Ok(status)
}

/// The exit status of what was not converted.
fn status_of(error: &ConvertError) -> u8 {
    match error {
        ConvertError::NoText(_) => DIFFERENT,
        ConvertError::Line(_)
        | ConvertError::Word(_)
        | ConvertError::Bytes
        | ConvertError::Utf8
        | ConvertError::NoWords => UNREADABLE,
        ConvertError::OutOfMemory => FAULT,
    }
}

/// Writes the words of the modules of bytes, or the modules of words, and returns the exit status.
fn convert_bytes(
    rt: &(impl AllocGlobal + Print + Eprint),
    name: &str,
    job: Job,
    bytes: &[u8],
) -> Result<u8> {
    let alloc = rt.alloc();
    let converted = match (job, str::from_utf8(bytes)) {
        (Job::Text, _) => text_of_file(alloc, bytes),
        (_, Ok(text)) => words_of_file(alloc, text),
        (_, Err(_)) => Err(ConvertError::Utf8),
    };
    match converted {
        Ok(text) => {
            rt.print(text.as_str())?;
            Ok(0)
        }
        Err(error) => {
            eprintln!(rt; "{name}: {error}")?;
            Ok(status_of(&error))
        }
    }
}

/// Converts files, or standard input if none is named, and returns the greatest of the exit statuses.
fn convert_all(
    rt: &(impl AllocGlobal + Input + Files + Print + Eprint),
    options: &Options,
) -> Result<u8> {
    if options.names.is_empty() {
        let mut bytes = Vec::new(rt.alloc());
        rt.reader().read_to_end(&mut bytes)?;
        return convert_bytes(rt, "standard input", options.job, &bytes);
    }
    let mut status = 0;
    for name in &options.names {
        let bytes = fs::read(rt, name.as_str()).context(format_args!("reading {name}"))?;
        status = status.max(convert_bytes(rt, name.as_str(), options.job, &bytes)?);
    }
    Ok(status)
}

/// Answers the queries of standard input, or checks the files that are named.
fn answer(rt: &(impl AllocGlobal + Input + Files + Print), options: &Options) -> Result<ExitCode> {
    if options.names.is_empty() {
        filter(rt, options.host)?;
        return Ok(ExitCode::SUCCESS);
    }
    check_files(rt, options)
}

fn main(rt: HostRuntime) -> Result<ExitCode> {
    let arguments: Vec<String> = env::args(&rt)?.skip(1).collect(rt.alloc())?;
    let Some(options) = Options::of(rt.alloc(), &arguments)? else {
        // As below, a line that can't be written changes nothing.
        let _ = rt.eprintln(USAGE);
        return Ok(ExitCode::from(WRONG_USAGE));
    };
    let status = match options.job {
        Job::Answer => return answer(&rt, &options),
        Job::Verify => verify_all(&rt, &options),
        Job::Words | Job::Text => convert_all(&rt, &options),
    };
    match status {
        Ok(status) => Ok(ExitCode::from(status)),
        Err(error) => {
            // The status says it too, so a line that can't be written changes nothing.
            let _ = eprintln!(rt; "Error: {error:?}");
            Ok(ExitCode::from(FAULT))
        }
    }
}
