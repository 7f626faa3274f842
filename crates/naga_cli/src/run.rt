//! Reads files, and writes what is found of their modules.

ghost use Rattle.std.specs.Prelude.{◌≡◌, length};
ghost use Rattle.naga_ir.specs.Handles.{GlobalReferencesOk};
ghost use Rattle.naga_ir.specs.ItemReferences.{global_lists};
ghost use Rattle.naga_cli.specs.declared.run.Fault.TheVariants as fault;

use crate::arguments::{Command, Options, Subcommand, UsageError, command_of, subcommand_of};
use crate::checking::{Checked, check};
use crate::layout::LayoutOf;
use crate::layout_objects::{ObjectPlace, layout_object_of};
use crate::layouts::{first_unknown, layouts};
use crate::tables::table_of;
use crate::usage::{VERSION, usage_of};
use crate::written::{Written, written_of};
use naga_source::reading::{Read, Subject, read_larger, read_lines};
use naga_source::source::{TextKind, kind_of, lines_of, sources_of};
use naga_valid::{FullTyping, Module, OutOfMemory, Validator};
use naga_verdict::verdict::{Finding, Reason, ReasonAt, Unreadable, Verdict, status_of};
use std::alloc::{AllocError, Global};
use std::rt::{Env, Files};
use std::{env, fs, io};

/// The exit status of a fault of input, output or memory.
const FAULT: u8 = 3;

/// The exit status of wrong usage.
const WRONG_USAGE: u8 = 4;

/// What went wrong besides what is found of modules.
#[derive(Clone, Copy, Debug, PartialEq)]
enum Fault {
    OutOfMemory,
    /// Output can't be written.
    Write,
}

impl From<AllocError> for Fault {
    ghost from_gives = { λ _ e. e ≡ fault.OutOfMemory };

    fn from(_: AllocError) -> Fault {
        Fault::OutOfMemory
    }
}

impl From<OutOfMemory> for Fault {
    ghost from_gives = { λ _ e. e ≡ fault.OutOfMemory };

    fn from(_: OutOfMemory) -> Fault {
        Fault::OutOfMemory
    }
}

impl From<io::Error> for Fault {
    ghost from_gives = { λ _ e. e ≡ fault.Write };

    fn from(_: io::Error) -> Fault {
        Fault::Write
    }
}

/// The bytes of a file, or of standard input for `-`.
fn bytes_of(rt: &(impl AllocGlobal + Files + Input), name: &str) -> io::Result<Vec<u8>> {
    if name != "-" {
        return fs::read(rt, name);
    }
    let mut bytes = Vec::new(rt.alloc());
    io::Read::read_to_end(&mut rt.reader(), &mut bytes)?;
    Ok(bytes)
}

/// Whether a module has no item.
fn is_empty(module: &Module) -> bool {
    module.types.is_empty()
        && module.global_expressions.is_empty()
        && module.constants.is_empty()
        && module.overrides.is_empty()
        && module.global_variables.is_empty()
        && module.functions.is_empty()
        && module.entry_points.is_empty()
}

/// What is done with a file.
#[derive(Clone, Copy)]
struct Job<'a> {
    options: Options,
    file: &'a str,
    /// The types whose layouts are shown, if layouts are.
    layouts: Option<&'a [String]>,
}

/// Writes what is found of a module, and returns its status.
fn write(
    rt: &(impl AllocGlobal + Print + Eprint),
    options: Options,
    finding: &Finding,
) -> Result<u8, Fault> {
    match written_of(rt.alloc(), options, finding)? {
        Written::Nothing => (),
        Written::Output(text) => rt.print(text.as_str())?,
        Written::Error(text) => rt.eprint(text.as_str())?,
    }
    Ok(status_of(&finding.verdict))
}

/// Writes a verdict on a file or on one of its cases, and returns its status.
fn write_verdict(
    rt: &(impl AllocGlobal + Print + Eprint),
    job: Job<'_>,
    case: Option<&str>,
    verdict: Verdict,
) -> Result<u8, Fault> {
    let finding = Finding {
        file: job.file,
        case,
        verdict,
    };
    write(rt, job.options, &finding)
}

/// Writes the layouts of types.
fn write_layouts(
    rt: &(impl AllocGlobal + Print),
    job: Job<'_>,
    case: Option<&str>,
    layouts: &[LayoutOf],
) -> Result<(), Fault> {
    if let Some(title) = case
        && !job.options.json
        && !layouts.is_empty()
    {
        print!(rt; "case {title}\n")?;
    }
    for layout in layouts {
        if job.options.json {
            let place = ObjectPlace {
                file: job.file,
                case,
            };
            rt.print(layout_object_of(rt.alloc(), place, layout)?.as_str())?;
        } else {
            rt.print(table_of(rt.alloc(), layout)?.as_str())?;
        }
    }
    Ok(())
}

/// Shows the layouts of an accepted module.
fn show_layouts(
    rt: &(impl AllocGlobal + Print + Eprint),
    job: Job<'_>,
    case: Option<&str>,
    accepted: (&Subject, &Validator<FullTyping>),
    names: &[String],
) -> Result<u8, Fault>
    requires references { GlobalReferencesOk (global_lists accepted.0.now.«module») }
    requires infos { length accepted.1.now.infos ≡ length accepted.0.now.«module».types }
{
    let (subject, validator) = accepted;
    if let Some(name) = first_unknown(subject, names) {
        let file = job.file;
        eprint!(rt; "{file}: no type goes by the name {name}\n")?;
        return Ok(WRONG_USAGE);
    }
    let all = layouts(rt.alloc(), subject, validator, names, job.options.shown)?;
    write_layouts(rt, job, case, &all)?;
    Ok(0)
}

/// Does with a module what is asked for.
fn do_with_subject(
    rt: &(impl AllocGlobal + Print + Eprint),
    job: Job<'_>,
    case: Option<&str>,
    subject: &Subject,
) -> Result<u8, Fault> {
    let alloc = rt.alloc();
    if is_empty(&subject.module) && !job.options.json {
        let file = job.file;
        eprint!(rt; "{file}: it describes no item\n")?;
    }
    match (check(alloc, subject, job.options.coverage)?, job.layouts) {
        (Checked::Refused(refusal), _) => {
            write_verdict(rt, job, case, Verdict::Refused(refusal))
        }
        (Checked::Accepted(validator), Some(names)) => {
            show_layouts(rt, job, case, (subject, &validator), names)
        }
        (Checked::Accepted(_), None) => write_verdict(rt, job, case, Verdict::Accepted),
    }
}

/// Does with what was read what is asked for.
fn do_with(
    rt: &(impl AllocGlobal + Print + Eprint),
    job: Job<'_>,
    case: Option<&str>,
    read: Read,
) -> Result<u8, Fault> {
    match read {
        Read::Readable(subject) => do_with_subject(rt, job, case, &subject),
        Read::Unreadable(why) => write_verdict(rt, job, case, Verdict::Unreadable(why)),
    }
}

/// Does with a file in the line text what is asked for.
fn do_with_line_text(
    rt: &(impl AllocGlobal + Print + Eprint),
    job: Job<'_>,
    bytes: &[u8],
) -> Result<u8, Fault> {
    let alloc = rt.alloc();
    let lines = lines_of(alloc, bytes)?;
    let read = read_lines(alloc, job.options.asked, &lines, bytes)?;
    do_with(rt, job, None, read)
}

/// Where bytes stop being UTF-8.
fn not_utf8(bytes: &[u8], valid: usize) -> Unreadable {
    let before = bytes.get(..valid).unwrap_or(bytes);
    let mut line = 1usize;
    let mut column = 1usize;
    for byte in before {
        column = column.saturating_add(1);
        if *byte == b'\n' {
            line = line.saturating_add(1);
            column = 1;
        }
    }
    Unreadable {
        line,
        why: ReasonAt {
            reason: Reason::NotUtf8,
            column,
        },
    }
}

/// Does with a file in the larger text what is asked for, case by case.
fn do_with_larger_text(
    rt: &(impl AllocGlobal + Print + Eprint),
    job: Job<'_>,
    bytes: &[u8],
) -> Result<u8, Fault> {
    let alloc = rt.alloc();
    let text = match str::from_utf8(bytes) {
        Ok(text) => text,
        Err(error) => {
            let unreadable = not_utf8(bytes, error.valid_up_to());
            return write_verdict(rt, job, None, Verdict::Unreadable(unreadable));
        }
    };
    let mut status = 0;
    for source in &sources_of(alloc, text)? {
        let read = read_larger(alloc, job.options.asked, &source.lines)?;
        status = do_with(rt, job, source.title, read)?.max(status);
    }
    Ok(status)
}

/// Does with a file what is asked for.
fn do_with_file(
    rt: &(impl AllocGlobal + Files + Input + Print + Eprint),
    job: Job<'_>,
) -> Result<u8, Fault> {
    let bytes = match bytes_of(rt, job.file) {
        Ok(bytes) => bytes,
        Err(error) => {
            let why = error.to_string(rt.alloc())?;
            return write_verdict(rt, job, None, Verdict::Failed(why));
        }
    };
    match job.options.text.unwrap_or(kind_of(&bytes)) {
        TextKind::Line => do_with_line_text(rt, job, &bytes),
        TextKind::Larger => do_with_larger_text(rt, job, &bytes),
    }
}

/// Checks files, and returns the greatest status.
fn check_files(
    rt: &(impl AllocGlobal + Files + Input + Print + Eprint),
    options: Options,
    files: &[String],
) -> Result<u8, Fault> {
    let mut status = 0;
    for file in files {
        let job = Job {
            options,
            file: file.as_str(),
            layouts: None,
        };
        status = do_with_file(rt, job)?.max(status);
    }
    Ok(status)
}

/// Follows a command line.
fn follow(
    rt: &(impl AllocGlobal + Files + Input + Print + Eprint),
    command: &Command,
) -> Result<u8, Fault> {
    match command {
        Command::Check { options, files } => check_files(rt, *options, files),
        Command::Layout {
            options,
            file,
            names,
        } => {
            let job = Job {
                options: *options,
                file: file.as_str(),
                layouts: Some(names.as_slice()),
            };
            do_with_file(rt, job)
        }
        Command::Help(Some(subcommand)) => {
            rt.print(usage_of(*subcommand))?;
            Ok(0)
        }
        Command::Help(None) => {
            rt.print(usage_of(Subcommand::Check))?;
            rt.print("\n")?;
            rt.print(usage_of(Subcommand::Layout))?;
            Ok(0)
        }
        Command::Version => {
            rt.print(VERSION)?;
            Ok(0)
        }
    }
}

/// Says why a command line can't be followed and how the command is called, and returns the status.
fn refuse(rt: &impl Eprint, words: &[String], error: &UsageError) -> u8 {
    let subcommand = words.first().and_then(|word| subcommand_of(word.as_str()));
    let call = match subcommand {
        Some(subcommand) => usage_of(subcommand).lines().next().unwrap_or(""),
        None => "usage: check [OPTIONS] FILE.. or layout [OPTIONS] FILE [NAME..]",
    };
    // The status says it too, so lines that can't be written change nothing.
    let _ = eprint!(rt; "{error}\n{call}; --help says more\n");
    match error {
        UsageError::OutOfMemory => FAULT,
        _ => WRONG_USAGE,
    }
}

/// Runs the program, and returns its exit status.
pub fn run(rt: &(impl AllocGlobal + Env + Files + Input + Print + Eprint)) -> u8 {
    let alloc = rt.alloc();
    let arguments = match env::args(rt) {
        Ok(arguments) => arguments,
        Err(error) if error.kind() == io::ErrorKind::InvalidData => {
            let _ = rt.eprint("an argument is not UTF-8\n");
            return WRONG_USAGE;
        }
        Err(_) => return FAULT,
    };
    let words: Vec<String> = match arguments.skip(1).collect(alloc) {
        Ok(words) => words,
        Err(_) => return FAULT,
    };
    match command_of(alloc, &words) {
        Ok(command) => follow(rt, &command).unwrap_or(FAULT),
        Err(error) => refuse(rt, &words, &error),
    }
}
