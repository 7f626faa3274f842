//! The arguments of the program.

use naga_module_text::settings::{Settings, capabilities_of, flags_of};
use std::alloc::{AllocError, Global};

/// How the program is used.
pub const USAGE: &str =
    "usage: naga_query [--capabilities C] [--flags F] [--resolved] [--verify | --words | --text] [FILE..]";

/// What is written.
#[derive(Clone, Copy, PartialEq)]
pub enum Job {
    /// The results of queries.
    Answer,
    /// Only what differs from these results.
    Verify,
    /// The words of modules.
    Words,
    /// The modules of words, in the larger text.
    Text,
}

/// What the next argument is.
#[derive(Clone, Copy, PartialEq)]
enum Expected {
    /// An option, or the name of a file.
    Any,
    /// The operand of `--flags`.
    Flags,
    /// The operand of `--capabilities`.
    Capabilities,
    /// The name of a file, as one stands before it.
    Name,
}

/// What arguments ask for.
#[derive(Drop)]
pub struct Options {
    /// What the host sets, beside the settings of each case.
    pub host: Settings,
    /// What is written.
    pub job: Job,
    /// The files to read, or none for standard input.
    pub names: Vec<String>,
}

impl Options {
    /// Sets what is written, unless an option did before.
    fn set_job(&mut self, job: Job) -> Option<Expected> {
        if self.job != Job::Answer {
            return None;
        }
        self.job = job;
        Some(Expected::Any)
    }

    /// Takes an option, unless it is unknown or stood before, and returns what follows it.
    fn take_option(&mut self, option: &str) -> Option<Expected> {
        match option {
            "--capabilities" if self.host.capabilities.is_none() => Some(Expected::Capabilities),
            "--flags" if self.host.flags.is_none() => Some(Expected::Flags),
            "--resolved" if self.host.resolved.is_none() => {
                self.host.resolved = Some(true);
                Some(Expected::Any)
            }
            "--verify" => self.set_job(Job::Verify),
            "--words" => self.set_job(Job::Words),
            "--text" => self.set_job(Job::Text),
            _ => None,
        }
    }

    /// Takes an option or its operand, if it is right, and returns what follows it.
    fn take(&mut self, expected: Expected, argument: &str) -> Option<Expected> {
        match expected {
            Expected::Flags => {
                self.host.flags = Some(flags_of(argument)?);
                Some(Expected::Any)
            }
            Expected::Capabilities => {
                self.host.capabilities = Some(capabilities_of(argument)?);
                Some(Expected::Any)
            }
            Expected::Any | Expected::Name => self.take_option(argument),
        }
    }

    /// What arguments ask for: options first, and then the names of files. There are none if an option is wrong.
    ///
    /// # Errors
    ///
    /// `AllocError` if a request for memory was refused.
    pub fn of(alloc: Global, arguments: &[String]) -> Result<Option<Options>, AllocError> {
        let mut options = Options {
            host: Settings::default(),
            job: Job::Answer,
            names: Vec::new(alloc),
        };
        let mut expected = Expected::Any;
        for argument in arguments {
            let is_option = argument.starts_with("--");
            if expected == Expected::Name || expected == Expected::Any && !is_option {
                expected = Expected::Name;
                options.names.push(argument.clone()?)?;
                continue;
            }
            match options.take(expected, argument.as_str()) {
                Some(next) => expected = next,
                None => return Ok(None),
            }
        }
        match expected {
            Expected::Any | Expected::Name => Ok(Some(options)),
            Expected::Flags | Expected::Capabilities => Ok(None),
        }
    }
}
