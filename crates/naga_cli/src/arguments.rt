//! What the words of a command line ask for.

ghost use Rattle.naga_cli.specs.declared.arguments.UsageError.TheVariants as usage;
ghost use Rattle.std.specs.Prelude.{◌≡◌};

use naga_module_text::settings::{Settings, capabilities_of, flags_of};
use naga_source::source::TextKind;
use naga_text::number::number;
use std::alloc::{AllocError, AllocFailed, Global};
use std::fmt;

/// What is printed of each type by `layout`.
#[derive(Clone, Copy, Debug, PartialEq)]
pub struct Shown {
    /// Whether the slots of immediate data are shown.
    pub slots: bool,
    /// How many elements runtime-sized arrays have.
    pub length: u32,
}

/// How much of a module is validated.
#[derive(Clone, Copy, Debug, PartialEq)]
pub enum Coverage {
    /// Its handles, types and values, and the expressions of its functions and entry points.
    Values,
    /// Also its variables, and what its functions and entry points declare.
    Declarations,
}

/// How files are read and validated, and how results are written.
#[derive(Clone, Copy, Debug, PartialEq)]
pub struct Options {
    /// Whether nothing is printed on accepted modules.
    pub quiet: bool,
    /// Whether objects of JSON are printed.
    pub json: bool,
    /// The text that the files are in, if it is named.
    pub text: Option<TextKind>,
    /// What is set beside the settings in the files.
    pub asked: Settings,
    pub coverage: Coverage,
    pub shown: Shown,
}

/// What a command line asks for.
#[derive(Debug, Drop)]
pub enum Command {
    /// Whether the modules of files are accepted.
    Check {
        options: Options,
        files: Vec<String>,
    },
    /// The layouts of all structs of a file, or of the types with these names.
    Layout {
        options: Options,
        file: String,
        names: Vec<String>,
    },
    /// How a command is called, or how both are.
    Help(Option<Subcommand>),
    /// Which version this is.
    Version,
}

/// The first word of a command line.
#[derive(Clone, Copy, Debug, PartialEq)]
pub enum Subcommand {
    Check,
    Layout,
}

/// Why a command line can't be followed.
#[derive(Debug, Drop)]
pub enum UsageError {
    /// The first word is no command.
    NoCommand,
    /// There is no such option.
    UnknownOption(String),
    /// Nothing stands behind an option that needs a value.
    NoValue(String),
    /// An option can't have this value.
    BadValue { option: String, value: String },
    /// An option that takes no value has one.
    NeedlessValue(String),
    /// No file is named.
    NoFile,
    /// A request for memory was refused.
    OutOfMemory,
}

impl From<AllocError> for UsageError {
    ghost from_gives = { λ _ e. e ≡ usage.OutOfMemory };

    fn from(_: AllocError) -> UsageError {
        UsageError::OutOfMemory
    }
}

impl<T: Drop> From<AllocFailed<T>> for UsageError {
    ghost from_gives = { λ _ e. e ≡ usage.OutOfMemory };

    fn from(_: AllocFailed<T>) -> UsageError {
        UsageError::OutOfMemory
    }
}

impl fmt::Display for UsageError {
    fn fmt<W: fmt::Write>(&self, f: &mut fmt::Formatter<W>) -> fmt::Result {
        match self {
            UsageError::NoCommand => f.write_str("the first word has to be check or layout"),
            UsageError::UnknownOption(option) => write!(f, "there is no option {option}"),
            UsageError::NoValue(option) => write!(f, "{option} needs a value"),
            UsageError::BadValue { option, value } => {
                write!(f, "{option} can't have the value '{value}'")
            }
            UsageError::NeedlessValue(option) => write!(f, "{option} takes no value"),
            UsageError::NoFile => f.write_str("no file is named"),
            UsageError::OutOfMemory => f.write_str("out of memory"),
        }
    }
}

/// An option by its name.
#[derive(Clone, Copy)]
enum Name {
    Quiet,
    Json,
    Text,
    Flags,
    Capabilities,
    Resolved,
    Values,
    Slots,
    Length,
    Help,
    Version,
}

/// The option that a word names, if the command has it.
fn name_of(subcommand: Subcommand, word: &str) -> Option<Name> {
    let names = [
        ("-q", Name::Quiet),
        ("--quiet", Name::Quiet),
        ("--json", Name::Json),
        ("--text", Name::Text),
        ("--flags", Name::Flags),
        ("--capabilities", Name::Capabilities),
        ("--resolved", Name::Resolved),
        ("--values", Name::Values),
        ("--slots", Name::Slots),
        ("--length", Name::Length),
        ("-h", Name::Help),
        ("--help", Name::Help),
        ("-V", Name::Version),
        ("--version", Name::Version),
    ];
    let name = naga_text::words::chosen(&names, word.as_bytes())?;
    match (name, subcommand) {
        (Name::Quiet | Name::Values, Subcommand::Layout) => None,
        (Name::Slots | Name::Length, Subcommand::Check) => None,
        _ => Some(name),
    }
}

/// Whether an option has a value.
fn has_value(name: Name) -> bool {
    match name {
        Name::Text | Name::Flags | Name::Capabilities | Name::Length => true,
        Name::Quiet
        | Name::Json
        | Name::Resolved
        | Name::Values
        | Name::Slots
        | Name::Help
        | Name::Version => false,
    }
}

/// The text of a word.
fn text_of(word: &str) -> Option<TextKind> {
    match word {
        "line" => Some(TextKind::Line),
        "larger" => Some(TextKind::Larger),
        _ => None,
    }
}

/// The option of a word and the value behind `=`, if there is one.
fn option_and_value(word: &str) -> (&str, Option<&str>) {
    match word.split_once('=') {
        Some((option, value)) => (option, Some(value)),
        None => (word, None),
    }
}

/// What the words so far ask for.
#[derive(Drop)]
struct Parsed {
    alloc: Global,
    subcommand: Subcommand,
    options: Options,
    /// Whether help is wanted, or else the version.
    is_help: bool,
    is_version: bool,
    words: Vec<String>,
}

impl Parsed {
    /// Nothing more than a command.
    fn new(alloc: Global, subcommand: Subcommand) -> Parsed {
        Parsed {
            alloc,
            subcommand,
            options: Options {
                quiet: false,
                json: false,
                text: None,
                asked: Settings::default(),
                // Where the parts of a type are in memory depends on no declaration.
                coverage: match subcommand {
                    Subcommand::Check => Coverage::Declarations,
                    Subcommand::Layout => Coverage::Values,
                },
                shown: Shown {
                    slots: false,
                    length: 1,
                },
            },
            is_help: false,
            is_version: false,
            words: Vec::new(alloc),
        }
    }

    /// Sets an option that has no value.
    fn set(&mut self, name: Name) {
        match name {
            Name::Quiet => self.options.quiet = true,
            Name::Json => self.options.json = true,
            Name::Resolved => self.options.asked.resolved = Some(true),
            Name::Values => self.options.coverage = Coverage::Values,
            Name::Slots => self.options.shown.slots = true,
            Name::Help => self.is_help = true,
            Name::Version => self.is_version = true,
            Name::Text | Name::Flags | Name::Capabilities | Name::Length => (),
        }
    }

    /// Gives an option its value, and returns whether it can have that one.
    fn set_value(&mut self, name: Name, value: &str) -> bool {
        match name {
            Name::Text => {
                self.options.text = text_of(value);
                self.options.text.is_some()
            }
            Name::Flags => {
                self.options.asked.flags = flags_of(value);
                self.options.asked.flags.is_some()
            }
            Name::Capabilities => {
                self.options.asked.capabilities = capabilities_of(value);
                self.options.asked.capabilities.is_some()
            }
            Name::Length => match number(value.as_bytes()) {
                Some(length) => {
                    self.options.shown.length = length;
                    true
                }
                None => false,
            },
            _ => false,
        }
    }

    /// Adds an option, whose value may be the next word, and returns whether that word is its value.
    fn add_option(&mut self, word: &str, next: Option<&str>) -> Result<bool, UsageError> {
        let (option, value) = option_and_value(word);
        let Some(name) = name_of(self.subcommand, option) else {
            return Err(UsageError::UnknownOption(String::from_str(self.alloc, word)?));
        };
        if !has_value(name) {
            if value.is_some() {
                return Err(UsageError::NeedlessValue(String::from_str(self.alloc, option)?));
            }
            self.set(name);
            return Ok(false);
        }
        let Some(given) = value.or(next) else {
            return Err(UsageError::NoValue(String::from_str(self.alloc, option)?));
        };
        if !self.set_value(name, given) {
            return Err(UsageError::BadValue {
                option: String::from_str(self.alloc, option)?,
                value: String::from_str(self.alloc, given)?,
            });
        }
        Ok(value.is_none())
    }

    /// Adds words, up to the last.
    fn add_all(&mut self, words: &[String]) -> Result<(), UsageError> {
        let mut is_option = true;
        let mut is_value = false;
        for (place, word) in words.iter().enumerate() {
            let word = word.as_str();
            if is_value {
                is_value = false;
            } else if is_option && word == "--" {
                is_option = false;
            } else if is_option && word != "-" && word.starts_with('-') {
                let next = words.get(place.saturating_add(1));
                is_value = self.add_option(word, next.map(|next| next.as_str()))?;
            } else {
                self.words.push(String::from_str(self.alloc, word)?)?;
            }
        }
        Ok(())
    }

    /// What all words together ask for.
    fn finish(self) -> Result<Command, UsageError> {
        let Parsed {
            subcommand,
            options,
            is_help,
            is_version,
            mut words,
            ..
        } = self;
        if is_help {
            return Ok(Command::Help(Some(subcommand)));
        }
        if is_version {
            return Ok(Command::Version);
        }
        if words.is_empty() {
            return Err(UsageError::NoFile);
        }
        match subcommand {
            Subcommand::Check => Ok(Command::Check {
                options,
                files: words,
            }),
            Subcommand::Layout => {
                let file = words.remove(0);
                Ok(Command::Layout {
                    options,
                    file,
                    names: words,
                })
            }
        }
    }
}

/// The command of a word.
pub fn subcommand_of(word: &str) -> Option<Subcommand> {
    match word {
        "check" => Some(Subcommand::Check),
        "layout" => Some(Subcommand::Layout),
        _ => None,
    }
}

/// What a command line without the program's name asks for, and of which command an error is.
///
/// # Errors
///
/// The first word that can't be followed.
pub fn command_of(alloc: Global, words: &[String]) -> Result<Command, UsageError> {
    let Some((first, rest)) = words.split_first() else {
        return Err(UsageError::NoCommand);
    };
    let Some(subcommand) = subcommand_of(first.as_str()) else {
        return match first.as_str() {
            "-h" | "--help" => Ok(Command::Help(None)),
            "-V" | "--version" => Ok(Command::Version),
            _ => Err(UsageError::NoCommand),
        };
    };
    let mut parsed = Parsed::new(alloc, subcommand);
    parsed.add_all(rest)?;
    parsed.finish()
}
