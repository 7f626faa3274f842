//! What calls return.

ghost use Rattle.naga_c.specs.Statuses.{code, status_of, status_without};
ghost use Rattle.std.specs.Prelude.{◌≡◌};

use crate::subject::NoSubject;
use naga_report::report;

/// What a call returns.
#[derive(Clone, Copy, Debug, PartialEq, Eq)]
pub enum Status {
    /// All is done, and the module keeps the rules that were checked.
    Done,
    /// The module breaks a rule.
    Refused,
    /// The text or the words can't be read.
    Unreadable,
    /// Memory was refused.
    OutOfMemory,
    /// All was accepted, and a buffer is too short for the results.
    Room,
    /// The module has no type of an index that was asked about.
    NoType,
    /// There are more words, items or leaves than the options allow.
    Limit,
    /// A field of the options has a value that means nothing to this version.
    Options,
    /// Settings come with the module, and the options don't allow that.
    Settings,
    /// Hosts may not share values of the type that was asked about.
    NotShareable,
    /// The module is not open.
    NotOpen,
}

impl Status {
    /// The number of the status.
    pub(crate) fn code(self) -> u32
        ensures { result ≡ code self }
    {
        match self {
            Status::Done => 0,
            Status::Refused => 1,
            Status::Unreadable => 2,
            Status::OutOfMemory => 3,
            Status::Room => 4,
            Status::NoType => 5,
            Status::Limit => 6,
            Status::Options => 7,
            Status::Settings => 8,
            Status::NotShareable => 9,
            Status::NotOpen => 10,
        }
    }
}

/// The status of a kind of report: its number is the exit status of the program.
pub(crate) fn status_of(outcome: report::Outcome) -> Status
    ensures { result ≡ status_of outcome }
{
    match outcome {
        report::Outcome::Accepted => Status::Done,
        report::Outcome::Refused => Status::Refused,
        report::Outcome::Unreadable => Status::Unreadable,
    }
}

/// The status of a call that has no module to validate.
pub(crate) fn status_without(why: NoSubject) -> Status
    ensures { result ≡ status_without why }
{
    match why {
        NoSubject::Options => Status::Options,
        NoSubject::Limit => Status::Limit,
        NoSubject::Unreadable(_) => Status::Unreadable,
        NoSubject::Settings => Status::Settings,
        NoSubject::OutOfMemory => Status::OutOfMemory,
    }
}
