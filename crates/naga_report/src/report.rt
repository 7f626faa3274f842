//! The report on a text.

ghost use Rattle.naga_arena.specs.Memory.{UnlessOutOfMemory};
ghost use Rattle.naga_arena.specs.Span.{inner_of};
ghost use Rattle.naga_typing.specs.PlainTyping.{plain_resolves};
ghost use Rattle.naga_valid.specs.Accepted.{Accepts, Refuses};
ghost use Rattle.naga_valid.specs.State.{settings_of};
ghost use Rattle.naga_valid.specs.declared.error.ValidationError.TheVariants as error;
ghost use Rattle.naga_report.specs.Report.{IsReport, IsReportOn, accepted_text, hex_byte, layout_text, refused_line, refused_text, type_line};
ghost use Rattle.std.specs.Prelude.{◌≡◌, ◌++◌, IfOk, OnOk, codes, decimal, length, string_bytes};

use bitflags::Flags;
use naga_text::text::{Contents, TextError, read_text};
use naga_valid::{
    Handle, LayoutCompatibility, Module, ModuleInfo, TypeFlags, TypeInfo, TypeTag, ValidationError,
    Validator, WithSpan,
};
use std::alloc::{AllocError, Global};

/// What a text was found to be.
#[derive(Clone, Copy, Debug, PartialEq)]
pub enum Outcome {
    /// Its module keeps the rules.
    Accepted,
    /// Its module breaks a rule, or memory was refused while it was validated.
    Refused,
    /// The text can't be read.
    Unreadable,
}

/// A report on a text.
#[derive(Debug, Drop)]
pub struct Report {
    /// The lines of the report, each ended by a line feed.
    pub text: String,
    /// Which kind of report it is.
    pub outcome: Outcome,
}

/// Adds the alignment of a layout in bytes, or the name of the reason why there is none.
fn add_layout(text: &mut String, layout: &LayoutCompatibility) -> Result<(), AllocError>
    ensures { OnOk result (string_bytes text.new ≡ string_bytes text.old ++ layout_text layout.now) }
{
    match layout {
        Ok(alignment) => {
            let alignment = alignment.get();
            write!(text, "{alignment}")
        }
        Err((_, disalignment)) => text.push_str(disalignment.name()),
    }
}

/// Adds the index of a type and its flags.
fn add_flags(text: &mut String, handle: Handle<TypeTag>, flags: TypeFlags) -> Result<(), AllocError>
    ensures { OnOk result (string_bytes text.new
        ≡ string_bytes text.old ++ (codes "T" ++ (decimal handle ++ (codes " " ++ (hex_byte flags.0 ++ codes " "))))) }
{
    let index = handle.index();
    let bits = flags.bits();
    write!(text, "T{index} {bits:02x} ")
}

/// Adds the line of an accepted type.
#[tactic(auto, using(std::proofs::lemmas::List::append_assoc))]
fn add_type(text: &mut String, handle: Handle<TypeTag>, info: TypeInfo) -> Result<(), AllocError>
    ensures { OnOk result (string_bytes text.new ≡ string_bytes text.old ++ type_line handle info) }
{
    add_flags(text, handle, info.flags)?;
    add_layout(text, &info.uniform_layout)?;
    text.push_str(" ")?;
    add_layout(text, &info.storage_layout)?;
    text.push_str("\n")
}

/// The report on a module that a validator has accepted: a line for each type with its flags in
/// hexadecimal and its uniform and storage layout, and `ok`.
///
/// # Errors
///
/// `AllocError` if a request for memory was refused.
pub fn report_accepted(
    alloc: Global,
    module: &Module,
    validator: &Validator,
) -> Result<String, AllocError>
    requires { length validator.now.infos ≡ length «module».now.types }
    ensures { IfOk result (λ text. string_bytes text ≡ accepted_text validator.now.infos) }
{
    let mut text = String::new(alloc);
    for (handle, _) in module.types.iter() {
        add_type(&mut text, handle, validator.type_info(handle))?;
    }
    text.push_str("ok\n")?;
    Ok(text)
}

/// The line of a refusal: what kind of item has which index, and the name of the error.
fn refused_line(alloc: Global, item: &str, index: usize, name: &str) -> Result<String, AllocError>
    ensures { IfOk result (λ text. string_bytes text ≡ refused_line item.now index name.now) }
{
    format!(in alloc; "refused {item}{index} {name}\n")
}

/// The report on a refused module: one line with the kind of the error and its name.
///
/// # Errors
///
/// `AllocError` if a request for memory was refused.
pub fn report_refused(alloc: Global, error: &ValidationError) -> Result<String, AllocError>
    ensures { IfOk result (λ text. string_bytes text ≡ refused_text error.now) }
{
    match error {
        ValidationError::InvalidHandle(error) => {
            let name = error.name();
            format!(in alloc; "refused handle {name}\n")
        }
        ValidationError::Layouter(error) => {
            refused_line(alloc, "layout T", error.ty.index(), error.inner.name())
        }
        ValidationError::Type_ { handle, source, .. } => {
            refused_line(alloc, "type T", handle.index(), source.name())
        }
        ValidationError::ConstExpression { handle, source } => {
            refused_line(alloc, "expression G", handle.index(), source.name())
        }
        ValidationError::ArraySizeError { handle } => {
            refused_line(alloc, "expression G", handle.index(), "ArraySizeError")
        }
        ValidationError::Constant { handle, source, .. } => {
            refused_line(alloc, "constant C", handle.index(), source.name())
        }
        ValidationError::Override { handle, source, .. } => {
            refused_line(alloc, "override O", handle.index(), source.name())
        }
        ValidationError::Corrupted => String::from_str(alloc, "refused module Corrupted\n"),
        ValidationError::OutOfMemory => String::from_str(alloc, "refused memory\n"),
    }
}

/// Validates the module of a text as the text says.
fn validate(
    validator: &mut Validator,
    contents: &Contents,
) -> Result<ModuleInfo, WithSpan<ValidationError>>
    ensures { UnlessOutOfMemory (λ e. inner_of e ≡ error.OutOfMemory) result
        (λ info. Accepts plain_resolves contents.now.«module» (settings_of validator.old contents.now.resolved)
        validator.new.infos info.lists)
        (λ e. Refuses plain_resolves contents.now.«module» (settings_of validator.old contents.now.resolved)
        (inner_of e)) }
{
    if contents.resolved {
        validator.validate_resolved_overrides(&contents.module)
    } else {
        validator.validate(&contents.module)
    }
}

/// The report on the module of a readable text.
fn report_contents(alloc: Global, contents: &Contents) -> Result<Report, AllocError>
    ensures { IfOk result (λ report. IsReportOn contents.now (string_bytes report.text) report.outcome) }
{
    let flags = contents.flags.unwrap_or_default();
    let mut validator = Validator::new(alloc, flags, contents.capabilities.unwrap_or_default());
    match validate(&mut validator, contents) {
        Ok(_) => Ok(Report {
            text: report_accepted(alloc, &contents.module, &validator)?,
            outcome: Outcome::Accepted,
        }),
        Err(error) => Ok(Report {
            text: report_refused(alloc, error.as_inner())?,
            outcome: Outcome::Refused,
        }),
    }
}

/// Makes the report on a text.
///
/// # Errors
///
/// `AllocError` if memory was refused while the text was read or the report was made. Memory that is
/// refused while the module is validated is reported.
pub fn make_report(alloc: Global, input: &[u8]) -> Result<Report, AllocError>
    ensures { IfOk result (λ report. IsReport input.now (string_bytes report.text) report.outcome) }
{
    match read_text(alloc, input) {
        Ok(contents) => report_contents(alloc, &contents),
        Err(TextError::Line(n)) => Ok(Report {
            text: format!(in alloc; "line {n} not readable\n")?,
            outcome: Outcome::Unreadable,
        }),
        Err(TextError::OutOfMemory) => Err(AllocError),
    }
}
