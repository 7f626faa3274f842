//! The lines for people that say what is found of a module.

ghost use Rattle.naga_verdict.specs.Lines.{at_text, called, case_text, error_text, line_text, lines_text, name_text, named_text, names_text, owner_called, position_text, refused_text, unreadable_text, wrong_text};
ghost use Rattle.naga_verdict.specs.Lines as spec;
ghost use Rattle.std.specs.Prelude.{◌≡◌, ◌++◌, IfOk, OnOk, option_map, string_bytes};

use crate::item::{Item, Owner};
use crate::verdict::{Finding, Named, Refusal, Unreadable, Verdict};
use std::alloc::{AllocError, Global};

/// Adds what an item is called among those of its function or entry point, or of the module: its kind, its label if it
/// has one, and its index.
#[tactic(auto, using(std::proofs::lemmas::List::append_assoc))]
pub fn add_item(text: &mut String, item: Item, label: &Option<String>) -> Result<(), AllocError>
    ensures { OnOk result (string_bytes text.new ≡ string_bytes text.old ++ called item label.now) }
{
    let kind = item.kind();
    let letter = item.letter();
    let index = item.index();
    match label {
        Some(label) => {
            let label = label.as_str();
            write!(text, "{kind} {label} ({letter}{index})")
        }
        None => write!(text, "{kind} {letter}{index}"),
    }
}

/// Adds the function or entry point that an item belongs to, if it belongs to one.
#[tactic(auto, using(std::proofs::lemmas::List::append_assoc))]
fn add_owner(
    text: &mut String,
    owner: Option<Owner>,
    label: &Option<String>,
) -> Result<(), AllocError>
    ensures { OnOk result (string_bytes text.new ≡ string_bytes text.old ++ owner_called owner label.now) }
{
    let Some(owner) = owner else {
        return Ok(());
    };
    add_item(text, owner.item(), label)?;
    text.push_str(", ")
}

/// Adds what an item is called, behind the function or entry point that it belongs to.
#[tactic(auto, using(std::proofs::lemmas::List::append_assoc))]
fn add_named(text: &mut String, named: &Named) -> Result<(), AllocError>
    ensures { OnOk result (string_bytes text.new ≡ string_bytes text.old ++ named_text named.now) }
{
    add_owner(text, named.item.owner(), &named.owner_label)?;
    add_item(text, named.item, &named.label)
}

/// Adds a line of a file, if it is known.
fn add_line(text: &mut String, line: Option<usize>) -> Result<(), AllocError>
    ensures { OnOk result (string_bytes text.new ≡ string_bytes text.old ++ line_text line) }
{
    match line {
        Some(line) => write!(text, ":{line}"),
        None => Ok(()),
    }
}

/// Adds a case, if there is one.
#[tactic(auto, using(std::proofs::lemmas::List::append_assoc))]
fn add_case(text: &mut String, case: Option<&str>) -> Result<(), AllocError>
    ensures { OnOk result (string_bytes text.new
        ≡ string_bytes text.old ++ case_text (option_map (λ title. title.now) case.entry)) }
{
    match case {
        Some(title) => write!(text, "case {title}: "),
        None => Ok(()),
    }
}

/// Adds where the file has an item that an error names, if that is known.
fn add_at(text: &mut String, line: Option<usize>) -> Result<(), AllocError>
    ensures { OnOk result (string_bytes text.new ≡ string_bytes text.old ++ at_text line) }
{
    match line {
        Some(line) => write!(text, ", line {line}"),
        None => Ok(()),
    }
}

/// Adds the line of an item that an error names.
#[tactic(auto, using(std::proofs::lemmas::List::append_assoc))]
fn add_name(text: &mut String, named: &Named) -> Result<(), AllocError>
    ensures { OnOk result (string_bytes text.new ≡ string_bytes text.old ++ name_text named.now) }
{
    let index = named.item.index();
    write!(text, "    [{index}] is ")?;
    add_item(text, named.item, &named.label)?;
    add_at(text, named.line)?;
    text.push_str("\n")
}

/// Adds the lines of the items that an error names.
#[tactic(auto, using(std::proofs::lemmas::List::append_assoc))]
fn add_names(text: &mut String, names: &[Named]) -> Result<(), AllocError>
    ensures { OnOk result (string_bytes text.new ≡ string_bytes text.old ++ names_text names.now) }
{
    for named in names {
        add_name(text, named)?;
    }
    Ok(())
}

/// Adds the item that is wrong, or else the stage.
fn add_wrong(text: &mut String, refusal: &Refusal) -> Result<(), AllocError>
    ensures { OnOk result (string_bytes text.new
        ≡ string_bytes text.old ++ wrong_text refusal.now refusal.now.at) }
{
    match &refusal.at {
        Some(named) => add_named(text, named),
        None => text.push_str(refusal.stage.name()),
    }
}

/// Adds the error of a refusal.
#[tactic(auto, using(std::proofs::lemmas::List::append_assoc))]
fn add_error(text: &mut String, refusal: &Refusal) -> Result<(), AllocError>
    ensures { OnOk result (string_bytes text.new ≡ string_bytes text.old ++ error_text refusal.now) }
{
    text.push_str(": ")?;
    text.push_str(refusal.error.as_str())?;
    text.push_str(refusal.fields.as_str())?;
    text.push_str("\n    ")?;
    text.push_str(refusal.text.as_str())?;
    text.push_str("\n")
}

/// The line of the item that is wrong, if it is known.
fn wrong_line(at: &Option<Named>) -> Option<usize>
    ensures { result ≡ spec.wrong_line at.now }
{
    match at {
        Some(named) => named.line,
        None => None,
    }
}

/// Adds why a module is refused.
#[tactic(auto, using(std::proofs::lemmas::List::append_assoc))]
fn add_refusal(
    text: &mut String,
    file: &str,
    case: Option<&str>,
    refusal: &Refusal,
) -> Result<(), AllocError>
    ensures { OnOk result (string_bytes text.new
        ≡ string_bytes text.old ++ refused_text file.now (option_map (λ title. title.now) case.entry) refusal.now) }
{
    text.push_str(file)?;
    add_line(text, wrong_line(&refusal.at))?;
    text.push_str(": ")?;
    add_case(text, case)?;
    add_wrong(text, refusal)?;
    add_error(text, refusal)?;
    add_names(text, refusal.names.as_slice())
}

/// Adds the file, the line and the column that can't be read.
#[tactic(auto, using(std::proofs::lemmas::List::append_assoc))]
fn add_position(text: &mut String, file: &str, unreadable: &Unreadable) -> Result<(), AllocError>
    ensures { OnOk result (string_bytes text.new
        ≡ string_bytes text.old ++ position_text file.now unreadable.now) }
{
    let line = unreadable.line;
    let column = unreadable.why.column;
    write!(text, "{file}:{line}:{column}: ")
}

/// Adds why a file can't be read.
#[tactic(auto, using(std::proofs::lemmas::List::append_assoc))]
fn add_unreadable(
    text: &mut String,
    file: &str,
    case: Option<&str>,
    unreadable: &Unreadable,
) -> Result<(), AllocError>
    ensures { OnOk result (string_bytes text.new
        ≡ string_bytes text.old
        ++ unreadable_text file.now (option_map (λ title. title.now) case.entry) unreadable.now) }
{
    add_position(text, file, unreadable)?;
    add_case(text, case)?;
    text.push_str("not readable: ")?;
    unreadable.why.reason.add_to(text)?;
    text.push_str("\n")
}

/// The lines that say what is found of a module.
///
/// # Errors
///
/// `AllocError` if a request for memory was refused.
#[tactic(auto, using(std::proofs::lemmas::List::append_assoc))]
pub fn lines_of(alloc: Global, finding: &Finding) -> Result<String, AllocError>
    ensures { IfOk result (λ text. string_bytes text ≡ lines_text finding.now) }
{
    let mut text = String::new(alloc);
    let file = finding.file;
    let case = finding.case;
    match &finding.verdict {
        Verdict::Accepted => {
            text.push_str(file)?;
            text.push_str(": ")?;
            add_case(&mut text, case)?;
            text.push_str("ok\n")?;
        }
        Verdict::Refused(refusal) => add_refusal(&mut text, file, case, refusal)?,
        Verdict::Unreadable(unreadable) => add_unreadable(&mut text, file, case, unreadable)?,
        Verdict::Failed(why) => {
            text.push_str(file)?;
            text.push_str(": ")?;
            text.push_str(why.as_str())?;
            text.push_str("\n")?;
        }
    }
    Ok(text)
}
