//! The objects of JSON that say what is found of a module.

ghost use Rattle.naga_verdict.specs.Objects.{AreFields, IsObject, error_fields, item_text, more_names, named_fields, names_array, owner_text, plain_fields, name_field, position_fields, refused_fields, text_fields, unreadable_fields, words_field, wrong_fields};
ghost use Rattle.std.specs.Prelude.{◌≡◌, ◌++◌, ℕ, List, IfOk, OnOk, Some, option_map, string_bytes};

use crate::fields::fields_of;
use crate::item::{Item, Owner};
use crate::json_text::{add_optional_number, add_optional_str, add_optional_string, add_string};
use crate::verdict::{Finding, Named, Refusal, Unreadable, Verdict};
use std::alloc::{AllocError, Global};

/// Adds the function or entry point that an item belongs to, if it belongs to one.
#[tactic(auto, using(std::proofs::lemmas::List::append_assoc))]
fn add_owner(json: &mut String, owner: Option<Owner>) -> Result<(), AllocError>
    ensures { OnOk result (string_bytes json.new ≡ string_bytes json.old ++ owner_text owner) }
{
    match owner {
        Some(Owner::Function(index)) => write!(json, "F{index} "),
        Some(Owner::EntryPoint(index)) => write!(json, "N{index} "),
        None => Ok(()),
    }
}

/// Adds an item, behind the function or entry point that it belongs to.
#[tactic(auto, using(std::proofs::lemmas::List::append_assoc))]
fn add_item(json: &mut String, item: Item) -> Result<(), AllocError>
    ensures { OnOk result (string_bytes json.new ≡ string_bytes json.old ++ item_text item) }
{
    add_owner(json, item.owner())?;
    let letter = item.letter();
    let index = item.index();
    write!(json, "{letter}{index}")
}

/// Adds an item with its label and its line.
#[tactic(auto, using(std::proofs::lemmas::List::append_assoc))]
pub fn add_known(alloc: Global, json: &mut String, named: &Named) -> Result<(), AllocError>
    ensures { OnOk result (string_bytes json.new ≡ string_bytes json.old ++ named_fields (Some named.now)) }
{
    json.push_str("\"item\":\"")?;
    add_item(json, named.item)?;
    json.push_str("\",\"label\":")?;
    add_optional_string(alloc, json, &named.label)?;
    json.push_str(",\"line\":")?;
    add_optional_number(json, named.line)
}

/// Adds an item with its label and its line, or `null` for each.
fn add_named(alloc: Global, json: &mut String, named: &Option<Named>) -> Result<(), AllocError>
    ensures { OnOk result (string_bytes json.new ≡ string_bytes json.old ++ named_fields named.now) }
{
    match named {
        Some(named) => add_known(alloc, json, named),
        None => json.push_str("\"item\":null,\"label\":null,\"line\":null"),
    }
}

/// Adds the items behind the first of an array, and ends the array.
#[tactic(auto, using(std::proofs::lemmas::List::append_assoc))]
fn add_more_names(alloc: Global, json: &mut String, names: &[Named]) -> Result<(), AllocError>
    ensures { OnOk result (string_bytes json.new ≡ string_bytes json.old ++ more_names names.now) }
{
    for named in names {
        json.push_str(",{")?;
        add_known(alloc, json, named)?;
        json.push_str("}")?;
    }
    json.push_str("]")
}

/// Adds the items that an error names.
#[tactic(auto, using(std::proofs::lemmas::List::append_assoc))]
fn add_names(alloc: Global, json: &mut String, names: &[Named]) -> Result<(), AllocError>
    ensures { OnOk result (string_bytes json.new ≡ string_bytes json.old ++ names_array names.now) }
{
    let Some((first, rest)) = names.split_first() else {
        return json.push_str("[]");
    };
    json.push_str("[{")?;
    add_known(alloc, json, first)?;
    json.push_str("}")?;
    add_more_names(alloc, json, rest)
}

/// Adds the status, the stage and the item of a refused module.
#[tactic(auto, using(std::proofs::lemmas::List::append_assoc))]
fn add_wrong(alloc: Global, json: &mut String, refusal: &Refusal) -> Result<(), AllocError>
    ensures { OnOk result (string_bytes json.new ≡ string_bytes json.old ++ wrong_fields refusal.now) }
{
    json.push_str(",\"status\":\"refused\",\"stage\":")?;
    add_string(alloc, json, refusal.stage.name())?;
    json.push_str(",")?;
    add_named(alloc, json, &refusal.at)
}

/// Adds the error of a refused module; `fields` is what it holds, as JSON.
#[tactic(auto, using(std::proofs::lemmas::List::append_assoc))]
fn add_error(
    alloc: Global,
    json: &mut String,
    fields: &str,
    refusal: &Refusal,
) -> Result<(), AllocError>
    ensures { OnOk result (string_bytes json.new
        ≡ string_bytes json.old ++ error_fields fields.now refusal.now) }
{
    json.push_str(",\"column\":null,\"error\":")?;
    add_string(alloc, json, refusal.error.as_str())?;
    json.push_str(",\"fields\":")?;
    json.push_str(fields)
}

/// Adds the items that the error of a refused module names, and the error in words.
#[tactic(auto, using(std::proofs::lemmas::List::append_assoc))]
fn add_text(alloc: Global, json: &mut String, refusal: &Refusal) -> Result<(), AllocError>
    ensures { OnOk result (string_bytes json.new ≡ string_bytes json.old ++ text_fields refusal.now) }
{
    json.push_str(",\"names\":")?;
    add_names(alloc, json, refusal.names.as_slice())?;
    json.push_str(",\"text\":")?;
    add_string(alloc, json, refusal.text.as_str())
}

/// The fields of a refused module; `fields` is what its error holds, as JSON.
#[tactic(auto, using(std::proofs::lemmas::List::append_assoc))]
fn refused(alloc: Global, fields: &str, refusal: &Refusal) -> Result<String, AllocError>
    ensures { IfOk result (λ json. string_bytes json ≡ refused_fields fields.now refusal.now) }
{
    let mut json = String::new(alloc);
    add_wrong(alloc, &mut json, refusal)?;
    add_error(alloc, &mut json, fields, refusal)?;
    add_text(alloc, &mut json, refusal)?;
    Ok(json)
}

/// Adds the status and the place of a file that can't be read.
#[tactic(auto, using(std::proofs::lemmas::List::append_assoc))]
fn add_position(json: &mut String, unreadable: &Unreadable) -> Result<(), AllocError>
    ensures { OnOk result (string_bytes json.new ≡ string_bytes json.old ++ position_fields unreadable.now) }
{
    let line = unreadable.line;
    let column = unreadable.why.column;
    json.push_str(
        ",\"status\":\"unreadable\",\"stage\":null,\"item\":null,\"label\":null,\"line\":",
    )?;
    write!(json, "{line}")?;
    json.push_str(",\"column\":")?;
    write!(json, "{column}")
}

/// Adds the name of a reason.
#[tactic(auto, using(std::proofs::lemmas::List::append_assoc))]
fn add_name(alloc: Global, json: &mut String, name: &str) -> Result<(), AllocError>
    ensures { OnOk result (string_bytes json.new ≡ string_bytes json.old ++ name_field name.now) }
{
    json.push_str(",\"error\":")?;
    add_string(alloc, json, name)
}

/// Adds a reason in words.
#[tactic(auto, using(std::proofs::lemmas::List::append_assoc))]
fn add_words(alloc: Global, json: &mut String, text: &str) -> Result<(), AllocError>
    ensures { OnOk result (string_bytes json.new ≡ string_bytes json.old ++ words_field text.now) }
{
    json.push_str(",\"fields\":null,\"names\":[],\"text\":")?;
    add_string(alloc, json, text)?;
    Ok(())
}

/// The fields of a file that can't be read, by the name of the reason and the reason in words.
#[tactic(auto, using(std::proofs::lemmas::List::append_assoc))]
fn unreadable_by(
    alloc: Global,
    unreadable: &Unreadable,
    name: &str,
    text: &str,
) -> Result<String, AllocError>
    ensures { IfOk result (λ json. string_bytes json
        ≡ position_fields unreadable.now ++ (name_field name.now ++ words_field text.now)) }
{
    let mut json = String::new(alloc);
    add_position(&mut json, unreadable)?;
    add_name(alloc, &mut json, name)?;
    add_words(alloc, &mut json, text)?;
    Ok(json)
}

/// The fields of a file that can't be read.
fn unreadable(alloc: Global, unreadable: &Unreadable) -> Result<String, AllocError>
    ensures { IfOk result (λ json. string_bytes json ≡ unreadable_fields unreadable.now) }
{
    let reason = &unreadable.why.reason;
    let text = reason.text(alloc)?;
    unreadable_by(alloc, unreadable, reason.name(), text.as_str())
}

/// The fields of a module or a file of which no item and no line is named.
#[tactic(auto, using(std::proofs::lemmas::List::append_assoc))]
fn plain(alloc: Global, status: &str, text: Option<&str>) -> Result<String, AllocError>
    ensures { IfOk result (λ json. string_bytes json
        ≡ plain_fields status.now (option_map (λ text. text.now) text.entry)) }
{
    let mut json = String::new(alloc);
    json.push_str(",\"status\":")?;
    add_string(alloc, &mut json, status)?;
    json.push_str(
        ",\"stage\":null,\"item\":null,\"label\":null,\"line\":null,\"column\":null,\"error\":null,\"fields\":null,\"names\":[],\"text\":",
    )?;
    add_optional_str(alloc, &mut json, text)?;
    Ok(json)
}

/// The fields of a refused module.
fn refused_with_fields(alloc: Global, refusal: &Refusal) -> Result<String, AllocError>
    ensures { IfOk result (λ json. (fields : List ℕ) × (string_bytes json ≡ refused_fields fields refusal.now)) }
{
    let fields = fields_of(alloc, refusal.fields.as_str())?;
    refused(alloc, fields.as_str(), refusal)
}

/// The fields that say what is found of a module.
fn fields_on(alloc: Global, verdict: &Verdict) -> Result<String, AllocError>
    ensures { IfOk result (λ json. AreFields verdict.now (string_bytes json)) }
{
    match verdict {
        Verdict::Accepted => plain(alloc, "accepted", None),
        Verdict::Refused(refusal) => refused_with_fields(alloc, refusal),
        Verdict::Unreadable(why) => unreadable(alloc, why),
        Verdict::Failed(why) => plain(alloc, "failed", Some(why.as_str())),
    }
}

/// The line of JSON that says what is found of a module.
///
/// # Errors
///
/// `AllocError` if a request for memory was refused.
#[tactic(auto, using(std::proofs::lemmas::List::append_assoc))]
pub fn object_of(alloc: Global, finding: &Finding) -> Result<String, AllocError>
    ensures { IfOk result (λ json. IsObject finding.now (string_bytes json)) }
{
    let fields = fields_on(alloc, &finding.verdict)?;
    let mut json = String::new(alloc);
    json.push_str("{\"file\":")?;
    add_string(alloc, &mut json, finding.file)?;
    json.push_str(",\"case\":")?;
    add_optional_str(alloc, &mut json, finding.case)?;
    json.push_str(fields.as_str())?;
    json.push_str("}\n")?;
    Ok(json)
}
