//! How an error refuses a module.

ghost use Rattle.std.specs.Prelude.{IfOk};
ghost use Rattle.naga_cli.specs.Findings.{Says};

use crate::names::Names;
use naga_source::places::Places;
use naga_valid::OutOfMemory;
use naga_verdict::item::Item;
use naga_verdict::verdict::{Named, Refusal, Stage};
use std::alloc::{AllocError, Global};
use std::fmt::{Debug, Display};

/// All items that an error names, with what the file says of them.
fn all_named(alloc: Global, places: &Places, names: Names) -> Result<Vec<Named>, AllocError> {
    let mut all = Vec::new(alloc);
    for item in [names.first, names.second, names.third, names.fourth] {
        if let Some(item) = item
            && !all.iter().any(|other: &Named| other.item == item)
        {
            all.push(places.named(item)?)?;
        }
    }
    Ok(all)
}

/// What an error holds, in what Rust prints of it: all behind the name of the variant.
fn fields_of(printed: &str) -> &str {
    let end = printed
        .bytes()
        .position(|byte| !(byte.is_ascii_alphanumeric() || byte == b'_'));
    end.and_then(|end| printed.get(end..)).unwrap_or("")
}

/// What is found wrong.
#[derive(Clone, Copy)]
pub struct Wrong<'a> {
    pub stage: Stage,
    pub item: Option<Item>,
    /// The name of the error.
    pub name: &'a str,
    pub names: Names,
}

/// The refusal for an error.
pub fn refusal<E: Debug + Display>(
    alloc: Global,
    places: &Places,
    wrong: Wrong<'_>,
    error: &E,
) -> Result<Refusal, OutOfMemory>
    ensures { IfOk result (Says wrong.entry.stage wrong.entry.item wrong.entry.name.now) }
{
    let at = match wrong.item {
        Some(item) => Some(places.named(item)?),
        None => None,
    };
    let printed = format!(in alloc; "{error:?}")?;
    Ok(Refusal {
        stage: wrong.stage,
        at,
        error: String::from_str(alloc, wrong.name)?,
        fields: String::from_str(alloc, fields_of(printed.as_str()))?,
        text: error.to_string(alloc)?,
        names: all_named(alloc, places, wrong.names)?,
    })
}
