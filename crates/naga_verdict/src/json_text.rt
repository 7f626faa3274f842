//! JSON: strings with their escapes, and values that may be missing.

ghost use Rattle.json.specs.Print.{quoted};
ghost use Rattle.naga_verdict.specs.Objects.{optional_number, optional_string};
ghost use Rattle.naga_verdict.specs.Verdicts.{bytes_of};
ghost use Rattle.std.specs.Prelude.{◌≡◌, ◌++◌, OnOk, option_map, string_bytes};

use serde_json::Value;
use std::alloc::{AllocError, Global};

/// Adds a string in quotes, escaped as RFC 8259 says.
pub fn add_string(alloc: Global, json: &mut String, text: &str) -> Result<(), AllocError>
    ensures { OnOk result (string_bytes json.new ≡ string_bytes json.old ++ quoted text.now) }
{
    let value = Value::String(String::from_str(alloc, text)?);
    let written = value.to_string(alloc)?;
    json.push_str(written.as_str())
}

/// Adds a string, or `null` if there is none.
pub fn add_optional_str(
    alloc: Global,
    json: &mut String,
    text: Option<&str>,
) -> Result<(), AllocError>
    ensures { OnOk result (string_bytes json.new
        ≡ string_bytes json.old ++ optional_string (option_map (λ text. text.now) text.entry)) }
{
    match text {
        Some(text) => add_string(alloc, json, text),
        None => json.push_str("null"),
    }
}

/// Adds a string, or `null` if there is none.
pub fn add_optional_string(
    alloc: Global,
    json: &mut String,
    text: &Option<String>,
) -> Result<(), AllocError>
    ensures { OnOk result (string_bytes json.new
        ≡ string_bytes json.old ++ optional_string (bytes_of text.now)) }
{
    match text {
        Some(text) => add_string(alloc, json, text.as_str()),
        None => json.push_str("null"),
    }
}

/// Adds a number, or `null` if there is none.
pub fn add_optional_number(json: &mut String, number: Option<usize>) -> Result<(), AllocError>
    ensures { OnOk result (string_bytes json.new ≡ string_bytes json.old ++ optional_number number) }
{
    match number {
        Some(number) => write!(json, "{number}"),
        None => json.push_str("null"),
    }
}
