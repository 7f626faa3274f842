//! What an error holds, as JSON: from the text that Rust prints of it.

use crate::json_text::add_string;
use std::alloc::{AllocError, Global};

/// Where the reader of a text stands.
#[derive(Clone, Copy, PartialEq)]
enum Within {
    /// Outside quotes.
    Text,
    /// In quotes.
    Quotes,
    /// In quotes, behind a backslash.
    Escape,
}

/// Values in JSON, as far as the text of an error was read.
#[derive(Drop)]
struct Writing {
    alloc: Global,
    json: String,
    /// The word, number or string that is read.
    word: String,
    within: Within,
    /// Whether the word is a string in quotes.
    is_string: bool,
    /// What ends each value that is open, outermost first.
    ends: Vec<&'static str>,
}

/// Whether a text is a number of JSON without a fraction.
fn is_number(text: &str) -> bool {
    let digits = text.strip_prefix('-').unwrap_or(text);
    match digits.as_bytes() {
        [] => false,
        [b'0'] => true,
        [b'0', ..] => false,
        digits => digits.iter().all(|digit| digit.is_ascii_digit()),
    }
}

impl Writing {
    /// Ends the word that is read, and adds it as a number, a bool or a string.
    fn end_word(&mut self) -> Result<(), AllocError> {
        let word = self.word.as_str().trim();
        if self.is_string {
            add_string(self.alloc, &mut self.json, self.word.as_str())?;
            self.is_string = false;
        } else if is_number(word) || word == "true" || word == "false" {
            self.json.push_str(word)?;
        } else if !word.is_empty() {
            add_string(self.alloc, &mut self.json, word)?;
        }
        self.word.clear();
        Ok(())
    }

    /// Begins an object or an array, within an object of the word before it if there is one.
    fn begin(
        &mut self,
        begin: &str,
        end: &'static str,
        named: &'static str,
    ) -> Result<(), AllocError> {
        let word = self.word.as_str().trim();
        if word.is_empty() {
            self.json.push_str(begin)?;
            self.ends.push(end)?;
            return Ok(());
        }
        self.json.push('{')?;
        add_string(self.alloc, &mut self.json, word)?;
        self.json.push(':')?;
        self.json.push_str(begin)?;
        self.word.clear();
        self.ends.push(named)?;
        Ok(())
    }

    /// Ends the innermost object or array.
    fn end(&mut self) -> Result<(), AllocError> {
        self.end_word()?;
        match self.ends.pop() {
            Some(end) => self.json.push_str(end),
            None => Ok(()),
        }
    }

    /// Adds a character in quotes.
    fn add_quoted(&mut self, character: char) -> Result<(), AllocError> {
        match character {
            '"' => {
                self.within = Within::Text;
                Ok(())
            }
            '\\' => {
                self.within = Within::Escape;
                Ok(())
            }
            _ => self.word.push(character),
        }
    }

    /// Adds the character that stands behind a backslash in quotes.
    fn add_escaped(&mut self, character: char) -> Result<(), AllocError> {
        self.within = Within::Quotes;
        match character {
            'n' => self.word.push('\n'),
            'r' => self.word.push('\r'),
            't' => self.word.push('\t'),
            '0' => self.word.push('\0'),
            _ => self.word.push(character),
        }
    }

    /// Adds a character.
    fn add(&mut self, character: char) -> Result<(), AllocError> {
        match self.within {
            Within::Text => self.add_plain(character),
            Within::Quotes => self.add_quoted(character),
            Within::Escape => self.add_escaped(character),
        }
    }

    /// Adds a character outside quotes.
    fn add_plain(&mut self, character: char) -> Result<(), AllocError> {
        match character {
            '(' => self.begin("[", "]", "]}"),
            '[' => self.begin("[", "]", "]}"),
            '{' => self.begin("{", "}", "}}"),
            ')' | ']' | '}' => self.end(),
            ',' => {
                self.end_word()?;
                self.json.push(',')
            }
            ':' => {
                let word = self.word.as_str().trim();
                add_string(self.alloc, &mut self.json, word)?;
                self.word.clear();
                self.json.push(':')
            }
            '"' => {
                self.word.clear();
                self.is_string = true;
                self.within = Within::Quotes;
                Ok(())
            }
            _ if self.is_string => Ok(()),
            _ => self.word.push(character),
        }
    }
}

/// What an error holds, as JSON: an array of its values in order, an object of its values by name, or `null` if it
/// holds nothing. `fields` is what Rust prints behind the name of the error.
///
/// # Errors
///
/// `AllocError` if a request for memory was refused.
pub(crate) fn fields_of(alloc: Global, fields: &str) -> Result<String, AllocError> {
    if fields.is_empty() {
        return String::from_str(alloc, "null");
    }
    let mut writing = Writing {
        alloc,
        json: String::new(alloc),
        word: String::new(alloc),
        within: Within::Text,
        is_string: false,
        ends: Vec::new(alloc),
    };
    for character in fields.chars() {
        writing.add(character)?;
    }
    writing.end_word()?;
    let Writing { json, .. } = writing;
    Ok(json)
}
