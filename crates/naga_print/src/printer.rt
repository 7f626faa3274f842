//! The items of a module, while they are printed.

ghost use Rattle.naga_print.specs.declared.printer.PrintError.TheVariants as error;
ghost use Rattle.std.specs.Prelude.{◌≡◌};

use naga_ir::handle::Handle;
use naga_ir::memory::OutOfMemory;
use naga_ir::text::Text;
use std::alloc::{AllocError, AllocFailed, Global};
use std::fmt::Debug;

/// The word that stands for nothing.
pub const NONE: u32 = u32::MAX;

/// The most operands of an item.
const MOST_OPERANDS: usize = 0xFF_FFFF;

/// How many opcodes there may be: the number of operands stands above the opcode in the head of an item.
const OPCODES: u32 = 256;

/// Why a module was not printed.
#[derive(Clone, Copy, Debug, PartialEq)]
pub enum PrintError {
    /// A part of it has no words: an item has more than 16777215 operands, or a number is too large.
    TooLarge,
    /// A request for memory was refused.
    OutOfMemory,
}

impl From<AllocError> for PrintError {
    ghost from_gives = { λ _ e. e ≡ error.OutOfMemory };

    fn from(_: AllocError) -> PrintError {
        PrintError::OutOfMemory
    }
}

impl<T: Drop> From<AllocFailed<T>> for PrintError {
    ghost from_gives = { λ _ e. e ≡ error.OutOfMemory };

    fn from(_: AllocFailed<T>) -> PrintError {
        PrintError::OutOfMemory
    }
}

impl From<OutOfMemory> for PrintError {
    ghost from_gives = { λ _ e. e ≡ error.OutOfMemory };

    fn from(_: OutOfMemory) -> PrintError {
        PrintError::OutOfMemory
    }
}

/// A module that is printed.
#[derive(Drop)]
pub struct Printed {
    /// The words of its items, one after another, without a header.
    pub words: Vec<u32>,
    /// A line for each item: its words in decimal, and behind `#` what they say.
    pub listing: String,
    /// The lines of the larger text.
    pub text: String,
    /// What the module has first that lines of the larger text can't say. The text then lacks it.
    pub unsaid: Option<&'static str>,
}

/// What is printed of a module so far.
#[derive(Drop)]
pub struct Printer {
    printed: Printed,
    /// The opcode of the item that is printed, and its operands so far.
    opcode: u32,
    operands: Vec<u32>,
    /// What the item says.
    line: String,
    /// The line before it, which gives it a name, if it has one.
    name: String,
    /// The name of the variant that was printed last.
    variant: String,
}

impl Printer {
    /// Nothing yet.
    pub(crate) fn new(alloc: Global) -> Printer {
        Printer {
            printed: Printed {
                words: Vec::new(alloc),
                listing: String::new(alloc),
                text: String::new(alloc),
                unsaid: None,
            },
            opcode: 0,
            operands: Vec::new(alloc),
            line: String::new(alloc),
            name: String::new(alloc),
            variant: String::new(alloc),
        }
    }

    /// What is printed.
    pub(crate) fn into_printed(self) -> Printed {
        self.printed
    }

    /// Begins an item of an opcode, whose line begins so.
    pub(crate) fn begin(&mut self, opcode: u32, line: &str) -> Result<(), PrintError> {
        self.opcode = opcode;
        self.operands.clear();
        self.line.clear();
        self.name.clear();
        self.part(line)
    }

    /// Ends an item of which another item's line of the text says all: adds its words, and the line of the listing that
    /// has them.
    pub(crate) fn end_words(&mut self) -> Result<(), PrintError> {
        let count = self.operands.len();
        if count > MOST_OPERANDS || self.opcode >= OPCODES {
            return Err(PrintError::TooLarge);
        }
        let head = count as u32 * OPCODES + self.opcode;
        self.printed.words.push(head)?;
        self.printed.words.extend_from_slice(&self.operands)?;
        write!(self.printed.listing, "{head}")?;
        for operand in &self.operands {
            write!(self.printed.listing, " {operand}")?;
        }
        let line = self.line.as_str();
        write!(self.printed.listing, " # {line}\n")?;
        Ok(())
    }

    /// Ends the item.
    pub(crate) fn end(&mut self) -> Result<(), PrintError> {
        self.end_words()?;
        self.printed.text.push_str(self.name.as_str())?;
        self.printed.text.push_str(self.line.as_str())?;
        self.printed.text.push('\n')?;
        Ok(())
    }

    /// Prints an item that has no operands.
    pub(crate) fn item(&mut self, opcode: u32, line: &str) -> Result<(), PrintError> {
        self.begin(opcode, line)?;
        self.end()
    }

    /// Notes what the larger text can't say.
    pub(crate) fn cannot_say(&mut self, what: &'static str) {
        if self.printed.unsaid.is_none() {
            self.printed.unsaid = Some(what);
        }
    }

    /// Adds a word, of which the line says nothing.
    pub(crate) fn word(&mut self, word: u32) -> Result<(), PrintError> {
        self.operands.push(word)?;
        Ok(())
    }

    /// Adds to the line what it says of words that are added alone.
    pub(crate) fn part(&mut self, part: &str) -> Result<(), PrintError> {
        self.line.push_str(part)?;
        Ok(())
    }

    /// Adds digits to the line, of words that are added alone.
    pub(crate) fn decimal(&mut self, number: u64) -> Result<(), PrintError> {
        write!(self.line, "{number}")?;
        Ok(())
    }

    /// Adds digits of a signed number to the line, of words that are added alone.
    pub(crate) fn signed_decimal(&mut self, number: i64) -> Result<(), PrintError> {
        write!(self.line, "{number}")?;
        Ok(())
    }

    /// Adds a colon and digits to the line, of words that are added alone.
    pub(crate) fn decimal_at_colon(&mut self, number: u32) -> Result<(), PrintError> {
        write!(self.line, ":{number}")?;
        Ok(())
    }

    /// Adds a number.
    pub(crate) fn number(&mut self, number: u32) -> Result<(), PrintError> {
        self.word(number)?;
        write!(self.line, " {number}")?;
        Ok(())
    }

    /// Adds a number that is behind a colon in the line.
    pub(crate) fn number_at_colon(&mut self, number: u32) -> Result<(), PrintError> {
        self.word(number)?;
        self.decimal_at_colon(number)
    }

    /// Adds an index.
    pub(crate) fn index<K>(&mut self, handle: Handle<K>) -> Result<(), PrintError> {
        self.number(handle.index() as u32)
    }

    /// Adds an index that is behind a colon in the line.
    pub(crate) fn index_at_colon<K>(&mut self, handle: Handle<K>) -> Result<(), PrintError> {
        self.number_at_colon(handle.index() as u32)
    }

    /// Adds an index, or none.
    pub(crate) fn optional<K>(&mut self, handle: Option<Handle<K>>) -> Result<(), PrintError> {
        match handle {
            Some(handle) => self.index(handle),
            None => self.none(),
        }
    }

    /// Adds what stands for nothing.
    pub(crate) fn none(&mut self) -> Result<(), PrintError> {
        self.word(NONE)?;
        self.part(" -")
    }

    /// Adds a bool.
    pub(crate) fn flag(&mut self, flag: bool) -> Result<(), PrintError> {
        self.number(u32::from(flag))
    }

    /// Adds a choice: by its number in words, and by its name in the line.
    pub(crate) fn choice(&mut self, choice: (u32, &str)) -> Result<(), PrintError> {
        self.word(choice.0)?;
        self.part(" ")?;
        self.part(choice.1)
    }

    /// Adds to the line the name of a variant in lower case, of words that are added alone.
    pub(crate) fn variant<D: Copy + Debug>(&mut self, value: D) -> Result<(), PrintError> {
        self.variant.clear();
        write!(self.variant, "{value:?}")?;
        self.variant.make_ascii_lowercase();
        self.line.push_str(self.variant.as_str())?;
        Ok(())
    }

    /// Adds a choice: by its number in words, and by the name of its variant in lower case in the line.
    pub(crate) fn variant_choice<D: Copy + Debug>(
        &mut self,
        number: u32,
        value: D,
    ) -> Result<(), PrintError> {
        self.word(number)?;
        self.part(" ")?;
        self.variant(value)
    }

    /// Adds two words of a number, the low one first, of which the line says nothing.
    pub(crate) fn wide(&mut self, number: u64) -> Result<(), PrintError> {
        self.word((number % 0x1_0000_0000) as u32)?;
        self.word((number / 0x1_0000_0000) as u32)
    }

    /// Adds the words of a text, of which the line says nothing.
    pub(crate) fn text_words(&mut self, text: &str) -> Result<(), PrintError> {
        let Ok(count) = u32::try_from(text.len()) else {
            return Err(PrintError::TooLarge);
        };
        self.word(count)?;
        for bytes in text.as_bytes().chunks(4) {
            self.word(word_of(bytes))?;
        }
        Ok(())
    }

    /// Adds a name, which a line before the item's says.
    pub(crate) fn name(&mut self, name: &Option<Text>) -> Result<(), PrintError> {
        match name {
            Some(name) => {
                self.text_words(name.as_str())?;
                self.name_line(name.as_str())
            }
            None => self.word(NONE),
        }
    }

    /// Adds the line before the item's, which gives it a name.
    pub(crate) fn name_line(&mut self, name: &str) -> Result<(), PrintError> {
        if name.is_empty() || ends_word(name) {
            self.cannot_say(
                "a name that is empty, or in which a space or the end of a line stands",
            );
        } else {
            write!(self.name, "name {name}\n")?;
        }
        Ok(())
    }

    /// Adds a name to the line, behind what it names in the same word.
    pub(crate) fn name_part(&mut self, name: &str) -> Result<(), PrintError> {
        if ends_word(name) {
            self.cannot_say("a name of a member in which a space or the end of a line stands");
        } else {
            write!(self.line, ":@{name}")?;
        }
        Ok(())
    }
}

/// Whether a name has what ends a word of a line.
fn ends_word(name: &str) -> bool {
    name.contains([' ', '\n', '\r'])
}

/// The word of four bytes at most, the first of them lowest.
fn word_of(bytes: &[u8]) -> u32 {
    match bytes {
        [] => 0,
        [first] => u32::from(*first),
        [first, second] => u32::from_le_bytes([*first, *second, 0, 0]),
        [first, second, third] => u32::from_le_bytes([*first, *second, *third, 0]),
        [first, second, third, fourth, ..] => u32::from_le_bytes([
            *first, *second, *third, *fourth,
        ]),
    }
}
