//! The items of words, and the module and settings that they say.

ghost use Rattle.naga_draft.specs.Modules.{CanBegin};
ghost use Rattle.naga_words.specs.Words.{IsFirstUnreadable, IsWords, NamesItem, after_header, first_item};
ghost use Rattle.naga_draft.specs.declared.draft.Contents.{Contents as ContentsType};
ghost use Rattle.naga_draft.specs.declared.item.Item.{Item};
ghost use Rattle.naga_words.specs.declared.reader.WordsError.TheVariants as error;
ghost use Rattle.naga_draft.specs.declared.unread.Unread.TheVariants as unread;
ghost use Rattle.naga_draft.specs.Drafts.{AreAdded};
ghost use Rattle.naga_words.specs.steps.ReadItems.{AreAllAdded, IsOneMore, error_of};
ghost use Rattle.naga_arena.specs.Memory.{UnlessOutOfMemory};
ghost use Rattle.std.specs.Prelude.{◌≡◌, ◌<◌, ◌++◌, ◌∷◌, ◌⊎◌, ℕ, [], IfErr, IfOk, List, Some, length};

use crate::items::item;
use crate::opcodes as code;
use naga_draft::draft::{Contents, Draft};
use naga_draft::unread::Unread;
use std::alloc::Global;

/// How many opcodes there may be: the number of operands stands above the opcode in the head of an item.
const OPCODES: u32 = 256;

/// The magic word: `NAGW` as the four bytes of a file.
pub const MAGIC: u32 = 0x5747_414e;

/// The version of the words that are read.
pub const VERSION: u32 = 1;

/// The item that may stand first, by which a file of words can be told from others.
const HEADER: [u32; 3] = [2 << 8 | code::OP_HEADER as u32, MAGIC, VERSION];

/// Why words were not read.
#[derive(Clone, Copy, Debug, PartialEq)]
pub enum WordsError {
    /// The index of the first word of the first item that can't be read where it stands, or the number of words if
    /// only the end can't stand there.
    Item(usize),
    /// A request for memory was refused.
    OutOfMemory,
}

/// The error of an item whose first word has this index.
fn error_at(unread: Unread, at: usize) -> WordsError
    ensures { result ≡ error_of unread at }
{
    match unread {
        Unread::Item => WordsError::Item(at),
        Unread::OutOfMemory => WordsError::OutOfMemory,
    }
}

/// Reads the item with which words begin, and returns the words after it.
#[tactic(auto, using(crate::proofs::ReaderLaws::item_at, crate::proofs::ReaderLaws::item_is, crate::proofs::ItemLaws::item_plain))]
fn read_item<'a>(alloc: Global, draft: &mut Draft, words: &'a [u32]) -> Result<&'a [u32], Unread>
    ensures shorter { IfOk result (λ rest. length rest.now < length words.now) }
    ensures added { (items : List Item) → AreAdded items draft.old
        → IfOk result (λ rest. IsOneMore items words.now rest.now draft.new) }
    ensures refused { (items : List Item) → AreAdded items draft.old
        → IfErr result (λ e. e ≡ unread.Item → (item : Item) (rest : List ℕ)
        → first_item words.now ≡ Some (item, rest) → ¬ (CanBegin (items ++ item ∷ []))) }
{
    let Some((head, rest)) = words.split_first() else {
        return Err(Unread::Item);
    };
    let count = (*head / OPCODES) as usize;
    if count > rest.len() {
        return Err(Unread::Item);
    }
    let (operands, rest) = rest.split_at(count);
    draft.add(item(alloc, (*head % OPCODES) as u8, operands)?)?;
    Ok(rest)
}

/// The words after the header, or all of them if they begin with none.
fn after_header(words: &[u32]) -> &[u32]
    ensures { result.now ≡ after_header words.now }
{
    match words.strip_prefix(&HEADER) {
        Some(rest) => rest,
        None => words,
    }
}

/// Reads the items of words in order, after the header if they begin with one.
fn read_items(alloc: Global, draft: &mut Draft, words: &[u32]) -> Result<(), WordsError>
    requires { AreAdded [] draft.old }
    ensures all { IfOk result (λ _. AreAllAdded words.now draft.new) }
    ensures stuck { IfErr result (λ e. (e ≡ error.OutOfMemory) ⊎ NamesItem e (IsFirstUnreadable words.now)) }
{
    let mut left = after_header(words);
    'items: while !left.is_empty() {
        match read_item(alloc, draft, left) {
            Ok(rest) => left = rest,
            Err(unread) => return Err(error_at(unread, words.len() - left.len())),
        }
    }
    Ok(())
}

/// Reads the words of a module (docs/WORDS.md). The cost is linear in their number.
///
/// # Errors
///
/// - `Item` with the first item that can't be read.
/// - `OutOfMemory` if a request for memory was refused.
#[tactic(auto, using(crate::proofs::Unreadable::stuck))]
pub fn read_words(alloc: Global, words: &[u32]) -> Result<Contents, WordsError>
    // What is read is what the words say, and an item that is named is the first that can't be read.
    ensures words { UnlessOutOfMemory (λ e. e ≡ error.OutOfMemory) result (IsWords words.now)
        (λ e. NamesItem e (IsFirstUnreadable words.now)) }
    // Words that say something are read.
    ensures only { (contents : ContentsType) → IsWords words.now contents → IfErr result (λ e. e ≡ error.OutOfMemory) }
{
    let mut draft = Draft::new(alloc);
    read_items(alloc, &mut draft, words)?;
    match draft.finish() {
        Ok(contents) => Ok(contents),
        Err(unread) => Err(error_at(unread, words.len())),
    }
}
