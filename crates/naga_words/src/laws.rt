//! Laws of modules in words, for code that writes them.
//!
//! A law is a function that does nothing: its contract says what holds of the values that it is called with, and a
//! caller may rely on that from then on.

ghost use Rattle.naga_draft.specs.declared.draft.Contents.{Contents};
ghost use Rattle.naga_words.specs.ModuleWords.{AreSame, CanBeSaid, module_alone, words_of};
ghost use Rattle.naga_words.specs.Words.{IsWords};

use naga_ir::ir::Module;

/// Words can say each module that has no more than they have words for (`CanBeSaid`): it is what `words_of` gives that
/// says the module, with no settings. So `read_words` reads it of these words.
pub fn words_say(module: &Module)
    ensures { CanBeSaid «module».now → IsWords (words_of «module».now) (module_alone «module».now) }
{}

/// Words say one module at most, with its settings, up to the room of the vectors in the bodies of functions. So what
/// is read of the words of a module is that module.
pub fn words_say_once(words: &[u32])
    ensures { (a b : Contents) → IsWords words.now a → IsWords words.now b → AreSame a b }
{}
