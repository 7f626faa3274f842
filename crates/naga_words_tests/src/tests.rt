//! Words that are read, and words that can't be.

ghost use Rattle.naga_draft.specs.declared.draft.Contents.{Contents};
ghost use Rattle.naga_words.specs.ModuleWords.{AreSame, CanBeSaid, module_alone, words_of};
ghost use Rattle.naga_words.specs.Words.{IsWords};

use naga_ir::ir::Module;
use naga_words::{MAGIC, VERSION, WordsError, laws, read_words};
use std::alloc::Global;

/// How many types the module of words has.
fn count_types(alloc: Global, words: &[u32]) -> Result<usize, WordsError> {
    Ok(read_words(alloc, words)?.module.types.len())
}

/// How many types the module of words has. If `module` has no more than words can say, some words say it, and whatever
/// words say, they say it once.
fn count_types_of(alloc: Global, module: &Module, words: &[u32]) -> Result<usize, WordsError>
    ensures written { CanBeSaid «module».now → IsWords (words_of «module».now) (module_alone «module».now) }
    ensures once { (a b : Contents) → IsWords words.now a → IsWords words.now b → AreSame a b }
{
    laws::words_say(module);
    laws::words_say_once(words);
    count_types(alloc, words)
}

#[test]
fn the_empty_module_is_read_of_its_words(rt: HostRuntime) {
    let alloc = rt.alloc();
    let words = [3 << 8 | 4, u32::MAX, u32::MAX, u32::MAX];
    assert_eq!(rt; count_types_of(alloc, &Module::new(alloc), &words), Ok(0));
}

#[test]
fn no_words_are_the_empty_module(rt: HostRuntime) {
    assert_eq!(rt; count_types(rt.alloc(), &[]), Ok(0));
}

#[test]
fn an_example_is_read(rt: HostRuntime) {
    assert_eq!(rt; count_types(rt.alloc(), &EXAMPLE), Ok(3));
}

#[test]
fn every_item_is_read(rt: HostRuntime) {
    assert_eq!(rt; count_types(rt.alloc(), &ALL), Ok(21));
}

#[test]
fn the_first_item_that_cannot_be_read_is_named(rt: HostRuntime) {
    let alloc = rt.alloc();
    let unknown_opcode = [0x00e];
    assert_eq!(rt;
        count_types(alloc, &unknown_opcode),
        Err(WordsError::Item(0))
    );
    let cut = [0x310, u32::MAX, 1, 4, 0x310, 0];
    assert_eq!(rt; count_types(alloc, &cut), Err(WordsError::Item(4)));
    let equal_types = [0x310, u32::MAX, 1, 4, 0x310, u32::MAX, 1, 4];
    assert_eq!(rt; count_types(alloc, &equal_types), Err(WordsError::Item(4)));
    let part_of_nothing = [0x0c1];
    assert_eq!(rt;
        count_types(alloc, &part_of_nothing),
        Err(WordsError::Item(0))
    );
    let open_at_the_end = [0x123, u32::MAX, 0x0c1];
    assert_eq!(rt;
        count_types(alloc, &open_at_the_end),
        Err(WordsError::Item(3))
    );
    let block_before_case = [0x123, u32::MAX, 0x1c4, 0, 0x0c1];
    assert_eq!(rt;
        count_types(alloc, &block_before_case),
        Err(WordsError::Item(4))
    );
}

#[test]
fn a_header_may_stand_first(rt: HostRuntime) {
    let alloc = rt.alloc();
    assert_eq!(rt; HEADER, [0x20f, MAGIC, VERSION]);
    assert_eq!(rt; u32::from_le_bytes(*b"NAGW"), MAGIC);
    assert_eq!(rt; count_types(alloc, &HEADER), Ok(0));
    let mut example = [0; 28];
    example[..3].copy_from_slice(&HEADER);
    example[3..].copy_from_slice(&EXAMPLE);
    assert_eq!(rt; count_types(alloc, &example), Ok(3));
    example[7] = 0;
    assert_eq!(rt; count_types(alloc, &example), Err(WordsError::Item(7)));
}

#[test]
fn another_header_cannot_be_read(rt: HostRuntime) {
    let alloc = rt.alloc();
    for head in [0x00f, 0x10f, 0x30f, 0x20e] {
        assert_eq!(rt;
            count_types(alloc, &[head, MAGIC, 1, 0]),
            Err(WordsError::Item(0))
        );
    }
    for version in [0, 2, u32::MAX] {
        assert_eq!(rt;
            count_types(alloc, &[0x20f, MAGIC, version]),
            Err(WordsError::Item(0))
        );
    }
    for magic in [0, MAGIC - 1, MAGIC.swap_bytes()] {
        assert_eq!(rt;
            count_types(alloc, &[0x20f, magic, 1]),
            Err(WordsError::Item(0))
        );
    }
    for length in 1..HEADER.len() {
        assert_eq!(rt;
            count_types(alloc, &HEADER[..length]),
            Err(WordsError::Item(0))
        );
    }
}

#[test]
fn a_header_cannot_stand_later(rt: HostRuntime) {
    let alloc = rt.alloc();
    let twice = [0x20f, MAGIC, 1, 0x20f, MAGIC, 1];
    assert_eq!(rt; count_types(alloc, &twice), Err(WordsError::Item(3)));
    let after_setting = [0x003, 0x20f, MAGIC, 1];
    assert_eq!(rt;
        count_types(alloc, &after_setting),
        Err(WordsError::Item(1))
    );
    let open_at_the_end = [0x20f, MAGIC, 1, 0x123, u32::MAX, 0x0c1];
    assert_eq!(rt;
        count_types(alloc, &open_at_the_end),
        Err(WordsError::Item(6))
    );
}

#[test]
fn each_beginning_is_read_or_names_an_item(rt: HostRuntime) {
    for length in 0..ALL.len() {
        if let Err(error) = count_types(rt.alloc(), &ALL[..length]) {
            assert!(rt; error != WordsError::OutOfMemory);
        }
    }
}

#[test]
fn words_with_one_replaced_are_read_or_name_an_item(rt: HostRuntime) {
    for index in 0..ALL.len() {
        for value in [0, 1, 2147483648, u32::MAX] {
            let mut words = ALL;
            words[index] = value;
            if let Err(error) = count_types(rt.alloc(), &words) {
                assert!(rt; error != WordsError::OutOfMemory);
            }
        }
    }
}

/// The header of docs/WORDS.md.
const HEADER: [u32; 3] = [527, 0x5747414e, 1];

/// The example of docs/WORDS.md.
const EXAMPLE: [u32; 25] = [
    0x310,
    u32::MAX,
    1,
    4,
    0x411,
    u32::MAX,
    4,
    2,
    4,
    0xe18,
    u32::MAX,
    32,
    u32::MAX,
    0,
    0,
    0,
    0,
    0,
    u32::MAX,
    1,
    16,
    0,
    0,
    0,
    3,
];

/// Each item once at least: the 21 types, a function and an entry point with statements of every kind.
const ALL: [u32; 443] = [
    0x101,
    0x3f,
    0x202,
    u32::MAX,
    0xfff,
    0x106,
    u32::MAX,
    0x106,
    0x0,
    0x107,
    0x1,
    0x310,
    u32::MAX,
    0x2,
    0x4,
    0x410,
    0x3,
    0x323375,
    0x1,
    0x4,
    0x411,
    u32::MAX,
    0x4,
    0x2,
    0x4,
    0x512,
    u32::MAX,
    0x2,
    0x3,
    0x2,
    0x4,
    0x613,
    u32::MAX,
    0x8,
    0x8,
    0x2,
    0x4,
    0x2,
    0x314,
    u32::MAX,
    0x1,
    0x4,
    0x415,
    u32::MAX,
    0x0,
    0x4,
    0x3,
    0x616,
    u32::MAX,
    0x0,
    0x2,
    0x4,
    0x0,
    0x0,
    0x517,
    u32::MAX,
    0x2,
    0x0,
    0x5,
    0x10,
    0x1218,
    0x4,
    0x72696150,
    0x20,
    0x1,
    0x61,
    0x1,
    0x0,
    0x2,
    0x0,
    0x0,
    0x5,
    0x65646362,
    0x66,
    0x2,
    0x10,
    0x0,
    0x0,
    0x0,
    0x619,
    u32::MAX,
    0x1,
    0x0,
    0x0,
    0x2,
    0x0,
    0x619,
    u32::MAX,
    0x1,
    0x0,
    0x1,
    0x0,
    0x0,
    0x619,
    u32::MAX,
    0x1,
    0x0,
    0x2,
    0x7,
    0x7,
    0x619,
    u32::MAX,
    0x1,
    0x0,
    0x3,
    0x0,
    0x0,
    0x21a,
    u32::MAX,
    0x0,
    0x21b,
    u32::MAX,
    0x1,
    0x21c,
    u32::MAX,
    0x1,
    0x41d,
    u32::MAX,
    0xa,
    0x0,
    0x3,
    0x517,
    u32::MAX,
    0x1,
    0x2,
    0x0,
    0x4,
    0x310,
    u32::MAX,
    0x0,
    0x4,
    0x310,
    u32::MAX,
    0x3,
    0x1,
    0x340,
    0x5,
    0x7,
    0x0,
    0x340,
    0x6,
    0x7,
    0x0,
    0x340,
    0x1,
    0x3f800000,
    0x0,
    0x143,
    0x9,
    0x247,
    0x4,
    0x2,
    0x142,
    0x0,
    0x250,
    0x2,
    0x5,
    0x351,
    0x0,
    0x5,
    0x5,
    0x141,
    0x0,
    0x420,
    0x1,
    0x43,
    0x1,
    0x0,
    0x421,
    u32::MAX,
    0x1,
    0x0,
    0x3,
    0x521,
    0x4,
    0x7265766f,
    0x1,
    u32::MAX,
    u32::MAX,
    0x522,
    u32::MAX,
    0x6,
    0x0,
    0x9,
    u32::MAX,
    0x522,
    u32::MAX,
    0x4,
    0x3,
    0x12,
    u32::MAX,
    0x522,
    u32::MAX,
    0x5,
    0x0,
    0xa,
    u32::MAX,
    0x522,
    u32::MAX,
    0x5,
    0x0,
    0xe,
    u32::MAX,
    0x722,
    0x7,
    0x76697270,
    0x657461,
    0x1,
    0x0,
    0x0,
    0x2,
    0x932,
    u32::MAX,
    0x4,
    0x3,
    0x12,
    u32::MAX,
    0x1,
    0x2,
    0x3,
    0x1,
    0x304,
    u32::MAX,
    u32::MAX,
    u32::MAX,
    0x105,
    0x9,
    0x108,
    0x9,
    0x209,
    0x9,
    0x1,
    0x10a,
    0x0,
    0x10b,
    0x0,
    0x10c,
    0x0,
    0x10d,
    0x0,
    0x323,
    0x6,
    0x706c6568,
    0x7265,
    0x628,
    0x1,
    0x78,
    0x0,
    0x0,
    0x0,
    0x0,
    0x528,
    u32::MAX,
    0x2,
    0x0,
    0x0,
    0x0,
    0x329,
    u32::MAX,
    0x0,
    u32::MAX,
    0x42a,
    0x0,
    0x0,
    0x0,
    0x0,
    0x12c,
    0x0,
    0x189,
    0x0,
    0x189,
    0x1,
    0x286,
    0x1,
    0x2,
    0x391,
    0x0,
    0x0,
    0x2,
    0x380,
    0x5,
    0x1,
    0x0,
    0x285,
    0x1,
    0x4,
    0x688,
    0x2,
    0x1,
    0x0,
    0x0,
    0x0,
    0x0,
    0x18a,
    0x0,
    0x286,
    0x7,
    0x0,
    0x18c,
    0x8,
    0x396,
    0x0,
    0x1,
    0x4,
    0x595,
    0x0,
    0x0,
    u32::MAX,
    u32::MAX,
    u32::MAX,
    0x18b,
    0x0,
    0x18a,
    0x1,
    0x19a,
    0xd,
    0x584,
    0x2,
    0x0,
    0x0,
    0x0,
    0x0,
    0x287,
    0x4,
    0x0,
    0x42b,
    0x5,
    0x656d616e,
    0x64,
    0x3,
    0x2c0,
    0x2,
    0x4,
    0x2d0,
    0xc,
    0x3,
    0x1c2,
    0x4,
    0x1cc,
    0x0,
    0xc3,
    0xca,
    0xc8,
    0xc1,
    0xcd,
    0xc8,
    0x1c4,
    0x4,
    0x1c5,
    0x1,
    0xce,
    0x1c5,
    0x0,
    0xcf,
    0xc8,
    0xc6,
    0xcb,
    0xc7,
    0x1c9,
    u32::MAX,
    0x1cc,
    0x3,
    0x224,
    0x4,
    0x6e69616d,
    0x230,
    0x5,
    0x0,
    0x331,
    0x8,
    0x8,
    0x1,
    0x32d,
    u32::MAX,
    0x0,
    u32::MAX,
    0x12e,
    0x0,
    0x52f,
    0x0,
    0x0,
    0x0,
    u32::MAX,
    u32::MAX,
    0x42a,
    0x2,
    0x2,
    0x0,
    0x0,
    0x18a,
    0x2,
    0x18a,
    0x3,
    0x380,
    0x1,
    0x0,
    0x0,
    0x584,
    0x2,
    0x2,
    0x2,
    0x2,
    0x2,
    0x688,
    0x2,
    0x3,
    0x0,
    0x1,
    0x0,
    0x0,
    0xb8d,
    0x0,
    0x1,
    u32::MAX,
    0x4,
    u32::MAX,
    u32::MAX,
    0x0,
    0x0,
    0x0,
    u32::MAX,
    0x0,
    0x38f,
    0x0,
    0x0,
    u32::MAX,
    0x193,
    0x2,
    0x294,
    0x2,
    0x2,
    0x197,
    0x0,
    0x2c0,
    0x2,
    0x6,
    0x4d5,
    0x0,
    0x9,
    0x2,
    0x3,
    0x1cc,
    0x5,
];
