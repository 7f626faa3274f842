//! The pieces of texts.

ghost use Rattle.naga_error_text.specs.Classes.{image_class_of, image_class_parts, two_values};
ghost use Rattle.naga_error_text.specs.Flags as flags;
ghost use Rattle.naga_error_text.specs.Spaces.{is_storage, space_parts};
ghost use Rattle.naga_error_text.specs.steps.Pieces.{are_short_parts, part_text, place_value, row_of};
ghost use Rattle.std.specs.Prelude.{◌≡◌, IsTrue, map};

use crate::names::Names;

/// What the errors of a call hold.
#[derive(Clone, Copy, Debug, PartialEq)]
pub struct Values {
    pub first: u64,
    pub second: u64,
    pub third: u64,
    pub fourth: u64,
    pub fifth: u64,
    /// The item that is refused.
    pub index: u64,
    /// The expression that is refused.
    pub expression: u64,
    /// The kind of the item.
    pub kind: u64,
}

/// Two values.
pub(crate) fn two_values(first: u64, second: u64) -> Values
    ensures { result ≡ two_values first second }
{
    Values {
        first,
        second,
        third: 0,
        fourth: 0,
        fifth: 0,
        index: 0,
        expression: 0,
        kind: 0,
    }
}

/// Which of these values.
#[derive(Clone, Copy, Debug, PartialEq)]
pub enum Place {
    First,
    Second,
    Third,
    Fourth,
    Fifth,
    Index,
    Expression,
    Kind,
}

impl Values {
    /// The value at a place.
    pub(crate) fn at(self, place: Place) -> u64
        ensures { result ≡ place_value self place }
    {
        match place {
            Place::First => self.first,
            Place::Second => self.second,
            Place::Third => self.third,
            Place::Fourth => self.fourth,
            Place::Fifth => self.fifth,
            Place::Index => self.index,
            Place::Expression => self.expression,
            Place::Kind => self.kind,
        }
    }
}

/// A piece of the text of a class of images or of an address space.
#[derive(Clone, Copy)]
pub enum Part {
    /// Words that stand in each such text.
    Words(&'static str),
    /// A number in decimal digits.
    Number(Place),
    /// The name of what a number stands for.
    Name(Names, Place),
}

/// A piece of the text of an error.
#[derive(Clone, Copy)]
pub enum Piece {
    /// Words that stand in each such text.
    Words(&'static str),
    /// A number in decimal digits.
    Number(Place),
    /// The name of what a number stands for.
    Name(Names, Place),
    /// A class of images, by its number and the two words after it.
    Class(Place, Place, Place),
    /// An address space, by its number and the number of what may be done with it.
    Space(Place, Place),
    /// A set of flags of types, by their bits.
    TypeFlags(Place),
}

/// A class of images.
#[derive(Clone, Copy, Debug, PartialEq)]
pub enum ImageClass {
    Sampled,
    Depth,
    Storage,
    External,
    /// A number that stands for no class.
    Unknown,
}

/// The class of images of a number.
pub(crate) fn image_class_of(number: u64) -> ImageClass
    ensures { result ≡ image_class_of number }
{
    match number {
        0 => ImageClass::Sampled,
        1 => ImageClass::Depth,
        2 => ImageClass::Storage,
        3 => ImageClass::External,
        _ => ImageClass::Unknown,
    }
}

/// The pieces of the text of a class of images, whose two words are the first two values.
pub(crate) fn image_class_pieces(class: ImageClass) -> &'static [Part]
    ensures text { (values : Values) → map (part_text values) result.now ≡ image_class_parts class values }
    ensures short { IsTrue (are_short_parts result.now) }
{
    match class {
        ImageClass::Sampled => &[
            Part::Words("Sampled { kind: "),
            Part::Name(Names::ScalarKinds, Place::First),
            Part::Words(", multi: "),
            Part::Name(Names::Bools, Place::Second),
            Part::Words(" }"),
        ],
        ImageClass::Depth => &[
            Part::Words("Depth { multi: "),
            Part::Name(Names::Bools, Place::First),
            Part::Words(" }"),
        ],
        ImageClass::Storage => &[
            Part::Words("Storage { format: "),
            Part::Name(Names::StorageFormats, Place::First),
            Part::Words(", access: "),
            Part::Name(Names::Accesses, Place::Second),
            Part::Words(" }"),
        ],
        ImageClass::External => &[Part::Words("External")],
        ImageClass::Unknown => &[Part::Words("unknown")],
    }
}

/// Whether a number is that of storage, in which more may be done or less.
pub(crate) fn is_storage(number: u64) -> bool
    ensures { result ≡ is_storage number }
{
    number == 4
}

/// The pieces of the text of storage, or of another address space, whose number and access are the first two values.
pub(crate) fn space_pieces(is_storage: bool) -> &'static [Part]
    ensures text { (values : Values) → map (part_text values) result.now ≡ space_parts is_storage values }
    ensures short { IsTrue (are_short_parts result.now) }
{
    if is_storage {
        &[
            Part::Words("Storage { access: "),
            Part::Name(Names::Accesses, Place::Second),
            Part::Words(" }"),
        ]
    } else {
        &[Part::Name(Names::Spaces, Place::First)]
    }
}

/// A flag.
#[derive(Clone, Copy)]
pub struct Flag {
    pub(crate) bit: u64,
    /// The bits of the flags before it together.
    pub(crate) before: u64,
    pub(crate) name: &'static str,
}

/// The flags of types.
pub(crate) fn type_flags() -> &'static [Flag]
    ensures { map row_of result.now ≡ flags.type_flags }
{
    &[
        Flag {
            bit: 0x1,
            before: 0x0,
            name: "DATA",
        },
        Flag {
            bit: 0x2,
            before: 0x1,
            name: "SIZED",
        },
        Flag {
            bit: 0x4,
            before: 0x3,
            name: "COPY",
        },
        Flag {
            bit: 0x8,
            before: 0x7,
            name: "IO_SHAREABLE",
        },
        Flag {
            bit: 0x10,
            before: 0xf,
            name: "HOST_SHAREABLE",
        },
        Flag {
            bit: 0x20,
            before: 0x1f,
            name: "CREATION_RESOLVED",
        },
        Flag {
            bit: 0x40,
            before: 0x3f,
            name: "ARGUMENT",
        },
        Flag {
            bit: 0x80,
            before: 0x7f,
            name: "CONSTRUCTIBLE",
        },
    ]
}
