//! The structs that calls write for their callers: those of bindings/c/naga_check.h, field by field.

/// What was found out about a module.
#[repr(C)]
#[derive(Clone, Copy, Debug, Default, PartialEq)]
pub struct Outcome {
    /// The index of the first word that can't be read, or of the item that is refused.
    pub index: u64,
    /// How many types the module has.
    pub types: u64,
    pub functions: u64,
    pub entry_points: u64,
    /// How many elements were written to the caller's buffer.
    pub written: u64,
    /// What the errors hold, outermost error first, then 0.
    pub values: [u64; 5],
    /// Which kind of rule is broken, or 0.
    pub stage: u32,
    /// The kind of item that `index` is of, or 0.
    pub kind: u32,
    /// The error of the stage, and the errors within it, outermost first, then 0.
    pub errors: [u32; 4],
    /// How many values the errors hold.
    pub value_count: u32,
    /// The expression that is refused, of a function or entry point.
    pub expression: u32,
}

/// What is known of a type. Sizes and alignments are in bytes.
#[repr(C)]
#[derive(Clone, Copy, Debug, Default, PartialEq)]
pub struct TypeRow {
    pub flags: u32,
    pub size: u32,
    pub alignment: u32,
    /// The alignment in uniform buffers, or 0 if the type has no layout there.
    pub uniform_alignment: u32,
    /// Why it has none, or 0.
    pub uniform_error: u32,
    /// The alignment in storage buffers, or 0 if the type has no layout there.
    pub storage_alignment: u32,
    /// Why it has none, or 0.
    pub storage_error: u32,
    /// 1 if immediates may hold it, else 0.
    pub immediates: u32,
}

/// A leaf of a type.
#[repr(C)]
#[derive(Clone, Copy, Debug, Default, PartialEq)]
pub struct LeafRow {
    /// The place of its first byte.
    pub first: u64,
    /// Where its path begins in the buffer of paths.
    pub path_at: u64,
    /// The number of indexes that lead to it.
    pub path_length: u32,
    /// In bytes.
    pub size: u32,
    /// In bytes.
    pub alignment: u32,
    /// To which of the types that were asked about it belongs, from 0.
    pub query: u32,
}

/// How many leaves and how many indexes of paths were written.
#[repr(C)]
#[derive(Clone, Copy, Debug, Default, PartialEq)]
pub struct Counts {
    pub leaves: u64,
    pub paths: u64,
}
