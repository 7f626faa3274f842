//! The bytes of a type, row by row: leaves, and the padding between them.

ghost use Rattle.naga_arena.specs.Numbers.{largest_u64};
ghost use Rattle.naga_cli.specs.Rows.{Cover, padding};
ghost use Rattle.std.specs.Prelude.{◌≡◌, ◌+◌, ◌≤◌, ◌++◌, ◌∷◌, [], IfOk, OnOk, Some, false, if◌then◌else◌, max, min};

use std::alloc::{AllocError, Global};

/// Some bytes of a type: a leaf, or padding.
#[derive(Drop)]
pub struct Row {
    pub offset: u64,
    pub size: u64,
    /// What is shown of the leaf, unless these bytes are padding.
    pub leaf: Option<LeafRow>,
}

/// What is shown of a leaf besides its bytes.
#[derive(Drop)]
pub struct LeafRow {
    pub alignment: u32,
    pub path: String,
    pub ty: String,
    /// From the start of a column to the start of the next, of a matrix.
    pub column_stride: Option<u32>,
}

/// Rows that have all bytes up to an end.
#[derive(Drop)]
pub struct Rows {
    pub rows: Vec<Row>,
    /// The byte behind the last one.
    pub end: u64,
}

impl Rows {
    /// No row.
    pub fn new(alloc: Global) -> Rows
        ensures covered { Cover result.rows.items result.end }
        ensures rows { result.rows.items ≡ [] }
    {
        Rows {
            rows: Vec::new(alloc),
            end: 0,
        }
    }

    /// Adds a row that begins by the end of those before it.
    fn push(&mut self, row: Row) -> Result<(), AllocError>
        requires covered { Cover self.old.rows.items self.old.end }
        requires next { row.offset ≤ self.old.end }
        ensures rows { OnOk result (self.new.rows.items ≡ self.old.rows.items ++ row ∷ []) }
        ensures covered { OnOk result (Cover self.new.rows.items self.new.end) }
        ensures end { OnOk result (self.new.end ≡ max (min (row.offset + row.size) largest_u64) self.old.end) }
    {
        let end = row.offset.saturating_add(row.size).max(self.end);
        self.rows.push(row)?;
        self.end = end;
        Ok(())
    }

    /// Adds a row for the bytes from the end of the rows so far up to an offset, if there are some.
    pub fn pad(&mut self, offset: u64) -> Result<(), AllocError>
        requires { Cover self.old.rows.items self.old.end }
        ensures rows { OnOk result (self.new.rows.items ≡ self.old.rows.items ++ padding self.old.end offset) }
        ensures covered { OnOk result (Cover self.new.rows.items self.new.end) }
        ensures end { OnOk result (offset ≤ self.new.end) }
    {
        if self.end < offset {
            let size = offset - self.end;
            self.push(Row {
                offset: self.end,
                size,
                leaf: None,
            })?;
        }
        Ok(())
    }

    /// Adds the row of a leaf, behind padding if it needs some.
    pub fn add(&mut self, offset: u64, size: u64, leaf: LeafRow) -> Result<(), AllocError>
        requires { Cover self.old.rows.items self.old.end }
        ensures rows { OnOk result (self.new.rows.items ≡ self.old.rows.items ++ (padding self.old.end offset
            ++ record { offset = offset; size = size; leaf = Some leaf } ∷ [])) }
        ensures covered { OnOk result (Cover self.new.rows.items self.new.end) }
    {
        self.pad(offset)?;
        self.push(Row {
            offset,
            size,
            leaf: Some(leaf),
        })
    }

    /// The rows, behind which padding follows up to a size, unless leaves are left out.
    #[tactic(auto, using(crate::proofs::Covered::fewer))]
    pub fn finish(mut self, size: u64, is_cut: bool) -> Result<Vec<Row>, AllocError>
        requires { Cover self.rows.items self.end }
        ensures rows { IfOk result (λ rows.
            rows.items ≡ self.rows.items ++ (if is_cut then [] else padding self.end size)) }
        ensures covered { IfOk result (λ rows. is_cut ≡ false → Cover rows.items size) }
    {
        if !is_cut {
            self.pad(size)?;
        }
        let Rows { rows, .. } = self;
        Ok(rows)
    }
}
