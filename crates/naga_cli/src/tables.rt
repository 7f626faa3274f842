//! The lines for people that show the layout of a type.

use crate::layout::{Fit, LayoutOf};
use crate::rows::{LeafRow, Row};
use naga_verdict::lines::add_item;
use std::alloc::{AllocError, Global};

/// Adds whether an address space takes a type, and else why it doesn't.
fn add_fit(text: &mut String, space: &str, fit: &Fit) -> Result<(), AllocError> {
    write!(text, "  {space}: ")?;
    match fit {
        Fit::Fits(alignment) => write!(text, "yes, alignment {alignment}\n"),
        Fit::Disaligned { at, why } => {
            text.push_str("no, ")?;
            add_item(text, at.item, &at.label)?;
            write!(text, ": {why}\n")
        }
    }
}

/// Adds which address spaces take a type.
fn add_fits(text: &mut String, layout: &LayoutOf) -> Result<(), AllocError> {
    add_fit(text, "uniform", &layout.uniform)?;
    add_fit(text, "storage", &layout.storage)?;
    match &layout.immediates {
        None => text.push_str("  immediates: yes\n"),
        Some(why) => write!(text, "  immediates: no: {why}\n"),
    }
}

/// Adds a text, and spaces up to a width.
fn add_padded(text: &mut String, word: &str, width: usize) -> Result<(), AllocError> {
    text.push_str(word)?;
    for _ in word.len()..width {
        text.push(' ')?;
    }
    Ok(())
}

/// The width of the column of types.
const TYPE_WIDTH: usize = 32;

/// Adds what is shown of a leaf besides its bytes.
fn add_leaf(text: &mut String, leaf: &LeafRow) -> Result<(), AllocError> {
    let alignment = leaf.alignment;
    write!(text, "  {alignment:>5}  ")?;
    let mut ty = leaf.ty.clone()?;
    if let Some(stride) = leaf.column_stride {
        write!(ty, ", column stride {stride}")?;
    }
    add_padded(text, ty.as_str(), TYPE_WIDTH)?;
    let path = leaf.path.as_str();
    text.push_str("  ")?;
    text.push_str(if path.is_empty() { "." } else { path })?;
    text.push('\n')
}

/// Adds some bytes of a type.
fn add_row(text: &mut String, row: &Row) -> Result<(), AllocError> {
    let offset = row.offset;
    let size = row.size;
    write!(text, "  {offset:>8}  {size:>8}")?;
    match &row.leaf {
        Some(leaf) => add_leaf(text, leaf),
        None => text.push_str("         padding\n"),
    }
}

/// Adds the size and the alignment of a type.
fn add_size(text: &mut String, layout: &LayoutOf) -> Result<(), AllocError> {
    let size = layout.size;
    let alignment = layout.alignment;
    write!(text, ": size {size}, alignment {alignment}")?;
    match layout.elements {
        Some(1) => text.push_str(", with 1 element\n"),
        Some(count) => write!(text, ", with {count} elements\n"),
        None => text.push('\n'),
    }
}

/// The lines that show the layout of a type.
pub fn table_of(alloc: Global, layout: &LayoutOf) -> Result<String, AllocError> {
    let mut text = String::new(alloc);
    add_item(&mut text, layout.at.item, &layout.at.label)?;
    if let Some(line) = layout.at.line {
        write!(text, ", line {line}")?;
    }
    add_size(&mut text, layout)?;
    add_fits(&mut text, layout)?;
    if let Some(slots) = layout.slots {
        let bits = slots.to_raw();
        write!(text, "  slots: {bits:016x} {slots}\n")?;
    }
    if !layout.rows.is_empty() {
        text.push_str("    offset      size  align  ")?;
        add_padded(&mut text, "type", TYPE_WIDTH)?;
        text.push_str("  path\n")?;
    }
    for row in &layout.rows {
        add_row(&mut text, row)?;
    }
    if layout.is_cut {
        text.push_str("  and so on\n")?;
    }
    Ok(text)
}
