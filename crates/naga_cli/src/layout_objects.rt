//! The objects of JSON that show the layout of a type.

use crate::layout::{Fit, LayoutOf};
use crate::rows::{LeafRow, Row};
use naga_valid::ImmediateSlots;
use naga_verdict::json_text::{add_optional_number, add_optional_str, add_string};
use naga_verdict::objects::add_known;
use std::alloc::{AllocError, Global};

/// The file of a module, and the title of its case if the file has cases.
#[derive(Clone, Copy)]
pub struct ObjectPlace<'a> {
    pub file: &'a str,
    pub case: Option<&'a str>,
}

/// Adds whether an address space takes a type: the alignment, or else the type at fault and the reason.
fn add_fit(alloc: Global, json: &mut String, space: &str, fit: &Fit) -> Result<(), AllocError> {
    match fit {
        Fit::Fits(alignment) => write!(json, ",\"{space}\":{{\"alignment\":{alignment}}}"),
        Fit::Disaligned { at, why } => {
            write!(json, ",\"{space}\":{{\"alignment\":null,")?;
            add_known(alloc, json, at)?;
            json.push_str(",\"error\":")?;
            add_string(alloc, json, why.name())?;
            json.push_str(",\"text\":")?;
            let text = why.to_string(alloc)?;
            add_string(alloc, json, text.as_str())?;
            json.push('}')
        }
    }
}

/// Adds why immediates can't hold a type, and the slots that it uses, or `null`.
fn add_immediates(
    alloc: Global,
    json: &mut String,
    why: Option<&str>,
    slots: Option<ImmediateSlots>,
) -> Result<(), AllocError> {
    let fits = why.is_none();
    write!(json, ",\"immediates\":{{\"fits\":{fits},\"text\":")?;
    add_optional_str(alloc, json, why)?;
    match slots {
        Some(slots) => {
            let bits = slots.to_raw();
            write!(json, "}},\"slots\":\"{bits:016x}\"")
        }
        None => json.push_str("},\"slots\":null"),
    }
}

/// Adds what is shown of a leaf besides its bytes.
fn add_leaf(alloc: Global, json: &mut String, leaf: &LeafRow) -> Result<(), AllocError> {
    let alignment = leaf.alignment;
    write!(json, ",\"alignment\":{alignment},\"type\":")?;
    add_string(alloc, json, leaf.ty.as_str())?;
    json.push_str(",\"column_stride\":")?;
    match leaf.column_stride {
        Some(stride) => write!(json, "{stride}")?,
        None => json.push_str("null")?,
    }
    json.push_str(",\"path\":")?;
    add_string(alloc, json, leaf.path.as_str())
}

/// Adds some bytes of a type.
fn add_row(alloc: Global, json: &mut String, row: &Row) -> Result<(), AllocError> {
    let offset = row.offset;
    let size = row.size;
    write!(json, "{{\"offset\":{offset},\"size\":{size}")?;
    match &row.leaf {
        Some(leaf) => add_leaf(alloc, json, leaf)?,
        None => json.push_str(
            ",\"alignment\":null,\"type\":null,\"column_stride\":null,\"path\":null",
        )?,
    }
    json.push('}')
}

/// Adds the rows of a type.
fn add_rows(alloc: Global, json: &mut String, layout: &LayoutOf) -> Result<(), AllocError> {
    json.push_str(",\"bytes\":[")?;
    for (i, row) in layout.rows.iter().enumerate() {
        if i > 0 {
            json.push(',')?;
        }
        add_row(alloc, json, row)?;
    }
    let all = !layout.is_cut;
    write!(json, "],\"all\":{all}")
}

/// The line of JSON that shows the layout of a type.
pub fn layout_object_of(
    alloc: Global,
    place: ObjectPlace<'_>,
    layout: &LayoutOf,
) -> Result<String, AllocError> {
    let mut json = String::new(alloc);
    json.push_str("{\"file\":")?;
    add_string(alloc, &mut json, place.file)?;
    json.push_str(",\"case\":")?;
    add_optional_str(alloc, &mut json, place.case)?;
    json.push(',')?;
    add_known(alloc, &mut json, &layout.at)?;
    let size = layout.size;
    let alignment = layout.alignment;
    write!(
        json,
        ",\"size\":{size},\"alignment\":{alignment},\"elements\":"
    )?;
    add_optional_number(&mut json, layout.elements.map(|count| count as usize))?;
    add_fit(alloc, &mut json, "uniform", &layout.uniform)?;
    add_fit(alloc, &mut json, "storage", &layout.storage)?;
    let why = layout.immediates.as_ref().map(|why| why.as_str());
    add_immediates(alloc, &mut json, why, layout.slots)?;
    add_rows(alloc, &mut json, layout)?;
    json.push_str("}\n")?;
    Ok(json)
}
