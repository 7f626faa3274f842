//! Where the leaves of a type are, and which address spaces take it.

ghost use Rattle.naga_cli.specs.Rows.{Cover, ShowLeaves};
ghost use Rattle.std.specs.Prelude.{◌≡◌, ◌<◌, IfOk, false, length as length_of};
ghost use Rattle.naga_ir.specs.Handles.{GlobalReferencesOk};
ghost use Rattle.naga_ir.specs.ItemReferences.{global_lists};

use crate::arguments::Shown;
use crate::leaf_types::add_leaf_type;
use crate::paths::{add_path, inner_of};
use crate::rows::{LeafRow, Row, Rows};
use naga_source::reading::Subject;
use naga_valid::{
    ArraySize, Disalignment, Handle, ImmediateSlots, LayoutCompatibility, Layouter, Leaf, Module,
    OutOfMemory, TypeInfo, TypeInner, TypeLayout, TypeTag, leaves_of, to_ctx,
};
use naga_verdict::item::Item;
use naga_verdict::verdict::Named;
use std::alloc::{AllocError, Global};

/// How many leaves of a type are shown at most.
const MOST_LEAVES: usize = 1000;

/// Whether an address space takes a type.
#[derive(Drop)]
pub enum Fit {
    /// It does, at this alignment.
    Fits(u32),
    /// It doesn't, because of this type.
    Disaligned { at: Named, why: Disalignment },
}

/// The layout of a type.
#[derive(Drop)]
pub struct LayoutOf {
    pub at: Named,
    /// The number of bytes, with runtime-sized arrays of the length that is asked for.
    pub size: u64,
    /// How many elements a runtime-sized array at its end has, if there is one.
    pub elements: Option<u32>,
    pub alignment: u32,
    pub uniform: Fit,
    pub storage: Fit,
    /// Why immediates can't hold it, if they can't.
    pub immediates: Option<String>,
    pub slots: Option<ImmediateSlots>,
    pub rows: Vec<Row>,
    /// Whether there are more leaves than are shown.
    pub is_cut: bool,
}

/// The stride of a runtime-sized array.
fn dynamic_stride(inner: &TypeInner) -> Option<u32> {
    match inner {
        TypeInner::Array {
            size: ArraySize::Dynamic,
            stride,
            ..
        } => Some(*stride),
        _ => None,
    }
}

/// The offset and the stride of a runtime-sized array that is a type, or its last member.
fn dynamic_end(module: &Module, inner: &TypeInner) -> Option<(u32, u32)> {
    if let Some(stride) = dynamic_stride(inner) {
        return Some((0, stride));
    }
    let TypeInner::Struct { members, .. } = inner else {
        return None;
    };
    let last = members.as_slice().last()?;
    let stride = dynamic_stride(inner_of(module, last.ty)?)?;
    Some((last.offset, stride))
}

/// Whether an address space takes a type.
fn fit_of(subject: &Subject, layout: LayoutCompatibility) -> Result<Fit, AllocError> {
    match layout {
        Ok(alignment) => Ok(Fit::Fits(alignment.get())),
        Err((ty, why)) => Ok(Fit::Disaligned {
            at: subject.places.named(Item::Type_(ty.index()))?,
            why,
        }),
    }
}

/// What is shown of a leaf.
fn leaf_row(
    alloc: Global,
    subject: &Subject,
    ty: Handle<TypeTag>,
    path: &[u32],
    leaf: Leaf,
) -> Result<LeafRow, AllocError>
    ensures { IfOk result (λ row. row.alignment ≡ leaf.alignment) }
{
    let mut text = String::new(alloc);
    let at = add_path(&mut text, &subject.module, &subject.places, ty, path)?;
    let inner = at.and_then(|ty| inner_of(&subject.module, ty));
    let mut name = String::new(alloc);
    if let Some(inner) = inner {
        add_leaf_type(&mut name, inner)?;
    }
    Ok(LeafRow {
        alignment: leaf.alignment,
        path: text,
        ty: name,
        column_stride: match inner {
            // The columns of a matrix are as far apart as they are aligned.
            Some(TypeInner::Matrix { .. }) => Some(leaf.alignment),
            _ => None,
        },
    })
}

/// The rows of a type: its leaves in order, up to `MOST_LEAVES`, and whether there are more.
fn rows_of(
    alloc: Global,
    subject: &Subject,
    ty: Handle<TypeTag>,
    length: u32,
) -> Result<(Rows, bool), OutOfMemory>
    requires exists { ty < length_of subject.now.«module».types }
    requires references { GlobalReferencesOk (global_lists subject.now.«module») }
    ensures covered { IfOk result (λ found. Cover found.0.rows.items found.0.end) }
    ensures leaves { IfOk result (λ found.
        ShowLeaves (global_lists subject.now.«module») length ty found.1 found.0.rows.items) }
{
    let mut rows = Rows::new(alloc);
    let mut leaves = leaves_of(alloc, &subject.module, ty, length);
    let mut shown = 0;
    while let Some(leaf) = leaves.next()? {
        if shown == MOST_LEAVES {
            return Ok((rows, true));
        }
        let row = leaf_row(alloc, subject, ty, leaves.path(), leaf)?;
        rows.add(leaf.first, u64::from(leaf.size), row)?;
        shown += 1;
    }
    Ok((rows, false))
}

/// The layouts of the types of an accepted module.
pub fn layouts_of(alloc: Global, module: &Module) -> Result<Layouter, OutOfMemory>
    requires { GlobalReferencesOk (global_lists «module».now) }
    ensures { IfOk result (λ layouts. length_of layouts ≡ length_of «module».now.types) }
{
    let mut layouter = Layouter::new(alloc);
    match layouter.update(to_ctx(module)) {
        Ok(()) => Ok(layouter),
        Err(_) => Err(OutOfMemory),
    }
}

/// The slots that a type uses from byte 0 on, if they are asked for.
fn slots_of(module: &Module, ty: Handle<TypeTag>, shown: Shown) -> Option<ImmediateSlots>
    requires exists { ty < length_of «module».now.types }
    requires references { GlobalReferencesOk (global_lists «module».now) }
{
    if !shown.slots {
        return None;
    }
    let gctx = to_ctx(module);
    Some(ImmediateSlots::from_type(&module.types[ty].inner, 0, &module.types, gctx))
}

/// The layout of a type of an accepted module.
pub fn layout_of(
    alloc: Global,
    subject: &Subject,
    ty: Handle<TypeTag>,
    known: (TypeLayout, TypeInfo),
    shown: Shown,
) -> Result<LayoutOf, OutOfMemory>
    requires exists { ty < length_of subject.now.«module».types }
    requires references { GlobalReferencesOk (global_lists subject.now.«module») }
    ensures covered { IfOk result (λ layout. layout.is_cut ≡ false → Cover layout.rows.items layout.size) }
    ensures leaves { IfOk result (λ layout.
        ShowLeaves (global_lists subject.now.«module») shown.length ty layout.is_cut layout.rows.items) }
{
    let (layout, info) = known;
    let end = dynamic_end(&subject.module, &subject.module.types[ty].inner);
    let size = match end {
        Some((offset, stride)) => u64::from(stride)
            .saturating_mul(u64::from(shown.length))
            .saturating_add(u64::from(offset)),
        None => u64::from(layout.size),
    };
    let (rows, is_cut) = rows_of(alloc, subject, ty, shown.length)?;
    let rows = rows.finish(size, is_cut)?;
    Ok(LayoutOf {
        at: subject.places.named(Item::Type_(ty.index()))?,
        size,
        elements: end.map(|_| shown.length),
        alignment: layout.alignment.get(),
        uniform: fit_of(subject, info.uniform_layout)?,
        storage: fit_of(subject, info.storage_layout)?,
        immediates: match info.immediates_compatibility {
            Ok(()) => None,
            Err(error) => Some(error.to_string(alloc)?),
        },
        slots: slots_of(&subject.module, ty, shown),
        rows,
        is_cut,
    })
}
