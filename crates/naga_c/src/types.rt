//! The call on a module: its verdict, and an info for each type.

ghost use Rattle.naga_c.specs.Accepted.{IsAccepted};
ghost use Rattle.naga_c.specs.Buffers.{BeginsWith};
ghost use Rattle.naga_c.specs.Types.{ChecksTypes, ReportsTypes, alignment_of, error_of, rows_of, type_row};
ghost use Rattle.naga_arena.specs.Numbers.{largest_u32};
ghost use Rattle.naga_ir.specs.Handles.{GlobalReferencesOk};
ghost use Rattle.naga_ir.specs.ItemReferences.{global_lists};
ghost use Rattle.std.specs.Prelude.{◌≡◌, ◌≤◌, length};

use crate::accepted::AcceptedModule;
use crate::codes::disalignment_code;
use crate::results::{Outcome, TypeRow};
use crate::status::Status;
use crate::verdict::{counts_of, no_outcome};
use naga_typing::context::to_ctx;
use naga_typing::layouter::{Layouter, TypeLayout};
use naga_valid::{Flags, FullTyping, Handle, LayoutCompatibility, Module, TypeInfo, Validator};
use std::alloc::Global;

/// The alignment of a layout, or 0 if there is none.
fn alignment_of(layout: LayoutCompatibility) -> u32
    ensures { result ≡ alignment_of layout }
{
    match layout {
        Ok(alignment) => alignment.get(),
        Err(_) => 0,
    }
}

/// Why there is no layout, or 0 if there is one.
fn error_of(layout: LayoutCompatibility) -> u32
    ensures { result ≡ error_of layout }
{
    match layout {
        Ok(_) => 0,
        Err((_, disalignment)) => disalignment_code(&disalignment),
    }
}

/// The row of a type.
fn type_row(info: TypeInfo, layout: TypeLayout) -> TypeRow
    ensures { result ≡ type_row info layout }
{
    TypeRow {
        flags: u32::from(info.flags.bits()),
        size: layout.size,
        alignment: layout.alignment.get(),
        uniform_alignment: alignment_of(info.uniform_layout),
        uniform_error: error_of(info.uniform_layout),
        storage_alignment: alignment_of(info.storage_layout),
        storage_error: error_of(info.storage_layout),
        immediates: u32::from(info.immediates_compatibility.is_ok()),
    }
}

/// Writes the row of each type of an accepted module.
fn write_rows(validator: &Validator<FullTyping>, layouter: &Layouter, rows: &mut [TypeRow])
    requires laid_out { length layouter.now ≡ length validator.now.infos }
    requires handles { length validator.now.infos ≤ largest_u32 }
    requires room { length validator.now.infos ≤ length rows.old }
    ensures { BeginsWith (rows_of validator.now.infos layouter.now) rows.old rows.new }
{
    for index in 0..validator.type_count() {
        let handle = Handle::new(index as u32);
        rows[index] = type_row(validator.type_info(handle), layouter[handle]);
    }
}

/// Writes the rows of types with these infos, if they are wanted and have room.
fn report_rows(
    alloc: Global,
    module: &Module,
    validator: &Validator<FullTyping>,
    rows: &mut [TypeRow],
    outcome: &mut Outcome,
) -> Status
    requires same_length { length validator.now.infos ≡ length «module».now.types }
    requires references { GlobalReferencesOk (global_lists «module».now) }
    ensures { ReportsTypes «module».now validator.now.infos rows.old rows.new outcome.new result }
{
    *outcome = counts_of(module);
    let count = module.types.len();
    if rows.is_empty() {
        return Status::Done;
    }
    if rows.len() < count {
        return Status::Room;
    }
    let mut layouter = Layouter::new(alloc);
    let Ok(()) = layouter.update(to_ctx(module)) else {
        *outcome = no_outcome();
        return Status::OutOfMemory;
    };
    write_rows(validator, &layouter, rows);
    outcome.written = count as u64;
    Status::Done
}

/// Writes the rows of the types of an accepted module, if they are wanted and have room.
pub(crate) fn report_types(
    alloc: Global,
    accepted: &AcceptedModule,
    rows: &mut [TypeRow],
    outcome: &mut Outcome,
) -> Status
    requires { IsAccepted accepted.now }
    ensures { ChecksTypes accepted.now.subject rows.old rows.new outcome.new result }
{
    let module = &accepted.subject.module;
    report_rows(alloc, module, &accepted.validator, rows, outcome)
}
