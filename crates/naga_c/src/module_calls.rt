//! The calls on a module that is opened once: its words are read and validated by the first, and what was found is kept.

ghost use Rattle.naga_c.specs.Accepted.{IsAccepted};
ghost use Rattle.naga_c.specs.Calls.{LeavesBuffer, OfWords};
ghost use Rattle.naga_c.specs.Declarations.{ChecksDeclarations};
ghost use Rattle.naga_c.specs.Functions.{ChecksFunctions};
ghost use Rattle.naga_c.specs.LeafCounts.{ChecksCounts};
ghost use Rattle.naga_c.specs.Leaves.{ChecksLeaves, LeavesBuffers, buffers, no_counts};
ghost use Rattle.naga_c.specs.OpenModules.{IsOpenModule, OfOpenModule, Opens};
ghost use Rattle.naga_c.specs.Slots.{ChecksSlots};
ghost use Rattle.naga_c.specs.Statuses.{Returns};
ghost use Rattle.naga_c.specs.Types.{ChecksTypes};
ghost use Rattle.naga_c.specs.declared.accepted.AcceptedModule.{AcceptedModule as Accepted};
ghost use Rattle.std.specs.Prelude.{◌≡◌};
ghost use Rattle.std.specs.declared.option.Option.TheVariants.{None};

use crate::accepted::AcceptedModule;
use crate::calls::accepted_words;
use crate::declarations::check_declarations;
use crate::functions::check_functions;
use crate::leaf_counts::report_counts;
use crate::leaves::{Queries, report_leaves};
use crate::open_module::OpenModule;
use crate::options::Options;
use crate::results::{Counts, LeafRow, Outcome, TypeRow};
use crate::slots::report_slots;
use crate::status::Status;
use crate::types::report_types;
use crate::verdict::{counts_of, no_outcome};
use std::alloc::Global;

/// Keeps an accepted module. Returns also what was found out about it, and nothing if memory was refused.
fn keep(alloc: Global, accepted: AcceptedModule) -> (OpenModule, Outcome, Status)
    requires { IsAccepted accepted }
    ensures { Opens accepted.subject accepted.most_leaves result.0.held result.1 result.2 }
{
    let outcome = counts_of(&accepted.subject.module);
    match Box::new(alloc, accepted) {
        Ok(kept) => (OpenModule::of(kept), outcome, Status::Done),
        Err(_) => (OpenModule::null(alloc), no_outcome(), Status::OutOfMemory),
    }
}

/// Opens the module of words. Returns also what was found out about it.
fn open_words(alloc: Global, words: &[u32], options: &Options) -> (OpenModule, Outcome, Status)
    ensures { OfWords options.now words.now
        (λ subject. Opens subject options.now.most_leaves result.0.held result.1)
        (λ found. (result.0.held ≡ None) × (result.1 ≡ found)) result.2 }
{
    match accepted_words(alloc, words, options) {
        Ok(accepted) => keep(alloc, accepted),
        Err(not) => (OpenModule::null(alloc), not.outcome, not.status),
    }
}

/// Validates a module in words, without its functions, and keeps it if it is accepted.
#[unsafe(no_mangle)]
pub extern "C" fn naga_check_open_with(
    alloc: Global,
    words: &[u32],
    options: &Options,
    opened: &mut OpenModule,
    outcome: &mut Outcome,
) -> u32
    ensures { Returns result (OfWords options.now words.now
        (λ subject. Opens subject options.now.most_leaves opened.new.held outcome.new)
        (λ found. (opened.new.held ≡ None) × (outcome.new ≡ found))) }
{
    let (module, found, status) = open_words(alloc, words, options);
    *opened = module;
    *outcome = found;
    status.code()
}

/// Writes the info of each type of an open module, unless `infos` is empty.
#[unsafe(no_mangle)]
pub extern "C" fn naga_check_module_types_with(
    alloc: Global,
    opened: &mut OpenModule,
    infos: &mut [TypeRow],
    outcome: &mut Outcome,
) -> u32
    requires { IsOpenModule opened.old.held }
    ensures kept { opened.new.held ≡ opened.old.held }
    ensures written { Returns result (OfOpenModule opened.old.held
        (λ (accepted : Accepted). ChecksTypes accepted.subject infos.old infos.new outcome.new)
        (LeavesBuffer infos.old infos.new outcome.new)) }
{
    let Some(accepted) = opened.take(alloc) else {
        *outcome = no_outcome();
        return Status::NotOpen.code();
    };
    let status = report_types(alloc, &accepted, infos, outcome);
    *opened = OpenModule::of(accepted);
    status.code()
}

/// Validates the expressions of the functions and entry points of an open module, and writes the stages that may use
/// each, unless `stages` is empty.
#[unsafe(no_mangle)]
pub extern "C" fn naga_check_module_functions_with(
    alloc: Global,
    opened: &mut OpenModule,
    stages: &mut [u32],
    outcome: &mut Outcome,
) -> u32
    requires { IsOpenModule opened.old.held }
    ensures kept { opened.new.held ≡ opened.old.held }
    ensures written { Returns result (OfOpenModule opened.old.held
        (λ (accepted : Accepted). ChecksFunctions accepted.subject stages.old stages.new outcome.new)
        (LeavesBuffer stages.old stages.new outcome.new)) }
{
    let Some(accepted) = opened.take(alloc) else {
        *outcome = no_outcome();
        return Status::NotOpen.code();
    };
    let status = check_functions(alloc, &accepted.subject, stages, outcome);
    *opened = OpenModule::of(accepted);
    status.code()
}

/// Validates the variables of an open module, the expressions of its functions and entry points, and what these declare.
#[unsafe(no_mangle)]
pub extern "C" fn naga_check_module_declarations_with(
    alloc: Global,
    opened: &mut OpenModule,
    outcome: &mut Outcome,
) -> u32
    requires { IsOpenModule opened.old.held }
    ensures kept { opened.new.held ≡ opened.old.held }
    ensures written { Returns result (OfOpenModule opened.old.held
        (λ (accepted : Accepted). ChecksDeclarations accepted.subject outcome.new) (λ found. outcome.new ≡ found)) }
{
    let Some(accepted) = opened.take(alloc) else {
        *outcome = no_outcome();
        return Status::NotOpen.code();
    };
    let status = check_declarations(alloc, &accepted.subject, outcome);
    *opened = OpenModule::of(accepted);
    status.code()
}

/// Writes the leaves of types of an open module. A runtime-sized array has `length` elements.
#[unsafe(no_mangle)]
pub extern "C" fn naga_check_module_leaves_with(
    alloc: Global,
    opened: &mut OpenModule,
    types: &[u32],
    length: u32,
    leaves: &mut [LeafRow],
    paths: &mut [u32],
    counts: &mut Counts,
    outcome: &mut Outcome,
) -> u32
    requires { IsOpenModule opened.old.held }
    ensures kept { opened.new.held ≡ opened.old.held }
    ensures written { let old = buffers leaves.old paths.old no_counts in
        let new = buffers leaves.new paths.new counts.new in
        Returns result (OfOpenModule opened.old.held
        (λ (accepted : Accepted). ChecksLeaves accepted.subject types.now length accepted.most_leaves old new outcome.new)
        (λ found. LeavesBuffers old new × (outcome.new ≡ found))) }
{
    *counts = Counts {
        leaves: 0,
        paths: 0,
    };
    let Some(accepted) = opened.take(alloc) else {
        *outcome = no_outcome();
        return Status::NotOpen.code();
    };
    let queries = Queries {
        accepted: &accepted,
        types,
        length,
    };
    let (found, status) = report_leaves(alloc, queries, leaves, paths, counts);
    *opened = OpenModule::of(accepted);
    *outcome = found;
    status.code()
}

/// Counts the leaves of types of an open module, and the indexes of their paths. A runtime-sized array has `length`
/// elements.
#[unsafe(no_mangle)]
pub extern "C" fn naga_check_module_count_leaves_with(
    alloc: Global,
    opened: &mut OpenModule,
    types: &[u32],
    length: u32,
    counts: &mut Counts,
    outcome: &mut Outcome,
) -> u32
    requires { IsOpenModule opened.old.held }
    ensures kept { opened.new.held ≡ opened.old.held }
    ensures written { Returns result (OfOpenModule opened.old.held
        (λ (accepted : Accepted). ChecksCounts accepted.subject types.now length accepted.most_leaves counts.new
        outcome.new)
        (λ found. (counts.new ≡ no_counts) × (outcome.new ≡ found))) }
{
    *counts = Counts {
        leaves: 0,
        paths: 0,
    };
    let Some(accepted) = opened.take(alloc) else {
        *outcome = no_outcome();
        return Status::NotOpen.code();
    };
    let queries = Queries {
        accepted: &accepted,
        types,
        length,
    };
    let (found, status) = report_counts(alloc, queries, counts);
    *opened = OpenModule::of(accepted);
    *outcome = found;
    status.code()
}

/// Writes the slots of immediate data that a value of a type of an open module uses from a byte on, if hosts may share
/// its values.
#[unsafe(no_mangle)]
pub extern "C" fn naga_check_module_slots_with(
    alloc: Global,
    opened: &mut OpenModule,
    ty: u32,
    offset: u32,
    slots: &mut u64,
    outcome: &mut Outcome,
) -> u32
    requires { IsOpenModule opened.old.held }
    ensures kept { opened.new.held ≡ opened.old.held }
    ensures written { Returns result (OfOpenModule opened.old.held
        (λ (accepted : Accepted). ChecksSlots accepted.subject ty offset slots.new outcome.new)
        (λ found. (slots.new ≡ 0) × (outcome.new ≡ found))) }
{
    *slots = 0;
    let Some(accepted) = opened.take(alloc) else {
        *outcome = no_outcome();
        return Status::NotOpen.code();
    };
    let (found, status) = report_slots(&accepted, ty, offset, slots);
    *opened = OpenModule::of(accepted);
    *outcome = found;
    status.code()
}

/// Closes an open module, and gives back its memory. One that is closed already stays so.
#[unsafe(no_mangle)]
pub extern "C" fn naga_check_close_with(alloc: Global, opened: &mut OpenModule)
    ensures { opened.new.held ≡ None }
{
    *opened = OpenModule::null(alloc);
}
