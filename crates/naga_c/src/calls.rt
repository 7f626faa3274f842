//! The calls on a module in words.

ghost use Rattle.naga_c.specs.steps.Accepting.{Accepting};
ghost use Rattle.naga_c.specs.Calls.{LeavesBuffer, OfWords};
ghost use Rattle.naga_c.specs.Declarations.{ChecksDeclarations};
ghost use Rattle.naga_c.specs.Functions.{ChecksFunctions};
ghost use Rattle.naga_c.specs.LeafCounts.{ChecksCounts};
ghost use Rattle.naga_c.specs.Leaves.{ChecksLeaves, LeavesBuffers, buffers, no_counts};
ghost use Rattle.naga_c.specs.Slots.{ChecksSlots};
ghost use Rattle.naga_c.specs.Statuses.{Returns};
ghost use Rattle.naga_c.specs.Subjects.{IsSubjectOfWords};
ghost use Rattle.naga_c.specs.Types.{ChecksTypes};
ghost use Rattle.std.specs.Prelude.{◌≡◌};

use crate::accepted::{AcceptedModule, NotAccepted, accept};
use crate::declarations::check_declarations;
use crate::functions::check_functions;
use crate::leaf_counts::report_counts;
use crate::leaves::{Queries, report_leaves};
use crate::options::Options;
use crate::results::{Counts, LeafRow, Outcome, TypeRow};
use crate::slots::report_slots;
use crate::status::{Status, status_without};
use crate::subject::subject_of_words;
use crate::types::report_types;
use crate::verdict::outcome_without;
use std::alloc::Global;

/// What words have a call read, if the module is accepted.
pub(crate) fn accepted_words(
    alloc: Global,
    words: &[u32],
    options: &Options,
) -> Result<AcceptedModule, NotAccepted>
    ensures { Accepting (λ given. IsSubjectOfWords options.now words.now given) options.now.most_leaves result }
{
    let given = subject_of_words(alloc, words, options);
    accept(alloc, given, options.most_leaves)
}

/// Checks the types of words.
fn words_types(
    alloc: Global,
    words: &[u32],
    options: &Options,
    infos: &mut [TypeRow],
    outcome: &mut Outcome,
) -> Status
    ensures { OfWords options.now words.now (λ subject. ChecksTypes subject infos.old infos.new outcome.new)
        (LeavesBuffer infos.old infos.new outcome.new) result }
{
    match accepted_words(alloc, words, options) {
        Ok(accepted) => report_types(alloc, &accepted, infos, outcome),
        Err(not) => {
            *outcome = not.outcome;
            not.status
        }
    }
}

/// Checks the functions of words.
fn words_functions(
    alloc: Global,
    words: &[u32],
    options: &Options,
    stages: &mut [u32],
    outcome: &mut Outcome,
) -> Status
    ensures { OfWords options.now words.now (λ subject. ChecksFunctions subject stages.old stages.new outcome.new)
        (LeavesBuffer stages.old stages.new outcome.new) result }
{
    match subject_of_words(alloc, words, options) {
        Ok(subject) => check_functions(alloc, &subject, stages, outcome),
        Err(why) => {
            *outcome = outcome_without(why);
            status_without(why)
        }
    }
}

/// Checks what the module of words declares.
fn words_declarations(
    alloc: Global,
    words: &[u32],
    options: &Options,
    outcome: &mut Outcome,
) -> Status
    ensures { OfWords options.now words.now (λ subject. ChecksDeclarations subject outcome.new)
        (λ found. outcome.new ≡ found) result }
{
    match subject_of_words(alloc, words, options) {
        Ok(subject) => check_declarations(alloc, &subject, outcome),
        Err(why) => {
            *outcome = outcome_without(why);
            status_without(why)
        }
    }
}

/// What is asked about the leaves of types of words.
#[derive(Clone, Copy)]
struct LeafCall<'a> {
    words: &'a [u32],
    options: &'a Options,
    types: &'a [u32],
    /// How many elements a runtime-sized array has.
    length: u32,
}

/// Writes the leaves of types of words. Returns also what was found out about the module.
fn words_leaves(
    alloc: Global,
    call: LeafCall<'_>,
    leaves: &mut [LeafRow],
    paths: &mut [u32],
    counts: &mut Counts,
) -> (Outcome, Status)
    ensures { let old = buffers leaves.old paths.old no_counts in let new = buffers leaves.new paths.new counts.new in
        OfWords call.entry.options.now call.entry.words.now
        (λ subject. ChecksLeaves subject call.entry.types.now call.entry.length call.entry.options.now.most_leaves
        old new result.0)
        (λ outcome. LeavesBuffers old new × (result.0 ≡ outcome)) result.1 }
{
    *counts = Counts {
        leaves: 0,
        paths: 0,
    };
    match accepted_words(alloc, call.words, call.options) {
        Ok(accepted) => {
            let queries = Queries {
                accepted: &accepted,
                types: call.types,
                length: call.length,
            };
            report_leaves(alloc, queries, leaves, paths, counts)
        }
        Err(not) => (not.outcome, not.status),
    }
}

/// Counts the leaves of types of words. Returns also what was found out about the module.
fn words_counts(alloc: Global, call: LeafCall<'_>, counts: &mut Counts) -> (Outcome, Status)
    ensures { OfWords call.entry.options.now call.entry.words.now
        (λ subject. ChecksCounts subject call.entry.types.now call.entry.length call.entry.options.now.most_leaves
        counts.new result.0)
        (λ outcome. (counts.new ≡ no_counts) × (result.0 ≡ outcome)) result.1 }
{
    *counts = Counts {
        leaves: 0,
        paths: 0,
    };
    match accepted_words(alloc, call.words, call.options) {
        Ok(accepted) => {
            let queries = Queries {
                accepted: &accepted,
                types: call.types,
                length: call.length,
            };
            report_counts(alloc, queries, counts)
        }
        Err(not) => (not.outcome, not.status),
    }
}

/// What is asked about the slots of a type of words.
#[derive(Clone, Copy)]
struct SlotCall<'a> {
    words: &'a [u32],
    options: &'a Options,
    ty: u32,
    /// The byte from which on a value lies.
    offset: u32,
}

/// Writes the slots of a type of words. Returns also what was found out about the module.
fn words_slots(alloc: Global, call: SlotCall<'_>, slots: &mut u64) -> (Outcome, Status)
    ensures { OfWords call.entry.options.now call.entry.words.now
        (λ subject. ChecksSlots subject call.entry.ty call.entry.offset slots.new result.0)
        (λ outcome. (slots.new ≡ 0) × (result.0 ≡ outcome)) result.1 }
{
    *slots = 0;
    match accepted_words(alloc, call.words, call.options) {
        Ok(accepted) => report_slots(&accepted, call.ty, call.offset, slots),
        Err(not) => (not.outcome, not.status),
    }
}

/// Validates a module in words, and writes the info of each type if it is accepted, unless `infos` is empty.
#[unsafe(no_mangle)]
pub extern "C" fn naga_check_words_with(
    alloc: Global,
    words: &[u32],
    options: &Options,
    infos: &mut [TypeRow],
    outcome: &mut Outcome,
) -> u32
    ensures { Returns result (OfWords options.now words.now
        (λ subject. ChecksTypes subject infos.old infos.new outcome.new)
        (LeavesBuffer infos.old infos.new outcome.new)) }
{
    words_types(alloc, words, options, infos, outcome).code()
}

/// Validates a module in words and the expressions of its functions and entry points, and writes the stages that may
/// use each, unless `stages` is empty.
#[unsafe(no_mangle)]
pub extern "C" fn naga_check_functions_with(
    alloc: Global,
    words: &[u32],
    options: &Options,
    stages: &mut [u32],
    outcome: &mut Outcome,
) -> u32
    ensures { Returns result (OfWords options.now words.now
        (λ subject. ChecksFunctions subject stages.old stages.new outcome.new)
        (LeavesBuffer stages.old stages.new outcome.new)) }
{
    words_functions(alloc, words, options, stages, outcome).code()
}

/// Validates a module in words, its variables, the expressions of its functions and entry points, and what these
/// declare.
#[unsafe(no_mangle)]
pub extern "C" fn naga_check_declarations_with(
    alloc: Global,
    words: &[u32],
    options: &Options,
    outcome: &mut Outcome,
) -> u32
    ensures { Returns result (OfWords options.now words.now (λ subject. ChecksDeclarations subject outcome.new)
        (λ found. outcome.new ≡ found)) }
{
    words_declarations(alloc, words, options, outcome).code()
}

/// Validates a module in words, and writes the leaves of types of it. A runtime-sized array has `length` elements.
#[unsafe(no_mangle)]
pub extern "C" fn naga_check_leaves_with(
    alloc: Global,
    words: &[u32],
    options: &Options,
    types: &[u32],
    length: u32,
    leaves: &mut [LeafRow],
    paths: &mut [u32],
    counts: &mut Counts,
    outcome: &mut Outcome,
) -> u32
    ensures { let old = buffers leaves.old paths.old no_counts in let new = buffers leaves.new paths.new counts.new in
        Returns result (OfWords options.now words.now
        (λ subject. ChecksLeaves subject types.now length options.now.most_leaves old new outcome.new)
        (λ found. LeavesBuffers old new × (outcome.new ≡ found))) }
{
    let call = LeafCall {
        words,
        options,
        types,
        length,
    };
    let (found, status) = words_leaves(alloc, call, leaves, paths, counts);
    *outcome = found;
    status.code()
}

/// Validates a module in words, and counts the leaves of types of it, and the indexes of their paths. A runtime-sized
/// array has `length` elements.
#[unsafe(no_mangle)]
pub extern "C" fn naga_check_count_leaves_with(
    alloc: Global,
    words: &[u32],
    options: &Options,
    types: &[u32],
    length: u32,
    counts: &mut Counts,
    outcome: &mut Outcome,
) -> u32
    ensures { Returns result (OfWords options.now words.now
        (λ subject. ChecksCounts subject types.now length options.now.most_leaves counts.new outcome.new)
        (λ found. (counts.new ≡ no_counts) × (outcome.new ≡ found))) }
{
    let call = LeafCall {
        words,
        options,
        types,
        length,
    };
    let (found, status) = words_counts(alloc, call, counts);
    *outcome = found;
    status.code()
}

/// Validates a module in words, and writes the slots of immediate data that a value of a type uses from a byte on, if
/// hosts may share its values.
#[unsafe(no_mangle)]
pub extern "C" fn naga_check_slots_with(
    alloc: Global,
    words: &[u32],
    options: &Options,
    ty: u32,
    offset: u32,
    slots: &mut u64,
    outcome: &mut Outcome,
) -> u32
    ensures { Returns result (OfWords options.now words.now
        (λ subject. ChecksSlots subject ty offset slots.new outcome.new)
        (λ found. (slots.new ≡ 0) × (outcome.new ≡ found))) }
{
    let call = SlotCall {
        words,
        options,
        ty,
        offset,
    };
    let (found, status) = words_slots(alloc, call, slots);
    *outcome = found;
    status.code()
}
