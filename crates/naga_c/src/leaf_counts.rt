//! The call that counts the leaves of types.

ghost use Rattle.naga_c.specs.Accepted.{IsAccepted};
ghost use Rattle.naga_c.specs.LeafCounts.{ChecksCounts, CountsAll, IsTooMuch};
ghost use Rattle.naga_c.specs.steps.LeafCounts.{CountsType};
ghost use Rattle.naga_c.specs.Leaves.{no_counts};
ghost use Rattle.naga_ir.specs.Handles.{GlobalReferencesOk};
ghost use Rattle.naga_ir.specs.ItemReferences.{global_lists};
ghost use Rattle.std.specs.Prelude.{◌≡◌, ◌+◌, ◌<◌, length, MatchOption};

use crate::leaves::{Queries, Query, has_types};
use crate::results::{Counts, Outcome};
use crate::status::Status;
use crate::verdict::counts_of;
use naga_valid::{Handle, leaves_of};
use std::alloc::Global;

/// These counts, and those of a leaf whose path has so many indexes, unless that is too much.
fn one_more(counts: Counts, indexes: usize, most: u64) -> Option<Counts>
    ensures { MatchOption result (IsTooMuch most counts indexes) (λ more. more
        ≡ record { leaves = counts.leaves + 1; paths = counts.paths + indexes }) }
{
    if counts.leaves >= most {
        return None;
    }
    match counts.paths.checked_add(indexes as u64) {
        Some(paths) => Some(Counts {
            leaves: counts.leaves + 1,
            paths,
        }),
        None => None,
    }
}

/// How many leaves a type has, and how many indexes their paths have together, with those that were counted before.
fn count_type(alloc: Global, query: Query<'_>, before: Counts) -> Result<Counts, Status>
    requires exists { query.ty < length query.«module».now.types }
    requires references { GlobalReferencesOk (global_lists query.«module».now) }
    ensures { CountsType query.entry.«module».now query.entry.length query.entry.ty query.entry.most before result }
{
    let mut cursor = leaves_of(alloc, query.module, query.ty, query.length);
    let mut counts = before;
    'leaves: loop {
        match cursor.next() {
            Ok(Some(_)) => match one_more(counts, cursor.path().len(), query.most) {
                Some(more) => counts = more,
                None => return Err(Status::Limit),
            },
            Ok(None) => return Ok(counts),
            Err(_) => return Err(Status::OutOfMemory),
        }
    }
}

/// How many leaves the types have that are asked about, and how many indexes their paths have together.
fn count_all(alloc: Global, queries: Queries<'_>) -> Result<Counts, Status>
    requires { GlobalReferencesOk (global_lists queries.accepted.now.subject.«module») }
    ensures { CountsAll queries.entry.accepted.now.subject.«module» queries.entry.types.now queries.entry.length
        queries.entry.accepted.now.most_leaves result }
{
    let module = &queries.accepted.subject.module;
    if !has_types(module, queries.types) {
        return Err(Status::NoType);
    }
    let mut counts = Counts {
        leaves: 0,
        paths: 0,
    };
    for ty in queries.types {
        let query = Query {
            module,
            ty: Handle::new(*ty),
            length: queries.length,
            place: 0,
            most: queries.accepted.most_leaves,
        };
        match count_type(alloc, query, counts) {
            Ok(counted) => counts = counted,
            Err(why) => return Err(why),
        }
    }
    Ok(counts)
}

/// Counts the leaves of types of an accepted module. Returns also what was found out about it.
pub(crate) fn report_counts(
    alloc: Global,
    queries: Queries<'_>,
    counts: &mut Counts,
) -> (Outcome, Status)
    requires accepted { IsAccepted queries.accepted.now }
    requires empty { counts.old ≡ no_counts }
    ensures { ChecksCounts queries.entry.accepted.now.subject queries.entry.types.now queries.entry.length
        queries.entry.accepted.now.most_leaves counts.new result.0 result.1 }
{
    let outcome = counts_of(&queries.accepted.subject.module);
    match count_all(alloc, queries) {
        Ok(counted) => {
            *counts = counted;
            (outcome, Status::Done)
        }
        Err(status) => (outcome, status),
    }
}
