//! The call on the leaves of types.

ghost use Rattle.naga_arena.specs.Numbers.{largest_u32};
ghost use Rattle.naga_c.specs.Accepted.{IsAccepted};
ghost use Rattle.naga_c.specs.Leaves.{ChecksLeaves, HasNoRoom, HasTypes, buffers, no_counts};
ghost use Rattle.naga_c.specs.steps.Leaves.{AddsAnswers, WritesAll, WritesType, answer};
ghost use Rattle.naga_ir.specs.Handles.{GlobalReferencesOk};
ghost use Rattle.naga_ir.specs.ItemReferences.{global_lists};
ghost use Rattle.naga_leaves.specs.Leaf.{bytes_of};
ghost use Rattle.std.specs.Prelude.{◌≡◌, ◌<◌, ◌≤◌, ◌↔◌, [], ◌∷◌, IsFalse, IsTrue, length};

use crate::accepted::AcceptedModule;
use crate::results::{Counts, LeafRow, Outcome};
use crate::status::Status;
use crate::verdict::counts_of;
use naga_valid::{Handle, Leaf, Module, TypeTag, leaves_of};
use std::alloc::Global;

/// The types of an accepted module whose leaves are asked for.
#[derive(Clone, Copy)]
pub(crate) struct Queries<'a> {
    pub(crate) accepted: &'a AcceptedModule,
    pub(crate) types: &'a [u32],
    /// How many elements a runtime-sized array has.
    pub(crate) length: u32,
}

/// One type whose leaves are asked for.
#[derive(Clone, Copy)]
pub(crate) struct Query<'a> {
    pub(crate) module: &'a Module,
    pub(crate) ty: Handle<TypeTag>,
    /// How many elements a runtime-sized array has.
    pub(crate) length: u32,
    /// Its place among the types that are asked about.
    pub(crate) place: u32,
    /// The most leaves that a call may come to.
    pub(crate) most: u64,
}

/// A leaf that a cursor came to.
#[derive(Clone, Copy)]
struct LeafAt<'a> {
    /// The place of its type among the types that are asked about.
    place: u32,
    leaf: Leaf,
    path: &'a [u32],
}

/// Adds a leaf and its path, and returns whether there was room.
fn push(visited: LeafAt<'_>, leaves: &mut [LeafRow], paths: &mut [u32], counts: &mut Counts) -> bool
    ensures added { IsTrue result
        → AddsAnswers (answer visited.entry.place visited.entry.path.now (bytes_of visited.entry.leaf) ∷ [])
        (buffers leaves.old paths.old counts.old) (buffers leaves.new paths.new counts.new) }
    ensures full { IsFalse result → HasNoRoom (buffers leaves.old paths.old counts.old) visited.entry.path.now }
    ensures same { IsFalse result
        → buffers leaves.new paths.new counts.new ≡ buffers leaves.old paths.old counts.old }
{
    let Ok(path_length) = u32::try_from(visited.path.len()) else {
        return false;
    };
    let first = counts.leaves as usize;
    let path_at = counts.paths as usize;
    let Some(end) = path_at.checked_add(visited.path.len()) else {
        return false;
    };
    if first >= leaves.len() || end > paths.len() {
        return false;
    }
    paths[path_at..end].copy_from_slice(visited.path);
    leaves[first] = LeafRow {
        first: visited.leaf.first,
        path_at: path_at as u64,
        path_length,
        size: visited.leaf.size,
        alignment: visited.leaf.alignment,
        query: visited.place,
    };
    counts.leaves += 1;
    counts.paths = end as u64;
    true
}

/// Writes the leaves of one type.
fn write_leaves(
    alloc: Global,
    query: Query<'_>,
    leaves: &mut [LeafRow],
    paths: &mut [u32],
    counts: &mut Counts,
) -> Status
    requires exists { query.ty < length query.«module».now.types }
    requires references { GlobalReferencesOk (global_lists query.«module».now) }
    ensures { WritesType query.entry.«module».now query.entry.length query.entry.ty query.entry.most query.entry.place
        (buffers leaves.old paths.old counts.old) (buffers leaves.new paths.new counts.new) result }
{
    let mut cursor = leaves_of(alloc, query.module, query.ty, query.length);
    'leaves: loop {
        match cursor.next() {
            Ok(Some(leaf)) => {
                if counts.leaves >= query.most {
                    return Status::Limit;
                }
                let visited = LeafAt {
                    place: query.place,
                    leaf,
                    path: cursor.path(),
                };
                if !push(visited, leaves, paths, counts) {
                    return Status::Room;
                }
            }
            Ok(None) => return Status::Done,
            Err(_) => return Status::OutOfMemory,
        }
    }
}

/// Whether a module has a type of each index. So nothing is written if one is missing.
pub(crate) fn has_types(module: &Module, types: &[u32]) -> bool
    ensures all { IsTrue result ↔ HasTypes «module».now types.now }
    ensures bound { length «module».now.types ≤ largest_u32 }
{
    let count = module.types.len();
    for ty in types {
        if *ty as usize >= count {
            return false;
        }
    }
    true
}

/// Writes the leaves of each type that is asked about, up to the first that has no room.
fn write_all(
    alloc: Global,
    queries: Queries<'_>,
    leaves: &mut [LeafRow],
    paths: &mut [u32],
    counts: &mut Counts,
) -> Status
    requires { GlobalReferencesOk (global_lists queries.accepted.now.subject.«module») }
    ensures { WritesAll queries.entry.accepted.now.subject.«module» queries.entry.types.now queries.entry.length
        queries.entry.accepted.now.most_leaves (buffers leaves.old paths.old counts.old)
        (buffers leaves.new paths.new counts.new) result }
{
    let module = &queries.accepted.subject.module;
    if !has_types(module, queries.types) {
        return Status::NoType;
    }
    for (index, ty) in queries.types.iter().enumerate() {
        let Ok(place) = u32::try_from(index) else {
            return Status::Room;
        };
        let query = Query {
            module,
            ty: Handle::new(*ty),
            length: queries.length,
            place,
            most: queries.accepted.most_leaves,
        };
        match write_leaves(alloc, query, leaves, paths, counts) {
            Status::Done => {}
            other => return other,
        }
    }
    Status::Done
}

/// Writes the leaves of types of an accepted module. Returns also what was found out about it.
pub(crate) fn report_leaves(
    alloc: Global,
    queries: Queries<'_>,
    leaves: &mut [LeafRow],
    paths: &mut [u32],
    counts: &mut Counts,
) -> (Outcome, Status)
    requires accepted { IsAccepted queries.accepted.now }
    requires empty { counts.old ≡ no_counts }
    ensures { ChecksLeaves queries.entry.accepted.now.subject queries.entry.types.now queries.entry.length
        queries.entry.accepted.now.most_leaves (buffers leaves.old paths.old counts.old)
        (buffers leaves.new paths.new counts.new) result.0 result.1 }
{
    let status = write_all(alloc, queries, leaves, paths, counts);
    (counts_of(&queries.accepted.subject.module), status)
}
