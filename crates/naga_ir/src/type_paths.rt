//! The paths by which an arena finds the index of a type.
//!
//! Each type is a node of a tree, with four links to nodes that were added later. A search begins at one of 1024 links,
//! which ten bits of a hash of the type that is searched for choose. At a node that is another type, two more bits
//! choose one of its links, until a node is that type or a link is free: there it is added. In a hash table, types that
//! were chosen to share the bits of one bucket are compared with each other. Here those bits are soon used up, and the
//! next ones lead apart.

ghost use Rattle.std.specs.Prelude.{◌≡◌, ◌<◌, ◌≤◌, ◌↔◌, ℕ, IsTrue, IfOk, IfErr, MatchOption, OnErr, OnOk, length, max, suc, Contains, Some, slice_get};
ghost use Rattle.naga_arena.specs.Numbers.{largest_u32, largest_u64};
ghost use Rattle.naga_ir.specs.steps.TypePaths.{first_hash, second_hash, next_bits, AllReached, LinksGoOn, AreFirstHashes, IsFreeLink, IsLinked, link_at, links_of};

use crate::types::Type;
use naga_arena::memory::OutOfMemory;
use std::hash::{DefaultHasher, FoldHasher, Hash, Hasher};

/// How many links there are at which paths begin.
const FIRST_LINKS: usize = 1024;

/// The depth of the last link that the first hash of a type chooses. By then 24 of its bits are used: unless types
/// were chosen to collide, few of up to a million have a path that goes on.
const LAST_BY_FIRST_HASH: usize = 6;

/// Where the path of a type ends that is not there: at a link that leads nowhere yet.
#[derive(Clone, Copy)]
pub(crate) struct PathEnd {
    /// The number of the link.
    pub(crate) link: usize,
    /// The first hash of the type.
    pub(crate) hash: u64,
}

/// The hash whose bits choose the first links of a path. It is quick, and it is easy to choose types that share it.
#[tactic(auto, unfolding(crate::specs::steps::TypePaths::first_hash))]
fn first_hash(ty: &Type) -> u64
    ensures { result ≡ first_hash ty.now }
{
    let mut hasher = FoldHasher::default();
    ty.hash(&mut hasher);
    hasher.finish()
}

/// The hash whose bits choose all later links, SipHash. It takes longer, and we know no way to choose many types
/// that share it but to try some 2^64 for each.
#[tactic(auto, unfolding(crate::specs::steps::TypePaths::second_hash))]
fn second_hash(ty: &Type) -> u64
    ensures { result ≡ second_hash ty.now }
{
    let mut hasher = DefaultHasher::new();
    ty.hash(&mut hasher);
    hasher.finish()
}

/// The bits that choose the links after one of a node at this depth, which took the two lowest of `bits`.
fn next_bits(ty: &Type, depth: usize, bits: u64) -> u64
    ensures { result ≡ next_bits ty.now depth bits }
{
    if depth == LAST_BY_FIRST_HASH {
        second_hash(ty)
    } else {
        bits / 4
    }
}

/// Whether a node is the type `ty`, whose first hash is `hash`.
fn is_node(types: &[Type], hashes: &[u64], node: usize, ty: &Type, hash: u64) -> bool
    requires node { node < length types.now }
    requires hashes { AreFirstHashes hashes.now types.now }
    requires hash { hash ≡ first_hash ty.now }
    ensures { IsTrue result ↔ (slice_get types.now node ≡ Some ty.now) }
{
    // Most nodes on a path are other types, and differ in the hash.
    if hashes[node] != hash {
        return false;
    }
    types[node] == *ty
}

/// The node to which a link leads. One that isn't in the list yet leads nowhere.
#[inline]
fn node_at(links: &[u32], link: usize) -> Option<usize>
    ensures { MatchOption result (link_at links.now link ≡ 0) (λ node. link_at links.now link ≡ suc node) }
{
    match links.get(link) {
        Some(next) => (*next as usize).checked_sub(1),
        None => None,
    }
}

/// The index of the type that is equal, or else the end of its path.
pub(crate) fn find(
    types: &[Type],
    hashes: &[u64],
    links: &[u32],
    ty: &Type,
) -> Result<usize, PathEnd>
    requires few { length types.now ≤ largest_u32 }
    requires links { LinksGoOn links.now (length types.now) }
    requires hashes { AreFirstHashes hashes.now types.now }
    requires reached { AllReached links.now types.now }
    ensures found { IfOk result (λ k. slice_get types.now k ≡ Some ty.now) }
    ensures absent { OnErr result (¬ (Contains types.now ty.now)) }
    ensures link { IfErr result (λ end. IsFreeLink links.now ty.now (length types.now) end.link) }
    ensures before { IfErr result (λ end. end.link < links_of (length types.now)) }
    ensures hash { IfErr result (λ end. end.hash ≡ first_hash ty.now) }
{
    let hash = first_hash(ty);
    let mut link = (hash % FIRST_LINKS as u64) as usize;
    let mut bits = hash / FIRST_LINKS as u64;
    let mut depth = 0;
    while let Some(node) = node_at(links, link) {
        if is_node(types, hashes, node, ty, hash) {
            return Ok(node);
        }
        link = FIRST_LINKS + 4 * node + (bits % 4) as usize;
        bits = next_bits(ty, depth, bits);
        depth += 1;
    }
    Err(PathEnd { link, hash })
}

/// Makes room for a link in the list. Links that were added for that lead nowhere, as before.
#[inline]
fn make_room(links: &mut Vec<u32>, link: usize) -> Result<(), OutOfMemory>
    requires { link < largest_u64 }
    ensures inside { OnOk result (link < length links.new.items) }
    ensures same { OnOk result ((j : ℕ) → link_at links.new.items j ≡ link_at links.old.items j) }
    ensures many { OnOk result (length links.new.items ≤ max (length links.old.items) (suc link)) }
    ensures refused { OnErr result (links.new.items ≡ links.old.items) }
{
    if link < links.len() {
        return Ok(());
    }
    links.resize(link + 1, 0)?;
    Ok(())
}

/// Lets a link lead to a node, the one that is added next.
///
/// # Errors
///
/// `OutOfMemory` if memory was refused, which leaves the links as they were.
pub(crate) fn add_link(links: &mut Vec<u32>, link: usize, node: u32) -> Result<(), OutOfMemory>
    requires node { node < largest_u32 }
    requires many { length links.old.items ≤ links_of node }
    requires link { link < links_of node }
    ensures linked { OnOk result (IsLinked links.old.items links.new.items link node) }
    ensures refused { OnErr result (links.new.items ≡ links.old.items) }
{
    make_room(links, link)?;
    links[link] = node + 1;
    Ok(())
}
