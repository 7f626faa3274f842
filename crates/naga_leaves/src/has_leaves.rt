//! Which types have leaves.

ghost use Rattle.std.specs.Prelude.{◌<◌, ◌↔◌, All, IsTrue, OnOk, length as length_of};
ghost use Rattle.naga_ir.specs.Handles.{GlobalReferencesOk};
ghost use Rattle.naga_ir.specs.declared.types.StructMember as member;
ghost use Rattle.naga_leaves.specs.HasLeaves.{AreLeavesKnown};
ghost use Rattle.naga_leaves.specs.steps.HasLeaves.{ArePartsKnown, HasLeavesBy, HasMemberWithLeaves};
ghost use Rattle.naga_typing.specs.Context.{ReferencesExist, lists_of};
ghost use Rattle.naga_typing.specs.Leaves.{elements};

use crate::leaf::{element_count, whole_leaf};
use naga_ir::handle::Handle;
use naga_ir::handle_vec::HandleVec;
use naga_ir::memory::OutOfMemory;
use naga_ir::tags::TypeTag;
use naga_ir::types::{StructMember, TypeInner};
use naga_typing::context::GlobalCtx;

/// Whether the type of a member has leaves, as `has_leaves` says.
fn any_member_has_leaves(members: &[StructMember], has_leaves: &HandleVec<bool, TypeTag>) -> bool
    requires { All (λ (m : member.StructMember). m.ty < length_of has_leaves.now.items) members.now }
    ensures { IsTrue result ↔ HasMemberWithLeaves has_leaves.now.items members.now }
{
    for member in members {
        if has_leaves[member.ty] {
            return true;
        }
    }
    false
}

/// Whether a type has leaves: it is a leaf, an array of one element or more whose base has leaves, or a
/// struct with a member whose type has. `has_leaves` says which of the types before it have.
fn type_has_leaves(
    inner: &TypeInner,
    has_leaves: &HandleVec<bool, TypeTag>,
    length: u32,
    gctx: &GlobalCtx<'_>,
) -> bool
    requires parts { ArePartsKnown has_leaves.now.items inner.now }
    requires exist { ReferencesExist (lists_of gctx.now) inner.now }
    requires references { GlobalReferencesOk (lists_of gctx.now) }
    ensures { IsTrue result ↔ HasLeavesBy (elements (lists_of gctx.now) length) has_leaves.now.items inner.now }
{
    match inner {
        TypeInner::Array { base, size, .. } => {
            let has_element = element_count(*size, length, gctx) > 0;
            has_element && has_leaves[*base]
        }
        TypeInner::Struct { members, .. } => any_member_has_leaves(members.as_slice(), has_leaves),
        _ => whole_leaf(inner).is_some(),
    }
}

/// Extends `has_leaves`, which says of the first types whether they have leaves, up to the type `ty`, if
/// runtime-sized arrays have `length` elements.
///
/// The cost is linear in the types by which it is extended, and their members.
///
/// # Errors
///
/// `OutOfMemory` if memory was refused.
#[cold]
#[inline(never)]
pub(crate) fn extend_has_leaves(
    has_leaves: &mut HandleVec<bool, TypeTag>,
    ty: Handle<TypeTag>,
    length: u32,
    gctx: &GlobalCtx<'_>,
) -> Result<(), OutOfMemory>
    requires exists { ty < length_of gctx.now.types.now }
    requires references { GlobalReferencesOk (lists_of gctx.now) }
    requires known { AreLeavesKnown (lists_of gctx.now) (elements (lists_of gctx.now) length) has_leaves.old.items }
    ensures known { AreLeavesKnown (lists_of gctx.now) (elements (lists_of gctx.now) length)
        has_leaves.new.items }
    ensures all { OnOk result (ty < length_of has_leaves.new.items) }
{
    let end = ty.index() + 1;
    has_leaves.reserve(end.saturating_sub(has_leaves.len()))?;
    for index in has_leaves.len()..end {
        // The types of parts precede the type, so it is known which of them have leaves.
        let inner = &gctx.types.as_slice()[index].inner;
        let has = type_has_leaves(inner, has_leaves, length, gctx);
        has_leaves.push(has)?;
    }
    Ok(())
}
