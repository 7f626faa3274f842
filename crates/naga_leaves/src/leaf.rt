//! The leaf of a type to which a path of indexes leads.

ghost use Rattle.std.specs.Prelude.{◌≡◌, ◌<◌, IfSome, MatchOption, None, Some, length, option_map, unwrap_or};
ghost use Rattle.std.specs.Prelude.{length as length_of};
ghost use Rattle.naga_arena.specs.Numbers.{largest_u64};
ghost use Rattle.naga_ir.specs.Handles.{GlobalReferencesOk};
ghost use Rattle.naga_ir.specs.ItemReferences.{GlobalLists, global_lists};
ghost use Rattle.naga_ir.specs.Parts.{pending};
ghost use Rattle.naga_leaves.specs.Leaf.{bytes_of};
ghost use Rattle.naga_leaves.specs.steps.Parts.{part_of};
ghost use Rattle.naga_leaves.specs.steps.Steps.{IsIndexAfter};
ghost use Rattle.naga_typing.specs.Constants.{override_count as override_count_of};
ghost use Rattle.naga_typing.specs.Context.{ReferencesExist, lists_of};
ghost use Rattle.naga_typing.specs.Leaves as spec;
ghost use Rattle.naga_typing.specs.Leaves.{Elements, elements};

use naga_ir::alignment::Alignment;
use naga_ir::handle::Handle;
use naga_ir::ir::Module;
use naga_ir::tags::{OverrideTag, TypeTag};
use naga_ir::types::{ArraySize, TypeInner};
use naga_typing::context::{GlobalCtx, to_ctx};
use naga_typing::type_methods::override_count;

/// An index past the indexes of all elements and members, which are `u32`s.
pub(crate) const PAST_PARTS: u64 = u32::MAX as u64 + 1;

/// Where a leaf is: a scalar, a vector, a matrix or an atomic.
#[derive(Clone, Copy, Debug, PartialEq, Eq)]
pub struct Leaf {
    /// The place of the first byte from the start of the value, in bytes.
    pub first: u64,
    /// The number of bytes.
    pub size: u32,
    /// The place of the first byte is to be a multiple of this many bytes.
    pub alignment: u32,
}

/// An element or a member of a value.
#[derive(Clone, Copy)]
pub(crate) struct Part {
    /// Its type.
    pub(crate) ty: Handle<TypeTag>,
    /// The place of its first byte from the start of the value, in bytes.
    pub(crate) first: u64,
}

/// How many elements an array has that an override sizes: none if the override gives no count.
#[cold]
#[inline(never)]
fn pending_count(override_: Handle<OverrideTag>, gctx: &GlobalCtx<'_>) -> u32
    requires exists { override_ < length gctx.now.overrides.now }
    requires references { GlobalReferencesOk (lists_of gctx.now) }
    ensures { result ≡ unwrap_or (override_count_of (lists_of gctx.now) override_) 0 }
{
    // Few arrays are sized so: kept apart, this leaves `part_at` small where it is inlined.
    override_count(override_, *gctx).unwrap_or(0)
}

/// How many elements an array has if a runtime-sized one has `dynamic` elements: none if it is sized
/// by an override that gives no count.
#[inline]
pub(crate) fn element_count(size: ArraySize, dynamic: u32, gctx: &GlobalCtx<'_>) -> u32
    requires exists { IfSome (pending size) (λ o. o < length gctx.now.overrides.now) }
    requires references { GlobalReferencesOk (lists_of gctx.now) }
    ensures { result ≡ elements (lists_of gctx.now) dynamic size }
{
    match size {
        ArraySize::Constant(count) => count.get(),
        ArraySize::Pending(override_) => pending_count(override_, gctx),
        ArraySize::Dynamic => dynamic,
    }
}

/// The element or the member of an index, if a runtime-sized array has `dynamic` elements.
#[inline(always)]
pub(crate) fn part_at(
    inner: &TypeInner,
    index: u32,
    dynamic: u32,
    gctx: &GlobalCtx<'_>,
) -> Option<Part>
    requires exist { ReferencesExist (lists_of gctx.now) inner.now }
    requires references { GlobalReferencesOk (lists_of gctx.now) }
    ensures { option_map part_of result ≡ spec.part_at (elements (lists_of gctx.now) dynamic) inner.now index }
{
    match inner {
        TypeInner::Array { base, size, stride } => {
            if index < element_count(*size, dynamic, gctx) {
                Some(Part {
                    ty: *base,
                    first: u64::from(index) * u64::from(*stride),
                })
            } else {
                None
            }
        }
        TypeInner::Struct { members, .. } => {
            let member = members.as_slice().get(index as usize)?;
            Some(Part {
                ty: member.ty,
                first: u64::from(member.offset),
            })
        }
        TypeInner::Scalar(_)
        | TypeInner::Vector { .. }
        | TypeInner::Matrix { .. }
        | TypeInner::CooperativeMatrix { .. }
        | TypeInner::Atomic(_)
        | TypeInner::Pointer { .. }
        | TypeInner::ValuePointer { .. }
        | TypeInner::Image { .. }
        | TypeInner::Sampler { .. }
        | TypeInner::AccelerationStructure { .. }
        | TypeInner::RayQuery { .. }
        | TypeInner::BindingArray { .. } => None,
    }
}

/// The index at which to go on among the parts of a type if the part at `index` has no leaf: past all
/// elements of an array, which have one type and begin one after another.
#[cold]
#[inline(never)]
pub(crate) fn index_after(ty: Handle<TypeTag>, index: u32, gctx: &GlobalCtx<'_>) -> u64
    requires { ty < length gctx.now.types.now }
    ensures { (e : Elements) → IsIndexAfter (lists_of gctx.now) e ty index result }
{
    match gctx.types[ty].inner {
        TypeInner::Array { .. } => PAST_PARTS,
        _ => u64::from(index) + 1,
    }
}

/// All bytes of a value that is a leaf, or `None` if `inner` is not a leaf.
#[inline]
pub(crate) fn whole_leaf(inner: &TypeInner) -> Option<Leaf>
    ensures { (g : GlobalLists) → option_map bytes_of result ≡ spec.whole_leaf g inner.now }
{
    // Neither the size nor the alignment of a leaf depends on another type.
    match inner {
        TypeInner::Scalar(scalar) | TypeInner::Atomic(scalar) => {
            let width = u32::from(scalar.width);
            Some(Leaf {
                first: 0,
                size: width,
                alignment: width,
            })
        }
        TypeInner::Vector { size, scalar } => {
            let width = u32::from(scalar.width);
            Some(Leaf {
                first: 0,
                size: u32::from(size.components()) * width,
                alignment: Alignment::from(*size).get() * width,
            })
        }
        TypeInner::Matrix {
            columns,
            rows,
            scalar,
        } => {
            // WGSL gives a column of three the room of four; cooperative matrices have no gaps.
            let column = Alignment::from(*rows).get() * u32::from(scalar.width);
            Some(Leaf {
                first: 0,
                size: u32::from(columns.components()) * column,
                alignment: column,
            })
        }
        TypeInner::CooperativeMatrix {
            columns,
            rows,
            scalar,
            ..
        } => {
            let width = u32::from(scalar.width);
            let column = u32::from(rows.components()) * width;
            Some(Leaf {
                first: 0,
                size: u32::from(columns.components()) * column,
                alignment: width,
            })
        }
        TypeInner::Pointer { .. }
        | TypeInner::ValuePointer { .. }
        | TypeInner::Array { .. }
        | TypeInner::Struct { .. }
        | TypeInner::Image { .. }
        | TypeInner::Sampler { .. }
        | TypeInner::AccelerationStructure { .. }
        | TypeInner::RayQuery { .. }
        | TypeInner::BindingArray { .. } => None,
    }
}

/// The leaf of the type `ty` to which `path` leads, the indexes of elements and members from the
/// outermost on, if runtime-sized arrays have `length` elements. The path to a type that is a leaf
/// itself is empty.
///
/// It is `None` if there is no such leaf, or if the leaf would begin past the byte `u64::MAX`, which
/// no leaf does of an accepted type that is `SIZED`, that hosts may share and that has a uniform or a
/// storage layout. An array that an override sizes has as many elements as the initialiser of the
/// override says, and none if that is not an index constant above 0.
///
/// The cost is linear in the length of the path, however many parts the type has, and no memory is
/// requested.
pub fn leaf_at(module: &Module, ty: Handle<TypeTag>, path: &[u32], length: u32) -> Option<Leaf>
    requires exists { ty < length_of «module».now.types }
    requires references { GlobalReferencesOk (global_lists «module».now) }
    ensures { MatchOption result
        (IfSome (spec.leaf_at (global_lists «module».now) (elements (global_lists «module».now) length) ty path.now)
        (λ leaf. largest_u64 < leaf.first))
        (λ leaf. spec.leaf_at (global_lists «module».now) (elements (global_lists «module».now) length) ty path.now
        ≡ Some (bytes_of leaf)) }
{
    let gctx = to_ctx(module);
    let mut ty = ty;
    let mut first = 0u64;
    for index in path {
        let part = part_at(&gctx.types[ty].inner, *index, length, &gctx)?;
        first = first.checked_add(part.first)?;
        ty = part.ty;
    }
    let leaf = whole_leaf(&gctx.types[ty].inner)?;
    Some(Leaf { first, ..leaf })
}
