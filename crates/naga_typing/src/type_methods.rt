//! The sizes of types, in bytes.

ghost use Rattle.std.specs.Prelude.{◌≡◌, ◌*◌, ◌<◌, ◌≤◌, length, IfSome, MatchOption, OnSome};
ghost use Rattle.naga_arena.specs.Numbers.{largest_u32};
ghost use Rattle.naga_ir.specs.Handles.{GlobalReferencesOk};
ghost use Rattle.naga_ir.specs.Parts.{pending};
ghost use Rattle.naga_typing.specs.Constants as constants;
ghost use Rattle.naga_typing.specs.Context.{ReferencesExist, lists_of};
ghost use Rattle.naga_typing.specs.Layout as spec;
ghost use Rattle.naga_typing.specs.Layout.{SizeFits, size_of};
ghost use Rattle.naga_typing.specs.steps.Layout.{IsNotArray};
ghost use Rattle.naga_ir.specs.ItemReferences.{GlobalLists};

use crate::context::{GlobalCtx, get_const_val_from};
use naga_ir::alignment::Alignment;
use naga_ir::handle::Handle;
use naga_ir::tags::OverrideTag;
use naga_ir::types::{ArraySize, TypeInner};

/// The number of elements that an override gives by its initialiser, or `None` if it has no initialiser
/// that is an index constant above 0.
pub fn override_count(override_: Handle<OverrideTag>, gctx: GlobalCtx<'_>) -> Option<u32>
    requires exists { override_ < length gctx.overrides.now }
    requires references { GlobalReferencesOk (lists_of gctx) }
    ensures { result ≡ constants.override_count (lists_of gctx.entry) override_ }
{
    let init = gctx.overrides[override_].init?;
    match get_const_val_from(init, gctx.global_expressions, gctx) {
        Ok(0) | Err(_) => None,
        Ok(count) => Some(count),
    }
}

/// How many elements the size of an array counts: one if the array is runtime-sized, and none if it
/// is sized by an override that gives no count.
fn element_count(size: ArraySize, gctx: GlobalCtx<'_>) -> u32
    requires exists { IfSome (pending size) (λ o. o < length gctx.overrides.now) }
    requires references { GlobalReferencesOk (lists_of gctx) }
    ensures { result ≡ spec.element_count (lists_of gctx.entry) size }
{
    match size {
        ArraySize::Constant(count) => count.get(),
        // In an accepted module no member or element is sized by an override, so no other size depends on this.
        ArraySize::Pending(override_) => override_count(override_, gctx).unwrap_or(0),
        // A buffer that is bound to such an array has room for one element at least.
        ArraySize::Dynamic => 1,
    }
}

/// The size of an array, in bytes: its number of elements times its stride.
pub(crate) fn array_size(size: ArraySize, stride: u32, gctx: GlobalCtx<'_>) -> u64
    requires exists { IfSome (pending size) (λ o. o < length gctx.overrides.now) }
    requires references { GlobalReferencesOk (lists_of gctx) }
    ensures { result ≡ spec.element_count (lists_of gctx.entry) size * stride }
{
    u64::from(element_count(size, gctx)) * u64::from(stride)
}

/// The size of a value that is not an array, in bytes.
pub(crate) fn size_unless_array(inner: &TypeInner) -> u32
    ensures { IsNotArray inner.now → (g : GlobalLists) → result ≡ size_of g inner.now }
{
    match inner {
        TypeInner::Scalar(scalar) | TypeInner::Atomic(scalar) => u32::from(scalar.width),
        TypeInner::Vector { size, scalar } => {
            u32::from(size.components()) * u32::from(scalar.width)
        }
        TypeInner::Matrix {
            columns,
            rows,
            scalar,
        } => {
            // WGSL gives a column of three the room of four; cooperative matrices have no gaps.
            let column = Alignment::from(*rows).get() * u32::from(scalar.width);
            u32::from(columns.components()) * column
        }
        TypeInner::CooperativeMatrix {
            columns,
            rows,
            scalar,
            ..
        } => {
            let column = u32::from(rows.components()) * u32::from(scalar.width);
            u32::from(columns.components()) * column
        }
        TypeInner::Pointer { .. } | TypeInner::ValuePointer { .. } => 4,
        TypeInner::Struct { span, .. } => *span,
        TypeInner::Array { .. }
        | TypeInner::Image { .. }
        | TypeInner::Sampler { .. }
        | TypeInner::AccelerationStructure { .. }
        | TypeInner::RayQuery { .. }
        | TypeInner::BindingArray { .. } => 0,
    }
}

/// The size of a value, in bytes, or `None` if it is above 4294967295, which only the size of an array
/// can be.
///
/// For types that a buffer may hold the rule is WGSL's, "Alignment and Size", except that an array
/// is as large as its stride says. A runtime-sized array counts one element. A pointer has 4 bytes,
/// and types without a size have 0. naga's `TypeInner::try_size` is `None` for an array above
/// `MAX_TYPE_SIZE` already.
///
/// The cost is constant: a struct says its span, and an array its stride.
pub fn try_size(inner: &TypeInner, gctx: GlobalCtx<'_>) -> Option<u32>
    requires exist { ReferencesExist (lists_of gctx) inner.now }
    requires references { GlobalReferencesOk (lists_of gctx) }
    ensures value { MatchOption result (largest_u32 < size_of (lists_of gctx.entry) inner.now)
        (λ size. size ≡ size_of (lists_of gctx.entry) inner.now) }
    ensures fits { OnSome result (SizeFits (lists_of gctx.entry) inner.now) }
{
    if let TypeInner::Array { size, stride, .. } = inner {
        return u32::try_from(array_size(*size, *stride, gctx)).ok();
    }
    Some(size_unless_array(inner))
}

/// The size of a value, in bytes, of a type whose size fits a `u32`: of any type except an array, and of
/// each array that has a layout. naga's `TypeInner::size`. The cost is constant.
pub fn size(inner: &TypeInner, gctx: GlobalCtx<'_>) -> u32
    requires exist { ReferencesExist (lists_of gctx) inner.now }
    requires references { GlobalReferencesOk (lists_of gctx) }
    requires fits { SizeFits (lists_of gctx) inner.now }
    ensures { result ≡ size_of (lists_of gctx.entry) inner.now }
{
    if let TypeInner::Array { size, stride, .. } = inner {
        return array_size(*size, *stride, gctx) as u32;
    }
    size_unless_array(inner)
}
