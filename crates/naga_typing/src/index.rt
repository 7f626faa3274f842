//! Indexable lengths: how many elements a value has that can be indexed.

ghost use Rattle.std.specs.Prelude.{◌≡◌};
ghost use Rattle.naga_ir.specs.Handles.{GlobalReferencesOk};
ghost use Rattle.naga_ir.specs.ItemReferences.{global_lists};
ghost use Rattle.naga_typing.specs.Context.{ReferencesExist, lists_of};
ghost use Rattle.naga_typing.specs.ErrorNames.{indexable_length_error_name};
ghost use Rattle.naga_typing.specs.Index.{IsLength, LengthOfArray, PointsTo, length_of, pending_length, resolved_length};
ghost use Rattle.naga_typing.specs.steps.Index.{HasNoArraySize};

use crate::context::{GlobalCtx, to_ctx};
use crate::type_methods::override_count;
use naga_ir::ir::Module;
use naga_ir::types::{ArraySize, TypeInner};
use thiserror::Error;

/// How many elements can be indexed: naga's `IndexableLength`.
#[derive(Clone, Copy, Debug, PartialEq, Eq)]
pub enum IndexableLength {
    /// This number of elements.
    Known(u32),
    /// The number that an override gives when a pipeline is created.
    Pending,
    /// The number that the bound buffer has room for.
    Dynamic,
}

/// Why a type has no indexable length.
#[derive(Clone, Copy, Debug, PartialEq, Eq, Error)]
pub enum IndexableLengthError {
    /// It is neither a vector, matrix, array or binding array, nor a pointer to one.
    #[error("Type is not indexable, and has no length (validation error)")]
    TypeNotIndexable,
    /// The override that gives the number of elements has no initialiser that is an index constant
    /// above 0.
    #[error("Array length is not a positive constant")]
    InvalidArrayLength,
}

impl IndexableLengthError {
    /// The name of the variant.
    pub fn name(&self) -> &'static str
        ensures { result.now ≡ indexable_length_error_name self.now }
    {
        match self {
            IndexableLengthError::TypeNotIndexable => "TypeNotIndexable",
            IndexableLengthError::InvalidArrayLength => "InvalidArrayLength",
        }
    }
}

/// How many elements of a value can be indexed, before overrides have their values: the components of
/// a vector, the columns of a matrix, the elements of an array or a binding array. A pointer has the
/// length of the type that it points to, through any number of pointers: naga's
/// `TypeInner::indexable_length_pending` goes through one.
///
/// The cost is linear in the number of pointers.
///
/// # Errors
///
/// `TypeNotIndexable` for all other types.
pub fn indexable_length_pending(
    inner: &TypeInner,
    module: &Module,
) -> Result<IndexableLength, IndexableLengthError>
    requires exist { ReferencesExist (global_lists «module».now) inner.now }
    requires references { GlobalReferencesOk (global_lists «module».now) }
    ensures { IsLength (global_lists «module».now) pending_length inner.now result }
{
    match pointed_form(inner, to_ctx(module)) {
        TypeInner::Array { size, .. } | TypeInner::BindingArray { size, .. } => Ok(match *size {
            ArraySize::Constant(count) => IndexableLength::Known(count.get()),
            ArraySize::Pending(_) => IndexableLength::Pending,
            ArraySize::Dynamic => IndexableLength::Dynamic,
        }),
        inner => length_unless_array(inner),
    }
}

/// How many elements of a value can be indexed, once overrides have their values: as
/// `indexable_length_pending`, but an array that an override sizes has the length that the initialiser
/// of the override gives. naga's `TypeInner::indexable_length_resolved` goes through one pointer.
///
/// The cost is linear in the number of pointers.
///
/// # Errors
///
/// - `InvalidArrayLength` if the override has no initialiser that is an index constant above 0.
/// - `TypeNotIndexable` as `indexable_length_pending`.
pub fn indexable_length_resolved(
    inner: &TypeInner,
    module: &Module,
) -> Result<IndexableLength, IndexableLengthError>
    requires exist { ReferencesExist (global_lists «module».now) inner.now }
    requires references { GlobalReferencesOk (global_lists «module».now) }
    ensures { IsLength (global_lists «module».now) (resolved_length (global_lists «module».now)) inner.now result }
{
    let gctx = to_ctx(module);
    match pointed_form(inner, gctx) {
        TypeInner::Array { size, .. } | TypeInner::BindingArray { size, .. } => match *size {
            ArraySize::Constant(count) => Ok(IndexableLength::Known(count.get())),
            ArraySize::Pending(override_) => override_count(override_, gctx)
                .map(IndexableLength::Known)
                .ok_or(IndexableLengthError::InvalidArrayLength),
            ArraySize::Dynamic => Ok(IndexableLength::Dynamic),
        },
        inner => length_unless_array(inner),
    }
}

/// The type that pointers lead to, through any number of them.
fn pointed_form<'a>(inner: &'a TypeInner, gctx: GlobalCtx<'a>) -> &'a TypeInner
    requires exist { ReferencesExist (lists_of gctx) inner.now }
    requires references { GlobalReferencesOk (lists_of gctx) }
    ensures leads { PointsTo gctx.entry.types.now inner.now result.now }
    ensures exist { ReferencesExist (lists_of gctx.entry) result.now }
{
    let mut inner = inner;
    // The base of each pointer precedes it, so this ends.
    while let TypeInner::Pointer { base, .. } = inner {
        inner = &gctx.types[*base].inner;
    }
    inner
}

/// The indexable length of a type that is neither an array nor a binding array nor a pointer to a type of the
/// module.
fn length_unless_array(inner: &TypeInner) -> Result<IndexableLength, IndexableLengthError>
    ensures { HasNoArraySize inner.now → (of_array : LengthOfArray) → result ≡ length_of of_array inner.now }
{
    match inner {
        TypeInner::Vector { size, .. }
        | TypeInner::Matrix { columns: size, .. }
        | TypeInner::ValuePointer {
            size: Some(size),
            ..
        } => Ok(IndexableLength::Known(u32::from(size.components()))),
        TypeInner::Scalar(_)
        | TypeInner::CooperativeMatrix { .. }
        | TypeInner::Atomic(_)
        | TypeInner::Pointer { .. }
        | TypeInner::ValuePointer { size: None, .. }
        | TypeInner::Array { .. }
        | TypeInner::Struct { .. }
        | TypeInner::Image { .. }
        | TypeInner::Sampler { .. }
        | TypeInner::AccelerationStructure { .. }
        | TypeInner::RayQuery { .. }
        | TypeInner::BindingArray { .. } => Err(IndexableLengthError::TypeNotIndexable),
    }
}
