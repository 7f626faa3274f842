//! The layouts of the types of a module: their sizes and alignments, in bytes.

ghost use Rattle.std.specs.Prelude.{◌≡◌, ◌*◌, ◌<◌, [], ◌∷◌, ◌++◌, All, length, map, slice_get, IfSome, is_some, take, IfErr, IsOk, MatchResult, OnErr, Ok, Err, Some};
ghost use Rattle.std.specs.Int.{is_power_of_two};
ghost use Rattle.naga_arena.specs.Memory.{UnlessOutOfMemory};
ghost use Rattle.naga_arena.specs.Results.{IsFirstError};
ghost use Rattle.naga_ir.specs.Handles.{GlobalReferencesOk};
ghost use Rattle.naga_ir.specs.declared.types.StructMember as member;
ghost use Rattle.naga_ir.specs.Sizes as sizes;
ghost use Rattle.naga_typing.specs.Context.{ReferencesExist, lists_of};
ghost use Rattle.naga_typing.specs.ErrorNames.{layout_error_name};
ghost use Rattle.naga_typing.specs.Layout as spec;
ghost use Rattle.naga_typing.specs.Layout.{AreLayouts, alignment_at, greatest, layout_of_inner, layout_results, layout_rule, size_of, size_rule, width_of};
ghost use Rattle.naga_typing.specs.steps.Layout.{PartsLaidOut};

use crate::context::GlobalCtx;
use crate::type_methods::{array_size, size_unless_array};
use naga_ir::alignment::Alignment;
use naga_ir::handle::Handle;
use naga_ir::handle_vec::HandleVec;
use naga_ir::memory::OutOfMemory;
use naga_ir::tags::TypeTag;
use naga_ir::types::{Scalar, StructMember, TypeInner, VectorSize};
use std::alloc::Global;
use std::marker::Model;
use std::ops::Index;
use thiserror::Error;

/// The greatest size of an array that has a layout, in bytes: naga's `MAX_TYPE_SIZE`.
pub const MAX_TYPE_SIZE: u32 = 2_147_483_647;

/// The size and the alignment of the values of a type: naga's `TypeLayout`.
#[derive(Clone, Copy, Debug, PartialEq, Eq)]
pub struct TypeLayout {
    /// The size of a value, in bytes.
    pub size: u32,
    /// The address of a value is a multiple of this many bytes.
    pub alignment: Alignment,
}

/// Why a type has no layout.
#[derive(Clone, Copy, Debug, PartialEq, Error)]
pub enum LayoutErrorInner {
    /// An array is larger than `MAX_TYPE_SIZE`.
    #[error("The array is larger than 2147483647 bytes")]
    TooLarge,
    /// The width of a scalar, in bytes, is not a power of two.
    #[error("The scalar width is not a power of two")]
    NonPowerOfTwoWidth,
    /// A request for memory was refused.
    #[error("Out of memory")]
    OutOfMemory,
}

impl LayoutErrorInner {
    /// The name of the variant.
    pub fn name(&self) -> &'static str
        ensures { result.now ≡ layout_error_name self.now }
    {
        match self {
            LayoutErrorInner::TooLarge => "TooLarge",
            LayoutErrorInner::NonPowerOfTwoWidth => "NonPowerOfTwoWidth",
            LayoutErrorInner::OutOfMemory => "OutOfMemory",
        }
    }
}

impl From<OutOfMemory> for LayoutErrorInner {
    ghost use Rattle.std.specs.Prelude.{◌≡◌};
    ghost use Rattle.naga_typing.specs.declared.layouter.LayoutErrorInner.TheVariants.{OutOfMemory};

    ghost from_gives = { λ _ e. e ≡ OutOfMemory };

    fn from(_: OutOfMemory) -> LayoutErrorInner {
        LayoutErrorInner::OutOfMemory
    }
}

impl LayoutErrorInner {
    /// This error of the type `ty`.
    fn with(self, ty: Handle<TypeTag>) -> LayoutError
        ensures { result ≡ record { ty = ty; inner = self } }
    {
        LayoutError { ty, inner: self }
    }
}

/// A type that has no layout, and why: naga's `LayoutError`.
#[derive(Clone, Debug, PartialEq, Drop, Error)]
#[error("Error laying out type {ty:?}: {inner}")]
pub struct LayoutError {
    /// The type.
    pub ty: Handle<TypeTag>,
    /// Why it has no layout.
    pub inner: LayoutErrorInner,
}

/// The layouts of the types of a module, which contracts see as a list in the order of the types:
/// naga's `Layouter`.
#[derive(Debug, Drop)]
pub struct Layouter {
    layouts: HandleVec<TypeLayout, TypeTag>,
}

impl Model for Layouter {
    ghost use Rattle.std.specs.Prelude.{List};
    ghost use Rattle.naga_typing.specs.declared.layouter.TypeLayout.{TypeLayout};

    ghost Value = { List TypeLayout };

    ghost view = { λ l. l.layouts.items };
}

/// The size of a value, in bytes, unless it is an array above `MAX_TYPE_SIZE`.
fn limited_size(inner: &TypeInner, gctx: GlobalCtx<'_>) -> Result<u32, LayoutErrorInner>
    requires exist { ReferencesExist (lists_of gctx) inner.now }
    requires references { GlobalReferencesOk (lists_of gctx) }
    ensures { MatchResult result (λ size. (size_rule (lists_of gctx.entry) inner.now ≡ Ok tt)
        × (size ≡ size_of (lists_of gctx.entry) inner.now))
        (λ e. size_rule (lists_of gctx.entry) inner.now ≡ Err e) }
{
    // Only an array's size is a product of two numbers of 32 bits, and may need more.
    if let TypeInner::Array { size, stride, .. } = inner {
        return match u32::try_from(array_size(*size, *stride, gctx)) {
            Ok(bytes) if bytes <= MAX_TYPE_SIZE => Ok(bytes),
            Ok(_) | Err(_) => Err(LayoutErrorInner::TooLarge),
        };
    }
    Ok(size_unless_array(inner))
}

/// The alignment of a vector, if the width of its scalars is a power of two.
#[tactic(auto, using(crate::proofs::Powers::power_of_vector))]
fn vector_alignment(size: VectorSize, scalar: Scalar) -> Option<Alignment>
    ensures power { is_some result ≡ is_power_of_two scalar.width }
    ensures value { IfSome result (λ a. a ≡ sizes.vector_alignment size * scalar.width) }
{
    Alignment::new(Alignment::from(size).get() * u32::from(scalar.width))
}

impl Layouter {
    /// No layouts, which take their memory from `alloc`.
    pub fn new(alloc: Global) -> Layouter
        ensures { result ≡ [] }
    {
        Layouter {
            layouts: HandleVec::new(alloc),
        }
    }

    /// Forgets all layouts.
    pub fn clear(&mut self)
        ensures { self.new ≡ [] }
    {
        self.layouts.clear();
    }

    /// Lays out the types of a module, and forgets all layouts before. The rule is naga's
    /// `Layouter::update`, and for types that a buffer may hold WGSL's, "Alignment and Size".
    ///
    /// Sizes are as `size` returns them. A scalar, an atomic and a cooperative matrix are aligned to the width
    /// of the scalar, a vector to 2 or 4 times the width (a vector of three components to 4 times), a
    /// matrix as its columns, an array as its base, a struct as the member of the greatest alignment,
    /// and all else to 1.
    ///
    /// The cost is linear in the types and their members.
    ///
    /// # Errors
    ///
    /// The error names the first type that has no layout, and leaves no layouts.
    ///
    /// - `NonPowerOfTwoWidth` if the type is a scalar, vector, matrix, cooperative matrix or atomic, and
    ///   the width of its scalar is not a power of two.
    /// - `TooLarge` if it is an array of more than `MAX_TYPE_SIZE` bytes.
    /// - `OutOfMemory` if memory was refused. The type is the one whose layout would have been next; it
    ///   has a layout, as have all types before it.
    pub fn update(&mut self, gctx: GlobalCtx<'_>) -> Result<(), LayoutError>
        requires { GlobalReferencesOk (lists_of gctx) }
        ensures layouts { UnlessOutOfMemory (λ e. e.inner ≡ LayoutErrorInner.OutOfMemory) result
            (λ _. AreLayouts (lists_of gctx.entry) self.new)
            (λ e. IsFirstError (layout_results (lists_of gctx.entry)) e.ty e.inner) }
        ensures place { IfErr result (λ e. e.ty < length gctx.entry.types.now) }
        ensures memory { IfErr result (λ e. e.inner ≡ LayoutErrorInner.OutOfMemory
            → slice_get (layout_results (lists_of gctx.entry)) e.ty ≡ Some (Ok tt)) }
        ensures before { IfErr result (λ e. All IsOk (take e.ty (layout_results (lists_of gctx.entry)))) }
        ensures cleared { OnErr result (self.new ≡ []) }
    {
        self.clear();
        for (ty, type_) in gctx.types.iter() {
            if let Err(inner) = self.append(&type_.inner, gctx) {
                self.clear();
                return Err(inner.with(ty));
            }
        }
        Ok(())
    }

    /// Lays out one more type.
    fn append(&mut self, inner: &TypeInner, gctx: GlobalCtx<'_>) -> Result<(), LayoutErrorInner>
        requires laid_out { PartsLaidOut self.old inner.now }
        requires exist { ReferencesExist (lists_of gctx) inner.now }
        requires references { GlobalReferencesOk (lists_of gctx) }
        ensures { UnlessOutOfMemory (λ e. (e ≡ LayoutErrorInner.OutOfMemory)
            × (layout_rule (lists_of gctx.entry) inner.now ≡ Ok tt)) result
            (λ _. (layout_rule (lists_of gctx.entry) inner.now ≡ Ok tt)
            × (self.new ≡ self.old ++ layout_of_inner (lists_of gctx.entry) self.old inner.now ∷ []))
            (λ e. layout_rule (lists_of gctx.entry) inner.now ≡ Err e) }
    {
        let layout = self.layout_of(inner, gctx)?;
        self.layouts.push(layout)?;
        Ok(())
    }

    /// The layout of one type.
    fn layout_of(
        &self,
        inner: &TypeInner,
        gctx: GlobalCtx<'_>,
    ) -> Result<TypeLayout, LayoutErrorInner>
        requires laid_out { PartsLaidOut self.now inner.now }
        requires exist { ReferencesExist (lists_of gctx) inner.now }
        requires references { GlobalReferencesOk (lists_of gctx) }
        ensures { MatchResult result (λ layout. (layout_rule (lists_of gctx.entry) inner.now ≡ Ok tt)
            × (layout ≡ layout_of_inner (lists_of gctx.entry) self.now inner.now))
            (λ e. layout_rule (lists_of gctx.entry) inner.now ≡ Err e) }
    {
        let Some(alignment) = self.alignment_of(inner) else {
            return Err(LayoutErrorInner::NonPowerOfTwoWidth);
        };
        let size = limited_size(inner, gctx)?;
        Ok(TypeLayout { size, alignment })
    }

    /// The alignment of a value, if the width of its scalars is a power of two.
    #[tactic(auto, using(crate::proofs::Powers::power_of_one))]
    fn alignment_of(&self, inner: &TypeInner) -> Option<Alignment>
        requires { PartsLaidOut self.now inner.now }
        ensures power { is_some result ≡ is_power_of_two (width_of inner.now) }
        ensures value { IfSome result (λ a. a ≡ spec.alignment_of self.now inner.now) }
    {
        match inner {
            TypeInner::Scalar(scalar)
            | TypeInner::Atomic(scalar)
            | TypeInner::CooperativeMatrix { scalar, .. } => {
                Alignment::new(u32::from(scalar.width))
            }
            TypeInner::Vector { size, scalar } => vector_alignment(*size, *scalar),
            TypeInner::Matrix { rows, scalar, .. } => vector_alignment(*rows, *scalar),
            TypeInner::Array { base, .. } => Some(self[*base].alignment),
            TypeInner::Struct { members, .. } => Some(self.greatest_alignment(members.as_slice())),
            TypeInner::Pointer { .. }
            | TypeInner::ValuePointer { .. }
            | TypeInner::Image { .. }
            | TypeInner::Sampler { .. }
            | TypeInner::AccelerationStructure { .. }
            | TypeInner::RayQuery { .. }
            | TypeInner::BindingArray { .. } => Some(Alignment::ONE),
        }
    }

    /// The greatest alignment of some members, and 1 if there are none.
    fn greatest_alignment(&self, members: &[StructMember]) -> Alignment
        requires { All (λ (m : member.StructMember). m.ty < length self.now) members.now }
        ensures { result ≡ greatest (map (λ (m : member.StructMember). alignment_at self.now m.ty) members.now) }
    {
        let mut alignment = Alignment::ONE;
        for member in members {
            // The members' types precede the struct, so their layouts are known by index.
            let next = self[member.ty].alignment;
            if next > alignment {
                alignment = next;
            }
        }
        alignment
    }
}

impl Index<Handle<TypeTag>> for Layouter {
    ghost use Rattle.std.specs.Prelude.{◌≡◌, ◌<◌, length, Some, slice_get};

    type Output = TypeLayout;

    ghost can_index = { λ l i. i < length l };

    ghost index_gives = { λ l i r. slice_get l i ≡ Some r };

    fn index(&self, handle: Handle<TypeTag>) -> &TypeLayout {
        &self.layouts[handle]
    }
}
