//! What a type is made of.

ghost use Rattle.std.specs.Prelude.{◌≡◌};
ghost use Rattle.naga_ir.specs.Parts as spec;

use crate::types::{ArraySize, StructMember, TypeInner};
use naga_arena::handle::Handle;
use naga_arena::tags::{OverrideTag, TypeTag};
use std::marker::Model;

/// The types that a type is made of, in the order of its fields. Contracts see those that are left.
#[derive(Drop)]
pub struct Parts<'a> {
    base: Option<Handle<TypeTag>>,
    members: &'a [StructMember],
}

impl<'a> Model for Parts<'a> {
    ghost use Rattle.std.specs.Prelude.{ℕ, List, ◌++◌, map, option_to_list};
    ghost use Rattle.naga_ir.specs.declared.types.StructMember.{StructMember};

    ghost Value = { List ℕ };

    ghost view = { λ p. option_to_list p.base ++ map (λ (m : StructMember). m.ty) p.members.now };
}

impl<'a> Iterator for Parts<'a> {
    ghost use Rattle.std.specs.Iterator.{YieldsFirst, item_count};

    type Item = Handle<TypeTag>;

    ghost next_gives = { YieldsFirst (λ s. s) };

    ghost remaining = { item_count (λ s. s) };

    fn next(&mut self) -> Option<Handle<TypeTag>> {
        if let Some(base) = self.base.take() {
            return Some(base);
        }
        let (first, rest) = self.members.split_first()?;
        self.members = rest;
        Some(first.ty)
    }
}

fn pending(size: ArraySize) -> Option<Handle<OverrideTag>>
    ensures { result ≡ spec.pending size }
{
    match size {
        ArraySize::Pending(size) => Some(size),
        ArraySize::Constant(_) | ArraySize::Dynamic => None,
    }
}

impl TypeInner {
    /// The types that this one is made of: the type of a pointer's target, of an array's elements, or of
    /// each member of a struct.
    #[tactic(auto, unfolding(crate::specs::Parts::parts))]
    pub fn parts(&self) -> Parts<'_>
        ensures { result ≡ spec.parts self.now }
    {
        match self {
            TypeInner::Pointer { base, .. }
            | TypeInner::Array { base, .. }
            | TypeInner::BindingArray { base, .. } => Parts {
                base: Some(*base),
                members: &[],
            },
            TypeInner::Struct { members, .. } => Parts {
                base: None,
                members: members.as_slice(),
            },
            TypeInner::Scalar(_)
            | TypeInner::Vector { .. }
            | TypeInner::Matrix { .. }
            | TypeInner::CooperativeMatrix { .. }
            | TypeInner::Atomic(_)
            | TypeInner::ValuePointer { .. }
            | TypeInner::Image { .. }
            | TypeInner::Sampler { .. }
            | TypeInner::AccelerationStructure { .. }
            | TypeInner::RayQuery { .. } => Parts {
                base: None,
                members: &[],
            },
        }
    }

    /// The override that gives the number of elements, if one does.
    #[tactic(auto, unfolding(crate::specs::Parts::size_override))]
    pub fn size_override(&self) -> Option<Handle<OverrideTag>>
        ensures { result ≡ spec.size_override self.now }
    {
        match *self {
            TypeInner::Array { size, .. } | TypeInner::BindingArray { size, .. } => pending(size),
            TypeInner::Scalar(_)
            | TypeInner::Vector { .. }
            | TypeInner::Matrix { .. }
            | TypeInner::CooperativeMatrix { .. }
            | TypeInner::Atomic(_)
            | TypeInner::Pointer { .. }
            | TypeInner::ValuePointer { .. }
            | TypeInner::Struct { .. }
            | TypeInner::Image { .. }
            | TypeInner::Sampler { .. }
            | TypeInner::AccelerationStructure { .. }
            | TypeInner::RayQuery { .. } => None,
        }
    }
}
