//! The infos of types, and what the rule of types depends on.

ghost use Rattle.std.specs.Prelude.{◌≡◌, ◌==◌, ◌<◌, ◌≤◌, [], ◌∷◌, ◌++◌, length, map, IfOk, IsOk, OnErr, OnOk, Some, slice_get};

use crate::error::Disalignment;
use naga_flags::flags::{Capabilities, TypeFlags};
use naga_flags::width::ImmediateCompatibility;
use naga_ir::alignment::Alignment;
use naga_ir::handle::Handle;
use naga_ir::handle_vec::HandleVec;
use naga_ir::memory::OutOfMemory;
use naga_ir::tags::TypeTag;
use naga_typing::layouter::Layouter;
use std::alloc::Global;
use std::marker::Model;

/// The alignment, in bytes, at which host and device may share values of a type in an address space, or
/// the type inside it because of which they may not, and why. It matters only for host-shareable types.
pub type LayoutCompatibility = Result<Alignment, (Handle<TypeTag>, Disalignment)>;

/// What is known of an accepted type: naga's `TypeInfo`.
#[derive(Clone, Copy, Debug, PartialEq)]
pub struct TypeInfo {
    /// What the type may be used for.
    pub flags: TypeFlags,
    /// Its layout in the uniform address space (WGSL "Address Space Layout Constraints").
    pub uniform_layout: LayoutCompatibility,
    /// Its layout in the storage address space (WGSL "Alignment and Size").
    pub storage_layout: LayoutCompatibility,
    /// Whether immediates may hold it.
    pub immediates_compatibility: ImmediateCompatibility,
}

impl TypeInfo {
    /// The info of a type with one alignment in both address spaces, which immediates may hold.
    pub fn new(flags: TypeFlags, alignment: Alignment) -> TypeInfo
        ensures { result ≡ record {
          flags = flags;
          uniform_layout = Ok alignment;
          storage_layout = Ok alignment;
          immediates_compatibility = Ok tt;
        } }
    {
        TypeInfo {
            flags,
            uniform_layout: Ok(alignment),
            storage_layout: Ok(alignment),
            immediates_compatibility: Ok(()),
        }
    }
}

/// The infos of a module's types, in a column for each field. Contracts see them as a list in the order of the types,
/// with the room for infos that takes no more memory.
#[derive(Debug, Drop)]
pub struct TypeInfos {
    flags: HandleVec<TypeFlags, TypeTag>,
    uniform_layouts: HandleVec<LayoutCompatibility, TypeTag>,
    storage_layouts: HandleVec<LayoutCompatibility, TypeTag>,
    immediates_compatibilities: HandleVec<ImmediateCompatibility, TypeTag>,
}

impl Model for TypeInfos {
    ghost use Rattle.std.specs.Prelude.{min};
    ghost use Rattle.naga_types.specs.Infos.{AreColumns, Infos, infos_in};

    ghost Value = { Infos };

    ghost view = { λ i. record {
      infos = infos_in i.flags.items i.uniform_layouts.items i.storage_layouts.items i.immediates_compatibilities.items;
      room = min (min i.flags.room i.uniform_layouts.room) (min i.storage_layouts.room i.immediates_compatibilities.room);
    } };

    ghost invariant = { λ i. AreColumns i.flags.items i.uniform_layouts.items i.storage_layouts.items
        i.immediates_compatibilities.items };
}

impl TypeInfos {
    /// No infos, with room for `room` of them.
    ///
    /// # Errors
    ///
    /// `OutOfMemory` if memory was refused; room for none takes no memory.
    pub fn with_room(alloc: Global, room: usize) -> Result<TypeInfos, OutOfMemory>
        ensures infos { IfOk result (λ i. i.infos ≡ []) }
        ensures room { IfOk result (λ i. i.room ≡ room) }
        ensures none { room ≡ 0 → IsOk result }
    {
        Ok(TypeInfos {
            flags: HandleVec::with_capacity(alloc, room)?,
            uniform_layouts: HandleVec::with_capacity(alloc, room)?,
            storage_layouts: HandleVec::with_capacity(alloc, room)?,
            immediates_compatibilities: HandleVec::with_capacity(alloc, room)?,
        })
    }

    /// How many infos there is room for without more memory.
    pub fn room(&self) -> usize
        ensures { result ≡ self.now.room }
    {
        let flags = self.flags.capacity();
        let layouts = self
            .uniform_layouts
            .capacity()
            .min(self.storage_layouts.capacity());
        flags
            .min(layouts)
            .min(self.immediates_compatibilities.capacity())
    }

    /// How many infos there are.
    pub fn len(&self) -> usize
        ensures { result ≡ length self.now.infos }
    {
        self.flags.len()
    }

    /// Whether there is no info.
    pub fn is_empty(&self) -> bool
        ensures { result ≡ (length self.now.infos == 0) }
    {
        self.flags.is_empty()
    }

    /// What each type may be used for, in the order of the types.
    pub fn flags(&self) -> &[TypeFlags]
        ensures { result.now ≡ map (λ info. info.flags) self.now.infos }
    {
        self.flags.as_slice()
    }

    /// Makes room for one more info.
    ///
    /// # Errors
    ///
    /// `OutOfMemory` if memory was refused, which leaves the infos as they were.
    fn reserve_one(&mut self) -> Result<(), OutOfMemory>
        ensures infos { self.new.infos ≡ self.old.infos }
        ensures reserved { OnOk result (length self.old.infos < self.new.room) }
        ensures within_room { length self.old.infos < self.old.room → IsOk result }
        ensures room { self.old.room ≤ self.new.room }
    {
        self.flags.reserve(1)?;
        self.uniform_layouts.reserve(1)?;
        self.storage_layouts.reserve(1)?;
        self.immediates_compatibilities.reserve(1)
    }

    /// Adds the info of the next type. Below the room this takes no memory.
    ///
    /// # Errors
    ///
    /// `OutOfMemory` if memory was refused, which leaves the infos as they were.
    pub fn push(&mut self, info: TypeInfo) -> Result<(), OutOfMemory>
        ensures pushed { OnOk result (self.new.infos ≡ self.old.infos ++ info ∷ []) }
        ensures refused { OnErr result (self.new.infos ≡ self.old.infos) }
        ensures within_room { length self.old.infos < self.old.room → IsOk result }
        ensures room { self.old.room ≤ self.new.room }
    {
        // All columns have room before the first grows.
        self.reserve_one()?;
        self.flags.push_reserved(info.flags);
        self.uniform_layouts.push_reserved(info.uniform_layout);
        self.storage_layouts.push_reserved(info.storage_layout);
        self.immediates_compatibilities
            .push_reserved(info.immediates_compatibility);
        Ok(())
    }

    /// The info of the type that a handle names.
    pub fn get(&self, handle: Handle<TypeTag>) -> TypeInfo
        requires { handle < length self.now.infos }
        ensures { slice_get self.now.infos handle ≡ Some result }
    {
        TypeInfo {
            flags: self.flags[handle],
            uniform_layout: self.uniform_layouts[handle],
            storage_layout: self.storage_layouts[handle],
            immediates_compatibility: self.immediates_compatibilities[handle],
        }
    }

    /// Forgets all infos, and keeps the room.
    pub fn clear(&mut self)
        ensures { self.new ≡ record self.old { infos = [] } }
    {
        self.flags.clear();
        self.uniform_layouts.clear();
        self.storage_layouts.clear();
        self.immediates_compatibilities.clear();
    }
}

/// What the rule of a type depends on, besides the module.
#[derive(Clone, Copy)]
pub struct TypeContext<'a> {
    /// What shaders may use.
    pub capabilities: Capabilities,
    /// Whether overrides must have their values.
    pub overrides_resolved: bool,
    /// The infos of the types before the one that is validated, or of more.
    pub infos: &'a TypeInfos,
    /// The layouts of all types.
    pub layouter: &'a Layouter,
}
