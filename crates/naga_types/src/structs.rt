//! The rule of structs (WGSL "Structure Types", "Structure Member Layout").

ghost use Rattle.std.specs.Prelude.{◌≡◌, ◌+◌, ◌<◌, All, OnOk, Some, length, slice_get, take};
ghost use Rattle.std.specs.List.{enumerate_from, list_any};
ghost use Rattle.naga_ir.specs.Handles.{GlobalReferencesOk};
ghost use Rattle.naga_ir.specs.declared.types.StructMember as member;
ghost use Rattle.naga_types.specs.RuleResults.{IsRuleResult};
ghost use Rattle.naga_types.specs.Checks.{ok_unless, first_error_or};
ghost use Rattle.naga_types.specs.Layouts as layouts;
ghost use Rattle.naga_types.specs.StructRule as rule;
ghost use Rattle.naga_types.specs.Surroundings.{info_at, surroundings};
ghost use Rattle.naga_types.specs.steps.KnownTypes.{KnownBefore};
ghost use Rattle.naga_types.specs.declared.structs.SharedSpace.TheVariants.{Storage, Uniform};
ghost use Rattle.naga_types.specs.steps.Structs.{AreLaidOut, MembersKnown, alignment_in, checked_layouts, is_noted, layout_in, sources_of, surroundings_of, with_member};
ghost use Rattle.naga_typing.specs.Context.{lists_of};

use crate::error::{Disalignment, TypeError, VaryingError, saturated};
use crate::info::{LayoutCompatibility, TypeContext, TypeInfo};
use crate::type_rule::{require_type_capability, unshared_flags};
use bitflags::Flags;
use naga_flags::flags::{Capabilities, TypeFlags};
use naga_flags::width::ImmediateCompatibility;
use naga_ir::alignment::Alignment;
use naga_ir::handle::Handle;
use naga_ir::memory::OutOfMemory;
use naga_ir::tags::TypeTag;
use naga_ir::text::Text;
use naga_ir::types::{Binding, StructMember, TypeInner};
use naga_typing::context::GlobalCtx;
use naga_typing::typifier::{TypeResolution, compare_types};
use std::alloc::Global;

/// The address spaces that hosts share.
#[derive(Clone, Copy)]
enum SharedSpace {
    Uniform,
    Storage,
}

impl SharedSpace {
    /// The layout of a type in this space.
    fn layout(self, info: TypeInfo) -> LayoutCompatibility
        ensures { result ≡ layout_in self info }
    {
        match self {
            Self::Uniform => info.uniform_layout,
            Self::Storage => info.storage_layout,
        }
    }
}

/// The types of the two sources of blending among members.
#[derive(Clone, Copy)]
struct Sources {
    first: Option<Handle<TypeTag>>,
    second: Option<Handle<TypeTag>>,
}

impl Sources {
    /// Notes a source of blending, if a member is one.
    fn note(&mut self, capabilities: Capabilities, member: &StructMember) -> Result<(), TypeError>
        ensures checks { result ≡ first_error_or
            (rule.source_checks capabilities.0 (is_noted self.old) (rule.source_of member.now.binding)) tt }
        ensures noted { OnOk result (self.new ≡ with_member self.old member.now) }
    {
        let Some(
            Binding::Location {
                location,
                blend_src: Some(blend_src),
                ..
            },
        ) = member.binding
        else {
            return Ok(());
        };
        require_type_capability(capabilities, Capabilities::DUAL_SOURCE_BLENDING)?;
        if location != 0 || blend_src > 1 {
            return Err(TypeError::InvalidBlendSrc(VaryingError::InvalidBlendSrcIndex {
                location,
                blend_src,
            }));
        }
        let before = if blend_src == 0 {
            self.first.replace(member.ty)
        } else {
            self.second.replace(member.ty)
        };
        if before.is_some() {
            return Err(TypeError::InvalidBlendSrc(VaryingError::BindingCollisionBlendSrc {
                blend_src,
            }));
        }
        Ok(())
    }
}

/// What the members of a struct have in common.
#[derive(Clone, Copy)]
struct Common {
    /// What all of them may be used for.
    flags: TypeFlags,
    /// Whether immediates may hold all of them.
    immediates: ImmediateCompatibility,
    /// How many of them, from the first on, have one alignment in both spaces that hosts share and begin
    /// at a multiple of it.
    alike: usize,
    /// The greatest alignment of these.
    alignment: Alignment,
}

/// A struct among the other types.
#[derive(Clone, Copy)]
struct StructType<'a> {
    ctx: TypeContext<'a>,
    gctx: GlobalCtx<'a>,
    handle: Handle<TypeTag>,
    members: &'a [StructMember],
    span: u32,
}

impl StructType<'_> {
    /// The info of the type of a member.
    fn info(&self, member: &StructMember) -> TypeInfo
        requires known { MembersKnown self.now }
        requires before { member.now.ty < self.now.handle }
        ensures { result ≡ info_at (surroundings_of self.now) member.now.ty }
    {
        self.ctx.infos.get(member.ty)
    }

    /// The offset of the first byte after a member.
    fn end_of(&self, member: &StructMember) -> u64
        requires known { MembersKnown self.now }
        requires before { member.now.ty < self.now.handle }
        ensures { result ≡ rule.end_in (surroundings_of self.now) (Some member.now) }
    {
        // Two numbers of 32 bits are added, whose sum may need one bit more.
        u64::from(member.offset) + u64::from(self.ctx.layouter[member.ty].size)
    }

    /// The offset of the first byte after the member before the one at a place.
    fn end_before(&self, index: usize) -> u64
        requires known { MembersKnown self.now }
        requires member { index < length self.now.members.now }
        ensures { result ≡ rule.end_in (surroundings_of self.now) (layouts.before self.now.members.now index) }
    {
        if index == 0 {
            0
        } else {
            self.end_of(&self.members[index - 1])
        }
    }

    /// Checks that a member begins at 0 or not below `before`, the end of the one before it, and ends
    /// within the struct.
    fn check_place(&self, index: usize, before: u64, member: &StructMember) -> Result<(), TypeError>
        requires known { MembersKnown self.now }
        requires member { slice_get self.now.members.now index ≡ Some member.now }
        requires before { before ≡ rule.end_in (surroundings_of self.now) (layouts.before self.now.members.now index) }
        ensures { result ≡ first_error_or
            (rule.place_checks (surroundings_of self.now) self.now.members.now self.now.span index member.now) tt }
    {
        let offset = member.offset;
        // A member at 0 may overlap: structs that hosts don't share needn't have offsets (naga).
        if offset != 0 && u64::from(offset) < before {
            return Err(TypeError::MemberOverlap {
                index: saturated(index as u64),
                offset,
            });
        }
        if self.end_of(member) > u64::from(self.span) {
            return Err(TypeError::MemberOutOfBounds {
                index: saturated(index as u64),
                offset,
                size: self.ctx.layouter[member.ty].size,
                span: self.span,
            });
        }
        Ok(())
    }

    /// Checks that a member has a fixed size, or is an array at the end.
    fn check_size(
        &self,
        alloc: Global,
        index: usize,
        member: &StructMember,
    ) -> Result<(), TypeError>
        requires known { MembersKnown self.now }
        requires member { slice_get self.now.members.now index ≡ Some member.now }
        ensures { IsRuleResult (ok_unless
            (rule.member_size_error (surroundings_of self.now) self.now.members.now index member.now) tt) result }
    {
        if self.info(member).flags.contains(TypeFlags::SIZED) {
            return Ok(());
        }
        // What came after a runtime-sized array would have no fixed offset, so it has to be last.
        let is_array = match self.gctx.types[member.ty].inner {
            TypeInner::Array { .. } => true,
            TypeInner::Scalar(_)
            | TypeInner::Vector { .. }
            | TypeInner::Matrix { .. }
            | TypeInner::CooperativeMatrix { .. }
            | TypeInner::Atomic(_)
            | TypeInner::Pointer { .. }
            | TypeInner::ValuePointer { .. }
            | TypeInner::Struct { .. }
            | TypeInner::Image { .. }
            | TypeInner::Sampler { .. }
            | TypeInner::AccelerationStructure { .. }
            | TypeInner::RayQuery { .. }
            | TypeInner::BindingArray { .. } => false,
        };
        let is_last = index + 1 == self.members.len();
        if is_array && is_last {
            return Ok(());
        }
        let name = match &member.name {
            Some(name) if !name.as_str().is_empty() => name.try_clone()?,
            _ => Text::new(alloc),
        };
        Err(TypeError::InvalidDynamicArray(name, member.ty))
    }

    /// Checks a member, the one at `index` after one that ends at `before`, and notes the source of blending
    /// that it is, if it is one.
    fn check_member(
        &self,
        alloc: Global,
        index: usize,
        before: u64,
        member: &StructMember,
        sources: &mut Sources,
    ) -> Result<(), TypeError>
        requires known { MembersKnown self.now }
        requires member { slice_get self.now.members.now index ≡ Some member.now }
        requires before { before ≡ rule.end_in (surroundings_of self.now) (layouts.before self.now.members.now index) }
        requires noted { sources.old ≡ sources_of (take index self.now.members.now) }
        ensures checks { IsRuleResult (first_error_or
            (rule.member_checks (surroundings_of self.now) self.now.members.now self.now.span (index, member.now)) tt)
            result }
        ensures noted { OnOk result (sources.new ≡ sources_of (take (index + 1) self.now.members.now)) }
    {
        // Offsets are fixed when the shader is compiled, so no override may decide a size.
        let data = TypeFlags::DATA.union(TypeFlags::CREATION_RESOLVED);
        if !self.info(member).flags.contains(data) {
            return Err(TypeError::InvalidData(member.ty));
        }
        // naga notes the source before it checks the place, so a bad source hides a bad place.
        sources.note(self.ctx.capabilities, member)?;
        self.check_place(index, before, member)?;
        self.check_size(alloc, index, member)
    }

    /// Checks all members, and returns the sources of blending.
    fn check_members(&self, alloc: Global) -> Result<Sources, TypeError>
        requires { MembersKnown self.now }
        ensures { IsRuleResult (first_error_or
            (rule.member_errors (surroundings_of self.now) self.now.members.now self.now.span)
            (sources_of self.now.members.now)) result }
    {
        let mut sources = Sources {
            first: None,
            second: None,
        };
        let mut end = 0;
        for index in 0..self.members.len() {
            let member = &self.members[index];
            self.check_member(alloc, index, end, member, &mut sources)?;
            end = self.end_of(member);
        }
        Ok(sources)
    }

    /// The last location of a member that is not a source of blending.
    fn other_location(&self) -> Option<u32>
        ensures { result ≡ rule.other_location self.now.members.now }
    {
        let mut last = None;
        for member in self.members {
            if let Some(
                Binding::Location {
                    location,
                    blend_src: None,
                    ..
                },
            ) = member.binding
            {
                last = Some(location);
            }
        }
        last
    }

    /// Checks that the two sources of blending, of these types, go together.
    fn check_pair(
        &self,
        first: Handle<TypeTag>,
        second: Handle<TypeTag>,
    ) -> Result<(), VaryingError>
        requires known { MembersKnown self.now }
        requires first { first < self.now.handle }
        requires second { second < self.now.handle }
        requires references { GlobalReferencesOk (surroundings_of self.now).lists }
        ensures { result ≡ first_error_or
            (rule.pair_checks (surroundings_of self.now) self.now.members.now (Some first) (Some second)) tt }
    {
        // naga looks for another location before it compares the types.
        if let Some(location) = self.other_location() {
            return Err(VaryingError::InvalidBlendSrcWithOtherBindings { location });
        }
        let left = TypeResolution::Handle(first);
        let right = TypeResolution::Handle(second);
        if !compare_types(&left, &right, self.gctx.types) {
            return Err(VaryingError::BlendSrcOutputTypeMismatch {
                blend_src_0_type: first,
                blend_src_1_type: second,
            });
        }
        let flags = self.ctx.infos.get(first).flags;
        if !flags.contains(TypeFlags::IO_SHAREABLE) {
            return Err(VaryingError::NotIOShareableType(first));
        }
        Ok(())
    }

    /// Checks that there are both sources of blending, which go together, or none.
    fn check_sources(&self, sources: &Sources) -> Result<(), VaryingError>
        requires known { MembersKnown self.now }
        requires sources { sources.now ≡ sources_of self.now.members.now }
        requires references { GlobalReferencesOk (surroundings_of self.now).lists }
        ensures { result ≡ first_error_or
            (rule.pair_checks (surroundings_of self.now) self.now.members.now sources.now.first sources.now.second) tt }
    {
        match (sources.first, sources.second) {
            (None, None) => Ok(()),
            (Some(_), None) => Err(VaryingError::IncompleteBlendSrcUsage {
                present_blend_src: 0,
            }),
            (None, Some(_)) => Err(VaryingError::IncompleteBlendSrcUsage {
                present_blend_src: 1,
            }),
            (Some(first), Some(second)) => self.check_pair(first, second),
        }
    }

    /// What all members may be used for, and whether immediates may hold them all.
    fn common_uses(&self) -> (TypeFlags, ImmediateCompatibility)
        requires { MembersKnown self.now }
        ensures flags { result.0 ≡ record { 0 = rule.common_flags (surroundings_of self.now) self.now.members.now } }
        ensures immediates { result.1 ≡ rule.struct_immediates (surroundings_of self.now) self.now.members.now }
    {
        // `IO_SHAREABLE` is left out: stages share the members one by one, and a whole struct
        // only if its members are the two sources of blending.
        let mut flags = unshared_flags();
        let mut immediates = Ok(());
        for member in self.members {
            let info = self.info(member);
            flags = flags.intersection(info.flags);
            // naga overwrites the error with each member, so the last one stays.
            if info.immediates_compatibility.is_err() {
                immediates = info.immediates_compatibility;
            }
        }
        (flags, immediates)
    }

    /// Whether a member begins at 0, below the end of the one before it.
    fn restarts_at_zero(&self) -> bool
        requires { MembersKnown self.now }
        ensures { result ≡ list_any (rule.restarts_at_zero (surroundings_of self.now) self.now.members.now)
            (enumerate_from 0 self.now.members.now) }
    {
        for index in 0..self.members.len() {
            // Offsets that go back to 0 belong to a struct that was never laid out for hosts.
            if self.members[index].offset == 0 && self.end_before(index) > 0 {
                return true;
            }
        }
        false
    }

    /// What the struct may be used for, by what all its members may be used for.
    fn flags(&self, common: &Common, sources: &Sources) -> TypeFlags
        requires known { MembersKnown self.now }
        requires common { common.now.flags
            ≡ record { 0 = rule.common_flags (surroundings_of self.now) self.now.members.now } }
        requires sources { sources.now ≡ sources_of self.now.members.now }
        ensures { result ≡ record { 0 = rule.struct_flags (surroundings_of self.now) self.now.members.now } }
    {
        let mut flags = common.flags;
        if self.restarts_at_zero() {
            flags.remove(TypeFlags::HOST_SHAREABLE);
        }
        if sources.first.is_some() && sources.second.is_some() {
            flags.insert(TypeFlags::IO_SHAREABLE);
        }
        flags
    }

    /// Checks that a member is host-shareable and begins at a multiple of its alignment, and returns this
    /// alignment.
    fn check_layout(
        &self,
        space: SharedSpace,
        index: usize,
        member: &StructMember,
    ) -> LayoutCompatibility
        requires known { MembersKnown self.now }
        requires before { member.now.ty < self.now.handle }
        ensures { let s = surroundings_of self.now in result
            ≡ ok_unless (layouts.member_layout_error s (layout_in space) self.now.handle (index, member.now))
            (alignment_in space (info_at s member.now.ty)) }
    {
        let info = self.info(member);
        if !info.flags.contains(TypeFlags::HOST_SHAREABLE) {
            return Err((member.ty, Disalignment::NonHostShareable));
        }
        let alignment = space.layout(info)?;
        if alignment.is_aligned(member.offset) {
            return Ok(alignment);
        }
        Err((
            self.handle,
            Disalignment::MemberOffset {
                index: saturated(index as u64),
                offset: member.offset,
                alignment,
            },
        ))
    }

    /// Checks the layout of every member, and returns their greatest alignment.
    fn check_layouts(&self, space: SharedSpace, common: &Common) -> LayoutCompatibility
        requires known { MembersKnown self.now }
        requires alike { AreLaidOut space self.now common.now.alike common.now.alignment }
        ensures { result ≡ checked_layouts space self.now }
    {
        // The first members, which are alike in both spaces, were gone over once for both.
        let mut greatest = common.alignment;
        for index in common.alike..self.members.len() {
            let alignment = self.check_layout(space, index, &self.members[index])?;
            greatest = greatest.max(alignment);
        }
        Ok(greatest)
    }

    /// How many members, from the first on, have one alignment in both spaces and begin at a multiple of
    /// it, and the greatest alignment of these. None are counted if the span isn't aligned.
    fn members_alike(&self) -> (usize, Alignment)
        requires { MembersKnown self.now }
        ensures uniform { AreLaidOut Uniform self.now result.0 result.1 }
        ensures storage { AreLaidOut Storage self.now result.0 result.1 }
    {
        // With such a span the struct has no layout in either space, whatever its members are.
        if self.check_span().is_err() {
            return (0, Alignment::ONE);
        }
        let mut greatest = Alignment::ONE;
        for index in 0..self.members.len() {
            let member = &self.members[index];
            let Ok(storage) = self.check_layout(SharedSpace::Storage, index, member) else {
                return (index, greatest);
            };
            match self.info(member).uniform_layout {
                Ok(uniform) if uniform == storage => {}
                _ => return (index, greatest),
            }
            greatest = greatest.max(storage);
        }
        (self.members.len(), greatest)
    }

    /// What the members have in common.
    fn common(&self) -> Common
        requires { MembersKnown self.now }
        ensures flags { result.flags
            ≡ record { 0 = rule.common_flags (surroundings_of self.now) self.now.members.now } }
        ensures immediates { result.immediates
            ≡ rule.struct_immediates (surroundings_of self.now) self.now.members.now }
        ensures uniform { AreLaidOut Uniform self.now result.alike result.alignment }
        ensures storage { AreLaidOut Storage self.now result.alike result.alignment }
    {
        let (flags, immediates) = self.common_uses();
        let (alike, alignment) = self.members_alike();
        Common {
            flags,
            immediates,
            alike,
            alignment,
        }
    }

    /// Checks that the span is a multiple of the struct's alignment.
    fn check_span(&self) -> Result<(), (Handle<TypeTag>, Disalignment)>
        requires { MembersKnown self.now }
        ensures { result ≡ ok_unless (layouts.span_error (surroundings_of self.now) self.now.handle self.now.span) tt }
    {
        // naga holds the span to the general alignment in both spaces, not to 16 bytes.
        let alignment = self.ctx.layouter[self.handle].alignment;
        if alignment.is_aligned(self.span) {
            return Ok(());
        }
        Err((
            self.handle,
            Disalignment::StructSpan {
                span: self.span,
                alignment,
            },
        ))
    }

    /// The layout in the storage address space.
    fn storage_layout(&self, common: &Common) -> LayoutCompatibility
        requires known { MembersKnown self.now }
        requires alike { AreLaidOut Storage self.now common.now.alike common.now.alignment }
        ensures { result ≡ layouts.storage_layout_of (surroundings_of self.now) self.now.handle self.now.members.now
            self.now.span }
    {
        // naga checks the span last, but lets it overwrite all else, so it comes first here.
        self.check_span()?;
        self.check_layouts(SharedSpace::Storage, common)
    }

    /// The first offset that the member at a place may have after the struct before it, and 0 if no
    /// struct is before it.
    fn end_after_struct_before(&self, index: usize) -> u64
        requires known { MembersKnown self.now }
        requires member { index < length self.now.members.now }
        ensures { result ≡ layouts.end_after_struct_before (surroundings_of self.now) self.now.members.now index }
    {
        if index == 0 {
            return 0;
        }
        let before = &self.members[index - 1];
        match self.gctx.types[before.ty].inner {
            // A sum, where naga subtracts offsets: the member may go back to 0.
            TypeInner::Struct { span, .. } => {
                u64::from(before.offset) + Alignment::MIN_UNIFORM.round_up(span)
            }
            TypeInner::Scalar(_)
            | TypeInner::Vector { .. }
            | TypeInner::Matrix { .. }
            | TypeInner::CooperativeMatrix { .. }
            | TypeInner::Atomic(_)
            | TypeInner::Pointer { .. }
            | TypeInner::ValuePointer { .. }
            | TypeInner::Array { .. }
            | TypeInner::Image { .. }
            | TypeInner::Sampler { .. }
            | TypeInner::AccelerationStructure { .. }
            | TypeInner::RayQuery { .. }
            | TypeInner::BindingArray { .. } => 0,
        }
    }

    /// The error of the last member that begins too soon after the struct before it.
    fn last_in_room(&self) -> Option<(Handle<TypeTag>, Disalignment)>
        requires { MembersKnown self.now }
        ensures { result ≡ layouts.last_padding_error (surroundings_of self.now) self.now.handle self.now.members.now }
    {
        let mut last = None;
        for index in 0..self.members.len() {
            let offset = self.members[index].offset;
            let room = self.end_after_struct_before(index);
            if u64::from(offset) < room {
                // naga overwrites the error with each such member, so the last one stays.
                last = Some((
                    self.handle,
                    Disalignment::MemberOffsetAfterStruct {
                        index: saturated(index as u64),
                        offset,
                        expected: saturated(room),
                    },
                ));
            }
        }
        last
    }

    /// Checks that all members have fixed sizes, by what all of them may be used for.
    fn check_sizes(&self, flags: TypeFlags) -> Result<(), (Handle<TypeTag>, Disalignment)>
        requires known { MembersKnown self.now }
        requires flags { flags ≡ record { 0 = rule.common_flags (surroundings_of self.now) self.now.members.now } }
        ensures { result ≡ first_error_or
            (layouts.unsized_errors (surroundings_of self.now) self.now.handle self.now.members.now) tt }
    {
        if flags.contains(TypeFlags::SIZED) {
            return Ok(());
        }
        // Some member has no fixed size: the first such is named.
        for index in 0..self.members.len() {
            let info = self.info(&self.members[index]);
            if !info.flags.contains(TypeFlags::SIZED) {
                let index = saturated(index as u64);
                return Err((self.handle, Disalignment::UnsizedMember { index }));
            }
        }
        Ok(())
    }

    /// The layout in the uniform address space (WGSL "Address Space Layout Constraints").
    fn uniform_layout(&self, common: &Common) -> LayoutCompatibility
        requires known { MembersKnown self.now }
        requires flags { common.now.flags
            ≡ record { 0 = rule.common_flags (surroundings_of self.now) self.now.members.now } }
        requires alike { AreLaidOut Uniform self.now common.now.alike common.now.alignment }
        ensures { result ≡ layouts.uniform_layout_of (surroundings_of self.now) self.now.handle self.now.members.now
            self.now.span }
    {
        self.check_span()?;
        // In naga this error overwrites the layout errors before it and hides the ones after it.
        if let Some(error) = self.last_in_room() {
            return Err(error);
        }
        let greatest = self.check_layouts(SharedSpace::Uniform, common)?;
        self.check_sizes(common.flags)?;
        // WGSL aligns every struct in uniform buffers to 16 bytes at least.
        Ok(greatest.max(Alignment::MIN_UNIFORM))
    }
}

/// The info of a struct, or why it is refused.
pub(crate) fn validate_struct<'a>(
    alloc: Global,
    ctx: TypeContext<'a>,
    handle: Handle<TypeTag>,
    gctx: GlobalCtx<'a>,
    members: &'a [StructMember],
    span: u32,
) -> Result<TypeInfo, TypeError>
    requires known { KnownBefore (surroundings ctx gctx) handle }
    requires members { All (λ (m : member.StructMember). m.ty < handle) members.now }
    requires references { GlobalReferencesOk (lists_of gctx) }
    ensures { IsRuleResult (rule.struct_rule (surroundings ctx.entry gctx.entry) handle members.now span) result }
{
    if members.is_empty() {
        return Err(TypeError::EmptyStruct);
    }
    let ty = StructType {
        ctx,
        gctx,
        handle,
        members,
        span,
    };
    let sources = ty.check_members(alloc)?;
    ty.check_sources(&sources)
        .map_err(TypeError::InvalidBlendSrc)?;
    let common = ty.common();
    Ok(TypeInfo {
        flags: ty.flags(&common, &sources),
        uniform_layout: ty.uniform_layout(&common),
        storage_layout: ty.storage_layout(&common),
        immediates_compatibility: common.immediates,
    })
}
