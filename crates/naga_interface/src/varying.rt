//! The rule of the inputs and outputs of an entry point (naga's `VaryingContext`).

ghost use Rattle.std.specs.List.{list_any};
ghost use Rattle.std.specs.Prelude.{◌≡◌, ◌<◌, Bool, List, [], ◌∷◌, ◌++◌, All, IsTrue, OnOk, Option, Some, length};
ghost use Rattle.naga_arena.specs.Results.{IsResultOf};
ghost use Rattle.naga_interface.specs.BuiltIns as table;
ghost use Rattle.naga_interface.specs.Stages as stages;
ghost use Rattle.naga_interface.specs.Surroundings.{AreTypesKnown, form_of, surroundings};
ghost use Rattle.naga_interface.specs.Varyings as rule;
ghost use Rattle.naga_interface.specs.steps.BindingSets.{AreIn};
ghost use Rattle.naga_interface.specs.steps.VaryingContexts.{varyings_in};
ghost use Rattle.naga_ir.specs.declared.types.Binding.{Binding};
ghost use Rattle.naga_ir.specs.declared.types.Binding.TheVariants as bound;
ghost use Rattle.naga_ir.specs.declared.types.Interpolation.{Interpolation};
ghost use Rattle.naga_ir.specs.declared.types.Sampling.{Sampling};
ghost use Rattle.naga_ir.specs.declared.types.StructMember as member;
ghost use Rattle.naga_types.specs.Checks.{first_error_or, ok_unless};
ghost use Rattle.naga_types.specs.TypeRule.{is_float};
ghost use Rattle.naga_typing.specs.Resolutions.{PartsExist};

use crate::binding_set::BindingSet;
use crate::built_in::{BuiltInRow, BuiltInType, built_in_row, is_of_one_dimension};
use crate::context::InterfaceContext;
use bitflags::Flags;
use naga_flags::flags::{Capabilities, ShaderStages, TypeFlags, ValidationFlags};
use naga_ir::built_in::BuiltIn;
use naga_ir::handle::Handle;
use naga_ir::ir::ShaderStage;
use naga_ir::tags::TypeTag;
use naga_ir::types::{
    ArraySize, Binding, Interpolation, Sampling, Scalar, ScalarKind, StructMember, TypeInner,
};
use naga_ir::unique_arena::UniqueArena;
use naga_types::error::VaryingError;

/// Whether values come into an entry point or go out of it.
#[derive(Clone, Copy, Debug, PartialEq, Eq)]
pub enum Direction {
    Input,
    Output,
}

/// The flag of a stage.
pub(crate) fn stage_flag(stage: ShaderStage) -> ShaderStages
    ensures { result ≡ record { 0 = stages.stage_flag stage } }
{
    match stage {
        ShaderStage::Vertex => ShaderStages::VERTEX,
        ShaderStage::Task => ShaderStages::TASK,
        ShaderStage::Mesh => ShaderStages::MESH,
        ShaderStage::Fragment => ShaderStages::FRAGMENT,
        ShaderStage::Compute => ShaderStages::COMPUTE,
        ShaderStage::RayGeneration => ShaderStages::RAY_GENERATION,
        ShaderStage::Miss => ShaderStages::MISS,
        ShaderStage::AnyHit => ShaderStages::ANY_HIT,
        ShaderStage::ClosestHit => ShaderStages::CLOSEST_HIT,
    }
}

/// The stages that have a built-in value in a direction.
fn stages_of(row: &BuiltInRow, direction: Direction) -> ShaderStages
    ensures { result ≡ record { 0 = rule.stages_of row.now direction } }
{
    match direction {
        Direction::Input => row.inputs,
        Direction::Output => row.outputs,
    }
}

/// The greatest number of distances that a built-in value has.
const MOST_DISTANCES: u32 = 8;

/// Whether a type is an array of distances.
fn are_distances(inner: &TypeInner, types: &UniqueArena) -> bool
    requires { PartsExist types.now inner.now }
    ensures { result ≡ table.are_distances types.now inner.now }
{
    let TypeInner::Array {
        base,
        size: ArraySize::Constant(count),
        ..
    } = *inner
    else {
        return false;
    };
    count.get() <= MOST_DISTANCES && types[base].inner == TypeInner::Scalar(Scalar::F32)
}

/// Whether a type is the type of a built-in value.
fn is_built_in_type(ty: BuiltInType, inner: &TypeInner, types: &UniqueArena) -> bool
    requires { PartsExist types.now inner.now }
    ensures { result ≡ table.is_built_in_type types.now ty inner.now }
{
    match ty {
        BuiltInType::Scalar(scalar) => *inner == TypeInner::Scalar(scalar),
        BuiltInType::Vector { size, scalar } => *inner == TypeInner::Vector { size, scalar },
        BuiltInType::Either32 => {
            *inner == TypeInner::Scalar(Scalar::U32) || *inner == TypeInner::Scalar(Scalar::I32)
        }
        BuiltInType::Distances => are_distances(inner, types),
    }
}

/// Whether a sampling says something of values that are interpolated so (WGSL "Interpolation").
fn goes_with(interpolation: Interpolation, sampling: Sampling) -> bool
    ensures { result ≡ rule.goes_with interpolation sampling }
{
    match (interpolation, sampling) {
        (
            Interpolation::Perspective | Interpolation::Linear,
            Sampling::Center | Sampling::Centroid | Sampling::Sample,
        )
        | (Interpolation::Flat, Sampling::First | Sampling::Either) => true,
        (
            Interpolation::Perspective
            | Interpolation::Linear
            | Interpolation::Flat
            | Interpolation::PerVertex,
            _,
        ) => false,
    }
}

/// Whether scalars of a kind are floating-point numbers of a fixed width.
fn is_float(kind: ScalarKind) -> bool
    ensures { result ≡ is_float kind }
{
    match kind {
        ScalarKind::Float => true,
        ScalarKind::Sint
        | ScalarKind::Uint
        | ScalarKind::Bool
        | ScalarKind::AbstractInt
        | ScalarKind::AbstractFloat => false,
    }
}

/// What the rule of an input or output depends on, besides it and those before it.
#[derive(Clone, Copy)]
pub(crate) struct VaryingContext<'a> {
    pub(crate) interface: InterfaceContext<'a>,
    /// The stage of the entry point.
    pub(crate) stage: ShaderStage,
    /// Whether the values come in or go out.
    pub(crate) direction: Direction,
    /// The sizes of a workgroup of the entry point.
    pub(crate) workgroup_size: [u32; 3],
}

impl<'a> VaryingContext<'a> {
    /// Checks that a capability is given.
    fn require_capability(self, capability: Capabilities) -> Result<(), VaryingError>
        ensures { result ≡ ok_unless (rule.capability_error (varyings_in self.entry) capability.0) tt }
    {
        if self.interface.capabilities.contains(capability) {
            Ok(())
        } else {
            Err(VaryingError::UnsupportedCapability(capability))
        }
    }

    /// Whether the values are the inputs of fragment shaders.
    fn are_fragment_inputs(self) -> bool
        ensures { result ≡ rule.are_fragment_inputs (varyings_in self.entry) }
    {
        self.stage == ShaderStage::Fragment && self.direction == Direction::Input
    }

    /// Whether the values are interpolated on their way from vertex shaders to fragment shaders.
    fn are_interpolated(self) -> bool
        ensures { result ≡ rule.are_interpolated (varyings_in self.entry) }
    {
        match self.stage {
            ShaderStage::Vertex => self.direction == Direction::Output,
            ShaderStage::Fragment => self.direction == Direction::Input,
            ShaderStage::Task
            | ShaderStage::Mesh
            | ShaderStage::Compute
            | ShaderStage::RayGeneration
            | ShaderStage::Miss
            | ShaderStage::AnyHit
            | ShaderStage::ClosestHit => false,
        }
    }

    /// Checks that a built-in value is in a workgroup that has it.
    fn check_dimensions(self, built_in: BuiltIn) -> Result<(), VaryingError>
        ensures { result ≡ ok_unless (rule.dimensions_error (varyings_in self.entry) built_in) tt }
    {
        let [_, y, z] = self.workgroup_size;
        if is_of_one_dimension(built_in) && (y > 1 || z > 1) {
            return Err(VaryingError::InvalidMultiDimensionalSubgroupBuiltIn);
        }
        Ok(())
    }

    /// Checks a built-in value, and adds it to those before it.
    fn check_built_in(
        self,
        ty: Handle<TypeTag>,
        built_in: BuiltIn,
        before: &mut BindingSet,
    ) -> Result<(), VaryingError>
        requires known { AreTypesKnown (surroundings self.interface) }
        requires exists { ty < length self.interface.types.now }
        ensures checks { (earlier : List Binding) → AreIn earlier before.old
            → result ≡ first_error_or (rule.built_in_checks (varyings_in self.entry) earlier ty built_in) tt }
        ensures added { OnOk result ((earlier : List Binding) → AreIn earlier before.old
            → AreIn (earlier ++ bound.BuiltIn built_in ∷ []) before.new) }
    {
        if !before.insert_built_in(built_in) {
            return Err(VaryingError::DuplicateBuiltIn(built_in));
        }
        let row = built_in_row(built_in);
        self.require_capability(row.capability)?;
        self.check_dimensions(built_in)?;
        if !stages_of(&row, self.direction).contains(stage_flag(self.stage)) {
            return Err(VaryingError::InvalidBuiltInStage(built_in));
        }
        if !is_built_in_type(row.ty, self.interface.inner(ty), self.interface.types) {
            return Err(VaryingError::InvalidBuiltInType(built_in));
        }
        Ok(())
    }

    /// Checks a source of blending, and adds it to those before it.
    fn check_source(
        self,
        location: u32,
        blend_src: u32,
        before: &mut BindingSet,
    ) -> Result<(), VaryingError>
        ensures checks { (earlier : List Binding) → AreIn earlier before.old
            → result ≡ first_error_or (rule.source_checks (varyings_in self.entry) earlier location blend_src) tt }
        ensures added { OnOk result ((earlier : List Binding) → AreIn earlier before.old
            → (interpolation : Option Interpolation) (sampling : Option Sampling)
            (per_primitive : Bool) → AreIn (earlier
            ++ bound.Location location interpolation sampling (Some blend_src) per_primitive ∷ []) before.new) }
    {
        self.require_capability(Capabilities::DUAL_SOURCE_BLENDING)?;
        if self.stage != ShaderStage::Fragment {
            return Err(VaryingError::InvalidAttributeInStage(self.stage));
        }
        if self.direction == Direction::Input {
            return Err(VaryingError::InvalidInputAttributeInStage(self.stage));
        }
        if location != 0 || blend_src > 1 {
            return Err(VaryingError::InvalidBlendSrcIndex {
                location,
                blend_src,
            });
        }
        if !before.insert_source(blend_src) {
            return Err(VaryingError::BindingCollisionBlendSrc { blend_src });
        }
        Ok(())
    }

    /// Checks the place of a value, and adds it to those before it.
    fn check_place(
        self,
        location: u32,
        blend_src: Option<u32>,
        before: &mut BindingSet,
    ) -> Result<(), VaryingError>
        ensures checks { (earlier : List Binding) → AreIn earlier before.old
            → IsResultOf (λ _. IsTrue (rule.is_far_place location blend_src)) VaryingError.OutOfMemory
            (first_error_or (rule.place_checks (varyings_in self.entry) earlier location blend_src) tt) result }
        ensures added { OnOk result ((earlier : List Binding) → AreIn earlier before.old
            → (interpolation : Option Interpolation) (sampling : Option Sampling)
            (per_primitive : Bool) → AreIn (earlier
            ++ bound.Location location interpolation sampling blend_src per_primitive ∷ []) before.new) }
    {
        if let Some(blend_src) = blend_src {
            return self.check_source(location, blend_src, before);
        }
        let is_new = before.insert_location(location)?;
        if !is_new && self.interface.flags.contains(ValidationFlags::BINDINGS) {
            return Err(VaryingError::BindingCollision { location });
        }
        Ok(())
    }

    /// Checks that a value of each primitive is an input of a fragment shader.
    fn check_primitive(self, per_primitive: bool) -> Result<(), VaryingError>
        ensures { result ≡ first_error_or (rule.primitive_checks (varyings_in self.entry) per_primitive) tt }
    {
        if !per_primitive {
            return Ok(());
        }
        self.require_capability(Capabilities::MESH_SHADER)?;
        if !self.are_fragment_inputs() {
            return Err(VaryingError::InvalidPerPrimitive);
        }
        Ok(())
    }

    /// Checks that the sampling goes with the interpolation, and that both may be used.
    fn check_sampling(
        self,
        interpolation: Option<Interpolation>,
        sampling: Option<Sampling>,
    ) -> Result<(), VaryingError>
        ensures { result ≡ first_error_or (rule.sampling_checks (varyings_in self.entry) interpolation sampling) tt }
    {
        if let (Some(interpolation), Some(sampling)) = (interpolation, sampling)
            && !goes_with(interpolation, sampling)
        {
            return Err(VaryingError::InvalidInterpolationSamplingCombination {
                interpolation,
                sampling,
            });
        }
        if sampling == Some(Sampling::Sample) {
            self.require_capability(Capabilities::MULTISAMPLED_SHADING)?;
        }
        if interpolation == Some(Interpolation::PerVertex) {
            self.require_capability(Capabilities::PER_VERTEX)?;
        }
        Ok(())
    }

    /// Checks that a type at a location has a scalar, and is interpolated as that can be.
    fn check_interpolation(
        self,
        ty: Handle<TypeTag>,
        interpolation: Option<Interpolation>,
    ) -> Result<(), VaryingError>
        requires { ty < length self.interface.types.now }
        ensures { result ≡ ok_unless (rule.scalar_error (varyings_in self.entry) ty interpolation
            (rule.scalar_in (form_of (surroundings self.entry.interface) ty))) tt }
    {
        let Some(scalar) = self.interface.inner(ty).scalar() else {
            return Err(VaryingError::InvalidType(ty));
        };
        if !self.are_interpolated() {
            return Ok(());
        }
        if is_float(scalar.kind) {
            if interpolation.is_none() {
                return Err(VaryingError::MissingInterpolation);
            }
        } else if interpolation != Some(Interpolation::Flat) {
            return Err(VaryingError::InvalidInterpolation);
        }
        Ok(())
    }

    /// Checks a value with a binding, and adds that to those before it.
    fn check_binding(
        self,
        ty: Handle<TypeTag>,
        binding: Binding,
        before: &mut BindingSet,
    ) -> Result<(), VaryingError>
        requires known { AreTypesKnown (surroundings self.interface) }
        requires exists { ty < length self.interface.types.now }
        ensures checks { (earlier : List Binding) → AreIn earlier before.old
            → IsResultOf (λ _. IsTrue (rule.is_far binding)) VaryingError.OutOfMemory
            (first_error_or (rule.binding_checks (varyings_in self.entry) earlier ty binding) tt) result }
        ensures added { OnOk result ((earlier : List Binding) → AreIn earlier before.old → AreIn (earlier ++ binding ∷ []) before.new) }
    {
        match binding {
            Binding::BuiltIn(built_in) => self.check_built_in(ty, built_in, before),
            Binding::Location {
                location,
                interpolation,
                sampling,
                blend_src,
                per_primitive,
            } => {
                if !self
                    .interface
                    .type_flags(ty)
                    .contains(TypeFlags::IO_SHAREABLE)
                {
                    return Err(VaryingError::NotIOShareableType(ty));
                }
                self.check_primitive(per_primitive)?;
                self.check_place(location, blend_src, before)?;
                self.check_sampling(interpolation, sampling)?;
                self.check_interpolation(ty, interpolation)
            }
        }
    }

    /// Checks a member that has no binding: only if bindings are validated, each has to have one.
    fn check_unbound(self, unbound: VaryingError) -> Result<(), VaryingError>
        ensures { result ≡ ok_unless (rule.missing_error (varyings_in self.entry) unbound) tt }
    {
        if self.interface.flags.contains(ValidationFlags::BINDINGS) {
            Err(unbound)
        } else {
            Ok(())
        }
    }

    /// Checks a member of a struct, and adds its binding to those before it.
    fn check_member(
        self,
        index: usize,
        member: &StructMember,
        before: &mut BindingSet,
    ) -> Result<(), VaryingError>
        requires known { AreTypesKnown (surroundings self.interface) }
        requires exists { member.now.ty < length self.interface.types.now }
        ensures checks { (earlier : List Binding) → AreIn earlier before.old
            → IsResultOf (λ _. IsTrue (list_any rule.is_far (rule.member_bindings (member.now ∷ []))))
            VaryingError.OutOfMemory
            (ok_unless (rule.bound_error (varyings_in self.entry) earlier index member.now.ty member.now.binding) tt)
            result }
        ensures added { OnOk result ((earlier : List Binding) → AreIn earlier before.old
            → AreIn (earlier ++ rule.member_bindings (member.now ∷ [])) before.new) }
    {
        match member.binding {
            Some(binding) => self.check_binding(member.ty, binding, before),
            None => self.check_unbound(VaryingError::MemberMissingBinding(index)),
        }
    }

    /// Checks each member of a struct, in order, and adds their bindings.
    fn check_members(
        self,
        members: &[StructMember],
        before: &mut BindingSet,
    ) -> Result<(), VaryingError>
        requires known { AreTypesKnown (surroundings self.interface) }
        requires exist { All (λ (m : member.StructMember). m.ty < length self.interface.types.now) members.now }
        ensures checks { (earlier : List Binding) → AreIn earlier before.old
            → IsResultOf (λ _. IsTrue (list_any rule.is_far (rule.member_bindings members.now)))
            VaryingError.OutOfMemory
            (ok_unless (rule.members_error (varyings_in self.entry) earlier members.now) tt) result }
        ensures added { OnOk result ((earlier : List Binding) → AreIn earlier before.old
            → AreIn (earlier ++ rule.member_bindings members.now) before.new) }
    {
        for index in 0..members.len() {
            self.check_member(index, &members[index], before)?;
        }
        Ok(())
    }

    /// Checks an input or output: it has a binding, or is a struct whose members each have one (WGSL "Built-in Inputs and
    /// Outputs", "User-defined Inputs and Outputs"). `before` are the bindings of the inputs or outputs before it, to
    /// which its own are added.
    ///
    /// # Errors
    ///
    /// The first condition that is broken, member by member, or `OutOfMemory`.
    pub(crate) fn validate(
        self,
        ty: Handle<TypeTag>,
        binding: Option<Binding>,
        before: &mut BindingSet,
    ) -> Result<(), VaryingError>
        requires known { AreTypesKnown (surroundings self.interface) }
        requires exists { ty < length self.interface.types.now }
        ensures checks { (earlier : List Binding) → AreIn earlier before.old → IsResultOf
            (λ _. IsTrue (list_any rule.is_far (rule.bindings_of (surroundings self.entry.interface) ty binding)))
            VaryingError.OutOfMemory
            (ok_unless (rule.varying_error (varyings_in self.entry) earlier ty binding) tt) result }
        ensures added { OnOk result ((earlier : List Binding) → AreIn earlier before.old
            → AreIn (earlier ++ rule.bindings_of (surroundings self.entry.interface) ty binding) before.new) }
    {
        if let Some(binding) = binding {
            return self.check_binding(ty, binding, before);
        }
        match self.interface.inner(ty) {
            TypeInner::Struct { members, .. } => self.check_members(members.as_slice(), before),
            TypeInner::Scalar(_)
            | TypeInner::Vector { .. }
            | TypeInner::Matrix { .. }
            | TypeInner::CooperativeMatrix { .. }
            | TypeInner::Atomic(_)
            | TypeInner::Pointer { .. }
            | TypeInner::ValuePointer { .. }
            | TypeInner::Array { .. }
            | TypeInner::Image { .. }
            | TypeInner::Sampler { .. }
            | TypeInner::AccelerationStructure { .. }
            | TypeInner::RayQuery { .. }
            | TypeInner::BindingArray { .. } => self.check_unbound(VaryingError::MissingBinding),
        }
    }
}
