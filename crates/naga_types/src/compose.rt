//! The rule of composing values of components (naga's `validate_compose`).

ghost use Rattle.std.specs.Prelude.{◌≡◌, ◌<◌, [], ◌∷◌, All, Some, length, slice_get};
ghost use Rattle.naga_ir.specs.Handles.{GlobalReferencesOk};
ghost use Rattle.naga_ir.specs.Sizes as sizes;
ghost use Rattle.naga_types.specs.Composing as rule;
ghost use Rattle.naga_types.specs.Checks.{ok_unless, first_error_or};
ghost use Rattle.naga_types.specs.Layouts as layouts;
ghost use Rattle.naga_types.specs.steps.Components.{ComponentsExist, WantedExists, fits, resolutions_of};
ghost use Rattle.naga_typing.specs.Context.{lists_of};
ghost use Rattle.naga_typing.specs.Resolutions.{AllPartsExist, TypesExist};

use crate::error::{ComposeError, saturated};
use naga_ir::handle::Handle;
use naga_ir::tags::{ExpressionTag, TypeTag};
use naga_ir::types::{ArraySize, Scalar, StructMember, TypeInner, VectorSize};
use naga_ir::unique_arena::UniqueArena;
use naga_typing::context::GlobalCtx;
use naga_typing::typifier::{TypeResolution, compare_types};

/// What a value is composed of.
#[derive(Clone, Copy)]
enum Components<'a> {
    /// The types of the components.
    Given(&'a [TypeResolution]),
    /// The components by their places among all expressions, with the types of these.
    At {
        components: &'a [Handle<ExpressionTag>],
        types: &'a [TypeResolution],
    },
}

impl Components<'_> {
    /// How many components there are.
    fn len(&self) -> usize
        ensures { result ≡ length (resolutions_of self.now) }
    {
        match self {
            Components::Given(types) => types.len(),
            Components::At { components, .. } => components.len(),
        }
    }

    /// The type of a component.
    fn get(&self, index: usize, types: &UniqueArena) -> &TypeResolution
        requires component { index < length (resolutions_of self.now) }
        requires exist { ComponentsExist types.now self.now }
        ensures { slice_get (resolutions_of self.now) index ≡ Some result.now }
    {
        match *self {
            Components::Given(types) => type_at(types, index),
            Components::At { components, types } => type_at(types, place_at(components, index)),
        }
    }
}

/// The type at an index. It is a function of its own, as `place_at` is, so that the clause of `get` is
/// proved by its clause.
fn type_at(types: &[TypeResolution], index: usize) -> &TypeResolution
    requires { index < length types.now }
    ensures { slice_get types.now index ≡ Some result.now }
{
    &types[index]
}

/// The place of the component at an index.
fn place_at(components: &[Handle<ExpressionTag>], index: usize) -> usize
    requires { index < length components.now }
    ensures { slice_get components.now index ≡ Some result }
{
    components[index].index()
}

/// What the components of a type have to be.
#[derive(Clone, Copy)]
enum Wanted<'a> {
    /// The scalar, or a vector of it.
    PartOf(Scalar),
    /// A vector of this size: a column of a matrix.
    Column { rows: VectorSize, scalar: Scalar },
    /// Each of this type.
    Element(Handle<TypeTag>),
    /// Each of the type of the member at its place.
    Members(&'a [StructMember]),
}

impl Wanted<'_> {
    /// Whether a component is what is wanted at its place.
    fn fits(&self, index: usize, component: &TypeResolution, types: &UniqueArena) -> bool
        requires wanted { WantedExists types.now self.now }
        requires component { TypesExist types.now component.now }
        requires parts { AllPartsExist types.now }
        ensures { result ≡ fits types.now self.now (index, component.now) }
    {
        match self {
            Wanted::PartOf(scalar) => is_part_of(*scalar, component.inner_with(types)),
            Wanted::Column { rows, scalar } => {
                is_vector_of(*rows, *scalar, component.inner_with(types))
            }
            Wanted::Element(base) => is_of(*base, component, types),
            Wanted::Members(members) => match members.get(index) {
                Some(member) => is_of(member.ty, component, types),
                None => false,
            },
        }
    }

    /// Checks that each component is what is wanted at its place.
    fn check_each(
        &self,
        components: &Components<'_>,
        types: &UniqueArena,
    ) -> Result<(), ComposeError>
        requires wanted { WantedExists types.now self.now }
        requires components { ComponentsExist types.now components.now }
        requires parts { AllPartsExist types.now }
        ensures { result ≡ ok_unless (rule.first_component_type_error (fits types.now self.now)
            (resolutions_of components.now)) tt }
    {
        for index in 0..components.len() {
            if !self.fits(index, components.get(index, types), types) {
                return Err(ComposeError::ComponentType {
                    index: saturated(index as u64),
                });
            }
        }
        Ok(())
    }

    /// Checks that there are as many components as expected, and then each.
    fn check_all(
        &self,
        expected: u64,
        components: &Components<'_>,
        types: &UniqueArena,
    ) -> Result<(), ComposeError>
        requires wanted { WantedExists types.now self.now }
        requires components { ComponentsExist types.now components.now }
        requires parts { AllPartsExist types.now }
        ensures { result ≡ first_error_or
            (rule.component_count_error (length (resolutions_of components.now)) expected
            ∷ rule.first_component_type_error (fits types.now self.now) (resolutions_of components.now) ∷ []) tt }
    {
        // naga counts before it looks at any type, except for vectors.
        check_count(components.len() as u64, expected)?;
        self.check_each(components, types)
    }
}

/// Whether a type is `scalar`, or a vector of it.
fn is_part_of(scalar: Scalar, inner: &TypeInner) -> bool
    ensures { result ≡ rule.is_part_of scalar (Some inner.now) }
{
    match inner {
        TypeInner::Scalar(part) | TypeInner::Vector { scalar: part, .. } => *part == scalar,
        TypeInner::Matrix { .. }
        | TypeInner::CooperativeMatrix { .. }
        | TypeInner::Atomic(_)
        | TypeInner::Pointer { .. }
        | TypeInner::ValuePointer { .. }
        | TypeInner::Array { .. }
        | TypeInner::Struct { .. }
        | TypeInner::Image { .. }
        | TypeInner::Sampler { .. }
        | TypeInner::AccelerationStructure { .. }
        | TypeInner::RayQuery { .. }
        | TypeInner::BindingArray { .. } => false,
    }
}

/// Whether a type is a vector of this size and scalar.
fn is_vector_of(rows: VectorSize, scalar: Scalar, inner: &TypeInner) -> bool
    ensures { result ≡ rule.is_vector_of rows scalar (Some inner.now) }
{
    match inner {
        TypeInner::Vector {
            size,
            scalar: element,
        } => *size == rows && *element == scalar,
        TypeInner::Scalar(_)
        | TypeInner::Matrix { .. }
        | TypeInner::CooperativeMatrix { .. }
        | TypeInner::Atomic(_)
        | TypeInner::Pointer { .. }
        | TypeInner::ValuePointer { .. }
        | TypeInner::Array { .. }
        | TypeInner::Struct { .. }
        | TypeInner::Image { .. }
        | TypeInner::Sampler { .. }
        | TypeInner::AccelerationStructure { .. }
        | TypeInner::RayQuery { .. }
        | TypeInner::BindingArray { .. } => false,
    }
}

/// Whether a component is of a type of the module.
fn is_of(ty: Handle<TypeTag>, component: &TypeResolution, types: &UniqueArena) -> bool
    requires ty { ty < length types.now }
    requires component { TypesExist types.now component.now }
    requires parts { AllPartsExist types.now }
    ensures { result ≡ rule.is_of types.now ty component.now }
{
    compare_types(&TypeResolution::Handle(ty), component, types)
}

/// How many components of a vector values of a type make.
fn parts_in(inner: &TypeInner) -> u8
    ensures { result ≡ rule.parts_in (Some inner.now) }
{
    match inner {
        TypeInner::Vector { size, .. } => size.components(),
        TypeInner::Scalar(_)
        | TypeInner::Matrix { .. }
        | TypeInner::CooperativeMatrix { .. }
        | TypeInner::Atomic(_)
        | TypeInner::Pointer { .. }
        | TypeInner::ValuePointer { .. }
        | TypeInner::Array { .. }
        | TypeInner::Struct { .. }
        | TypeInner::Image { .. }
        | TypeInner::Sampler { .. }
        | TypeInner::AccelerationStructure { .. }
        | TypeInner::RayQuery { .. }
        | TypeInner::BindingArray { .. } => 1,
    }
}

/// How many components of a vector these make, or the greatest `u32` if they are more.
fn all_parts(components: &Components<'_>, types: &UniqueArena) -> u32
    requires components { ComponentsExist types.now components.now }
    ensures { result ≡ layouts.saturated (rule.all_parts types.now (resolutions_of components.now)) }
{
    let mut total: u32 = 0;
    for index in 0..components.len() {
        let inner = components.get(index, types).inner_with(types);
        // A vector has four components at most, so a sum may stop at any number above.
        total = total.saturating_add(u32::from(parts_in(inner)));
    }
    total
}

/// Checks that there are as many components as expected.
fn check_count(given: u64, expected: u64) -> Result<(), ComposeError>
    ensures { result ≡ ok_unless (rule.component_count_error given expected) tt }
{
    if given == expected {
        return Ok(());
    }
    Err(ComposeError::ComponentCount {
        given: saturated(given),
        expected: saturated(expected),
    })
}

/// Checks that the components of a vector make as many as it has.
fn check_parts(
    size: VectorSize,
    components: &Components<'_>,
    types: &UniqueArena,
) -> Result<(), ComposeError>
    requires components { ComponentsExist types.now components.now }
    ensures { result ≡ ok_unless (rule.component_count_error
        (rule.all_parts types.now (resolutions_of components.now)) (sizes.components size)) tt }
{
    let given = all_parts(components, types);
    check_count(u64::from(given), u64::from(size.components()))
}

/// Checks that a type may be composed of components, given themselves or by their places.
fn compose(
    ty: Handle<TypeTag>,
    components: &Components<'_>,
    types: &UniqueArena,
) -> Result<(), ComposeError>
    requires there { ty < length types.now }
    requires components { ComponentsExist types.now components.now }
    requires parts { AllPartsExist types.now }
    ensures { result ≡ rule.compose_rule types.now ty (resolutions_of components.now) }
{
    match &types[ty].inner {
        TypeInner::Vector { size, scalar } => {
            Wanted::PartOf(*scalar).check_each(components, types)?;
            check_parts(*size, components, types)
        }
        TypeInner::Matrix {
            columns,
            rows,
            scalar,
        } => {
            let column = Wanted::Column {
                rows: *rows,
                scalar: *scalar,
            };
            column.check_all(u64::from(columns.components()), components, types)
        }
        TypeInner::Array {
            base,
            size: ArraySize::Constant(count),
            ..
        } => Wanted::Element(*base).check_all(u64::from(count.get()), components, types),
        TypeInner::Struct { members, .. } => {
            Wanted::Members(members.as_slice()).check_all(members.len() as u64, components, types)
        }
        TypeInner::Scalar(_)
        | TypeInner::CooperativeMatrix { .. }
        | TypeInner::Atomic(_)
        | TypeInner::Pointer { .. }
        | TypeInner::ValuePointer { .. }
        | TypeInner::Array { .. }
        | TypeInner::Image { .. }
        | TypeInner::Sampler { .. }
        | TypeInner::AccelerationStructure { .. }
        | TypeInner::RayQuery { .. }
        | TypeInner::BindingArray { .. } => Err(ComposeError::Type_(ty)),
    }
}

/// Checks that a value of a type may be composed of components of these types.
///
/// A vector takes scalars and vectors of its own scalar, which have as many components together as
/// it has; a matrix its columns, an array of a constant length its elements and a struct its
/// members, each of its own type by `compare_types`.
///
/// # Errors
///
/// - `Type_` if values of the type are not composed.
/// - `ComponentCount` if the components are too few or too many.
/// - `ComponentType` if a component has the wrong type. Of a vector this is checked before the count,
///   of other types after it.
pub fn validate_compose(
    ty: Handle<TypeTag>,
    gctx: GlobalCtx<'_>,
    components: &[TypeResolution],
) -> Result<(), ComposeError>
    requires there { ty < length gctx.types.now }
    requires components { All (TypesExist gctx.types.now) components.now }
    requires references { GlobalReferencesOk (lists_of gctx) }
    ensures { result ≡ rule.compose_rule gctx.entry.types.now ty components.now }
{
    compose(ty, &Components::Given(components), gctx.types)
}

/// Checks that a value of a type may be composed of these components, given the types of all
/// expressions up to them.
///
/// # Errors
///
/// The errors of `validate_compose` for the types of the components.
pub fn validate_compose_at(
    ty: Handle<TypeTag>,
    gctx: GlobalCtx<'_>,
    components: &[Handle<ExpressionTag>],
    types: &[TypeResolution],
) -> Result<(), ComposeError>
    requires there { ty < length gctx.types.now }
    requires components { All (λ e. e < length types.now) components.now }
    requires types { All (TypesExist gctx.types.now) types.now }
    requires references { GlobalReferencesOk (lists_of gctx) }
    ensures { result ≡ rule.compose_rule gctx.entry.types.now ty (rule.resolutions_at components.now types.now) }
{
    compose(ty, &Components::At { components, types }, gctx.types)
}
