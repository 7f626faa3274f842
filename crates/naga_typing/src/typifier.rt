//! The types of expressions, and whether two types are the same.

ghost use Rattle.std.specs.Prelude.{◌≡◌, ◌↔◌, List, IfOk, IsFalse, IsOk, IsTrue, OnErr, Some, unwrap_or};
ghost use Rattle.naga_ir.specs.declared.types.«Type».{«Type»};
ghost use Rattle.naga_typing.specs.ErrorNames.{resolve_error_name};
ghost use Rattle.naga_typing.specs.Resolutions as spec;
ghost use Rattle.naga_typing.specs.Resolutions.{AllPartsExist, AreOneHandle, AreSameTypes, IsStructValue, PartsExist, TypesExist, inner_in};
ghost use Rattle.naga_typing.specs.Sameness.{are_same};

use naga_ir::handle::Handle;
use naga_ir::memory::OutOfMemory;
use naga_ir::tags::TypeTag;
use naga_ir::types::TypeInner;
use naga_ir::unique_arena::UniqueArena;
use std::alloc::AllocError;
use thiserror::Error;

/// The type of an expression: naga's `TypeResolution`.
#[derive(Debug, PartialEq, Drop)]
pub enum TypeResolution {
    /// A type of the module.
    Handle(Handle<TypeTag>),
    /// A type that the module need not contain. It is not an array, binding array or
    /// struct.
    Value(TypeInner),
}

impl TypeResolution {
    /// The handle of the type, if it is given by one.
    pub fn handle(&self) -> Option<Handle<TypeTag>>
        ensures { result ≡ spec.handle_of self.now }
    {
        match *self {
            TypeResolution::Handle(handle) => Some(handle),
            TypeResolution::Value(_) => None,
        }
    }

    /// What the type is made of: naga's `TypeResolution::inner_with`.
    pub fn inner_with<'a>(&'a self, types: &'a UniqueArena) -> &'a TypeInner
        requires { TypesExist types.now self.now }
        ensures { inner_in types.now self.now ≡ Some result.now }
    {
        match self {
            TypeResolution::Handle(handle) => &types[*handle].inner,
            TypeResolution::Value(inner) => inner,
        }
    }

    /// An equal resolution. Only a struct that is given as a value takes memory.
    ///
    /// # Errors
    ///
    /// `OutOfMemory` if memory was refused, for such a struct.
    pub fn try_clone(&self) -> Result<TypeResolution, OutOfMemory>
        ensures copy { IfOk result (λ copy. copy ≡ self.now) }
        ensures memory { OnErr result (IsStructValue self.now) }
    {
        Ok(match self {
            TypeResolution::Handle(handle) => TypeResolution::Handle(*handle),
            TypeResolution::Value(inner) => TypeResolution::Value(inner.try_clone()?),
        })
    }
}

impl Clone for TypeResolution {
    ghost use Rattle.std.specs.Prelude.{◌≡◌};

    ghost is_clone = { λ resolution copy. copy ≡ resolution };

    fn clone(&self) -> Result<TypeResolution, AllocError> {
        match self {
            TypeResolution::Handle(handle) => Ok(TypeResolution::Handle(*handle)),
            TypeResolution::Value(inner) => Ok(TypeResolution::Value(inner.clone()?)),
        }
    }
}

/// Why an expression has no type.
#[derive(Clone, Copy, Debug, PartialEq, Eq, Error)]
pub enum ResolveError {
    /// The types of the operands don't fit the expression.
    #[error("Incompatible operands")]
    IncompatibleOperands,
    /// The typing doesn't support this variant of expressions.
    #[error("The type of the expression can't be resolved")]
    NotResolvable,
    /// A request for memory was refused.
    #[error("Out of memory")]
    OutOfMemory,
}

impl ResolveError {
    /// The name of the variant.
    pub fn name(&self) -> &'static str
        ensures { result.now ≡ resolve_error_name self.now }
    {
        match self {
            ResolveError::IncompatibleOperands => "IncompatibleOperands",
            ResolveError::NotResolvable => "NotResolvable",
            ResolveError::OutOfMemory => "OutOfMemory",
        }
    }
}

impl From<OutOfMemory> for ResolveError {
    ghost use Rattle.std.specs.Prelude.{◌≡◌};
    ghost use Rattle.naga_typing.specs.declared.typifier.ResolveError.TheVariants.{OutOfMemory};

    ghost from_gives = { λ _ e. e ≡ OutOfMemory };

    fn from(_: OutOfMemory) -> ResolveError {
        ResolveError::OutOfMemory
    }
}

/// Whether two types are the same, by the rule of naga's `compare_types`: structs if they have the same
/// handle, and other types if their `TypeInner` are equal; a pointer to a scalar or a vector equals the value
/// pointer to it.
pub fn compare_types(lhs: &TypeResolution, rhs: &TypeResolution, types: &UniqueArena) -> bool
    requires lhs_exists { TypesExist types.now lhs.now }
    requires rhs_exists { TypesExist types.now rhs.now }
    requires parts_exist { AllPartsExist types.now }
    ensures relation { IsTrue result ↔ AreSameTypes types.now lhs.now rhs.now }
    ensures decision { result ≡ are_same types.now lhs.now rhs.now }
{
    compare_types_inner(lhs, rhs, types)
}

/// `compare_types` by the relation, from which the bool that it returns is proved.
fn compare_types_inner(lhs: &TypeResolution, rhs: &TypeResolution, types: &UniqueArena) -> bool
    requires lhs_exists { TypesExist types.now lhs.now }
    requires rhs_exists { TypesExist types.now rhs.now }
    requires parts_exist { AllPartsExist types.now }
    ensures { IsTrue result ↔ AreSameTypes types.now lhs.now rhs.now }
{
    let left = lhs.inner_with(types);
    // Most types are given by handles: equal ones need no comparison.
    if are_one_handle(lhs, rhs) {
        return true;
    }
    let right = rhs.inner_with(types);
    // WGSL tells structs apart by their declarations, even if their members are equal;
    // a struct that is given as a value has none.
    if left.is_struct() || right.is_struct() {
        return false;
    }
    are_equivalent(left, right, types)
}

/// Whether two types are given by handles that are equal.
fn are_one_handle(lhs: &TypeResolution, rhs: &TypeResolution) -> bool
    ensures { IsTrue result ↔ AreOneHandle lhs.now rhs.now }
{
    match (lhs, rhs) {
        (TypeResolution::Handle(left), TypeResolution::Handle(right)) => left == right,
        (TypeResolution::Handle(_) | TypeResolution::Value(_), _) => false,
    }
}

/// Whether two types are equal as they are compared.
fn are_equivalent(left: &TypeInner, right: &TypeInner, types: &UniqueArena) -> bool
    requires left_exists { PartsExist types.now left.now }
    requires right_exists { PartsExist types.now right.now }
    ensures { IsTrue result ↔ (spec.canonical types.now left.now ≡ spec.canonical types.now right.now) }
{
    if is_pointer(left) || is_pointer(right) {
        return are_equivalent_pointers(left, right, types);
    }
    left == right
}

/// Whether `inner` is a pointer to a type of the module. All other types are compared as they are.
fn is_pointer(inner: &TypeInner) -> bool
    ensures { IsFalse result → (types : List «Type») → spec.canonical types inner.now ≡ inner.now }
{
    match inner {
        TypeInner::Pointer { .. } => true,
        TypeInner::Scalar(_)
        | TypeInner::Vector { .. }
        | TypeInner::Matrix { .. }
        | TypeInner::CooperativeMatrix { .. }
        | TypeInner::Atomic(_)
        | TypeInner::ValuePointer { .. }
        | TypeInner::Array { .. }
        | TypeInner::Struct { .. }
        | TypeInner::Image { .. }
        | TypeInner::Sampler { .. }
        | TypeInner::AccelerationStructure { .. }
        | TypeInner::RayQuery { .. }
        | TypeInner::BindingArray { .. } => false,
    }
}

/// Whether two types of which one is a pointer are equal as they are compared.
fn are_equivalent_pointers(left: &TypeInner, right: &TypeInner, types: &UniqueArena) -> bool
    requires left_exists { PartsExist types.now left.now }
    requires right_exists { PartsExist types.now right.now }
    ensures { IsTrue result ↔ (spec.canonical types.now left.now ≡ spec.canonical types.now right.now) }
{
    let canonical_left = canonical_form(left, types);
    let canonical_right = canonical_form(right, types);
    canonical_left.as_ref().unwrap_or(left) == canonical_right.as_ref().unwrap_or(right)
}

/// The value pointer that equals a pointer to a scalar or a vector. All other types are compared as
/// they are.
fn canonical_form(inner: &TypeInner, types: &UniqueArena) -> Option<TypeInner>
    requires { PartsExist types.now inner.now }
    ensures { unwrap_or result inner.now ≡ spec.canonical types.now inner.now }
{
    let TypeInner::Pointer { base, space } = *inner else {
        return None;
    };
    match types[base].inner {
        TypeInner::Scalar(scalar) => Some(TypeInner::ValuePointer {
            size: None,
            scalar,
            space,
        }),
        TypeInner::Vector { size, scalar } => Some(TypeInner::ValuePointer {
            size: Some(size),
            scalar,
            space,
        }),
        TypeInner::Matrix { .. }
        | TypeInner::CooperativeMatrix { .. }
        | TypeInner::Atomic(_)
        | TypeInner::Pointer { .. }
        | TypeInner::ValuePointer { .. }
        | TypeInner::Array { .. }
        | TypeInner::Struct { .. }
        | TypeInner::Image { .. }
        | TypeInner::Sampler { .. }
        | TypeInner::AccelerationStructure { .. }
        | TypeInner::RayQuery { .. }
        | TypeInner::BindingArray { .. } => None,
    }
}
