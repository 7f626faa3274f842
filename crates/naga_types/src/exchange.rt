//! The structs that atomic compare-exchanges return.

ghost use Rattle.std.specs.Prelude.{◌≡◌, ◌<◌, All, IfNone, IfSome, Some, false, length};
ghost use Rattle.std.specs.Fn.{FnOnceReturnsAt, FnOnceTakesAt};
ghost use Rattle.std.specs.Option.{ForSome};
ghost use Rattle.naga_ir.specs.declared.types.StructMember as member;
ghost use Rattle.naga_types.specs.Exchange as spec;
ghost use Rattle.naga_types.specs.Exchange.{old_value_form};

use naga_ir::types::{Scalar, StructMember, TypeInner};
use naga_ir::unique_arena::UniqueArena;

/// Whether these are the members of a struct that an atomic compare-exchange returns: `old_value`, of
/// a type that `scalar_predicate` accepts, and `exchanged`, a bool. The rule is naga's
/// function of this name. The predicate is called last, and only with the type of `old_value`.
pub fn validate_atomic_compare_exchange_struct<P: FnOnce(&TypeInner) -> bool>(
    types: &UniqueArena,
    members: &[StructMember],
    scalar_predicate: P,
) -> bool
    requires exist { All (λ (m : member.StructMember). m.ty < length types.now) members.now }
    requires callable { ForSome (old_value_form types.now members.now)
        (λ inner. FnOnceTakesAt P.FnOnce scalar_predicate inner) }
    ensures accepted { IfSome (old_value_form types.now members.now)
        (λ inner. FnOnceReturnsAt P.FnOnce scalar_predicate inner result) }
    ensures others { IfNone (old_value_form types.now members.now) (result ≡ false) }
{
    // naga calls the predicate third; here it is called once nothing else can fail.
    members.len() == 2
        && is_named(&members[0], "old_value")
        && is_named(&members[1], "exchanged")
        && is_bool_type(&types[members[1].ty].inner)
        && scalar_predicate(&types[members[0].ty].inner)
}

/// Whether a member has this name.
fn is_named(member: &StructMember, name: &str) -> bool
    ensures { result ≡ spec.is_named name.now member.now }
{
    match &member.name {
        Some(own) => own.as_str() == name,
        None => false,
    }
}

/// Whether values of a type are bools.
fn is_bool_type(inner: &TypeInner) -> bool
    ensures { result ≡ spec.is_bool_type (Some inner.now) }
{
    match inner {
        TypeInner::Scalar(scalar) => *scalar == Scalar::BOOL,
        TypeInner::Vector { .. }
        | TypeInner::Matrix { .. }
        | TypeInner::CooperativeMatrix { .. }
        | TypeInner::Atomic(_)
        | TypeInner::Pointer { .. }
        | TypeInner::ValuePointer { .. }
        | TypeInner::Array { .. }
        | TypeInner::Struct { .. }
        | TypeInner::Image { .. }
        | TypeInner::Sampler { .. }
        | TypeInner::AccelerationStructure { .. }
        | TypeInner::RayQuery { .. }
        | TypeInner::BindingArray { .. } => false,
    }
}
