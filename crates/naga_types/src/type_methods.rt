//! Properties of types by themselves, apart from any rule on them.

ghost use Rattle.std.specs.Prelude.{◌≡◌};
ghost use Rattle.naga_types.specs.TypeMethods as spec;
ghost use Rattle.naga_types.specs.TypeRule as rule;

use naga_ir::types::{ArraySize, ImageDimension, ScalarKind, TypeInner, VectorSize};

/// Whether values of a type have a size that is fixed in the module: no override decides it, and no
/// buffer. The rule is naga's `TypeInner::is_sized`.
pub fn is_sized(inner: &TypeInner) -> bool
    ensures { result ≡ spec.is_sized inner.now }
{
    match inner {
        TypeInner::Scalar(_)
        | TypeInner::Vector { .. }
        | TypeInner::Matrix { .. }
        | TypeInner::CooperativeMatrix { .. }
        | TypeInner::Atomic(_)
        | TypeInner::Pointer { .. }
        | TypeInner::ValuePointer { .. }
        | TypeInner::Struct { .. }
        | TypeInner::Array {
            size: ArraySize::Constant(_),
            ..
        } => true,
        TypeInner::Array { .. }
        | TypeInner::Image { .. }
        | TypeInner::Sampler { .. }
        | TypeInner::AccelerationStructure { .. }
        | TypeInner::RayQuery { .. }
        | TypeInner::BindingArray { .. } => false,
    }
}

/// The dimension of the storage images in which values of a type are coordinates: 1D, 2D or 3D for one, two or
/// three integers (WGSL "Storage Texture Types"). Other types are coordinates in none.
pub fn image_storage_coordinates(inner: &TypeInner) -> Option<ImageDimension>
    ensures { result ≡ spec.image_storage_coordinates inner.now }
{
    match inner {
        TypeInner::Scalar(scalar) if is_integer(scalar.kind) => Some(ImageDimension::D1),
        TypeInner::Vector { size, scalar } if is_integer(scalar.kind) => match size {
            VectorSize::Bi => Some(ImageDimension::D2),
            VectorSize::Tri => Some(ImageDimension::D3),
            VectorSize::Quad => None,
        },
        TypeInner::Scalar(_)
        | TypeInner::Vector { .. }
        | TypeInner::Matrix { .. }
        | TypeInner::CooperativeMatrix { .. }
        | TypeInner::Atomic(_)
        | TypeInner::Pointer { .. }
        | TypeInner::ValuePointer { .. }
        | TypeInner::Array { .. }
        | TypeInner::Struct { .. }
        | TypeInner::Image { .. }
        | TypeInner::Sampler { .. }
        | TypeInner::AccelerationStructure { .. }
        | TypeInner::RayQuery { .. }
        | TypeInner::BindingArray { .. } => None,
    }
}

/// Whether scalars of a kind are integers of a fixed width.
fn is_integer(kind: ScalarKind) -> bool
    ensures { result ≡ rule.is_integer kind }
{
    matches!(kind, ScalarKind::Sint | ScalarKind::Uint)
}
