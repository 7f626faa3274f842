//! What leaves are, in the words of WGSL.

use naga_valid::{CooperativeRole, Scalar, ScalarKind, TypeInner};
use std::alloc::AllocError;

/// Adds the name of a scalar type.
fn add_scalar(text: &mut String, scalar: Scalar) -> Result<(), AllocError> {
    let bits = u32::from(scalar.width).saturating_mul(8);
    match scalar.kind {
        ScalarKind::Sint => write!(text, "i{bits}"),
        ScalarKind::Uint => write!(text, "u{bits}"),
        ScalarKind::Float => write!(text, "f{bits}"),
        ScalarKind::Bool => text.push_str("bool"),
        ScalarKind::AbstractInt => text.push_str("abstract-int"),
        ScalarKind::AbstractFloat => text.push_str("abstract-float"),
    }
}

/// Adds a name with a scalar type in angle brackets.
fn add_of_scalar(text: &mut String, name: &str, scalar: Scalar) -> Result<(), AllocError> {
    text.push_str(name)?;
    text.push('<')?;
    add_scalar(text, scalar)?;
    text.push('>')
}

/// Adds a name with the numbers of columns and rows.
fn add_matrix(text: &mut String, name: &str, columns: u8, rows: u8) -> Result<(), AllocError> {
    write!(text, "{name}{columns}x{rows}")
}

/// What stands behind the scalar type of a cooperative matrix.
fn end_of_role(role: CooperativeRole) -> &'static str {
    match role {
        CooperativeRole::A => ", A>",
        CooperativeRole::B => ", B>",
        CooperativeRole::C => ", C>",
    }
}

/// Adds what a type is, if it is a scalar, a vector, a matrix or an atomic, and else what kind of type it is.
pub fn add_leaf_type(text: &mut String, inner: &TypeInner) -> Result<(), AllocError> {
    match inner {
        TypeInner::Scalar(scalar) => add_scalar(text, *scalar),
        TypeInner::Vector { size, scalar } => {
            let components = size.components();
            write!(text, "vec{components}")?;
            add_of_scalar(text, "", *scalar)
        }
        TypeInner::Matrix {
            columns,
            rows,
            scalar,
        } => {
            add_matrix(text, "mat", columns.components(), rows.components())?;
            add_of_scalar(text, "", *scalar)
        }
        TypeInner::Atomic(scalar) => add_of_scalar(text, "atomic", *scalar),
        TypeInner::CooperativeMatrix {
            columns,
            rows,
            scalar,
            role,
        } => {
            add_matrix(text, "coop_mat", columns.components(), rows.components())?;
            text.push('<')?;
            add_scalar(text, *scalar)?;
            text.push_str(end_of_role(*role))
        }
        TypeInner::Array { .. } => text.push_str("array"),
        TypeInner::Struct { .. } => text.push_str("struct"),
        TypeInner::Pointer { .. } | TypeInner::ValuePointer { .. } => text.push_str("pointer"),
        TypeInner::Image { .. } => text.push_str("image"),
        TypeInner::Sampler { .. } => text.push_str("sampler"),
        TypeInner::AccelerationStructure { .. } => text.push_str("acceleration structure"),
        TypeInner::RayQuery { .. } => text.push_str("ray query"),
        TypeInner::BindingArray { .. } => text.push_str("binding array"),
    }
}
