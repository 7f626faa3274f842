//! Types of a module.

ghost use Rattle.std.specs.Prelude.{◌≡◌, IfOk, IsOk};
ghost use Rattle.naga_ir.specs.Sizes.{components, cooperative_components, is_numeric};
ghost use Rattle.naga_ir.specs.TypeWords.{IsNotStruct, is_mipmapped, is_multisampled, is_struct, pointer_base, scalar_of, vector_size_and_scalar};

use crate::built_in::BuiltIn;
use crate::storage_format::StorageFormat;
use naga_arena::handle::Handle;
use naga_arena::list::List;
use naga_arena::memory::OutOfMemory;
use naga_arena::tags::{OverrideTag, TypeTag};
use naga_arena::text::Text;
use std::num::NonZeroU32;

/// The width of a bool, in bytes (naga).
pub const BOOL_WIDTH: u8 = 1;

/// The width of an abstract scalar, in bytes (naga).
pub const ABSTRACT_WIDTH: u8 = 8;

/// What the bits of a scalar mean.
#[derive(Clone, Copy, Debug, PartialEq, Eq, Hash)]
pub enum ScalarKind {
    /// Signed integers.
    Sint,
    /// Unsigned integers.
    Uint,
    /// Floating-point numbers.
    Float,
    /// Bools.
    Bool,
    /// WGSL's abstract integers, which only constant expressions have.
    AbstractInt,
    /// WGSL's abstract floating-point numbers, which only constant expressions have.
    AbstractFloat,
}

impl ScalarKind {
    /// Whether the values are numbers: of every kind but `Bool`.
    pub fn is_numeric(self) -> bool
        ensures { result ≡ is_numeric self }
    {
        match self {
            ScalarKind::Sint
            | ScalarKind::Uint
            | ScalarKind::Float
            | ScalarKind::AbstractInt
            | ScalarKind::AbstractFloat => true,
            ScalarKind::Bool => false,
        }
    }
}

/// A scalar type.
#[derive(Clone, Copy, Debug, PartialEq, Eq, Hash)]
pub struct Scalar {
    /// What the bits mean.
    pub kind: ScalarKind,
    /// The size of a value, in bytes.
    pub width: u8,
}

impl Scalar {
    /// Bools.
    pub const BOOL: Scalar = Scalar {
        kind: ScalarKind::Bool,
        width: BOOL_WIDTH,
    };

    /// Signed integers of two bytes.
    pub const I16: Scalar = Scalar {
        kind: ScalarKind::Sint,
        width: 2,
    };

    /// Unsigned integers of two bytes.
    pub const U16: Scalar = Scalar {
        kind: ScalarKind::Uint,
        width: 2,
    };

    /// Signed integers of four bytes.
    pub const I32: Scalar = Scalar {
        kind: ScalarKind::Sint,
        width: 4,
    };

    /// Unsigned integers of four bytes.
    pub const U32: Scalar = Scalar {
        kind: ScalarKind::Uint,
        width: 4,
    };

    /// Signed integers of eight bytes.
    pub const I64: Scalar = Scalar {
        kind: ScalarKind::Sint,
        width: 8,
    };

    /// Unsigned integers of eight bytes.
    pub const U64: Scalar = Scalar {
        kind: ScalarKind::Uint,
        width: 8,
    };

    /// Floating-point numbers of two bytes.
    pub const F16: Scalar = Scalar {
        kind: ScalarKind::Float,
        width: 2,
    };

    /// Floating-point numbers of four bytes.
    pub const F32: Scalar = Scalar {
        kind: ScalarKind::Float,
        width: 4,
    };

    /// Floating-point numbers of eight bytes.
    pub const F64: Scalar = Scalar {
        kind: ScalarKind::Float,
        width: 8,
    };

    /// WGSL's abstract integers.
    pub const ABSTRACT_INT: Scalar = Scalar {
        kind: ScalarKind::AbstractInt,
        width: ABSTRACT_WIDTH,
    };

    /// WGSL's abstract floating-point numbers.
    pub const ABSTRACT_FLOAT: Scalar = Scalar {
        kind: ScalarKind::AbstractFloat,
        width: ABSTRACT_WIDTH,
    };

    /// Whether the values are numbers.
    pub fn is_numeric(self) -> bool
        ensures { result ≡ is_numeric self.kind }
    {
        self.kind.is_numeric()
    }
}

/// How many components a vector has, or a matrix columns or rows.
#[derive(Clone, Copy, Debug, PartialEq, Eq, Hash)]
pub enum VectorSize {
    /// Two.
    Bi,
    /// Three.
    Tri,
    /// Four.
    Quad,
}

impl VectorSize {
    /// The number of components: 2, 3 or 4.
    pub fn components(self) -> u8
        ensures { result ≡ components self }
    {
        match self {
            VectorSize::Bi => 2,
            VectorSize::Tri => 3,
            VectorSize::Quad => 4,
        }
    }
}

/// How many columns or rows a cooperative matrix has.
#[derive(Clone, Copy, Debug, PartialEq, Eq, Hash)]
pub enum CooperativeSize {
    /// Eight.
    Eight,
    /// Sixteen.
    Sixteen,
}

impl CooperativeSize {
    /// The number of columns or rows: 8 or 16.
    pub fn components(self) -> u8
        ensures { result ≡ cooperative_components self }
    {
        match self {
            CooperativeSize::Eight => 8,
            CooperativeSize::Sixteen => 16,
        }
    }
}

/// Which operand of a multiplication `a * b + c` a cooperative matrix may be.
#[derive(Clone, Copy, Debug, PartialEq, Eq, Hash)]
pub enum CooperativeRole {
    /// The left factor.
    A,
    /// The right factor.
    B,
    /// The summand, and the result.
    C,
}

/// How many elements an array has.
#[derive(Clone, Copy, Debug, PartialEq, Eq, Hash)]
pub enum ArraySize {
    /// That many.
    Constant(NonZeroU32),
    /// As many as the value of an override, which is given when a pipeline is made.
    Pending(Handle<OverrideTag>),
    /// As many as the buffer has room for.
    Dynamic,
}

/// How the values of the vertices of a primitive become that of a fragment (WGSL, "Interpolation").
#[derive(Clone, Copy, Debug, PartialEq, Eq, Hash)]
pub enum Interpolation {
    /// In proportion to the distances, with the correction for perspective.
    Perspective,
    /// In proportion to the distances on the screen.
    Linear,
    /// One of them is taken as it is.
    Flat,
    /// The fragment gets all of them.
    PerVertex,
}

/// Where in a fragment a value is taken, or of which vertex if it is flat (WGSL, "Interpolation").
#[derive(Clone, Copy, Debug, PartialEq, Eq, Hash)]
pub enum Sampling {
    /// In the middle of the pixel.
    Center,
    /// At a point that the primitive covers.
    Centroid,
    /// At each sample.
    Sample,
    /// Of the first vertex.
    First,
    /// Of the first or the last vertex.
    Either,
}

/// Where a value comes from or goes to outside of the shader.
#[derive(Clone, Copy, Debug, PartialEq, Eq, Hash)]
pub enum Binding {
    /// A value that the pipeline itself gives or takes.
    BuiltIn(BuiltIn),
    /// A value that the stage before or after gives or takes.
    Location {
        /// The number of the location.
        location: u32,
        /// How the value of a fragment is made, if that is said.
        interpolation: Option<Interpolation>,
        /// Where the value of a fragment is taken, if that is said.
        sampling: Option<Sampling>,
        /// Which of two sources of blending an output is, if there are two: 0 or 1.
        blend_src: Option<u32>,
        /// Whether a mesh shader gives one value to each primitive, and not to each vertex.
        per_primitive: bool,
    },
}

/// A member of a struct.
#[derive(Clone, Debug, PartialEq, Eq, Hash, Drop)]
pub struct StructMember {
    pub name: Option<Text>,
    pub ty: Handle<TypeTag>,
    /// Where an input or output of the shader comes from or goes to.
    pub binding: Option<Binding>,
    /// The place of the first byte from the start of the struct, in bytes.
    pub offset: u32,
}

impl StructMember {
    /// An equal member, in memory of its own.
    ///
    /// # Errors
    ///
    /// `OutOfMemory` if memory was refused for its name.
    pub fn try_clone(&self) -> Result<StructMember, OutOfMemory>
        ensures { IfOk result (λ copy. copy ≡ self.now) }
    {
        Ok(self.clone()?)
    }
}

/// How many coordinates an image has.
#[derive(Clone, Copy, Debug, PartialEq, Eq, Hash)]
pub enum ImageDimension {
    /// One.
    D1,
    /// Two.
    D2,
    /// Three.
    D3,
    /// Three, which are a direction.
    Cube,
}

/// What a storage image may be used for.
#[derive(Clone, Copy, Debug, PartialEq, Eq, Hash)]
pub struct StorageAccess {
    /// Values may be read.
    pub load: bool,
    /// Values may be written.
    pub store: bool,
    /// Atomic operations may change values.
    pub atomic: bool,
}

/// What an image holds.
#[derive(Clone, Copy, Debug, PartialEq, Eq, Hash)]
pub enum ImageClass {
    /// Values that a sampler reads.
    Sampled {
        /// The kind of the components.
        kind: ScalarKind,
        /// Whether there are several samples of each.
        multi: bool,
    },
    /// Depths.
    Depth {
        /// Whether there are several samples of each.
        multi: bool,
    },
    /// Values that the shader reads and writes.
    Storage {
        format: StorageFormat,
        access: StorageAccess,
    },
    /// An external texture, such as a frame of a video.
    External,
}

impl ImageClass {
    /// Whether there are several samples of each value.
    pub fn is_multisampled(self) -> bool
        ensures { result ≡ is_multisampled self }
    {
        match self {
            ImageClass::Sampled { multi, .. } | ImageClass::Depth { multi } => multi,
            ImageClass::Storage { .. } | ImageClass::External => false,
        }
    }

    /// Whether there may be several levels, each of half the size.
    pub fn is_mipmapped(self) -> bool
        ensures { result ≡ is_mipmapped self }
    {
        match self {
            ImageClass::Sampled { multi, .. } | ImageClass::Depth { multi } => !multi,
            ImageClass::Storage { .. } | ImageClass::External => false,
        }
    }
}

/// Where a variable is kept (WGSL, "Address Spaces").
#[derive(Clone, Copy, Debug, PartialEq, Eq, Hash)]
pub enum AddressSpace {
    /// In a function.
    Function,
    /// In an invocation.
    Private,
    /// In a workgroup, shared by its invocations.
    WorkGroup,
    /// In a buffer that shaders only read.
    Uniform,
    /// In a buffer.
    Storage { access: StorageAccess },
    /// Nowhere: an image or a sampler.
    Handle,
    /// Among the immediate data of a pipeline.
    Immediate,
    /// In what a task shader hands to its mesh shaders.
    TaskPayload,
    /// In what a ray hands to the shaders that it calls.
    RayPayload,
    /// In what the ray handed on that called this shader.
    IncomingRayPayload,
}

/// What a type is made of.
#[derive(Clone, Debug, PartialEq, Eq, Hash, Drop)]
pub enum TypeInner {
    /// A number or a bool.
    Scalar(Scalar),
    /// Scalars of one type, by their components.
    Vector {
        /// The number of components.
        size: VectorSize,
        /// The type of a component.
        scalar: Scalar,
    },
    /// Scalars of one type, in columns and rows.
    Matrix {
        /// The number of columns.
        columns: VectorSize,
        /// The number of rows: the components of a column.
        rows: VectorSize,
        /// The type of a component.
        scalar: Scalar,
    },
    /// A matrix that the invocations of a subgroup hold together.
    CooperativeMatrix {
        /// The number of columns.
        columns: CooperativeSize,
        /// The number of rows.
        rows: CooperativeSize,
        /// The type of a component.
        scalar: Scalar,
        /// Which operand of a multiplication it may be.
        role: CooperativeRole,
    },
    /// A scalar that invocations change one after another.
    Atomic(Scalar),
    /// A place that holds a value of another type.
    Pointer {
        /// The type of the value.
        base: Handle<TypeTag>,
        /// Where the value is kept.
        space: AddressSpace,
    },
    /// A place that holds a scalar, or a vector if there is a size.
    ValuePointer {
        /// The number of components of the vector, if it holds one.
        size: Option<VectorSize>,
        /// The type of the scalar, or of a component.
        scalar: Scalar,
        /// Where the value is kept.
        space: AddressSpace,
    },
    /// Values of one type, one after another.
    Array {
        /// The type of an element.
        base: Handle<TypeTag>,
        /// The number of elements.
        size: ArraySize,
        /// From the start of an element to the start of the next, in bytes.
        stride: u32,
    },
    /// Members, each with a type and an offset.
    Struct {
        /// The members, in the order of their declaration.
        members: List<StructMember>,
        /// The size, in bytes, with the padding at the end.
        span: u32,
    },
    /// An image.
    Image {
        /// The number of coordinates.
        dim: ImageDimension,
        /// Whether it has several layers.
        arrayed: bool,
        /// What it holds.
        class: ImageClass,
    },
    /// How an image is sampled.
    Sampler {
        /// Whether depths are compared.
        comparison: bool,
    },
    /// What rays are traced through.
    AccelerationStructure {
        /// Whether the corners of what was hit can be read.
        vertex_return: bool,
    },
    /// A ray on its way.
    RayQuery {
        /// Whether the corners of what was hit can be read.
        vertex_return: bool,
    },
    /// Bindings of one type under one number.
    BindingArray {
        /// The type of a binding.
        base: Handle<TypeTag>,
        /// The number of bindings.
        size: ArraySize,
    },
}

impl TypeInner {
    /// An equal `TypeInner`, in memory of its own. Only a struct takes any.
    ///
    /// # Errors
    ///
    /// `OutOfMemory` if memory was refused.
    pub fn try_clone(&self) -> Result<TypeInner, OutOfMemory>
        ensures copy { IfOk result (λ copy. copy ≡ self.now) }
        ensures no_struct { IsNotStruct self.now → IsOk result }
    {
        Ok(self.clone()?)
    }

    /// The type of the components of a scalar, a vector or a matrix, of either kind of matrix. Other
    /// types have none, atomics and pointers among them.
    pub fn scalar(&self) -> Option<Scalar>
        ensures { result ≡ scalar_of self.now }
    {
        match *self {
            TypeInner::Scalar(scalar)
            | TypeInner::Vector { scalar, .. }
            | TypeInner::Matrix { scalar, .. }
            | TypeInner::CooperativeMatrix { scalar, .. } => Some(scalar),
            TypeInner::Atomic(_)
            | TypeInner::Pointer { .. }
            | TypeInner::ValuePointer { .. }
            | TypeInner::Array { .. }
            | TypeInner::Struct { .. }
            | TypeInner::Image { .. }
            | TypeInner::Sampler { .. }
            | TypeInner::AccelerationStructure { .. }
            | TypeInner::RayQuery { .. }
            | TypeInner::BindingArray { .. } => None,
        }
    }

    /// The scalar of a scalar or a vector, and the number of components of a vector. Other types have
    /// none.
    pub fn vector_size_and_scalar(&self) -> Option<(Option<VectorSize>, Scalar)>
        ensures { result ≡ vector_size_and_scalar self.now }
    {
        match *self {
            TypeInner::Scalar(scalar) => Some((None, scalar)),
            TypeInner::Vector { size, scalar } => Some((Some(size), scalar)),
            TypeInner::Matrix { .. }
            | TypeInner::CooperativeMatrix { .. }
            | TypeInner::Atomic(_)
            | TypeInner::Pointer { .. }
            | TypeInner::ValuePointer { .. }
            | TypeInner::Array { .. }
            | TypeInner::Struct { .. }
            | TypeInner::Image { .. }
            | TypeInner::Sampler { .. }
            | TypeInner::AccelerationStructure { .. }
            | TypeInner::RayQuery { .. }
            | TypeInner::BindingArray { .. } => None,
        }
    }

    /// Whether this is a struct.
    pub fn is_struct(&self) -> bool
        ensures { result ≡ is_struct self.now }
    {
        match self {
            TypeInner::Struct { .. } => true,
            TypeInner::Scalar(_)
            | TypeInner::Vector { .. }
            | TypeInner::Matrix { .. }
            | TypeInner::CooperativeMatrix { .. }
            | TypeInner::Atomic(_)
            | TypeInner::Pointer { .. }
            | TypeInner::ValuePointer { .. }
            | TypeInner::Array { .. }
            | TypeInner::Image { .. }
            | TypeInner::Sampler { .. }
            | TypeInner::AccelerationStructure { .. }
            | TypeInner::RayQuery { .. }
            | TypeInner::BindingArray { .. } => false,
        }
    }

    /// The type that a pointer points to, if that type has a handle: of a `Pointer`, not of a
    /// `ValuePointer`.
    pub fn pointer_base_type(&self) -> Option<Handle<TypeTag>>
        ensures { result ≡ pointer_base self.now }
    {
        match *self {
            TypeInner::Pointer { base, .. } => Some(base),
            TypeInner::Scalar(_)
            | TypeInner::Vector { .. }
            | TypeInner::Matrix { .. }
            | TypeInner::CooperativeMatrix { .. }
            | TypeInner::Atomic(_)
            | TypeInner::ValuePointer { .. }
            | TypeInner::Array { .. }
            | TypeInner::Struct { .. }
            | TypeInner::Image { .. }
            | TypeInner::Sampler { .. }
            | TypeInner::AccelerationStructure { .. }
            | TypeInner::RayQuery { .. }
            | TypeInner::BindingArray { .. } => None,
        }
    }
}

/// A type of a module. Two types are equal if their names and their `inner` are.
#[derive(Clone, Debug, PartialEq, Eq, Hash, Drop)]
pub struct Type {
    pub name: Option<Text>,
    /// What it is made of.
    pub inner: TypeInner,
}

impl Type {
    /// An equal type, in memory of its own.
    ///
    /// # Errors
    ///
    /// `OutOfMemory` if memory was refused.
    pub fn try_clone(&self) -> Result<Type, OutOfMemory>
        ensures { IfOk result (λ copy. copy ≡ self.now) }
    {
        Ok(Type {
            name: self.name.clone()?,
            inner: self.inner.try_clone()?,
        })
    }
}
