//! The types of a made module.

use crate::build::insert;
use crate::random::Random;
use naga_valid::{
    AddressSpace, ArraySize, Handle, ImageClass, ImageDimension, List, Module, OutOfMemory, Scalar,
    ScalarKind, StructMember, TypeInner, TypeTag, UniqueArena, VectorSize,
};
use std::alloc::Global;
use std::num::NonZeroU32;

/// What a member of a struct, or the value of an expression, is.
#[derive(Clone, Copy, PartialEq)]
pub enum Shape {
    Float,
    Uint,
    Vector3,
    Vector4,
    Matrix,
    /// Anything else, by its place among the laid out types.
    Other,
}

/// A type with its layout in a buffer.
#[derive(Clone, Copy)]
pub struct Laid {
    pub ty: Handle<TypeTag>,
    pub shape: Shape,
    /// In bytes.
    pub size: u32,
    /// In bytes.
    pub alignment: u32,
}

/// The types that functions of a made module use, and all types that a struct may have as members.
#[derive(Drop)]
pub struct Types {
    pub float: Handle<TypeTag>,
    pub uint: Handle<TypeTag>,
    pub bool: Handle<TypeTag>,
    pub vector2: Handle<TypeTag>,
    pub vector3: Handle<TypeTag>,
    pub vector4: Handle<TypeTag>,
    pub matrix: Handle<TypeTag>,
    pub vectors: Handle<TypeTag>,
    pub image: Handle<TypeTag>,
    pub sampler: Handle<TypeTag>,
    pub laid: Vec<Laid>,
    /// A struct with a member of each shape, and what its members are.
    pub material: Handle<TypeTag>,
    pub members: Vec<Shape>,
}

/// The least multiple of an alignment that is not below a number of bytes.
pub fn rounded(bytes: u32, alignment: u32) -> u32 {
    match bytes.checked_next_multiple_of(alignment) {
        Some(rounded) => rounded,
        None => bytes,
    }
}

fn vector(size: VectorSize) -> TypeInner {
    TypeInner::Vector {
        size,
        scalar: Scalar::F32,
    }
}

/// An array of `count` elements, or of one if it is 0.
fn array(element: &Laid, count: u32) -> TypeInner {
    TypeInner::Array {
        base: element.ty,
        size: match NonZeroU32::new(count) {
            Some(count) => ArraySize::Constant(count),
            None => ArraySize::Dynamic,
        },
        stride: rounded(element.size, element.alignment),
    }
}

/// Adds an array of a laid out type.
pub fn add_array(types: &mut UniqueArena, element: &Laid, count: u32) -> Result<Laid, OutOfMemory> {
    let ty = insert(types, array(element, count))?;
    Ok(Laid {
        ty,
        shape: Shape::Other,
        size: rounded(element.size, element.alignment).saturating_mul(count),
        alignment: element.alignment,
    })
}

/// Members one after another, as they are put.
#[derive(Drop)]
pub struct Members {
    pub members: List<StructMember>,
    end: u32,
    alignment: u32,
}

impl Members {
    pub fn new(alloc: Global) -> Members {
        Members {
            members: List::new(alloc),
            end: 0,
            alignment: 1,
        }
    }

    /// Puts a member at the next place where it is aligned.
    pub fn put(&mut self, laid: &Laid) -> Result<(), OutOfMemory> {
        let offset = rounded(self.end, laid.alignment);
        self.members.push(StructMember {
            name: None,
            ty: laid.ty,
            binding: None,
            offset,
        })?;
        self.end = offset.saturating_add(laid.size);
        self.alignment = self.alignment.max(laid.alignment);
        Ok(())
    }

    /// Leaves bytes after the last member unused.
    pub fn pad(&mut self, bytes: u32) {
        self.end = self.end.saturating_add(bytes);
    }

    /// Adds the struct of these members.
    pub fn finish(self, types: &mut UniqueArena) -> Result<Laid, OutOfMemory> {
        let size = rounded(self.end, self.alignment);
        let alignment = self.alignment;
        let inner = TypeInner::Struct {
            members: self.members,
            span: size,
        };
        Ok(Laid {
            ty: insert(types, inner)?,
            shape: Shape::Other,
            size,
            alignment,
        })
    }
}

/// A laid out type of a list, or the given one if the list is empty.
pub fn any_of<'a>(laid: &'a [Laid], otherwise: &'a Laid, random: &mut Random) -> &'a Laid {
    let place = random.from_to(0, laid.len().min(1_000_000) as u32);
    match laid.get(place as usize) {
        Some(laid) => laid,
        None => otherwise,
    }
}

/// Adds a struct of some members, each of a type of a list.
pub fn add_struct(
    alloc: Global,
    types: &mut UniqueArena,
    laid: &[Laid],
    first: &Laid,
    count: u32,
    random: &mut Random,
) -> Result<Laid, OutOfMemory> {
    let mut members = Members::new(alloc);
    members.put(first)?;
    for _ in 0..count {
        members.put(any_of(laid, first, random))?;
    }
    members.finish(types)
}

/// Adds a struct of which the members are numbers, vectors and matrices, and notes what each is.
fn add_material(
    alloc: Global,
    types: &mut UniqueArena,
    leaves: &[Laid],
    first: &Laid,
    shapes: &mut Vec<Shape>,
    random: &mut Random,
) -> Result<Laid, OutOfMemory> {
    let mut members = Members::new(alloc);
    for leaf in leaves {
        members.put(leaf)?;
        shapes.push(leaf.shape)?;
    }
    for _ in 0..random.from_to(3, 24) {
        let leaf = any_of(leaves, first, random);
        members.put(leaf)?;
        shapes.push(leaf.shape)?;
    }
    members.finish(types)
}

/// Adds a type that has no layout for hosts: a pointer, an image or a sampler.
fn add_other(
    types: &mut UniqueArena,
    target: &Laid,
    random: &mut Random,
) -> Result<(), OutOfMemory> {
    let inner = match random.below(4) {
        0 => TypeInner::Pointer {
            base: target.ty,
            space: AddressSpace::Function,
        },
        1 => TypeInner::Pointer {
            base: target.ty,
            space: AddressSpace::Private,
        },
        2 => TypeInner::Image {
            dim: ImageDimension::D2,
            arrayed: random.below(2) == 0,
            class: ImageClass::Sampled {
                kind: ScalarKind::Float,
                multi: false,
            },
        },
        _ => TypeInner::Sampler {
            comparison: random.below(2) == 0,
        },
    };
    insert(types, inner)?;
    Ok(())
}

/// Adds structs of structs, arrays and others.
fn add_rest(
    alloc: Global,
    types: &mut UniqueArena,
    laid: &mut Vec<Laid>,
    first: &Laid,
    count: u32,
    random: &mut Random,
) -> Result<(), OutOfMemory> {
    for _ in 0..count {
        let element = any_of(laid.as_slice(), first, random);
        match random.below(4) {
            0 | 1 => {
                let members = random.from_to(2, 30);
                let new = add_struct(alloc, types, laid.as_slice(), first, members, random)?;
                if new.size < 60_000 {
                    laid.push(new)?;
                }
            }
            2 => {
                let new = add_array(types, element, random.from_to(1, 40))?;
                if new.size < 60_000 {
                    laid.push(new)?;
                }
            }
            _ => add_other(types, element, random)?,
        }
    }
    Ok(())
}

fn of_shape(ty: Handle<TypeTag>, shape: Shape, size: u32, alignment: u32) -> Laid {
    Laid {
        ty,
        shape,
        size,
        alignment,
    }
}

/// Adds the types that functions use, and `count` others.
pub fn add_types(
    alloc: Global,
    module: &mut Module,
    count: u32,
    random: &mut Random,
) -> Result<Types, OutOfMemory> {
    let types = &mut module.types;
    let float = insert(types, TypeInner::Scalar(Scalar::F32))?;
    let uint = insert(types, TypeInner::Scalar(Scalar::U32))?;
    let bool = insert(types, TypeInner::Scalar(Scalar::BOOL))?;
    let vector2 = insert(types, vector(VectorSize::Bi))?;
    let vector3 = insert(types, vector(VectorSize::Tri))?;
    let vector4 = insert(types, vector(VectorSize::Quad))?;
    let matrix = insert(
        types,
        TypeInner::Matrix {
            columns: VectorSize::Quad,
            rows: VectorSize::Quad,
            scalar: Scalar::F32,
        },
    )?;
    let leaves = [
        of_shape(float, Shape::Float, 4, 4),
        of_shape(vector4, Shape::Vector4, 16, 16),
        of_shape(uint, Shape::Uint, 4, 4),
        of_shape(vector3, Shape::Vector3, 12, 16),
        of_shape(matrix, Shape::Matrix, 64, 16),
    ];
    let vectors = insert(types, array(&leaves[1], 0))?;
    let image = insert(
        types,
        TypeInner::Image {
            dim: ImageDimension::D2,
            arrayed: false,
            class: ImageClass::Sampled {
                kind: ScalarKind::Float,
                multi: false,
            },
        },
    )?;
    let sampler = insert(types, TypeInner::Sampler { comparison: false })?;
    let mut members = Vec::new(alloc);
    let material = add_material(alloc, types, &leaves, &leaves[0], &mut members, random)?;
    let mut all = Vec::new(alloc);
    all.extend_from_slice(&leaves)?;
    add_rest(alloc, types, &mut all, &leaves[0], count, random)?;
    Ok(Types {
        float,
        uint,
        bool,
        vector2,
        vector3,
        vector4,
        matrix,
        vectors,
        image,
        sampler,
        laid: all,
        material: material.ty,
        members,
    })
}
