//! Types as items.

use crate::operands::{access, kind, role};
use crate::printer::{NONE, PrintError, Printer};
use naga_ir::storage_format::StorageFormat;
use naga_ir::types::{
    AddressSpace, ImageClass, ImageDimension, Scalar, ScalarKind, StorageAccess, StructMember,
    Type, TypeInner, VectorSize,
};

/// The opcode of a type, and how its line begins.
fn head_of(inner: &TypeInner) -> (u32, &'static str) {
    match inner {
        TypeInner::Scalar(_) => (16, "type scalar"),
        TypeInner::Vector { .. } => (17, "type vector"),
        TypeInner::Matrix { .. } => (18, "type matrix"),
        TypeInner::CooperativeMatrix { .. } => (19, "type coop"),
        TypeInner::Atomic(_) => (20, "type atomic"),
        TypeInner::Pointer { .. } => (21, "type pointer"),
        TypeInner::ValuePointer { .. } => (22, "type valuepointer"),
        TypeInner::Array { .. } => (23, "type array"),
        TypeInner::Struct { .. } => (24, "type struct"),
        TypeInner::Image { .. } => (25, "type image"),
        TypeInner::Sampler { .. } => (26, "type sampler"),
        TypeInner::AccelerationStructure { .. } => (27, "type accel"),
        TypeInner::RayQuery { .. } => (28, "type rayquery"),
        TypeInner::BindingArray { .. } => (29, "type bindingarray"),
    }
}

/// The number and the name of a dimension.
fn dimension(dim: ImageDimension) -> (u32, &'static str) {
    match dim {
        ImageDimension::D1 => (0, "1"),
        ImageDimension::D2 => (1, "2"),
        ImageDimension::D3 => (2, "3"),
        ImageDimension::Cube => (3, "cube"),
    }
}

impl Printer {
    /// Adds a member of a struct.
    fn member(&mut self, member: &StructMember) -> Result<(), PrintError> {
        match &member.name {
            Some(name) => self.text_words(name.as_str())?,
            None => self.word(NONE)?,
        }
        self.index(member.ty)?;
        self.number_at_colon(member.offset)?;
        self.member_binding(member.binding)?;
        match &member.name {
            Some(name) => self.name_part(name.as_str()),
            None => Ok(()),
        }
    }

    fn members(&mut self, members: &[StructMember]) -> Result<(), PrintError> {
        for member in members {
            self.member(member)?;
        }
        Ok(())
    }

    /// Adds the class of an image that is sampled.
    fn sampled(&mut self, of: ScalarKind, multi: bool) -> Result<(), PrintError> {
        let name = match (of, multi) {
            (ScalarKind::Float, false) => " float",
            (ScalarKind::Float, true) => " floatms",
            (ScalarKind::Sint, false) => " sint",
            (ScalarKind::Sint, true) => " sintms",
            (ScalarKind::Uint, false) => " uint",
            (ScalarKind::Uint, true) => " uintms",
            _ => {
                self.cannot_say("a sampled image of bools or of abstract numbers");
                " float"
            }
        };
        self.part(name)?;
        self.word(0)?;
        self.word(kind(of).0)?;
        self.word(u32::from(multi))
    }

    /// Adds the class of a storage image.
    fn storage(&mut self, format: StorageFormat, allowed: StorageAccess) -> Result<(), PrintError> {
        let is_for_all = allowed.load && allowed.store && allowed.atomic;
        self.choice((2, "storage"))?;
        if format != StorageFormat::R8Unorm || !is_for_all {
            self.part(":")?;
            self.variant(format)?;
        }
        if !is_for_all {
            self.part(":")?;
            self.access_letters(allowed)?;
        }
        self.word(format as u32)?;
        self.word(access(allowed))
    }

    /// Adds the class of an image.
    fn class(&mut self, class: ImageClass) -> Result<(), PrintError> {
        match class {
            ImageClass::Sampled { kind, multi } => self.sampled(kind, multi),
            ImageClass::Depth { multi } => {
                self.choice((1, if multi { "depthms" } else { "depth" }))?;
                self.word(u32::from(multi))?;
                self.word(0)
            }
            ImageClass::Storage { format, access } => self.storage(format, access),
            ImageClass::External => {
                self.choice((3, "external"))?;
                self.word(0)?;
                self.word(0)
            }
        }
    }

    fn matrix(
        &mut self,
        columns: VectorSize,
        rows: VectorSize,
        scalar: Scalar,
    ) -> Result<(), PrintError> {
        self.size(columns)?;
        self.size(rows)?;
        self.scalar(scalar)
    }

    fn value_pointer(
        &mut self,
        size: Option<VectorSize>,
        scalar: Scalar,
        space: AddressSpace,
    ) -> Result<(), PrintError> {
        match size {
            Some(size) => self.size(size)?,
            None => self.number(0)?,
        }
        self.scalar(scalar)?;
        self.space(space)
    }

    fn image(
        &mut self,
        dim: ImageDimension,
        arrayed: bool,
        class: ImageClass,
    ) -> Result<(), PrintError> {
        self.choice(dimension(dim))?;
        self.flag(arrayed)?;
        self.class(class)
    }

    /// Adds the operands of a cooperative matrix, or of no other type.
    fn cooperative_matrix(&mut self, inner: &TypeInner) -> Result<(), PrintError> {
        let TypeInner::CooperativeMatrix {
            columns,
            rows,
            scalar,
            role: its_role,
        } = inner
        else {
            return Ok(());
        };
        self.number(u32::from(columns.components()))?;
        self.number(u32::from(rows.components()))?;
        self.scalar(*scalar)?;
        self.choice(role(*its_role))
    }

    /// Adds the operands of a type that has a base or members, after its name.
    fn composed(&mut self, inner: &TypeInner) -> Result<(), PrintError> {
        match inner {
            TypeInner::Pointer { base, space } => {
                self.index(*base)?;
                self.space(*space)
            }
            TypeInner::Array { base, size, stride } => {
                self.index(*base)?;
                self.length(*size)?;
                self.number(*stride)
            }
            TypeInner::Struct { members, span } => {
                self.number(*span)?;
                self.members(members.as_slice())
            }
            TypeInner::BindingArray { base, size } => {
                self.index(*base)?;
                self.length(*size)
            }
            _ => Ok(()),
        }
    }

    /// Adds the operands of a type, after its name.
    fn inner(&mut self, inner: &TypeInner) -> Result<(), PrintError> {
        match inner {
            TypeInner::Scalar(scalar) | TypeInner::Atomic(scalar) => self.scalar(*scalar),
            TypeInner::Vector { size, scalar } => {
                self.size(*size)?;
                self.scalar(*scalar)
            }
            TypeInner::Matrix {
                columns,
                rows,
                scalar,
            } => self.matrix(*columns, *rows, *scalar),
            TypeInner::CooperativeMatrix { .. } => self.cooperative_matrix(inner),
            TypeInner::ValuePointer {
                size,
                scalar,
                space,
            } => self.value_pointer(*size, *scalar, *space),
            TypeInner::Pointer { .. }
            | TypeInner::Array { .. }
            | TypeInner::Struct { .. }
            | TypeInner::BindingArray { .. } => self.composed(inner),
            TypeInner::Image {
                dim,
                arrayed,
                class,
            } => self.image(*dim, *arrayed, *class),
            TypeInner::Sampler { comparison } => self.flag(*comparison),
            TypeInner::AccelerationStructure { vertex_return }
            | TypeInner::RayQuery { vertex_return } => self.flag(*vertex_return),
        }
    }

    /// Prints a type.
    pub(crate) fn type_(&mut self, ty: &Type) -> Result<(), PrintError> {
        let (opcode, line) = head_of(&ty.inner);
        self.begin(opcode, line)?;
        self.name(&ty.name)?;
        self.inner(&ty.inner)?;
        self.end()
    }
}
