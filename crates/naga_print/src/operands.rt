//! What the items of several kinds have as operands.

ghost use Rattle.std.specs.Prelude.{◌<◌};

use crate::printer::{PrintError, Printer};
use naga_ir::built_in::BuiltIn;
use naga_ir::expression::SwizzleComponent;
use naga_ir::types::{
    AddressSpace, ArraySize, Binding, CooperativeRole, Interpolation, Sampling, Scalar, ScalarKind,
    StorageAccess, VectorSize,
};

/// What an interpolation, a sampling and one value for each primitive add to the first word of a location.
const INTERPOLATION: u32 = 256;

const SAMPLING: u32 = 65536;

const PER_PRIMITIVE: u32 = 16777216;

/// The number and the name of a kind of scalars.
pub fn kind(kind: ScalarKind) -> (u32, &'static str) {
    match kind {
        ScalarKind::Sint => (0, "sint"),
        ScalarKind::Uint => (1, "uint"),
        ScalarKind::Float => (2, "float"),
        ScalarKind::Bool => (3, "bool"),
        ScalarKind::AbstractInt => (4, "aint"),
        ScalarKind::AbstractFloat => (5, "afloat"),
    }
}

/// The number and the name of a component.
pub fn component(component: SwizzleComponent) -> (u32, &'static str) {
    match component {
        SwizzleComponent::X => (0, "x"),
        SwizzleComponent::Y => (1, "y"),
        SwizzleComponent::Z => (2, "z"),
        SwizzleComponent::W => (3, "w"),
    }
}

/// The number of what may be done with what is stored: the sum of 1 load, 2 store and 4 atomic.
pub fn access(access: StorageAccess) -> u32 {
    let load = if access.load { 1 } else { 0 };
    let store = if access.store { 2 } else { 0 };
    let atomic = if access.atomic { 4 } else { 0 };
    load + store + atomic
}

/// The number and the letter of a role.
pub fn role(role: CooperativeRole) -> (u32, &'static str) {
    match role {
        CooperativeRole::A => (0, "A"),
        CooperativeRole::B => (1, "B"),
        CooperativeRole::C => (2, "C"),
    }
}

/// The number and the name of an interpolation, or 0 and no name.
fn interpolation_choice(interpolation: Option<Interpolation>) -> (u32, &'static str)
    ensures { result.0 < 5 }
{
    match interpolation {
        None => (0, ""),
        Some(Interpolation::Perspective) => (1, "perspective"),
        Some(Interpolation::Linear) => (2, "linear"),
        Some(Interpolation::Flat) => (3, "flat"),
        Some(Interpolation::PerVertex) => (4, "pervertex"),
    }
}

/// The number and the name of a sampling, or 0 and no name.
fn sampling_choice(sampling: Option<Sampling>) -> (u32, &'static str)
    ensures { result.0 < 6 }
{
    match sampling {
        None => (0, ""),
        Some(Sampling::Center) => (1, "center"),
        Some(Sampling::Centroid) => (2, "centroid"),
        Some(Sampling::Sample) => (3, "sample"),
        Some(Sampling::First) => (4, "first"),
        Some(Sampling::Either) => (5, "either"),
    }
}

/// The number and the name of an address space.
fn space_choice(space: AddressSpace) -> (u32, &'static str) {
    match space {
        AddressSpace::Function => (0, "function"),
        AddressSpace::Private => (1, "private"),
        AddressSpace::WorkGroup => (2, "workgroup"),
        AddressSpace::Uniform => (3, "uniform"),
        AddressSpace::Storage { .. } => (4, "storage"),
        AddressSpace::Handle => (5, "handle"),
        AddressSpace::Immediate => (6, "immediate"),
        AddressSpace::TaskPayload => (7, "taskpayload"),
        AddressSpace::RayPayload => (8, "raypayload"),
        AddressSpace::IncomingRayPayload => (9, "incomingraypayload"),
    }
}

impl Printer {
    /// Adds a scalar type.
    pub(crate) fn scalar(&mut self, scalar: Scalar) -> Result<(), PrintError> {
        self.choice(kind(scalar.kind))?;
        self.number(u32::from(scalar.width))
    }

    /// Adds the number of a vector's components.
    pub(crate) fn size(&mut self, size: VectorSize) -> Result<(), PrintError> {
        self.number(u32::from(size.components()))
    }

    /// Adds to the line a letter for each use that is allowed, or a minus.
    pub(crate) fn access_letters(&mut self, allowed: StorageAccess) -> Result<(), PrintError> {
        if allowed.load {
            self.part("l")?;
        }
        if allowed.store {
            self.part("s")?;
        }
        if allowed.atomic {
            self.part("a")?;
        }
        if access(allowed) == 0 {
            self.part("-")?;
        }
        Ok(())
    }

    /// Adds an address space.
    pub(crate) fn space(&mut self, space: AddressSpace) -> Result<(), PrintError> {
        self.choice(space_choice(space))?;
        let AddressSpace::Storage { access: allowed } = space else {
            return self.word(0);
        };
        if !allowed.load || !allowed.store || allowed.atomic {
            self.part(":")?;
            self.access_letters(allowed)?;
        }
        self.word(access(allowed))
    }

    /// Adds the length of an array.
    pub(crate) fn length(&mut self, size: ArraySize) -> Result<(), PrintError> {
        match size {
            ArraySize::Constant(count) => {
                self.word(0)?;
                self.number(count.get())
            }
            ArraySize::Pending(by) => {
                let index = by.index();
                self.word(1)?;
                self.word(index as u32)?;
                self.part(" o")?;
                self.decimal(index as u64)
            }
            ArraySize::Dynamic => {
                self.choice((2, "dyn"))?;
                self.word(0)
            }
        }
    }

    /// Adds the three words of a binding, of which the line says nothing.
    fn binding_words(&mut self, binding: Option<Binding>) -> Result<(), PrintError> {
        let [form, number, source] = match binding {
            None => [0, 0, 0],
            Some(Binding::BuiltIn(value)) => [1, value.number(), 0],
            Some(
                Binding::Location {
                    location,
                    interpolation,
                    sampling,
                    blend_src,
                    per_primitive,
                },
            ) => {
                let form = if blend_src.is_some() { 3 } else { 2 };
                let how = interpolation_choice(interpolation).0 * INTERPOLATION
                    + sampling_choice(sampling).0 * SAMPLING
                    + u32::from(per_primitive) * PER_PRIMITIVE;
                [form + how, location, blend_src.unwrap_or(0)]
            }
        };
        self.word(form)?;
        self.word(number)?;
        self.word(source)
    }

    /// Adds to the line the name of a built-in value, and behind a separator its flag.
    fn built_in(&mut self, separator: &str, value: BuiltIn) -> Result<(), PrintError> {
        let (name, flag) = match value {
            BuiltIn::Position { invariant: true } => ("position", "invariant"),
            BuiltIn::Position { invariant: false } => return self.part("position"),
            BuiltIn::Barycentric { perspective: true } => ("barycentric", "perspective"),
            BuiltIn::Barycentric { perspective: false } => return self.part("barycentric"),
            _ => return self.variant(value),
        };
        self.part(name)?;
        self.part(separator)?;
        self.part(flag)
    }

    /// Adds to the line what it says of a location behind its number, each word behind a separator.
    fn location(&mut self, separator: &str, binding: Binding) -> Result<(), PrintError> {
        let Binding::Location {
            interpolation,
            sampling,
            blend_src,
            per_primitive,
            ..
        } = binding
        else {
            return Ok(());
        };
        if interpolation.is_some() {
            self.part(separator)?;
            self.part(interpolation_choice(interpolation).1)?;
        }
        if sampling.is_some() {
            self.part(separator)?;
            self.part(sampling_choice(sampling).1)?;
        }
        if let Some(source) = blend_src {
            self.part(separator)?;
            self.part("blend")?;
            self.part(separator)?;
            self.decimal(u64::from(source))?;
        }
        if per_primitive {
            self.part(separator)?;
            self.part("perprimitive")?;
        }
        Ok(())
    }

    /// Adds to the line what it says of a binding, each word behind a separator.
    fn binding_part(&mut self, separator: &str, binding: Binding) -> Result<(), PrintError> {
        self.part(separator)?;
        match binding {
            Binding::BuiltIn(value) => {
                self.part("builtin")?;
                self.part(separator)?;
                self.built_in(separator, value)
            }
            Binding::Location { location, .. } => {
                self.part("location")?;
                self.part(separator)?;
                self.decimal(u64::from(location))?;
                self.location(separator, binding)
            }
        }
    }

    /// Adds the binding of an argument or a result.
    pub(crate) fn binding(&mut self, binding: Option<Binding>) -> Result<(), PrintError> {
        self.binding_words(binding)?;
        match binding {
            Some(binding) => self.binding_part(" ", binding),
            None => Ok(()),
        }
    }

    /// Adds the binding of a member: of a location of which no more is said, its number and its source of blending.
    pub(crate) fn member_binding(&mut self, binding: Option<Binding>) -> Result<(), PrintError> {
        self.binding_words(binding)?;
        match binding {
            None => Ok(()),
            Some(
                Binding::Location {
                    location,
                    interpolation: None,
                    sampling: None,
                    blend_src,
                    per_primitive: false,
                },
            ) => {
                self.decimal_at_colon(location)?;
                match blend_src {
                    Some(source) => self.decimal_at_colon(source),
                    None => Ok(()),
                }
            }
            Some(binding) => self.binding_part(":", binding),
        }
    }
}
