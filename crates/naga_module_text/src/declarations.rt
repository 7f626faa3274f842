//! The functions and entry points of a module, and what lines declare of them besides what becomes a part of the
//! module.

use naga_flags::flags::ShaderStages;
use naga_ir::handle::Handle;
use naga_ir::tags::TypeTag;
use std::alloc::Global;
use std::fmt;
use std::fmt::Display;

/// A function or an entry point, by its index.
#[derive(Clone, Copy)]
pub enum Callable {
    Function(usize),
    EntryPoint(usize),
}

impl Display for Callable {
    fn fmt<W: fmt::Write>(&self, f: &mut fmt::Formatter<W>) -> fmt::Result {
        match self {
            Callable::Function(index) => write!(f, "F{index}"),
            Callable::EntryPoint(index) => write!(f, "N{index}"),
        }
    }
}

/// What a line declares of an expression of a function, besides its form.
#[derive(Clone, Copy, Default)]
pub struct Declared {
    /// Its type.
    pub ty: Option<Handle<TypeTag>>,
    /// The argument that it is, if the function has no such argument and a literal stands in its place.
    pub missing: Option<u32>,
}

/// What lines declare of the functions and entry points of a module.
#[derive(Drop)]
pub struct Declarations {
    /// The stages in which the result of each function is available.
    pub stages: Vec<ShaderStages>,
    /// What is declared of the expressions of each function.
    pub functions: Vec<Vec<Declared>>,
    /// What is declared of the expressions of each entry point.
    pub entry_points: Vec<Vec<Declared>>,
    /// The last function or entry point.
    pub last: Option<Callable>,
}

impl Declarations {
    /// No declarations.
    pub fn new(alloc: Global) -> Declarations {
        Declarations {
            stages: Vec::new(alloc),
            functions: Vec::new(alloc),
            entry_points: Vec::new(alloc),
            last: None,
        }
    }

    /// What is declared of the expressions of a function or an entry point, in order.
    pub fn of(&self, callable: Callable) -> &[Declared] {
        let declared = match callable {
            Callable::Function(index) => self.functions.get(index),
            Callable::EntryPoint(index) => self.entry_points.get(index),
        };
        match declared {
            Some(declared) => declared,
            None => &[],
        }
    }
}
