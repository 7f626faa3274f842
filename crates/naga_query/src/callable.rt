//! The functions and entry points of a module.

ghost use Rattle.std.specs.Prelude.{IfSome};
ghost use Rattle.naga_query.specs.Accepted.{IsFunctionAt};

use naga_module_text::declarations::Callable;
use naga_valid::{Function, Module};

/// A function or the function of an entry point, and what has to be known before it is validated.
#[derive(Clone, Copy)]
pub struct FunctionAt<'a> {
    pub callable: Callable,
    pub function: &'a Function,
    /// The number of functions of the module that precede it.
    pub preceding: usize,
}

/// The function or entry point at a place in a list of all, the functions first.
pub fn callable_at(module: &Module, place: usize) -> Callable {
    match place.checked_sub(module.functions.len()) {
        Some(index) => Callable::EntryPoint(index),
        None => Callable::Function(place),
    }
}

/// The function, or the function of the entry point, if it exists.
pub fn function_of(module: &Module, callable: Callable) -> Option<FunctionAt<'_>>
    ensures { IfSome result (λ at. IsFunctionAt «module».now at.function.now at.preceding) }
{
    match callable {
        Callable::Function(index) => {
            let function = module.functions.as_slice().get(index)?;
            Some(FunctionAt {
                callable,
                function,
                preceding: index,
            })
        }
        Callable::EntryPoint(index) => {
            let entry_point = module.entry_points.as_slice().get(index)?;
            Some(FunctionAt {
                callable,
                function: &entry_point.function,
                preceding: module.functions.len(),
            })
        }
    }
}
