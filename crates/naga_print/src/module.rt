//! Modules, and how they are validated, as items.

use crate::expressions::Place;
use crate::printer::{PrintError, Printed, Printer};
use bitflags::Flags;
use naga_flags::flags::{Capabilities, ValidationFlags};
use naga_ir::handle::Handle;
use naga_ir::ir::{
    Constant, DocComments, GlobalVariable, MemoryDecorations, Module, Override, ResourceBinding,
    SpecialTypes,
};
use std::alloc::Global;

/// How a module is validated, as far as it is said.
#[derive(Clone, Copy)]
pub struct Settings {
    pub flags: Option<ValidationFlags>,
    pub capabilities: Option<Capabilities>,
    /// Whether overrides have to have their values.
    pub resolved: bool,
}

impl Printer {
    fn settings(&mut self, settings: Settings) -> Result<(), PrintError> {
        if let Some(flags) = settings.flags {
            self.begin(1, "flags")?;
            self.number(u32::from(flags.bits()))?;
            self.end()?;
        }
        if let Some(capabilities) = settings.capabilities {
            self.begin(2, "caps ")?;
            self.wide(capabilities.bits())?;
            self.decimal(capabilities.bits())?;
            self.end()?;
        }
        if settings.resolved {
            self.item(3, "resolved")?;
        }
        Ok(())
    }

    /// Prints an item whose only operand is an index.
    fn reference<K>(
        &mut self,
        opcode: u32,
        line: &str,
        handle: Handle<K>,
    ) -> Result<(), PrintError> {
        self.begin(opcode, line)?;
        self.index(handle)?;
        self.end()
    }

    fn filters(&mut self, module: &Module) -> Result<(), PrintError> {
        for filter in module.diagnostic_filters.as_slice() {
            self.begin(6, "filter")?;
            self.optional(filter.parent)?;
            self.end()?;
        }
        match module.diagnostic_filter_leaf {
            Some(leaf) => self.reference(7, "filterleaf", leaf),
            None => Ok(()),
        }
    }

    fn special_types(&mut self, special: &SpecialTypes) -> Result<(), PrintError> {
        let SpecialTypes {
            ray_desc,
            ray_intersection,
            ray_vertex_return,
            others,
        } = special;
        if ray_desc.is_some() || ray_intersection.is_some() || ray_vertex_return.is_some() {
            self.begin(4, "special")?;
            self.optional(*ray_desc)?;
            self.optional(*ray_intersection)?;
            self.optional(*ray_vertex_return)?;
            self.end()?;
        }
        for ty in others.as_slice() {
            self.reference(5, "others", *ty)?;
        }
        Ok(())
    }

    fn constant(&mut self, constant: &Constant) -> Result<(), PrintError> {
        self.begin(32, "const")?;
        self.name(&constant.name)?;
        self.index(constant.ty)?;
        self.index(constant.init)?;
        self.end()
    }

    fn override_(&mut self, by: &Override) -> Result<(), PrintError> {
        self.begin(33, "override")?;
        self.name(&by.name)?;
        self.index(by.ty)?;
        self.optional(by.init)?;
        match by.id {
            Some(id) => self.number(u32::from(id))?,
            None => self.none()?,
        }
        self.end()
    }

    /// Adds where a pipeline binds a variable, and what holds of each access to it.
    fn resource(&mut self, variable: &GlobalVariable) -> Result<(), PrintError> {
        match variable.binding {
            Some(ResourceBinding { group, binding }) => {
                self.word(1)?;
                self.number(group)?;
                self.number_at_colon(binding)?;
            }
            None => {
                self.word(0)?;
                self.word(0)?;
                self.word(0)?;
            }
        }
        let MemoryDecorations {
            coherent,
            is_volatile,
        } = variable.memory_decorations;
        if coherent {
            self.part(" coherent")?;
        }
        if is_volatile {
            self.part(" volatile")?;
        }
        self.word(u32::from(coherent) + 2 * u32::from(is_volatile))
    }

    fn global_variable(&mut self, variable: &GlobalVariable) -> Result<(), PrintError> {
        let is_resource = variable.binding.is_some()
            || variable.memory_decorations != MemoryDecorations::NONE;
        self.begin(if is_resource { 50 } else { 34 }, "global")?;
        self.name(&variable.name)?;
        self.space(variable.space)?;
        self.index(variable.ty)?;
        self.optional(variable.init)?;
        if is_resource {
            self.resource(variable)?;
        }
        self.end()
    }

    /// Prints global expressions, and what they are values of.
    fn values(&mut self, module: &Module) -> Result<(), PrintError> {
        for expression in module.global_expressions.as_slice() {
            self.expression(Place::Module, expression)?;
        }
        for constant in module.constants.as_slice() {
            self.constant(constant)?;
        }
        for by in module.overrides.as_slice() {
            self.override_(by)?;
        }
        for variable in module.global_variables.as_slice() {
            self.global_variable(variable)?;
        }
        Ok(())
    }

    /// Adds the index of what has no handle.
    fn place(&mut self, index: usize) -> Result<(), PrintError> {
        match u32::try_from(index) {
            Ok(index) if index < u32::MAX => self.number(index),
            _ => Err(PrintError::TooLarge),
        }
    }

    /// Prints comments on types and members.
    fn comments_on_types(&mut self, comments: &DocComments) -> Result<(), PrintError> {
        for (ty, _) in comments.types.as_slice() {
            self.reference(8, "doctype", *ty)?;
        }
        for ((ty, member), _) in comments.struct_members.as_slice() {
            self.begin(9, "doc")?;
            self.index(*ty)?;
            self.place(*member)?;
            self.end()?;
        }
        Ok(())
    }

    /// Prints all other comments.
    fn comments_on_others(&mut self, comments: &DocComments) -> Result<(), PrintError> {
        for (function, _) in comments.functions.as_slice() {
            self.reference(10, "docfn", *function)?;
        }
        for (entry_point, _) in comments.entry_points.as_slice() {
            self.begin(11, "docentry")?;
            self.place(*entry_point)?;
            self.end()?;
        }
        for (constant, _) in comments.constants.as_slice() {
            self.reference(12, "docconst", *constant)?;
        }
        for (variable, _) in comments.global_variables.as_slice() {
            self.reference(13, "docglobal", *variable)?;
        }
        Ok(())
    }

    fn module_(&mut self, module: &Module) -> Result<(), PrintError> {
        self.filters(module)?;
        for ty in module.types.as_slice() {
            self.type_(ty)?;
        }
        self.special_types(&module.special_types)?;
        self.values(module)?;
        for function in module.functions.as_slice() {
            self.function(function)?;
        }
        for entry_point in module.entry_points.as_slice() {
            self.entry_point(entry_point)?;
        }
        self.comments_on_types(&module.doc_comments)?;
        self.comments_on_others(&module.doc_comments)
    }
}

/// Prints a module, and how it is validated.
///
/// # Errors
///
/// - `TooLarge` if a part of it has no words.
/// - `OutOfMemory` if a request for memory was refused.
pub fn print(alloc: Global, module: &Module, settings: Settings) -> Result<Printed, PrintError> {
    let mut printer = Printer::new(alloc);
    printer.settings(settings)?;
    printer.module_(module)?;
    Ok(printer.into_printed())
}
