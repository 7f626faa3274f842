//! What validation learns of a module.

ghost use Rattle.std.specs.Prelude.{◌≡◌, ◌+◌, ◌<◌, ◌≤◌, [], ◌∷◌, ◌++◌, length, map, IfOk, IsOk, OnErr, OnOk, Some, slice_get};
ghost use Rattle.naga_info.specs.ModuleInfo.{no_lists};
ghost use Rattle.naga_types.specs.declared.info.TypeInfo.{TypeInfo};

use naga_flags::flags::{ShaderStages, TypeFlags};
use naga_ir::handle::Handle;
use naga_ir::handle_vec::HandleVec;
use naga_ir::list::List;
use naga_ir::memory::OutOfMemory;
use naga_ir::tags::{ExpressionTag, FunctionTag, TypeTag};
use naga_types::info::TypeInfos;
use naga_typing::typifier::TypeResolution;
use std::alloc::{AllocError, Global};
use std::marker::Model;
use std::ops::Index;

/// What is known of an accepted function or entry point: naga's `FunctionInfo`, as far as the validation of
/// expressions depends on it.
#[derive(Debug, Drop)]
pub struct FunctionInfo {
    /// The pipeline stages that may use it.
    pub available_stages: ShaderStages,
    /// The types of its expressions, in their order.
    pub types: List<TypeResolution>,
}

impl FunctionInfo {
    /// The info of a function without expressions, which these stages may use.
    pub fn new(alloc: Global, available_stages: ShaderStages) -> FunctionInfo
        ensures { result ≡ record { available_stages = available_stages; types = [] } }
    {
        FunctionInfo {
            available_stages,
            types: List::new(alloc),
        }
    }

    /// Adds the type of the next expression.
    ///
    /// # Errors
    ///
    /// `OutOfMemory` if memory was refused, which changes nothing.
    pub fn push(&mut self, resolution: TypeResolution) -> Result<(), OutOfMemory>
        ensures pushed { OnOk result (self.new ≡ record self.old { types = self.old.types ++ resolution ∷ [] }) }
        ensures refused { OnErr result (self.new ≡ self.old) }
    {
        self.types.push(resolution)
    }

    /// An equal info, in memory of its own.
    ///
    /// # Errors
    ///
    /// `OutOfMemory` if memory was refused.
    pub fn try_clone(&self) -> Result<FunctionInfo, OutOfMemory>
        ensures { IfOk result (λ copy. copy ≡ self.now) }
    {
        Ok(self.clone()?)
    }
}

impl Clone for FunctionInfo {
    ghost use Rattle.std.specs.Prelude.{◌≡◌};

    ghost is_clone = { λ info copy. copy ≡ info };

    fn clone(&self) -> Result<FunctionInfo, AllocError> {
        Ok(FunctionInfo {
            available_stages: self.available_stages,
            types: self.types.clone()?,
        })
    }
}

/// What is known of an accepted module: naga's `ModuleInfo`. Contracts see a list for each kind of item, in
/// the order of the module's, with the room for types and global expressions that takes no more memory.
#[derive(Debug, Drop)]
pub struct ModuleInfo {
    type_flags: HandleVec<TypeFlags, TypeTag>,
    functions: HandleVec<FunctionInfo, FunctionTag>,
    entry_points: List<FunctionInfo>,
    const_expression_types: HandleVec<TypeResolution, ExpressionTag>,
}

impl Model for ModuleInfo {
    ghost use Rattle.naga_info.specs.ModuleInfo.{ModuleInfoWithRoom};

    ghost Value = { ModuleInfoWithRoom };

    ghost view = { λ i. record {
      lists = record {
        type_flags = i.type_flags.items;
        functions = i.functions.items;
        entry_points = i.entry_points;
        const_expression_types = i.const_expression_types.items;
      };
      type_room = i.type_flags.room;
      expression_room = i.const_expression_types.room;
    } };
}

impl ModuleInfo {
    /// The info of a module that holds nothing.
    pub fn new(alloc: Global) -> ModuleInfo
        ensures { result.lists ≡ no_lists }
    {
        ModuleInfo {
            type_flags: HandleVec::new(alloc),
            functions: HandleVec::new(alloc),
            entry_points: List::new(alloc),
            const_expression_types: HandleVec::new(alloc),
        }
    }

    /// Makes room for `types` more types and `expressions` more global expressions. No room shrinks.
    ///
    /// # Errors
    ///
    /// `OutOfMemory` if memory was refused. The room for types may have grown then.
    pub fn reserve(&mut self, types: usize, expressions: usize) -> Result<(), OutOfMemory>
        ensures same { self.new.lists ≡ self.old.lists }
        ensures type_room { OnOk result (length self.old.lists.type_flags + types ≤ self.new.type_room) }
        ensures expression_room { OnOk result
            (length self.old.lists.const_expression_types + expressions ≤ self.new.expression_room) }
        ensures types_grow { self.old.type_room ≤ self.new.type_room }
        ensures expressions_grow { self.old.expression_room ≤ self.new.expression_room }
        ensures within_room { length self.old.lists.type_flags + types ≤ self.old.type_room
            → length self.old.lists.const_expression_types + expressions ≤ self.old.expression_room → IsOk result }
        ensures refused { OnErr result (self.new.expression_room ≡ self.old.expression_room) }
    {
        self.type_flags.reserve(types)?;
        self.const_expression_types.reserve(expressions)
    }

    /// Adds what the next type may be used for. Within the room this takes no memory.
    ///
    /// # Errors
    ///
    /// `OutOfMemory` if memory was refused, which changes no list.
    pub fn push_type(&mut self, flags: TypeFlags) -> Result<(), OutOfMemory>
        ensures pushed { OnOk result (self.new.lists
            ≡ record self.old.lists { type_flags = self.old.lists.type_flags ++ flags ∷ [] }) }
        ensures refused { OnErr result (self.new.lists ≡ self.old.lists) }
        ensures within_room { length self.old.lists.type_flags < self.old.type_room → IsOk result }
        ensures grows { self.old.type_room ≤ self.new.type_room }
        ensures other_room { self.new.expression_room ≡ self.old.expression_room }
    {
        self.type_flags.push(flags)
    }

    /// Adds what each of these types may be used for. Within the room this takes no memory.
    ///
    /// # Errors
    ///
    /// `OutOfMemory` if memory was refused, which changes no list.
    pub fn copy_flags(&mut self, infos: &TypeInfos) -> Result<(), OutOfMemory>
        ensures copied { OnOk result (self.new.lists
            ≡ record self.old.lists {
              type_flags = self.old.lists.type_flags ++ map (λ (info : TypeInfo). info.flags) infos.now.infos;
            }) }
        ensures refused { OnErr result (self.new.lists ≡ self.old.lists) }
        ensures within_room { length self.old.lists.type_flags + length infos.now.infos ≤ self.old.type_room
            → IsOk result }
        ensures grows { self.old.type_room ≤ self.new.type_room }
        ensures other_room { self.new.expression_room ≡ self.old.expression_room }
    {
        self.type_flags.extend_from_slice(infos.flags())
    }

    /// Adds the type of the next global expression. Within the room this takes no memory.
    ///
    /// # Errors
    ///
    /// `OutOfMemory` if memory was refused, which changes no list.
    pub fn push_expression(&mut self, resolution: TypeResolution) -> Result<(), OutOfMemory>
        ensures pushed { OnOk result (self.new.lists
            ≡ record self.old.lists {
              const_expression_types = self.old.lists.const_expression_types ++ resolution
                  ∷ [];
            }) }
        ensures refused { OnErr result (self.new.lists ≡ self.old.lists) }
        ensures within_room { length self.old.lists.const_expression_types < self.old.expression_room → IsOk result }
        ensures grows { self.old.expression_room ≤ self.new.expression_room }
        ensures other_room { self.new.type_room ≡ self.old.type_room }
    {
        self.const_expression_types.push(resolution)
    }

    /// Adds what is known of the next function.
    ///
    /// # Errors
    ///
    /// `OutOfMemory` if memory was refused, which changes nothing.
    pub fn push_function(&mut self, info: FunctionInfo) -> Result<(), OutOfMemory>
        ensures pushed { OnOk result (self.new
            ≡ record self.old { lists = record self.old.lists { functions = self.old.lists.functions ++ info ∷ [] } }) }
        ensures refused { OnErr result (self.new ≡ self.old) }
    {
        self.functions.push(info)
    }

    /// Adds what is known of the next entry point.
    ///
    /// # Errors
    ///
    /// `OutOfMemory` if memory was refused, which changes nothing.
    pub fn push_entry_point(&mut self, info: FunctionInfo) -> Result<(), OutOfMemory>
        ensures pushed { OnOk result (self.new
            ≡ record self.old {
              lists = record self.old.lists {
                entry_points = self.old.lists.entry_points ++ info
                    ∷ [];
              };
            }) }
        ensures refused { OnErr result (self.new ≡ self.old) }
    {
        self.entry_points.push(info)
    }

    /// What is known of the entry point of an index.
    pub fn get_entry_point(&self, index: usize) -> &FunctionInfo
        requires { index < length self.now.lists.entry_points }
        ensures { slice_get self.now.lists.entry_points index ≡ Some result.now }
    {
        &self.entry_points.as_slice()[index]
    }

    /// The types of all global expressions, in their order.
    pub fn const_expression_types(&self) -> &[TypeResolution]
        ensures { result.now ≡ self.now.lists.const_expression_types }
    {
        self.const_expression_types.as_slice()
    }

    /// An info of equal lists, in memory of its own.
    ///
    /// # Errors
    ///
    /// `OutOfMemory` if memory was refused.
    pub fn try_clone(&self) -> Result<ModuleInfo, OutOfMemory>
        ensures { IfOk result (λ copy. copy.lists ≡ self.now.lists) }
    {
        Ok(ModuleInfo {
            type_flags: self.type_flags.try_clone()?,
            functions: self.functions.try_clone()?,
            entry_points: self.entry_points.try_clone()?,
            const_expression_types: self.const_expression_types.try_clone()?,
        })
    }
}

impl Index<Handle<TypeTag>> for ModuleInfo {
    ghost use Rattle.std.specs.Prelude.{◌≡◌, ◌<◌, length, Some, slice_get};

    type Output = TypeFlags;

    ghost can_index = { λ info i. i < length info.lists.type_flags };

    ghost index_gives = { λ info i r. slice_get info.lists.type_flags i ≡ Some r };

    fn index(&self, handle: Handle<TypeTag>) -> &TypeFlags {
        &self.type_flags[handle]
    }
}

impl Index<Handle<FunctionTag>> for ModuleInfo {
    ghost use Rattle.std.specs.Prelude.{◌≡◌, ◌<◌, length, Some, slice_get};

    type Output = FunctionInfo;

    ghost can_index = { λ info i. i < length info.lists.functions };

    ghost index_gives = { λ info i r. slice_get info.lists.functions i ≡ Some r };

    fn index(&self, handle: Handle<FunctionTag>) -> &FunctionInfo {
        &self.functions[handle]
    }
}

impl Index<Handle<ExpressionTag>> for ModuleInfo {
    ghost use Rattle.std.specs.Prelude.{◌≡◌, ◌<◌, length, Some, slice_get};

    type Output = TypeResolution;

    ghost can_index = { λ info i. i < length info.lists.const_expression_types };

    ghost index_gives = { λ info i r. slice_get info.lists.const_expression_types i ≡ Some r };

    fn index(&self, handle: Handle<ExpressionTag>) -> &TypeResolution {
        &self.const_expression_types[handle]
    }
}
