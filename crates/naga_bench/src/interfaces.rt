//! Validation of what modules declare: variables with bindings, functions, and entry points with inputs and outputs.

ghost use Rattle.naga_typing.specs.FullTyping.{full_resolves};
ghost use Rattle.naga_valid.specs.Accepted.{Accepts};
ghost use Rattle.naga_valid.specs.State.{settings_of};
ghost use Rattle.std.specs.Prelude.{false};

use crate::build::{append, insert};
use crate::random::Random;
use crate::shaders::{change, new_validator};
use crate::totals::Totals;
use crate::types::{Types, add_types, any_of};
use naga_valid::{
    AddressSpace, Binding, BuiltIn, EntryPoint, Expression, ExpressionTag, FullTyping, Function,
    FunctionArgument, FunctionResult, GlobalVariable, Handle, Interpolation, List, Literal,
    LocalVariable, MemoryDecorations, Module, ModuleInfo, OutOfMemory, ResourceBinding,
    ShaderStage, StorageAccess, StructMember, Text, TypeInner, TypeTag, UniqueArena, Validator,
};
use std::alloc::Global;

/// The types of a made module, with those of inputs and outputs.
#[derive(Drop)]
struct ShaderTypes {
    common: Types,
    /// What vertex shaders give: a position and some vectors.
    outputs: Vec<Handle<TypeTag>>,
    /// What fragment shaders give: some vectors.
    targets: Vec<Handle<TypeTag>>,
}

/// How much a made module declares. Each entry point takes a built-in value and 15 vectors.
const VARIABLES: u32 = 20_000;

const FUNCTIONS: u32 = 1_000;

const ENTRY_POINTS: u32 = 3_000;

const VECTORS: u32 = 15;

/// The binding of a location.
fn at_location(location: u32, interpolation: Option<Interpolation>) -> Binding {
    Binding::Location {
        location,
        interpolation,
        sampling: None,
        blend_src: None,
        per_primitive: false,
    }
}

/// The binding of the position of a vertex or a fragment.
fn position() -> Binding {
    Binding::BuiltIn(BuiltIn::Position { invariant: false })
}

/// Adds a vector with a binding behind the other members of a struct.
fn push_member(
    members: &mut List<StructMember>,
    vector: Handle<TypeTag>,
    index: u32,
    binding: Binding,
) -> Result<(), OutOfMemory> {
    members.push(StructMember {
        name: None,
        ty: vector,
        binding: Some(binding),
        offset: index.saturating_mul(16),
    })
}

/// Adds a struct of `count` vectors.
fn add_struct(
    types: &mut UniqueArena,
    members: List<StructMember>,
    count: u32,
) -> Result<Handle<TypeTag>, OutOfMemory> {
    let span = count.saturating_mul(16);
    insert(types, TypeInner::Struct { members, span })
}

/// Adds types, with those of inputs and outputs of one vector and more.
fn add_shader_types(
    alloc: Global,
    module: &mut Module,
    random: &mut Random,
) -> Result<ShaderTypes, OutOfMemory> {
    let common = add_types(alloc, module, 20, random)?;
    let vector = common.vector4;
    let mut all = ShaderTypes {
        common,
        outputs: Vec::new(alloc),
        targets: Vec::new(alloc),
    };
    for count in 1..17u32 {
        let mut outputs = List::new(alloc);
        let mut targets = List::new(alloc);
        push_member(&mut outputs, vector, 0, position())?;
        for index in 0..count {
            let passed = at_location(index, Some(Interpolation::Perspective));
            push_member(&mut outputs, vector, index.saturating_add(1), passed)?;
            push_member(&mut targets, vector, index, at_location(index, None))?;
        }
        let output = add_struct(&mut module.types, outputs, count.saturating_add(1))?;
        all.outputs.push(output)?;
        let target = add_struct(&mut module.types, targets, count)?;
        all.targets.push(target)?;
    }
    Ok(all)
}

/// A type of a list, or the given one if the list is empty.
fn any_type(
    types: &[Handle<TypeTag>],
    otherwise: Handle<TypeTag>,
    random: &mut Random,
) -> Handle<TypeTag> {
    let place = random.from_to(0, types.len().min(1_000_000) as u32);
    match types.get(place as usize) {
        Some(ty) => *ty,
        None => otherwise,
    }
}

/// Adds a variable.
fn add_variable(
    module: &mut Module,
    space: AddressSpace,
    binding: Option<ResourceBinding>,
    ty: Handle<TypeTag>,
    init: Option<Handle<ExpressionTag>>,
) -> Result<(), OutOfMemory> {
    let variable = GlobalVariable {
        name: None,
        space,
        binding,
        ty,
        init,
        memory_decorations: MemoryDecorations::NONE,
    };
    append(&mut module.global_variables, variable)?;
    Ok(())
}

/// Adds variables of all address spaces that need no capability, of which the resources have bindings.
fn add_variables(
    module: &mut Module,
    types: &Types,
    random: &mut Random,
) -> Result<(), OutOfMemory> {
    let access = StorageAccess {
        load: true,
        store: true,
        atomic: false,
    };
    for index in 0..VARIABLES {
        let bound = Some(ResourceBinding {
            group: index % 8,
            binding: index,
        });
        let laid = match types.laid.first() {
            Some(first) => any_of(types.laid.as_slice(), first, random).ty,
            None => types.float,
        };
        let storage = AddressSpace::Storage { access };
        match random.below(8) {
            0 => add_variable(module, AddressSpace::Uniform, bound, types.material, None)?,
            1 => add_variable(module, AddressSpace::Uniform, bound, types.matrix, None)?,
            2 => add_variable(module, storage, bound, laid, None)?,
            3 => add_variable(module, storage, bound, types.vectors, None)?,
            4 => add_variable(module, AddressSpace::Handle, bound, types.image, None)?,
            5 => add_variable(module, AddressSpace::Handle, bound, types.sampler, None)?,
            6 => add_variable(module, AddressSpace::WorkGroup, None, laid, None)?,
            _ => {
                let number = Expression::Literal(Literal::U32(index));
                let init = append(&mut module.global_expressions, number)?;
                add_variable(module, AddressSpace::Private, None, types.uint, Some(init))?;
            }
        }
    }
    Ok(())
}

/// Adds an argument.
fn add_argument(
    function: &mut Function,
    ty: Handle<TypeTag>,
    binding: Option<Binding>,
) -> Result<(), OutOfMemory> {
    function.arguments.push(FunctionArgument {
        name: None,
        ty,
        binding,
    })
}

/// Adds local variables, of which each fourth has an initialiser.
fn add_local_variables(
    function: &mut Function,
    types: &Types,
    count: u32,
) -> Result<(), OutOfMemory> {
    for index in 0..count {
        let mut ty = types.vector4;
        let mut init = None;
        if index % 4 == 0 {
            ty = types.uint;
            let number = Expression::Literal(Literal::U32(index));
            init = Some(append(&mut function.expressions, number)?);
        }
        let name = None;
        append(
            &mut function.local_variables,
            LocalVariable { name, ty, init },
        )?;
    }
    Ok(())
}

/// Adds functions with arguments, a result and local variables.
fn add_functions(
    alloc: Global,
    module: &mut Module,
    types: &Types,
    random: &mut Random,
) -> Result<(), OutOfMemory> {
    for _ in 0..FUNCTIONS {
        let mut function = Function::new(alloc);
        for _ in 0..random.below(8) {
            add_argument(&mut function, types.vector4, None)?;
        }
        function.result = Some(FunctionResult {
            ty: types.matrix,
            binding: None,
        });
        add_local_variables(&mut function, types, random.below(16))?;
        append(&mut module.functions, function)?;
    }
    Ok(())
}

/// Adds an argument for each of the vectors that an entry point takes.
fn add_vectors(
    function: &mut Function,
    vector: Handle<TypeTag>,
    interpolation: Option<Interpolation>,
) -> Result<(), OutOfMemory> {
    for location in 0..VECTORS {
        let binding = at_location(location, interpolation);
        add_argument(function, vector, Some(binding))?;
    }
    Ok(())
}

/// A vertex shader.
fn vertex_function(
    alloc: Global,
    types: &ShaderTypes,
    random: &mut Random,
) -> Result<Function, OutOfMemory> {
    let mut function = Function::new(alloc);
    let index = Binding::BuiltIn(BuiltIn::VertexIndex);
    add_argument(&mut function, types.common.uint, Some(index))?;
    add_vectors(&mut function, types.common.vector4, None)?;
    function.result = Some(FunctionResult {
        ty: any_type(types.outputs.as_slice(), types.common.vector4, random),
        binding: None,
    });
    Ok(function)
}

/// A fragment shader.
fn fragment_function(
    alloc: Global,
    types: &ShaderTypes,
    random: &mut Random,
) -> Result<Function, OutOfMemory> {
    let mut function = Function::new(alloc);
    let facing = Binding::BuiltIn(BuiltIn::FrontFacing);
    add_argument(&mut function, types.common.bool, Some(facing))?;
    let interpolation = Some(Interpolation::Perspective);
    add_vectors(&mut function, types.common.vector4, interpolation)?;
    function.result = Some(FunctionResult {
        ty: any_type(types.targets.as_slice(), types.common.vector4, random),
        binding: None,
    });
    Ok(function)
}

/// Adds an entry point, whose name has a number.
fn add_entry_point(
    alloc: Global,
    module: &mut Module,
    number: u32,
    stage: ShaderStage,
    function: Function,
) -> Result<(), OutOfMemory> {
    let name = format!(in alloc; "main{number}")?;
    module.entry_points.push(EntryPoint {
        name: Text::from_string(name),
        stage: Some(stage),
        early_depth_test: None,
        workgroup_size: [0, 0, 0],
        workgroup_size_overrides: None,
        function,
        task_payload: None,
        mesh_info: None,
    })
}

/// Adds entry points of the two stages that take vectors.
fn add_entry_points(
    alloc: Global,
    module: &mut Module,
    types: &ShaderTypes,
    random: &mut Random,
) -> Result<(), OutOfMemory> {
    for number in 0..ENTRY_POINTS {
        let (stage, mut function) = match random.below(2) {
            0 => (ShaderStage::Vertex, vertex_function(alloc, types, random)?),
            _ => (
                ShaderStage::Fragment,
                fragment_function(alloc, types, random)?,
            ),
        };
        add_local_variables(&mut function, &types.common, random.below(16))?;
        add_entry_point(alloc, module, number, stage, function)?;
    }
    Ok(())
}

/// Adds a variable or an entry point that is refused, behind all others.
fn add_fault(
    alloc: Global,
    module: &mut Module,
    types: &Types,
    random: &mut Random,
) -> Result<(), OutOfMemory> {
    let mut function = Function::new(alloc);
    match random.below(4) {
        0 => return add_variable(module, AddressSpace::Uniform, None, types.vector4, None),
        1 => add_argument(&mut function, types.vector4, None)?,
        2 => {
            let location = Some(at_location(3, None));
            add_argument(&mut function, types.uint, location)?;
            add_argument(&mut function, types.uint, location)?;
        }
        // The outputs of a vertex shader lack the position.
        _ => (),
    }
    add_entry_point(alloc, module, u32::MAX, ShaderStage::Vertex, function)
}

/// Validates all that an accepted module declares, and adds the result.
fn validate_declared(
    alloc: Global,
    validator: &Validator<FullTyping>,
    module: &Module,
    info: &mut ModuleInfo,
    totals: &mut Totals,
) -> Result<(), OutOfMemory>
    requires { Accepts full_resolves «module».now (settings_of validator.now false)
        validator.now.infos info.old.lists }
{
    match validator.validate_declarations(module, info, false) {
        Ok(()) => {
            totals.accept();
            Ok(())
        }
        Err(error) => totals.refuse(alloc, &error),
    }
}

/// Validates a module with what it declares, and adds the result.
fn validate(
    alloc: Global,
    validator: &mut Validator<FullTyping>,
    module: &Module,
    totals: &mut Totals,
) -> Result<(), OutOfMemory> {
    match validator.validate(module) {
        Ok(mut info) => validate_declared(alloc, validator, module, &mut info, totals),
        Err(error) => totals.refuse(alloc, &error),
    }
}

/// Makes a module that declares much, with a fault at its end if one is wanted.
fn make(
    alloc: Global,
    module: &mut Module,
    is_faulty: bool,
    random: &mut Random,
) -> Result<(), OutOfMemory> {
    let types = add_shader_types(alloc, module, random)?;
    add_variables(module, &types.common, random)?;
    add_functions(alloc, module, &types.common, random)?;
    add_entry_points(alloc, module, &types, random)?;
    if is_faulty {
        add_fault(alloc, module, &types.common, random)?;
    }
    Ok(())
}

/// Validates so many modules that declare much, each as it is and after each of three passes. Each fourth is refused at
/// its end.
pub fn declare_many(
    alloc: Global,
    count: u32,
    random: &mut Random,
    totals: &mut Totals,
) -> Result<(), OutOfMemory> {
    let mut validator = new_validator(alloc);
    for index in 0..count {
        let mut module = Module::new(alloc);
        make(alloc, &mut module, index % 4 == 3, random)?;
        validate(alloc, &mut validator, &module, totals)?;
        for _ in 0..3 {
            change(&mut module, random)?;
            validate(alloc, &mut validator, &module, totals)?;
        }
    }
    Ok(())
}
