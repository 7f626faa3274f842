//! Validation of whole modules with their functions: many of the size of real shaders, or a few that are large.

ghost use Rattle.naga_typing.specs.FullTyping.{full_resolves};
ghost use Rattle.naga_valid.specs.Accepted.{Accepts};
ghost use Rattle.naga_valid.specs.State.{settings_of};
ghost use Rattle.std.specs.Prelude.{◌≤◌, false, length};

use crate::build::append;
use crate::functions::add_functions;
use crate::random::{Digest, Random};
use crate::totals::Totals;
use crate::types::add_types;
use crate::values::add_values;
use naga_valid::{
    Callable, Capabilities, Disalignment, Expression, Flags, FullTyping, FunctionInfo, FunctionTag,
    FunctionsError, Handle, ImmediateCompatibility, ImmediateError, LayoutCompatibility, Literal,
    Module, ModuleInfo, OutOfMemory, TypeInfo, TypeResolution, TypeTag, ValidationFlags, Validator,
};
use std::alloc::Global;

/// How large a made module is.
#[derive(Clone, Copy)]
pub struct Size {
    pub types: u32,
    pub constants: u32,
    pub functions: u32,
    /// The expressions of a function, about.
    pub expressions: u32,
}

/// Makes a module whose types, values and functions keep the rules.
pub fn fill(
    alloc: Global,
    module: &mut Module,
    size: Size,
    random: &mut Random,
) -> Result<(), OutOfMemory> {
    let types = add_types(alloc, module, size.types, random)?;
    let variables = add_values(alloc, module, &types, size.constants, random)?;
    let Size {
        functions,
        expressions,
        ..
    } = size;
    add_functions(
        alloc,
        module,
        &types,
        variables,
        functions,
        expressions,
        random,
    )
}

/// A validator under which all of a made module is allowed.
pub fn new_validator(alloc: Global) -> Validator<FullTyping> {
    let flags = ValidationFlags::default();
    Validator::with_typing(alloc, flags, Capabilities::default(), FullTyping)
}

/// Adds why a type has no layout, by its fields and not as text, so that a digest takes little of the time.
fn add_disalignment(digest: &mut Digest, reason: Disalignment) {
    match reason {
        Disalignment::ArrayStride { stride, alignment } => {
            digest.add_value(&[1, stride, alignment.get()])
        }
        Disalignment::StructSpan { span, alignment } => {
            digest.add_value(&[2, span, alignment.get()])
        }
        Disalignment::MemberOffset {
            index,
            offset,
            alignment,
        } => digest.add_value(&[3, index, offset, alignment.get()]),
        Disalignment::MemberOffsetAfterStruct {
            index,
            offset,
            expected,
        } => digest.add_value(&[4, index, offset, expected]),
        Disalignment::UnsizedMember { index } => digest.add_value(&[5, index]),
        Disalignment::NonHostShareable => digest.add(6),
    }
}

fn add_layout(digest: &mut Digest, layout: LayoutCompatibility) {
    match layout {
        Ok(alignment) => digest.add_value(&[0, alignment.get()]),
        Err((ty, reason)) => {
            digest.add_value(&[1, ty.index() as u32]);
            add_disalignment(digest, reason);
        }
    }
}

fn add_immediates(digest: &mut Digest, compatibility: ImmediateCompatibility) {
    match compatibility {
        Ok(()) => digest.add(0),
        Err(ImmediateError::InvalidScalar(scalar)) => digest.add_value(&scalar),
    }
}

fn add_type_info(digest: &mut Digest, info: TypeInfo) {
    digest.add(u64::from(info.flags.bits()));
    add_layout(digest, info.uniform_layout);
    add_layout(digest, info.storage_layout);
    add_immediates(digest, info.immediates_compatibility);
}

/// Adds what the validator knows of all types of the module that it validated last: of none if that was refused.
fn add_type_infos(digest: &mut Digest, validator: &Validator<FullTyping>) {
    for index in 0..validator.type_count().min(1_000_000_000) {
        add_type_info(digest, validator.type_info(Handle::new(index as u32)));
    }
}

fn add_resolution(digest: &mut Digest, resolution: &TypeResolution) {
    match resolution {
        TypeResolution::Handle(ty) => digest.add_value(&[0, ty.index() as u32]),
        TypeResolution::Value(inner) => {
            digest.add(1);
            digest.add_value(inner);
        }
    }
}

fn add_function_info(digest: &mut Digest, info: &FunctionInfo) {
    digest.add(u64::from(info.available_stages.bits()));
    for resolution in info.types.as_slice() {
        add_resolution(digest, resolution);
    }
}

/// Adds what is known of the first `count` functions.
fn add_function_infos(digest: &mut Digest, count: usize, info: &ModuleInfo)
    requires { count ≤ length info.now.lists.functions }
{
    for index in 0..count.min(1_000_000_000) {
        let handle: Handle<FunctionTag> = Handle::new(index as u32);
        add_function_info(digest, &info[handle]);
    }
}

/// Adds what is known of the types and the global expressions of an accepted module of `types` types.
fn add_module_info(digest: &mut Digest, types: usize, info: &ModuleInfo)
    requires { types ≤ length info.now.lists.type_flags }
{
    for index in 0..types.min(1_000_000_000) {
        let handle: Handle<TypeTag> = Handle::new(index as u32);
        digest.add(u64::from(info[handle].bits()));
    }
    for resolution in info.const_expression_types() {
        add_resolution(digest, resolution);
    }
}

/// Validates all functions of an accepted module, and adds what is known of those that are accepted.
fn validate_functions(
    validator: &Validator<FullTyping>,
    module: &Module,
    info: &mut ModuleInfo,
    digest: &mut Digest,
) -> Result<(), FunctionsError>
    requires { Accepts full_resolves «module».now (settings_of validator.now false)
        validator.now.infos info.old.lists }
{
    let validated = validator.validate_functions(module, info, false);
    let count = match &validated {
        Err(
            FunctionsError {
                at: Callable::Function(refused),
                ..
            },
        ) => refused.index(),
        _ => module.functions.len(),
    };
    add_function_infos(digest, count, info);
    validated
}

/// Validates a module with its functions, and adds all that is learnt.
pub fn validate(
    alloc: Global,
    validator: &mut Validator<FullTyping>,
    module: &Module,
    totals: &mut Totals,
) -> Result<(), OutOfMemory> {
    let result = validator.validate(module);
    add_type_infos(&mut totals.digest, validator);
    match result {
        Ok(mut info) => {
            add_module_info(&mut totals.digest, module.types.len(), &info);
            match validate_functions(validator, module, &mut info, &mut totals.digest) {
                Ok(()) => totals.accept(),
                Err(error) => totals.refuse(alloc, &error)?,
            }
        }
        Err(error) => totals.refuse(alloc, &error)?,
    }
    Ok(())
}

/// Adds a literal to the global expressions, as a pass over a module may do.
pub fn change(module: &mut Module, random: &mut Random) -> Result<(), OutOfMemory> {
    let literal = Literal::U32(random.below(1_000_000));
    append(&mut module.global_expressions, Expression::Literal(literal))?;
    Ok(())
}

/// Makes one module, and validates it as it is and after each of three passes: making it takes less time so than
/// validating it.
fn validate_one(
    alloc: Global,
    validator: &mut Validator<FullTyping>,
    size: Size,
    random: &mut Random,
    totals: &mut Totals,
) -> Result<(), OutOfMemory> {
    let mut module = Module::new(alloc);
    fill(alloc, &mut module, size, random)?;
    validate(alloc, validator, &module, totals)?;
    for _ in 0..3 {
        change(&mut module, random)?;
        validate(alloc, validator, &module, totals)?;
    }
    Ok(())
}

/// Validates so many modules of the sizes of real shaders, each eighth by a validator of its own.
pub fn validate_many(
    alloc: Global,
    count: u32,
    random: &mut Random,
    totals: &mut Totals,
) -> Result<(), OutOfMemory> {
    let mut validator = new_validator(alloc);
    for _ in 0..count {
        if random.below(8) == 0 {
            validator = new_validator(alloc);
        }
        let size = Size {
            types: random.from_to(8, 130),
            constants: random.from_to(10, 80),
            functions: random.from_to(3, 30),
            expressions: random.from_to(40, 220),
        };
        validate_one(alloc, &mut validator, size, random, totals)?;
    }
    Ok(())
}

/// Validates so many large modules, each of 20,000 types and as many constants, and of five functions of
/// 100,000 expressions, about.
pub fn validate_large(
    alloc: Global,
    count: u32,
    random: &mut Random,
    totals: &mut Totals,
) -> Result<(), OutOfMemory> {
    let mut validator = new_validator(alloc);
    let size = Size {
        types: 20_000,
        constants: 20_000,
        functions: 5,
        expressions: 100_000,
    };
    for _ in 0..count {
        validate_one(alloc, &mut validator, size, random, totals)?;
    }
    Ok(())
}
