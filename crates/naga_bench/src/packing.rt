//! Where the parts of host buffers are: leaves and slots.

ghost use Rattle.naga_ir.specs.Handles.{GlobalReferencesOk};
ghost use Rattle.naga_ir.specs.ItemReferences.{global_lists};
ghost use Rattle.std.specs.Prelude.{◌<◌, length};

use crate::build::append;
use crate::random::{Digest, Places, Random};
use crate::shaders::new_validator;
use crate::totals::Totals;
use crate::types::{Laid, Shape, Types, add_array, add_struct, add_types, any_of};
use naga_valid::{
    AddressSpace, FullTyping, GlobalVariable, Handle, ImmediateSlots, Leaf, MemoryDecorations,
    Module, OutOfMemory, TypeTag, Validator, leaf_at, leaves_of, to_ctx,
};
use std::alloc::{AllocError, Global};

fn add_leaf(digest: &mut Digest, leaf: Leaf) {
    digest.add(leaf.first);
    digest.add(u64::from(leaf.size) << 32 | u64::from(leaf.alignment));
}

/// Goes over all leaves of a type, which has an array of instances.
fn add_leaves(
    alloc: Global,
    module: &Module,
    ty: Handle<TypeTag>,
    digest: &mut Digest,
) -> Result<(), OutOfMemory>
    requires exists { ty < length «module».now.types }
    requires references { GlobalReferencesOk (global_lists «module».now) }
{
    let mut leaves = leaves_of(alloc, module, ty, 0);
    'leaves: for _ in 0..u64::MAX {
        let Some(leaf) = leaves.next()? else { break };
        add_leaf(digest, leaf);
        digest.add_value(&leaves.path());
    }
    Ok(())
}

/// Looks up the leaf of a type at a path.
fn find_leaf(module: &Module, ty: Handle<TypeTag>, path: &[u32], digest: &mut Digest)
    requires exists { ty < length «module».now.types }
    requires references { GlobalReferencesOk (global_lists «module».now) }
{
    match leaf_at(module, ty, path, 0) {
        Some(leaf) => add_leaf(digest, leaf),
        None => digest.add(0),
    }
}

/// Looks up instances, which aren't leaves, then members of instances, then parts of members, each at most once.
fn find_leaves(module: &Module, ty: Handle<TypeTag>, random: &mut Random, digest: &mut Digest)
    requires exists { ty < length «module».now.types }
    requires references { GlobalReferencesOk (global_lists «module».now) }
{
    let places = Places::new(random);
    for index in 0..1000 {
        let instance = places.below(1000, index);
        find_leaf(module, ty, &[1, instance], digest);
    }
    for index in 0..9500 {
        let place = places.below(20_000, index);
        find_leaf(module, ty, &[1, place % 1000, place / 1000], digest);
    }
    for index in 0..9500 {
        let place = places.below(160_000, index);
        let path = [1, place % 1000, place / 1000 % 20, place / 20_000];
        find_leaf(module, ty, &path, digest);
    }
}

/// The slots that a type uses from a byte on.
fn slots_of(module: &Module, ty: Handle<TypeTag>, offset: u32) -> ImmediateSlots
    requires exists { ty < length «module».now.types }
    requires references { GlobalReferencesOk (global_lists «module».now) }
{
    let gctx = to_ctx(module);
    ImmediateSlots::from_type(&module.types[ty].inner, offset, &module.types, gctx)
}

/// The slots of all types of a module, each from eight bytes on, of which no two are equal.
fn add_slots(module: &Module, random: &mut Random, digest: &mut Digest)
    requires { GlobalReferencesOk (global_lists «module».now) }
{
    for index in 0..module.types.len() {
        let first = random.below(25);
        for turn in 0..8 {
            let offset = first + 25 * turn;
            let slots = slots_of(module, Handle::new(index as u32), offset);
            digest.add(slots.to_raw());
        }
    }
}

/// The laid out types of at most 256 bytes.
fn small(alloc: Global, all: &[Laid]) -> Result<Vec<Laid>, AllocError> {
    let mut kept = Vec::new(alloc);
    for laid in all {
        if laid.size <= 256 {
            kept.push(*laid)?;
        }
    }
    Ok(kept)
}

/// Adds an array of instances, and a struct of a header and that array.
fn add_instances(
    alloc: Global,
    module: &mut Module,
    types: &Types,
    first: &Laid,
    random: &mut Random,
) -> Result<(), OutOfMemory> {
    let members = random.from_to(6, 20);
    let parts = small(alloc, types.laid.as_slice())?;
    let instance = add_struct(
        alloc,
        &mut module.types,
        parts.as_slice(),
        first,
        members,
        random,
    )?;
    let laid = add_array(&mut module.types, &instance, random.from_to(100, 1000))?;
    add_struct(alloc, &mut module.types, &[laid], first, 1, random)?;
    Ok(())
}

/// A module with types of a material, and with instances.
fn fill(alloc: Global, module: &mut Module, random: &mut Random) -> Result<(), OutOfMemory> {
    let types = add_types(alloc, module, 40, random)?;
    let first = Laid {
        ty: types.float,
        shape: Shape::Float,
        size: 4,
        alignment: 4,
    };
    let leaf = any_of(types.laid.as_slice(), &first, random);
    let variable = GlobalVariable {
        name: None,
        space: AddressSpace::Immediate,
        binding: None,
        ty: leaf.ty,
        init: None,
        memory_decorations: MemoryDecorations::NONE,
    };
    append(&mut module.global_variables, variable)?;
    add_instances(alloc, module, &types, &first, random)
}

/// Packs one module, if it is accepted.
fn pack_one(
    alloc: Global,
    validator: &mut Validator<FullTyping>,
    random: &mut Random,
    totals: &mut Totals,
) -> Result<(), OutOfMemory> {
    let mut module = Module::new(alloc);
    fill(alloc, &mut module, random)?;
    match validator.validate(&module) {
        Ok(_) => pack(alloc, &module, random, totals),
        Err(error) => totals.refuse(alloc, &error),
    }
}

/// All leaves of the last type, some by their paths, and the slots of all types.
fn pack(
    alloc: Global,
    module: &Module,
    random: &mut Random,
    totals: &mut Totals,
) -> Result<(), OutOfMemory>
    requires { GlobalReferencesOk (global_lists «module».now) }
{
    totals.accept();
    if let Some((ty, _)) = module.types.iter().last()
        && ty.index() < module.types.len()
    {
        add_leaves(alloc, module, ty, &mut totals.digest)?;
        find_leaves(module, ty, random, &mut totals.digest);
    }
    add_slots(module, random, &mut totals.digest);
    Ok(())
}

/// Packs so many modules.
pub fn pack_many(
    alloc: Global,
    count: u32,
    random: &mut Random,
    totals: &mut Totals,
) -> Result<(), OutOfMemory> {
    let mut validator = new_validator(alloc);
    for _ in 0..count {
        pack_one(alloc, &mut validator, random, totals)?;
    }
    Ok(())
}
