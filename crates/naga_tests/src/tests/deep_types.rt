//! The slots of structs that are nested very deep.

use super::{assert_references_ok, assert_same_for, last_type};
use naga_immediates::immediates::ImmediateSlots;
use naga_ir::handle::Handle;
use naga_ir::ir::Module;
use naga_ir::list::List;
use naga_ir::memory::OutOfMemory;
use naga_ir::span::Span;
use naga_ir::tags::TypeTag;
use naga_ir::types::{Scalar, StructMember, Type, TypeInner};
use naga_ir::unique_arena::UniqueArena;
use naga_typing::context::to_ctx;
use std::alloc::Global;
use std::process::Abort;

/// The slots that the last type of a module uses.
fn slots_of_last(rt: &impl Abort, alloc: Global, module: &Module) -> ImmediateSlots {
    assert_references_ok(rt, alloc, module);
    let ty = last_type(rt, module);
    let gctx = to_ctx(module);
    ImmediateSlots::from_type(&module.types[ty].inner, 0, &module.types, gctx)
}

/// Adds a type without a name.
fn add_type(rt: &impl Abort, types: &mut UniqueArena, inner: TypeInner) -> Result<(), OutOfMemory> {
    assert!(rt; types.len() < 4294967295);
    types.insert(Type { name: None, inner }, Span::default())?;
    Ok(())
}

/// A struct of two members of a type, both at byte 0.
fn pair_of(alloc: Global, ty: Handle<TypeTag>, span: u32) -> Result<TypeInner, OutOfMemory> {
    let mut members = Vec::new(alloc);
    for _ in 0..2 {
        members.push(StructMember {
            name: None,
            ty,
            binding: None,
            offset: 0,
        })?;
    }
    let members = List::from_vec(members);
    Ok(TypeInner::Struct { members, span })
}

/// Adds one number, and structs nested to a depth, each with the type before it twice.
fn add_nested(
    rt: &impl Abort,
    alloc: Global,
    types: &mut UniqueArena,
    depth: u32,
) -> Result<(), OutOfMemory> {
    add_type(rt, types, TypeInner::Scalar(Scalar::F32))?;
    for level in 0..depth {
        add_type(rt, types, pair_of(alloc, Handle::new(level), level)?)?;
    }
    Ok(())
}

#[test]
fn deep_structs_cost_little(rt: HostRuntime) {
    let mut module = Module::new(rt.alloc());
    add_nested(&rt, rt.alloc(), &mut module.types, 10_000).expect(&rt, "memory");
    let slots = slots_of_last(&rt, rt.alloc(), &module);
    assert_same_for(
        &rt,
        &"10,000 structs",
        &slots,
        &ImmediateSlots::from_raw(0b1),
    );
}
