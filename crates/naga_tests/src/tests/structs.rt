//! The rule of structs whose members have names or are built in, as no text describes them.

use super::{add_type, assert_same, result_of_last, with_module};
use bitflags::Flags;
use naga_flags::flags::Capabilities;
use naga_ir::built_in::BuiltIn;
use naga_ir::handle::Handle;
use naga_ir::ir::Module;
use naga_ir::list::List;
use naga_ir::memory::OutOfMemory;
use naga_ir::tags::TypeTag;
use naga_ir::text::Text;
use naga_ir::types::{ArraySize, Binding, Scalar, StructMember, TypeInner};
use naga_types::error::TypeError;
use naga_types::info::TypeInfo;
use std::alloc::Global;
use std::process::Abort;
use std::test::Fail;

/// A member without a name.
pub(super) fn member(ty: Handle<TypeTag>, offset: u32, binding: Option<Binding>) -> StructMember {
    StructMember {
        name: None,
        ty,
        binding,
        offset,
    }
}

/// A source of blending at location 0.
fn source(blend_src: u32) -> Option<Binding> {
    Some(Binding::Location {
        location: 0,
        interpolation: None,
        sampling: None,
        blend_src: Some(blend_src),
        per_primitive: false,
    })
}

/// Adds an integer, an array without a length, and a struct that begins with the array. That member
/// has this name.
fn add_lights(
    rt: &impl Abort,
    alloc: Global,
    module: &mut Module,
    name: Option<&str>,
) -> Result<Handle<TypeTag>, OutOfMemory> {
    let word = add_type(rt, module, TypeInner::Scalar(Scalar::U32))?;
    let array = TypeInner::Array {
        base: word,
        size: ArraySize::Dynamic,
        stride: 4,
    };
    let array = add_type(rt, module, array)?;
    let name = match name {
        Some(name) => Some(Text::from_string(String::from_str(alloc, name)?)),
        None => None,
    };
    let mut members = List::new(alloc);
    members.push(StructMember {
        name,
        ..member(array, 0, None)
    })?;
    members.push(member(word, 4, None))?;
    add_type(rt, module, TypeInner::Struct { members, span: 8 })?;
    Ok(array)
}

/// The result for a struct that begins with an array without a length, of this name.
fn validated_lights(
    rt: &impl Abort,
    alloc: Global,
    name: Option<&str>,
) -> Result<Result<TypeInfo, TypeError>, OutOfMemory> {
    with_module(alloc, |module| {
        add_lights(rt, alloc, module, name)?;
        result_of_last(rt, alloc, Capabilities::default(), module)
    })
}

#[test]
fn structs_that_no_text_describes_are_validated(rt: HostRuntime) -> Result<(), Fail> {
    for (name, want) in [(Some(""), ""), (Some("lights"), "lights")] {
        let result = validated_lights(&rt, rt.alloc(), name)?;
        let want = Text::from_string(String::from_str(rt.alloc(), want)?);
        let refused = TypeError::InvalidDynamicArray(want, Handle::new(1));
        assert_same(&rt, &result, &Err(refused));
    }
    // A built-in value may stand among sources of blending.
    let info = with_module(rt.alloc(), |module| {
        let word = add_type(&rt, module, TypeInner::Scalar(Scalar::U32))?;
        let mut members = List::new(rt.alloc());
        members.push(member(word, 0, source(0)))?;
        members.push(member(word, 4, source(1)))?;
        members.push(member(word, 8, Some(Binding::BuiltIn(BuiltIn::FragDepth))))?;
        add_type(&rt, module, TypeInner::Struct { members, span: 12 })?;
        result_of_last(&rt, rt.alloc(), Capabilities::DUAL_SOURCE_BLENDING, module)
    })?;
    assert_same(&rt, &info?.flags.bits(), &0xff);
    Ok(())
}
