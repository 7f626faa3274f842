//! Flags as their tables have them.

use super::{assert_same, assert_same_for};
use bitflags::Flags;
use naga_flags::extension::ImplementedEnableExtension;
use naga_flags::flags::{
    Capabilities, ShaderStages, SubgroupOperationSet, TypeFlags, ValidationFlags,
};
use naga_flags::subgroup::{required_operations, required_operations_of_gather};
use naga_ir::handle::Handle;
use naga_ir::statement::{GatherMode, SubgroupOperation};

#[test]
fn all_flags_and_the_default_ones_are_these(rt: HostRuntime) {
    assert_same(&rt, &Capabilities::flags().len(), &44);
    for (of, got, want) in [
        ("Capabilities", Capabilities::all().bits(), 17592186044415),
        ("by default", Capabilities::default().bits(), 36864),
        (
            "ValidationFlags",
            ValidationFlags::all().bits().into(),
            0x3f,
        ),
        ("by default", ValidationFlags::default().bits().into(), 0x3f),
        ("TypeFlags", TypeFlags::all().bits().into(), 0xff),
        ("ShaderStages", ShaderStages::all().bits().into(), 0x1ff),
        ("of compute", ShaderStages::COMPUTE_LIKE.bits().into(), 0x1c),
        (
            "SubgroupOperationSet",
            SubgroupOperationSet::all().bits().into(),
            0xbf,
        ),
        (
            "by default",
            SubgroupOperationSet::default().bits().into(),
            0,
        ),
    ] {
        assert_same_for(&rt, &of, &got, &want);
    }
    let default = Capabilities::MULTISAMPLED_SHADING | Capabilities::CUBE_ARRAY_TEXTURES;
    assert_same(&rt, &Capabilities::default(), &default);
    let stages = ShaderStages::COMPUTE | ShaderStages::MESH | ShaderStages::TASK;
    assert_same(&rt, &ShaderStages::COMPUTE_LIKE, &stages);
}

#[test]
fn names_stand_for_their_bits(rt: HostRuntime) {
    for (name, bits) in [
        ("IMMEDIATES", 0x1),
        ("FLOAT64", 0x2),
        ("CUBE_ARRAY_TEXTURES", 0x8000),
        ("SHADER_INT64", 0x1_0000),
        ("SHADER_FLOAT16", 0x400_0000),
        ("MESH_SHADER_POINT_TOPOLOGY", 0x8000_0000),
        ("COOPERATIVE_MATRIX", 0x10_0000_0000),
        ("SHADER_INT16", 0x800_0000_0000),
    ] {
        let flag = Capabilities::from_bits_retain(bits);
        assert_same_for(&rt, &name, &Capabilities::from_name(name), &Some(flag));
    }
    assert_same(&rt, &Capabilities::from_name("FLOAT32"), &None);
    let bindings = ValidationFlags::from_bits_retain(0x20);
    assert_same(
        &rt,
        &ValidationFlags::from_name("BINDINGS"),
        &Some(bindings),
    );
    let constructible = TypeFlags::from_bits_retain(0x80);
    assert_same(
        &rt,
        &TypeFlags::from_name("CONSTRUCTIBLE"),
        &Some(constructible),
    );
}

#[test]
fn sets_of_flags_are_joined_and_taken_apart(rt: HostRuntime) {
    let mut flags = TypeFlags::DATA | TypeFlags::SIZED;
    assert_same(&rt, &flags.bits(), &3);
    flags |= TypeFlags::COPY;
    assert_same(&rt, &flags.bits(), &7);
    flags.insert(TypeFlags::ARGUMENT);
    assert_same(&rt, &flags.bits(), &0x47);
    flags.remove(TypeFlags::SIZED | TypeFlags::HOST_SHAREABLE);
    assert_same(&rt, &flags.bits(), &0x45);
    flags.set(TypeFlags::DATA, false);
    flags.set(TypeFlags::CONSTRUCTIBLE, true);
    assert_same(&rt, &flags.bits(), &0xc4);
    assert_same(&rt, &flags.union(TypeFlags::DATA).bits(), &0xc5);
    let flags = ValidationFlags::BLOCKS | ValidationFlags::CONSTANTS;
    let others = ValidationFlags::BLOCKS | ValidationFlags::BINDINGS;
    assert_same(&rt, &flags.contains(ValidationFlags::BLOCKS), &true);
    assert_same(&rt, &flags.contains(ValidationFlags::empty()), &true);
    assert_same(&rt, &flags.contains(others), &false);
    assert_same(&rt, &flags.intersects(others), &true);
    assert_same(&rt, &flags.intersects(ValidationFlags::BINDINGS), &false);
    // Bits that no flag has are kept if `from_bits_retain` makes the set.
    let bits = 1_u64 << 63 | 2;
    assert_same(&rt, &Capabilities::from_bits_retain(bits).bits(), &bits);
    let known = Capabilities::from_bits_truncate(bits);
    assert_same(&rt, &known, &Capabilities::FLOAT64);
    assert_same(&rt, &Capabilities::from_bits(bits), &None);
    assert_same(&rt, &ValidationFlags::from_bits_retain(0xc1).bits(), &0xc1);
}

#[test]
fn single_capabilities_stand_for_extensions(rt: HostRuntime) {
    for (capabilities, extension) in [
        (
            Capabilities::SHADER_FLOAT16,
            Some(ImplementedEnableExtension::F16),
        ),
        (
            Capabilities::STORAGE_TEXTURE_BINDING_ARRAY_NON_UNIFORM_INDEXING,
            Some(ImplementedEnableExtension::WgpuBindingArray),
        ),
        (Capabilities::SHADER_FLOAT16_IN_FLOAT32, None),
        (
            Capabilities::SHADER_FLOAT16 | Capabilities::SHADER_INT16,
            None,
        ),
        (Capabilities::empty(), None),
    ] {
        assert_same_for(&rt, &capabilities, &capabilities.extension(), &extension);
    }
    let standing = Capabilities::flags()
        .iter()
        .filter(|flag| flag.value().extension().is_some());
    assert_same(&rt, &standing.count(), &18);
}

#[test]
fn operations_of_subgroups_are_these(rt: HostRuntime) {
    let handle = Handle::new(0);
    for (got, want) in [
        (
            required_operations(SubgroupOperation::Any),
            SubgroupOperationSet::VOTE,
        ),
        (
            required_operations(SubgroupOperation::Xor),
            SubgroupOperationSet::ARITHMETIC,
        ),
        (
            required_operations_of_gather(GatherMode::BroadcastFirst),
            SubgroupOperationSet::BALLOT,
        ),
        (
            required_operations_of_gather(GatherMode::ShuffleXor(handle)),
            SubgroupOperationSet::SHUFFLE,
        ),
        (
            required_operations_of_gather(GatherMode::ShuffleUp(handle)),
            SubgroupOperationSet::SHUFFLE_RELATIVE,
        ),
        (
            required_operations_of_gather(GatherMode::QuadSwap),
            SubgroupOperationSet::QUAD_FRAGMENT_COMPUTE,
        ),
    ] {
        assert_same(&rt, &got, &want);
    }
}
