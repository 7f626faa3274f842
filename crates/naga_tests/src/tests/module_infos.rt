//! Infos of modules, filled by hand.

ghost use Rattle.std.specs.Prelude.{◌≡◌, length, OnOk};
ghost use Rattle.naga_info.specs.ModuleInfo.{no_lists};

use super::assert_same;
use naga_flags::flags::{ShaderStages, TypeFlags};
use naga_info::module_info::{FunctionInfo, ModuleInfo};
use naga_ir::handle::Handle;
use naga_ir::memory::OutOfMemory;
use naga_ir::tags::{ExpressionTag, FunctionTag, TypeTag};
use naga_ir::types::{Scalar, TypeInner};
use naga_typing::typifier::TypeResolution;
use std::alloc::Global;
use std::process::Abort;
use std::test::Fail;

/// The info of a function of one expression, which these stages may use.
fn function(alloc: Global, stages: ShaderStages) -> Result<FunctionInfo, OutOfMemory> {
    let mut info = FunctionInfo::new(alloc, stages);
    info.push(TypeResolution::Value(TypeInner::Scalar(Scalar::BOOL)))?;
    Ok(info)
}

/// Adds two types, two functions, an entry point and two global expressions to an empty info.
fn fill(alloc: Global, info: &mut ModuleInfo) -> Result<(), OutOfMemory>
    requires { info.old.lists ≡ no_lists }
    ensures types { OnOk result (length info.new.lists.type_flags ≡ 2) }
    ensures functions { OnOk result (length info.new.lists.functions ≡ 2) }
    ensures entry_points { OnOk result (length info.new.lists.entry_points ≡ 1) }
    ensures expressions { OnOk result (length info.new.lists.const_expression_types ≡ 2) }
{
    info.push_type(TypeFlags::DATA)?;
    info.push_type(TypeFlags::COPY)?;
    info.push_function(function(alloc, ShaderStages::VERTEX)?)?;
    info.push_function(function(alloc, ShaderStages::COMPUTE)?)?;
    info.push_entry_point(function(alloc, ShaderStages::FRAGMENT)?)?;
    info.push_expression(TypeResolution::Handle(Handle::new(1)))?;
    info.push_expression(TypeResolution::Value(TypeInner::Scalar(Scalar::F32)))
}

/// Makes sure that the functions of an info are filled so.
fn assert_functions(rt: &impl Abort, info: &ModuleInfo)
    requires functions { length info.now.lists.functions ≡ 2 }
    requires entry_points { length info.now.lists.entry_points ≡ 1 }
{
    let bool = TypeResolution::Value(TypeInner::Scalar(Scalar::BOOL));
    for (info, stages) in [
        (&info[Handle::<FunctionTag>::new(0)], ShaderStages::VERTEX),
        (&info[Handle::<FunctionTag>::new(1)], ShaderStages::COMPUTE),
        (info.get_entry_point(0), ShaderStages::FRAGMENT),
    ] {
        assert_same(rt, &info.available_stages, &stages);
        let types = info.types.as_slice();
        assert!(rt; types.len() == 1);
        assert_same(rt, &types[0], &bool);
    }
}

/// Makes sure that an info is filled so.
fn assert_filled(rt: &impl Abort, info: &ModuleInfo)
    requires types { length info.now.lists.type_flags ≡ 2 }
    requires functions { length info.now.lists.functions ≡ 2 }
    requires entry_points { length info.now.lists.entry_points ≡ 1 }
    requires expressions { length info.now.lists.const_expression_types ≡ 2 }
{
    assert_same(rt, &info[Handle::<TypeTag>::new(0)], &TypeFlags::DATA);
    assert_same(rt, &info[Handle::<TypeTag>::new(1)], &TypeFlags::COPY);
    assert_functions(rt, info);
    let float = TypeResolution::Value(TypeInner::Scalar(Scalar::F32));
    assert_same(rt, &info[Handle::<ExpressionTag>::new(1)], &float);
    let types = info.const_expression_types();
    assert_same(rt, &types.len(), &2);
    assert_same(rt, &types[0], &TypeResolution::Handle(Handle::new(1)));
}

#[test]
fn what_was_added_is_found(rt: HostRuntime) -> Result<(), Fail> {
    let mut info = ModuleInfo::new(rt.alloc());
    fill(rt.alloc(), &mut info)?;
    info.reserve(100, 100)?;
    assert_filled(&rt, &info);
    assert_filled(&rt, &info.try_clone()?);
    Ok(())
}
