//! Layouts of one module after another.

use super::{add_type, assert_references_ok, assert_same, with_module};
use naga_ir::types::{Scalar, ScalarKind, TypeInner};
use naga_typing::context::to_ctx;
use naga_typing::layouter::Layouter;
use std::alloc::Global;
use std::process::Abort;
use std::test::Fail;

/// Lays out one scalar of this width.
fn lay_out_width(
    rt: &impl Abort,
    alloc: Global,
    layouter: &mut Layouter,
    width: u8,
) -> Result<(), Fail> {
    with_module(alloc, |module| {
        let kind = ScalarKind::Uint;
        add_type(rt, module, TypeInner::Scalar(Scalar { kind, width }))?;
        assert_references_ok(rt, alloc, module);
        Ok(layouter.update(to_ctx(module))?)
    })
}

#[test]
fn layouts_are_those_of_the_last_module(rt: HostRuntime) -> Result<(), Fail> {
    let mut layouter = Layouter::new(rt.alloc());
    for width in [8, 4] {
        lay_out_width(&rt, rt.alloc(), &mut layouter, width)?;
    }
    let shown = format!(in rt.alloc(); "{layouter:?}")?;
    assert_same(
        &rt,
        &shown.as_str(),
        &"Layouter { layouts: [TypeLayout { size: 4, alignment: Alignment { bytes: 4 } }] }",
    );
    layouter.clear();
    let shown = format!(in rt.alloc(); "{layouter:?}")?;
    assert_same(&rt, &shown.as_str(), &"Layouter { layouts: [] }");
    Ok(())
}
