//! What is read off types where no row shows it, and blocks and modules as they are shown.

use super::{assert_debugged, assert_same};
use naga_ir::handle::Handle;
use naga_ir::ir::Module;
use naga_ir::range::Range;
use naga_ir::statement::{Block, Statement};
use naga_ir::types::{AddressSpace, ArraySize, Scalar, TypeInner, VectorSize};

#[test]
fn types_name_a_scalar_a_base_and_an_override(rt: HostRuntime) {
    let base = Handle::new(2);
    let size = Handle::new(1);
    let array = TypeInner::Array {
        base,
        size: ArraySize::Pending(size),
        stride: 4,
    };
    let space = AddressSpace::Private;
    let pointer = TypeInner::Pointer { base, space };
    let vector = TypeInner::Vector {
        size: VectorSize::Bi,
        scalar: Scalar::F16,
    };
    let atomic = TypeInner::Atomic(Scalar::U32);
    for (inner, scalar, base, size) in [
        (array, None, None, Some(size)),
        (pointer, None, Some(base), None),
        (vector, Some(Scalar::F16), None, None),
        (atomic, None, None, None),
    ] {
        assert_same(&rt, "the scalar", &inner.scalar(), &scalar);
        assert_same(&rt, "the base", &inner.pointer_base_type(), &base);
        assert_same(&rt, "the size", &inner.size_override(), &size);
    }
}

const MODULE: &str =
    "Module { types: [], special_types: SpecialTypes { ray_desc: None, ray_intersection: \
    None, ray_vertex_return: None, others: [] }, constants: Arena { data: \
    [], span_info: [], kind: PhantomData<_> }, overrides: Arena { data: [], span_info: \
    [], kind: PhantomData<_> }, global_variables: Arena { data: [], span_info: [], kind: \
    PhantomData<_> }, global_expressions: Arena { data: [], span_info: [], kind: \
    PhantomData<_> }, functions: Arena { data: [], span_info: [], kind: PhantomData<_> }, \
    entry_points: [], diagnostic_filters: Arena { data: [], span_info: \
    [], kind: PhantomData<_> }, diagnostic_filter_leaf: None, doc_comments: DocComments { \
    module: [], types: [], struct_members: [], \
    entry_points: [], functions: [], constants: \
    [], global_variables: [] } }";

#[test]
fn blocks_and_modules_are_shown_by_their_fields(rt: HostRuntime) {
    assert_debugged(&rt, &Module::new(rt.alloc()), MODULE);
    let mut block = Block::new(rt.alloc());
    let value = Some(Handle::new(2));
    for statement in [
        Statement::Emit(Range::new(2, 3)),
        Statement::Return { value },
    ] {
        block.push(statement).expect(&rt, "memory");
    }
    let expected = "Block { body: [Emit([2..3]), Return { value: Some([2]) }] }";
    assert_debugged(&rt, &block, expected);
}
