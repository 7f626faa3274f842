//! Compositions whose components a caller gives by their types. All other rows are in `compositions.txt` of
//! `naga_query`.

use super::{all_exist, assert_references_ok, assert_same, assert_same_for, with_text};
use naga_ir::handle::Handle;
use naga_ir::ir::Module;
use naga_ir::tags::TypeTag;
use naga_ir::types::{Scalar, TypeInner, VectorSize};
use naga_types::compose::validate_compose;
use naga_types::error::ComposeError;
use naga_typing::context::to_ctx;
use naga_typing::typifier::TypeResolution;
use std::process::Abort;

/// The result of `validate_compose` for a type of a module and components of these types.
fn said_of(
    rt: &(impl AllocGlobal + Abort),
    module: &Module,
    ty: Handle<TypeTag>,
    components: &[TypeResolution],
) -> Result<(), ComposeError> {
    assert!(rt; ty.index() < module.types.len());
    assert_references_ok(rt, rt.alloc(), module);
    assert!(rt; all_exist(components, &module.types));
    validate_compose(ty, to_ctx(module), components)
}

/// The error on so many components of a type that has another number of them.
fn count(given: u32, expected: u32) -> Result<(), ComposeError> {
    Err(ComposeError::ComponentCount { given, expected })
}

/// The result for a type of a module and components that are given by the handles of their types.
fn said_of_handles(
    rt: &(impl AllocGlobal + Abort),
    module: &Module,
    ty: Handle<TypeTag>,
    types: &[u32],
) -> Result<(), ComposeError> {
    let mut components = Vec::new(rt.alloc());
    for index in types {
        assert!(rt; *index < 100);
        let component = TypeResolution::Handle(Handle::new(*index));
        components.push(component).expect(rt, "memory");
    }
    said_of(rt, module, ty, &components)
}

#[test]
fn components_are_given_by_the_handles_of_their_types(rt: HostRuntime) {
    let text =
        "type scalar float 4\ntype scalar sint 4\ntype vector 2 float 4\ntype vector 3 float 4\n\
        type matrix 2 3 float 4";
    let (triple, matrix) = (Handle::new(3), Handle::new(4));
    for (ty, types, want) in &[
        (triple, &[2, 2][..], count(4, 3)),
        (
            triple,
            &[0, 1],
            Err(ComposeError::ComponentType { index: 1 }),
        ),
        (matrix, &[3, 3, 3], count(3, 2)),
    ] {
        let said = with_text(&rt, rt.alloc(), text, |module| {
            said_of_handles(&rt, module, *ty, types)
        });
        assert_same_for(&rt, types, &said, want);
    }
}

#[test]
fn components_are_given_by_their_types(rt: HostRuntime) {
    let text = "type scalar float 4\ntype vector 3 float 4";
    let pair = TypeInner::Vector {
        size: VectorSize::Bi,
        scalar: Scalar::F32,
    };
    let components = [
        TypeResolution::Value(pair),
        TypeResolution::Handle(Handle::new(0)),
    ];
    for (given, want) in [(2, Ok(())), (1, count(2, 3))] {
        let said = with_text(&rt, rt.alloc(), text, |module| {
            said_of(&rt, module, Handle::new(1), &components[..given])
        });
        assert_same(&rt, &said, &want);
    }
}
