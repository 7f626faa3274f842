//! Examples from WGSL's tables and from the rules of the arena of types.

use super::{assert_debugged, assert_same, text};
use naga_arena::handle::Handle;
use naga_arena::list::List;
use naga_arena::range::Range;
use naga_arena::span::Span;
use naga_arena::tags::TypeTag;
use naga_ir::alignment::Alignment;
use naga_ir::types::{
    ABSTRACT_WIDTH, BOOL_WIDTH, Scalar, ScalarKind, StructMember, Type, TypeInner, VectorSize,
};
use naga_ir::unique_arena::UniqueArena;
use std::process::Abort;

const U32: Scalar = Scalar {
    kind: ScalarKind::Uint,
    width: 4,
};

const F32: Scalar = Scalar {
    kind: ScalarKind::Float,
    width: 4,
};

fn unnamed(inner: TypeInner) -> Type {
    Type { name: None, inner }
}

fn named(rt: &(impl AllocGlobal + Abort), name: &str, inner: TypeInner) -> Type {
    let name = Some(text(rt, name));
    Type { name, inner }
}

#[test]
fn scalars_and_vectors_have_the_sizes_in_their_names(rt: HostRuntime) {
    for (scalar, kind, width, is_numeric) in [
        (Scalar::BOOL, ScalarKind::Bool, 1, false),
        (Scalar::I16, ScalarKind::Sint, 2, true),
        (Scalar::U16, ScalarKind::Uint, 2, true),
        (Scalar::I32, ScalarKind::Sint, 4, true),
        (Scalar::U32, ScalarKind::Uint, 4, true),
        (Scalar::I64, ScalarKind::Sint, 8, true),
        (Scalar::U64, ScalarKind::Uint, 8, true),
        (Scalar::F16, ScalarKind::Float, 2, true),
        (Scalar::F32, ScalarKind::Float, 4, true),
        (Scalar::F64, ScalarKind::Float, 8, true),
        (Scalar::ABSTRACT_INT, ScalarKind::AbstractInt, 8, true),
        (Scalar::ABSTRACT_FLOAT, ScalarKind::AbstractFloat, 8, true),
    ] {
        assert_same(&rt, "a scalar", &scalar, &Scalar { kind, width });
        assert_same(&rt, "a kind", &kind.is_numeric(), &is_numeric);
        assert_same(&rt, "a scalar", &scalar.is_numeric(), &is_numeric);
    }
    assert_same(&rt, "the width of a Boolean", &BOOL_WIDTH, &1);
    assert_same(&rt, "of an abstract scalar", &ABSTRACT_WIDTH, &8);
}

#[test]
fn vectors_of_three_are_aligned_as_those_of_four(rt: HostRuntime) {
    for (size, components, aligned) in [
        (VectorSize::Bi, 2, 2),
        (VectorSize::Tri, 3, 4),
        (VectorSize::Quad, 4, 4),
    ] {
        assert_same(&rt, "components", &size.components(), &components);
        assert_same(&rt, "bytes", &Alignment::from(size).get(), &aligned);
    }
}

/// Checks that an alignment of so many bytes is one of as many, or none.
fn assert_alignments(rt: &impl Abort, rows: &[(u32, bool)]) {
    for (bytes, is_one) in rows {
        let got = Alignment::new(*bytes).map(|alignment| alignment.get());
        let expected = if *is_one { Some(*bytes) } else { None };
        assert!(rt; got == expected, "of {bytes}");
    }
}

#[test]
fn alignments_are_powers_of_two(rt: HostRuntime) {
    assert_alignments(
        &rt,
        &[
            (0, false),
            (3, false),
            (6, false),
            (12, false),
            (0xffff_ffff, false),
            (1, true),
            (2, true),
            (16, true),
            (0x8000_0000, true),
        ],
    );
    assert_same(&rt, "a width", &Alignment::from_width(8).get(), &8);
    assert_same(&rt, "one", &Alignment::ONE.get(), &1);
    assert_same(&rt, "of uniforms", &Alignment::MIN_UNIFORM.get(), &16);
}

#[test]
fn offsets_are_rounded_up_to_multiples(rt: HostRuntime) {
    let alignment = Alignment::new(16).expect(&rt, "a power of two");
    for (place, is_aligned, next) in [
        (0, true, 0),
        (1, false, 16),
        (12, false, 16),
        (16, true, 16),
        (17, false, 32),
        (0xffff_ffff, false, 0x1_0000_0000),
    ] {
        assert_same(&rt, "a place", &alignment.is_aligned(place), &is_aligned);
        assert_same(&rt, "the next", &alignment.round_up(place), &next);
    }
}

#[test]
fn alignments_are_ordered_and_shown_by_their_bytes(rt: HostRuntime) {
    assert!(rt; Alignment::ONE < Alignment::MIN_UNIFORM);
    let shown = format!(in rt.alloc(); "{}", Alignment::MIN_UNIFORM).expect(&rt, "memory");
    assert!(rt; shown.as_str() == "16");
}

/// Adds a type, which was there before or else comes last.
fn insert(rt: &impl Abort, types: &mut UniqueArena, ty: Type, span: Span) -> Handle<TypeTag> {
    assert!(rt; types.len() <= 2000);
    types.insert(ty, span).expect(rt, "memory")
}

/// Checks the type of an index, its name and its span.
fn assert_type_at(
    rt: &impl Abort,
    types: &UniqueArena,
    handle: Handle<TypeTag>,
    name: Option<&str>,
    span: Span,
) {
    assert!(rt; handle.index() < types.len());
    let got = types.get(handle).name.as_ref().map(|name| name.as_str());
    assert!(rt; got == name, "{name:?}");
    assert!(rt; types.get_span(handle) == span, "{name:?}");
}

#[test]
fn equal_types_are_inserted_once(rt: HostRuntime) {
    let mut types = UniqueArena::new(rt.alloc());
    assert_same(&rt, "no types", &types.is_empty(), &true);
    let span = Span::new(1, 2);
    let plain = insert(&rt, &mut types, unnamed(TypeInner::Scalar(F32)), span);
    let later = Span::new(5, 9);
    let again = insert(&rt, &mut types, unnamed(TypeInner::Scalar(F32)), later);
    assert_same(&rt, "places", &again, &plain);
    assert_same(&rt, "a type", &(types.len(), types.is_empty()), &(1, false));
    // A type that differs only in its name is another.
    let ty = named(&rt, "Length", TypeInner::Scalar(F32));
    let length = insert(&rt, &mut types, ty, later);
    assert_same(&rt, "types", &types.len(), &2);
    assert_same(&rt, "places", &(plain.index(), length.index()), &(0, 1));
    assert_type_at(&rt, &types, plain, None, span);
    assert_type_at(&rt, &types, length, Some("Length"), later);
    let ty = named(&rt, "Length", TypeInner::Scalar(F32));
    assert_same(&rt, "named", &types.get_handle(&ty), &Some(length));
    let ty = unnamed(TypeInner::Scalar(U32));
    assert_same(&rt, "another", &types.get_handle(&ty), &None);
    let ty = named(&rt, "Direction", TypeInner::Scalar(F32));
    assert_same(&rt, "of another name", &types.get_handle(&ty), &None);
}

#[test]
fn an_arena_of_types_is_read(rt: HostRuntime) {
    let mut types = UniqueArena::new(rt.alloc());
    let sampler = TypeInner::Sampler { comparison: true };
    for inner in [TypeInner::Scalar(U32), sampler, TypeInner::Scalar(U32)] {
        insert(&rt, &mut types, unnamed(inner), Span::new(1, 2));
    }
    let expected = "[Type { name: None, inner: Scalar(Scalar { kind: Uint, width: 4 }) }, \
        Type { name: None, inner: Sampler { comparison: true } }]";
    assert_debugged(&rt, &types, expected);
    assert_debugged(&rt, &types.as_slice(), expected);
    let mut seen = Vec::new(rt.alloc());
    for (handle, _) in types.iter() {
        seen.push(handle.index()).expect(&rt, "memory");
    }
    assert_debugged(&rt, &seen, "[0, 1]");
    assert!(rt; types.len() == 2);
    let range = types.range_from(1);
    assert_same(&rt, "the last", &(range.start, range.end), &(1, 2));
    let result = types.check_contains_range(range);
    assert_same(&rt, "a range", &result.is_ok(), &true);
    let result = types.check_contains_range(Range::new(1, 3));
    assert_same(&rt, "one past the end", &result.is_ok(), &false);
    let result = types.check_contains_handle(Handle::new(1));
    assert_same(&rt, "a handle", &result.is_ok(), &true);
    let result = types.check_contains_handle(Handle::new(2));
    assert_same(&rt, "one past the end", &result.is_ok(), &false);
}

/// Adds thousands of types of different names, and checks the index of each.
fn add_thousands(rt: &(impl AllocGlobal + Abort), types: &mut UniqueArena) {
    for i in 0..2000_u32 {
        let name = format!(in rt.alloc(); "T{i}").expect(rt, "memory");
        let ty = named(rt, name.as_str(), TypeInner::Scalar(U32));
        let handle = insert(rt, types, ty, Span::default());
        assert!(rt; handle.index() == i as usize, "{i}");
    }
    assert!(rt; types.len() == 2000);
}

#[test]
fn thousands_of_types_are_found_by_their_hashes(rt: HostRuntime) {
    let mut types = UniqueArena::new(rt.alloc());
    add_thousands(&rt, &mut types);
    add_thousands(&rt, &mut types);
}

#[test]
fn a_copy_is_equal_and_stays_as_it_was(rt: HostRuntime) {
    let member = StructMember {
        name: Some(text(&rt, "position")),
        ty: Handle::new(0),
        binding: None,
        offset: 16,
    };
    let copy = member.try_clone().expect(&rt, "memory");
    assert_same(&rt, "a member", &copy, &member);
    let mut members = List::new(rt.alloc());
    members.push(member).expect(&rt, "memory");
    let mut ty = unnamed(TypeInner::Struct { members, span: 32 });
    let copy = ty.try_clone().expect(&rt, "memory");
    assert_same(&rt, "the copy", &copy, &ty);
    ty.inner = TypeInner::Scalar(F32);
    assert_same(&rt, "the old copy", &(copy == ty), &false);
    let scalar = ty.inner.try_clone().expect(&rt, "memory");
    assert_same(&rt, "a scalar", &scalar, &TypeInner::Scalar(F32));
    let expected = "Struct { members: [StructMember { name: Some(\"position\"), \
        ty: [0], binding: None, offset: 16 }], span: 32 }";
    assert_debugged(&rt, &copy.inner, expected);
}
