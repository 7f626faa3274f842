//! Examples of arenas and their items, and the texts that no clause states.

use super::{assert_debugged, assert_same, assert_shown, text};
use naga_arena::arena::Arena;
use naga_arena::handle::{BadHandle, Handle, Kind};
use naga_arena::list::List;
use naga_arena::memory::OutOfMemory;
use naga_arena::range::{BadRangeError, Range};
use naga_arena::span::{Span, WithSpan};
use naga_arena::tags::{
    ConstantTag, DiagnosticFilterNodeTag, ExpressionTag, FunctionTag, GlobalVariableTag,
    LocalVariableTag, OverrideTag, TypeTag,
};
use naga_arena::text::{StaticText, Text};
use std::process::Abort;

#[test]
fn texts_keep_their_bytes(rt: HostRuntime) {
    let whole = text(&rt, "größe");
    let copy = whole.try_clone().expect(&rt, "memory");
    assert_same(&rt, "the copy", &copy.as_str(), &"größe");
    let empty = Text::new(rt.alloc());
    assert_same(&rt, "the copy", &copy, &whole);
    assert_same(&rt, "another", &(empty == whole), &false);
    assert_same(&rt, "none", &empty.as_str(), &"");
    assert_shown(&rt, &whole, "größe");
    assert_same(&rt, "the string", &whole.into_string().as_str(), &"größe");
    let text = StaticText::new("f16");
    assert_same(&rt, "static", &text.as_str(), &"f16");
    let copy = text.clone().expect(&rt, "memory");
    assert_same(&rt, "the copy", &copy, &text);
    assert_same(&rt, "another", &(StaticText::new("f64") == text), &false);
    assert_shown(&rt, &text, "f16");
    assert_shown(&rt, &OutOfMemory, "Out of memory");
    assert_debugged(&rt, &OutOfMemory, "OutOfMemory");
}

#[test]
fn kinds_have_names(rt: HostRuntime) {
    for (name, expected) in [
        (TypeTag::name(), "Type"),
        (ConstantTag::name(), "Constant"),
        (OverrideTag::name(), "Override"),
        (GlobalVariableTag::name(), "GlobalVariable"),
        (ExpressionTag::name(), "Expression"),
        (LocalVariableTag::name(), "LocalVariable"),
        (FunctionTag::name(), "Function"),
        (DiagnosticFilterNodeTag::name(), "DiagnosticFilterNode"),
    ] {
        assert_same(&rt, "a kind", &name.as_str(), &expected);
    }
}

#[test]
fn errors_take_the_last_known_span(rt: HostRuntime) {
    for (span, is_defined) in [
        (Span::new(0, 0), false),
        (Span::new(0, 1), true),
        (Span::new(5, 5), true),
        (Span::new(5, 0), true),
        (Span::default(), false),
    ] {
        assert_same(&rt, "a span", &span.is_defined(), &is_defined);
    }
    let error = WithSpan::new(7_u8);
    assert_same(&rt, "at first", &error.span(), &None);
    let error = error.with_span(Span::default());
    assert_same(&rt, "of none", &error.span(), &None);
    let error = error.with_span(Span::new(2, 9)).with_span(Span::default());
    let expected = Span { start: 2, end: 9 };
    assert_same(&rt, "of one", &error.span(), &Some(expected));
    assert_same(&rt, "the error", error.as_inner(), &7);
    assert_same(&rt, "the error", &error.into_inner(), &7);
}

/// An arena of these items.
fn arena_of<K>(rt: &(impl AllocGlobal + Abort), items: &[u16]) -> Arena<u16, K> {
    let mut arena = Arena::new(rt.alloc());
    for item in items {
        assert!(rt; arena.len() < 100);
        arena.append(*item, Span::default()).expect(rt, "memory");
    }
    arena
}

#[test]
fn an_arena_gives_back_its_items_in_order(rt: HostRuntime) {
    let mut arena: Arena<u16, TypeTag> = Arena::new(rt.alloc());
    assert!(rt; arena.is_empty());
    let first = arena.append(10, Span::new(1, 2)).expect(&rt, "memory");
    assert!(rt; arena.len() == 1);
    let second = arena.append(20, Span::new(3, 4)).expect(&rt, "memory");
    assert!(rt; arena.len() == 2);
    assert_same(&rt, "two items", &arena.is_empty(), &false);
    assert_same(&rt, "places", &(first.index(), second.index()), &(0, 1));
    assert_debugged(&rt, &second, "[1]");
    assert_same(&rt, "first", arena.get(first), &10);
    assert_same(&rt, "second", &arena[second], &20);
    arena.replace(first, 30);
    assert!(rt; arena.len() == 2);
    assert_same(&rt, "after", &(arena[first], arena[second]), &(30, 20));
    let spans = (arena.get_span(first), arena.get_span(second));
    let expected = (Span { start: 1, end: 2 }, Span { start: 3, end: 4 });
    assert_same(&rt, "the spans", &spans, &expected);
    let range = arena.range_from(1);
    assert_same(&rt, "its ends", &(range.start, range.end), &(1, 2));
    assert_debugged(&rt, &range, "[1..2]");
    let arena: Arena<u16, TypeTag> = arena_of(&rt, &[30, 10, 20]);
    let mut seen = Vec::new(rt.alloc());
    for (handle, item) in arena.iter() {
        seen.push((handle.index(), *item)).expect(&rt, "memory");
    }
    assert_debugged(&rt, &seen, "[(0, 30), (1, 10), (2, 20)]");
}

/// Checks which ranges an arena has.
fn assert_ranges(
    rt: &impl Abort,
    arena: &Arena<u16, ExpressionTag>,
    rows: &[(Range<ExpressionTag>, bool)],
) {
    for (range, expected) in rows {
        let result = arena.check_contains_range(*range);
        assert!(rt; result.is_ok() == *expected, "{range:?}");
    }
}

#[test]
fn handles_and_ranges_past_the_end_are_missing(rt: HostRuntime) {
    let arena: Arena<u16, FunctionTag> = arena_of(&rt, &[10]);
    let result = arena.check_contains_handle(Handle::new(0));
    assert_same(&rt, "the first", &result, &Ok(()));
    let missing = BadHandle {
        kind: StaticText::new("Function"),
        index: 1,
    };
    let expected = "Handle 1 of Function is either not present, or inaccessible yet";
    assert_shown(&rt, &missing, expected);
    let result = arena.check_contains_handle(Handle::new(1));
    assert_same(&rt, "the second", &result, &Err(missing));
    let arena = arena_of(&rt, &[10, 20]);
    assert_ranges(
        &rt,
        &arena,
        &[
            (Range::new(0, 2), true),
            (Range::new(1, 2), true),
            (Range::new(0, 3), false),
            (Range::new(1, 0), false),
            (Range::new(2, 2), true),
            (Range::new(7, 7), true),
            (Range::new(3, 2), false),
        ],
    );
    let error = BadRangeError {
        kind: StaticText::new("Expression"),
        start: 1,
        end: 0,
    };
    let expected = "Handle range [1..0] of Expression is either not present, or inaccessible yet";
    assert_shown(&rt, &error, expected);
    let result = arena.check_contains_range(Range::new(1, 0));
    assert_same(&rt, "a range that goes back", &result, &Err(error));
}

#[test]
fn lists_keep_their_items(rt: HostRuntime) {
    let mut items = Vec::new(rt.alloc());
    items.push(3_u8).expect(&rt, "memory");
    let mut list = List::from_vec(items);
    list.push(5).expect(&rt, "memory");
    assert_debugged(&rt, &list.as_slice(), "[3, 5]");
    assert_same(&rt, "items", &list.len(), &2);
    let copy = list.try_clone().expect(&rt, "memory");
    let empty = List::new(rt.alloc());
    assert_same(&rt, "the copy", &copy, &list);
    assert_same(&rt, "another", &(copy == empty), &false);
    assert_debugged(&rt, &list.into_vec(), "[3, 5]");
}
