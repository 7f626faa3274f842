//! Sets of slots by themselves.

use super::assert_same_for;
use naga_immediates::immediates::ImmediateSlots;

#[test]
fn contains(rt: HostRuntime) {
    let required = ImmediateSlots::from_raw(0b1111_0001);
    let first = ImmediateSlots::from_range(0, 4);
    let mut set = first;
    set |= ImmediateSlots::from_range(16, 16);
    for (slots, want) in [
        (ImmediateSlots::default(), false),
        (first, false),
        (set, true),
        (first | ImmediateSlots::from_range(16, 16), true),
    ] {
        assert_same_for(&rt, &slots, &slots.contains(required), &want);
        let rest = required.difference(slots);
        assert_same_for(&rt, &slots, &(rest == ImmediateSlots::default()), &want);
    }
}

#[test]
fn difference(rt: HostRuntime) {
    let required = ImmediateSlots::from_raw(0b1111_0001);
    let rest = required.difference(ImmediateSlots::from_range(0, 4));
    assert_same_for(
        &rt,
        &required,
        &rest,
        &ImmediateSlots::from_raw(0b1111_0000),
    );
    let both = ImmediateSlots::from_range(0, 3) | ImmediateSlots::from_range(3, 2);
    assert_same_for(&rt, &both, &both, &ImmediateSlots::from_range(0, 5));
}
