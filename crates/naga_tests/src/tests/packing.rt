//! What code that packs buffers does with leaves.

use super::{assert_references_ok, assert_same_for, last_type, with_text};
use naga_ir::ir::Module;
use naga_leaves::cursor::leaves_of;
use std::alloc::Global;
use std::process::Abort;
use std::test::Fail;

/// Puts bytes into a buffer, from a place on.
fn put(rt: &impl Abort, buffer: &mut [u8], first: u64, bytes: &[u8]) {
    let first = usize::try_from(first).expect(rt, "a place in memory");
    for (offset, byte) in bytes.iter().enumerate() {
        let place = first.checked_add(offset).expect(rt, "a place in memory");
        *buffer.get_mut(place).expect(rt, "a place in the buffer") = *byte;
    }
}

/// Puts a number and a vector into a buffer, each where the last type of a module has it.
fn pack(rt: &impl Abort, alloc: Global, module: &Module, buffer: &mut [u8]) -> Result<(), Fail> {
    assert_references_ok(rt, alloc, module);
    let mut leaves = leaves_of(alloc, module, last_type(rt, module), 0);
    for _ in 0..2 {
        let leaf = leaves.next()?.expect(rt, "a leaf");
        match leaves.path() {
            [0] => put(rt, buffer, leaf.first, &7u32.to_le_bytes()),
            _ => put(rt, buffer, leaf.first, &[9; 16]),
        }
    }
    Ok(())
}

#[test]
fn a_number_and_a_vector_are_packed_by_their_leaves(rt: HostRuntime) -> Result<(), Fail> {
    let text = "type scalar uint 4\ntype vector 4 float 4\ntype struct 32 0:0 1:16";
    let mut buffer = [0; 32];
    with_text(&rt, rt.alloc(), text, |module| {
        pack(&rt, rt.alloc(), module, &mut buffer)
    })?;
    let want = [
        7, 0, 0, 0, 0, 0, 0, 0, 0, 0, 0, 0, 0, 0, 0, 0, 9, 9, 9, 9, 9, 9, 9, 9, 9, 9, 9, 9, 9, 9,
        9, 9,
    ];
    assert_same_for(&rt, &text, &buffer, &want);
    Ok(())
}
