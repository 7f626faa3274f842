//! Lists of infos.

use super::{aligned, assert_same};
use naga_flags::flags::TypeFlags;
use naga_ir::handle::Handle;
use naga_types::info::{TypeInfo, TypeInfos};
use std::test::Fail;

#[test]
fn infos_are_found_by_handle_and_fill_their_room(rt: HostRuntime) -> Result<(), Fail> {
    let mut infos = TypeInfos::with_room(rt.alloc(), 0)?;
    assert_same(&rt, &infos.is_empty(), &true);
    let word = aligned(&rt, 4);
    for (index, flags) in [
        (0, TypeFlags::DATA),
        (1, TypeFlags::COPY),
        (2, TypeFlags::SIZED),
    ] {
        let handle = Handle::new(index);
        let info = TypeInfo {
            storage_layout: Ok(aligned(&rt, 1)),
            ..TypeInfo::new(flags, word)
        };
        infos.push(info)?;
        assert!(rt; handle.index() < infos.len());
        assert_same(&rt, &infos.get(handle), &info);
    }
    assert_same(&rt, &infos.len(), &3);
    let mut infos = TypeInfos::with_room(rt.alloc(), 2)?;
    infos.push(TypeInfo::new(TypeFlags::DATA, word))?;
    infos.push(TypeInfo::new(TypeFlags::SIZED, word))?;
    assert_same(&rt, &(infos.len(), infos.room()), &(2, 2));
    infos.clear();
    assert_same(&rt, &(infos.len(), infos.room()), &(0, 2));
    Ok(())
}
