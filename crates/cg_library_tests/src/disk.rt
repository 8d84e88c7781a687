use cg_disk::{Disk, ModelDisk, Side};
use std::test::Fail;

#[test]
fn a_crash_leaves_any_bytes_where_nothing_was_synced(rt: HostRuntime) -> Result<(), Fail> {
    let mut disk = ModelDisk::new(rt.alloc());
    assert!(rt; disk.write_at(Side::A, 0, b"safe") == Ok(()));
    assert!(rt; disk.sync() == Ok(()));
    assert!(rt; disk.write_at(Side::A, 2, b"new") == Ok(()));

    // two of the three new places are filled, and the third one, without an old byte, ends the side
    let mut left = disk.image(b"n?")?;
    assert!(rt; left.size(Side::A) == Ok(4));
    let mut bytes = [0; 4];
    assert!(rt; left.read(Side::A, 0, &mut bytes) == Ok(()));
    assert!(rt; bytes.as_slice() == b"san?".as_slice());
    drop(left);
    Ok(())
}
