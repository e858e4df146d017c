// Records that are replayed onto a store.
use crate::buffer::Buffer;
use sg_changes::{Change, Damaged, KeptParts, NewDisk};
use sg_pages::Identity;
use sg_plain_map::PlainMap;
use sg_store::Store;
use sg_wire::Extent;
use std::test::*;

#[test]
fn blocks_are_there_again(rt: HostRuntime) -> Result<(), Fail> {
    let disk = NewDisk::new(16, 2, Identity::standard()).ok_or("the disk is allowed")?;
    let mut parts = KeptParts::<PlainMap>::new(rt.alloc(), &disk)?;
    let mut buffer = Buffer::new();
    let extent = Extent { lba: 3, count: 1 };
    Change::Write {
        extent,
        blocks: &[0xAB; 512],
    }
    .write(&mut buffer);
    Change::Grow { capacity: 32 }.write(&mut buffer);
    Change::Anchor {
        extent: Extent { lba: 31, count: 1 },
    }
    .write(&mut buffer);
    assert_eq!(rt; parts.replay(buffer.as_slice()), Ok(()));
    assert_eq!(rt; parts.capacity, 32);
    let mut block = [0; 512];
    parts.store.restart_counts();
    parts.store.read(3, 1, &mut block);
    assert!(rt; block == [0xAB; 512]);
    assert_eq!(rt; parts.store.used(), 2);
    assert_eq!(rt; parts.store.mapped(), 1);
    Ok(())
}

#[test]
fn damage_is_found_at_its_record(rt: HostRuntime) -> Result<(), Fail> {
    let disk = NewDisk::new(16, 2, Identity::standard()).ok_or("the disk is allowed")?;
    let mut parts = KeptParts::<PlainMap>::new(rt.alloc(), &disk)?;
    // 16 addresses, and no more: the second record is past the end.
    let bytes = [
        4, 0, 0, 0, 0, 0, 0, 0, 15, 0, 0, 0, 1, //
        4, 0, 0, 0, 0, 0, 0, 0, 16, 0, 0, 0, 1,
    ];
    assert_eq!(rt; parts.replay(&bytes), Err(Damaged { record: 13 }));
    // A disk does not shrink, a tag has to be known, a record has to be whole.
    assert_eq!(rt;
        parts.replay(&[8, 0, 0, 0, 0, 0, 0, 0, 15]),
        Err(Damaged { record: 0 })
    );
    assert_eq!(rt; parts.replay(&[9]), Err(Damaged { record: 0 }));
    assert_eq!(rt; parts.replay(&[8, 0]), Err(Damaged { record: 0 }));
    // The pool has two blocks.
    let many = [4, 0, 0, 0, 0, 0, 0, 0, 0, 0, 0, 0, 2];
    assert_eq!(rt; parts.replay(&many), Err(Damaged { record: 0 }));
    Ok(())
}
