// The bytes of records, written out by hand.
use crate::buffer::Buffer;
use sg_changes::{Change, NewDisk};
use sg_faults::Faults;
use sg_pages::{Identity, ModePages};
use sg_units::Reservations;
use sg_wire::{Extent, Profile};
use std::test::*;

#[test]
fn a_range(rt: HostRuntime) {
    let mut buffer = Buffer::new();
    Change::Unmap {
        lba: 0x0102_0304_0506_0708,
        count: 9,
    }
    .write(&mut buffer);
    let bytes = [3, 1, 2, 3, 4, 5, 6, 7, 8, 0, 0, 0, 0, 0, 0, 0, 9];
    assert_eq!(rt; buffer.as_slice(), bytes.as_slice());
}

#[test]
fn an_extent_and_a_capacity(rt: HostRuntime) {
    let mut buffer = Buffer::new();
    let extent = Extent {
        lba: 16,
        count: 258,
    };
    Change::Anchor { extent }.write(&mut buffer);
    Change::Grow { capacity: 4096 }.write(&mut buffer);
    let bytes = [
        4, 0, 0, 0, 0, 0, 0, 0, 16, 0, 0, 1, 2, //
        8, 0, 0, 0, 0, 0, 0, 16, 0,
    ];
    assert_eq!(rt; buffer.as_slice(), bytes.as_slice());
}

#[test]
fn the_state_of_a_new_disk(rt: HostRuntime) {
    let mut buffer = Buffer::new();
    let pages = ModePages::new(Profile::Base);
    Change::Pages(pages.saved()).write(&mut buffer);
    Change::Reservations(&Reservations::new()).write(&mut buffer);
    Change::Faults(&Faults::new()).write(&mut buffer);
    let bytes = [
        5, 0xC0, 8, 0, 0, 0, 0, 8, 0, 0, 0, //
        4, 0, 0, 0, 0, 0, 0, 0, 0, 0, 0, 0, 0, 0, 0, 0, 0, 0, //
        0, 0, 0, 0, 0, 0, 0, 0, 0, 0, //
        8, 0, 0, 0, 0, 0, 0, 0, 0, 0, //
        0, 0, 0, 0, 0, 0, 0, 0, 0, 0, 0, 0, 0, 1, 0, 0, 0, 0, 0, 0, 1, 2, 0, 0, 0, 0, 0, 0, //
        6, 0, //
        7, 0, 0, 0, 0, 0, 0, 0, 0,
    ];
    assert_eq!(rt; buffer.as_slice(), bytes.as_slice());
}

#[test]
fn a_first_record(rt: HostRuntime) -> Result<(), Fail> {
    let disk = NewDisk::new(4096, 4, Identity::standard()).ok_or("the disk is allowed")?;
    let mut buffer = Buffer::new();
    disk.write(&mut buffer);
    let bytes = buffer.as_slice();
    let names = b"SGMODEL THIN DISK       010000000001".as_slice();
    assert_eq!(rt; bytes.len(), NewDisk::RECORD_LENGTH);
    assert_eq!(rt;
        &bytes[..13],
        [9, 0, 0, 0, 0, 0, 0, 16, 0, 0, 0, 0, 4].as_slice()
    );
    assert_eq!(rt; &bytes[13..49], names);
    assert_eq!(rt; &bytes[49..], [0, 0, 0, 0, 0, 0, 0, 1, 0, 0].as_slice());
    let Some((read, rest)) = NewDisk::read(bytes) else {
        panic!(rt; "it is a first record");
    };
    assert_eq!(rt; read.capacity(), 4096);
    assert_eq!(rt; read.pool(), 4);
    assert_eq!(rt; rest.len(), 0);
    Ok(())
}
