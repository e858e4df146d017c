// The parameter list of UNMAP as SBC-3, 5.28.2, lays it out.
use sg_wire::{Cut, Extent, UnmapList, UnmapListFault};

// Each field from its first byte to its last.
const WIDE: Extent = Extent {
    lba: 0x0102_0304_0506_0708,
    count: 0x090A_0B0C,
};

const NARROW: Extent = Extent { lba: 3, count: 1 };

/// The list of both: a header, with 38 bytes after its first field, and two descriptors.
const BYTES: [u8; 40] = [
    0x00, 0x26, 0x00, 0x20, 0x00, 0x00, 0x00, 0x00, // header
    0x01, 0x02, 0x03, 0x04, 0x05, 0x06, 0x07, 0x08, 0x09, 0x0A, 0x0B, 0x0C, 0x00, 0x00, 0x00, 0x00,
    0x00, 0x00, 0x00, 0x00, 0x00, 0x00, 0x00, 0x03, 0x00, 0x00, 0x00, 0x01, 0x00, 0x00, 0x00, 0x00,
];

/// Whether the list of both is read from its bytes.
fn are_read() -> bool {
    let Ok(listed) = UnmapList::read(&BYTES) else {
        return false;
    };
    match listed.to_list().as_slice() {
        [wide, narrow] => is_same(wide, &WIDE) && is_same(narrow, &NARROW),
        _ => false,
    }
}

fn is_same(extent: &Extent, other: &Extent) -> bool {
    extent.lba == other.lba && extent.count == other.count
}

#[test]
fn a_list_is_written_and_read(rt: HostRuntime) {
    let mut list = UnmapList::new();
    list.push(WIDE);
    list.push(NARROW);
    let length = list.parameter_list_length();
    let mut buf = [0xEE; 40];
    let mut cut = Cut::new(&mut buf, 40);
    list.write(&mut cut);
    let written = cut.written();
    assert!(rt; length == 40 && written == 40 && buf == BYTES && are_read());
}

/// The number of extents that a list names, by its length and its UNMAP BLOCK DESCRIPTOR DATA
/// LENGTH.
const COUNTS: [(usize, u8, u8, Result<usize, UnmapListFault>); 13] = [
    (0, 0x00, 0x00, Ok(0)),
    (1, 0x00, 0x00, Err(UnmapListFault::Short)),
    (7, 0x00, 0x10, Err(UnmapListFault::Short)),
    (8, 0x00, 0x10, Ok(0)),
    (23, 0x00, 0x10, Ok(0)),
    (24, 0x00, 0x10, Ok(1)),
    (24, 0x00, 0x0F, Ok(0)),
    (40, 0x00, 0x1F, Ok(1)),
    (40, 0xFF, 0xFF, Ok(2)),
    (1032, 0x04, 0x00, Ok(64)),
    (1047, 0xFF, 0xFF, Ok(64)),
    (1048, 0x04, 0x0F, Ok(64)),
    (1048, 0x04, 0x10, Err(UnmapListFault::TooManyDescriptors)),
];

fn count_listed(bytes: &[u8]) -> Result<usize, UnmapListFault> {
    let listed = UnmapList::read(bytes)?;
    Ok(listed.to_list().as_slice().len())
}

#[test]
fn whole_descriptors_are_counted(rt: HostRuntime) {
    for (length, high, low, count) in &COUNTS {
        let mut bytes = [0; 1048];
        bytes[2] = *high;
        bytes[3] = *low;
        let length = bytes.len().min(*length);
        assert!(rt; count_listed(&bytes[..length]) == *count, "{length} bytes");
    }
}
