// EXTENDED COPY(LID1) on a disk of the extended profile, of 4,096 blocks with a pool of 4. The
// lists, the sense data and the limits are laid out by hand from SPC-4, 6.5, 4.5.3 and 6.23.
use super::*;
use sg_wire::Profile;

/// EXTENDED COPY with a list of 76 bytes.
const COPY: &[u8] = &[0x83, 0, 0, 0, 0, 0, 0, 0, 0, 0, 0, 0, 0, 76, 0, 0];

/// A list that copies no block. Its CSCD descriptor, at byte 16, is for the source and the
/// destination: it names the unit by the NAA designator of the standard identity. The segment
/// descriptor is at byte 48.
#[rattlefmt::skip]
const LIST: [u8; 76] = [
    0, 0, 0, 32, 0, 0, 0, 0, 0, 0, 0, 28, 0, 0, 0, 0, 0xE4, 0, 0, 0, 0x01, 0x03, 0, 0x10, 0x60,
    0x20, 0, 0, 0, 0, 0, 0, 0, 0, 0, 0, 0, 0, 0, 0x01, 0, 0, 0, 0, 0, 0, 2, 0, 0x02, 0, 0, 24, 0, 0,
    0, 0, 0, 0, 0, 0, 0, 0, 0, 0, 0, 0, 0, 0, 0, 0, 0, 0, 0, 0, 0, 0,
];

/// ILLEGAL REQUEST, PARAMETER LIST LENGTH ERROR.
const LIST_LENGTH: [u8; 18] = [
    0x70, 0, 5, 0, 0, 0, 0, 0x0A, 0, 0, 0, 0, 0x1A, 0x00, 0, 0, 0, 0,
];

/// ILLEGAL REQUEST, UNSUPPORTED SEGMENT DESCRIPTOR TYPE CODE, at byte 48 of the list.
const SEGMENT_TYPE: [u8; 18] = [
    0x70, 0, 5, 0, 0, 0, 0, 0x0A, 0, 0, 0, 0, 0x26, 0x09, 0, 0x80, 0, 48,
];

/// COPY ABORTED, with COPY TARGET DEVICE NOT REACHABLE and with INCORRECT COPY TARGET DEVICE TYPE.
const NOT_REACHABLE: [u8; 18] = [
    0x70, 0, 0x0A, 0, 0, 0, 0, 0x0A, 0, 0, 0, 0, 0x0D, 0x02, 0, 0, 0, 0,
];

const DEVICE_TYPE: [u8; 18] = [
    0x70, 0, 0x0A, 0, 0, 0, 0, 0x0A, 0, 0, 0, 0, 0x0D, 0x03, 0, 0, 0, 0,
];

/// COPY ABORTED, NO ADDITIONAL SENSE INFORMATION.
const PAST_END: [u8; 18] = [
    0x70, 0, 0x0A, 0, 0, 0, 0, 0x0A, 0, 0, 0, 0, 0x00, 0x00, 0, 0, 0, 0,
];

/// DATA PROTECT, SPACE ALLOCATION FAILED WRITE PROTECT.
const NO_ROOM: [u8; 18] = [
    0x70, 0, 7, 0, 0, 0, 0, 0x0A, 0, 0, 0, 0, 0x27, 0x07, 0, 0, 0, 0,
];

/// A list that copies blocks.
fn list_of(source: u16, destination: u16, count: u8) -> [u8; 76] {
    let mut list = LIST;
    list[59] = count;
    list[66..68].copy_from_slice(&source.to_be_bytes());
    list[74..76].copy_from_slice(&destination.to_be_bytes());
    list
}

/// A byte for each of the first blocks of a disk.
type FirstBytes = [u8; 6];

impl Disk {
    /// A disk whose first blocks each repeat one of these bytes. A block of zeros is not mapped.
    fn with_blocks(alloc: Global, bytes: FirstBytes) -> Result<Disk, Fail> {
        let identity = Identity::standard().with_profile(Profile::Extended);
        let mut disk = Disk::of(alloc, identity)?;
        disk.execute(0, READY, &[])?;
        for lba in 0..6u8 {
            let byte = bytes[usize::from(lba)];
            if byte != 0 {
                let cdb = [0x2A, 0, 0, 0, 0, lba, 0, 0, 1, 0];
                disk.execute(0, &cdb, &[byte; 512])?;
            }
        }
        Ok(disk)
    }

    /// Whether the first blocks each repeat one of these bytes.
    fn has_blocks(&mut self, bytes: FirstBytes) -> Result<bool, Fail> {
        let mut each = true;
        for lba in 0..6u8 {
            let byte = bytes[usize::from(lba)];
            let cdb = [0x28, 0, 0, 0, 0, lba, 0, 0, 1, 0];
            let reply = self.execute(0, &cdb, &[])?;
            each = each && reply.data_in == 512 && self.buf.starts_with(&[byte; 512]);
        }
        Ok(each)
    }

    /// Whether an EXTENDED COPY ends with GOOD, or with sense data. It always asks for its list.
    fn copies(&mut self, list: &[u8], sense: Option<[u8; 18]>) -> Result<bool, Fail> {
        let reply = self.execute(0, COPY, list)?;
        let ends_so = match sense {
            Some(sense) => {
                reply.status == Status::CheckCondition && reply.sense.as_slice() == sense.as_slice()
            }
            None => reply.status == Status::Good,
        };
        Ok(ends_so && reply.data_in == 0 && reply.data_out == 76)
    }
}

/// A copy: its source, its destination and the number of its blocks.
type Copied = (u16, u16, u8);

/// The bytes of the first blocks before a copy, and after it. Before it, a block of zeros is not
/// mapped.
const COPIES: [(FirstBytes, Copied, FirstBytes); 9] = [
    ([1, 2, 0, 0, 0, 0], (0, 3, 2), [1, 2, 0, 1, 2, 0]),
    ([1, 2, 0, 3, 4, 0], (3, 0, 2), [3, 4, 0, 3, 4, 0]),
    // Blocks overlap, upwards and downwards.
    ([1, 2, 3, 0, 0, 0], (0, 1, 3), [1, 1, 2, 3, 0, 0]),
    ([1, 2, 3, 4, 0, 0], (1, 0, 3), [2, 3, 4, 4, 0, 0]),
    ([1, 2, 0, 0, 0, 0], (0, 1, 3), [1, 1, 2, 0, 0, 0]),
    // Blocks stay where they are, and no block is copied.
    ([1, 2, 3, 0, 0, 0], (0, 0, 3), [1, 2, 3, 0, 0, 0]),
    ([1, 2, 3, 4, 0, 0], (0, 4, 0), [1, 2, 3, 4, 0, 0]),
    // Blocks that are not mapped, and the last block, while the pool is full.
    ([1, 2, 3, 4, 0, 0], (4, 0, 2), [0, 0, 3, 4, 0, 0]),
    ([1, 2, 3, 4, 0, 0], (0xFFF, 1, 1), [1, 0, 3, 4, 0, 0]),
];

#[test]
fn blocks_are_copied(rt: HostRuntime) -> Result<(), Fail> {
    for (before, (source, destination, count), after) in COPIES {
        let mut disk = Disk::with_blocks(rt.alloc(), before)?;
        let list = list_of(source, destination, count);
        let is_copied = disk.copies(&list, None)? && disk.has_blocks(after)?;
        assert!(rt; is_copied, "{count} blocks from {source} to {destination}");
    }
    Ok(())
}

/// GET LBA STATUS, and its descriptor for blocks 0 and 1, which are mapped (SBC-3, 5.4).
const STATUS: &[u8] = &[0x9E, 0x12, 0, 0, 0, 0, 0, 0, 0, 0, 0, 0, 0, 24, 0, 0];

const BOTH_MAPPED: [u8; 16] = [0, 0, 0, 0, 0, 0, 0, 0, 0, 0, 0, 2, 0x00, 0, 0, 0];

#[test]
fn blocks_that_are_not_mapped_are_copied_as_zeros(rt: HostRuntime) -> Result<(), Fail> {
    let mut disk = Disk::with_blocks(rt.alloc(), [0; 6])?;
    assert!(rt; disk.copies(&list_of(4, 0, 2), None)?);
    disk.execute(0, STATUS, &[])?;
    assert!(rt; disk.buf.as_slice().get(8..24) == Some(BOTH_MAPPED.as_slice()));
    assert!(rt; disk.has_blocks([0; 6])?);
    Ok(())
}

/// Copies for which the pool has no room, and copies with a block that the disk does not have.
const REFUSED: [(Copied, [u8; 18]); 8] = [
    ((0, 3, 2), NO_ROOM),
    ((0, 2, 3), NO_ROOM),
    ((4, 3, 2), NO_ROOM),
    ((0xFFF, 1, 2), PAST_END),
    ((0, 0xFFF, 2), PAST_END),
    ((0x1000, 0, 1), PAST_END),
    ((0, 0x1000, 1), PAST_END),
    ((0, 0xFFFF, 255), PAST_END),
];

#[test]
fn a_refused_command_copies_nothing(rt: HostRuntime) -> Result<(), Fail> {
    let blocks = [1, 2, 3, 0, 0, 0];
    let mut disk = Disk::with_blocks(rt.alloc(), blocks)?;
    for ((source, destination, count), sense) in REFUSED {
        let list = list_of(source, destination, count);
        let is_refused = disk.copies(&list, Some(sense))? && disk.has_blocks(blocks)?;
        assert!(rt; is_refused, "{count} blocks from {source} to {destination}");
    }
    Ok(())
}

/// Faults of a list: a byte of the list, its wrong value, and the sense data.
const FAULTS: [(usize, u8, [u8; 18]); 6] = [
    // SEGMENT DESCRIPTOR LIST LENGTH, and DESCRIPTOR TYPE CODE of the segment descriptor.
    (11, 29, LIST_LENGTH),
    (48, 0x0A, SEGMENT_TYPE),
    // Another unit, and no CSCD descriptor of this DESTINATION CSCD DESCRIPTOR ID.
    (39, 2, NOT_REACHABLE),
    (55, 1, NOT_REACHABLE),
    (17, 0x05, DEVICE_TYPE),
    // The first byte of DESTINATION BLOCK DEVICE LOGICAL BLOCK ADDRESS.
    (68, 0x80, PAST_END),
];

#[test]
fn faults_of_a_list_are_refused(rt: HostRuntime) -> Result<(), Fail> {
    let blocks = [1, 0, 0, 0, 0, 0];
    let mut disk = Disk::with_blocks(rt.alloc(), blocks)?;
    for (at, byte, sense) in FAULTS {
        let mut list = list_of(0, 1, 1);
        if let Some(place) = list.get_mut(at) {
            *place = byte;
        }
        let is_refused = disk.copies(&list, Some(sense))? && disk.has_blocks(blocks)?;
        assert!(rt; is_refused, "byte {at}");
    }
    Ok(())
}

/// RECEIVE COPY OPERATING PARAMETERS. There are at most 2 CSCD descriptors, 1 segment descriptor,
/// 1,024 bytes of both, and 1 MiB in a segment.
const PARAMETERS: &[u8] = &[0x84, 0x03, 0, 0, 0, 0, 0, 0, 0, 0, 0, 0, 0, 64, 0, 0];

#[rattlefmt::skip]
const LIMITS: [u8; 46] = [
    0, 0, 0, 0x2A, 0x01, 0, 0, 0, 0, 2, 0, 1, 0, 0, 0x04, 0, 0, 0x10, 0, 0, 0, 0, 0, 0, 0, 0, 0, 0,
    0, 0, 0, 0, 0, 0, 0, 1, 1, 9, 9, 9, 0, 0, 0, 2, 0x02, 0xE4,
];

#[test]
fn the_limits_of_copies_are_reported(rt: HostRuntime) -> Result<(), Fail> {
    let mut disk = Disk::with_blocks(rt.alloc(), [0; 6])?;
    let reply = disk.execute(0, PARAMETERS, &[])?;
    assert_eq!(rt; reply.data_in, 46);
    assert!(rt; disk.buf.starts_with(&LIMITS));
    Ok(())
}
