// The lengths of blocks that a disk reports: READ CAPACITY(16) (SBC-3, 5.16.2) and page B0h (SBC-3, vital
// product data parameters), with physical blocks of 512 and of 4,096 bytes.
use super::*;
use sg_pages::PhysicalBlock;
use sg_wire::Profile;

const READ_CAPACITY: &[u8] = &[0x9E, 0x10, 0, 0, 0, 0, 0, 0, 0, 0, 0, 0, 0, 32, 0, 0];

const BLOCK_LIMITS: &[u8] = &[0x12, 1, 0xB0, 0, 64, 0];

/// Byte 13 is P_I_EXPONENT and LOGICAL BLOCKS PER PHYSICAL BLOCK EXPONENT. LOWEST ALIGNED LOGICAL BLOCK
/// ADDRESS, in bytes 14 and 15 beside LBPME and LBPRZ, is 0.
fn capacity(exponent: u8) -> [u8; 32] {
    [
        0, 0, 0, 0, 0, 0, 0x0F, 0xFF, 0, 0, 0x02, 0, 0, exponent, 0xC0, 0, 0, 0, 0, 0, 0, 0, 0, 0,
        0, 0, 0, 0, 0, 0, 0, 0,
    ]
}

/// Bytes 6 and 7 are OPTIMAL TRANSFER LENGTH GRANULARITY, and bytes 28 to 31 OPTIMAL UNMAP GRANULARITY:
/// this number of blocks.
fn limits(blocks: u8) -> [u8; 64] {
    [
        0x00, 0xB0, 0x00, 0x3C, 0x01, 0xFF, 0, blocks, 0, 0, 0x08, 0, 0, 0, 0, 0, 0, 0, 0, 0, 0xFF,
        0xFF, 0xFF, 0xFF, 0, 0, 0, 64, 0, 0, 0, blocks, 0, 0, 0, 0, 0, 0, 0, 0, 0, 0, 0xFF, 0xFF,
        0, 0, 0x08, 0, 0, 0, 0, 0, 0, 0, 0, 0, 0, 0, 0, 0, 0, 0, 0, 0,
    ]
}

impl Disk {
    /// Whether READ CAPACITY(16) has this exponent, and page B0h both granularities.
    fn reports(&mut self, exponent: u8, granularity: u8) -> Result<bool, Fail> {
        let reply = self.execute(0, READ_CAPACITY, &[])?;
        let has_exponent = reply.data_in == 32
            && self.buf.starts_with(capacity(exponent).as_slice());
        let reply = self.execute(0, BLOCK_LIMITS, &[])?;
        let has_limits = reply.data_in == 64
            && self.buf.starts_with(limits(granularity).as_slice());
        Ok(has_exponent && has_limits)
    }
}

#[test]
fn the_lengths_of_blocks_are_reported(rt: HostRuntime) -> Result<(), Fail> {
    let extended = Identity::standard().with_profile(Profile::Extended);
    let of_4096 = extended.with_physical_block(PhysicalBlock::Of4096);
    for (identity, exponent, granularity) in [
        (extended, 0, 1),
        (of_4096, 3, 8),
        (of_4096.with_short_data_out(true), 3, 8),
        (of_4096.with_physical_block(PhysicalBlock::Of512), 0, 1),
    ] {
        let mut disk = Disk::of(rt.alloc(), identity)?;
        disk.execute(0, READY, &[])?;
        assert!(rt; disk.reports(exponent, granularity)?);
    }
    Ok(())
}
