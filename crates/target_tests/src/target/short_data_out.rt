// Less data-out than a command needs. A disk that takes too little data-out goes over the blocks that
// data-out has in full (our choice), and any other disk refuses the command. The CDBs and the sense data
// are of SBC-3, 5, SBC-4 (WRITE ATOMIC) and SPC-4, 4.5.3.
use super::*;
use sg_wire::Profile;

/// A command of initiator 0, and its answer: the CDB, data-out, sense data unless the status is GOOD,
/// data-in, and the number of bytes of data-out that the CDB asks for.
type Row = (
    &'static [u8],
    &'static [u8],
    Option<[u8; 18]>,
    &'static [u8],
    u64,
);

const A: [u8; 512] = [0xA1; 512];

const ONES: [u8; 512] = [0x0C; 512];

const TOO_FEW: [u8; 200] = [0xB2; 200];

const ALMOST_TWO: [u8; 1_023] = [0xC3; 1_023];

const ZERO: [u8; 512] = [0; 512];

/// ILLEGAL REQUEST, INVALID FIELD IN COMMAND INFORMATION UNIT.
const TOO_SHORT: Option<[u8; 18]> = Some([
    0x70, 0, 5, 0, 0, 0, 0, 0x0A, 0, 0, 0, 0, 0x0E, 0x03, 0, 0, 0, 0,
]);

/// ILLEGAL REQUEST, LOGICAL BLOCK ADDRESS OUT OF RANGE, for the address just past the last block.
const PAST_END: Option<[u8; 18]> = Some([
    0xF0, 0, 5, 0, 0, 0x10, 0, 0x0A, 0, 0, 0, 0, 0x21, 0x00, 0, 0, 0, 0,
]);

/// MISCOMPARE DURING VERIFY OPERATION, for the first byte.
const DIFFERS: Option<[u8; 18]> = Some([
    0xF0, 0, 0x0E, 0, 0, 0, 0, 0x0A, 0, 0, 0, 0, 0x1D, 0x00, 0, 0, 0, 0,
]);

/// ILLEGAL REQUEST, INVALID FIELD IN CDB, at NUMBER OF LOGICAL BLOCKS of COMPARE AND WRITE.
const BAD_NUMBER: Option<[u8; 18]> = Some([
    0x70, 0, 5, 0, 0, 0, 0, 0x0A, 0, 0, 0, 0, 0x24, 0x00, 0, 0xC0, 0, 13,
]);

/// Each command that names two blocks has one block of data-out or less.
const TAKEN: [Row; 26] = [
    // WRITE (10), (6), (12) and (16), and READ (10) of its first block and of the second.
    (&[0x2A, 0, 0, 0, 0, 3, 0, 0, 2, 0], &A, None, &[], 1_024),
    (&[0x28, 0, 0, 0, 0, 3, 0, 0, 1, 0], &[], None, &A, 0),
    (&[0x28, 0, 0, 0, 0, 4, 0, 0, 1, 0], &[], None, &ZERO, 0),
    (
        &[0x2A, 0, 0, 0, 0, 3, 0, 0, 2, 0],
        &TOO_FEW,
        None,
        &[],
        1_024,
    ),
    (&[0x2A, 0, 0, 0, 0, 3, 0, 0, 2, 0], &[], None, &[], 1_024),
    (&[0x28, 0, 0, 0, 0, 3, 0, 0, 1, 0], &[], None, &A, 0),
    (&[0x0A, 0, 0, 5, 2, 0], &ALMOST_TWO, None, &[], 1_024),
    (&[0x28, 0, 0, 0, 0, 6, 0, 0, 1, 0], &[], None, &ZERO, 0),
    (
        &[0xAA, 0, 0, 0, 0, 5, 0, 0, 0, 2, 0, 0],
        &A,
        None,
        &[],
        1_024,
    ),
    (&[0x28, 0, 0, 0, 0, 5, 0, 0, 1, 0], &[], None, &A, 0),
    (
        &[0x8A, 0, 0, 0, 0, 0, 0, 0, 0, 5, 0, 0, 0, 2, 0, 0],
        &ALMOST_TWO,
        None,
        &[],
        1_024,
    ),
    (&[0x28, 0, 0, 0, 0, 6, 0, 0, 1, 0], &[], None, &ZERO, 0),
    // The second block is past the last one, so the first is not written either.
    (
        &[0x2A, 0, 0, 0, 0x0F, 0xFF, 0, 0, 2, 0],
        &A,
        PAST_END,
        &[],
        1_024,
    ),
    (
        &[0x28, 0, 0, 0, 0x0F, 0xFF, 0, 0, 1, 0],
        &[],
        None,
        &ZERO,
        0,
    ),
    // WRITE AND VERIFY, and VERIFY, with BYTCHK 01b. The second block is not compared.
    (&[0x2E, 2, 0, 0, 0, 7, 0, 0, 2, 0], &A, None, &[], 1_024),
    (&[0x2F, 2, 0, 0, 0, 7, 0, 0, 2, 0], &A, None, &[], 1_024),
    (
        &[0x2F, 2, 0, 0, 0, 7, 0, 0, 2, 0],
        &TOO_FEW,
        None,
        &[],
        1_024,
    ),
    (
        &[0x2F, 2, 0, 0, 0, 7, 0, 0, 2, 0],
        &ONES,
        DIFFERS,
        &[],
        1_024,
    ),
    (
        &[0x2F, 2, 0, 0, 0x0F, 0xFF, 0, 0, 2, 0],
        &ZERO,
        PAST_END,
        &[],
        1_024,
    ),
    // ORWRITE sets bits of the first block.
    (
        &[0x8B, 0, 0, 0, 0, 0, 0, 0, 0, 7, 0, 0, 0, 2, 0, 0],
        &ONES,
        None,
        &[],
        1_024,
    ),
    (
        &[0x28, 0, 0, 0, 0, 7, 0, 0, 1, 0],
        &[],
        None,
        &[0xAD; 512],
        0,
    ),
    (&[0x28, 0, 0, 0, 0, 8, 0, 0, 1, 0], &[], None, &ZERO, 0),
    // WRITE ATOMIC, VERIFY with BYTCHK 11b, COMPARE AND WRITE and EXTENDED COPY are refused.
    (
        &[0x9C, 0, 0, 0, 0, 0, 0, 0, 0, 3, 0, 0, 0, 2, 0, 0],
        &ONES,
        TOO_SHORT,
        &[],
        1_024,
    ),
    (
        &[0x2F, 6, 0, 0, 0, 7, 0, 0, 2, 0],
        &TOO_FEW,
        TOO_SHORT,
        &[],
        512,
    ),
    (
        &[0x89, 0, 0, 0, 0, 0, 0, 0, 0, 3, 0, 0, 0, 1, 0, 0],
        &A,
        BAD_NUMBER,
        &[],
        1_024,
    ),
    (
        &[0x83, 0, 0, 0, 0, 0, 0, 0, 0, 0, 0, 0, 0, 16, 0, 0],
        &[0; 15],
        TOO_SHORT,
        &[],
        16,
    ),
];

/// A disk without the option refuses each of them.
const REFUSED: [Row; 5] = [
    (
        &[0x2A, 0, 0, 0, 0, 3, 0, 0, 2, 0],
        &A,
        TOO_SHORT,
        &[],
        1_024,
    ),
    (
        &[0x2A, 0, 0, 0, 0x0F, 0xFF, 0, 0, 2, 0],
        &A,
        TOO_SHORT,
        &[],
        1_024,
    ),
    (
        &[0x2F, 2, 0, 0, 0, 3, 0, 0, 2, 0],
        &ZERO,
        TOO_SHORT,
        &[],
        1_024,
    ),
    (
        &[0x8B, 0, 0, 0, 0, 0, 0, 0, 0, 7, 0, 0, 0, 2, 0, 0],
        &ONES,
        TOO_SHORT,
        &[],
        1_024,
    ),
    (&[0x28, 0, 0, 0, 0, 3, 0, 0, 1, 0], &[], None, &ZERO, 0),
];

/// The same in the base profile: ABORTED COMMAND, DATA PHASE ERROR.
const REFUSED_BY_BASE: [Row; 1] = [(
    &[0x2A, 0, 0, 0, 0, 3, 0, 0, 2, 0],
    &A,
    Some([
        0x70, 0, 0x0B, 0, 0, 0, 0, 0x0A, 0, 0, 0, 0, 0x4B, 0x00, 0, 0, 0, 0,
    ]),
    &[],
    1_024,
)];

const TAKEN_BY_BASE: [Row; 2] = [
    (&[0x2A, 0, 0, 0, 0, 3, 0, 0, 2, 0], &A, None, &[], 1_024),
    (&[0x28, 0, 0, 0, 0, 3, 0, 0, 1, 0], &[], None, &A, 0),
];

impl Disk {
    /// Whether a command is answered as a row says.
    fn answers(&mut self, row: &Row) -> Result<bool, Fail> {
        let (cdb, data_out, sense, data_in, asked) = row;
        let reply = self.execute(0, cdb, data_out)?;
        let ends_so = match sense {
            Some(sense) => {
                reply.status == Status::CheckCondition && reply.sense.as_slice() == sense.as_slice()
            }
            None => reply.status == Status::Good,
        };
        let returns = reply.data_in == data_in.len() && self.buf.starts_with(data_in);
        Ok(ends_so && returns && reply.data_out == *asked)
    }
}

/// The number of the first rows that a new disk answers as they say.
fn count_answered(alloc: Global, identity: Identity, rows: &[Row]) -> Result<usize, Fail> {
    let mut disk = Disk::of(alloc, identity)?;
    disk.execute(0, READY, &[])?;
    let mut count: usize = 0;
    for row in rows {
        if !disk.answers(row)? {
            return Ok(count);
        }
        count = count.saturating_add(1);
    }
    Ok(count)
}

#[test]
fn too_little_data_out_is_taken_only_by_a_disk_that_takes_it(rt: HostRuntime) -> Result<(), Fail> {
    let base = Identity::standard();
    let extended = base.with_profile(Profile::Extended);
    let taking = extended.with_short_data_out(true);
    assert_eq!(rt; count_answered(rt.alloc(), taking, &TAKEN)?, TAKEN.len());
    assert_eq!(rt;
        count_answered(rt.alloc(), extended, &REFUSED)?,
        REFUSED.len()
    );
    assert_eq!(rt; count_answered(rt.alloc(), base, &REFUSED_BY_BASE)?, 1);
    let taking = base.with_short_data_out(true);
    assert_eq!(rt; count_answered(rt.alloc(), taking, &TAKEN_BY_BASE)?, 2);
    Ok(())
}
