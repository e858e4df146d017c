// CDBs of VERIFY and COMPARE AND WRITE as SBC-3, 5.29 to 5.31 and 5.2, lay them out.
use crate::command::operation_code;
use crate::extended_command::{
    EXTENT_10, EXTENT_12, EXTENT_16, LARGEST_10, LARGEST_12, LARGEST_16, is_read_and_written, read,
};
use sg_wire::{ByteCheck, CdbFault, Command, CompareAndWrite, Verify10, Verify12, Verify16};

/// VERIFY with each BYTCHK.
const DATA_OUT: Command = Command::Verify10(Verify10 {
    byte_check: ByteCheck::DataOut,
    extent: EXTENT_10,
});

const LARGEST_MEDIUM_ONLY: Command = Command::Verify10(Verify10 {
    byte_check: ByteCheck::Nothing,
    extent: LARGEST_10,
});

const RESERVED: Command = Command::Verify12(Verify12 {
    byte_check: ByteCheck::Reserved,
    extent: EXTENT_12,
});

const LARGEST_DATA_OUT: Command = Command::Verify12(Verify12 {
    byte_check: ByteCheck::DataOut,
    extent: LARGEST_12,
});

const ONE_BLOCK: Command = Command::Verify16(Verify16 {
    byte_check: ByteCheck::OneBlock,
    extent: EXTENT_16,
});

const LARGEST_ONE_BLOCK: Command = Command::Verify16(Verify16 {
    byte_check: ByteCheck::OneBlock,
    extent: LARGEST_16,
});

/// COMPARE AND WRITE of 9 blocks, and with the largest values.
const COMPARE: Command = Command::CompareAndWrite(CompareAndWrite {
    lba: 0x0102_0304_0506_0708,
    count: 9,
});

const LARGEST_COMPARE: Command = Command::CompareAndWrite(CompareAndWrite {
    lba: 0xFFFF_FFFF_FFFF_FFFF,
    count: 0xFF,
});

/// The CDBs of the commands.
const CDBS: [(&[u8], Command); 8] = [
    (&[0x2F, 0x02, 1, 2, 3, 4, 0, 5, 6, 0], DATA_OUT),
    (
        &[0x2F, 0, 0xFF, 0xFF, 0xFF, 0xFF, 0, 0xFF, 0xFF, 0],
        LARGEST_MEDIUM_ONLY,
    ),
    (&[0xAF, 0x04, 1, 2, 3, 4, 5, 6, 7, 8, 0, 0], RESERVED),
    (
        &[
            0xAF, 0x02, 0xFF, 0xFF, 0xFF, 0xFF, 0xFF, 0xFF, 0xFF, 0xFF, 0, 0,
        ],
        LARGEST_DATA_OUT,
    ),
    (
        &[0x8F, 0x06, 1, 2, 3, 4, 5, 6, 7, 8, 9, 10, 11, 12, 0, 0],
        ONE_BLOCK,
    ),
    (
        &[
            0x8F, 0x06, 0xFF, 0xFF, 0xFF, 0xFF, 0xFF, 0xFF, 0xFF, 0xFF, 0xFF, 0xFF, 0xFF, 0xFF, 0,
            0,
        ],
        LARGEST_ONE_BLOCK,
    ),
    (
        &[0x89, 0, 1, 2, 3, 4, 5, 6, 7, 8, 0, 0, 0, 9, 0, 0],
        COMPARE,
    ),
    (
        &[
            0x89, 0, 0xFF, 0xFF, 0xFF, 0xFF, 0xFF, 0xFF, 0xFF, 0xFF, 0, 0, 0, 0xFF, 0, 0,
        ],
        LARGEST_COMPARE,
    ),
];

#[test]
fn verify_and_compare_and_write_are_read_and_written(rt: HostRuntime) {
    for (cdb, command) in &CDBS {
        let code = operation_code(cdb);
        assert!(rt; is_read_and_written(cdb, *command), "operation code {code}");
    }
}

/// CDBs with all their ignored bits: DPO, and the GROUP NUMBER; of COMPARE AND WRITE also FUA and the
/// obsolete bit 1.
const IGNORED: [(&[u8], Command); 4] = [
    (&[0x2F, 0x12, 1, 2, 3, 4, 0x1F, 5, 6, 0], DATA_OUT),
    (&[0xAF, 0x14, 1, 2, 3, 4, 5, 6, 7, 8, 0x1F, 0], RESERVED),
    (
        &[0x8F, 0x16, 1, 2, 3, 4, 5, 6, 7, 8, 9, 10, 11, 12, 0x1F, 0],
        ONE_BLOCK,
    ),
    (
        &[0x89, 0x1A, 1, 2, 3, 4, 5, 6, 7, 8, 0, 0, 0, 9, 0x1F, 0],
        COMPARE,
    ),
];

#[test]
fn ignored_bits_change_no_verify(rt: HostRuntime) {
    for (cdb, command) in &IGNORED {
        let code = operation_code(cdb);
        assert!(rt; read(cdb) == Ok(*command), "operation code {code}");
    }
}

/// CDBs that end early, and CDBs with two faults: the first one is reported.
const FAULTS: [(&[u8], CdbFault); 7] = [
    (&[0x2F, 0, 0, 0, 0, 0, 0, 0, 1], CdbFault::Short(9)),
    (&[0xAF, 0, 0, 0, 0, 0, 0, 0, 0, 1, 0], CdbFault::Short(11)),
    (
        &[0x8F, 0, 0, 0, 0, 0, 0, 0, 0, 0, 0, 0, 0, 1, 0],
        CdbFault::Short(15),
    ),
    (
        &[0x89, 0, 0, 0, 0, 0, 0, 0, 0, 0, 0, 0, 0, 1, 0],
        CdbFault::Short(15),
    ),
    // VRPROTECT and CONTROL, and WRPROTECT and a CDB that ends early.
    (&[0x2F, 0x20, 0, 0, 0, 0, 0, 0, 1, 1], CdbFault::Field(1)),
    (&[0x89, 0x20], CdbFault::Short(2)),
    // A number of blocks with 2 bytes.
    (
        &[0x89, 0, 0, 0, 0, 0, 0, 0, 0, 0, 0, 0, 1, 0, 0, 0],
        CdbFault::Field(12),
    ),
];

#[test]
fn faults_of_verify_and_compare_and_write_are_found(rt: HostRuntime) {
    for (cdb, fault) in &FAULTS {
        let code = operation_code(cdb);
        assert!(rt; read(cdb) == Err(*fault), "operation code {code}");
    }
}

/// The masks of the bits of a byte.
const BITS: [u8; 8] = [0x01, 0x02, 0x04, 0x08, 0x10, 0x20, 0x40, 0x80];

/// An operation code; the bits of each byte after it that a field has or that the disk ignores; and
/// all bits of the bytes after the CDB.
const NAMED: [[u8; 16]; 6] = [
    [
        0x2F, 0x16, 0xFF, 0xFF, 0xFF, 0xFF, 0x1F, 0xFF, 0xFF, 0x00, 0xFF, 0xFF, 0xFF, 0xFF, 0xFF,
        0xFF,
    ],
    [
        0xAF, 0x16, 0xFF, 0xFF, 0xFF, 0xFF, 0xFF, 0xFF, 0xFF, 0xFF, 0x1F, 0x00, 0xFF, 0xFF, 0xFF,
        0xFF,
    ],
    [
        0x8F, 0x16, 0xFF, 0xFF, 0xFF, 0xFF, 0xFF, 0xFF, 0xFF, 0xFF, 0xFF, 0xFF, 0xFF, 0xFF, 0x1F,
        0x00,
    ],
    [
        0x89, 0x1A, 0xFF, 0xFF, 0xFF, 0xFF, 0xFF, 0xFF, 0xFF, 0xFF, 0x00, 0x00, 0x00, 0xFF, 0x1F,
        0x00,
    ],
    [
        0x8B, 0x1A, 0xFF, 0xFF, 0xFF, 0xFF, 0xFF, 0xFF, 0xFF, 0xFF, 0xFF, 0xFF, 0xFF, 0xFF, 0x1F,
        0x00,
    ],
    [
        0x9C, 0x18, 0xFF, 0xFF, 0xFF, 0xFF, 0xFF, 0xFF, 0xFF, 0xFF, 0xFF, 0xFF, 0xFF, 0xFF, 0x1F,
        0x00,
    ],
];

/// Reads a CDB in which only this bit is set.
fn read_bit(code: u8, byte: u8, bit: u8) -> Result<Command, CdbFault> {
    let mut cdb = [0; 16];
    cdb[0] = code;
    if byte < 16 {
        cdb[usize::from(byte)] = bit;
    }
    read(&cdb)
}

/// Whether each bit of a byte is refused with a pointer to the byte, except for the named bits.
fn has_bits(code: u8, byte: u8, named: u8) -> bool {
    for bit in BITS {
        let is_as_named = match read_bit(code, byte, bit) {
            Ok(_) => named & bit != 0,
            Err(fault) => named & bit == 0 && fault == CdbFault::Field(byte),
        };
        if !is_as_named {
            return false;
        }
    }
    true
}

fn has_named_bits(named: &[u8; 16]) -> bool {
    for byte in 1u8..16 {
        if !has_bits(named[0], byte, named[usize::from(byte)]) {
            return false;
        }
    }
    true
}

#[test]
fn each_bit_of_verify_and_compare_and_write_has_its_place(rt: HostRuntime) {
    for named in &NAMED {
        let code = operation_code(named);
        assert!(rt; has_named_bits(named), "operation code {code}");
    }
}
