// CDBs as SPC-4 and SBC-3 lay them out. Worked rows test their faults and their ignored bits.
use sg_wire::{
    CdbFault, Class, Command, Extent10, Extent16, GetLbaStatus, InAction, Inquiry, OutAction,
    PersistentReserveIn, PersistentReserveOut, Profile, ReadCapacity16, RequestSense, ShortExtent,
    WriteLong10, WriteSame10, WriteSame16,
};
use std::test::Fail;

const READY: Command = Command::TestUnitReady;

// INQUIRY for the standard data, for the unit serial number page, and with the largest values.
const STANDARD: Command = Command::Inquiry(Inquiry {
    evpd: false,
    page_code: 0x00,
    allocation_length: 36,
});

const SERIAL_NUMBER: Command = Command::Inquiry(Inquiry {
    evpd: true,
    page_code: 0x80,
    allocation_length: 255,
});

const LARGEST: Command = Command::Inquiry(Inquiry {
    evpd: true,
    page_code: 0xFF,
    allocation_length: 0xFFFE,
});

// REQUEST SENSE in fixed and in descriptor format.
const FIXED: Command = Command::RequestSense(RequestSense {
    desc: false,
    allocation_length: 18,
});

const DESCRIPTOR: Command = Command::RequestSense(RequestSense {
    desc: true,
    allocation_length: 252,
});

// Each field from its first byte to its last.
const READ_10: Command = Command::Read10(Extent10 {
    lba: 0x0102_0304,
    count: 0x0506,
});

const WRITE_10: Command = Command::Write10(Extent10 {
    lba: 0xFFFF_FFFE,
    count: 256,
});

const READ_16: Command = Command::Read16(Extent16 {
    lba: 0x0102_0304_0506_0708,
    count: 0x090A_0B0C,
});

const WRITE_16: Command = Command::Write16(Extent16 {
    lba: 1 << 40,
    count: 1,
});

const SYNCHRONIZE: Command = Command::SynchronizeCache10(Extent10 {
    lba: 0x1000,
    count: 0xFFFF,
});

const CAPACITY_16: Command = Command::ReadCapacity16(ReadCapacity16 {
    allocation_length: 0x0102_0304,
});

const WRITE_SAME_10: Command = Command::WriteSame10(WriteSame10 {
    lba: 0x0102_0304,
    count: 0x0506,
    anchor: true,
    unmap: false,
});

const WRITE_SAME_16: Command = Command::WriteSame16(WriteSame16 {
    lba: 0x0102_0304_0506_0708,
    count: 0x090A_0B0C,
    anchor: false,
    unmap: true,
    ndob: false,
});

const GET_LBA_STATUS: Command = Command::GetLbaStatus(GetLbaStatus {
    start: 0x0102_0304_0506_0708,
    allocation_length: 0x090A_0B0C,
});

// PERSISTENT RESERVE IN, and PERSISTENT RESERVE OUT with a scope that no logical unit has.
const READ_RESERVATION: Command = Command::PersistentReserveIn(PersistentReserveIn {
    action: InAction::ReadReservation,
    allocation_length: 0x0102,
});

const FULL_STATUS: Command = Command::PersistentReserveIn(PersistentReserveIn {
    action: InAction::ReadFullStatus,
    allocation_length: 0xFFFE,
});

const RESERVE: Command = Command::PersistentReserveOut(PersistentReserveOut {
    action: OutAction::Reserve,
    scope_type: 0x05,
    list_length: 24,
});

const REGISTER_AND_IGNORE: Command = Command::PersistentReserveOut(PersistentReserveOut {
    action: OutAction::RegisterAndIgnoreExistingKey,
    scope_type: 0xF8,
    list_length: 0x0102_0304,
});

const CDBS: [(&[u8], Command); 20] = [
    (&[0x00, 0, 0, 0, 0, 0], READY),
    (&[0x03, 0x00, 0, 0, 0x12, 0], FIXED),
    (&[0x03, 0x01, 0, 0, 0xFC, 0], DESCRIPTOR),
    (&[0x12, 0x00, 0x00, 0x00, 0x24, 0], STANDARD),
    (&[0x12, 0x01, 0x80, 0x00, 0xFF, 0], SERIAL_NUMBER),
    (&[0x12, 0x01, 0xFF, 0xFF, 0xFE, 0], LARGEST),
    (&[0x28, 0, 1, 2, 3, 4, 0, 5, 6, 0], READ_10),
    (
        &[0x2A, 0, 0xFF, 0xFF, 0xFF, 0xFE, 0, 0x01, 0x00, 0],
        WRITE_10,
    ),
    (
        &[0x88, 0, 1, 2, 3, 4, 5, 6, 7, 8, 9, 10, 11, 12, 0, 0],
        READ_16,
    ),
    (
        &[0x8A, 0, 0, 0, 1, 0, 0, 0, 0, 0, 0, 0, 0, 1, 0, 0],
        WRITE_16,
    ),
    (&[0x35, 0, 0, 0, 0x10, 0, 0, 0xFF, 0xFF, 0], SYNCHRONIZE),
    (&[0x25, 0, 0, 0, 0, 0, 0, 0, 0, 0], Command::ReadCapacity10),
    (
        &[0x9E, 0x10, 0, 0, 0, 0, 0, 0, 0, 0, 1, 2, 3, 4, 0, 0],
        CAPACITY_16,
    ),
    (&[0x41, 0x10, 1, 2, 3, 4, 0, 5, 6, 0], WRITE_SAME_10),
    (
        &[0x93, 0x08, 1, 2, 3, 4, 5, 6, 7, 8, 9, 10, 11, 12, 0, 0],
        WRITE_SAME_16,
    ),
    (
        &[0x9E, 0x12, 1, 2, 3, 4, 5, 6, 7, 8, 9, 10, 11, 12, 0, 0],
        GET_LBA_STATUS,
    ),
    (&[0x5E, 0x01, 0, 0, 0, 0, 0, 1, 2, 0], READ_RESERVATION),
    (&[0x5E, 0x03, 0, 0, 0, 0, 0, 0xFF, 0xFE, 0], FULL_STATUS),
    (&[0x5F, 0x01, 0x05, 0, 0, 0, 0, 0, 24, 0], RESERVE),
    (
        &[0x5F, 0x06, 0xF8, 0, 0, 1, 2, 3, 4, 0],
        REGISTER_AND_IGNORE,
    ),
];

/// The operation code, for a message: Debug of all bytes takes long to prove.
pub(crate) fn operation_code(cdb: &[u8]) -> u8 {
    match cdb {
        [code, ..] => *code,
        [] => 0,
    }
}

/// Whether a CDB is read as a command, and the command is written as the CDB.
fn is_read_and_written(cdb: &[u8], command: Command) -> bool {
    Command::read(cdb) == Ok(command) && command.write().as_slice() == cdb
}

#[test]
fn commands_are_read_and_written(rt: HostRuntime) {
    for (cdb, command) in &CDBS {
        let code = operation_code(cdb);
        assert!(rt; is_read_and_written(cdb, *command), "operation code {code}");
    }
}

/// A CDB of WRITE LONG(10), and the command.
const WRITE_LONG_CDB: [u8; 10] = [0x3F, 0xC0, 1, 2, 3, 4, 0, 5, 6, 0];

const WRITE_LONG: Command = Command::WriteLong10(WriteLong10 {
    cor_dis: true,
    wr_uncor: true,
    lba: 0x0102_0304,
    length: 0x0506,
});

#[test]
fn only_the_extended_profile_has_write_long(rt: HostRuntime) {
    let extended = Command::read_in(Profile::Extended, &WRITE_LONG_CDB);
    assert!(rt; Command::read(&WRITE_LONG_CDB) == Err(CdbFault::Opcode));
    assert!(rt; extended == Ok(WRITE_LONG));
    assert!(rt; WRITE_LONG.write().as_slice() == WRITE_LONG_CDB.as_slice());
}

/// A CDB of WRITE SAME(16) with NDOB, and the command.
const ZEROS_CDB: [u8; 16] = [0x93, 0x01, 1, 2, 3, 4, 5, 6, 7, 8, 9, 10, 11, 12, 0, 0];

const ZEROS: Command = Command::WriteSame16(WriteSame16 {
    lba: 0x0102_0304_0506_0708,
    count: 0x090A_0B0C,
    anchor: false,
    unmap: false,
    ndob: true,
});

#[test]
fn only_the_extended_profile_has_ndob(rt: HostRuntime) {
    let extended = Command::read_in(Profile::Extended, &ZEROS_CDB);
    assert!(rt; Command::read(&ZEROS_CDB) == Err(CdbFault::Field(1)));
    assert!(rt; extended == Ok(ZEROS));
    assert!(rt; ZEROS.write().as_slice() == ZEROS_CDB.as_slice());
}

/// CDBs of six bytes, with the address and the count that they mean.
const SHORT: [(&[u8; 6], u32, u16); 4] = [
    (&[0x08, 0, 0, 0, 0, 0], 0, 256),
    (&[0x08, 0, 0, 0, 1, 0], 0, 1),
    (&[0x08, 0x1F, 0xFF, 0xFF, 0xFF, 0], 0x1F_FFFF, 255),
    (&[0x08, 0x12, 0x34, 0x56, 0, 0], 0x12_3456, 256),
];

#[test]
fn six_bytes_name_1_to_256_blocks(rt: HostRuntime) -> Result<(), Fail> {
    for (cdb, lba, count) in &SHORT {
        let extent = ShortExtent::new(*lba, *count).ok_or("no extent")?;
        let is_same = extent.lba() == *lba && extent.count() == *count;
        let mut write = **cdb;
        write[0] = 0x0A;
        let is_read = is_read_and_written(*cdb, Command::Read6(extent));
        let is_written = is_read_and_written(&write, Command::Write6(extent));
        assert!(rt; is_same && is_read && is_written, "{count} blocks at {lba}");
    }
    Ok(())
}

/// The class, and whether a pending unit attention blocks the command.
const COLUMNS: [(&[u8], Option<Class>, bool); 20] = [
    (&[0x03], Some(Class::Always), false),
    (&[0x00], Some(Class::Always), true),
    (&[0x08], Some(Class::Reads), true),
    (&[0x0A], Some(Class::Writes), true),
    (&[0x12, 0xFF], Some(Class::Always), false),
    (&[0x25], Some(Class::Always), true),
    (&[0x28], Some(Class::Reads), true),
    (&[0x2A], Some(Class::Writes), true),
    (&[0x35], Some(Class::Writes), true),
    (&[0x41], Some(Class::Writes), true),
    (&[0x42], Some(Class::Writes), true),
    (&[0x5E, 0x00], Some(Class::Always), true),
    (&[0x5F, 0x07], Some(Class::Always), true),
    (&[0x88], Some(Class::Reads), true),
    (&[0x8A], Some(Class::Writes), true),
    (&[0x93], Some(Class::Writes), true),
    (&[0x9E, 0x10], Some(Class::Always), true),
    (&[0x9E, 0x12], Some(Class::Reads), true),
    (&[0xC1, 0, 0, 0, 0, 0], None, true),
    (&[], None, true),
];

#[test]
fn the_operation_code_decides(rt: HostRuntime) {
    for (cdb, class, blocked) in &COLUMNS {
        let has_class = Command::class_of(cdb) == *class;
        let is_blocked = Command::is_blocked_by_attention(cdb) == *blocked;
        let code = operation_code(cdb);
        assert!(rt; has_class && is_blocked, "operation code {code}");
    }
}
