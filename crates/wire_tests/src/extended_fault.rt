// Faults of CDBs of the extended profile, and the classes of its commands (SPC-4 and SBC-3).
use crate::command::operation_code;
use crate::extended_command::read;
use sg_wire::{CdbFault, Class, Command, Profile};

/// CDBs with a bit that no field has, which is the first fault of its byte; CDBs that end early; and
/// MAINTENANCE IN with service actions that no command has.
const FAULTS: [(&[u8], CdbFault); 39] = [
    // PPC and SP of LOG SENSE.
    (&[0x4D, 0x02, 0, 0, 0, 0, 0, 0, 0, 0], CdbFault::Field(1)),
    (&[0x4D, 0x01, 0, 0, 0, 0, 0, 0, 0, 0], CdbFault::Field(1)),
    (&[0x4D, 0, 0, 0, 0x01, 0, 0, 0, 0, 0], CdbFault::Field(4)),
    (&[0x4D, 0, 0, 0, 0, 0, 0, 0, 0], CdbFault::Short(9)),
    (
        &[0xA0, 0x01, 0, 0, 0, 0, 0, 0, 0, 0, 0, 0],
        CdbFault::Field(1),
    ),
    (
        &[0xA0, 0, 0, 0x80, 0, 0, 0, 0, 0, 0, 0, 0],
        CdbFault::Field(3),
    ),
    (
        &[0xA0, 0, 0, 0, 0, 0, 0, 0, 0, 0, 0x01, 0],
        CdbFault::Field(10),
    ),
    (
        &[0xA0, 0, 0, 0, 0, 0, 0, 0, 0, 0, 0, 0x01],
        CdbFault::Field(11),
    ),
    (&[0xA0, 0, 0, 0, 0, 0, 0, 0, 0, 0, 0], CdbFault::Short(11)),
    (
        &[0xA3, 0x2C, 0, 0, 0, 0, 0, 0, 0, 0, 0, 0],
        CdbFault::Field(1),
    ),
    (
        &[0xA3, 0x0C, 0x08, 0, 0, 0, 0, 0, 0, 0, 0, 0],
        CdbFault::Field(2),
    ),
    (
        &[0xA3, 0x0D, 0x01, 0, 0, 0, 0, 0, 0, 0, 0, 0],
        CdbFault::Field(2),
    ),
    (
        &[0xA3, 0x0D, 0, 0, 0, 0x01, 0, 0, 0, 0, 0, 0],
        CdbFault::Field(5),
    ),
    (
        &[0xA3, 0x0D, 0, 0, 0, 0, 0, 0, 0, 0, 0],
        CdbFault::Short(11),
    ),
    // REPORT TARGET PORT GROUPS has no fields in bytes 2 and 10.
    (
        &[0xA3, 0x2A, 0x01, 0, 0, 0, 0, 0, 0, 0, 0, 0],
        CdbFault::Field(2),
    ),
    (
        &[0xA3, 0x0A, 0, 0, 0, 0, 0, 0, 0, 0, 0x80, 0],
        CdbFault::Field(10),
    ),
    (
        &[0xA3, 0x0A, 0, 0, 0, 0, 0, 0, 0, 0, 0],
        CdbFault::Short(11),
    ),
    // No command has these service actions.
    (
        &[0xA3, 0x00, 0, 0, 0, 0, 0, 0, 0, 0, 0, 0],
        CdbFault::Field(1),
    ),
    (
        &[0xA3, 0x0B, 0, 0, 0, 0, 0, 0, 0, 0, 0, 0],
        CdbFault::Field(1),
    ),
    (
        &[0xA3, 0x0E, 0, 0, 0, 0, 0, 0, 0, 0, 0, 0],
        CdbFault::Field(1),
    ),
    (&[0xA3, 0x0E], CdbFault::Short(2)),
    (&[0x1B, 0, 0, 0, 0x01], CdbFault::Short(5)),
    (&[0x1B, 0x02, 0, 0, 0x01, 0], CdbFault::Field(1)),
    (&[0x1B, 0, 0, 0x10, 0x01, 0], CdbFault::Field(3)),
    (&[0x1B, 0, 0, 0, 0x09, 0], CdbFault::Field(4)),
    (&[0x1D, 0x08, 0, 0, 0, 0], CdbFault::Field(1)),
    (&[0x1D, 0x04, 0x01, 0, 0, 0], CdbFault::Field(2)),
    (&[0x34, 0x04, 0, 0, 0, 0, 0, 0, 1, 0], CdbFault::Field(1)),
    (&[0x34, 0, 0, 0, 0, 0, 0x20, 0, 1, 0], CdbFault::Field(6)),
    (
        &[0x90, 0x04, 0, 0, 0, 0, 0, 0, 0, 0, 0, 0, 0, 1, 0, 0],
        CdbFault::Field(1),
    ),
    (
        &[0x91, 0x08, 0, 0, 0, 0, 0, 0, 0, 0, 0, 0, 0, 1, 0, 0],
        CdbFault::Field(1),
    ),
    // RDPROTECT and WRPROTECT.
    (
        &[0xA8, 0x20, 0, 0, 0, 0, 0, 0, 0, 1, 0, 0],
        CdbFault::Field(1),
    ),
    (
        &[0xAA, 0x80, 0, 0, 0, 0, 0, 0, 0, 1, 0, 0],
        CdbFault::Field(1),
    ),
    (&[0xA8, 0, 0, 0, 0, 0, 0, 0, 0, 1, 0], CdbFault::Short(11)),
    (&[0x37, 0, 0x20, 0, 0, 0, 0, 0, 4, 0], CdbFault::Field(2)),
    (
        &[0xB7, 0x20, 0, 0, 0, 0, 0, 0, 0, 8, 0, 0],
        CdbFault::Field(1),
    ),
    // WRITE AND VERIFY has no FUA.
    (&[0x2E, 0x08, 0, 0, 0, 0, 0, 0, 1, 0], CdbFault::Field(1)),
    (
        &[0xAE, 0x01, 0, 0, 0, 0, 0, 0, 0, 1, 0, 0],
        CdbFault::Field(1),
    ),
    (
        &[0x8E, 0x40, 0, 0, 0, 0, 0, 0, 0, 0, 0, 0, 0, 1, 0, 0],
        CdbFault::Field(1),
    ),
];

#[test]
fn faults_of_extended_commands_are_found(rt: HostRuntime) {
    for (cdb, fault) in &FAULTS {
        let code = operation_code(cdb);
        assert!(rt; read(cdb) == Err(*fault), "operation code {code}");
    }
}

/// The same for EXTENDED COPY and RECEIVE COPY RESULTS. The disk does not have EXTENDED COPY(LID4),
/// service action 01h of the first. It does not have RECEIVE COPY FAILURE DETAILS(LID1), service
/// action 04h of the second, either.
const COPY_FAULTS: [(&[u8], CdbFault); 23] = [
    (
        &[0x83, 0x20, 0, 0, 0, 0, 0, 0, 0, 0, 0, 0, 0, 0, 0, 0],
        CdbFault::Field(1),
    ),
    (
        &[0x83, 0x40, 0, 0, 0, 0, 0, 0, 0, 0, 0, 0, 0, 0, 0, 0],
        CdbFault::Field(1),
    ),
    (
        &[0x83, 0x80, 0, 0, 0, 0, 0, 0, 0, 0, 0, 0, 0, 0, 0, 0],
        CdbFault::Field(1),
    ),
    (
        &[0x83, 0, 0x80, 0, 0, 0, 0, 0, 0, 0, 0, 0, 0, 0, 0, 0],
        CdbFault::Field(2),
    ),
    (
        &[0x83, 0, 0, 0, 0, 0, 0, 0, 0, 0x01, 0, 0, 0, 0, 0, 0],
        CdbFault::Field(9),
    ),
    (
        &[0x83, 0, 0, 0, 0, 0, 0, 0, 0, 0, 0, 0, 0, 0, 0x80, 0],
        CdbFault::Field(14),
    ),
    (
        &[0x83, 0, 0, 0, 0, 0, 0, 0, 0, 0, 0, 0, 0, 0, 0, 0x01],
        CdbFault::Field(15),
    ),
    (
        &[0x83, 0, 0, 0, 0, 0, 0, 0, 0, 0, 0, 0, 0, 0, 0],
        CdbFault::Short(15),
    ),
    (&[0x83], CdbFault::Short(1)),
    (
        &[0x83, 0x01, 0, 0, 0, 0, 0, 0, 0, 0, 0, 0, 0, 0, 0, 0],
        CdbFault::Field(1),
    ),
    (
        &[0x83, 0x1F, 0, 0, 0, 0, 0, 0, 0, 0, 0, 0, 0, 0, 0, 0],
        CdbFault::Field(1),
    ),
    (&[0x83, 0x01], CdbFault::Short(2)),
    (
        &[0x84, 0x23, 0, 0, 0, 0, 0, 0, 0, 0, 0, 0, 0, 0, 0, 0],
        CdbFault::Field(1),
    ),
    (
        &[0x84, 0x43, 0, 0, 0, 0, 0, 0, 0, 0, 0, 0, 0, 0, 0, 0],
        CdbFault::Field(1),
    ),
    (
        &[0x84, 0x83, 0, 0, 0, 0, 0, 0, 0, 0, 0, 0, 0, 0, 0, 0],
        CdbFault::Field(1),
    ),
    (
        &[0x84, 0x03, 0x01, 0, 0, 0, 0, 0, 0, 0, 0, 0, 0, 0, 0, 0],
        CdbFault::Field(2),
    ),
    (
        &[0x84, 0x03, 0, 0, 0, 0, 0, 0, 0, 0x80, 0, 0, 0, 0, 0, 0],
        CdbFault::Field(9),
    ),
    (
        &[0x84, 0x03, 0, 0, 0, 0, 0, 0, 0, 0, 0, 0, 0, 0, 0x01, 0],
        CdbFault::Field(14),
    ),
    (
        &[0x84, 0x03, 0, 0, 0, 0, 0, 0, 0, 0, 0, 0, 0, 0, 0, 0x80],
        CdbFault::Field(15),
    ),
    (
        &[0x84, 0x03, 0, 0, 0, 0, 0, 0, 0, 0, 0, 0, 0, 0, 0],
        CdbFault::Short(15),
    ),
    (&[0x84], CdbFault::Short(1)),
    (
        &[0x84, 0x00, 0, 0, 0, 0, 0, 0, 0, 0, 0, 0, 0, 0, 0, 0],
        CdbFault::Field(1),
    ),
    (
        &[0x84, 0x04, 0, 0, 0, 0, 0, 0, 0, 0, 0, 0, 0, 0, 0, 0],
        CdbFault::Field(1),
    ),
];

#[test]
fn faults_of_commands_of_copies_are_found(rt: HostRuntime) {
    for (cdb, fault) in &COPY_FAULTS {
        let code = operation_code(cdb);
        // A base disk has no such operation code.
        let is_extended = Command::read(cdb) == Err(CdbFault::Opcode);
        assert!(rt;
            read(cdb) == Err(*fault) && is_extended,
            "operation code {code}"
        );
    }
}

/// The class on an extended disk, and whether a pending unit attention blocks the command.
const COLUMNS: [(&[u8], Class, bool); 35] = [
    (&[0xA0], Class::Always, false),
    // Only a START STOP UNIT that starts the unit, with no POWER CONDITION, is always allowed.
    (&[0x1B, 0, 0, 0, 0x01, 0], Class::Always, true),
    (&[0x1B, 0x02, 0, 0x1F, 0x0F], Class::Always, true),
    (&[0x1B, 0, 0, 0, 0x00, 0], Class::Writes, true),
    (&[0x1B, 0, 0, 0, 0x11, 0], Class::Writes, true),
    (&[0x1B, 0, 0, 0, 0x81, 0], Class::Writes, true),
    (&[0x1B, 0, 0, 0, 0x0E, 0], Class::Writes, true),
    (&[0x1B, 0, 0, 0], Class::Writes, true),
    (&[0x1B], Class::Writes, true),
    (&[0x4D], Class::Always, true),
    (&[0xA3, 0x0C], Class::Reads, true),
    (&[0xA3, 0x0D], Class::Reads, true),
    (&[0x1D], Class::Writes, true),
    (&[0x34], Class::Reads, true),
    (&[0x90], Class::Reads, true),
    (&[0xA8], Class::Reads, true),
    (&[0xAA], Class::Writes, true),
    (&[0x37], Class::Reads, true),
    (&[0xB7], Class::Reads, true),
    (&[0x91], Class::Writes, true),
    (&[0x2E], Class::Writes, true),
    (&[0xAE], Class::Writes, true),
    (&[0x8E], Class::Writes, true),
    (&[0x2F], Class::Reads, true),
    (&[0xAF], Class::Reads, true),
    (&[0x8F], Class::Reads, true),
    (&[0x83], Class::Writes, true),
    (&[0x84, 0x03], Class::Writes, true),
    // A service action that no command has is refused, whatever is reserved.
    (&[0x84], Class::Always, true),
    (&[0x89], Class::Writes, true),
    (&[0x8B], Class::Writes, true),
    (&[0x9C], Class::Writes, true),
    (&[0x3F], Class::Writes, true),
    (&[0x12], Class::Always, false),
    (&[0x28], Class::Reads, true),
];

#[test]
fn an_extended_disk_has_a_class_for_each_command(rt: HostRuntime) {
    for (cdb, class, blocked) in &COLUMNS {
        let has_class = Command::class_in(Profile::Extended, cdb) == Some(*class);
        let is_blocked = Command::is_blocked_in(Profile::Extended, cdb) == *blocked;
        let code = operation_code(cdb);
        assert!(rt; has_class && is_blocked, "operation code {code}");
    }
}
