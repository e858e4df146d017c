// CDBs of FORMAT UNIT and SANITIZE as SBC-3 lays them out, with their faults and ignored bits.
use crate::extended_command::{is_read_and_written, read};
use sg_wire::{CdbFault, Class, Command, FormatUnit, Profile, Sanitize};

const NO_LIST: Command = Command::FormatUnit(FormatUnit {
    long_list: false,
    format_data: false,
});

const SHORT_LIST: Command = Command::FormatUnit(FormatUnit {
    long_list: false,
    format_data: true,
});

const LONG_LIST: Command = Command::FormatUnit(FormatUnit {
    long_list: true,
    format_data: true,
});

const ONLY_LONG_LIST: Command = Command::FormatUnit(FormatUnit {
    long_list: true,
    format_data: false,
});

const BLOCK_ERASE: Command = Command::SanitizeBlockErase(Sanitize { list_length: 0 });

const BLOCK_ERASE_WITH_LIST: Command = Command::SanitizeBlockErase(Sanitize {
    list_length: 0x0102,
});

const CRYPTOGRAPHIC_ERASE: Command = Command::SanitizeCryptographicErase(Sanitize {
    list_length: 0xFFFF,
});

const EXIT_FAILURE_MODE: Command = Command::SanitizeExitFailureMode(Sanitize {
    list_length: 0x0304,
});

const CDBS: [(&[u8], Command); 8] = [
    (&[0x04, 0x00, 0, 0, 0, 0], NO_LIST),
    (&[0x04, 0x10, 0, 0, 0, 0], SHORT_LIST),
    (&[0x04, 0x30, 0, 0, 0, 0], LONG_LIST),
    (&[0x04, 0x20, 0, 0, 0, 0], ONLY_LONG_LIST),
    (&[0x48, 0x02, 0, 0, 0, 0, 0, 0, 0, 0], BLOCK_ERASE),
    (&[0x48, 0x02, 0, 0, 0, 0, 0, 1, 2, 0], BLOCK_ERASE_WITH_LIST),
    (
        &[0x48, 0x03, 0, 0, 0, 0, 0, 0xFF, 0xFF, 0],
        CRYPTOGRAPHIC_ERASE,
    ),
    (&[0x48, 0x1F, 0, 0, 0, 0, 0, 3, 4, 0], EXIT_FAILURE_MODE),
];

#[test]
fn format_unit_and_sanitize_are_read_and_written(rt: HostRuntime) {
    for (index, (cdb, command)) in CDBS.iter().enumerate() {
        assert!(rt; is_read_and_written(cdb, *command), "CDB {index}");
    }
}

/// CDBs with their ignored bits: CMPLST; IMMED and AUSE.
const IGNORED: [(&[u8], Command); 4] = [
    (&[0x04, 0x08, 0, 0, 0, 0], NO_LIST),
    (&[0x04, 0x38, 0, 0, 0, 0], LONG_LIST),
    (&[0x48, 0xA2, 0, 0, 0, 0, 0, 0, 0, 0], BLOCK_ERASE),
    (&[0x48, 0xBF, 0, 0, 0, 0, 0, 3, 4, 0], EXIT_FAILURE_MODE),
];

#[test]
fn ignored_bits_change_no_format_unit_and_no_sanitize(rt: HostRuntime) {
    for (index, (cdb, command)) in IGNORED.iter().enumerate() {
        assert!(rt; read(cdb) == Ok(*command), "CDB {index}");
    }
}

/// FMTPINFO, each bit of DEFECT LIST FORMAT, bits that are reserved, CDBs that end early, and service
/// actions that the disk does not have: OVERWRITE is 01h.
const FAULTS: [(&[u8], CdbFault); 14] = [
    (&[0x04, 0x40, 0, 0, 0, 0], CdbFault::Field(1)),
    (&[0x04, 0x80, 0, 0, 0, 0], CdbFault::Field(1)),
    (&[0x04, 0x01, 0, 0, 0, 0], CdbFault::Field(1)),
    (&[0x04, 0x12, 0, 0, 0, 0], CdbFault::Field(1)),
    (&[0x04, 0x34, 0, 0, 0, 0], CdbFault::Field(1)),
    (&[0x04, 0, 0x01, 0, 0, 0], CdbFault::Field(2)),
    (&[0x04, 0, 0, 0, 0x80, 0], CdbFault::Field(4)),
    (&[0x04, 0, 0, 0, 0], CdbFault::Short(5)),
    (&[0x48, 0x42, 0, 0, 0, 0, 0, 0, 0, 0], CdbFault::Field(1)),
    (&[0x48, 0x03, 0, 0, 0, 0, 0x01, 0, 0, 0], CdbFault::Field(6)),
    (&[0x48, 0x1F, 0, 0, 0, 0, 0, 0, 0], CdbFault::Short(9)),
    (&[0x48, 0x00, 0, 0, 0, 0, 0, 0, 0, 0], CdbFault::Field(1)),
    (&[0x48, 0x01, 0, 0, 0, 0, 0, 0, 0, 0], CdbFault::Field(1)),
    (&[0x48, 0x1E], CdbFault::Short(2)),
];

#[test]
fn faults_of_format_unit_and_sanitize_are_found(rt: HostRuntime) {
    for (index, (cdb, fault)) in FAULTS.iter().enumerate() {
        assert!(rt; read(cdb) == Err(*fault), "CDB {index}");
    }
}

/// The class on an extended disk. A pending unit attention blocks each of them.
const CLASSES: [(&[u8], Class); 5] = [
    (&[0x04], Class::Writes),
    (&[0x48, 0x02], Class::Writes),
    (&[0x48, 0x03], Class::Writes),
    (&[0x48, 0x1F], Class::Writes),
    (&[0x48, 0x01], Class::Always),
];

#[test]
fn format_unit_and_sanitize_write(rt: HostRuntime) {
    for (index, (cdb, class)) in CLASSES.iter().enumerate() {
        let has_class = Command::class_in(Profile::Extended, cdb) == Some(*class);
        let is_blocked = Command::is_blocked_in(Profile::Extended, cdb);
        assert!(rt; has_class && is_blocked, "CDB {index}");
    }
}
