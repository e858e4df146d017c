// CDBs of the extended profile as SPC-4 and SBC-3 lay them out, with their ignored bits.
use crate::command::operation_code;
use sg_wire::{
    ByteCheck, CdbFault, Command, ExtendedCopy, Extent10, Extent12, Extent16, FourBits, LogSense,
    PageCode, Profile, ReadDefectData10, ReadDefectData12, ReceiveCopyOperatingParameters,
    ReportLuns, ReportSupportedOperationCodes, ReportSupportedTaskManagementFunctions,
    ReportTargetPortGroups, SendDiagnostic, StartStopUnit, ThreeBits, Verify10, Verify12, Verify16,
    WriteAtomic16,
};
use std::test::Fail;

// Each field from its first byte to its last.
pub(crate) const EXTENT_10: Extent10 = Extent10 {
    lba: 0x0102_0304,
    count: 0x0506,
};

pub(crate) const EXTENT_12: Extent12 = Extent12 {
    lba: 0x0102_0304,
    count: 0x0506_0708,
};

pub(crate) const EXTENT_16: Extent16 = Extent16 {
    lba: 0x0102_0304_0506_0708,
    count: 0x090A_0B0C,
};

// The largest values.
pub(crate) const LARGEST_10: Extent10 = Extent10 {
    lba: 0xFFFF_FFFF,
    count: 0xFFFF,
};

pub(crate) const LARGEST_12: Extent12 = Extent12 {
    lba: 0xFFFF_FFFF,
    count: 0xFFFF_FFFF,
};

pub(crate) const LARGEST_16: Extent16 = Extent16 {
    lba: 0xFFFF_FFFF_FFFF_FFFF,
    count: 0xFFFF_FFFF,
};

/// WRITE AND VERIFY with each BYTCHK.
const MEDIUM_ONLY: Command = Command::WriteAndVerify10(Verify10 {
    byte_check: ByteCheck::Nothing,
    extent: LARGEST_10,
});

const DATA_OUT: Command = Command::WriteAndVerify10(Verify10 {
    byte_check: ByteCheck::DataOut,
    extent: EXTENT_10,
});

const RESERVED: Command = Command::WriteAndVerify12(Verify12 {
    byte_check: ByteCheck::Reserved,
    extent: EXTENT_12,
});

const LARGEST_DATA_OUT: Command = Command::WriteAndVerify12(Verify12 {
    byte_check: ByteCheck::DataOut,
    extent: LARGEST_12,
});

const ONE_BLOCK: Command = Command::WriteAndVerify16(Verify16 {
    byte_check: ByteCheck::OneBlock,
    extent: EXTENT_16,
});

const LARGEST_MEDIUM_ONLY: Command = Command::WriteAndVerify16(Verify16 {
    byte_check: ByteCheck::Nothing,
    extent: LARGEST_16,
});

/// REPORT LUNS with a SELECT REPORT of a later standard, and with the largest values.
const LUNS: Command = Command::ReportLuns(ReportLuns {
    select: 0x11,
    allocation_length: 0x0102_0304,
});

const LARGEST_LUNS: Command = Command::ReportLuns(ReportLuns {
    select: 0xFF,
    allocation_length: 0xFFFF_FFFF,
});

/// REPORT SUPPORTED TASK MANAGEMENT FUNCTIONS with REPD, and without it.
const TIMEOUTS: Command = Command::ReportSupportedTaskManagementFunctions(
    ReportSupportedTaskManagementFunctions {
        timeouts: true,
        allocation_length: 0x0102_0304,
    },
);

const FUNCTIONS: Command = Command::ReportSupportedTaskManagementFunctions(
    ReportSupportedTaskManagementFunctions {
        timeouts: false,
        allocation_length: 0xFFFF_FFFF,
    },
);

/// WRITE ATOMIC with an ATOMIC BOUNDARY, which a disk refuses later, and with large values.
const ATOMIC: Command = Command::WriteAtomic16(WriteAtomic16 {
    lba: 0x0102_0304_0506_0708,
    boundary: 0x090A,
    count: 0x0B0C,
});

const LARGEST_ATOMIC: Command = Command::WriteAtomic16(WriteAtomic16 {
    lba: u64::MAX,
    boundary: 0xFFFE,
    count: u16::MAX,
});

/// The CDBs of commands whose fields have no numbers of a few bits.
const CDBS: [(&[u8], Command); 23] = [
    (
        &[0x8B, 0, 1, 2, 3, 4, 5, 6, 7, 8, 9, 10, 11, 12, 0, 0],
        Command::OrWrite16(EXTENT_16),
    ),
    (
        &[0x9C, 0, 1, 2, 3, 4, 5, 6, 7, 8, 9, 10, 11, 12, 0, 0],
        ATOMIC,
    ),
    (
        &[
            0x9C, 0, 0xFF, 0xFF, 0xFF, 0xFF, 0xFF, 0xFF, 0xFF, 0xFF, 0xFF, 0xFE, 0xFF, 0xFF, 0, 0,
        ],
        LARGEST_ATOMIC,
    ),
    (
        &[0x34, 0, 1, 2, 3, 4, 0, 5, 6, 0],
        Command::PreFetch10(EXTENT_10),
    ),
    (
        &[0x34, 0, 0xFF, 0xFF, 0xFF, 0xFF, 0, 0xFF, 0xFF, 0],
        Command::PreFetch10(LARGEST_10),
    ),
    (
        &[0x90, 0, 1, 2, 3, 4, 5, 6, 7, 8, 9, 10, 11, 12, 0, 0],
        Command::PreFetch16(EXTENT_16),
    ),
    (
        &[
            0x90, 0, 0xFF, 0xFF, 0xFF, 0xFF, 0xFF, 0xFF, 0xFF, 0xFF, 0xFF, 0xFF, 0xFF, 0xFF, 0, 0,
        ],
        Command::PreFetch16(LARGEST_16),
    ),
    (
        &[0xA8, 0, 1, 2, 3, 4, 5, 6, 7, 8, 0, 0],
        Command::Read12(EXTENT_12),
    ),
    (
        &[
            0xA8, 0, 0xFF, 0xFF, 0xFF, 0xFF, 0xFF, 0xFF, 0xFF, 0xFF, 0, 0,
        ],
        Command::Read12(LARGEST_12),
    ),
    (
        &[0xAA, 0, 1, 2, 3, 4, 5, 6, 7, 8, 0, 0],
        Command::Write12(EXTENT_12),
    ),
    (
        &[
            0xAA, 0, 0xFF, 0xFF, 0xFF, 0xFF, 0xFF, 0xFF, 0xFF, 0xFF, 0, 0,
        ],
        Command::Write12(LARGEST_12),
    ),
    (
        &[0x91, 0, 1, 2, 3, 4, 5, 6, 7, 8, 9, 10, 11, 12, 0, 0],
        Command::SynchronizeCache16(EXTENT_16),
    ),
    (
        &[
            0x91, 0, 0xFF, 0xFF, 0xFF, 0xFF, 0xFF, 0xFF, 0xFF, 0xFF, 0xFF, 0xFF, 0xFF, 0xFF, 0, 0,
        ],
        Command::SynchronizeCache16(LARGEST_16),
    ),
    (
        &[0x2E, 0, 0xFF, 0xFF, 0xFF, 0xFF, 0, 0xFF, 0xFF, 0],
        MEDIUM_ONLY,
    ),
    (&[0x2E, 0x02, 1, 2, 3, 4, 0, 5, 6, 0], DATA_OUT),
    (&[0xAE, 0x04, 1, 2, 3, 4, 5, 6, 7, 8, 0, 0], RESERVED),
    (
        &[
            0xAE, 0x02, 0xFF, 0xFF, 0xFF, 0xFF, 0xFF, 0xFF, 0xFF, 0xFF, 0, 0,
        ],
        LARGEST_DATA_OUT,
    ),
    (
        &[0x8E, 0x06, 1, 2, 3, 4, 5, 6, 7, 8, 9, 10, 11, 12, 0, 0],
        ONE_BLOCK,
    ),
    (
        &[
            0x8E, 0, 0xFF, 0xFF, 0xFF, 0xFF, 0xFF, 0xFF, 0xFF, 0xFF, 0xFF, 0xFF, 0xFF, 0xFF, 0, 0,
        ],
        LARGEST_MEDIUM_ONLY,
    ),
    (&[0xA0, 0, 0x11, 0, 0, 0, 1, 2, 3, 4, 0, 0], LUNS),
    (
        &[0xA0, 0, 0xFF, 0, 0, 0, 0xFF, 0xFF, 0xFF, 0xFF, 0, 0],
        LARGEST_LUNS,
    ),
    (&[0xA3, 0x0D, 0x80, 0, 0, 0, 1, 2, 3, 4, 0, 0], TIMEOUTS),
    (
        &[0xA3, 0x0D, 0, 0, 0, 0, 0xFF, 0xFF, 0xFF, 0xFF, 0, 0],
        FUNCTIONS,
    ),
];

pub(crate) fn read(cdb: &[u8]) -> Result<Command, CdbFault> {
    Command::read_in(Profile::Extended, cdb)
}

/// Whether an extended disk reads a CDB as a command, which is written as the CDB. A base disk has no
/// such operation code.
pub(crate) fn is_read_and_written(cdb: &[u8], command: Command) -> bool {
    let is_read = read(cdb) == Ok(command) && command.write().as_slice() == cdb;
    is_read && Command::read(cdb) == Err(CdbFault::Opcode)
}

#[test]
fn extended_commands_are_read_and_written(rt: HostRuntime) {
    for (cdb, command) in &CDBS {
        let code = operation_code(cdb);
        assert!(rt; is_read_and_written(cdb, *command), "operation code {code}");
    }
}

#[test]
fn log_sense_is_read_and_written(rt: HostRuntime) -> Result<(), Fail> {
    let page_2f = Command::LogSense(LogSense {
        page_code: PageCode::new(0x2F).ok_or("no page code")?,
        subpage_code: 0x12,
        parameter_pointer: 0x0102,
        allocation_length: 0x0304,
    });
    let largest = Command::LogSense(LogSense {
        page_code: PageCode::new(0x3F).ok_or("no page code")?,
        subpage_code: 0xFF,
        parameter_pointer: 0xFFFF,
        allocation_length: 0xFFFF,
    });
    assert!(rt; is_read_and_written(&[0x4D, 0, 0x2F, 0x12, 0, 1, 2, 3, 4, 0], page_2f));
    let cdb = [0x4D, 0, 0x3F, 0xFF, 0, 0xFF, 0xFF, 0xFF, 0xFF, 0];
    assert!(rt; is_read_and_written(&cdb, largest));
    // PC is ignored.
    assert!(rt; read(&[0x4D, 0, 0xEF, 0x12, 0, 1, 2, 3, 4, 0]) == Ok(page_2f));
    Ok(())
}

#[test]
fn send_diagnostic_is_read_and_written(rt: HostRuntime) -> Result<(), Fail> {
    let default = Command::SendDiagnostic(SendDiagnostic {
        code: ThreeBits::new(0).ok_or("no code")?,
        self_test: true,
        list_length: 0,
    });
    let extended = Command::SendDiagnostic(SendDiagnostic {
        code: ThreeBits::new(6).ok_or("no code")?,
        self_test: false,
        list_length: 0x0102,
    });
    let largest = Command::SendDiagnostic(SendDiagnostic {
        code: ThreeBits::new(7).ok_or("no code")?,
        self_test: true,
        list_length: 0xFFFF,
    });
    assert!(rt; is_read_and_written(&[0x1D, 0x04, 0, 0, 0, 0], default));
    assert!(rt; is_read_and_written(&[0x1D, 0xC0, 0, 1, 2, 0], extended));
    assert!(rt; is_read_and_written(&[0x1D, 0xE4, 0, 0xFF, 0xFF, 0], largest));
    // PF, DEVOFFL and UNITOFFL are ignored.
    assert!(rt; read(&[0x1D, 0x17, 0, 0, 0, 0]) == Ok(default));
    Ok(())
}

#[test]
fn start_stop_unit_is_read_and_written(rt: HostRuntime) -> Result<(), Fail> {
    let start = Command::StartStopUnit(StartStopUnit {
        power_condition_modifier: FourBits::new(0).ok_or("no modifier")?,
        power_condition: FourBits::new(0).ok_or("no condition")?,
        loej: false,
        start: true,
    });
    let standby = Command::StartStopUnit(StartStopUnit {
        power_condition_modifier: FourBits::new(1).ok_or("no modifier")?,
        power_condition: FourBits::new(3).ok_or("no condition")?,
        loej: true,
        start: false,
    });
    let largest = Command::StartStopUnit(StartStopUnit {
        power_condition_modifier: FourBits::new(15).ok_or("no modifier")?,
        power_condition: FourBits::new(15).ok_or("no condition")?,
        loej: true,
        start: true,
    });
    assert!(rt; is_read_and_written(&[0x1B, 0, 0, 0, 0x01, 0], start));
    assert!(rt; is_read_and_written(&[0x1B, 0, 0, 0x01, 0x32, 0], standby));
    assert!(rt; is_read_and_written(&[0x1B, 0, 0, 0x0F, 0xF3, 0], largest));
    // IMMED and NO_FLUSH change nothing.
    assert!(rt; read(&[0x1B, 0x01, 0, 0, 0x05, 0]) == Ok(start));
    Ok(())
}

#[test]
fn a_report_of_operation_codes_is_read_and_written(rt: HostRuntime) -> Result<(), Fail> {
    let one = Command::ReportSupportedOperationCodes(ReportSupportedOperationCodes {
        timeouts: false,
        options: ThreeBits::new(2).ok_or("no options")?,
        opcode: 0x9E,
        action: 0x0102,
        allocation_length: 0x0304_0506,
    });
    let largest = Command::ReportSupportedOperationCodes(ReportSupportedOperationCodes {
        timeouts: true,
        options: ThreeBits::new(7).ok_or("no options")?,
        opcode: 0xFF,
        action: 0xFFFF,
        allocation_length: 0xFFFF_FFFF,
    });
    let cdb = [0xA3, 0x0C, 0x02, 0x9E, 1, 2, 3, 4, 5, 6, 0, 0];
    assert!(rt; is_read_and_written(&cdb, one));
    let cdb = [
        0xA3, 0x0C, 0x87, 0xFF, 0xFF, 0xFF, 0xFF, 0xFF, 0xFF, 0xFF, 0, 0,
    ];
    assert!(rt; is_read_and_written(&cdb, largest));
    Ok(())
}

#[test]
fn a_report_of_target_port_groups_is_read_and_written(rt: HostRuntime) -> Result<(), Fail> {
    let short = Command::ReportTargetPortGroups(ReportTargetPortGroups {
        format: ThreeBits::new(0).ok_or("no format")?,
        allocation_length: 0,
    });
    let extended = Command::ReportTargetPortGroups(ReportTargetPortGroups {
        format: ThreeBits::new(1).ok_or("no format")?,
        allocation_length: 0x0102_0304,
    });
    let largest = Command::ReportTargetPortGroups(ReportTargetPortGroups {
        format: ThreeBits::new(7).ok_or("no format")?,
        allocation_length: 0xFFFF_FFFF,
    });
    let cdb = [0xA3, 0x0A, 0, 0, 0, 0, 0, 0, 0, 0, 0, 0];
    assert!(rt; is_read_and_written(&cdb, short));
    let cdb = [0xA3, 0x2A, 0, 0, 0, 0, 1, 2, 3, 4, 0, 0];
    assert!(rt; is_read_and_written(&cdb, extended));
    let cdb = [0xA3, 0xEA, 0, 0, 0, 0, 0xFF, 0xFF, 0xFF, 0xFF, 0, 0];
    assert!(rt; is_read_and_written(&cdb, largest));
    Ok(())
}

#[test]
fn commands_of_copies_are_read_and_written(rt: HostRuntime) {
    for (number, [a, b, c, d]) in [
        (0, [0, 0, 0, 0]),
        (0x0102_0304, [1, 2, 3, 4]),
        (0xFFFF_FFFF, [0xFF, 0xFF, 0xFF, 0xFF]),
    ] {
        let copy = Command::ExtendedCopy(ExtendedCopy {
            list_length: number,
        });
        let parameters = Command::ReceiveCopyOperatingParameters(ReceiveCopyOperatingParameters {
            allocation_length: number,
        });
        let cdb = [0x83, 0x00, 0, 0, 0, 0, 0, 0, 0, 0, a, b, c, d, 0, 0];
        assert!(rt; is_read_and_written(&cdb, copy), "length {number}");
        let cdb = [0x84, 0x03, 0, 0, 0, 0, 0, 0, 0, 0, a, b, c, d, 0, 0];
        assert!(rt; is_read_and_written(&cdb, parameters), "length {number}");
    }
}

#[test]
fn read_defect_data_of_ten_bytes_is_read_and_written(rt: HostRuntime) -> Result<(), Fail> {
    let primary = Command::ReadDefectData10(ReadDefectData10 {
        plist: true,
        glist: false,
        format: ThreeBits::new(4).ok_or("no format")?,
        allocation_length: 0x0102,
    });
    let largest = Command::ReadDefectData10(ReadDefectData10 {
        plist: true,
        glist: true,
        format: ThreeBits::new(7).ok_or("no format")?,
        allocation_length: 0xFFFF,
    });
    assert!(rt; is_read_and_written(&[0x37, 0, 0x14, 0, 0, 0, 0, 1, 2, 0], primary));
    assert!(rt; is_read_and_written(&[0x37, 0, 0x1F, 0, 0, 0, 0, 0xFF, 0xFF, 0], largest));
    Ok(())
}

#[test]
fn read_defect_data_of_twelve_bytes_is_read_and_written(rt: HostRuntime) -> Result<(), Fail> {
    let grown = Command::ReadDefectData12(ReadDefectData12 {
        plist: false,
        glist: true,
        format: ThreeBits::new(3).ok_or("no format")?,
        index: 0x0102_0304,
        allocation_length: 0x0506_0708,
    });
    let largest = Command::ReadDefectData12(ReadDefectData12 {
        plist: true,
        glist: true,
        format: ThreeBits::new(7).ok_or("no format")?,
        index: 0xFFFF_FFFF,
        allocation_length: 0xFFFF_FFFF,
    });
    assert!(rt; is_read_and_written(&[0xB7, 0x0B, 1, 2, 3, 4, 5, 6, 7, 8, 0, 0], grown));
    let cdb = [
        0xB7, 0x1F, 0xFF, 0xFF, 0xFF, 0xFF, 0xFF, 0xFF, 0xFF, 0xFF, 0, 0,
    ];
    assert!(rt; is_read_and_written(&cdb, largest));
    Ok(())
}

/// CDBs with all their ignored bits, and the command of each: DPO, FUA and the obsolete bit 1; IMMED,
/// and the obsolete bit 2 of SYNCHRONIZE CACHE; GROUP NUMBER.
const IGNORED: [(&[u8], Command); 8] = [
    (
        &[0x34, 0x02, 1, 2, 3, 4, 0x1F, 5, 6, 0],
        Command::PreFetch10(EXTENT_10),
    ),
    (
        &[0x90, 0x02, 1, 2, 3, 4, 5, 6, 7, 8, 9, 10, 11, 12, 0x1F, 0],
        Command::PreFetch16(EXTENT_16),
    ),
    (
        &[0xA8, 0x1A, 1, 2, 3, 4, 5, 6, 7, 8, 0x1F, 0],
        Command::Read12(EXTENT_12),
    ),
    (
        &[0xAA, 0x1A, 1, 2, 3, 4, 5, 6, 7, 8, 0x1F, 0],
        Command::Write12(EXTENT_12),
    ),
    (
        &[0x91, 0x06, 1, 2, 3, 4, 5, 6, 7, 8, 9, 10, 11, 12, 0x1F, 0],
        Command::SynchronizeCache16(EXTENT_16),
    ),
    (&[0x2E, 0x12, 1, 2, 3, 4, 0x1F, 5, 6, 0], DATA_OUT),
    (&[0xAE, 0x14, 1, 2, 3, 4, 5, 6, 7, 8, 0x1F, 0], RESERVED),
    (
        &[0x8E, 0x16, 1, 2, 3, 4, 5, 6, 7, 8, 9, 10, 11, 12, 0x1F, 0],
        ONE_BLOCK,
    ),
];

#[test]
fn ignored_bits_change_no_extended_command(rt: HostRuntime) {
    for (cdb, command) in &IGNORED {
        let code = operation_code(cdb);
        assert!(rt; read(cdb) == Ok(*command), "operation code {code}");
    }
}
