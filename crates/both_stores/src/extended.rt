// Commands of the extended profile from a fixed seed.
use crate::LONGEST_LIST;
use crate::random::Random;
use sg_pages::{Identity, unit_designation};
use sg_store::BLOCK_LENGTH;
use sg_wire::{
    ByteCheck, Command, CompareAndWrite, ExtendedCopy, Extent12, Extent16, FormatUnit, FourBits,
    LogSense, PageCode, ReadDefectData12, ReceiveCopyOperatingParameters, ReportLuns,
    ReportSupportedTaskManagementFunctions, ReportTargetPortGroups, SendDiagnostic, StartStopUnit,
    ThreeBits, Verify12, Verify16,
};

/// The bytes of the parameter list of FORMAT UNIT without LONGLIST (SBC-3, 5.3.2).
const FORMAT_LIST: usize = 4;

/// The bytes of the parameter list of EXTENDED COPY with two CSCD descriptors and a segment
/// descriptor (SPC-4, 6.5).
const COPY_LIST: usize = 108;

/// Makes a command of the next kind, and returns its data-out's length too. COMPARE AND WRITE also
/// gets blocks to write, and EXTENDED COPY its parameter list.
pub(crate) fn next_extended(
    random: &mut Random,
    lba: u32,
    count: u8,
    data_out: &mut [u8; LONGEST_LIST],
) -> Option<(Command, usize)> {
    let twelve = Extent12 {
        lba,
        count: u32::from(count),
    };
    let sixteen = Extent16 {
        lba: u64::from(lba),
        count: u32::from(count),
    };
    let bytes = BLOCK_LENGTH * usize::from(count);
    Some(match random.byte() % 22 {
        0 | 1 => (Command::Read12(twelve), 0),
        2 | 3 => (Command::Write12(twelve), bytes),
        4 => (write_and_verify(random, twelve), bytes),
        5 => (Command::PreFetch16(sixteen), 0),
        6 => (Command::SynchronizeCache16(sixteen), 0),
        7 => (report_luns(random), 0),
        8 => (log_sense(random)?, 0),
        9 => (read_defect_data(random)?, 0),
        10 => (send_diagnostic(random)?, 0),
        11 => (verify(random, sixteen), bytes),
        12 | 13 => compare_and_write(random, lba, count, data_out),
        14 | 15 => (Command::OrWrite16(sixteen), bytes),
        16 => format_unit(random),
        17 => (start_stop_unit(random)?, 0),
        18 => (port_groups(random)?, 0),
        19 => (task_management(random), 0),
        20 => extended_copy(random, lba, count, data_out),
        _ => (copy_parameters(random), 0),
    })
}

/// VERIFY. Its data-out repeats one byte, so often all blocks are equal to it.
fn verify(random: &mut Random, extent: Extent16) -> Command {
    let byte_check = match random.byte() % 4 {
        0 => ByteCheck::OneBlock,
        _ => ByteCheck::DataOut,
    };
    Command::Verify16(Verify16 { byte_check, extent })
}

/// COMPARE AND WRITE of at most half as many blocks as data-out has room for.
fn compare_and_write(
    random: &mut Random,
    lba: u32,
    count: u8,
    data_out: &mut [u8; LONGEST_LIST],
) -> (Command, usize) {
    let count = count / 2;
    let compared = BLOCK_LENGTH * usize::from(count);
    if let Some(written) = data_out.get_mut(compared..) {
        written.fill(random.byte() % 4);
    }
    let lba = u64::from(lba);
    (
        Command::CompareAndWrite(CompareAndWrite { lba, count }),
        2 * compared,
    )
}

fn write_and_verify(random: &mut Random, extent: Extent12) -> Command {
    let byte_check = match random.byte() % 4 {
        0 => ByteCheck::OneBlock,
        1 => ByteCheck::Nothing,
        _ => ByteCheck::DataOut,
    };
    Command::WriteAndVerify12(Verify12 { byte_check, extent })
}

/// FORMAT UNIT, sometimes with a parameter list that repeats one byte.
fn format_unit(random: &mut Random) -> (Command, usize) {
    let format_data = random.byte() < 64;
    let command = Command::FormatUnit(FormatUnit {
        long_list: false,
        format_data,
    });
    (command, if format_data { FORMAT_LIST } else { 0 })
}

/// START STOP UNIT, which most often starts the unit.
fn start_stop_unit(random: &mut Random) -> Option<Command> {
    Some(Command::StartStopUnit(StartStopUnit {
        power_condition_modifier: FourBits::new(0)?,
        power_condition: FourBits::new(0)?,
        loej: random.byte() < 16,
        start: random.byte() >= 32,
    }))
}

fn report_luns(random: &mut Random) -> Command {
    Command::ReportLuns(ReportLuns {
        select: random.byte() % 4,
        allocation_length: u32::from(random.byte() % 32),
    })
}

/// LOG SENSE, most often of a page that the disk has. PARAMETER POINTER is sometimes past its last
/// parameter.
fn log_sense(random: &mut Random) -> Option<Command> {
    let (page, subpage_code) = match random.byte() % 8 {
        0 => (0x00, 0x00),
        1 => (0x00, 0xFF),
        2 => (0x2F, 0x00),
        3 => (0x0D, 0x00),
        _ => (0x0C, 0x00),
    };
    Some(Command::LogSense(LogSense {
        page_code: PageCode::new(page)?,
        subpage_code,
        parameter_pointer: u16::from(random.byte() % 4),
        allocation_length: u16::from(random.byte()),
    }))
}

fn read_defect_data(random: &mut Random) -> Option<Command> {
    Some(Command::ReadDefectData12(ReadDefectData12 {
        plist: random.byte() < 128,
        glist: random.byte() < 128,
        format: ThreeBits::new(random.byte() % 8)?,
        index: 0,
        allocation_length: u32::from(random.byte()),
    }))
}

fn send_diagnostic(random: &mut Random) -> Option<Command> {
    Some(Command::SendDiagnostic(SendDiagnostic {
        code: ThreeBits::new(random.byte() % 2)?,
        self_test: random.byte() < 128,
        list_length: 0,
    }))
}

fn task_management(random: &mut Random) -> Command {
    Command::ReportSupportedTaskManagementFunctions(ReportSupportedTaskManagementFunctions {
        timeouts: random.byte() < 128,
        allocation_length: u32::from(random.byte()),
    })
}

fn port_groups(random: &mut Random) -> Option<Command> {
    Some(Command::ReportTargetPortGroups(ReportTargetPortGroups {
        format: ThreeBits::new(random.byte() % 3)?,
        allocation_length: u32::from(random.byte()),
    }))
}

/// EXTENDED COPY with its parameter list. Sometimes a byte of the list is wrong.
fn extended_copy(
    random: &mut Random,
    lba: u32,
    count: u8,
    list: &mut [u8; LONGEST_LIST],
) -> (Command, usize) {
    list_copy(random, lba, count, list);
    let at = usize::from(random.byte()) % COPY_LIST;
    if let Some(place) = list.get_mut(at)
        && random.byte() < 32
    {
        *place = random.byte();
    }
    let command = Command::ExtendedCopy(ExtendedCopy {
        list_length: COPY_LIST as u32,
    });
    (command, COPY_LIST)
}

/// Writes the parameter list of EXTENDED COPY (SPC-4, 6.5). It has two CSCD descriptors, at bytes 16
/// and 48, and a segment descriptor at byte 80. Source and destination may have either of the two.
fn list_copy(random: &mut Random, lba: u32, count: u8, list: &mut [u8; LONGEST_LIST]) {
    let unit = unit_designation(&Identity::standard());
    list.fill(0);
    list[0] = random.byte();
    list[3] = 64;
    list[11] = 28;
    list[16] = 0xE4;
    list[20..40].copy_from_slice(&unit);
    list[48] = 0xE4;
    list[52..72].copy_from_slice(&unit);
    list[80] = 0x02;
    list[83] = 24;
    list[85] = random.byte() % 2;
    list[87] = random.byte() % 2;
    list[91] = count;
    list[92..100].copy_from_slice(&u64::from(lba).to_be_bytes());
    list[100..108].copy_from_slice(&next_destination(random, lba).to_be_bytes());
}

/// The first block that a copy writes. It is most often near the first one that it reads.
fn next_destination(random: &mut Random, source: u32) -> u64 {
    if random.byte() < 64 {
        return u64::from(random.byte());
    }
    let near = u64::from(source).saturating_add(u64::from(random.byte() % 16));
    near.saturating_sub(8)
}

fn copy_parameters(random: &mut Random) -> Command {
    Command::ReceiveCopyOperatingParameters(ReceiveCopyOperatingParameters {
        allocation_length: u32::from(random.byte() % 64),
    })
}
