// Exit statuses, by the status of a reply and its sense data, as sg3_utils(8) lists them.
ghost use Rattle.std.specs.Prelude.{◌≡◌, option_map};
ghost use Rattle.sg_tools.specs.ExitStatus.{exit_status, sense_status};
ghost use Rattle.sg_wire.specs.Sense.{fields_of};
ghost use Rattle.sg_wire.specs.SenseReading.{read_sense};

use sg_wire::Sense;

/// The exit status that sg3_utils(8) give a reply with this status code and sense data.
pub fn status_of(status: u8, sense: &[u8]) -> u8
    ensures { result ≡ exit_status status (read_sense sense.now) }
{
    exit_status(status, Sense::read(sense))
}

/// The exit status that sg3_utils(8) give a reply with this status code. The sense is `None` if the
/// sense data can't be read.
pub fn exit_status(status: u8, sense: Option<Sense>) -> u8
    ensures { result ≡ exit_status status (option_map fields_of sense) }
{
    match status {
        0x00 => 0,
        0x02 => sense_status(sense),
        0x08 => 26,
        0x18 => 24,
        0x28 => 27,
        0xFF => 33,
        _ => 99,
    }
}

/// Sense keys that only an armed fault returns (SPC-4, sense key descriptions).
const RECOVERED_ERROR: u8 = 1;

const NOT_READY: u8 = 2;

const MEDIUM_ERROR: u8 = 3;

const HARDWARE_ERROR: u8 = 4;

/// The sense key of a difference, which only an extended disk finds.
const MISCOMPARE: u8 = 0xE;

fn sense_status(sense: Option<Sense>) -> u8
    ensures { result ≡ sense_status (option_map fields_of sense) }
{
    let Some(sense) = sense else {
        return 99;
    };
    match (sense.key, sense.asc, sense.ascq) {
        (RECOVERED_ERROR, _, _) => 21,
        (NOT_READY, _, _) => 2,
        (MEDIUM_ERROR | HARDWARE_ERROR, _, _) => 3,
        // INVALID COMMAND OPERATION CODE
        (Sense::ILLEGAL_REQUEST, 0x20, 0x00) => 9,
        // LOGICAL BLOCK ADDRESS OUT OF RANGE
        (Sense::ILLEGAL_REQUEST, 0x21, 0x00) => 22,
        (Sense::ILLEGAL_REQUEST, _, _) => 5,
        (Sense::UNIT_ATTENTION, _, _) => 6,
        (Sense::DATA_PROTECT, _, _) => 7,
        (Sense::ABORTED_COMMAND, _, _) => 11,
        (MISCOMPARE, _, _) => 14,
        _ => 99,
    }
}
