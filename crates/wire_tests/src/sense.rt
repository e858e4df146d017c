// Sense data, byte by byte as SPC-4, 4.5, lays it out.
use sg_wire::{Cut, Format, Pointer, Sense};

const IN_COMMAND: Pointer = Pointer {
    in_command: true,
    byte: 2,
};

const IN_LIST: Pointer = Pointer {
    in_command: false,
    byte: 18,
};

/// Sense data: the key, the additional sense code and its qualifier, INFORMATION and the pointer.
type Fields = (u8, u8, u8, Option<u64>, Option<Pointer>);

const ILLEGAL_REQUEST: u8 = Sense::ILLEGAL_REQUEST;

const UNIT_ATTENTION: u8 = Sense::UNIT_ATTENTION;

/// Sense data with one of the two keys of the table.
fn sense_of(fields: Fields) -> Sense {
    let (key, asc, ascq, information, pointer) = fields;
    if key == UNIT_ATTENTION {
        return Sense {
            key: UNIT_ATTENTION,
            asc,
            ascq,
            information,
            pointer: None,
        };
    }
    Sense {
        key: ILLEGAL_REQUEST,
        asc,
        ascq,
        information,
        pointer,
    }
}

fn read(data: &[u8]) -> Option<Fields> {
    let sense = Sense::read(data)?;
    let (asc, ascq) = (sense.asc, sense.ascq);
    Some((sense.key, asc, ascq, sense.information, sense.pointer))
}

/// The sense data that the disk writes.
const WRITTEN: [(Fields, Format, &[u8]); 8] = [
    (
        (ILLEGAL_REQUEST, 0x24, 0x00, None, Some(IN_COMMAND)),
        Format::Fixed,
        &[
            0x70, 0, 0x05, 0, 0, 0, 0, 0x0A, 0, 0, 0, 0, 0x24, 0x00, 0, 0xC0, 0, 2,
        ],
    ),
    (
        (ILLEGAL_REQUEST, 0x26, 0x00, None, Some(IN_LIST)),
        Format::Fixed,
        &[
            0x70, 0, 0x05, 0, 0, 0, 0, 0x0A, 0, 0, 0, 0, 0x26, 0x00, 0, 0x80, 0, 18,
        ],
    ),
    (
        (ILLEGAL_REQUEST, 0x21, 0x00, Some(0x1000), None),
        Format::Fixed,
        &[
            0xF0, 0, 0x05, 0, 0, 0x10, 0, 0x0A, 0, 0, 0, 0, 0x21, 0x00, 0, 0, 0, 0,
        ],
    ),
    (
        (UNIT_ATTENTION, 0x29, 0x00, None, None),
        Format::Fixed,
        &[
            0x70, 0, 0x06, 0, 0, 0, 0, 0x0A, 0, 0, 0, 0, 0x29, 0x00, 0, 0, 0, 0,
        ],
    ),
    (
        (UNIT_ATTENTION, 0x2A, 0x01, None, None),
        Format::Descriptor,
        &[0x72, 0x06, 0x2A, 0x01, 0, 0, 0, 0],
    ),
    (
        (ILLEGAL_REQUEST, 0x21, 0x00, Some(1 << 33), None),
        Format::Descriptor,
        &[
            0x72, 0x05, 0x21, 0x00, 0, 0, 0, 12, // then INFORMATION
            0x00, 0x0A, 0x80, 0, 0, 0, 0, 2, 0, 0, 0, 0,
        ],
    ),
    (
        (ILLEGAL_REQUEST, 0x26, 0x00, None, Some(IN_LIST)),
        Format::Descriptor,
        &[
            0x72, 0x05, 0x26, 0x00, 0, 0, 0, 8, // then the pointer
            0x02, 0x06, 0, 0, 0x80, 0, 18, 0,
        ],
    ),
    (
        (ILLEGAL_REQUEST, 0x24, 0x00, Some(5), Some(IN_COMMAND)),
        Format::Descriptor,
        &[
            0x72, 0x05, 0x24, 0x00, 0, 0, 0, 20, // then INFORMATION and the pointer
            0x00, 0x0A, 0x80, 0, 0, 0, 0, 0, 0, 0, 0, 5, 0x02, 0x06, 0, 0, 0xC0, 0, 2, 0,
        ],
    ),
];

#[test]
fn sense_data_is_written_and_read(rt: HostRuntime) {
    for (fields, format, data) in &WRITTEN {
        let mut buf = [0xEE; 28];
        let mut cut = Cut::new(&mut buf, 28);
        sense_of(*fields).write(*format, &mut cut);
        let is_written = cut.written() == data.len() && buf.starts_with(*data);
        let length = data.len();
        assert!(rt;
            is_written && read(data) == Some(*fields),
            "of {length} bytes"
        );
    }
}

/// Sense data that the disk does not write, in both formats, and bytes that are not read as sense
/// data. The walk over descriptors ends at the additional length, at the end of the bytes and
/// before a part of one.
const READ: [(&[u8], Option<Fields>); 21] = [
    // Medium error with information.
    (
        &[
            0xF0, 0, 0x03, 0, 0x01, 0xE2, 0x40, 0x0A, 0, 0, 0, 0, 0x11, 0x04, 0, 0, 0, 0,
        ],
        Some((3, 0x11, 0x04, Some(123_456), None)),
    ),
    // Filemark and flags beside the key.
    (
        &[
            0x70, 0, 0xE5, 0, 0, 0, 0, 0x0A, 0, 0, 0, 0, 0x11, 0x04, 0, 0xC0, 0, 2,
        ],
        Some((5, 0x11, 0x04, None, Some(IN_COMMAND))),
    ),
    // Progress of not ready.
    (
        &[
            0x70, 0, 0x02, 0, 0, 0, 0, 0x0A, 0, 0, 0, 0, 0x11, 0x04, 0, 0x80, 0x12, 0x34,
        ],
        Some((2, 0x11, 0x04, None, None)),
    ),
    // Pointer not valid.
    (
        &[
            0x70, 0, 0x05, 0, 0, 0, 0, 0x0A, 0, 0, 0, 0, 0x11, 0x04, 0, 0x40, 0, 2,
        ],
        Some((5, 0x11, 0x04, None, None)),
    ),
    // Pointer not whole.
    (
        &[
            0x70, 0, 0x05, 0, 0, 0, 0, 0x0A, 0, 0, 0, 0, 0x11, 0x04, 0, 0xC0, 0,
        ],
        Some((5, 0x11, 0x04, None, None)),
    ),
    // Pointer without illegal request.
    (
        &[
            0x72, 0xF3, 0x11, 0x04, 0, 0, 0, 8, 0x02, 0x06, 0, 0, 0xC0, 0, 2, 0,
        ],
        Some((3, 0x11, 0x04, None, None)),
    ),
    // Another type first.
    (
        &[
            0x72, 5, 0x11, 0x04, 0, 0, 0, 12, 0x80, 0x02, 1, 2, 0x02, 0x06, 0, 0, 0xC0, 0, 2, 0,
        ],
        Some((5, 0x11, 0x04, None, Some(IN_COMMAND))),
    ),
    // Three pointers the first not valid.
    (
        &[
            0x72, 5, 0x11, 0x04, 0, 0, 0, 24, 0x02, 0x06, 0, 0, 0x40, 0, 9, 0, 0x02, 0x06, 0, 0,
            0x80, 0, 18, 0, 0x02, 0x06, 0, 0, 0xC0, 0, 9, 0,
        ],
        Some((5, 0x11, 0x04, None, Some(IN_LIST))),
    ),
    // Information of another length.
    (
        &[
            0x72, 5, 0x11, 0x04, 0, 0, 0, 8, 0x00, 0x06, 0x80, 0, 0, 0, 0, 1,
        ],
        Some((5, 0x11, 0x04, None, None)),
    ),
    // Additional length within the pointer.
    (
        &[
            0x72, 5, 0x11, 0x04, 0, 0, 0, 7, 0x02, 0x06, 0, 0, 0xC0, 0, 2, 0,
        ],
        Some((5, 0x11, 0x04, None, None)),
    ),
    // Bytes end within the pointer.
    (
        &[
            0x72, 5, 0x11, 0x04, 0, 0, 0, 8, 0x02, 0x06, 0, 0, 0xC0, 0, 2,
        ],
        Some((5, 0x11, 0x04, None, None)),
    ),
    // A longer descriptor first.
    (
        &[
            0x72, 5, 0x11, 0x04, 0, 0, 0, 10, 0x80, 0xFF, 0x02, 0x06, 0, 0, 0xC0, 0, 2, 0,
        ],
        Some((5, 0x11, 0x04, None, None)),
    ),
    // No descriptor.
    (
        &[0x72, 5, 0x11, 0x04, 0, 0, 0, 0xFF],
        Some((5, 0x11, 0x04, None, None)),
    ),
    // Bytes that end before the additional sense code qualifier, and other response codes.
    (&[], None),
    (&[0x70, 0, 5, 0, 0, 0, 0, 0x0A, 0, 0, 0, 0, 0x24], None),
    (
        &[
            0x71, 0, 5, 0, 0, 0, 0, 0x0A, 0, 0, 0, 0, 0x24, 0, 0, 0, 0, 0,
        ],
        None,
    ),
    (
        &[
            0xF1, 0, 5, 0, 0, 0, 0, 0x0A, 0, 0, 0, 0, 0x24, 0, 0, 0, 0, 0,
        ],
        None,
    ),
    (&[0x72, 5, 0x24, 0, 0, 0, 0], None),
    (
        &[0x73, 5, 0x24, 0, 0, 0, 0, 10, 0, 0, 0, 0, 0, 0, 0, 0, 0, 0],
        None,
    ),
    (
        &[
            0x7F, 0, 5, 0, 0, 0, 0, 0x0A, 0, 0, 0, 0, 0x24, 0, 0, 0, 0, 0,
        ],
        None,
    ),
    (
        &[
            0x00, 0, 5, 0, 0, 0, 0, 0x0A, 0, 0, 0, 0, 0x24, 0, 0, 0, 0, 0,
        ],
        None,
    ),
];

#[test]
fn sense_data_of_others_is_read(rt: HostRuntime) {
    for (data, fields) in &READ {
        let length = data.len();
        assert!(rt; read(data) == *fields, "of {length} bytes");
    }
}
