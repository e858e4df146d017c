// Lists and reports as bytes, laid out by hand from the standard.
use crate::{
    CopyFault, CopyList, DESIGNATION_LENGTH, Invalid, Segment, write_copy_status,
    write_operating_parameters,
};
use sg_wire::{Cut, Pointer};
use std::test::Fail;

/// The designation descriptor of NAA 6h in page 83h of the unit.
const UNIT: [u8; DESIGNATION_LENGTH] = [
    0x01, 0x03, 0x00, 0x10, 0x60, 0x20, 0x00, 0x00, 0, 0, 0, 0, 0, 0, 0, 0, 0, 0, 0, 0x07,
];

/// Blocks 1000h to 1007h are copied to 2000h. LIST IDENTIFIER is 5. The CSCD descriptors of source and
/// destination begin at bytes 16 and 48, and the segment descriptor begins at byte 80.
#[rattlefmt::skip]
const LIST: [u8; 108] = [
    5, 0, 0, 64, 0, 0, 0, 0, 0, 0, 0, 28, 0, 0, 0, 0, 0xE4, 0, 0, 0, 0x01, 0x03, 0, 0x10, 0x60,
    0x20, 0, 0, 0, 0, 0, 0, 0, 0, 0, 0, 0, 0, 0, 0x07, 0, 0, 0, 0, 0, 0, 2, 0, 0xE4, 0, 0, 0, 0x01,
    0x03, 0, 0x10, 0x60, 0x20, 0, 0, 0, 0, 0, 0, 0, 0, 0, 0, 0, 0, 0, 0x07, 0, 0, 0, 0, 0, 0, 2, 0,
    0x02, 0, 0, 24, 0, 0, 0, 1, 0, 0, 0, 8, 0, 0, 0, 0, 0, 0, 0x10, 0, 0, 0, 0, 0, 0, 0, 0x20, 0,
];

const SEGMENT: Segment = Segment {
    source: 0x1000,
    destination: 0x2000,
    blocks: 8,
};

#[test]
fn a_list_asks_for_a_copy(rt: HostRuntime) -> Result<(), Fail> {
    for (usage, byte, identifier) in [
        (0x00, 5, Some(5)),
        (0x10, 6, Some(6)),
        (0x18, 0, None),
        (0x20, 0, Some(0)),
    ] {
        let mut list = LIST;
        list[0] = byte;
        list[1] = usage;
        let wanted = CopyList {
            identifier,
            segment: Some(SEGMENT),
        };
        let is_wanted = CopyList::read(&UNIT, 2048, 0x2008, &list) == Ok(wanted);
        assert!(rt; is_wanted, "usage {usage}");
    }
    Ok(())
}

#[test]
fn no_segment_is_no_fault(rt: HostRuntime) -> Result<(), Fail> {
    let nothing = CopyList {
        identifier: None,
        segment: None,
    };
    assert!(rt; CopyList::read(&UNIT, 2048, 0x2008, &[]) == Ok(nothing));
    let header = [7, 0x10, 0, 0, 0, 0, 0, 0, 0, 0, 0, 0, 0, 0, 0, 0];
    let no_segment = CopyList {
        identifier: Some(7),
        segment: None,
    };
    assert!(rt; CopyList::read(&UNIT, 2048, 0x2008, &header) == Ok(no_segment));
    let mut list = LIST;
    list[91] = 0;
    let no_block = CopyList {
        identifier: Some(5),
        segment: Some(Segment {
            blocks: 0,
            ..SEGMENT
        }),
    };
    assert!(rt; CopyList::read(&UNIT, 2048, 0x2008, &list) == Ok(no_block));
    Ok(())
}

#[test]
fn each_fault_is_found(rt: HostRuntime) -> Result<(), Fail> {
    let invalid = |what, byte| CopyFault::InvalidAt { what, byte };
    for (at, byte, fault) in [
        (1, 0x08, invalid(Invalid::Field, 1)),
        (1, 0x18, invalid(Invalid::Field, 0)),
        (2, 4, CopyFault::Length),
        (3, 65, CopyFault::Length),
        (11, 29, CopyFault::Length),
        (15, 1, CopyFault::Length),
        (3, 63, invalid(Invalid::CscdType, 2)),
        (16, 0xE0, invalid(Invalid::CscdType, 16)),
        (48, 0xE0, invalid(Invalid::CscdType, 48)),
        (80, 0x0A, invalid(Invalid::SegmentType, 80)),
        (11, 27, invalid(Invalid::Field, 8)),
        (83, 25, invalid(Invalid::Field, 82)),
        (90, 9, invalid(Invalid::Field, 90)),
        (85, 2, CopyFault::NotReachable),
        (87, 2, CopyFault::NotReachable),
        (17, 0x20, CopyFault::NotReachable),
        (39, 0x08, CopyFault::NotReachable),
        (71, 0x08, CopyFault::NotReachable),
        (17, 0x01, CopyFault::OtherDeviceType),
        (49, 0x05, CopyFault::OtherDeviceType),
        (98, 0x21, CopyFault::PastCapacity),
        (107, 0x01, CopyFault::PastCapacity),
        (92, 0xFF, CopyFault::PastCapacity),
        (100, 0xFF, CopyFault::PastCapacity),
    ] {
        let mut list = LIST;
        if let Some(place) = list.get_mut(at) {
            *place = byte;
        }
        assert!(rt;
            CopyList::read(&UNIT, 2048, 0x2008, &list) == Err(fault),
            "byte {at}: {fault}"
        );
    }
    Ok(())
}

#[test]
fn too_much_is_refused(rt: HostRuntime) -> Result<(), Fail> {
    let mut list = [0; 188];
    list[..16].copy_from_slice(&[5, 0, 0, 96, 0, 0, 0, 0, 0, 0, 0, 28, 0, 0, 0, 0]);
    let too_many_cscds = Err(CopyFault::InvalidAt {
        what: Invalid::TooManyCscds,
        byte: 2,
    });
    assert!(rt; CopyList::read(&UNIT, 2048, 0x2008, &list) == too_many_cscds);
    list[..80].copy_from_slice(&LIST[..80]);
    list[11] = 56;
    list[80] = 0x0A;
    let other_type = Err(CopyFault::InvalidAt {
        what: Invalid::SegmentType,
        byte: 80,
    });
    assert!(rt; CopyList::read(&UNIT, 2048, 0x2008, &list) == other_type);
    list[80] = 0x02;
    let too_many_segments = Err(CopyFault::InvalidAt {
        what: Invalid::TooManySegments,
        byte: 8,
    });
    assert!(rt; CopyList::read(&UNIT, 2048, 0x2008, &list) == too_many_segments);
    list[11] = 28;
    list[15] = 1;
    let inline_data = Err(CopyFault::InvalidAt {
        what: Invalid::InlineData,
        byte: 12,
    });
    assert!(rt; CopyList::read(&UNIT, 2048, 0x2008, &list) == inline_data);
    assert!(rt; CopyList::read(&UNIT, 2048, 0x2008, &list[..15]) == Err(CopyFault::Length));
    assert!(rt;
        CopyList::read(&UNIT, 7, 0x2008, &LIST)
            == Err(CopyFault::InvalidAt {
                what: Invalid::Field,
                byte: 90,
            })
    );
    Ok(())
}

#[test]
fn faults_have_their_codes(rt: HostRuntime) -> Result<(), Fail> {
    let at_byte_80 = |what| CopyFault::InvalidAt { what, byte: 80 };
    for (fault, key, asc, ascq) in [
        (CopyFault::Length, 0x05, 0x1A, 0x00),
        (at_byte_80(Invalid::Field), 0x05, 0x26, 0x00),
        (at_byte_80(Invalid::TooManyCscds), 0x05, 0x26, 0x06),
        (at_byte_80(Invalid::CscdType), 0x05, 0x26, 0x07),
        (at_byte_80(Invalid::TooManySegments), 0x05, 0x26, 0x08),
        (at_byte_80(Invalid::SegmentType), 0x05, 0x26, 0x09),
        (at_byte_80(Invalid::InlineData), 0x05, 0x26, 0x0B),
        (CopyFault::NotReachable, 0x0A, 0x0D, 0x02),
        (CopyFault::OtherDeviceType, 0x0A, 0x0D, 0x03),
        (CopyFault::PastCapacity, 0x0A, 0x00, 0x00),
    ] {
        let sense = fault.sense();
        let has_codes = (sense.key, sense.asc, sense.ascq) == (key, asc, ascq);
        let pointer = Pointer {
            in_command: false,
            byte: 80,
        };
        let has_pointer = sense.pointer == (asc == 0x26).then_some(pointer);
        assert!(rt; has_codes && has_pointer, "{fault}");
    }
    Ok(())
}

#[test]
fn reports_have_their_bytes(rt: HostRuntime) -> Result<(), Fail> {
    let mut report = [0xFF; 64];
    let mut cut = Cut::new(&mut report, 64);
    write_operating_parameters(2048, &mut cut);
    #[rattlefmt::skip]
    let wanted = [
        0, 0, 0, 0x2A, 0x01, 0, 0, 0, 0, 2, 0, 1, 0, 0, 0x04, 0, 0, 0x10, 0, 0, 0, 0, 0, 0, 0, 0,
        0, 0, 0, 0, 0, 0, 0, 0, 0, 1, 1, 9, 9, 9, 0, 0, 0, 2, 0x02, 0xE4,
    ];
    assert!(rt; report.get(..46) == Some(wanted.as_slice()));
    assert_eq!(rt; report[46], 0xFF);
    let mut status = [0xFF; 16];
    let mut cut = Cut::new(&mut status, 16);
    write_copy_status(Some(SEGMENT), &mut cut);
    let wanted = [0, 0, 0, 8, 0x01, 0, 1, 0x00, 0, 0, 0x10, 0];
    assert!(rt; status.get(..12) == Some(wanted.as_slice()));
    assert_eq!(rt; status[12], 0xFF);
    Ok(())
}
