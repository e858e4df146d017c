// Each decoder, by the call that writes to a writer. Worked rows show the contents of their texts.
use sg_decode::{
    print_capabilities, print_full_status, print_hex, print_inquiry, print_keys, print_lba_status,
    print_modes, print_reservation, print_sense, print_vpd,
};
use sg_wire::{CdbWidth, Watched};
use std::alloc::Global;
use std::io;
use std::test::Fail;

/// The decoder of an answer.
enum Kind {
    Inquiry,
    Vpd,
    Modes6,
    Modes10,
    LbaStatus,
    LbaStatusInBrief,
    Keys,
    Reservation,
    Capabilities,
    FullStatus,
    Sense,
    Hex,
}

use Kind::{
    Capabilities, FullStatus, Hex, Inquiry, Keys, LbaStatus, LbaStatusInBrief, Modes6, Modes10,
    Reservation, Sense, Vpd,
};

/// An answer, and its text.
const PRINTED: [(Kind, &[u8], &str); 13] = [
    (
        Inquiry,
        b"\x05\x80\x05\x02\x1f\x00\x00\x10QEMU    QEMU DVD-ROM    2.5+",
        "  qualifier: 0, type: 05h
  removable: 1
  version: 05h
  format: 2
  additional length: 31
  vendor: [QEMU    ]
  product: [QEMU DVD-ROM    ]
  revision: [2.5+]
",
    ),
    (
        Vpd,
        b"\x00\x80\x00\x04S\x00N7past",
        "  qualifier: 0, type: 00h\n  page: 80h\n  page length: 4\n  serial: [S.N7]\n",
    ),
    (
        Modes6,
        b"\x00\x02\x00\x00\x08\x00",
        "  mode data length: 0
  medium type: 02h
  WP: 0, DPOFUA: 0
  block descriptor length: 0
",
    ),
    (
        Modes10,
        b"\x00\x0e\x00\x10\x01\x00\x00\x08\x00\x10\x00\x00\x00\x00\x02\x00",
        "  mode data length: 14
  medium type: 00h
  WP: 0, DPOFUA: 1
  LONGLBA: 1
  block descriptor length: 8
  descriptor: 0010000000000200
",
    ),
    (
        LbaStatus,
        b"\x00\x00\x00\x14\x00\x00\x00\x00\
            \x00\x00\x00\x00\xff\xff\xff\xff\x00\x00\x00\x02\x02\x00\x00\x00",
        "  parameter data length: 20\n  0x00000000ffffffff 2 anchored\n",
    ),
    // In brief, and ended before the first descriptor.
    (
        LbaStatusInBrief,
        b"\x00\x00\x00\x24\x00\x00\x00\x00\
            \x00\x00\x00\x00\x00\x00\x00\x0f\xff\xff\xff\xff\x07\x00\x00\x00\
            \x00\x00\x00\x01\x00\x00\x00\x0e\x00\x00\x00\x01\x02\x00\x00",
        "  0x000000000000000f 4294967295 reserved 7\n  truncated\n",
    ),
    (LbaStatusInBrief, b"\x00\x00\x00", "  truncated\n"),
    // The second key passes the reported end.
    (
        Keys,
        b"\x00\x00\x00\x00\x00\x00\x00\x0c\x00\x00\x00\x00\x00\x00\x00\x02\x00\x00\x00\x00",
        "  generation: 0\n  additional length: 12\n  key: 0x0000000000000002\n",
    ),
    (
        Reservation,
        b"\x00\x00\x00\x04\x00\x00\x00\x00",
        "  generation: 4\n  additional length: 0\n  no reservation\n",
    ),
    (
        Capabilities,
        b"\x00\x08\x01\x81\xa2\x01\x00\x00",
        "  length: 8\n  PTPL_C: 1\n  TMV: 1, PTPL_A: 1\n  types: WE WE-RO WE-AR EA-AR\n",
    ),
    (
        FullStatus,
        b"\x00\x00\x00\x07\x00\x00\x00\x5c",
        "  generation: 7\n  additional length: 92\n  truncated\n",
    ),
    (
        Sense,
        b"\x70\x00\x05\x00\x00\x00\x00\x0a\x00\x00\x00\x00\x24\x00\x00\xc0\x00\x02",
        "  sense: ILLEGAL REQUEST, 24h/00h, command byte 2\n",
    ),
    (
        Hex,
        b"\x00\x00\x06\x02\x1f\x00\x00\x00SGMODEL THIN DISK       0100",
        "  00000000  00 00 06 02 1f 00 00 00 53 47 4d 4f 44 45 4c 20
  00000010  54 48 49 4e 20 44 49 53 4b 20 20 20 20 20 20 20
  00000020  30 31 30 30
",
    ),
];

fn text_of(alloc: Global, kind: &Kind, bytes: &[u8]) -> io::Result<Vec<u8>> {
    let mut text = Vec::new(alloc);
    let mut writer = Watched::new(&mut text);
    match kind {
        Inquiry => print_inquiry(bytes, &mut writer),
        Vpd => print_vpd(bytes, &mut writer),
        Modes6 => print_modes(CdbWidth::Six, bytes, &mut writer),
        Modes10 => print_modes(CdbWidth::Ten, bytes, &mut writer),
        LbaStatus => print_lba_status(false, bytes, &mut writer),
        LbaStatusInBrief => print_lba_status(true, bytes, &mut writer),
        Keys => print_keys(bytes, &mut writer),
        Reservation => print_reservation(bytes, &mut writer),
        Capabilities => print_capabilities(bytes, &mut writer),
        FullStatus => print_full_status(bytes, &mut writer),
        Sense => print_sense(bytes, &mut writer),
        Hex => print_hex(bytes, &mut writer),
    }?;
    Ok(text)
}

#[test]
fn answers_are_printed(rt: HostRuntime) -> Result<(), Fail> {
    for (kind, bytes, wanted) in &PRINTED {
        let text = text_of(rt.alloc(), kind, bytes)?;
        assert!(rt; text.as_slice() == wanted.as_bytes(), "{wanted}");
    }
    Ok(())
}
