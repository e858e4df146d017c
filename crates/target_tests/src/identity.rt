// The texts and local identifiers that an identity may have, the data that shows one, and the
// refusals of requests for mode pages.
use sg_pages::{
    Ask, AskFault, Identity, IdentityFault, ModePages, PageControl, SelectFault, inquiry, vpd,
};
use sg_wire::{CdbWidth, Cut, PageCode, PageRequest, Profile};

const LOCAL: Option<IdentityFault> = Some(IdentityFault::Local);

const TEXT: Option<IdentityFault> = Some(IdentityFault::Text);

const PRODUCT: &[u8; 16] = b"THIN DISK       ";

/// The vendor, the product, the revision, the serial and the local identifier, and the refusal of
/// each.
const IDENTITIES: [(
    &[u8; 8],
    &[u8; 16],
    &[u8; 4],
    &[u8; 8],
    u64,
    Option<IdentityFault>,
); 11] = [
    (b"SGMODEL ", PRODUCT, b"0100", b"00000001", 1, None),
    (b"        ", PRODUCT, b"    ", b"        ", 0, None),
    (
        b"~~~~~~~~",
        PRODUCT,
        b"~~~~",
        b"~~~~~~~~",
        (1 << 60) - 1,
        None,
    ),
    (b"SGMODEL\x1F", PRODUCT, b"0100", b"00000001", 1, TEXT),
    (b"\x7FGMODEL ", PRODUCT, b"0100", b"00000001", 1, TEXT),
    (b"SGMODEL ", PRODUCT, b"010\0", b"00000001", 1, TEXT),
    (b"SGMODEL ", PRODUCT, b"0100", b"\xFF0000001", 1, TEXT),
    (b"SGMODEL ", PRODUCT, b"0100", b"00000001", 1 << 60, LOCAL),
    (b"SGMODEL ", PRODUCT, b"0100", b"00000001", u64::MAX, LOCAL),
    (b"SGMODEL\x1F", PRODUCT, b"0100", b"00000001", 1 << 60, TEXT),
    (
        b"SGMODEL ",
        b"THIN\tDISK       ",
        b"0100",
        b"00000001",
        1,
        TEXT,
    ),
];

#[test]
fn an_identity_is_checked(rt: HostRuntime) {
    for (vendor, product, revision, serial, local, fault) in IDENTITIES {
        let identity = Identity::new(*vendor, *product, *revision, *serial, local);
        assert_eq!(rt; identity.err(), fault);
    }
}

/// Page 00h, supported VPD pages (SPC-4, 7.8): these five are listed.
const SUPPORTED_PAGES: &[u8] = &[0x00, 0x00, 0x00, 0x05, 0x00, 0x80, 0x83, 0xB0, 0xB2];

/// Page 80h, unit serial number (SPC-4, 7.8): the standard identity has 00000001.
const SERIAL_NUMBER: &[u8] = b"\x00\x80\x00\x0800000001";

/// Page codes, and the bytes of each page. The disk has no page 81h, and writes nothing for it.
const PAGES: [(u8, &[u8]); 3] = [(0x00, SUPPORTED_PAGES), (0x80, SERIAL_NUMBER), (0x81, &[])];

#[test]
fn a_page_of_vital_product_data_is_written_by_its_code(rt: HostRuntime) {
    let identity = Identity::standard();
    for (code, page) in PAGES {
        let mut bytes = [0xEE; 12];
        let mut cut = Cut::new(&mut bytes, 12);
        let is_there = vpd(code, &identity, 16, &mut cut);
        let written = cut.written();
        assert!(rt;
            is_there != page.is_empty() && written == page.len() && bytes.starts_with(page)
        );
    }
}

/// The first bytes of standard INQUIRY data (SPC-4, 6.6.2): VERSION says SPC-4, RESPONSE DATA
/// FORMAT is 2, and 31 bytes follow.
#[test]
fn standard_inquiry_data_is_cut(rt: HostRuntime) {
    let mut bytes = [0xEE; 8];
    let mut cut = Cut::new(&mut bytes, 5);
    inquiry(&Identity::standard(), &mut cut);
    assert!(rt; bytes == [0x00, 0x00, 0x06, 0x02, 0x1F, 0xEE, 0xEE, 0xEE]);
}

/// The disk has no mode page 3Eh, and a parameter list of one byte ends within its header.
#[test]
fn requests_for_mode_pages_are_refused(rt: HostRuntime) {
    let mut pages = ModePages::new(Profile::Base);
    let ask = Ask {
        width: CdbWidth::Six,
        llbaa: false,
        page: PageRequest {
            dbd: false,
            page_control: PageControl::Current,
            page_code: PageCode::new(0x3E).unwrap(),
            subpage_code: 0,
        },
        blocks: 1,
        profile: Profile::Base,
    };
    let mut bytes = [0xEE; 4];
    let mut cut = Cut::new(&mut bytes, 4);
    assert!(rt; pages.sense(&ask, &mut cut) == Err(AskFault::Page));
    assert!(rt;
        pages
            .select(&[0x00], CdbWidth::Six, false, Some(1), Profile::Base)
            .err()
            == Some(SelectFault::Length)
    );
}
