// The bytes that the words of the tools send, as SPC-4 and SBC-3 lay them out. Worked rows show
// their refusals.
use sg_tools::{MAX_DATA_OUT, Show, Tool, ToolName, status_of};
use sg_wire::Profile;
use std::alloc::Global;
use std::test::Fail;

/// The words of a tool, the CDB and the data-out that it sends, and how the answer is shown.
const SENT: [(&str, &[u8], &[u8], Show); 57] = [
    ("sg_inq", b"\x12\x00\x00\x00\x24\x00", b"", Show::Inquiry),
    ("sg_inq --", b"\x12\x00\x00\x00\x24\x00", b"", Show::Inquiry),
    (
        "sg_inq -l 5",
        b"\x12\x00\x00\x00\x05\x00",
        b"",
        Show::Inquiry,
    ),
    (
        "sg_inq --len=1f0H",
        b"\x12\x00\x00\x01\xF0\x00",
        b"",
        Show::Inquiry,
    ),
    ("sg_inq -e", b"\x12\x01\x00\x00\xFC\x00", b"", Show::Vpd),
    (
        "sg_inq -p sn -l0",
        b"\x12\x01\x80\x00\xFC\x00",
        b"",
        Show::Vpd,
    ),
    (
        "sg_inq --vpd --page 0XB0",
        b"\x12\x01\xB0\x00\xFC\x00",
        b"",
        Show::Vpd,
    ),
    ("sg_inq --id", b"\x12\x01\x83\x00\xFC\x00", b"", Show::Vpd),
    ("sg_inq -Hel5", b"\x12\x01\x00\x00\x05\x00", b"", Show::Hex),
    ("sg_vpd", b"\x12\x01\x00\x00\xFC\x00", b"", Show::Vpd),
    (
        "sg_vpd -p=lbpv",
        b"\x12\x01\xB2\x00\xFC\x00",
        b"",
        Show::Vpd,
    ),
    (
        "sg_vpd -pdi -m 65535 -H",
        b"\x12\x01\x83\xFF\xFF\x00",
        b"",
        Show::Hex,
    ),
    (
        "sg_modes",
        b"\x5A\x00\x3F\x00\x00\x00\x00\x04\x00\x00",
        b"",
        Show::Modes10,
    ),
    (
        "sg_modes -p 3Fh,FFh -c2 -L",
        b"\x5A\x10\xBF\xFF\x00\x00\x00\x04\x00\x00",
        b"",
        Show::Modes10,
    ),
    (
        "sg_modes --six -d -p10",
        b"\x1A\x08\x0A\x00\xFC\x00",
        b"",
        Show::Modes6,
    ),
    (
        "sg_modes -a --hex",
        b"\x5A\x00\x3F\x00\x00\x00\x00\x04\x00\x00",
        b"",
        Show::Hex,
    ),
    (
        "sg_unmap --lba=0x12,3 -n 1,0Ah -g 31 -a",
        b"\x42\x01\x00\x00\x00\x00\x1F\x00\x28\x00",
        b"\x00\x26\x00\x20\x00\x00\x00\x00\x00\x00\x00\x00\x00\x00\x00\x12\x00\x00\x00\x01\
          \x00\x00\x00\x00\x00\x00\x00\x00\x00\x00\x00\x03\x00\x00\x00\x0A\x00\x00\x00\x00",
        Show::Nothing,
    ),
    (
        "sg_get_lba_status -b",
        b"\x9E\x12\x00\x00\x00\x00\x00\x00\x00\x00\x00\x00\x00\x18\x00\x00",
        b"",
        Show::LbaStatusBrief,
    ),
    (
        "sg_get_lba_status -m 0 -l 0102030405060708h",
        b"\x9E\x12\x01\x02\x03\x04\x05\x06\x07\x08\x00\x00\x00\x00\x00\x00",
        b"",
        Show::LbaStatus,
    ),
    (
        "sg_get_lba_status --hex --lba 16",
        b"\x9E\x12\x00\x00\x00\x00\x00\x00\x00\x10\x00\x00\x00\x18\x00\x00",
        b"",
        Show::Hex,
    ),
    (
        "sg_persist",
        b"\x5E\x00\x00\x00\x00\x00\x00\x20\x00\x00",
        b"",
        Show::Keys,
    ),
    (
        "sg_persist -i -r",
        b"\x5E\x01\x00\x00\x00\x00\x00\x20\x00\x00",
        b"",
        Show::Reservation,
    ),
    (
        "sg_persist -cT6",
        b"\x5E\x02\x00\x00\x00\x00\x00\x20\x00\x00",
        b"",
        Show::Capabilities,
    ),
    (
        "sg_persist -ns",
        b"\x5E\x03\x00\x00\x00\x00\x00\x20\x00\x00",
        b"",
        Show::FullStatus,
    ),
    (
        "sg_persist -G --param-sark=1",
        b"\x5F\x00\x00\x00\x00\x00\x00\x00\x18\x00",
        b"\x00\x00\x00\x00\x00\x00\x00\x00\x00\x00\x00\x00\x00\x00\x00\x01\x00\x00\x00\x00\x00\x00\x00\x00",
        Show::Nothing,
    ),
    (
        "sg_persist -o -R -K 0123456789abcdef -T f",
        b"\x5F\x01\x0F\x00\x00\x00\x00\x00\x18\x00",
        b"\x01\x23\x45\x67\x89\xAB\xCD\xEF\x00\x00\x00\x00\x00\x00\x00\x00\x00\x00\x00\x00\x00\x00\x00\x00",
        Show::Nothing,
    ),
    (
        "sg_persist -P -K 0X1F -S2 -T 0x6 -Z",
        b"\x5F\x04\x06\x00\x00\x00\x00\x00\x18\x00",
        b"\x00\x00\x00\x00\x00\x00\x00\x1F\x00\x00\x00\x00\x00\x00\x00\x02\x00\x00\x00\x00\x01\x00\x00\x00",
        Show::Nothing,
    ),
    (
        "sg_persist --register-ignore",
        b"\x5F\x06\x00\x00\x00\x00\x00\x00\x18\x00",
        b"\x00\x00\x00\x00\x00\x00\x00\x00\x00\x00\x00\x00\x00\x00\x00\x00\x00\x00\x00\x00\x00\x00\x00\x00",
        Show::Nothing,
    ),
    ("sg_turs", b"\x00\x00\x00\x00\x00\x00", b"", Show::Nothing),
    ("sg_requests", b"\x03\x00\x00\x00\xFC\x00", b"", Show::Sense),
    (
        "sg_requests -dH -m 18",
        b"\x03\x01\x00\x00\x12\x00",
        b"",
        Show::Hex,
    ),
    (
        "sg_luns",
        b"\xA0\x00\x00\x00\x00\x00\x00\x00\x20\x00\x00\x00",
        b"",
        Show::Luns,
    ),
    (
        "sg_luns -s 0x11 --maxlen=16",
        b"\xA0\x00\x11\x00\x00\x00\x00\x00\x00\x10\x00\x00",
        b"",
        Show::Luns,
    ),
    (
        "sg_opcodes",
        b"\xA3\x0C\x00\x00\x00\x00\x00\x00\x20\x00\x00\x00",
        b"",
        Show::AllCommands,
    ),
    (
        "sg_opcodes --opcode=28h",
        b"\xA3\x0C\x01\x28\x00\x00\x00\x00\x20\x00\x00\x00",
        b"",
        Show::OneCommand,
    ),
    (
        "sg_opcodes -Ro 0x9e -s 18",
        b"\xA3\x0C\x82\x9E\x00\x12\x00\x00\x20\x00\x00\x00",
        b"",
        Show::OneCommand,
    ),
    (
        "sg_opcodes -t",
        b"\xA3\x0D\x00\x00\x00\x00\x00\x00\x00\x04\x00\x00",
        b"",
        Show::TaskManagement,
    ),
    (
        "sg_opcodes -tqR -s 1",
        b"\xA3\x0D\x80\x00\x00\x00\x00\x00\x00\x10\x00\x00",
        b"",
        Show::TaskManagement,
    ),
    (
        "sg_logs",
        b"\x4D\x00\x00\x00\x00\x00\x00\xFF\xFC\x00",
        b"",
        Show::LogPage,
    ),
    (
        "sg_logs -p 0xf,0xff -m 64",
        b"\x4D\x00\x0F\xFF\x00\x00\x00\x00\x40\x00",
        b"",
        Show::LogPage,
    ),
    (
        "sg_logs -p 0ch --paramp=0x102",
        b"\x4D\x00\x0C\x00\x00\x01\x02\xFF\xFC\x00",
        b"",
        Show::LogPage,
    ),
    (
        "sg_logs -HP65535 -p 2fh -m 8",
        b"\x4D\x00\x2F\x00\x00\xFF\xFF\x00\x08\x00",
        b"",
        Show::Hex,
    ),
    (
        "sg_readcap",
        b"\x25\x00\x00\x00\x00\x00\x00\x00\x00\x00",
        b"",
        Show::Capacity10,
    ),
    (
        "sg_readcap --16",
        b"\x9E\x10\x00\x00\x00\x00\x00\x00\x00\x00\x00\x00\x00\x20\x00\x00",
        b"",
        Show::Capacity16,
    ),
    (
        "sg_readcap -lH",
        b"\x9E\x10\x00\x00\x00\x00\x00\x00\x00\x00\x00\x00\x00\x20\x00\x00",
        b"",
        Show::Hex,
    ),
    (
        "sg_sync",
        b"\x35\x00\x00\x00\x00\x00\x00\x00\x00\x00",
        b"",
        Show::Nothing,
    ),
    (
        "sg_sync -l 16 -c 2",
        b"\x35\x00\x00\x00\x00\x10\x00\x00\x02\x00",
        b"",
        Show::Nothing,
    ),
    (
        "sg_sync -S --lba 0x100000000 --count=65536",
        b"\x91\x00\x00\x00\x00\x01\x00\x00\x00\x00\x00\x01\x00\x00\x00\x00",
        b"",
        Show::Nothing,
    ),
    (
        "sg_verify -E 3 -i 00ff -c 8",
        b"\x2F\x06\x00\x00\x00\x00\x00\x00\x08\x00",
        b"\x00\xFF",
        Show::Nothing,
    ),
    (
        "sg_compare_and_write -l 1 -i aB01",
        b"\x89\x00\x00\x00\x00\x00\x00\x00\x00\x01\x00\x00\x00\x01\x00\x00",
        b"\xAB\x01",
        Show::Nothing,
    ),
    (
        "sg_write_same -U -l 1 -n 2 -i -",
        b"\x93\x08\x00\x00\x00\x00\x00\x00\x00\x01\x00\x00\x00\x02\x00\x00",
        b"",
        Show::Nothing,
    ),
    ("sg_start", b"\x1B\x00\x00\x00\x01\x00", b"", Show::Nothing),
    (
        "sg_start -S -m 5",
        b"\x1B\x00\x00\x00\x00\x00",
        b"",
        Show::Nothing,
    ),
    (
        "sg_start --load",
        b"\x1B\x00\x00\x00\x03\x00",
        b"",
        Show::Nothing,
    ),
    (
        "sg_start -Le",
        b"\x1B\x00\x00\x00\x02\x00",
        b"",
        Show::Nothing,
    ),
    (
        "sg_start -SL",
        b"\x1B\x00\x00\x00\x02\x00",
        b"",
        Show::Nothing,
    ),
    (
        "sg_start -p 0xa -m 1 -sL",
        b"\x1B\x00\x00\x01\xA0\x00",
        b"",
        Show::Nothing,
    ),
];

/// Reads the request that the words of a line make. The first word is the tool's name.
fn parse(alloc: Global, line: &str) -> Result<Tool, Fail> {
    let mut words = Vec::new(alloc);
    for word in line.split_whitespace() {
        words.push(word).or(Err("no memory"))?;
    }
    let word = words.first().ok_or("no word")?;
    let name = ToolName::of_word(Profile::Extended, word).ok_or("no tool")?;
    Ok(Tool::parse(alloc, name, &words).or(Err("words are refused"))?)
}

/// Whether a tool sends this CDB and data-out, and shows the answer so.
fn sends(tool: &Tool, cdb: &[u8], data_out: &[u8], show: Show) -> bool {
    let mut buffer = [0xEE; MAX_DATA_OUT];
    let plan = tool.plan(&mut buffer);
    plan.cdb.as_slice() == cdb
        && plan.data_out == data_out.len()
        && buffer.starts_with(data_out)
        && plan.show == show
}

#[test]
fn tools_send_what_their_words_ask_for(rt: HostRuntime) -> Result<(), Fail> {
    for (line, cdb, data_out, show) in &SENT {
        let tool = parse(rt.alloc(), line)?;
        assert!(rt; sends(&tool, cdb, data_out, *show), "{line}");
    }
    Ok(())
}

/// The status code of a reply, its sense data, and the exit status.
const STATUSES: [(u8, &[u8], u8); 23] = [
    (0x00, b"", 0),
    (0x18, b"", 24),
    (0x08, b"", 26),
    (0x28, b"", 27),
    (0xFF, b"", 33),
    (0x30, b"", 99),
    (0x02, b"", 99),
    (0x02, b"\x71\0\x06\0\0\0\0\x0A\0\0\0\0\x29\x00\0\0\0\0", 99),
    (
        0x02,
        b"\x70\0\x05\0\0\0\0\x0A\0\0\0\0\x24\x00\0\xC0\0\x05",
        5,
    ),
    (0x02, b"\x70\0\x05\0\0\0\0\x0A\0\0\0\0\x20\x00\0\0\0\0", 9),
    (
        0x02,
        b"\xF0\0\x05\0\0\x10\0\x0A\0\0\0\0\x21\x00\0\0\0\0",
        22,
    ),
    (0x02, b"\x70\0\x06\0\0\0\0\x0A\0\0\0\0\x29\x00\0\0\0\0", 6),
    (0x02, b"\x72\x07\x27\x02\0\0\0\0", 7),
    (0x02, b"\x72\x0B\x4B\x00\0\0\0\0", 11),
    (0x02, b"\x72\x05\x1A\x00\0\0\0\0", 5),
    (0x02, b"\x72\x05\x20\x02\0\0\0\0", 5),
    (0x02, b"\x72\x05\x21\x01\0\0\0\0", 5),
    (0x02, b"\x72\x00\x00\x00\0\0\0\0", 99),
    (0x02, b"\x72\x01\x18\x00\0\0\0\0", 21),
    (0x02, b"\x72\x02\x04\x01\0\0\0\0", 2),
    (0x02, b"\x72\x03\x21\x00\0\0\0\0", 3),
    (0x02, b"\x72\x04\x44\x00\0\0\0\0", 3),
    (0x02, b"\x72\x0E\x1D\x00\0\0\0\0", 14),
];

#[test]
fn replies_have_exit_statuses(rt: HostRuntime) {
    for (status, sense, exit_status) in &STATUSES {
        let found = status_of(*status, sense);
        assert!(rt; found == *exit_status, "{found}, and not {exit_status}");
    }
}
