// The buffer of data-in. The bytes after data-in stay as they were.
use super::*;

/// CDBs, and the data-in that they return. INQUIRY returns the first bytes of the standard data:
/// VERSION says SPC-4, and RESPONSE DATA FORMAT is 2 (SPC-4, 6.6.2). It returns the pages 00h and
/// 80h of vital product data (SPC-4, 7.8), and no data-in for page 81h, which the disk does not
/// have. PERSISTENT RESERVE IN, READ KEYS, lists no key without a registration (SPC-4, 5.13).
const ANSWERS: [(&str, &[u8], &[u8]); 5] = [
    (
        "standard data",
        &[0x12, 0, 0, 0, 5, 0],
        &[0x00, 0x00, 0x06, 0x02, 0x1F],
    ),
    (
        "page 00h",
        &[0x12, 1, 0x00, 0, 9, 0],
        &[0x00, 0x00, 0x00, 0x05, 0x00, 0x80, 0x83, 0xB0, 0xB2],
    ),
    (
        "page 80h",
        &[0x12, 1, 0x80, 0, 12, 0],
        b"\x00\x80\x00\x0800000001",
    ),
    ("page 81h", &[0x12, 1, 0x81, 0, 4, 0], &[]),
    (
        "keys",
        &[0x5E, 0, 0, 0, 0, 0, 0, 0, 16, 0],
        &[0, 0, 0, 0, 0, 0, 0, 0],
    ),
];

impl Disk {
    /// Whether a command returns this data-in, and leaves the bytes after it.
    fn returns(&mut self, cdb: &[u8], data_in: &[u8]) -> Result<bool, Fail> {
        let reply = self.execute(0, cdb, &[])?;
        let mut behind = self.buf.iter().skip(data_in.len());
        Ok(
            reply.data_in == data_in.len()
                && self.buf.starts_with(data_in)
                && behind.all(|byte| *byte == 0xA5),
        )
    }
}

#[test]
fn bytes_behind_data_in_stay(rt: HostRuntime) -> Result<(), Fail> {
    let mut disk = Disk::ready(rt.alloc())?;
    for (name, cdb, data_in) in &ANSWERS {
        assert!(rt; disk.returns(cdb, data_in)?, "{name}");
    }
    Ok(())
}
