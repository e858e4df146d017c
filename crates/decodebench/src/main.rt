//! `decodebench ANSWER COUNT`: decodes an answer COUNT times to standard output. `bench/decode`
//! measures it from outside. ANSWER is one of
//!
//! - `inquiry`, standard INQUIRY data of 36 bytes;
//! - `lba-status`, GET LBA STATUS parameter data with 512 descriptors;
//! - `modes`, the answer of MODE SENSE(6) to a request for all pages of the disk;
//! - `hex`, the bytes of `lba-status` in hex lines.
#![tactic(auto)]

use sg_decode::{put_hex, put_inquiry, put_lba_status, put_modes};
use sg_wire::{CdbWidth, Printer, Watched};
use std::alloc::Global;
use std::io::Write;
use std::process::ExitCode;
use std::rt::Runtime;
use std::{env, io};

const INQUIRY: &[u8] = b"\x00\x00\x06\x02\x1f\x00\x00\x00SGMODEL THIN DISK       0100";

const MODES: &[u8] = b"\x43\x00\x10\x08\
    \x00\x00\x10\x00\x00\x00\x02\x00\
    \x81\x0a\xc0\x08\x00\x00\x00\x00\x08\x00\x00\x00\
    \x88\x12\x04\x00\x00\x00\x00\x00\x00\x00\x00\x00\x00\x00\x00\x00\x00\x00\x00\x00\
    \x8a\x0a\x00\x00\x00\x00\x00\x00\x00\x00\x00\x00\
    \x9c\x0a\x08\x00\x00\x00\x00\x00\x00\x00\x00\x00";

/// The bytes of text that are gathered for a write.
const TEXT_LENGTH: usize = 65_536;

/// An answer that is decoded.
#[derive(Clone, Copy)]
enum Kind {
    Inquiry,
    LbaStatus,
    Modes,
    Hex,
}

/// The answer and the number after the program's name.
fn read_words(rt: &HostRuntime) -> Option<(Kind, u64)> {
    let mut args = env::args(rt).ok()?;
    args.next()?;
    let kind = match args.next()?.as_str() {
        "inquiry" => Kind::Inquiry,
        "lba-status" => Kind::LbaStatus,
        "modes" => Kind::Modes,
        "hex" => Kind::Hex,
        _ => return None,
    };
    Some((kind, args.next()?.parse().ok()?))
}

/// GET LBA STATUS parameter data: 512 blocks, every second one mapped.
fn lba_status(alloc: Global) -> io::Result<Vec<u8>> {
    let mut data = Vec::new(alloc);
    data.extend_from_slice(&[0x00, 0x00, 0x20, 0x04, 0, 0, 0, 0])?;
    for lba in 0..512u64 {
        data.extend_from_slice(&lba.to_be_bytes())?;
        data.extend_from_slice(&[0, 0, 0, 1, (lba % 2) as u8, 0, 0, 0])?;
    }
    Ok(data)
}

fn decode<W: Write>(kind: Kind, list: &[u8], out: &mut Printer<'_, W>) {
    match kind {
        Kind::Inquiry => put_inquiry(INQUIRY, out),
        Kind::LbaStatus => put_lba_status(false, list, out),
        Kind::Modes => put_modes(CdbWidth::Six, MODES, out),
        Kind::Hex => put_hex(list, out),
    }
}

fn run(rt: &HostRuntime, kind: Kind, count: u64) -> io::Result<()> {
    let list = lba_status(rt.alloc())?;
    let mut buffer = vec![in rt.alloc(); 0; TEXT_LENGTH]?;
    let mut writer = Watched::new(rt.stdout());
    let mut out = Printer::new(&mut writer, &mut buffer);
    for _ in 0..count {
        decode(kind, &list, &mut out);
    }
    out.finish()
}

fn main(rt: HostRuntime) -> ExitCode {
    let Some((kind, count)) = read_words(&rt) else {
        let _ = eprintln!(rt; "decodebench: ANSWER COUNT");
        return ExitCode::from(1);
    };
    let Ok(()) = run(&rt, kind, count) else {
        let _ = eprintln!(rt; "decodebench: no memory, or a failed write");
        return ExitCode::from(99);
    };
    ExitCode::from(0)
}
