// Facts that no contract says: the writes are few, and none comes after a failure.
use super::watched::{FakeWriter, Fault};
use sg_wire::{Printer, Watched};
use std::io::{ErrorKind, Write};
use std::test::Fail;

const PIECES: [&[u8]; 5] = [b"line ", b"12", b": ", b"", b"GOOD\n"];

const TEXT: &[u8] = b"line 12: GOOD\n";

/// The number of writes that the pieces take, by the length of the buffer.
const WRITES: [(usize, usize); 9] = [
    (0, 4),
    (1, 4),
    (2, 4),
    (4, 3),
    (5, 3),
    (9, 2),
    (13, 2),
    (14, 1),
    (15, 1),
];

fn print_pieces<W: Write>(out: &mut Printer<'_, W>) {
    for piece in PIECES {
        out.put(piece);
    }
}

#[test]
fn prints_through_short_writes(rt: HostRuntime) -> Result<(), Fail> {
    for room in 0..16 {
        for most in 1..16 {
            let mut fake = FakeWriter::with_fault(rt.alloc(), most, usize::MAX, Fault::TakesNone);
            let mut writer = Watched::new(&mut fake);
            let mut buffer = [0xff; 15];
            let mut out = Printer::new(&mut writer, &mut buffer[..room]);
            print_pieces(&mut out);
            out.finish()?;
            assert!(rt;
                fake.bytes.as_slice() == TEXT,
                "{room} bytes, {most} a call"
            );
        }
    }
    Ok(())
}

#[test]
fn writes_nothing_after_a_failure(rt: HostRuntime) -> Result<(), Fail> {
    for (room, writes) in &WRITES {
        for faulty_call in 0..*writes {
            let mut fake = FakeWriter::with_fault(
                rt.alloc(),
                usize::MAX,
                faulty_call,
                Fault::Fails(ErrorKind::StorageFull),
            );
            let mut writer = Watched::new(&mut fake);
            let mut buffer = [0xff; 15];
            let room = buffer.len().min(*room);
            let mut out = Printer::new(&mut writer, &mut buffer[..room]);
            print_pieces(&mut out);
            let has_failed = out.finish().is_err();
            print_pieces(&mut out);
            let is_failed = out.finish().is_err() && writer.failed();
            let has_ended = fake.calls == faulty_call + 1 && TEXT.starts_with(&fake.bytes);
            assert!(rt;
                has_failed && is_failed && has_ended,
                "at call {faulty_call}"
            );
        }
    }
    Ok(())
}
