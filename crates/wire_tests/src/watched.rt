// Facts that no contract says: each call reaches the reader or writer just once, and returns the
// result of this reader or writer.
use sg_wire::Watched;
use std::alloc::Global;
use std::io;
use std::io::{Error, ErrorKind, Read, Write};
use std::test::Fail;

/// The effect of a `FakeWriter`'s faulty call.
#[derive(Clone, Copy)]
pub(super) enum Fault {
    TakesNone,
    Fails(ErrorKind),
}

/// A writer that keeps the bytes that it takes, and counts the calls. It takes at most `most` bytes
/// a call, and none at the faulty call. A flush fails.
#[derive(Drop)]
pub(super) struct FakeWriter {
    pub(super) bytes: Vec<u8>,
    pub(super) calls: usize,
    flushes: usize,
    most: usize,
    faulty_call: usize,
    fault: Fault,
}

impl FakeWriter {
    /// It takes all bytes of each call.
    pub(super) fn new(alloc: Global) -> FakeWriter {
        FakeWriter::with_fault(alloc, usize::MAX, usize::MAX, Fault::TakesNone)
    }

    /// Its first call is call 0.
    pub(super) fn with_fault(
        alloc: Global,
        most: usize,
        faulty_call: usize,
        fault: Fault,
    ) -> FakeWriter {
        FakeWriter {
            bytes: Vec::new(alloc),
            calls: 0,
            flushes: 0,
            most,
            faulty_call,
            fault,
        }
    }
}

impl Write for FakeWriter {
    fn write(&mut self, buf: &[u8]) -> io::Result<usize> {
        let call = self.calls;
        self.calls = call.saturating_add(1);
        if call == self.faulty_call {
            return match self.fault {
                Fault::TakesNone => Ok(0),
                Fault::Fails(kind) => Err(Error::from(kind)),
            };
        }
        let count = buf.len().min(self.most);
        self.bytes.extend_from_slice(&buf[..count])?;
        Ok(count)
    }

    fn flush(&mut self) -> io::Result<()> {
        self.flushes = self.flushes.saturating_add(1);
        Err(Error::from(ErrorKind::Other))
    }
}

const FAULTS: [(Fault, ErrorKind); 3] = [
    (Fault::TakesNone, ErrorKind::WriteZero),
    (Fault::Fails(ErrorKind::StorageFull), ErrorKind::StorageFull),
    (Fault::Fails(ErrorKind::Interrupted), ErrorKind::Interrupted),
];

const LINE: &[u8; 12] = b"line 1: GOOD";

/// Writes of fewer bytes than the writer takes, of as many, and of more.
#[test]
fn writes_are_passed_on(rt: HostRuntime) -> Result<(), Fail> {
    for most in 1..=12 {
        for length in 0..=12 {
            let mut fake = FakeWriter::with_fault(rt.alloc(), most, usize::MAX, Fault::TakesNone);
            let mut writer = Watched::new(&mut fake);
            let count = length.min(most);
            let is_same = writer.write(&LINE[..length])? == count && !writer.failed();
            let has_passed = fake.bytes.as_slice() == &LINE[..count] && fake.calls == 1;
            assert!(rt; is_same && has_passed, "{length} bytes, {most} a call");
        }
    }
    Ok(())
}

#[test]
fn a_write_failure_is_remembered(rt: HostRuntime) -> Result<(), Fail> {
    for (fault, _) in &FAULTS {
        let mut fake = FakeWriter::with_fault(rt.alloc(), 4, 1, *fault);
        let mut writer = Watched::new(&mut fake);
        let is_sound = writer.flush().is_err() && writer.write(b"")? == 0 && !writer.failed();

        let is_same = writer.write(b"ab").is_ok() == matches!(fault, Fault::TakesNone);
        let has_failed = writer.failed();
        let is_failed = writer.write(b"cd")? == 2 && writer.failed();
        let has_passed = fake.bytes.as_slice() == b"cd".as_slice()
            && fake.calls == 3
            && fake.flushes == 1;
        assert!(rt; is_sound && is_same && has_failed && is_failed && has_passed);
    }
    Ok(())
}

#[test]
fn sends_through_short_writes(rt: HostRuntime) -> Result<(), Fail> {
    for most in 1..=12 {
        let mut fake = FakeWriter::with_fault(rt.alloc(), most, usize::MAX, Fault::TakesNone);
        let mut writer = Watched::new(&mut fake);
        writer.send(LINE)?;
        let has_passed = fake.bytes.as_slice() == LINE.as_slice()
            && fake.calls == 12usize.div_ceil(most);
        assert!(rt; has_passed, "{most} a call");
    }
    Ok(())
}

#[test]
fn ends_at_the_first_failure(rt: HostRuntime) -> Result<(), Fail> {
    for (fault, kind) in &FAULTS {
        for call in 0..4 {
            let mut fake = FakeWriter::with_fault(rt.alloc(), 3, call, *fault);
            let mut writer = Watched::new(&mut fake);
            let Err(error) = writer.send(LINE) else {
                return Err(Fail::from("a failure was hidden"));
            };
            let has_failed = error.kind() == *kind && writer.failed();
            let has_passed = fake.calls == call + 1 && fake.bytes.as_slice() == &LINE[..3 * call];
            assert!(rt; has_failed && has_passed, "at call {call}");
        }
    }
    Ok(())
}

/// A reader of some bytes. It delivers at most `most` bytes a call, and fails at the faulty call.
#[derive(Drop)]
struct FakeReader<'a> {
    rest: &'a [u8],
    calls: usize,
    most: usize,
    faulty_call: usize,
}

impl<'a> FakeReader<'a> {
    fn new(bytes: &'a [u8], most: usize, faulty_call: usize) -> FakeReader<'a> {
        FakeReader {
            rest: bytes,
            calls: 0,
            most,
            faulty_call,
        }
    }
}

impl<'a> Read for FakeReader<'a> {
    fn read(&mut self, buf: &mut [u8]) -> io::Result<usize> {
        let call = self.calls;
        self.calls = call.saturating_add(1);
        if call == self.faulty_call {
            return Err(Error::from(ErrorKind::Interrupted));
        }
        let count = self.rest.len().min(buf.len()).min(self.most);
        let (delivered, rest) = self.rest.split_at(count);
        buf[..count].copy_from_slice(delivered);
        self.rest = rest;
        Ok(count)
    }
}

/// Reads into buffers that are shorter than the reader's bytes, as long, and longer.
#[test]
fn reads_are_passed_on(rt: HostRuntime) -> Result<(), Fail> {
    for most in 1..=13 {
        for room in 1..=13 {
            let mut fake = FakeReader::new(LINE, most, usize::MAX);
            let mut reader = Watched::new(&mut fake);
            let mut is_same = true;
            for delivered in LINE.chunks(room.min(most)) {
                let mut buffer = [0xEE; 13];
                let count = reader.read(&mut buffer[..room])?;
                let are_others = buffer[count..].iter().all(|byte| *byte == 0xEE);
                is_same = is_same && &buffer[..count] == delivered && are_others;
            }
            let has_ended = reader.read(&mut [0xEE; 13])? == 0 && !reader.failed();
            let calls = 12usize.div_ceil(room.min(most)).saturating_add(1);
            assert!(rt;
                is_same && has_ended && fake.calls == calls,
                "{room} bytes, {most} a call"
            );
        }
    }
    Ok(())
}

#[test]
fn a_read_error_is_remembered(rt: HostRuntime) -> Result<(), Fail> {
    for room in 1..=4 {
        let letters: &[u8] = b"abcdefgh";
        let mut fake = FakeReader::new(letters, 4, 2);
        let mut reader = Watched::new(&mut fake);
        let mut buffer = [0xEE; 4];
        let is_empty = reader.read(&mut [])? == 0;
        let is_sound = reader.read(&mut buffer[..room])? == room && !reader.failed();

        let Err(error) = reader.read(&mut buffer[..room]) else {
            return Err(Fail::from("an error was hidden"));
        };
        let has_failed = error.kind() == ErrorKind::Interrupted && reader.failed();

        let is_read = reader.read(&mut buffer[..room])? == room;
        let is_same = &buffer[..room] == &letters[room..2 * room] && reader.failed();
        assert!(rt; is_empty && is_sound && has_failed && is_read && is_same && fake.calls == 4);
    }
    Ok(())
}
