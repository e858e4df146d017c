// The scripts, with the texts that they print.
use std::alloc::{AllocError, Global};
use std::fmt::Write;

/// A line of a script, and the text that it prints after its number. If this text is empty, the
/// line prints nothing.
type Exchange = (&'static [u8], &'static str);

const POWER_ON: &str = "CHECK CONDITION\n  sense: UNIT ATTENTION, 29h/00h\n";

const POWER: &str = "POWER\n";

/// After a power cycle TEST UNIT READY comes from one initiator after the other.
const LINES: [Exchange; 9] = [
    (b"raw 0 000000000000", POWER_ON),
    (b"power", POWER),
    (b"raw 0 000000000000", POWER_ON),
    (b"# prints nothing", ""),
    (b"raw 1 000000000000\r", POWER_ON),
    (b"", ""),
    (b"raw 2 000000000000 zz", "hex\n"),
    (b"raw 3 120000000500", "GOOD\n  00000000  00 00 06 02 1f\n"),
    (b"raw 2 000000000000", POWER_ON),
];

const STATUS: u8 = 6;

/// The lines' script and its text.
#[derive(Drop)]
pub(crate) struct Script {
    pub(crate) bytes: Vec<u8>,
    pub(crate) text: String,
    /// The length of the text of the first lines, for each count of lines from 0 on.
    ends: Vec<usize>,
}

impl Script {
    pub(crate) fn new(alloc: Global) -> Result<Script, AllocError> {
        let mut bytes = Vec::new(alloc);
        let mut text = String::new(alloc);
        let mut ends = Vec::new(alloc);
        ends.push(0)?;
        for (index, (line, printed)) in LINES.iter().enumerate() {
            bytes.extend_from_slice(line)?;
            bytes.push(b'\n')?;
            let number = index.saturating_add(1);
            if !printed.is_empty() {
                write!(text, "line {number}: {printed}")?;
            }
            ends.push(text.len())?;
        }
        Ok(Script { bytes, text, ends })
    }

    pub(crate) fn whole(&self) -> WholeScript<'_> {
        let text = self.text.as_str();
        (&self.bytes, text, STATUS, sent_by(LINES.len()))
    }

    /// The number of lines that are whole in the first bytes.
    pub(crate) fn lines_in(&self, bytes: usize) -> usize {
        let bytes = &self.bytes[..bytes.min(self.bytes.len())];
        bytes.iter().filter(|byte| **byte == b'\n').count()
    }

    /// The number of lines that are executed if only the first bytes of the text are written. The
    /// text of the last of these lines has the byte after them.
    pub(crate) fn lines_written_in(&self, bytes: usize) -> usize {
        self.ends.iter().filter(|end| **end <= bytes).count()
    }

    /// The text that the first lines print.
    pub(crate) fn text_of(&self, lines: usize) -> &[u8] {
        let text = self.text.as_bytes();
        let end = self.ends.get(lines).copied().unwrap_or(text.len());
        &text[..end.min(text.len())]
    }
}

/// The number of initiators that have no unit attention pending after the first lines: they have
/// reported one since the last power cycle.
pub(crate) fn sent_by(lines: usize) -> usize {
    let lines = &LINES[..lines.min(LINES.len())];
    let mut reports: usize = 0;
    for (_, printed) in lines {
        if *printed == POWER_ON {
            reports = reports.saturating_add(1);
        }
        if *printed == POWER {
            reports = 0;
        }
    }
    reports
}

const POWER_ON_1: &str = "line 1: CHECK CONDITION\n  sense: UNIT ATTENTION, 29h/00h\n";

/// A script, its text, its status, and the number of initiators that it sends commands from.
pub(crate) type WholeScript<'a> = (&'a [u8], &'a str, u8, usize);

/// Scripts that end in each way.
pub(crate) const SCRIPTS: [WholeScript<'static>; 9] = [
    (b"", "", 0, 0),
    (b"\n", "", 0, 0),
    (b"\n\n\n", "", 0, 0),
    (b"\r", "", 0, 0),
    (b"\nx", "line 2: unknown verb\n", 1, 0),
    (b"raw 0 000000000000", POWER_ON_1, 6, 1),
    (b"raw 0 000000000000\r", POWER_ON_1, 6, 1),
    (
        b"raw 0 120000000500\nraw 0 000000000000",
        "line 1: GOOD\n  00000000  00 00 06 02 1f\n\
         line 2: CHECK CONDITION\n  sense: UNIT ATTENTION, 29h/00h\n",
        6,
        1,
    ),
    (
        b"raw 0 120000000500\r\nraw 0 000000000000\nraw 0 000000000000\r",
        "line 1: GOOD\n  00000000  00 00 06 02 1f\n\
         line 2: CHECK CONDITION\n  sense: UNIT ATTENTION, 29h/00h\n\
         line 3: GOOD\n",
        6,
        1,
    ),
];
