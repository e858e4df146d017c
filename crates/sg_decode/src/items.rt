// The items of an answer that are shown.
ghost use Rattle.std.specs.Prelude.{◌≡◌, ◌≤◌, ◌<◌, ◌^◌, [], min, slice_range, nat_le, codes};
ghost use Rattle.std.specs.Prelude.{length, drop, true, Some, if◌then◌else◌};
ghost use Rattle.sg_wire.specs.Printer.{PrintsText};
ghost use Rattle.sg_decode.specs.HexText.{hex_lines};
ghost use Rattle.sg_decode.specs.Lines.{are_sound, lines_end, lines_of};
ghost use Rattle.sg_decode.specs.Items.{all_shown, as_present, end_text, entries_from};
ghost use Rattle.sg_decode.specs.Items.{is_shown, line_items, passes, shown};
ghost use Rattle.sg_decode.specs.Entries.{entry_of};

use crate::entry::EntryKind;
use crate::hex_lines::put_hex;
use crate::line::{line_end, put_line};
use crate::value::Field;
use sg_wire::Printer;
use std::io::Write;

/// Whether an item with this end is shown: it passes neither the reported end, if one is known, nor
/// the bytes. If it passes only the bytes, `  truncated` is printed.
pub(crate) fn is_shown<W: Write>(
    end: usize,
    reported: Option<usize>,
    bytes: &[u8],
    out: &mut Printer<'_, W>,
) -> bool
    ensures verdict { result ≡ is_shown reported bytes.now end }
    ensures text { PrintsText W.contents out.old out.new (end_text reported bytes.now end) }
{
    if passes(end, reported) {
        return false;
    }
    if end > bytes.len() {
        out.put(b"  truncated\n");
        return false;
    }
    true
}

fn passes(end: usize, reported: Option<usize>) -> bool
    ensures { result ≡ passes end reported }
{
    match reported {
        Some(reported) => reported < end,
        None => false,
    }
}

/// Shows lines of the bytes, and returns whether all were shown.
pub(crate) fn show_lines<W: Write>(
    lines: &[&[Field]],
    reported: Option<usize>,
    bytes: &[u8],
    out: &mut Printer<'_, W>,
) -> bool
    requires { are_sound (lines_of lines.now) ≡ true }
    ensures verdict { result ≡ all_shown reported bytes.now (line_items (lines_of lines.now)) }
    ensures present { result ≡ true → lines_end (lines_of lines.now) ≤ length bytes.now }
    ensures text { PrintsText W.contents out.old out.new
        (shown reported bytes.now (line_items (lines_of lines.now))) }
{
    for line in lines {
        let end = line_end(line);
        if !is_shown(end, reported, bytes, out) {
            return false;
        }
        put_line(line, &bytes[..end], out);
    }
    true
}

/// Shows entries that follow one another. The first begins at `first`.
pub(crate) fn show_entries<W: Write>(
    kind: EntryKind,
    first: usize,
    reported: usize,
    bytes: &[u8],
    out: &mut Printer<'_, W>,
)
    requires not_first_byte { 1 ≤ first }
    requires first { first ≤ 2 ^ 33 }
    requires reported { reported ≤ 2 ^ 33 }
    requires not_empty { 0 < length bytes.now }
    ensures { PrintsText W.contents out.old out.new
        (shown (Some reported) bytes.now (entries_from (entry_of kind) first bytes.now)) }
{
    let mut start = first;
    'entries: loop {
        let end = start + kind.size(bytes_from(start, bytes));
        if !is_shown(end, Some(reported), bytes, out) {
            return;
        }
        kind.put_text(&bytes[start..end], out);
        start = end;
    }
}

/// The bytes from `first` on; none if `first` is past them.
fn bytes_from(first: usize, bytes: &[u8]) -> &[u8]
    ensures { result.now ≡ drop first bytes.now }
{
    if first <= bytes.len() {
        &bytes[first..]
    } else {
        &[]
    }
}

/// Shows the bytes from `first` up to the reported end in hexadecimal, as far as they are present.
pub(crate) fn show_dump<W: Write>(
    first: usize,
    reported: usize,
    bytes: &[u8],
    out: &mut Printer<'_, W>,
)
    ensures { PrintsText W.contents out.old out.new
        (shown (Some reported) bytes.now (as_present first reported hex_lines bytes.now)) }
{
    put_hex(present_bytes(first, reported, bytes), out);
    put_truncated(reported, bytes, out);
}

/// The bytes from `first` up to the reported end, as far as they are present.
pub(crate) fn present_bytes(first: usize, reported: usize, bytes: &[u8]) -> &[u8]
    ensures bytes { result.now ≡ slice_range bytes.now first (min reported (length bytes.now)) }
    ensures bound { length result.now ≤ reported }
{
    let end = reported.min(bytes.len());
    if first <= end {
        &bytes[first..end]
    } else {
        &[]
    }
}

/// Prints `  truncated` if the reported end is past the bytes.
pub(crate) fn put_truncated<W: Write>(reported: usize, bytes: &[u8], out: &mut Printer<'_, W>)
    ensures { let text = if nat_le reported (length bytes.now) then [] else codes "  truncated\n" in
        PrintsText W.contents out.old out.new text }
{
    if bytes.len() < reported {
        out.put(b"  truncated\n");
    }
}
