// A line is labels with values: the bytes that it needs, and its text.
ghost use Rattle.std.specs.Prelude.{◌≡◌, ◌≤◌, length, true};
ghost use Rattle.std.specs.List.{flat_map};
ghost use Rattle.sg_wire.specs.Printer.{PrintsText};
ghost use Rattle.sg_decode.specs.Lines.{line_of, part_text, line_text, line_end, is_sound_line};
ghost use Rattle.sg_decode.specs.Lines.{part_of};
ghost use Rattle.sg_decode.specs.Values.{is_sound, value_end};

use crate::value::Field;
use sg_wire::Printer;
use std::io::Write;

/// The index after the last byte that a line needs.
pub(crate) fn line_end(line: &[Field]) -> usize
    requires { is_sound_line (line_of line.now) ≡ true }
    ensures { result ≡ line_end (line_of line.now) }
{
    match line {
        [] => 0,
        [field, rest @ ..] => field.1.end().max(line_end(rest)),
    }
}

/// Prints a line of some bytes.
#[tactic(auto, using(crate::proofs::TextLemmas::prints), unfolding(crate::specs::Lines::line_text))]
pub(crate) fn put_line<W: Write>(line: &[Field], bytes: &[u8], out: &mut Printer<'_, W>)
    requires sound { is_sound_line (line_of line.now) ≡ true }
    requires present { line_end (line_of line.now) ≤ length bytes.now }
    ensures { PrintsText W.contents out.old out.new (line_text (line_of line.now) bytes.now) }
{
    put_fields(line, bytes, out);
    out.put(b"\n");
}

fn put_fields<W: Write>(line: &[Field], bytes: &[u8], out: &mut Printer<'_, W>)
    requires sound { is_sound_line (line_of line.now) ≡ true }
    requires present { line_end (line_of line.now) ≤ length bytes.now }
    ensures { PrintsText W.contents out.old out.new
        (flat_map (part_text bytes.now) (line_of line.now)) }
{
    for field in line {
        put_field(field, bytes, out);
    }
}

#[tactic(auto, using(crate::proofs::TextLemmas::prints))]
fn put_field<W: Write>(field: &Field, bytes: &[u8], out: &mut Printer<'_, W>)
    requires sound { is_sound field.now.1 ≡ true }
    requires present { value_end field.now.1 ≤ length bytes.now }
    ensures { PrintsText W.contents out.old out.new (part_text bytes.now (part_of field.now)) }
{
    out.put(field.0);
    field.1.put_text(bytes, out);
}
