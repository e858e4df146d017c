// The text that is printed for the bytes of an answer.
ghost use Rattle.std.specs.Prelude.{◌≡◌, ◌≤◌, false, length};
ghost use Rattle.sg_wire.specs.Printer.{PrintsText};
ghost use Rattle.sg_wire.specs.Watched.{SendsText, has_failed};
ghost use Rattle.sg_decode.specs.HexText.{gathered_text};
ghost use Rattle.sg_run.specs.AnswerText.{answer_text};

use sg_decode::{
    GATHERED, GATHERED_TEXT, put_all_commands, put_capabilities, put_capacity_10, put_capacity_16,
    put_defects_10, put_defects_12, put_extended_capabilities, put_extended_full_status,
    put_extended_inquiry, put_extended_sense, put_extended_vpd, put_full_status, put_hex_lines,
    put_inquiry, put_keys, put_lba_status, put_log_page, put_luns, put_modes, put_one_command,
    put_reservation, put_sense, put_task_management, put_vpd,
};
use sg_tools::Show;
use sg_wire::{CdbWidth, Printer, Watched};
use std::io;
use std::io::Write;

/// Prints the bytes of an answer as they are asked for. Hexadecimal lines are gathered in `lines`.
#[inline(always)]
pub(crate) fn put_answer<W: Write>(
    show: Show,
    data_in: &[u8],
    lines: &mut [u8],
    out: &mut Printer<'_, W>,
)
    requires lines { gathered_text ≤ length lines.old }
    ensures { PrintsText W.contents out.old out.new (answer_text show data_in.now) }
{
    match show {
        Show::Nothing => (),
        Show::Hex => put_hex_lines(data_in, lines, out),
        Show::Inquiry => put_inquiry(data_in, out),
        Show::Vpd => put_vpd(data_in, out),
        Show::Modes6 => put_modes(CdbWidth::Six, data_in, out),
        Show::Modes10 => put_modes(CdbWidth::Ten, data_in, out),
        Show::LbaStatus => put_lba_status(false, data_in, out),
        Show::LbaStatusBrief => put_lba_status(true, data_in, out),
        Show::Keys => put_keys(data_in, out),
        Show::Reservation => put_reservation(data_in, out),
        Show::Capabilities => put_capabilities(data_in, out),
        Show::FullStatus => put_full_status(data_in, out),
        Show::Sense => put_sense(data_in, out),
        Show::ExtendedInquiry => put_extended_inquiry(data_in, out),
        Show::ExtendedVpd => put_extended_vpd(data_in, out),
        Show::ExtendedSense => put_extended_sense(data_in, out),
        Show::Luns => put_luns(data_in, out),
        Show::AllCommands => put_all_commands(data_in, out),
        Show::OneCommand => put_one_command(data_in, out),
        Show::TaskManagement => put_task_management(data_in, out),
        Show::LogPage => put_log_page(data_in, out),
        Show::Capacity10 => put_capacity_10(data_in, out),
        Show::Capacity16 => put_capacity_16(data_in, out),
        Show::Defects10 => put_defects_10(data_in, out),
        Show::Defects12 => put_defects_12(data_in, out),
        Show::ExtendedCapabilities => put_extended_capabilities(data_in, out),
        Show::ExtendedFullStatus => put_extended_full_status(data_in, out),
    }
}

/// Prints the bytes of an answer as they are asked for, each kind with its text of `sg_decode`.
///
/// # Errors
///
/// The writer failed: a proper prefix of the text has been written.
pub fn print_answer<W: Write>(show: Show, data_in: &[u8], writer: &mut Watched<W>) -> io::Result<()>
    requires { has_failed writer.old ≡ false }
    ensures { SendsText W.contents writer.old writer.new result (answer_text show data_in.now) }
{
    let mut buffer = [0; GATHERED];
    let mut lines = [0; GATHERED_TEXT];
    let mut out = Printer::new(writer, &mut buffer);
    put_answer(show, data_in, &mut lines, &mut out);
    out.finish()
}
