// The entries of answers, each kind by its own header.
ghost use Rattle.std.specs.Prelude.{◌≡◌, ◌≤◌, ◌<◌, ◌^◌, ◌∷◌, [], filter, length, true, option_map};
ghost use Rattle.std.specs.Prelude.{option_to_list, IfSome};
ghost use Rattle.std.specs.List.{flat_map};
ghost use Rattle.sg_wire.specs.Printer.{PrintsText};
ghost use Rattle.sg_decode.specs.Items.{entry_text, size};
ghost use Rattle.sg_decode.specs.Entries.{designator_line, entry_of, has_subpage, page_line};
ghost use Rattle.sg_decode.specs.Entries.{command_line, command_timeouts, fits_in, parameter_entry};
ghost use Rattle.sg_decode.specs.Entries.{parameter_lines, shown_parameters};
ghost use Rattle.sg_decode.specs.Lines.{is_sound_line, line_end, line_of, line_text};

use crate::line::{line_end, put_line};
use crate::value::{Field, Value, bits_of, number_of_four, number_of_two};
use sg_wire::{Printer, STATUS_DESCRIPTOR_LENGTH};
use std::io::Write;

/// A kind of entries that follow one another in an answer.
#[derive(Clone, Copy)]
pub(crate) enum EntryKind {
    /// Page codes of the page Supported VPD Pages, a byte each.
    SupportedPages,
    /// Designation descriptors: four bytes and the designator (SPC-4, 7.8.6.1).
    Designators,
    /// Mode pages: two bytes, or four with a subpage code, and the parameters (SPC-4, 7.5).
    ModePages,
    /// LBA status descriptors (SBC-3, 5.4.2.2).
    LbaStatusDescriptors,
    /// Reservation keys of eight bytes.
    ReservationKeys,
    /// Full status descriptors: 24 bytes and the TransportID (SPC-4, 6.15.5).
    FullStatusDescriptors,
    /// The same, shown with ALL_TG_PT.
    ExtendedFullStatusDescriptors,
    /// Logical unit numbers of REPORT LUNS (SPC-4, 6.33).
    Luns,
    /// Command descriptors: 8 bytes, and a command timeouts descriptor if CTDP is set (SPC-4, 6.35.2).
    CommandDescriptors,
    /// Command timeouts descriptors (SPC-4, 6.35.4).
    Timeouts,
    /// Page codes of the page Supported Log Pages, a byte each.
    LogPages,
    /// Page codes and subpage codes of the page Supported Log Pages and Subpages.
    LogSubpages,
    /// Log parameters: four bytes and the value (SPC-4, 7.3.2).
    LogParameters,
    /// Log parameters of the page Informational Exceptions.
    LogExceptions,
    /// Log parameters of the page Logical Block Provisioning (SBC-3, log parameters).
    LogResourceCounts,
    /// Mode page policy descriptors (SPC-4, 7.8).
    ModePagePolicies,
    /// SCSI port designation descriptors: 8 bytes, the TransportID of an initiator port, 4 bytes, and the
    /// names of a target port (SPC-4, 7.8).
    ScsiPorts,
    /// Address descriptors of four bytes, of READ DEFECT DATA (SBC-3, 5.3.2).
    ShortDefects,
    /// Address descriptors of eight bytes.
    LongDefects,
}

const SUPPORTED_PAGE: &[Field] = &[Field(b"  supported: ", Value::Code(0, 7, 0))];

const TEXT_DESIGNATOR: &[Field] = &[
    Field(b"  designator: code set ", Value::Bits(0, 3, 0)),
    Field(b", association ", Value::Bits(1, 5, 4)),
    Field(b", type ", Value::Bits(1, 3, 0)),
    Field(b", length ", Value::Number(3, 1)),
    Field(b"\n    ", Value::TextFrom(4)),
];

const HEX_DESIGNATOR: &[Field] = &[
    Field(b"  designator: code set ", Value::Bits(0, 3, 0)),
    Field(b", association ", Value::Bits(1, 5, 4)),
    Field(b", type ", Value::Bits(1, 3, 0)),
    Field(b", length ", Value::Number(3, 1)),
    Field(b"\n    hex: ", Value::HexFrom(4)),
];

const MODE_PAGE: &[Field] = &[
    Field(b"  page ", Value::Code(0, 5, 0)),
    Field(b", PS ", Value::Bits(0, 7, 7)),
    Field(b": ", Value::HexFrom(2)),
];

const MODE_SUBPAGE: &[Field] = &[
    Field(b"  page ", Value::Code(0, 5, 0)),
    Field(b"/", Value::Code(1, 7, 0)),
    Field(b", PS ", Value::Bits(0, 7, 7)),
    Field(b": ", Value::HexFrom(4)),
];

const ERROR_RECOVERY: &[Field] = &[
    Field(b"    AWRE: ", Value::Bits(2, 7, 7)),
    Field(b", ARRE: ", Value::Bits(2, 6, 6)),
    Field(b", read retries: ", Value::Number(3, 1)),
    Field(b", write retries: ", Value::Number(8, 1)),
];

const CACHING: &[Field] = &[
    Field(b"    WCE: ", Value::Bits(2, 2, 2)),
    Field(b", RCD: ", Value::Bits(2, 0, 0)),
];

const CONTROL: &[Field] = &[
    Field(b"    D_SENSE: ", Value::Bits(2, 2, 2)),
    Field(b", SWP: ", Value::Bits(4, 3, 3)),
];

const INFORMATIONAL_EXCEPTIONS: &[Field] = &[Field(b"    DEXCPT: ", Value::Bits(2, 3, 3))];

const LBA_STATUS: &[Field] = &[
    Field(b"  ", Value::Address(0)),
    Field(b" ", Value::Number(8, 4)),
    Field(b" ", Value::ProvisioningStatus(12)),
];

const RESERVATION_KEY: &[Field] = &[Field(b"  key: ", Value::Address(0))];

const FULL_STATUS: &[Field] = &[
    Field(b"  key: ", Value::Address(0)),
    Field(b", holder: ", Value::Bits(12, 0, 0)),
    Field(b", scope: ", Value::Bits(13, 7, 4)),
    Field(b", type: ", Value::Bits(13, 3, 0)),
    Field(b", port: ", Value::Number(18, 2)),
    Field(b", transport: ", Value::HexFrom(24)),
];

const EXTENDED_FULL_STATUS: &[Field] = &[
    Field(b"  key: ", Value::Address(0)),
    Field(b", all target ports: ", Value::Bits(12, 1, 1)),
    Field(b", holder: ", Value::Bits(12, 0, 0)),
    Field(b", scope: ", Value::Bits(13, 7, 4)),
    Field(b", type: ", Value::Bits(13, 3, 0)),
    Field(b", port: ", Value::Number(18, 2)),
    Field(b", transport: ", Value::HexFrom(24)),
];

const LUN: &[Field] = &[Field(b"  LUN: ", Value::Address(0))];

const COMMAND: &[Field] = &[
    Field(b"  opcode: ", Value::Code(0, 7, 0)),
    Field(b", CDB length: ", Value::Number(6, 2)),
];

const COMMAND_WITH_ACTION: &[Field] = &[
    Field(b"  opcode: ", Value::Code(0, 7, 0)),
    Field(b", service action: ", Value::Digits(2, 2)),
    Field(b", CDB length: ", Value::Number(6, 2)),
];

const COMMAND_TIMEOUTS: &[Field] = &[
    Field(b"    command specific: ", Value::Number(11, 1)),
    Field(b", nominal timeout: ", Value::Number(12, 4)),
    Field(b", recommended timeout: ", Value::Number(16, 4)),
];

const TIMEOUTS: &[Field] = &[
    Field(b"    command specific: ", Value::Number(3, 1)),
    Field(b", nominal timeout: ", Value::Number(4, 4)),
    Field(b", recommended timeout: ", Value::Number(8, 4)),
];

/// The length of a command timeouts descriptor.
pub(crate) const TIMEOUTS_LENGTH: usize = 12;

const LOG_PAGE: &[Field] = &[Field(b"  supported: ", Value::Code(0, 5, 0))];

const LOG_SUBPAGE: &[Field] = &[
    Field(b"  supported: ", Value::Code(0, 5, 0)),
    Field(b"/", Value::Code(1, 7, 0)),
];

const LOG_PARAMETER: &[Field] = &[
    Field(b"  parameter ", Value::Digits(0, 2)),
    Field(b", control ", Value::Code(2, 7, 0)),
    Field(b": ", Value::HexFrom(4)),
];

const LOG_EXCEPTION: &[Field] = &[
    Field(b"    exception: ", Value::Code(4, 7, 0)),
    Field(b"/", Value::Code(5, 7, 0)),
    Field(b", temperature: ", Value::Number(6, 1)),
];

const LOG_RESOURCE_COUNT: &[Field] = &[
    Field(b"    resource count: ", Value::Number(4, 4)),
    Field(b", scope: ", Value::Bits(8, 1, 0)),
];

const MODE_PAGE_POLICY: &[Field] = &[
    Field(b"  page ", Value::Code(0, 5, 0)),
    Field(b"/", Value::Code(1, 7, 0)),
    Field(b", MLUS: ", Value::Bits(2, 7, 7)),
    Field(b", policy: ", Value::Bits(2, 1, 0)),
];

const SCSI_PORT: &[Field] = &[
    Field(b"  port: ", Value::Number(2, 2)),
    Field(b", TransportID length: ", Value::Number(6, 2)),
    Field(b"\n    hex: ", Value::HexFrom(8)),
];

const SHORT_DEFECT: &[Field] = &[Field(b"  defect: ", Value::Digits(0, 4))];

const LONG_DEFECT: &[Field] = &[Field(b"  defect: ", Value::Address(0))];

impl EntryKind {
    /// The size of the first entry of some bytes. If not all of its header is present, it is the
    /// size of the header.
    pub(crate) fn size(self, bytes: &[u8]) -> usize
        ensures value { result ≡ size (entry_of self) bytes.now }
        ensures not_zero { 1 ≤ result }
        ensures bound { result < 2 ^ 33 }
    {
        let header = self.header(bytes);
        if header <= bytes.len() {
            header + self.following(bytes)
        } else {
            header
        }
    }

    /// The length of its header.
    fn header(self, bytes: &[u8]) -> usize
        ensures value { result ≡ (entry_of self).header bytes.now }
        ensures not_zero { 1 ≤ result }
        ensures at_most_24 { result ≤ 24 }
    {
        match self {
            EntryKind::SupportedPages => 1,
            EntryKind::Designators => 4,
            EntryKind::ModePages => if has_subpage(bytes) { 4 } else { 2 },
            EntryKind::LbaStatusDescriptors => STATUS_DESCRIPTOR_LENGTH,
            EntryKind::ReservationKeys
            | EntryKind::Luns
            | EntryKind::CommandDescriptors
            | EntryKind::ScsiPorts
            | EntryKind::LongDefects => 8,
            EntryKind::FullStatusDescriptors | EntryKind::ExtendedFullStatusDescriptors => 24,
            EntryKind::Timeouts => TIMEOUTS_LENGTH,
            EntryKind::LogPages => 1,
            EntryKind::LogSubpages => 2,
            EntryKind::LogParameters
            | EntryKind::LogExceptions
            | EntryKind::LogResourceCounts
            | EntryKind::ModePagePolicies
            | EntryKind::ShortDefects => 4,
        }
    }

    /// The number of bytes after its header.
    fn following(self, bytes: &[u8]) -> usize
        requires { (entry_of self).header bytes.now ≤ length bytes.now }
        ensures value { result ≡ (entry_of self).following bytes.now }
        ensures bound { result < 2 ^ 32 }
    {
        match self {
            EntryKind::SupportedPages
            | EntryKind::LbaStatusDescriptors
            | EntryKind::ReservationKeys
            | EntryKind::Luns
            | EntryKind::Timeouts
            | EntryKind::LogPages
            | EntryKind::LogSubpages
            | EntryKind::ModePagePolicies
            | EntryKind::ShortDefects
            | EntryKind::LongDefects => 0,
            EntryKind::Designators
            | EntryKind::LogParameters
            | EntryKind::LogExceptions
            | EntryKind::LogResourceCounts => usize::from(bytes[3]),
            EntryKind::ModePages => parameter_length(bytes),
            EntryKind::FullStatusDescriptors | EntryKind::ExtendedFullStatusDescriptors => {
                number_of_four(20, bytes)
            }
            EntryKind::CommandDescriptors => timeouts_length(bytes),
            EntryKind::ScsiPorts => port_names_length(bytes),
        }
    }

    /// Prints an entry. At least its header is present.
    pub(crate) fn put_text<W: Write>(self, bytes: &[u8], out: &mut Printer<'_, W>)
        requires { (entry_of self).header bytes.now ≤ length bytes.now }
        ensures { PrintsText W.contents out.old out.new (entry_text (entry_of self) bytes.now) }
    {
        match self {
            EntryKind::SupportedPages => put_line(SUPPORTED_PAGE, bytes, out),
            EntryKind::Designators => put_line(designator_line(bytes), bytes, out),
            EntryKind::ModePages => put_mode_page(bytes, out),
            EntryKind::LbaStatusDescriptors => put_line(LBA_STATUS, bytes, out),
            EntryKind::ReservationKeys => put_line(RESERVATION_KEY, bytes, out),
            EntryKind::FullStatusDescriptors => put_line(FULL_STATUS, bytes, out),
            EntryKind::ExtendedFullStatusDescriptors => put_line(EXTENDED_FULL_STATUS, bytes, out),
            EntryKind::Luns => put_line(LUN, bytes, out),
            EntryKind::CommandDescriptors => put_command(bytes, out),
            EntryKind::Timeouts => put_line(TIMEOUTS, bytes, out),
            EntryKind::LogPages => put_line(LOG_PAGE, bytes, out),
            EntryKind::LogSubpages => put_line(LOG_SUBPAGE, bytes, out),
            EntryKind::LogParameters => put_line(LOG_PARAMETER, bytes, out),
            EntryKind::LogExceptions => put_log_parameter(LOG_EXCEPTION, bytes, out),
            EntryKind::LogResourceCounts => put_log_parameter(LOG_RESOURCE_COUNT, bytes, out),
            EntryKind::ModePagePolicies => put_line(MODE_PAGE_POLICY, bytes, out),
            EntryKind::ScsiPorts => put_line(SCSI_PORT, bytes, out),
            EntryKind::ShortDefects => put_line(SHORT_DEFECT, bytes, out),
            EntryKind::LongDefects => put_line(LONG_DEFECT, bytes, out),
        }
    }
}

/// The line of a designation descriptor.
fn designator_line(own: &[u8]) -> &'static [Field]
    requires { 4 ≤ length own.now }
    ensures line { line_of result.now ≡ designator_line own.now }
    ensures sound { is_sound_line (line_of result.now) ≡ true }
    ensures end { line_end (line_of result.now) ≡ 4 }
{
    if bits_of(own[0], 3, 0) == 2 {
        TEXT_DESIGNATOR
    } else {
        HEX_DESIGNATOR
    }
}

/// SPF, a bit of a mode page's first byte (SPC-4, 7.5): there is a subpage code.
const SPF: u8 = 0x40;

/// Whether a mode page has a subpage code, and two bytes of length.
fn has_subpage(page: &[u8]) -> bool
    ensures { result ≡ has_subpage page.now }
{
    match page.first() {
        Some(byte) => *byte & SPF != 0,
        None => false,
    }
}

/// PAGE LENGTH of a mode page.
fn parameter_length(page: &[u8]) -> usize
    requires { (entry_of EntryKind.ModePages).header page.now ≤ length page.now }
    ensures value { result ≡ (entry_of EntryKind.ModePages).following page.now }
    ensures bound { result < 2 ^ 16 }
{
    if has_subpage(page) {
        number_of_two(2, page)
    } else {
        usize::from(page[1])
    }
}

fn put_mode_page<W: Write>(page: &[u8], out: &mut Printer<'_, W>)
    requires { (entry_of EntryKind.ModePages).header page.now ≤ length page.now }
    ensures { PrintsText W.contents out.old out.new
        (entry_text (entry_of EntryKind.ModePages) page.now) }
{
    put_line(page_line(page), page, out);
    put_parameters(page, out);
}

fn page_line(page: &[u8]) -> &'static [Field]
    ensures line { line_of result.now ≡ page_line page.now }
    ensures sound { is_sound_line (line_of result.now) ≡ true }
    ensures end { line_end (line_of result.now) ≡ (entry_of EntryKind.ModePages).header page.now }
{
    if has_subpage(page) {
        MODE_SUBPAGE
    } else {
        MODE_PAGE
    }
}

/// Prints some parameters of a page without subpage code that has them all.
fn put_parameters<W: Write>(page: &[u8], out: &mut Printer<'_, W>)
    requires { 1 ≤ length page.now }
    ensures { PrintsText W.contents out.old out.new
        (flat_map (λ line. line_text line page.now) (shown_parameters page.now)) }
{
    if has_subpage(page) {
        return;
    }
    let Some(line) = parameter_line(bits_of(page[0], 5, 0)) else {
        return;
    };
    if line_end(line) <= page.len() {
        put_line(line, page, out);
    }
}

/// The line of some parameters of a page, by its page code.
fn parameter_line(code: u8) -> Option<&'static [Field]>
    ensures line { option_to_list (option_map (λ fields. line_of fields.now) result)
        ≡ parameter_lines code }
    ensures sound { IfSome result (λ fields. is_sound_line (line_of fields.now) ≡ true) }
{
    match code {
        0x01 => Some(ERROR_RECOVERY),
        0x08 => Some(CACHING),
        0x0a => Some(CONTROL),
        0x1c => Some(INFORMATIONAL_EXCEPTIONS),
        _ => None,
    }
}

/// CTDP, a bit of byte 5 of a command descriptor (SPC-4, 6.35.2): timeouts follow.
const CTDP: u8 = 0x02;

/// SERVACTV, a bit of byte 5 of a command descriptor (SPC-4, 6.35.2): there is a service action.
const SERVACTV: u8 = 0x01;

/// The length of the timeouts of a command descriptor.
fn timeouts_length(own: &[u8]) -> usize
    requires { 8 ≤ length own.now }
    ensures value { result ≡ (entry_of EntryKind.CommandDescriptors).following own.now }
    ensures bound { result < 2 ^ 32 }
{
    if own[5] & CTDP == 0 {
        0
    } else {
        TIMEOUTS_LENGTH
    }
}

fn put_command<W: Write>(own: &[u8], out: &mut Printer<'_, W>)
    requires { (entry_of EntryKind.CommandDescriptors).header own.now ≤ length own.now }
    ensures { PrintsText W.contents out.old out.new
        (entry_text (entry_of EntryKind.CommandDescriptors) own.now) }
{
    put_line(command_line(own), own, out);
    put_command_timeouts(own, out);
}

/// The line of a command descriptor.
fn command_line(own: &[u8]) -> &'static [Field]
    requires { 8 ≤ length own.now }
    ensures line { line_of result.now ≡ command_line own.now }
    ensures sound { is_sound_line (line_of result.now) ≡ true }
    ensures end { line_end (line_of result.now) ≡ 8 }
{
    if own[5] & SERVACTV == 0 {
        COMMAND
    } else {
        COMMAND_WITH_ACTION
    }
}

/// Prints the timeouts of a command descriptor, if it has them.
fn put_command_timeouts<W: Write>(own: &[u8], out: &mut Printer<'_, W>)
    requires { 8 ≤ length own.now }
    ensures { PrintsText W.contents out.old out.new
        (flat_map (λ line. line_text line own.now) (command_timeouts own.now)) }
{
    if own[5] & CTDP != 0 {
        put_fitting(COMMAND_TIMEOUTS, own, out);
    }
}

/// Prints a line of an entry, if the entry has all of the line's fields.
fn put_fitting<W: Write>(line: &[Field], own: &[u8], out: &mut Printer<'_, W>)
    requires { is_sound_line (line_of line.now) ≡ true }
    ensures { PrintsText W.contents out.old out.new
        (flat_map (λ line. line_text line own.now) (filter (fits_in own.now) (line_of line.now ∷ []))) }
{
    if line_end(line) <= own.len() {
        put_line(line, own, out);
    }
}

/// Prints a log parameter, and a line of the fields in its value.
fn put_log_parameter<W: Write>(fields: &[Field], own: &[u8], out: &mut Printer<'_, W>)
    requires header { 4 ≤ length own.now }
    requires sound { is_sound_line (line_of fields.now) ≡ true }
    ensures { PrintsText W.contents out.old out.new
        (entry_text (parameter_entry (line_of fields.now ∷ [])) own.now) }
{
    put_line(LOG_PARAMETER, own, out);
    put_fitting(fields, own, out);
}

/// The number of bytes after the first eight of a SCSI port designation descriptor.
fn port_names_length(port: &[u8]) -> usize
    requires { 8 ≤ length port.now }
    ensures value { result ≡ (entry_of EntryKind.ScsiPorts).following port.now }
    ensures bound { result < 2 ^ 32 }
{
    let transport_id = number_of_two(6, port);
    let names = if 12 + transport_id <= port.len() {
        number_of_two(10 + transport_id, port)
    } else {
        0
    };
    transport_id + 4 + names
}
