// The texts for callers with a writer and no `Printer`: each call gathers its text by itself.
ghost use Rattle.std.specs.Prelude.{◌≡◌, false};
ghost use Rattle.sg_wire.specs.Watched.{SendsText, has_failed};
ghost use Rattle.sg_decode.specs.Items.{decoded};
ghost use Rattle.sg_decode.specs.HexText.{hex_lines};
ghost use Rattle.sg_decode.specs.SenseText.{sense_line};
ghost use Rattle.sg_decode.specs.Inquiry.{inquiry};
ghost use Rattle.sg_decode.specs.VitalProductData.{vital_product_data};
ghost use Rattle.sg_decode.specs.ModeParameters.{mode_parameters};
ghost use Rattle.sg_decode.specs.LbaStatus.{lba_status};
ghost use Rattle.sg_decode.specs.PersistentReservation.{capabilities, full_status, keys};
ghost use Rattle.sg_decode.specs.PersistentReservation.{reservation};

use crate::hex_lines::put_hex;
use crate::inquiry::put_inquiry;
use crate::lba_status::put_lba_status;
use crate::mode_parameters::put_modes;
use crate::persistent_reservation::{put_capabilities, put_full_status, put_keys, put_reservation};
use crate::sense::put_sense;
use crate::vital_product_data::put_vpd;
use sg_wire::{CdbWidth, Printer, Watched};
use std::io;
use std::io::Write;

/// The number of bytes of a text that are gathered for a write.
pub const GATHERED: usize = 512;

/// Prints standard INQUIRY data (SPC-4, 6.6.2), and the bytes after its 36 bytes in hex lines.
///
/// # Errors
///
/// The writer failed: a proper prefix of the text has been written.
pub fn print_inquiry<W: Write>(bytes: &[u8], writer: &mut Watched<W>) -> io::Result<()>
    requires { has_failed writer.old ≡ false }
    ensures { SendsText W.contents writer.old writer.new result (decoded inquiry bytes.now) }
{
    let mut buffer = [0; GATHERED];
    let mut out = Printer::new(writer, &mut buffer);
    put_inquiry(bytes, &mut out);
    out.finish()
}

/// Prints a page of vital product data (SPC-4, 7.8).
///
/// # Errors
///
/// The writer failed: a proper prefix of the text has been written.
pub fn print_vpd<W: Write>(bytes: &[u8], writer: &mut Watched<W>) -> io::Result<()>
    requires { has_failed writer.old ≡ false }
    ensures { SendsText W.contents writer.old writer.new result
        (decoded vital_product_data bytes.now) }
{
    let mut buffer = [0; GATHERED];
    let mut out = Printer::new(writer, &mut buffer);
    put_vpd(bytes, &mut out);
    out.finish()
}

/// Prints mode parameters (SPC-4, 7.5) of a MODE SENSE whose CDB has the width.
///
/// # Errors
///
/// The writer failed: a proper prefix of the text has been written.
pub fn print_modes<W: Write>(
    width: CdbWidth,
    bytes: &[u8],
    writer: &mut Watched<W>,
) -> io::Result<()>
    requires { has_failed writer.old ≡ false }
    ensures { SendsText W.contents writer.old writer.new result
        (decoded (mode_parameters width) bytes.now) }
{
    let mut buffer = [0; GATHERED];
    let mut out = Printer::new(writer, &mut buffer);
    put_modes(width, bytes, &mut out);
    out.finish()
}

/// Prints GET LBA STATUS parameter data (SBC-3, 5.4.2), in brief without its length.
///
/// # Errors
///
/// The writer failed: a proper prefix of the text has been written.
pub fn print_lba_status<W: Write>(
    brief: bool,
    bytes: &[u8],
    writer: &mut Watched<W>,
) -> io::Result<()>
    requires { has_failed writer.old ≡ false }
    ensures { SendsText W.contents writer.old writer.new result
        (decoded (lba_status brief) bytes.now) }
{
    let mut buffer = [0; GATHERED];
    let mut out = Printer::new(writer, &mut buffer);
    put_lba_status(brief, bytes, &mut out);
    out.finish()
}

/// Prints the parameter data of PERSISTENT RESERVE IN, READ KEYS (SPC-4, 6.15.2).
///
/// # Errors
///
/// The writer failed: a proper prefix of the text has been written.
pub fn print_keys<W: Write>(bytes: &[u8], writer: &mut Watched<W>) -> io::Result<()>
    requires { has_failed writer.old ≡ false }
    ensures { SendsText W.contents writer.old writer.new result (decoded keys bytes.now) }
{
    let mut buffer = [0; GATHERED];
    let mut out = Printer::new(writer, &mut buffer);
    put_keys(bytes, &mut out);
    out.finish()
}

/// Prints the parameter data of PERSISTENT RESERVE IN, READ RESERVATION (SPC-4, 6.15.3).
///
/// # Errors
///
/// The writer failed: a proper prefix of the text has been written.
pub fn print_reservation<W: Write>(bytes: &[u8], writer: &mut Watched<W>) -> io::Result<()>
    requires { has_failed writer.old ≡ false }
    ensures { SendsText W.contents writer.old writer.new result (decoded reservation bytes.now) }
{
    let mut buffer = [0; GATHERED];
    let mut out = Printer::new(writer, &mut buffer);
    put_reservation(bytes, &mut out);
    out.finish()
}

/// Prints the parameter data of PERSISTENT RESERVE IN, READ FULL STATUS (SPC-4, 6.15.5).
///
/// # Errors
///
/// The writer failed: a proper prefix of the text has been written.
pub fn print_full_status<W: Write>(bytes: &[u8], writer: &mut Watched<W>) -> io::Result<()>
    requires { has_failed writer.old ≡ false }
    ensures { SendsText W.contents writer.old writer.new result (decoded full_status bytes.now) }
{
    let mut buffer = [0; GATHERED];
    let mut out = Printer::new(writer, &mut buffer);
    put_full_status(bytes, &mut out);
    out.finish()
}

/// Prints the parameter data of PERSISTENT RESERVE IN, REPORT CAPABILITIES (SPC-4, 6.15.4).
///
/// # Errors
///
/// The writer failed: a proper prefix of the text has been written.
pub fn print_capabilities<W: Write>(bytes: &[u8], writer: &mut Watched<W>) -> io::Result<()>
    requires { has_failed writer.old ≡ false }
    ensures { SendsText W.contents writer.old writer.new result (decoded capabilities bytes.now) }
{
    let mut buffer = [0; GATHERED];
    let mut out = Printer::new(writer, &mut buffer);
    put_capabilities(bytes, &mut out);
    out.finish()
}

/// Prints the line of sense data (SPC-4, 4.5).
///
/// # Errors
///
/// The writer failed: a proper prefix of the text has been written.
pub fn print_sense<W: Write>(bytes: &[u8], writer: &mut Watched<W>) -> io::Result<()>
    requires { has_failed writer.old ≡ false }
    ensures { SendsText W.contents writer.old writer.new result (sense_line bytes.now) }
{
    let mut buffer = [0; GATHERED];
    let mut out = Printer::new(writer, &mut buffer);
    put_sense(bytes, &mut out);
    out.finish()
}

/// Prints bytes in lines of sixteen: the offset of the first in eight digits, and each byte as
/// two digits, all in lower case.
///
/// # Errors
///
/// The writer failed: a proper prefix of the text has been written.
pub fn print_hex<W: Write>(bytes: &[u8], writer: &mut Watched<W>) -> io::Result<()>
    requires { has_failed writer.old ≡ false }
    ensures { SendsText W.contents writer.old writer.new result (hex_lines bytes.now) }
{
    let mut buffer = [0; GATHERED];
    let mut out = Printer::new(writer, &mut buffer);
    put_hex(bytes, &mut out);
    out.finish()
}
