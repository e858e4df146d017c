// sg_write_same, which sends WRITE SAME(10) or WRITE SAME(16) (SBC-3, 5.43 and 5.44).
ghost use Rattle.std.specs.Prelude.{◌≡◌, ◌≤◌, IfSome};
ghost use Rattle.sg_tools.specs.DataOutOptions.{excludes, filled_block, is_none_given};
ghost use Rattle.sg_tools.specs.DataOutOptions.{short_extent, write_same};
ghost use Rattle.sg_tools.specs.Requests.{sg_write_same, write_block};

use crate::given_options::GivenOptions;
use crate::option_text::number_or;
use crate::parameters::Parameters;
use crate::tool::Tool;
use crate::tool_fault::ToolFault;
use crate::verify::data_or;
use sg_wire::{Command, WriteSame10, WriteSame16};

/// The request that the options of sg_write_same make.
pub(crate) fn sg_write_same(options: &GivenOptions) -> Result<Tool, ToolFault>
    ensures { result ≡ sg_write_same options.now }
{
    let word = options.text("in");
    let lba = options.text("lba");
    let count = options.text("num");
    let has_word = word.is_some();
    if is_none_given(has_word, lba.is_some(), count.is_some()) {
        return Err(ToolFault::Usage);
    }
    let widths = Widths {
        short: options.is_set("10"),
        long: options.is_set("16"),
    };
    let ones = options.is_set("ff");
    let ndob = options.is_set("ndob");
    if excludes(has_word, ones, ndob, widths) {
        return Err(ToolFault::Exclusive);
    }
    let fields = WriteSameBits {
        anchor: options.is_set("anchor"),
        unmap: options.is_set("unmap"),
        ndob,
    };
    let lba = number_or(0, u64::MAX, lba);
    let count = number_or(1, 0xffff_ffff, count);
    write_block(
        widths,
        fields,
        lba,
        count,
        data_or(filled_block(ones, ndob), word),
    )
}

fn is_none_given(word: bool, lba: bool, count: bool) -> bool
    ensures { result ≡ is_none_given word lba count }
{
    !(word || lba || count)
}

fn excludes(word: bool, ones: bool, ndob: bool, widths: Widths) -> bool
    ensures { result ≡ excludes word ones ndob widths.short widths.long }
{
    (word && ones) || (widths.short && widths.long) || (ndob && (word || ones || widths.short))
}

fn filled_block(ones: bool, ndob: bool) -> Parameters
    ensures { result ≡ filled_block ones ndob }
{
    if ndob {
        return Parameters::Nothing;
    }
    Parameters::Block(if ones { 0xFF } else { 0x00 })
}

/// ANCHOR, UNMAP and NDOB.
#[derive(Clone, Copy)]
struct WriteSameBits {
    anchor: bool,
    unmap: bool,
    ndob: bool,
}

/// WRITE SAME, if the address, the count and the data-out have values, and the CDB has room for them.
fn write_block(
    widths: Widths,
    bits: WriteSameBits,
    lba: Option<u64>,
    count: Option<u64>,
    sent: Option<Parameters>,
) -> Result<Tool, ToolFault>
    requires { IfSome count (λ n. n ≤ 0xFFFFFFFF) }
    ensures { result ≡ write_block widths.short widths.long bits.anchor bits.unmap bits.ndob lba count
        sent }
{
    let (Some(lba), Some(count), Some(sent)) = (lba, count, sent) else {
        return Err(ToolFault::Number);
    };
    let fields = WriteSame16 {
        lba,
        count: count as u32,
        anchor: bits.anchor,
        unmap: bits.unmap,
        ndob: bits.ndob,
    };
    match write_same(widths, fields) {
        Some(command) => Ok(Tool::with_data_out(command, sent)),
        None => Err(ToolFault::Number),
    }
}

/// The widths of the CDB that are asked for: 10 bytes, and 16.
#[derive(Clone, Copy)]
struct Widths {
    short: bool,
    long: bool,
}

/// The command with these fields. None if it has to be WRITE SAME(10), which has no room for them.
fn write_same(widths: Widths, fields: WriteSame16) -> Option<Command>
    ensures { result ≡ write_same widths.short widths.long fields.anchor fields.unmap fields.ndob
        fields.lba fields.count (short_extent fields.lba fields.count) }
{
    let Some((lba, count)) = short_extent(fields.lba, fields.count) else {
        if widths.short {
            return None;
        }
        return Some(Command::WriteSame16(fields));
    };
    if widths.short || !(widths.long || fields.unmap || fields.ndob) {
        return Some(Command::WriteSame10(WriteSame10 {
            lba,
            count,
            anchor: fields.anchor,
            unmap: fields.unmap,
        }));
    }
    Some(Command::WriteSame16(fields))
}

/// The address and the count, if WRITE SAME(10) has room for them.
fn short_extent(lba: u64, count: u32) -> Option<(u32, u16)>
    ensures { result ≡ short_extent lba count }
{
    if lba <= 0xffff_ffff && count <= 0xffff {
        Some((lba as u32, count as u16))
    } else {
        None
    }
}
