// sg_get_lba_status, which sends GET LBA STATUS (SBC-3, 5.4).
ghost use Rattle.std.specs.Prelude.{◌≡◌};
ghost use Rattle.sg_tools.specs.Requests.{lba_status_show, sg_get_lba_status};

use crate::given_options::GivenOptions;
use crate::option_text::number_or;
use crate::show::Show;
use crate::tool::Tool;
use crate::tool_fault::ToolFault;
use sg_wire::{Command, GetLbaStatus};

/// The allocation length that is sent by default, of one descriptor.
const DEFAULT_LENGTH: u64 = 24;

/// The request that the options of sg_get_lba_status make.
pub(crate) fn sg_get_lba_status(options: &GivenOptions) -> Result<Tool, ToolFault>
    ensures { result ≡ sg_get_lba_status options.now }
{
    let brief = options.is_set("brief");
    let hex = options.is_set("hex");
    if brief && hex {
        return Err(ToolFault::Exclusive);
    }
    let start = number_or(0, u64::MAX, options.text("lba"));
    let length = number_or(DEFAULT_LENGTH, 0xffff_ffff, options.text("maxlen"));
    let (Some(start), Some(length)) = (start, length) else {
        return Err(ToolFault::Number);
    };
    let command = Command::GetLbaStatus(GetLbaStatus {
        start,
        allocation_length: length as u32,
    });
    Ok(Tool::without_parameters(command, lba_status_show(brief, hex)))
}

fn lba_status_show(brief: bool, hex: bool) -> Show
    ensures { result ≡ lba_status_show brief hex }
{
    match (hex, brief) {
        (true, _) => Show::Hex,
        (false, true) => Show::LbaStatusBrief,
        (false, false) => Show::LbaStatus,
    }
}
