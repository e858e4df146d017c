// sg_sync, which sends SYNCHRONIZE CACHE(10), or SYNCHRONIZE CACHE(16) with `--16` (SBC-3, 5.26 and
// 5.27).
ghost use Rattle.std.specs.Prelude.{◌≡◌, option_map};
ghost use Rattle.sg_tools.specs.Requests.{sg_sync, synchronize_10, synchronize_16};

use crate::given_options::GivenOptions;
use crate::option_text::number_or;
use crate::show::Show;
use crate::tool::Tool;
use crate::tool_fault::ToolFault;
use sg_wire::{Command, Extent10, Extent16};

/// The request that the options of sg_sync make.
pub(crate) fn sg_sync(options: &GivenOptions) -> Result<Tool, ToolFault>
    ensures { result ≡ sg_sync options.now }
{
    let lba = options.text("lba");
    let count = options.text("count");
    if options.is_set("16") {
        synchronize_16(lba, count)
    } else {
        synchronize_10(lba, count)
    }
}

fn synchronize_10(lba: Option<&str>, count: Option<&str>) -> Result<Tool, ToolFault>
    ensures { result ≡ synchronize_10
        (option_map (λ t. t.now) lba.entry) (option_map (λ t. t.now) count.entry) }
{
    let lba = number_or(0, 0xffff_ffff, lba);
    let count = number_or(0, 0xffff, count);
    let (Some(lba), Some(count)) = (lba, count) else {
        return Err(ToolFault::Number);
    };
    let command = Command::SynchronizeCache10(Extent10 {
        lba: lba as u32,
        count: count as u16,
    });
    Ok(Tool::without_parameters(command, Show::Nothing))
}

fn synchronize_16(lba: Option<&str>, count: Option<&str>) -> Result<Tool, ToolFault>
    ensures { result ≡ synchronize_16
        (option_map (λ t. t.now) lba.entry) (option_map (λ t. t.now) count.entry) }
{
    let lba = number_or(0, u64::MAX, lba);
    let count = number_or(0, 0xffff_ffff, count);
    let (Some(lba), Some(count)) = (lba, count) else {
        return Err(ToolFault::Number);
    };
    let command = Command::SynchronizeCache16(Extent16 {
        lba,
        count: count as u32,
    });
    Ok(Tool::without_parameters(command, Show::Nothing))
}
