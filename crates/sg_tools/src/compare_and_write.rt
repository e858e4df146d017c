// sg_compare_and_write, which sends COMPARE AND WRITE (SBC-3, 5.2).
ghost use Rattle.std.specs.Prelude.{◌≡◌};
ghost use Rattle.sg_tools.specs.Requests.{sg_compare_and_write};

use crate::data_out::DataOut;
use crate::given_options::GivenOptions;
use crate::number::read_number_up_to;
use crate::option_text::number_or;
use crate::parameters::Parameters;
use crate::tool::Tool;
use crate::tool_fault::ToolFault;
use sg_wire::{Command, CompareAndWrite};

/// The request that the options of sg_compare_and_write make.
pub(crate) fn sg_compare_and_write(options: &GivenOptions) -> Result<Tool, ToolFault>
    ensures { result ≡ sg_compare_and_write options.now }
{
    let (Some(lba), Some(word)) = (options.text("lba"), options.text("in")) else {
        return Err(ToolFault::Usage);
    };
    let lba = read_number_up_to(u64::MAX, lba.as_bytes());
    let count = number_or(1, 0xff, options.text("num"));
    let sent = DataOut::of_word(word.as_bytes());
    let (Some(lba), Some(count), Some(sent)) = (lba, count, sent) else {
        return Err(ToolFault::Number);
    };
    let command = Command::CompareAndWrite(CompareAndWrite {
        lba,
        count: count as u8,
    });
    Ok(Tool::with_data_out(command, Parameters::Bytes(sent)))
}
