// sg_logs, which sends LOG SENSE (SPC-4, 6.8).
ghost use Rattle.std.specs.Prelude.{◌≡◌};
ghost use Rattle.sg_tools.specs.Requests.{sg_logs};

use crate::given_options::GivenOptions;
use crate::mode_sense::mode_page_or;
use crate::option_text::number_or;
use crate::show::Show;
use crate::tool::Tool;
use crate::tool_fault::ToolFault;
use crate::unit_state::{length_or, text_or_hex};
use sg_wire::{Command, LogSense};

/// The page of the supported pages.
const SUPPORTED_PAGES: u64 = 0x00;

/// The allocation length that is sent by default.
const DEFAULT_LENGTH: u64 = 65_532;

/// The request that the options of sg_logs make.
pub(crate) fn sg_logs(options: &GivenOptions) -> Result<Tool, ToolFault>
    ensures { result ≡ sg_logs options.now }
{
    let page = mode_page_or(SUPPORTED_PAGES, options.text("page"));
    let pointer = number_or(0, 0xffff, options.text("paramp"));
    let length = number_or(0, 0xffff, options.text("maxlen"));
    let (Some((page_code, subpage_code)), Some(pointer), Some(length)) = (page, pointer, length)
    else {
        return Err(ToolFault::Number);
    };
    let command = Command::LogSense(LogSense {
        page_code,
        subpage_code,
        parameter_pointer: pointer as u16,
        allocation_length: length_or(DEFAULT_LENGTH, length) as u16,
    });
    Ok(Tool::without_parameters(command, text_or_hex(Show::LogPage, options)))
}
