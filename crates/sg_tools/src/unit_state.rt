// sg_turs and sg_requests, which send TEST UNIT READY and REQUEST SENSE (SPC-4, 6.47 and 6.39).
ghost use Rattle.std.specs.Prelude.{◌≡◌, Ok};
ghost use Rattle.sg_tools.specs.Requests.{length_or, sg_requests, sg_turs, text_or_hex};

use crate::given_options::GivenOptions;
use crate::option_text::number_or;
use crate::show::Show;
use crate::tool::Tool;
use crate::tool_fault::ToolFault;
use sg_wire::{Command, RequestSense};

/// The allocation length that REQUEST SENSE has by default, of the longest sense data.
const LONGEST_SENSE: u64 = 252;

/// The request of sg_turs, which has no options.
pub(crate) fn sg_turs() -> Tool
    ensures { Ok result ≡ sg_turs }
{
    Tool::without_parameters(Command::TestUnitReady, Show::Nothing)
}

/// The request that the options of sg_requests make.
pub(crate) fn sg_requests(options: &GivenOptions) -> Result<Tool, ToolFault>
    ensures { result ≡ sg_requests options.now }
{
    let Some(length) = number_or(0, 0xff, options.text("maxlen")) else {
        return Err(ToolFault::Number);
    };
    let command = Command::RequestSense(RequestSense {
        desc: options.is_set("desc"),
        allocation_length: length_or(LONGEST_SENSE, length) as u8,
    });
    Ok(Tool::without_parameters(command, text_or_hex(Show::Sense, options)))
}

/// The text of an answer, or hex lines with `--hex`.
pub(crate) fn text_or_hex(text: Show, options: &GivenOptions) -> Show
    ensures { result ≡ text_or_hex text options.now }
{
    if options.is_set("hex") {
        Show::Hex
    } else {
        text
    }
}

/// An allocation length, or the default in place of 0.
pub(crate) fn length_or(default: u64, given: u64) -> u64
    ensures { result ≡ length_or default given }
{
    if given == 0 { default } else { given }
}
