// sg_luns and sg_opcodes, which ask a logical unit what it reports of itself (SPC-4, 6.33, 6.35 and
// 6.36).
ghost use Rattle.std.specs.Prelude.{◌≡◌, Ok, option_map};
ghost use Rattle.sg_tools.specs.Requests.{codes_text, operation_codes, reporting_options, sg_luns};
ghost use Rattle.sg_tools.specs.Requests.{sg_opcodes, task_management};

use crate::given_options::GivenOptions;
use crate::option_text::number_or;
use crate::show::Show;
use crate::tool::Tool;
use crate::tool_fault::ToolFault;
use crate::unit_state::{length_or, text_or_hex};
use sg_wire::{
    Command, ReportLuns, ReportSupportedOperationCodes, ReportSupportedTaskManagementFunctions,
    ThreeBits,
};

/// The allocation length that both tools send by default.
const DEFAULT_LENGTH: u64 = 8192;

/// The request that the options of sg_luns make.
pub(crate) fn sg_luns(options: &GivenOptions) -> Result<Tool, ToolFault>
    ensures { result ≡ sg_luns options.now }
{
    let select = number_or(0, 0xff, options.text("select"));
    let length = number_or(0, 0xffff_ffff, options.text("maxlen"));
    let (Some(select), Some(length)) = (select, length) else {
        return Err(ToolFault::Number);
    };
    let command = Command::ReportLuns(ReportLuns {
        select: select as u8,
        allocation_length: length_or(DEFAULT_LENGTH, length) as u32,
    });
    Ok(Tool::without_parameters(command, text_or_hex(Show::Luns, options)))
}

/// The request that the options of sg_opcodes make.
pub(crate) fn sg_opcodes(options: &GivenOptions) -> Result<Tool, ToolFault>
    ensures { result ≡ sg_opcodes options.now }
{
    let opcode = options.text("opcode");
    let action = options.text("sa");
    let code = number_or(0, 0xff, opcode);
    let action_code = number_or(0, 0xffff, action);
    let (Some(code), Some(action_code)) = (code, action_code) else {
        return Err(ToolFault::Number);
    };
    if options.is_set("tmf") {
        let show = text_or_hex(Show::TaskManagement, options);
        return Ok(task_management(options.is_set("repd"), show));
    }
    if action.is_some() && opcode.is_none() {
        return Err(ToolFault::Usage);
    }
    let rctd = options.is_set("rctd");
    let reporting = reporting_options(opcode, action);
    let show = text_or_hex(codes_text(opcode), options);
    Ok(operation_codes(rctd, reporting, code as u8, action_code as u16, show))
}

fn task_management(repd: bool, show: Show) -> Tool
    ensures { Ok result ≡ task_management repd show }
{
    let fields = ReportSupportedTaskManagementFunctions {
        timeouts: repd,
        allocation_length: if repd { 16 } else { 4 },
    };
    let command = Command::ReportSupportedTaskManagementFunctions(fields);
    Tool::without_parameters(command, show)
}

fn operation_codes(rctd: bool, options: ThreeBits, opcode: u8, action: u16, show: Show) -> Tool
    ensures { Ok result ≡ operation_codes rctd options opcode action show }
{
    let command = Command::ReportSupportedOperationCodes(ReportSupportedOperationCodes {
        timeouts: rctd,
        options,
        opcode,
        action,
        allocation_length: DEFAULT_LENGTH as u32,
    });
    Tool::without_parameters(command, show)
}

/// The answer is about all commands, or about the one that is named.
fn codes_text(opcode: Option<&str>) -> Show
    ensures { result ≡ codes_text (option_map (λ t. t.now) opcode.entry) }
{
    match opcode {
        None => Show::AllCommands,
        Some(_) => Show::OneCommand,
    }
}

/// REPORTING OPTIONS: all commands, or the one that is named.
fn reporting_options(opcode: Option<&str>, action: Option<&str>) -> ThreeBits
    ensures { result ≡ reporting_options
        (option_map (λ t. t.now) opcode.entry) (option_map (λ t. t.now) action.entry) }
{
    let code = match (opcode, action) {
        (None, _) => 0,
        (Some(_), None) => 1,
        (Some(_), Some(_)) => 2,
    };
    ThreeBits::new(code).unwrap()
}
