// The words of a tool become a command with its parameter list, and these become bytes.
ghost use Rattle.std.specs.Prelude.{◌≡◌, ◌≤◌, Ok, length, map};
ghost use Rattle.sg_wire.specs.FirstBytes.{overwritten};
ghost use Rattle.sg_wire.specs.CdbEncoding.{cdb_of};
ghost use Rattle.sg_tools.specs.GivenOptions.{IsUnlessOutOfMemory};
ghost use Rattle.sg_tools.specs.ParameterLists.{max_data_out, parameter_list};
ghost use Rattle.sg_tools.specs.Requests.{asks, request, request_of, sends};

use crate::capacity::sg_readcap;
use crate::compare_and_write::sg_compare_and_write;
use crate::given_options::GivenOptions;
use crate::inquiry::{sg_inq, sg_vpd};
use crate::lba_status::sg_get_lba_status;
use crate::log_sense::sg_logs;
use crate::mode_sense::sg_modes;
use crate::parameters::Parameters;
use crate::report::{sg_luns, sg_opcodes};
use crate::reserve::sg_persist;
use crate::show::Show;
use crate::start_stop::sg_start;
use crate::synchronize_cache::sg_sync;
use crate::tool_fault::ToolFault;
use crate::tool_name::ToolName;
use crate::unit_state::{sg_requests, sg_turs};
use crate::unmap::sg_unmap;
use crate::verify::sg_verify;
use crate::write_same::sg_write_same;
use sg_wire::{CdbBytes, Command};
use std::alloc::Global;

/// The request that the words of a tool make: a command, its parameter list, and how the answer is
/// shown.
#[derive(Drop)]
pub struct Tool {
    /// The command.
    pub command: Command,
    /// Its parameter list.
    pub parameters: Parameters,
    /// How the answer is shown, if the command ends with GOOD.
    pub show: Show,
}

/// The bytes that a tool sends.
#[derive(Drop)]
pub struct Plan {
    /// The CDB.
    pub cdb: CdbBytes,
    /// The length of the data-out, in bytes.
    pub data_out: usize,
    /// How the answer is shown, if the command ends with GOOD.
    pub show: Show,
}

impl Tool {
    /// Reads the request that words make. The first word is the name of the tool, and the others
    /// are its options.
    ///
    /// # Errors
    /// The first of these that applies:
    /// - `Usage` if clap does not accept the words, or if an option is not given that has to be: a
    ///   list of sg_unmap, `--lba` or `--in` of sg_compare_and_write, and one of `--in`, `--lba` and
    ///   `--num` of sg_write_same.
    /// - `Exclusive` if two options exclude one another.
    /// - `Number` if the text of an option, needed or not, has no value or a value out of range.
    /// - `Usage` if the lists of sg_unmap have unequal lengths or more than 64 entries, or if
    ///   `--out` of sg_persist is given without a service action, or `--sa` of sg_opcodes without
    ///   `--opcode` and without `--tmf`.
    ///
    /// If memory is refused, `OutOfMemory` comes in place of any result.
    pub fn parse<'a>(alloc: Global, tool: ToolName, words: &'a [&'a str]) -> Result<Tool, ToolFault>
        ensures { let texts = map (λ word. word.now) words.entry.now in
            IsUnlessOutOfMemory (request tool texts) result }
    {
        match GivenOptions::of_tool(alloc, tool, words) {
            Ok(options) => request_of(tool, &options),
            Err(fault) => Err(fault),
        }
    }

    /// Returns the CDB that the tool sends, and writes its data-out. The data-out goes to the first
    /// bytes of `data_out`, which has at least [`MAX_DATA_OUT`](crate::MAX_DATA_OUT) bytes. The
    /// bytes after it stay as they were.
    pub fn plan(&self, data_out: &mut [u8]) -> Plan
        requires { max_data_out ≤ length data_out.old }
        ensures cdb { result.cdb ≡ cdb_of self.now.command }
        ensures data_out { data_out.new
            ≡ overwritten (parameter_list self.now.parameters) data_out.old }
        ensures length { result.data_out ≡ length (parameter_list self.now.parameters) }
        ensures at_most { result.data_out ≤ max_data_out }
        ensures show { result.show ≡ self.now.show }
    {
        Plan {
            cdb: self.command.write(),
            data_out: self.parameters.write(data_out),
            show: self.show,
        }
    }

    /// A tool whose answer has no data-in.
    pub(crate) fn with_data_out(command: Command, parameters: Parameters) -> Tool
        ensures { Ok result ≡ sends command parameters Show.Nothing }
    {
        Tool {
            command,
            parameters,
            show: Show::Nothing,
        }
    }

    /// A tool without data-out.
    pub(crate) fn without_parameters(command: Command, show: Show) -> Tool
        ensures { Ok result ≡ asks command show }
    {
        Tool {
            command,
            parameters: Parameters::Nothing,
            show,
        }
    }
}

/// The request that the options of a tool make.
fn request_of(tool: ToolName, options: &GivenOptions) -> Result<Tool, ToolFault>
    ensures { result ≡ request_of tool options.now }
{
    match tool {
        ToolName::SgInq => sg_inq(options),
        ToolName::SgVpd => sg_vpd(options),
        ToolName::SgModes => sg_modes(options),
        ToolName::SgUnmap => sg_unmap(options),
        ToolName::SgGetLbaStatus => sg_get_lba_status(options),
        ToolName::SgPersist => sg_persist(options),
        ToolName::SgTurs => Ok(sg_turs()),
        ToolName::SgRequests => sg_requests(options),
        ToolName::SgLuns => sg_luns(options),
        ToolName::SgOpcodes => sg_opcodes(options),
        ToolName::SgLogs => sg_logs(options),
        ToolName::SgReadcap => Ok(sg_readcap(options)),
        ToolName::SgSync => sg_sync(options),
        ToolName::SgVerify => sg_verify(options),
        ToolName::SgCompareAndWrite => sg_compare_and_write(options),
        ToolName::SgWriteSame => sg_write_same(options),
        ToolName::SgStart => sg_start(options),
    }
}
