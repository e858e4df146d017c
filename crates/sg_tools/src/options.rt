// The options of each tool as a table, with the rows of the table in `specs/Options.antt`.
ghost use Rattle.std.specs.Prelude.{◌≡◌, IfOk, Some, map, false};
ghost use Rattle.clap.specs.Words.{app_of, new_rule, rule_of};
ghost use Rattle.sg_tools.specs.Options.{command_line, options_of, rule, with_rules};
ghost use Rattle.sg_tools.specs.OptionTables.{option_row, option_rows};

use crate::tool_name::ToolName;
use ToolOption::{Flag, LongFlag, Text};
use clap::{Arg, ArgAction, Command};
use std::alloc::{AllocError, Global};

/// An option: its short name, if it has one, and its long name.
pub(crate) enum ToolOption {
    // It has no text.
    Flag(char, &'static str),
    LongFlag(&'static str),
    // It has a text.
    Text(char, &'static str),
}

const SG_INQ: &[ToolOption] = &[
    Flag('e', "vpd"),
    Text('p', "page"),
    Text('l', "len"),
    Flag('H', "hex"),
    Flag('i', "id"),
];

const SG_VPD: &[ToolOption] = &[Text('p', "page"), Flag('H', "hex"), Text('m', "maxlen")];

const SG_MODES: &[ToolOption] = &[
    Flag('a', "all"),
    Text('c', "control"),
    Flag('d', "dbd"),
    Flag('L', "llbaa"),
    Text('p', "page"),
    LongFlag("six"),
    Flag('H', "hex"),
];

const SG_UNMAP: &[ToolOption] = &[
    Text('l', "lba"),
    Text('n', "num"),
    Flag('a', "anchor"),
    Text('g', "grpnum"),
];

const SG_GET_LBA_STATUS: &[ToolOption] = &[
    Text('l', "lba"),
    Text('m', "maxlen"),
    Flag('b', "brief"),
    Flag('H', "hex"),
];

const SG_PERSIST: &[ToolOption] = &[
    Flag('k', "read-keys"),
    Flag('r', "read-reservation"),
    Flag('c', "report-capabilities"),
    Flag('s', "read-full-status"),
    Flag('G', "register"),
    Flag('I', "register-ignore"),
    Flag('R', "reserve"),
    Flag('L', "release"),
    Flag('C', "clear"),
    Flag('P', "preempt"),
    Flag('A', "preempt-abort"),
    Text('K', "param-rk"),
    Text('S', "param-sark"),
    Text('T', "prout-type"),
    Flag('Z', "param-aptpl"),
    Flag('n', "no-inquiry"),
    Flag('i', "in"),
    Flag('o', "out"),
];

const SG_TURS: &[ToolOption] = &[];

const SG_REQUESTS: &[ToolOption] = &[Flag('d', "desc"), Text('m', "maxlen"), Flag('H', "hex")];

const SG_LUNS: &[ToolOption] = &[Text('s', "select"), Text('m', "maxlen"), Flag('H', "hex")];

const SG_OPCODES: &[ToolOption] = &[
    Text('o', "opcode"),
    Text('s', "sa"),
    Flag('R', "rctd"),
    Flag('t', "tmf"),
    Flag('q', "repd"),
    Flag('n', "no-inquiry"),
    Flag('H', "hex"),
];

const SG_LOGS: &[ToolOption] = &[
    Text('p', "page"),
    Text('P', "paramp"),
    Text('m', "maxlen"),
    Flag('H', "hex"),
];

const SG_READCAP: &[ToolOption] = &[LongFlag("16"), Flag('l', "long"), Flag('H', "hex")];

const SG_SYNC: &[ToolOption] = &[Flag('S', "16"), Text('l', "lba"), Text('c', "count")];

const SG_VERIFY: &[ToolOption] = &[
    Flag('S', "16"),
    Text('l', "lba"),
    Text('c', "count"),
    Text('E', "ebytchk"),
    Text('i', "in"),
    Flag('0', "0"),
    Flag('f', "ff"),
];

const SG_COMPARE_AND_WRITE: &[ToolOption] = &[Text('l', "lba"), Text('n', "num"), Text('i', "in")];

const SG_WRITE_SAME: &[ToolOption] = &[
    Flag('R', "10"),
    Flag('S', "16"),
    Text('l', "lba"),
    Text('n', "num"),
    Flag('a', "anchor"),
    Flag('U', "unmap"),
    Flag('N', "ndob"),
    Text('i', "in"),
    Flag('f', "ff"),
];

const SG_START: &[ToolOption] = &[
    Flag('e', "eject"),
    Flag('l', "load"),
    Flag('L', "loej"),
    Text('m', "mod"),
    Text('p', "pc"),
    Flag('s', "start"),
    Flag('S', "stop"),
];

/// The options of a tool.
fn options_of(tool: ToolName) -> &'static [ToolOption]
    ensures { option_rows result.now ≡ options_of tool }
{
    match tool {
        ToolName::SgInq => SG_INQ,
        ToolName::SgVpd => SG_VPD,
        ToolName::SgModes => SG_MODES,
        ToolName::SgUnmap => SG_UNMAP,
        ToolName::SgGetLbaStatus => SG_GET_LBA_STATUS,
        ToolName::SgPersist => SG_PERSIST,
        ToolName::SgTurs => SG_TURS,
        ToolName::SgRequests => SG_REQUESTS,
        ToolName::SgLuns => SG_LUNS,
        ToolName::SgOpcodes => SG_OPCODES,
        ToolName::SgLogs => SG_LOGS,
        ToolName::SgReadcap => SG_READCAP,
        ToolName::SgSync => SG_SYNC,
        ToolName::SgVerify => SG_VERIFY,
        ToolName::SgCompareAndWrite => SG_COMPARE_AND_WRITE,
        ToolName::SgWriteSame => SG_WRITE_SAME,
        ToolName::SgStart => SG_START,
    }
}

/// The command line of a tool.
pub(crate) fn command_line<'a>(alloc: Global, tool: ToolName) -> Result<Command<'a>, AllocError>
    ensures { IfOk result (λ c. app_of c ≡ command_line tool) }
{
    let name: &'a str = tool.name();
    with_options(alloc, Command::new(alloc, name), options_of(tool))
}

fn with_options<'a>(
    alloc: Global,
    command: Command<'a>,
    options: &'static [ToolOption],
) -> Result<Command<'a>, AllocError>
    ensures { let rules = map rule (option_rows options.now) in
        IfOk result (λ c. app_of c ≡ with_rules (app_of command.entry) rules) }
{
    let mut command = command;
    for option in options {
        command = command.arg(arg(alloc, option))?;
    }
    Ok(command)
}

/// The option as clap describes it.
fn arg<'a>(alloc: Global, option: &'static ToolOption) -> Arg<'a>
    ensures rule { rule_of result ≡ rule (option_row option.now) }
    ensures global { result.global ≡ false }
{
    match *option {
        Flag(short, long) => named(alloc, long, ArgAction::SetTrue).short(short),
        LongFlag(long) => named(alloc, long, ArgAction::SetTrue),
        Text(short, long) => named(alloc, long, ArgAction::Set).short(short),
    }
}

/// An option without a short name.
fn named<'a>(alloc: Global, long: &'static str, action: ArgAction) -> Arg<'a>
    ensures rule { let plain = new_rule long.now in
        rule_of result ≡ record plain { long = Some long.now; action = Some action } }
    ensures global { result.global ≡ false }
{
    Arg::new(alloc, long).long(long).action(action)
}
