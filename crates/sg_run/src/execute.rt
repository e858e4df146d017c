// From the bytes of a line to its text: the runner reads the request, executes it and prints its
// reply.
ghost use Rattle.std.specs.Prelude.{◌≡◌, ◌≤◌, ◌++◌, false, length, take, replicate, codes};
ghost use Rattle.std.specs.Prelude.{option_map, IfSome};
ghost use Rattle.sg_wire.specs.Watched.{has_failed};
ghost use Rattle.sg_wire.specs.Sense.{fields_of};
ghost use Rattle.sg_wire.specs.SenseReading.{read_sense};
ghost use Rattle.sg_target.specs.Armed.{armed_step};
ghost use Rattle.sg_wire.specs.Printer.{PrintsText};
ghost use Rattle.sg_run.specs.AnswerText.{answer_text};
ghost use Rattle.sg_run.specs.Limits.{longest_line};
ghost use Rattle.sg_run.specs.LineFault.{fault_message, fault_status};
ghost use Rattle.sg_run.specs.Outcome.{by_request, faults_outcome, fill_step, happening_name};
ghost use Rattle.sg_run.specs.Outcome.{happening_outcome, line_header, outcome, reply_outcome};
ghost use Rattle.sg_tools.specs.declared.show.Show.TheVariants.{Nothing};
ghost use Rattle.sg_run.specs.Printed.{ExecutesLine, HasOutcome, HasOutcomeUnlessOutOfMemory};
ghost use Rattle.sg_run.specs.Printed.{PrintsSome, SendsSome, Serves};
ghost use Rattle.sg_run.specs.RequestLines.{happening_line_request, line_request, tool_request};

use crate::buffers::{Buffers, DATA_OUT_LENGTH, REPLY_LENGTH};
use crate::request::{FilledBlocks, HappeningLine, LineFault, Request, ToolLine, read_request};
use crate::script_disk::ScriptDisk;
use crate::text::answer::put_answer;
use crate::text::faults::put_faults;
use crate::text::{put_line_header, put_reply};
use sg_store::BLOCK_LENGTH;
use sg_target::{BUFFER_LENGTH, Call, DeviceServer, Happening};
use sg_tools::Show;
use sg_wire::{Printer, Watched};
use std::alloc::Global;
use std::io;
use std::io::Write;

/// The exit status of a happening that the file of the disk may not have.
const FILE_FAULT: u8 = 15;

/// Executes a line of a script, writes its text and returns its exit status. The line is `None` if
/// it is too long. The command is executed before its text is written.
///
/// # Errors
/// The writer failed. The line was still executed.
#[tactic(auto, unfolding(crate::specs::Outcome::outcome))]
pub(crate) fn execute_line<W: Write, T: ScriptDisk>(
    alloc: Global,
    number: u64,
    line: Option<&[u8]>,
    buffers: &mut Buffers,
    writer: &mut Watched<W>,
    target: &mut T,
) -> io::Result<u8>
    requires line { IfSome (option_map (λ b. b.now) line) (λ bytes. length bytes ≤ longest_line) }
    requires sound { has_failed writer.old ≡ false }
    requires ready { T.is_ready target.old }
    ensures executed { T.works target.new → let bytes = option_map (λ b. b.now) line.entry in
        ExecutesLine W.contents writer.old writer.new (T.disk target.new) result
        (λ out_of_memory. outcome number bytes out_of_memory (T.disk target.old)) }
    ensures sends { SendsSome W.contents writer.old writer.new result }
    ensures serves { Serves T.is_ready T.works target.old target.new }
{
    let request = read_request(target.profile(), line, &mut buffers.hex);
    let mut out = Printer::new(writer, &mut buffers.text);
    let context = LineContext { alloc, number };
    let data_out = &mut buffers.data_out;
    let reply = &mut buffers.reply;
    let status = execute_request(context, &request, data_out, reply, target, &mut out);
    out.finish()?;
    Ok(status)
}

/// A line's number, and where the words of its tool take memory.
#[derive(Clone, Copy)]
struct LineContext {
    alloc: Global,
    number: u64,
}

/// Executes the request of a line, and prints its text.
fn execute_request<W: Write, T: ScriptDisk>(
    context: LineContext,
    request: &Request,
    data_out: &mut [u8],
    buffer: &mut [u8],
    target: &mut T,
    out: &mut Printer<'_, W>,
) -> u8
    requires data_out { length data_out.old ≡ DATA_OUT_LENGTH }
    requires buffer { length buffer.old ≡ REPLY_LENGTH }
    requires ready { T.is_ready target.old }
    ensures outcome { T.works target.new → HasOutcomeUnlessOutOfMemory
        W.contents out.old out.new (T.disk target.new) result
        (λ out_of_memory.
        by_request context.number out_of_memory (T.disk target.old) (line_request request.now)) }
    ensures prints { PrintsSome W.contents out.old out.new }
    ensures serves { Serves T.is_ready T.works target.old target.new }
{
    let number = context.number;
    match request {
        Request::Nothing => 0,
        Request::Faulty(fault) => put_fault(number, *fault, out),
        Request::Send(call) => send(number, call, Show::Hex, buffer, target, out),
        Request::Fill(blocks) => fill_blocks(number, blocks, data_out, buffer, target, out),
        Request::Show(show, bytes) => put_shown(number, *show, bytes, buffer, out),
        Request::Happen(line) => run_happening(number, line, target, out),
        Request::ListFaults => list_faults(number, target, out),
        Request::Tool(line) => run_tool(context, line, data_out, buffer, target, out),
    }
}

/// Prints why a line is refused, and returns its exit status.
fn put_fault<W: Write>(number: u64, fault: LineFault, out: &mut Printer<'_, W>) -> u8
    ensures text { PrintsText W.contents out.old out.new
        (line_header number (fault_message fault)) }
    ensures status { result ≡ fault_status fault }
{
    put_line_header(number, fault.message(), out);
    fault.status()
}

/// Prints bytes as an answer, and returns the exit status.
fn put_shown<W: Write>(
    number: u64,
    show: Show,
    bytes: &[u8],
    buffer: &mut [u8],
    out: &mut Printer<'_, W>,
) -> u8
    requires { length buffer.old ≡ REPLY_LENGTH }
    ensures text { PrintsText W.contents out.old out.new
        (line_header number (codes "SHOWN") ++ answer_text show bytes.now) }
    ensures status { result ≡ 0 }
{
    let (_, lines) = buffer.split_at_mut(BUFFER_LENGTH);
    put_line_header(number, b"SHOWN", out);
    put_answer(show, bytes, lines, out);
    0
}

/// Reads what a line lets happen to the disk, does it, and returns the exit status.
// Not inlined: the stack frame of every line would have room for the happening.
#[inline(never)]
fn run_happening<W: Write, T: ScriptDisk>(
    number: u64,
    line: &HappeningLine,
    target: &mut T,
    out: &mut Printer<'_, W>,
) -> u8
    requires ready { T.is_ready target.old }
    ensures outcome { T.works target.new → HasOutcomeUnlessOutOfMemory
        W.contents out.old out.new (T.disk target.new) result
        (λ out_of_memory.
        by_request number out_of_memory (T.disk target.old) (happening_line_request line.now)) }
    ensures prints { PrintsSome W.contents out.old out.new }
    ensures serves { Serves T.is_ready T.works target.old target.new }
{
    match line.read() {
        Some(happening) => happen(number, &happening, target, out),
        None => put_fault(number, LineFault::Usage, out),
    }
}

/// Lets something happen to the disk, prints its name, and returns the exit status. If what keeps the disk
/// has failed, it prints that: the happening may be lost.
fn happen<W: Write, T: ScriptDisk>(
    number: u64,
    happening: &Happening,
    target: &mut T,
    out: &mut Printer<'_, W>,
) -> u8
    requires ready { T.is_ready target.old }
    ensures outcome { T.works target.new → HasOutcome W.contents out.old out.new (T.disk target.new) result
        (happening_outcome number (T.disk target.old) happening.now) }
    ensures prints { PrintsSome W.contents out.old out.new }
    ensures serves { Serves T.is_ready T.works target.old target.new }
{
    target.happen(*happening);
    if target.has_failed() {
        put_line_header(number, b"file fault", out);
        return FILE_FAULT;
    }
    put_line_header(number, happening_name(happening), out);
    0
}

/// The name of a happening in a transcript.
fn happening_name(happening: &Happening) -> &'static [u8]
    ensures { result.now ≡ happening_name happening.now }
{
    match happening {
        Happening::Power => b"POWER",
        Happening::LogicalUnitReset => b"RESET",
        Happening::TargetReset => b"TARGET RESET",
        Happening::NexusLoss(_) => b"NEXUS LOSS",
        Happening::Establish(_, _) => b"ATTENTION",
        Happening::Grow(_) => b"GROW",
        Happening::Arm(_) => b"FAULT",
        Happening::Disarm(_) | Happening::DisarmAll => b"HEAL",
    }
}

/// Lists the armed faults, and returns the exit status.
fn list_faults<W: Write, T: DeviceServer>(number: u64, target: &T, out: &mut Printer<'_, W>) -> u8
    ensures { HasOutcome W.contents out.old out.new (T.disk target.now) result
        (faults_outcome number (T.disk target.now)) }
{
    put_line_header(number, b"FAULTS", out);
    put_faults(target.profile(), target.faults(), out);
    0
}

/// Fills blocks with a byte, by WRITE(16), prints the reply and returns its exit status.
fn fill_blocks<W: Write, T: DeviceServer>(
    number: u64,
    blocks: &FilledBlocks,
    data_out: &mut [u8],
    buffer: &mut [u8],
    target: &mut T,
    out: &mut Printer<'_, W>,
) -> u8
    requires data_out { length data_out.old ≡ DATA_OUT_LENGTH }
    requires buffer { length buffer.old ≡ REPLY_LENGTH }
    requires ready { T.is_ready target.old }
    ensures outcome { T.works target.new → let b = blocks.now in
        HasOutcome W.contents out.old out.new (T.disk target.new) result
        (reply_outcome number Nothing
        (fill_step (T.disk target.old) b.initiator b.lba b.count b.byte)) }
    ensures prints { PrintsSome W.contents out.old out.new }
    ensures serves { Serves T.is_ready T.works target.old target.new }
{
    let len = BLOCK_LENGTH * blocks.count as usize;
    fill_prefix(data_out, len, blocks.byte);
    let cdb = blocks.command().write();
    let call = Call {
        initiator: blocks.initiator,
        cdb: cdb.as_slice(),
        data_out: &data_out[..len],
    };
    send(number, &call, Show::Nothing, buffer, target, out)
}

/// Fills the first bytes of a buffer.
fn fill_prefix(buffer: &mut [u8], len: usize, byte: u8)
    requires { len ≤ length buffer.old }
    ensures { take len buffer.new ≡ replicate len byte }
{
    buffer[..len].fill(byte);
}

/// Sends the command of a tool, prints its reply and returns its exit status.
fn run_tool<W: Write, T: DeviceServer>(
    context: LineContext,
    line: &ToolLine,
    data_out: &mut [u8],
    buffer: &mut [u8],
    target: &mut T,
    out: &mut Printer<'_, W>,
) -> u8
    requires data_out { length data_out.old ≡ DATA_OUT_LENGTH }
    requires buffer { length buffer.old ≡ REPLY_LENGTH }
    requires ready { T.is_ready target.old }
    ensures outcome { T.works target.new → HasOutcomeUnlessOutOfMemory
        W.contents out.old out.new (T.disk target.new) result
        (λ out_of_memory.
        by_request context.number out_of_memory (T.disk target.old) (tool_request line.now)) }
    ensures prints { PrintsSome W.contents out.old out.new }
    ensures serves { Serves T.is_ready T.works target.old target.new }
{
    let number = context.number;
    match line.parse(context.alloc) {
        Ok(tool) => {
            let plan = tool.plan(data_out);
            let call = Call {
                initiator: line.initiator,
                cdb: plan.cdb.as_slice(),
                data_out: &data_out[..plan.data_out],
            };
            let show = plan.show.in_profile(target.profile());
            send(number, &call, show, buffer, target, out)
        }
        Err(fault) => put_fault(number, LineFault::of_tool(fault), out),
    }
}

/// Sends a command, prints its reply and returns its exit status.
fn send<W: Write, T: DeviceServer>(
    number: u64,
    call: &Call,
    show: Show,
    buffer: &mut [u8],
    target: &mut T,
    out: &mut Printer<'_, W>,
) -> u8
    requires buffer { length buffer.old ≡ REPLY_LENGTH }
    requires ready { T.is_ready target.old }
    ensures outcome { T.works target.new → let c = call.now in
        HasOutcome W.contents out.old out.new (T.disk target.new) result
        (reply_outcome number show (armed_step (T.disk target.old) c.initiator c.cdb.now c.data_out.now)) }
    ensures prints { PrintsSome W.contents out.old out.new }
    ensures serves { Serves T.is_ready T.works target.old target.new }
{
    let (data_in, lines) = buffer.split_at_mut(BUFFER_LENGTH);
    let reply = target.execute(call.initiator, call.cdb, call.data_out, data_in);
    put_reply(number, &reply, show, &data_in[..reply.data_in], lines, out)
}
