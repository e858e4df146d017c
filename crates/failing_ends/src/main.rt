//! `failing_ends`: runs scripts whose reader or writer fails, at each call in turn and after each
//! count of bytes. It also runs scripts that are read and written in pieces.
//!
//! - If the reader fails, the lines that are whole before that are executed and printed, and no
//!   other line is. The result is a read fault.
//! - If the writer fails, the bytes that it took are a prefix of the text. The line that it was
//!   writing is executed, and no line after it. The result is a write fault.
//! - Every error is a fault, `Interrupted` too, and an end that failed is called no more.
//! - In pieces of any length a script prints the same, and its end is read once.
//! - A script may have 4,294,967,295 bytes. A byte more is a read fault.
//!
//! One session serves all runs: it keeps nothing of the run before, whichever way that ended. The
//! program prints a line for each loop, with the number of runs and how many of them are as
//! expected. Expectations that are wrong on purpose show that the others are looked at.
#![tactic(auto)]

mod bench;
mod ends;
mod script;

ghost use Rattle.std.specs.Prelude.{◌≡◌, if◌then◌else◌, ◌==◌, ◌&&◌};

use crate::bench::{Bench, Tally, Wanted};
use crate::ends::{Failure, KINDS, Pace, Zeros};
use crate::script::{SCRIPTS, Script, WholeScript, sent_by};
use sg_run::RunFault;
use std::io;
use std::io::ErrorKind;
use std::process::ExitCode;
use std::rt::Runtime;

/// The most bytes of a call, if each call in turn fails.
const STEPS: [usize; 6] = [1, 2, 3, 7, 20, LONG_STEP];

/// The most bytes of a read and of a write, if no call fails.
const PIECES: [(usize, usize); 6] = [
    (LONG_STEP, LONG_STEP),
    (1, LONG_STEP),
    (7, LONG_STEP),
    (LONG_STEP, 1),
    (LONG_STEP, 3),
    (LONG_STEP, 7),
];

/// More bytes than a script or its text has.
const LONG_STEP: usize = 1_000;

/// The length of the longest script, in bytes.
const LONGEST_SCRIPT: u64 = 4_294_967_295;

/// The outcome to expect if the reader fails after a number of bytes.
fn after_reads<'a>(script: &'a Script, step: usize, after: usize) -> Wanted<'a> {
    let executed = script.lines_in(after);
    Wanted {
        result: Err(RunFault::Read),
        text: script.text_of(executed),
        sent: sent_by(executed),
        reads: Some(calls(after, step)),
    }
}

/// The outcome to expect if the writer fails after a number of bytes.
fn after_writes<'a>(script: &'a Script, after: usize) -> Wanted<'a> {
    let text = script.text.as_bytes();
    Wanted {
        result: Err(RunFault::Write),
        text: &text[..after.min(text.len())],
        sent: sent_by(script.lines_written_in(after)),
        reads: None,
    }
}

/// The number of calls for a number of bytes, and one more, which fails or finds the end.
fn calls(bytes: usize, step: usize) -> usize {
    bytes.div_ceil(step.max(1)).saturating_add(1)
}

/// Tries a reader that fails after a number of bytes, with an error of each of some kinds.
fn try_reader(
    bench: &mut Bench,
    script: &Script,
    step: usize,
    after: usize,
    kinds: &[ErrorKind],
) -> io::Result<Tally> {
    let wanted = after_reads(script, step, after);
    let mut tally = Tally::default();
    for kind in kinds {
        let reads = Pace::failing(step, after, Failure::Error(*kind));
        let outcome = bench.run(&script.bytes, reads, Pace::steady(LONG_STEP))?;
        tally.count(outcome.is(wanted));
    }
    Ok(tally)
}

/// Tries a writer that takes a number of bytes in all, and then none, or fails with each of some
/// kinds.
fn try_writer(
    bench: &mut Bench,
    script: &Script,
    step: usize,
    after: usize,
    kinds: &[ErrorKind],
) -> io::Result<Tally> {
    let wanted = after_writes(script, after);
    let mut tally = Tally::default();
    let full = Pace::failing(step, after, Failure::TakesNone);
    let outcome = bench.run(&script.bytes, Pace::steady(30), full)?;
    tally.count(outcome.is(wanted));
    for kind in kinds {
        let writes = Pace::failing(step, after, Failure::Error(*kind));
        let outcome = bench.run(&script.bytes, Pace::steady(30), writes)?;
        tally.count(outcome.is(wanted));
    }
    Ok(tally)
}

/// Tries a reader of a step that fails after each count of bytes, also at the script's end.
fn try_readers(bench: &mut Bench, script: &Script, step: usize) -> io::Result<Tally> {
    let mut tally = Tally::default();
    for after in 0..=script.bytes.len() {
        let kinds = [ErrorKind::BrokenPipe, ErrorKind::Interrupted];
        tally = tally.plus(try_reader(bench, script, step, after, &kinds)?);
    }
    Ok(tally)
}

/// Tries a writer of a step that fails after each count of bytes of the text.
fn try_writers(bench: &mut Bench, script: &Script, step: usize) -> io::Result<Tally> {
    let mut tally = Tally::default();
    for after in 0..script.text.len() {
        let kinds = [ErrorKind::StorageFull, ErrorKind::Interrupted];
        tally = tally.plus(try_writer(bench, script, step, after, &kinds)?);
    }
    Ok(tally)
}

/// Whether a script that is read and written in pieces is run to its end.
fn is_whole(
    bench: &mut Bench,
    script: WholeScript<'_>,
    read: usize,
    write: usize,
) -> io::Result<bool> {
    let (bytes, text, status, sent) = script;
    let outcome = bench.run(bytes, Pace::steady(read), Pace::steady(write))?;
    Ok(outcome.is(Wanted {
        result: Ok(status),
        text: text.as_bytes(),
        sent,
        reads: Some(calls(bytes.len(), read)),
    }))
}

/// Tries whole scripts, in pieces of a length.
fn try_whole(bench: &mut Bench, script: &Script, read: usize, write: usize) -> io::Result<Tally> {
    let mut tally = Tally::default();
    tally.count(is_whole(bench, script.whole(), read, write)?);
    for short in SCRIPTS {
        tally.count(is_whole(bench, short, read, write)?);
    }
    Ok(tally)
}

/// Tries the longest script, which is one line of zeros, too long to be executed, and a script of a
/// byte more.
fn try_longest(bench: &mut Bench) -> io::Result<Tally> {
    let longest = Wanted {
        result: Ok(1),
        text: b"line 1: too long\n",
        sent: 0,
        reads: None,
    };
    let longer = Wanted {
        result: Err(RunFault::Read),
        text: b"",
        sent: 0,
        reads: None,
    };
    let mut tally = Tally::default();
    for (left, wanted) in [(LONGEST_SCRIPT, longest), (LONGEST_SCRIPT + 1, longer)] {
        let outcome = bench.run_from(&mut Zeros { left }, Pace::steady(LONG_STEP))?;
        tally.count(outcome.is(wanted));
    }
    Ok(tally)
}

/// Tries wrong expectations of a reader that fails after 30 bytes, within the second line.
fn try_wrong(bench: &mut Bench, script: &Script) -> io::Result<Tally> {
    let right = after_reads(script, LONG_STEP, 30);
    let mut result = right;
    result.result = Ok(6);
    let mut text = right;
    text.text = script.text_of(0);
    let mut sent = right;
    sent.sent = 2;
    let mut reads = right;
    reads.reads = Some(3);
    let wrong = [result, text, sent, reads, after_writes(script, 30)];
    let mut tally = Tally::default();
    for wanted in wrong {
        let failing = Pace::failing(LONG_STEP, 30, Failure::Error(ErrorKind::Interrupted));
        let outcome = bench.run(&script.bytes, failing, Pace::steady(LONG_STEP))?;
        tally.count(outcome.is(wanted));
    }
    Ok(tally)
}

fn report(rt: &impl Print, what: &str, tally: Tally) -> io::Result<()> {
    let (runs, as_expected) = (tally.runs, tally.as_expected);
    println!(rt; "{what}: {as_expected} of {runs} runs as expected")
}

/// Tries the failures at each call in turn.
fn try_each_call(rt: &impl Print, bench: &mut Bench, script: &Script) -> io::Result<Tally> {
    let mut all = Tally::default();
    for step in STEPS {
        let tally = try_readers(bench, script, step)?;
        print!(rt; "in steps of {step}, ")?;
        report(rt, "the reader fails after each count of bytes", tally)?;
        all = all.plus(tally);
        let tally = try_writers(bench, script, step)?;
        print!(rt; "in steps of {step}, ")?;
        report(rt, "the writer fails after each count of bytes", tally)?;
        all = all.plus(tally);
    }
    Ok(all)
}

/// Tries runs without a failure, in pieces.
fn try_pieces(rt: &impl Print, bench: &mut Bench, script: &Script) -> io::Result<Tally> {
    let mut all = Tally::default();
    for (read, write) in PIECES {
        let tally = try_whole(bench, script, read, write)?;
        print!(rt; "in reads of {read} and writes of {write} bytes, ")?;
        report(rt, "whole scripts", tally)?;
        all = all.plus(tally);
    }
    Ok(all)
}

/// Tries the failures of each kind, and the longest script.
fn try_others(rt: &impl Print, bench: &mut Bench, script: &Script) -> io::Result<Tally> {
    let reader = try_reader(bench, script, LONG_STEP, 30, &KINDS)?;
    report(
        rt,
        "a reader fails after 30 bytes, with each kind of error",
        reader,
    )?;
    let writer = try_writer(bench, script, LONG_STEP, 10, &KINDS)?;
    report(
        rt,
        "a writer takes 10 bytes in all, then none, or fails with each kind of error",
        writer,
    )?;
    let longest = try_longest(bench)?;
    report(rt, "the longest script, and one of a byte more", longest)?;
    Ok(reader.plus(writer).plus(longest))
}

/// 0 if every run is as expected, and no wrong expectation is met.
fn exit_status(all: Tally, wrong: Tally) -> u8
    ensures { result ≡ (if all.as_expected == all.runs && wrong.as_expected == 0 then 0 else 1) }
{
    let all_pass = all.as_expected == all.runs;
    let none_passes = wrong.as_expected == 0;
    if all_pass && none_passes { 0 } else { 1 }
}

fn run(rt: &HostRuntime) -> io::Result<u8> {
    let mut bench = Bench::new(rt.alloc())?;
    let script = Script::new(rt.alloc())?;
    let all = try_each_call(rt, &mut bench, &script)?;
    let all = all.plus(try_pieces(rt, &mut bench, &script)?);
    let all = all.plus(try_others(rt, &mut bench, &script)?);
    report(rt, "all", all)?;
    let wrong = try_wrong(&mut bench, &script)?;
    report(rt, "wrong expectations", wrong)?;
    Ok(exit_status(all, wrong))
}

fn main(rt: HostRuntime) -> ExitCode {
    match run(&rt) {
        Ok(status) => ExitCode::from(status),
        Err(error) => {
            let _ = eprintln!(rt; "failing_ends: {error}");
            ExitCode::from(99)
        }
    }
}
