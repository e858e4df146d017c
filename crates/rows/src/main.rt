//! `rows`: runs worked rows over the disk. A row is a script with all that it has to print. The
//! rows are files in `data/`, and the program runs there:
//!
//! - `rows` has a line for each row: its name with its folder. A disk usually has 4,096 blocks and
//!   a pool of 4. For any other disk, its number of blocks and its pool follow, as in
//!   `read-capacity/of-1-block 1 4`.
//! - `NAME.script` is the script.
//! - `NAME.expected` is the text that it prints, and a last line `status N` with its exit status.
//!
//! Each row runs over both stores, which have to print the same text.
//!
//! The program prints a line for each row: `as expected`, or the first line that differs.
//! `wrong-rows` lists rows in the same form that are wrong on purpose. For each of them the program
//! has to find a difference.
#![tactic(auto)]

mod difference;
mod row;

// Runs rows, and compares.
ghost use Rattle.std.specs.Prelude.{◌≡◌, ◌↔◌, IfOk, IsTrue, if◌then◌else◌, ◌==◌, ◌&&◌};

use crate::difference::{first_difference, line_after, lines_before};
use crate::row::read_row;
use sg_block_map::BlockMap;
use sg_pages::Identity;
use sg_plain_map::PlainMap;
use sg_run::{Session, run_script};
use sg_store::Store;
use sg_target::{Config, Target};
use sg_wire::Watched;
use std::alloc::Global;
use std::io::Write;
use std::process::ExitCode;
use std::rt::Runtime;
use std::{env, fs, io};

/// The number of rows of a list, and how many of them are as expected.
#[derive(Clone, Copy, Default)]
struct Tally {
    rows: u64,
    as_expected: u64,
}

/// The text that a script prints on a new disk over a store, and a last line with its exit status.
/// No contract says so, because a `Watched` does not return its writer. The wrong rows show it.
fn run_row<S: Store>(
    alloc: Global,
    session: &mut Session,
    config: Config,
    script: &[u8],
) -> io::Result<Vec<u8>> {
    let mut target: Target<S> = Target::new(alloc, config)?;
    let mut printed = Vec::new(alloc);
    let mut reader = Watched::new(script);
    let mut writer = Watched::new(&mut printed);
    let Ok(status) = run_script(alloc, &mut reader, &mut writer, session, &mut target) else {
        return Err(io::Error::from(io::ErrorKind::OutOfMemory));
    };
    writeln!(printed, "status {status}")?;
    Ok(printed)
}

/// Prints whether a row is as expected, or the first line that differs, and returns which.
fn report(rt: &impl Print, name: &str, expected: &[u8], printed: &[u8]) -> io::Result<bool>
    ensures { IfOk result (λ as_expected. IsTrue as_expected ↔ (expected.now ≡ printed.now)) }
{
    let Some(index) = first_difference(expected, printed) else {
        println!(rt; "{name}: as expected")?;
        return Ok(true);
    };
    let before = lines_before(expected, index);
    let number = before + 1;
    let wanted = text(line_after(expected, before));
    let got = text(line_after(printed, before));
    println!(rt; "{name}: line {number} of the text is `{got}` and not `{wanted}`")?;
    Ok(false)
}

/// A line of the printed text, which is ASCII.
fn text(line: &[u8]) -> &str {
    str::from_utf8(line).unwrap_or("no text")
}

/// Runs the row that a line of a list names, and reports on it.
fn check_row(
    rt: &HostRuntime,
    session: &mut Session,
    folder: &str,
    line: &str,
) -> io::Result<bool> {
    let Some(row) = read_row(line) else {
        println!(rt; "{line}: names no row")?;
        return Ok(false);
    };
    let Ok(config) = Config::new(row.blocks, row.pool, Identity::standard()) else {
        println!(rt; "{line}: names no disk")?;
        return Ok(false);
    };
    let name = row.name;
    let Ok(script) = fs::read(rt, format!(in rt.alloc(); "{folder}/{name}.script")?) else {
        println!(rt; "{name}: has no script")?;
        return Ok(false);
    };
    let Ok(expected) = fs::read(rt, format!(in rt.alloc(); "{folder}/{name}.expected")?) else {
        println!(rt; "{name}: has no expected text")?;
        return Ok(false);
    };
    let printed = run_row::<BlockMap>(rt.alloc(), session, config, &script)?;
    let plain = run_row::<PlainMap>(rt.alloc(), session, config, &script)?;
    if printed != plain {
        println!(rt; "{name}: the two stores print different texts")?;
        return Ok(false);
    }
    report(rt, name, &expected, &printed)
}

/// Runs all rows of a list.
fn check_list(
    rt: &HostRuntime,
    session: &mut Session,
    folder: &str,
    list: &str,
) -> io::Result<Tally> {
    let mut tally = Tally::default();
    let lines = fs::read_to_string(rt, format!(in rt.alloc(); "{folder}/{list}")?)?;
    for line in lines.as_str().lines() {
        let as_expected = check_row(rt, session, folder, line)?;
        tally.rows = tally.rows.saturating_add(1);
        tally.as_expected = tally.as_expected.saturating_add(u64::from(as_expected));
    }
    Ok(tally)
}

/// 0 if each row is as expected, and no wrong row is.
fn exit_status(rows: Tally, wrong: Tally) -> u8
    ensures { result ≡ (if rows.as_expected == rows.rows && wrong.as_expected == 0 then 0 else 1) }
{
    let all_pass = rows.as_expected == rows.rows;
    let none_passes = wrong.as_expected == 0;
    if all_pass && none_passes { 0 } else { 1 }
}

/// Runs the rows and the wrong rows of the folder that the first argument names. Without an
/// argument it takes the folder that it runs in.
fn run(rt: &HostRuntime) -> io::Result<u8> {
    let args: Vec<String> = env::args(rt)?.collect(rt.alloc())?;
    let folder = match args.as_slice() {
        [_, folder, ..] => folder.as_str(),
        _ => ".",
    };
    let mut session = Session::new(rt.alloc())?;
    let rows = check_list(rt, &mut session, folder, "rows")?;
    let wrong = check_list(rt, &mut session, folder, "wrong-rows")?;
    let (all, good) = (rows.rows, rows.as_expected);
    let (all_wrong, good_wrong) = (wrong.rows, wrong.as_expected);
    println!(rt;
        "{good} of {all} rows are as expected, and {good_wrong} of {all_wrong} wrong rows"
    )?;
    Ok(exit_status(rows, wrong))
}

fn main(rt: HostRuntime) -> ExitCode {
    match run(&rt) {
        Ok(status) => ExitCode::from(status),
        Err(error) => {
            let _ = eprintln!(rt; "rows: {error}");
            ExitCode::from(99)
        }
    }
}
