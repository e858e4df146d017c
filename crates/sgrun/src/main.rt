//! `sgrun`: reads a script from standard input or a file, executes its commands on a disk in memory,
//! or on one that a file keeps, and prints their replies. Its exit status is the first status of a line
//! that is not 0. Or it shows what the file of a disk holds.
#![tactic(auto)]

mod arguments;
mod disk_in_file;
mod disk_options;
mod kept_disk;
mod named_profile;
mod new_disk;
mod power_cycle;
mod show_disk;
mod stop;
#[cfg(test)]
mod tests;

ghost use Rattle.std.specs.Prelude.{◌≡◌, [], false, IfOk};
ghost use Rattle.sg_wire.specs.Watched.{has_failed};

use arguments::Arguments;
use disk_in_file::{DiskInFile, Opener};
use disk_options::DiskOptions;
use kept_disk::{open_disk, open_kept, run_on_kept_disk};
use new_disk::run_on_new_disk;
use sg_extent_map::ExtentMap;
use sg_file::{FileDevice, FileSource, StdFile};
use sg_journal::Source;
use sg_kept::KeptDisk;
use sg_wire::Watched;
use show_disk::show_disk;
use std::env;
use std::fs::{self, File};
use std::io::{Read, Write};
use std::process::ExitCode;
use std::rt::Runtime;
use stop::{Stop, exit_status};

fn main(rt: HostRuntime) -> ExitCode {
    let words = words(&rt);
    let outcome = match &words {
        Ok(words) => run(&rt, words.as_slice()),
        Err(stop) => Err(*stop),
    };
    if let Err(stop) = outcome {
        let (message, file) = stop.message();
        let _ = match stop.fault() {
            Some(fault) => eprintln!(rt; "sgrun: {message}{file}: {fault}"),
            None => eprintln!(rt; "sgrun: {message}{file}"),
        };
    }
    ExitCode::from(exit_status(outcome))
}

/// The words of the command line. The first is the program's name.
fn words<'a>(rt: &HostRuntime) -> Result<Vec<String>, Stop<'a>> {
    match env::args(rt) {
        Ok(words) => Ok(words.collect(rt.alloc())?),
        Err(error) => Err(Stop::of_words(error.kind())),
    }
}

/// Runs the script that words ask for, or shows the disk that they name.
fn run<'a>(rt: &HostRuntime, words: &'a [String]) -> Result<u8, Stop<'a>> {
    let arguments = Arguments::parse(rt.alloc(), words)?;
    // The lowest free numbers are those of standard streams that are closed. A folder takes them: it can
    // neither be read nor written. Otherwise the file of a disk could become standard output.
    let _streams = (open(rt, "/")?, open(rt, "/")?, open(rt, "/")?);
    if let Some(file) = arguments.shown {
        return show_file(rt, file);
    }
    if arguments.file.is_none() {
        // A disk in memory is checked before the script is opened.
        arguments.disk.config()?;
    }
    match arguments.script {
        None => run_from(rt, &arguments, &mut Watched::new(rt.stdin())),
        Some(file) => run_from(rt, &arguments, &mut Watched::new(open(rt, file)?)),
    }
}

/// Runs a script on the disk that words ask for.
fn run_from<'a, R: Read>(
    rt: &HostRuntime,
    arguments: &Arguments<'a>,
    reader: &mut Watched<R>,
) -> Result<u8, Stop<'a>>
    requires { has_failed reader.old ≡ false }
{
    let mut writer = Watched::new(rt.stdout());
    match arguments.file {
        None => run_on_new_disk(rt.alloc(), arguments.disk.config()?, reader, &mut writer),
        Some(file) => run_on_file(rt, file, &arguments.disk, reader, &mut writer),
    }
}

/// Runs a script on the disk that a file keeps.
fn run_on_file<'a, R: Read, W: Write>(
    rt: &HostRuntime,
    file: &'a str,
    options: &DiskOptions,
    reader: &mut Watched<R>,
    writer: &mut Watched<W>,
) -> Result<u8, Stop<'a>>
    requires reads { has_failed reader.old ≡ false }
    requires writes { has_failed writer.old ≡ false }
{
    let source = open_source(rt, file)?;
    let disk = open_disk(rt.alloc(), file, source, options)?;
    let mut disk = DiskInFile::new(rt.alloc(), disk, file, FileOpener { rt })?;
    run_on_kept_disk(rt.alloc(), file, &mut disk, reader, writer)
}

/// Opens the files of disks. A disk of any profile is over an `ExtentMap`: the profile is in the file.
#[derive(Clone, Copy)]
struct FileOpener<'r> {
    rt: &'r HostRuntime,
}

impl<'r> Opener<ExtentMap, FileDevice<StdFile<'r>>> for FileOpener<'r> {
    fn open<'a>(
        &self,
        file: &'a str,
    ) -> Result<KeptDisk<ExtentMap, FileDevice<StdFile<'r>>>, Stop<'a>> {
        let source = open_present(self.rt, file)?;
        open_kept(self.rt.alloc(), file, source)
    }
}

/// Shows the disk that a file keeps.
fn show_file<'a>(rt: &HostRuntime, file: &'a str) -> Result<u8, Stop<'a>> {
    let source = open_present(rt, file)?;
    let length = source.left();
    let mut disk: KeptDisk<ExtentMap, FileDevice<StdFile>> = open_kept(rt.alloc(), file, source)?;
    show_disk(length, &mut disk, &mut Watched::new(rt.stdout()))?;
    Ok(0)
}

/// Opens the file of a disk, if there is one: `StdFile` makes a file that is missing.
fn open_present<'a, 'r>(rt: &'r HostRuntime, file: &'a str) -> Result<FileSource<'r>, Stop<'a>>
    ensures { IfOk result (λ source. source.calls ≡ []) }
{
    match fs::metadata(rt, file) {
        Ok(_) => open_source(rt, file),
        Err(error) => Err(Stop::of_open(file, error.kind())),
    }
}

/// Opens the file of a disk, or makes an empty one.
fn open_source<'a, 'r>(rt: &'r HostRuntime, file: &'a str) -> Result<FileSource<'r>, Stop<'a>>
    ensures { IfOk result (λ source. source.calls ≡ []) }
{
    match StdFile::open(rt, file) {
        Ok(source) => Ok(source),
        Err(error) => Err(Stop::of_file(file, &error)),
    }
}

fn open<'a>(rt: &HostRuntime, file: &'a str) -> Result<File, Stop<'a>> {
    match File::open(rt, file) {
        Ok(opened) => Ok(opened),
        Err(error) => Err(Stop::of_open(file, error.kind())),
    }
}
