// The words of the command line become a disk and a script, or the reason for a stop.
use crate::disk_options::DiskOptions;
use std::marker::Model;

/// The request of the command line.
#[derive(Drop)]
pub(crate) struct Arguments<'a> {
    /// What the words say of the disk that the script runs on.
    pub(crate) disk: DiskOptions,
    /// The file that keeps the disk. None is a new disk in memory.
    pub(crate) file: Option<&'a str>,
    /// The file that holds the script. None is standard input.
    pub(crate) script: Option<&'a str>,
    /// The file whose disk is shown. Then no script runs, and no other option is given.
    pub(crate) shown: Option<&'a str>,
}

impl<'a> Model for Arguments<'a> {
    ghost use Rattle.std.specs.Prelude.{option_map};
    ghost use Rattle.sgrun.specs.Arguments.{ArgumentFields};

    ghost Value = { ArgumentFields };

    ghost view = { λ a. record {
      disk = a.disk;
      file = option_map (λ file. file.now) a.file;
      script = option_map (λ file. file.now) a.script;
      shown = option_map (λ file. file.now) a.shown;
    } };
}

ghost use Rattle.std.specs.Prelude.{◌≡◌, IfOk, is_some, map, option_map, false};
ghost use Rattle.std.specs.String.{string_bytes};
ghost use Rattle.clap.specs.Words.{app_of, rule_of};
ghost use Rattle.sg_tools.specs.GivenOptions.{text_of};
ghost use Rattle.sg_tools.specs.Options.{rule};
ghost use Rattle.sgrun.specs.Arguments.{IsUnlessOutOfMemory, arguments, arguments_of, disk_by};
ghost use Rattle.sgrun.specs.Arguments.{disk_options, gives_run_option, number_of_option};
ghost use Rattle.sgrun.specs.Options.{command_line, text_option};

use crate::named_profile::{profile_named, takes_seed};
use crate::stop::Stop;
use clap::{Arg, ArgAction, Command};
use sg_kept::asked::AskedProfile;
use sg_tools::{GivenOptions, number_or};
use std::alloc::{AllocError, Global};

impl<'a> Arguments<'a> {
    /// Reads the request that words make. The first word is the program's name.
    ///
    /// # Errors
    /// The first of these that applies:
    /// - `Usage` if clap does not accept the words, or if they ask for help, or if they have `--seed`
    ///   without a profile that takes it, or `--show-disk` with another option.
    /// - `Number` if the text of `--blocks`, `--pool` or `--seed` is no number.
    /// - `Profile` if no profile has the name of `--profile`.
    ///
    /// If memory is refused, `OutOfMemory` is returned in place of any of these, and of a success.
    pub(crate) fn parse(alloc: Global, words: &'a [String]) -> Result<Arguments<'a>, Stop<'a>>
        ensures { let texts = map (λ word. string_bytes word) words.entry.now in
            IsUnlessOutOfMemory (arguments texts) result }
    {
        let options = GivenOptions::of_words(command_line(alloc)?, words)?;
        Arguments::of_options(&options)
    }

    fn of_options(options: &GivenOptions<'a>) -> Result<Arguments<'a>, Stop<'a>>
        ensures { result ≡ arguments_of options.now }
    {
        match options.text("show-disk") {
            Some(_) if gives_run_option(options) => Err(Stop::Usage),
            shown => Ok(Arguments {
                disk: disk_options(options)?,
                file: options.text("disk"),
                script: options.text("script"),
                shown,
            }),
        }
    }
}

/// Whether an option of a run is given. `--show-disk` runs nothing, and takes none of them.
fn gives_run_option(options: &GivenOptions) -> bool
    ensures { result ≡ gives_run_option options.now }
{
    is_given(options, "blocks")
        || is_given(options, "pool")
        || is_given(options, "profile")
        || is_given(options, "seed")
        || is_given(options, "disk")
        || is_given(options, "script")
}

fn is_given(options: &GivenOptions, option: &str) -> bool
    ensures { result ≡ is_some (text_of option.now options.now) }
{
    options.text(option).is_some()
}

/// What options say of a disk.
fn disk_options<'a>(options: &GivenOptions) -> Result<DiskOptions, Stop<'a>>
    ensures { result ≡ disk_options options.now }
{
    let profile = profile_named(options.text("profile"));
    if options.text("seed").is_some() && !takes_seed(profile) {
        return Err(Stop::Usage);
    }
    disk_by(profile, options)
}

/// What options say of a disk of a profile. None is no profile.
fn disk_by<'a>(
    profile: Option<AskedProfile>,
    options: &GivenOptions,
) -> Result<DiskOptions, Stop<'a>>
    ensures { result ≡ disk_by profile options.now }
{
    let blocks = number_of_option(options.text("blocks")).ok_or(Stop::Number)?;
    let pool = number_of_option(options.text("pool")).ok_or(Stop::Number)?;
    let seed = number_of_option(options.text("seed")).ok_or(Stop::Number)?;
    let named = profile.ok_or(Stop::Profile)?;
    let is_given = options.text("profile").is_some();
    Ok(DiskOptions {
        blocks,
        pool,
        profile: if is_given { Some(named) } else { None },
        seed,
    })
}

/// The number of an option's text, which may be missing. None if the text is no number.
fn number_of_option(text: Option<&str>) -> Option<Option<u64>>
    ensures { result ≡ number_of_option (option_map (λ t. t.now) text.entry) }
{
    match text {
        Some(_) => Some(Some(number_or(0, u64::MAX, text)?)),
        None => Some(None),
    }
}

/// The command line of the program.
fn command_line<'a>(alloc: Global) -> Result<Command<'a>, AllocError>
    ensures { IfOk result (λ c. app_of c ≡ command_line) }
{
    Command::new(alloc, "sgrun")
        .arg(text_option(alloc, "blocks"))?
        .arg(text_option(alloc, "pool"))?
        .arg(text_option(alloc, "profile"))?
        .arg(text_option(alloc, "seed"))?
        .arg(text_option(alloc, "disk"))?
        .arg(text_option(alloc, "script"))?
        .arg(text_option(alloc, "show-disk"))
}

/// An option without a short name, which has a text.
fn text_option<'a>(alloc: Global, long: &'static str) -> Arg<'a>
    ensures rule { rule_of result ≡ rule (text_option long.now) }
    ensures global { result.global ≡ false }
{
    Arg::new(alloc, long).long(long).action(ArgAction::Set)
}
