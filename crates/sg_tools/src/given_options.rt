// The options that `clap` finds, as a list with their texts.
use clap::ArgMatches;
use std::marker::Model;

/// The options that clap finds in words, seen as a list with their texts.
#[derive(Drop)]
pub struct GivenOptions<'a> {
    matches: ArgMatches<'a>,
}

impl<'a> Model for GivenOptions<'a> {
    ghost use Rattle.std.specs.Prelude.{List};
    ghost use Rattle.clap.specs.Words.{Row, found_of, rows_of};

    ghost Value = { List Row };

    ghost view = { λ g. rows_of (found_of g.matches) };
}

ghost use Rattle.std.specs.Prelude.{◌≡◌, map, option_map, true};
ghost use Rattle.clap.specs.Words.{app_of, is_simple_and_free};
ghost use Rattle.sg_tools.specs.Options.{command_line};
ghost use Rattle.sg_tools.specs.GivenOptions.{IsUnlessOutOfMemory, is_set, given_options, text_of};

use crate::options::command_line;
use crate::tool_fault::ToolFault;
use crate::tool_name::ToolName;
use clap::Command;
use clap::error::ErrorKind;
use std::alloc::Global;
use std::convert::AsStr;

impl<'a> GivenOptions<'a> {
    /// The options that the words of a tool give.
    pub(crate) fn of_tool(
        alloc: Global,
        tool: ToolName,
        words: &'a [&'a str],
    ) -> Result<GivenOptions<'a>, ToolFault>
        ensures { let texts = map (λ word. word.now) words.entry.now in
            IsUnlessOutOfMemory (given_options (command_line tool) texts) result }
    {
        let Ok(line) = command_line(alloc, tool) else {
            return Err(ToolFault::OutOfMemory);
        };
        GivenOptions::of_words(line, words)
    }

    /// The options that words give. The first word is the name of the program. No option of the
    /// command line has a rule on another.
    ///
    /// # Errors
    /// `Usage` if clap does not accept the words or they ask for help, and `OutOfMemory` if memory
    /// is refused.
    pub fn of_words<S: AsStr>(
        line: Command<'a>,
        words: &'a [S],
    ) -> Result<GivenOptions<'a>, ToolFault>
        requires { is_simple_and_free (app_of line) ≡ true }
        ensures { let texts = map S.text words.entry.now in
            IsUnlessOutOfMemory (given_options (app_of line.entry) texts) result }
    {
        match line.try_get_matches_from(words) {
            Ok(matches) => Ok(GivenOptions { matches }),
            Err(error) => match error.kind() {
                ErrorKind::OutOfMemory => Err(ToolFault::OutOfMemory),
                _ => Err(ToolFault::Usage),
            },
        }
    }

    /// Whether a flag is given.
    pub(crate) fn is_set(&self, option: &str) -> bool
        ensures { result ≡ is_set option.now self.now }
    {
        match self.matches.get_str(option) {
            Some(text) => text == "true",
            None => false,
        }
    }

    /// The text of an option, if it is given.
    pub fn text(&self, option: &str) -> Option<&'a str>
        ensures { option_map (λ t. t.now) result ≡ text_of option.now self.now }
    {
        self.matches.get_str(option)
    }
}
