// The words of a tool: in a line, or in a text that is no line. The tool's name is read with the
// line. Its options are read when the line is executed, because that takes memory.
ghost use Rattle.std.specs.Prelude.{◌≡◌, ◌≤◌, ◌<◌, All, true, length, map, take};
ghost use Rattle.std.specs.List.{list_all};
ghost use Rattle.std.specs.Str.{IsAscii};
ghost use Rattle.sg_tools.specs.GivenOptions.{IsUnlessOutOfMemory};
ghost use Rattle.sg_tools.specs.Requests.{request};
ghost use Rattle.sg_run.specs.Limits.{word_limit};
ghost use Rattle.sg_run.specs.Request.{first_tool, is_allowed};
ghost use Rattle.sg_run.specs.ToolText.{IsReadUnlessOutOfMemory, in_text};
ghost use Rattle.sg_run.specs.Words.{tool_words, words};

use super::words::{Words, word_text};
use super::{LineFault, Request, TextFault, WORD_LIMIT};
use arrayvec::ArrayVec;
use sg_tools::{Tool, ToolFault, ToolName};
use sg_wire::{Initiator, Profile};
use std::alloc::Global;

/// A line that begins with an initiator and the name of a tool.
#[derive(Clone, Copy)]
pub(crate) struct ToolLine<'a> {
    pub(crate) initiator: Initiator,
    name: ToolName,
    /// The whole line.
    text: &'a [u8],
    ghost allowed: { list_all is_allowed text.now ≡ true },
    ghost not_empty: { 0 < length (words text.now) },
    ghost at_most_64: { length (words text.now) ≤ word_limit },
}

impl<'a> ToolLine<'a> {
    ghost use Rattle.sg_run.specs.Request.{tool_line};
    ghost use Rattle.sg_run.specs.RequestLines.{line_request};

    /// The request of a tool's line on a disk of a profile, by the first words after the initiator,
    /// which are kept.
    pub(super) fn of_operands(
        profile: Profile,
        initiator: Initiator,
        operands: &[&[u8]],
        text: &'a [u8],
    ) -> Request<'a>
        requires allowed { list_all is_allowed text.now ≡ true }
        requires not_empty { 0 < length (words text.now) }
        requires at_most_64 { length (words text.now) ≤ word_limit }
        requires operands { map (λ word. word.now) operands.now ≡ take 5 (tool_words text.now) }
        requires ascii { All (λ word. IsAscii word.now) operands.now }
        ensures { line_request result ≡ tool_line profile initiator (tool_words text.now) }
    {
        match first_tool(profile, operands) {
            Some(name) => Request::Tool(ToolLine {
                initiator,
                name,
                text,
            }),
            None => Request::Faulty(LineFault::UnknownTool),
        }
    }

    /// Reads the request that the words make to the tool.
    ///
    /// # Errors
    /// The words ask for nothing, or memory was refused.
    #[inline(never)]
    pub(crate) fn parse(&self, alloc: Global) -> Result<Tool, ToolFault>
        ensures { IsUnlessOutOfMemory (request self.now.name (tool_words self.now.text.now)) result }
    {
        let words: Words<'_, WORD_LIMIT> = Words::of(self.text);
        parse_words(alloc, self.name, &words.as_slice()[1..])
    }
}

/// Reads the request that a text's words make to a tool: the words of a script's line without its
/// initiator. The first word is the tool's name, of an extended disk too. A text may have any length.
///
/// # Errors
/// The first of these that applies:
/// - `BadByte` if a byte is neither printable ASCII nor a tab.
/// - `TooManyWords` if there are more than 64 words.
/// - `UnknownTool` if there is no word, or the first is not the name of a tool.
/// - The fault of [`Tool::parse`].
///
/// If memory is refused, `OutOfMemory` comes in place of the result of [`Tool::parse`].
#[tactic(auto, unfolding(crate::specs::ToolText::tool_of_text))]
pub fn read_tool(alloc: Global, text: &[u8]) -> Result<Tool, TextFault>
    ensures { IsReadUnlessOutOfMemory text.now result }
{
    let words: Words<'_, WORD_LIMIT> = Words::of(text);
    if !words.are_allowed {
        return Err(TextFault::BadByte);
    }
    if words.count > WORD_LIMIT {
        return Err(TextFault::TooManyWords);
    }
    let words = words.as_slice();
    match first_tool(Profile::Extended, words) {
        Some(name) => in_text(parse_words(alloc, name, words)),
        None => Err(TextFault::UnknownTool),
    }
}

/// Makes a tool's fault one of its text.
fn in_text(request: Result<Tool, ToolFault>) -> Result<Tool, TextFault>
    ensures { result ≡ in_text request }
{
    match request {
        Ok(tool) => Ok(tool),
        Err(fault) => Err(TextFault::Refused(fault)),
    }
}

/// The tool of a profile that the first word names.
fn first_tool(profile: Profile, words: &[&[u8]]) -> Option<ToolName>
    requires { All (λ word. IsAscii word.now) words.now }
    ensures { result ≡ first_tool profile (map (λ word. word.now) words.now) }
{
    match words {
        [word, ..] => ToolName::of_word(profile, word_text(word)),
        [] => None,
    }
}

/// Reads the request that words make to a tool. The first word is the tool's name.
///
/// # Errors
/// The words ask for nothing, or memory was refused.
fn parse_words(alloc: Global, name: ToolName, words: &[&[u8]]) -> Result<Tool, ToolFault>
    requires ascii { All (λ word. IsAscii word.now) words.now }
    requires at_most_64 { length words.now ≤ word_limit }
    ensures { IsUnlessOutOfMemory (request name (map (λ word. word.now) words.now)) result }
{
    let mut texts: ArrayVec<&str, WORD_LIMIT> = ArrayVec::new();
    for word in words {
        texts.push(word_text(word));
    }
    Tool::parse(alloc, name, texts.as_slice())
}
