// The verbs for what happens to a disk, by their words (docs/SCRIPT.md).
ghost use Rattle.std.specs.Prelude.{◌≡◌, ◌<◌, ◌≤◌, All, drop, length, map, true};
ghost use Rattle.std.specs.List.{list_all};
ghost use Rattle.std.specs.Str.{IsAscii};
ghost use Rattle.sg_run.specs.Limits.{word_limit};
ghost use Rattle.sg_run.specs.Request.{is_allowed};
ghost use Rattle.sg_run.specs.Verbs.{extended_verbs, happening_of, verb_named, verbs_of};
ghost use Rattle.sg_run.specs.Words.{words};

use super::fault::{read_fault, read_heal};
use super::happening::{read_attention, read_grow, read_nexus, read_power, read_reset};
use super::words::{Words, is_word};
use super::{Request, WORD_LIMIT};
use sg_target::Happening;
use sg_wire::Profile;

/// A verb for something that happens to a disk.
#[derive(Clone, Copy)]
pub(crate) enum HappeningVerb {
    Power,
    Reset,
    Nexus,
    Grow,
    Attention,
    Fault,
    Heal,
}

impl HappeningVerb {
    /// The verb that a word is, on a disk of a profile.
    pub(super) fn of_word(profile: Profile, word: &[u8]) -> Option<HappeningVerb>
        ensures { result ≡ verb_named (verbs_of profile) word.now }
    {
        if is_word(word, "power") {
            return Some(HappeningVerb::Power);
        }
        match profile {
            Profile::Base => None,
            Profile::Extended => HappeningVerb::of_extended_word(word),
        }
    }

    /// The verb that a word is, if only an extended disk has it.
    fn of_extended_word(word: &[u8]) -> Option<HappeningVerb>
        ensures { result ≡ verb_named extended_verbs word.now }
    {
        if is_word(word, "reset") {
            Some(HappeningVerb::Reset)
        } else if is_word(word, "nexus") {
            Some(HappeningVerb::Nexus)
        } else if is_word(word, "grow") {
            Some(HappeningVerb::Grow)
        } else if is_word(word, "attention") {
            Some(HappeningVerb::Attention)
        } else if is_word(word, "fault") {
            Some(HappeningVerb::Fault)
        } else if is_word(word, "heal") {
            Some(HappeningVerb::Heal)
        } else {
            None
        }
    }

    /// What it asks for. None if its operands are others than it takes.
    pub(super) fn read(self, operands: &[&[u8]]) -> Option<Happening>
        requires { All (λ word. IsAscii word.now) operands.now }
        ensures { result ≡ happening_of self (map (λ word. word.now) operands.now) }
    {
        match self {
            HappeningVerb::Power => read_power(operands),
            HappeningVerb::Reset => read_reset(operands),
            HappeningVerb::Nexus => read_nexus(operands),
            HappeningVerb::Grow => read_grow(operands),
            HappeningVerb::Attention => read_attention(operands),
            HappeningVerb::Fault => read_fault(operands),
            HappeningVerb::Heal => read_heal(operands),
        }
    }
}

/// A line that begins with a verb for something that happens to a disk. Its operands are read when the
/// line is executed: a happening is large, and every request would have room for it.
#[derive(Clone, Copy)]
pub(crate) struct HappeningLine<'a> {
    verb: HappeningVerb,
    /// The whole line.
    text: &'a [u8],
    ghost allowed: { list_all is_allowed text.now ≡ true },
    ghost not_empty: { 0 < length (words text.now) },
    ghost at_most_64: { length (words text.now) ≤ word_limit },
}

impl<'a> HappeningLine<'a> {
    ghost use Rattle.sg_run.specs.Request.{happening_request};
    ghost use Rattle.sg_run.specs.RequestLines.{line_request};

    /// The request of a text whose first word is the verb. All words after it are its operands.
    pub(super) fn request(verb: HappeningVerb, text: &'a [u8]) -> Request<'a>
        requires allowed { list_all is_allowed text.now ≡ true }
        requires not_empty { 0 < length (words text.now) }
        requires at_most_64 { length (words text.now) ≤ word_limit }
        ensures { line_request result
            ≡ happening_request (happening_of verb (drop 1 (words text.now))) }
    {
        Request::Happen(HappeningLine { verb, text })
    }

    /// Reads what the line asks for. None if the operands are others than the verb takes.
    #[inline(never)]
    pub(crate) fn read(&self) -> Option<Happening>
        ensures { result ≡ happening_of self.now.verb (drop 1 (words self.now.text.now)) }
    {
        let words: Words<'_, WORD_LIMIT> = Words::of(self.text);
        self.verb.read(&words.as_slice()[1..])
    }
}
