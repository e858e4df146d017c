// What a text asks for that is no line: something that happens to a disk. A text can't have most
// faults of a line, so its faults have a type of their own.
ghost use Rattle.std.specs.Prelude.{◌≡◌, All, IfOk, map};
ghost use Rattle.std.specs.Str.{IsAscii};
ghost use Rattle.sg_run.specs.HappeningText.{by_verb_words, happening_of_text};
ghost use Rattle.sg_run.specs.WellFormed.{IsWellFormed};

use super::WORD_LIMIT;
use super::happening_verb::HappeningVerb;
use super::words::Words;
use sg_target::Happening;
use sg_wire::Profile;
use thiserror::Error;

/// Why a text asks for nothing that happens to a disk. The first that applies is returned.
#[derive(Clone, Copy, Debug, Error, PartialEq, Eq)]
pub enum HappeningFault {
    /// A byte is neither printable ASCII nor a tab.
    #[error("a byte is neither printable ASCII nor a tab")]
    BadByte,
    /// There are more than 64 words.
    #[error("there are more than 64 words")]
    TooManyWords,
    /// There is no word, or the first is no verb for something that happens to a disk.
    #[error("there is no word, or the first is no verb for something that happens to a disk")]
    UnknownVerb,
    /// The verb takes other words.
    #[error("the verb takes other words")]
    Usage,
}

/// Reads what a text asks for in the words of an extended disk's script, such as `nexus 0` or
/// `fault arrival busy times 2`. A text may have any length.
///
/// # Errors
/// The first of these that applies:
/// - `BadByte` if a byte is neither printable ASCII nor a tab.
/// - `TooManyWords` if there are more than 64 words.
/// - `UnknownVerb` if there is no word, or the first is none of `power`, `reset`, `nexus`, `grow`,
///   `attention`, `fault` and `heal`.
/// - `Usage` if the verb takes other words.
#[tactic(auto, unfolding(crate::specs::HappeningText::happening_of_text))]
pub fn read_happening(text: &[u8]) -> Result<Happening, HappeningFault>
    ensures asked { result ≡ happening_of_text text.now }
    ensures well_formed { IfOk result IsWellFormed }
{
    let words: Words<'_, WORD_LIMIT> = Words::of(text);
    if !words.are_allowed {
        return Err(HappeningFault::BadByte);
    }
    if words.count > WORD_LIMIT {
        return Err(HappeningFault::TooManyWords);
    }
    read_words(words.as_slice())
}

/// Reads what words ask for. The first is the verb.
fn read_words(words: &[&[u8]]) -> Result<Happening, HappeningFault>
    requires { All (λ word. IsAscii word.now) words.now }
    ensures { result ≡ by_verb_words (map (λ word. word.now) words.now) }
{
    let [verb, operands @ ..] = words else {
        return Err(HappeningFault::UnknownVerb);
    };
    let Some(verb) = HappeningVerb::of_word(Profile::Extended, verb) else {
        return Err(HappeningFault::UnknownVerb);
    };
    verb.read(operands).ok_or(HappeningFault::Usage)
}
