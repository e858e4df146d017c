// The texts of answers, and of the armed faults, in the caller's memory.
ghost use Rattle.std.specs.Prelude.{◌≡◌, IfSome, MatchOption};
ghost use Rattle.sg_run.specs.AnswerText.{answer_text};
ghost use Rattle.sg_run.specs.FaultText.{faults_text};
ghost use Rattle.sg_embed.specs.Text.{IsDecoded, IsText, IsTextUnlessRefused, IsUntouched};

use crate::kinds::kind_numbered;
use crate::text::copy_text;
use sg_faults::ArmedFault;
use sg_run::{print_answer, print_faults};
use sg_tools::Show;
use sg_wire::{Profile, Watched};
use std::alloc::Global;

/// The result of [`decode`] if there is no text.
pub const NO_TEXT: usize = usize::MAX;

/// Writes the text of an answer of a kind to the beginning of a buffer, cut to the buffer, and a
/// zero after the text. Returns the length of the whole text without the zero, as snprintf(3) does.
/// It makes the text in memory of its own first, and gives that memory back.
///
/// If no kind has the number, or memory was refused, it returns [`NO_TEXT`], and the buffer is as
/// it was.
pub fn decode(alloc: Global, kind: u32, data_in: &[u8], text: &mut [u8]) -> usize
    ensures { IsDecoded kind data_in.now text.old text.new result }
{
    let Some(show) = kind_numbered(kind) else {
        return NO_TEXT;
    };
    copy_made(print(alloc, show, data_in), text)
}

/// Writes a text that was made as [`copy_text`] does. None is a text for which memory was refused.
fn copy_made(made: Option<Vec<u8>>, text: &mut [u8]) -> usize
    ensures { MatchOption made (IsUntouched text.old text.new result)
        (λ whole. IsText whole.items text.old text.new result) }
{
    match made {
        Some(whole) => copy_text(&whole, text),
        None => NO_TEXT,
    }
}

/// The text of an answer. None if memory was refused.
fn print(alloc: Global, show: Show, data_in: &[u8]) -> Option<Vec<u8>>
    ensures { IfSome result (λ text. text.items ≡ answer_text show data_in.now) }
{
    let mut writer = Watched::new(Vec::new(alloc));
    match print_answer(show, data_in, &mut writer) {
        Ok(()) => Some(writer.into_inner()),
        Err(_) => None,
    }
}

/// Writes the text of the armed faults of a disk of a profile, as [`decode`] writes the text of an
/// answer. It is empty if none is armed. If memory was refused, it returns [`NO_TEXT`], and the
/// buffer is as it was.
pub(crate) fn list_faults(
    alloc: Global,
    profile: Profile,
    slots: &[Option<ArmedFault>],
    text: &mut [u8],
) -> usize
    ensures { IsTextUnlessRefused (faults_text profile slots.now) text.old text.new result }
{
    copy_made(print_armed(alloc, profile, slots), text)
}

/// The text of the armed faults. None if memory was refused.
fn print_armed(alloc: Global, profile: Profile, slots: &[Option<ArmedFault>]) -> Option<Vec<u8>>
    ensures { IfSome result (λ text. text.items ≡ faults_text profile slots.now) }
{
    let mut writer = Watched::new(Vec::new(alloc));
    match print_faults(profile, slots, &mut writer) {
        Ok(()) => Some(writer.into_inner()),
        Err(_) => None,
    }
}
