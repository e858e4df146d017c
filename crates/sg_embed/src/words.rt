// What the words of a script ask for, as a record of C.
ghost use Rattle.std.specs.Prelude.{◌≡◌, ◌≢◌, IfErr, IfOk};
ghost use Rattle.sg_wire.specs.Initiator.{initiator_count};
ghost use Rattle.sg_embed.specs.Happening.{asked_happening};
ghost use Rattle.sg_embed.specs.Outcome.{outcome_of};
ghost use Rattle.sg_embed.specs.Words.{asked_by_words};

use crate::happening::HappeningRecord;
use crate::outcome::Outcome;

/// Reads what the words of a text ask for: the words of a script's line for something that happens to
/// an extended disk. The text may have any length.
///
/// # Errors
/// The outcome of the first that applies of [`HappeningFault`](sg_run::HappeningFault).
pub fn read_happening(text: &[u8]) -> Result<HappeningRecord, Outcome>
    ensures outcome { outcome_of result ≡ outcome_of (asked_by_words text.now) }
    ensures asked { IfOk result (λ made. asked_happening initiator_count made ≡ asked_by_words text.now) }
    ensures refused { IfErr result (λ outcome. outcome ≢ Outcome.Done) }
{
    match sg_run::read_happening(text) {
        Ok(happening) => Ok(HappeningRecord::of(&happening)),
        Err(fault) => Err(Outcome::of_words(fault)),
    }
}
