//! Laws of the format: each is the contract of a function that does nothing.
ghost use Rattle.sg_journal.specs.Laws.{ABatchCutShortDoesNotCount, AClosedGateHidesTheRest};
ghost use Rattle.sg_journal.specs.Laws.{AnotherChecksumIsDamage, BatchesAreFound};
ghost use Rattle.sg_journal.specs.Laws.{NoBytesHaveNoBatches};

/// A file of no bytes has no batches.
pub fn no_bytes_have_no_batches()
    ensures { NoBytesHaveNoBatches }
{}

/// Each batch that was written is found, in order.
pub fn batches_are_found()
    ensures { BatchesAreFound }
{}

/// The bytes after a closed gate do not matter.
pub fn a_closed_gate_hides_the_rest()
    ensures { AClosedGateHidesTheRest }
{}

/// A batch that is cut short, wherever it is cut, does not count.
pub fn a_batch_cut_short_does_not_count()
    ensures { ABatchCutShortDoesNotCount }
{}

/// If a batch counts, and its checksum is not the checksum of its records, the file is damaged at
/// its gate.
pub fn another_checksum_is_damage()
    ensures { AnotherChecksumIsDamage }
{}
