//! Laws of the definitions: each is the contract of a function that does nothing.
ghost use Rattle.sg_changes.specs.Laws.{FirstRecordsAreExact, KeptStaysSound, RecordsAreExact};
ghost use Rattle.sg_changes.specs.Laws.{RecordsAreReplayed, RunsMakeTheDisk};

/// A record is read as the change that it was written for, whatever follows it. Bytes that are read
/// as a change are its record, so that no change has a second spelling.
pub fn records_are_exact()
    ensures { RecordsAreExact }
{}

/// The same is true of the first record of a file.
pub fn first_records_are_exact()
    ensures { FirstRecordsAreExact }
{}

/// Replaying the records of changes applies the changes, one after another. One more record applies
/// one more change to what the records before it left.
pub fn records_are_replayed()
    ensures { RecordsAreReplayed }
{}

/// Whatever records say, what is kept after them keeps the limits of a disk, as what is kept of a
/// new disk does.
pub fn kept_stays_sound()
    ensures { KeptStaysSound }
{}

/// The runs of a disk, from its first address on, make the disk of a new one: data is written, and
/// anchored addresses are anchored. Each run is found by the descriptor at its first address.
pub fn runs_make_the_disk()
    ensures { RunsMakeTheDisk }
{}
