//! Laws of the definitions: each is the contract of a function that does nothing.
ghost use Rattle.sg_run.specs.ScriptRun.{DeliversKnownScripts, RefusesLongScripts};
ghost use Rattle.sg_run.specs.Walk.{AnswersAreOfAWalk, AnswersHaveTheFirst, WalksInOrder};

/// [`run_script`](crate::run_script) over a reader whose bytes are known, at most 4,294,967,295 of
/// them: if neither the reader nor the writer fails, the transcript of the script is written, its
/// status is returned, and its state is the disk's.
pub fn a_run_delivers_a_known_script()
    ensures { DeliversKnownScripts }
{}

/// [`run_script`](crate::run_script) over a reader of more bytes: if the writer does not fail, the
/// result is [`RunFault::Read`](crate::RunFault::Read).
pub fn a_run_refuses_a_script_past_the_limit()
    ensures { RefusesLongScripts }
{}

/// An answer to GET LBA STATUS has the first of the descriptors from its address on, as many as it
/// may have.
pub fn an_answer_has_the_first_descriptors()
    ensures { AnswersHaveTheFirst }
{}

/// If GET LBA STATUS ends with GOOD, it returns the answer that a walk has from that address on,
/// and leaves the disk as it was.
pub fn the_answers_of_a_walk_are_the_disks()
    ensures { AnswersAreOfAWalk }
{}

/// A walk over a disk by GET LBA STATUS names the descriptors of the disk in order, and each answer
/// adds one or more. Each answer begins at the end of the last whole descriptor of the one before
/// ([`sg_decode::next_start`]). As many answers as there are descriptors reach the end of the disk:
/// then each address from the start on was named once.
pub fn a_walk_names_each_address_once()
    ensures { WalksInOrder }
{}
