//! Laws of the calls that wait.
ghost use Rattle.sg_queue.specs.Moments.{WaitingCallsAreMoments};

/// A crash can come before the program has made each call that waits. Then the file is what a crash may have
/// left at one of the moments that the contracts of [`FileDevice`](sg_file::FileDevice) speak of.
pub fn waiting_calls_are_moments()
    ensures { WaitingCallsAreMoments }
{}
