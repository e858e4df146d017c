//! Laws of what a crash leaves.
ghost use Rattle.sg_file.specs.History.{WhatIsSeenMayStay};

/// A program that is killed leaves what it has written: that is one of the outcomes that the contracts of
/// [`FileDevice`](crate::FileDevice) allow. So there is always one.
pub fn what_is_seen_may_stay()
    ensures { WhatIsSeenMayStay }
{}
