// The tags of what faults do: the first byte of each.

/// BUSY, as a command arrives.
pub(crate) const BUSY: u8 = 1;

/// TASK SET FULL, as a command arrives.
pub(crate) const TASK_SET_FULL: u8 = 2;

/// RESERVATION CONFLICT, as a command arrives.
pub(crate) const RESERVATION_CONFLICT: u8 = 3;

/// No reply, as a command arrives.
pub(crate) const NO_REPLY: u8 = 4;

/// CHECK CONDITION, as a command arrives.
pub(crate) const CHECK_CONDITION: u8 = 5;

/// A deferred error, as a command arrives.
pub(crate) const DEFERRED_ERROR: u8 = 6;

/// CHECK CONDITION, at the medium.
pub(crate) const MEDIUM_ERROR: u8 = 7;

/// Only the first blocks move.
pub(crate) const MOVES_ONLY: u8 = 8;

/// No status, after a command has ended with GOOD.
pub(crate) const NO_STATUS: u8 = 9;

/// CHECK CONDITION, after data-in.
pub(crate) const LATE_CHECK_CONDITION: u8 = 10;

/// Only the first bytes of data-in arrive.
pub(crate) const SHORT_DATA_IN: u8 = 11;
