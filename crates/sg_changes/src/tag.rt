// The tags of records: the first byte of each.

/// The blocks of an extent.
pub(crate) const WRITE: u8 = 1;

/// One block for all addresses of an extent.
pub(crate) const FILL: u8 = 2;

/// A range that is unmapped.
pub(crate) const UNMAP: u8 = 3;

/// An extent that is anchored.
pub(crate) const ANCHOR: u8 = 4;

/// The saved values of the mode pages.
pub(crate) const PAGES: u8 = 5;

/// Registrations and reservation.
pub(crate) const RESERVATIONS: u8 = 6;

/// The armed faults.
pub(crate) const FAULTS: u8 = 7;

/// The capacity of a disk that has grown.
pub(crate) const GROW: u8 = 8;

/// The first record of a file. No change has this tag.
pub(crate) const NEW_DISK: u8 = 9;
