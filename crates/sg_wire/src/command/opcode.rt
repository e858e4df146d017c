// The operation codes of the commands (SPC-4, 6; SBC-3, 5; READ(6) and WRITE(6) of SBC-2; WRITE
// ATOMIC(16) of SBC-4).
pub(super) const TEST_UNIT_READY: u8 = 0x00;

pub(super) const REQUEST_SENSE: u8 = 0x03;

pub(super) const FORMAT_UNIT: u8 = 0x04;

pub(super) const READ_6: u8 = 0x08;

pub(super) const WRITE_6: u8 = 0x0A;

pub(super) const INQUIRY: u8 = 0x12;

pub(super) const MODE_SELECT_6: u8 = 0x15;

pub(super) const MODE_SENSE_6: u8 = 0x1A;

pub(super) const START_STOP_UNIT: u8 = 0x1B;

pub(super) const SEND_DIAGNOSTIC: u8 = 0x1D;

pub(super) const READ_CAPACITY_10: u8 = 0x25;

pub(super) const READ_10: u8 = 0x28;

pub(super) const WRITE_10: u8 = 0x2A;

pub(super) const WRITE_AND_VERIFY_10: u8 = 0x2E;

pub(super) const VERIFY_10: u8 = 0x2F;

pub(super) const PRE_FETCH_10: u8 = 0x34;

pub(super) const SYNCHRONIZE_CACHE_10: u8 = 0x35;

pub(super) const READ_DEFECT_DATA_10: u8 = 0x37;

pub(super) const WRITE_LONG_10: u8 = 0x3F;

pub(super) const WRITE_SAME_10: u8 = 0x41;

pub(super) const UNMAP: u8 = 0x42;

pub(super) const SANITIZE: u8 = 0x48;

pub(super) const LOG_SENSE: u8 = 0x4D;

pub(super) const MODE_SELECT_10: u8 = 0x55;

pub(super) const MODE_SENSE_10: u8 = 0x5A;

pub(super) const PERSISTENT_RESERVE_IN: u8 = 0x5E;

pub(super) const PERSISTENT_RESERVE_OUT: u8 = 0x5F;

pub(super) const EXTENDED_COPY: u8 = 0x83;

pub(super) const RECEIVE_COPY_RESULTS: u8 = 0x84;

pub(super) const READ_16: u8 = 0x88;

pub(super) const COMPARE_AND_WRITE: u8 = 0x89;

pub(super) const WRITE_16: u8 = 0x8A;

pub(super) const ORWRITE_16: u8 = 0x8B;

pub(super) const WRITE_AND_VERIFY_16: u8 = 0x8E;

pub(super) const VERIFY_16: u8 = 0x8F;

pub(super) const PRE_FETCH_16: u8 = 0x90;

pub(super) const SYNCHRONIZE_CACHE_16: u8 = 0x91;

pub(super) const WRITE_SAME_16: u8 = 0x93;

pub(super) const WRITE_ATOMIC_16: u8 = 0x9C;

pub(super) const SERVICE_ACTION_IN_16: u8 = 0x9E;

pub(super) const REPORT_LUNS: u8 = 0xA0;

pub(super) const MAINTENANCE_IN: u8 = 0xA3;

pub(super) const READ_12: u8 = 0xA8;

pub(super) const WRITE_12: u8 = 0xAA;

pub(super) const WRITE_AND_VERIFY_12: u8 = 0xAE;

pub(super) const VERIFY_12: u8 = 0xAF;

pub(super) const READ_DEFECT_DATA_12: u8 = 0xB7;
