//! Laws of the commands that report on the unit.
ghost use Rattle.sg_fencing.specs.Reports.{TheLogCountsThePool, TheOnlyUnitIsListed};

/// REPORT LUNS lists LUN 0 and nothing else, or nothing if it asks for well known logical units
/// (SPC-4, 6.33).
pub fn the_only_unit_is_listed()
    ensures { TheOnlyUnitIsListed }
{}

/// LOG SENSE of the page Logical Block Provisioning, 0Ch, counts in threshold sets the blocks of the pool
/// that mapped and anchored addresses have, and the others (SBC-3, log parameters).
pub fn the_log_counts_the_pool()
    ensures { TheLogCountsThePool }
{}
