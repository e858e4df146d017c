//! Laws of a unit that START STOP UNIT has stopped (SBC-3, 5.25).
ghost use Rattle.sg_fencing.specs.Stopping.{BaseDisksAreNeverStopped, OnlyStartStopUnitStops};
ghost use Rattle.sg_fencing.specs.Stopping.{StoppedUnitsAreIdle};

use sg_target::laws::the_configuration_stays;
use sg_wire::laws::profiles_are_closed;

/// Of the commands only START STOP UNIT stops or starts the unit. If it ends with GOOD, it does what
/// START says and nothing else. A power cycle and each reset start the unit, and no other happening
/// stops or starts it.
pub fn only_start_stop_unit_stops_the_unit()
    ensures { OnlyStartStopUnitStops }
{}

/// A base disk that is not stopped stays so over each list of events.
pub fn a_base_disk_is_never_stopped()
    ensures { BaseDisksAreNeverStopped }
{
    profiles_are_closed();
    the_configuration_stays();
}

/// While the unit is stopped, no command changes the disk. The answer to each command is the same
/// whatever the blocks are, and whichever are mapped. Only LOG SENSE of page 0Ch shows how many are used.
pub fn a_stopped_unit_is_idle()
    ensures { StoppedUnitsAreIdle }
{}
