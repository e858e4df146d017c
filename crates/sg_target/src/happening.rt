// What happens to a disk between two commands.
use sg_faults::Fault;
use sg_units::{Initiators, UnitAttention};
use sg_wire::Initiator;

/// What happens to a disk. No initiator sends it, and it has no reply.
#[derive(Clone, Copy)]
pub enum Happening {
    /// Power is lost, and is on again.
    Power,
    /// A logical unit reset (SAM-5, 6.3.3). The saved mode pages become the current ones. 29h/03h,
    /// BUS DEVICE RESET FUNCTION OCCURRED, is established for each initiator. A stopped unit is started.
    LogicalUnitReset,
    /// A hard reset of the target (SAM-5, 6.3.2). It does the same, with 29h/02h, SCSI BUS RESET
    /// OCCURRED.
    TargetReset,
    /// The I_T nexus of an initiator is lost (SAM-5, 6.3.4). 29h/07h, I_T NEXUS LOSS OCCURRED, is
    /// established for it, unless the condition of a reset is pending.
    NexusLoss(Initiator),
    /// A unit attention condition is established for some initiators.
    Establish(UnitAttention, Initiators),
    /// The disk gets more logical blocks, up to 2^40: their number is given. 2Ah/09h, CAPACITY DATA
    /// HAS CHANGED, is established for each initiator. Nothing happens if the disk has as many.
    Grow(u64),
    /// A fault is armed, under the lowest free number. Nothing happens if there are as many as there is
    /// room for.
    Arm(Fault),
    /// The fault with a number is taken away, if there is one.
    Disarm(usize),
    /// All faults are taken away.
    DisarmAll,
}
