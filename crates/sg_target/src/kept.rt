// What those who keep a disk in a file ask of it: the parts that a power cycle leaves, the blocks and bytes
// of an operation, and the reply of a disk whose file failed. No command does this.
ghost use Rattle.std.specs.Prelude.{◌≡◌, ◌+◌, ◌≤◌, length, None};
ghost use Rattle.sg_faults.specs.SenseCode.{sense_code};
ghost use Rattle.sg_faults.specs.declared.sense_code.SenseKey.TheVariants.{HardwareError};
ghost use Rattle.sg_pages.specs.BlockDescriptor.{logical_block_length};
ghost use Rattle.sg_pages.specs.ModePage.{caches_writes};
ghost use Rattle.sg_store.specs.Disk.{blocks};
ghost use Rattle.sg_store.specs.Meter.{no_counts};
ghost use Rattle.sg_wire.specs.Profile.{maximum_transfer_length};
ghost use Rattle.sg_target.specs.BlockCommands.{bytes_of};
ghost use Rattle.sg_target.specs.MadeReplies.{refused_reply};
ghost use Rattle.sg_target.specs.State.{IsWithinLimits};
ghost use Rattle.sg_target.specs.Step.{sense_format};

use crate::block::BlocksOut;
use crate::provisioning::BlockOut;
use crate::refusal::{Reason, Refusal};
use crate::reply::Reply;
use crate::target::Target;
use crate::verify::Exchange;
use sg_faults::{Faults, SenseCode, SenseKey};
use sg_pages::PageValues;
use sg_store::{Counts, Store};
use sg_units::Reservations;
use sg_wire::Extent;

impl<S: Store> Target<S> {
    /// Reads the blocks of an extent into a slice, which is just as long.
    pub fn read_blocks(&mut self, extent: Extent, bytes: &mut [u8])
        requires on_disk { extent.lba + extent.count ≤ self.old.state.disk.capacity }
        requires byte_count { length bytes.old ≡ bytes_of extent }
        ensures bytes { bytes.new ≡ blocks self.old.state.disk.contents extent.lba extent.count }
        ensures state { self.new.state ≡ self.old.state }
        ensures faults { self.new.faults ≡ self.old.faults }
    {
        self.store.restart_counts();
        self.store.read(extent.lba, extent.count, bytes);
    }

    /// The number of addresses, in logical blocks.
    pub fn capacity(&self) -> u64
        ensures { result ≡ self.now.state.disk.capacity }
    {
        self.config.blocks()
    }

    /// The saved values of the mode pages.
    pub fn saved_pages(&self) -> &PageValues
        ensures { result.now ≡ self.now.state.modes.saved }
    {
        self.modes.saved()
    }

    /// WCE: a write may end before it is on the medium.
    pub fn caches_writes(&self) -> bool
        ensures { result ≡ caches_writes self.now.state.modes }
    {
        self.modes.caches_writes()
    }

    /// Registrations and reservation.
    pub fn reservations(&self) -> &Reservations
        ensures { result.now ≡ self.now.state.reservations }
    {
        &self.reservations
    }

    /// The table of the armed faults.
    pub fn fault_table(&self) -> &Faults
        ensures { result.now ≡ self.now.faults }
    {
        &self.faults
    }

    /// The reply of a disk whose file failed: CHECK CONDITION, HARDWARE ERROR, INTERNAL TARGET FAILURE
    /// (SPC-4, 4.5.6).
    pub fn failure_reply(&self) -> Reply
        ensures { let code = sense_code HardwareError 0x44 0x00 in
            result ≡ refused_reply (sense_format self.now.state)
            (Refusal.CheckCondition (Reason.Fault code None)) no_counts }
    {
        let code = SenseCode {
            key: SenseKey::HardwareError,
            asc: 0x44,
            ascq: 0x00,
        };
        let first_bad = None;
        Reply::refused(
            Refusal::CheckCondition(Reason::Fault { code, first_bad }),
            self.sense_format(),
            Counts::default(),
        )
    }
}

impl BlocksOut<'_> {
    /// The blocks, no more than the disk moves at once.
    pub fn extent(&self) -> Extent
        ensures value { result ≡ self.now.extent }
        ensures at_most { result.count ≤ maximum_transfer_length }
    {
        self.extent
    }

    /// Their bytes.
    pub fn bytes(&self) -> &[u8]
        ensures value { result.now ≡ self.now.bytes }
        ensures whole { length result.now ≡ bytes_of self.now.extent }
    {
        self.bytes
    }
}

impl BlockOut<'_> {
    /// The bytes of the block.
    pub fn bytes(&self) -> &[u8]
        ensures value { result.now ≡ self.now }
        ensures whole { length result.now ≡ logical_block_length }
    {
        self.bytes
    }
}

impl Exchange<'_> {
    /// The blocks, no more than the disk moves at once.
    pub fn extent(&self) -> Extent
        ensures value { result ≡ self.now.extent }
        ensures at_most { result.count ≤ maximum_transfer_length }
    {
        self.extent
    }

    /// The bytes that replace theirs.
    pub fn replacement(&self) -> &[u8]
        ensures value { result.now ≡ self.now.replacement }
        ensures whole { length result.now ≡ bytes_of self.now.extent }
    {
        self.replacement
    }
}
