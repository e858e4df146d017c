// UNMAP, WRITE SAME and GET LBA STATUS: logical block provisioning (SBC-3, 4.7 and 5).
ghost use Rattle.std.specs.Prelude.{◌≡◌, ◌+◌, ◌≤◌, [], ◌∷◌, length, false};
ghost use Rattle.std.specs.Prelude.{Some, None, Ok, IfOk, IfErr, IfNone, min};
ghost use Rattle.sg_wire.specs.UnmapList.{maximum_unmap_descriptors};
ghost use Rattle.sg_store.specs.Disk.{unmapped};
ghost use Rattle.sg_store.specs.Meter.{no_counts};
ghost use Rattle.sg_pages.specs.BlockDescriptor.{logical_block_length};
ghost use Rattle.sg_target.specs.Anchoring.{HasAllowedSize, disk_changed_in_turn};
ghost use Rattle.sg_target.specs.Checks.{out_of_range, requested, short_data_out, unsupported_value};
ghost use Rattle.sg_target.specs.DataInBound.{longest_status};
ghost use Rattle.sg_target.specs.DataOut.{need};
ghost use Rattle.sg_target.specs.Demands.{bad_count, bad_length, same_length, write_same};
ghost use Rattle.sg_target.specs.Demands.{unmap as demands_of_unmap, extent};
ghost use Rattle.sg_target.specs.Charge.{IsCounted, TakesStep, cost_bounds};
ghost use Rattle.sg_target.specs.Extents.{AreOnDisk};
ghost use Rattle.sg_target.specs.ProvisioningCommands.{anchoring, filling};
ghost use Rattle.sg_target.specs.ProvisioningCommands.{reporting_status, unmap_list_refusal};
ghost use Rattle.sg_target.specs.ProvisioningCommands.{same_block, unmapping, unmaps};
ghost use Rattle.sg_target.specs.Ranges.{anchoring_ranges, range, ranges_in_turn, status_ranges};
ghost use Rattle.sg_target.specs.Semantics.{names_some_block};
ghost use Rattle.sg_target.specs.State.{IsWithinLimits};
ghost use Rattle.sg_target.specs.Step.{executed, outcome};

use crate::anchoring::anchor_extents;
use crate::config::Config;
use crate::data_out::needed_data_out;
use crate::extent::first_past_capacity;
use crate::operation::Operation;
use crate::refusal::{Reason, Refusal};
use crate::reply::Reply;
use crate::target::Target;
use sg_store::lba_status::MAX_DESCRIPTORS;
use sg_store::{BLOCK_LENGTH, MAX_CAPACITY, Store};
use sg_wire::laws::answers_are_in_their_buffers;
use sg_wire::{
    Cut, Extent, GetLbaStatus, Initiator, ListedExtents, STATUS_DESCRIPTOR_LENGTH,
    STATUS_HEADER_LENGTH, Unmap, UnmapList, UnmapListFault, WriteSame10, WriteSame16, are_zeros,
};
use std::marker::Model;

/// Where ANCHOR is in the CDB of WRITE SAME, and NDOB.
const ANCHOR_BYTE: u16 = 1;

const NDOB_BYTE: u16 = 1;

/// The block of a WRITE SAME with NDOB.
const ZERO_BLOCK: [u8; BLOCK_LENGTH] = [0; BLOCK_LENGTH];

// ---- UNMAP

impl From<UnmapListFault> for Refusal {
    ghost from_gives = { λ fault refusal. refusal ≡ unmap_list_refusal fault };

    fn from(fault: UnmapListFault) -> Refusal {
        match fault {
            UnmapListFault::Short => Refusal::CheckCondition(Reason::ParameterListLengthError),
            UnmapListFault::TooManyDescriptors => {
                Refusal::CheckCondition(Reason::InvalidFieldInParameterList {
                    byte: UnmapList::DESCRIPTOR_DATA_LENGTH_AT as u16,
                })
            }
        }
    }
}

pub(crate) fn check_unmap<'a>(
    config: &Config,
    fields: Unmap,
    data_out: &'a [u8],
) -> Result<Operation<'a>, Refusal>
    ensures { result ≡ requested (demands_of_unmap config.now fields data_out.now) data_out.now }
{
    let list = needed_data_out(config, data_out, usize::from(fields.list_length))?;
    let listed = UnmapList::read(list)?;
    let extents = listed.named(config.rules().unmap_ignores_empty_extents);
    if fields.anchor {
        Ok(Operation::Anchor(extents))
    } else {
        Ok(Operation::Unmap(extents))
    }
}

/// The reason why the extents of a parameter list can't all be reached, on a disk of `capacity`
/// blocks.
// Not inlined: the stack frame of every command would have room for their table.
#[inline(never)]
pub(crate) fn listed_out_of_range(listed: &ListedExtents<'_>, capacity: u64) -> Option<Refusal>
    requires { capacity ≤ MAX_CAPACITY }
    ensures value { result ≡ out_of_range capacity listed.now }
    ensures on_disk { IfNone result (AreOnDisk capacity listed.now) }
{
    let extents = listed.to_list();
    first_past_capacity(extents.as_slice(), capacity)
}

/// Returns `true` if one of the extents names a block.
pub(crate) fn listed_some_block(listed: &ListedExtents<'_>) -> bool
    ensures { result ≡ names_some_block listed.now }
{
    let extents = listed.to_list();
    extents.as_slice().iter().any(|extent| extent.count > 0)
}

impl<S: Store> Target<S> {
    /// Unmaps the extents of a parameter list.
    // Not inlined: the stack frame of every command would have room for their table.
    #[inline(never)]
    pub(crate) fn unmap_listed(&mut self, listed: &ListedExtents<'_>, buf: &[u8]) -> Reply
        requires on_disk { AreOnDisk self.old.state.disk.capacity listed.now }
        requires limits { IsWithinLimits self.old.state }
        ensures { TakesStep (cost_bounds S.price S.least)
            (executed (unmapping self.old.state listed.now))
            (ranges_in_turn unmapped self.old.state.disk.contents listed.now)
            self.old self.new result buf.now buf.now }
    {
        let extents = listed.to_list();
        self.unmap(extents.as_slice(), buf)
    }

    /// Unmaps extents in turn.
    pub(crate) fn unmap(&mut self, extents: &[Extent], buf: &[u8]) -> Reply
        requires on_disk { AreOnDisk self.old.state.disk.capacity extents.now }
        requires at_most { length extents.now ≤ maximum_unmap_descriptors }
        requires limits { IsWithinLimits self.old.state }
        ensures { TakesStep (cost_bounds S.price S.least)
            (executed (unmapping self.old.state extents.now))
            (ranges_in_turn unmapped self.old.state.disk.contents extents.now)
            self.old self.new result buf.now buf.now }
    {
        if extents.is_empty() {
            return Reply::without_blocks(0);
        }
        self.store.restart_counts();
        unmap_in_turn(&mut self.store, extents);
        // Its contract says that a store uses no more blocks than its pool has.
        let _ = self.store.used();
        Reply::good(0, self.store.counts())
    }
}

impl<S: Store> Target<S> {
    /// Unmaps all blocks.
    pub(crate) fn unmap_all(&mut self, blocks: u64, buf: &[u8]) -> Reply
        requires on_disk { 0 + blocks ≤ self.old.state.disk.capacity }
        ensures { let all = extent 0 blocks in
            TakesStep (cost_bounds S.price S.least)
            (executed (unmapping self.old.state (all ∷ [])))
            (range self.old.state.disk.contents all ∷ [])
            self.old self.new result buf.now buf.now }
    {
        self.store.restart_counts();
        self.store.unmap(0, blocks);
        // Its contract says that a store uses no more blocks than its pool has.
        let _ = self.store.used();
        Reply::good(0, self.store.counts())
    }
}

/// Unmaps extents of a store that has counted nothing.
fn unmap_in_turn<S: Store>(store: &mut S, extents: &[Extent])
    requires on_disk { AreOnDisk (S.disk store.old).capacity extents.now }
    requires at_most { length extents.now ≤ maximum_unmap_descriptors }
    requires size { HasAllowedSize (S.disk store.old) }
    requires nothing_counted { (S.meter store.old).counts ≡ no_counts }
    ensures disk { S.disk store.new
        ≡ disk_changed_in_turn unmapped (S.disk store.old) extents.now }
    ensures counted { IsCounted (cost_bounds S.price S.least) (S.disk store.old).pool
        (ranges_in_turn unmapped (S.disk store.old).contents extents.now)
        (S.meter store.old) (S.meter store.new) }
{
    for extent in extents {
        store.unmap(extent.lba, u64::from(extent.count));
    }
}

// ---- Anchoring

impl<S: Store> Target<S> {
    /// Anchors the extents of a parameter list.
    // Not inlined: the stack frame of every command would have room for their table.
    #[inline(never)]
    pub(crate) fn anchor_listed(
        &mut self,
        initiator: Initiator,
        listed: &ListedExtents<'_>,
        buf: &[u8],
    ) -> Reply
        requires on_disk { AreOnDisk self.old.state.disk.capacity listed.now }
        requires limits { IsWithinLimits self.old.state }
        ensures { TakesStep (cost_bounds S.price S.least)
            (outcome self.old.state initiator (Ok (anchoring self.old.state listed.now)))
            (anchoring_ranges self.old.state.disk listed.now)
            self.old self.new result buf.now buf.now }
    {
        let extents = listed.to_list();
        self.anchor(initiator, extents.as_slice(), buf)
    }

    /// Anchors extents in turn, unless there is no space for all of them.
    #[tactic(auto, using(crate::proofs::Space::room), unfolding(crate::specs::Effect::no_space))]
    pub(crate) fn anchor(&mut self, initiator: Initiator, extents: &[Extent], buf: &[u8]) -> Reply
        requires on_disk { AreOnDisk self.old.state.disk.capacity extents.now }
        requires at_most { length extents.now ≤ maximum_unmap_descriptors }
        requires limits { IsWithinLimits self.old.state }
        ensures { TakesStep (cost_bounds S.price S.least)
            (outcome self.old.state initiator (Ok (anchoring self.old.state extents.now)))
            (anchoring_ranges self.old.state.disk extents.now)
            self.old self.new result buf.now buf.now }
    {
        if extents.is_empty() {
            return Reply::without_blocks(0);
        }
        self.store.restart_counts();
        let anchored = anchor_extents(&mut self.store, self.config.pool(), extents);
        self.reply_to_write(initiator, anchored)
    }
}

// ---- WRITE SAME

// Where NUMBER OF LOGICAL BLOCKS begins in a CDB of ten bytes, and in one of sixteen.
const NUMBER_OF_BLOCKS_10: u16 = 7;

const NUMBER_OF_BLOCKS_16: u16 = 10;

/// A logical block in data-out.
#[derive(Drop)]
pub struct BlockOut<'a> {
    pub(crate) bytes: &'a [u8],
}

impl<'a> Model for BlockOut<'a> {
    ghost use Rattle.std.specs.Prelude.{◌≡◌, List, ℕ, length};
    ghost use Rattle.sg_pages.specs.BlockDescriptor.{logical_block_length};

    ghost Value = { List ℕ };

    ghost view = { λ b. b.bytes.now };

    ghost invariant = { λ b. length b.bytes.now ≡ logical_block_length };
}

/// WRITE SAME(10).
pub(crate) fn check_write_same_10<'a>(
    config: &Config,
    fields: WriteSame10,
    data_out: &'a [u8],
) -> Result<Operation<'a>, Refusal>
    ensures { result ≡ requested (write_same config.now fields.anchor fields.unmap false
        (extent fields.lba fields.count) 7 data_out.now) data_out.now }
{
    let extent = Extent {
        lba: u64::from(fields.lba),
        count: u32::from(fields.count),
    };
    let bits = SameBits {
        anchor: fields.anchor,
        unmap: fields.unmap,
        ndob: false,
    };
    check_write_same(config, bits, extent, NUMBER_OF_BLOCKS_10, data_out)
}

/// WRITE SAME(16).
pub(crate) fn check_write_same_16<'a>(
    config: &Config,
    fields: WriteSame16,
    data_out: &'a [u8],
) -> Result<Operation<'a>, Refusal>
    ensures { result ≡ requested (write_same config.now fields.anchor fields.unmap fields.ndob
        (extent fields.lba fields.count) 10 data_out.now) data_out.now }
{
    let extent = Extent {
        lba: fields.lba,
        count: fields.count,
    };
    let bits = SameBits {
        anchor: fields.anchor,
        unmap: fields.unmap,
        ndob: fields.ndob,
    };
    check_write_same(config, bits, extent, NUMBER_OF_BLOCKS_16, data_out)
}

/// ANCHOR, UNMAP and NDOB.
#[derive(Clone, Copy)]
struct SameBits {
    anchor: bool,
    unmap: bool,
    ndob: bool,
}

/// NUMBER OF LOGICAL BLOCKS begins at the byte.
fn check_write_same<'a>(
    config: &Config,
    bits: SameBits,
    extent: Extent,
    byte: u16,
    data_out: &'a [u8],
) -> Result<Operation<'a>, Refusal>
    ensures { result ≡ requested (write_same config.now bits.anchor bits.unmap bits.ndob extent byte
        data_out.now) data_out.now }
{
    let SameBits {
        anchor,
        unmap,
        ndob,
    } = bits;
    if anchor && !unmap {
        return Err(Refusal::CheckCondition(Reason::InvalidFieldInCdb { byte: ANCHOR_BYTE }));
    }
    check_write_same_lengths(config, extent, byte, ndob, data_out)?;
    let bytes = same_block(config, ndob, data_out)?;
    if !unmaps(unmap, bytes) {
        let block = BlockOut { bytes };
        Ok(Operation::Fill { extent, block })
    } else if anchor {
        Ok(Operation::AnchorExtent(extent))
    } else {
        Ok(Operation::UnmapExtent(extent))
    }
}

/// Refuses no block, more blocks than WRITE SAME writes, and data-out of a length that it does not
/// take, if the profile says so.
fn check_write_same_lengths(
    config: &Config,
    extent: Extent,
    byte: u16,
    ndob: bool,
    data_out: &[u8],
) -> Result<(), Refusal>
    ensures refused { IfErr result (λ refusal. unsupported_value (bad_count config.now extent.count
        byte (bad_length config.now (same_length ndob) data_out.now)) ≡ Some refusal) }
    ensures passed { IfOk result (λ _. bad_count config.now extent.count byte
        (bad_length config.now (same_length ndob) data_out.now) ≡ None) }
{
    if !(1..=config.limits().write_same_length).contains(&extent.count) {
        return Err(Refusal::CheckCondition(Reason::InvalidFieldInCdb { byte }));
    }
    let needed = if ndob { 0 } else { BLOCK_LENGTH };
    if config.rules().write_same_takes_exact_length && data_out.len() != needed {
        return Err(Refusal::CheckCondition(Reason::InvalidFieldInCdb { byte: NDOB_BYTE }));
    }
    Ok(())
}

/// The block that WRITE SAME writes: the first of data-out, or zeros.
#[tactic(auto, unfolding(sg_store::specs::Disk::zero_block))]
fn same_block<'a>(config: &Config, ndob: bool, data_out: &'a [u8]) -> Result<&'a [u8], Refusal>
    ensures refused { IfErr result (λ refusal.
        short_data_out (Some (need config.now (same_length ndob))) data_out.now ≡ Some refusal) }
    ensures passed { IfOk result (λ _.
        short_data_out (Some (need config.now (same_length ndob))) data_out.now ≡ None) }
    ensures block { IfOk result (λ bytes. bytes.now ≡ same_block ndob data_out.now) }
    ensures whole { IfOk result (λ bytes. length bytes.now ≡ logical_block_length) }
{
    if ndob {
        return Ok(&ZERO_BLOCK);
    }
    needed_data_out(config, data_out, BLOCK_LENGTH)
}

/// Returns `true` if WRITE SAME unmaps its blocks, which are read as zeros then.
#[tactic(auto, unfolding(crate::specs::ProvisioningCommands::unmaps))]
fn unmaps(unmap: bool, block: &[u8]) -> bool
    ensures { result ≡ unmaps unmap block.now }
{
    unmap && are_zeros(block)
}

impl<S: Store> Target<S> {
    /// Replaces each of its blocks by one block, unless there is no space for them.
    #[tactic(auto, unfolding(crate::specs::Effect::no_space))]
    pub(crate) fn fill(
        &mut self,
        initiator: Initiator,
        extent: Extent,
        block: &BlockOut<'_>,
        buf: &[u8],
    ) -> Reply
        requires on_disk { extent.lba + extent.count ≤ self.old.state.disk.capacity }
        ensures { TakesStep (cost_bounds S.price S.least)
            (outcome self.old.state initiator (Ok (filling self.old.state extent block.now)))
            (range self.old.state.disk.contents extent ∷ [])
            self.old self.new result buf.now buf.now }
    {
        let mut bytes = [0; BLOCK_LENGTH];
        bytes.copy_from_slice(block.bytes);
        self.store.restart_counts();
        let filled = self.store.fill(extent.lba, extent.count, &bytes);
        self.reply_to_write(initiator, filled)
    }
}

// ---- GET LBA STATUS

#[inline(always)]
pub(crate) fn check_get_lba_status(fields: GetLbaStatus) -> Operation<'static>
    ensures { result ≡ Operation.ReturnLbaStatus fields.start fields.allocation_length }
{
    Operation::ReturnLbaStatus {
        start: fields.start,
        allocation_length: fields.allocation_length,
    }
}

/// The length of the longest data of GET LBA STATUS, in bytes.
pub(crate) const LONGEST_STATUS_DATA: usize = STATUS_HEADER_LENGTH
    + STATUS_DESCRIPTOR_LENGTH * MAX_DESCRIPTORS;

impl<S: Store> Target<S> {
    /// Returns which blocks are mapped, from an address on.
    pub(crate) fn return_lba_status(
        &mut self,
        start: u64,
        allocation_length: u32,
        buf: &mut [u8],
    ) -> Reply
        requires on_disk { start + 1 ≤ self.old.state.disk.capacity }
        requires room { min longest_status allocation_length ≤ length buf.old }
        ensures { TakesStep (cost_bounds S.price S.least)
            (executed (reporting_status self.old.state start allocation_length))
            (status_ranges self.old.state.disk start)
            self.old self.new result buf.old buf.new }
    {
        let limit = LONGEST_STATUS_DATA.min(allocation_length as usize);
        self.store.restart_counts();
        answers_are_in_their_buffers();
        let mut cut = Cut::new(buf, limit);
        self.store.status(start, &mut cut);
        Reply::good(cut.written(), self.store.counts())
    }
}
