// READ, WRITE, WRITE ATOMIC and READ CAPACITY (SBC-3, 5). SYNCHRONIZE CACHE and PRE-FETCH have their
// blocks checked and nothing to do, because there is no cache.
ghost use Rattle.std.specs.Prelude.{◌≡◌, ◌<◌, ◌≤◌, ◌+◌, ◌∷◌, [], length, Some, None, Ok, OnOk, OnErr};
ghost use Rattle.std.specs.Prelude.{IfOk, IfErr, min};
ghost use Rattle.sg_pages.specs.CapacityData.{capacity_10, capacity_16};
ghost use Rattle.sg_store.specs.Disk.{block_at};
ghost use Rattle.sg_wire.specs.Profile.{maximum_transfer_length};
ghost use Rattle.sg_wire.specs.FirstBytes.{first_bytes};
ghost use Rattle.sg_target.specs.BlockCommands.{blocks_out, bytes_of, first_of, reading, writing};
ghost use Rattle.sg_target.specs.Checks.{requested, short_data_out, unsupported_value};
ghost use Rattle.sg_target.specs.DataOut.{blocks_need, moved, need};
ghost use Rattle.sg_target.specs.Demands.{reached, read, too_long, write, write_atomic};
ghost use Rattle.sg_target.specs.Charge.{TakesStep, cost_bounds};
ghost use Rattle.sg_target.specs.Ranges.{range};
ghost use Rattle.sg_target.specs.MadeReplies.{ReturnsData, executed_reply, refused_reply};
ghost use Rattle.sg_target.specs.Step.{executed, outcome, sense_format};

use crate::armed::first_of;
use crate::config::Config;
use crate::data_in::DataIn;
use crate::data_out::{needed_data_out, short_reason};
use crate::extent::{byte_length, one_block, past_capacity};
use crate::operation::Operation;
use crate::refusal::{Reason, Refusal};
use crate::reply::Reply;
use crate::target::Target;
use sg_pages::{CAPACITY_10_LENGTH, CAPACITY_16_LENGTH};
use sg_store::{BLOCK_LENGTH, Space, Store};
use sg_wire::{Extent, Initiator, ReadCapacity16, WriteAtomic16};
use std::marker::Model;

// Where TRANSFER LENGTH begins in CDBs of ten, twelve and sixteen bytes.
pub(crate) const LENGTH_AT_10: u16 = 7;

pub(crate) const LENGTH_AT_12: u16 = 6;

pub(crate) const LENGTH_AT_16: u16 = 10;

// Where ATOMIC BOUNDARY and TRANSFER LENGTH begin in the CDB of WRITE ATOMIC.
const BOUNDARY_BYTE: u16 = 10;

const ATOMIC_LENGTH_BYTE: u16 = 12;

/// Refuses more blocks than the disk moves at once; TRANSFER LENGTH begins at the byte.
pub(crate) fn check_transfer_length(
    config: &Config,
    extent: Extent,
    byte: u16,
) -> Result<(), Refusal>
    ensures refused { IfErr result (λ refusal.
        unsupported_value (too_long config.now extent.count byte) ≡ Some refusal) }
    ensures passed { IfOk result (λ _. too_long config.now extent.count byte ≡ None) }
    ensures at_most { IfOk result (λ _. extent.count ≤ maximum_transfer_length) }
{
    if extent.count > config.limits().transfer_length {
        return Err(Refusal::CheckCondition(Reason::InvalidFieldInCdb { byte }));
    }
    Ok(())
}

// ---- READ

/// Blocks that a READ returns: no more than the disk moves at once.
#[derive(Drop)]
pub struct BlocksIn {
    pub(crate) extent: Extent,
}

impl Model for BlocksIn {
    ghost use Rattle.std.specs.Prelude.{◌≤◌};
    ghost use Rattle.sg_wire.specs.Profile.{maximum_transfer_length};
    ghost use Rattle.sg_wire.specs.declared.extent.Extent.{Extent};

    ghost Value = { Extent };

    ghost view = { λ b. b.extent };

    ghost invariant = { λ b. b.extent.count ≤ maximum_transfer_length };
}

/// READ(6), whose layout names at most 256 blocks.
pub(crate) fn check_read_6(extent: Extent) -> Operation<'static>
    requires { extent.count ≤ maximum_transfer_length }
    ensures { result ≡ Operation.Read extent }
{
    Operation::Read(BlocksIn { extent })
}

/// READ (10), (12) and (16); TRANSFER LENGTH begins at the byte.
pub(crate) fn check_read(
    config: &Config,
    extent: Extent,
    byte: u16,
) -> Result<Operation<'static>, Refusal>
    ensures { result ≡ requested (read extent (too_long config.now extent.count byte)) [] }
{
    check_transfer_length(config, extent, byte)?;
    Ok(Operation::Read(BlocksIn { extent }))
}

impl BlocksIn {
    /// Its first blocks, at most this many.
    pub(crate) fn first(self, blocks: u32) -> BlocksIn
        ensures { result ≡ first_of blocks self }
    {
        BlocksIn {
            extent: first_of(blocks, self.extent),
        }
    }
}

impl<S: Store> Target<S> {
    /// Returns the bytes of blocks.
    pub(crate) fn read(&mut self, blocks: &BlocksIn, buf: &mut [u8]) -> Reply
        requires on_disk { blocks.now.lba + blocks.now.count ≤ self.old.state.disk.capacity }
        requires room { bytes_of blocks.now ≤ length buf.old }
        ensures { TakesStep (cost_bounds S.price S.least)
            (executed (reading self.old.state blocks.now))
            (range self.old.state.disk.contents blocks.now ∷ [])
            self.old self.new result buf.old buf.new }
    {
        let extent = blocks.extent;
        let len = byte_length(extent) as usize;
        self.store.restart_counts();
        self.store.read(extent.lba, extent.count, &mut buf[..len]);
        Reply::good(len, self.store.counts())
    }
}

// ---- WRITE

/// Blocks that a WRITE replaces, no more than the disk moves at once, and their bytes in data-out.
#[derive(Drop)]
pub struct BlocksOut<'a> {
    pub(crate) extent: Extent,
    pub(crate) bytes: &'a [u8],
}

impl<'a> Model for BlocksOut<'a> {
    ghost use Rattle.std.specs.Prelude.{◌≡◌, ◌≤◌, length};
    ghost use Rattle.sg_wire.specs.Profile.{maximum_transfer_length};
    ghost use Rattle.sg_target.specs.BlockCommands.{BlocksOutFields, bytes_of};

    ghost Value = { BlocksOutFields };

    ghost view = { λ b. record { extent = b.extent; bytes = b.bytes.now } };

    ghost invariant = { λ b. (b.extent.count ≤ maximum_transfer_length)
        × (length b.bytes.now ≡ bytes_of b.extent) };
}

impl<'a> BlocksOut<'a> {
    /// Its first blocks, at most this many.
    pub(crate) fn first(self, blocks: u32) -> BlocksOut<'a>
        ensures { result ≡ blocks_out (first_of blocks self.entry.extent) self.entry.bytes }
    {
        let extent = first_of(blocks, self.extent);
        BlocksOut {
            extent,
            bytes: &self.bytes[..byte_length(extent) as usize],
        }
    }
}

impl BlocksOut<'_> {
    /// The bytes of the block at an index.
    pub(crate) fn block(&self, index: u32) -> &[u8]
        requires { index < self.now.extent.count }
        ensures bytes { result.now ≡ block_at self.now.bytes index }
        ensures byte_count { length result.now ≡ BLOCK_LENGTH }
    {
        let at = BLOCK_LENGTH * index as usize;
        &self.bytes[at..at + BLOCK_LENGTH]
    }
}

impl<'a> BlocksOut<'a> {
    /// Takes the bytes of blocks from data-out. If data-out is too short, a disk that takes too little
    /// data-out has only the blocks that are in it in full.
    pub(crate) fn take(
        config: &Config,
        extent: Extent,
        data_out: &'a [u8],
    ) -> Result<BlocksOut<'a>, Refusal>
        requires { extent.count ≤ maximum_transfer_length }
        ensures refused { IfErr result (λ refusal.
            short_data_out (Some (blocks_need config.now extent)) data_out.now ≡ Some refusal) }
        ensures passed { IfOk result (λ _.
            short_data_out (Some (blocks_need config.now extent)) data_out.now ≡ None) }
        ensures blocks { IfOk result (λ blocks.
            blocks ≡ blocks_out (moved config.now extent data_out.now) data_out.now) }
    {
        let len = byte_length(extent) as usize;
        if data_out.len() < len {
            return BlocksOut::take_short(config, extent, data_out);
        }
        Ok(BlocksOut {
            extent,
            bytes: &data_out[..len],
        })
    }

    /// Takes the blocks that are in data-out in full, if the disk takes too little data-out and has all
    /// the blocks that the command names.
    // Not inlined: only a command with too little data-out asks.
    #[inline(never)]
    fn take_short(
        config: &Config,
        extent: Extent,
        data_out: &'a [u8],
    ) -> Result<BlocksOut<'a>, Refusal>
        requires at_most { extent.count ≤ maximum_transfer_length }
        requires short { length data_out.now < bytes_of extent }
        ensures refused { IfErr result (λ refusal.
            (blocks_need config.now extent).if_short ≡ Some refusal) }
        ensures passed { IfOk result (λ _. (blocks_need config.now extent).if_short ≡ None) }
        ensures blocks { IfOk result (λ blocks.
            blocks ≡ blocks_out (moved config.now extent data_out.now) data_out.now) }
    {
        if !config.identity().takes_short_data_out() {
            return Err(Refusal::CheckCondition(short_reason(config)));
        }
        if let Some(refusal) = past_capacity(extent, config.blocks()) {
            return Err(refusal);
        }
        let extent = first_of((data_out.len() / BLOCK_LENGTH) as u32, extent);
        Ok(BlocksOut {
            extent,
            bytes: &data_out[..byte_length(extent) as usize],
        })
    }

    /// Takes the bytes of all blocks from data-out.
    fn take_all(
        config: &Config,
        extent: Extent,
        data_out: &'a [u8],
    ) -> Result<BlocksOut<'a>, Refusal>
        requires { extent.count ≤ maximum_transfer_length }
        ensures refused { IfErr result (λ refusal.
            short_data_out (Some (need config.now (bytes_of extent))) data_out.now ≡ Some refusal) }
        ensures passed { IfOk result (λ _.
            short_data_out (Some (need config.now (bytes_of extent))) data_out.now ≡ None) }
        ensures blocks { IfOk result (λ blocks. blocks ≡ blocks_out extent data_out.now) }
    {
        let bytes = needed_data_out(config, data_out, byte_length(extent) as usize)?;
        Ok(BlocksOut { extent, bytes })
    }
}

/// WRITE(6), whose layout names at most 256 blocks.
pub(crate) fn check_write_6<'a>(
    config: &Config,
    extent: Extent,
    data_out: &'a [u8],
) -> Result<Operation<'a>, Refusal>
    requires { extent.count ≤ maximum_transfer_length }
    ensures { result ≡ requested (write config.now extent None data_out.now) data_out.now }
{
    Ok(Operation::Write(BlocksOut::take(config, extent, data_out)?))
}

/// WRITE (10), (12) and (16); TRANSFER LENGTH begins at the byte.
pub(crate) fn check_write<'a>(
    config: &Config,
    extent: Extent,
    byte: u16,
    data_out: &'a [u8],
) -> Result<Operation<'a>, Refusal>
    ensures { result
        ≡ requested (write config.now extent (too_long config.now extent.count byte) data_out.now)
        data_out.now }
{
    check_transfer_length(config, extent, byte)?;
    Ok(Operation::Write(BlocksOut::take(config, extent, data_out)?))
}

/// WRITE ATOMIC: a WRITE of all blocks is atomic as it is.
pub(crate) fn check_write_atomic_16<'a>(
    config: &Config,
    fields: WriteAtomic16,
    data_out: &'a [u8],
) -> Result<Operation<'a>, Refusal>
    ensures { result ≡ requested (write_atomic config.now fields data_out.now) data_out.now }
{
    let extent = Extent {
        lba: fields.lba,
        count: u32::from(fields.count),
    };
    if fields.boundary != 0 {
        return Err(Refusal::CheckCondition(Reason::InvalidFieldInCdb {
            byte: BOUNDARY_BYTE,
        }));
    }
    if extent.count > config.limits().atomic_transfer_length {
        return Err(Refusal::CheckCondition(Reason::InvalidFieldInCdb {
            byte: ATOMIC_LENGTH_BYTE,
        }));
    }
    Ok(Operation::Write(BlocksOut::take_all(config, extent, data_out)?))
}

// ---- SYNCHRONIZE CACHE and PRE-FETCH

/// SYNCHRONIZE CACHE (10) and (16).
#[inline(always)]
pub(crate) fn synchronize(config: &Config, extent: Extent) -> Operation<'static>
    ensures { result ≡ Operation.Synchronize (reached config.now extent.lba extent.count) }
{
    Operation::Synchronize(reached(config, extent))
}

/// PRE-FETCH (10) and (16).
#[inline(always)]
pub(crate) fn pre_fetch(config: &Config, extent: Extent) -> Operation<'static>
    ensures { result ≡ Operation.PreFetch (reached config.now extent.lba extent.count) }
{
    Operation::PreFetch(reached(config, extent))
}

/// The blocks that have to be on the disk for a range that may reach to the last block.
#[inline(always)]
fn reached(config: &Config, extent: Extent) -> Extent
    ensures { result ≡ reached config.now extent.lba extent.count }
{
    if extent.count == 0 && config.rules().zero_reaches_last {
        one_block(extent.lba)
    } else {
        extent
    }
}

impl<S: Store> Target<S> {
    /// Replaces the bytes of blocks, unless there is no space for them.
    #[tactic(auto, unfolding(crate::specs::Effect::no_space))]
    pub(crate) fn write(
        &mut self,
        initiator: Initiator,
        blocks: &BlocksOut<'_>,
        buf: &[u8],
    ) -> Reply
        requires on_disk { blocks.now.extent.lba + blocks.now.extent.count
            ≤ self.old.state.disk.capacity }
        ensures { TakesStep (cost_bounds S.price S.least)
            (outcome self.old.state initiator (Ok (writing self.old.state blocks.now)))
            (range self.old.state.disk.contents blocks.now.extent ∷ [])
            self.old self.new result buf.now buf.now }
    {
        let extent = blocks.extent;
        self.store.restart_counts();
        let written = self.store.write(extent.lba, extent.count, blocks.bytes);
        self.reply_to_write(initiator, written)
    }

    /// The reply to a command that writes blocks, or for which there is no space.
    pub(crate) fn reply_to_write(
        &mut self,
        initiator: Initiator,
        written: Result<(), Space>,
    ) -> Reply
        ensures done { OnOk written (result ≡ executed_reply 0 self.old.meter.counts) }
        ensures refused { OnErr written (result ≡ refused_reply (sense_format self.old.state)
            (Refusal.CheckCondition Reason.SpaceAllocationFailed) self.old.meter.counts) }
        ensures state { self.new ≡ self.old }
    {
        let counts = self.store.counts();
        match written {
            Ok(()) => Reply::good(0, counts),
            Err(Space) => self.refuse(
                initiator,
                Refusal::CheckCondition(Reason::SpaceAllocationFailed),
                counts,
            ),
        }
    }
}

// ---- READ CAPACITY

#[inline(always)]
pub(crate) fn check_read_capacity_16(fields: ReadCapacity16) -> Operation<'static>
    ensures { result ≡ Operation.ReturnCapacity16 fields.allocation_length }
{
    Operation::ReturnCapacity16(fields.allocation_length)
}

impl<S: Store> Target<S> {
    /// Returns READ CAPACITY(10) parameter data.
    #[tactic(auto, using(crate::proofs::LengthLemmas::data_lengths))]
    pub(crate) fn return_capacity_10(&self, buf: &mut [u8]) -> Reply
        requires { CAPACITY_10_LENGTH ≤ length buf.old }
        ensures { ReturnsData (capacity_10 self.now.state.disk.capacity) result buf.old buf.new }
    {
        self.return_data(DataIn::Capacity10, CAPACITY_10_LENGTH, buf)
    }

    /// Returns READ CAPACITY(16) parameter data.
    pub(crate) fn return_capacity_16(&self, allocation_length: u32, buf: &mut [u8]) -> Reply
        requires { min CAPACITY_16_LENGTH allocation_length ≤ length buf.old }
        ensures { let state = self.now.state in
            let full = capacity_16 state.disk.capacity state.identity.physical_block in
            ReturnsData (first_bytes allocation_length full) result buf.old buf.new }
    {
        self.return_data(DataIn::Capacity16, allocation_length as usize, buf)
    }
}
