// EXTENDED COPY within the unit (SPC-4, 6.5): the blocks of the pool that the destination needs are counted
// first. Then each block is read and written, in an order that reads it before it is overwritten.
ghost use Rattle.std.specs.Prelude.{◌≡◌, ◌+◌, ◌≤◌, ◌++◌, ◌∷◌, ◌↔◌, [], List, length};
ghost use Rattle.std.specs.Prelude.{IfErr, IfOk, IfSome, IsErr, OnOk, OnErr, Ok};
ghost use Rattle.std.specs.FinMap.{len};
ghost use Rattle.std.specs.List.{flat_map, range_with_len};
ghost use Rattle.sg_copy.specs.CopyList.{copy_list};
ghost use Rattle.sg_store.specs.Disk.{IsOverfull, block, need};
ghost use Rattle.sg_store.specs.Meter.{Meter, no_counts};
ghost use Rattle.sg_wire.specs.FirstBytes.{first_bytes};
ghost use Rattle.sg_wire.specs.Profile.{maximum_transfer_length};
ghost use Rattle.sg_target.specs.Anchoring.{AreOfOneList, CostsOnOk, HasAllowedSize};
ghost use Rattle.sg_target.specs.BlockByBlock.{AreEarly, CountsBlock, block_filled, disk_copied};
ghost use Rattle.sg_target.specs.BlockCommands.{copying, destination_of, source_of};
ghost use Rattle.sg_target.specs.Charge.{IsCounted, TakesStep, cost_bounds};
ghost use Rattle.sg_target.specs.Checks.{requested};
ghost use Rattle.sg_target.specs.Demands.{extended_copy, extent};
ghost use Rattle.sg_target.specs.Ranges.{Range, copy_ranges, next_copied, range, step_ranges};
ghost use Rattle.sg_target.specs.State.{IsWithinLimits};
ghost use Rattle.sg_target.specs.Step.{outcome};

use crate::config::Config;
use crate::data_out::needed_data_out;
use crate::operation::Operation;
use crate::refusal::{Reason, Refusal};
use crate::reply::Reply;
use crate::target::Target;
use sg_copy::{CopyFault, CopyList, Segment};
use sg_pages::unit_designation;
use sg_store::laws::remapping_takes_what_is_needed;
use sg_store::{BLOCK_LENGTH, Space, Store};
use sg_wire::{ExtendedCopy, Extent, Initiator, MAXIMUM_TRANSFER_LENGTH};
use std::marker::Model;

/// Blocks that an EXTENDED COPY copies: no more than the disk moves at once.
#[derive(Drop)]
pub struct CopiedBlocks {
    segment: Segment,
}

impl Model for CopiedBlocks {
    ghost use Rattle.std.specs.Prelude.{◌≤◌};
    ghost use Rattle.sg_copy.specs.declared.copy_list.Segment.{Segment};
    ghost use Rattle.sg_wire.specs.Profile.{maximum_transfer_length};

    ghost Value = { Segment };

    ghost view = { λ b. b.segment };

    ghost invariant = { λ b. b.segment.blocks ≤ maximum_transfer_length };
}

impl CopiedBlocks {
    /// The blocks that are read.
    pub fn source(&self) -> Extent
        ensures value { result ≡ source_of self.now }
        ensures at_most { result.count ≤ maximum_transfer_length }
    {
        Extent {
            lba: self.segment.source,
            count: u32::from(self.segment.blocks),
        }
    }

    /// The blocks that are written.
    pub fn destination(&self) -> Extent
        ensures value { result ≡ destination_of self.now }
        ensures at_most { result.count ≤ maximum_transfer_length }
    {
        Extent {
            lba: self.segment.destination,
            count: u32::from(self.segment.blocks),
        }
    }

    /// The index of the block that is copied after `done` others. If the destination is above the source,
    /// the last block comes first.
    fn next(&self, done: u16) -> u16
        requires { done + 1 ≤ self.now.blocks }
        ensures { result ≡ next_copied self.now done }
    {
        if self.segment.destination <= self.segment.source {
            done
        } else {
            self.segment.blocks - 1 - done
        }
    }
}

impl From<CopyFault> for Refusal {
    ghost use Rattle.sg_target.specs.CopyRequest.{copy_refusal};

    ghost from_gives = { λ fault refusal. refusal ≡ copy_refusal fault };

    fn from(fault: CopyFault) -> Refusal {
        Refusal::CheckCondition(Reason::Copy(fault))
    }
}

pub(crate) fn check_extended_copy<'a>(
    config: &Config,
    fields: ExtendedCopy,
    data_out: &'a [u8],
) -> Result<Operation<'a>, Refusal>
    ensures { result ≡ requested (extended_copy config.now fields data_out.now) data_out.now }
{
    let list = needed_data_out(config, data_out, fields.list_length as usize)?;
    let asked = CopyList::read(
        &unit_designation(config.identity()),
        MAXIMUM_TRANSFER_LENGTH as u16,
        config.blocks(),
        list,
    )?;
    Ok(match asked.segment {
        Some(segment) => Operation::Copy(CopiedBlocks { segment }),
        None => Operation::Nothing,
    })
}

/// Copies a block, if the pool has a block for it.
fn copy_block<S: Store>(store: &mut S, source: u64, destination: u64)
    requires source { source + 1 ≤ (S.disk store.old).capacity }
    requires destination { destination + 1 ≤ (S.disk store.old).capacity }
    requires size { HasAllowedSize (S.disk store.old) }
    requires early { AreEarly (S.meter store.old).counts }
    requires room { len (S.disk store.old).contents
        + need (S.disk store.old).contents destination 1 ≤ (S.disk store.old).pool }

    // Only the block of the destination changes.
    ensures disk { S.disk store.new ≡ block_filled (S.disk store.old) destination
        (block (S.disk store.old).contents source) }

    // Whatever was counted before.
    ensures counted { (before : Meter) (over : List Range)
        → IsCounted (cost_bounds S.price S.least) (S.disk store.old).pool over before
        (S.meter store.old)
        → IsCounted (cost_bounds S.price S.least) (S.disk store.old).pool
        (over ++ range (S.disk store.old).contents (extent source 1)
        ∷ range (S.disk store.old).contents (extent destination 1) ∷ []) before (S.meter store.new) }
    ensures counts { CountsBlock (S.meter store.old) (S.meter store.new) }
{
    remapping_takes_what_is_needed();
    let mut block = [0; BLOCK_LENGTH];
    store.read(source, 1, &mut block);
    let written = store.fill(destination, 1, &block);
    prove!(written.is_ok());
    let _ = written;
}

/// Copies blocks in turn, for which the pool has room.
fn copy_in_turn<S: Store>(store: &mut S, blocks: &CopiedBlocks)
    requires source { blocks.now.source + blocks.now.blocks ≤ (S.disk store.old).capacity }
    requires destination { blocks.now.destination + blocks.now.blocks
        ≤ (S.disk store.old).capacity }
    requires size { HasAllowedSize (S.disk store.old) }
    requires room { len (S.disk store.old).contents
        + need (S.disk store.old).contents blocks.now.destination blocks.now.blocks
        ≤ (S.disk store.old).pool }
    requires counts { AreOfOneList (S.meter store.old).counts }

    // The destination has what the source had.
    ensures disk { S.disk store.new ≡ disk_copied (S.disk store.old) blocks.now }

    // Whatever was counted before.
    ensures counted { (before : Meter) (over : List Range)
        → IsCounted (cost_bounds S.price S.least) (S.disk store.old).pool over before
        (S.meter store.old)
        → IsCounted (cost_bounds S.price S.least) (S.disk store.old).pool
        (over ++ flat_map (step_ranges (S.disk store.old).contents blocks.now)
        (range_with_len 0 blocks.now.blocks)) before (S.meter store.new) }
{
    remapping_takes_what_is_needed();
    let segment = blocks.segment;
    for done in 0..segment.blocks {
        let index = u64::from(blocks.next(done));
        copy_block(store, segment.source + index, segment.destination + index);
    }
}

/// Copies blocks, if a pool of `pool` blocks has enough for them, of a store that has counted nothing.
///
/// # Errors
/// The pool has too few blocks for the addresses. Nothing is copied then.
fn copy_blocks<S: Store>(store: &mut S, pool: u32, blocks: &CopiedBlocks) -> Result<(), Space>
    requires size { (pool ≡ (S.disk store.old).pool) × HasAllowedSize (S.disk store.old) }
    requires source { blocks.now.source + blocks.now.blocks ≤ (S.disk store.old).capacity }
    requires destination { blocks.now.destination + blocks.now.blocks
        ≤ (S.disk store.old).capacity }
    requires nothing_counted { (S.meter store.old).counts ≡ no_counts }

    ensures space { IsErr result ↔ IsOverfull (disk_copied (S.disk store.old) blocks.now) }
    ensures ok { OnOk result (S.disk store.new ≡ disk_copied (S.disk store.old) blocks.now) }
    ensures err { OnErr result (S.disk store.new ≡ S.disk store.old) }

    // What it costs.
    ensures costs { CostsOnOk result (cost_bounds S.price S.least) (S.disk store.old).pool
        (copy_ranges (S.disk store.old) blocks.now) (S.meter store.old) (S.meter store.new) }
{
    remapping_takes_what_is_needed();
    let needed = store.need(blocks.segment.destination, u64::from(blocks.segment.blocks));
    if needed > u64::from(pool - store.used()) {
        return Err(Space);
    }
    copy_in_turn(store, blocks);
    Ok(())
}

impl<S: Store> Target<S> {
    /// Copies blocks, unless there is no space for them.
    // Not inlined: the stack frame of every command would have room for a block.
    #[tactic(auto, using(crate::proofs::Space::room), unfolding(crate::specs::Effect::no_space))]
    #[inline(never)]
    pub(crate) fn copy(&mut self, initiator: Initiator, blocks: &CopiedBlocks, buf: &[u8]) -> Reply
        requires source { blocks.now.source + blocks.now.blocks ≤ self.old.state.disk.capacity }
        requires destination { blocks.now.destination + blocks.now.blocks
            ≤ self.old.state.disk.capacity }
        requires limits { IsWithinLimits self.old.state }
        ensures { TakesStep (cost_bounds S.price S.least)
            (outcome self.old.state initiator (Ok (copying self.old.state blocks.now)))
            (copy_ranges self.old.state.disk blocks.now)
            self.old self.new result buf.now buf.now }
    {
        self.store.restart_counts();
        let copied = copy_blocks(&mut self.store, self.config.pool(), blocks);
        self.reply_to_write(initiator, copied)
    }
}
