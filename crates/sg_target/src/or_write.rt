// ORWRITE (SBC-3, 5.5): the blocks of the pool that its blocks need are counted first. Then each block is
// read, its bits are set, and it is written.
ghost use Rattle.std.specs.Prelude.{◌≡◌, ◌+◌, ◌≤◌, ◌++◌, ◌∷◌, ◌↔◌, [], List, length};
ghost use Rattle.std.specs.Prelude.{IsErr, OnOk, OnErr, Ok};
ghost use Rattle.std.specs.FinMap.{len};
ghost use Rattle.std.specs.List.{flat_map, range_with_len};
ghost use Rattle.sg_store.specs.Disk.{IsOverfull, block, need};
ghost use Rattle.sg_store.specs.Meter.{Meter, no_counts};
ghost use Rattle.sg_target.specs.Anchoring.{AreOfOneList, CostsOnOk, HasAllowedSize};
ghost use Rattle.sg_target.specs.BlockByBlock.{AreEarly, CountsBlock, block_filled, disk_ored};
ghost use Rattle.sg_target.specs.BlockCommands.{or_bytes, or_writing};
ghost use Rattle.sg_target.specs.Charge.{IsCounted, TakesStep, cost_bounds};
ghost use Rattle.sg_target.specs.Checks.{requested};
ghost use Rattle.sg_target.specs.Demands.{extent, or_write, too_long};
ghost use Rattle.sg_target.specs.Ranges.{Range, block_ranges, or_write_ranges, range};
ghost use Rattle.sg_target.specs.State.{IsWithinLimits};
ghost use Rattle.sg_target.specs.Step.{outcome};

use crate::block::{BlocksOut, LENGTH_AT_16, check_transfer_length};
use crate::config::Config;
use crate::operation::Operation;
use crate::refusal::Refusal;
use crate::reply::Reply;
use crate::target::Target;
use sg_store::laws::remapping_takes_what_is_needed;
use sg_store::{BLOCK_LENGTH, Space, Store};
use sg_wire::{Extent, Initiator};

pub(crate) fn check_or_write_16<'a>(
    config: &Config,
    extent: Extent,
    data_out: &'a [u8],
) -> Result<Operation<'a>, Refusal>
    ensures { result
        ≡ requested (or_write config.now extent (too_long config.now extent.count 10) data_out.now)
        data_out.now }
{
    check_transfer_length(config, extent, LENGTH_AT_16)?;
    Ok(Operation::OrWrite(BlocksOut::take(config, extent, data_out)?))
}

/// Sets the bits of a block that are 1 in some bytes.
fn set_bits(block: &mut [u8; BLOCK_LENGTH], bytes: &[u8])
    requires { length bytes.now ≡ BLOCK_LENGTH }
    ensures { block.new ≡ or_bytes block.old bytes.now }
{
    for i in 0..BLOCK_LENGTH {
        block[i] |= bytes[i];
    }
}

/// Sets the bits of a block that are 1 in some bytes, if the pool has a block for it.
fn or_block<S: Store>(store: &mut S, lba: u64, bytes: &[u8])
    requires range { lba + 1 ≤ (S.disk store.old).capacity }
    requires byte_count { length bytes.now ≡ BLOCK_LENGTH }
    requires size { HasAllowedSize (S.disk store.old) }
    requires early { AreEarly (S.meter store.old).counts }
    requires room { len (S.disk store.old).contents + need (S.disk store.old).contents lba 1
        ≤ (S.disk store.old).pool }

    // Only the block changes.
    ensures disk { S.disk store.new ≡ block_filled (S.disk store.old) lba
        (or_bytes (block (S.disk store.old).contents lba) bytes.now) }

    // Whatever was counted before.
    ensures counted { (before : Meter) (over : List Range)
        → IsCounted (cost_bounds S.price S.least) (S.disk store.old).pool over before
        (S.meter store.old)
        → let range = range (S.disk store.old).contents (extent lba 1) in
        IsCounted (cost_bounds S.price S.least) (S.disk store.old).pool
        (over ++ range ∷ range ∷ []) before (S.meter store.new) }
    ensures counts { CountsBlock (S.meter store.old) (S.meter store.new) }
{
    remapping_takes_what_is_needed();
    let mut block = [0; BLOCK_LENGTH];
    store.read(lba, 1, &mut block);
    set_bits(&mut block, bytes);
    let written = store.fill(lba, 1, &block);
    prove!(written.is_ok());
    let _ = written;
}

/// Sets bits of blocks in turn, for which the pool has room.
fn or_in_turn<S: Store>(store: &mut S, blocks: &BlocksOut<'_>)
    requires on_disk { blocks.now.extent.lba + blocks.now.extent.count
        ≤ (S.disk store.old).capacity }
    requires size { HasAllowedSize (S.disk store.old) }
    requires room { len (S.disk store.old).contents
        + need (S.disk store.old).contents blocks.now.extent.lba blocks.now.extent.count
        ≤ (S.disk store.old).pool }
    requires counts { AreOfOneList (S.meter store.old).counts }

    // The bits of all blocks are set.
    ensures disk { S.disk store.new ≡ disk_ored (S.disk store.old) blocks.now }

    // Whatever was counted before.
    ensures counted { (before : Meter) (over : List Range)
        → IsCounted (cost_bounds S.price S.least) (S.disk store.old).pool over before
        (S.meter store.old)
        → IsCounted (cost_bounds S.price S.least) (S.disk store.old).pool
        (over ++ flat_map (block_ranges (S.disk store.old).contents blocks.now)
        (range_with_len 0 blocks.now.extent.count)) before (S.meter store.new) }
{
    remapping_takes_what_is_needed();
    let extent = blocks.extent;
    for i in 0..extent.count {
        or_block(store, extent.lba + u64::from(i), blocks.block(i));
    }
}

/// Sets bits of blocks, if a pool of `pool` blocks has enough for them, of a store that has counted
/// nothing.
///
/// # Errors
/// The pool has too few blocks for the addresses. Nothing is written then.
fn or_blocks<S: Store>(store: &mut S, pool: u32, blocks: &BlocksOut<'_>) -> Result<(), Space>
    requires size { (pool ≡ (S.disk store.old).pool) × HasAllowedSize (S.disk store.old) }
    requires on_disk { blocks.now.extent.lba + blocks.now.extent.count
        ≤ (S.disk store.old).capacity }
    requires nothing_counted { (S.meter store.old).counts ≡ no_counts }

    ensures space { IsErr result ↔ IsOverfull (disk_ored (S.disk store.old) blocks.now) }
    ensures ok { OnOk result (S.disk store.new ≡ disk_ored (S.disk store.old) blocks.now) }
    ensures err { OnErr result (S.disk store.new ≡ S.disk store.old) }

    // What it costs.
    ensures costs { CostsOnOk result (cost_bounds S.price S.least) (S.disk store.old).pool
        (or_write_ranges (S.disk store.old) blocks.now) (S.meter store.old) (S.meter store.new) }
{
    remapping_takes_what_is_needed();
    let needed = store.need(blocks.extent.lba, u64::from(blocks.extent.count));
    if needed > u64::from(pool - store.used()) {
        return Err(Space);
    }
    or_in_turn(store, blocks);
    Ok(())
}

impl<S: Store> Target<S> {
    /// Sets bits of blocks, unless there is no space for the blocks.
    // Not inlined: the stack frame of every command would have room for a block.
    #[tactic(auto, using(crate::proofs::Space::room), unfolding(crate::specs::Effect::no_space))]
    #[inline(never)]
    pub(crate) fn or_write(
        &mut self,
        initiator: Initiator,
        blocks: &BlocksOut<'_>,
        buf: &[u8],
    ) -> Reply
        requires on_disk { blocks.now.extent.lba + blocks.now.extent.count
            ≤ self.old.state.disk.capacity }
        requires limits { IsWithinLimits self.old.state }
        ensures { TakesStep (cost_bounds S.price S.least)
            (outcome self.old.state initiator (Ok (or_writing self.old.state blocks.now)))
            (or_write_ranges self.old.state.disk blocks.now)
            self.old self.new result buf.now buf.now }
    {
        self.store.restart_counts();
        let written = or_blocks(&mut self.store, self.config.pool(), blocks);
        self.reply_to_write(initiator, written)
    }
}
