// VERIFY, WRITE AND VERIFY, and COMPARE AND WRITE (SBC-3, 5.29 to 5.31, 5.37 to 5.39, and 5.2).
ghost use Rattle.std.specs.Prelude.{◌≡◌, ◌+◌, ◌≤◌, ◌∷◌, [], Ok};
ghost use Rattle.sg_target.specs.BlockCommands.{comparing, comparing_each, exchanging};
ghost use Rattle.sg_target.specs.Checks.{requested};
ghost use Rattle.sg_target.specs.Charge.{TakesStep, cost_bounds};
ghost use Rattle.sg_target.specs.Demands.{compare_and_write, extent, verify, write_and_verify};
ghost use Rattle.sg_target.specs.MadeReplies.{refused_reply};
ghost use Rattle.sg_target.specs.Ranges.{exchange_ranges, range};
ghost use Rattle.sg_target.specs.Step.{outcome, sense_format};

use crate::block::{
    BlocksOut, LENGTH_AT_10, LENGTH_AT_12, LENGTH_AT_16, check_transfer_length, check_write,
};
use crate::config::Config;
use crate::data_out::needed_data_out;
use crate::extent::byte_length;
use crate::operation::Operation;
use crate::provisioning::BlockOut;
use crate::refusal::{Reason, Refusal};
use crate::reply::Reply;
use crate::target::Target;
use sg_store::{BLOCK_LENGTH, Miscompare, Store};
use sg_wire::{ByteCheck, CompareAndWrite, Extent, Initiator, Verify10, Verify12, Verify16};
use std::marker::Model;

/// Where BYTCHK is in the CDBs of VERIFY, and of WRITE AND VERIFY.
const BYTCHK_BYTE: u16 = 1;

/// Where NUMBER OF LOGICAL BLOCKS is in the CDB of COMPARE AND WRITE.
const NUMBER_OF_BLOCKS_BYTE: u16 = 13;

// ---- VERIFY, and WRITE AND VERIFY

/// What the CDBs of VERIFY, and of WRITE AND VERIFY, name: the three lengths of CDB differ only in where
/// their fields are.
#[derive(Clone, Copy)]
pub(crate) struct Verification {
    byte_check: ByteCheck,
    extent: Extent,
    /// Where VERIFICATION LENGTH or TRANSFER LENGTH begins.
    length_byte: u16,
}

impl From<Verify10> for Verification {
    ghost from_gives = { λ ten fields. fields ≡ record {
      byte_check = ten.byte_check;
      extent = extent ten.extent.lba ten.extent.count;
      length_byte = 7;
    } };

    fn from(fields: Verify10) -> Verification {
        Verification {
            byte_check: fields.byte_check,
            extent: fields.extent.into(),
            length_byte: LENGTH_AT_10,
        }
    }
}

impl From<Verify12> for Verification {
    ghost from_gives = { λ twelve fields. fields ≡ record {
      byte_check = twelve.byte_check;
      extent = extent twelve.extent.lba twelve.extent.count;
      length_byte = 6;
    } };

    fn from(fields: Verify12) -> Verification {
        Verification {
            byte_check: fields.byte_check,
            extent: fields.extent.into(),
            length_byte: LENGTH_AT_12,
        }
    }
}

impl From<Verify16> for Verification {
    ghost from_gives = { λ sixteen fields. fields ≡ record {
      byte_check = sixteen.byte_check;
      extent = extent sixteen.extent.lba sixteen.extent.count;
      length_byte = 10;
    } };

    fn from(fields: Verify16) -> Verification {
        Verification {
            byte_check: fields.byte_check,
            extent: fields.extent.into(),
            length_byte: LENGTH_AT_16,
        }
    }
}

/// VERIFY (10), (12) and (16).
pub(crate) fn check_verify<'a>(
    config: &Config,
    fields: Verification,
    data_out: &'a [u8],
) -> Result<Operation<'a>, Refusal>
    ensures { result
        ≡ requested (verify config.now fields.byte_check fields.extent fields.length_byte data_out.now)
        data_out.now }
{
    let Verification {
        byte_check,
        extent,
        length_byte,
    } = fields;
    if let ByteCheck::Reserved = byte_check {
        return Err(Refusal::CheckCondition(Reason::InvalidFieldInCdb { byte: BYTCHK_BYTE }));
    }
    check_transfer_length(config, extent, length_byte)?;
    match byte_check {
        ByteCheck::DataOut => Ok(Operation::Compare(BlocksOut::take(config, extent, data_out)?)),
        ByteCheck::OneBlock if extent.count > 0 => Ok(Operation::CompareEach {
            extent,
            block: BlockOut {
                bytes: needed_data_out(config, data_out, BLOCK_LENGTH)?,
            },
        }),
        _ => Ok(Operation::Verify(extent)),
    }
}

/// WRITE AND VERIFY (10), (12) and (16), whose data-out is at most compared with the blocks that it has
/// just replaced.
pub(crate) fn check_verified_write<'a>(
    config: &Config,
    fields: Verification,
    data_out: &'a [u8],
) -> Result<Operation<'a>, Refusal>
    ensures { result ≡ requested
        (write_and_verify config.now fields.byte_check fields.extent fields.length_byte data_out.now)
        data_out.now }
{
    match fields.byte_check {
        ByteCheck::Nothing | ByteCheck::DataOut => {
            check_write(config, fields.extent, fields.length_byte, data_out)
        }
        ByteCheck::Reserved | ByteCheck::OneBlock => {
            Err(Refusal::CheckCondition(Reason::InvalidFieldInCdb { byte: BYTCHK_BYTE }))
        }
    }
}

impl<S: Store> Target<S> {
    /// Compares blocks with the bytes of others.
    pub(crate) fn compare(
        &mut self,
        initiator: Initiator,
        blocks: &BlocksOut<'_>,
        buf: &[u8],
    ) -> Reply
        requires on_disk { blocks.now.extent.lba + blocks.now.extent.count
            ≤ self.old.state.disk.capacity }
        ensures { TakesStep (cost_bounds S.price S.least)
            (outcome self.old.state initiator (Ok (comparing self.old.state blocks.now)))
            (range self.old.state.disk.contents blocks.now.extent ∷ [])
            self.old self.new result buf.now buf.now }
    {
        let extent = blocks.extent;
        self.store.restart_counts();
        match self.store.compare(extent.lba, extent.count, blocks.bytes) {
            Ok(()) => Reply::good(0, self.store.counts()),
            Err(Miscompare { offset }) => self.refuse_miscompare(initiator, offset),
        }
    }

    /// Compares each of some blocks with one block.
    pub(crate) fn compare_each(
        &mut self,
        initiator: Initiator,
        extent: Extent,
        block: &BlockOut<'_>,
        buf: &[u8],
    ) -> Reply
        requires on_disk { extent.lba + extent.count ≤ self.old.state.disk.capacity }
        ensures { TakesStep (cost_bounds S.price S.least)
            (outcome self.old.state initiator (Ok (comparing_each self.old.state extent block.now)))
            (range self.old.state.disk.contents extent ∷ [])
            self.old self.new result buf.now buf.now }
    {
        let mut bytes = [0; BLOCK_LENGTH];
        bytes.copy_from_slice(block.bytes);
        self.store.restart_counts();
        match self.store.compare_each(extent.lba, extent.count, &bytes) {
            Ok(()) => Reply::good(0, self.store.counts()),
            Err(Miscompare { offset }) => {
                self.refuse_miscompare(initiator, offset % BLOCK_LENGTH as u64)
            }
        }
    }
}

// ---- COMPARE AND WRITE

/// Blocks that a COMPARE AND WRITE compares, and replaces if they are as expected.
#[derive(Drop)]
pub struct Exchange<'a> {
    pub(crate) extent: Extent,
    expected: &'a [u8],
    pub(crate) replacement: &'a [u8],
}

impl<'a> Model for Exchange<'a> {
    ghost use Rattle.std.specs.Prelude.{◌≡◌, ◌≤◌, length};
    ghost use Rattle.sg_wire.specs.Profile.{maximum_transfer_length};
    ghost use Rattle.sg_target.specs.BlockCommands.{ExchangeFields, bytes_of};

    ghost Value = { ExchangeFields };

    ghost view = { λ x. record {
      extent = x.extent;
      expected = x.expected.now;
      replacement = x.replacement.now;
    } };

    ghost invariant = { λ x. (length x.expected.now ≡ bytes_of x.extent)
        × (length x.replacement.now ≡ bytes_of x.extent)
        × (x.extent.count ≤ maximum_transfer_length) };
}

pub(crate) fn check_compare_and_write(
    fields: CompareAndWrite,
    data_out: &[u8],
) -> Result<Operation<'_>, Refusal>
    ensures { result ≡ requested (compare_and_write fields data_out.now) data_out.now }
{
    let extent = Extent {
        lba: fields.lba,
        count: u32::from(fields.count),
    };
    let half = byte_length(extent) as usize;
    if data_out.len() != 2 * half {
        return Err(Refusal::CheckCondition(Reason::InvalidFieldInCdb {
            byte: NUMBER_OF_BLOCKS_BYTE,
        }));
    }
    let (expected, replacement) = data_out.split_at(half);
    Ok(Operation::CompareAndWrite(Exchange {
        extent,
        expected,
        replacement,
    }))
}

impl<S: Store> Target<S> {
    /// Replaces blocks if they are as expected, unless there is no space for them.
    #[tactic(auto, unfolding(crate::specs::Effect::no_space))]
    pub(crate) fn compare_and_write(
        &mut self,
        initiator: Initiator,
        exchange: &Exchange<'_>,
        buf: &[u8],
    ) -> Reply
        requires on_disk { exchange.now.extent.lba + exchange.now.extent.count
            ≤ self.old.state.disk.capacity }
        ensures { TakesStep (cost_bounds S.price S.least)
            (outcome self.old.state initiator (Ok (exchanging self.old.state exchange.now)))
            (exchange_ranges self.old.state exchange.now)
            self.old self.new result buf.now buf.now }
    {
        let Extent { lba, count } = exchange.extent;
        self.store.restart_counts();
        if let Err(Miscompare { offset }) = self.store.compare(lba, count, exchange.expected) {
            return self.refuse_miscompare(initiator, offset);
        }
        let written = self.store.write(lba, count, exchange.replacement);
        self.reply_to_write(initiator, written)
    }

    /// The reply to a command whose blocks differ from what they are compared with.
    fn refuse_miscompare(&mut self, initiator: Initiator, offset: u64) -> Reply
        ensures reply { result ≡ refused_reply (sense_format self.old.state)
            (Refusal.CheckCondition (Reason.Miscompare offset)) self.old.meter.counts }
        ensures state { self.new ≡ self.old }
    {
        let counts = self.store.counts();
        self.refuse(
            initiator,
            Refusal::CheckCondition(Reason::Miscompare { offset }),
            counts,
        )
    }
}
