// A fault that C arms.
ghost use Rattle.std.specs.Prelude.{◌≡◌, ◌≢◌, ◌<◌, ◌≤◌, IfErr, IfSome, Ok, Some};
ghost use Rattle.sg_run.specs.WellFormed.{AreMembers, IsWellFormedFault};
ghost use Rattle.sg_embed.specs.Fault.{asked_blocks, asked_code, asked_fault, asked_outcome};
ghost use Rattle.sg_embed.specs.Fault.{asked_sense_code, asked_times, blocks_if, code_if, flag_of};
ghost use Rattle.sg_embed.specs.Fault.{named_initiators};
ghost use Rattle.sg_wire.specs.Initiator.{initiator_count};
ghost use Rattle.sg_units.specs.Initiators.{no_initiators};

use crate::mask::{mask_of, own_initiators};
use crate::outcome::Outcome;
use sg_faults::{
    Afterwards, AtMedium, BadBlocks, Fault, OnArrival, Outcome as FaultOutcome, SenseCode,
};
use sg_units::Initiators;
use sg_wire::Extent;

/// The record that C declares as `mdl_fault`. The fields that an outcome does not need do not matter.
#[repr(C)]
#[derive(Drop)]
pub struct FaultRecord {
    /// A mask of the initiators whose commands it meets. Initiator i has bit i.
    pub initiators: u64,
    /// The first of the blocks that it lies on.
    pub lba: u64,
    /// The number of these blocks. With 0 it lies on none, and meets commands of any kind.
    pub count: u32,
    /// What it does, and where: a number of the header.
    pub outcome: u32,
    /// The number of blocks that a command still moves, if it moves only its first ones. Or the number
    /// of bytes of data-in that arrive, if only the first ones do.
    pub blocks: u32,
    /// The number of an initiator's commands that meet it and pass first.
    pub skip: u16,
    /// The number of an initiator's commands after these to which it does something. 0 for all.
    pub times: u16,
    /// 1 if it meets only commands with an operation code, 0 if it meets all.
    pub has_code: u8,
    /// That operation code.
    pub code: u8,
    /// 1 if a command that overwrites all of its blocks heals them, 0 if not.
    pub healed_by_writes: u8,
    /// The sense key that it reports, at most 15.
    pub key: u8,
    /// The additional sense code.
    pub asc: u8,
    /// The additional sense code qualifier.
    pub ascq: u8,
}

const _: () = prove!(size_of::<FaultRecord>() == 40);

impl FaultRecord {
    /// A record of an outcome that reads no other field.
    pub(crate) fn with_outcome(outcome: u32) -> FaultRecord
        ensures { result.outcome ≡ outcome }
    {
        FaultRecord {
            initiators: 0,
            lba: 0,
            count: 0,
            outcome,
            blocks: 0,
            skip: 0,
            times: 0,
            has_code: 0,
            code: 0,
            healed_by_writes: 0,
            key: 0,
            asc: 0,
            ascq: 0,
        }
    }

    /// A record of an outcome that reports a sense code.
    fn reporting(outcome: u32, code: SenseCode) -> FaultRecord
        ensures outcome { result.outcome ≡ outcome }
        ensures code { asked_sense_code result ≡ Ok code }
    {
        FaultRecord {
            key: code.key.code(),
            asc: code.asc,
            ascq: code.ascq,
            ..FaultRecord::with_outcome(outcome)
        }
    }

    /// A record of what a fault does.
    fn of_outcome(outcome: FaultOutcome) -> FaultRecord
        ensures { asked_outcome result ≡ Ok outcome }
    {
        match outcome {
            FaultOutcome::OnArrival(OnArrival::Busy) => FaultRecord::with_outcome(0),
            FaultOutcome::OnArrival(OnArrival::TaskSetFull) => FaultRecord::with_outcome(1),
            FaultOutcome::OnArrival(OnArrival::ReservationConflict) => FaultRecord::with_outcome(2),
            FaultOutcome::OnArrival(OnArrival::NoReply) => FaultRecord::with_outcome(3),
            FaultOutcome::OnArrival(OnArrival::CheckCondition(code)) => FaultRecord::reporting(
                4, code,
            ),
            FaultOutcome::OnArrival(OnArrival::DeferredError(code)) => FaultRecord::reporting(
                5, code,
            ),
            FaultOutcome::AtMedium(AtMedium::CheckCondition(code)) => FaultRecord::reporting(
                6, code,
            ),
            FaultOutcome::AtMedium(AtMedium::MovesOnly(blocks)) => FaultRecord {
                blocks,
                ..FaultRecord::with_outcome(7)
            },
            FaultOutcome::Afterwards(Afterwards::NoReply) => FaultRecord::with_outcome(8),
            FaultOutcome::Afterwards(Afterwards::CheckCondition(code)) => FaultRecord::reporting(
                9, code,
            ),
            FaultOutcome::Afterwards(Afterwards::ShortDataIn(bytes)) => FaultRecord {
                blocks: bytes,
                ..FaultRecord::with_outcome(10)
            },
        }
    }

    /// A record that describes a fault.
    pub(crate) fn of(fault: &Fault) -> FaultRecord
        requires { IsWellFormedFault fault.now }
        ensures { asked_fault initiator_count result ≡ Ok fault.now }
    {
        let (has_code, code) = code_fields(fault.code);
        let (lba, count, healed_by_writes) = block_fields(fault.blocks);
        FaultRecord {
            initiators: mask_of_named(&fault.initiators),
            lba,
            count,
            skip: fault.skip,
            times: times_field(fault.times),
            has_code,
            code,
            healed_by_writes,
            ..FaultRecord::of_outcome(fault.outcome)
        }
    }

    /// The fault that it describes, of a disk that has `count` initiators.
    ///
    /// # Errors
    /// The first of these that applies: [`Outcome::UnknownFault`] if nothing that a fault does has
    /// the number, [`Outcome::SenseKey`] if it reports a sense key above 15,
    /// [`Outcome::UnknownInitiator`] if the mask is 0, or has the bit of an
    /// initiator that the disk does not have, but not all bits, and
    /// [`Outcome::FaultFlag`] if a flag is not 0 or 1, or if no blocks are healed.
    pub(crate) fn read(&self, count: u8) -> Result<Fault, Outcome>
        requires { count ≤ initiator_count }
        ensures value { result ≡ asked_fault count self.now }
        ensures refused { IfErr result (λ outcome. outcome ≢ Outcome.Done) }
    {
        let outcome = self.read_outcome()?;
        let Some(initiators) = named_initiators(count, self.initiators) else {
            return Err(Outcome::UnknownInitiator);
        };
        let code = self.read_code()?;
        let blocks = self.read_blocks()?;
        Ok(Fault {
            initiators,
            code,
            blocks,
            skip: self.skip,
            times: read_times(self.times),
            outcome,
        })
    }

    /// What the fault does.
    fn read_outcome(&self) -> Result<FaultOutcome, Outcome>
        ensures value { result ≡ asked_outcome self.now }
        ensures refused { IfErr result (λ outcome. outcome ≢ Outcome.Done) }
    {
        match self.outcome {
            0 => Ok(FaultOutcome::OnArrival(OnArrival::Busy)),
            1 => Ok(FaultOutcome::OnArrival(OnArrival::TaskSetFull)),
            2 => Ok(FaultOutcome::OnArrival(OnArrival::ReservationConflict)),
            3 => Ok(FaultOutcome::OnArrival(OnArrival::NoReply)),
            4 => Ok(FaultOutcome::OnArrival(OnArrival::CheckCondition(self.read_sense_code()?))),
            5 => Ok(FaultOutcome::OnArrival(OnArrival::DeferredError(self.read_sense_code()?))),
            6 => Ok(FaultOutcome::AtMedium(AtMedium::CheckCondition(self.read_sense_code()?))),
            7 => Ok(FaultOutcome::AtMedium(AtMedium::MovesOnly(self.blocks))),
            8 => Ok(FaultOutcome::Afterwards(Afterwards::NoReply)),
            9 => Ok(FaultOutcome::Afterwards(Afterwards::CheckCondition(self.read_sense_code()?))),
            10 => Ok(FaultOutcome::Afterwards(Afterwards::ShortDataIn(self.blocks))),
            _ => Err(Outcome::UnknownFault),
        }
    }

    /// The sense code that it reports.
    fn read_sense_code(&self) -> Result<SenseCode, Outcome>
        ensures value { result ≡ asked_sense_code self.now }
        ensures refused { IfErr result (λ outcome. outcome ≢ Outcome.Done) }
    {
        match SenseCode::new(self.key, self.asc, self.ascq) {
            Some(code) => Ok(code),
            None => Err(Outcome::SenseKey),
        }
    }

    /// The operation code of the commands that it meets, if it names one.
    fn read_code(&self) -> Result<Option<u8>, Outcome>
        ensures value { result ≡ asked_code self.now }
        ensures refused { IfErr result (λ outcome. outcome ≢ Outcome.Done) }
    {
        if read_flag(self.has_code)? {
            Ok(Some(self.code))
        } else {
            Ok(None)
        }
    }

    /// The blocks that it lies on, if there are any.
    fn read_blocks(&self) -> Result<Option<BadBlocks>, Outcome>
        ensures value { result ≡ asked_blocks self.now }
        ensures refused { IfErr result (λ outcome. outcome ≢ Outcome.Done) }
    {
        let healed_by_writes = read_flag(self.healed_by_writes)?;
        if self.count > 0 {
            return Ok(Some(BadBlocks {
                extent: Extent {
                    lba: self.lba,
                    count: self.count,
                },
                healed_by_writes,
            }));
        }
        if healed_by_writes {
            Err(Outcome::FaultFlag)
        } else {
            Ok(None)
        }
    }
}

/// The initiators of a mask that names one.
fn named_initiators(count: u8, mask: u64) -> Option<Initiators>
    requires { count ≤ initiator_count }
    ensures { result ≡ named_initiators count mask }
{
    if mask == 0 {
        None
    } else {
        own_initiators(count, mask)
    }
}

/// A flag, which is 0 or 1.
fn read_flag(byte: u8) -> Result<bool, Outcome>
    ensures value { result ≡ flag_of byte }
    ensures refused { IfErr result (λ outcome. outcome ≢ Outcome.Done) }
{
    match byte {
        0 => Ok(false),
        1 => Ok(true),
        _ => Err(Outcome::FaultFlag),
    }
}

/// How often the fault does something. None if it stays until it is taken away.
fn read_times(times: u16) -> Option<u16>
    ensures { result ≡ asked_times times }
{
    if times == 0 { None } else { Some(times) }
}

/// The mask of initiators that are not none.
fn mask_of_named(initiators: &Initiators) -> u64
    requires mask { AreMembers initiators.now }
    requires somebody { initiators.now ≢ no_initiators }
    ensures { named_initiators initiator_count result ≡ Some initiators.now }
{
    mask_of(initiators)
}

/// Whether an operation code is named, and the code.
fn code_fields(code: Option<u8>) -> (u8, u8)
    ensures { code_if result.1 (flag_of result.0) ≡ Ok code }
{
    match code {
        Some(code) => (1, code),
        None => (0, 0),
    }
}

/// The first of some blocks, their number, and whether writes heal them. The number is 0 if there are
/// none.
fn block_fields(blocks: Option<BadBlocks>) -> (u64, u32, u8)
    requires { IfSome blocks (λ bad. 0 < bad.extent.count) }
    ensures { blocks_if result.0 result.1 (flag_of result.2) ≡ Ok blocks }
{
    match blocks {
        Some(bad) => {
            let healed = u8::from(bad.healed_by_writes);
            (bad.extent.lba, bad.extent.count, healed)
        }
        None => (0, 0, 0),
    }
}

/// A number of times. 0 if the fault stays until it is taken away.
fn times_field(times: Option<u16>) -> u16
    requires { IfSome times (λ times. 0 < times) }
    ensures { asked_times result ≡ times }
{
    times.unwrap_or(0)
}
