// The parts of a target, and its calls: a new one, a command, a happening.
use crate::call::Call;
use crate::config::Config;
use crate::data_out::asked_bytes;
use crate::happening::Happening;
use crate::refusal::{Reason, Refusal};
use crate::reply::{Reply, format_of};
use crate::room::data_in_bound;
use sg_faults::{Fault, Faults};
use sg_pages::ModePages;
use sg_store::{BLOCK_LENGTH, Counts, MAX_CAPACITY, Store};
use sg_units::{Attentions, Raised, Reservations, UnitAttention};
use sg_wire::{CdbFault, Command, Format, Initiator, MAXIMUM_TRANSFER_LENGTH};
use std::alloc::{AllocError, Global};
use std::marker::Model;

/// The least length of the buffer for data-in, in bytes: the length of the most blocks that a READ
/// returns.
pub const BUFFER_LENGTH: usize = MAXIMUM_TRANSFER_LENGTH as usize * BLOCK_LENGTH;

/// A target that was built and executes commands.
#[derive(Drop)]
pub struct Target<S: Store> {
    pub(crate) config: Config,
    pub(crate) store: S,
    pub(crate) modes: ModePages,
    pub(crate) attentions: Attentions,
    pub(crate) reservations: Reservations,
    // Whether START STOP UNIT has stopped the unit.
    pub(crate) stopped: bool,
    pub(crate) faults: Faults,
}

impl<S: Store> Model for Target<S> {
    ghost use Rattle.std.specs.Prelude.{◌≡◌, ◌≤◌};
    ghost use Rattle.sg_units.specs.Attentions.{ArePending};
    ghost use Rattle.sg_units.specs.Reservations.{IsConsistent};
    ghost use Rattle.std.specs.FinMap.{len};
    ghost use Rattle.sg_store.specs.Disk.{max_pool};
    ghost use Rattle.std.specs.Coded.{codes};
    ghost use Rattle.sg_store.specs.ContentsCode.{contents_code};
    ghost use Rattle.sg_target.specs.Target.{TargetFields};

    ghost Value = { TargetFields };

    ghost coded = { Prim.hlevel (codes, contents_code) };

    ghost view = { λ t. record {
      state = record {
        identity = t.config.identity;
        disk = S.disk t.store;
        modes = t.modes;
        attentions = t.attentions;
        reservations = t.reservations;
        stopped = t.stopped;
      };
      faults = t.faults;
      meter = S.meter t.store;
    } };

    ghost invariant = { λ t. (t.config.blocks ≡ (S.disk t.store).capacity)
        × (len (S.disk t.store).contents ≤ (S.disk t.store).pool)
        × ArePending t.attentions
        × IsConsistent t.reservations
        × ((S.disk t.store).pool ≤ max_pool)
        × (t.config.pool ≡ (S.disk t.store).pool) };
}

ghost use Rattle.std.specs.Prelude.{◌≡◌, ◌≤◌, length, IfOk, false};
ghost use Rattle.sg_wire.specs.CdbDecoding.{command_in};
ghost use Rattle.sg_faults.specs.Faults.{is_armed, no_faults};
ghost use Rattle.sg_store.specs.Meter.{new_meter};
ghost use Rattle.sg_target.specs.DataInBound.{longest_data_in};
ghost use Rattle.sg_target.specs.Charge.{ChargesCommand, cost_bounds};
ghost use Rattle.sg_target.specs.Execution.{IsExecuted};
ghost use Rattle.sg_target.specs.Happenings.{Happens, after_reset, with_raised};
ghost use Rattle.sg_target.specs.MadeReplies.{refused_reply};
ghost use Rattle.sg_target.specs.NewState.{new_state, restored_state};
ghost use Rattle.sg_target.specs.State.{IsWithinLimits, profile_of};
ghost use Rattle.sg_target.specs.Step.{after_refusal, sense_format};
ghost use Rattle.sg_target.specs.Target.{disk_of};

impl<S: Store> Target<S> {
    /// A target as it is after power on. No block is mapped, and the mode pages have their default
    /// values. A unit attention, POWER ON, is pending for each initiator, and none is registered. The
    /// unit is not stopped, and no fault is armed. All memory is taken here.
    ///
    /// # Errors
    /// Memory was refused.
    // A target is large. In a caller's frame it would have a place for each profile.
    #[inline(never)]
    pub fn new(alloc: Global, config: Config) -> Result<Target<S>, AllocError>
        ensures { IfOk result (λ target. target ≡ record {
          state = new_state config;
          faults = no_faults;
          meter = new_meter;
        }) }
    {
        let store = S::make(alloc, config.blocks(), config.pool())?;
        let modes = ModePages::new(config.identity().profile());
        Ok(Target::restored(config, store, modes, Reservations::new(), Faults::new()))
    }

    /// A target as it is after power on, with what a power cycle has left of a disk: its blocks, its
    /// mode pages, its registrations, and the faults that are armed on it.
    pub fn restored(
        config: Config,
        store: S,
        modes: ModePages,
        reservations: Reservations,
        faults: Faults,
    ) -> Target<S>
        requires blocks { config.blocks ≡ (S.disk store).capacity }
        requires pool { config.pool ≡ (S.disk store).pool }
        ensures { result ≡ record {
          state = restored_state config.identity (S.disk store) modes reservations;
          faults = faults;
          meter = S.meter store;
        } }
    {
        // Its contract says that no more addresses are used than the pool has blocks.
        let _ = store.used();
        let mut target = Target {
            config,
            store,
            modes,
            attentions: Attentions::new(),
            reservations,
            stopped: false,
            faults,
        };
        target.power_cycle();
        target
    }

    /// Executes a command. The buffer has [`BUFFER_LENGTH`] bytes at least; data-in is the first
    /// [`Reply::data_in`] of them, and those after it stay as they were. After a fault that cuts data-in
    /// short, the bytes that do not arrive follow.
    pub fn execute(
        &mut self,
        initiator: Initiator,
        cdb: &[u8],
        data_out: &[u8],
        buf: &mut [u8],
    ) -> Reply
        requires { longest_data_in ≤ length buf.old }

        // The answer, the state and the armed faults after it are as in the definition's step. No
        // table passes its limit.
        ensures executed { IsExecuted initiator cdb.now data_out.now
            (disk_of self.old) (disk_of self.new) result buf.old buf.new }
        // What the store did is charged for the command's ranges.
        ensures charged { ChargesCommand (cost_bounds S.price S.least) initiator cdb.now data_out.now
            self.old self.new result }
    {
        if self.faults.is_armed() {
            return self.execute_armed(initiator, cdb, data_out, buf);
        }
        // The compiler drops what a command does not need if it knows the command.
        if Command::is_test_unit_ready(cdb) {
            return self.execute_command(initiator, cdb, &Ok(Command::TestUnitReady), data_out, buf);
        }
        if let Some(extent) = Command::read_10(cdb) {
            let command = &Ok(Command::Read10(extent));
            return self.execute_command(initiator, cdb, command, data_out, buf);
        }
        let command = &Command::read_in(self.profile(), cdb);
        self.execute_command(initiator, cdb, command, data_out, buf)
    }

    /// Executes a CDB, in which the disk reads `command`, while no fault is armed.
    #[inline(always)]
    fn execute_command(
        &mut self,
        initiator: Initiator,
        cdb: &[u8],
        command: &Result<Command, CdbFault>,
        data_out: &[u8],
        buf: &mut [u8],
    ) -> Reply
        requires unarmed { is_armed self.old.faults ≡ false }
        requires command { command.now ≡ command_in (profile_of self.old.state) cdb.now }
        requires room { longest_data_in ≤ length buf.old }
        ensures executed { IsExecuted initiator cdb.now data_out.now
            (disk_of self.old) (disk_of self.new) result buf.old buf.new }
        ensures charged { ChargesCommand (cost_bounds S.price S.least) initiator cdb.now data_out.now
            self.old self.new result }
    {
        let asked = asked_bytes(command);
        let checked = self.check_command(initiator, cdb, command, data_out);
        // Its contract says that the buffer is long enough.
        let _ = data_in_bound(&checked);
        let call = Call {
            initiator,
            cdb,
            data_out,
        };
        self.conclude(call, asked, &checked, buf)
    }

    /// Lets something happen to the disk, between two commands.
    pub fn happen(&mut self, happening: Happening)
        ensures { Happens happening self.old self.new }
    {
        match happening {
            Happening::Power => self.power_cycle(),
            Happening::LogicalUnitReset => self.reset(UnitAttention::BusDeviceReset),
            Happening::TargetReset => self.reset(UnitAttention::ScsiBusReset),
            Happening::NexusLoss(initiator) => self.lose_nexus(initiator),
            Happening::Establish(condition, initiators) => {
                self.raise(&Raised::for_members(&initiators, condition));
            }
            Happening::Grow(blocks) => self.grow(blocks),
            Happening::Arm(fault) => self.arm(&fault),
            Happening::Disarm(number) => self.disarm(number),
            Happening::DisarmAll => self.disarm_all(),
        }
    }

    /// A power cycle. The blocks are as they were, and the saved mode pages are the current ones.
    /// Registrations and reservation are as they were if they persist through a power loss, and
    /// gone if not; PRGENERATION is 0. Only POWER ON is pending for each initiator. The unit is not
    /// stopped.
    pub fn power_cycle(&mut self)
        ensures { Happens Happening.Power self.old self.new }
    {
        // Its contract says that the blocks are well formed.
        let _ = self.store.used();
        self.modes.power_on();
        self.attentions.clear_to_power_on();
        self.reservations.power_on();
        self.stopped = false;
    }

    /// A reset, by the condition that it establishes for each initiator. The saved mode pages are
    /// the current ones after it, and the unit is not stopped.
    fn reset(&mut self, condition: UnitAttention)
        ensures state { self.new.state ≡ after_reset condition self.old.state }
        ensures faults { self.new.faults ≡ self.old.faults }
        ensures meter { self.new.meter ≡ self.old.meter }
        ensures limits { IsWithinLimits self.new.state }
    {
        self.modes.power_on();
        self.stopped = false;
        self.raise(&Raised::for_all(condition));
    }

    fn lose_nexus(&mut self, initiator: Initiator)
        ensures { Happens (Happening.NexusLoss initiator) self.old self.new }
    {
        let _ = self.store.used();
        self.attentions.raise(initiator, UnitAttention::NexusLoss);
    }

    /// Establishes unit attention conditions.
    pub(crate) fn raise(&mut self, raised: &Raised)
        ensures state { self.new.state ≡ with_raised self.old.state raised.now }
        ensures faults { self.new.faults ≡ self.old.faults }
        ensures meter { self.new.meter ≡ self.old.meter }
        ensures limits { IsWithinLimits self.new.state }
    {
        let _ = self.store.used();
        self.attentions.raise_for_each(raised);
    }

    /// Gives the disk more logical blocks, and tells each initiator.
    fn grow(&mut self, blocks: u64)
        ensures { Happens (Happening.Grow blocks) self.old self.new }
    {
        let _ = self.store.used();
        if self.config.blocks() < blocks && blocks <= MAX_CAPACITY {
            self.config = self.config.grown(blocks);
            self.store.grow(blocks);
            self.raise(&Raised::for_all(UnitAttention::CapacityDataChanged));
        }
    }

    fn arm(&mut self, fault: &Fault)
        ensures { Happens (Happening.Arm fault.now) self.old self.new }
    {
        let _ = self.store.used();
        self.faults.arm(fault);
    }

    fn disarm(&mut self, number: usize)
        ensures { Happens (Happening.Disarm number) self.old self.new }
    {
        let _ = self.store.used();
        self.faults.disarm(number);
    }

    fn disarm_all(&mut self)
        ensures { Happens Happening.DisarmAll self.old self.new }
    {
        let _ = self.store.used();
        self.faults.disarm_all();
    }

    /// The reply to a command that is refused. A unit attention that it reports is cleared.
    pub(crate) fn refuse(&mut self, initiator: Initiator, refusal: Refusal, counts: Counts) -> Reply
        ensures reply { result ≡ refused_reply (sense_format self.old.state) refusal counts }
        ensures state { self.new.state ≡ after_refusal self.old.state initiator refusal }
        ensures faults { self.new.faults ≡ self.old.faults }
        ensures meter { self.new.meter ≡ self.old.meter }
    {
        if let Refusal::CheckCondition(Reason::UnitAttention(_)) = refusal {
            self.attentions.clear_oldest(initiator);
        }
        Reply::refused(refusal, self.sense_format(), counts)
    }

    /// The format of the disk's sense data.
    pub(crate) fn sense_format(&self) -> Format
        ensures { result ≡ sense_format self.now.state }
    {
        format_of(self.modes.descriptor_sense())
    }
}
