// The order of the checks that a command passes before it is executed.
ghost use Rattle.std.specs.Prelude.{◌≡◌, Some, None, Ok, IfErr, IfOk, if◌then◌else◌, true};
ghost use Rattle.std.specs.Prelude.{option_and_then};
ghost use Rattle.sg_wire.specs.CdbDecoding.{command_in};
ghost use Rattle.sg_wire.specs.Profile.{rules_of};
ghost use Rattle.sg_target.specs.Checks.{blocking_attention, cdb_checks, checked_cdb};
ghost use Rattle.sg_target.specs.Checks.{if_it_outranks, medium_checks, not_ready, outranks};
ghost use Rattle.sg_pages.specs.ModePage.{write_protected};
ghost use Rattle.sg_target.specs.Checks.{reservation_conflict, write_protection};
ghost use Rattle.sg_target.specs.Extents.{AreOnDisk};
ghost use Rattle.sg_target.specs.Refusal.{first_some};
ghost use Rattle.sg_target.specs.Semantics.{medium_use};
ghost use Rattle.sg_target.specs.State.{IsWithinLimits, config_of, profile_of};

use crate::config::Config;
use crate::operation::{Operation, operation_of};
use crate::refusal::{Reason, Refusal};
use crate::target::Target;
use sg_store::Store;
use sg_units::UnitAttention;
use sg_wire::{CdbFault, Command, Initiator, Profile};

impl<S: Store> Target<S> {
    /// Makes the checks of a CDB, its command and its operation. `command` is what the disk reads in
    /// the CDB. Returns the operation. Its execution checks what it asks of the disk's pages and
    /// reservations, and of its space.
    // Inlined, with what it calls: a command would pay for each call. The compiler does so by itself
    // only where one function calls them, and a command on a disk with armed faults calls them too.
    #[inline(always)]
    #[tactic(auto, unfolding(crate::specs::Checks::checked_cdb))]
    pub(crate) fn check_command<'a>(
        &self,
        initiator: Initiator,
        cdb: &[u8],
        command: &Result<Command, CdbFault>,
        data_out: &'a [u8],
    ) -> Result<Operation<'a>, Refusal>
        requires { command.now ≡ command_in (profile_of self.now.state) cdb.now }
        ensures checked { result ≡ checked_cdb self.now.state initiator cdb.now data_out.now }
        ensures on_disk { IfOk result (λ operation.
            AreOnDisk self.now.state.disk.capacity (medium_use operation).extents) }
        ensures limits { IsWithinLimits self.now.state }
    {
        // Its contract says that the blocks are well formed.
        let _ = self.store.used();
        let command = self.check_cdb(initiator, cdb, command)?;
        let requested = operation_of(self.config(), command, data_out);
        if let Ok(operation) = &requested {
            self.check_operation(operation)?;
        }
        requested
    }

    /// Makes the checks of a CDB, in which the disk reads `command`. Returns the command.
    #[inline(always)]
    fn check_cdb<'a>(
        &self,
        initiator: Initiator,
        cdb: &[u8],
        command: &'a Result<Command, CdbFault>,
    ) -> Result<&'a Command, Refusal>
        requires { command.now ≡ command_in (profile_of self.now.state) cdb.now }
        ensures refused { IfErr result (λ refusal.
            first_some (cdb_checks self.now.state initiator cdb.now) ≡ Some refusal) }
        ensures passed { IfOk result (λ _.
            first_some (cdb_checks self.now.state initiator cdb.now) ≡ None) }
        ensures command { IfOk result (λ command.
            command_in (profile_of self.now.state) cdb.now ≡ Ok command.now) }
    {
        if let Err(CdbFault::Empty) = command {
            return Err(Refusal::from(CdbFault::Empty));
        }
        let attention = self.blocking_attention(initiator, cdb);
        if let Some(refusal) = self.outranking_attention(attention) {
            return Err(refusal);
        }
        if let Some(conflict) = self.reservation_conflict(initiator, cdb) {
            return Err(conflict);
        }
        if let Some(condition) = attention {
            return Err(Refusal::CheckCondition(Reason::UnitAttention(condition)));
        }
        match command {
            Ok(command) => Ok(command),
            Err(fault) => Err(Refusal::from(*fault)),
        }
    }

    /// The refusal of a command that a unit attention blocks, if the attention comes before a
    /// reservation conflict.
    #[inline(always)]
    fn outranking_attention(&self, attention: Option<UnitAttention>) -> Option<Refusal>
        ensures { result ≡ option_and_then (if_it_outranks self.now.state) attention }
    {
        match attention {
            Some(condition) if self.outranks(condition) => {
                Some(Refusal::CheckCondition(Reason::UnitAttention(condition)))
            }
            _ => None,
        }
    }

    /// Returns `true` if a unit attention comes before a reservation conflict.
    fn outranks(&self, condition: UnitAttention) -> bool
        ensures { result ≡ outranks self.now.state condition }
    {
        condition.outranks_conflict(self.config.rules().only_resets_outrank_conflicts)
    }

    /// The configuration of the disk.
    pub fn config(&self) -> &Config
        ensures { result.now ≡ config_of self.now.state }
    {
        &self.config
    }

    /// The profile of the disk.
    pub fn profile(&self) -> Profile
        ensures { result ≡ profile_of self.now.state }
    {
        self.config.identity().profile()
    }

    /// The unit attention condition that is reported in place of a command.
    #[inline(always)]
    fn blocking_attention(&self, initiator: Initiator, cdb: &[u8]) -> Option<UnitAttention>
        ensures { result ≡ blocking_attention self.now.state initiator cdb.now }
    {
        match self.attentions.oldest(initiator) {
            Some(condition) if Command::is_blocked_in(self.profile(), cdb) => Some(condition),
            _ => None,
        }
    }

    /// The refusal of a command that the reservation does not allow to an initiator.
    #[inline(always)]
    fn reservation_conflict(&self, initiator: Initiator, cdb: &[u8]) -> Option<Refusal>
        ensures { result ≡ reservation_conflict self.now.state initiator cdb.now }
    {
        if !self.reservations.is_reserved() {
            return None;
        }
        match Command::class_in(self.profile(), cdb) {
            Some(class) if !self.reservations.allows(initiator, class) => Some(Refusal::Conflict),
            _ => None,
        }
    }

    /// Checks how an operation uses the medium: whether it needs a unit that is ready, whether the disk
    /// has its blocks, and whether it writes while SWP is set.
    #[inline(always)]
    #[tactic(auto, unfolding(crate::specs::Checks::write_protection))]
    fn check_operation(&self, operation: &Operation<'_>) -> Result<(), Refusal>
        ensures refused { IfErr result (λ refusal.
            first_some (medium_checks self.now.state (medium_use operation.now)) ≡ Some refusal) }
        ensures passed { IfOk result (λ _.
            first_some (medium_checks self.now.state (medium_use operation.now)) ≡ None) }
        ensures on_disk { IfOk result (λ _.
            AreOnDisk self.now.state.disk.capacity (medium_use operation.now).extents) }
    {
        self.check_ready(operation)?;
        let medium = operation.medium_use(self.config.blocks());
        if let Some(refusal) = medium.out_of_range {
            return Err(refusal);
        }
        if medium.writes && self.modes.write_protected() {
            self.check_protected(operation)?;
        }
        Ok(())
    }

    /// Refuses an operation that needs a unit that is ready, while the unit is stopped.
    #[inline(always)]
    fn check_ready(&self, operation: &Operation<'_>) -> Result<(), Refusal>
        ensures refused { IfErr result (λ refusal.
            not_ready self.now.state (medium_use operation.now) ≡ Some refusal) }
        ensures passed { IfOk result (λ _.
            not_ready self.now.state (medium_use operation.now) ≡ None) }
    {
        if self.stopped && operation.needs_ready() {
            return Err(Refusal::CheckCondition(Reason::NotReady));
        }
        Ok(())
    }

    /// Refuses an operation that writes to a disk whose SWP is set.
    #[tactic(auto, unfolding(crate::specs::Checks::write_protection))]
    fn check_protected(&self, operation: &Operation<'_>) -> Result<(), Refusal>
        requires protected { write_protected self.now.state.modes ≡ true }
        requires writes { (medium_use operation.now).writes ≡ true }
        ensures refused { IfErr result (λ refusal.
            write_protection (rules_of (profile_of self.now.state))
            self.now.state.modes (medium_use operation.now) ≡ Some refusal) }
        ensures passed { IfOk result (λ _.
            write_protection (rules_of (profile_of self.now.state))
            self.now.state.modes (medium_use operation.now) ≡ None) }
    {
        if !self.config.rules().protects_only_writes {
            return Err(Refusal::CheckCondition(Reason::SoftwareWriteProtected));
        }
        if operation.names_some_block() {
            return Err(Refusal::CheckCondition(Reason::WriteProtected));
        }
        Ok(())
    }
}
