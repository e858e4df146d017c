// The checks of each service action: the flags, then the key. After them its own cases decide.
ghost use Rattle.std.specs.Prelude.{◌≡◌};
ghost use Rattle.sg_units.specs.ReserveOut.{accepts_key, action_outcome, outcome};
ghost use Rattle.sg_units.specs.UnsupportedFlags.{has_unsupported_flag};

use super::ReservationState;
use crate::reservation_change::ReservationChange;
use crate::{OutFault, OutList, ReservationType};
use sg_wire::{Initiator, OutAction, Rules};

impl ReservationState {
    /// The change of a command. Nothing has changed yet.
    #[tactic(auto, unfolding(crate::specs::ReserveOut::outcome))]
    pub(crate) fn outcome(
        &self,
        rules: Rules,
        caller: Initiator,
        action: OutAction,
        scope_type: u8,
        list: &OutList,
    ) -> Result<ReservationChange, OutFault>
        ensures { result ≡ outcome rules self.now caller action scope_type list.now }
    {
        if has_unsupported_flag(rules, list, action) {
            return Err(OutFault::Field(OutList::FLAGS_AT as u16));
        }
        if !self.accepts_key(caller, action, list.reservation_key) {
            return Err(OutFault::Conflict);
        }
        let kind = ReservationType::with_scope_and_type(scope_type);
        self.action_outcome(rules, caller, action, kind, list)
    }

    /// Returns `true` if a key is the caller's, or the action needs no key.
    fn accepts_key(&self, caller: Initiator, action: OutAction, key: u64) -> bool
        ensures { result ≡ accepts_key self.now.registrations caller action key }
    {
        match action {
            OutAction::RegisterAndIgnoreExistingKey => true,
            OutAction::Register => {
                self.registrations.has_under(caller, key)
                    || !self.registrations.has(caller) && key == 0
            }
            OutAction::Reserve
            | OutAction::Release
            | OutAction::Clear
            | OutAction::Preempt
            | OutAction::PreemptAndAbort
            | OutAction::RegisterAndMove => self.registrations.has_under(caller, key),
        }
    }

    fn action_outcome(
        &self,
        rules: Rules,
        caller: Initiator,
        action: OutAction,
        kind: Option<ReservationType>,
        list: &OutList,
    ) -> Result<ReservationChange, OutFault>
        ensures { result ≡ action_outcome rules self.now caller action kind list.now }
    {
        match action {
            OutAction::Register if list.spec_i_pt => self.register_together(caller, list),
            OutAction::Register | OutAction::RegisterAndIgnoreExistingKey => {
                self.register(rules, caller, list)
            }
            OutAction::Reserve => { self.reserve(caller, kind.ok_or(OutFault::BadType)?) }
            OutAction::Release => self.release(caller, kind),
            OutAction::Clear => Ok(self.clear()),
            // No command is there to abort: each has ended before the next begins.
            OutAction::Preempt | OutAction::PreemptAndAbort => {
                self.preempt(rules, caller, kind, list.service_action_key)
            }
            OutAction::RegisterAndMove => self.register_and_move(caller, list),
        }
    }
}

/// Returns `true` if a flag is set that is not supported with a service action.
fn has_unsupported_flag(rules: Rules, list: &OutList, action: OutAction) -> bool
    ensures { result ≡ has_unsupported_flag rules action list.now }
{
    match action {
        OutAction::Register => !rules.specifies_ports && (list.spec_i_pt || list.all_tg_pt),
        OutAction::RegisterAndIgnoreExistingKey => {
            list.spec_i_pt || !rules.specifies_ports && list.all_tg_pt
        }
        OutAction::Reserve
        | OutAction::Release
        | OutAction::Clear
        | OutAction::Preempt
        | OutAction::PreemptAndAbort
        | OutAction::RegisterAndMove => list.spec_i_pt,
    }
}
