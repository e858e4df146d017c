// PERSISTENT RESERVE IN and PERSISTENT RESERVE OUT (SPC-4, 5.13).
ghost use Rattle.std.specs.Prelude.{◌≡◌, ◌≤◌, [], length, min};
ghost use Rattle.sg_wire.specs.Cut.{Puts};
ghost use Rattle.sg_wire.specs.FirstBytes.{first_bytes};
ghost use Rattle.sg_wire.specs.Profile.{rules_of};
ghost use Rattle.sg_units.specs.FullStatus.{longest_reserve_in};
ghost use Rattle.sg_target.specs.Checks.{requested};
ghost use Rattle.sg_target.specs.Demands.{reserve_out};
ghost use Rattle.sg_target.specs.Charge.{TakesStep, cost_bounds, step_before_alert};
ghost use Rattle.sg_target.specs.MadeReplies.{ReturnsData};
ghost use Rattle.sg_target.specs.ReservationCommands.{always_needs_type, has_list_length};
ghost use Rattle.sg_target.specs.ReservationCommands.{out_refusal, reserve_in_data};
ghost use Rattle.sg_target.specs.State.{IsWithinLimits};

use crate::config::Config;
use crate::data_in::DataIn;
use crate::data_out::needed_data_out;
use crate::operation::Operation;
use crate::refusal::{Reason, Refusal};
use crate::reply::Reply;
use crate::target::Target;
use sg_store::{Counts, Store};
use sg_units::{OutFault, OutList, ReservationType, Reservations};
use sg_wire::{
    Cut, InAction, Initiator, OutAction, PersistentReserveIn, PersistentReserveOut, Rules,
};

/// Where the service action is in the CDB of PERSISTENT RESERVE OUT.
const SERVICE_ACTION_BYTE: u16 = 1;

/// Where SCOPE and TYPE are.
const SCOPE_TYPE_BYTE: u16 = 2;

// ---- PERSISTENT RESERVE IN

/// Writes what a service action of PERSISTENT RESERVE IN returns, whole.
pub(crate) fn write_reserve_in_data(
    rules: Rules,
    action: InAction,
    reservations: &Reservations,
    cut: &mut Cut,
)
    ensures data { Puts cut.old cut.new (reserve_in_data rules reservations.now action) }
    ensures at_most { length (reserve_in_data rules reservations.now action) ≤ longest_reserve_in }
{
    match action {
        InAction::ReadKeys => reservations.read_keys(cut),
        InAction::ReadReservation => reservations.read_reservation(cut),
        InAction::ReportCapabilities => reservations.report_capabilities(rules, cut),
        InAction::ReadFullStatus => reservations.read_full_status(cut),
    }
}

/// The operation that PERSISTENT RESERVE IN asks for: the disk supports each of its service
/// actions.
pub(crate) fn check_reserve_in(fields: PersistentReserveIn) -> Operation<'static>
    ensures { result ≡ Operation.ReturnReservations fields.action fields.allocation_length }
{
    Operation::ReturnReservations {
        action: fields.action,
        allocation_length: fields.allocation_length,
    }
}

impl<S: Store> Target<S> {
    /// Returns what PERSISTENT RESERVE IN asks for.
    pub(crate) fn return_reservations(
        &self,
        action: InAction,
        allocation_length: u16,
        buf: &mut [u8],
    ) -> Reply
        requires { min longest_reserve_in allocation_length ≤ length buf.old }
        ensures { let state = self.now.state in
            let rules = rules_of state.identity.profile in
            let full = reserve_in_data rules state.reservations action in
            ReturnsData (first_bytes allocation_length full) result buf.old buf.new }
    {
        let data_in = DataIn::Reservations(action);
        self.return_data(data_in, usize::from(allocation_length), buf)
    }
}

// ---- PERSISTENT RESERVE OUT

impl From<OutFault> for Refusal {
    ghost use Rattle.sg_target.specs.ReservationCommands.{out_refusal};

    ghost from_gives = { λ fault refusal. refusal ≡ out_refusal fault };

    fn from(fault: OutFault) -> Refusal {
        match fault {
            OutFault::Conflict => Refusal::Conflict,
            OutFault::NoRoom => {
                Refusal::CheckCondition(Reason::InsufficientRegistrationResources)
            }
            OutFault::NoReservation => Refusal::CheckCondition(Reason::InvalidFieldInCdb {
                byte: SERVICE_ACTION_BYTE,
            }),
            OutFault::BadRelease => Refusal::CheckCondition(Reason::InvalidRelease),
            OutFault::Field(byte) => Refusal::CheckCondition(Reason::InvalidFieldInParameterList {
                byte,
            }),
            OutFault::BadType => Refusal::CheckCondition(Reason::InvalidFieldInCdb {
                byte: SCOPE_TYPE_BYTE,
            }),
        }
    }
}

/// Returns `true` if a service action is refused without a valid scope and type.
fn always_needs_type(rules: Rules, action: OutAction) -> bool
    ensures { result ≡ always_needs_type rules action }
{
    match action {
        OutAction::Reserve => true,
        OutAction::Release => !rules.release_of_nothing_ignores_type,
        _ => false,
    }
}

/// Returns `true` if a parameter list has one of the lengths that there may be.
fn has_list_length(rules: Rules, action: OutAction, list: &[u8]) -> bool
    ensures { result ≡ has_list_length rules action list.now }
{
    if matches!(action, OutAction::RegisterAndMove) {
        return OutList::has_whole_move(list);
    }
    if list.len() < OutList::LENGTH {
        return false;
    }
    if rules.specifies_ports && OutList::has_transport_ids(list) {
        !matches!(action, OutAction::Register) || OutList::has_whole_ids(list)
    } else {
        list.len() == OutList::LENGTH
    }
}

#[tactic(auto, unfolding(crate::specs::ReservationCommands::bad_type))]
pub(crate) fn check_reserve_out<'a>(
    config: &Config,
    fields: PersistentReserveOut,
    data_out: &'a [u8],
) -> Result<Operation<'a>, Refusal>
    ensures { result ≡ requested (reserve_out config.now fields data_out.now) data_out.now }
{
    let PersistentReserveOut {
        action,
        scope_type,
        list_length,
    } = fields;
    let needs_type = always_needs_type(config.rules(), action);
    if needs_type && ReservationType::with_scope_and_type(scope_type).is_none() {
        return Err(Refusal::CheckCondition(Reason::InvalidFieldInCdb {
            byte: SCOPE_TYPE_BYTE,
        }));
    }
    let list = needed_data_out(config, data_out, list_length as usize)?;
    if !has_list_length(config.rules(), action, list) {
        return Err(Refusal::CheckCondition(Reason::ParameterListLengthError));
    }
    Ok(Operation::ChangeReservations {
        action,
        scope_type,
        list: OutList::read(action, list),
    })
}

impl<S: Store> Target<S> {
    /// Registrations and reservation change, unless something is wrong with the parameter list.
    /// Other initiators get unit attentions.
    // Not inlined: the stack frame of every command would have room for the change.
    #[inline(never)]
    #[tactic(auto, unfolding(crate::specs::ReservationCommands::reservation_change))]
    pub(crate) fn change_reservations(
        &mut self,
        initiator: Initiator,
        action: OutAction,
        scope_type: u8,
        list: &OutList,
        buf: &[u8],
    ) -> Reply
        requires limits { IsWithinLimits self.old.state }
        ensures { let operation = Operation.ChangeReservations action scope_type list.now in
            TakesStep (cost_bounds S.price S.least) (step_before_alert self.old.state initiator operation)
            [] self.old self.new result buf.now buf.now }
    {
        let rules = self.config.rules();
        match self
            .reservations
            .out(rules, initiator, action, scope_type, list)
        {
            Ok(raised) => {
                self.attentions.raise_for_each(&raised);
                Reply::without_blocks(0)
            }
            Err(fault) => self.refuse(initiator, Refusal::from(fault), Counts::default()),
        }
    }
}
