// The service actions of sg_persist, and the flags that ask for them.
ghost use Rattle.std.specs.Prelude.{◌≡◌, ◌≤◌, length};
ghost use Rattle.sg_tools.specs.OptionTables.{action_rows};
ghost use Rattle.sg_tools.specs.Requests.{action_flags, are_exclusive, given_actions};

use crate::given_options::GivenOptions;
use ServiceAction::{In, Out};
use arrayvec::ArrayVec;
use sg_wire::{InAction, OutAction};

/// A service action of PERSISTENT RESERVE IN or PERSISTENT RESERVE OUT.
#[derive(Clone, Copy)]
pub(crate) enum ServiceAction {
    In(InAction),
    Out(OutAction),
}

impl Default for ServiceAction {
    fn default() -> ServiceAction {
        In(InAction::ReadKeys)
    }
}

/// A flag and the service action that it asks for.
pub(crate) struct ActionFlag(&'static str, ServiceAction);

const ACTION_COUNT: usize = 11;

const ACTION_FLAGS: &[ActionFlag] = &[
    ActionFlag("read-keys", In(InAction::ReadKeys)),
    ActionFlag("read-reservation", In(InAction::ReadReservation)),
    ActionFlag("report-capabilities", In(InAction::ReportCapabilities)),
    ActionFlag("read-full-status", In(InAction::ReadFullStatus)),
    ActionFlag("register", Out(OutAction::Register)),
    ActionFlag(
        "register-ignore",
        Out(OutAction::RegisterAndIgnoreExistingKey),
    ),
    ActionFlag("reserve", Out(OutAction::Reserve)),
    ActionFlag("release", Out(OutAction::Release)),
    ActionFlag("clear", Out(OutAction::Clear)),
    ActionFlag("preempt", Out(OutAction::Preempt)),
    ActionFlag("preempt-abort", Out(OutAction::PreemptAndAbort)),
];

/// Service actions in the order of their flags.
pub(crate) type ServiceActions = ArrayVec<ServiceAction, ACTION_COUNT>;

/// The service actions whose flags are given.
pub(crate) fn given_actions(options: &GivenOptions) -> ServiceActions
    ensures { result.items ≡ given_actions action_flags options.now }
{
    actions_of(ACTION_FLAGS, options)
}

fn actions_of(flags: &'static [ActionFlag], options: &GivenOptions) -> ServiceActions
    requires { length flags.now ≤ ACTION_COUNT }
    ensures { result.items ≡ given_actions (action_rows flags.now) options.now }
{
    let mut actions = ArrayVec::new();
    for flag in flags {
        if options.is_set(flag.0) {
            actions.push(flag.1);
        }
    }
    actions
}

/// Whether options exclude one another: two service actions, --in and --out, or one of these and an
/// action of the other.
pub(crate) fn are_exclusive(as_in: bool, as_out: bool, actions: &[ServiceAction]) -> bool
    ensures { result ≡ are_exclusive as_in as_out actions.now }
{
    match actions {
        [] => as_in && as_out,
        [In(_)] => as_out,
        [Out(_)] => as_in,
        _ => true,
    }
}
