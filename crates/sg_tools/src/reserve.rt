// sg_persist, which sends PERSISTENT RESERVE IN or OUT (SPC-4, 6.15 and 6.16).
ghost use Rattle.std.specs.Prelude.{◌≡◌, Ok, option_map};
ghost use Rattle.sg_tools.specs.OptionTexts.{hex_digits_up_to, reservation_type, value_or};
ghost use Rattle.sg_tools.specs.Requests.{key_or_0, reserve, reserve_in, reserve_in_show};
ghost use Rattle.sg_tools.specs.Requests.{reserve_out, sg_persist};

use crate::given_options::GivenOptions;
use crate::number::read_digits;
use crate::parameters::Parameters;
use crate::service_action::{ServiceAction, are_exclusive, given_actions};
use crate::show::Show;
use crate::tool::Tool;
use crate::tool_fault::ToolFault;
use sg_wire::{
    Command, InAction, OutAction, OutList, PersistentReserveIn, PersistentReserveOut, TransportIds,
};

/// The request that the options of sg_persist make.
pub(crate) fn sg_persist(options: &GivenOptions) -> Result<Tool, ToolFault>
    ensures { result ≡ sg_persist options.now }
{
    let actions = given_actions(options);
    let as_out = options.is_set("out");
    if are_exclusive(options.is_set("in"), as_out, &actions) {
        return Err(ToolFault::Exclusive);
    }
    let type_code = type_or_0(options.text("prout-type"));
    let key = key_or_0(options.text("param-rk"));
    let action_key = key_or_0(options.text("param-sark"));
    let (Some(type_code), Some(key), Some(action_key)) = (type_code, key, action_key) else {
        return Err(ToolFault::Number);
    };
    let list = OutList {
        reservation_key: key,
        service_action_key: action_key,
        spec_i_pt: false,
        all_tg_pt: false,
        aptpl: options.is_set("param-aptpl"),
        unreg: false,
        port: 0,
        others: TransportIds::new(&[]),
    };
    reserve(as_out, &actions, type_code, list)
}

/// The request that service actions make; READ KEYS if none is given.
fn reserve(
    as_out: bool,
    actions: &[ServiceAction],
    type_code: u8,
    list: OutList<'static>,
) -> Result<Tool, ToolFault>
    ensures { result ≡ reserve as_out actions.now type_code list.entry }
{
    match actions {
        [] if as_out => Err(ToolFault::Usage),
        [] => Ok(reserve_in(InAction::ReadKeys)),
        [ServiceAction::In(action), ..] => Ok(reserve_in(*action)),
        [ServiceAction::Out(action), ..] => Ok(reserve_out(*action, type_code, list)),
    }
}

fn reserve_in(action: InAction) -> Tool
    ensures { Ok result ≡ reserve_in action }
{
    let command = Command::PersistentReserveIn(PersistentReserveIn {
        action,
        allocation_length: 8192,
    });
    Tool::without_parameters(command, reserve_in_show(action))
}

fn reserve_in_show(action: InAction) -> Show
    ensures { result ≡ reserve_in_show action }
{
    match action {
        InAction::ReadKeys => Show::Keys,
        InAction::ReadReservation => Show::Reservation,
        InAction::ReportCapabilities => Show::Capabilities,
        InAction::ReadFullStatus => Show::FullStatus,
    }
}

fn reserve_out(action: OutAction, type_code: u8, list: OutList<'static>) -> Tool
    ensures { Ok result ≡ reserve_out action type_code list.entry }
{
    Tool {
        command: Command::PersistentReserveOut(PersistentReserveOut {
            action,
            scope_type: type_code,
            list_length: OutList::LENGTH as u32,
        }),
        parameters: Parameters::ReserveOut(list),
        show: Show::Nothing,
    }
}

/// The key of a text; 0 if there is no text.
fn key_or_0(text: Option<&str>) -> Option<u64>
    ensures { result ≡ key_or_0 (option_map (λ t. t.now) text.entry) }
{
    match text {
        None => Some(0),
        Some(text) => read_hex_digits(16, text.as_bytes()),
    }
}

/// The type of a text; 0 if there is no text.
fn type_or_0(text: Option<&str>) -> Option<u8>
    ensures { result ≡ value_or 0 reservation_type (option_map (λ t. t.now) text.entry) }
{
    match text {
        None => Some(0),
        Some(text) => Some(read_hex_digits(1, text.as_bytes())? as u8),
    }
}

/// The value of hexadecimal digits, with or without `0x` before them.
#[tactic(auto, unfolding(crate::specs::OptionTexts::hex_digits_up_to))]
fn read_hex_digits(most: usize, text: &[u8]) -> Option<u64>
    ensures { result ≡ hex_digits_up_to most text.now }
{
    let digits = match text {
        [b'0', b'x' | b'X', digits @ ..] => digits,
        _ => text,
    };
    if digits.len() > most {
        return None;
    }
    read_digits(digits, 16)
}
