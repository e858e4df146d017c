// sg_start, which sends START STOP UNIT (SBC-3, 5.25).
ghost use Rattle.std.specs.Prelude.{◌≡◌, option_map};
ghost use Rattle.sg_tools.specs.OptionTexts.{number_or};
ghost use Rattle.sg_tools.specs.Requests.{sg_start};
ghost use Rattle.sg_tools.specs.StartOptions.{has_two_actions, start_or_stop};

use crate::given_options::GivenOptions;
use crate::option_text::number_or;
use crate::show::Show;
use crate::tool::Tool;
use crate::tool_fault::ToolFault;
use sg_wire::{Command, FourBits, StartStopUnit};

/// The request that the options of sg_start make.
pub(crate) fn sg_start(options: &GivenOptions) -> Result<Tool, ToolFault>
    ensures { result ≡ sg_start options.now }
{
    let load = options.is_set("load");
    let stop = options.is_set("stop");
    let eject = options.is_set("eject");
    if has_two_actions(options.is_set("start"), load, stop, eject) {
        return Err(ToolFault::Exclusive);
    }
    let modifier = four_bits_or_0(options.text("mod"));
    let condition = four_bits_or_0(options.text("pc"));
    let (Some(modifier), Some(condition)) = (modifier, condition) else {
        return Err(ToolFault::Number);
    };
    let loej = load || eject || options.is_set("loej");
    let command = start_or_stop(modifier, condition, loej, !(stop || eject));
    Ok(Tool::without_parameters(command, Show::Nothing))
}

fn has_two_actions(start: bool, load: bool, stop: bool, eject: bool) -> bool
    ensures { result ≡ has_two_actions start load stop eject }
{
    ((start || load) && (stop || eject)) || (start && load) || (stop && eject)
}

/// A number of four bits; 0 if there is no text.
fn four_bits_or_0(text: Option<&str>) -> Option<FourBits>
    ensures { result ≡ number_or 0 15 (option_map (λ t. t.now) text.entry) }
{
    FourBits::new(number_or(0, 15, text)? as u8)
}

/// START STOP UNIT. A power condition has a modifier, and neither LOEJ nor START.
fn start_or_stop(modifier: FourBits, condition: FourBits, loej: bool, start: bool) -> Command
    ensures { result ≡ start_or_stop modifier condition loej start }
{
    let has_condition = condition.number() != 0;
    Command::StartStopUnit(StartStopUnit {
        // Without a power condition the modifier is 0, too.
        power_condition_modifier: if has_condition { modifier } else { condition },
        power_condition: condition,
        loej: loej && !has_condition,
        start: start && !has_condition,
    })
}
