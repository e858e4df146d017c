// Options that are numbers have a default and a limit.
ghost use Rattle.std.specs.Prelude.{◌≡◌, ◌≤◌, option_map, IfSome};
ghost use Rattle.sg_tools.specs.OptionTexts.{number_or};

use crate::number::read_number_up_to;

/// The number of a text, if it is at most a limit; the default if there is no text.
pub fn number_or(default: u64, limit: u64, text: Option<&str>) -> Option<u64>
    requires { default ≤ limit }
    ensures value { result ≡ number_or default limit (option_map (λ t. t.now) text.entry) }
    ensures within { IfSome result (λ n. n ≤ limit) }
{
    match text {
        None => Some(default),
        Some(text) => read_number_up_to(limit, text.as_bytes()),
    }
}
