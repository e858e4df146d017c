// sg_readcap, which sends READ CAPACITY(10), or READ CAPACITY(16) with `--16` (SBC-3, 5.15 and 5.16).
ghost use Rattle.std.specs.Prelude.{◌≡◌, Ok};
ghost use Rattle.sg_tools.specs.Requests.{capacity_text, read_capacity, sg_readcap};

use crate::given_options::GivenOptions;
use crate::show::Show;
use crate::tool::Tool;
use crate::unit_state::text_or_hex;
use sg_wire::{Command, ReadCapacity16};

/// The length of the data of READ CAPACITY(16), in bytes.
const LONG_LENGTH: u32 = 32;

/// The request that the options of sg_readcap make.
pub(crate) fn sg_readcap(options: &GivenOptions) -> Tool
    ensures { Ok result ≡ sg_readcap options.now }
{
    let long = options.is_set("16") || options.is_set("long");
    Tool::without_parameters(
        read_capacity(long),
        text_or_hex(capacity_text(long), options),
    )
}

fn read_capacity(long: bool) -> Command
    ensures { result ≡ read_capacity long }
{
    if !long {
        return Command::ReadCapacity10;
    }
    Command::ReadCapacity16(ReadCapacity16 {
        allocation_length: LONG_LENGTH,
    })
}

fn capacity_text(long: bool) -> Show
    ensures { result ≡ capacity_text long }
{
    if long {
        Show::Capacity16
    } else {
        Show::Capacity10
    }
}
