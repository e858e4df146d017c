// sg_unmap, which sends UNMAP (SBC-3, 5.28): an address and a count make a descriptor.
ghost use Rattle.std.specs.Prelude.{◌≡◌, ◌≤◌, ◌<◌, ◌^◌, ℕ, Ok, length, option_map, slice_index};
ghost use Rattle.sg_wire.specs.UnmapList.{maximum_unmap_descriptors};
ghost use Rattle.sg_tools.specs.OptionTexts.{number_or};
ghost use Rattle.sg_tools.specs.Requests.{paired, sg_unmap, unmap};

use crate::given_options::GivenOptions;
use crate::number_list::read_list;
use crate::option_text::number_or;
use crate::parameters::Parameters;
use crate::show::Show;
use crate::tool::Tool;
use crate::tool_fault::ToolFault;
use sg_wire::{Command, Extent, GroupNumber, MAXIMUM_UNMAP_DESCRIPTORS, Unmap, UnmapList};

/// The request that the options of sg_unmap make.
pub(crate) fn sg_unmap(options: &GivenOptions) -> Result<Tool, ToolFault>
    ensures { result ≡ sg_unmap options.now }
{
    let (Some(lba), Some(num)) = (options.text("lba"), options.text("num")) else {
        return Err(ToolFault::Usage);
    };
    let lbas = read_list(u64::MAX, lba.as_bytes());
    let counts = read_list(0xffff_ffff, num.as_bytes());
    let group = group_number(options.text("grpnum"));
    let (Some(lbas), Some(counts), Some(group)) = (lbas, counts, group) else {
        return Err(ToolFault::Number);
    };
    if lbas.count != counts.count || lbas.count > MAXIMUM_UNMAP_DESCRIPTORS {
        return Err(ToolFault::Usage);
    }
    let list = paired(&lbas.first, &counts.first);
    Ok(unmap(options.is_set("anchor"), group, list))
}

fn unmap(anchor: bool, group: GroupNumber, list: UnmapList) -> Tool
    ensures { Ok result ≡ unmap anchor group list }
{
    Tool {
        command: Command::Unmap(Unmap {
            anchor,
            group,
            list_length: list.parameter_list_length(),
        }),
        parameters: Parameters::Unmap(list),
        show: Show::Nothing,
    }
}

/// The group number of a text; 0 if there is no text.
fn group_number(text: Option<&str>) -> Option<GroupNumber>
    ensures { result ≡ number_or 0 31 (option_map (λ t. t.now) text.entry) }
{
    GroupNumber::new(number_or(0, 31, text)? as u8)
}

/// The list of the extents of addresses and counts.
fn paired(lbas: &[u64], counts: &[u64]) -> UnmapList
    requires equally_long { length lbas.now ≡ length counts.now }
    requires at_most_64 { length lbas.now ≤ maximum_unmap_descriptors }
    requires of_32_bits { (k : ℕ) → slice_index counts.now k < 2 ^ 32 }
    ensures { result ≡ paired lbas.now counts.now }
{
    let mut list = UnmapList::new();
    for k in 0..lbas.len() {
        list.push(Extent {
            lba: lbas[k],
            count: counts[k] as u32,
        });
    }
    list
}
