// The kinds of answers, by the numbers that the header has for C.
ghost use Rattle.std.specs.Prelude.{◌≡◌, Some};
ghost use Rattle.sg_embed.specs.Kinds.{kind_numbered};

use sg_tools::Show;

const KINDS: [Show; 27] = [
    Show::Nothing,
    Show::Hex,
    Show::Inquiry,
    Show::Vpd,
    Show::Modes6,
    Show::Modes10,
    Show::LbaStatus,
    Show::LbaStatusBrief,
    Show::Keys,
    Show::Reservation,
    Show::Capabilities,
    Show::FullStatus,
    Show::Sense,
    Show::ExtendedInquiry,
    Show::ExtendedVpd,
    Show::ExtendedSense,
    Show::Luns,
    Show::AllCommands,
    Show::OneCommand,
    Show::TaskManagement,
    Show::LogPage,
    Show::Capacity10,
    Show::Capacity16,
    Show::Defects10,
    Show::Defects12,
    Show::ExtendedCapabilities,
    Show::ExtendedFullStatus,
];

/// The kind of answers with a number of the header.
pub(crate) fn kind_numbered(number: u32) -> Option<Show>
    ensures { result ≡ kind_numbered number }
{
    KINDS.get(number as usize).copied()
}

/// The number of a kind of answers.
pub(crate) fn kind_number(show: Show) -> u32
    ensures { kind_numbered result ≡ Some show }
{
    // It has the same place in `Show` as in the list.
    show as u32
}
