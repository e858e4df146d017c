// The kinds of texts: the options of a tool choose one, and so does the word after `show`.
ghost use Rattle.std.specs.Prelude.{◌≡◌};
ghost use Rattle.sg_tools.specs.ShowKinds.{extended_kinds, show_kinds, show_named, shown_in};

use sg_wire::Profile;

/// How the answer to a tool's command is shown, or bytes that stand in a script.
#[derive(Clone, Copy, Debug, PartialEq, Eq)]
pub enum Show {
    /// Not at all.
    Nothing,
    /// As hexadecimal digits.
    Hex,
    /// As standard INQUIRY data.
    Inquiry,
    /// As a page of vital product data.
    Vpd,
    /// As the mode parameters of MODE SENSE(6).
    Modes6,
    /// As the mode parameters of MODE SENSE(10).
    Modes10,
    /// As the parameter data of GET LBA STATUS.
    LbaStatus,
    /// As the descriptors of GET LBA STATUS.
    LbaStatusBrief,
    /// As the parameter data of READ KEYS.
    Keys,
    /// As the parameter data of READ RESERVATION.
    Reservation,
    /// As the parameter data of REPORT CAPABILITIES.
    Capabilities,
    /// As the parameter data of READ FULL STATUS.
    FullStatus,
    /// As sense data.
    Sense,
    /// As standard INQUIRY data, with its version descriptors.
    ExtendedInquiry,
    /// As a page of vital product data, with the fields of pages 86h, 87h, 88h and B1h.
    ExtendedVpd,
    /// As sense data of a current or a deferred error.
    ExtendedSense,
    /// As the parameter data of REPORT LUNS.
    Luns,
    /// As the data of REPORT SUPPORTED OPERATION CODES about all commands.
    AllCommands,
    /// As the data of REPORT SUPPORTED OPERATION CODES about one command.
    OneCommand,
    /// As the data of REPORT SUPPORTED TASK MANAGEMENT FUNCTIONS.
    TaskManagement,
    /// As a log page.
    LogPage,
    /// As the data of READ CAPACITY(10).
    Capacity10,
    /// As the data of READ CAPACITY(16).
    Capacity16,
    /// As the data of READ DEFECT DATA(10).
    Defects10,
    /// As the data of READ DEFECT DATA(12).
    Defects12,
    /// As the parameter data of REPORT CAPABILITIES, with all fields.
    ExtendedCapabilities,
    /// As the parameter data of READ FULL STATUS, with ALL_TG_PT.
    ExtendedFullStatus,
}

impl Show {
    /// How the bytes of an answer of some kind are shown. None if a word names no kind that a disk of the
    /// profile has.
    pub fn of_word(profile: Profile, word: &str) -> Option<Show>
        ensures { result ≡ show_named profile show_kinds word.now }
    {
        Some(match word {
            "inq" => Show::Inquiry,
            "vpd" => Show::Vpd,
            "modes6" => Show::Modes6,
            "modes10" => Show::Modes10,
            "lba" => Show::LbaStatus,
            "keys" => Show::Keys,
            "resv" => Show::Reservation,
            "caps" => Show::Capabilities,
            "full" => Show::FullStatus,
            "sense" => Show::Sense,
            _ => return Show::of_other_word(profile, word),
        })
    }

    /// The same for the kinds that a base disk does not have.
    fn of_other_word(profile: Profile, word: &str) -> Option<Show>
        ensures { result ≡ show_named profile extended_kinds word.now }
    {
        match profile {
            Profile::Base => None,
            Profile::Extended => Show::of_extended_word(word),
        }
    }

    fn of_extended_word(word: &str) -> Option<Show>
        ensures { result ≡ show_named Profile.Extended extended_kinds word.now }
    {
        Some(match word {
            "luns" => Show::Luns,
            "opcodes" => Show::AllCommands,
            "opcode" => Show::OneCommand,
            "tmf" => Show::TaskManagement,
            "log" => Show::LogPage,
            "readcap10" => Show::Capacity10,
            "readcap16" => Show::Capacity16,
            "defects10" => Show::Defects10,
            "defects12" => Show::Defects12,
            _ => return None,
        })
    }

    /// How a disk of a profile shows what is shown so on a base disk: an extended disk shows more fields
    /// of INQUIRY data, pages of vital product data, sense data, capabilities and full status.
    pub fn in_profile(self, profile: Profile) -> Show
        ensures { result ≡ shown_in profile self }
    {
        match (profile, self) {
            (Profile::Extended, Show::Inquiry) => Show::ExtendedInquiry,
            (Profile::Extended, Show::Vpd) => Show::ExtendedVpd,
            (Profile::Extended, Show::Sense) => Show::ExtendedSense,
            (Profile::Extended, Show::Capabilities) => Show::ExtendedCapabilities,
            (Profile::Extended, Show::FullStatus) => Show::ExtendedFullStatus,
            (_, show) => show,
        }
    }
}
