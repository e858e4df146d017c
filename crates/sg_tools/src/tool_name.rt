// The tools, by their names in sg3_utils(8).
ghost use Rattle.std.specs.Prelude.{◌≡◌, find};
ghost use Rattle.std.specs.Str.{bytes_eq};
ghost use Rattle.sg_tools.specs.ToolNames.{each_tool, name_of, row_of, tool_named};

use sg_wire::Profile;

/// A tool of sg3_utils(8).
#[derive(Clone, Copy, Debug, PartialEq, Eq)]
pub enum ToolName {
    /// sg_inq sends INQUIRY for the standard INQUIRY data or a page of vital product data.
    SgInq,
    /// sg_vpd sends INQUIRY for a page of vital product data.
    SgVpd,
    /// sg_modes sends MODE SENSE.
    SgModes,
    /// sg_unmap sends UNMAP.
    SgUnmap,
    /// sg_get_lba_status sends GET LBA STATUS.
    SgGetLbaStatus,
    /// sg_persist sends PERSISTENT RESERVE IN or PERSISTENT RESERVE OUT.
    SgPersist,
    /// sg_turs sends TEST UNIT READY.
    SgTurs,
    /// sg_requests sends REQUEST SENSE.
    SgRequests,
    /// sg_luns sends REPORT LUNS.
    SgLuns,
    /// sg_opcodes sends REPORT SUPPORTED OPERATION CODES, or REPORT SUPPORTED TASK MANAGEMENT
    /// FUNCTIONS.
    SgOpcodes,
    /// sg_logs sends LOG SENSE.
    SgLogs,
    /// sg_readcap sends READ CAPACITY.
    SgReadcap,
    /// sg_sync sends SYNCHRONIZE CACHE.
    SgSync,
    /// sg_verify sends VERIFY.
    SgVerify,
    /// sg_compare_and_write sends COMPARE AND WRITE.
    SgCompareAndWrite,
    /// sg_write_same sends WRITE SAME.
    SgWriteSame,
    /// sg_start sends START STOP UNIT.
    SgStart,
}

impl ToolName {
    /// The tool that has a word as its name, in a script for a disk of a profile. None if no tool of
    /// the profile has this name.
    pub fn of_word(profile: Profile, word: &str) -> Option<ToolName>
        ensures { result ≡ tool_named profile word.now }
    {
        let tool = ToolName::with_name(word)?;
        if profile.has(tool.profile()) {
            Some(tool)
        } else {
            None
        }
    }

    /// The tool with a name, of any profile.
    fn with_name(word: &str) -> Option<ToolName>
        ensures { result ≡ find (λ tool. bytes_eq word.now (name_of tool)) each_tool }
    {
        Some(match word {
            "sg_inq" => ToolName::SgInq,
            "sg_vpd" => ToolName::SgVpd,
            "sg_modes" => ToolName::SgModes,
            "sg_unmap" => ToolName::SgUnmap,
            "sg_get_lba_status" => ToolName::SgGetLbaStatus,
            "sg_persist" => ToolName::SgPersist,
            "sg_turs" => ToolName::SgTurs,
            "sg_requests" => ToolName::SgRequests,
            "sg_luns" => ToolName::SgLuns,
            "sg_opcodes" => ToolName::SgOpcodes,
            "sg_logs" => ToolName::SgLogs,
            "sg_readcap" => ToolName::SgReadcap,
            "sg_sync" => ToolName::SgSync,
            "sg_verify" => ToolName::SgVerify,
            "sg_compare_and_write" => ToolName::SgCompareAndWrite,
            "sg_write_same" => ToolName::SgWriteSame,
            "sg_start" => ToolName::SgStart,
            _ => return None,
        })
    }

    /// The profile that it belongs to.
    fn profile(self) -> Profile
        ensures { result ≡ (row_of self).profile }
    {
        match self {
            ToolName::SgInq
            | ToolName::SgVpd
            | ToolName::SgModes
            | ToolName::SgUnmap
            | ToolName::SgGetLbaStatus
            | ToolName::SgPersist => Profile::Base,
            ToolName::SgTurs
            | ToolName::SgRequests
            | ToolName::SgLuns
            | ToolName::SgOpcodes
            | ToolName::SgLogs
            | ToolName::SgReadcap
            | ToolName::SgSync
            | ToolName::SgVerify
            | ToolName::SgCompareAndWrite
            | ToolName::SgWriteSame
            | ToolName::SgStart => Profile::Extended,
        }
    }

    /// Its name.
    pub(crate) fn name(self) -> &'static str
        ensures { result.now ≡ name_of self }
    {
        match self {
            ToolName::SgInq => "sg_inq",
            ToolName::SgVpd => "sg_vpd",
            ToolName::SgModes => "sg_modes",
            ToolName::SgUnmap => "sg_unmap",
            ToolName::SgGetLbaStatus => "sg_get_lba_status",
            ToolName::SgPersist => "sg_persist",
            ToolName::SgTurs => "sg_turs",
            ToolName::SgRequests => "sg_requests",
            ToolName::SgLuns => "sg_luns",
            ToolName::SgOpcodes => "sg_opcodes",
            ToolName::SgLogs => "sg_logs",
            ToolName::SgReadcap => "sg_readcap",
            ToolName::SgSync => "sg_sync",
            ToolName::SgVerify => "sg_verify",
            ToolName::SgCompareAndWrite => "sg_compare_and_write",
            ToolName::SgWriteSame => "sg_write_same",
            ToolName::SgStart => "sg_start",
        }
    }
}
