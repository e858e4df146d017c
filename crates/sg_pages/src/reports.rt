// What a disk reports about itself. Each report is put whole: the `Cut` knows the allocation length.
ghost use Rattle.std.specs.Prelude.{◌≡◌, ◌≤◌, false, length, nat_lt};
ghost use Rattle.std.specs.Option.{option_map_or};
ghost use Rattle.sg_wire.specs.Cut.{Puts};
ghost use Rattle.sg_pages.specs.Reports.{extended_header_asked, last_parameter, lists_unit, log_page_data};
ghost use Rattle.sg_pages.specs.Reports.{log_page_with, longest_report, report_data};

use super::provisioning_pages::{MappingResources, USED, write_provisioning_page};
use sg_copy::write_operating_parameters;
use sg_wire::{Cut, LONGEST_SUPPORT_REPORT, MAXIMUM_TRANSFER_LENGTH, Profile, SupportReport};

/// The length of the longest report, in bytes.
pub const LONGEST_REPORT: usize = LONGEST_SUPPORT_REPORT;

/// PARAMETER CODE of the one parameter of Informational Exceptions (SPC-4, 7.3).
const EXCEPTIONS: u16 = 0x0000;

/// A page of LOG SENSE (SPC-4, 7.3).
#[derive(Clone, Copy)]
pub enum LogPage {
    /// Supported Log Pages, page 00h.
    SupportedPages,
    /// Supported Log Pages and Subpages, page 00h and subpage FFh.
    SupportedSubpages,
    /// Logical Block Provisioning, page 0Ch (SBC-3, log parameters).
    LogicalBlockProvisioning,
    /// Informational Exceptions, page 2Fh.
    InformationalExceptions,
}

impl LogPage {
    /// The page with a page code and a subpage code, if it has a parameter from a pointer on.
    ///
    /// # Errors
    /// The byte of the CDB of LOG SENSE that names no page: 2, PAGE CODE, or 3, SUBPAGE CODE. Or 5, where
    /// PARAMETER POINTER begins, if it is past the last parameter of the page.
    pub fn with_code(page_code: u8, subpage_code: u8, pointer: u16) -> Result<LogPage, u16>
        ensures { result ≡ log_page_with page_code subpage_code pointer }
    {
        let page = match (page_code, subpage_code) {
            (0x00, 0x00) => LogPage::SupportedPages,
            (0x00, 0xFF) => LogPage::SupportedSubpages,
            (0x0C, 0x00) => LogPage::LogicalBlockProvisioning,
            (0x2F, 0x00) => LogPage::InformationalExceptions,
            (0x00 | 0x0C | 0x2F, _) => return Err(3),
            _ => return Err(2),
        };
        if page.ends_before(pointer) {
            return Err(5);
        }
        Ok(page)
    }

    /// Each parameter of the page has a code below a pointer. The lists of pages have no parameters.
    fn ends_before(self, pointer: u16) -> bool
        ensures { result ≡ option_map_or (λ last. nat_lt last pointer) (last_parameter self) false }
    {
        match self {
            LogPage::SupportedPages | LogPage::SupportedSubpages => false,
            LogPage::LogicalBlockProvisioning => USED < pointer,
            LogPage::InformationalExceptions => EXCEPTIONS < pointer,
        }
    }

    /// Writes the page of a disk of a profile with a pool, with the parameters from a pointer on.
    #[tactic(auto, unfolding(crate::specs::Reports::log_page_data))]
    fn write(self, profile: Profile, pool: MappingResources, pointer: u16, cut: &mut Cut)
        ensures data { Puts cut.old cut.new (log_page_data profile pool pointer self) }
        ensures at_most { length (log_page_data profile pool pointer self) ≤ longest_report }
    {
        match self {
            LogPage::SupportedPages => cut.put(&[0x00, 0x00, 0, 3, 0x00, 0x0C, 0x2F]),
            LogPage::SupportedSubpages => {
                cut.put(&[
                    0x40, 0xFF, 0, 8, 0x00, 0x00, 0x00, 0xFF, 0x0C, 0x00, 0x2F, 0x00,
                ]);
            }
            LogPage::LogicalBlockProvisioning => {
                write_provisioning_page(profile, pool, pointer, cut);
            }
            LogPage::InformationalExceptions if pointer <= EXCEPTIONS => {
                cut.put(&[0xAF, 0x00, 0, 7, 0, 0, 0x03, 3, 0, 0, 0xFF]);
            }
            LogPage::InformationalExceptions => cut.put(&[0xAF, 0x00, 0, 0]),
        }
    }
}

/// A report of the disk about itself.
#[derive(Clone, Copy)]
pub enum Report {
    /// The logical units of REPORT LUNS: the disk's own, if it is asked for (SPC-4, 6.33).
    LogicalUnits(bool),
    /// What REPORT SUPPORTED OPERATION CODES returns (SPC-4, 6.35).
    Commands(SupportReport),
    /// The functions of REPORT SUPPORTED TASK MANAGEMENT FUNCTIONS, and whether timeouts are asked for
    /// (SPC-4, 6.36).
    TaskManagementFunctions(bool),
    /// The groups of REPORT TARGET PORT GROUPS, and whether the extended header is asked for (SPC-4, 6.37).
    TargetPortGroups(bool),
    /// The limits of copies, as RECEIVE COPY OPERATING PARAMETERS returns them (SPC-4, 6.23).
    CopyParameters,
    /// A page of LOG SENSE, and the code of the first parameter that is asked for (SPC-4, 6.8).
    Log(LogPage, u16),
    /// The lists of READ DEFECT DATA(10), by their byte of the CDB (SBC-3, 5.17).
    DefectLists10(u8),
    /// The lists of READ DEFECT DATA(12), by their byte of the CDB (SBC-3, 5.18).
    DefectLists12(u8),
}

impl Report {
    /// The logical units that SELECT REPORT asks for (SPC-4, 6.33). None if it has another value.
    pub fn units(select_report: u8) -> Option<bool>
        ensures { result ≡ lists_unit select_report }
    {
        match select_report {
            0x00 | 0x02 => Some(true),
            0x01 => Some(false),
            _ => None,
        }
    }

    /// The header that PARAMETER DATA FORMAT asks for: the extended one, or the one with only the length
    /// (SPC-4, 6.37). None if it has another value.
    pub fn extended_header(format: u8) -> Option<bool>
        ensures { result ≡ extended_header_asked format }
    {
        match format {
            0 => Some(false),
            1 => Some(true),
            _ => None,
        }
    }

    /// Writes the report of a disk of a profile with a pool.
    #[tactic(auto, unfolding(crate::specs::Reports::report_data))]
    pub fn write(self, profile: Profile, pool: MappingResources, cut: &mut Cut)
        ensures data { Puts cut.old cut.new (report_data profile pool self) }
        ensures at_most { length (report_data profile pool self) ≤ longest_report }
    {
        match self {
            Report::LogicalUnits(true) => cut.put(&[
                0, 0, 0, 8, 0, 0, 0, 0, 0, 0, 0, 0, 0, 0, 0, 0,
            ]),
            Report::LogicalUnits(false) => cut.put(&[0, 0, 0, 0, 0, 0, 0, 0]),
            Report::Commands(report) => report.write(profile, cut),
            Report::TaskManagementFunctions(true) => {
                cut.put(&[0xD8, 0, 0, 0x0C, 0, 0, 0, 0, 0, 0, 0, 0, 0, 0, 0, 0]);
            }
            Report::TaskManagementFunctions(false) => cut.put(&[0xD8, 0, 0, 0]),
            Report::TargetPortGroups(true) => cut.put(&[
                0, 0, 0, 0x10, 0x10, 0, 0, 0, 0, 0x01, 0, 1, 0, 0, 0, 1, 0, 0, 0, 1,
            ]),
            Report::TargetPortGroups(false) => {
                cut.put(&[0, 0, 0, 0x0C, 0, 0x01, 0, 1, 0, 0, 0, 1, 0, 0, 0, 1]);
            }
            Report::CopyParameters => {
                write_operating_parameters(MAXIMUM_TRANSFER_LENGTH as u16, cut);
            }
            Report::Log(page, pointer) => page.write(profile, pool, pointer, cut),
            Report::DefectLists10(lists) => cut.put(&[0, lists, 0, 0]),
            Report::DefectLists12(lists) => cut.put(&[0, lists, 0, 0, 0, 0, 0, 0]),
        }
    }
}
