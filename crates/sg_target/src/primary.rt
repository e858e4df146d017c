// REQUEST SENSE and INQUIRY (SPC-4, 6). TEST UNIT READY has nothing to check or to do.
ghost use Rattle.std.specs.Prelude.{◌≡◌, ◌≤◌, [], length, min};
ghost use Rattle.sg_wire.specs.Cut.{Puts};
ghost use Rattle.sg_wire.specs.FirstBytes.{first_bytes};
ghost use Rattle.sg_target.specs.Checks.{requested};
ghost use Rattle.sg_target.specs.DataInBound.{longest_inquiry, longest_sense};
ghost use Rattle.sg_target.specs.Demands.{inquiry};
ghost use Rattle.sg_target.specs.Effect.{without_attention};
ghost use Rattle.sg_target.specs.PrimaryCommands.{format_of, inquiry_data, inquiry_page};
ghost use Rattle.sg_target.specs.PrimaryCommands.{returning_sense};
ghost use Rattle.sg_target.specs.MadeReplies.{ReturnsData};

use crate::config::Config;
use crate::data_in::DataIn;
use crate::operation::Operation;
use crate::refusal::{Reason, Refusal};
use crate::reply::{Reply, format_of};
use crate::target::Target;
use sg_pages::{Identity, LONGEST_VPD_PAGE, VpdPage, write_standard_inquiry, write_vpd_page};
use sg_store::Store;
use sg_wire::{Cut, Format, Initiator, Inquiry, Profile, RequestSense};

// ---- REQUEST SENSE

/// The length of the longest data of REQUEST SENSE, in bytes: fixed format (SPC-4, 4.5.3).
pub(crate) const LONGEST_SENSE_DATA: usize = 18;

pub(crate) fn check_request_sense(fields: RequestSense) -> Operation<'static>
    ensures { result ≡ Operation.ReturnSense (format_of fields.desc) fields.allocation_length }
{
    Operation::ReturnSense {
        format: format_of(fields.desc),
        allocation_length: fields.allocation_length,
    }
}

impl<S: Store> Target<S> {
    /// Returns the oldest unit attention as sense data, and clears it. Without one, it returns whether
    /// the unit is stopped.
    pub(crate) fn return_sense(
        &mut self,
        initiator: Initiator,
        format: Format,
        allocation_length: u8,
        buf: &mut [u8],
    ) -> Reply
        requires { min longest_sense allocation_length ≤ length buf.old }
        ensures reply { let done = returning_sense self.old.state initiator format allocation_length in
            ReturnsData (first_bytes allocation_length done.data_in) result buf.old buf.new }
        ensures state { self.new.state ≡ without_attention self.old.state initiator }
        ensures faults { self.new.faults ≡ self.old.faults }
        ensures meter { self.new.meter ≡ self.old.meter }
    {
        let condition = self.attentions.oldest(initiator);
        self.attentions.clear_oldest(initiator);
        let sense = DataIn::Sense {
            stopped: self.stopped,
            condition,
            format,
        };
        self.return_data(sense, usize::from(allocation_length), buf)
    }
}

// ---- INQUIRY

/// The length of the longest data of INQUIRY, in bytes: a page of a disk of the extended profile. The
/// standard INQUIRY data is shorter.
pub(crate) const LONGEST_INQUIRY_DATA: usize = LONGEST_VPD_PAGE;

/// Where PAGE CODE is in the CDB.
const PAGE_CODE_BYTE: u16 = 2;

/// The data that INQUIRY returns (SPC-4, 6.6).
#[derive(Clone, Copy)]
pub enum InquiryPage {
    /// The standard INQUIRY data.
    Standard,
    /// A page of vital product data.
    VitalProductData(VpdPage),
}

impl InquiryPage {
    /// The page that EVPD and PAGE CODE name, if a disk of the profile has such a page.
    fn named(profile: Profile, evpd: bool, page_code: u8) -> Option<InquiryPage>
        ensures { result ≡ inquiry_page profile evpd page_code }
    {
        if evpd {
            let page = VpdPage::with_code(profile, page_code)?;
            return Some(InquiryPage::VitalProductData(page));
        }
        match page_code {
            0 => Some(InquiryPage::Standard),
            _ => None,
        }
    }

    /// Writes the data, whole.
    pub(crate) fn write(self, identity: &Identity, capacity: u64, cut: &mut Cut)
        ensures data { Puts cut.old cut.new (inquiry_data identity.now capacity self) }
        ensures at_most { length (inquiry_data identity.now capacity self) ≤ longest_inquiry }
    {
        match self {
            InquiryPage::Standard => write_standard_inquiry(identity, cut),
            InquiryPage::VitalProductData(page) => write_vpd_page(page, identity, capacity, cut),
        }
    }
}

#[inline(always)]
pub(crate) fn check_inquiry(config: &Config, fields: Inquiry) -> Result<Operation<'static>, Refusal>
    ensures { result ≡ requested (inquiry config.now fields) [] }
{
    let profile = config.identity().profile();
    match InquiryPage::named(profile, fields.evpd, fields.page_code) {
        Some(page) => Ok(Operation::ReturnInquiry {
            page,
            allocation_length: fields.allocation_length,
        }),
        None => Err(Refusal::CheckCondition(Reason::InvalidFieldInCdb {
            byte: PAGE_CODE_BYTE,
        })),
    }
}
