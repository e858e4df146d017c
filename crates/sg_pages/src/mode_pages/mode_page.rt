// The mode pages of the disk, by their first bytes, and the bytes of each after its header.
ghost use Rattle.std.specs.Prelude.{◌≡◌, ◌<◌, ◌≤◌, length};
ghost use Rattle.sg_pages.specs.ModePage.{changeable_bits, code_of, default_values, first_byte};
ghost use Rattle.sg_pages.specs.ModePage.{has_page, page_header, page_length};
ghost use Rattle.sg_pages.specs.ModePage.{page_with, row_of, subpage_of, values_of};
ghost use Rattle.sg_pages.specs.ModeSelect.{ignored_page_header_bits};
ghost use Rattle.sg_pages.specs.SentValues.{with_values};

use super::multi_byte_field::MultiByteField;
use sg_wire::Profile;

/// A mode page that the disk has (SPC-4, 7.5; SBC-3, 6.4), with SPF and PAGE CODE: the first byte of the
/// page without PS.
#[derive(Clone, Copy)]
pub enum ModePage {
    /// Read-Write Error Recovery: AWRE, ARRE, READ RETRY COUNT and WRITE RETRY COUNT.
    ReadWriteErrorRecovery = 0x01,
    /// Caching: WCE.
    Caching = 0x08,
    /// Control: D_SENSE and SWP.
    Control = 0x0A,
    /// Informational Exceptions Control: DEXCPT.
    InformationalExceptionsControl = 0x1C,
    /// Logical Block Provisioning, subpage 02h of page 1Ch: thresholds. Only an extended disk has it.
    LogicalBlockProvisioning = 0x5C,
}

impl ModePage {
    /// In ascending order of their codes.
    pub(super) const ALL: [ModePage; 5] = [
        ModePage::ReadWriteErrorRecovery,
        ModePage::Caching,
        ModePage::Control,
        ModePage::InformationalExceptionsControl,
        ModePage::LogicalBlockProvisioning,
    ];

    /// The page of a disk of the profile with SPF and PAGE CODE in its first byte, which is given
    /// without PS. None if the disk has no such page.
    pub fn with_first_byte(profile: Profile, first: u8) -> Option<ModePage>
        ensures { result ≡ page_with profile first }
    {
        ModePage::ALL
            .iter()
            .copied()
            .filter(|page| page.is_of(profile))
            .find(|page| page.first_byte() == first)
    }

    /// SPF and PAGE CODE.
    pub fn first_byte(self) -> u8
        ensures { result ≡ first_byte self }
    {
        self as u8
    }

    /// PAGE CODE.
    pub fn code(self) -> u8
        ensures { result ≡ code_of self }
    {
        self as u8 & PAGE_CODE
    }

    /// SUBPAGE CODE, 00h for a page that has no such field.
    pub fn subpage_code(self) -> u8
        ensures { result ≡ subpage_of self }
    {
        match self {
            ModePage::LogicalBlockProvisioning => 0x02,
            _ => 0x00,
        }
    }

    /// Whether disks of the profile have the page.
    pub fn is_of(self, profile: Profile) -> bool
        ensures { result ≡ has_page profile self }
    {
        match self {
            ModePage::LogicalBlockProvisioning => profile == Profile::Extended,
            _ => true,
        }
    }

    /// The header: PS with SPF and PAGE CODE; SUBPAGE CODE, if SPF is 1; PAGE LENGTH.
    pub(super) fn header(self) -> &'static [u8]
        ensures { result.now ≡ page_header self }
    {
        match self {
            ModePage::ReadWriteErrorRecovery => &ERROR_RECOVERY_HEADER,
            ModePage::Caching => &CACHING_HEADER,
            ModePage::Control => &CONTROL_HEADER,
            ModePage::InformationalExceptionsControl => &EXCEPTIONS_HEADER,
            ModePage::LogicalBlockProvisioning => &PROVISIONING_HEADER,
        }
    }

    /// The bits of the header that MODE SELECT ignores.
    pub(super) fn ignored_in_header(self) -> &'static [u8]
        ensures { result.now ≡ ignored_page_header_bits self }
    {
        match self {
            ModePage::LogicalBlockProvisioning => &IGNORED_IN_LONG_HEADER,
            _ => &IGNORED_IN_SHORT_HEADER,
        }
    }

    /// The page's fields of more than one byte.
    pub(super) fn multi_byte_fields(self) -> &'static [MultiByteField]
        ensures { result.now ≡ (row_of self).fields }
    {
        match self {
            ModePage::ReadWriteErrorRecovery => &ERROR_RECOVERY_FIELDS,
            ModePage::Caching => &CACHING_FIELDS,
            ModePage::Control => &CONTROL_FIELDS,
            ModePage::InformationalExceptionsControl => &EXCEPTIONS_FIELDS,
            ModePage::LogicalBlockProvisioning => &PROVISIONING_FIELDS,
        }
    }
}

/// The bits of PAGE CODE in the first byte of a page.
const PAGE_CODE: u8 = 0x3F;

/// The bits of SPF and PAGE CODE.
pub(super) const SPF_AND_PAGE_CODE: u8 = 0x7F;

static ERROR_RECOVERY_HEADER: [u8; 2] = [0x81, 0x0A];

static CACHING_HEADER: [u8; 2] = [0x88, 0x12];

static CONTROL_HEADER: [u8; 2] = [0x8A, 0x0A];

static EXCEPTIONS_HEADER: [u8; 2] = [0x9C, 0x0A];

static PROVISIONING_HEADER: [u8; 4] = [0xDC, 0x02, 0x00, 0x1C];

static IGNORED_IN_SHORT_HEADER: [u8; 2] = [PS, 0x00];

static IGNORED_IN_LONG_HEADER: [u8; 4] = [PS, 0x00, 0x00, 0x00];

/// RECOVERY TIME LIMIT (SBC-3, 6.4).
static ERROR_RECOVERY_FIELDS: [MultiByteField; 1] = [MultiByteField { first: 10, size: 2 }];

/// DISABLE PRE-FETCH TRANSFER LENGTH, MINIMUM PRE-FETCH, MAXIMUM PRE-FETCH, MAXIMUM PRE-FETCH
/// CEILING, CACHE SEGMENT SIZE, and an obsolete field (SBC-3, 6.4).
static CACHING_FIELDS: [MultiByteField; 6] = [
    MultiByteField { first: 4, size: 2 },
    MultiByteField { first: 6, size: 2 },
    MultiByteField { first: 8, size: 2 },
    MultiByteField { first: 10, size: 2 },
    MultiByteField { first: 14, size: 2 },
    MultiByteField { first: 17, size: 3 },
];

/// An obsolete field, BUSY TIMEOUT PERIOD and EXTENDED SELF-TEST COMPLETION TIME (SPC-4, 7.5).
static CONTROL_FIELDS: [MultiByteField; 3] = [
    MultiByteField { first: 6, size: 2 },
    MultiByteField { first: 8, size: 2 },
    MultiByteField { first: 10, size: 2 },
];

/// INTERVAL TIMER and REPORT COUNT (SPC-4, 7.5).
static EXCEPTIONS_FIELDS: [MultiByteField; 2] = [
    MultiByteField { first: 4, size: 4 },
    MultiByteField { first: 8, size: 4 },
];

/// PAGE LENGTH, and THRESHOLD COUNT of each threshold descriptor (SBC-3, 6.4).
static PROVISIONING_FIELDS: [MultiByteField; 3] = [
    MultiByteField { first: 2, size: 2 },
    MultiByteField { first: 20, size: 4 },
    MultiByteField { first: 28, size: 4 },
];

/// The bytes of each mode page after its header.
#[derive(Clone, Copy, PartialEq, Eq)]
pub struct PageValues {
    /// Page 01h. Byte 2: AWRE (bit 7) and ARRE (bit 6). Byte 3: READ RETRY COUNT. Byte 7: LBPERE
    /// (bit 7). Byte 8: WRITE RETRY COUNT.
    pub error_recovery: [u8; 10],
    /// Page 08h. Byte 2: WCE (bit 2).
    pub caching: [u8; 18],
    /// Page 0Ah. Byte 2: D_SENSE (bit 2). Byte 4: SWP (bit 3).
    pub control: [u8; 10],
    /// Page 1Ch. Byte 2: DEXCPT (bit 3).
    pub exceptions_control: [u8; 10],
    /// Page 1Ch/02h. Byte 4: SITUA (bit 0). Bytes 16 and 24 on: a threshold descriptor each, with
    /// ENABLED (bit 7), THRESHOLD TYPE, THRESHOLD ARMING, THRESHOLD RESOURCE and THRESHOLD COUNT.
    pub provisioning: [u8; 28],
}

/// PS, a bit of a page's first byte: the page can be saved. MODE SELECT ignores it.
pub(super) const PS: u8 = 0x80;

/// WCE, a bit of byte 2 of page 08h.
pub(super) const WCE: u8 = 0x04;

/// Bits of page 0Ah: D_SENSE is in byte 2, and SWP in byte 4.
pub(super) const D_SENSE: u8 = 0x04;

pub(super) const SWP: u8 = 0x08;

/// LBPERE, a bit of byte 7 of page 01h.
pub(super) const LBPERE: u8 = 0x80;

/// Bits of page 1Ch/02h: SITUA is in byte 4, and ENABLED in the first byte of a threshold descriptor.
pub(super) const SITUA: u8 = 0x01;

pub(super) const ENABLED: u8 = 0x80;

/// The default values on a disk of a profile.
#[tactic(auto, unfolding(crate::specs::ModePage::default_values))]
pub(super) fn default_values(profile: Profile) -> &'static PageValues
    ensures { result.now ≡ default_values profile }
{
    match profile {
        Profile::Base => &BASE_DEFAULTS,
        Profile::Extended => &EXTENDED_DEFAULTS,
    }
}

static BASE_DEFAULTS: PageValues = PageValues {
    error_recovery: [0xC0, 0x08, 0, 0, 0, 0, 0x08, 0, 0, 0],
    caching: [WCE, 0, 0, 0, 0, 0, 0, 0, 0, 0, 0, 0, 0, 0, 0, 0, 0, 0],
    control: [0; 10],
    exceptions_control: [0x08, 0, 0, 0, 0, 0, 0, 0, 0, 0],
    provisioning: [
        0, 0, 0, 0, 0, 0, 0, 0, 0, 0, 0, 0, 0, 0x01, 0, 0, 0, 0, 0, 0, 0x01, 0x02, 0, 0, 0, 0, 0, 0,
    ],
};

static EXTENDED_DEFAULTS: PageValues = PageValues {
    error_recovery: [0xC0, 0x08, 0, 0, 0, LBPERE, 0x08, 0, 0, 0],
    ..BASE_DEFAULTS
};

/// The bits that MODE SELECT may change on a disk of a profile.
pub(super) fn changeable_bits(profile: Profile) -> &'static PageValues
    ensures { result.now ≡ changeable_bits profile }
{
    match profile {
        Profile::Base => &BASE_CHANGEABLE,
        Profile::Extended => &EXTENDED_CHANGEABLE,
    }
}

static BASE_CHANGEABLE: PageValues = PageValues {
    error_recovery: [0xC0, 0xFF, 0, 0, 0, 0, 0xFF, 0, 0, 0],
    caching: [WCE, 0, 0, 0, 0, 0, 0, 0, 0, 0, 0, 0, 0, 0, 0, 0, 0, 0],
    control: [D_SENSE, 0, SWP, 0, 0, 0, 0, 0, 0, 0],
    exceptions_control: [0; 10],
    provisioning: [
        SITUA, 0, 0, 0, 0, 0, 0, 0, 0, 0, 0, 0, ENABLED, 0, 0, 0, 0xFF, 0xFF, 0xFF, 0xFF, ENABLED,
        0, 0, 0, 0xFF, 0xFF, 0xFF, 0xFF,
    ],
};

static EXTENDED_CHANGEABLE: PageValues = PageValues {
    error_recovery: [0xC0, 0xFF, 0, 0, 0, LBPERE, 0xFF, 0, 0, 0],
    ..BASE_CHANGEABLE
};

impl PageValues {
    pub(super) fn of(&self, page: ModePage) -> &[u8]
        ensures values { result.now ≡ values_of self.now page }
        ensures length { length result.now ≡ page_length page }
        ensures bound { length result.now ≤ 28 }
    {
        match page {
            ModePage::ReadWriteErrorRecovery => &self.error_recovery,
            ModePage::Caching => &self.caching,
            ModePage::Control => &self.control,
            ModePage::InformationalExceptionsControl => &self.exceptions_control,
            ModePage::LogicalBlockProvisioning => &self.provisioning,
        }
    }

    pub(super) fn set(&mut self, page: ModePage, bytes: &[u8])
        requires { length bytes.now ≡ page_length page }
        ensures { self.new ≡ with_values self.old page bytes.now }
    {
        match page {
            ModePage::ReadWriteErrorRecovery => self.error_recovery.copy_from_slice(bytes),
            ModePage::Caching => self.caching.copy_from_slice(bytes),
            ModePage::Control => self.control.copy_from_slice(bytes),
            ModePage::InformationalExceptionsControl => {
                self.exceptions_control.copy_from_slice(bytes);
            }
            ModePage::LogicalBlockProvisioning => self.provisioning.copy_from_slice(bytes),
        }
    }
}
