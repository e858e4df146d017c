// Pages that only a disk of the extended profile has: Extended INQUIRY Data, Mode Page Policy, SCSI
// Ports and Block Device Characteristics.
ghost use Rattle.std.specs.Prelude.{◌≡◌};
ghost use Rattle.sg_pages.specs.ExtendedPages.{block_device_characteristics, extended_inquiry_data};
ghost use Rattle.sg_pages.specs.ExtendedPages.{mode_page_policy, scsi_ports};

/// The task attributes HEAD OF QUEUE, ORDERED and SIMPLE are supported (HEADSUP, ORDSUP, SIMPSUP).
const TASK_ATTRIBUTES: u8 = 0x04 | 0x02 | 0x01;

/// WRITE LONG has WR_UNCOR and COR_DIS (WU_SUP, CRD_SUP), and a volatile cache is supported (V_SUP).
const WU_SUP_CRD_SUP_AND_V_SUP: u8 = 0x08 | 0x04 | 0x01;

/// REPORTED LUNS DATA HAS CHANGED is cleared for all logical units at once.
const LUICLR: u8 = 0x01;

/// FUA and SYNCHRONIZE CACHE are as in SBC-3 (FUAB), and a verification may compare blocks that are
/// not mapped (VBULS).
const FUAB_AND_VBULS: u8 = 0x02 | 0x01;

/// After a BLOCK ERASE and after a CRYPTOGRAPHIC ERASE, a block is read without an error (WABEREQ and
/// WACEREQ 01b).
const WABEREQ_AND_WACEREQ: u8 = 0x40 | 0x10;

/// The content of Extended INQUIRY Data: fields that are not named here are zero.
#[tactic(auto, unfolding(crate::specs::ExtendedPages::extended_inquiry_data))]
pub(crate) fn extended_inquiry_data() -> [u8; 60]
    ensures { result ≡ extended_inquiry_data }
{
    let mut bytes = [0; 60];
    bytes[1] = TASK_ATTRIBUTES;
    bytes[2] = WU_SUP_CRD_SUP_AND_V_SUP;
    bytes[3] = LUICLR;
    bytes
}

/// The content of Mode Page Policy: all initiators share all pages and subpages.
#[tactic(auto, unfolding(crate::specs::ExtendedPages::mode_page_policy))]
pub(crate) fn mode_page_policy() -> [u8; 4]
    ensures { result ≡ mode_page_policy }
{
    [0x3F, 0xFF, 0, 0]
}

/// The content of SCSI Ports: one port, RELATIVE PORT IDENTIFIER 1, without names.
#[tactic(auto, unfolding(crate::specs::ExtendedPages::scsi_ports))]
pub(crate) fn scsi_ports() -> [u8; 12]
    ensures { result ≡ scsi_ports }
{
    let mut bytes = [0; 12];
    bytes[3] = 1;
    bytes
}

/// The content of Block Device Characteristics: fields that are not named here are zero.
#[tactic(auto, unfolding(crate::specs::ExtendedPages::block_device_characteristics))]
pub(crate) fn block_device_characteristics() -> [u8; 60]
    ensures { result ≡ block_device_characteristics }
{
    let mut bytes = [0; 60];
    // MEDIUM ROTATION RATE: the medium does not rotate
    bytes[1] = 1;
    bytes[3] = WABEREQ_AND_WACEREQ;
    bytes[4] = FUAB_AND_VBULS;
    bytes
}
