// Fields at the front of bytes. Each function returns a field's value, and the bytes after the
// field.
ghost use Rattle.std.specs.Prelude.{◌≡◌};
ghost use Rattle.sg_changes.specs.ExtentFormat.{extent};
ghost use Rattle.sg_changes.specs.Format.{bytes_at, flag, number_at};
ghost use Rattle.sg_changes.specs.Reading.{Gives};
ghost use Rattle.sg_changes.specs.Records.{pages};

use byteorder::{BigEndian, ByteOrder};
use sg_pages::PageValues;
use sg_wire::Extent;

/// `count` bytes as they are.
#[tactic(auto, unfolding(crate::specs::Format::bytes_at))]
pub(crate) fn bytes_at(bytes: &[u8], count: usize) -> Option<(&[u8], &[u8])>
    ensures { Gives (λ f. (f.0.now, f.1.now)) result (bytes_at count bytes.now) }
{
    if bytes.len() < count {
        return None;
    }
    Some(bytes.split_at(count))
}

/// As many bytes as an array has.
#[tactic(auto, unfolding(crate::specs::Format::bytes_at))]
pub(crate) fn array_at<const N: usize>(bytes: &[u8]) -> Option<(&[u8; N], &[u8])>
    ensures { Gives (λ f. (f.0.now, f.1.now)) result (bytes_at N bytes.now) }
{
    bytes.split_first_chunk()
}

#[tactic(auto, unfolding(crate::specs::Format::number_at))]
pub(crate) fn u8_at(bytes: &[u8]) -> Option<(u8, &[u8])>
    ensures { Gives (λ f. (f.0, f.1.now)) result (number_at 1 bytes.now) }
{
    let (first, rest) = bytes.split_first()?;
    Some((*first, rest))
}

#[tactic(auto, unfolding(crate::specs::Format::number_at))]
pub(crate) fn u16_at(bytes: &[u8]) -> Option<(u16, &[u8])>
    ensures { Gives (λ f. (f.0, f.1.now)) result (number_at 2 bytes.now) }
{
    if bytes.len() < 2 {
        return None;
    }
    Some((BigEndian::read_u16(bytes), &bytes[2..]))
}

#[tactic(auto, unfolding(crate::specs::Format::number_at))]
pub(crate) fn u32_at(bytes: &[u8]) -> Option<(u32, &[u8])>
    ensures { Gives (λ f. (f.0, f.1.now)) result (number_at 4 bytes.now) }
{
    if bytes.len() < 4 {
        return None;
    }
    Some((BigEndian::read_u32(bytes), &bytes[4..]))
}

#[tactic(auto, unfolding(crate::specs::Format::number_at))]
pub(crate) fn u64_at(bytes: &[u8]) -> Option<(u64, &[u8])>
    ensures { Gives (λ f. (f.0, f.1.now)) result (number_at 8 bytes.now) }
{
    if bytes.len() < 8 {
        return None;
    }
    Some((BigEndian::read_u64(bytes), &bytes[8..]))
}

/// Yes or no: a byte that is 1 or 0.
pub(crate) fn flag_at(bytes: &[u8]) -> Option<(bool, &[u8])>
    ensures { Gives (λ f. (f.0, f.1.now)) result (flag.at bytes.now) }
{
    let (byte, rest) = u8_at(bytes)?;
    match byte {
        0 => Some((false, rest)),
        1 => Some((true, rest)),
        _ => None,
    }
}

/// The first address, and the number of blocks.
#[tactic(auto, unfolding(crate::specs::ExtentFormat::extent))]
pub(crate) fn extent_at(bytes: &[u8]) -> Option<(Extent, &[u8])>
    ensures { Gives (λ f. (f.0, f.1.now)) result (extent.at bytes.now) }
{
    let (lba, rest) = u64_at(bytes)?;
    let (count, rest) = u32_at(rest)?;
    Some((Extent { lba, count }, rest))
}

/// The values of the mode pages.
#[tactic(auto, unfolding(crate::specs::Records::pages))]
pub(crate) fn pages_at(bytes: &[u8]) -> Option<(PageValues, &[u8])>
    ensures { Gives (λ f. (f.0, f.1.now)) result (pages.at bytes.now) }
{
    let (error_recovery, rest) = array_at(bytes)?;
    let (caching, rest) = array_at(rest)?;
    let (control, rest) = array_at(rest)?;
    let (exceptions_control, rest) = array_at(rest)?;
    let (provisioning, rest) = array_at(rest)?;
    let values = PageValues {
        error_recovery: *error_recovery,
        caching: *caching,
        control: *control,
        exceptions_control: *exceptions_control,
        provisioning: *provisioning,
    };
    Some((values, rest))
}
