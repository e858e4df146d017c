// The parameter list of EXTENDED COPY(LID1), read.
ghost use Rattle.std.specs.Prelude.{◌≡◌, ◌≤◌, ◌<◌, ◌+◌, ◌*◌, ◌^◌, ◌++◌, length, Some, None};
ghost use Rattle.std.specs.Prelude.{IfErr, IfOk, IfSome, nat_lt};
ghost use Rattle.sg_copy.specs.CopyList.{block_count, copy_checks, copy_list, cscd_at, cscd_checks};
ghost use Rattle.sg_copy.specs.CopyList.{cscd_count, cscd_id_checks, cscd_length, cscds_length};
ghost use Rattle.sg_copy.specs.CopyList.{destination_id, first_fault, header_checks, header_length};
ghost use Rattle.sg_copy.specs.CopyList.{identifier, identifies, inline_length, length_checks};
ghost use Rattle.sg_copy.specs.CopyList.{list_checks, list_id_usage, maximum_cscds, segment_at};
ghost use Rattle.sg_copy.specs.CopyList.{segment_checks, segment_length, segment_of};
ghost use Rattle.sg_copy.specs.CopyList.{IsPossible, processing_checks, range_checks};
ghost use Rattle.sg_copy.specs.CopyList.{segments_length, source_id};

use crate::fault::{CopyFault, Invalid};
use byteorder::{BigEndian, ByteOrder};

/// The length of the designation descriptor of the unit, in bytes: NAA 6h (SPC-4, 7.8.6.6).
pub const DESIGNATION_LENGTH: usize = 20;

/// The most CSCD descriptors of a list.
pub const MAXIMUM_CSCDS: usize = 2;

/// The most segment descriptors of a list.
pub const MAXIMUM_SEGMENTS: usize = 1;

/// The most bytes of all descriptors of a list together.
pub const MAXIMUM_DESCRIPTORS_LENGTH: usize = 1024;

/// DESCRIPTOR TYPE CODE of a CSCD that is identified by a designator.
pub const IDENTIFICATION: u8 = 0xE4;

/// DESCRIPTOR TYPE CODE of a segment of blocks that are copied to blocks.
pub const BLOCK_TO_BLOCK: u8 = 0x02;

// LIST ID USAGE 01b and 11b.
const RESERVED_USAGE: u8 = 1;

const NO_IDENTIFIER: u8 = 3;

// Bits of byte 1 of a CSCD descriptor: NUL of SPC-3, and PERIPHERAL DEVICE TYPE.
const NULL_DEVICE: u8 = 0x20;

const DEVICE_TYPE: u8 = 0x1F;

/// DESCRIPTOR LENGTH of a segment descriptor: the length of what follows it.
const FOLLOWING_LENGTH: u16 = 24;

/// What an EXTENDED COPY asks for.
#[derive(Clone, Copy, Debug, PartialEq, Eq)]
pub struct CopyList {
    /// The LIST IDENTIFIER under which RECEIVE COPY STATUS finds the copy.
    pub identifier: Option<u8>,
    /// The blocks to copy.
    pub segment: Option<Segment>,
}

/// Blocks that are copied within the unit.
#[derive(Clone, Copy, Debug, PartialEq, Eq)]
pub struct Segment {
    /// The first block that is read.
    pub source: u64,
    /// The first block that is written.
    pub destination: u64,
    /// The number of blocks.
    pub blocks: u16,
}

impl CopyList {
    /// The length of the header, in bytes.
    pub const HEADER_LENGTH: usize = 16;

    /// The length of a CSCD descriptor, in bytes.
    pub const CSCD_LENGTH: usize = 32;

    /// The length of a segment descriptor, in bytes.
    pub const SEGMENT_LENGTH: usize = 28;

    /// Reads the list of an EXTENDED COPY (SPC-4, 6.5). `designation` is the designation descriptor of the
    /// unit in page 83h, `maximum_blocks` the most blocks that it copies at once, and `capacity` the number
    /// of its blocks.
    ///
    /// # Errors
    /// The first fault of the list.
    #[tactic(auto, using(crate::proofs::CheckLemmas::passes_first))]
    pub fn read(
        designation: &[u8; DESIGNATION_LENGTH],
        maximum_blocks: u16,
        capacity: u64,
        list: &[u8],
    ) -> Result<CopyList, CopyFault>
        ensures value { result ≡ copy_list designation.now maximum_blocks capacity list.now }
        ensures possible { IfOk result (λ asked.
            IfSome asked.segment (IsPossible maximum_blocks capacity)) }
    {
        if list.is_empty() {
            return Ok(CopyList {
                identifier: None,
                segment: None,
            });
        }
        check_list(list)?;
        let identifier = identifier(list);
        if segments_length(list) == 0 {
            return Ok(CopyList {
                identifier,
                segment: None,
            });
        }
        check_copy(designation, maximum_blocks, capacity, list)?;
        Ok(CopyList {
            identifier,
            segment: Some(segment_of(list)),
        })
    }
}

// ---- Fields

fn list_id_usage(list: &[u8]) -> u8
    requires { header_length ≤ length list.now }
    ensures { result ≡ list_id_usage list.now }
{
    list[1] >> 3 & 0x03
}

fn cscds_length(list: &[u8]) -> usize
    requires { header_length ≤ length list.now }
    ensures value { result ≡ cscds_length list.now }
    ensures fits { result < 2 ^ 16 }
{
    usize::from(BigEndian::read_u16(&list[2..]))
}

fn segments_length(list: &[u8]) -> usize
    requires { header_length ≤ length list.now }
    ensures value { result ≡ segments_length list.now }
    ensures fits { result < 2 ^ 32 }
{
    BigEndian::read_u32(&list[8..]) as usize
}

fn inline_length(list: &[u8]) -> usize
    requires { header_length ≤ length list.now }
    ensures value { result ≡ inline_length list.now }
    ensures fits { result < 2 ^ 32 }
{
    BigEndian::read_u32(&list[12..]) as usize
}

fn identifier(list: &[u8]) -> Option<u8>
    requires { header_length ≤ length list.now }
    ensures { result ≡ identifier list.now }
{
    (list_id_usage(list) != NO_IDENTIFIER).then_some(list[0])
}

fn segment_at(list: &[u8]) -> usize
    requires { header_length ≤ length list.now }
    ensures { result ≡ segment_at list.now }
{
    CopyList::HEADER_LENGTH + cscds_length(list)
}

fn source_id(list: &[u8]) -> u16
    requires { segment_at list.now + segment_length ≤ length list.now }
    ensures { result ≡ source_id list.now }
{
    BigEndian::read_u16(&list[segment_at(list) + 4..])
}

fn destination_id(list: &[u8]) -> u16
    requires { segment_at list.now + segment_length ≤ length list.now }
    ensures { result ≡ destination_id list.now }
{
    BigEndian::read_u16(&list[segment_at(list) + 6..])
}

fn block_count(list: &[u8]) -> u16
    requires { segment_at list.now + segment_length ≤ length list.now }
    ensures { result ≡ block_count list.now }
{
    BigEndian::read_u16(&list[segment_at(list) + 10..])
}

fn segment_of(list: &[u8]) -> Segment
    requires { segment_at list.now + segment_length ≤ length list.now }
    ensures { result ≡ segment_of list.now }
{
    let at = segment_at(list);
    Segment {
        source: BigEndian::read_u64(&list[at + 12..]),
        destination: BigEndian::read_u64(&list[at + 20..]),
        blocks: block_count(list),
    }
}

// ---- Checks

/// Refuses a list for a fault before its segment descriptors.
#[tactic(auto, using(crate::proofs::CheckLemmas::refuses_first, crate::proofs::CheckLemmas::passes_first))]
fn check_list(list: &[u8]) -> Result<(), CopyFault>
    ensures refused { IfErr result (λ fault. first_fault (list_checks list.now) ≡ Some fault) }
    ensures passed { IfOk result (λ _. first_fault (list_checks list.now) ≡ None) }
    ensures whole { IfOk result (λ _.
        segment_at list.now + segments_length list.now ≤ length list.now) }
    ensures cscds { IfOk result (λ _. cscds_length list.now ≤ cscd_length * maximum_cscds) }
{
    check_lengths(list)?;
    check_descriptors(list)
}

/// Refuses a list whose header or CSCD descriptors the disk does not support.
#[tactic(auto, using(crate::proofs::CheckLemmas::refuses_first, crate::proofs::CheckLemmas::passes_first))]
fn check_descriptors(list: &[u8]) -> Result<(), CopyFault>
    requires { segment_at list.now ≤ length list.now }
    ensures refused { IfErr result (λ fault.
        first_fault (header_checks list.now ++ cscd_checks list.now) ≡ Some fault) }
    ensures passed { IfOk result (λ _.
        first_fault (header_checks list.now ++ cscd_checks list.now) ≡ None) }
    ensures cscds { IfOk result (λ _. cscds_length list.now ≤ cscd_length * maximum_cscds) }
{
    check_header(list)?;
    check_cscds(list)
}

/// Refuses a list for a fault of its segment descriptor, or of a CSCD DESCRIPTOR ID there.
#[tactic(auto, using(crate::proofs::CheckLemmas::refuses_first, crate::proofs::CheckLemmas::passes_first))]
fn check_copy(
    designation: &[u8; DESIGNATION_LENGTH],
    maximum_blocks: u16,
    capacity: u64,
    list: &[u8],
) -> Result<(), CopyFault>
    requires whole { segment_at list.now + segments_length list.now ≤ length list.now }
    requires cscds { cscds_length list.now ≤ cscd_length * maximum_cscds }
    requires segment { 0 < segments_length list.now }
    ensures refused { IfErr result (λ fault.
        first_fault (copy_checks designation.now maximum_blocks capacity list.now) ≡ Some fault) }
    ensures passed { IfOk result (λ _.
        first_fault (copy_checks designation.now maximum_blocks capacity list.now) ≡ None) }
    ensures is_whole { IfOk result (λ _. segments_length list.now ≡ segment_length) }
    ensures possible { IfOk result (λ _. IsPossible maximum_blocks capacity (segment_of list.now)) }
{
    check_segment(maximum_blocks, list)?;
    check_at_segment(designation, capacity, list)
}

/// Refuses a segment for a fault that is found when it is processed.
#[tactic(auto, using(crate::proofs::CheckLemmas::refuses_first, crate::proofs::CheckLemmas::passes_first))]
fn check_at_segment(
    designation: &[u8; DESIGNATION_LENGTH],
    capacity: u64,
    list: &[u8],
) -> Result<(), CopyFault>
    requires { segment_at list.now + segment_length ≤ length list.now }
    ensures refused { IfErr result (λ fault.
        first_fault (processing_checks designation.now capacity list.now) ≡ Some fault) }
    ensures passed { IfOk result (λ _.
        first_fault (processing_checks designation.now capacity list.now) ≡ None) }
    ensures source { IfOk result (λ _. (segment_of list.now).source + (segment_of list.now).blocks
        ≤ capacity) }
    ensures destination { IfOk result (λ _. (segment_of list.now).destination
        + (segment_of list.now).blocks ≤ capacity) }
{
    check_cscd_ids(designation, list)?;
    check_ranges(capacity, list)
}

/// Refuses a segment whose blocks are not all on the unit.
fn check_ranges(capacity: u64, list: &[u8]) -> Result<(), CopyFault>
    requires { segment_at list.now + segment_length ≤ length list.now }
    ensures refused { IfErr result (λ fault.
        first_fault (range_checks capacity (segment_of list.now)) ≡ Some fault) }
    ensures passed { IfOk result (λ _.
        first_fault (range_checks capacity (segment_of list.now)) ≡ None) }
    ensures source { IfOk result (λ _. (segment_of list.now).source + (segment_of list.now).blocks
        ≤ capacity) }
    ensures destination { IfOk result (λ _. (segment_of list.now).destination
        + (segment_of list.now).blocks ≤ capacity) }
{
    let segment = segment_of(list);
    let blocks = u64::from(segment.blocks);
    if is_past(capacity, segment.source, blocks) || is_past(capacity, segment.destination, blocks) {
        return Err(CopyFault::PastCapacity);
    }
    Ok(())
}

/// Returns `true` if some of the blocks from an address on are past the last one of a unit.
fn is_past(capacity: u64, lba: u64, blocks: u64) -> bool
    ensures { result ≡ nat_lt capacity (lba + blocks) }
{
    capacity < blocks || capacity - blocks < lba
}

/// Refuses a segment whose source or destination does not lead to the unit.
#[tactic(auto, using(crate::proofs::CheckLemmas::refuses_first, crate::proofs::CheckLemmas::passes_first))]
fn check_cscd_ids(designation: &[u8; DESIGNATION_LENGTH], list: &[u8]) -> Result<(), CopyFault>
    requires { segment_at list.now + segment_length ≤ length list.now }
    ensures refused { IfErr result (λ fault.
        first_fault (cscd_id_checks designation.now list.now (source_id list.now)
        ++ cscd_id_checks designation.now list.now (destination_id list.now)) ≡ Some fault) }
    ensures passed { IfOk result (λ _.
        first_fault (cscd_id_checks designation.now list.now (source_id list.now)
        ++ cscd_id_checks designation.now list.now (destination_id list.now)) ≡ None) }
{
    check_cscd_id(designation, list, source_id(list))?;
    check_cscd_id(designation, list, destination_id(list))
}

/// Refuses a list that is not whole, or whose descriptors are too long.
fn check_lengths(list: &[u8]) -> Result<(), CopyFault>
    ensures refused { IfErr result (λ fault. first_fault (length_checks list.now) ≡ Some fault) }
    ensures passed { IfOk result (λ _. first_fault (length_checks list.now) ≡ None) }
    ensures whole { IfOk result (λ _.
        segment_at list.now + segments_length list.now ≤ length list.now) }
{
    if list.len() < CopyList::HEADER_LENGTH {
        return Err(CopyFault::Length);
    }
    let descriptors = cscds_length(list) + segments_length(list);
    if descriptors > MAXIMUM_DESCRIPTORS_LENGTH {
        return Err(CopyFault::Length);
    }
    if list.len() < CopyList::HEADER_LENGTH + descriptors + inline_length(list) {
        return Err(CopyFault::Length);
    }
    Ok(())
}

/// Refuses a header with a field that the disk does not support.
fn check_header(list: &[u8]) -> Result<(), CopyFault>
    requires { header_length ≤ length list.now }
    ensures refused { IfErr result (λ fault. first_fault (header_checks list.now) ≡ Some fault) }
    ensures passed { IfOk result (λ _. first_fault (header_checks list.now) ≡ None) }
    ensures cscds { IfOk result (λ _. cscds_length list.now ≤ cscd_length * maximum_cscds) }
{
    let usage = list_id_usage(list);
    if usage == RESERVED_USAGE {
        return Err(invalid(Invalid::Field, 1));
    }
    if usage == NO_IDENTIFIER && list[0] != 0 {
        return Err(invalid(Invalid::Field, 0));
    }
    if inline_length(list) != 0 {
        return Err(invalid(Invalid::InlineData, 12));
    }
    if cscds_length(list) > CopyList::CSCD_LENGTH * MAXIMUM_CSCDS {
        return Err(invalid(Invalid::TooManyCscds, 2));
    }
    Ok(())
}

/// Refuses CSCD descriptors that are not whole, or of another type.
fn check_cscds(list: &[u8]) -> Result<(), CopyFault>
    requires whole { segment_at list.now ≤ length list.now }
    requires cscds { cscds_length list.now ≤ cscd_length * maximum_cscds }
    ensures refused { IfErr result (λ fault. first_fault (cscd_checks list.now) ≡ Some fault) }
    ensures passed { IfOk result (λ _. first_fault (cscd_checks list.now) ≡ None) }
{
    if cscds_length(list) % CopyList::CSCD_LENGTH != 0 {
        return Err(invalid(Invalid::CscdType, 2));
    }
    for id in 0..cscd_count(list) {
        let at = cscd_at(id);
        if list[at] != IDENTIFICATION {
            return Err(invalid(Invalid::CscdType, at as u16));
        }
    }
    Ok(())
}

/// Refuses a segment descriptor of another type, a second one, and one that is not whole or copies too many
/// blocks.
fn check_segment(maximum_blocks: u16, list: &[u8]) -> Result<(), CopyFault>
    requires whole { segment_at list.now + segments_length list.now ≤ length list.now }
    requires cscds { cscds_length list.now ≤ cscd_length * maximum_cscds }
    requires segment { 0 < segments_length list.now }
    ensures refused { IfErr result (λ fault.
        first_fault (segment_checks maximum_blocks list.now) ≡ Some fault) }
    ensures passed { IfOk result (λ _. first_fault (segment_checks maximum_blocks list.now) ≡ None) }
    ensures is_whole { IfOk result (λ _. segments_length list.now ≡ segment_length) }
{
    let at = segment_at(list);
    if list[at] != BLOCK_TO_BLOCK {
        return Err(invalid(Invalid::SegmentType, at as u16));
    }
    if segments_length(list) > CopyList::SEGMENT_LENGTH * MAXIMUM_SEGMENTS {
        return Err(invalid(Invalid::TooManySegments, 8));
    }
    if segments_length(list) != CopyList::SEGMENT_LENGTH {
        return Err(invalid(Invalid::Field, 8));
    }
    if BigEndian::read_u16(&list[at + 2..]) != FOLLOWING_LENGTH {
        return Err(invalid(Invalid::Field, at as u16 + 2));
    }
    if block_count(list) > maximum_blocks {
        return Err(invalid(Invalid::Field, at as u16 + 10));
    }
    Ok(())
}

/// Refuses a CSCD DESCRIPTOR ID that does not lead to the unit.
fn check_cscd_id(
    designation: &[u8; DESIGNATION_LENGTH],
    list: &[u8],
    id: u16,
) -> Result<(), CopyFault>
    requires { segment_at list.now ≤ length list.now }
    ensures refused { IfErr result (λ fault.
        first_fault (cscd_id_checks designation.now list.now id) ≡ Some fault) }
    ensures passed { IfOk result (λ _. first_fault (cscd_id_checks designation.now list.now id) ≡ None) }
{
    let id = usize::from(id);
    if id >= cscd_count(list) || !identifies(designation, list, id) {
        return Err(CopyFault::NotReachable);
    }
    if list[cscd_at(id) + 1] & DEVICE_TYPE != 0 {
        return Err(CopyFault::OtherDeviceType);
    }
    Ok(())
}

/// Returns `true` if a CSCD descriptor is no null device and has the designation descriptor of the unit.
fn identifies(designation: &[u8; DESIGNATION_LENGTH], list: &[u8], id: usize) -> bool
    requires id { id < 2 ^ 16 }
    requires whole { cscd_at id + cscd_length ≤ length list.now }
    ensures { result ≡ identifies designation.now list.now id }
{
    let at = cscd_at(id);
    let found = &list[at + 4..at + 4 + DESIGNATION_LENGTH];
    list[at + 1] & NULL_DEVICE == 0 && found == designation.as_slice()
}

fn cscd_at(id: usize) -> usize
    requires { id < 2 ^ 16 }
    ensures { result ≡ cscd_at id }
{
    CopyList::HEADER_LENGTH + CopyList::CSCD_LENGTH * id
}

fn cscd_count(list: &[u8]) -> usize
    requires { header_length ≤ length list.now }
    ensures value { result ≡ cscd_count list.now }
    ensures whole { cscd_at result ≤ segment_at list.now }
{
    cscds_length(list) / CopyList::CSCD_LENGTH
}

fn invalid(what: Invalid, byte: u16) -> CopyFault
    ensures { result ≡ CopyFault.InvalidAt what byte }
{
    CopyFault::InvalidAt { what, byte }
}
