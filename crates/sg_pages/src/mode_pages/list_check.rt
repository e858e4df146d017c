// Checks of a mode parameter list: of a part of it, of its header, and of its block descriptor.
ghost use Rattle.std.specs.Prelude.{◌≡◌, ◌≤◌, ◌<◌, ◌==◌, ◌||◌, ◌+◌, ◌^◌, []};
ghost use Rattle.std.specs.Prelude.{drop, take, length, true, false, IsTrue, OnOk, Some};
ghost use Rattle.sg_pages.specs.BlockDescriptor.{descriptor_length};
ghost use Rattle.sg_pages.specs.ModeSelect.{accepted_blocks, block_descriptor_length};
ghost use Rattle.sg_pages.specs.ModeSelect.{descriptor_faults, differences, first_fault};
ghost use Rattle.sg_pages.specs.ModeSelect.{header_faults, header_length};
ghost use Rattle.sg_pages.specs.ModeSelect.{ignored_descriptor_bits, is_descriptor_length};
ghost use Rattle.sg_pages.specs.ModeSelect.{field_faults, least, part_at};
ghost use Rattle.sg_pages.specs.ModeSelect.{part_faults, pointed_fields, unless_fault};
ghost use Rattle.sg_pages.specs.SentValues.{pointed_fault};

use super::ModeSelectFault;
use super::block_descriptor::{
    LONG_DESCRIPTOR_FIELDS, LONG_DESCRIPTOR_LENGTH, LONG_NUMBER_LENGTH, SHORT_DESCRIPTOR_FIELDS,
    SHORT_DESCRIPTOR_LENGTH, SHORT_NUMBER_LENGTH, long_descriptor, short_descriptor,
};
use super::multi_byte_field::{MultiByteField, first_byte_of};
use byteorder::{BigEndian, ByteOrder};
use sg_wire::{CdbWidth, Profile, are_zeros};

/// The length of the header of MODE SELECT(6) and of (10), in bytes.
const HEADER_LENGTH_6: usize = 4;

const HEADER_LENGTH_10: usize = 8;

/// The first byte of BLOCK DESCRIPTOR LENGTH in it.
const LENGTH_OFFSET_6: usize = 3;

const LENGTH_OFFSET_10: usize = 6;

/// The bits that are ignored before BLOCK DESCRIPTOR LENGTH.
const IGNORED_IN_HEADER_6: [u8; LENGTH_OFFSET_6] = [0xFF, 0x00, 0xFF];

const IGNORED_IN_HEADER_10: [u8; LENGTH_OFFSET_10] = [0xFF, 0xFF, 0x00, 0xFF, 0x01, 0x00];

/// The bits of NUMBER OF LOGICAL BLOCKS in the short and the long block descriptor.
const SHORT_NUMBER_BITS: [u8; SHORT_DESCRIPTOR_LENGTH] = [0xFF, 0xFF, 0xFF, 0xFF, 0, 0, 0, 0];

const LONG_NUMBER_BITS: [u8; LONG_DESCRIPTOR_LENGTH] = [
    0xFF, 0xFF, 0xFF, 0xFF, 0xFF, 0xFF, 0xFF, 0xFF, 0, 0, 0, 0, 0, 0, 0, 0,
];

/// LONGLBA of the header of MODE SELECT(10): its byte, and its bit there.
const LONGLBA_OFFSET: usize = 4;

const LONGLBA: u8 = 0x01;

/// The offset of the first byte that differs from the expected one in a bit that is not ignored.
/// The first byte sent is at `offset`.
fn first_difference(offset: usize, expected: &[u8], ignored: &[u8], sent: &[u8]) -> Option<usize>
    requires ignored { length ignored.now ≡ length expected.now }
    requires offset { offset + length sent.now < 2 ^ 64 }
    ensures { result ≡ least (differences offset expected.now ignored.now sent.now) }
{
    for k in 0..expected.len().min(sent.len()) {
        let mask = ignored[k];
        if sent[k] | mask != expected[k] | mask {
            return Some(offset + k);
        }
    }
    None
}

/// Checks a part of the list, `size` bytes from an offset on. It has to have the expected bytes,
/// except for the ignored bits, and has to be whole.
pub(super) fn check(
    list: &[u8],
    offset: usize,
    size: usize,
    expected: &[u8],
    ignored: &[u8],
) -> Result<(), ModeSelectFault>
    requires offset { offset ≤ length list.now }
    requires ignored { length ignored.now ≡ length expected.now }
    ensures result { let faults = part_faults expected.now ignored.now
        (part_at offset size list.now) in
        result ≡ unless_fault (first_fault (length list.now) faults) tt }
    ensures whole { OnOk result (offset + size ≤ length list.now) }
    ensures same { OnOk result (differences offset expected.now ignored.now
        (part_at offset size list.now).bytes ≡ []) }
{
    let rest = &list[offset..];
    let sent = &rest[..size.min(rest.len())];
    if let Some(different) = first_difference(offset, expected, ignored, sent) {
        return Err(ModeSelectFault::Field(different));
    }
    if sent.len() < size {
        return Err(ModeSelectFault::Length);
    }
    Ok(())
}

pub(super) fn header_length(width: CdbWidth) -> usize
    ensures { result ≡ header_length width }
{
    match width {
        CdbWidth::Six => HEADER_LENGTH_6,
        CdbWidth::Ten => HEADER_LENGTH_10,
    }
}

/// Checks the header, and returns the length of the block descriptor.
pub(super) fn check_header(list: &[u8], width: CdbWidth) -> Result<usize, ModeSelectFault>
    ensures result { result
        ≡ unless_fault (first_fault (length list.now) (header_faults width list.now))
        (block_descriptor_length width list.now) }
    ensures whole { OnOk result (header_length width ≤ length list.now) }
    ensures length { OnOk result (IsTrue (is_descriptor_length width list.now)) }
{
    match width {
        CdbWidth::Six => {
            let zeros = [0; LENGTH_OFFSET_6];
            check(list, 0, HEADER_LENGTH_6, &zeros, &IGNORED_IN_HEADER_6)?;
            let descriptor = usize::from(list[LENGTH_OFFSET_6]);
            if !is_descriptor_length(descriptor, false) {
                return Err(ModeSelectFault::Field(LENGTH_OFFSET_6));
            }
            Ok(descriptor)
        }
        CdbWidth::Ten => {
            let zeros = [0; LENGTH_OFFSET_10];
            check(list, 0, HEADER_LENGTH_10, &zeros, &IGNORED_IN_HEADER_10)?;
            let descriptor = usize::from(BigEndian::read_u16(&list[LENGTH_OFFSET_10..]));
            if !is_descriptor_length(descriptor, list[LONGLBA_OFFSET] & LONGLBA != 0) {
                return Err(ModeSelectFault::Field(LENGTH_OFFSET_10));
            }
            Ok(descriptor)
        }
    }
}

fn is_descriptor_length(length: usize, long: bool) -> bool
    ensures { result ≡ (length == 0 || length == descriptor_length long) }
{
    let whole = if long {
        LONG_DESCRIPTOR_LENGTH
    } else {
        SHORT_DESCRIPTOR_LENGTH
    };
    length == 0 || length == whole
}

/// The fields that a field pointer points to. On a base disk each byte is a field of its own.
pub(super) fn pointed_fields(profile: Profile, fields: &[MultiByteField]) -> &[MultiByteField]
    ensures { result.now ≡ pointed_fields profile fields.now }
{
    if profile.rules().points_at_fields {
        fields
    } else {
        &[]
    }
}

/// The fault of a part that begins at an offset. A byte that differs points to the first byte of its
/// field.
pub(super) fn point_to_field(
    fault: ModeSelectFault,
    offset: usize,
    fields: &[MultiByteField],
) -> ModeSelectFault
    ensures { result ≡ pointed_fault fields.now offset fault }
{
    match fault {
        ModeSelectFault::Length => ModeSelectFault::Length,
        ModeSelectFault::Field(byte) => {
            ModeSelectFault::Field(offset + first_byte_of(fields, byte.saturating_sub(offset)))
        }
    }
}

/// Checks a part of the list as `check` does. A byte that differs points to the first byte of its
/// field.
fn check_fields(
    list: &[u8],
    offset: usize,
    size: usize,
    expected: &[u8],
    ignored: &[u8],
    fields: &[MultiByteField],
) -> Result<(), ModeSelectFault>
    requires offset { offset ≤ length list.now }
    requires ignored { length ignored.now ≡ length expected.now }
    ensures result { let faults = field_faults fields.now expected.now ignored.now
        (part_at offset size list.now) in
        result ≡ unless_fault (first_fault (length list.now) faults) tt }
    ensures whole { OnOk result (offset + size ≤ length list.now) }
{
    match check(list, offset, size, expected, ignored) {
        Ok(()) => Ok(()),
        Err(fault) => Err(point_to_field(fault, offset, fields)),
    }
}

/// Checks the block descriptor, which has the length that the header names.
pub(super) fn check_descriptor(
    list: &[u8],
    width: CdbWidth,
    blocks: Option<u64>,
    profile: Profile,
    descriptor: usize,
) -> Result<(), ModeSelectFault>
    requires header { header_length width ≤ length list.now }
    requires length { descriptor ≡ block_descriptor_length width list.now }
    requires known { IsTrue (is_descriptor_length width list.now) }
    ensures result { result
        ≡ unless_fault
        (first_fault (length list.now)
        (descriptor_faults width blocks profile list.now)) tt }
    ensures whole { OnOk result (header_length width + descriptor ≤ length list.now) }
{
    let offset = header_length(width);
    match descriptor {
        0 => Ok(()),
        SHORT_DESCRIPTOR_LENGTH => {
            let accepted = accepted_blocks(list, offset, SHORT_NUMBER_LENGTH, blocks);
            let expected = short_descriptor(accepted);
            let ignored = ignored_in_short(blocks);
            let fields = pointed_fields(profile, &SHORT_DESCRIPTOR_FIELDS);
            check_fields(
                list,
                offset,
                SHORT_DESCRIPTOR_LENGTH,
                &expected,
                &ignored,
                fields,
            )
        }
        _ => {
            let accepted = accepted_blocks(list, offset, LONG_NUMBER_LENGTH, blocks);
            let expected = long_descriptor(accepted);
            let ignored = ignored_in_long(blocks);
            let fields = pointed_fields(profile, &LONG_DESCRIPTOR_FIELDS);
            check_fields(
                list,
                offset,
                LONG_DESCRIPTOR_LENGTH,
                &expected,
                &ignored,
                fields,
            )
        }
    }
}

/// The number of blocks that is accepted in a descriptor whose number has `count` bytes. Without a
/// number of the disk it is not compared.
fn accepted_blocks(list: &[u8], offset: usize, count: usize, blocks: Option<u64>) -> u64
    requires { offset ≤ length list.now }
    ensures { result ≡ accepted_blocks blocks (take count (drop offset list.now)) }
{
    match blocks {
        Some(blocks) => accepted_number(list, offset, count, blocks),
        None => 0,
    }
}

/// The disk's number of blocks, or zero if the bytes of the number are zero as far as the list has
/// them.
fn accepted_number(list: &[u8], offset: usize, count: usize, blocks: u64) -> u64
    requires { offset ≤ length list.now }
    ensures { result ≡ accepted_blocks (Some blocks) (take count (drop offset list.now)) }
{
    let rest = &list[offset..];
    let number = &rest[..count.min(rest.len())];
    if are_zeros(number) { 0 } else { blocks }
}

/// The ignored bits of the short block descriptor.
fn ignored_in_short(blocks: Option<u64>) -> [u8; SHORT_DESCRIPTOR_LENGTH]
    ensures { result ≡ ignored_descriptor_bits false blocks }
{
    match blocks {
        Some(_) => [0; SHORT_DESCRIPTOR_LENGTH],
        None => SHORT_NUMBER_BITS,
    }
}

/// The ignored bits of the long block descriptor.
fn ignored_in_long(blocks: Option<u64>) -> [u8; LONG_DESCRIPTOR_LENGTH]
    ensures { result ≡ ignored_descriptor_bits true blocks }
{
    match blocks {
        Some(_) => [0; LONG_DESCRIPTOR_LENGTH],
        None => LONG_NUMBER_BITS,
    }
}
