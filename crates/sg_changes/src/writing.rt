// Fields that are written to a sink.
ghost use Rattle.std.specs.Prelude.{◌≡◌, ◌+◌, ◌*◌, ◌≤◌, length};
ghost use Rattle.sg_changes.specs.ExtentFormat.{extent as extent_format};
ghost use Rattle.sg_changes.specs.Format.{flag, number, optional, plain};
ghost use Rattle.sg_changes.specs.Records.{fill, pages, range, write};
ghost use Rattle.sg_changes.specs.Writing.{Takes};

use crate::sink::Sink;
use sg_pages::PageValues;
use sg_store::BLOCK_LENGTH;
use sg_wire::Extent;

pub(crate) fn put_u8<S: Sink>(sink: &mut S, n: u8)
    requires { 1 ≤ S.room sink.old }
    ensures { Takes S.contents S.room (number 1) 1 sink.old sink.new n }
{
    sink.push(&[n]);
}

pub(crate) fn put_u16<S: Sink>(sink: &mut S, n: u16)
    requires { 2 ≤ S.room sink.old }
    ensures { Takes S.contents S.room (number 2) 2 sink.old sink.new n }
{
    sink.push(&n.to_be_bytes());
}

pub(crate) fn put_u32<S: Sink>(sink: &mut S, n: u32)
    requires { 4 ≤ S.room sink.old }
    ensures { Takes S.contents S.room (number 4) 4 sink.old sink.new n }
{
    sink.push(&n.to_be_bytes());
}

pub(crate) fn put_u64<S: Sink>(sink: &mut S, n: u64)
    requires { 8 ≤ S.room sink.old }
    ensures { Takes S.contents S.room (number 8) 8 sink.old sink.new n }
{
    sink.push(&n.to_be_bytes());
}

/// Yes or no: a byte that is 1 or 0.
pub(crate) fn put_flag<S: Sink>(sink: &mut S, is_set: bool)
    requires { 1 ≤ S.room sink.old }
    ensures { Takes S.contents S.room flag 1 sink.old sink.new is_set }
{
    put_u8(sink, u8::from(is_set));
}

#[tactic(auto, unfolding(crate::specs::ExtentFormat::extent))]
pub(crate) fn put_extent<S: Sink>(sink: &mut S, extent: Extent)
    requires { 12 ≤ S.room sink.old }
    ensures { Takes S.contents S.room extent_format 12 sink.old sink.new extent }
{
    put_u64(sink, extent.lba);
    put_u32(sink, extent.count);
}

/// Bytes as they are.
pub(crate) fn put_bytes<S: Sink>(sink: &mut S, bytes: &[u8])
    requires { length bytes.now ≤ S.room sink.old }
    ensures { Takes S.contents S.room (plain (length bytes.now)) (length bytes.now) sink.old sink.new
        bytes.now }
{
    sink.push(bytes);
}

/// A number of two bytes, if there is one.
pub(crate) fn put_optional_u16<S: Sink>(sink: &mut S, n: Option<u16>)
    requires { 3 ≤ S.room sink.old }
    ensures { Takes S.contents S.room (optional (number 2)) 3 sink.old sink.new n }
{
    match n {
        Some(n) => {
            put_flag(sink, true);
            put_u16(sink, n);
        }
        None => put_flag(sink, false),
    }
}

/// A number of one byte, if there is one.
pub(crate) fn put_optional_u8<S: Sink>(sink: &mut S, n: Option<u8>)
    requires { 2 ≤ S.room sink.old }
    ensures { Takes S.contents S.room (optional (number 1)) 2 sink.old sink.new n }
{
    match n {
        Some(n) => {
            put_flag(sink, true);
            put_u8(sink, n);
        }
        None => put_flag(sink, false),
    }
}

/// The values of the mode pages.
#[tactic(auto, unfolding(crate::specs::Records::pages))]
pub(crate) fn put_pages<S: Sink>(sink: &mut S, values: &PageValues)
    requires { 76 ≤ S.room sink.old }
    ensures { Takes S.contents S.room pages 76 sink.old sink.new values.now }
{
    put_bytes(sink, &values.error_recovery);
    put_bytes(sink, &values.caching);
    put_bytes(sink, &values.control);
    put_bytes(sink, &values.exceptions_control);
    put_bytes(sink, &values.provisioning);
}

/// A range: the first address, and the number of addresses.
#[tactic(auto, unfolding(crate::specs::Records::range))]
pub(crate) fn put_range<S: Sink>(sink: &mut S, lba: u64, count: u64)
    requires { 16 ≤ S.room sink.old }
    ensures { Takes S.contents S.room range 16 sink.old sink.new (lba, count) }
{
    put_u64(sink, lba);
    put_u64(sink, count);
}

/// An extent, and its blocks.
#[tactic(auto, unfolding(crate::specs::Records::write))]
pub(crate) fn put_write<S: Sink>(sink: &mut S, extent: Extent, blocks: &[u8])
    requires room { 12 + length blocks.now ≤ S.room sink.old }
    requires whole { length blocks.now ≡ BLOCK_LENGTH * extent.count }
    ensures { Takes S.contents S.room write (12 + length blocks.now) sink.old sink.new
        (extent, blocks.now) }
{
    put_extent(sink, extent);
    put_bytes(sink, blocks);
}

/// An extent, and one block for all of its addresses.
#[tactic(auto, unfolding(crate::specs::Records::fill))]
pub(crate) fn put_fill<S: Sink>(sink: &mut S, extent: Extent, block: &[u8; BLOCK_LENGTH])
    requires { 524 ≤ S.room sink.old }
    ensures { Takes S.contents S.room fill 524 sink.old sink.new (extent, block.now) }
{
    put_extent(sink, extent);
    put_bytes(sink, block);
}
