// The first record of a file: the disk as it was made.
use crate::fields::{array_at, u8_at, u32_at, u64_at};
use crate::sink::Sink;
use crate::tag;
use crate::writing::{put_bytes, put_u8, put_u32, put_u64};
use sg_pages::{Identity, PhysicalBlock};
use sg_store::MAX_CAPACITY;
use sg_wire::Profile;
use std::marker::Model;

/// A disk as it is made: its number of addresses, the number of blocks of its pool, and its
/// identity.
#[derive(Clone, Copy)]
pub struct NewDisk {
    capacity: u64,
    pool: u32,
    identity: Identity,
}

impl Model for NewDisk {
    ghost use Rattle.std.specs.Prelude.{IsTrue};
    ghost use Rattle.sg_changes.specs.FirstRecord.{NewDiskFields, is_new_disk};

    ghost Value = { NewDiskFields };

    ghost view = { λ d. record { capacity = d.capacity; pool = d.pool; identity = d.identity } };

    ghost invariant = { λ d. IsTrue (is_new_disk
        (record { capacity = d.capacity; pool = d.pool; identity = d.identity })) };

    ghost inverse = { λ d. record { capacity = d.capacity; pool = d.pool; identity = d.identity } };
}

ghost use Rattle.std.specs.Prelude.{◌≡◌, ◌≤◌};
ghost use Rattle.sg_store.specs.Disk.{max_capacity, max_pool};
ghost use Rattle.sg_changes.specs.FirstRecord.{first_record, identity as identity_format, is_new_disk};
ghost use Rattle.sg_changes.specs.FirstRecord.{first_record_length, kind, new_disk, profile};
ghost use Rattle.sg_changes.specs.Format.{passing};
ghost use Rattle.sg_changes.specs.Reading.{Gives};
ghost use Rattle.sg_changes.specs.Writing.{Takes};

impl NewDisk {
    /// The length of a first record, in bytes.
    pub const RECORD_LENGTH: usize = 59;

    /// A disk of `capacity` addresses, at most `pool` of which have a block of the pool at once.
    /// None if the capacity is not 1 to 2^40, or if the profile of the identity does not allow the
    /// pool.
    pub fn new(capacity: u64, pool: u32, identity: Identity) -> Option<NewDisk>
        ensures { result ≡ passing is_new_disk
            (record { capacity = capacity; pool = pool; identity = identity }) }
    {
        let has_capacity = (1..=MAX_CAPACITY).contains(&capacity);
        if !has_capacity || !(1..=identity.profile().limits().pool).contains(&pool) {
            return None;
        }
        Some(NewDisk {
            capacity,
            pool,
            identity,
        })
    }

    /// The number of addresses.
    pub fn capacity(&self) -> u64
        ensures value { result ≡ self.now.capacity }
        ensures not_zero { 1 ≤ result }
        ensures at_most { result ≤ max_capacity }
    {
        self.capacity
    }

    /// The number of blocks of the pool.
    pub fn pool(&self) -> u32
        ensures value { result ≡ self.now.pool }
        ensures not_zero { 1 ≤ result }
        ensures at_most { result ≤ max_pool }
    {
        self.pool
    }

    /// The identity.
    pub fn identity(&self) -> &Identity
        ensures { result.now ≡ self.now.identity }
    {
        &self.identity
    }

    /// Reads the first record of a file, and returns the bytes after it. None if it is no first
    /// record.
    #[tactic(auto, unfolding(crate::specs::FirstRecord::disk_with_tag, crate::specs::FirstRecord::new_disk))]
    pub fn read(bytes: &[u8]) -> Option<(NewDisk, &[u8])>
        ensures { Gives (λ f. (f.0, f.1.now)) result (first_record.at bytes.now) }
    {
        let (tag, rest) = bytes.split_first()?;
        if *tag != tag::NEW_DISK {
            return None;
        }
        let (capacity, rest) = u64_at(rest)?;
        let (pool, rest) = u32_at(rest)?;
        let Some((identity, rest)) = identity_at(rest) else {
            return None;
        };
        let disk = NewDisk::new(capacity, pool, identity)?;
        Some((disk, rest))
    }

    /// Writes the first record of a file.
    pub fn write<S: Sink>(&self, sink: &mut S)
        requires { first_record_length ≤ S.room sink.old }
        ensures { Takes S.contents S.room first_record first_record_length sink.old sink.new self.now }
    {
        put_u8(sink, tag::NEW_DISK);
        self.put_fields(sink);
    }

    #[tactic(auto, unfolding(crate::specs::FirstRecord::new_disk))]
    fn put_fields<S: Sink>(&self, sink: &mut S)
        requires { 58 ≤ S.room sink.old }
        ensures { Takes S.contents S.room new_disk 58 sink.old sink.new self.now }
    {
        put_u64(sink, self.capacity);
        put_u32(sink, self.pool);
        put_identity(sink, &self.identity);
    }
}

#[tactic(auto, unfolding(crate::specs::FirstRecord::profile))]
fn profile_at(bytes: &[u8]) -> Option<(Profile, &[u8])>
    ensures { Gives (λ f. (f.0, f.1.now)) result (profile.at bytes.now) }
{
    let (code, rest) = u8_at(bytes)?;
    match code {
        0 => Some((Profile::Base, rest)),
        1 => Some((Profile::Extended, rest)),
        _ => None,
    }
}

#[tactic(auto, unfolding(crate::specs::FirstRecord::kind))]
fn kind_at(bytes: &[u8]) -> Option<((bool, PhysicalBlock), &[u8])>
    ensures { Gives (λ f. (f.0, f.1.now)) result (kind.at bytes.now) }
{
    let (code, rest) = u8_at(bytes)?;
    match code {
        0 => Some(((false, PhysicalBlock::Of512), rest)),
        1 => Some(((true, PhysicalBlock::Of512), rest)),
        2 => Some(((false, PhysicalBlock::Of4096), rest)),
        3 => Some(((true, PhysicalBlock::Of4096), rest)),
        _ => None,
    }
}

#[tactic(auto, unfolding(crate::specs::FirstRecord::identity))]
fn identity_at(bytes: &[u8]) -> Option<(Identity, &[u8])>
    ensures { Gives (λ f. (f.0, f.1.now)) result (identity_format.at bytes.now) }
{
    let (vendor, rest) = array_at(bytes)?;
    let (product, rest) = array_at(rest)?;
    let (revision, rest) = array_at(rest)?;
    let (serial, rest) = array_at(rest)?;
    let (local, rest) = u64_at(rest)?;
    let (profile, rest) = profile_at(rest)?;
    let ((takes_short_data_out, physical_block), rest) = kind_at(rest)?;
    let names = Identity::new(*vendor, *product, *revision, *serial, local).ok()?;
    let identity = names
        .with_profile(profile)
        .with_short_data_out(takes_short_data_out)
        .with_physical_block(physical_block);
    Some((identity, rest))
}

#[tactic(auto, unfolding(crate::specs::FirstRecord::profile))]
fn put_profile<S: Sink>(sink: &mut S, which: Profile)
    requires { 1 ≤ S.room sink.old }
    ensures { Takes S.contents S.room profile 1 sink.old sink.new which }
{
    match which {
        Profile::Base => put_u8(sink, 0),
        Profile::Extended => put_u8(sink, 1),
    }
}

#[tactic(auto, unfolding(crate::specs::FirstRecord::identity))]
fn put_identity<S: Sink>(sink: &mut S, identity: &Identity)
    requires { 46 ≤ S.room sink.old }
    ensures { Takes S.contents S.room identity_format 46 sink.old sink.new identity.now }
{
    identity.check_invariant();
    put_bytes(sink, identity.vendor());
    put_bytes(sink, identity.product());
    put_bytes(sink, identity.revision());
    put_bytes(sink, identity.serial());
    put_u64(sink, identity.local());
    put_profile(sink, identity.profile());
    put_kind(
        sink,
        identity.takes_short_data_out(),
        identity.physical_block(),
    );
}

#[tactic(auto, unfolding(crate::specs::FirstRecord::kind))]
fn put_kind<S: Sink>(sink: &mut S, takes_short_data_out: bool, physical: PhysicalBlock)
    requires { 1 ≤ S.room sink.old }
    ensures { Takes S.contents S.room kind 1 sink.old sink.new (takes_short_data_out, physical) }
{
    match (takes_short_data_out, physical) {
        (false, PhysicalBlock::Of512) => put_u8(sink, 0),
        (true, PhysicalBlock::Of512) => put_u8(sink, 1),
        (false, PhysicalBlock::Of4096) => put_u8(sink, 2),
        (true, PhysicalBlock::Of4096) => put_u8(sink, 3),
    }
}
