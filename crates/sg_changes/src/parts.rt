// The parts of a disk that a power cycle leaves, and what records make of them.
use crate::fault_fields::faults_at;
use crate::fields::{array_at, bytes_at, extent_at, pages_at, u64_at};
use crate::reservation_fields::reservations_at;
use crate::{NewDisk, blocks, tag};
use sg_faults::Faults;
use sg_pages::{Identity, ModePages, PageValues};
use sg_store::{BLOCK_LENGTH, Store};
use sg_units::Reservations;
use std::alloc::{AllocError, Global};
use std::marker::Model;
use thiserror::Error;

/// The parts of a disk that a power cycle leaves. All else is as it is after power on.
#[derive(Drop)]
pub struct KeptParts<S: Store> {
    /// What the disk was made as.
    pub identity: Identity,
    /// The number of its addresses.
    pub capacity: u64,
    /// The number of blocks of its pool.
    pub pool: u32,
    /// Its blocks.
    pub store: S,
    /// The saved values of the mode pages.
    pub saved: PageValues,
    /// Registrations and reservation, if they persist through a power loss, and otherwise none.
    pub reservations: Reservations,
    /// The armed faults.
    pub faults: Faults,
}

impl<S: Store> Model for KeptParts<S> {
    ghost use Rattle.std.specs.Prelude.{◌≡◌};
    ghost use Rattle.std.specs.Coded.{codes};
    ghost use Rattle.sg_store.specs.ContentsCode.{contents_code};
    ghost use Rattle.sg_changes.specs.KeptFields.{KeptFields};

    ghost Value = { KeptFields };

    ghost coded = { Prim.hlevel (codes, contents_code) };

    ghost view = { λ p. record {
      identity = p.identity;
      disk = S.disk p.store;
      saved = p.saved;
      reservations = p.reservations;
      faults = p.faults;
    } };

    ghost invariant = { λ p. (p.capacity ≡ (S.disk p.store).capacity)
        × (p.pool ≡ (S.disk p.store).pool) };
}

ghost use Rattle.std.specs.Prelude.{◌≡◌, IfErr, IfOk, OnErr, OnOk, Some, None};
ghost use Rattle.sg_pages.specs.ModePowerOn.{restored_pages};
ghost use Rattle.sg_changes.specs.Change.Change.{Write, Fill, Unmap, Anchor, Pages, Grow};
ghost use Rattle.sg_changes.specs.Change.{Change};
ghost use Rattle.sg_changes.specs.ExtentFormat.{extent};
ghost use Rattle.sg_changes.specs.FirstRecord.{new_disk_kept};
ghost use Rattle.sg_changes.specs.Format.{made};
ghost use Rattle.sg_changes.specs.Reading.{Gives, applied_to};
ghost use Rattle.sg_changes.specs.Records.{capacity, fill, pages, range, write};
ghost use Rattle.sg_changes.specs.ReservationFormat.{reservations};
ghost use Rattle.sg_changes.specs.Replay.{IsDamagedAt, applied_at, replayed};
ghost use Rattle.sg_changes.specs.FaultFormat.{faults};

/// A record cannot be read, or its change does not apply.
#[derive(Clone, Copy, Debug, Error, PartialEq, Eq)]
#[error("the record at byte {record} is damaged")]
pub struct Damaged {
    /// The offset of the record in its batch, in bytes.
    pub record: usize,
}

// ---- The records, by their tags. Each function has the fields of a record, and returns the bytes after
// them. None if the fields cannot be read, or if the change does not apply.

impl<S: Store> KeptParts<S> {
    #[tactic(auto, unfolding(crate::specs::Records::write))]
    fn write<'a>(&mut self, fields: &'a [u8]) -> Option<&'a [u8]>
        ensures { Gives (λ rest. (self.new, rest.now)) result
            (applied_to self.old (made (λ f. Write f.0 f.1) (write.at fields.now))) }
    {
        let (extent, rest) = extent_at(fields)?;
        let (blocks, rest) = bytes_at(rest, BLOCK_LENGTH * extent.count as usize)?;
        blocks::write(&mut self.store, self.capacity, extent, blocks)?;
        Some(rest)
    }

    #[tactic(auto, unfolding(crate::specs::Records::fill))]
    fn fill<'a>(&mut self, fields: &'a [u8]) -> Option<&'a [u8]>
        ensures { Gives (λ rest. (self.new, rest.now)) result
            (applied_to self.old (made (λ f. Fill f.0 f.1) (fill.at fields.now))) }
    {
        let (extent, rest) = extent_at(fields)?;
        let (block, rest) = array_at(rest)?;
        blocks::fill(&mut self.store, self.capacity, extent, block)?;
        Some(rest)
    }

    #[tactic(auto, unfolding(crate::specs::Records::range))]
    fn unmap<'a>(&mut self, fields: &'a [u8]) -> Option<&'a [u8]>
        ensures { Gives (λ rest. (self.new, rest.now)) result
            (applied_to self.old (made (λ f. Unmap f.0 f.1) (range.at fields.now))) }
    {
        let (lba, rest) = u64_at(fields)?;
        let (count, rest) = u64_at(rest)?;
        blocks::unmap(&mut self.store, self.capacity, lba, count)?;
        Some(rest)
    }

    fn anchor<'a>(&mut self, fields: &'a [u8]) -> Option<&'a [u8]>
        ensures { Gives (λ rest. (self.new, rest.now)) result
            (applied_to self.old (made Anchor (extent.at fields.now))) }
    {
        let (extent, rest) = extent_at(fields)?;
        blocks::anchor(&mut self.store, self.capacity, extent)?;
        Some(rest)
    }

    fn set_pages<'a>(&mut self, fields: &'a [u8]) -> Option<&'a [u8]>
        ensures { Gives (λ rest. (self.new, rest.now)) result
            (applied_to self.old (made Pages (pages.at fields.now))) }
    {
        let (saved, rest) = pages_at(fields)?;
        self.saved = saved;
        Some(rest)
    }

    fn set_reservations<'a>(&mut self, fields: &'a [u8]) -> Option<&'a [u8]>
        ensures { Gives (λ rest. (self.new, rest.now)) result
            (applied_to self.old (made Change.Reservations (reservations.at fields.now))) }
    {
        let Some((reservations, rest)) = reservations_at(fields) else {
            return None;
        };
        self.reservations = reservations;
        Some(rest)
    }

    fn set_faults<'a>(&mut self, fields: &'a [u8]) -> Option<&'a [u8]>
        ensures { Gives (λ rest. (self.new, rest.now)) result
            (applied_to self.old (made Change.Faults (faults.at fields.now))) }
    {
        let Some((faults, rest)) = faults_at(fields) else {
            return None;
        };
        self.faults = faults;
        Some(rest)
    }

    fn grow<'a>(&mut self, fields: &'a [u8]) -> Option<&'a [u8]>
        ensures { Gives (λ rest. (self.new, rest.now)) result
            (applied_to self.old (made Grow (capacity.at fields.now))) }
    {
        let (capacity, rest) = u64_at(fields)?;
        blocks::grow(&mut self.store, self.capacity, capacity)?;
        self.capacity = capacity;
        Some(rest)
    }

    /// Applies the first record of some bytes.
    #[tactic(auto, unfolding(crate::specs::Records::fields_at, crate::specs::Replay::applied_at))]
    fn apply_first<'a>(&mut self, bytes: &'a [u8]) -> Option<&'a [u8]>
        ensures { Gives (λ rest. (self.new, rest.now)) result (applied_at bytes.now self.old) }
    {
        let (tag, fields) = bytes.split_first()?;
        match *tag {
            tag::WRITE => self.write(fields),
            tag::FILL => self.fill(fields),
            tag::UNMAP => self.unmap(fields),
            tag::ANCHOR => self.anchor(fields),
            tag::PAGES => self.set_pages(fields),
            tag::RESERVATIONS => self.set_reservations(fields),
            tag::FAULTS => self.set_faults(fields),
            tag::GROW => self.grow(fields),
            _ => None,
        }
    }
}

impl<S: Store> KeptParts<S> {
    /// The parts of a new disk. No block is mapped, the mode pages have their default values, no
    /// initiator is registered, and no fault is armed. All memory is taken here.
    ///
    /// # Errors
    /// Memory was refused.
    pub fn new(alloc: Global, disk: &NewDisk) -> Result<KeptParts<S>, AllocError>
        ensures { IfOk result (λ parts. parts ≡ new_disk_kept disk.now) }
    {
        let store = S::make(alloc, disk.capacity(), disk.pool())?;
        Ok(KeptParts {
            identity: *disk.identity(),
            capacity: disk.capacity(),
            pool: disk.pool(),
            store,
            saved: *ModePages::new(disk.identity().profile()).saved(),
            reservations: Reservations::new(),
            faults: Faults::new(),
        })
    }

    /// Applies the records of a batch, one after another. Blocks go from the batch to the store,
    /// and no memory is taken.
    ///
    /// # Errors
    /// A record cannot be read, or its change does not apply. The parts are of no use then.
    pub fn replay(&mut self, batch: &[u8]) -> Result<(), Damaged>
        ensures ok { OnOk result (replayed batch.now self.old ≡ Some self.new) }
        ensures err { OnErr result (replayed batch.now self.old ≡ None) }
        ensures damaged { IfErr result (λ e. IsDamagedAt batch.now self.old e.record) }
    {
        let mut rest = batch;
        while !rest.is_empty() {
            let Some(after) = self.apply_first(rest) else {
                return Err(Damaged {
                    record: batch.len() - rest.len(),
                });
            };
            rest = after;
        }
        Ok(())
    }

    /// The mode pages after power on.
    pub fn pages(&self) -> ModePages
        ensures { result ≡ restored_pages self.now.saved }
    {
        ModePages::restored(self.saved)
    }
}
