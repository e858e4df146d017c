// A disk over a store, whose calls are made by data.
ghost use Rattle.std.specs.Prelude.{◌≡◌, ◌+◌, ◌≤◌};
ghost use Rattle.target_tests.specs.declared.stores.disk.TheConstants.{CAPACITY};

use sg_block_map::BlockMap;
use sg_extent_map::ExtentMap;
use sg_plain_map::PlainMap;
use sg_store::{BLOCK_LENGTH, Counts, MAX_POOL, Miscompare, Store};
use sg_wire::Cut;
use std::alloc::{AllocError, Global};

/// The addresses of each disk: more than a first address and a count of 32 bits reach.
const CAPACITY: u64 = 1 << 33;

/// A call over a range of addresses.
pub(super) enum Call {
    /// Writes blocks of one byte.
    Write(u8),
    /// Fills with blocks of one byte.
    Fill(u8),
    /// Reads blocks. Each byte of them has to be this one.
    Read(u8),
    /// Compares with blocks of one byte, in which the byte at an offset is another one.
    Compare(u8, usize),
    /// Compares each block with one block of one byte, in which the byte at an offset is another one.
    CompareEach(u8, usize),
    Unmap,
    Anchor,
    /// The number of addresses that have no block.
    Need,
    /// The provisioning status from the first address on, without room for data-in.
    Status,
}

/// The result of a call that returns no number. It was done; or it was not, because there was too
/// little space or another byte was read.
pub(super) const DONE: u64 = 1;

pub(super) const NOT_DONE: u64 = 0;

/// The result of a comparison that finds no difference. Otherwise it is the offset of the first byte
/// that differs.
pub(super) const SAME: u64 = u64::MAX;

/// No byte is another one.
pub(super) const NOWHERE: usize = usize::MAX;

/// A call over addresses: the call, the first address and the number of addresses, and the call's
/// result. Then come the numbers of addresses that have a block, of mapped addresses and of
/// records. The last two are the least and the greatest counts of visits, probes and links.
pub(super) type Step = (Call, u32, u32, u64, [u64; 3], [u64; 3], [u64; 3]);

/// A store whose records are counted.
pub(super) trait Records: Store {
    fn records(&self) -> u64;
}

impl Records for BlockMap {
    fn records(&self) -> u64 {
        self.run_count() as u64
    }
}

impl Records for ExtentMap {
    fn records(&self) -> u64 {
        self.extent_count() as u64
    }
}

impl Records for PlainMap {
    fn records(&self) -> u64 {
        u64::from(self.used())
    }
}

/// The result of a comparison as a number.
fn offset_of(compared: Result<(), Miscompare>) -> u64 {
    match compared {
        Ok(()) => SAME,
        Err(miscompare) => miscompare.offset,
    }
}

#[derive(Drop)]
pub(super) struct Disk<S: Store> {
    alloc: Global,
    store: S,
    ghost large: { (S.disk store).capacity ≡ CAPACITY },
}

impl<S: Store> Disk<S> {
    pub(super) fn new(alloc: Global, pool: u32) -> Result<Disk<S>, AllocError> {
        let store = S::make(alloc, CAPACITY, pool.clamp(1, MAX_POOL))?;
        Ok(Disk { alloc, store })
    }

    /// Makes a call. Only this call is counted.
    fn call(&mut self, call: &Call, first: u32, count: u32) -> Result<u64, AllocError> {
        let lba = u64::from(first);
        match call {
            Call::Write(byte) => self.write(lba, count, *byte),
            Call::Fill(byte) => self.fill(lba, count, *byte),
            Call::Read(byte) => self.read(lba, count, *byte),
            Call::Compare(byte, at) => self.compare(lba, count, *byte, *at),
            Call::CompareEach(byte, at) => Ok(self.compare_each(lba, count, *byte, *at)),
            Call::Unmap => Ok(self.unmap(lba, count)),
            Call::Anchor => Ok(self.anchor(lba, count)),
            Call::Need => Ok(self.need(lba, count)),
            Call::Status => Ok(self.status(first)),
        }
    }

    fn write(&mut self, lba: u64, count: u32, byte: u8) -> Result<u64, AllocError>
        requires { lba + count ≤ CAPACITY }
    {
        let bytes = vec![in self.alloc; byte; BLOCK_LENGTH * count as usize]?;
        self.store.restart_counts();
        let done = self.store.write(lba, count, &bytes);
        Ok(u64::from(done.is_ok()))
    }

    fn fill(&mut self, lba: u64, count: u32, byte: u8) -> Result<u64, AllocError>
        requires { lba + count ≤ CAPACITY }
    {
        self.store.restart_counts();
        let done = self.store.fill(lba, count, &[byte; BLOCK_LENGTH]);
        Ok(u64::from(done.is_ok()))
    }

    fn read(&mut self, lba: u64, count: u32, byte: u8) -> Result<u64, AllocError>
        requires { lba + count ≤ CAPACITY }
    {
        let mut bytes = vec![in self.alloc; !byte; BLOCK_LENGTH * count as usize]?;
        self.store.restart_counts();
        self.store.read(lba, count, &mut bytes);
        let mut is_same = true;
        for it in &bytes {
            is_same = is_same && *it == byte;
        }
        Ok(u64::from(is_same))
    }

    fn compare(&mut self, lba: u64, count: u32, byte: u8, at: usize) -> Result<u64, AllocError>
        requires { lba + count ≤ CAPACITY }
    {
        let mut bytes = vec![in self.alloc; byte; BLOCK_LENGTH * count as usize]?;
        if let Some(other) = bytes.get_mut(at) {
            *other = !byte;
        }
        self.store.restart_counts();
        Ok(offset_of(self.store.compare(lba, count, &bytes)))
    }

    fn compare_each(&mut self, lba: u64, count: u32, byte: u8, at: usize) -> u64
        requires { lba + count ≤ CAPACITY }
    {
        let mut block = [byte; BLOCK_LENGTH];
        if let Some(other) = block.get_mut(at) {
            *other = !byte;
        }
        self.store.restart_counts();
        offset_of(self.store.compare_each(lba, count, &block))
    }

    fn unmap(&mut self, lba: u64, count: u32) -> u64
        requires { lba + count ≤ CAPACITY }
    {
        self.store.restart_counts();
        self.store.unmap(lba, u64::from(count));
        DONE
    }

    fn anchor(&mut self, lba: u64, count: u32) -> u64
        requires { lba + count ≤ CAPACITY }
    {
        self.store.restart_counts();
        u64::from(self.store.anchor(lba, count).is_ok())
    }

    fn need(&mut self, lba: u64, count: u32) -> u64
        requires { lba + count ≤ CAPACITY }
    {
        self.store.restart_counts();
        self.store.need(lba, u64::from(count))
    }

    fn status(&mut self, lba: u32) -> u64 {
        self.store.restart_counts();
        self.store.status(u64::from(lba), &mut Cut::new(&mut [], 0));
        DONE
    }
}

impl<S: Records> Disk<S> {
    /// Makes the call of a step. Returns whether the call has the right result and leaves the right
    /// records.
    fn takes(&mut self, step: &Step) -> Result<bool, AllocError> {
        let (call, lba, count, value, held, least, most) = step;
        let returned = self.call(call, *lba, *count)?;
        let used = u64::from(self.store.used());
        let mapped = u64::from(self.store.mapped());
        let holds = [used, mapped, self.store.records()] == *held;
        Ok(returned == *value && holds && is_within(self.store.counts(), least, most))
    }
}

fn is_within(counts: Counts, least: &[u64; 3], most: &[u64; 3]) -> bool {
    let mut is_within = true;
    for (count, least, most) in [
        (counts.visits, least[0], most[0]),
        (counts.probes, least[1], most[1]),
        (counts.links, least[2], most[2]),
    ] {
        is_within = is_within && least <= count && count <= most;
    }
    is_within
}

/// Makes the calls of steps in turn, on a new disk with a pool of `pool` blocks. Returns the index
/// of the first step with another result or other records, if there is one.
pub(super) fn first_wrong<S: Records>(
    alloc: Global,
    pool: u32,
    steps: &[Step],
) -> Result<Option<usize>, AllocError> {
    let mut disk: Disk<S> = Disk::new(alloc, pool)?;
    let mut index: usize = 0;
    for step in steps {
        if !disk.takes(step)? {
            return Ok(Some(index));
        }
        index = index.saturating_add(1);
    }
    Ok(None)
}
