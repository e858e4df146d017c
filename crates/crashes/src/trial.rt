// One list: a disk in a file that crashes again and again.
ghost use Rattle.std.specs.Prelude.{IfOk};
ghost use Rattle.sg_kept.specs.Opening.{HasStarted};

use crate::begin::{make, open};
use crate::device::{DeviceCall, LoggedFile};
use crate::expected::{Expected, replies_of};
use crate::medium::{Medium, Sync};
use crate::probe::probe;
use crate::random::Random;
use crate::run::{Buffers, Note, do_in_memory, do_steps};
use crate::step::{BLOCKS, Step, first_steps, next_full_steps, next_steps};
use sg_changes::NewDisk;
use sg_journal::Device;
use sg_kept::KeptDisk;
use sg_pages::Identity;
use sg_store::Store;
use sg_target::{Config, Happening, Target};
use sg_wire::Profile;
use std::alloc::{AllocError, Global};

/// The number of blocks that can be mapped or anchored at once.
const POOL: u32 = 8;

/// Each such list fills batches, which then wait in the file.
const FULL: u64 = 249;

/// The number of writes after which the file is almost long. Each of them takes 8 KiB: a sector for its gate,
/// and one for its blocks. The file gets longer by the room for 32 of them. A file of more than 16.5 MiB is
/// long, if few blocks are used, and 65 times such room is less.
const WRITES: u16 = 65 * 32 - 2;

/// What was done, and how often it was wrong.
#[derive(Clone, Copy, Default)]
pub(crate) struct Counts {
    pub(crate) steps: u64,
    /// Calls of the device.
    pub(crate) calls: u64,
    pub(crate) cuts: u64,
    pub(crate) exchanges: u64,
    /// Files that the disk has written afresh by itself.
    pub(crate) compactions: u64,
    pub(crate) crashes: u64,
    pub(crate) failures: u64,
    pub(crate) wrong: u64,
}

impl Counts {
    pub(crate) fn plus(self, other: Counts) -> Counts {
        Counts {
            steps: self.steps.saturating_add(other.steps),
            calls: self.calls.saturating_add(other.calls),
            cuts: self.cuts.saturating_add(other.cuts),
            exchanges: self.exchanges.saturating_add(other.exchanges),
            compactions: self.compactions.saturating_add(other.compactions),
            crashes: self.crashes.saturating_add(other.crashes),
            failures: self.failures.saturating_add(other.failures),
            wrong: self.wrong.saturating_add(other.wrong),
        }
    }

    fn add_calls(&mut self, calls: &[DeviceCall]) {
        for call in calls {
            self.calls = self.calls.saturating_add(1);
            match call {
                DeviceCall::Cut { .. } => self.cuts = self.cuts.saturating_add(1),
                DeviceCall::Exchange => self.exchanges = self.exchanges.saturating_add(1),
                _ => {}
            }
        }
    }

    fn add_wrong(&mut self, is_right: bool) {
        if !is_right {
            self.wrong = self.wrong.saturating_add(1);
        }
    }
}

/// A file that a crash left, and the first part of the steps that it has.
#[derive(Drop)]
struct Crash {
    file: Vec<u8>,
    found: usize,
}

/// A disk in a file, and the same disk in memory.
#[derive(Drop)]
pub(crate) struct Trial {
    alloc: Global,
    profile: Profile,
    sync: Sync,
    random: Random,
    /// The steps fill batches.
    is_full: bool,
    new: NewDisk,
    config: Config,
    /// The steps that the file has, from the new disk on.
    past: Vec<Step>,
    /// The file as the last crash left it. It is empty before the disk was made.
    file: Vec<u8>,
    pub(crate) counts: Counts,
}

impl Trial {
    /// A disk of a profile that was not made yet.
    pub(crate) fn new(alloc: Global, profile: Profile, sync: Sync, seed: u64) -> Option<Trial> {
        let identity = Identity::standard().with_profile(profile);
        Some(Trial {
            alloc,
            profile,
            sync,
            random: Random::new(seed),
            is_full: seed.is_multiple_of(FULL),
            new: NewDisk::new(BLOCKS, POOL, identity)?,
            config: Config::new(BLOCKS, POOL, identity).ok()?,
            past: Vec::new(alloc),
            file: Vec::new(alloc),
            counts: Counts::default(),
        })
    }

    /// 1 before the disk is made, and 0 after it. A crash may leave a file without a disk, too, while it is
    /// made.
    fn unmade(&self) -> usize {
        usize::from(self.file.is_empty())
    }

    /// The disk in memory, after the steps that the file has and these. None if memory was refused.
    fn in_memory<S: Store>(&self, steps: &[Step], buffers: &mut Buffers) -> Option<Target<S>> {
        let mut target = Target::new(self.alloc, self.config).ok()?;
        for step in &self.past {
            let _ = do_in_memory(&mut target, step, buffers);
        }
        for step in steps {
            let _ = do_in_memory(&mut target, step, buffers);
        }
        Some(target)
    }

    /// The replies after each first part of the steps and a power cycle.
    fn expected<S: Store>(&self, steps: &[Step], buffers: &mut Buffers) -> Option<Expected> {
        let mut replies = Vec::new(self.alloc);
        if self.unmade() > 0 {
            replies.push(Vec::new(self.alloc)).ok()?;
        }
        for count in 0..=steps.len() {
            let mut target = self.in_memory::<S>(&steps[..count], buffers)?;
            target.power_cycle();
            let mut each = Vec::new(self.alloc);
            probe(&mut target, buffers, &mut each).ok()?;
            replies.push(each).ok()?;
        }
        Some(Expected {
            replies,
            least: 0,
            most: 0,
        })
    }

    /// Makes the disk, or opens it. An error has the file if its device failed while the disk was made.
    fn begin<S: Store>(
        &self,
        failing_call: Option<usize>,
    ) -> Result<KeptDisk<S, LoggedFile>, Option<LoggedFile>>
        ensures started { IfOk result (HasStarted ⟦<LoggedFile as Device>⟧.seen
            ⟦<LoggedFile as Device>⟧.may_leave) }
    {
        if self.file.is_empty() {
            return make(self.alloc, &self.new, failing_call);
        }
        match open(self.alloc, &self.file, failing_call) {
            Some(disk) => Ok(disk),
            None => Err(None),
        }
    }

    /// Opens a file that a crash left, and returns which first part of the steps it has. None if it has
    /// none that it may have.
    ///
    /// # Errors
    /// Memory was refused.
    fn check<S: Store>(
        &mut self,
        file: &[u8],
        expected: &Expected,
        buffers: &mut Buffers,
    ) -> Result<Option<usize>, AllocError> {
        let replies = replies_of::<S>(self.alloc, file, buffers)?;
        let found = expected.find(&replies);
        self.counts.crashes = self.counts.crashes.saturating_add(1);
        self.counts.add_wrong(found.is_some());
        Ok(found)
    }

    /// Lets the disk crash after these calls have begun, which are all calls so far. Now and then the crash
    /// is kept.
    fn crash<S: Store>(
        &mut self,
        medium: &Medium,
        calls: &[DeviceCall],
        expected: &Expected,
        kept: &mut Crash,
        buffers: &mut Buffers,
    ) -> Option<()> {
        let file = medium.crash(calls, &mut self.random).ok()?;
        let found = self.check::<S>(&file, expected, buffers).ok()?;
        if let Some(found) = found
            && self.random.is_one_in(8)
        {
            *kept = Crash { file, found };
        }
        Some(())
    }

    /// Lets the disk crash at each call of the device. Returns one of the crashes. None if memory was
    /// refused.
    fn crash_at_each_call<S: Store>(
        &mut self,
        calls: &[DeviceCall],
        notes: &[Note],
        expected: &mut Expected,
        buffers: &mut Buffers,
    ) -> Option<Crash> {
        let mut kept = Crash {
            file: self.file.to_vec(self.alloc).ok()?,
            found: 0,
        };
        let mut medium = Medium::new(self.alloc, &self.file, self.sync).ok()?;
        let mut ended = 0;
        for (step, note) in notes.iter().enumerate() {
            expected.most = step.saturating_add(self.unmade());
            for number in ended..note.calls {
                let begun = calls.get(..=number)?;
                for _ in 0..crashes_of(begun.last()) {
                    self.crash::<S>(&medium, begun, expected, &mut kept, buffers)?;
                }
                medium.end_call(begun).ok()?;
            }
            if note.is_flushed {
                expected.least = expected.most;
            }
            if ended < note.calls {
                let begun = calls.get(..note.calls)?;
                self.crash::<S>(&medium, begun, expected, &mut kept, buffers)?;
            }
            ended = note.calls;
        }
        Some(kept)
    }

    /// Does the steps without an error, and lets the disk crash at each call of the device. Returns the
    /// number of calls, and one of the crashes.
    fn succeed<S: Store>(
        &mut self,
        steps: &[Step],
        expected: &mut Expected,
        buffers: &mut Buffers,
    ) -> Option<(usize, Crash)> {
        let Ok(mut disk) = self.begin::<S>(None) else {
            return None;
        };
        let mut target = self.in_memory::<S>(&[], buffers)?;
        let mut notes = Vec::new(self.alloc);
        notes.push(first_note(&disk.journal.device)).ok()?;
        do_steps(&mut disk, &mut target, steps, buffers, &mut notes).ok()?;
        self.count_notes(&notes);
        let calls = disk.journal.device.calls();
        self.counts.add_calls(calls);
        self.count_compactions(steps, &notes, calls);
        let crash = self.crash_at_each_call::<S>(calls, &notes, expected, buffers)?;
        Some((calls.len(), crash))
    }

    /// Counts the steps that have written the file afresh although they did not ask for it.
    fn count_compactions(&mut self, steps: &[Step], notes: &[Note], calls: &[DeviceCall]) {
        let mut ended = notes.first().map_or(0, |note| note.calls);
        for (step, note) in steps.iter().zip(notes.iter().skip(1)) {
            let of_step = calls.get(ended..note.calls).unwrap_or(&[]);
            let has_exchanged = of_step
                .iter()
                .any(|call| matches!(call, DeviceCall::Exchange));
            if has_exchanged && !matches!(step, Step::Compact) {
                self.counts.compactions = self.counts.compactions.saturating_add(1);
            }
            ended = note.calls;
        }
    }

    fn count_notes(&mut self, notes: &[Note]) {
        for note in notes {
            self.counts.add_wrong(note.is_right);
        }
    }

    /// Does the same steps while a call of the device fails, and then lets the disk crash.
    fn fail<S: Store>(
        &mut self,
        failing_call: usize,
        steps: &[Step],
        expected: &mut Expected,
        buffers: &mut Buffers,
    ) -> Option<()> {
        let mut notes = Vec::new(self.alloc);
        let device = match self.begin::<S>(Some(failing_call)) {
            Ok(mut disk) => {
                let mut target = self.in_memory::<S>(&[], buffers)?;
                notes.push(first_note(&disk.journal.device)).ok()?;
                do_steps(&mut disk, &mut target, steps, buffers, &mut notes).ok()?;
                disk.journal.device
            }
            Err(device) => device?,
        };
        self.count_notes(&notes);
        self.counts.failures = self.counts.failures.saturating_add(1);
        // After the failing call, the device is not called again.
        self.counts
            .add_wrong(device.calls().len() == failing_call.saturating_add(1));
        self.allow_after_failure(failing_call, &notes, expected);
        self.crash_after_failure::<S>(device.calls(), expected, buffers)
    }

    /// The step whose call failed may be in the file or not.
    fn allow_after_failure(&self, failing_call: usize, notes: &[Note], expected: &mut Expected) {
        expected.least = 0;
        expected.most = self.unmade();
        for (step, note) in notes.iter().enumerate() {
            expected.most = step.saturating_add(self.unmade());
            if failing_call < note.calls {
                return;
            }
            if note.is_flushed {
                expected.least = expected.most;
            }
        }
    }

    /// Lets the disk crash after the last of these calls has failed.
    fn crash_after_failure<S: Store>(
        &mut self,
        calls: &[DeviceCall],
        expected: &Expected,
        buffers: &mut Buffers,
    ) -> Option<()> {
        let mut medium = Medium::new(self.alloc, &self.file, self.sync).ok()?;
        for count in 1..calls.len() {
            medium.end_call(calls.get(..count)?).ok()?;
        }
        for _ in 0..crashes_of(calls.last()).max(1) {
            let file = medium.crash(calls, &mut self.random).ok()?;
            let _ = self.check::<S>(&file, expected, buffers).ok()?;
        }
        Some(())
    }

    /// Makes the disk, and writes so often to it that a few steps more make its file long. None if memory was
    /// refused.
    pub(crate) fn wear<S: Store>(&mut self, buffers: &mut Buffers) -> Option<()> {
        let first = first_steps()?;
        let steps = wearing_steps(self.alloc, &first)?;
        let Ok(mut disk) = self.begin::<S>(None) else {
            return None;
        };
        let mut target = self.in_memory::<S>(&[], buffers)?;
        let mut notes = Vec::new(self.alloc);
        do_steps(&mut disk, &mut target, &steps, buffers, &mut notes).ok()?;
        self.count_notes(&notes);
        self.file = disk.journal.device.bytes().to_vec(self.alloc).ok()?;
        // To write the same blocks once more changes nothing.
        for step in &first {
            self.past.push(*step).ok()?;
        }
        self.past.push(Step::Happen(Happening::Power)).ok()
    }

    /// Does the next steps, with a crash at each call, and once with a call that fails. Then the disk is one
    /// that a crash left. None if memory was refused.
    pub(crate) fn go_on<S: Store>(&mut self, buffers: &mut Buffers) -> Option<()> {
        let steps = if self.is_full {
            next_full_steps(&mut self.random, self.profile)?
        } else {
            next_steps(&mut self.random, self.profile)?
        };
        self.counts.steps = self.counts.steps.saturating_add(steps.len() as u64);
        let mut expected = self.expected::<S>(&steps, buffers)?;
        let (calls, crash) = self.succeed::<S>(&steps, &mut expected, buffers)?;
        if calls > 0 {
            let failing_call = self.random.up_to(calls - 1);
            self.fail::<S>(failing_call, &steps, &mut expected, buffers)?;
        }
        let unmade = self.unmade();
        self.file = crash.file;
        if crash.found < unmade {
            return Some(());
        }
        for step in steps.get(..crash.found - unmade)? {
            self.past.push(*step).ok()?;
        }
        self.past.push(Step::Happen(Happening::Power)).ok()
    }
}

/// The first step, and then the second one so often that the file is almost long. None if memory was
/// refused.
fn wearing_steps(alloc: Global, first: &[Step; 2]) -> Option<Vec<Step>> {
    let mut steps = Vec::new(alloc);
    steps.push(first[0]).ok()?;
    for _ in 0..WRITES {
        steps.push(first[1]).ok()?;
    }
    Some(steps)
}

/// What is known after the disk was made or opened.
fn first_note(device: &LoggedFile) -> Note {
    Note {
        calls: device.calls().len(),
        is_flushed: true,
        is_right: true,
    }
}

/// The number of crashes at a call. A call that changes only the draft leaves the file as it is.
fn crashes_of(call: Option<&DeviceCall>) -> u8 {
    match call {
        Some(DeviceCall::Write { .. } | DeviceCall::Cut { .. }) => 2,
        Some(DeviceCall::Sync | DeviceCall::Exchange) => 1,
        Some(DeviceCall::BeginDraft | DeviceCall::WriteDraft { .. }) | None => 0,
    }
}
