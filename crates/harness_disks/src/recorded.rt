//! A file in memory that remembers what was done since its last sync, so that a crash may keep a part of it.
ghost use Rattle.std.specs.Prelude.{◌≡◌, ◌∷◌, [], length, true, false, refl, is_ok, IsTrue, OnOk, OnErr, IfOk};
ghost use Rattle.std.proofs.Common.{inl};
ghost use Rattle.sqlite_disk.specs.Disk.{Holds, Torn, Cut, CountsFault};
ghost use Rattle.sqlite_disk.specs.Refusal.{finds_no_room};
ghost use Rattle.sqlite_disk.specs.History.{MayLeave, resized, wrote};
ghost use Rattle.harness_disks.specs.Recorded.{step_of, steps_of};

use sqlite_disk::{Disk, Tally, digest_of};
use std::alloc::{AllocError, Global};
use std::io;

/// What was done to a file.
#[derive(Drop)]
pub(crate) enum Step {
    Wrote { at: usize, bytes: Vec<u8> },
    Resized(usize),
}

/// The same as the `Memory` of `sqlite_disk`, which forgets the bytes of its writes.
#[derive(Drop)]
pub struct Recorded {
    bytes: Vec<u8>,
    synced: Vec<u8>,
    steps: Vec<Step>,
    usable: bool,
    faults: u64,
    caught: u64,
}

impl Recorded {
    ghost use Rattle.harness_disks.specs.Recorded.{recorded_is_usable, recorded_bytes, recorded_synced};

    /// A file that holds these bytes, all of them synced.
    pub fn new(alloc: Global, bytes: &[u8]) -> Result<Recorded, AllocError>
        ensures usable { IfOk result (λ made. IsTrue (recorded_is_usable made)) }
    {
        Ok(Recorded {
            bytes: Vec::from_slice(alloc, bytes)?,
            synced: Vec::from_slice(alloc, bytes)?,
            steps: Vec::new(alloc),
            usable: true,
            faults: 0,
            caught: 0,
        })
    }

    /// What was written.
    pub fn bytes(&self) -> &[u8]
        ensures { result.now ≡ recorded_bytes self.now }
    {
        &self.bytes
    }

    /// What was synced.
    pub fn synced(&self) -> &[u8]
        ensures { result.now ≡ recorded_synced self.now }
    {
        &self.synced
    }

    /// What was synced, and every second step since: the first one, or the second. Of each other step the length
    /// alone is left, half the way to where it went.
    pub fn every_second(&self, alloc: Global, has_first: bool) -> Result<Vec<u8>, AllocError> {
        let mut file = Vec::from_slice(alloc, &self.synced)?;
        let mut is_kept = has_first;
        for step in self.steps.as_slice() {
            if is_kept {
                take_whole(&mut file, step)?;
            } else {
                take_length(&mut file, step)?;
            }
            is_kept = !is_kept;
        }
        Ok(file)
    }
}

fn take_whole(file: &mut Vec<u8>, step: &Step) -> Result<(), AllocError> {
    match step {
        Step::Wrote { at, bytes } => overwrite(file, *at, bytes),
        Step::Resized(len) => resize(file, *len),
    }
}

/// The length that the step gives a file.
fn length_behind(file: &Vec<u8>, step: &Step) -> usize {
    match step {
        Step::Wrote { at, bytes } => file.len().max(at.saturating_add(bytes.len())),
        Step::Resized(len) => *len,
    }
}

fn take_length(file: &mut Vec<u8>, step: &Step) -> Result<(), AllocError> {
    let (old, new) = (file.len(), length_behind(file, step));
    let least = old.min(new);
    resize(file, least + (old.max(new) - least) / 2)
}

impl Disk for Recorded {
    ghost seen = { λ m. m.bytes.items };

    ghost may_leave = { λ m. MayLeave false m.bytes.items m.synced.items (steps_of m.steps.items) };

    ghost is_usable = { λ m. m.usable };

    ghost faults = { λ m. m.faults };

    ghost is_clean = { λ _. true };

    ghost tally_of = { λ m. record { caught = m.caught; refused = 0 } };

    ghost key_of = { λ _. 0 };

    ghost is_fair = { λ _ _. true };

    ghost fair_if_clean = { λ _ _ _. refl };

    ghost seen_may_stay = { λ m. inl refl };

    fn mixes(&self) -> bool {
        false
    }

    // Memory tells no lie, so it needs no secret.
    fn key(&self) -> u64 {
        0
    }

    fn tally(&self) -> Tally {
        Tally {
            caught: self.caught,
            refused: 0,
        }
    }

    fn may_be_used(&self) -> bool {
        self.usable
    }

    fn len(&mut self) -> io::Result<usize> {
        Ok(self.bytes.len())
    }

    fn read_at(&mut self, at: usize, buf: &mut [u8]) -> io::Result<()> {
        if at > self.bytes.len() || buf.len() > self.bytes.len() - at {
            return Err(io::ErrorKind::UnexpectedEof.into());
        }
        buf.copy_from_slice(&self.bytes[at..at + buf.len()]);
        Ok(())
    }

    fn read_checked(&mut self, key: u64, want: u64, at: usize, buf: &mut [u8]) -> io::Result<()> {
        self.read_at(at, buf)?;
        if digest_of(key, buf) != want {
            self.faults = self.faults.saturating_add(1);
            self.caught = self.caught.saturating_add(1);
            return Err(io::ErrorKind::InvalidData.into());
        }
        Ok(())
    }

    fn write_at(&mut self, at: usize, bytes: &[u8]) -> io::Result<()> {
        count(note_write(&mut self.steps, at, bytes), &mut self.faults)?;
        count(overwrite(&mut self.bytes, at, bytes), &mut self.faults)
    }

    fn set_len(&mut self, len: usize) -> io::Result<()> {
        count(note_length(&mut self.steps, len), &mut self.faults)?;
        count(resize(&mut self.bytes, len), &mut self.faults)
    }

    fn sync(&mut self) -> io::Result<()> {
        self.usable = false;
        count(replace(&mut self.synced, &self.bytes), &mut self.faults)?;
        self.steps.clear();
        self.usable = true;
        Ok(())
    }
}

fn count(outcome: Result<(), AllocError>, faults: &mut u64) -> io::Result<()>
    ensures variant { is_ok result ≡ is_ok outcome }
    ensures kind { finds_no_room result ≡ false }
    ensures faults { CountsFault result faults.old faults.new }
{
    if outcome.is_err() {
        *faults = faults.saturating_add(1);
        return Err(io::Error::from(io::ErrorKind::OutOfMemory));
    }
    Ok(())
}

fn note_write(steps: &mut Vec<Step>, at: usize, bytes: &[u8]) -> Result<(), AllocError>
    ensures ok { OnOk result (steps_of steps.new.items
        ≡ wrote at (length bytes.now) bytes.now ∷ steps_of steps.old.items) }
    ensures err { OnErr result (steps.new.items ≡ steps.old.items) }
{
    let bytes = Vec::from_slice(*steps.allocator(), bytes)?;
    steps.push(Step::Wrote { at, bytes })?;
    Ok(())
}

fn note_length(steps: &mut Vec<Step>, len: usize) -> Result<(), AllocError>
    ensures ok { OnOk result (steps_of steps.new.items ≡ resized len ∷ steps_of steps.old.items) }
    ensures err { OnErr result (steps.new.items ≡ steps.old.items) }
{
    steps.push(Step::Resized(len))?;
    Ok(())
}

fn replace(file: &mut Vec<u8>, bytes: &[u8]) -> Result<(), AllocError>
    ensures ok { OnOk result (file.new.items ≡ bytes.now) }
    ensures err { OnErr result (file.new.items ≡ file.old.items) }
{
    *file = Vec::from_slice(*file.allocator(), bytes)?;
    Ok(())
}

fn resize(file: &mut Vec<u8>, len: usize) -> Result<(), AllocError>
    ensures len { OnOk result (length file.new.items ≡ len) }
    ensures others { Cut len file.old.items file.new.items }
{
    file.resize(len, 0)
}

fn overwrite(file: &mut Vec<u8>, at: usize, bytes: &[u8]) -> Result<(), AllocError>
    ensures written { OnOk result (Holds file.new.items at bytes.now) }
    ensures others { Torn at (length bytes.now) file.old.items file.new.items }
{
    let end = at.checked_add(bytes.len()).ok_or(AllocError)?;
    if end > file.len() {
        resize(file, end)?;
    }
    file[at..end].copy_from_slice(bytes);
    Ok(())
}
