//! A disk that fails at a chosen call.
ghost use Rattle.std.specs.Prelude.{◌≡◌, ◌+◌, ◌≤◌, ◌&&◌, not, false, IsErr};
ghost use Rattle.sqlite_disk.specs.Disk.{CountsFault, MoreFaults};
ghost use Rattle.sqlite_disk.specs.Refusal.{finds_no_room, is_no_room};

use crate::calls::{CallKind, Calls, FailedCall, Part, Turn};
use sqlite_disk::{Disk, Tally};
use std::io;
use std::rc::Rc;

/// It passes calls on to another, but for those that fail.
#[derive(Drop)]
pub struct Faulty<D: Disk> {
    inner: D,
    part: Part,
    calls: Rc<Calls>,
    refused: u64,
    sync_refused: bool,
}

impl<D: Disk> Faulty<D> {
    ghost use Rattle.harness_disks.specs.Faulty.{inner_of, HasRefusedNone};

    pub(crate) fn new(inner: D, part: Part, calls: Rc<Calls>) -> Faulty<D>
        ensures inner { inner_of result ≡ inner }
        ensures fresh { HasRefusedNone result }
    {
        Faulty {
            inner,
            part,
            calls,
            refused: 0,
            sync_refused: false,
        }
    }

    pub fn inner(&self) -> &D
        ensures { result.now ≡ inner_of self.now }
    {
        &self.inner
    }

    /// The first call that failed, of this disk or of the other under its count.
    pub fn failed(&self) -> Option<FailedCall> {
        self.calls.failed()
    }
}

/// The error of a call that fails.
fn refusal(refused: &mut u64) -> io::Error
    ensures faults { MoreFaults refused.old refused.new }
    ensures rises { refused.old ≤ refused.new }
    ensures kind { is_no_room result ≡ false }
{
    *refused = refused.saturating_add(1);
    io::Error::other("the disk fails")
}

/// Counts a call that has no halves.
fn pass(calls: &Calls, part: Part, kind: CallKind, refused: &mut u64) -> io::Result<()>
    ensures faults { CountsFault result refused.old refused.new }
    ensures kind { finds_no_room result ≡ false }
{
    match calls.turn(part, kind) {
        Turn::Passes => Ok(()),
        Turn::Halves | Turn::Fails => Err(refusal(refused)),
    }
}

impl<D: Disk> Disk for Faulty<D> {
    ghost seen = { λ f. D.Disk.seen f.inner };

    ghost may_leave = { λ f. D.Disk.may_leave f.inner };

    ghost is_usable = { λ f. D.Disk.is_usable f.inner && not f.sync_refused };

    ghost faults = { λ f. D.Disk.faults f.inner + f.refused };

    ghost tally_of = { λ f. D.Disk.tally_of f.inner };

    ghost is_rotten = { λ f. D.Disk.is_rotten f.inner };

    ghost key_of = { λ f. D.Disk.key_of f.inner };

    ghost is_clean = { λ f. D.Disk.is_clean f.inner };

    ghost is_fair = { λ f. D.Disk.is_fair f.inner };

    ghost fair_if_clean = { λ f. D.Disk.fair_if_clean f.inner };

    ghost seen_may_stay = { λ f. D.Disk.seen_may_stay f.inner };

    fn mixes(&self) -> bool {
        false
    }

    fn key(&self) -> u64 {
        self.inner.key()
    }

    fn tally(&self) -> Tally {
        self.inner.tally()
    }

    fn may_be_used(&self) -> bool {
        self.inner.may_be_used() && !self.sync_refused
    }

    fn len(&mut self) -> io::Result<usize> {
        pass(&self.calls, self.part, CallKind::Length, &mut self.refused)?;
        self.inner.len()
    }

    fn read_at(&mut self, at: usize, buf: &mut [u8]) -> io::Result<()> {
        pass(&self.calls, self.part, CallKind::Read, &mut self.refused)?;
        self.inner.read_at(at, buf)
    }

    fn read_checked(&mut self, key: u64, want: u64, at: usize, buf: &mut [u8]) -> io::Result<()> {
        pass(&self.calls, self.part, CallKind::Read, &mut self.refused)?;
        self.inner.read_checked(key, want, at, buf)
    }

    fn write_at(&mut self, at: usize, bytes: &[u8]) -> io::Result<()> {
        match self.calls.turn(self.part, CallKind::Write) {
            Turn::Passes => self.inner.write_at(at, bytes),
            Turn::Halves => {
                self.inner.write_at(at, &bytes[..bytes.len() / 2])?;
                Err(refusal(&mut self.refused))
            }
            Turn::Fails => Err(refusal(&mut self.refused)),
        }
    }

    fn set_len(&mut self, len: usize) -> io::Result<()> {
        pass(
            &self.calls,
            self.part,
            CallKind::Truncation,
            &mut self.refused,
        )?;
        self.inner.set_len(len)
    }

    fn sync(&mut self) -> io::Result<()> {
        if let Err(error) = pass(&self.calls, self.part, CallKind::Sync, &mut self.refused) {
            self.sync_refused = true;
            return Err(error);
        }
        self.inner.sync()
    }
}
