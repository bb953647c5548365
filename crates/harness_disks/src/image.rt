//! What the disks of a database hold.
ghost use Rattle.std.specs.Prelude.{IfOk, IsTrue};

use crate::calls::{Calls, FaultPlan, Part};
use crate::faulty::Faulty;
use crate::recorded::Recorded;
use sqlite::Files;
use sqlite_disk::Disk;
use std::alloc::{AllocError, Global};

/// What is left of a file behind a run.
#[derive(Clone, Copy, Debug, PartialEq, Eq, Drop)]
pub enum Left {
    /// All that was written: the program alone stopped.
    Written,
    /// What was synced alone.
    Synced,
    /// What was synced, and every second step since.
    EverySecond { has_first: bool },
}

impl Left {
    fn of(self, alloc: Global, disk: &Recorded) -> Result<Vec<u8>, AllocError> {
        match self {
            Left::Written => Vec::from_slice(alloc, disk.bytes()),
            Left::Synced => Vec::from_slice(alloc, disk.synced()),
            Left::EverySecond { has_first } => disk.every_second(alloc, has_first),
        }
    }
}

/// The bytes of both files.
#[derive(PartialEq, Eq, Drop)]
pub struct Image {
    pub log: Vec<u8>,
    pub file: Vec<u8>,
}

impl Image {
    /// Two files that are empty.
    pub fn empty(alloc: Global) -> Image {
        Image {
            log: Vec::new(alloc),
            file: Vec::new(alloc),
        }
    }

    /// What a run leaves on these disks.
    pub fn left_on(
        alloc: Global,
        files: &Files<Faulty<Recorded>>,
        left: Left,
    ) -> Result<Image, AllocError> {
        let log = left.of(alloc, files.log.inner())?;
        let file = left.of(alloc, files.db.inner())?;
        Ok(Image { log, file })
    }

    /// Disks that hold this.
    pub fn disks(
        &self,
        alloc: Global,
        plan: FaultPlan,
    ) -> Result<Files<Faulty<Recorded>>, AllocError>
        ensures log { IfOk result (λ f. IsTrue (⟦<Faulty<Recorded> as Disk>⟧.is_usable f.log)) }
        ensures db { IfOk result (λ f. IsTrue (⟦<Faulty<Recorded> as Disk>⟧.is_usable f.db)) }
    {
        let calls = Calls::new(alloc, plan)?;
        let log = Recorded::new(alloc, &self.log)?;
        let file = Recorded::new(alloc, &self.file)?;
        Ok(Files {
            log: Faulty::new(log, Part::Log, calls.clone()?),
            db: Faulty::new(file, Part::File, calls),
        })
    }
}
