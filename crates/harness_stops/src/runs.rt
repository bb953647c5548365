//! Runs of a desk over a database on two disks.
ghost use Rattle.std.specs.Prelude.{IsTrue};

use desk_front::Front;
use harness_desk::{DeskRun, Manner, Reached, asked, settings_of};
use harness_disks::{FailedCall, FaultPlan, Faulty, Image, Left, Recorded};
use keeper_sqlite::SqliteKeeper;
use settings::Settings;
use sqlite::{Alter, Connection, FileStore, Files, Options};
use sqlite_disk::Disk;
use std::alloc::Global;
use std::test::Fail;

/// The log is copied into the file after so few frames that a run does it several times.
fn options() -> Options {
    let mut options = Options::new(1);
    options.checkpoint_frames = 12;
    options
}

/// What is asked, and how it goes on behind a fault.
#[derive(Clone, Copy)]
pub struct Asked<'a> {
    pub asks: &'a [&'a str],
    pub manner: Manner,
}

/// The asks over a database.
fn asked_in<S: Alter + Drop>(
    alloc: Global,
    front: &Front,
    settings: Settings,
    conn: Connection<S>,
    what: Asked<'_>,
) -> (DeskRun, Connection<S>) {
    let keeper = SqliteKeeper::adopt(conn);
    let (seen, keeper) = asked(alloc, front, settings, keeper, what.asks, what.manner);
    (seen, keeper.give_back())
}

/// Whether a program comes to its end that has seen this, and closes its database.
fn comes_to_its_end(seen: &DeskRun, manner: Manner) -> bool {
    let is_stopped = manner == Manner::ToTheFirstFault && seen.has_lost();
    seen.reached == Reached::Asked && !is_stopped
}

/// Closes a database after a run. The log is copied into the file where the program comes to its end, and the
/// files come back in any case.
fn closed<D: Disk + Drop>(conn: Connection<FileStore<D>>, is_last: bool) -> (bool, Files<D>) {
    if !is_last {
        return (false, conn.into_store().close());
    }
    match conn.close_files() {
        Ok(files) => (true, files),
        Err((_, store)) => (false, store.close()),
    }
}

/// Asks over the database of the connection, and closes it.
fn asked_over<D: Disk + Drop>(
    alloc: Global,
    front: &Front,
    settings: Settings,
    conn: Connection<FileStore<D>>,
    what: Asked<'_>,
) -> (DeskRun, Files<D>) {
    let (mut seen, conn) = asked_in(alloc, front, settings, conn, what);
    let (is_closed, files) = closed(conn, comes_to_its_end(&seen, what.manner));
    if is_closed {
        seen.reached = Reached::Closed;
    }
    (seen, files)
}

/// One run of a program over these files: what was seen of it, and the files as it left them.
fn run_over<D: Disk + Drop>(
    alloc: Global,
    front: &Front,
    settings: Settings,
    files: Files<D>,
    what: Asked<'_>,
) -> (DeskRun, Files<D>)
    requires log { IsTrue (D.Disk.is_usable files.log) }
    requires db { IsTrue (D.Disk.is_usable files.db) }
{
    match Connection::open_files(alloc, files, options()) {
        Ok(conn) => asked_over(alloc, front, settings, conn, what),
        Err((_, left)) => (
            DeskRun::nothing(alloc, Reached::Unopened),
            left.into_files(),
        ),
    }
}

/// What was seen of a run, and its disks.
#[derive(Drop)]
pub struct Run {
    pub seen: DeskRun,
    files: Files<Faulty<Recorded>>,
}

impl Run {
    /// The call that failed, if one did.
    pub fn failed(&self) -> Option<FailedCall> {
        self.files.log.failed()
    }

    /// What is left of the disks.
    pub fn image(&self, alloc: Global, left: Left) -> Result<Image, Fail> {
        Ok(Image::left_on(alloc, &self.files, left)?)
    }
}

/// A run over disks that hold this and fail so. It is the one place that calls `run_over` at them, since a call at a
/// type this large costs a proof half a minute.
pub fn run_from(
    alloc: Global,
    front: &Front,
    image: &Image,
    plan: FaultPlan,
    what: Asked<'_>,
) -> Result<Run, Fail> {
    let settings = settings_of(alloc)?;
    let files = image.disks(alloc, plan)?;
    let (seen, files) = run_over(alloc, front, settings, files, what);
    Ok(Run { seen, files })
}
