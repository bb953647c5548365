//! What is seen of a desk that is asked a row of asks.
use crate::desks::{Manner, ReplyKind, answers, opened, settings_of};
use crate::shown::text_of;
use desk_front::Front;
use net_rows::Tables;
use row_keeper::{Keeper, MemoryKeeper};
use settings::Settings;
use std::alloc::Global;
use std::test::Fail;
use tail_base::{Items, NoMemory};
use tailnet_desk::{Desk, OpenFault};

/// How far a run came.
#[derive(Clone, Copy, Debug, PartialEq, Eq, Drop)]
pub enum Reached {
    /// The database or its tables didn't open, so that nothing was asked.
    Unopened,
    /// The tables were damaged, or memory was refused.
    Broken,
    Asked,
    /// The log was copied into the file, too.
    Closed,
}

/// What a run found, was answered, and left.
#[derive(Drop)]
pub struct DeskRun {
    /// The tables that its desk began with, as a text.
    pub found: Option<String>,
    /// What its asks were answered, as far as they were asked.
    pub answers: Vec<ReplyKind>,
    /// The tables that its desk ended with.
    pub left: Option<String>,
    pub reached: Reached,
}

impl DeskRun {
    /// Nothing was found.
    pub fn nothing(alloc: Global, reached: Reached) -> DeskRun {
        DeskRun {
            found: None,
            answers: Vec::new(alloc),
            left: None,
            reached,
        }
    }

    /// Whether the keeper failed at an ask.
    pub fn has_lost(&self) -> bool {
        self.answers.as_slice().contains(&ReplyKind::Lost)
    }
}

/// What comes of a desk that doesn't open.
fn reached_by_fault(fault: &OpenFault) -> Reached {
    match fault {
        OpenFault::KeeperFault => Reached::Unopened,
        OpenFault::Damaged { .. } | OpenFault::NoMemory => Reached::Broken,
    }
}

/// What is seen of a desk that is asked these lines.
fn seen_at<K: Keeper>(
    alloc: Global,
    front: &Front,
    desk: &mut Desk<K>,
    asks: &[&str],
    manner: Manner,
) -> Result<DeskRun, NoMemory> {
    let found = text_of(alloc, desk.tables())?;
    let answers = answers(alloc, front, desk, asks, manner)?;
    let left = text_of(alloc, desk.tables())?;
    Ok(DeskRun {
        found: Some(found),
        answers,
        left: Some(left),
        reached: Reached::Asked,
    })
}

/// The asks at a desk, which is then closed.
fn asked_at<K: Keeper>(
    alloc: Global,
    front: &Front,
    mut desk: Desk<K>,
    asks: &[&str],
    manner: Manner,
) -> (DeskRun, K) {
    let seen = seen_at(alloc, front, &mut desk, asks, manner);
    let keeper = desk.close();
    match seen {
        Ok(seen) => (seen, keeper),
        Err(_) => (DeskRun::nothing(alloc, Reached::Broken), keeper),
    }
}

/// The asks at a desk over this keeper: what is seen of it, and the keeper, which comes back in any case.
pub fn asked<K: Keeper>(
    alloc: Global,
    front: &Front,
    settings: Settings,
    keeper: K,
    asks: &[&str],
    manner: Manner,
) -> (DeskRun, K) {
    match opened(alloc, settings, keeper) {
        Ok(desk) => asked_at(alloc, front, desk, asks, manner),
        Err((fault, keeper)) => (DeskRun::nothing(alloc, reached_by_fault(&fault)), keeper),
    }
}

/// What is seen of a desk in memory that begins with empty tables.
pub fn asked_in_memory(alloc: Global, front: &Front, asks: &[&str]) -> Result<DeskRun, Fail> {
    let settings = settings_of(alloc)?;
    let keeper = MemoryKeeper::new(Tables::empty(alloc), Items::new(alloc));
    let manner = Manner::ToTheLastAsk;
    Ok(asked(alloc, front, settings, keeper, asks, manner).0)
}
