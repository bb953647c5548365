//! The requests of a load, one after the other.
ghost use Rattle.std.specs.Prelude.{◌≡◌, ◌<◌, ◌≤◌, ◌+◌, ◌^◌, [], length, IsErrOf, OnOk, Some};
ghost use Rattle.tailnet_desk.specs.Seated.{point_of};
ghost use Rattle.tailnet_desk.specs.Turns.{IsTurn};
ghost use Rattle.load_run.specs.Early.{IsNextEarly, IsRunEarly, IsServedEarly};
ghost use Rattle.load_run.specs.Knowing.{known_of, with_known};
ghost use Rattle.load_run.specs.Messages.{task_message};
ghost use Rattle.load_run.specs.Running.{IsNextRequest, IsLoadReady, IsTaskTaken, heard_by, run_with_known, stand_of, taking_of};
ghost use Rattle.load_run.specs.Served.{IsServed};
ghost use Rattle.load_run.specs.Steps as spec;
ghost use Rattle.load_run.specs.Steps.{Runs};
ghost use Rattle.load_run.specs.Tasks as tasks;
ghost use Rattle.load_run.specs.Watching.{IsWatchedTurn, watched_of};

use crate::counts::{Counts, is_busy_answer};
use crate::heard::Heard;
use crate::known::{MachineMemory, Roll};
use crate::messages::task_message;
use crate::outside::{CountedWords, StillClock};
use crate::task::{LoadPlan, Task, TaskKind, moment_at, request_count, source_after, task_at};
use crate::watched::WatchedDesk;
use connections::serve;
use desk_front::Front;
use exit_status::Closed;
use fresh_maps::NodeTexts;
use io_edge::{MemorySink, MemorySource, NoPause, Sink};
use row_keeper::Keeper;
use std::alloc::Global;
use tail_base::{Bytes, Duplicate, Items, NoMemory, Text};

/// Why a load ended before its last request.
#[derive(Clone, Copy, Debug, PartialEq, Eq)]
pub(crate) enum Stopped {
    /// Memory was refused.
    NoMemory,
    /// The connection of a request ended early: it wasn't read, or it had a fault.
    Early,
}

/// A load under way.
#[derive(Drop)]
pub(crate) struct Run<K: Keeper> {
    pub(crate) watched: WatchedDesk<K>,
    pub(crate) words: CountedWords,
    pub(crate) roll: Roll,
    pub(crate) source: u64,
    pub(crate) counts: Counts,
}

/// The route that a machine told of last, after a request of this kind.
fn route_after(kind: TaskKind, route: Option<u8>) -> Option<u8>
    ensures value { result ≡ spec.route_after kind route }
{
    match kind {
        TaskKind::Announce { second } => Some(second),
        TaskKind::Register
        | TaskKind::Point { .. }
        | TaskKind::Poll
        | TaskKind::Save { .. }
        | TaskKind::Approve
        | TaskKind::Rename { .. } => route,
    }
}

/// Serves one request, as the only one of a connection, at this moment. Its answer goes to the
/// sink.
fn serve_message<K: Keeper>(
    alloc: Global,
    front: &Front,
    texts: &mut NodeTexts,
    watched: &mut WatchedDesk<K>,
    words: &mut CountedWords,
    message: &Text,
    seconds: i64,
    answer: &mut MemorySink,
) -> Result<(), Stopped>
    requires some { 0 < length message.now }
    requires empty { ⟦<MemorySink as Sink>⟧.holds answer.old ≡ Some [] }
    ensures served { OnOk result (IsServed IsWatchedTurn front.now message.now seconds
        words.old.drawn words.new.drawn (⟦<MemorySink as Sink>⟧.holds answer.new)
        (watched_of (point_of K.told K.faults K.calls) watched.old)
        (watched_of (point_of K.told K.faults K.calls) watched.new)) }
    ensures early { IsErrOf result Stopped.Early → IsServedEarly IsWatchedTurn front.now message.now
        (watched_of (point_of K.told K.faults K.calls) watched.old)
        (watched_of (point_of K.told K.faults K.calls) watched.new) }
{
    let Ok(bytes) = Bytes::from_slice(alloc, message.as_slice()) else {
        return Err(Stopped::NoMemory);
    };
    let mut input = MemorySource::new(bytes, Items::new(alloc));
    let mut clock = StillClock { seconds };
    match serve(
        alloc, front, texts, 1, watched, &mut input, answer, &mut clock, words, &NoPause, 0,
    ) {
        Closed::End => Ok(()),
        Closed::Early => Err(Stopped::Early),
        Closed::ReadFault | Closed::WriteFault | Closed::NoMemory => Err(Stopped::NoMemory),
    }
}

impl<K: Keeper> Run<K> {
    /// Serves the request that asks this, and counts its answer.
    fn serve_task(
        &mut self,
        alloc: Global,
        front: &Front,
        texts: &mut NodeTexts,
        message: &Text,
        seconds: i64,
    ) -> Result<(), Stopped>
        requires some { 0 < length message.now }
        requires room { self.old.counts.ok + self.old.counts.refused < 2 ^ 63 }
        ensures taken { OnOk result (IsTaskTaken front.now message.now seconds
            (taking_of (point_of K.told K.faults K.calls) self.old)
            (taking_of (point_of K.told K.faults K.calls) self.new)) }
        ensures early { IsErrOf result Stopped.Early → IsServedEarly IsTurn front.now message.now
            (point_of K.told K.faults K.calls self.old.watched.desk)
            (point_of K.told K.faults K.calls self.new.watched.desk) }
        ensures roll { self.new.roll ≡ self.old.roll }
        ensures source { self.new.source ≡ self.old.source }
    {
        let mut answer = MemorySink::new(alloc, Items::new(alloc));
        if let Err(stopped) = serve_message(
            alloc,
            front,
            texts,
            &mut self.watched,
            &mut self.words,
            message,
            seconds,
            &mut answer,
        ) {
            return Err(stopped);
        }
        let bytes = answer.bytes();
        if self.watched.heard.starved || is_busy_answer(bytes) {
            return Err(Stopped::NoMemory);
        }
        self.counts.count(bytes);
        Ok(())
    }

    /// What the machine of a task knows is what replies are heard over.
    fn listen(&mut self, alloc: Global, machine: u32) -> Result<(), NoMemory>
        requires least { 1 ≤ machine }
        requires most { machine ≤ length self.old.roll }
        ensures value { OnOk result
            (self.new ≡ heard_by (known_of self.old.roll machine) self.old) }
    {
        let known = self.roll.of(machine);
        self.watched.heard.handle = known.handle.copy(alloc)?;
        self.watched.heard.seq = known.seq;
        Ok(())
    }

    /// What was heard is what the machine of a task knows from now on.
    fn learn(&mut self, alloc: Global, task: &Task) -> Result<(), NoMemory>
        requires least { 1 ≤ task.now.machine }
        requires most { task.now.machine ≤ length self.old.roll }
        ensures value { OnOk result (self.new ≡ run_with_known task.now self.old) }
    {
        let handle = self.watched.heard.handle.copy(alloc)?;
        let route = route_after(task.kind, self.roll.of(task.machine).route);
        self.roll.set(
            task.machine,
            MachineMemory {
                handle,
                seq: self.watched.heard.seq,
                route,
            },
        );
        Ok(())
    }

    /// Makes the request of this number and serves it.
    fn serve_next(
        &mut self,
        alloc: Global,
        front: &Front,
        texts: &mut NodeTexts,
        plan: &LoadPlan,
        number: u64,
    ) -> Result<(), Stopped>
        requires machines { 0 < plan.now.machines }
        requires few { tasks.request_count plan.now < 2 ^ 63 }
        requires within { number < tasks.request_count plan.now }
        requires ready { IsLoadReady plan.now number self.old }
        ensures next { OnOk result (IsNextRequest plan.now front.now
            (stand_of (point_of K.told K.faults K.calls) number self.old)
            (stand_of (point_of K.told K.faults K.calls) (number + 1) self.new)) }
        ensures early { IsErrOf result Stopped.Early → IsNextEarly plan.now front.now
            (stand_of (point_of K.told K.faults K.calls) number self.old) }
        ensures ready { OnOk result (IsLoadReady plan.now (number + 1) self.new) }
    {
        let task = task_at(plan, number, self.source);
        let Ok(message) = task_message(alloc, &task, self.roll.of(task.machine)) else {
            return Err(Stopped::NoMemory);
        };
        let Ok(()) = self.listen(alloc, task.machine) else {
            return Err(Stopped::NoMemory);
        };
        let seconds = moment_at(plan, number);
        if let Err(stopped) = self.serve_task(alloc, front, texts, &message, seconds) {
            return Err(stopped);
        }
        let Ok(()) = self.learn(alloc, &task) else {
            return Err(Stopped::NoMemory);
        };
        self.source = source_after(plan, number, self.source);
        Ok(())
    }

    /// Makes and serves all requests.
    pub(crate) fn serve_all(
        &mut self,
        alloc: Global,
        front: &Front,
        plan: &LoadPlan,
    ) -> Result<(), Stopped>
        requires machines { 0 < plan.now.machines }
        requires ready { IsLoadReady plan.now 0 self.old }
        ensures runs { OnOk result (Runs plan.now front.now
            (stand_of (point_of K.told K.faults K.calls) 0 self.old)
            (stand_of (point_of K.told K.faults K.calls) (tasks.request_count plan.now) self.new)) }
        ensures early { IsErrOf result Stopped.Early → IsRunEarly plan.now front.now
            (stand_of (point_of K.told K.faults K.calls) 0 self.old) }
        ensures ready { OnOk result (IsLoadReady plan.now (tasks.request_count plan.now) self.new) }
    {
        let count = request_count(plan);
        let mut texts = NodeTexts::new(alloc);
        let mut number = 0;
        while number < count {
            if let Err(stopped) = self.serve_next(alloc, front, &mut texts, plan, number) {
                return Err(stopped);
            }
            number += 1;
        }
        Ok(())
    }
}
