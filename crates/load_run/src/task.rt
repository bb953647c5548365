//! What each request of a load asks.
ghost use Rattle.std.specs.Prelude.{◌≡◌, ◌<◌, ◌≤◌, ◌+◌, ◌*◌, ◌^◌, ◌&&◌, nat_le, nat_lt};
ghost use Rattle.load_run.specs.Tasks as spec;

use crate::draws::{next_source, number_drawn};

/// How large a load is.
#[derive(Clone, Copy, Debug, PartialEq, Eq)]
pub struct LoadPlan {
    /// How many machines register, and poll at last.
    pub machines: u32,
    /// How many events come between.
    pub events: u32,
}

/// A policy that is saved.
#[derive(Clone, Copy, Debug, PartialEq, Eq)]
pub enum PolicyChoice {
    /// Everybody reaches everybody.
    Open,
    /// Nobody reaches anybody.
    Closed,
    /// The first address reaches everybody.
    First,
}

/// What a request asks of its machine.
#[derive(Clone, Copy, Debug, PartialEq, Eq)]
pub enum TaskKind {
    /// It registers.
    Register,
    /// It tells of one endpoint, 192.0.2.`last`.
    Point { last: u8 },
    /// It polls, with the handle and the number that it has.
    Poll,
    /// A policy is saved.
    Save { choice: PolicyChoice },
    /// It tells of no endpoint, and of the route 10.`second`.0.0/16.
    Announce { second: u8 },
    /// The operator approves the route that it told of last, or none.
    Approve,
    /// It is renamed to `n` and this number.
    Rename { number: u32 },
}

/// What one request asks, and of which machine. Machines are counted from 1.
#[derive(Clone, Copy, Debug, PartialEq, Eq)]
pub struct Task {
    pub machine: u32,
    pub kind: TaskKind,
}

/// How many requests a load has.
pub(crate) fn request_count(plan: &LoadPlan) -> u64
    ensures value { result ≡ spec.request_count plan.now }
    ensures few { result < 2 ^ 63 }
{
    2 * u64::from(plan.machines) + u64::from(plan.events)
}

/// Whether the request of this number, counted from 0, is an event that is drawn.
pub(crate) fn is_drawn(plan: &LoadPlan, number: u64) -> bool
    ensures value { result ≡ spec.is_drawn plan.now number }
{
    u64::from(plan.machines) <= number && number < u64::from(plan.machines) + u64::from(plan.events)
}

fn choice_of(value: u32) -> PolicyChoice
    ensures value { result ≡ spec.choice_of value }
{
    match value % 3 {
        0 => PolicyChoice::Open,
        1 => PolicyChoice::Closed,
        _ => PolicyChoice::First,
    }
}

fn kind_of(kind: u32, value: u32) -> TaskKind
    ensures value { result ≡ spec.kind_of kind value }
{
    match kind % 6 {
        0 => TaskKind::Point {
            last: (value % 256) as u8,
        },
        1 => TaskKind::Poll,
        2 => TaskKind::Save {
            choice: choice_of(value),
        },
        3 => TaskKind::Announce {
            second: (value % 256) as u8,
        },
        4 => TaskKind::Approve,
        _ => TaskKind::Rename {
            number: value % 1000,
        },
    }
}

/// The event that three draws give: its kind, its machine, and a value.
fn drawn_task(plan: &LoadPlan, source: u64) -> Task
    requires some { 0 < plan.now.machines }
    ensures value { result ≡ spec.drawn_task plan.now source }
{
    let first = next_source(source);
    let second = next_source(first);
    let third = next_source(second);
    Task {
        machine: number_drawn(second) % plan.machines + 1,
        kind: kind_of(number_drawn(first), number_drawn(third)),
    }
}

/// What the request of this number asks: first each machine registers, then come the events, and at
/// last each machine polls.
#[tactic(auto, unfolding(crate::specs::Tasks::task_at))]
pub(crate) fn task_at(plan: &LoadPlan, number: u64, source: u64) -> Task
    requires some { 0 < plan.now.machines }
    requires within { number < spec.request_count plan.now }
    ensures value { result ≡ spec.task_at plan.now number source }
    ensures least { 1 ≤ result.machine }
    ensures most { result.machine ≤ plan.now.machines }
{
    let machines = u64::from(plan.machines);
    if is_drawn(plan, number) {
        drawn_task(plan, source)
    } else if number < machines {
        Task {
            machine: number as u32 + 1,
            kind: TaskKind::Register,
        }
    } else {
        Task {
            machine: (number - machines - u64::from(plan.events)) as u32 + 1,
            kind: TaskKind::Poll,
        }
    }
}

/// The source behind the request of this number.
#[tactic(auto, unfolding(crate::specs::Tasks::source_after))]
pub(crate) fn source_after(plan: &LoadPlan, number: u64, source: u64) -> u64
    ensures value { result ≡ spec.source_after plan.now number source }
{
    if is_drawn(plan, number) {
        next_source(next_source(next_source(source)))
    } else {
        source
    }
}

/// When the seed and the registrations come.
pub(crate) const FIRST_MOMENT: i64 = 1_000_000_000;

/// How many events have come when the request of this number comes, itself among them.
fn events_by(plan: &LoadPlan, number: u64) -> u64
    requires within { number < spec.request_count plan.now }
    ensures value { result ≡ spec.events_by plan.now number }
    ensures most { result ≤ plan.now.events }
{
    let machines = u64::from(plan.machines);
    if number < machines {
        0
    } else {
        (number - machines + 1).min(u64::from(plan.events))
    }
}

/// The moment of the request of this number.
#[tactic(auto, unfolding(crate::specs::Tasks::moment_at))]
pub(crate) fn moment_at(plan: &LoadPlan, number: u64) -> i64
    requires within { number < spec.request_count plan.now }
    ensures value { result ≡ spec.moment_at plan.now number }
{
    FIRST_MOMENT + events_by(plan, number) as i64
}
