//! The command `load`.
ghost use Rattle.std.specs.Prelude.{◌≡◌, ◌<◌, false, IfOk, IsErrOf, OnOk, replicate};
ghost use Rattle.net_rows.specs.Rows.{empty_rows};
ghost use Rattle.exit_status.specs.Lines.{Noted};
ghost use Rattle.tailnet_desk.specs.Opening.{opening};
ghost use Rattle.tailnet_desk.specs.Seated.{point_of};
ghost use Rattle.load_run.specs.Beginning.{IsBegun, IsLoadSeeded, IsSeedAsked, IsSeedHeard, IsUnseeded, unheard};
ghost use Rattle.load_run.specs.Given as given;
ghost use Rattle.load_run.specs.Knowing.{nothing};
ghost use Rattle.load_run.specs.Loads.{IsLoadEarly, IsLoadText, Loaded, load_moment, load_line, load_front};
ghost use Rattle.load_run.specs.Watching.{watched_of};

use crate::counts::Counts;
use crate::draws::first_source;
use crate::given::{load_server, load_settings};
use crate::heard::Heard;
use crate::keeper::SureKeeper;
use crate::known::Roll;
use crate::messages::SEED;
use crate::outside::CountedWords;
use crate::report::report;
use crate::run::{Run, Stopped};
use crate::task::{FIRST_MOMENT, LoadPlan};
use crate::watched::WatchedDesk;
use desk_front::Front;
use exit_status::{Status, note_line, write_all};
use io_edge::Sink;
use net_addr::Moment;
use row_keeper::Keeper;
use settings::Settings;
use std::alloc::Global;
use tail_base::{NoMemory, Text};
use tailnet_desk::{Ask, Desk, Turns};

/// A desk over empty tables, of whose replies nothing was heard.
fn open_desk(alloc: Global, settings: Settings) -> Result<WatchedDesk<SureKeeper>, NoMemory>
    ensures state { IfOk result (λ w. w.desk.state ≡ opening settings empty_rows load_moment) }
    ensures heard { IfOk result (λ w. w.heard ≡ unheard) }
{
    match Desk::open(
        alloc,
        settings,
        SureKeeper::new(alloc),
        Moment::clamp(FIRST_MOMENT),
    ) {
        Ok(desk) => Ok(WatchedDesk {
            desk,
            heard: Heard {
                handle: Text::new(alloc),
                seq: 0,
                frames: 0,
                starved: false,
            },
        }),
        Err(_) => Err(NoMemory),
    }
}

/// Asks the desk for a seed.
fn ask_seed<K: Keeper>(alloc: Global, watched: &mut WatchedDesk<K>, text: Text, moment: Moment)
    ensures asked { IsSeedAsked text moment
        (watched_of (point_of K.told K.faults K.calls) watched.old)
        (watched_of (point_of K.told K.faults K.calls) watched.new) }
{
    let ask = Ask::Seed { text };
    let _reply = watched.ask(alloc, &ask, moment, None);
}

/// Hands a seed to the desk. Of its reply nothing is counted.
fn hear_seed<K: Keeper>(
    alloc: Global,
    watched: &mut WatchedDesk<K>,
    text: Text,
    moment: Moment,
) -> Result<(), NoMemory>
    ensures seeded { OnOk result (IsSeedHeard text moment
        (watched_of (point_of K.told K.faults K.calls) watched.old)
        (watched_of (point_of K.told K.faults K.calls) watched.new)) }
{
    ask_seed(alloc, watched, text, moment);
    if watched.heard.starved {
        return Err(NoMemory);
    }
    watched.heard.frames = 0;
    Ok(())
}

/// Hands the key to the desk that machines register with.
fn seed<K: Keeper>(alloc: Global, watched: &mut WatchedDesk<K>) -> Result<(), NoMemory>
    ensures seeded { OnOk result (IsLoadSeeded
        (watched_of (point_of K.told K.faults K.calls) watched.old)
        (watched_of (point_of K.told K.faults K.calls) watched.new)) }
{
    match Text::from_str(alloc, SEED) {
        Ok(text) => hear_seed(alloc, watched, text, Moment::clamp(FIRST_MOMENT)),
        Err(_) => Err(NoMemory),
    }
}

/// A load over this desk, of which nothing was asked.
fn unseeded(
    alloc: Global,
    settings: Settings,
    plan: &LoadPlan,
    roll: Roll,
) -> Result<Run<SureKeeper>, NoMemory>
    requires settings { settings ≡ given.load_settings }
    requires roll { roll ≡ replicate plan.now.machines nothing }
    ensures unseeded { IfOk result (IsUnseeded plan.now) }
{
    match open_desk(alloc, settings) {
        Ok(watched) => Ok(Run {
            watched,
            words: CountedWords { drawn: 0 },
            roll,
            source: first_source(plan.machines, plan.events),
            counts: Counts { ok: 0, refused: 0 },
        }),
        Err(NoMemory) => Err(NoMemory),
    }
}

/// A load under these settings, of which nothing was asked.
fn begin(alloc: Global, settings: Settings, plan: &LoadPlan) -> Result<Run<SureKeeper>, NoMemory>
    requires settings { settings ≡ given.load_settings }
    ensures unseeded { IfOk result (IsUnseeded plan.now) }
{
    match Roll::new(alloc, plan.machines) {
        Ok(roll) => unseeded(alloc, settings, plan, roll),
        Err(NoMemory) => Err(NoMemory),
    }
}

/// Hands the seed to the desk of a load.
fn seed_run(alloc: Global, plan: &LoadPlan, run: &mut Run<SureKeeper>) -> Result<(), NoMemory>
    requires unseeded { IsUnseeded plan.now run.old }
    ensures begun { OnOk result (IsBegun plan.now
        (point_of ⟦<SureKeeper as Keeper>⟧.told ⟦<SureKeeper as Keeper>⟧.faults
        ⟦<SureKeeper as Keeper>⟧.calls) run.new) }
{
    seed(alloc, &mut run.watched)
}

/// Runs a load that has begun, and gives its six lines.
fn finish(
    alloc: Global,
    front: &Front,
    plan: &LoadPlan,
    run: &mut Run<SureKeeper>,
) -> Result<Text, Stopped>
    requires machines { 0 < plan.now.machines }
    requires front { front.now ≡ load_front }
    requires begun { IsBegun plan.now
        (point_of ⟦<SureKeeper as Keeper>⟧.told ⟦<SureKeeper as Keeper>⟧.faults
        ⟦<SureKeeper as Keeper>⟧.calls) run.old }
    ensures text { IfOk result (IsLoadText plan.now) }
    ensures early { IsErrOf result Stopped.Early → IsLoadEarly plan.now }
{
    if let Err(stopped) = run.serve_all(alloc, front, plan) {
        return Err(stopped);
    }
    match report(alloc, plan, &run.counts, run.watched.heard.frames) {
        Ok(text) => Ok(text),
        Err(NoMemory) => Err(Stopped::NoMemory),
    }
}

/// The front of a load and its settings.
fn prepare(alloc: Global) -> Result<(Front, Settings), NoMemory>
    ensures front { IfOk result (λ made. made.0 ≡ load_front) }
    ensures settings { IfOk result (λ made. made.1 ≡ given.load_settings) }
{
    let server = load_server(alloc)?;
    let front = Front::new(alloc, &server)?;
    let settings = load_settings(alloc)?;
    Ok((front, settings))
}

/// Seeds a load and runs it, and gives its six lines.
fn seed_and_finish(
    alloc: Global,
    front: &Front,
    plan: &LoadPlan,
    run: &mut Run<SureKeeper>,
) -> Result<Text, Stopped>
    requires machines { 0 < plan.now.machines }
    requires front { front.now ≡ load_front }
    requires unseeded { IsUnseeded plan.now run.old }
    ensures text { IfOk result (IsLoadText plan.now) }
    ensures early { IsErrOf result Stopped.Early → IsLoadEarly plan.now }
{
    match seed_run(alloc, plan, run) {
        Ok(()) => finish(alloc, front, plan, run),
        Err(NoMemory) => Err(Stopped::NoMemory),
    }
}

/// Runs a load of which nothing was asked, and gives its six lines.
fn run_whole(
    alloc: Global,
    front: &Front,
    plan: &LoadPlan,
    mut run: Run<SureKeeper>,
) -> Result<Text, Stopped>
    requires machines { 0 < plan.now.machines }
    requires front { front.now ≡ load_front }
    requires unseeded { IsUnseeded plan.now run }
    ensures text { IfOk result (IsLoadText plan.now) }
    ensures early { IsErrOf result Stopped.Early → IsLoadEarly plan.now }
{
    seed_and_finish(alloc, front, plan, &mut run)
}

/// Runs a load under these settings, and gives its six lines.
fn run_under(
    alloc: Global,
    front: &Front,
    settings: Settings,
    plan: &LoadPlan,
) -> Result<Text, Stopped>
    requires machines { 0 < plan.now.machines }
    requires front { front.now ≡ load_front }
    requires settings { settings ≡ given.load_settings }
    ensures text { IfOk result (IsLoadText plan.now) }
    ensures early { IsErrOf result Stopped.Early → IsLoadEarly plan.now }
{
    match begin(alloc, settings, plan) {
        Ok(run) => run_whole(alloc, front, plan, run),
        Err(NoMemory) => Err(Stopped::NoMemory),
    }
}

/// Runs a load, and gives its six lines.
fn run(alloc: Global, plan: &LoadPlan) -> Result<Text, Stopped>
    requires machines { 0 < plan.now.machines }
    ensures text { IfOk result (IsLoadText plan.now) }
    ensures early { IsErrOf result Stopped.Early → IsLoadEarly plan.now }
{
    match prepare(alloc) {
        Ok((front, settings)) => run_under(alloc, &front, settings, plan),
        Err(NoMemory) => Err(Stopped::NoMemory),
    }
}

/// The line of a status on errors.
fn load_line(status: Status) -> &'static str
    ensures value { result.now ≡ load_line status }
{
    match status {
        Status::Early => "tailnetd: closed early\n",
        Status::WriteFault => "tailnetd: write fault\n",
        Status::NoMemory => "tailnetd: no memory\n",
        Status::Ok
        | Status::Usage
        | Status::Settings
        | Status::ReadFault
        | Status::KeeperFault
        | Status::Damaged
        | Status::DoorFault
        | Status::Refused
        | Status::EntropyFault => "",
    }
}

/// Runs a load and writes its six lines.
fn write_load<O: Sink>(alloc: Global, plan: &LoadPlan, output: &mut O) -> Status
    requires machines { 0 < plan.now.machines }
    ensures loaded { Loaded plan.now result (O.holds output.old) (O.holds output.new)
        (O.write_faults output.old) (O.write_faults output.new) }
{
    match run(alloc, plan) {
        Ok(text) => match write_all(output, text.as_slice()) {
            Ok(()) => Status::Ok,
            Err(_) => Status::WriteFault,
        },
        Err(Stopped::NoMemory) => Status::NoMemory,
        Err(Stopped::Early) => Status::Early,
    }
}

/// Makes the requests of so many machines and events, serves them over tables in memory, and writes
/// what it counted.
// Not inlined, so that the stack of a smaller command has no room for this one.
#[inline(never)]
pub fn load_command<O: Sink, E: Sink>(
    alloc: Global,
    machines: u32,
    events: u32,
    output: &mut O,
    errors: &mut E,
) -> Status
    requires machines { 0 < machines }
    ensures loaded { Loaded (record { machines = machines; events = events }) result
        (O.holds output.old) (O.holds output.new)
        (O.write_faults output.old) (O.write_faults output.new) }
    ensures noted { Noted (load_line result) false (E.holds errors.old) (E.holds errors.new)
        (E.write_faults errors.old) (E.write_faults errors.new) }
{
    let plan = LoadPlan { machines, events };
    let status = write_load(alloc, &plan, output);
    note_line(errors, load_line(status));
    status
}
