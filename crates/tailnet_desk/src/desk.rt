//! The desk.
ghost use Rattle.std.specs.Prelude.{◌≡◌, ◌≤◌, ℕ, Option, Some, None, IfOk, IfErr, IfSome, OnOk, OnErr, IsErrOf, length};
ghost use Rattle.io_edge.specs.Edge.{IsWhereTold, Rose, StillTells};
ghost use Rattle.net_rows.specs.Damage.{damage};
ghost use Rattle.net_rows.specs.Held.{Suffices};
ghost use Rattle.net_rows.specs.Rows.{after};
ghost use Rattle.row_keeper.specs.Before.{ToldBefore};
ghost use Rattle.row_keeper.specs.Calls.{one_more};
ghost use Rattle.std.specs.Option.{option_or};
ghost use Rattle.desk_state.specs.Decisions.{rows_after};
ghost use Rattle.tailnet_desk.specs.Asks.{IsShort};
ghost use Rattle.tailnet_desk.specs.Carried.{Carried, Kept, reply_of};
ghost use Rattle.tailnet_desk.specs.Crashes.{IfDone, IsSafeTurn, LeavesAlso, LeavesOnly};
ghost use Rattle.tailnet_desk.specs.Opening.{opening, unread_policy};
ghost use Rattle.tailnet_desk.specs.Seated.{IsInForce, keeping_of, point_of};
ghost use Rattle.tailnet_desk.specs.Sound.{IsSoundState};
ghost use Rattle.tailnet_desk.specs.Turns.{IsTurn};
ghost use Rattle.tailnet_desk.specs.declared.entry.Event.TheVariants as event;

use crate::ask::Ask;
use crate::deciding::decide;
use crate::kept::{apply_change, end_presence_and_sessions};
use crate::opening::{Beginning, load_beginning};
use crate::reply::{Answer, Loss, Reply};
use crate::settling::put_in_force;
use desk_state::{Decision, MachinePresence, Sessions, Snapshot, keep_rules, live_ids};
use io_edge::EdgeFault;
use machine_asks::MachineAsk;
use net_addr::Moment;
use net_rows::{Change, Kind, Shelf, Tables};
use policy_eval::InForce;
use policy_rows::Policy;
use row_keeper::Keeper;
use settings::Settings;
use std::alloc::Global;
use std::marker::Model;
use tail_base::{Failure, NoMemory};

/// The Tailnet machine over a keeper. Contracts see it as its state and its keeper, which has the
/// state's rows, where it tells them. The policy in force is that of the rows.
#[derive(Drop)]
pub struct Desk<K: Keeper> {
    pub(crate) settings: Settings,
    pub(crate) tables: Tables,
    pub(crate) policy: InForce,
    /// When the policy was seen to be expanded over the live machines, if nothing has changed since. It
    /// only saves looking again: what needs the expansion looks whether it fits.
    expanded_at: Option<Moment>,
    pub(crate) presence: Shelf<MachinePresence>,
    pub(crate) sessions: Sessions,
    pub(crate) time: Moment,
    pub(crate) keeper: K,
}

impl<K: Keeper> Model for Desk<K> {
    ghost use Rattle.desk_state.specs.State.{State};
    ghost use Rattle.tailnet_desk.specs.Seated.{IsHeld, Seated};

    ghost Value = { Seated K };

    ghost view = { λ d. record {
      state = record {
        settings = d.settings;
        rows = d.tables.rows;
        policy = d.policy;
        presence = d.presence.0;
        sessions = d.sessions.rows.0;
        attached = d.sessions.attached.0;
        next_session = d.sessions.next;
        now = d.time;
      };
      keeper = d.keeper;
    } };

    ghost invariant = { λ d. IsHeld d.tables.rows d.policy (K.told d.keeper)
        d.settings.base_domain d.sessions.next d.sessions.rows.0 };
}

/// Why a desk didn't open.
#[derive(Clone, Copy, Debug, PartialEq, Eq, Drop)]
pub enum OpenFault {
    /// The keeper failed.
    KeeperFault,
    /// The tables break a rule, or keep a policy whose text has a fault.
    Damaged { kind: Kind, id: u32 },
    /// Memory was refused.
    NoMemory,
}

/// Makes room for a change of rows and for machines that go offline. Both stay as they are.
fn make_room(
    tables: &mut Tables,
    presence: &mut Shelf<MachinePresence>,
    change: Option<&Change>,
    offline: usize,
) -> Result<(), NoMemory>
    ensures rows { tables.new.rows ≡ tables.old.rows }
    ensures presence { presence.new.0 ≡ presence.old.0 }
    ensures reserved { OnOk result (IfSome change.entry
        (λ c. Suffices tables.new.spare c.now.puts)) }
    ensures room { OnOk result (offline ≤ presence.new.1) }
{
    if let Some(change) = change {
        tables.reserve(change)?;
    }
    presence.reserve(offline)
}

/// Whether the ask is one for a map.
fn is_map(ask: &Ask) -> bool {
    match ask {
        Ask::Machine(MachineAsk::OneMap { .. }) => true,
        Ask::Machine(MachineAsk::Register { .. } | MachineAsk::Update { .. })
        | Ask::Seed { .. }
        | Ask::Operator(_)
        | Ask::Policy(_) => false,
    }
}

/// The moment if the decision leaves all that an expansion depends on.
fn unless_decided<A>(moment: Option<Moment>, decision: &Decision<A>) -> Option<Moment> {
    let rests = decision.change.is_none()
        && decision.policy.is_none()
        && decision.ended.is_empty()
        && decision.offline.is_empty();
    if rests { moment } else { None }
}

/// An answer that isn't given is dropped here.
fn drop_answer(_answer: Answer) {}

/// The reply to an ask whose decision was carried out, or wasn't.
fn reply_of(kept: Result<(), EdgeFault>, answer: Answer) -> Reply
    ensures value { result ≡ reply_of kept answer }
{
    match kept {
        Ok(()) => Reply::Done(answer),
        Err(EdgeFault::NoMemory) => {
            drop_answer(answer);
            Reply::Lost(Loss::NoMemory)
        }
        Err(EdgeFault::Failed) => {
            drop_answer(answer);
            Reply::Lost(Loss::KeeperFault)
        }
    }
}

impl<K: Keeper> Desk<K> {
    /// A desk over the keeper's tables, whose policy is in force, and in which no machine is online.
    ///
    /// Where it doesn't open, the keeper comes back.
    pub fn open(
        alloc: Global,
        settings: Settings,
        mut keeper: K,
        moment: Moment,
    ) -> Result<Desk<K>, (OpenFault, K)>
        ensures state { IfOk result (λ d. d.state ≡ opening settings d.state.rows moment) }
        ensures rows { IfOk result (λ d. IsWhereTold d.state.rows (K.told d.keeper)) }
        ensures read { IfOk result (λ d. unread_policy d.state.rows ≡ None) }
        ensures still { IfOk result (λ d. StillTells (K.told keeper) (K.told d.keeper)) }
        ensures later { IfOk result (λ d. K.faults keeper ≤ K.faults d.keeper) }
        ensures called { IfOk result (λ d. K.calls d.keeper ≡ one_more (K.calls keeper)) }
        ensures crash { IfOk result (λ d. IfSome (K.told keeper) (λ rows.
            LeavesAlso K.told K.is_clean K.may_leave keeper rows d.keeper)) }
        ensures kept { IfErr result (λ e. StillTells (K.told keeper) (K.told e.1)) }
        ensures err_called { IfErr result (λ e. K.calls e.1 ≡ one_more (K.calls keeper)) }
        ensures err_crash { IfErr result (λ e. IfSome (K.told keeper) (λ rows.
            LeavesAlso K.told K.is_clean K.may_leave keeper rows e.1)) }
        ensures err_later { IfErr result (λ e. K.faults keeper ≤ K.faults e.1) }
        ensures fault { IfErr result (λ e. e.0 ≡ OpenFault.KeeperFault
            → Rose (K.faults keeper) (K.faults e.1)) }
        ensures damaged { IfErr result (λ e. (kind : _) (id : ℕ) → e.0 ≡ OpenFault.Damaged kind id
            → IfSome (K.told e.1)
            (λ rows. unread_policy rows ≡ Some (record { kind = kind; id = id }))) }
    {
        match load_beginning(alloc, &mut keeper, moment) {
            Ok((tables, Beginning { policy, presence })) => Ok(Desk {
                settings,
                tables,
                policy: InForce::new(policy),
                expanded_at: None,
                presence,
                sessions: Sessions::new(alloc),
                time: moment,
                keeper,
            }),
            Err(fault) => Err((fault, keeper)),
        }
    }

    /// Carries out a decision. It takes all memory before the one commit.
    fn keep(
        &mut self,
        alloc: Global,
        change: Option<Change>,
        policy: Option<Policy>,
        ended: &[u32],
        offline: &[u32],
    ) -> Result<(), EdgeFault>
        requires sound { IfSome change (λ c. damage (after self.old.state.rows c) ≡ None) }
        requires policy { IsInForce (rows_after self.old.state.rows change)
            (option_or policy self.old.state.policy) }
        ensures kept { Kept self.old.state change policy ended.now offline.now result self.new.state
            (keeping_of K.told K.faults K.calls self.old.keeper)
            (keeping_of K.told K.faults K.calls self.new.keeper) }
        ensures later { K.faults self.old.keeper ≤ K.faults self.new.keeper }
        ensures told { IsWhereTold self.new.state.rows (K.told self.new.keeper) }
        ensures before { ToldBefore (K.told self.old.keeper) (K.told self.new.keeper) }
        ensures crash { LeavesAlso K.told K.is_clean K.may_leave self.old.keeper
            (rows_after self.old.state.rows change) self.new.keeper }
        ensures durable { OnOk result (IfSome change (λ _. LeavesOnly K.told K.is_clean K.may_leave
            self.old.keeper (rows_after self.old.state.rows change) self.new.keeper)) }
    {
        let room = make_room(
            &mut self.tables,
            &mut self.presence,
            change.as_ref(),
            offline.len(),
        );
        if room.is_err() {
            return Err(EdgeFault::NoMemory);
        }
        let Some(change) = change else {
            put_in_force(&mut self.policy, policy);
            end_presence_and_sessions(
                &mut self.presence,
                &mut self.sessions,
                ended,
                offline,
                self.time,
            );
            return Ok(());
        };
        self.keeper.commit(alloc, &change)?;
        apply_change(
            &mut self.tables,
            &mut self.presence,
            &mut self.sessions,
            change,
        );
        put_in_force(&mut self.policy, policy);
        end_presence_and_sessions(
            &mut self.presence,
            &mut self.sessions,
            ended,
            offline,
            self.time,
        );
        Ok(())
    }

    /// Carries out a decision, and replies.
    fn carry(&mut self, alloc: Global, decision: Decision<Answer>) -> Reply
        requires sound { IfSome decision.change (λ c. damage (after self.old.state.rows c) ≡ None) }
        requires policy { IsInForce (rows_after self.old.state.rows decision.change)
            (option_or decision.policy self.old.state.policy) }
        ensures carried { Carried self.old.state decision result self.new.state
            (keeping_of K.told K.faults K.calls self.old.keeper)
            (keeping_of K.told K.faults K.calls self.new.keeper) }
        ensures later { K.faults self.old.keeper ≤ K.faults self.new.keeper }
        ensures told { IsWhereTold self.new.state.rows (K.told self.new.keeper) }
        ensures before { ToldBefore (K.told self.old.keeper) (K.told self.new.keeper) }
        ensures crash { LeavesAlso K.told K.is_clean K.may_leave self.old.keeper
            (rows_after self.old.state.rows decision.change) self.new.keeper }
        ensures durable { IfDone result (IfSome decision.change (λ _.
            LeavesOnly K.told K.is_clean K.may_leave self.old.keeper
            (rows_after self.old.state.rows decision.change) self.new.keeper)) }
    {
        self.expanded_at = unless_decided(self.expanded_at, &decision);
        let Decision {
            change,
            policy,
            offline,
            ended,
            answer,
        } = decision;
        let kept = self.keep(alloc, change, policy, ended.as_slice(), offline.as_slice());
        reply_of(kept, answer)
    }

    /// What decisions look at.
    pub fn snapshot(&self) -> Snapshot<'_>
        ensures value { result ≡ self.now.state }
    {
        Snapshot {
            settings: &self.settings,
            tables: &self.tables,
            policy: &self.policy,
            presence: &self.presence,
            sessions: &self.sessions,
            time: self.time,
        }
    }

    /// Expands the policy over the machines that are live at that time, unless it is so already, and
    /// says whether there was memory for it.
    fn expand_over(&mut self, alloc: Global, time: Moment) -> Result<(), NoMemory>
        ensures same { self.new ≡ self.old }
    {
        let at = Snapshot {
            settings: &self.settings,
            tables: &self.tables,
            policy: &self.policy,
            presence: &self.presence,
            sessions: &self.sessions,
            time,
        };
        let live = live_ids(alloc, &at)?;
        self.policy.expand(alloc, &self.tables, live.as_slice())
    }

    /// Expands the policy over the machines that are live at the moment, unless it was seen to be so.
    /// Contracts see no change. Out of memory is told by what needs it.
    pub(crate) fn expand(&mut self, alloc: Global, moment: Moment)
        ensures same { self.new ≡ self.old }
    {
        let time = self.time.or_later(moment);
        if self.expanded_at != Some(time) && self.expand_over(alloc, time).is_ok() {
            self.expanded_at = Some(time);
        }
    }

    /// The same, where the ask is one for a map.
    fn expand_for(&mut self, alloc: Global, ask: &Ask, moment: Moment)
        ensures same { self.new ≡ self.old }
    {
        if is_map(ask) {
            self.expand(alloc, moment);
        }
    }

    fn ask_at(&mut self, alloc: Global, ask: &Ask, moment: Moment, words: Option<[u64; 4]>) -> Reply
        requires short { IsShort ask.now }
        ensures turn { IsTurn (point_of K.told K.faults K.calls self.old)
            (event.Ask ask.now moment words) result (point_of K.told K.faults K.calls self.new) }
        ensures safe { IsSafeTurn K.told K.is_clean K.may_leave self.old
            (event.Ask ask.now moment words) result self.new }
    {
        self.time = self.time.or_later(moment);
        let at = self.snapshot();
        keep_rules(&at);
        match decide(alloc, &at, ask, words) {
            Ok(decision) => self.carry(alloc, decision),
            Err(Failure::Fault(refusal)) => Reply::Refused(refusal),
            Err(Failure::NoMemory) => Reply::Lost(Loss::NoMemory),
        }
    }

    /// One event: its reply is the machine's, or out of memory, or a fault of the keeper. The lists and
    /// texts of the ask are within the limits of rows.
    ///
    /// A crash then leaves the rows of the step alone where the ask was carried out and changed rows; where
    /// it was lost, these or what it might have left before.
    pub fn ask(
        &mut self,
        alloc: Global,
        ask: &Ask,
        moment: Moment,
        words: Option<[u64; 4]>,
    ) -> Reply
        requires short { IsShort ask.now }
        ensures turn { IsTurn (point_of K.told K.faults K.calls self.old)
            (event.Ask ask.now moment words) result (point_of K.told K.faults K.calls self.new) }
        ensures safe { IsSafeTurn K.told K.is_clean K.may_leave self.old
            (event.Ask ask.now moment words) result self.new }
    {
        self.expand_for(alloc, ask, moment);
        self.ask_at(alloc, ask, moment, words)
    }

    /// The tables, which keep their rules.
    pub fn tables(&self) -> &Tables
        ensures rows { result.now.rows ≡ self.now.state.rows }
        ensures sound { damage self.now.state.rows ≡ None }
    {
        let _rules = self.tables.users();
        &self.tables
    }

    /// What holds of every desk: its settings, its tables and its sessions keep their rules, and the
    /// policy in force is that of its tables. So laws on histories can be applied from here on.
    pub fn rules(&self)
        ensures sound { IsSoundState self.now.state }
    {
        let _fields = self.settings.fields();
        let _rows = self.tables();
    }

    /// Gives the keeper back.
    pub fn close(self) -> K
        ensures value { result ≡ self.keeper }
        ensures told { IsWhereTold self.state.rows (K.told result) }
    {
        let Desk {
            settings: _,
            tables: _,
            policy: _,
            expanded_at: _,
            presence: _,
            sessions: _,
            time: _,
            keeper,
        } = self;
        keeper
    }
}
