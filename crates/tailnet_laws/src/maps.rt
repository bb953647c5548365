//! Who is in a map.
ghost use Rattle.std.specs.Prelude.{◌≡◌, ◌≢◌, ℕ, List, Option, Some, None, Ok, Err, Contains};
ghost use Rattle.tail_base.specs.declared.key.MachineKey as key;
ghost use Rattle.net_rows.specs.Sound.{AreSound};
ghost use Rattle.net_rows.specs.declared.machine.Machine.{Machine};
ghost use Rattle.tailcfg.specs.declared.node_row.NodeRow.{NodeRow};
ghost use Rattle.tailcfg.specs.declared.update.Update as update;
ghost use Rattle.peer_view.specs.Seen.{Node};
ghost use Rattle.fresh_maps.specs.Fresh.{fresh};
ghost use Rattle.fresh_maps.specs.declared.view.View.{View};
ghost use Rattle.desk_state.specs.State.{State, at_moment};
ghost use Rattle.desk_state.specs.declared.decision.Decision.{Decision};
ghost use Rattle.desk_state.specs.declared.refusal.Refusal.TheVariants.{NotLive};
ghost use Rattle.machine_asks.specs.Attach.{attach};
ghost use Rattle.machine_asks.specs.Decision.{decision};
ghost use Rattle.machine_asks.specs.Drain.{drain};
ghost use Rattle.machine_asks.specs.OneMap.{world_of};
ghost use Rattle.machine_asks.specs.declared.answer.MachineAnswer.{MachineAnswer};
ghost use Rattle.machine_asks.specs.declared.answer.MachineAnswer.TheVariants.{Map};
ghost use Rattle.machine_asks.specs.declared.draining.DrainDecision.{DrainDecision};
ghost use Rattle.machine_asks.specs.declared.ask.MachineAsk.{MachineAsk};
ghost use Rattle.machine_asks.specs.declared.ask.MachineAsk.TheVariants.{OneMap, Update};
ghost use Rattle.tailnet_desk.specs.Step.{moment_of, step};
ghost use Rattle.tailnet_desk.specs.declared.entry.Event.{Event};
ghost use Rattle.tailnet_desk.specs.declared.reply.Answer.TheVariants as answer;
ghost use Rattle.tailnet_desk.specs.declared.reply.Reply.TheVariants.{Done};
ghost use Rattle.tailnet_laws.specs.Shown.{Hides, IsExpired};

/// A machine whose node key has expired is in no map that is decided on for a machine, and so in
/// none that a step replies, nor in one that a poll's drain brings its client to.
pub fn expired_machines_are_in_no_map()
    ensures hides { (s : State) (m : Machine) (x : MachineAsk) (words : Option (List ℕ))
        (d : Decision MachineAnswer) (map : View) → AreSound s.rows → IsExpired s m
        → decision s x words ≡ Ok d → d.answer ≡ Map map → Hides map m.id }
    ensures replies { (s : State) (m : Machine) (e : Event) (map : View) → AreSound s.rows
        → IsExpired (at_moment s (moment_of e)) m
        → (step s e).reply ≡ Done (answer.Machine (Map map)) → Hides map m.id }
    ensures drains { (s : State) (m : Machine) (mk : key.MachineKey) (handle : List ℕ)
        (d : DrainDecision) (map : View) → AreSound s.rows → IsExpired s m
        → drain s mk handle ≡ Some d → d.session.sent ≡ Some map → Hides map m.id }
{}

/// It is no peer in a map that is computed afresh, whoever the viewer is.
pub fn expired_machines_are_no_peers()
    ensures fresh { (s : State) (m : Machine) (viewer : Node) (peer : NodeRow) → AreSound s.rows
        → IsExpired s m → Contains (fresh (world_of s) viewer).peers peer → peer.id ≢ m.id }
{}

/// And it is told that it isn't live, when it asks for its map, tells of itself or begins to poll; where
/// it polls already, no drain brings it anything, and its poll ends.
pub fn expired_machines_get_no_map()
    ensures map { (s : State) (m : Machine) (told : Option update.Update)
        (words : Option (List ℕ)) → AreSound s.rows → IsExpired s m
        → decision s (OneMap m.machine m.node told) words ≡ Err NotLive }
    ensures update { (s : State) (m : Machine) (told : update.Update)
        (words : Option (List ℕ)) → AreSound s.rows → IsExpired s m
        → decision s (Update m.machine m.node told) words ≡ Err NotLive }
    ensures attach { (s : State) (m : Machine) (handle : List ℕ) (seq : ℕ)
        (words : Option (List ℕ)) → AreSound s.rows → IsExpired s m
        → attach s m.machine m.node handle seq words ≡ Err NotLive }
    ensures drain { (s : State) (m : Machine) (handle : List ℕ) → AreSound s.rows → IsExpired s m
        → drain s m.machine handle ≡ None }
{}
