//! Which machines a map shows, and with which prefixes.
ghost use Rattle.std.specs.Prelude.{◌≡◌, ℕ, [], List, Option, Some, false, Contains};
ghost use Rattle.tail_base.specs.declared.key.MachineKey.{MachineKey};
ghost use Rattle.net_rows.specs.Sound.{AreSound};
ghost use Rattle.net_rows.specs.declared.machine.Machine.{Machine};
ghost use Rattle.policy_rows.specs.declared.policy.Policy.{Policy};
ghost use Rattle.tailcfg.specs.declared.node_row.NodeRow.{NodeRow};
ghost use Rattle.peer_view.specs.Seen.{Node, Seen, sees};
ghost use Rattle.fresh_maps.specs.Responses.{first_response};
ghost use Rattle.fresh_maps.specs.declared.view.View.{View};
ghost use Rattle.desk_state.specs.State.{State};
ghost use Rattle.machine_asks.specs.Drain.{drain};
ghost use Rattle.machine_asks.specs.OneMap.{IsLiveRow, fresh_for};
ghost use Rattle.machine_asks.specs.declared.answer.MachineAnswer.TheVariants.{Map};
ghost use Rattle.machine_asks.specs.declared.draining.DrainDecision.{DrainDecision};
ghost use Rattle.tailnet_desk.specs.Step.{step};
ghost use Rattle.tailnet_desk.specs.declared.entry.Event.{Event};
ghost use Rattle.tailnet_desk.specs.declared.reply.Answer.TheVariants as answer;
ghost use Rattle.tailnet_desk.specs.declared.reply.Reply.TheVariants.{Done};
ghost use Rattle.tailnet_laws.specs.LiveRows.{ShowsLive};

/// Each peer that a map computed afresh shows is a live machine of the tables, and packets go through it
/// to its own addresses, its approved routes and, if it is an exit node, the exit routes alone. So it is
/// with the machine's own node, with the first response of a session, with the map that a poll's drain
/// brings its client to, and with a map that a step replies, which is computed from the state after it.
pub fn maps_show_live_machines()
    ensures peers { (s : State) (m : Machine) (peer : NodeRow) → AreSound s.rows
        → Contains (fresh_for s m).peers peer → ShowsLive s peer }
    ensures own { (s : State) (m : Machine) → IsLiveRow s m → ShowsLive s (fresh_for s m).node }
    ensures first { (s : State) (m : Machine) (handle : Option (List ℕ)) (seq : Option ℕ)
        (peer : NodeRow) → AreSound s.rows
        → Contains (first_response (fresh_for s m) handle seq).peers peer → ShowsLive s peer }
    ensures drains { (s : State) (mk : MachineKey) (handle : List ℕ) (d : DrainDecision)
        (map : View) (peer : NodeRow) → AreSound s.rows → drain s mk handle ≡ Some d
        → d.session.sent ≡ Some map → Contains map.peers peer → ShowsLive s peer }
    ensures replies { (s : State) (e : Event) (map : View) (peer : NodeRow)
        → AreSound (step s e).state.rows
        → (step s e).reply ≡ Done (answer.Machine (Map map)) → Contains map.peers peer
        → ShowsLive (step s e).state peer }
{}

/// Under a policy that has rules, but none of them, no machine sees another one: no map that is computed
/// afresh has a peer, and its filter lets nothing through.
pub fn closed_policies_show_nobody()
    ensures sight { (w : Seen) (policy : Policy) (m p : Node) → w.policy ≡ Some policy
        → policy.rules ≡ Some [] → sees w m p ≡ false }
    ensures peers { (s : State) (policy : Policy) (m : Machine) → s.policy ≡ Some policy
        → policy.rules ≡ Some [] → (fresh_for s m).peers ≡ [] }
    ensures filter { (s : State) (policy : Policy) (m : Machine) → s.policy ≡ Some policy
        → policy.rules ≡ Some [] → (fresh_for s m).filter ≡ [] }
{}
