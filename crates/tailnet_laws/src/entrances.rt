//! How machines get rows.
ghost use Rattle.std.specs.Prelude.{ℕ, List, Contains};
ghost use Rattle.tail_base.specs.declared.key.MachineKey.{MachineKey};
ghost use Rattle.net_rows.specs.declared.machine.Machine.{Machine};
ghost use Rattle.desk_state.specs.State.{State};
ghost use Rattle.tailnet_desk.specs.History.{Legal, replay};
ghost use Rattle.tailnet_desk.specs.Step.{step};
ghost use Rattle.tailnet_desk.specs.declared.entry.Entry.{Entry};
ghost use Rattle.tailnet_desk.specs.declared.entry.Event.{Event};
ghost use Rattle.tailnet_laws.specs.EntranceRows.{EntersWith, HasEntered};
ghost use Rattle.tailnet_laws.specs.Entrances.{HasMachine, IsEntered, IsEntrance};

/// A machine without a row, also one whose row was removed, gets one only by a registration with a
/// pre-auth key or by an operator who admits it.
pub fn machines_enter_by_key_or_admission()
    ensures step { (s : State) (e : Event) (mk : MachineKey) → (HasMachine s.rows mk → ⊥)
        → HasMachine (step s e).state.rows mk → IsEntrance s e mk }
    ensures history { (s : State) (count : ℕ) (es : List Entry) (mk : MachineKey)
        → Legal s count es → (HasMachine s.rows mk → ⊥)
        → HasMachine (replay s es).rows mk → IsEntered s es mk }
{}

/// And then it enters by a pre-auth key that may be used at that moment, with a row of that key's user,
/// with the key's tags and those that it asked for; or by an entry under which it waits and whose time
/// hasn't passed, with a row of the user whom the operator names, with the tags that it asked for.
pub fn machines_enter_for_a_user()
    ensures step { (s : State) (e : Event) (m : Machine) → (HasMachine s.rows m.machine → ⊥)
        → Contains (step s e).state.rows.machines m → EntersWith s e m }
    ensures history { (s : State) (count : ℕ) (es : List Entry) (mk : MachineKey)
        → Legal s count es → (HasMachine s.rows mk → ⊥)
        → HasMachine (replay s es).rows mk → HasEntered s es mk }
{}
