//! What holds of machines' asks in any state. None of these functions does anything: each states a
//! law.
ghost use Rattle.std.specs.Prelude.{◌≡◌, ℕ, List, Option, None, Ok, false};
ghost use Rattle.settings.specs.Settings.{AreSettings};
ghost use Rattle.net_rows.specs.Damage.{damage};
ghost use Rattle.net_rows.specs.declared.machine.Machine.{Machine};
ghost use Rattle.tailcfg.specs.declared.register.Register as form;
ghost use Rattle.fresh_maps.specs.Profiles.{profile_of};
ghost use Rattle.desk_state.specs.Decisions.{IsPlain, only, rows_after};
ghost use Rattle.desk_state.specs.State.{State};
ghost use Rattle.desk_state.specs.declared.decision.Decision.{Decision};
ghost use Rattle.machine_asks.specs.Decision.{decision};
ghost use Rattle.machine_asks.specs.Laws.{IsRepeat};
ghost use Rattle.machine_asks.specs.Seed.{seed};
ghost use Rattle.machine_asks.specs.Short.{IsShortMachineAsk};
ghost use Rattle.machine_asks.specs.declared.answer.MachineAnswer.{MachineAnswer};
ghost use Rattle.machine_asks.specs.declared.answer.MachineAnswer.TheVariants.{Registered};
ghost use Rattle.machine_asks.specs.declared.ask.MachineAsk.{MachineAsk};
ghost use Rattle.machine_asks.specs.declared.ask.MachineAsk.TheVariants.{Register};

/// What is decided of a machine's ask has no change, or one that changes rows, lets no counter fall,
/// and keeps the rules of the tables. The policy in force stays, and its text.
pub fn machine_decisions_are_sound()
    ensures decided { (s : State) (x : MachineAsk) (words : Option (List ℕ))
        → AreSettings s.settings → damage s.rows ≡ None → IsShortMachineAsk x
        → IsPlain s.rows (decision s x words) }
{}

/// And so with a seed.
pub fn seeds_are_sound()
    ensures seeded { (s : State) (text : List ℕ) → damage s.rows ≡ None
        → IsPlain s.rows (seed s text) }
{}

/// A live machine that registers again with the node key that it has is answered for its user, and
/// no key is looked at.
pub fn repeats_are_answered()
    ensures answer { (s : State) (m : Machine) (x : form.Register) (words : Option (List ℕ))
        → IsRepeat s m x
        → decision s (Register m.machine x) words
        ≡ Ok (only (Registered (profile_of s.rows.users m.user) false)) }
{}

/// A live machine that registers again with the node key that it has changes nothing.
pub fn repeats_change_nothing()
    ensures rows { (s : State) (m : Machine) (x : form.Register) (words : Option (List ℕ))
        (d : Decision MachineAnswer) → IsRepeat s m x
        → decision s (Register m.machine x) words ≡ Ok d → rows_after s.rows d.change ≡ s.rows }
{}
