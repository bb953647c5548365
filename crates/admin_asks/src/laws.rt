//! What holds of decisions on operators' asks in any state. The function here does nothing: it
//! states a law.
ghost use Rattle.std.specs.Prelude.{◌≡◌, ℕ, List, Option, None};
ghost use Rattle.net_rows.specs.Damage.{damage};
ghost use Rattle.settings.specs.Settings.{AreSettings};
ghost use Rattle.desk_state.specs.Decisions.{IsPlain};
ghost use Rattle.desk_state.specs.State.{State};
ghost use Rattle.admin_asks.specs.Decision.{decision};
ghost use Rattle.admin_asks.specs.Short.{IsShortOperatorAsk};
ghost use Rattle.admin_asks.specs.declared.operator_ask.OperatorAsk.{OperatorAsk};

/// From settings and tables that keep their rules, and an ask whose lists are short, each change
/// that is decided keeps the rules of the tables, changes rows, and lets no counter fall. The policy
/// in force stays, and its text.
pub fn operator_decisions_are_sound()
    ensures sound { (s : State) (x : OperatorAsk) (words : Option (List ℕ))
        → AreSettings s.settings → damage s.rows ≡ None → IsShortOperatorAsk x
        → IsPlain s.rows (decision s x words) }
{}
