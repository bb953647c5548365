//! What holds of decisions on the policy in any state. None of these functions does anything: each
//! states a law.
ghost use Rattle.std.specs.Prelude.{◌≡◌, ℕ, List, None, Ok, Some};
ghost use Rattle.net_rows.specs.Damage.{damage};
ghost use Rattle.policy_rows.specs.declared.policy.Policy.{Policy};
ghost use Rattle.desk_state.specs.Decisions.{IsSound, rows_after};
ghost use Rattle.desk_state.specs.State.{State};
ghost use Rattle.desk_state.specs.declared.decision.Decision.{Decision};
ghost use Rattle.policy_asks.specs.Decision.{policy_decision};
ghost use Rattle.policy_asks.specs.Kept.{policy_in};
ghost use Rattle.policy_asks.specs.declared.answer.PolicyAnswer.{PolicyAnswer};
ghost use Rattle.policy_asks.specs.declared.ask.PolicyAsk.{PolicyAsk};
ghost use Rattle.policy_asks.specs.declared.ask.PolicyAsk.TheVariants.{SavePolicy};

/// From tables that keep their rules, each change that is decided keeps them, changes rows, and lets
/// no counter fall.
pub fn policy_decisions_are_sound()
    ensures sound { (s : State) (x : PolicyAsk) → damage s.rows ≡ None
        → IsSound s.rows (policy_decision s x) }
{}

/// A policy that is put in force is the policy of the tables as they are from then on.
pub fn saved_policies_are_kept()
    ensures kept { (s : State) (x : PolicyAsk) (d : Decision PolicyAnswer) (p : Policy)
        → policy_decision s x ≡ Ok d → d.policy ≡ Some p
        → policy_in (rows_after s.rows d.change) ≡ Some p }
{}

/// A save of the text that is kept already changes no row, and the policy in force stays.
pub fn kept_texts_change_nothing()
    ensures rows { (s : State) (text : List ℕ) (d : Decision PolicyAnswer)
        → s.rows.policy ≡ Some text → policy_decision s (SavePolicy text) ≡ Ok d
        → d.change ≡ None }
    ensures policy { (s : State) (text : List ℕ) (d : Decision PolicyAnswer)
        → s.rows.policy ≡ Some text → policy_decision s (SavePolicy text) ≡ Ok d
        → d.policy ≡ None }
{}
