//! What holds of decisions and histories in any state. No function here does anything: each states a law.
ghost use Rattle.std.specs.Prelude.{◌≡◌, ℕ, List, ◌++◌, Option, None, Ok};
ghost use Rattle.std.specs.Option.{option_or};
ghost use Rattle.net_rows.specs.Damage.{damage};
ghost use Rattle.net_rows.specs.Sound.{AreSound};
ghost use Rattle.settings.specs.Settings.{AreSettings};
ghost use Rattle.desk_state.specs.Decisions.{IsNoLess, IsSound, rows_after};
ghost use Rattle.desk_state.specs.State.{State};
ghost use Rattle.desk_state.specs.declared.decision.Decision.{Decision};
ghost use Rattle.tailnet_desk.specs.Asks.{IsPollEvent, IsShort};
ghost use Rattle.tailnet_desk.specs.Chains.{Chain, IsHistory, Turned};
ghost use Rattle.tailnet_desk.specs.Crashes.{IsKeptTurn, IsSafeDesk};
ghost use Rattle.tailnet_desk.specs.History.{Legal, replay};
ghost use Rattle.tailnet_desk.specs.Seated.{IsInForce, Point, Seated};
ghost use Rattle.tailnet_desk.specs.Step.{decision, step};
ghost use Rattle.tailnet_desk.specs.Turns.{IsTurn};
ghost use Rattle.tailnet_desk.specs.declared.ask.Ask.{Ask};
ghost use Rattle.tailnet_desk.specs.declared.entry.Entry.{Entry};
ghost use Rattle.tailnet_desk.specs.declared.entry.Event.{Event};
ghost use Rattle.tailnet_desk.specs.declared.reply.Answer.{Answer};

use row_keeper::Keeper;

/// From settings and tables that keep their rules, and an ask that is short, a decided change keeps the
/// rules of the tables, changes rows, and lets no counter fall; unless a policy is put in force with it,
/// the text of the policy stays.
pub fn decisions_are_sound()
    ensures sound { (s : State) (x : Ask) (words : Option (List ℕ))
        → AreSettings s.settings → damage s.rows ≡ None → IsShort x
        → IsSound s.rows (decision s x words) }
{}

/// From such a state, where the policy in force is that of the tables, it is so after the decision, too.
pub fn decisions_keep_the_policy()
    ensures policy { (s : State) (x : Ask) (words : Option (List ℕ)) (d : Decision Answer)
        → AreSettings s.settings → damage s.rows ≡ None → IsShort x → decision s x words ≡ Ok d
        → IsInForce s.rows s.policy
        → IsInForce (rows_after s.rows d.change) (option_or d.policy s.policy) }
{}

/// Under settings that keep their rules a legal history keeps sound tables sound and lets no counter
/// fall, so that no id is given twice. Each beginning of a legal history is one: so they are sound at
/// each entry.
pub fn legal_histories_keep_rules()
    ensures sound { (s : State) (count : ℕ) (es : List Entry)
        → AreSettings s.settings → AreSound s.rows → Legal s count es
        → AreSound (replay s es).rows }
    ensures rises { (s : State) (count : ℕ) (es : List Entry)
        → AreSettings s.settings → AreSound s.rows → Legal s count es
        → IsNoLess s.rows.next (replay s es).rows.next }
    ensures beginnings { (s : State) (count : ℕ) (es more : List Entry)
        → Legal s count (es ++ more) → Legal s count es }
{}

/// And where the policy in force is that of the tables, it stays so.
pub fn legal_histories_keep_the_policy()
    ensures policy { (s : State) (count : ℕ) (es : List Entry)
        → AreSettings s.settings → AreSound s.rows → IsInForce s.rows s.policy → Legal s count es
        → IsInForce (replay s es).rows (replay s es).policy }
{}

/// Polls change neither rows nor the policy in force.
pub fn polls_leave_tables()
    ensures rows { (s : State) (e : Event) → IsPollEvent e → (step s e).state.rows ≡ s.rows }
    ensures policy { (s : State) (e : Event) → IsPollEvent e → (step s e).state.policy ≡ s.policy }
{}

/// Turns of a desk, one after another, are a legal history.
pub fn turns_are_a_history()
    ensures history { (p : Point) (turns : List Turned) (q : Point)
        → Chain IsTurn p turns q → IsHistory p turns q }
{}

/// Where a crash leaves a desk's rows, or those that one event more would have made of them, it does so
/// behind any turns, too, as long as the keeper tells rows and its disk is clean: what was acknowledged
/// is there, and a change is there whole or not at all.
pub fn desks_stay_safe<K: Keeper>()
    ensures safe { (d : Seated K) (turns : List Turned) (q : Seated K)
        → Chain (IsKeptTurn K.told K.faults K.calls K.is_clean K.may_leave) d turns q
        → IsSafeDesk K.told K.is_clean K.may_leave d
        → IsSafeDesk K.told K.is_clean K.may_leave q }
{}
