//! What the clients of polls have.
ghost use Rattle.std.specs.Prelude.{ℕ, ℤ, List, ◌++◌, ◌∷◌, None, Option};
ghost use Rattle.settings.specs.Settings.{AreSettings};
ghost use Rattle.settings.specs.declared.fields.SettingsFields.{SettingsFields};
ghost use Rattle.net_rows.specs.Sound.{AreSound};
ghost use Rattle.net_rows.specs.declared.rows.Rows.{Rows};
ghost use Rattle.fresh_maps.specs.declared.view.View.{View};
ghost use Rattle.desk_state.specs.State.{State};
ghost use Rattle.tailnet_desk.specs.History.{Legal, replay};
ghost use Rattle.tailnet_desk.specs.Opening.{opening};
ghost use Rattle.tailnet_desk.specs.Seated.{IsInForce};
ghost use Rattle.tailnet_desk.specs.declared.entry.Entry.{Entry};
ghost use Rattle.tailnet_laws.specs.Followed.{AreFollowed, views_at};
ghost use Rattle.tailnet_desk.specs.Sessions.{AreHeld, AreSoundSessions, IsBegunUnder, sent_to};

/// After each drain of a legal history that is answered with responses, what the client of its session
/// has folded is the map of the session's machine, computed afresh from the state there, and its filter
/// admits exactly the flows to what the machine serves that the policy in force grants. Before the
/// history each client has what was sent to it: from an opening state, nothing.
pub fn clients_fold_fresh_maps()
    ensures held { (s : State) (views : List ℕ → Option View) (count : ℕ) (es : List Entry)
        → AreSettings s.settings → AreSound s.rows → IsInForce s.rows s.policy
        → AreSoundSessions s → AreHeld s views → Legal s count es → AreFollowed s views es }
    ensures sent { (s : State) (count : ℕ) (es : List Entry)
        → AreSettings s.settings → AreSound s.rows → IsInForce s.rows s.policy
        → AreSoundSessions s → Legal s count es → AreFollowed s (sent_to s.sessions) es }
    ensures opened { (settings : SettingsFields) (rows : Rows) (moment : ℤ) (count : ℕ)
        (es : List Entry) → AreSettings settings → AreSound rows
        → Legal (opening settings rows moment) count es
        → AreFollowed (opening settings rows moment) (λ handle. None) es }
{}

/// A legal history keeps the rules of sessions, and at its end each client has what was sent to it.
pub fn legal_histories_keep_sessions()
    ensures sessions { (s : State) (count : ℕ) (es : List Entry)
        → AreSettings s.settings → AreSound s.rows → IsInForce s.rows s.policy
        → AreSoundSessions s → Legal s count es → AreSoundSessions (replay s es) }
    ensures held { (s : State) (views : List ℕ → Option View) (count : ℕ) (es : List Entry)
        → AreSettings s.settings → AreSound s.rows → IsInForce s.rows s.policy
        → AreSoundSessions s → AreHeld s views → Legal s count es
        → AreHeld (replay s es) (views_at views es) }
    ensures opened { (settings : SettingsFields) (rows : Rows) (moment : ℤ)
        → AreSoundSessions (opening settings rows moment) }
{}

/// No two sessions that begin in a legal history have the same handle.
pub fn handles_are_given_once()
    ensures once { (s : State) (count : ℕ) (before : List Entry) (e : Entry)
        (between : List Entry) (f : Entry) (later : List Entry) (handle : List ℕ)
        → Legal s count (before ++ e ∷ between ++ f ∷ later) → IsBegunUnder handle e.reply
        → IsBegunUnder handle f.reply → ⊥ }
{}
