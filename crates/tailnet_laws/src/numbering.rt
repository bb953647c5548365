//! How the responses of polls are numbered.
ghost use Rattle.std.specs.Prelude.{◌≡◌, ℕ, ℤ, List, Some};
ghost use Rattle.settings.specs.Settings.{AreSettings};
ghost use Rattle.settings.specs.declared.fields.SettingsFields.{SettingsFields};
ghost use Rattle.net_rows.specs.Sound.{AreSound};
ghost use Rattle.net_rows.specs.declared.rows.Rows.{Rows};
ghost use Rattle.map_delta.specs.Delta.{AreNumbered};
ghost use Rattle.desk_state.specs.Sessions.{session_of};
ghost use Rattle.desk_state.specs.State.{State};
ghost use Rattle.desk_state.specs.declared.session.Session.{Session};
ghost use Rattle.tailnet_desk.specs.History.{Legal};
ghost use Rattle.tailnet_desk.specs.Opening.{opening};
ghost use Rattle.tailnet_desk.specs.Seated.{IsInForce};
ghost use Rattle.tailnet_desk.specs.declared.entry.Entry.{Entry};
ghost use Rattle.tailnet_laws.specs.Numbers.{sent_in};
ghost use Rattle.tailnet_desk.specs.Sessions.{AreSoundSessions};

/// In a legal history from an opening state the responses that are sent under one handle are numbered one
/// by one, the first with 1. From any other state those of a session go on behind its last number, which
/// by the rules of sessions is 0 where nothing was sent.
pub fn numbers_run()
    ensures opened { (settings : SettingsFields) (rows : Rows) (moment : ℤ) (count : ℕ)
        (es : List Entry) (handle : List ℕ) → AreSettings settings → AreSound rows
        → Legal (opening settings rows moment) count es → AreNumbered 0 (sent_in handle es) }
    ensures session { (s : State) (count : ℕ) (es : List Entry) (k : ℕ) (x : Session)
        → AreSettings s.settings → AreSound s.rows → IsInForce s.rows s.policy
        → AreSoundSessions s → Legal s count es → session_of s.sessions k ≡ Some x
        → AreNumbered x.seq (sent_in x.handle es) }
{}
