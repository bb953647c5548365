//! Ids of rows that have gone.
ghost use Rattle.std.specs.Prelude.{ℕ, List};
ghost use Rattle.settings.specs.Settings.{AreSettings};
ghost use Rattle.net_rows.specs.Sound.{AreSound};
ghost use Rattle.desk_state.specs.State.{State};
ghost use Rattle.tailnet_desk.specs.History.{Legal, replay};
ghost use Rattle.tailnet_desk.specs.declared.entry.Entry.{Entry};
ghost use Rattle.tailnet_laws.specs.Gone.{IsGoneKey, IsGoneMachine, IsGonePending, IsGoneUser};

/// An id below the next one of its kind, as that of each row that was removed, and that no row has,
/// is no row's again in any legal history.
pub fn gone_ids_stay_gone()
    ensures users { (s : State) (count : ℕ) (es : List Entry) (id : ℕ)
        → AreSettings s.settings → AreSound s.rows → Legal s count es
        → IsGoneUser s.rows id → IsGoneUser (replay s es).rows id }
    ensures keys { (s : State) (count : ℕ) (es : List Entry) (id : ℕ)
        → AreSettings s.settings → AreSound s.rows → Legal s count es
        → IsGoneKey s.rows id → IsGoneKey (replay s es).rows id }
    ensures pending { (s : State) (count : ℕ) (es : List Entry) (id : ℕ)
        → AreSettings s.settings → AreSound s.rows → Legal s count es
        → IsGonePending s.rows id → IsGonePending (replay s es).rows id }
    ensures machines { (s : State) (count : ℕ) (es : List Entry) (id : ℕ)
        → AreSettings s.settings → AreSound s.rows → Legal s count es
        → IsGoneMachine s.rows id → IsGoneMachine (replay s es).rows id }
{}
