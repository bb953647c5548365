//! A law of drains.
ghost use Rattle.std.specs.Prelude.{ℕ, List};
ghost use Rattle.std.specs.List.{AllByRecursion};
ghost use Rattle.settings.specs.Settings.{AreSettings};
ghost use Rattle.net_rows.specs.Sound.{AreSound};
ghost use Rattle.desk_state.specs.State.{State};
ghost use Rattle.tailnet_desk.specs.History.{Legal};
ghost use Rattle.tailnet_desk.specs.declared.entry.Entry.{Entry};
ghost use Rattle.byte_laws.specs.Orderly.{IsReplyOrderly};

/// What a drain is replied in a legal history shows live machines alone, whose keys end later than now,
/// and the settings' DNS routes, whose suffixes rise.
pub fn drains_reply_in_order()
    ensures orderly { (s : State) (count : ℕ) (es : List Entry)
        → AreSettings s.settings → AreSound s.rows → Legal s count es
        → AllByRecursion (λ (e : Entry). IsReplyOrderly e.event e.reply) es }
{}
