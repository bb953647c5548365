//! A law of what machines tell of themselves. The function does nothing: it states the law.
ghost use Rattle.net_rows.specs.declared.machine.Machine.{Machine};
ghost use Rattle.tailcfg.specs.declared.update.Update as update;
ghost use Rattle.desk_state.specs.Same.{KeepsPlace, KeepsRegistration};
ghost use Rattle.machine_asks.specs.Update.{told_row};

/// What a machine tells of itself leaves its place and its registration as they were.
pub fn told_rows_keep_the_rest()
    ensures place { (m : Machine) (u : update.Update) → KeepsPlace m (told_row m u) }
    ensures registration { (m : Machine) (u : update.Update) → KeepsRegistration m (told_row m u) }
{}
