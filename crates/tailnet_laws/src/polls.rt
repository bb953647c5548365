//! Which machines are online, and how many polls may wait.
ghost use Rattle.std.specs.Prelude.{◌≤◌, ◌-◌, ℕ, ℤ, List, Contains};
ghost use Rattle.settings.specs.declared.fields.SettingsFields.{SettingsFields};
ghost use Rattle.net_rows.specs.Sound.{AreSound};
ghost use Rattle.net_rows.specs.declared.machine.Machine.{Machine};
ghost use Rattle.net_rows.specs.declared.rows.Rows.{Rows};
ghost use Rattle.desk_state.specs.State.{State};
ghost use Rattle.tailnet_desk.specs.History.{Legal, replay};
ghost use Rattle.tailnet_desk.specs.Opening.{opening};
ghost use Rattle.tailnet_desk.specs.declared.entry.Entry.{Entry};
ghost use Rattle.tailnet_laws.specs.Online.{AreOnlineByPolls};
ghost use Rattle.tailnet_laws.specs.Presence.{ArePresent, HasOnePresence};
ghost use Rattle.tailnet_laws.specs.Workers.{LeaveWorker, waiting_polls};

/// In each legal history from an opening state a machine is online exactly while a poll holds its
/// session: nothing else makes it online. It stays so from any state where it is.
pub fn machines_are_online_by_polls()
    ensures opened { (settings : SettingsFields) (rows : Rows) (moment : ℤ) (count : ℕ)
        (es : List Entry) → Legal (opening settings rows moment) count es
        → AreOnlineByPolls (replay (opening settings rows moment) es) }
    ensures stays { (s : State) (count : ℕ) (es : List Entry) → Legal s count es
        → AreOnlineByPolls s → AreOnlineByPolls (replay s es) }
{}

/// In each state of a legal history from an opening state fewer polls that hold a session may wait than
/// the settings have workers. It stays so from any state where it is. What else holds a worker isn't
/// counted.
pub fn waiting_polls_leave_a_worker()
    ensures opened { (settings : SettingsFields) (rows : Rows) (moment : ℤ) (count : ℕ)
        (es : List Entry) → Legal (opening settings rows moment) count es
        → waiting_polls (replay (opening settings rows moment) es) ≤ settings.workers - 1 }
    ensures stays { (s : State) (count : ℕ) (es : List Entry) → Legal s count es
        → LeaveWorker s → LeaveWorker (replay s es) }
{}

/// In each state of a legal history from an opening state each machine's row has exactly one presence. It
/// stays so from any state where presences rise by id and each row has one.
pub fn machines_have_presence()
    ensures opened { (settings : SettingsFields) (rows : Rows) (moment : ℤ) (count : ℕ)
        (es : List Entry) (m : Machine) → AreSound rows
        → Legal (opening settings rows moment) count es
        → Contains (replay (opening settings rows moment) es).rows.machines m
        → HasOnePresence (replay (opening settings rows moment) es) m }
    ensures stays { (s : State) (count : ℕ) (es : List Entry) → Legal s count es
        → ArePresent s → ArePresent (replay s es) }
{}
