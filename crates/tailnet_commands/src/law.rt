//! What follows from the contract of `pipe`. The functions do nothing: each states a law.
ghost use Rattle.std.specs.Prelude.{◌≡◌};
ghost use Rattle.tailnet_commands.specs.Complete.{IsComplete};
ghost use Rattle.tailnet_commands.specs.RunLaws.{DeskIsFollowed, LeavesMachinesGone};
ghost use Rattle.tailnet_commands.specs.ToldRows.{RefusesToldRows, ServesToldRows};
ghost use Rattle.tailnet_commands.specs.declared.limits.TheConstants.{FILE_LIMIT};

/// Where words and settings are accepted, the rows that the opener tells are not damaged and it tells
/// rows at the end too, the input is whole requests of which none is answered 400, 411, 413 or 431, and
/// no count of faults rises, a run ends with status 0, or for lack of memory.
pub fn completeness()
    ensures complete { IsComplete }
{}

/// Where the opener tells rows at the end, as one in memory does, a connection was served from the
/// rows on that it told before, and damage is theirs.
pub fn told_rows_are_opened()
    ensures serves { ServesToldRows }
    ensures refuses { RefusesToldRows }
{}

/// What holds of each legal history holds of a run: its settings and the tables that it opens keep their
/// rules. So an id of a machine that had gone before is no machine's at its end.
pub fn runs_leave_machines_gone()
    ensures machines { LeavesMachinesGone }
{}

/// The turns of a connection over a desk, as `serve_desk` gives it, are a legal history. Where the desk's
/// state is sound, as one is that was opened and that legal histories led to, the client of a session has
/// its machine's map, computed afresh, after each drain, and the sessions are sound at the end.
pub fn connections_at_a_desk_are_followed()
    ensures followed { DeskIsFollowed }
{}

/// The most bytes of a settings file and of a policy file.
pub fn the_numbers_are_these()
    ensures file { FILE_LIMIT ≡ 1048576 }
{}
