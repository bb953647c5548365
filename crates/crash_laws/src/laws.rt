//! What a crash leaves of the histories at a desk. No function here does anything: each states a law.
ghost use Rattle.std.specs.Prelude.{◌≡◌, ◌⊎◌, List, Option, Some, IsSome, IsTrue};
ghost use Rattle.crash_laws.specs.Histories.{LeaveTheRows, LeavesAlone, MayBeLeft, NoneIsLost};
ghost use Rattle.keeper_sqlite.specs.Left.{rows_left};
ghost use Rattle.net_rows.specs.declared.rows.Rows.{Rows};
ghost use Rattle.sqlite.specs.Held.{state};
ghost use Rattle.sqlite.specs.State.{HasCleanDisk};
ghost use Rattle.sqlite_trees.specs.Tree.{Trees};
ghost use Rattle.store_loads.specs.Told.{store_tells};
ghost use Rattle.tailnet_desk.specs.Asks.{IsPollEvent};
ghost use Rattle.tailnet_desk.specs.Chains.{Chain, Turned};
ghost use Rattle.tailnet_desk.specs.Crashes.{IsKeptTurn, IsSafeDesk, LeavesAlso, OrOneMore};
ghost use Rattle.tailnet_desk.specs.History.{ChangesRows};
ghost use Rattle.tailnet_desk.specs.Seated.{Seated, point_of};
ghost use Rattle.tailnet_desk.specs.Step.{step};
ghost use Rattle.tailnet_desk.specs.Turns.{IsTurn};
ghost use Rattle.tailnet_desk.specs.declared.entry.Event.{Event};
ghost use Rattle.tailnet_desk.specs.declared.reply.Answer.{Answer};
ghost use Rattle.tailnet_desk.specs.declared.reply.Reply.{Reply};
ghost use Rattle.tailnet_desk.specs.declared.reply.Reply.TheVariants.{Done};

use keeper_sqlite::SqliteKeeper;
use row_keeper::Keeper;
use sqlite::Alter;

/// What a desk says of an attach, a drain and a detach, which leave its keeper, makes each of them a turn as the
/// histories below have them. An ask is one by the clauses `turn` and `safe`.
pub fn polls_are_kept<K: Keeper>()
    ensures kept { (d : Seated K) (e : Event) (reply : Reply) (q : Seated K) → IsPollEvent e
        → IsTurn (point_of K.told K.faults K.calls d) e reply (point_of K.told K.faults K.calls q)
        → q.keeper ≡ d.keeper
        → IsKeptTurn K.told K.faults K.calls K.is_clean K.may_leave d e reply q }
{}

/// What a crash leaves behind turns at a desk, if its keeper tells its rows and its disk is clean: the rows of the
/// last state; or those that a lost ask would have made behind which none changed rows; or, if none changed rows,
/// what it might have left before.
///
/// So it leaves the rows of the last state alone where it left those of the first alone and no ask was lost, and
/// at any exit of one more turn these or the rows of that turn's step. Whatever might have been left before, an ask
/// that was carried out and changed rows leaves its rows alone. An open (its clause `crash`) leaves those alone that
/// were left alone before it.
pub fn histories_survive<K: Keeper>()
    ensures any { (d : Seated K) (turns : List Turned) (q : Seated K)
        → Chain (IsKeptTurn K.told K.faults K.calls K.is_clean K.may_leave) d turns q
        → IsTrue (K.is_clean q.keeper) → IsSome (K.told q.keeper)
        → (found : Option Rows) → K.may_leave q.keeper found
        → MayBeLeft (K.may_leave d.keeper) d.state turns q.state.rows found }
    ensures end { (d : Seated K) (turns : List Turned) (q : Seated K)
        → Chain (IsKeptTurn K.told K.faults K.calls K.is_clean K.may_leave) d turns q
        → NoneIsLost turns → LeavesAlone (K.may_leave d.keeper) d.state.rows
        → IsTrue (K.is_clean q.keeper) → IsSome (K.told q.keeper)
        → LeavesAlone (K.may_leave q.keeper) q.state.rows }
    ensures last { (d : Seated K) (turns : List Turned) (m : Seated K)
        (e : Event) (reply : Reply) (q : Seated K)
        → Chain (IsKeptTurn K.told K.faults K.calls K.is_clean K.may_leave) d turns m
        → NoneIsLost turns → LeavesAlone (K.may_leave d.keeper) d.state.rows
        → IsKeptTurn K.told K.faults K.calls K.is_clean K.may_leave m e reply q
        → IsTrue (K.is_clean q.keeper) → IsSome (K.told m.keeper)
        → (found : Option Rows) → K.may_leave q.keeper found
        → (found ≡ Some m.state.rows) ⊎ (found ≡ Some (step m.state e).state.rows) }
    ensures first { (m : Seated K) (e : Event) (answer : Answer) (q : Seated K)
        → IsKeptTurn K.told K.faults K.calls K.is_clean K.may_leave m e (Done answer) q
        → ChangesRows m.state e → IsTrue (K.is_clean q.keeper) → IsSome (K.told m.keeper)
        → LeavesAlone (K.may_leave q.keeper) q.state.rows }
    ensures opened { (k : K) (rows : Rows) (d : Seated K)
        → LeavesAlso K.told K.is_clean K.may_leave k rows d.keeper
        → LeavesAlone (K.may_leave k) rows → IsTrue (K.is_clean d.keeper) → IsSome (K.told k)
        → LeavesAlone (K.may_leave d.keeper) rows }
{}

/// The same of a desk over a SQLite database, in the words of the store: what is found in the trees that a crash
/// may leave.
pub fn acknowledged_asks_survive<S: Alter + Drop>()
    ensures end { (d : _) (turns : List Turned) (q : _)
        → Chain (IsKeptTurn ⟦<SqliteKeeper<S> as Keeper>⟧.told
        ⟦<SqliteKeeper<S> as Keeper>⟧.faults ⟦<SqliteKeeper<S> as Keeper>⟧.calls
        ⟦<SqliteKeeper<S> as Keeper>⟧.is_clean ⟦<SqliteKeeper<S> as Keeper>⟧.may_leave) d turns q
        → NoneIsLost turns → LeaveTheRows (state S.Store d.keeper.conn) d.state.rows
        → HasCleanDisk (state S.Store q.keeper.conn)
        → IsSome (store_tells (state S.Store q.keeper.conn))
        → LeaveTheRows (state S.Store q.keeper.conn) q.state.rows }
    ensures last { (d : _) (turns : List Turned) (m : _) (e : Event) (reply : Reply) (q : _)
        → Chain (IsKeptTurn ⟦<SqliteKeeper<S> as Keeper>⟧.told
        ⟦<SqliteKeeper<S> as Keeper>⟧.faults ⟦<SqliteKeeper<S> as Keeper>⟧.calls
        ⟦<SqliteKeeper<S> as Keeper>⟧.is_clean ⟦<SqliteKeeper<S> as Keeper>⟧.may_leave) d turns m
        → NoneIsLost turns → LeaveTheRows (state S.Store d.keeper.conn) d.state.rows
        → IsKeptTurn ⟦<SqliteKeeper<S> as Keeper>⟧.told
        ⟦<SqliteKeeper<S> as Keeper>⟧.faults ⟦<SqliteKeeper<S> as Keeper>⟧.calls
        ⟦<SqliteKeeper<S> as Keeper>⟧.is_clean ⟦<SqliteKeeper<S> as Keeper>⟧.may_leave m e reply q
        → HasCleanDisk (state S.Store q.keeper.conn)
        → IsSome (store_tells (state S.Store m.keeper.conn))
        → (trees : Trees) → (state S.Store q.keeper.conn).may_leave trees
        → (rows_left trees ≡ Some m.state.rows)
        ⊎ (rows_left trees ≡ Some (step m.state e).state.rows) }
    ensures first { (m : _) (e : Event) (answer : Answer) (q : _)
        → IsKeptTurn ⟦<SqliteKeeper<S> as Keeper>⟧.told
        ⟦<SqliteKeeper<S> as Keeper>⟧.faults ⟦<SqliteKeeper<S> as Keeper>⟧.calls
        ⟦<SqliteKeeper<S> as Keeper>⟧.is_clean ⟦<SqliteKeeper<S> as Keeper>⟧.may_leave
        m e (Done answer) q
        → ChangesRows m.state e → HasCleanDisk (state S.Store q.keeper.conn)
        → IsSome (store_tells (state S.Store m.keeper.conn))
        → LeaveTheRows (state S.Store q.keeper.conn) q.state.rows }
{}

/// A desk over a SQLite database that is safe: in all trees that a crash of the store may leave, the desk's rows
/// are found, or those that one event more would have made of them.
pub fn safe_desks_leave_their_rows<S: Alter + Drop>()
    ensures safe { (d : _) → IsSafeDesk ⟦<SqliteKeeper<S> as Keeper>⟧.told
        ⟦<SqliteKeeper<S> as Keeper>⟧.is_clean ⟦<SqliteKeeper<S> as Keeper>⟧.may_leave d
        → HasCleanDisk (state S.Store d.keeper.conn)
        → IsSome (store_tells (state S.Store d.keeper.conn))
        → (trees : Trees) → (state S.Store d.keeper.conn).may_leave trees
        → OrOneMore d.state.rows (rows_left trees) }
{}
