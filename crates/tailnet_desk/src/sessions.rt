//! What becomes of sessions. None of these takes memory.
ghost use Rattle.std.specs.Prelude.{◌≡◌, ◌≤◌, IsSome};
ghost use Rattle.net_rows.specs.Shelf.{put_row};
ghost use Rattle.desk_state.specs.Sessions.{session_of};
ghost use Rattle.desk_state.specs.State.{forgotten, without_all};
ghost use Rattle.machine_asks.specs.Attach.{sessions_with};

use crate::settling::forget;
use desk_state::{Attachment, Session, Sessions};
use net_rows::{HasId, RowKey, Shelf};

/// The rows of these ids go.
fn drop_all<T: HasId>(rows: &mut Shelf<T>, ids: &[u32])
    ensures rows { rows.new.0 ≡ without_all T.id rows.old.0 ids.now }
{
    for id in ids {
        rows.remove(*id);
    }
}

/// The sessions of the machines whose rows go end.
pub(crate) fn forget_sessions(sessions: &mut Sessions, gone: &[RowKey])
    ensures rows { sessions.new.rows.0
        ≡ forgotten (λ x. x.id) sessions.old.rows.0 gone.now }
    ensures attached { sessions.new.attached.0
        ≡ forgotten (λ a. a.id) sessions.old.attached.0 gone.now }
    ensures next { sessions.new.next ≡ sessions.old.next }
{
    forget(&mut sessions.rows, gone);
    forget(&mut sessions.attached, gone);
}

/// The sessions of these machines end.
pub(crate) fn end_sessions(sessions: &mut Sessions, ids: &[u32])
    ensures rows { sessions.new.rows.0
        ≡ without_all (λ x. x.id) sessions.old.rows.0 ids.now }
    ensures attached { sessions.new.attached.0
        ≡ without_all (λ a. a.id) sessions.old.attached.0 ids.now }
    ensures next { sessions.new.next ≡ sessions.old.next }
{
    drop_all(&mut sessions.rows, ids);
    drop_all(&mut sessions.attached, ids);
}

/// A session that begins stands in the place of its machine's last one.
fn begin(rows: &mut Shelf<Session>, begun: Option<Session>)
    requires row { 1 ≤ rows.old.1 }
    ensures rows { rows.new.0 ≡ sessions_with rows.old.0 begun }
{
    match begun {
        None => {}
        Some(session) => rows.put(session),
    }
}

/// A session is attached, which begins or goes on.
pub(crate) fn attach_session(
    sessions: &mut Sessions,
    begun: Option<Session>,
    held: Attachment,
    next: u64,
)
    requires row { 1 ≤ sessions.old.rows.1 }
    requires place { 1 ≤ sessions.old.attached.1 }
    ensures rows { sessions.new.rows.0 ≡ sessions_with sessions.old.rows.0 begun }
    ensures attached { sessions.new.attached.0
        ≡ put_row (λ a. a.id) sessions.old.attached.0 held }
    ensures next { sessions.new.next ≡ next }
{
    begin(&mut sessions.rows, begun);
    sessions.attached.put(held);
    sessions.next = next;
}

/// A session that there is stands as it is now.
pub(crate) fn put_session(sessions: &mut Sessions, session: Session)
    requires found { IsSome (session_of sessions.old.rows.0 session.id) }
    ensures rows { sessions.new.rows.0
        ≡ put_row (λ x. x.id) sessions.old.rows.0 session }
    ensures attached { sessions.new.attached.0 ≡ sessions.old.attached.0 }
    ensures next { sessions.new.next ≡ sessions.old.next }
{
    sessions.rows.put(session);
}
