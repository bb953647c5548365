//! Rows as an operator is shown them.
ghost use Rattle.std.specs.Prelude.{◌≡◌, IfOk};
ghost use Rattle.std.specs.Option.{option_copied};
ghost use Rattle.desk_state.specs.Lines.{key_line, line_of, login_in, login_of, node_line, offline_line};

use crate::life::{Snapshot, is_live, is_live_with, is_online, presence_of};
use crate::presence::Presence;
use net_addr::Prefix;
use net_rows::{AuthKey, Machine, Tables, User};
use policy_sites::served_routes;
use std::alloc::Global;
use tail_base::{Duplicate, Items, NoMemory, Text};

/// A machine as an operator is shown it.
#[derive(Drop)]
pub struct NodeLine {
    pub row: Machine,
    /// The login of its user, also of a tagged machine.
    pub login: Text,
    pub live: bool,
    pub online: bool,
    /// The approved routes in effect, and behind them both exit routes of an exit node. They don't
    /// depend on whether the machine is live.
    pub served: Items<Prefix>,
}

/// A pre-auth key as an operator is shown it.
#[derive(Drop)]
pub struct KeyLine {
    pub row: AuthKey,
    /// The login of the user whose machines it makes.
    pub login: Text,
}

fn login_in(alloc: Global, user: Option<&User>) -> Result<Text, NoMemory>
    ensures value { IfOk result (λ text. text ≡ login_in (option_copied user.entry)) }
{
    match user {
        Some(user) => Text::from_str(alloc, user.login.as_str()),
        None => Ok(Text::new(alloc)),
    }
}

/// The login of the user of an id. Sound tables have each user that a row names.
pub fn login_of(alloc: Global, tables: &Tables, id: u32) -> Result<Text, NoMemory>
    ensures value { IfOk result (λ text. text ≡ login_of tables.now.rows.users id) }
{
    login_in(alloc, tables.user(id))
}

/// A pre-auth key as an operator is shown it.
pub fn key_line(alloc: Global, tables: &Tables, row: AuthKey) -> Result<KeyLine, NoMemory>
    ensures value { IfOk result (λ line. line ≡ key_line tables.now.rows.users row) }
{
    let login = login_of(alloc, tables, row.user)?;
    Ok(KeyLine { row, login })
}

fn line_of(
    alloc: Global,
    at: &Snapshot<'_>,
    row: Machine,
    live: bool,
    online: bool,
) -> Result<NodeLine, NoMemory>
    ensures value { IfOk result (λ line. line ≡ line_of at.now row live online) }
{
    let login = login_of(alloc, at.tables, row.user)?;
    let served = served_routes(alloc, at.policy.policy(), at.tables, &row)?;
    Ok(NodeLine {
        row,
        login,
        live,
        online,
        served,
    })
}

/// A machine as an operator is shown it.
pub fn node_line(alloc: Global, at: &Snapshot<'_>, row: Machine) -> Result<NodeLine, NoMemory>
    ensures value { IfOk result (λ line. line ≡ node_line at.now row) }
{
    let live = is_live(at, &row);
    let online = is_online(presence_of(at.presence, row.id));
    line_of(alloc, at, row, live, online)
}

/// A machine that is offline from now on, as an operator is shown it.
pub fn offline_line(alloc: Global, at: &Snapshot<'_>, row: Machine) -> Result<NodeLine, NoMemory>
    ensures value { IfOk result (λ line. line ≡ offline_line at.now row) }
{
    let live = is_live_with(at, Some(Presence::OfflineSince(at.time)), &row);
    line_of(alloc, at, row, live, false)
}
