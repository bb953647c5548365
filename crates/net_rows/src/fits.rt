//! Whether a row keeps the rules beside the rows of its kind that stand before it.
ghost use Rattle.std.specs.Prelude.{◌≡◌, ℕ, Bool, List, length, nat_le, nat_lt};
ghost use Rattle.std.specs.List.{list_all};
ghost use Rattle.net_rows.specs.declared.rows.Rows.{Rows};
ghost use Rattle.net_addr.specs.Tailnet.{tailnet_v4, tailnet_v6};
ghost use Rattle.net_addr.specs.Blocks.{holds};
ghost use Rattle.net_rows.specs.Damage.{stands, is_new, is_new_address, has_user, user_fits, key_fits, pending_fits, machine_fits, is_short_pending, is_short_machine, is_new_machine};

use crate::id::HasId;
use crate::key::AuthKey;
use crate::limits::{KEY_LIMIT, MACHINE_LIMIT, PENDING_LIMIT, TAG_LIMIT, USER_LIMIT};
use crate::machine::Machine;
use crate::named::{names_key, names_pending};
use crate::pending::Pending;
use crate::rows::Rows;
use crate::user::User;
use net_addr::{tailnet_v4, tailnet_v6};
use tailcfg::{ASKED_TAG_LIMIT, ENDPOINT_LIMIT, HOST_LIMIT, ROUTE_LIMIT};

/// A row of one of the tables.
pub trait TableRow: HasId + Sized {
    ghost fits: { Rows → List Self → Self → Bool };

    /// Whether the row keeps the rules of these rows, those of its kind before it being given.
    fn fits(&self, rows: &Rows, before: &[Self]) -> bool
        ensures value { result ≡ fits rows.now before.now self.now };
}

fn is_above<T: HasId>(before: &[T], id: u32) -> bool
    ensures value { result ≡ list_all (λ y. nat_lt (T.id y) id) before.now }
{
    before.iter().all(|other| other.id() < id)
}

/// Whether the id is in range and above those before, and there is room.
fn stands<T: HasId>(row: &T, next: u32, limit: usize, before: &[T]) -> bool
    ensures value { result ≡ stands T.id next limit before.now row.now }
{
    let id = row.id();
    1 <= id && id < next && is_above(before, id) && before.len() < limit
}

fn has_user(users: &[User], id: u32) -> bool
    ensures value { result ≡ has_user users.now id }
{
    users.iter().any(|user| user.id == id)
}

fn is_new_login(before: &[User], row: &User) -> bool
    ensures value { result ≡ is_new (λ r. r.login) before.now row.now }
{
    before
        .iter()
        .all(|other| other.login.as_slice() != row.login.as_slice())
}

fn is_new_key_text(before: &[AuthKey], row: &AuthKey) -> bool
    ensures value { result ≡ is_new (λ r. r.text) before.now row.now }
{
    before
        .iter()
        .all(|other| other.text.as_slice() != row.text.as_slice())
}

fn is_new_pending_text(before: &[Pending], row: &Pending) -> bool
    ensures value { result ≡ is_new (λ r. r.text) before.now row.now }
{
    before
        .iter()
        .all(|other| other.text.as_slice() != row.text.as_slice())
}

fn is_new_pending_key(before: &[Pending], row: &Pending) -> bool
    ensures value { result ≡ is_new (λ r. r.machine.0) before.now row.now }
{
    before.iter().all(|other| other.machine != row.machine)
}

fn is_new_machine_key(before: &[Machine], row: &Machine) -> bool
    ensures value { result ≡ is_new (λ r. r.machine.0) before.now row.now }
{
    before.iter().all(|other| other.machine != row.machine)
}

fn is_new_node_key(before: &[Machine], row: &Machine) -> bool
    ensures value { result ≡ is_new (λ r. r.node.0) before.now row.now }
{
    before.iter().all(|other| other.node != row.node)
}

fn is_new_name(before: &[Machine], row: &Machine) -> bool
    ensures value { result ≡ is_new (λ r. r.name) before.now row.now }
{
    before
        .iter()
        .all(|other| other.name.as_slice() != row.name.as_slice())
}

fn is_new_v4(before: &[Machine], row: &Machine) -> bool
    ensures value { result ≡ is_new_address (λ r. r.v4) before.now row.now }
{
    before.iter().all(|other| other.v4 != row.v4)
}

fn is_new_v6(before: &[Machine], row: &Machine) -> bool
    ensures value { result ≡ is_new_address (λ r. r.v6) before.now row.now }
{
    before.iter().all(|other| other.v6 != row.v6)
}

fn is_new_machine(before: &[Machine], row: &Machine) -> bool
    ensures value { result ≡ is_new_machine before.now row.now }
{
    is_new_machine_key(before, row)
        && is_new_node_key(before, row)
        && is_new_name(before, row)
        && is_new_v4(before, row)
        && is_new_v6(before, row)
}

fn is_short_pending(row: &Pending) -> bool
    ensures value { result ≡ is_short_pending row.now }
{
    row.host.len() <= HOST_LIMIT
        && row.routes.len() <= ROUTE_LIMIT
        && row.tags.len() <= ASKED_TAG_LIMIT
}

fn is_short_machine(row: &Machine) -> bool
    ensures value { result ≡ is_short_machine row.now }
{
    row.host.len() <= HOST_LIMIT
        && row.endpoints.len() <= ENDPOINT_LIMIT
        && row.routes.len() <= ROUTE_LIMIT
        && row.approved.len() <= ROUTE_LIMIT
        && row.tags.len() <= TAG_LIMIT
}

impl TableRow for User {
    ghost fits = { user_fits };

    fn fits(&self, rows: &Rows, before: &[Self]) -> bool {
        stands(self, rows.next.user, USER_LIMIT, before) && is_new_login(before, self)
    }
}

impl TableRow for AuthKey {
    ghost fits = { key_fits };

    fn fits(&self, rows: &Rows, before: &[Self]) -> bool {
        stands(self, rows.next.key, KEY_LIMIT, before)
            && is_new_key_text(before, self)
            && has_user(rows.users.as_slice(), self.user)
            && names_key(self.id, self.text.as_slice())
            && self.tags.len() <= ASKED_TAG_LIMIT
    }
}

impl TableRow for Pending {
    ghost fits = { pending_fits };

    fn fits(&self, rows: &Rows, before: &[Self]) -> bool {
        stands(self, rows.next.pending, PENDING_LIMIT, before)
            && is_new_pending_text(before, self)
            && is_new_pending_key(before, self)
            && names_pending(self.id, self.text.as_slice())
            && is_short_pending(self)
    }
}

impl TableRow for Machine {
    ghost fits = { machine_fits };

    fn fits(&self, rows: &Rows, before: &[Self]) -> bool {
        stands(self, rows.next.machine, MACHINE_LIMIT, before)
            && is_new_machine(before, self)
            && has_user(rows.users.as_slice(), self.user)
            && tailnet_v4().contains(&self.v4)
            && tailnet_v6().contains(&self.v6)
            && is_short_machine(self)
    }
}
