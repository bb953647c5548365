//! All rows of the tables, whatever they are.
ghost use Rattle.std.specs.Prelude.{◌≡◌};

use crate::change::Counters;
use crate::key::AuthKey;
use crate::machine::Machine;
use crate::pending::Pending;
use crate::user::User;
use tail_base::{Items, Text};
use tailcfg::DnsExtra;

/// All rows of the tables, and the next ids. The tables of a tailnet are such rows that keep the
/// rules; these may break any.
#[derive(Drop)]
pub struct Rows {
    pub users: Items<User>,
    pub keys: Items<AuthKey>,
    pub pending: Items<Pending>,
    pub machines: Items<Machine>,
    pub extras: Items<DnsExtra>,
    pub policy: Option<Text>,
    pub next: Counters,
}
