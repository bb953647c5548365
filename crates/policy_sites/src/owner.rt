//! Whose machine it is.
ghost use Rattle.std.specs.Prelude.{◌≡◌};
ghost use Rattle.std.specs.Option.{option_copied};
ghost use Rattle.policy_sites.specs.Owners.{login_or_empty, machine_login};

use net_rows::{Machine, Tables, User};

fn login_or_empty(user: Option<&User>) -> &[u8]
    ensures value { result.now ≡ login_or_empty (option_copied user.entry) }
{
    match user {
        Some(user) => user.login.as_slice(),
        None => &[],
    }
}

/// The login of the machine's user.
pub(crate) fn machine_login<'a>(tables: &'a Tables, machine: &Machine) -> &'a [u8]
    ensures value { result.now ≡ machine_login tables.now.rows.users machine.now }
{
    login_or_empty(tables.user(machine.user))
}
