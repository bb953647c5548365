//! Users by login.
ghost use Rattle.std.specs.Prelude.{◌≡◌};
ghost use Rattle.std.specs.Option.{option_copied};
ghost use Rattle.tail_base.specs.Steps.{Gives};
ghost use Rattle.desk_state.specs.Users.{user_named, user_of};

use crate::refusal::Refusal;
use net_rows::{Tables, User};
use std::alloc::Global;
use tail_base::{Failure, Login, Text};

fn user_of<'a>(users: &'a [User], login: &Login) -> Option<&'a User>
    ensures value { option_copied result ≡ user_of users.now login.now }
{
    users
        .iter()
        .find(|row| row.login.as_slice() == login.as_slice())
}

/// The user whose login a text spells. Capitals are read as small letters.
pub fn user_named<'a>(
    alloc: Global,
    tables: &'a Tables,
    login: &Text,
) -> Result<&'a User, Failure<Refusal>>
    ensures value { Gives (λ u. u.now) result (user_named tables.now.rows login.now) }
{
    let Some(login) = Login::read(alloc, login.as_slice())? else {
        return Err(Failure::Fault(Refusal::UnknownUser));
    };
    match user_of(tables.users(), &login) {
        Some(user) => Ok(user),
        None => Err(Failure::Fault(Refusal::UnknownUser)),
    }
}
