//! The paths of requests.
ghost use Rattle.std.specs.Prelude.{◌≡◌, IfOk};
ghost use Rattle.operator_requests.specs.Requests.{key_path, node_path, user_path};

use percent_encoding::{AsciiSet, NON_ALPHANUMERIC, ascii_set, percent_encode};
use std::alloc::Global;
use tail_base::{NoMemory, Text};

/// What is escaped in a login: all but letters, digits, `.`, `_`, `+`, `-` and `@`.
pub const LOGIN_ESCAPED: AsciiSet = ascii_set!(
    NON_ALPHANUMERIC
        .remove(b'.')
        .remove(b'_')
        .remove(b'+')
        .remove(b'-')
        .remove(b'@')
);

pub(crate) fn user_path(alloc: Global, login: &Text) -> Result<Text, NoMemory>
    ensures value { IfOk result (λ path. path ≡ user_path login.now) }
{
    let mut path = String::from_str(alloc, "/api/v1/user/")?;
    percent_encode(login.as_slice(), LOGIN_ESCAPED).append_to(&mut path)?;
    Ok(Text::from_string(path))
}

pub(crate) fn key_path(alloc: Global, id: u32) -> Result<Text, NoMemory>
    ensures value { IfOk result (λ path. path ≡ key_path id) }
{
    Ok(Text::from_string(format!(in alloc; "/api/v1/preauthkey/{id}")?))
}

pub(crate) fn node_path(alloc: Global, id: u32, part: &str) -> Result<Text, NoMemory>
    ensures value { IfOk result (λ path. path ≡ node_path id part.now) }
{
    Ok(Text::from_string(format!(in alloc; "/api/v1/node/{id}{part}")?))
}
