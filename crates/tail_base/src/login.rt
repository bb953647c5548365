//! Logins.
ghost use Rattle.std.specs.Prelude.{◌≡◌, ◌↔◌, ℕ, List, ◌==◌, true, map, position, IfOk};
ghost use Rattle.std.specs.Char.{to_ascii_lowercase};
ghost use Rattle.std.specs.List.{list_all};
ghost use Rattle.tail_base.specs.Logins.{is_login_domain, is_domain_byte, is_login, is_user, is_user_byte, login_of};
ghost use Rattle.tail_base.specs.SpellsLogin.{SpellsLogin};

use crate::ascii::is_alnum;
use crate::memory::{Duplicate, NoMemory};
use crate::text::Text;
use std::alloc::Global;
use std::marker::Model;

/// A login: 1 to 63 of a-z, 0-9, `.`, `_`, `+`, `-`, then `@`, then 0 to 63 of a-z, 0-9, `.`, `-`.
/// Contracts see it as its bytes.
#[derive(Drop)]
pub struct Login {
    text: Text,
}

impl Model for Login {
    ghost use Rattle.std.specs.Prelude.{◌≡◌, ℕ, List, true};
    ghost use Rattle.tail_base.specs.Logins.{is_login};

    ghost Value = { List ℕ };

    ghost view = { λ a. a.text };

    ghost invariant = { λ a. is_login a.text ≡ true };
}

fn is_user_byte(b: u8) -> bool
    ensures value { result ≡ is_user_byte b }
{
    is_alnum(b) || b == b'.' || b == b'_' || b == b'+' || b == b'-'
}

fn is_domain_byte(b: u8) -> bool
    ensures value { result ≡ is_domain_byte b }
{
    is_alnum(b) || b == b'.' || b == b'-'
}

fn has_user_bytes(text: &[u8]) -> bool
    ensures value { result ≡ list_all is_user_byte text.now }
{
    text.iter().all(|b| is_user_byte(*b))
}

fn has_domain_bytes(text: &[u8]) -> bool
    ensures value { result ≡ list_all is_domain_byte text.now }
{
    text.iter().all(|b| is_domain_byte(*b))
}

fn is_user(text: &[u8]) -> bool
    ensures value { result ≡ is_user text.now }
{
    1 <= text.len() && text.len() <= 63 && has_user_bytes(text)
}

fn is_login_domain(text: &[u8]) -> bool
    ensures value { result ≡ is_login_domain text.now }
{
    text.len() <= 63 && has_domain_bytes(text)
}

/// Where the first `@` stands.
fn place_of_at(text: &[u8]) -> Option<usize>
    ensures value { result ≡ position (λ b. b == 64) text.now }
{
    text.iter().position(|b| *b == b'@')
}

fn is_login(text: &[u8]) -> bool
    ensures value { result ≡ is_login text.now }
{
    match place_of_at(text) {
        Some(at) => is_user(&text[..at]) && is_login_domain(&text[at + 1..]),
        None => false,
    }
}

/// The login that a text spells, if it spells one.
#[tactic(auto, using(crate::proofs::LoginLemmas::login_ascii))]
fn login_of(alloc: Global, text: &[u8]) -> Result<Option<Login>, NoMemory>
    ensures value { IfOk result (λ login. login ≡ login_of text.now) }
{
    let small: Vec<u8> = text.iter().map(|b| b.to_ascii_lowercase()).collect(alloc)?;
    if !is_login(small.as_slice()) {
        return Ok(None);
    }
    Ok(Some(Login {
        text: Text::from_ascii(alloc, small.as_slice())?,
    }))
}

impl Login {
    /// The login that a text spells, if it spells one. Capitals are read as small letters.
    pub fn read(alloc: Global, text: &[u8]) -> Result<Option<Login>, NoMemory>
        ensures value { IfOk result (λ login. login ≡ login_of text.now) }
        ensures meaning { IfOk result (λ found. (login : List ℕ)
            → SpellsLogin text.now login ↔ (found ≡ Some login)) }
    {
        login_of(alloc, text)
    }

    /// The login as text.
    pub fn as_str(&self) -> &str
        ensures value { result.now ≡ self.now }
        ensures login { is_login self.now ≡ true }
    {
        self.text.as_str()
    }

    /// The login's bytes.
    pub fn as_slice(&self) -> &[u8]
        ensures value { result.now ≡ self.now }
        ensures login { is_login self.now ≡ true }
    {
        self.text.as_slice()
    }
}

impl Duplicate for Login {
    fn copy(&self, alloc: Global) -> Result<Self, NoMemory> {
        Ok(Login {
            text: self.text.copy(alloc)?,
        })
    }
}
