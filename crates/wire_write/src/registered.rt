//! Answers to a registration.
ghost use Rattle.std.specs.Prelude.{◌≡◌, IfOk};
ghost use Rattle.serde_json.specs.View.{view};
ghost use Rattle.wire_write.specs.Registered.{answer_data, login_at_text as text_of_login_at, login_url, registered_text as text_of_registered};

use serde_json::{Value, json};
use std::alloc::{AllocError, Global};
use tail_base::{Duplicate, NoMemory, Text};
use tailcfg::Profile;

#[tactic(auto, unfolding(crate::specs::Registered::answer_data))]
fn answer_value(
    alloc: Global,
    url: &str,
    profile: &Profile,
    authorized: bool,
    expired: bool,
) -> Result<Value, AllocError>
    ensures value { IfOk result (λ v. view v ≡ answer_data url.now profile.now authorized expired) }
{
    json!(in alloc; {
        "AuthURL": url,
        "Error": "",
        "Login": {"ID": profile.id, "LoginName": profile.login.as_str()},
        "MachineAuthorized": authorized,
        "NodeKeyExpired": expired,
        "User": {"DisplayName": profile.display.as_str(), "ID": profile.id},
    })
}

/// The body of the answer that a machine is registered for the user of this profile; `expired`
/// says that its node key has expired already.
#[tactic(auto, unfolding(crate::specs::Registered::answer_data))]
pub fn registered_text(alloc: Global, profile: &Profile, expired: bool) -> Result<Text, NoMemory>
    ensures value { IfOk result (λ text. text ≡ text_of_registered profile.now expired) }
{
    let text = answer_value(alloc, "", profile, true, expired)?.to_string(alloc)?;
    Ok(Text::from_string(text))
}

/// The URL by which an operator is told of a machine that waits.
fn login_url(alloc: Global, server: &Text, pending: &Text) -> Result<Text, NoMemory>
    ensures value { IfOk result (λ text. text ≡ login_url server.now pending.now) }
{
    let mut url = server.copy(alloc)?;
    url.push("/register/")?;
    url.push(pending.as_str())?;
    Ok(url)
}

/// The body of the answer that a machine waits for an operator, under the URL of the server and the
/// text of the pending entry.
#[tactic(auto, unfolding(crate::specs::Registered::answer_data))]
pub fn login_at_text(alloc: Global, server: &Text, pending: &Text) -> Result<Text, NoMemory>
    ensures value { IfOk result (λ text. text ≡ text_of_login_at server.now pending.now) }
{
    let url = login_url(alloc, server, pending)?;
    let nobody = Profile {
        id: 0,
        login: Text::new(alloc),
        display: Text::new(alloc),
    };
    let text = answer_value(alloc, url.as_str(), &nobody, false, false)?.to_string(alloc)?;
    Ok(Text::from_string(text))
}
