//! Keys that are compared without regard to ASCII case.
ghost use Rattle.std.specs.Prelude.{◌≡◌, [], map};
ghost use Rattle.std.specs.Option.{option_map};
ghost use Rattle.std.specs.Str.{str_eq_ignore_ascii_case};
ghost use Rattle.serde_json.specs.View.{members_view, view};
ghost use Rattle.tail_base.specs.Steps.{Gives};
ghost use Rattle.policy_doc.specs.Keys.{is_one_of, keys_of, newer, section};

use policy_rows::{PolicyCode, PolicyFault, refused, under};
use serde_json::{Map, Value};
use std::alloc::Global;
use tail_base::Failure;

fn is_same_key(a: &str, b: &str) -> bool
    ensures value { result ≡ str_eq_ignore_ascii_case a.now b.now }
{
    a.eq_ignore_ascii_case(b)
}

/// The newer name of a key of a rule.
fn newer(key: &str) -> &str
    ensures value { result.now ≡ newer key.now }
{
    if is_same_key(key, "users") {
        "src"
    } else if is_same_key(key, "ports") {
        "dst"
    } else {
        key
    }
}

/// Whether the key is one of the names.
fn is_one_of(key: &str, names: &[&str]) -> bool
    ensures value { result ≡ is_one_of key.now (map (λ b. b.now) names.now) }
{
    for name in names {
        if is_same_key(name, key) {
            return true;
        }
    }
    false
}

/// Refuses a key that isn't supported, isn't known, or stands for one that was there before.
pub(crate) fn check_keys(
    alloc: Global,
    place: &str,
    known: &[&str],
    unsupported: &[&str],
    members: &Map<String, Value>,
) -> Result<(), Failure<PolicyFault>>
    ensures value { Gives (λ x. x) result (keys_of place.now (map (λ b. b.now) known.now)
        (map (λ b. b.now) unsupported.now) [] (members_view members.now.entries)) }
{
    let mut seen = Vec::new(alloc);
    for (key, _) in members {
        let key = key.as_str();
        if is_one_of(key, unsupported) {
            let within = under(alloc, place, key)?;
            return refused(alloc, PolicyCode::Unsupported, within.as_str());
        }
        if !is_one_of(key, known) || is_one_of(newer(key), &seen) {
            let within = under(alloc, place, key)?;
            return refused(alloc, PolicyCode::UnknownKey, within.as_str());
        }
        if seen.push(newer(key)).is_err() {
            return Err(Failure::NoMemory);
        }
    }
    Ok(())
}

/// The value of a key.
pub(crate) fn section<'a>(name: &str, members: &'a Map<String, Value>) -> Option<&'a Value>
    ensures value { option_map (λ v. view v.now) result
        ≡ section name.now (members_view members.now.entries) }
{
    for (key, value) in members {
        if is_same_key(newer(key.as_str()), name) {
            return Some(value);
        }
    }
    None
}
