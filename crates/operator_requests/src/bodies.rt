//! The bodies of requests.
ghost use Rattle.std.specs.Prelude.{◌≡◌, ◌==◌, IfOk, OnOk, false, map};
ghost use Rattle.std.specs.List.{slice_split};
ghost use Rattle.serde_json.specs.Data.{put, string};
ghost use Rattle.serde_json.specs.View.{members_view, view};
ghost use Rattle.serde_json.specs.Written.{compact_text, has_float};
ghost use Rattle.operator_requests.specs.Bodies.{admission_body, elements_of, key_body, key_members, list_data, only_member, tags_data, texts_data};

use serde_json::{Map, Value, json};
use std::alloc::{AllocError, Global};
use tail_base::{Bytes, NoMemory, Text};

/// The bytes of a value in which no number is a float.
pub(crate) fn body_of(alloc: Global, value: &Value) -> Result<Bytes, NoMemory>
    requires plain { has_float (view value.now) ≡ false }
    ensures value { IfOk result (λ body. body ≡ compact_text (view value.now)) }
{
    Ok(Bytes::from_vec(value.to_string(alloc)?.into_bytes()))
}

/// A list that is cut at each comma.
fn pieces_of(alloc: Global, list: &str) -> Result<Vec<&str>, AllocError>
    ensures value { IfOk result (λ texts. map (λ t. t.now) texts.items
        ≡ slice_split (λ b. b == 44) list.now) }
{
    list.split(',').collect(alloc)
}

/// The elements of a list that was given.
fn elements_of(alloc: Global, list: &str) -> Result<Vec<&str>, NoMemory>
    ensures value { IfOk result (λ texts. map (λ t. t.now) texts.items ≡ elements_of list.now) }
{
    if list == "none" {
        return Ok(Vec::new(alloc));
    }
    Ok(pieces_of(alloc, list)?)
}

fn values_of(alloc: Global, texts: &[&str]) -> Result<Vec<Value>, NoMemory>
    ensures value { IfOk result (λ values. map view values.items
        ≡ map string (map (λ t. t.now) texts.now)) }
{
    let mut values = Vec::new(alloc);
    for text in texts {
        values.push(Value::try_from_str(alloc, text)?)?;
    }
    Ok(values)
}

pub(crate) fn list_value(alloc: Global, list: &str) -> Result<Value, NoMemory>
    ensures value { IfOk result (λ v. view v ≡ list_data list.now) }
{
    let texts = elements_of(alloc, list)?;
    Ok(Value::Array(values_of(alloc, &texts)?))
}

fn tags_value(alloc: Global, tags: &Option<Text>) -> Result<Value, NoMemory>
    ensures value { IfOk result (λ v. view v ≡ tags_data tags.now) }
{
    match tags {
        Some(list) => list_value(alloc, list.as_str()),
        None => Ok(Value::Array(Vec::new(alloc))),
    }
}

pub(crate) fn text_value(alloc: Global, text: &Text) -> Result<Value, NoMemory>
    ensures value { IfOk result (λ v. view v ≡ string text.now) }
{
    Ok(Value::try_from_str(alloc, text.as_str())?)
}

// Members are put from the last on, so that each comes before all that are there.

fn put_value(
    members: &mut Map<String, Value>,
    alloc: Global,
    name: &str,
    value: Value,
) -> Result<(), NoMemory>
    ensures put { OnOk result (members_view members.new.entries
        ≡ put name.now (view value) (members_view members.old.entries)) }
{
    serde_json::put(members, alloc, name, value)?;
    Ok(())
}

/// An object of one member.
pub(crate) fn only_member(alloc: Global, name: &str, value: Value) -> Result<Value, NoMemory>
    ensures value { IfOk result (λ v. view v ≡ only_member name.now (view value)) }
{
    let mut members = Map::new(alloc);
    put_value(&mut members, alloc, name, value)?;
    Ok(Value::Object(members))
}

/// The members of a new key from `reusable` on.
fn key_members(
    alloc: Global,
    login: &Text,
    reusable: bool,
    tags: &Option<Text>,
) -> Result<Map<String, Value>, NoMemory>
    ensures value { IfOk result (λ m. members_view m.entries
        ≡ key_members login.now reusable tags.now) }
{
    let mut members = Map::new(alloc);
    put_value(&mut members, alloc, "user", text_value(alloc, login)?)?;
    put_value(&mut members, alloc, "tags", tags_value(alloc, tags)?)?;
    put_value(&mut members, alloc, "reusable", Value::Bool(reusable))?;
    Ok(members)
}

/// The body of a new key.
#[tactic(auto, unfolding(crate::specs::Bodies::key_body))]
pub(crate) fn key_body(
    alloc: Global,
    login: &Text,
    reusable: bool,
    ephemeral: bool,
    expiry: &Option<Text>,
    tags: &Option<Text>,
) -> Result<Value, NoMemory>
    ensures value { IfOk result (λ v. view v
        ≡ key_body login.now reusable ephemeral expiry.now tags.now) }
{
    let mut members = key_members(alloc, login, reusable, tags)?;
    if let Some(time) = expiry {
        put_value(&mut members, alloc, "expiry", text_value(alloc, time)?)?;
    }
    put_value(&mut members, alloc, "ephemeral", Value::Bool(ephemeral))?;
    Ok(Value::Object(members))
}

/// The body of a machine's admission.
#[tactic(auto, unfolding(crate::specs::Bodies::admission_body))]
pub(crate) fn admission_body(alloc: Global, pending: &Text, login: &Text) -> Result<Value, NoMemory>
    ensures value { IfOk result (λ v. view v ≡ admission_body pending.now login.now) }
{
    Ok(json!(in alloc; {"id": pending.as_str(), "user": login.as_str()})?)
}
