//! What the values of fields say.
ghost use Rattle.std.specs.Prelude.{◌≡◌, ◌≤◌, false, [], option_map, None, IfOk, IfSome, length};
ghost use Rattle.serde_json.specs.Find.{as_bool, as_str};
ghost use Rattle.serde_json.specs.View.{view};
ghost use Rattle.tail_base.specs.Steps.{Gives};
ghost use Rattle.wire_json.specs.Readers.{node_key, optional, required, some_disco_key, some_node_key, some_short_text, some_time, unless_zero_time, whole_up_to};

use crate::body::field_of;
use crate::fault::WireFault;
use crate::field::Field;
use net_addr::Moment;
use serde_json::Value;
use std::alloc::Global;
use tail_base::{DiscoKey, Failure, NodeKey, Text};

/// A truth value; false where it is absent.
pub fn flag_of(object: Option<&Value>, field: Field) -> Result<bool, Failure<WireFault>>
    ensures value { Gives (λ b. b) result
        (optional field false as_bool (option_map (λ v. view v.now) object.entry)) }
{
    match field_of(object, field) {
        Some(value) => value
            .as_bool()
            .ok_or(Failure::Fault(WireFault::BadField(field))),
        None => Ok(false),
    }
}

/// A text; empty where it is absent.
pub(crate) fn text_of(
    alloc: Global,
    object: Option<&Value>,
    field: Field,
) -> Result<Text, Failure<WireFault>>
    ensures value { Gives (λ t. t) result
        (optional field [] as_str (option_map (λ v. view v.now) object.entry)) }
{
    let Some(value) = field_of(object, field) else {
        return Ok(Text::new(alloc));
    };
    match value.as_str() {
        Some(text) => Ok(Text::from_str(alloc, text)?),
        None => Err(Failure::Fault(WireFault::BadField(field))),
    }
}

/// A text of at most so many bytes; None where it is absent.
pub(crate) fn short_text_of(
    alloc: Global,
    object: Option<&Value>,
    field: Field,
    limit: usize,
) -> Result<Option<Text>, Failure<WireFault>>
    ensures value { Gives (λ t. t) result
        (optional field None (some_short_text limit) (option_map (λ v. view v.now) object.entry)) }
    ensures short { IfOk result (λ t. IfSome t (λ text. length text ≤ limit)) }
{
    let Some(value) = field_of(object, field) else {
        return Ok(None);
    };
    match value.as_str() {
        Some(text) if text.len() <= limit => Ok(Some(Text::from_str(alloc, text)?)),
        _ => Err(Failure::Fault(WireFault::BadField(field))),
    }
}

/// A number in plain digits up to a greatest; 0 where it is absent.
pub(crate) fn number_of(
    object: Option<&Value>,
    field: Field,
    limit: u64,
) -> Result<u64, Failure<WireFault>>
    ensures value { Gives (λ n. n) result
        (optional field 0 (whole_up_to limit) (option_map (λ v. view v.now) object.entry)) }
    ensures limited { IfOk result (λ n. n ≤ limit) }
{
    let Some(value) = field_of(object, field) else {
        return Ok(0);
    };
    match value.as_u64() {
        Some(number) if number <= limit => Ok(number),
        _ => Err(Failure::Fault(WireFault::BadField(field))),
    }
}

/// A node key that isn't zero.
pub(crate) fn node_key_of(
    object: Option<&Value>,
    field: Field,
) -> Result<NodeKey, Failure<WireFault>>
    ensures value { Gives (λ k. k) result
        (required field node_key (option_map (λ v. view v.now) object.entry)) }
{
    let Some(value) = field_of(object, field) else {
        return Err(Failure::Fault(WireFault::Missing(field)));
    };
    let Some(text) = value.as_str() else {
        return Err(Failure::Fault(WireFault::BadField(field)));
    };
    match NodeKey::read(text.as_bytes()) {
        Some(key) if !key.is_zero() => Ok(key),
        _ => Err(Failure::Fault(WireFault::BadField(field))),
    }
}

/// A node key; None where it is absent or zero.
pub(crate) fn some_node_key_of(
    object: Option<&Value>,
    field: Field,
) -> Result<Option<NodeKey>, Failure<WireFault>>
    ensures value { Gives (λ k. k) result
        (optional field None some_node_key (option_map (λ v. view v.now) object.entry)) }
{
    let Some(value) = field_of(object, field) else {
        return Ok(None);
    };
    let Some(text) = value.as_str() else {
        return Err(Failure::Fault(WireFault::BadField(field)));
    };
    match NodeKey::read(text.as_bytes()) {
        Some(key) if key.is_zero() => Ok(None),
        Some(key) => Ok(Some(key)),
        None => Err(Failure::Fault(WireFault::BadField(field))),
    }
}

/// A disco key; None where it is absent or zero.
pub(crate) fn some_disco_key_of(
    object: Option<&Value>,
    field: Field,
) -> Result<Option<DiscoKey>, Failure<WireFault>>
    ensures value { Gives (λ k. k) result
        (optional field None some_disco_key (option_map (λ v. view v.now) object.entry)) }
{
    let Some(value) = field_of(object, field) else {
        return Ok(None);
    };
    let Some(text) = value.as_str() else {
        return Err(Failure::Fault(WireFault::BadField(field)));
    };
    match DiscoKey::read(text.as_bytes()) {
        Some(key) if key.is_zero() => Ok(None),
        Some(key) => Ok(Some(key)),
        None => Err(Failure::Fault(WireFault::BadField(field))),
    }
}

/// The moment, unless it is Go's zero time, the first of all.
fn unless_zero_time(moment: Moment) -> Option<Moment>
    ensures value { result ≡ unless_zero_time moment }
{
    if Moment::clamp(i64::MIN).is_before(moment) {
        Some(moment)
    } else {
        None
    }
}

/// A time in the form of RFC 3339; None where it is absent or Go's zero time.
pub fn some_time_of(
    object: Option<&Value>,
    field: Field,
) -> Result<Option<Moment>, Failure<WireFault>>
    ensures value { Gives (λ t. t) result
        (optional field None some_time (option_map (λ v. view v.now) object.entry)) }
{
    let Some(value) = field_of(object, field) else {
        return Ok(None);
    };
    let Some(text) = value.as_str() else {
        return Err(Failure::Fault(WireFault::BadField(field)));
    };
    match Moment::read(text.as_bytes()) {
        Some(moment) => Ok(unless_zero_time(moment)),
        None => Err(Failure::Fault(WireFault::BadField(field))),
    }
}
