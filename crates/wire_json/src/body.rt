//! Bodies and their fields.
ghost use Rattle.std.specs.Prelude.{◌≡◌, option_map};
ghost use Rattle.serde_json.specs.View.{view};
ghost use Rattle.tail_base.specs.Steps.{Gives};
ghost use Rattle.wire_json.specs.Body.{body_value, field_of, list_at, object_at};
ghost use Rattle.wire_json.specs.Readers.{object_of};

use crate::fault::WireFault;
use crate::field::Field;
use serde_json::Value;
use std::alloc::Global;
use tail_base::Failure;

/// The object that a body is: a JSON text in UTF-8 (RFC 8259) whose value is an object. Of members of
/// one name the last counts.
#[tactic(auto, unfolding(crate::specs::Body::object_at))]
pub fn object_of_body(alloc: Global, body: &[u8]) -> Result<Value, Failure<WireFault>>
    ensures value { Gives (λ v. view v) result (object_at (body_value body.now)) }
{
    match Value::from_slice(alloc, body) {
        Ok(value) if value.is_object() => Ok(value),
        Ok(_) => Err(Failure::Fault(WireFault::NotJson)),
        Err(error) if error.is_memory() => Err(Failure::NoMemory),
        Err(_) => Err(Failure::Fault(WireFault::NotJson)),
    }
}

/// The list that a body is: a JSON text in UTF-8 (RFC 8259) whose value is a list.
#[tactic(auto, unfolding(crate::specs::Body::list_at))]
pub fn list_of_body(alloc: Global, body: &[u8]) -> Result<Value, Failure<WireFault>>
    ensures value { Gives (λ v. view v) result (list_at (body_value body.now)) }
{
    match Value::from_slice(alloc, body) {
        Ok(value) if value.is_array() => Ok(value),
        Ok(_) => Err(Failure::Fault(WireFault::NotJson)),
        Err(error) if error.is_memory() => Err(Failure::NoMemory),
        Err(_) => Err(Failure::Fault(WireFault::NotJson)),
    }
}

/// The value of a field that is there and not null, in an object that may itself be absent.
pub fn field_of<'a>(object: Option<&'a Value>, field: Field) -> Option<&'a Value>
    ensures value { option_map (λ v. view v.now) result
        ≡ field_of field (option_map (λ v. view v.now) object.entry) }
{
    match object?.get(field.name()) {
        Some(value) if !value.is_null() => Some(value),
        _ => None,
    }
}

/// The object that a field is, if it is there.
pub(crate) fn object_of<'a>(
    object: Option<&'a Value>,
    field: Field,
) -> Result<Option<&'a Value>, Failure<WireFault>>
    ensures value { Gives (option_map (λ v. view v.now)) result
        (object_of field (option_map (λ v. view v.now) object.entry)) }
{
    match field_of(object, field) {
        Some(value) if value.is_object() => Ok(Some(value)),
        Some(_) => Err(Failure::Fault(WireFault::BadField(field))),
        None => Ok(None),
    }
}
