//! The extra DNS records that operators send.
ghost use Rattle.std.specs.Prelude.{◌≡◌, ◌≤◌, IfOk, length};
ghost use Rattle.serde_json.specs.View.{items_view, view};
ghost use Rattle.net_rows.specs.declared.limits.TheConstants.{EXTRA_LIMIT};
ghost use Rattle.tail_base.specs.Steps.{Gives};
ghost use Rattle.wire_admin.specs.ExtraForms.{each_extra, extra_at, extras_at, extras_form_of_body, given_type, needed_addr, needed_name, type_checked};

use net_addr::Addr;
use net_rows::EXTRA_LIMIT;
use serde_json::Value;
use settings::is_domain;
use std::alloc::Global;
use tail_base::{Failure, Items, Text};
use tailcfg::DnsExtra;
use wire_json::{AdminField, Field, WireFault, field_of, list_of_body, short_array};
use wire_write::record_type;

/// A name, which has to be there: labels joined by dots.
fn needed_name(alloc: Global, object: &Value) -> Result<Text, Failure<WireFault>>
    ensures value { Gives (λ name. name) result (needed_name (view object.now)) }
{
    let field = Field::Admin(AdminField::RecordName);
    let Some(value) = field_of(Some(object), field) else {
        return Err(Failure::Fault(WireFault::Missing(field)));
    };
    match value.as_str() {
        Some(text) if is_domain(text.as_bytes()) => Ok(Text::from_str(alloc, text)?),
        _ => Err(Failure::Fault(WireFault::BadField(field))),
    }
}

/// The text of a type; empty where it is absent.
fn given_type(object: &Value) -> Result<&str, Failure<WireFault>>
    ensures value { Gives (λ given. given.now) result (given_type (view object.now)) }
{
    let field = Field::Admin(AdminField::RecordType);
    match field_of(Some(object), field) {
        Some(value) => value
            .as_str()
            .ok_or(Failure::Fault(WireFault::BadField(field))),
        None => Ok(""),
    }
}

/// An address, which has to be there.
fn needed_addr(object: &Value) -> Result<Addr, Failure<WireFault>>
    ensures value { Gives (λ addr. addr) result (needed_addr (view object.now)) }
{
    let field = Field::Admin(AdminField::RecordValue);
    let Some(value) = field_of(Some(object), field) else {
        return Err(Failure::Fault(WireFault::Missing(field)));
    };
    let Some(text) = value.as_str() else {
        return Err(Failure::Fault(WireFault::BadField(field)));
    };
    Addr::read(text.as_bytes()).ok_or(Failure::Fault(WireFault::BadField(field)))
}

/// Refuses a type that isn't that of the address, unless it is empty.
fn type_checked(given: &str, addr: &Addr) -> Result<(), Failure<WireFault>>
    ensures value { Gives (λ _. tt) result (type_checked given.now addr.now) }
{
    if given.len() == 0 || given == record_type(addr) {
        Ok(())
    } else {
        Err(Failure::Fault(WireFault::BadField(Field::Admin(AdminField::RecordType))))
    }
}

/// The record that an element is. Its type is tried against its address when that was read.
#[tactic(auto, unfolding(crate::specs::ExtraForms::extra_at))]
fn extra_of(alloc: Global, element: &Value) -> Result<DnsExtra, Failure<WireFault>>
    ensures value { Gives (λ extra. extra) result (extra_at (view element.now)) }
{
    if !element.is_object() {
        return Err(Failure::Fault(WireFault::BadField(Field::Admin(AdminField::RecordName))));
    }
    let name = needed_name(alloc, element)?;
    let given = given_type(element)?;
    let addr = needed_addr(element)?;
    type_checked(given, &addr)?;
    Ok(DnsExtra { name, addr })
}

/// The records that elements are, in their order.
fn each_extra(alloc: Global, elements: &[Value]) -> Result<Items<DnsExtra>, Failure<WireFault>>
    ensures value { Gives (λ extras. extras) result (each_extra (items_view elements.now)) }
    ensures count { IfOk result (λ extras. length extras ≡ length elements.now) }
{
    let mut made = Items::new(alloc);
    for element in elements {
        let extra = extra_of(alloc, element)?;
        made.push(extra)?;
    }
    Ok(made)
}

/// The records of a list, whose length is tried first.
fn extras_of(alloc: Global, list: &Value) -> Result<Items<DnsExtra>, Failure<WireFault>>
    ensures value { Gives (λ extras. extras) result (extras_at (view list.now)) }
    ensures short { IfOk result (λ extras. length extras ≤ EXTRA_LIMIT) }
{
    match short_array(list, EXTRA_LIMIT) {
        Some(elements) => each_extra(alloc, elements),
        None => Err(Failure::Fault(WireFault::BadField(Field::Admin(AdminField::RecordName)))),
    }
}

/// The extra records from now on: a list of up to 256 objects with a `Name` and a `Value`, which have
/// to be there, and a `Type`, which is that of the address `Value` if it is given.
///
/// A body is no JSON list; or the fault is that of `Name`, if the list is too long; or it is that of
/// the first element that has one, which is that of `Name`, if it is no object, and else that of its
/// first field that has one: `Name`, `Type` without regard to `Value`, `Value`, and `Type`. A field
/// that is null is as absent, of fields of one name the last counts, and others aren't read.
pub fn read_extras_form(alloc: Global, body: &[u8]) -> Result<Items<DnsExtra>, Failure<WireFault>>
    ensures value { Gives (λ extras. extras) result (extras_form_of_body body.now) }
    ensures short { IfOk result (λ extras. length extras ≤ EXTRA_LIMIT) }
{
    let list = list_of_body(alloc, body)?;
    extras_of(alloc, &list)
}
