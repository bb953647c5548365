//! The bodies that operators send.
ghost use Rattle.std.specs.Prelude.{◌≤◌, length, Some, IfOk};
ghost use Rattle.serde_json.specs.Find.{as_str};
ghost use Rattle.serde_json.specs.View.{view};
ghost use Rattle.tailcfg.specs.declared.limits.TheConstants.{ASKED_TAG_LIMIT, ROUTE_LIMIT};
ghost use Rattle.net_rows.specs.declared.limits.TheConstants.{TAG_LIMIT};
ghost use Rattle.tail_base.specs.Steps.{Gives};
ghost use Rattle.wire_admin.specs.Forms.{admit_form_at, admit_form_of_body, empty_form_of_body, expiry_form_of_body, key_form_at, key_form_of_body, needed_routes, needed_tags, needed_text, rename_form_of_body, routes_form_at, routes_form_of_body, tags_form_of_body, user_form_of_body};

use desk_state::KeyForm;
use net_addr::{Moment, Prefix, sorted_routes};
use net_rows::TAG_LIMIT;
use serde_json::Value;
use std::alloc::Global;
use tail_base::{Failure, Items, Tag, Text};
use tailcfg::{ASKED_TAG_LIMIT, ROUTE_LIMIT};
use wire_json::{
    AdminField, Field, WireFault, field_of, flag_of, list_of, object_of_body, some_time_of,
};

/// Whom an operator admits, and for whom.
#[derive(Drop)]
pub struct AdmitForm {
    /// The text of the pending entry.
    pub pending: Text,
    /// The login of the user whose machine it becomes.
    pub login: Text,
}

/// A text that has to be there.
fn needed_text(alloc: Global, body: &Value, field: AdminField) -> Result<Text, Failure<WireFault>>
    ensures value { Gives (λ t. t) result (needed_text field (view body.now)) }
{
    let field = Field::Admin(field);
    let Some(value) = field_of(Some(body), field) else {
        return Err(Failure::Fault(WireFault::Missing(field)));
    };
    match value.as_str() {
        Some(text) => Ok(Text::from_str(alloc, text)?),
        None => Err(Failure::Fault(WireFault::BadField(field))),
    }
}

/// Tags that have to be there.
fn needed_tags(alloc: Global, body: &Value) -> Result<Items<Tag>, Failure<WireFault>>
    ensures value { Gives (λ tags. tags) result (needed_tags (view body.now)) }
    ensures short { IfOk result (λ tags. length tags ≤ TAG_LIMIT) }
{
    let field = Field::Admin(AdminField::Tags);
    if field_of(Some(body), field).is_none() {
        return Err(Failure::Fault(WireFault::Missing(field)));
    }
    list_of(alloc, Some(body), field, TAG_LIMIT)
}

/// Routes that have to be there.
fn needed_routes(alloc: Global, body: &Value) -> Result<Items<Prefix>, Failure<WireFault>>
    ensures value { Gives (λ routes. routes) result (needed_routes (view body.now)) }
    ensures short { IfOk result (λ routes. length routes ≤ ROUTE_LIMIT) }
{
    let field = Field::Admin(AdminField::Routes);
    if field_of(Some(body), field).is_none() {
        return Err(Failure::Fault(WireFault::Missing(field)));
    }
    list_of(alloc, Some(body), field, ROUTE_LIMIT)
}

/// Such routes in order, each once.
fn routes_form_of(alloc: Global, body: &Value) -> Result<Items<Prefix>, Failure<WireFault>>
    ensures value { Gives (λ routes. routes) result (routes_form_at (view body.now)) }
    ensures short { IfOk result (λ routes. length routes ≤ ROUTE_LIMIT) }
{
    let routes = needed_routes(alloc, body)?;
    Ok(sorted_routes(alloc, routes.as_slice())?)
}

#[tactic(auto, unfolding(crate::specs::Forms::key_form_at))]
fn key_form_of(alloc: Global, body: &Value) -> Result<KeyForm, Failure<WireFault>>
    ensures value { Gives (λ f. f) result (key_form_at (view body.now)) }
    ensures short { IfOk result (λ f. length f.tags ≤ ASKED_TAG_LIMIT) }
{
    let login = needed_text(alloc, body, AdminField::User)?;
    let reusable = flag_of(Some(body), Field::Admin(AdminField::Reusable))?;
    let ephemeral = flag_of(Some(body), Field::Admin(AdminField::Ephemeral))?;
    let expiry = some_time_of(Some(body), Field::Admin(AdminField::Expiry))?;
    let tags = list_of(
        alloc,
        Some(body),
        Field::Admin(AdminField::Tags),
        ASKED_TAG_LIMIT,
    )?;
    Ok(KeyForm {
        login,
        reusable,
        ephemeral,
        expiry,
        tags,
    })
}

#[tactic(auto, unfolding(crate::specs::Forms::admit_form_at))]
fn admit_form_of(alloc: Global, body: &Value) -> Result<AdmitForm, Failure<WireFault>>
    ensures value { Gives (λ f. f) result (admit_form_at (view body.now)) }
{
    let pending = needed_text(alloc, body, AdminField::Id)?;
    let login = needed_text(alloc, body, AdminField::User)?;
    Ok(AdmitForm { pending, login })
}

// A body is no JSON object, or its fault is that of the first field that has one. A field that is
// null is as absent, of fields of one name the last counts, and fields of other names aren't read.

/// The name of a new user: `name`, which has to be there.
pub fn read_user_form(alloc: Global, body: &[u8]) -> Result<Text, Failure<WireFault>>
    ensures value { Gives (λ t. t) result (user_form_of_body body.now) }
{
    let value = object_of_body(alloc, body)?;
    needed_text(alloc, &value, AdminField::Name)
}

/// What is asked of a new pre-auth key: the login `user`, which has to be there, `reusable` and
/// `ephemeral`, which are false unless given, `expiry`, and up to 16 `tags`.
pub fn read_key_form(alloc: Global, body: &[u8]) -> Result<KeyForm, Failure<WireFault>>
    ensures value { Gives (λ f. f) result (key_form_of_body body.now) }
    ensures short { IfOk result (λ f. length f.tags ≤ ASKED_TAG_LIMIT) }
{
    let value = object_of_body(alloc, body)?;
    key_form_of(alloc, &value)
}

/// The time at which a node key expires: `expiry`; None where it is absent or Go's zero time.
pub fn read_expiry_form(alloc: Global, body: &[u8]) -> Result<Option<Moment>, Failure<WireFault>>
    ensures value { Gives (λ t. t) result (expiry_form_of_body body.now) }
{
    let value = object_of_body(alloc, body)?;
    some_time_of(Some(&value), Field::Admin(AdminField::Expiry))
}

/// The new name of a machine: `name`, which has to be there.
pub fn read_rename_form(alloc: Global, body: &[u8]) -> Result<Text, Failure<WireFault>>
    ensures value { Gives (λ t. t) result (rename_form_of_body body.now) }
{
    let value = object_of_body(alloc, body)?;
    needed_text(alloc, &value, AdminField::Name)
}

/// The new tags of a machine: up to 32 `tags`, which have to be there.
pub fn read_tags_form(alloc: Global, body: &[u8]) -> Result<Items<Tag>, Failure<WireFault>>
    ensures value { Gives (λ tags. tags) result (tags_form_of_body body.now) }
    ensures short { IfOk result (λ tags. length tags ≤ TAG_LIMIT) }
{
    let value = object_of_body(alloc, body)?;
    needed_tags(alloc, &value)
}

/// The routes of a machine that are approved: up to 32 `routes`, which have to be there, by family,
/// base and length, each once.
pub fn read_routes_form(alloc: Global, body: &[u8]) -> Result<Items<Prefix>, Failure<WireFault>>
    ensures value { Gives (λ routes. routes) result (routes_form_of_body body.now) }
    ensures short { IfOk result (λ routes. length routes ≤ ROUTE_LIMIT) }
{
    let value = object_of_body(alloc, body)?;
    routes_form_of(alloc, &value)
}

/// Who is admitted, and for whom: the text `id` of the pending entry and then the login `user`, which
/// both have to be there.
pub fn read_admit_form(alloc: Global, body: &[u8]) -> Result<AdmitForm, Failure<WireFault>>
    ensures value { Gives (λ f. f) result (admit_form_of_body body.now) }
{
    let value = object_of_body(alloc, body)?;
    admit_form_of(alloc, &value)
}

/// An object, of which no field is read.
pub fn read_empty_form(alloc: Global, body: &[u8]) -> Result<(), Failure<WireFault>>
    ensures value { Gives (λ _. tt) result (empty_form_of_body body.now) }
{
    object_of_body(alloc, body)?;
    Ok(())
}
