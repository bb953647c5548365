//! The request of each command.
ghost use Rattle.std.specs.Prelude.{◌≡◌, IfOk, codes, false, option_map};
ghost use Rattle.serde_json.specs.Data.{no_members, object, string};
ghost use Rattle.serde_json.specs.View.{view};
ghost use Rattle.serde_json.specs.Written.{has_float};
ghost use Rattle.operator_requests.specs.Bodies.{admission_body, key_body, list_data, only_member};
ghost use Rattle.operator_requests.specs.Requests.{delete_of, file_of, get_of, key_path, node_path, post_of, put_of, command_request, user_path};

use crate::bodies::{admission_body, body_of, key_body, list_value, only_member, text_value};
use crate::paths::{key_path, node_path, user_path};
use crate::request::{AskMethod, OperatorRequest};
use command_words::OperatorCommand;
use serde_json::{Map, Value};
use std::alloc::Global;
use tail_base::{Bytes, NoMemory, Text};

fn get_of(alloc: Global, path: &str) -> Result<OperatorRequest, NoMemory>
    ensures value { IfOk result (λ request. request ≡ get_of path.now) }
{
    Ok(OperatorRequest {
        method: AskMethod::Get,
        path: Text::from_str(alloc, path)?,
        body: None,
    })
}

fn delete_of(path: Text) -> OperatorRequest
    ensures value { result ≡ delete_of path }
{
    OperatorRequest {
        method: AskMethod::Delete,
        path,
        body: None,
    }
}

fn post_of(alloc: Global, path: Text, value: &Value) -> Result<OperatorRequest, NoMemory>
    requires plain { has_float (view value.now) ≡ false }
    ensures value { IfOk result (λ request. request ≡ post_of path (view value.now)) }
{
    Ok(OperatorRequest {
        method: AskMethod::Post,
        path,
        body: Some(body_of(alloc, value)?),
    })
}

fn put_of(alloc: Global, path: &str, file: &[u8]) -> Result<OperatorRequest, NoMemory>
    ensures value { IfOk result (λ request. request ≡ put_of path.now file.now) }
{
    Ok(OperatorRequest {
        method: AskMethod::Put,
        path: Text::from_str(alloc, path)?,
        body: Some(Bytes::from_slice(alloc, file)?),
    })
}

/// A POST of an object without members.
fn post_nothing(alloc: Global, path: Text) -> Result<OperatorRequest, NoMemory>
    ensures value { IfOk result (λ request. request ≡ post_of path (object no_members)) }
{
    post_of(alloc, path, &Value::Object(Map::new(alloc)))
}

/// A POST of one text.
fn post_text(
    alloc: Global,
    path: Text,
    name: &str,
    text: &Text,
) -> Result<OperatorRequest, NoMemory>
    ensures value { IfOk result (λ request. request
        ≡ post_of path (only_member name.now (string text.now))) }
{
    let value = only_member(alloc, name, text_value(alloc, text)?)?;
    post_of(alloc, path, &value)
}

/// A POST of one list.
#[tactic(auto, using(crate::proofs::Plain::list_plain))]
fn post_list(
    alloc: Global,
    path: Text,
    name: &str,
    list: &Text,
) -> Result<OperatorRequest, NoMemory>
    ensures value { IfOk result (λ request. request
        ≡ post_of path (only_member name.now (list_data list.now))) }
{
    let value = only_member(alloc, name, list_value(alloc, list.as_str())?)?;
    post_of(alloc, path, &value)
}

fn user_add(alloc: Global, name: &Text) -> Result<OperatorRequest, NoMemory>
    ensures value { IfOk result (λ request. request
        ≡ post_of (codes "/api/v1/user") (only_member (codes "name") (string name.now))) }
{
    let path = Text::from_str(alloc, "/api/v1/user")?;
    post_text(alloc, path, "name", name)
}

/// The POST of a new key.
#[tactic(auto, using(crate::proofs::Plain::key_plain))]
fn key_add(
    alloc: Global,
    login: &Text,
    reusable: bool,
    ephemeral: bool,
    expiry: &Option<Text>,
    tags: &Option<Text>,
) -> Result<OperatorRequest, NoMemory>
    ensures value { IfOk result (λ request. request ≡ post_of (codes "/api/v1/preauthkey")
        (key_body login.now reusable ephemeral expiry.now tags.now)) }
{
    let path = Text::from_str(alloc, "/api/v1/preauthkey")?;
    let value = key_body(alloc, login, reusable, ephemeral, expiry, tags)?;
    post_of(alloc, path, &value)
}

fn node_rename(alloc: Global, id: u32, name: &Text) -> Result<OperatorRequest, NoMemory>
    ensures value { IfOk result (λ request. request
        ≡ post_of (node_path id (codes "/rename"))
        (only_member (codes "name") (string name.now))) }
{
    let path = node_path(alloc, id, "/rename")?;
    post_text(alloc, path, "name", name)
}

fn node_tags(alloc: Global, id: u32, list: &Text) -> Result<OperatorRequest, NoMemory>
    ensures value { IfOk result (λ request. request
        ≡ post_of (node_path id (codes "/tags"))
        (only_member (codes "tags") (list_data list.now))) }
{
    let path = node_path(alloc, id, "/tags")?;
    post_list(alloc, path, "tags", list)
}

fn node_routes(alloc: Global, id: u32, list: &Text) -> Result<OperatorRequest, NoMemory>
    ensures value { IfOk result (λ request. request
        ≡ post_of (node_path id (codes "/routes"))
        (only_member (codes "routes") (list_data list.now))) }
{
    let path = node_path(alloc, id, "/routes")?;
    post_list(alloc, path, "routes", list)
}

/// The POST of an admission.
#[tactic(auto, using(crate::proofs::Plain::admission_plain))]
fn pending_admit(alloc: Global, pending: &Text, login: &Text) -> Result<OperatorRequest, NoMemory>
    ensures value { IfOk result (λ request. request
        ≡ post_of (codes "/api/v1/register") (admission_body pending.now login.now)) }
{
    let path = Text::from_str(alloc, "/api/v1/register")?;
    let value = admission_body(alloc, pending, login)?;
    post_of(alloc, path, &value)
}

fn sweep(alloc: Global) -> Result<OperatorRequest, NoMemory>
    ensures value { IfOk result (λ request. request
        ≡ post_of (codes "/api/v1/sweep") (object no_members)) }
{
    post_nothing(alloc, Text::from_str(alloc, "/api/v1/sweep")?)
}

/// The request of a command, with the bytes of its file, if it has one.
#[tactic(auto, unfolding(crate::specs::Requests::command_request))]
pub fn operator_request(
    alloc: Global,
    command: &OperatorCommand,
    file: &[u8],
) -> Result<OperatorRequest, NoMemory>
    ensures value { IfOk result (λ request. request ≡ command_request command.now file.now) }
{
    match command {
        OperatorCommand::UserList => get_of(alloc, "/api/v1/user"),
        OperatorCommand::UserAdd { name } => user_add(alloc, name),
        OperatorCommand::UserDel { login } => Ok(delete_of(user_path(alloc, login)?)),
        OperatorCommand::KeyList => get_of(alloc, "/api/v1/preauthkey"),
        OperatorCommand::KeyAdd {
            login,
            reusable,
            ephemeral,
            expiry,
            tags,
        } => key_add(alloc, login, *reusable, *ephemeral, expiry, tags),
        OperatorCommand::KeyExpire { id } => Ok(delete_of(key_path(alloc, *id)?)),
        OperatorCommand::NodeList => get_of(alloc, "/api/v1/node"),
        OperatorCommand::NodeDel { id } => Ok(delete_of(node_path(alloc, *id, "")?)),
        OperatorCommand::NodeExpire { id } => post_nothing(
            alloc,
            node_path(alloc, *id, "/expire")?,
        ),
        OperatorCommand::NodeRename { id, name } => node_rename(alloc, *id, name),
        OperatorCommand::NodeTags { id, list } => node_tags(alloc, *id, list),
        OperatorCommand::NodeRoutes { id, list } => node_routes(alloc, *id, list),
        OperatorCommand::PendingList => get_of(alloc, "/api/v1/register"),
        OperatorCommand::PendingAdmit { pending, login } => pending_admit(alloc, pending, login),
        OperatorCommand::PolicyGet => get_of(alloc, "/api/v1/policy"),
        OperatorCommand::PolicySet { .. } => put_of(alloc, "/api/v1/policy", file),
        OperatorCommand::DnsGet => get_of(alloc, "/api/v1/dns"),
        OperatorCommand::DnsSet { .. } => put_of(alloc, "/api/v1/dns", file),
        OperatorCommand::Sweep => sweep(alloc),
    }
}

/// The name of the file that a command sends, if it sends one.
pub fn file_of(command: &OperatorCommand) -> Option<&Text>
    ensures value { option_map (λ name. name.now) result ≡ file_of command.now }
{
    match command {
        OperatorCommand::PolicySet { file } => Some(file),
        OperatorCommand::DnsSet { file } => Some(file),
        OperatorCommand::UserList
        | OperatorCommand::UserAdd { .. }
        | OperatorCommand::UserDel { .. }
        | OperatorCommand::KeyList
        | OperatorCommand::KeyAdd { .. }
        | OperatorCommand::KeyExpire { .. }
        | OperatorCommand::NodeList
        | OperatorCommand::NodeDel { .. }
        | OperatorCommand::NodeExpire { .. }
        | OperatorCommand::NodeRename { .. }
        | OperatorCommand::NodeTags { .. }
        | OperatorCommand::NodeRoutes { .. }
        | OperatorCommand::PendingList
        | OperatorCommand::PendingAdmit { .. }
        | OperatorCommand::PolicyGet
        | OperatorCommand::DnsGet
        | OperatorCommand::Sweep => None,
    }
}
