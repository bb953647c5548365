//! Asks of lines.
ghost use Rattle.std.specs.Prelude.{◌≤◌, IfOk, IfSome, length};
ghost use Rattle.tailcfg.specs.Short.{IsShortForm, IsShortHost, IsShortUpdate};
ghost use Rattle.tailnet_desk.specs.Asks.{IsShort};

use crate::parts::{cut, machine_key, node_key};
use admin_asks::OperatorAsk;
use desk_state::KeyForm;
use machine_asks::MachineAsk;
use net_addr::{Endpoint, Moment, Prefix};
use policy_asks::PolicyAsk;
use std::alloc::Global;
use std::test::Fail;
use tail_base::{DiscoKey, Items, NodeKey, Text};
use tailcfg::{HostUpdate, Register, Update};
use tailnet_desk::Ask;

/// The one route that a text spells, or none.
fn routes_of(alloc: Global, text: &str) -> Result<Items<Prefix>, Fail>
    ensures short { IfOk result (λ routes. length routes ≤ 1) }
{
    let mut routes = Items::new(alloc);
    if let Ok(route) = Prefix::read(text.as_bytes()) {
        routes.push(route)?;
    }
    Ok(routes)
}

/// The pre-auth key that a text is, or else the first one.
fn auth_of(text: &str) -> &str {
    if text.starts_with("tnkey-") {
        text
    } else {
        "k1"
    }
}

/// A registration until the moment, with the route or by the pre-auth key that a text spells, if it spells one.
fn form_of(alloc: Global, node: NodeKey, text: &str) -> Result<Register, Fail>
    ensures short { IfOk result IsShortForm }
{
    let auth = Text::from_str(alloc, auth_of(text))?;
    let routes = routes_of(alloc, text)?;
    Ok(Register {
        node,
        old: None,
        auth,
        expiry: Moment::read(text.as_bytes()),
        ephemeral: false,
        host: Text::new(alloc),
        routes,
        tags: Items::new(alloc),
    })
}

/// A machine registers: its key, its node key, and then a moment, a route, a pre-auth key or nothing.
fn registration(alloc: Global, line: &str) -> Result<Ask, Fail>
    ensures short { IfOk result IsShort }
{
    let (machine, rest) = cut(line);
    let (node, rest) = cut(rest);
    let machine = machine_key(machine)?;
    let node = node_key(node)?;
    let form = form_of(alloc, node, rest)?;
    Ok(Ask::Machine(MachineAsk::Register { machine, form }))
}

/// The one endpoint that a text spells, or none.
fn endpoints_of(alloc: Global, text: &str) -> Result<Items<Endpoint>, Fail>
    ensures short { IfOk result (λ endpoints. length endpoints ≤ 1) }
{
    let mut endpoints = Items::new(alloc);
    if let Some(endpoint) = Endpoint::read(text.as_bytes()) {
        endpoints.push(endpoint)?;
    }
    Ok(endpoints)
}

/// What tells of a DERP region alone, if a text spells one.
fn host_of(alloc: Global, text: &str) -> Option<HostUpdate>
    ensures short { IfSome result IsShortHost }
{
    let region = text.parse::<u32>().ok()?;
    Some(HostUpdate {
        name: None,
        derp: Some(region),
        routes: Items::new(alloc),
    })
}

/// What tells of a disco key, an endpoint and a DERP region, each where a text spells it.
fn update_of(alloc: Global, text: &str) -> Result<Update, Fail>
    ensures short { IfOk result IsShortUpdate }
{
    let (disco, rest) = cut(text);
    let (endpoint, region) = cut(rest);
    let endpoints = endpoints_of(alloc, endpoint)?;
    Ok(Update {
        endpoints,
        disco: DiscoKey::read(disco.as_bytes()),
        host: host_of(alloc, region),
    })
}

/// A machine tells of itself: its key, its node key, its disco key, an endpoint and a DERP region.
fn telling(alloc: Global, line: &str) -> Result<Ask, Fail>
    ensures short { IfOk result IsShort }
{
    let (machine, rest) = cut(line);
    let (node, told) = cut(rest);
    let machine = machine_key(machine)?;
    let node = node_key(node)?;
    let update = update_of(alloc, told)?;
    Ok(Ask::Machine(MachineAsk::Update {
        machine,
        node,
        update,
    }))
}

/// An operator approves a route: the machine's id and the route.
fn approval(alloc: Global, line: &str) -> Result<Ask, Fail>
    ensures short { IfOk result IsShort }
{
    let (id, route) = cut(line);
    let routes = routes_of(alloc, route)?;
    match id.parse::<u32>() {
        Ok(id) => Ok(Ask::Operator(OperatorAsk::SetRoutes { id, routes })),
        Err(_) => Err(Fail::from("no id")),
    }
}

/// An operator saves a policy.
fn saving(alloc: Global, text: &str) -> Result<Ask, Fail>
    ensures short { IfOk result IsShort }
{
    let text = Text::from_str(alloc, text)?;
    Ok(Ask::Policy(PolicyAsk::SavePolicy { text }))
}

/// A machine asks for its whole map: its key and its node key.
pub(crate) fn mapping(line: &str) -> Result<Ask, Fail>
    ensures short { IfOk result IsShort }
{
    let (machine, node) = cut(line);
    let machine = machine_key(machine)?;
    let node = node_key(node)?;
    Ok(Ask::Machine(MachineAsk::OneMap {
        machine,
        node,
        update: None,
    }))
}

/// An operator makes a user.
fn adding(alloc: Global, name: &str) -> Result<Ask, Fail>
    ensures short { IfOk result IsShort }
{
    let name = Text::from_str(alloc, name)?;
    Ok(Ask::Operator(OperatorAsk::AddUser { name }))
}

/// An operator makes a pre-auth key for the machines of a user.
fn keying(alloc: Global, login: &str) -> Result<Ask, Fail>
    ensures short { IfOk result IsShort }
{
    let login = Text::from_str(alloc, login)?;
    let form = KeyForm {
        login,
        reusable: false,
        ephemeral: false,
        expiry: None,
        tags: Items::new(alloc),
    };
    Ok(Ask::Operator(OperatorAsk::AddKey { form }))
}

/// The first user and the key with this text.
fn seeding(alloc: Global, text: &str) -> Result<Ask, Fail>
    ensures short { IfOk result IsShort }
{
    let text = Text::from_str(alloc, text)?;
    Ok(Ask::Seed { text })
}

/// The ask of a line.
pub(crate) fn ask_of(alloc: Global, line: &str) -> Result<Ask, Fail>
    ensures short { IfOk result IsShort }
{
    let (kind, rest) = cut(line);
    match kind {
        "seed" => seeding(alloc, rest),
        "register" => registration(alloc, rest),
        "tell" => telling(alloc, rest),
        "user" => adding(alloc, rest),
        "key" => keying(alloc, rest),
        "approve" => approval(alloc, rest),
        "policy" => saving(alloc, rest),
        _ => Err(Fail::from("no such event")),
    }
}
