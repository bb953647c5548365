//! Machines as operators are shown them.
ghost use Rattle.std.specs.Prelude.{◌≡◌, IfOk};
ghost use Rattle.serde_json.specs.View.{view, members_view};
ghost use Rattle.wire_admin.specs.Nodes.{addr_data, addresses_data, live_members, node_data, node_text as text_of_node, nodes_data, nodes_text as text_of_nodes};

use crate::row_form::{RowForm, rows_value};
use crate::written::written;
use desk_state::NodeLine;
use net_addr::Addr;
use net_rows::Machine;
use serde_json::{Map, Value, json};
use std::alloc::Global;
use tail_base::{Items, NoMemory, Text};
use wire_write::{put_form, text_value};

#[tactic(auto, unfolding(crate::specs::Nodes::addr_data))]
fn addr_value(alloc: Global, addr: Addr) -> Result<Value, NoMemory>
    ensures value { IfOk result (λ v. view v ≡ addr_data addr) }
{
    let text = addr.write(alloc)?;
    text_value(alloc, text.as_str())
}

fn addresses_value(alloc: Global, row: &Machine) -> Result<Value, NoMemory>
    ensures value { IfOk result (λ v. view v ≡ addresses_data row.now) }
{
    let v4 = addr_value(alloc, row.v4)?;
    let v6 = addr_value(alloc, row.v6)?;
    Ok(json!(in alloc; [v4, v6])?)
}

// Members are put from the last on, so that each comes before all that are there.

fn live_members(alloc: Global, node: &NodeLine) -> Result<Map<String, Value>, NoMemory>
    ensures value { IfOk result (λ m. members_view m.entries ≡ live_members node.now) }
{
    let mut members = Map::new(alloc);
    put_form(&mut members, alloc, "user", &node.login)?;
    put_form(&mut members, alloc, "tags", &node.row.tags)?;
    put_form(&mut members, alloc, "served", &node.served)?;
    put_form(&mut members, alloc, "online", &node.online)?;
    let name = text_value(alloc, node.row.name.as_str())?;
    serde_json::put(&mut members, alloc, "name", name)?;
    put_form(&mut members, alloc, "live", &node.live)?;
    Ok(members)
}

impl RowForm for NodeLine {
    ghost form = { node_data };

    #[tactic(auto, unfolding(crate::specs::Nodes::node_data))]
    fn to_value(&self, alloc: Global) -> Result<Value, NoMemory> {
        let mut members = live_members(alloc, self)?;
        put_form(&mut members, alloc, "id", &self.row.id)?;
        put_form(&mut members, alloc, "expiry", &self.row.expiry)?;
        put_form(&mut members, alloc, "approved", &self.row.approved)?;
        put_form(&mut members, alloc, "advertised", &self.row.routes)?;
        let addresses = addresses_value(alloc, &self.row)?;
        serde_json::put(&mut members, alloc, "addresses", addresses)?;
        Ok(Value::Object(members))
    }
}

/// A machine: its `id`, its label `name`, the login `user`, its addresses without lengths, its routes
/// as it advertises them, as the operator approved them and as it serves them, and how it stands.
#[tactic(auto, using(crate::proofs::Plain::node_plain))]
pub fn node_text(alloc: Global, node: &NodeLine) -> Result<Text, NoMemory>
    ensures value { IfOk result (λ text. text ≡ text_of_node node.now) }
{
    let value = node.to_value(alloc)?;
    written(alloc, &value)
}

#[tactic(auto, unfolding(crate::specs::Nodes::nodes_data))]
fn nodes_value(alloc: Global, nodes: &Items<NodeLine>) -> Result<Value, NoMemory>
    ensures value { IfOk result (λ v. view v ≡ nodes_data nodes.now) }
{
    Ok(json!(in alloc; {"nodes": rows_value(alloc, nodes.as_slice())?})?)
}

/// Machines: the list `nodes`.
#[tactic(auto, using(crate::proofs::Plain::nodes_plain))]
pub fn nodes_text(alloc: Global, nodes: &Items<NodeLine>) -> Result<Text, NoMemory>
    ensures value { IfOk result (λ text. text ≡ text_of_nodes nodes.now) }
{
    let value = nodes_value(alloc, nodes)?;
    written(alloc, &value)
}
