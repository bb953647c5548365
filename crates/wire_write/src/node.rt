//! Nodes.
ghost use Rattle.std.specs.Prelude.{◌≡◌, ◌∷◌, ◌++◌, codes, OnOk, string_bytes};
ghost use Rattle.std.specs.Fmt.{decimal};
ghost use Rattle.json.specs.Token.{key};
ghost use Rattle.serde_json.specs.Data.{string};
ghost use Rattle.wire_write.specs.Nodes.{host_data, keyed_members, named_members, node_data};
ghost use Rattle.wire_write.specs.Tokens.{Adds, closing_tokens, data_tokens};

use crate::marks::{begin_object, end_object, write_name};
use crate::numerals::append_decimal;
use crate::token_form::{TokenForm, write_member};
use crate::values::write_text;
use json::Writer;
use tail_base::{NoMemory, Text};
use tailcfg::NodeRow;

/// Writes what is known of the host.
fn write_host(host: &Text, room: &mut String, out: &mut Writer) -> Result<(), NoMemory>
    ensures adds { OnOk result
        (Adds (key (codes "Hostinfo") ∷ data_tokens (host_data host.now)) out.old out.new) }
{
    write_name("Hostinfo", out)?;
    begin_object(out)?;
    write_member("Hostname", host, room, out)?;
    end_object(out)?;
    Ok(())
}

fn write_stable_text(id: u32, room: &mut String, out: &mut Writer) -> Result<(), NoMemory>
    ensures adds { OnOk result
        (Adds (data_tokens (string (codes "n" ++ decimal id))) out.old out.new) }
{
    room.clear();
    room.push_str("n")?;
    append_decimal(id, room)?;
    write_text(room.as_str(), out)
}

/// Writes the id by which a node is known for good.
fn write_stable_id(id: u32, room: &mut String, out: &mut Writer) -> Result<(), NoMemory>
    ensures adds { OnOk result (Adds
        (key (codes "StableID") ∷ data_tokens (string (codes "n" ++ decimal id))) out.old out.new) }
{
    write_name("StableID", out)?;
    write_stable_text(id, room, out)?;
    Ok(())
}

/// Writes the members from `MachineAuthorized` on.
fn write_named(node: &NodeRow, room: &mut String, out: &mut Writer) -> Result<(), NoMemory>
    ensures adds { OnOk result (Adds (closing_tokens (named_members node.now)) out.old out.new) }
{
    write_member("MachineAuthorized", &true, room, out)?;
    write_member("Name", &node.name, room, out)?;
    write_member("Online", &node.online, room, out)?;
    write_stable_id(node.id, room, out)?;
    write_member("Tags", &node.tags, room, out)?;
    write_member("User", &node.user, room, out)?;
    end_object(out)?;
    Ok(())
}

/// Writes the members from `Hostinfo` on.
fn write_keyed(node: &NodeRow, room: &mut String, out: &mut Writer) -> Result<(), NoMemory>
    ensures adds { OnOk result (Adds (closing_tokens (keyed_members node.now)) out.old out.new) }
{
    write_host(&node.host, room, out)?;
    write_member("ID", &node.id, room, out)?;
    write_member("Key", &node.key, room, out)?;
    write_member("KeyExpiry", &node.expiry, room, out)?;
    write_member("Machine", &node.machine, room, out)?;
    write_named(node, room, out)?;
    Ok(())
}

impl TokenForm for NodeRow {
    ghost json = { node_data };

    #[tactic(auto, unfolding(crate::specs::Nodes::node_data))]
    fn write_json(&self, room: &mut String, out: &mut Writer) -> Result<(), NoMemory> {
        begin_object(out)?;
        write_member("Addresses", &self.addresses, room, out)?;
        write_member("AllowedIPs", &self.allowed, room, out)?;
        write_member("Created", &self.created, room, out)?;
        write_member("DiscoKey", &self.disco, room, out)?;
        write_member("Endpoints", &self.endpoints, room, out)?;
        write_member("HomeDERP", &self.derp, room, out)?;
        write_keyed(self, room, out)?;
        Ok(())
    }
}
