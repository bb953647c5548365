//! The small values as tokens: numbers, texts, keys, prefixes, endpoints and times.
ghost use Rattle.std.specs.Prelude.{◌≡◌, OnOk};
ghost use Rattle.serde_json.specs.Data.{boolean, string};
ghost use Rattle.wire_write.specs.Parts.{number_data, node_key_data, machine_key_data, disco_key_data, prefix_data, endpoint_data, moment_data, time_data};
ghost use Rattle.wire_write.specs.Tokens.{Adds, data_tokens};

use crate::addr_text::{append_endpoint, append_prefix};
use crate::key_text::append_key;
use crate::moment_text::append_moment;
use crate::token_form::TokenForm;
use json::Writer;
use net_addr::{Endpoint, Moment, Prefix};
use tail_base::{DiscoKey, MachineKey, NoMemory, NodeKey, Tag, Text};

/// Writes a text as a JSON string.
#[tactic(auto, unfolding(crate::specs::Tokens::data_tokens))]
pub(crate) fn write_text(text: &str, out: &mut Writer) -> Result<(), NoMemory>
    ensures adds { OnOk result (Adds (data_tokens (string text.now)) out.old out.new) }
{
    out.string(text)?;
    Ok(())
}

/// Writes a whole number.
#[tactic(auto, unfolding(crate::specs::Tokens::data_tokens))]
fn write_number(number: u64, out: &mut Writer) -> Result<(), NoMemory>
    ensures adds { OnOk result (Adds (data_tokens (number_data number)) out.old out.new) }
{
    out.u64(number)?;
    Ok(())
}

impl TokenForm for bool {
    ghost json = { boolean };

    #[tactic(auto, unfolding(crate::specs::Tokens::data_tokens))]
    fn write_json(&self, _: &mut String, out: &mut Writer) -> Result<(), NoMemory> {
        out.boolean(*self)?;
        Ok(())
    }
}

impl TokenForm for u8 {
    ghost json = { number_data };

    fn write_json(&self, _: &mut String, out: &mut Writer) -> Result<(), NoMemory> {
        write_number(u64::from(*self), out)
    }
}

impl TokenForm for u16 {
    ghost json = { number_data };

    fn write_json(&self, _: &mut String, out: &mut Writer) -> Result<(), NoMemory> {
        write_number(u64::from(*self), out)
    }
}

impl TokenForm for u32 {
    ghost json = { number_data };

    fn write_json(&self, _: &mut String, out: &mut Writer) -> Result<(), NoMemory> {
        write_number(u64::from(*self), out)
    }
}

impl TokenForm for u64 {
    ghost json = { number_data };

    fn write_json(&self, _: &mut String, out: &mut Writer) -> Result<(), NoMemory> {
        write_number(*self, out)
    }
}

impl TokenForm for Text {
    ghost json = { string };

    fn write_json(&self, _: &mut String, out: &mut Writer) -> Result<(), NoMemory> {
        write_text(self.as_str(), out)
    }
}

impl TokenForm for Tag {
    ghost json = { string };

    fn write_json(&self, _: &mut String, out: &mut Writer) -> Result<(), NoMemory> {
        write_text(self.as_str(), out)
    }
}

impl TokenForm for NodeKey {
    ghost json = { node_key_data };

    #[tactic(auto, unfolding(crate::specs::Parts::node_key_data))]
    fn write_json(&self, room: &mut String, out: &mut Writer) -> Result<(), NoMemory> {
        room.clear();
        append_key("nodekey:", &self.0, room)?;
        write_text(room.as_str(), out)
    }
}

impl TokenForm for MachineKey {
    ghost json = { machine_key_data };

    #[tactic(auto, unfolding(crate::specs::Parts::machine_key_data))]
    fn write_json(&self, room: &mut String, out: &mut Writer) -> Result<(), NoMemory> {
        room.clear();
        append_key("mkey:", &self.0, room)?;
        write_text(room.as_str(), out)
    }
}

impl TokenForm for DiscoKey {
    ghost json = { disco_key_data };

    #[tactic(auto, unfolding(crate::specs::Parts::disco_key_data))]
    fn write_json(&self, room: &mut String, out: &mut Writer) -> Result<(), NoMemory> {
        room.clear();
        append_key("discokey:", &self.0, room)?;
        write_text(room.as_str(), out)
    }
}

impl TokenForm for Prefix {
    ghost json = { prefix_data };

    #[tactic(auto, unfolding(crate::specs::Parts::prefix_data))]
    fn write_json(&self, room: &mut String, out: &mut Writer) -> Result<(), NoMemory> {
        room.clear();
        append_prefix(self, room)?;
        write_text(room.as_str(), out)
    }
}

impl TokenForm for Endpoint {
    ghost json = { endpoint_data };

    #[tactic(auto, unfolding(crate::specs::Parts::endpoint_data))]
    fn write_json(&self, room: &mut String, out: &mut Writer) -> Result<(), NoMemory> {
        room.clear();
        append_endpoint(self, room)?;
        write_text(room.as_str(), out)
    }
}

impl TokenForm for Moment {
    ghost json = { moment_data };

    #[tactic(auto, unfolding(crate::specs::Parts::moment_data))]
    fn write_json(&self, room: &mut String, out: &mut Writer) -> Result<(), NoMemory> {
        room.clear();
        append_moment(*self, room)?;
        write_text(room.as_str(), out)
    }
}

/// A time that may be unset.
impl TokenForm for Option<Moment> {
    ghost json = { time_data };

    fn write_json(&self, room: &mut String, out: &mut Writer) -> Result<(), NoMemory> {
        match self {
            Some(moment) => moment.write_json(room, out),
            None => write_text("0001-01-01T00:00:00Z", out),
        }
    }
}
