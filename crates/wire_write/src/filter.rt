//! Rules of a packet filter.
ghost use Rattle.std.specs.Prelude.{◌≡◌, ◌∷◌, [], codes, OnOk};
ghost use Rattle.serde_json.specs.Data.{string};
ghost use Rattle.wire_write.specs.Filters.{dest_data, ports_data, rule_data, sources_data, span_data};
ghost use Rattle.wire_write.specs.Parts.{array_data};
ghost use Rattle.wire_write.specs.Tokens.{Adds, data_tokens, each_tokens};

use crate::addr_text::append_span;
use crate::marks::{begin_array, begin_object, end_array, end_object};
use crate::token_form::{TokenForm, write_member};
use crate::values::write_text;
use json::Writer;
use net_addr::Prefix;
use port_sets::PortRange;
use tail_base::NoMemory;
use tailcfg::{DestRange, FilterRule, Sources};

/// A prefix as filters show it: without its length where it is one address.
#[derive(Clone, Copy, Drop)]
struct Span {
    prefix: Prefix,
}

impl TokenForm for Span {
    ghost json = { λ s. span_data s.prefix };

    #[tactic(auto, unfolding(crate::specs::Filters::span_data))]
    fn write_json(&self, room: &mut String, out: &mut Writer) -> Result<(), NoMemory> {
        room.clear();
        append_span(&self.prefix, room)?;
        write_text(room.as_str(), out)
    }
}

fn write_each_span(prefixes: &[Prefix], room: &mut String, out: &mut Writer) -> Result<(), NoMemory>
    ensures adds { OnOk result (Adds (each_tokens span_data prefixes.now) out.old out.new) }
{
    for prefix in prefixes {
        Span { prefix: *prefix }.write_json(room, out)?;
    }
    Ok(())
}

/// Writes the prefixes of sources.
fn write_spans(prefixes: &[Prefix], room: &mut String, out: &mut Writer) -> Result<(), NoMemory>
    ensures adds { OnOk result
        (Adds (data_tokens (array_data span_data prefixes.now)) out.old out.new) }
{
    begin_array(out)?;
    write_each_span(prefixes, room, out)?;
    end_array(out)?;
    Ok(())
}

/// Writes that every address is a source.
fn write_any(out: &mut Writer) -> Result<(), NoMemory>
    ensures adds { OnOk result
        (Adds (data_tokens (array_data string (codes "*" ∷ []))) out.old out.new) }
{
    begin_array(out)?;
    write_text("*", out)?;
    end_array(out)?;
    Ok(())
}

impl TokenForm for Sources {
    ghost json = { sources_data };

    #[tactic(auto, unfolding(crate::specs::Filters::sources_data))]
    fn write_json(&self, room: &mut String, out: &mut Writer) -> Result<(), NoMemory> {
        match self {
            Sources::Any => write_any(out),
            Sources::Only(prefixes) => write_spans(prefixes.as_slice(), room, out),
        }
    }
}

impl TokenForm for PortRange {
    ghost json = { ports_data };

    #[tactic(auto, unfolding(crate::specs::Filters::ports_data))]
    fn write_json(&self, room: &mut String, out: &mut Writer) -> Result<(), NoMemory> {
        begin_object(out)?;
        write_member("First", &self.first, room, out)?;
        write_member("Last", &self.last, room, out)?;
        end_object(out)?;
        Ok(())
    }
}

impl TokenForm for DestRange {
    ghost json = { dest_data };

    #[tactic(auto, unfolding(crate::specs::Filters::dest_data))]
    fn write_json(&self, room: &mut String, out: &mut Writer) -> Result<(), NoMemory> {
        let to = Span { prefix: self.to };
        begin_object(out)?;
        write_member("IP", &to, room, out)?;
        write_member("Ports", &self.ports, room, out)?;
        end_object(out)?;
        Ok(())
    }
}

impl TokenForm for FilterRule {
    ghost json = { rule_data };

    #[tactic(auto, unfolding(crate::specs::Filters::rule_data))]
    fn write_json(&self, room: &mut String, out: &mut Writer) -> Result<(), NoMemory> {
        begin_object(out)?;
        write_member("DstPorts", &self.dests, room, out)?;
        write_member("IPProto", &self.protos, room, out)?;
        write_member("SrcIPs", &self.sources, room, out)?;
        end_object(out)?;
        Ok(())
    }
}
