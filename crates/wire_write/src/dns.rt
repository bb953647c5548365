//! DNS settings.
ghost use Rattle.std.specs.Prelude.{◌≡◌, ◌∷◌, codes, OnOk};
ghost use Rattle.json.specs.Token.{key};
ghost use Rattle.serde_json.specs.Data.{string};
ghost use Rattle.net_addr.specs.AddrTexts.{addr_text};
ghost use Rattle.wire_write.specs.Dns.{dns_data, extra_data, record_type, resolver_data};
ghost use Rattle.wire_write.specs.Parts.{array_data};
ghost use Rattle.wire_write.specs.Tokens.{Adds, data_tokens, each_tokens};

use crate::addr_text::append_addr;
use crate::marks::{begin_array, begin_object, end_array, end_object, write_name};
use crate::routes::write_routes;
use crate::token_form::{TokenForm, write_member};
use crate::values::write_text;
use json::Writer;
use net_addr::Addr;
use tail_base::{Items, NoMemory};
use tailcfg::{Dns, DnsExtra};

/// The type of an address's record: `AAAA` for an IPv6 address, else `A`.
pub fn record_type(addr: &Addr) -> &'static str
    ensures value { result.now ≡ record_type addr.now }
{
    if addr.is_v6() { "AAAA" } else { "A" }
}

/// Writes the text of an address as a JSON string.
fn write_addr(addr: &Addr, room: &mut String, out: &mut Writer) -> Result<(), NoMemory>
    ensures adds { OnOk result (Adds (data_tokens (string (addr_text addr.now))) out.old out.new) }
{
    room.clear();
    append_addr(addr, room)?;
    write_text(room.as_str(), out)
}

/// Writes a name, and the text of an address under it.
fn write_addr_member(
    name: &str,
    addr: &Addr,
    room: &mut String,
    out: &mut Writer,
) -> Result<(), NoMemory>
    ensures adds { OnOk result
        (Adds (key name.now ∷ data_tokens (string (addr_text addr.now))) out.old out.new) }
{
    write_name(name, out)?;
    write_addr(addr, room, out)?;
    Ok(())
}

/// Writes a name, and the type of an address's record under it.
fn write_type_member(addr: &Addr, out: &mut Writer) -> Result<(), NoMemory>
    ensures adds { OnOk result
        (Adds (key (codes "Type") ∷ data_tokens (string (record_type addr.now))) out.old out.new) }
{
    write_name("Type", out)?;
    write_text(record_type(addr), out)?;
    Ok(())
}

impl TokenForm for DnsExtra {
    ghost json = { extra_data };

    #[tactic(auto, unfolding(crate::specs::Dns::extra_data))]
    fn write_json(&self, room: &mut String, out: &mut Writer) -> Result<(), NoMemory> {
        begin_object(out)?;
        write_member("Name", &self.name, room, out)?;
        write_type_member(&self.addr, out)?;
        write_addr_member("Value", &self.addr, room, out)?;
        end_object(out)?;
        Ok(())
    }
}

/// A resolver (`tailcfg`'s `dnstype.Resolver`).
#[derive(Clone, Copy, Drop)]
pub(crate) struct Resolver {
    addr: Addr,
}

impl TokenForm for Resolver {
    ghost json = { λ r. resolver_data r.addr };

    #[tactic(auto, unfolding(crate::specs::Dns::resolver_data))]
    fn write_json(&self, room: &mut String, out: &mut Writer) -> Result<(), NoMemory> {
        begin_object(out)?;
        write_addr_member("Addr", &self.addr, room, out)?;
        end_object(out)?;
        Ok(())
    }
}

fn write_each_resolver(addrs: &[Addr], room: &mut String, out: &mut Writer) -> Result<(), NoMemory>
    ensures adds { OnOk result (Adds (each_tokens resolver_data addrs.now) out.old out.new) }
{
    for addr in addrs {
        Resolver { addr: *addr }.write_json(room, out)?;
    }
    Ok(())
}

fn write_resolver_list(
    name: &str,
    addrs: &[Addr],
    room: &mut String,
    out: &mut Writer,
) -> Result<(), NoMemory>
    ensures adds { OnOk result
        (Adds (key name.now ∷ data_tokens (array_data resolver_data addrs.now)) out.old out.new) }
{
    write_name(name, out)?;
    begin_array(out)?;
    write_each_resolver(addrs, room, out)?;
    end_array(out)?;
    Ok(())
}

/// Writes a name, and the resolvers at these addresses under it.
pub(crate) fn write_resolvers(
    name: &str,
    addrs: &Items<Addr>,
    room: &mut String,
    out: &mut Writer,
) -> Result<(), NoMemory>
    ensures adds { OnOk result
        (Adds (key name.now ∷ data_tokens (array_data resolver_data addrs.now)) out.old out.new) }
{
    write_resolver_list(name, addrs.as_slice(), room, out)
}

impl TokenForm for Dns {
    ghost json = { dns_data };

    #[tactic(auto, unfolding(crate::specs::Dns::dns_data))]
    fn write_json(&self, room: &mut String, out: &mut Writer) -> Result<(), NoMemory> {
        begin_object(out)?;
        write_member("Domains", &self.settings.domains, room, out)?;
        write_member("ExtraRecords", &self.extras, room, out)?;
        write_member("Proxied", &self.settings.proxied, room, out)?;
        write_resolvers("Resolvers", &self.settings.resolvers, room, out)?;
        write_routes(&self.settings.routes, room, out)?;
        end_object(out)?;
        Ok(())
    }
}
