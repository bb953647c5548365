//! Responses of a map session.
ghost use Rattle.std.specs.Prelude.{◌≡◌, ◌++◌, IfOk, OnOk};
ghost use Rattle.wire_write.specs.Joined.{first_tokens};
ghost use Rattle.wire_write.specs.Responses.{changed_members, peer_members, response_data, response_text as text_of_response};
ghost use Rattle.wire_write.specs.Tokens.{Adds, closing_tokens, data_tokens};

use crate::marks::{begin_object, end_object};
use crate::response_parts::ResponseParts;
use crate::token_form::{write_lent, write_list, write_option};
use json::Writer;
use std::alloc::Global;
use tail_base::{NoMemory, Text};
use tailcfg::Response;

/// Writes the opening brace and the members before `Peers`.
pub(crate) fn write_first(
    response: &ResponseParts<'_>,
    room: &mut String,
    out: &mut Writer,
) -> Result<(), NoMemory>
    ensures adds { OnOk result (Adds (first_tokens response.now) out.old out.new) }
{
    begin_object(out)?;
    write_lent("DNSConfig", response.dns, room, out)?;
    write_lent("Domain", response.domain, room, out)?;
    write_lent("MapSessionHandle", response.handle, room, out)?;
    write_lent("Node", response.node, room, out)?;
    write_lent("PacketFilter", response.filter, room, out)?;
    Ok(())
}

/// Writes the members from `PeersChanged` on.
#[tactic(auto, unfolding(crate::specs::Responses::changed_members))]
pub(crate) fn write_changed(
    response: &ResponseParts<'_>,
    room: &mut String,
    out: &mut Writer,
) -> Result<(), NoMemory>
    ensures adds { OnOk result
        (Adds (closing_tokens (changed_members response.now)) out.old out.new) }
{
    write_list("PeersChanged", response.changed, room, out)?;
    write_list("PeersChangedPatch", response.patches, room, out)?;
    write_list("PeersRemoved", response.removed, room, out)?;
    write_option("Seq", &response.seq, room, out)?;
    write_list("UserProfiles", response.profiles, room, out)?;
    end_object(out)?;
    Ok(())
}

/// Writes the members from `Peers` on.
fn write_peers(
    response: &ResponseParts<'_>,
    room: &mut String,
    out: &mut Writer,
) -> Result<(), NoMemory>
    ensures adds { OnOk result
        (Adds (closing_tokens (peer_members response.now)) out.old out.new) }
{
    write_list("Peers", response.peers, room, out)?;
    write_changed(response, room, out)?;
    Ok(())
}

fn write_response(
    response: &ResponseParts<'_>,
    room: &mut String,
    out: &mut Writer,
) -> Result<(), NoMemory>
    ensures adds { OnOk result
        (Adds (data_tokens (response_data response.now)) out.old out.new) }
{
    write_first(response, room, out)?;
    write_peers(response, room, out)?;
    Ok(())
}

/// The bytes, and behind them the text of a response (`tailcfg.MapResponse`): keys in byte order, no
/// spaces.
pub fn append_response(
    alloc: Global,
    bytes: Vec<u8>,
    response: &ResponseParts<'_>,
) -> Result<Vec<u8>, NoMemory>
    ensures value { IfOk result
        (λ made. made.items ≡ bytes.items ++ text_of_response response.now) }
{
    let mut room = String::new(alloc);
    let mut out = Writer::new(bytes);
    write_response(response, &mut room, &mut out)?;
    Ok(out.into_inner())
}

/// The body of a response.
pub fn response_text(alloc: Global, response: &Response) -> Result<Text, NoMemory>
    ensures value { IfOk result (λ text. text ≡ text_of_response response.now) }
{
    let bytes = append_response(alloc, Vec::new(alloc), &ResponseParts::of(response))?;
    match String::from_utf8(bytes) {
        Ok(text) => Ok(Text::from_string(text)),
        // This doesn't come: each text of a response is UTF-8, and so is what stands around them.
        Err(_) => Err(NoMemory),
    }
}
