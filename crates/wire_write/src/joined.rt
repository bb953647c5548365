//! Responses in parts: what stands around the rows of peers, and the row of a node.
ghost use Rattle.std.specs.Prelude.{◌≡◌, ◌++◌, IfOk};
ghost use Rattle.wire_write.specs.Joined.{before_peers, behind_peers, node_row_text};

use crate::marks::{begin_array, end_array, write_name};
use crate::response::{write_changed, write_first};
use crate::response_parts::ResponseParts;
use crate::token_form::TokenForm;
use json::Writer;
use std::alloc::Global;
use tail_base::NoMemory;
use tailcfg::NodeRow;

/// The bytes, and behind them the text of a node (`tailcfg.Node`), as it stands among the peers of a
/// response.
pub fn append_node(alloc: Global, bytes: Vec<u8>, node: &NodeRow) -> Result<Vec<u8>, NoMemory>
    ensures value { IfOk result (λ made. made.items ≡ bytes.items ++ node_row_text node.now) }
{
    let mut room = String::new(alloc);
    let mut out = Writer::new(bytes);
    node.write_json(&mut room, &mut out)?;
    Ok(out.into_inner())
}

/// The bytes, and behind them the text of a response up to the rows of its peers, with the opening
/// bracket. So whoever has the texts of nodes needn't write them anew.
pub fn append_before_peers(
    alloc: Global,
    bytes: Vec<u8>,
    response: &ResponseParts<'_>,
) -> Result<Vec<u8>, NoMemory>
    ensures value { IfOk result (λ made. made.items ≡ bytes.items ++ before_peers response.now) }
{
    let mut room = String::new(alloc);
    let mut out = Writer::new(bytes);
    write_first(response, &mut room, &mut out)?;
    write_name("Peers", &mut out)?;
    begin_array(&mut out)?;
    Ok(out.into_inner())
}

/// The bytes, and behind them the text of a response from the closing bracket of its peers on.
pub fn append_behind_peers(
    alloc: Global,
    bytes: Vec<u8>,
    response: &ResponseParts<'_>,
) -> Result<Vec<u8>, NoMemory>
    ensures value { IfOk result (λ made. made.items ≡ bytes.items ++ behind_peers response.now) }
{
    let mut room = String::new(alloc);
    let mut out = Writer::new(bytes);
    end_array(&mut out)?;
    write_changed(response, &mut room, &mut out)?;
    Ok(out.into_inner())
}
