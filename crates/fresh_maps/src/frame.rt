//! Responses as frames.
ghost use Rattle.std.specs.Prelude.{◌≡◌, ◌==◌, ◌++◌, ◌≤◌, drop, false, length, map, vec_len, IfOk, OnOk};
ghost use Rattle.std.specs.Int.{w32, to_le_bytes};
ghost use Rattle.std.specs.Option.{option_copied};
ghost use Rattle.fresh_maps.specs.Frames.{frame_of};
ghost use Rattle.fresh_maps.specs.Responses.{first_response};
ghost use Rattle.wire_write.specs.Joined.{behind_commas, comma_joined, node_row_text};
ghost use Rattle.wire_write.specs.Responses.{response_text};

use crate::node_texts::NodeTexts;
use crate::response::first_response;
use crate::view::View;
use std::alloc::Global;
use tail_base::{NoMemory, Text};
use tailcfg::{NodeRow, Response};
use wire_write::{ResponseParts, append_before_peers, append_behind_peers, append_response};

/// Puts a number over the first four bytes, the lowest first.
fn put_length(bytes: &mut Vec<u8>, length: u32)
    requires room { 4 ≤ vec_len bytes.old }
    ensures value { bytes.new.items ≡ to_le_bytes w32 length ++ drop 4 bytes.old.items }
{
    let [a, b, c, d] = length.to_le_bytes();
    bytes[0] = a;
    bytes[1] = b;
    bytes[2] = c;
    bytes[3] = d;
}

/// Some four times the usual bytes of a frame of so many peers. What isn't written costs nothing, and a
/// buffer that grows is moved.
fn ample_size(peers: usize) -> usize {
    peers.saturating_mul(2048).saturating_add(4096)
}

/// Adds the texts of nodes, a comma before each.
fn append_later(
    alloc: Global,
    bytes: &mut Vec<u8>,
    rows: &[NodeRow],
    texts: &mut NodeTexts,
) -> Result<(), NoMemory>
    ensures ok { OnOk result
        (bytes.new.items ≡ bytes.old.items ++ behind_commas (map node_row_text rows.now)) }
{
    for row in rows {
        bytes.push(b',')?;
        texts.append(alloc, bytes, row)?;
    }
    Ok(())
}

/// Adds the texts of nodes, with commas between them.
fn append_rows(
    alloc: Global,
    bytes: &mut Vec<u8>,
    rows: &[NodeRow],
    texts: &mut NodeTexts,
) -> Result<(), NoMemory>
    ensures ok { OnOk result
        (bytes.new.items ≡ bytes.old.items ++ comma_joined (map node_row_text rows.now)) }
{
    let [first, later @ ..] = rows else {
        return Ok(());
    };
    texts.append(alloc, bytes, first)?;
    append_later(alloc, bytes, later, texts)?;
    Ok(())
}

/// The bytes, and behind them the text of a response that has peers.
fn append_with_peers(
    alloc: Global,
    bytes: Vec<u8>,
    response: &ResponseParts<'_>,
    texts: &mut NodeTexts,
) -> Result<Vec<u8>, NoMemory>
    requires some { (length response.now.peers == 0) ≡ false }
    ensures value { IfOk result
        (λ made. made.items ≡ bytes.items ++ response_text response.now) }
{
    let mut made = append_before_peers(alloc, bytes, response)?;
    append_rows(alloc, &mut made, response.peers, texts)?;
    let made = append_behind_peers(alloc, made, response)?;
    Ok(made)
}

/// The bytes, and behind them the text of a response.
fn append_text(
    alloc: Global,
    bytes: Vec<u8>,
    response: &ResponseParts<'_>,
    texts: &mut NodeTexts,
) -> Result<Vec<u8>, NoMemory>
    ensures value { IfOk result
        (λ made. made.items ≡ bytes.items ++ response_text response.now) }
{
    if response.peers.is_empty() {
        append_response(alloc, bytes, response)
    } else {
        append_with_peers(alloc, bytes, response, texts)
    }
}

/// The frame of a response, in one buffer: room for the length, the text, and then the length. A
/// text of 2^32 bytes or more has no frame.
fn frame_of(
    alloc: Global,
    response: &ResponseParts<'_>,
    texts: &mut NodeTexts,
) -> Result<Vec<u8>, NoMemory>
    ensures value { IfOk result (λ frame. frame.items ≡ frame_of response.now) }
{
    let mut room = Vec::with_capacity(alloc, ample_size(response.peers.len()))?;
    room.extend_from_slice(&[0, 0, 0, 0])?;
    let mut frame = append_text(alloc, room, response, texts)?;
    let Ok(length) = u32::try_from(frame.len() - 4) else {
        // This doesn't come: a tailnet's limits keep the text of a map far below 2^32 bytes.
        return Err(NoMemory);
    };
    put_length(&mut frame, length);
    Ok(frame)
}

/// The frame of a response: the length of its JSON text in four bytes, the lowest first, and then the
/// text. Texts of nodes that are kept are copied, and those that aren't are kept.
pub fn frame_bytes(
    alloc: Global,
    texts: &mut NodeTexts,
    response: &Response,
) -> Result<Vec<u8>, NoMemory>
    ensures value { IfOk result (λ frame. frame.items ≡ frame_of response.now) }
{
    frame_of(alloc, &ResponseParts::of(response), texts)
}

/// The frame of a whole map, written from the view itself. Texts of nodes that are kept are copied, and
/// those that aren't are kept.
pub fn first_frame(
    alloc: Global,
    texts: &mut NodeTexts,
    view: &View,
    handle: Option<&Text>,
    seq: Option<u64>,
) -> Result<Vec<u8>, NoMemory>
    ensures value { IfOk result (λ frame. frame.items
        ≡ frame_of (first_response view.now (option_copied handle.entry) seq)) }
{
    frame_of(alloc, &first_response(view, handle, seq), texts)
}
