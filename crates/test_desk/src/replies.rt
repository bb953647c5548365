//! Replies as lines.
use std::alloc::Global;
use tail_base::{Items, NoMemory, Text};
use tailcfg::Response;
use tailnet_desk::Reply;
use wire_write::response_text;

fn add_line(told: &mut String, line: &str) -> Result<(), NoMemory> {
    told.push_str(line)?;
    told.push('\n')?;
    Ok(())
}

/// What is new in a session: a line for each response.
fn tell_frames(
    alloc: Global,
    told: &mut String,
    responses: &Items<Response>,
) -> Result<(), NoMemory> {
    if responses.is_empty() {
        return add_line(told, "nothing new");
    }
    for response in responses.as_slice() {
        let text = response_text(alloc, response)?;
        add_line(told, text.as_str())?;
    }
    Ok(())
}

fn tell_session(
    alloc: Global,
    told: &mut String,
    handle: &Text,
    seq: u64,
    resumed: bool,
    may_wait: bool,
) -> Result<(), NoMemory> {
    let how = if resumed { "goes on" } else { "begins" };
    let waits = if may_wait { "may wait" } else { "may not wait" };
    let line = format!(in alloc; "{} {how} behind {seq}, {waits}", handle.as_str())?;
    add_line(told, line.as_str())
}

/// What the desk replied.
pub(crate) fn tell_reply(alloc: Global, told: &mut String, reply: &Reply) -> Result<(), NoMemory> {
    match reply {
        Reply::Done(_) => add_line(told, "done"),
        Reply::Attached {
            handle,
            seq,
            resumed,
            may_wait,
        } => tell_session(alloc, told, handle, *seq, *resumed, *may_wait),
        Reply::Frames(responses) => tell_frames(alloc, told, responses),
        Reply::Ended => add_line(told, "ended"),
        Reply::Detached => add_line(told, "detached"),
        Reply::Refused(_) => add_line(told, "refused"),
        Reply::Lost(_) => add_line(told, "lost"),
    }
}
