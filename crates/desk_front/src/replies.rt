//! The bytes of a reply.
ghost use Rattle.std.specs.Prelude.{◌≡◌, IfOk};
ghost use Rattle.desk_front.specs.Replies.{is_machine_ask, reply_body, reply_bytes, reply_status};

use crate::bodies::{answer_body, bytes_of};
use crate::front_settings::FrontSettings;
use crate::refusals::{loss_body, loss_status, refusal_body, refusal_status};
use fresh_maps::NodeTexts;
use http::StatusCode;
use http_front::plain_answer;
use std::alloc::Global;
use tail_base::{NoMemory, Text};
use tailnet_desk::{Ask, Reply};

/// Whether a machine asks it, and not an operator or the program.
fn is_machine_ask(ask: &Ask) -> bool
    ensures value { result ≡ is_machine_ask ask.now }
{
    match ask {
        Ask::Seed { .. } | Ask::Operator(_) | Ask::Policy(_) => false,
        Ask::Machine(_) => true,
    }
}

fn reply_status(is_machine: bool, reply: &Reply) -> StatusCode
    ensures value { result ≡ reply_status is_machine reply.now }
{
    match reply {
        Reply::Done(_)
        | Reply::Attached { .. }
        | Reply::Frames(_)
        | Reply::Ended
        | Reply::Detached => StatusCode::OK,
        Reply::Refused(refusal) => refusal_status(is_machine, refusal),
        Reply::Lost(loss) => loss_status(*loss),
    }
}

fn reply_body(
    alloc: Global,
    texts: &mut NodeTexts,
    server_url: &Text,
    reply: &Reply,
) -> Result<Vec<u8>, NoMemory>
    ensures value { IfOk result (λ made. made.items ≡ reply_body server_url.now reply.now) }
{
    match reply {
        Reply::Done(answer) => answer_body(alloc, texts, server_url, answer),
        Reply::Attached { .. } | Reply::Frames(_) | Reply::Ended | Reply::Detached => {
            Ok(Vec::new(alloc))
        }
        Reply::Refused(refusal) => bytes_of(alloc, &refusal_body(alloc, refusal)?),
        Reply::Lost(loss) => bytes_of(alloc, &loss_body(alloc, *loss)?),
    }
}

/// The bytes of the answer to a reply to an ask; `close` says whether the connection ends after it.
#[tactic(auto, unfolding(crate::specs::Replies::reply_bytes))]
pub(crate) fn reply_answer(
    alloc: Global,
    texts: &mut NodeTexts,
    settings: &FrontSettings,
    ask: &Ask,
    reply: &Reply,
    close: bool,
) -> Result<Vec<u8>, NoMemory>
    ensures value { IfOk result (λ made.
        made.items ≡ reply_bytes settings.now ask.now reply.now close) }
{
    let body = reply_body(alloc, texts, &settings.server_url, reply)?;
    let status = reply_status(is_machine_ask(ask), reply);
    plain_answer(alloc, status, &body, close)
}
