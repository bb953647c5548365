//! One look at the bytes held.
ghost use Rattle.std.specs.Prelude.{◌≡◌, length};
ghost use Rattle.http_client.specs.Taking.{IsAnswerStep};

use crate::answer::ServerAnswer;
use crate::looking::{AnswerLook, look_at_answer};
use http_front::Buffer;
use httparse::spans::HeaderSpan;
use std::alloc::Global;
use tail_base::Bytes;

/// What one look at the bytes held resulted in.
#[derive(Drop)]
pub enum AnswerStep {
    Answer(ServerAnswer),
    More,
    Bad,
    NoMemory,
}

/// Takes the answer that the bytes begin with, if it is whole.
pub(crate) fn take_step(
    alloc: Global,
    buffer: &mut Buffer,
    headers: &mut [HeaderSpan],
) -> AnswerStep
    requires room { length headers.old ≡ 5461 }
    ensures steps { IsAnswerStep buffer.old buffer.new result }
{
    let held = buffer.held();
    let (head, size) = match look_at_answer(held, headers) {
        AnswerLook::Whole(head, size) => (head, size),
        AnswerLook::More => return AnswerStep::More,
        AnswerLook::Bad => return AnswerStep::Bad,
    };
    let Ok(body) = Bytes::from_slice(alloc, &held[head.len..head.len + size]) else {
        return AnswerStep::NoMemory;
    };
    buffer.serve(head.len + size);
    AnswerStep::Answer(ServerAnswer {
        status: head.code,
        body,
    })
}
