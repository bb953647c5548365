//! What the bytes held so far are.
ghost use Rattle.std.specs.Prelude.{◌≡◌, length};
ghost use Rattle.http_client.specs.Taking.{IsAnswerLook};

use crate::head::answer_length;
use http_front::HEAD_LIMIT;
use httparse::Status;
use httparse::spans::{HeaderSpan, ResponseSpans, parse_response};

/// What the bytes held so far are.
#[derive(Clone, Copy, Debug)]
pub enum AnswerLook {
    /// A whole answer, whose body is that long.
    Whole(ResponseSpans, usize),

    /// No whole answer yet.
    More,

    /// No answer.
    Bad,
}

pub(crate) fn look_at_answer(bytes: &[u8], headers: &mut [HeaderSpan]) -> AnswerLook
    requires room { length headers.old ≡ 5461 }
    ensures look { IsAnswerLook bytes.now result }
{
    let front = &bytes[..bytes.len().min(HEAD_LIMIT)];
    match parse_response(front, headers) {
        Ok(Status::Complete(head)) => match answer_length(front, headers, &head) {
            Some(size) if size as usize <= bytes.len() - head.len => {
                AnswerLook::Whole(head, size as usize)
            }
            Some(_) => AnswerLook::More,
            None => AnswerLook::Bad,
        },
        Ok(Status::Partial) => {
            if bytes.len() > HEAD_LIMIT {
                AnswerLook::Bad
            } else {
                AnswerLook::More
            }
        }
        Err(_) => AnswerLook::Bad,
    }
}
