//! What the bytes held so far are.
ghost use Rattle.std.specs.Prelude.{◌≡◌, length};
ghost use Rattle.http_front.specs.Looks.{IsLook};

use crate::head::length_of;
use crate::head_fault::HeadFault;
use crate::target::ends_in_target;
use httparse::spans::{HeaderSpan, RequestSpans, parse_request};
use httparse::{Error, Status};

/// The most bytes that a head may have.
pub const HEAD_LIMIT: usize = 16384;

/// Room for more field lines than a head of so many bytes can hold, since a line has 3 bytes at least.
pub const ROOM: usize = 5461;

/// What the bytes held so far are.
#[derive(Clone, Copy, Debug)]
pub enum Look {
    /// A whole request, whose body is that long.
    Whole(RequestSpans, usize),

    /// No whole request yet.
    More,

    /// They are refused.
    Bad(HeadFault),
}

/// What these bytes are, with room for as many field lines as a head may hold.
pub fn look_at(bytes: &[u8], headers: &mut [HeaderSpan]) -> Look
    requires room { length headers.old ≡ 5461 }
    ensures look { IsLook bytes.now headers.new result }
{
    if bytes.is_empty() {
        return Look::More;
    }
    let front = &bytes[..bytes.len().min(HEAD_LIMIT)];
    match parse_request(front, headers) {
        Ok(Status::Complete(head)) => match length_of(front, headers, &head) {
            Ok(size) if size as usize <= bytes.len() - head.len => Look::Whole(head, size as usize),
            Ok(_) => Look::More,
            Err(fault) => Look::Bad(fault),
        },
        Ok(Status::Partial) => {
            if bytes.len() > HEAD_LIMIT {
                Look::Bad(HeadFault::HeadTooLong)
            } else {
                Look::More
            }
        }
        Err(error) => match error {
            Error::TooManyHeaders => Look::Bad(HeadFault::HeadTooLong),
            _ => {
                if !ends_in_target(front) {
                    Look::Bad(HeadFault::BadHead)
                } else if bytes.len() > HEAD_LIMIT {
                    Look::Bad(HeadFault::HeadTooLong)
                } else {
                    Look::More
                }
            }
        },
    }
}
