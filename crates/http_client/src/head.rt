//! How long the body of an answer is.
ghost use Rattle.std.specs.Prelude.{◌≡◌, ◌≤◌, length, codes};
ghost use Rattle.http_front.specs.Looks.{spanned_values};
ghost use Rattle.http_client.specs.Answers.{answer_length, only_length, within_limit};
ghost use Rattle.http_client.specs.Taking.{spanned_answer};

use http_front::{count_named, first_named, length_value};
use httparse::spans::{HeaderSpan, ResponseSpans};

/// The most bytes that the body of an answer may have.
const ANSWER_LIMIT: u64 = 16_777_216;

/// The number, if a body may be so long.
fn within_limit(value: Option<u64>) -> Option<u64>
    ensures value { result ≡ within_limit value }
{
    match value {
        Some(length) if length <= ANSWER_LIMIT => Some(length),
        Some(_) => None,
        None => None,
    }
}

/// The length that the one `Content-Length` line states.
fn only_length(buffer: &[u8], headers: &[HeaderSpan]) -> Option<u64>
    ensures value { result
        ≡ only_length (spanned_values buffer.now headers.now (codes "Content-Length")) }
{
    if count_named(buffer, headers, b"Content-Length") != 1 {
        return None;
    }
    match first_named(buffer, headers, b"Content-Length") {
        Some(value) => within_limit(length_value(value)),
        None => None,
    }
}

/// The length of the body, if the version is 1.1 and one line states it.
#[tactic(auto, unfolding(crate::specs::Answers::answer_length))]
pub(crate) fn answer_length(
    buffer: &[u8],
    headers: &[HeaderSpan],
    head: &ResponseSpans,
) -> Option<u64>
    requires lines { head.now.headers ≤ length headers.now }
    ensures value { result ≡ answer_length (spanned_answer buffer.now headers.now head.now) }
{
    if head.version != 1 {
        return None;
    }
    only_length(buffer, &headers[..head.headers])
}
