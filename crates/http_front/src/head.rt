//! How long the body behind a head is, or why the head is refused.
ghost use Rattle.std.specs.Prelude.{◌≡◌, ◌≤◌, length, codes, true};
ghost use Rattle.std.specs.Str.{all_ascii_digits};
ghost use Rattle.std.specs.Str.Parse.{digits_value};
ghost use Rattle.http_front.specs.Lines.{length_value, limited, body_length};
ghost use Rattle.http_front.specs.Requests.{wants_length, length_of};
ghost use Rattle.http_front.specs.Looks.{spanned_head, spanned_values};

use crate::head_fault::HeadFault;
use crate::lines::{all_named_are, bytes_of, count_named, first_named};
use httparse::spans::{HeaderSpan, RequestSpans};

/// The most field lines that a head may have.
const LINE_LIMIT: usize = 64;

/// The most bytes that a body may have.
const BODY_LIMIT: u64 = 1048576;

fn number(digits: &[u8]) -> u64
    requires few { length digits.now ≤ 10 }
    requires digits { all_ascii_digits digits.now ≡ true }
    ensures value { result ≡ digits_value 10 digits.now }
{
    let mut value: u64 = 0;
    for digit in digits {
        value = value * 10 + u64::from(*digit - b'0');
    }
    value
}

fn are_digits(bytes: &[u8]) -> bool
    ensures value { result ≡ all_ascii_digits bytes.now }
{
    let mut rest = bytes;
    while let [byte, more @ ..] = rest {
        if !byte.is_ascii_digit() {
            return false;
        }
        rest = more;
    }
    true
}

/// The number that 1 to 10 digits write.
pub fn length_value(digits: &[u8]) -> Option<u64>
    ensures value { result ≡ length_value digits.now }
{
    if !digits.is_empty() && digits.len() <= 10 && are_digits(digits) {
        Some(number(digits))
    } else {
        None
    }
}

/// That number as the length of a body, or why the head is refused.
fn limited(value: Option<u64>) -> Result<u64, HeadFault>
    ensures value { result ≡ limited value }
{
    match value {
        Some(length) if length <= BODY_LIMIT => Ok(length),
        Some(_) => Err(HeadFault::BodyTooLong),
        None => Err(HeadFault::BadHead),
    }
}

#[tactic(auto, unfolding(crate::specs::Lines::body_length))]
fn body_length(buffer: &[u8], headers: &[HeaderSpan], wanted: bool) -> Result<u64, HeadFault>
    ensures value { result
        ≡ body_length wanted (spanned_values buffer.now headers.now (codes "Content-Length")) }
{
    match first_named(buffer, headers, b"Content-Length") {
        None if wanted => Err(HeadFault::NoLength),
        None => Ok(0),
        Some(value) => {
            if all_named_are(buffer, headers, b"Content-Length", value) {
                limited(length_value(value))
            } else {
                Err(HeadFault::BadHead)
            }
        }
    }
}

fn wants_length(method: &[u8]) -> bool
    ensures value { result ≡ wants_length method.now }
{
    method == b"POST".as_slice() || method == b"PUT".as_slice()
}

/// The length of the body, or the first rule that the head breaks.
#[tactic(auto, unfolding(crate::specs::Requests::length_of))]
pub fn length_of(
    buffer: &[u8],
    headers: &[HeaderSpan],
    head: &RequestSpans,
) -> Result<u64, HeadFault>
    requires lines { head.now.headers ≤ length headers.now }
    ensures value { result ≡ length_of (spanned_head buffer.now headers.now head.now) }
{
    let lines = &headers[..head.headers];
    if lines.len() > LINE_LIMIT {
        return Err(HeadFault::HeadTooLong);
    }
    if head.version != 1 {
        return Err(HeadFault::BadHead);
    }
    if count_named(buffer, lines, b"Host") != 1 {
        return Err(HeadFault::BadHead);
    }
    if count_named(buffer, lines, b"Transfer-Encoding") > 0 {
        return Err(HeadFault::NoLength);
    }
    body_length(buffer, lines, wants_length(bytes_of(buffer, head.method)))
}
