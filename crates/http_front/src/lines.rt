//! The field lines of a head by name, as the parser's spans show them.
ghost use Rattle.std.specs.Prelude.{◌≡◌, length, Option, option_map};
ghost use Rattle.httparse.specs.Spans.{span_bytes, header_bytes};
ghost use Rattle.std.specs.Str.{str_eq_ignore_ascii_case};
ghost use Rattle.http_front.specs.Lines.{first_of, any_is, all_are};
ghost use Rattle.http_front.specs.Looks.{spanned_values};

use httparse::spans::{HeaderSpan, Span};

/// The bytes of a span, as far as the buffer has them.
pub fn bytes_of(buffer: &[u8], span: Span) -> &[u8]
    ensures value { result.now ≡ span_bytes buffer.now span }
{
    let end = span.end.min(buffer.len());
    let start = span.start.min(end);
    &buffer[start..end]
}

/// Whether two words are the same without regard to ASCII case.
fn is_same_word(a: &[u8], b: &[u8]) -> bool
    ensures value { result ≡ str_eq_ignore_ascii_case a.now b.now }
{
    a.eq_ignore_ascii_case(b)
}

fn is_named(buffer: &[u8], header: HeaderSpan, name: &[u8]) -> bool
    ensures value { result ≡ str_eq_ignore_ascii_case (header_bytes buffer.now header).0 name.now }
{
    is_same_word(bytes_of(buffer, header.name), name)
}

/// How many lines have that name.
pub fn count_named(buffer: &[u8], headers: &[HeaderSpan], name: &[u8]) -> usize
    ensures value { result ≡ length (spanned_values buffer.now headers.now name.now) }
{
    let mut count = 0;
    let mut rest = headers;
    while let [header, more @ ..] = rest {
        if is_named(buffer, *header, name) {
            count += 1;
        }
        rest = more;
    }
    count
}

/// The value of the first line of that name.
pub fn first_named<'b>(buffer: &'b [u8], headers: &[HeaderSpan], name: &[u8]) -> Option<&'b [u8]>
    ensures value { option_map (λ v. v.now) result
        ≡ first_of (spanned_values buffer.now headers.now name.now) }
{
    let mut rest = headers;
    while let [header, more @ ..] = rest {
        if is_named(buffer, *header, name) {
            return Some(bytes_of(buffer, header.value));
        }
        rest = more;
    }
    None
}

/// Whether some line of that name has the word as its value, without regard to case.
pub fn any_named_is(buffer: &[u8], headers: &[HeaderSpan], name: &[u8], word: &[u8]) -> bool
    ensures value { result ≡ any_is word.now (spanned_values buffer.now headers.now name.now) }
{
    let mut rest = headers;
    while let [header, more @ ..] = rest {
        if is_named(buffer, *header, name) && is_same_word(bytes_of(buffer, header.value), word) {
            return true;
        }
        rest = more;
    }
    false
}

/// Whether all lines of that name have that value, byte for byte.
pub fn all_named_are(buffer: &[u8], headers: &[HeaderSpan], name: &[u8], value: &[u8]) -> bool
    ensures value { result ≡ all_are value.now (spanned_values buffer.now headers.now name.now) }
{
    let mut rest = headers;
    while let [header, more @ ..] = rest {
        if is_named(buffer, *header, name) && bytes_of(buffer, header.value) != value {
            return false;
        }
        rest = more;
    }
    true
}
