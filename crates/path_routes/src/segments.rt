//! Segments of paths.
ghost use Rattle.std.specs.Prelude.{◌≡◌};
ghost use Rattle.path_routes.specs.Segments.{before_slash, id_of, segment_from};

use net_rows::COUNTER_LIMIT;
use tail_base::number_in;

/// The bytes before the first slash, or all.
fn before_slash(text: &[u8]) -> &[u8]
    ensures value { result.now ≡ before_slash text.now }
{
    for (i, byte) in text.iter().enumerate() {
        if *byte == b'/' {
            return &text[..i];
        }
    }
    text
}

/// The bytes of a path from this place on, up to a slash or the end.
pub(crate) fn segment_from(path: &[u8], start: usize) -> &[u8]
    ensures value { result.now ≡ segment_from path.now start }
{
    if start <= path.len() {
        before_slash(&path[start..])
    } else {
        before_slash(&[])
    }
}

/// The id that a segment spells in decimal digits without leading zeros, from 1 to the greatest.
pub(crate) fn id_of(text: &[u8]) -> Option<u32>
    ensures value { result ≡ id_of text.now }
{
    match number_in(text, 10, 1, u64::from(COUNTER_LIMIT)) {
        Some(id) => Some(id as u32),
        None => None,
    }
}
