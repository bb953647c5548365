//! The names that machines are given by their host names.
ghost use Rattle.std.specs.Prelude.{◌≡◌, false, map, take, IfOk};
ghost use Rattle.std.specs.Char.{to_ascii_lowercase};
ghost use Rattle.tail_base.specs.Labels.{is_alnum, or_node, squeezed, trimmed, trimmed_end, trimmed_start};

use crate::ascii::is_alnum;
use crate::memory::NoMemory;
use std::alloc::Global;

/// Letters and digits in lower case, with one hyphen for each run of other bytes.
pub(crate) fn squeezed(alloc: Global, host: &[u8]) -> Result<Vec<u8>, NoMemory>
    ensures value { IfOk result
        (λ text. text.items ≡ squeezed false (map to_ascii_lowercase host.now)) }
{
    let mut text = Vec::new(alloc);
    let mut in_run = false;
    for b in host {
        let b = b.to_ascii_lowercase();
        if is_alnum(b) {
            text.push(b)?;
            in_run = false;
        } else {
            if !in_run {
                text.push(b'-')?;
            }
            in_run = true;
        }
    }
    Ok(text)
}

/// At most the first `most` bytes.
pub(crate) fn cut(text: &[u8], most: usize) -> &[u8]
    ensures value { result.now ≡ take most text.now }
{
    if text.len() <= most {
        text
    } else {
        &text[..most]
    }
}

/// The text without the hyphens at its start.
fn trimmed_start(text: &[u8]) -> &[u8]
    ensures value { result.now ≡ trimmed_start text.now }
{
    let mut kept = text;
    while let Some(rest) = kept.strip_prefix(b"-") {
        kept = rest;
    }
    kept
}

/// The text without the hyphens at its end.
pub(crate) fn trimmed_end(text: &[u8]) -> &[u8]
    ensures value { result.now ≡ trimmed_end text.now }
{
    let mut kept = text;
    while let Some(rest) = kept.strip_suffix(b"-") {
        kept = rest;
    }
    kept
}

/// The text without the hyphens at either end.
pub(crate) fn trimmed(text: &[u8]) -> &[u8]
    ensures value { result.now ≡ trimmed text.now }
{
    trimmed_end(trimmed_start(text))
}

/// The text, or `node` where it is empty.
pub(crate) fn or_node(text: &[u8]) -> &[u8]
    ensures value { result.now ≡ or_node text.now }
{
    if text.is_empty() { b"node" } else { text }
}
